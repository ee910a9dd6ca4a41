// From a function's tree to the piece of its code.

ghost use Rattle.std.specs.Prelude.{◌≡◌, ◌<◌, length, IfOk, IfErr};
ghost use Rattle.std.specs.Arc.{arc_value};
ghost use Rattle.cc_ast.specs.Source.{source};
ghost use Rattle.cc_types.specs.Typed.{defined_names};
ghost use Rattle.cc_c_semantics.specs.declared.mode.Mode.TheVariants.{Plain};
ghost use Rattle.cc_link.specs.Compile.{IsNameAt, IsPieceRefusal, IsPieceRefusalIn};

use crate::allocations::Allocations;
use crate::passes::{finished, prepared};
use crate::piece_fault::PieceFault;
use crate::watching::{Allocation, Unwatched, Watch};
use cc_c_semantics::Mode;
use cc_emit::Piece;
use cc_rtl::RtlFault;
use cc_types::TypedUnit;
use cc_validate::ValidateFault;
use std::alloc::Global;
use std::sync::Arc;

// The offset at which a function's name begins in the text, and the number of bytes in the name.
fn name_of(unit: &TypedUnit, function: usize) -> (usize, usize)
    requires { function < length (defined_names (source unit.now)) }
    ensures { IsNameAt (source unit.now).externals function result.0 result.1 }
{
    let name = &unit.definition(function).signature.name;
    (name.at, name.bytes.len())
}

/// The piece of the function with this number in a mode. The function goes through Cminor (with guards in the checked mode), RTL,
/// validated LTL, Linear and selected steps. `watch` sees each of them. Functions are numbered from 0 in the order of their
/// definitions. The piece's type keeps that the code does what the function does in the mode, whatever the allocation and whoever
/// watches.
///
/// Refusals, the first two with the place of the function's name: FunctionTooLarge (22) if the function would have more than
/// 4,096 nodes of RTL or its guards would set more than 2,048 variables, which takes more than 256 tokens (177 for a checked
/// piece); Unvalidated (24) if the validator refuses the allocation; OutOfMemory (40) if memory ran out, or `watch` refused.
pub fn compile_watched_in<W: Watch>(
    alloc: Global,
    mode: Mode,
    unit: &Arc<TypedUnit>,
    function: usize,
    allocation: Allocation,
    watch: &mut W,
) -> Result<Piece, PieceFault>
    requires { function < length (defined_names (source (arc_value unit.now))) }
    ensures mode { IfOk result (λ piece. piece.mode ≡ mode) }
    ensures unit { IfOk result (λ piece. piece.unit ≡ arc_value unit.now) }
    ensures function { IfOk result (λ piece. piece.function ≡ function) }
    ensures refused { IfErr result (λ fault. IsPieceRefusalIn mode (source (arc_value unit.now)).externals function fault) }
{
    let (at, length) = name_of(unit, function);
    match prepared(alloc, mode, unit, function, watch) {
        Ok(colourable) => match finished(alloc, colourable, allocation, watch) {
            Ok(piece) => Ok(piece),
            Err(ValidateFault::Unvalidated { label }) => Err(PieceFault::Unvalidated {
                at,
                length,
                label,
            }),
            Err(ValidateFault::OutOfMemory) => Err(PieceFault::OutOfMemory),
        },
        Err(fault) => {
            drop(allocation);
            match fault {
                RtlFault::FunctionTooLarge => Err(PieceFault::FunctionTooLarge { at, length }),
                RtlFault::OutOfMemory => Err(PieceFault::OutOfMemory),
            }
        }
    }
}

/// The piece of the function with this number in a mode, with the first of these allocations; nobody watches. It answers as
/// `compile_watched_in` does, or with 24 at label 0 if there is no allocation, since nothing then shows that the code does what
/// the function does.
pub(crate) fn compile_first_in(
    alloc: Global,
    mode: Mode,
    unit: &Arc<TypedUnit>,
    function: usize,
    allocations: Allocations<'_>,
) -> Result<Piece, PieceFault>
    requires { function < length (defined_names (source (arc_value unit.now))) }
    ensures mode { IfOk result (λ piece. piece.mode ≡ mode) }
    ensures unit { IfOk result (λ piece. piece.unit ≡ arc_value unit.now) }
    ensures function { IfOk result (λ piece. piece.function ≡ function) }
    ensures refused { IfErr result (λ fault. IsPieceRefusalIn mode (source (arc_value unit.now)).externals function fault) }
{
    match allocations.first(alloc) {
        Ok(Some(allocation)) => compile_watched_in(
            alloc,
            mode,
            unit,
            function,
            allocation,
            &mut Unwatched,
        ),
        Ok(None) => {
            let (at, length) = name_of(unit, function);
            let label = 0;
            Err(PieceFault::Unvalidated { at, length, label })
        }
        Err(_) => Err(PieceFault::OutOfMemory),
    }
}

/// The piece of the function with this number in a mode, with values in registers, or, if the validator refuses these, with a
/// slot for each value. Nobody watches. It answers as `compile_watched_in` does.
pub fn compile_function_in(
    alloc: Global,
    mode: Mode,
    unit: &Arc<TypedUnit>,
    function: usize,
) -> Result<Piece, PieceFault>
    requires { function < length (defined_names (source (arc_value unit.now))) }
    ensures mode { IfOk result (λ piece. piece.mode ≡ mode) }
    ensures unit { IfOk result (λ piece. piece.unit ≡ arc_value unit.now) }
    ensures function { IfOk result (λ piece. piece.function ≡ function) }
    ensures refused { IfErr result (λ fault. IsPieceRefusalIn mode (source (arc_value unit.now)).externals function fault) }
{
    compile_watched_in(
        alloc,
        mode,
        unit,
        function,
        Allocation::Chosen,
        &mut Unwatched,
    )
}

/// The plain piece of the function with this number. It answers as `compile_function_in` does.
pub fn compile_function(
    alloc: Global,
    unit: &Arc<TypedUnit>,
    function: usize,
) -> Result<Piece, PieceFault>
    requires { function < length (defined_names (source (arc_value unit.now))) }
    ensures mode { IfOk result (λ piece. piece.mode ≡ Plain) }
    ensures unit { IfOk result (λ piece. piece.unit ≡ arc_value unit.now) }
    ensures function { IfOk result (λ piece. piece.function ≡ function) }
    ensures refused { IfErr result (λ fault. IsPieceRefusal (source (arc_value unit.now)).externals function fault) }
{
    compile_function_in(alloc, Mode::Plain, unit, function)
}
