// From a text to a compiled unit, on one thread.

ghost use Rattle.std.specs.Prelude.{◌≡◌, ◌<◌, ℕ, List, length, All, IfOk, IfErr};
ghost use Rattle.std.specs.Arc.{arc_value};
ghost use Rattle.cc_ast.specs.Source.{source};
ghost use Rattle.cc_ast.specs.Tree.{External};
ghost use Rattle.cc_c_semantics.specs.Meaning.{functions};
ghost use Rattle.cc_c_semantics.specs.declared.mode.Mode.TheVariants.{Plain};
ghost use Rattle.cc_link.specs.Agree.{Agree, AgreeIn};
ghost use Rattle.cc_link.specs.Compile.{IsPieceRefusalIn, IsBuildRefusal, IsBuildRefusalIn, HasPieceIn};
ghost use Rattle.cc_link.specs.Made.{IsCompiled, IsMadeIn};
ghost use Rattle.cc_link.specs.Pieces.{AreFromIn};
ghost use Rattle.cc_link.specs.Text.{IsProgramText};
ghost use Rattle.cc_link.specs.Whole.{IsWholeIn};

use crate::allocations::Allocations;
use crate::build_fault::BuildFault;
use crate::compiled::{Compilation, CompiledUnit};
use crate::function::compile_first_in;
use crate::laws::linked_units_follow;
use crate::linking::link_all_in;
use crate::piece_fault::PieceFault;
use crate::text::typed_unit;
use cc_c_semantics::Mode;
use cc_emit::Piece;
use cc_types::TypedUnit;
use std::alloc::Global;
use std::sync::Arc;

/// The pieces of a unit's functions in a mode, in order: what `compile_function_in` answers for each function. The fault is that
/// of the first function that has no piece.
pub fn compile_functions_in(
    alloc: Global,
    mode: Mode,
    unit: &Arc<TypedUnit>,
) -> Result<Vec<Piece>, PieceFault>
    ensures count { IfOk result (λ pieces. length pieces.items ≡ length (functions (source (arc_value unit.now)).externals)) }
    ensures own { IfOk result (λ pieces. AreFromIn mode (source (arc_value unit.now)).text 0 pieces.items) }
    ensures compiled { IfOk result (λ pieces. All IsCompiled pieces.items) }
    ensures refused { IfErr result (λ fault. (f : ℕ) × (f < length (functions (source (arc_value unit.now)).externals)) × IsPieceRefusalIn mode (source (arc_value unit.now)).externals f fault
        × ((g : ℕ) → g < f → HasPieceIn mode (source (arc_value unit.now)).text g)) }
{
    pieces_by(alloc, mode, unit, Allocations::Chosen)
}

// The pieces of a unit's functions in a mode, in order, made with these allocations.
fn pieces_by(
    alloc: Global,
    mode: Mode,
    unit: &Arc<TypedUnit>,
    allocations: Allocations<'_>,
) -> Result<Vec<Piece>, PieceFault>
    ensures count { IfOk result (λ pieces. length pieces.items ≡ length (functions (source (arc_value unit.now)).externals)) }
    ensures own { IfOk result (λ pieces. AreFromIn mode (source (arc_value unit.now)).text 0 pieces.items) }
    ensures compiled { IfOk result (λ pieces. All IsCompiled pieces.items) }
    ensures refused { IfErr result (λ fault. (f : ℕ) × (f < length (functions (source (arc_value unit.now)).externals)) × IsPieceRefusalIn mode (source (arc_value unit.now)).externals f fault
        × ((g : ℕ) → g < f → HasPieceIn mode (source (arc_value unit.now)).text g)) }
{
    let mut left = allocations;
    let mut pieces = Vec::new(alloc);
    let count = unit.functions();
    let _kept = unit.externals();
    for function in 0..count {
        let piece = match compile_first_in(alloc, mode, unit, function, left) {
            Ok(piece) => piece,
            Err(fault) => return Err(fault),
        };
        let _kept = piece.items();
        if pieces.push(piece).is_err() {
            return Err(PieceFault::OutOfMemory);
        }
        left = left.rest();
    }
    Ok(pieces)
}

// Compiles the program with this tree in a mode, with these allocations.
fn compile_unit(
    alloc: Global,
    mode: Mode,
    typed: Arc<TypedUnit>,
    allocations: Allocations<'_>,
) -> Result<Compilation, BuildFault>
    requires { IsProgramText (source (arc_value typed)).text (source (arc_value typed)).externals }
    ensures whole { IfOk result (IsWholeIn mode (source (arc_value typed)).text) }
    ensures refused { IfErr result (λ fault. IsBuildRefusalIn mode (source (arc_value typed)).text fault) }
{
    let pieces = match pieces_by(alloc, mode, &typed, allocations) {
        Ok(pieces) => pieces,
        Err(fault) => return Err(BuildFault::Piece(fault)),
    };
    match link_all_in(alloc, mode, &typed, pieces.as_slice()) {
        Ok(unit) => Ok(Compilation {
            typed,
            pieces,
            unit,
        }),
        Err(fault) => Err(BuildFault::Link(fault)),
    }
}

/// Compiles a text in a mode with these allocations, and returns the unit together with what it was made of. It answers as
/// `compile_in` does.
pub(crate) fn compile_by(
    alloc: Global,
    mode: Mode,
    text: &[u8],
    allocations: Allocations<'_>,
) -> Result<Compilation, BuildFault>
    ensures whole { IfOk result (IsWholeIn mode text.now) }
    ensures refused { IfErr result (λ fault. IsBuildRefusalIn mode text.now fault) }
{
    match typed_unit(alloc, text) {
        Ok(typed) => compile_unit(alloc, mode, typed, allocations),
        Err(fault) => Err(BuildFault::Text(fault)),
    }
}

/// Compiles a text in a mode, and returns the unit together with what it was made of. It answers as `compile_in` does.
pub fn compile_whole_in(alloc: Global, mode: Mode, text: &[u8]) -> Result<Compilation, BuildFault>
    ensures whole { IfOk result (IsWholeIn mode text.now) }
    ensures refused { IfErr result (λ fault. IsBuildRefusalIn mode text.now fault) }
{
    compile_by(alloc, mode, text, Allocations::Chosen)
}

/// Compiles a text in a mode: its source is the text, its image agrees with it, and on every input the run of the image follows
/// what the program shows in the mode.
///
/// Refusals: 1 to 7 and 11 to 21 exactly as `typed_unit` has them; otherwise FunctionTooLarge (22) or Unvalidated (24) with the
/// name of the first function that has no piece; ImageTooLarge (25) if `link_in` refuses the pieces with it; OutOfMemory (40) if
/// memory ran out.
pub fn compile_in(alloc: Global, mode: Mode, text: &[u8]) -> Result<CompiledUnit, BuildFault>
    ensures source { IfOk result (λ unit. unit.source ≡ text.now) }
    ensures agrees { IfOk result (λ unit. Agree text.now unit.image) }
    ensures follows { IfOk result (λ unit. AgreeIn mode text.now unit.image) }
    ensures made { IfOk result (IsMadeIn mode) }
    ensures program { IfOk result (λ _. (tree : List External) × IsProgramText text.now tree) }
    ensures refused { IfErr result (λ fault. IsBuildRefusalIn mode text.now fault) }
{
    linked_units_follow();
    match compile_whole_in(alloc, mode, text) {
        Ok(made) => Ok(made.into_unit()),
        Err(fault) => Err(fault),
    }
}

/// Compiles a text to a plain image: its source is the text, and its image agrees with it. It answers as `compile_in` does.
pub fn compile(alloc: Global, text: &[u8]) -> Result<CompiledUnit, BuildFault>
    ensures source { IfOk result (λ unit. unit.source ≡ text.now) }
    ensures agrees { IfOk result (λ unit. Agree text.now unit.image) }
    ensures made { IfOk result (IsMadeIn Plain) }
    ensures program { IfOk result (λ _. (tree : List External) × IsProgramText text.now tree) }
    ensures refused { IfErr result (λ fault. IsBuildRefusal text.now fault) }
{
    compile_in(alloc, Mode::Plain, text)
}
