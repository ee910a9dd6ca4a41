// What a worker answers for a function.

ghost use Rattle.std.specs.Prelude.{◌≡◌, ◌≢◌, ◌<◌, length};
ghost use Rattle.std.specs.Arc.{arc_value};
ghost use Rattle.cc_ast.specs.Source.{source};
ghost use Rattle.cc_types.specs.Typed.{defined_names};
ghost use Rattle.cc_link.specs.Compile.{IsPieceRefusalIn};
ghost use Rattle.cc_link.specs.declared.piece_fault.PieceFault.TheVariants.{OutOfMemory};
ghost use Rattle.cc_pool.specs.Fault.{IsRefusedAt};

use cc_emit::Piece;
use cc_link::{Mode, PieceFault, compile_function_in};
use cc_types::TypedUnit;
use std::alloc::Global;
use std::marker::Model;
use std::sync::Arc;

/// A worker's answer, which names its unit and function.
#[derive(Drop)]
pub enum Answer {
    Made(Piece),
    Refused(Refusal),
}

/// A function that a worker refused for a reason other than lack of memory. Contracts see the mode, the function's text and
/// number, and the reason.
#[derive(Drop)]
pub struct Refusal {
    mode: Mode,
    unit: Arc<TypedUnit>,
    function: usize,
    fault: PieceFault,
}

impl Model for Refusal {
    ghost use Rattle.std.specs.Arc.{arc_value};
    ghost use Rattle.cc_ast.specs.Source.{source};
    ghost use Rattle.cc_pool.specs.Fault.{IsRefusedAt};
    ghost use Rattle.cc_pool.specs.Answers.{FunctionRefusal};

    ghost Value = { FunctionRefusal };

    ghost view = { λ r. record { mode = r.mode; text = (source (arc_value r.unit)).text; function = r.function; fault = r.fault } };

    ghost invariant = { λ r. IsRefusedAt r.mode (source (arc_value r.unit)).text r.function r.fault };
}

// The answer for a function of a unit in a mode, or `None` if memory ran out.
pub(crate) fn answered(
    alloc: Global,
    mode: Mode,
    unit: Arc<TypedUnit>,
    function: usize,
) -> Option<Answer>
    requires { function < length (defined_names (source (arc_value unit))) }
{
    match compile_function_in(alloc, mode, &unit, function) {
        Ok(piece) => Some(Answer::Made(piece)),
        Err(PieceFault::OutOfMemory) => None,
        Err(fault) => Some(Answer::Refused(Refusal::new(mode, unit, function, fault))),
    }
}

impl Refusal {
    fn new(mode: Mode, unit: Arc<TypedUnit>, function: usize, fault: PieceFault) -> Refusal
        requires within { function < length (defined_names (source (arc_value unit))) }
        requires refused { IsPieceRefusalIn mode (source (arc_value unit)).externals function fault }
        requires real { fault ≢ OutOfMemory }
    {
        let _kept = unit.externals();
        Refusal {
            mode,
            unit,
            function,
            fault,
        }
    }

    pub(crate) fn mode(&self) -> Mode
        ensures { result ≡ self.now.mode }
    {
        self.mode
    }

    pub(crate) fn text(&self) -> &[u8]
        ensures { result.now ≡ self.now.text }
    {
        self.unit.text()
    }

    pub(crate) fn function(&self) -> usize
        ensures { result ≡ self.now.function }
    {
        self.function
    }

    pub(crate) fn fault(&self) -> PieceFault
        ensures answer { result ≡ self.now.fault }
        ensures refused { IsRefusedAt self.now.mode self.now.text self.now.function self.now.fault }
    {
        self.fault
    }
}
