// A job that was handed in.

ghost use Rattle.std.specs.Prelude.{◌≡◌, length, All, IfOk, IfErr};
ghost use Rattle.std.specs.Arc.{arc_value};
ghost use Rattle.cc_ast.specs.Source.{source};
ghost use Rattle.cc_types.specs.Typed.{defined_names};
ghost use Rattle.cc_link.specs.Made.{IsCompiled};
ghost use Rattle.cc_link.specs.Pieces.{AreFromIn};
ghost use Rattle.cc_pool.specs.Fault.{IsJobRefusal};

use crate::answer::Answer;
use crate::fault::PoolFault;
use crate::ordering::{gather, in_order};
use cc_emit::Piece;
use cc_link::Mode;
use cc_types::TypedUnit;
use crossbeam_channel::Receiver;
use std::alloc::Global;
use std::marker::Model;
use std::sync::{Arc, Wait};

/// A job that was handed in. Contracts see its number, its mode, and its unit's text and number of functions.
pub struct Ticket {
    number: u64,
    mode: Mode,
    unit: Arc<TypedUnit>,
    answers: Receiver<Answer>,
}

// Written by hand, so that crates that use this one rely on this proof and need not prove again how each part is dropped.
impl Drop for Ticket {
    fn drop(self) {
        let Ticket {
            number,
            mode,
            unit,
            answers,
        } = self;
    }
}

impl Model for Ticket {
    ghost use Rattle.std.specs.Prelude.{length};
    ghost use Rattle.std.specs.Arc.{arc_value};
    ghost use Rattle.cc_ast.specs.Source.{source};
    ghost use Rattle.cc_types.specs.Typed.{defined_names};
    ghost use Rattle.cc_pool.specs.Job.{Job};

    ghost Value = { Job };

    ghost view = { λ t. record { number = t.number; mode = t.mode; text = (source (arc_value t.unit)).text; functions = length (defined_names (source (arc_value t.unit))) } };
}

impl Ticket {
    pub(crate) fn new(
        number: u64,
        mode: Mode,
        unit: Arc<TypedUnit>,
        answers: Receiver<Answer>,
    ) -> Ticket
        ensures number { result.number ≡ number }
        ensures mode { result.mode ≡ mode }
        ensures text { result.text ≡ (source (arc_value unit)).text }
        ensures functions { result.functions ≡ length (defined_names (source (arc_value unit))) }
    {
        Ticket {
            number,
            mode,
            unit,
            answers,
        }
    }

    /// The job's number, which the job's items on the queue carry. A pool numbers its jobs from 0 on in the order in which they are
    /// handed in, although no clause says so.
    pub fn number(&self) -> u64
        ensures { result ≡ self.now.number }
    {
        self.number
    }

    // Waits for all answers, and puts them in order.
    pub(crate) fn collect<R: Wait>(self, rt: &R, alloc: Global) -> Result<Vec<Piece>, PoolFault>
        ensures count { IfOk result (λ pieces. length pieces.items ≡ self.functions) }
        ensures own { IfOk result (λ pieces. AreFromIn self.mode self.text 0 pieces.items) }
        ensures compiled { IfOk result (λ pieces. All IsCompiled pieces.items) }
        ensures refused { IfErr result (λ fault. IsJobRefusal self.mode self.text fault) }
    {
        let Ticket {
            number: _,
            mode,
            unit,
            answers,
        } = self;
        let functions = unit.functions();
        match gather(rt, alloc, &answers, functions) {
            Ok(came) => in_order(alloc, mode, unit.text(), functions, came),
            Err(_) => Err(PoolFault::OutOfMemory),
        }
    }
}
