// What goes to the workers.

ghost use Rattle.std.specs.Prelude.{◌≡◌, ◌<◌, IfOk, length};
ghost use Rattle.std.specs.Arc.{arc_value};
ghost use Rattle.cc_ast.specs.Source.{source};
ghost use Rattle.cc_types.specs.Typed.{defined_names};
ghost use Rattle.cc_types.specs.Limits.{most_functions};

use crate::answer::{Answer, answered};
use crate::gate::Gate;
use cc_link::Mode;
use cc_types::TypedUnit;
use crossbeam_channel::Sender;
use std::alloc::{AllocError, Global};
use std::marker::Model;
use std::sync::{Arc, Wait};

/// An item of the queue: a piece to be made, or the signal that makes a worker stop.
#[derive(Drop)]
pub enum Item {
    Piece(Order),
    Stop,
}

/// A function of a unit that is to be compiled in a mode, and where the answer goes. Contracts see the job's number and the
/// function's number.
#[derive(Drop)]
pub struct Order {
    job: u64,
    function: usize,
    mode: Mode,
    unit: Arc<TypedUnit>,
    answers: Sender<Answer>,
}

impl Model for Order {
    ghost use Rattle.std.specs.Prelude.{◌<◌, length};
    ghost use Rattle.std.specs.Arc.{arc_value};
    ghost use Rattle.cc_ast.specs.Source.{source};
    ghost use Rattle.cc_types.specs.Typed.{defined_names};
    ghost use Rattle.cc_types.specs.Limits.{most_functions};
    ghost use Rattle.cc_pool.specs.Job.{JobFunction};

    ghost Value = { JobFunction };

    ghost view = { λ o. record { job = o.job; function = o.function } };

    ghost invariant = { λ o. (o.function < length (defined_names (source (arc_value o.unit)))) × (o.function < most_functions) };
}

impl Order {
    // The order for a function of a job. Err: memory ran out.
    pub(crate) fn new(
        job: u64,
        function: usize,
        mode: Mode,
        unit: &Arc<TypedUnit>,
        answers: &Sender<Answer>,
    ) -> Result<Order, AllocError>
        requires within { function < length (defined_names (source (arc_value unit.now))) }
        requires few { function < most_functions }
        ensures job { IfOk result (λ o. o.job ≡ job) }
        ensures function { IfOk result (λ o. o.function ≡ function) }
    {
        let unit = Arc::try_clone(unit)?;
        let answers = answers.clone()?;
        Ok(Order {
            job,
            function,
            mode,
            unit,
            answers,
        })
    }

    // Compiles the function and sends the answer. If memory runs out, no answer is sent, and the job's answers end early.
    pub(crate) fn fill<R: Wait, G: Gate>(self, rt: &R, alloc: Global, gate: &G) {
        let Order {
            job,
            function,
            mode,
            unit,
            answers,
        } = self;
        gate.before(job, function as u32);
        if let Some(answer) = answered(alloc, mode, unit, function) {
            drop(answers.send(rt, answer));
        }
    }
}
