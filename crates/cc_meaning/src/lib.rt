//! The interpreter of C. Its results are exactly the meaning of C: a program's behavior on an input within a number of steps.
//!
//! - `form`: the instructions that a typed unit becomes.
//! - `writer`, on `emitter`: writes them.
//! - `operation`: the values of operations on words.
//! - `interpreter`: runs a form with one stack.
//! - `run`: runs a typed unit.
//! - `outcome`: the outcome of a run.
//! - `fault`: the refusal 40.
//!
//! The crate exports `interpret`, `interpret_observed` and `interpret_within`, the types of its arguments and results, and the items of `cc_c_semantics`. The meaning of C
//! is defined in that crate's `specs/Meaning.antt`, and it is proved that `interpret` returns it.
#![tactic(auto)]

mod emitter;
mod fault;
mod form;
mod fused;
mod interpreter;
mod operation;
mod outcome;
mod run;
mod writer;

pub use cc_c_semantics::{
    Cause, calls_are_effects, calls_go_on, calls_keep_objects, functions_are_resolved,
    functions_have_meaning, names_have_numbers, programs_call_main, runs_go_on,
    units_have_meanings,
};
pub use fault::MeaningFault;
pub use interpreter::MOST_OPEN;
pub use outcome::{BoundedOutcome, Event, Events, Observed, Outcome, Stop, Words};
pub use run::{interpret, interpret_observed, interpret_within};
