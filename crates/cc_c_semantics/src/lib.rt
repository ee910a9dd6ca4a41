//! The meaning of C: what a typed unit does on an input within a number of steps. The meaning is defined in `specs/`.
//! Nothing in this crate runs a program: `cc_meaning` contains the interpreter, whose results are exactly this meaning, and
//! the passes follow the meaning.
//!
//! - `cause`: why a program goes wrong.
//! - `mode`: what a compiled program must do if its source goes wrong.
//! - `laws`: what holds for every program. These functions do nothing; the contract of each is a law of the definitions.
#![tactic(auto)]

mod cause;
mod laws;
mod mode;

pub use cause::Cause;
pub use laws::{
    calls_are_effects, calls_go_on, calls_keep_objects, functions_are_resolved,
    functions_have_meaning, names_have_numbers, observed_runs_go_on, programs_are_checked,
    programs_call_main, runs_go_on, units_have_meanings,
};
pub use mode::Mode;
