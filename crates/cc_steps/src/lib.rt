//! Runs with a count, and runs that show each read and write: the run of a program by the meaning of C, and the run of its image
//! on the machine.
//!
//! `count` runs a program and counts its steps. `cc_runs` counts the instructions of an image; its items for this are
//! re-exported. `observe` shows what a program or an image reads and writes. The crate exports `interpret_counted`,
//! `run_counted`, `write_counted_run`, `interpret_exchanges`, `run_exchanges`, `write_exchanges`, their types, and the definitions
//! that the contracts cite (`specs/`).
#![tactic(auto)]

mod count;
mod observe;

pub use cc_runs::{CountedRun, run_counted, write_counted_run};
pub use count::{CountedOutcome, interpret_counted};
pub use observe::{
    Exchange, ObservedOutcome, ObservedRun, interpret_exchanges, run_exchanges, write_exchanges,
};
