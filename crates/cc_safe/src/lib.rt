//! Whether a program can go wrong at all: which of its functions need a guard, and whether its calls have a cycle.
//!
//! `acyclic` looks for ranks of the functions that fall from call to call, `calls` checks whether they do, `guards` asks the
//! guard pass about each function, and `examining` says what follows from both. The crate exports `examine`, its answer, and the
//! definitions that the contracts cite (`specs/`).
#![tactic(auto)]

mod acyclic;
mod calls;
mod examining;
mod guards;

pub use examining::{Safety, examine};
