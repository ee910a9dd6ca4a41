//! What is found in a program without running it: what its image needs, and whether it can go wrong.
//!
//! `sizing` adds the names and places of an image's functions to what the image needs, `recursion` says which calls are part of
//! a cycle, and `judging` whether a program can go wrong, and at which places. `sizing` and `judging` also write their lines.
//! The crate exports `measured`, `judge`, `write_measure`, `write_judged`, `cause_name`, their types, and the definitions that
//! the contracts name (`specs/`).
#![tactic(auto)]

mod judging;
mod recursion;
mod sizing;

pub use judging::{Unsure, cause_name, judge, write_judged};
pub use sizing::{CyclicCall, Measure, SizedFunction, measured, write_measure};
