//! Tests of the passes of the compiler, from outside: what no command shows of what each makes, and of what it refuses. What a
//! command shows is in `tests/rows`: Cminor, guards, RTL, the allocator's choices, and turns of loops.
//!
//! There is a module for each pass, language or analysis, in the order of the compiler: `list` (the list of instructions),
//! `flow` (the solver), `live` (live sets and dead nodes), `colour` (the allocator of registers), `ltl`, `validate` (the judge of
//! allocations) and `linear`. `pairs` takes a text to the RTL of its functions.
#![tactic(auto)]

pub mod flow;
#[cfg(test)]
mod tests;
