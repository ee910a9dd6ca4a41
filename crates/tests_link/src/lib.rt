//! Tests of the compiler from text to run: the pieces of a unit in every order, the longest images, and texts of one verdict.
//! `audits` tests the audit, `checked` in which mode pieces link, `stages` tests what is shown of each stage, `watched`
//! tests what a watcher of the passes sees and refuses, `memory` tests what a refused allocation leaves, and `pool` tests
//! workers that compile the functions of a unit in threads. What texts become, run and refused, is in `tests/rows`.
#![tactic(auto)]

#[cfg(test)]
mod tests;
