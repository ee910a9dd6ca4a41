//! Ranges of words: what is known of a word whose value is not known.
//!
//! A range is one interval of signed numbers and whether 0 is excluded. `range` has the type and what two ranges have in common;
//! `arithmetic` and `bits` the ranges of operators' values, `operators` the choice among them, and which operators always have a
//! value; `learning` what a comparison shows of its operands. Each function answers what its definition in `specs/Range.antt`
//! says. `laws` says why that is right: the words that an operator can give are in the range that is answered.
//!
//! No call takes memory or fails.
#![tactic(auto)]

mod arithmetic;
mod bits;
mod laws;
mod learning;
mod operators;
mod range;

pub use laws::{
    comparisons_are_learned, covered_operators_have_values, operators_are_sound, ranges_are_sound,
};
pub use learning::{Learned, learned_from};
pub use operators::{is_covered, of_binary, of_kept, of_unary};
pub use range::Range;
