//! What to report about a text besides its fault: what was found and what was expected, and for a program its warnings.
//!
//! Diagnostics, how they are written, and the diagnostics of a text without a tree are in `cc_syntax_diagnostic`, whose items
//! this crate re-exports.
//!
//! - `typing`: a tree that breaks a rule; `constant`: why an expression is not constant.
//! - `further`: the errors after the first, found by checking a copy of the text in which the first is `mended`.
//! - `walk`: visits a tree with the names in scope (`names`). It notes what a name denotes, finds what to warn about
//!   (`warning`, `ends`), and writes instructions (`code`) with the places of the `operators` that can go wrong, and the values of
//!   constants (`folding`).
//!   `cc_run_diagnostic` runs these to report on runs.
//!
//! The faults themselves come from the crates below. A report depends only on the text and the fault, and no promise depends on
//! a report. Each call is safe and ends, and fails only for lack of memory.
#![tactic(auto)]

mod code;
mod constant;
mod declarations;
mod ends;
mod folding;
mod further;
mod mended;
mod names;
mod operators;
mod typing;
mod walk;
mod warning;

pub use cc_syntax_diagnostic::{
    Diagnostic, MessagePart, Related, message, near_name, of_name, of_syntax,
};
pub use code::{Bytecode, Element, Function, Instruction, TypedOperator};
pub use folding::{binary_word, unary_word};
pub use further::further_of_typing;
pub use typing::of_typing;
pub use walk::code_of;
pub use warning::warnings;
