//! Cminor as a language, the first of the compiler's languages after C: numbered word variables, expressions without side effects,
//! and structured statements.
//!
//! - `code`: the syntax; `display`: its text.
//! - `boxes`: makes expressions and statements in boxes.
//! - `numbers`: how many variables code uses.
//! - `pair`: the type that guarantees that a function's Cminor does what the function does.
//! - `fault`: why a pass makes no code for a function.
//!
//! `cc_cminor` makes Cminor from C; a crate that works on Cminor does not have to wait for it.
#![tactic(auto)]

mod boxes;
mod code;
mod display;
mod fault;
mod numbers;
mod pair;

pub use boxes::{above, both, boxed_expression, boxed_statement, constant, local, sequence, set};
pub use code::{Expression, Statement};
pub use fault::CodeFault;
pub use numbers::variables_above;
pub use pair::CminorPair;
