//! Whether a tree of C is a translation of a program of wide C.
#![tactic(auto)]

mod actions;
mod around;
mod checking;
mod choices;
mod constants;
mod expressions;
mod groups;
mod hidden;
mod labels;
mod lowers;
mod marks;
mod operators;
mod own;
mod statements;
mod units;

pub use checking::{is_translation, keeps_labels};
