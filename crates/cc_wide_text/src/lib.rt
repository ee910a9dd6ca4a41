//! Texts of wide C.
#![tactic(auto)]

mod before;
mod laws;
mod macros;
mod marks;
mod names;
mod numbers;
mod plain;
mod reading;
mod word;

pub use laws::{profile_units_stay, wide_trees_are_one};
pub use numbers::constant_of;
pub use reading::{WideText, read};
