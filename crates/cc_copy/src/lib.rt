//! Copying the units of a library into a new one.
//!
//! `choosing` takes the units with given names out of a map, `judging` says which units an audit confirms, `selecting` does
//! both for the library on a disk, `filling` makes a new library from the units of a map. The crate exports `choose`,
//! `confirm`, `selection_on`, `copy_units`, `least_area`, their types, and the definitions that the contracts name (`specs/`).
#![tactic(auto)]

mod choosing;
mod filling;
mod judging;
mod selecting;

pub use choosing::{ChooseFault, choose};
pub use filling::{copy_units, least_area};
pub use judging::{LeftOut, Selection, confirm};
pub use selecting::selection_on;
