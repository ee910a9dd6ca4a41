//! The differences between two libraries, name by name.
//!
//! `difference` compares two units with the same name, `maps` two maps, `disks` the libraries on two disks; `written` writes
//! the lines. The crate exports `diff_disks`, `diff_maps`, `write_diff`, their types, and the definitions that the contracts
//! cite (`specs/`).
#![tactic(auto)]

mod difference;
mod disks;
mod maps;
mod written;

pub use difference::{DiffLine, Difference};
pub use disks::{DiffFault, diff_disks};
pub use maps::diff_maps;
pub use written::write_diff;
