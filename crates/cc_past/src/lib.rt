//! Takes out, or puts back, what a command of a library stored.
//!
//! `stored` has the unit that the command with a given number stored under a name, `part` takes a part of the unit, `restoring`
//! puts the unit back. The crate exports `part_at`, `restore`, and the definitions that their contracts cite (`specs/`).
#![tactic(auto)]

mod part;
mod restoring;
mod stored;

pub use part::part_at;
pub use restoring::restore;
