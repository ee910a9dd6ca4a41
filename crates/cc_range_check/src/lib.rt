//! Checks a table of ranges against the Cminor of a unit: whether the table is inductive, and which operations it does not cover.
//!
//! A table may come from anywhere. `table` has its types, `sizes` the sizes of the unit's objects. `expressions` finds an
//! expression's range and the operations in it that are not covered, `learning` what a condition shows, `steps` what a statement
//! without others does, and `statements` walks the code of a function once: it keeps a count of loops and blocks, so that each finds
//! its note in the table, and a stack of the blocks that it is in. `initial` tests the words of the objects before the run. `checking`
//! has the public calls.
//!
//! The definitions of all answers are in `cc_range_table` and in `specs/`.
#![tactic(auto)]

mod checking;
mod constants;
mod counting;
mod expressions;
mod initial;
mod laws;
mod learning;
mod places;
mod ranges;
mod sizes;
mod statements;
mod steps;
mod table;
mod walk;

pub use checking::{Checked, check_function, first_facts};
pub use expressions::range_of;
pub use initial::starts_in_table;
pub use laws::{covers_if_none_is_listed, starts_are_in_table};
pub use learning::{learn, set_variable};
pub use places::{Need, Place};
pub use sizes::{ObjectSize, object_sizes};
pub use steps::{after_call, after_store, set_result};
pub use table::{Facts, Row, Table};
pub use walk::joined;
