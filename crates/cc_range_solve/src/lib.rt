//! Makes a table of ranges for a unit. Nothing is promised of the table: `cc_range_check` decides what it is worth.
//!
//! All functions are walked again and again, from a table in which nothing is reached yet but the start of `main`. Whatever arrives at
//! a loop's head, at a call, at a return or at an object joins what the table has there. A limit that grows is moved on to the next
//! number that the unit compares with or that is an object's length (`thresholds`), so that a walk need not take each step of a
//! loop. What is known at a block's end is found anew in each walk. If nothing has changed in a walk, the table is inductive. The
//! number of walks is fixed; if the table still changes then, it is the table that knows nothing.
#![tactic(auto)]

mod drafts;
mod giving_up;
mod solving;
mod statements;
mod thresholds;
mod words;

pub use giving_up::unknown;
pub use solving::solve;
