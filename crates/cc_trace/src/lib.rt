//! What happens in a run: which calls, turns, values and words there are, how often each instruction runs, and which calls are
//! open.
//!
//! `running` repeats a run of the instructions that `cc_diagnostic` writes for a tree, `marks` says where each instruction comes
//! from, `events` has what is watched; `tree` makes the program that is run from a tree.
//!
//! The answer itself is that of `cc_meaning`: what is seen here depends only on the text, the input and the answer, and no
//! promise depends on it. Each call is safe, ends, and is refused only for lack of memory.
#![tactic(auto)]

mod events;
mod marks;
mod running;
mod tree;

pub use events::{Arguments, Counts, Event, Watch};
pub use marks::{Mark, NOWHERE, marks_of};
pub use running::{OpenCall, Program, Replay, Trouble, Wrong};
pub use tree::{Traced, traced_unit, words_of};
