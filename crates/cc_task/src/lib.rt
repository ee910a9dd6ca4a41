//! What the program may be asked to do: a task for a text, and which part of a unit is to be taken out of a library.
//!
//! The crate needs no other one. So the crate that reads tasks from the command line (`cc_command_line`) and those that do them
//! (`cc_tasks`, `cc_session`) build on it and are proved side by side. It exports `Task`, `Kind`, `Part` and the limits, and the
//! definition that contracts name (`specs/`).
#![tactic(auto)]

mod part;
mod task;

pub use part::Part;
pub use task::{Kind, MOST_STEPS, MOST_WORDS, Task};
