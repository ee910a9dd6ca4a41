//! What the program answers and explains, as JSON: one object for each line.
//!
//! `object` makes an object and writes it, `numbers` reads decimals, `line` makes the object for a line of an answer, `kinds` that
//! for a line of several words, `place` the
//! object for a line about a place, `telling` the explanations of a text; `performing` performs a task and writes all that it
//! answers and explains as JSON. `ended` does so for a command that has ended. `writer` is a writer of lines: each line of what a
//! session answers and explains becomes an object. `docs/JSON.md` says which members an object has. The crate exports
//! `perform_in_json`, `perform_files_in_json`, `write_ended`, `Ended`, `InJson` and `LineKind`.
#![tactic(auto)]

mod ended;
mod kinds;
mod line;
mod numbers;
mod object;
mod performing;
mod place;
mod telling;
mod writer;

pub use ended::{Ended, write_ended};
pub use performing::{perform_files_in_json, perform_in_json};
pub use writer::{InJson, LineKind};
