//! Spools: the source of one client's scripts, and the destination of their answers.
//!
//! `spool` is what serving needs from a spool, `memory` a spool in memory, `folder` one in a folder in which clients of other
//! processes leave scripts and find their answers. `layout` has the parts of the folder, `place` the places of a script's files
//! in them, `calls` the system calls on these files, `found` and `entries` what such a call reports, `refusal` why a call is
//! refused. `rights` makes the parts, `names` says which files are taken, `board` which of them are to be tried, `keeping` how
//! many answers are kept. `claims` says how a script is claimed and answered, `answer` has the file that its answer is written
//! to, `recovery` what becomes of the files that a killed server left. `submission` says how a client leaves a script and waits
//! for its answer, `lines` which fault the answer reports, `framing` how a source is written in it, `fault` why a folder or a
//! script is refused. `log` records who did what: `script_file` keeps the lines of a script as it is read, `answer_words` how
//! each was answered, `log_text` says what of that is recorded, `unlogged` keeps it until it is written.
//!
//! The crate knows nothing about libraries. It uses only the history of `cc_disk`, which only contracts read. The only handles
//! that it needs are those for files and the clock. It exports `Spool`, `MemorySpool` and `Answered`; `FolderSpool`,
//! `FolderLayout`, `SpoolFault`, and what a server (`take_folder`, `wide_parts`, `recover`, `clear_old`, `count_entries`) and a
//! client (`submit`) do in a folder; how a source is written in an answer (`frame`, `source_in`, `fault_lines`); and which names
//! are plain (`specs/`).
#![tactic(auto)]

mod answer;
mod answer_words;
mod board;
mod calls;
mod claims;
mod entries;
mod fault;
mod folder;
mod found;
mod framing;
mod keeping;
mod layout;
mod lines;
mod log;
mod log_text;
mod memory;
mod names;
mod place;
mod recovery;
mod refusal;
mod rights;
mod script_file;
mod spool;
mod submission;
mod unlogged;

pub use answer::AnswerFile;
pub use board::MOST_ENTRIES;
pub use fault::SpoolFault;
pub use folder::{FolderSpool, count_entries};
pub use framing::{fault_lines, frame, source_in};
pub use keeping::Limits;
pub use layout::{FolderLayout, Held};
pub use memory::{Answered, MemorySpool};
pub use names::is_plain;
pub use recovery::{Recovered, clear_old, recover};
pub use rights::{WidePart, take_folder, wide_parts};
pub use script_file::ScriptFile;
pub use spool::Spool;
pub use submission::{Submission, submit};
