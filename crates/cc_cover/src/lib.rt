//! The commands `trace` and `cover`: the last things that a run does, and how often each line is reached.
//!
//! The modules `trace` and `cover` have these commands, over runs of `cc_trace`; `inputs` reads the inputs of several runs,
//! `files` runs programs that are in files, `lines` says in which line of the whole program a byte lies, `shown` writes places
//! and words. What they print besides the answer is an explanation: no promise rests on it, and it is left out if the watched
//! run differs from the interpreter's.
#![tactic(auto)]

mod cover;
mod files;
mod inputs;
mod lines;
mod shown;
mod trace;

pub use cover::perform_cover;
pub use files::{cover_files, cover_lines, trace_files};
pub use inputs::{BadInput, inputs_of};
pub use trace::perform_trace;
