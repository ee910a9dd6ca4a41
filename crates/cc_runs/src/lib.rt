//! What an image does on input words, and how many instructions it executes; and how input words are read from a line of text.
//!
//! `count` runs an image and counts, `words` reads the words of a line, and `written` writes the answer of a run. `live` runs an
//! image while its input comes: `reading` reads its lines, and `telling` explains which ones have no words. The crate does not
//! know libraries, so it is used both to run a library's unit and to run a text. It exports these items, and the definitions that
//! their contracts cite (`specs/`).
#![tactic(auto)]

mod count;
mod live;
mod reading;
mod telling;
mod words;
mod written;

pub use count::{CountedRun, run_counted, run_words, run_words_on, run_words_within};
pub use live::{LiveEnd, run_live};
pub use reading::{LINE_BYTES, ReadLine, next_line};
pub use telling::{explain_bad_line, explain_final};
pub use words::words_in;
pub use written::{write_counted_run, write_refusal};
