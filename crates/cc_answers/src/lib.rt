//! What the program writes as an answer, and how it explains a fault to a person: for a task for a text, and for a line of a
//! script.
//!
//! `run` runs an image and writes the result. `stands` is a fault with its position in a text, and explains it. `line` writes
//! the line of a fault, `words` explains a fault by its number, and `commands` explains the commands of a script. `script`
//! writes each answer to a script. `person` says to whom the explanations go, if to anybody.
//!
//! The crate knows neither tasks nor services, so both front ends are built on it: `cc_tasks` and `cc_session`. It exports
//! these items, and the definitions that their contracts cite (`specs/`).
#![tactic(auto)]

mod commands;
mod line;
mod person;
mod run;
mod script;
mod stands;
mod words;

pub use commands::{explain_bad_line, explain_no_command, greet};
pub use line::{name_of, write_fault_line};
pub use person::{Persons, Telling};
pub use run::{ImageRun, run_image, write_outcome, write_run, write_words};
pub use script::{
    Refusal, tell_audit, tell_fault, tell_names, tell_no_memory, tell_number, tell_ok,
    tell_refusal, tell_run, tell_space, tell_text,
};
pub use stands::{Stands, of_fault, write_told};
pub use words::{explain_words, words_of, words_of_task};
