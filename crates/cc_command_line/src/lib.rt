//! The command line of the program: which words ask for what.
//!
//! The crate needs only `clap` and `cc_task` and knows nothing about the language, so it is proved in parallel with the crates that know
//! about it.
//!
//! - `row`: a command as a row of a table, from which its parser is made; `commands`: the table.
//! - `program`, `watch`, `unit`, `keeping`, `library`, `short`, `pack`, `spool`, `translate`: the rows, each with what its words ask for.
//!   `given` has the words that several commands share, `live` those of runs that take words while they run, `files` the files of a program,
//!   `json` the option for JSON, `numbers` the numbers.
//! - `command_line` reads a command line, `refused` has the errors for words that break a rule, `tips` what a person may have meant,
//!   `telling` prints them.
//!
//! The crate exports `read_invocation`, `line`, `read_or_tell`, `refused_bytes`, `tell_bytes`, their types (above all `Work`, with what
//! each kind of work needs), and the definitions that their contracts name (`specs/`).
#![tactic(auto)]

mod command_line;
mod commands;
mod files;
mod given;
mod json;
mod keeping;
mod library;
mod live;
mod numbers;
mod pack;
mod program;
mod refused;
mod row;
mod short;
mod spool;
mod telling;
mod tips;
mod translate;
mod unit;
mod watch;

pub use command_line::{Invocation, Work, line, read_invocation, refused_bytes};
pub use keeping::{Calling, Comparing, Copying, Keeping, Logging, Measuring, Restoring};
pub use library::Session;
pub use live::Living;
pub use pack::{PackVerb, Packing};
pub use short::{Short, ShortVerb};
pub use spool::{Server, Submitter};
pub use telling::{NoRequest, read_or_tell, tell_bytes};
pub use translate::Translating;
pub use unit::Wanted;
pub use watch::{Covered, Traced};
