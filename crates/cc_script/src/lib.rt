//! The script of a session: which lines it has, what each asks for, and the sources between them.
//!
//! `command` is what a line asks for, in a session's script or in one that is left for a server; `commands` lists what lines may
//! ask for, for a person; `script` reads lines and sources from a reader; `fault` is why a script or a line of it is refused. The
//! crate knows nothing about libraries and services. It exports `command_of`, `ScriptCommand`, `Dialect`, `COMMANDS`,
//! `PLAIN_COMMANDS`, `Script`, `NextLine`, `ScriptFault` and the limits.
#![tactic(auto)]

mod command;
mod commands;
mod fault;
mod script;

pub use command::{Dialect, MOST_STEPS, ScriptCommand, command_of};
pub use commands::{COMMANDS, PLAIN_COMMANDS};
pub use fault::ScriptFault;
pub use script::{LINE_BYTES, NextLine, SCRIPT_BYTES, Script};
