//! The script of a short command: what a session is given in place of a script that a person writes.
//!
//! `script` makes it; `fault` is why a command has no script. The crate exports `ShortCommand`, `script_of` and `ShortFault`, and the definitions
//! that their contracts name (`specs/`).
#![tactic(auto)]

mod fault;
mod script;

pub use fault::ShortFault;
pub use script::{MOST_SOURCE, ShortCommand, script_of};
