//! The command `submit`: a script for a server.
//!
//! `submitting` takes the words of a command and standard input, makes a script from them with `sent`, leaves it in the
//! server's folder, and prints what became of it. The crate does not know sessions, so it is proved in parallel with
//! `cc_session`. It exports `submit_script`, and `submit_to` for writers of any kind, which hands back an `Ended`.
#![tactic(auto)]

mod sent;
mod submitting;

pub use submitting::{Ended, submit_script, submit_to};
