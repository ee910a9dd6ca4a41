//! The commands whose records are on a library's disk: what was added, replaced and withdrawn since the last compaction.
//!
//! `commands` reads them, `stored` says what the command with a given number stored, and `written` writes their lines. The
//! crate exports `commands_on`, `stored_at`, `write_log`, and the definitions that their contracts cite (`specs/`).
#![tactic(auto)]

mod commands;
mod stored;
mod written;

pub use commands::commands_on;
pub use stored::stored_at;
pub use written::write_log;
