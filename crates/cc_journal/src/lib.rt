//! A journal that keeps what it has acknowledged, through a power cut in the middle of any write.
//!
//! `formatting` makes an empty journal on a disk, `commit` gets records onto it, `reading` reads the records of a disk, `window`
//! reads ahead for it, `log` has the calls over a disk, `journal` has the same calls with the records in memory, `body` has the
//! bytes of one record, and `fault` has the refusals. The crate exports `format`, `Log`, `Journal`, `Body`, `Commit`, `CLOSED`
//! and `JournalFault`.
#![tactic(auto)]

mod body;
mod commit;
mod fault;
mod formatting;
mod journal;
mod log;
mod reading;
mod window;

pub use body::Body;
pub use commit::{CLOSED, Commit};
pub use fault::JournalFault;
pub use formatting::format;
pub use journal::Journal;
pub use log::Log;
