//! Writers of answers: `watch` has one that knows whether a line of the answers reports a fault, `progress` one that shows
//! on a terminal how many lines there are.
//!
//! The crate needs no other crate.
#![tactic(auto)]

mod progress;
mod watch;

pub use progress::AnswerProgress;
pub use watch::FaultWatch;
