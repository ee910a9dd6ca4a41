//! A session of a library: one client of a service does the commands of a script, over any disk, reader and writer. Serving: many
//! clients, each of which runs the scripts that its spool gives.
//!
//! `running` opens the service and ends it, `serving` does so for many clients, `generations` opens one such service after
//! another, `attending` runs one script, or those of a spool, with a client of a service that is open. `bounds` says when a
//! service is ended so that the next can begin, `steward` is called then. `reading` reads a script, `held` says how far it may
//! go, `patience` whether others wait, `calls` does its commands, `hints` hands sources in before their turn, `auditing` audits a
//! unit, `showing` has the text of its image or its source, `telling` writes what the service answered, `end` says how a session
//! ended. `cc_script` says which commands a script has, `cc_spool` how scripts arrive, `cc_answers` how an answer is written and
//! a fault explained. It exports `session`, which is plain, and in a mode `session_and_explain`, `serve`, `serve_on`, `attend`
//! and `play`; `Served` and `SessionEnd`; `Bounds`, `BOUNDS`, `Meter`; `Steward`, `NoSteward`, `Generation`, `GenerationEnd`;
//! `Gate` and `NoGate`.
#![tactic(auto)]

mod attending;
mod auditing;
mod bounds;
mod calls;
mod end;
mod generations;
mod held;
mod hints;
mod patience;
mod reading;
mod running;
mod serving;
mod showing;
mod steward;
mod telling;

pub use attending::{attend, play};
pub use bounds::{BOUNDS, Bounds, Meter};
pub use cc_service::{Gate, NoGate};
pub use end::SessionEnd;
pub use generations::serve_on;
pub use running::{session, session_and_explain};
pub use serving::{Served, serve};
pub use steward::{Generation, GenerationEnd, NoSteward, Steward};
