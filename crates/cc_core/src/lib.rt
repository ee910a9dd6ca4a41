//! The protocol core: a pure machine over events that says what a service may do with its library and its disk. Clients hand in
//! jobs, and workers take their pieces. One job at a time commits, in four device steps, and its client then gets the reply.
//! Between two commits the records may be rewritten, also in four device steps. A device step may fail, the disk may crash at any
//! event, and the library is then opened again.
//!
//! `command` has what clients ask for, the commands of the order, and the replies; `build` has what makes units. `job`, `table`,
//! `store` and `contents` have what a state holds. `event` lists what may happen; `events`, `device`, `rewriting` and `recovery`
//! have the step of each event. `opening` opens a disk as the beginning of a run. `state` is the machine and its runs. `laws`
//! says what holds after every run, and how a run can go on. The crate exports `State`, `run_events`, the laws, `Event`, `Build`,
//! and the types of requests, sequence numbers, replies and refusals.
#![tactic(auto)]

pub mod build;
pub mod command;
mod contents;
mod device;
pub mod event;
mod events;
pub mod fault;
pub mod ids;
mod job;
pub mod laws;
mod opening;
mod recovery;
mod rewriting;
pub mod sequence;
pub mod sequence_number;
pub mod state;
mod store;
mod table;
