//! Workers that compile the functions of units in parallel.
//!
//! The functions of a unit go to the workers as items of one queue with 64 places. Each worker's answer comes back on the job's
//! own channel, which has a place for each function. It is proved that the queue keeps a rule: the items that all passes have
//! sent are those that they have taken together with those that the queue holds, each the same number of times.
//!
//! `rule` has the rule and its six kinds of step, `ends` has the queue's two ends, `seats` has the holders of passes, `item` has
//! what goes to a worker, `answer` has what comes back, `worker` has the worker's loop, `gate` has the call before each piece,
//! `hiring` starts and ends workers, `ticket` has a job that was handed in, `ordering` puts a job's answers in order, and `pool`
//! puts everything together.
#![tactic(auto)]

mod answer;
mod ends;
mod fault;
mod gate;
mod hiring;
mod item;
mod named;
mod ordering;
mod pool;
mod rule;
mod seats;
mod ticket;
mod worker;

pub use ends::FreshQueue;
pub use fault::PoolFault;
pub use gate::{Gate, NoGate};
pub use named::Queued;
pub use pool::Pool;
pub use seats::{Drained, Pass};
pub use ticket::Ticket;
