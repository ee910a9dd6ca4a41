//! Live registers of RTL, and functions without dead nodes.
//!
//! A register is live at a label if the word that it holds there may still be read. `liveness` answers the least live sets, one for each
//! node: what the node reads, and what is live after it except the node's result. This is a backward dataflow over sets of registers, and
//! the solver of `cc_flow` solves it. This crate has the sets, as rows of bits, and the step from the set after a node to the one before
//! it.
//!
//! A node is dead if all it does is write a word to a register that is not live after it. `drop_dead` turns such nodes into nops. What only
//! dead nodes read is then no longer live, so more nodes may be dead. Liveness would have to be computed again, round after round; and two
//! nodes that are read only by each other would stay. `drop_faint` needs no rounds. It uses strongly live sets, in which a dead node needs
//! nothing of what it reads. The least strongly live sets show all dead nodes at once. They are also the least live sets of what is left,
//! in which no node is dead.
//!
//! `set` has a set of registers, and one such set for each node; `transfer` has the step over a node, and what the solver answers; `live`
//! and `dead` have the calls.
#![tactic(auto)]

mod dead;
mod live;
mod set;
mod transfer;

pub use dead::{drop_dead, drop_faint};
pub use live::liveness;
pub use set::{Liveness, RegisterSet};
