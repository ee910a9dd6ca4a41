//! LTL: the code of a function over machine registers and slots. One block represents one node of RTL: moves, one operation on
//! registers, moves. LTL functions come from sources that are not trusted: an allocator, or bytes. The validator checks whether
//! a function does what the RTL does.
//!
//! `location` is where a word can be, `operation` and `block` are what a block does, and `ltl` has the functions. `writing`
//! makes their bytes, `reading` reads them (with a `cursor`), and `listing` makes their text. `laws` has the laws of the
//! definitions. `specs/Ltl.antt` defines what a block does.
#![tactic(auto)]

mod block;
mod cursor;
mod fault;
mod laws;
mod listing;
mod location;
mod ltl;
mod operation;
mod reading;
mod writing;

pub use block::{Block, MOST_MOVES, Moves};
pub use fault::LtlFault;
pub use laws::{ltl_is_a_layer, spellings_are_determined};
pub use location::{Location, MOST_SLOTS, Register, Slot};
pub use ltl::Ltl;
pub use operation::{Move, Operation};
pub use reading::read_ltl;
pub use writing::write_ltl;
