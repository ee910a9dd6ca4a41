//! Register allocation: LTL for the RTL of a function. Nothing here is trusted. The validator says whether an answer does what the RTL
//! does; this crate only promises an answer, for every function and any live sets.
//!
//! `spill` keeps each pseudo-register in a slot of its own and uses registers for one operation at a time; `slots` says which slot.
//! `allocate` shares registers. `webs` finds what one place is chosen for (using `points` and `forest`), `interference` says which webs
//! need different places, `order` and `select` choose registers, `places` chooses slots, `blocks` writes the code, and `parallel` puts its
//! moves in order. `operation` is a node's operation on chosen registers; `nodes`, `live`, `registers` and `bits` are small types below
//! them.
#![tactic(auto)]

mod allocate;
mod bits;
mod blocks;
mod forest;
mod interference;
mod live;
mod nodes;
mod operation;
mod order;
mod parallel;
mod places;
mod points;
mod registers;
mod select;
mod slots;
mod spill;
mod webs;

pub use allocate::colour;
pub use spill::spill_all;
