//! A list of instructions whose labels stay valid through every edit.
//!
//! Each item is in a block of its own, linked to its neighbours by raw pointers, and a table has the address for each label. So a
//! label is found, followed to its neighbours, unlinked and replaced in constant time, and an item is added at any place in
//! amortized constant time.
//!
//! There are three layers. `blocks` allocates a block for each node and frees it once; it is the only code that works on raw
//! memory. `chain` keeps the nodes linked in both directions. `list` has the labels and their table.
#![tactic(auto)]

mod blocks;
mod chain;
mod list;

#[doc(hidden)]
pub use blocks::{Blocks, Link};
#[doc(hidden)]
pub use chain::{Chain, ChainNode};
pub use list::InstrList;
