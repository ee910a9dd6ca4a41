//! From LTL to Linear: the blocks of a function become one list of moves and operations, with labels, jumps and branches.
//!
//! The language is that of `cc_linear_language`. The order of blocks, and which empty ones are passed over, may be chosen freely:
//! `specs/internal/Lays` says when a list lays out a function's blocks, and the lemmas of `proofs/Laid` prove that such a list keeps up
//! with the source. Every order in which no label occurs twice and all reached labels occur can be laid out (`proofs/Ordering`).
//!
//! `lineariser` is the whole pass. `places` and `tables` read the blocks by their places in the list, `tracing` finds where chains of empty
//! blocks end and chooses an order, `writing` and `layout` write the items one after another, and `idle` leaves out the labels to which
//! nothing leads.
#![tactic(auto)]

mod idle;
mod layout;
mod lineariser;
mod places;
mod tables;
mod tracing;
mod writing;

pub use lineariser::linearise;
