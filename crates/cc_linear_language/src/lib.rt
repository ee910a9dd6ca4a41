//! Linear as a language: the code of a function as one list of moves and operations, with labels, jumps and branches.
//!
//! `item` has the items, `display` their text, and `pair` the type that keeps the fact that a function's Linear does what the function
//! does. `specs/Linear.antt` defines what one item does. `cc_linear` makes Linear from LTL; this crate is separate from it so that crates
//! that work on Linear need not wait for `cc_linear`, nor for the validator.
#![tactic(auto)]

mod display;
mod item;
mod pair;

pub use item::LinearItem;
pub use pair::LinearPair;
