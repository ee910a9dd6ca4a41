//! The places of a unit's objects, and what its names refer to: the definitions (`specs/`), and the types of their results.
//!
//! `cc_resolve` computes both for a text; a crate that only cites them does not wait for its proof.
#![tactic(auto)]

mod layout;

pub use layout::{Callee, Extent, object_width};
