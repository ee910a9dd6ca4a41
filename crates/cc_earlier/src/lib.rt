//! What stays true of texts from before there were arrays of `unsigned char`. Each has the tree, the rules, the limits and the typed unit
//! that it had, its program does what it did, and an image that agreed with it still agrees. This crate is above `cc_link`, and only tests
//! are above it. So readers of other crates do not meet the earlier clauses, and a change to them does not require anything else to be
//! proved again.
//!
//! `laws` has these laws: the functions there do nothing.
#![tactic(auto)]

mod laws;

pub use laws::{earlier_images_agree, earlier_texts_stay};
