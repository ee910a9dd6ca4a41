//! The command `translate`, over any reader and writer: a text of wide C is read, and its translation is written, or `ok`, or the line
//! of its fault.
//!
//! - `translating`: what is written, and the status.
//! - `explaining`: what a person reads about a fault.
#![tactic(auto)]

mod explaining;
mod translating;

pub use explaining::{explain, explanation_of};
pub use translating::{Done, Wanted, translate_texts_to, translate_to, write_fault};
