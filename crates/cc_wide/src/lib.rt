//! Wide C: C with `switch`. Its meaning, and that a program of wide C does what the program of C does to which it is lowered. Only
//! definitions and laws.
#![tactic(auto)]

mod laws;

pub use laws::{places_mean_nothing, switches_are_lowered, translations_do_the_same};
