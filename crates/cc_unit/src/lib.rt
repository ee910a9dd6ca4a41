//! What the compiler produces and the library keeps: a unit with its source, its image and its certificate.
//!
//! The crate needs only the machine's images, so that the store's crates do not wait for the compiler's proofs. The crate exports
//! `StoredUnit`, `Source`, `Certificate` and `MOST_SOURCE`.
#![tactic(auto)]

mod unit;

pub use unit::{Certificate, MOST_SOURCE, Source, StoredUnit};
