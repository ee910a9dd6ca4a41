//! From C to Cminor, the first of the compiler's languages after C.
//!
//! The language is in `cc_cminor_language`, whose items this crate re-exports. `lower` has the call. `statements`, `actions` and
//! `expressions`, each using the next, write the code, with `taken` (values that code uses), `access`, `conditions` and
//! `operators` below.
//!
//! How a body becomes Cminor is a definition in `specs/internal`. Lemmas in `proofs` show that it keeps up with the function
//! (`Bodies`), how large it is (`Counts`) and which numbers it has (`Fits`).
#![tactic(auto)]

mod access;
mod actions;
mod conditions;
mod expressions;
mod lower;
mod operators;
mod statements;
mod taken;

pub use cc_cminor_language::{CminorPair, Expression, Statement};
pub use lower::to_cminor;
