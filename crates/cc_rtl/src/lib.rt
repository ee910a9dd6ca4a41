//! From Cminor to RTL, the code of a function as a graph of labelled nodes over pseudo-registers.
//!
//! The language is in `cc_rtl_language`, whose items this crate re-exports. `translate` has the call, `size` counts the nodes
//! that a function needs, and `generate` makes the nodes from the function's Cminor.
#![tactic(auto)]

mod generate;
mod size;
mod translate;

pub use cc_cminor_language::CodeFault as RtlFault;
pub use cc_rtl_language::{Node, Rtl, RtlPair, rtl_is_a_layer};
pub use translate::to_rtl;
