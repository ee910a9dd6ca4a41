//! RTL as a language: the code of a function as a graph of labelled nodes over pseudo-registers.
//!
//! - `node`: the syntax.
//! - `rtl`: the type of a function, whose nodes are in an instruction list (`cc_instr_list`).
//! - `display`: the text of a function.
//! - `pair`: the type that guarantees that a function's RTL does what the function does.
//! - `dead`: turns nodes that are not needed into nops.
//! - `positions`: a function as the graph for dataflow.
//! - `laws`: what holds of every function.
//!
//! `cc_rtl` makes RTL from Cminor; a crate that works on RTL does not have to wait for it.
#![tactic(auto)]

mod dead;
mod display;
mod laws;
mod node;
mod pair;
mod positions;
mod rtl;

pub use laws::rtl_is_a_layer;
pub use node::Node;
pub use pair::RtlPair;
pub use rtl::Rtl;
