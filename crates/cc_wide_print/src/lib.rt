//! From a text of wide C that has been read to a text of the profile. No promise rests on this crate: whether the text that is
//! printed is a translation is decided anew, from its tree.
//!
//! - `writer`: lines, each with the wide line after it in a comment, and the table of places.
//! - `labels`: the labels of a switch, and the choice of a section.
//! - `printing`: the walk over the marked tree and its tokens.
//! - `printed`: what has been printed.
//! - `fault`: why a text is refused.
#![tactic(auto)]

mod fault;
mod labels;
mod printed;
mod printing;
mod writer;

pub use fault::PrintFault;
pub use printed::{Passage, Printed};
pub use printing::print;
