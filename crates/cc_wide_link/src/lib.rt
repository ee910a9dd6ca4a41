//! From a text of wide C to a compiled unit: `cc_translate` translates it, and `cc_link` compiles the translation. What the image does
//! follows the program of wide C, in each mode.
#![tactic(auto)]

mod compiling;
mod fault;

pub use compiling::{compile_wide, compile_wide_in};
pub use fault::WideBuildFault;
