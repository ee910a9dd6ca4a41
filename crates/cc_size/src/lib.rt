//! What a compiled unit needs: the words of its code, the frames of its functions, and a stack that is enough for it.
#![tactic(auto)]

mod measuring;
mod needs;
mod recursion;
mod size;
mod tables;

pub use measuring::{size_along_in, size_in};
pub use recursion::Recursion;
pub use size::{FunctionSize, Sized, UnitSize};
