// From a tree to its resolved form: instructions over a stack of words, with numbers in place of names.
//
// `access` chooses the instructions that a name becomes. `expressions`, `actions`, `declarations` and `statements` write the
// instructions of a function, from last to first, and `units` joins functions and objects. What a walk reads (`names`) and what
// it writes (`code`) are separate parameters.

mod access;
mod actions;
mod declarations;
mod expressions;
mod statements;
mod units;

pub use units::resolve;
