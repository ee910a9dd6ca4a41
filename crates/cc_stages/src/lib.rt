//! What the compiler makes of a unit, stage by stage, as text for a person: for each function, or one by name, its Cminor, its
//! RTL before and after the nodes that nobody needs become nops, its LTL and which allocator made it, its Linear, its steps,
//! and the lines of its code.
//!
//! `unit` goes over the functions, `function` writes what is seen of one while it goes through the passes, `code` has the
//! listing of the whole image, cut at its functions. `stage` has the names of the stages, `steps` the text of a step; the other
//! languages have their text in the crates that define them. `fault` says why there is no text.
//!
//! The passes are called by `cc_link`, and this crate watches: it decides nothing, and no promise rests on its texts, which are
//! tested. What is shown of a function comes from the run that made its code. Each call is safe and ends, whatever the unit.
#![tactic(auto)]

mod code;
mod fault;
mod function;
mod stage;
mod steps;
mod unit;

pub use fault::StagesFault;
pub use unit::stages;
