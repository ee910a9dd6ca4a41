//! Emission makes the items of a function's code for RV32IM from its selected steps.
//!
//! `item` has the items, `piece` the type that keeps the fact that a function's code does what the function does. The steps of a function
//! are those that `cc_select` selects. `specs/Emission.antt` defines the items of a step, `specs/Branches.antt` the branch that replaces a
//! comparison, and `specs/Contract.antt` what a piece owes on the machine.
//!
//! `emitting` is the pass. It uses `bases` for the objects' addresses, `frame` for the saved registers and their places, `loops` for the
//! steps that are in loops, `scratch` for whether `x3` is set and for what the scratch registers hold before each step (`addressed` has
//! the type of a step with this knowledge), `early` for what comes before the frame, and `tables` for the places of labels and for which
//! branches are near. `emission` emits the items of each step, with the help of `constants`, `recipe`, `operators`, `condition`,
//! `branches` and `instructions`.
#![tactic(auto)]

mod addressed;
mod bases;
mod branches;
mod condition;
mod constants;
mod early;
mod emission;
mod emitting;
mod frame;
mod instructions;
mod item;
mod loops;
mod operators;
mod piece;
mod recipe;
mod scratch;
mod tables;

pub use emitting::emit;
pub use item::PieceItem;
pub use piece::Piece;
