//! The build that compiles C, for the protocol core.
//!
//! A source has a piece for each function that it defines, or is refused as `parse` and `check` refuse it; pieces are linked to a
//! unit. `build` is that build, `refusal` turns faults into the core's refusals, and `recovered` says what follows for whatever a
//! crash leaves of the disk. The crate exports `CcBuild`, `run`, `headline`, `made_units_are_built` and `texts_have_one_plan`.
#![tactic(auto)]

mod build;
mod built;
mod recovered;
mod refusal;

pub use build::{CcBuild, texts_have_one_plan};
pub use built::made_units_are_built;
pub use recovered::{headline, run};
