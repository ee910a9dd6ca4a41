//! From Cminor to Cminor: a test comes before each operation that can lack a value, and if the test fails, the code runs for
//! ever. So an image of this code is right for every source, except that calls may be nested too deep.
//!
//! `pass` has `guard`. `statements` and, below it, `expressions` write the code. Below them are `guards` (what comes before a
//! statement), `known` (what is evident), `sizes` (of the unit's objects) and `boxes`. `specs/Guard.antt` defines what the pass
//! makes. Then `held` puts constants that conditions compare with into variables; `wanted` chooses which (`specs/Held.antt`).
#![tactic(auto)]

mod after;
mod boxes;
mod changed;
mod constants;
mod expressions;
mod guards;
mod heads;
mod held;
mod known;
mod laws;
mod pass;
mod sizes;
mod statements;
mod wanted;

pub use cc_cminor_language::CodeFault as GuardFault;
pub use laws::{guards_set_few, only_depth_is_left, unguarded_code_stays};
pub use pass::{guard, needs_no_guard};
