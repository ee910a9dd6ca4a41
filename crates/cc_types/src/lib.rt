//! What a typed unit is, and what more than one walk over a typed unit computes: the types in which operators work, the words of
//! constants and objects, and how many locals a body declares. The names in scope are in `cc_scope`, and the check that decides
//! whether a unit is typed in `cc_typing`; so a crate that only uses typed units does not wait for their proofs.
//!
//! - `typed`: the type of typed units, which guarantees that no rule is broken and no limit exceeded.
//! - `rule`: the names of the rules.
//! - `fault`: why a unit is refused.
//! - `constants`: the values of constant expressions.
//! - `operators`: the types in which operators work.
//! - `limits`: the limits, and what is counted towards them.
#![tactic(auto)]

mod constants;
mod fault;
mod limits;
mod operators;
mod rule;
mod typed;

pub use constants::{array_length, constant_word};
pub use fault::TypeFault;
pub use limits::{
    Count, MOST_FUNCTIONS, MOST_LOCALS, MOST_PARAMETERS, MOST_WORDS, count_locals, local_count,
    object_elements, object_words,
};
pub use operators::{
    applied_operator, binary_type, common_type, step_operator, unary_type, working_type,
};
pub use rule::{Rule, RuleError};
pub use typed::{Definition, TypedUnit};
