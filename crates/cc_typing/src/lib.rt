//! The check of the C profile's rules of scope and type, and of its limits: whether a parsed unit is typed, and which rule it
//! breaks or which limit it exceeds first.
//!
//! `check` makes a `TypedUnit` from a parsed unit (`checking`). One walk visits file scope (`externals`), `statements` and
//! `expressions`, with the names in scope. The walk records which functions are defined (`functions`), what surrounds a
//! statement (`around`), and the first errors (`findings`). `limits` counts what has a limit.
//!
//! The types and the definitions of the rules are in `cc_types`, the names in scope in `cc_scope`. The crate re-exports the items
//! that a caller of `check`, or a walk over a typed unit, needs.
#![tactic(auto)]

mod around;
mod checking;
mod expressions;
mod externals;
mod findings;
mod functions;
mod limits;
mod statements;

pub use cc_scope::{Bindings, Entity, Newest, Numbering, READ_WORD, Scope, WRITE_WORD};
pub use cc_types::{
    Definition, MOST_FUNCTIONS, MOST_LOCALS, MOST_PARAMETERS, MOST_WORDS, TypeFault, TypedUnit,
    applied_operator, array_length, binary_type, common_type, constant_word, local_count,
    object_elements, object_words, step_operator, unary_type, working_type,
};
pub use checking::{check, check_is_determined};
