//! Which local, object or function a name refers to, where the objects' words are, and in which type an operator works.
//!
//! - `layout`, which uses `places`: what the names of file scope refer to.
//! - `units` and `objects`: the layout of a unit.
//! - `environment`: what surrounds a statement; `declarations`, `objects` and `units` bring names into it.
//! - `operations`: the operation on words that an operator performs.
//!
//! Every walk that translates a typed unit uses these modules.
#![tactic(auto)]

mod declarations;
mod environment;
mod layout;
mod objects;
mod operations;
mod places;
mod units;

pub use declarations::{declare_beginning, declare_locals, declare_statement};
pub use environment::Environment;
pub use layout::Layout;
pub use objects::{add_words, declare_objects};
pub use operations::{BinaryOperation, UnaryOperation, operation, unary_operation};
pub use units::{declare_function, enter_function, function_environment, lay_out, leave_function};
