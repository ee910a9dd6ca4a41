//! The names in scope while a unit is read from its beginning: what each denotes, scope by scope.
//!
//! - `scope`: the names of file scope and of the open blocks.
//! - `bindings`, on `numbering`: the bindings of names, newest last, and for each name its newest one.
//! - `entity`: what a name denotes.
#![tactic(auto)]

mod bindings;
mod entity;
mod numbering;
mod scope;

pub use bindings::{Bindings, Newest};
pub use entity::{Entity, differs, same_result};
pub use numbering::Numbering;
pub use scope::{READ_WORD, Scope, WRITE_WORD};
