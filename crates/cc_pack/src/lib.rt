//! A unit as a file: a line of text with the form's version, the modes in which an audit confirms the unit, and the SHA-256 of what
//! follows; then the bytes of a record.
//!
//! `file` writes and reads such a file; `fault` is why bytes are no such file; `laws` says that a file is one of one body. What the bytes
//! of the body are is not looked at. The crate exports `ConfirmedIn`, `Packed`, `line_of`, `write_file`, `read_file`, `files_are_one` and
//! `PackFault`, and the definitions that their contracts name (`specs/`).
#![tactic(auto)]

mod fault;
mod file;
mod laws;

pub use fault::PackFault;
pub use file::{ConfirmedIn, Packed, line_of, read_file, write_file};
pub use laws::files_are_one;
