//! What is printed on standard output, made safe for a terminal.
//!
//! A source, or an answer to someone else, can have any bytes, and a terminal obeys control bytes. So control bytes are shown as
//! `?` on a terminal. A file or a pipe gets each byte as it is.
//!
//! The crate needs no other crate. `screen` has the writer, `specs/` defines how bytes are shown.
#![tactic(auto)]

mod screen;

pub use screen::Screen;
