//! The texts that a program consists of, each with its name: how they are read, joined to the one text that is compiled, and
//! named in reports. There is no preprocessor and no linker: what is compiled is the joined text.
//!
//! - `text`: a text with its name.
//! - `joining`: joins texts.
//! - `place`: which text a byte of the whole comes from, with line and column there.
//! - `reading`: reads files and standard input.
//! - `telling`: writes reports about the whole with the names of its texts.
//! - `message`: puts these names into messages.
//!
//! The crate exports these, and the definitions that their contracts use (`specs/`).
#![tactic(auto)]

mod joining;
mod message;
mod place;
mod reading;
mod telling;
mod text;

pub use joining::join;
pub use message::named_message;
pub use place::{TextPlace, place_in};
pub use reading::{INPUT, MOST_READ, NoText, NoTexts, read_named, read_text, read_texts};
pub use telling::{Origin, tell_unread, write_diagnostic, write_name};
pub use text::NamedText;
