//! What to report about a text without a tree, and how to write it, with the line of the text and a caret.
//!
//! - `diagnostic`: a diagnostic of a text; `excerpt`: the line that is shown with it.
//! - `parts` and `spelling`: what messages are made of, and how bytes of a text are shown.
//! - `offset`: finds a place in a text.
//! - `lexical` and `syntax`: messages about a text without a tree.
//! - `reason`: why a token is unexpected, by the tables of `left_out`, by words that are `near`, and by what is `around` it.
//! - `expected`: which tokens could come there.
//!
//! Crates above report on trees and on runs, with the same parts. The faults themselves come from the crates below; a report
//! depends only on the text and the fault, and no promise depends on a report. Each call is safe and ends, and fails only for
//! lack of memory.
#![tactic(auto)]

mod around;
mod diagnostic;
mod excerpt;
mod expected;
mod left_out;
mod lexical;
mod near;
mod offset;
mod parts;
mod reason;
mod spelling;
mod syntax;

pub use diagnostic::{Diagnostic, Related, of_name};
pub use left_out::said_of_foreign;
pub use near::{near_keyword, near_name};
pub use offset::offset_in;
pub use parts::{MessagePart, message, words};
pub use syntax::of_syntax;
