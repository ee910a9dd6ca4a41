//! From C text to its tokens (C99 6.4, as far as the profile includes them), and why a text is refused.
//!
//! - `token`: the types of tokens.
//! - `scalar`: the types of numbers.
//! - `scan`: what a sequence of bytes begins with.
//! - `lexer`: the tokens of a whole text.
//! - `lexical_error`: why a text has no tokens.
//! - `place`: lines and columns.
//! - `fault`: why a text is refused, in tokens or in syntax, as one type.
//!
//! The crate exports `tokens`, `next_token`, `place_at`, the types, and the definitions that their contracts use (`specs/`).
#![tactic(auto)]

mod fault;
mod lexer;
mod lexical_error;
mod place;
mod scalar;
mod scan;
mod token;

pub use fault::SyntaxFault;
pub use lexer::{MOST_BYTES, NextToken, next_token, tokens, tokens_are_determined};
pub use lexical_error::LexicalError;
pub use place::{Place, place_at};
pub use scalar::Scalar;
pub use token::{Keyword, Punctuator, Token, TokenKind};
