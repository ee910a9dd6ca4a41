// Messages, made of parts.

use super::spelling::{Look, Quoted, Shown};
use cc_tokens::{Place, Scalar};
use std::alloc::{AllocError, Global};
use std::fmt;

/// A part of a message.
#[derive(Clone, Copy)]
pub enum MessagePart<'a> {
    Words(&'a str),
    /// A token, in quotes.
    Token(&'a [u8]),
    /// A name, without quotes.
    Name(&'a [u8]),
    Count(usize),
    /// A byte, shown by its hexadecimal number.
    Byte(u8),
    /// A character, shown by its number in Unicode.
    Character(char),
    /// A word, shown as a number of a type.
    Word(Scalar, u32),
    Place(Place),
}

impl fmt::Display for MessagePart<'_> {
    fn fmt<W: fmt::Write>(&self, f: &mut fmt::Formatter<W>) -> fmt::Result {
        match self {
            MessagePart::Words(words) => f.write_str(words),
            MessagePart::Token(bytes) => Quoted(bytes).fmt(f),
            MessagePart::Name(bytes) => {
                let look = Look::Plain;
                Shown { bytes, look }.fmt(f)
            }
            MessagePart::Count(count) => write!(f, "{count}"),
            MessagePart::Byte(byte) => write!(f, "byte 0x{byte:02x}"),
            MessagePart::Character(c) => {
                let code = u32::from(*c);
                write!(f, "U+{code:04X}")
            }
            MessagePart::Word(Scalar::Int, word) => write!(f, "{}", word.cast_signed()),
            MessagePart::Word(Scalar::Unsigned, word) => write!(f, "{word}"),
            MessagePart::Place(Place { line, column }) => write!(f, "{line}:{column}"),
        }
    }
}

/// Joins these parts into a message. `AllocError` if memory runs out.
pub fn message(alloc: Global, parts: &[MessagePart<'_>]) -> Result<String, AllocError> {
    let mut text = String::new(alloc);
    for part in parts {
        write!(text, "{part}")?;
    }
    Ok(text)
}

/// Makes a message of these words. `AllocError` if memory runs out.
pub fn words(alloc: Global, words: &str) -> Result<String, AllocError> {
    String::from_str(alloc, words)
}
