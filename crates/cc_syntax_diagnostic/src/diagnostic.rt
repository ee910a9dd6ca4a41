// A diagnostic of a text, and how it is written.

use super::excerpt::write_excerpt;
use super::parts::{MessagePart, message};
use cc_tokens::{Place, place_at};
use std::alloc::{AllocError, Global};
use std::io::{self, Write};

/// Another place in a text that a message refers to, and words about it.
#[derive(Clone, Copy)]
pub struct Related {
    pub at: usize,
    pub words: &'static str,
}

/// A diagnostic of a text: a message, the offset of the byte that it is about, if it is about one, and another place if that
/// helps. An offset past the text's end counts as its end.
#[derive(Drop)]
pub struct Diagnostic {
    pub at: Option<usize>,
    pub message: String,
    pub related: Option<Related>,
}

// Writes a line of words about an offset, and below it the line of the text with a caret.
fn write_line<W: Write>(
    text: &[u8],
    at: usize,
    before: &str,
    words: &str,
    writer: &mut W,
) -> io::Result<()> {
    let at = at.min(text.len());
    let place = place_at(text, at);
    let Place { line, column } = place;
    writeln!(writer, "-:{line}:{column}: {before}{words}")?;
    write_excerpt(text, at, line, writer)
}

impl Diagnostic {
    /// Writes the message's line in the form that editors read, such as `-:4:2: 'totl' is not declared`, and below it the line of
    /// the text with a caret; then the same for the other place, after `note: `. A message that is not about a byte is written as
    /// one line, such as `-: the text has more than 65536 bytes`. Fails if the writer does.
    pub fn write<W: Write>(&self, text: &[u8], writer: &mut W) -> io::Result<()> {
        let message = self.message.as_str();
        let Some(at) = self.at else {
            return writeln!(writer, "-: {message}");
        };
        write_line(text, at, "", message, writer)?;
        match self.related {
            Some(related) => write_line(text, related.at, "note: ", related.words, writer),
            None => Ok(()),
        }
    }
}

/// Makes a diagnostic about the name of this many bytes at an offset of a text: the name in quotes, and then these words.
///
/// `AllocError` if memory runs out.
pub fn of_name<'a>(
    alloc: Global,
    text: &'a [u8],
    at: usize,
    length: usize,
    words: &'a str,
) -> Result<Diagnostic, AllocError> {
    let rest = text.get(at..).unwrap_or(b"");
    let name = MessagePart::Token(rest.get(..length).unwrap_or(rest));
    let message = message(
        alloc,
        &[name, MessagePart::Words(" "), MessagePart::Words(words)],
    )?;
    Ok(Diagnostic {
        at: Some(at),
        message,
        related: None,
    })
}
