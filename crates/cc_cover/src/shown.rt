// How places, words and calls are written.

use cc_sources::{NamedText, place_in, write_name};
use std::io::{self, Write};

/// Writes the place of a byte of the joined text, for example `B.c:4:2`.
pub fn write_place<W: Write>(texts: &[NamedText], at: usize, writer: &mut W) -> io::Result<()> {
    let Some(found) = place_in(texts, at) else {
        return writer.write_all(b"?");
    };
    if let Some(text) = texts.get(found.number) {
        write_name(text.name.as_str(), writer)?;
    }
    write!(writer, ":{}:{}", found.place.line, found.place.column)
}

/// Writes a word as a signed number, and a negative one also as an unsigned one.
pub fn write_word<W: Write>(word: u32, writer: &mut W) -> io::Result<()> {
    let signed = word.cast_signed();
    if signed < 0 {
        write!(writer, "{signed} ({word})")
    } else {
        write!(writer, "{signed}")
    }
}

/// Writes a call, for example `gcd(12, 18)`.
pub fn write_call<W: Write>(name: &[u8], arguments: &[u32], writer: &mut W) -> io::Result<()> {
    writer.write_all(name)?;
    writer.write_all(b"(")?;
    for (number, word) in arguments.iter().enumerate() {
        if number > 0 {
            writer.write_all(b", ")?;
        }
        write_word(*word, writer)?;
    }
    writer.write_all(b")")
}
