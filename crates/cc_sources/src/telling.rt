// Reports about a text, with the names of the texts from which it was joined.

use super::message::named_message;
use super::place::place_in;
use super::reading::INPUT;
use super::text::NamedText;
use cc_syntax_diagnostic::{Diagnostic, Related};
use std::alloc::{AllocError, Global};
use std::io::{self, Write};

/// The origin of a text.
#[derive(Clone, Copy)]
pub enum Origin<'a> {
    /// Standard input.
    Input,
    /// These texts, joined.
    Texts(&'a [NamedText]),
}

/// Writes the name of a text. A byte that could control a terminal is shown as `?`. Fails if the writer does.
pub fn write_name<W: Write>(name: &str, writer: &mut W) -> io::Result<()> {
    for byte in name.bytes() {
        let shown = if byte < 32 || byte == 127 { b'?' } else { byte };
        writer.write_all(&[shown])?;
    }
    Ok(())
}

// Writes the names of texts.
fn write_names<W: Write>(texts: &[NamedText], writer: &mut W) -> io::Result<()> {
    for (number, text) in texts.iter().enumerate() {
        if number > 0 {
            writer.write_all(b", ")?;
        }
        write_name(text.name.as_str(), writer)?;
    }
    Ok(())
}

// A message about a byte of one text.
fn message_at(
    alloc: Global,
    texts: &[NamedText],
    before: &str,
    words: &str,
    at: usize,
) -> Result<Diagnostic, AllocError> {
    let words = named_message(alloc, texts, words)?;
    let message = format!(in alloc; "{before}{words}")?;
    drop(words);
    Ok(Diagnostic {
        at: Some(at),
        message,
        related: None,
    })
}

// Writes a message about a byte of the whole as one about the text that the byte comes from, with that text's name in place of
// `-`.
fn write_at<W: Write>(
    alloc: Global,
    texts: &[NamedText],
    at: usize,
    before: &str,
    words: &str,
    writer: &mut W,
) -> io::Result<()> {
    let Some(found) = place_in(texts, at) else {
        return Ok(());
    };
    let Some(text) = texts.get(found.number) else {
        return Ok(());
    };
    let message = message_at(alloc, texts, before, words, found.at)?;
    let mut shown = Vec::new(alloc);
    message.write(text.bytes.as_slice(), &mut shown)?;
    write_name(text.name.as_str(), writer)?;
    let lines = shown.as_slice();
    writer.write_all(lines.strip_prefix(INPUT.as_bytes()).unwrap_or(lines))
}

// Writes a diagnostic about the joined text.
fn write_of_texts<W: Write>(
    alloc: Global,
    texts: &[NamedText],
    diagnostic: &Diagnostic,
    writer: &mut W,
) -> io::Result<()> {
    let message = diagnostic.message.as_str();
    let Some(at) = diagnostic.at else {
        write_names(texts, writer)?;
        return writeln!(writer, ": {message}");
    };
    write_at(alloc, texts, at, "", message, writer)?;
    match diagnostic.related {
        Some(Related { at, words }) => write_at(alloc, texts, at, "note: ", words, writer),
        None => Ok(()),
    }
}

/// Writes a diagnostic of a text as `Diagnostic` does, such as `-:4:2: 'totl' is not declared`. If the text was joined from
/// others, the name, the line and the column are those of the text that contains the place: `B.c:4:2: 'totl' is not declared`.
/// Fails if the writer does or memory runs out; some lines may have been written then.
pub fn write_diagnostic<W: Write>(
    alloc: Global,
    text: &[u8],
    origin: Origin<'_>,
    diagnostic: &Diagnostic,
    writer: &mut W,
) -> io::Result<()> {
    match origin {
        Origin::Input => diagnostic.write(text, writer),
        Origin::Texts(texts) => write_of_texts(alloc, texts, diagnostic, writer),
    }
}

/// Writes which text could not be read, and why. Fails if the writer does.
pub fn tell_unread<W: Write>(name: &str, why: &io::Error, writer: &mut W) -> io::Result<()> {
    writer.write_all(b"cclib: ")?;
    if name == INPUT {
        writer.write_all(b"standard input")?;
    } else {
        write_name(name, writer)?;
    }
    writeln!(writer, " could not be read: {why}")?;
    writer.flush()
}
