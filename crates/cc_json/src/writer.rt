// A writer of lines. Each line becomes an object of JSON.

use super::line::{LineObject, Said, object_of_line};
use super::object::{Object, write_object};
use super::place::{told_object, words_in};
use super::telling::{add_message, words_of_fault};
use cc_answers::explain_bad_line;
use cc_script::{Dialect, ScriptFault};
use std::alloc::{AllocError, Global};
use std::io::{self, Write};

/// At most this many bytes of a line are held: a longer line becomes several objects.
const MOST_LINE: usize = 65_536;

/// What the lines of a writer are.
#[derive(Clone, Copy)]
pub enum LineKind {
    /// Answers.
    Answers,
    /// Answers to a script. BadLine (50) is explained by the commands of this dialect.
    Script(Dialect),
    /// Explanations that go with answers.
    Told,
}

/// A writer of lines. Each line becomes an object of JSON on a line of its own. An incomplete line becomes an object when the
/// writer is flushed.
#[derive(Drop)]
pub struct InJson<W: Drop> {
    alloc: Global,
    writer: W,
    lines: LineKind,
    line: Vec<u8>,
}

// Adds what a line of a script may be, if it is no command.
fn add_commands(alloc: Global, object: &mut Object, dialect: Dialect) -> io::Result<()> {
    let mut line = Vec::new(alloc);
    explain_bad_line(dialect, &mut line)?;
    let line = line.as_slice();
    let line = line.strip_suffix(b"\n").unwrap_or(line);
    let words = String::from_utf8_lossy(alloc, words_in(line).unwrap_or(line))?;
    add_message(object, words.as_str())?;
    Ok(())
}

// The object for a line of an answer, with the words that explain it if it reports a fault.
fn answer_object(alloc: Global, lines: LineKind, line: &[u8]) -> io::Result<Object> {
    let LineObject { mut object, said } = object_of_line(alloc, line)?;
    if let Said::Fault(number) = said {
        if let LineKind::Script(dialect) = lines
            && number == u64::from(ScriptFault::BadLine.number())
        {
            add_commands(alloc, &mut object, dialect)?;
        } else if let Some(words) = words_of_fault(number) {
            add_message(&mut object, words)?;
        }
    }
    Ok(object)
}

// The object for a line; `None` if the line is left out.
fn object_of(alloc: Global, lines: LineKind, line: &[u8]) -> io::Result<Option<Object>> {
    match lines {
        LineKind::Answers | LineKind::Script(_) => Ok(Some(answer_object(alloc, lines, line)?)),
        LineKind::Told => Ok(told_object(alloc, line)?),
    }
}

impl<W: Write + Drop> InJson<W> {
    /// A writer of objects that passes them to `writer`, for lines of this kind.
    pub fn new(alloc: Global, writer: W, lines: LineKind) -> InJson<W> {
        InJson {
            alloc,
            writer,
            lines,
            line: Vec::new(alloc),
        }
    }

    /// The writer of the objects. An incomplete line that was not flushed is left out.
    pub fn into_writer(self) -> W {
        let InJson {
            alloc: _,
            writer,
            lines: _,
            line,
        } = self;
        drop(line);
        writer
    }

    // Writes the object for the line that is held.
    fn finish_line(&mut self) -> io::Result<()> {
        let object = object_of(self.alloc, self.lines, self.line.as_slice())?;
        self.line.clear();
        match object {
            Some(object) => write_object(self.alloc, object, &mut self.writer),
            None => Ok(()),
        }
    }

    // Takes a byte.
    fn take(&mut self, byte: u8) -> io::Result<()> {
        if byte == b'\n' {
            return self.finish_line();
        }
        if self.line.len() >= MOST_LINE {
            self.finish_line()?;
        }
        self.line.push(byte)?;
        Ok(())
    }
}

impl<W: Write + Drop> Write for InJson<W> {
    fn write(&mut self, bytes: &[u8]) -> io::Result<usize> {
        for byte in bytes {
            self.take(*byte)?;
        }
        Ok(bytes.len())
    }

    fn flush(&mut self) -> io::Result<()> {
        if !self.line.is_empty() {
            self.finish_line()?;
        }
        self.writer.flush()
    }
}
