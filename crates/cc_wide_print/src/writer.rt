// The lines of the printed text.

use crate::fault::PrintFault;
use crate::printed::{Passage, Printed};
use cc_tokens::MOST_BYTES;
use std::alloc::{AllocError, Global};
use std::mem::replace;

/// The printed text so far. Each line of the wide text is a line of the printed text; if it is carried, it follows there after
/// `//|`.
#[derive(Drop)]
pub struct Writer<'a> {
    alloc: Global,
    wide: &'a [u8],
    carried: bool,
    /// The comments begin in this column, or after what is longer.
    width: usize,
    text: Vec<u8>,
    passages: Vec<Passage>,
    /// The lines of the wide text that end before this offset have been written.
    at: usize,
    /// The offset of the first byte of the wide text's line.
    line: usize,
    /// The offset of the first byte of the printed text's line.
    start: usize,
}

/// The bytes from an offset up to another, as far as there are any.
pub fn between(text: &[u8], from: usize, to: usize) -> &[u8] {
    let to = to.min(text.len());
    let from = from.min(to);
    &text[from..to]
}

fn is_word(b: u8) -> bool {
    b.is_ascii_alphabetic() || b.is_ascii_digit() || b == b'_'
}

fn is_operator(b: u8) -> bool {
    b"+-*/%<>=!&|^".contains(&b)
}

// Whether two bytes that end and begin tokens need a space between them, so that they stay two.
fn are_apart(before: u8, after: u8) -> bool {
    let exponent = b"eEpP".contains(&before) && b"+-".contains(&after);
    (is_word(before) && is_word(after)) || (is_operator(before) && is_operator(after)) || exponent
}

impl<'a> Writer<'a> {
    /// Nothing has been written.
    pub fn new(alloc: Global, wide: &'a [u8], carried: bool, width: usize) -> Self {
        Writer {
            alloc,
            wide,
            carried,
            width,
            text: Vec::new(alloc),
            passages: Vec::new(alloc),
            at: 0,
            line: 0,
            start: 0,
        }
    }

    fn push(&mut self, bytes: &[u8]) -> Result<(), PrintFault> {
        if MOST_BYTES < self.text.len().saturating_add(bytes.len()) {
            return Err(PrintFault::SourceTooLarge);
        }
        match self.text.extend_from_slice(bytes) {
            Ok(()) => Ok(()),
            Err(_) => Err(PrintFault::OutOfMemory),
        }
    }

    // Writes the line of the wide text that ends at an offset.
    fn carry(&mut self, end: usize) -> Result<(), PrintFault> {
        if !self.carried {
            return Ok(());
        }
        let written = self.text.len().saturating_sub(self.start);
        for _ in written..self.width.max(written.saturating_add(1)) {
            self.push(b" ")?;
        }
        self.push(b"//|")?;
        let wide = self.wide;
        self.push(between(wide, self.line, end))
    }

    // Ends the lines of the wide text that end before an offset.
    fn advance(&mut self, to: usize) -> Result<(), PrintFault> {
        let wide = self.wide;
        for i in self.at..to.min(wide.len()) {
            if wide[i] == b'\n' {
                self.carry(i)?;
                self.push(b"\n")?;
                self.line = i.saturating_add(1);
                self.start = self.text.len();
            }
        }
        self.at = self.at.max(to);
        Ok(())
    }

    fn passage(&mut self, wide: usize) -> Result<(), AllocError> {
        let printed = self.text.len();
        self.passages.push(Passage { printed, wide })?;
        Ok(())
    }

    /// Writes a token, or some, that come from an offset of the wide text.
    pub fn put(&mut self, at: usize, bytes: &[u8]) -> Result<(), PrintFault> {
        self.advance(at)?;
        self.passage(at)?;
        self.append(bytes)
    }

    /// Writes a token, or some, that come from where the last ones came from.
    pub fn append(&mut self, bytes: &[u8]) -> Result<(), PrintFault> {
        if let (Some(before), Some(after)) = (self.text.as_slice().last(), bytes.first()) {
            if are_apart(*before, *after) {
                self.push(b" ")?;
            }
        }
        self.push(bytes)
    }

    /// Writes the other lines of the wide text, and returns what has been written.
    pub fn finish(mut self) -> Result<Printed, PrintFault> {
        let end = self.wide.len();
        self.advance(end)?;
        self.carry(end)?;
        let alloc = self.alloc;
        let text = replace(&mut self.text, Vec::new(alloc));
        let passages = replace(&mut self.passages, Vec::new(alloc));
        Ok(Printed { text, passages })
    }
}
