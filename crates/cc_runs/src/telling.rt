// Explains to a person why a line got BadLine (50), and that a run has stopped in place.

use crate::reading::{LINE_BYTES, ReadLine};
use crate::words::words_in;
use cc_diagnostic::of_name;
use std::alloc::{AllocError, Global};
use std::io::{self, Write};

// What a message says about the first word that is no input word.
const WORD_RULE: &str =
    "is no WORD: a line has the WORDs of one run, decimal numbers from 0 to 4294967295 between single spaces";

// Whether bytes without a space are an input word.
fn is_word(alloc: Global, bytes: &[u8]) -> Result<bool, AllocError> {
    match words_in(alloc, bytes)? {
        Some(words) => Ok(words.len() == 1),
        None => Ok(false),
    }
}

// Writes which word of a line is the first that is no input word, and its place.
fn explain_words<E: Write>(
    alloc: Global,
    number: u64,
    line: &[u8],
    explanations: &mut E,
) -> io::Result<()> {
    let mut at = 0usize;
    for word in line.split(|byte| *byte == b' ') {
        if !is_word(alloc, word)? {
            let told = of_name(alloc, line, at, word.len(), WORD_RULE)?;
            let (column, message) = (at.saturating_add(1), told.message.as_str());
            return writeln!(explanations, "-:{number}:{column}: {message}");
        }
        at = at.saturating_add(word.len()).saturating_add(1);
    }
    Ok(())
}

/// Explains why the line with this number, counted from 1, got BadLine (50): it is too long, or a word of it is no input word. Fails if the
/// writer does, or if memory runs out.
pub fn explain_bad_line<E: Write>(
    alloc: Global,
    number: u64,
    read: ReadLine,
    line: &[u8],
    explanations: &mut E,
) -> io::Result<()> {
    match read {
        ReadLine::Whole => explain_words(alloc, number, line, explanations)?,
        ReadLine::TooLong => {
            writeln!(
                explanations,
                "-:{number}:1: the line has more than {LINE_BYTES} bytes"
            )?
        }
    }
    explanations.flush()
}

/// Explains that a run that is going has stopped in place.
pub fn explain_final<E: Write>(explanations: &mut E) -> io::Result<()> {
    writeln!(
        explanations,
        "cclib: the run has stopped in place: nothing more comes, however many instructions it may take"
    )?;
    explanations.flush()
}
