// The input words in a file. Each of its lines has words as a line of standard input has them; the input has those of all lines together.

use cc_answers::explain_words;
use cc_runs::{LINE_BYTES, ReadLine, explain_bad_line, words_in};
use cc_sources::{NoText, read_named};
use std::alloc::{AllocError, Global};
use std::io::{self, Input, Write};
use std::rt::Files;

/// Why a file has no input words.
#[derive(Clone, Copy, Debug, Drop, PartialEq, Eq)]
pub enum NoWords {
    /// 50: a line is no list of words, or the file has more than 16,777,216 bytes.
    BadLine,
    /// 53: the file could not be read.
    ReadFault,
    /// 40: memory ran out.
    OutOfMemory,
}

impl NoWords {
    /// The fault's number.
    pub fn number(&self) -> u32 {
        match self {
            NoWords::BadLine => 50,
            NoWords::ReadFault => 53,
            NoWords::OutOfMemory => 40,
        }
    }
}

impl From<AllocError> for NoWords {
    ghost use Rattle.std.specs.Prelude.{◌≡◌};
    ghost use Rattle.cc_keeping.specs.declared.words.NoWords.TheVariants.{OutOfMemory};

    ghost from_gives = { λ _ fault. fault ≡ OutOfMemory };

    fn from(_error: AllocError) -> Self {
        NoWords::OutOfMemory
    }
}

// Explains why the line with this number in a file is no list of words.
fn explain_line<E: Write>(
    alloc: Global,
    path: &str,
    number: u64,
    line: &[u8],
    told: &mut E,
) -> io::Result<()> {
    let mut message = Vec::new(alloc);
    explain_bad_line(alloc, number, ReadLine::Whole, line, &mut message)?;
    told.write_all(path.as_bytes())?;
    // The message begins with `-`, the name of standard input.
    told.write_all(message.as_slice().get(1..).unwrap_or(&[]))?;
    told.flush()
}

// The words of all lines of a text.
fn words_of_text<E: Write>(
    alloc: Global,
    path: &str,
    text: &[u8],
    told: &mut E,
) -> Result<Vec<u32>, NoWords> {
    if text.len() > LINE_BYTES {
        let _ = writeln!(
            told,
            "{path}:1:1: the file has more than {LINE_BYTES} bytes"
        );
        return Err(NoWords::BadLine);
    }
    let mut words = Vec::new(alloc);
    let mut number = 0u64;
    for line in text.split(|byte| *byte == b'\n') {
        number = number.saturating_add(1);
        let Some(found) = words_in(alloc, line)? else {
            let _ = explain_line(alloc, path, number, line, told);
            return Err(NoWords::BadLine);
        };
        words.extend_from_slice(found.as_slice())?;
    }
    Ok(words)
}

/// The input words in the file with a name, or in standard input if the name is `-`. What is wrong is explained.
pub fn words_of_file<R: Input, F: Files, E: Write>(
    rt: &R,
    files: &F,
    alloc: Global,
    path: &str,
    told: &mut E,
) -> Result<Vec<u32>, NoWords> {
    match read_named(rt, files, alloc, path, LINE_BYTES + 1) {
        Ok(text) => words_of_text(alloc, path, text.as_slice(), told),
        Err(NoText::Unread(why)) => {
            let _ = writeln!(told, "cclib: {path} could not be read: {why}");
            Err(NoWords::ReadFault)
        }
        Err(NoText::OutOfMemory) => {
            let _ = explain_words(40, told);
            Err(NoWords::OutOfMemory)
        }
    }
}
