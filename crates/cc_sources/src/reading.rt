// Reading texts.

ghost use Rattle.std.specs.Prelude.{◌≡◌, ◌≤◌, IfOk, IfSome, take, vec_len};
ghost use Rattle.cc_sources.specs.Reading.{IsTextOf};

use super::text::NamedText;
use cc_tokens::MOST_BYTES;
use std::alloc::{AllocError, Global};
use std::fs::File;
use std::io::{self, Input, Read};
use std::rt::Files;

/// One byte more than a text may have. No further bytes are read, so a longer text is recognised as too long.
pub const MOST_READ: usize = MOST_BYTES + 1;

/// The name of standard input.
pub const INPUT: &str = "-";

/// Why a text could not be read.
#[derive(Drop)]
pub enum NoText {
    /// The system refused to open the text or to read it.
    Unread(io::Error),
    OutOfMemory,
}

impl From<AllocError> for NoText {
    ghost use Rattle.cc_sources.specs.declared.reading.NoText.TheVariants.{OutOfMemory};

    ghost from_gives = { λ _ fault. fault ≡ OutOfMemory };

    fn from(_error: AllocError) -> Self {
        NoText::OutOfMemory
    }
}

/// Returns the bytes of a reader up to its end, or the first `most` of them. Fails with `Unread` if a read fails, and with
/// `OutOfMemory` if memory runs out.
fn read_most<R: Read>(alloc: Global, reader: &mut R, most: usize) -> Result<Vec<u8>, NoText>
    ensures few { IfOk result (λ text. vec_len text ≤ most) }
    ensures text { IfOk result (λ text. IfSome (R.remaining reader.old) (λ all. text.items ≡ take most all)) }
{
    let mut text = Vec::new(alloc);
    let mut piece = [0u8; 4096];
    while text.len() < most {
        let room = piece.len().min(most - text.len());
        let count = match reader.read(&mut piece[..room]) {
            Ok(count) => count,
            Err(why) => return Err(NoText::Unread(why)),
        };
        if count == 0 {
            break;
        }
        text.extend_from_slice(&piece[..count])?;
    }
    Ok(text)
}

/// Returns the bytes of a reader up to its end, or the first `MOST_READ` of them. Fails with `Unread` if a read fails, and with
/// `OutOfMemory` if memory runs out.
pub fn read_text<R: Read>(alloc: Global, reader: &mut R) -> Result<Vec<u8>, NoText>
    ensures few { IfOk result (λ text. vec_len text ≤ MOST_READ) }
    ensures text { IfOk result (λ text. IsTextOf (R.remaining reader.old) text.items) }
{
    read_most(alloc, reader, MOST_READ)
}

/// Returns the bytes of the file with a name, or of standard input, or the first `most` of them. Fails with `Unread` if the system
/// refuses to open the file or to read it, and with `OutOfMemory` if memory runs out.
pub fn read_named<R: Input, F: Files>(
    rt: &R,
    files: &F,
    alloc: Global,
    name: &str,
    most: usize,
) -> Result<Vec<u8>, NoText> {
    if name == INPUT {
        return read_most(alloc, &mut rt.reader(), most);
    }
    match File::open(files, name) {
        Ok(mut file) => read_most(alloc, &mut file, most),
        Err(why) => Err(NoText::Unread(why)),
    }
}

/// The number, from 0, of the text that could not be read, and why.
#[derive(Drop)]
pub struct NoTexts {
    pub number: usize,
    pub why: NoText,
}

// Reads the text with a name, and keeps the name with it.
fn named<R: Input, F: Files>(
    rt: &R,
    files: &F,
    alloc: Global,
    name: &str,
) -> Result<NamedText, NoText> {
    let bytes = read_named(rt, files, alloc, name, MOST_READ)?;
    let name = String::from_str(alloc, name)?;
    Ok(NamedText { name, bytes })
}

/// Reads the files with these names, in their order; `-` is standard input. Once they have more bytes together than a text may
/// have, no further one is read. Fails at the first text that cannot be read or for which memory runs out, and returns its number
/// and the reason.
pub fn read_texts<R: Input, F: Files>(
    rt: &R,
    files: &F,
    alloc: Global,
    names: &[String],
) -> Result<Vec<NamedText>, NoTexts> {
    let mut texts = Vec::new(alloc);
    let mut read = 0usize;
    for (number, name) in names.iter().enumerate() {
        if read > MOST_BYTES {
            break;
        }
        let text = match named(rt, files, alloc, name.as_str()) {
            Ok(text) => text,
            Err(why) => return Err(NoTexts { number, why }),
        };
        read = read.saturating_add(text.bytes.len());
        if texts.push(text).is_err() {
            let why = NoText::OutOfMemory;
            return Err(NoTexts { number, why });
        }
    }
    Ok(texts)
}
