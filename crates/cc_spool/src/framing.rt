// How a source is written in an answer: the line `source LEN`, the LEN bytes and a newline.

ghost use Rattle.std.specs.Prelude.{◌≡◌, ◌≤◌, ℕ, Option, length, IfOk, IfSome};
ghost use Rattle.cc_spool.specs.Answer.{between, framed, read_bytes};

use crate::claims::INTERRUPTED;
use crate::lines::Lines;
use std::alloc::{AllocError, Global};
use std::fmt::Write;

/// A source has at most this many bytes.
const SOURCE_BYTES: usize = 65_536;

fn written(alloc: Global, source: &[u8]) -> Result<Vec<u8>, AllocError>
    ensures { IfOk result (λ text. text.items ≡ framed source.now) }
{
    let count = source.len();
    let mut line = String::new(alloc);
    write!(line, "source {count}\n")?;
    let mut text = line.into_bytes();
    text.extend_from_slice(source)?;
    text.push(b'\n')?;
    Ok(text)
}

/// A source of at most 65,536 bytes, in the form that it has in an answer.
pub fn frame(alloc: Global, source: &[u8]) -> Result<Vec<u8>, AllocError>
    requires { length source.now ≤ 65536 }
    ensures framed { IfOk result (λ text. text.items ≡ framed source.now) }
    // A reader is in the same state after this text as before it: no line within the text counts.
    ensures skipped { IfOk result (λ text. (last : Option ℕ) → read_bytes (between last) text.items ≡ between last) }
{
    written(alloc, source)
}

/// The source in an answer, if the answer has one source of 65,536 bytes at most and nothing else.
pub fn source_in(alloc: Global, answer: &[u8]) -> Result<Option<&[u8]>, AllocError>
    ensures { IfOk result (λ source. IfSome source (λ bytes. answer.now ≡ framed bytes.now)) }
{
    let Some(end) = answer.iter().position(|byte| *byte == b'\n') else {
        return Ok(None);
    };
    let Some((_, source)) = answer[end + 1..].split_last() else {
        return Ok(None);
    };
    if source.len() > SOURCE_BYTES {
        return Ok(None);
    }
    let whole = frame(alloc, source)?;
    let is_it = whole.as_slice() == answer;
    drop(whole);
    Ok(if is_it { Some(source) } else { None })
}

/// The lines of an answer that report faults; after them the line for 55 if the answer ends within a source.
pub fn fault_lines(alloc: Global, answer: &[u8]) -> Result<Vec<u8>, AllocError> {
    let mut told = Vec::new(alloc);
    let mut lines = Lines::new();
    let mut begin = 0;
    for i in 0..answer.len() {
        lines.read(answer[i]);
        if lines.is_between() {
            let part = &answer[begin..i + 1];
            if part.starts_with(b"fault ".as_slice()) {
                told.extend_from_slice(part)?;
            }
            begin = i + 1;
        }
    }
    if lines.is_within() {
        told.extend_from_slice(INTERRUPTED)?;
    }
    Ok(told)
}
