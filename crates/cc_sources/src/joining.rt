// Joining texts.

ghost use Rattle.std.specs.Prelude.{◌≡◌, ◌++◌, [], IfOk, OnOk, if◌then◌else◌};
ghost use Rattle.cc_sources.specs.Joined.{joined, lacks_newline, newline_after};

use super::text::NamedText;
use std::alloc::{AllocError, Global};

/// Whether a text has bytes and does not end with a newline.
pub(crate) fn lacks_newline(bytes: &[u8]) -> bool
    ensures { result ≡ lacks_newline bytes.now }
{
    match bytes.last() {
        Some(byte) => *byte != b'\n',
        None => false,
    }
}

// Appends a text, and a newline if it lacks one and is not the last.
fn append(whole: &mut Vec<u8>, bytes: &[u8], is_last: bool) -> Result<(), AllocError>
    ensures { OnOk result (whole.new.items ≡ whole.old.items ++ bytes.now ++ (if is_last then [] else newline_after bytes.now)) }
{
    whole.extend_from_slice(bytes)?;
    if !is_last && lacks_newline(bytes) {
        whole.push(b'\n')?;
    }
    Ok(())
}

/// Joins texts into one: one after another, with a newline between two if the first does not end with one. `AllocError` if memory
/// runs out.
pub fn join(alloc: Global, texts: &[NamedText]) -> Result<Vec<u8>, AllocError>
    ensures { IfOk result (λ whole. whole.items ≡ joined texts.now) }
{
    let mut whole = Vec::new(alloc);
    let mut left = texts.len();
    for text in texts {
        left -= 1;
        append(&mut whole, text.bytes.as_slice(), left == 0)?;
    }
    Ok(whole)
}
