// The line of a text around an offset, with a caret below the offset's byte.

ghost use Rattle.std.specs.Prelude.{◌≤◌, length};

use super::spelling::{Look, Shown};
use std::io::{self, Write};

/// At most this many bytes of a line are shown before the caret, and from the caret on.
const BEFORE: usize = 80;

const BEHIND: usize = 80;

/// A part of a line of a text, cut in two at an offset.
#[derive(Clone, Copy)]
struct Excerpt<'a> {
    before: &'a [u8],
    behind: &'a [u8],
}

// The last line of these bytes, cut to its last 80 bytes.
fn end_of_line_before(bytes: &[u8]) -> &[u8] {
    let length = bytes
        .iter()
        .rev()
        .take(BEFORE)
        .take_while(|b| **b != b'\n')
        .count();
    &bytes[bytes.len() - length..]
}

// The first line of these bytes, cut to its first 80 bytes.
fn line_behind(bytes: &[u8]) -> &[u8] {
    let length = bytes
        .iter()
        .take(BEHIND)
        .take_while(|b| **b != b'\n' && **b != b'\r')
        .count();
    &bytes[..length]
}

fn excerpt_at(text: &[u8], at: usize) -> Excerpt<'_>
    requires { at ≤ length text.now }
{
    let (before, behind) = text.split_at(at);
    Excerpt {
        before: end_of_line_before(before),
        behind: line_behind(behind),
    }
}

/// Writes the line in which an offset lies, with the line's number, and a caret on the line below.
pub fn write_excerpt<W: Write>(
    text: &[u8],
    at: usize,
    line: usize,
    writer: &mut W,
) -> io::Result<()>
    requires { at ≤ length text.now }
{
    let Excerpt { before, behind } = excerpt_at(text, at);
    let first = Shown {
        bytes: before,
        look: Look::Plain,
    };
    let rest = Shown {
        bytes: behind,
        look: Look::Plain,
    };
    writeln!(writer, "{line:>5} | {first}{rest}")?;
    let blank = Shown {
        bytes: before,
        look: Look::Blank,
    };
    writeln!(writer, "      | {blank}^")
}
