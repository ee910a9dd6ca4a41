// The lines that are written for a comparison.

ghost use Rattle.std.specs.Prelude.{◌≡◌, OnOk};
ghost use Rattle.std.specs.Io.KnownBytes.{Appends};
ghost use Rattle.cc_diff.specs.Written.{diff_text, line_text, word_of};

use crate::difference::{DiffLine, Difference};
use std::io::{self, Write};

// The word before the name.
fn word_of(difference: Difference) -> &'static str
    ensures { result.now ≡ word_of difference }
{
    match difference {
        Difference::Left => "left ",
        Difference::Right => "right ",
        Difference::Source => "source ",
        Difference::Image => "image ",
        Difference::Certificate => "certificate ",
    }
}

// Writes one line.
#[tactic(auto, using(cc_answers::proofs::Writing::written_third))]
fn write_line<W: Write>(line: &DiffLine, writer: &mut W) -> io::Result<()>
    ensures { OnOk result (Appends (W.contents writer.old) (W.contents writer.new) (line_text line.now)) }
{
    writer.write_all(word_of(line.difference).as_bytes())?;
    writer.write_all(line.name.bytes())?;
    writer.write_all(b"\n")
}

/// Writes each line: what differs, and the name. Fails if the writer failed.
#[tactic(auto, using(cc_answers::proofs::Writing::one_more))]
pub fn write_diff<W: Write>(lines: &[DiffLine], writer: &mut W) -> io::Result<()>
    ensures { OnOk result (Appends (W.contents writer.old) (W.contents writer.new) (diff_text lines.now)) }
{
    for line in lines {
        write_line(line, writer)?;
    }
    Ok(())
}
