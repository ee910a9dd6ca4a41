// What is sent for a line with bytes after it.

ghost use Rattle.std.specs.Prelude.{◌≡◌, ◌++◌, IfOk, OnOk, codes, length};
ghost use Rattle.std.specs.Fmt.{decimal};
ghost use Rattle.std.specs.Io.KnownBytes.{Appends};
ghost use Rattle.cc_submit.specs.internal.Script.{piece, text_with, update_text};

use std::alloc::Global;
use std::io::{self, Write};

// Writes bytes, and a newline.
#[tactic(auto, using(cc_answers::proofs::Writing::written_on))]
fn write_piece<W: Write>(bytes: &[u8], writer: &mut W) -> io::Result<()>
    ensures { OnOk result (Appends (W.contents writer.old) (W.contents writer.new) (piece bytes.now)) }
{
    writer.write_all(bytes)?;
    writer.write_all(b"\n")
}

// Writes a line with a number after it, and a newline.
#[tactic(auto, using(cc_answers::proofs::Writing::written_on))]
fn write_counted<W: Write>(line: &str, count: usize, writer: &mut W) -> io::Result<()>
    ensures { OnOk result (Appends (W.contents writer.old) (W.contents writer.new)
        (line.now ++ (codes " " ++ (decimal count ++ codes "\n")))) }
{
    writer.write_all(line.as_bytes())?;
    writeln!(writer, " {count}")
}

// Writes a line with two numbers after it, and a newline.
#[tactic(auto, using(cc_answers::proofs::Writing::written_on))]
fn write_counts<W: Write>(
    line: &str,
    expected: usize,
    source: usize,
    writer: &mut W,
) -> io::Result<()>
    ensures { OnOk result (Appends (W.contents writer.old) (W.contents writer.new)
        (line.now ++ (codes " " ++ (decimal expected ++ (codes " " ++ (decimal source ++ codes "\n")))))) }
{
    writer.write_all(line.as_bytes())?;
    writeln!(writer, " {expected} {source}")
}

// Writes a line, how many bytes follow it, and these bytes.
#[tactic(auto, using(cc_answers::proofs::Writing::written_on))]
fn write_with<W: Write>(line: &str, bytes: &[u8], writer: &mut W) -> io::Result<()>
    ensures { OnOk result (Appends (W.contents writer.old) (W.contents writer.new) (text_with line.now bytes.now)) }
{
    write_counted(line, bytes.len(), writer)?;
    write_piece(bytes, writer)
}

// Writes the line of an update, and its two sources.
#[tactic(auto, using(cc_answers::proofs::Writing::written_third))]
fn write_update<W: Write>(
    line: &str,
    expected: &[u8],
    source: &[u8],
    writer: &mut W,
) -> io::Result<()>
    ensures { OnOk result (Appends (W.contents writer.old) (W.contents writer.new) (update_text line.now expected.now source.now)) }
{
    write_counts(line, expected.len(), source.len(), writer)?;
    write_piece(expected, writer)?;
    write_piece(source, writer)
}

/// What is sent for a line with a source or input words after it.
pub(crate) fn script_with(alloc: Global, line: &str, bytes: &[u8]) -> io::Result<Vec<u8>>
    ensures { IfOk result (λ script. script.items ≡ text_with line.now bytes.now) }
{
    let mut script = Vec::new(alloc);
    write_with(line, bytes, &mut script)?;
    Ok(script)
}

/// What is sent for a line `update NAME` with the expected source and the new one.
pub(crate) fn update_script(
    alloc: Global,
    line: &str,
    expected: &[u8],
    source: &[u8],
) -> io::Result<Vec<u8>>
    ensures { IfOk result (λ script. script.items ≡ update_text line.now expected.now source.now) }
{
    let mut script = Vec::new(alloc);
    write_update(line, expected, source, &mut script)?;
    Ok(script)
}
