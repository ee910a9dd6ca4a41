// Reads an input line by line. A line that is too long is skipped.

ghost use Rattle.std.specs.Prelude.{IfOk, OnErr};
ghost use Rattle.std.specs.Io.KnownBytes.{Keeps};
ghost use Rattle.cc_runs.specs.Reading.{IsNextLine};
ghost use Rattle.cc_runs.specs.internal.Bytes.{IsNextByte};

use std::io::{self, BufRead, ErrorKind, Read};

/// A line may have at most this many bytes, without its newline.
pub const LINE_BYTES: usize = 16_777_216;

/// What was read of a line.
#[derive(Clone, Copy, Drop)]
pub enum ReadLine {
    /// The whole line.
    Whole,
    /// Its beginning: the line has more bytes than it may have. The rest was skipped.
    TooLong,
}

// Reads a byte, if no signal interrupts that; `None` at the end.
fn read_byte<R: Read>(reader: &mut R) -> io::Result<Option<u8>>
    ensures read { IfOk result (λ byte. IsNextByte (R.remaining reader.old) byte (R.remaining reader.new)) }
    ensures failed { OnErr result (Keeps (R.remaining reader.old) (R.remaining reader.new)) }
{
    let mut byte = [0u8; 1];
    let count = reader.read(&mut byte)?;
    if count == 0 {
        return Ok(None);
    }
    Ok(Some(byte[0]))
}

// The next byte; `None` at the end.
fn next_byte<R: Read>(reader: &mut R) -> io::Result<Option<u8>>
    ensures { IfOk result (λ byte. IsNextByte (R.remaining reader.old) byte (R.remaining reader.new)) }
{
    for _ in 0..u64::MAX {
        match read_byte(reader) {
            Ok(byte) => return Ok(byte),
            Err(error) => {
                if error.kind() != ErrorKind::Interrupted {
                    return Err(error);
                }
            }
        }
    }
    Err(io::Error::from(ErrorKind::Interrupted))
}

/// Reads the next line without its newline, in place of what is in `line`, and keeps at most 16,777,216 bytes of it. `None` at the end. What
/// follows the last newline is a line if it has any bytes.
pub fn next_line<R: BufRead>(reader: &mut R, line: &mut Vec<u8>) -> io::Result<Option<ReadLine>>
    ensures { IfOk result (IsNextLine (R.remaining reader.old) (R.remaining reader.new) line.new.items) }
{
    line.clear();
    for length in 0..LINE_BYTES {
        match next_byte(reader)? {
            None if length == 0 => return Ok(None),
            None | Some(b'\n') => return Ok(Some(ReadLine::Whole)),
            Some(byte) => line.push(byte)?,
        }
    }
    match next_byte(reader)? {
        None | Some(b'\n') => Ok(Some(ReadLine::Whole)),
        Some(_) => {
            reader.skip_until(b'\n')?;
            Ok(Some(ReadLine::TooLong))
        }
    }
}
