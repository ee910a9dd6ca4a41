// A writer that may be a terminal.

ghost use Rattle.std.specs.Prelude.{◌≡◌, None, IfOk, if◌then◌else◌, take};
ghost use Rattle.std.specs.Io.{WritesAtMost};
ghost use Rattle.std.specs.Io.KnownBytes.{Appends};
ghost use Rattle.cc_screen.specs.internal.Shown.{is_control, last_of, shown, shown_byte};

use std::io::{self, Write};

/// A writer that may be a terminal. A terminal gets `?` for each control byte except newline and tab. Clauses about its contents
/// are only for a writer that is not a terminal.
#[derive(Drop)]
pub struct Screen<W: Drop> {
    writer: W,
    is_terminal: bool,
    // The last byte that was shown; 0 at first.
    last: u8,
}

// Whether a terminal treats a byte as a control character. It does so for a byte from 128 to 159, unless the byte continues
// another character in UTF-8. The character that consists of 194 and a byte from 128 to 159 is a control character too.
fn is_control(before: u8, byte: u8) -> bool
    ensures { result ≡ is_control before byte }
{
    (byte < 32 && !(byte == b'\t' || byte == b'\n'))
        || byte == 127
        || ((128 <= byte && byte < 160) && (before < 128 || before == 194))
}

// What a terminal shows for a byte.
fn shown_byte(before: u8, byte: u8) -> u8
    ensures { result ≡ shown_byte before byte }
{
    if is_control(before, byte) { b'?' } else { byte }
}

impl<W: Write + Drop> Screen<W> {
    /// Wraps a writer, which is a terminal or not.
    pub fn new(writer: W, is_terminal: bool) -> Screen<W>
        ensures writer { result.writer ≡ writer }
        ensures terminal { result.is_terminal ≡ is_terminal }
        ensures last { result.last ≡ 0 }
    {
        Screen {
            writer,
            is_terminal,
            last: 0,
        }
    }

    // Shows the first few of these bytes, and returns how many they were.
    fn show(&mut self, bytes: &[u8]) -> io::Result<usize>
        ensures bound { WritesAtMost result bytes.now }
        ensures shown { IfOk result (λ count. Appends (W.contents self.old.writer) (W.contents self.new.writer) (shown self.old.last (take count bytes.now))) }
        ensures last { IfOk result (λ count. self.new.last ≡ last_of self.old.last (take count bytes.now)) }
        ensures terminal { self.new.is_terminal ≡ self.old.is_terminal }
    {
        let Some(byte) = bytes.first() else {
            return self.writer.write(&[]);
        };
        let one = [shown_byte(self.last, *byte)];
        match self.writer.write(&one) {
            Ok(0) => Ok(0),
            Ok(count) => {
                self.last = *byte;
                Ok(count)
            }
            Err(error) => Err(error),
        }
    }
}

impl<W: Write + Drop> Write for Screen<W> {
    ghost contents = { λ s. if s.is_terminal then None else W.contents s.writer };

    fn write(&mut self, bytes: &[u8]) -> io::Result<usize> {
        if self.is_terminal {
            self.show(bytes)
        } else {
            self.writer.write(bytes)
        }
    }

    fn flush(&mut self) -> io::Result<()> {
        self.writer.flush()
    }
}
