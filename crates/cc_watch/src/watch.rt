// A writer that knows whether a fault line was written to it.

ghost use Rattle.std.specs.Prelude.{◌≡◌, ◌≤◌, false};

use std::io::{self, Write};

/// How a fault line begins.
const BEGIN: &[u8] = b"fault ";

/// A writer that knows whether a line that begins with `fault ` was written to it.
#[derive(Drop)]
pub struct FaultWatch<W: Drop> {
    writer: W,
    // How many bytes of the line so far match the beginning of a fault line; 7, which is more than that beginning has, if
    // another byte came.
    matched: usize,
    has_fault: bool,
    ghost few: { matched ≤ 7 },
}

impl<W: Write + Drop> FaultWatch<W> {
    /// Wraps a writer.
    pub fn new(writer: W) -> FaultWatch<W>
        ensures writer { result.writer ≡ writer }
        ensures none { result.has_fault ≡ false }
    {
        FaultWatch {
            writer,
            matched: 0,
            has_fault: false,
        }
    }

    /// Whether a fault line was written.
    pub fn has_fault(&self) -> bool {
        self.has_fault
    }

    // Looks at a byte that was written.
    fn look(&mut self, byte: u8)
        ensures { self.new.writer ≡ self.old.writer }
    {
        if byte == b'\n' {
            self.matched = 0;
            return;
        }
        match BEGIN.get(self.matched) {
            Some(wanted) if *wanted == byte => self.matched += 1,
            _ => self.matched = 7,
        }
        if self.matched == 6 {
            self.has_fault = true;
        }
    }

    // Looks at the first `count` of these bytes.
    fn look_at(&mut self, bytes: &[u8], count: usize)
        ensures { self.new.writer ≡ self.old.writer }
    {
        for byte in bytes.iter().take(count) {
            self.look(*byte);
        }
    }
}

impl<W: Write + Drop> Write for FaultWatch<W> {
    ghost contents = { λ s. W.contents s.writer };

    fn write(&mut self, bytes: &[u8]) -> io::Result<usize> {
        match self.writer.write(bytes) {
            Ok(count) => {
                self.look_at(bytes, count);
                Ok(count)
            }
            Err(error) => Err(error),
        }
    }

    fn flush(&mut self) -> io::Result<()> {
        self.writer.flush()
    }
}
