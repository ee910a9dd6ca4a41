// Streams that fail.

use std::io::{self, ErrorKind, Read, Write};

/// A reader that gives these bytes, and then fails.
#[derive(Drop)]
pub struct FailsBehind {
    pub bytes: &'static [u8],
}

impl Read for FailsBehind {
    fn read(&mut self, buf: &mut [u8]) -> io::Result<usize> {
        if self.bytes.is_empty() {
            return Err(io::Error::from(ErrorKind::BrokenPipe));
        }
        self.bytes.read(buf)
    }
}

/// A writer that refuses every write.
#[derive(Drop)]
pub struct Refuses;

impl Write for Refuses {
    fn write(&mut self, _buf: &[u8]) -> io::Result<usize> {
        Err(io::Error::from(ErrorKind::BrokenPipe))
    }

    fn flush(&mut self) -> io::Result<()> {
        Ok(())
    }
}
