// Explanations for a person on standard error, if they are wanted.

use std::io::{self, Write};

/// Whether a person types the input, whether a person sees standard error, and whether explanations are left out.
#[derive(Clone, Copy, Drop)]
pub struct Persons {
    /// Whether standard input comes from a person.
    pub is_typed: bool,
    /// Whether a person sees standard error.
    pub is_watched: bool,
    /// Whether explanations are left out.
    pub is_quiet: bool,
}

/// Standard error, or nothing if explanations are left out.
#[derive(Drop)]
pub struct Telling<E: Drop> {
    pub errors: E,
    pub is_quiet: bool,
}

impl<E: Write + Drop> Write for Telling<E> {
    fn write(&mut self, bytes: &[u8]) -> io::Result<usize> {
        if self.is_quiet {
            Ok(bytes.len())
        } else {
            self.errors.write(bytes)
        }
    }

    fn flush(&mut self) -> io::Result<()> {
        if self.is_quiet {
            Ok(())
        } else {
            self.errors.flush()
        }
    }
}
