// The entries of a part, one by one.

use crate::refusal::Refusal;
use std::alloc::Global;
use std::fs::ReadDir;
use std::io;

/// The entries of a part, in no particular order.
#[derive(Drop)]
pub(crate) struct Entries {
    alloc: Global,
    entries: ReadDir,
}

/// What the next entry of a part is.
#[derive(Drop)]
pub(crate) enum Entry {
    Named(String),
    /// An entry whose name is not UTF-8.
    Odd,
    /// An entry that can't be read. There may be more after it.
    Refused(Refusal),
    /// No further entry.
    End,
}

fn refused(error: io::Error) -> Entry {
    if error.kind() == io::ErrorKind::InvalidFilename {
        Entry::Odd
    } else {
        Entry::Refused(Refusal::from(error))
    }
}

impl Entries {
    pub(crate) fn new(alloc: Global, entries: ReadDir) -> Entries {
        Entries { alloc, entries }
    }

    fn named(&self, name: &str) -> Entry {
        match String::from_str(self.alloc, name) {
            Ok(name) => Entry::Named(name),
            Err(_) => Entry::Refused(Refusal::NoMemory),
        }
    }

    /// The next entry.
    pub(crate) fn next(&mut self) -> Entry {
        match self.entries.next() {
            None => Entry::End,
            Some(Ok(entry)) => self.named(entry.file_name()),
            Some(Err(error)) => refused(error),
        }
    }
}
