// What a look at a file found: the facts that the spool asks for, among all that the system reports.

use crate::refusal::Refusal;
use std::fs::{File, Metadata};
use std::os::unix::fs::MetadataExt;

/// The bits of a mode that say what kind of file it is, and two of these kinds.
const KIND: u32 = 0o170000;

const REGULAR: u32 = 0o100000;

const DIRECTORY: u32 = 0o040000;

/// What a look at a file found.
#[derive(Clone, Copy, Drop)]
pub(crate) struct Found {
    // The device that it is on, and its number there.
    device: u64,
    number: u64,
    /// Its kind, and its rights.
    mode: u32,
    /// How many names it has.
    pub(crate) links: u64,
    pub(crate) user: u32,
    pub(crate) group: u32,
    pub(crate) bytes: u64,
    /// When it was last written: the seconds since 1970, and the nanoseconds after these.
    pub(crate) seconds: i64,
    pub(crate) nanoseconds: i64,
}

impl Found {
    /// The facts that the spool asks for, among all that the system reports.
    pub(crate) fn of(told: &Metadata) -> Found {
        Found {
            device: told.dev(),
            number: told.ino(),
            mode: told.mode(),
            links: told.nlink(),
            user: told.uid(),
            group: told.gid(),
            bytes: told.size(),
            seconds: told.mtime(),
            nanoseconds: told.mtime_nsec(),
        }
    }

    /// What a look at an open file finds.
    pub(crate) fn of_file(file: &File) -> Result<Found, Refusal> {
        let told = file.metadata()?;
        Ok(Found::of(&told))
    }

    /// Its rights, 0 to 0o7777.
    pub(crate) fn rights(&self) -> u32 {
        self.mode & 0o7777
    }

    /// Whether it is a regular file.
    pub(crate) fn is_file(&self) -> bool {
        self.mode & KIND == REGULAR
    }

    /// Whether it is a directory.
    pub(crate) fn is_directory(&self) -> bool {
        self.mode & KIND == DIRECTORY
    }

    /// Whether it was last written before another one.
    pub(crate) fn is_older(&self, other: &Found) -> bool {
        (self.seconds, self.nanoseconds) < (other.seconds, other.nanoseconds)
    }

    /// Whether two looks found the same file.
    pub(crate) fn is_same(&self, other: &Found) -> bool {
        self.device == other.device && self.number == other.number
    }

    /// Whether a look found this file, or, on a system that numbers files by their paths, one with the same user, size and time.
    pub(crate) fn is_alike(&self, other: &Found) -> bool {
        let is_of_its_time = self.seconds == other.seconds && self.nanoseconds == other.nanoseconds;
        self.is_same(other)
            || (self.user == other.user && self.bytes == other.bytes && is_of_its_time)
    }
}
