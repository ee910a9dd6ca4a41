// Why a call in a folder was refused.
//
// An `io::Error` carries a text, and each function that passes one on is proved to move that text. In this crate a refusal is
// an error number of the system, or one of the spool's own reasons. It becomes an `io::Error` with a text when it leaves the
// crate.

use std::alloc::AllocError;
use std::io;

/// The system's error number when nothing is at a path.
const NOT_FOUND: i32 = 2;

/// Why a call in a folder was refused.
#[derive(Clone, Copy, Drop)]
pub(crate) enum Refusal {
    /// The system refused the call, with this number.
    System(i32),
    /// Memory ran out.
    NoMemory,
    /// The call did less than it was asked to.
    CutShort,
    /// `lock` is not a regular file.
    NoLock,
    /// `lock` is not the file that the server holds.
    NotHeld,
    /// The folder has no `cur`.
    NoFolder,
    /// The folder has parts, but no `lock`.
    NoSpool,
    /// The folder is another user's.
    Foreign,
    /// Everybody may write to the folder.
    Wide,
    /// The folder or a part of it is not the server's.
    NotOwn,
}

impl Refusal {
    /// Whether nothing is at the path.
    pub(crate) fn is_absent(self) -> bool {
        match self {
            Refusal::System(number) => number == NOT_FOUND,
            _ => false,
        }
    }
}

/// What a call of the system answered, with a refusal in place of its error.
pub(crate) fn known<T: Drop>(res: io::Result<T>) -> Result<T, Refusal> {
    match res {
        Ok(value) => Ok(value),
        Err(error) => Err(Refusal::from(error)),
    }
}

impl From<AllocError> for Refusal {
    fn from(_error: AllocError) -> Refusal {
        Refusal::NoMemory
    }
}

impl From<io::Error> for Refusal {
    fn from(error: io::Error) -> Refusal {
        match error.raw_os_error() {
            Some(number) => Refusal::System(number),
            None if error.kind() == io::ErrorKind::OutOfMemory => Refusal::NoMemory,
            None => Refusal::CutShort,
        }
    }
}

impl From<Refusal> for io::Error {
    fn from(refusal: Refusal) -> io::Error {
        let (kind, words) = match refusal {
            Refusal::System(number) => return io::Error::from_raw_os_error(number),
            Refusal::NoMemory => return io::Error::from(AllocError),
            Refusal::CutShort => (
                io::ErrorKind::UnexpectedEof,
                "a call did less than it was asked for",
            ),
            Refusal::NoLock => (io::ErrorKind::InvalidInput, "`lock` is no regular file"),
            Refusal::NotHeld => (
                io::ErrorKind::NotFound,
                "`lock` is not the file that the server holds",
            ),
            Refusal::NoFolder => (io::ErrorKind::NotFound, "the folder has no `cur`"),
            Refusal::NoSpool => (
                io::ErrorKind::AlreadyExists,
                "it has `cur`, `tmp`, `new` or `done` but no `lock`, so it is no spool",
            ),
            Refusal::Foreign => (
                io::ErrorKind::PermissionDenied,
                "it, or a link that is its name, belongs to another user than the server, who could put anything in its place",
            ),
            Refusal::Wide => (
                io::ErrorKind::PermissionDenied,
                "everybody may write to it, and could have the server write elsewhere: `chmod o-w` takes that away",
            ),
            Refusal::NotOwn => (
                io::ErrorKind::PermissionDenied,
                "a part is no directory, or belongs to another user or group than the server",
            ),
        };
        io::Error::new(kind, words)
    }
}
