// Why bytes are not a name, and why a library refuses.

ghost use Rattle.std.specs.Prelude.{◌≡◌};

use cc_journal::JournalFault;
use std::alloc::{AllocError, AllocFailed};
use thiserror::Error;

/// Why bytes are not a name.
#[derive(Clone, Copy, Debug, Error)]
pub enum NameFault {
    /// 33: the bytes break the rules for names.
    #[error("BadName")]
    BadName,
}

impl NameFault {
    ghost use Rattle.cc_library.specs.Fault.{name_fault_number};

    /// The fault's number: 33.
    pub fn number(&self) -> u32
        ensures { result ≡ name_fault_number self.now }
    {
        match self {
            NameFault::BadName => 33,
        }
    }
}

/// Why a call of a library was refused.
#[derive(Clone, Copy, Debug, Error)]
pub enum LibraryFault {
    /// 31: the name to be added has a unit.
    #[error("Exists")]
    Exists,
    /// 32: the name to be replaced or withdrawn has no unit.
    #[error("Absent")]
    Absent,
    /// 34: the record does not fit in the area.
    #[error("Full")]
    Full,
    /// 35: the device failed during the call.
    #[error("DiskFault")]
    DiskFault,
    /// 36: an earlier call failed on the device, so the disk has to be opened again.
    #[error("Closed")]
    Closed,
    /// 37: a record does not fit in its area, or the records are not a list of accepted commands.
    #[error("Damaged")]
    Damaged,
    /// 38: there is no valid header.
    #[error("NotALibrary")]
    NotALibrary,
    /// 40: memory ran out.
    #[error("OutOfMemory")]
    OutOfMemory,
}

impl LibraryFault {
    ghost use Rattle.cc_library.specs.Fault.{fault_number};

    /// The fault's number.
    pub fn number(&self) -> u32
        ensures { result ≡ fault_number self.now }
    {
        match self {
            LibraryFault::Exists => 31,
            LibraryFault::Absent => 32,
            LibraryFault::Full => 34,
            LibraryFault::DiskFault => 35,
            LibraryFault::Closed => 36,
            LibraryFault::Damaged => 37,
            LibraryFault::NotALibrary => 38,
            LibraryFault::OutOfMemory => 40,
        }
    }
}

impl From<JournalFault> for LibraryFault {
    ghost use Rattle.cc_library.specs.Fault.{fault_of};

    ghost from_gives = { λ journal fault. fault ≡ fault_of journal };

    fn from(fault: JournalFault) -> LibraryFault {
        match fault {
            JournalFault::Full => LibraryFault::Full,
            JournalFault::DiskFault => LibraryFault::DiskFault,
            JournalFault::Closed => LibraryFault::Closed,
            JournalFault::Damaged => LibraryFault::Damaged,
            JournalFault::NotALibrary => LibraryFault::NotALibrary,
            JournalFault::OutOfMemory => LibraryFault::OutOfMemory,
        }
    }
}

impl From<AllocError> for LibraryFault {
    ghost use Rattle.cc_library.specs.declared.fault.LibraryFault.TheVariants.{OutOfMemory};

    ghost from_gives = { λ _ fault. fault ≡ OutOfMemory };

    fn from(_: AllocError) -> LibraryFault {
        LibraryFault::OutOfMemory
    }
}

impl<T: Drop> From<AllocFailed<T>> for LibraryFault {
    ghost use Rattle.cc_library.specs.declared.fault.LibraryFault.TheVariants.{OutOfMemory};

    ghost from_gives = { λ _ fault. fault ≡ OutOfMemory };

    fn from(_: AllocFailed<T>) -> LibraryFault {
        LibraryFault::OutOfMemory
    }
}
