// Why a journal refuses.

ghost use Rattle.std.specs.Prelude.{◌≡◌};
ghost use Rattle.cc_journal.specs.declared.fault.JournalFault.TheVariants.{DiskFault as Failed, OutOfMemory as NoMemory};

use cc_disk::DiskFault;
use std::alloc::{AllocError, AllocFailed};
use thiserror::Error;

/// Why a call of a journal was refused.
#[derive(Clone, Copy, Debug, PartialEq, Eq, Error)]
pub enum JournalFault {
    /// 34: the area is outside its limits or does not fit on the disk, or the record does not fit in its area.
    #[error("Full")]
    Full,
    /// 35: the device failed during the call.
    #[error("DiskFault")]
    DiskFault,
    /// 36: an earlier call failed on the device, so the disk has to be opened again.
    #[error("Closed")]
    Closed,
    /// 37: an open record does not fit in its area.
    #[error("Damaged")]
    Damaged,
    /// 38: there is no valid header.
    #[error("NotALibrary")]
    NotALibrary,
    /// 40: memory ran out.
    #[error("OutOfMemory")]
    OutOfMemory,
}

impl JournalFault {
    ghost use Rattle.cc_journal.specs.Fault.{fault_number};

    /// The fault's number.
    pub fn number(&self) -> u32
        ensures { result ≡ fault_number self.now }
    {
        match self {
            JournalFault::Full => 34,
            JournalFault::DiskFault => 35,
            JournalFault::Closed => 36,
            JournalFault::Damaged => 37,
            JournalFault::NotALibrary => 38,
            JournalFault::OutOfMemory => 40,
        }
    }
}

impl From<DiskFault> for JournalFault {
    ghost from_gives = { λ _ fault. fault ≡ Failed };

    fn from(_: DiskFault) -> JournalFault {
        JournalFault::DiskFault
    }
}

impl From<AllocError> for JournalFault {
    ghost from_gives = { λ _ fault. fault ≡ NoMemory };

    fn from(_: AllocError) -> JournalFault {
        JournalFault::OutOfMemory
    }
}

impl<T: Drop> From<AllocFailed<T>> for JournalFault {
    ghost from_gives = { λ _ fault. fault ≡ NoMemory };

    fn from(_: AllocFailed<T>) -> JournalFault {
        JournalFault::OutOfMemory
    }
}
