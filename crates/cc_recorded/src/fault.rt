// Why a call is refused under the lock.

ghost use Rattle.std.specs.Prelude.{◌≡◌};
ghost use Rattle.cc_recorded.specs.Fault.{book_fault_number};

use cc_history::{Receipt, SharedEntry, StandingFault};
use std::alloc::AllocError;
use std::fmt::{self, Debug, Display, Formatter, Write};
use thiserror::Error;

/// Why a call is refused under the lock.
#[derive(Drop, Error)]
pub enum BookFault {
    /// 31: the name to be added has a unit. The call is in the history.
    #[error("Exists")]
    Exists(Receipt),
    /// 32: the name has no unit. The call is in the history.
    #[error("Absent")]
    Absent(Receipt),
    /// 34: the record does not fit in the area.
    #[error("Full")]
    Full,
    /// 35: the device failed in the call.
    #[error("DiskFault")]
    DiskFault,
    /// 36: an earlier call failed on the device.
    #[error("Closed")]
    Closed,
    /// 39: at the number of the client's last receipt the history has this entry, or none, instead of the entry in
    /// the receipt.
    #[error("Estranged")]
    Estranged {
        number: u64,
        found: Option<SharedEntry>,
    },
    /// 40: memory ran out.
    #[error("OutOfMemory")]
    OutOfMemory,
}

// Prints only the fault's name, since what is in a receipt is long.
impl Debug for BookFault {
    fn fmt<W: Write>(&self, f: &mut Formatter<W>) -> fmt::Result {
        Display::fmt(self, f)
    }
}

impl BookFault {
    /// The fault's number: 31, 32, 34 to 36, 39 or 40.
    pub fn number(&self) -> u32
        ensures { result ≡ book_fault_number self.now }
    {
        match self {
            BookFault::Exists(_) => 31,
            BookFault::Absent(_) => 32,
            BookFault::Full => 34,
            BookFault::DiskFault => 35,
            BookFault::Closed => 36,
            BookFault::Estranged { .. } => 39,
            BookFault::OutOfMemory => 40,
        }
    }
}

impl From<StandingFault> for BookFault {
    ghost use Rattle.std.specs.Prelude.{◌≡◌};
    ghost use Rattle.cc_recorded.specs.Fault.{fault_of};

    ghost from_gives = { λ standing fault. fault ≡ fault_of standing };

    fn from(fault: StandingFault) -> BookFault {
        match fault {
            StandingFault::Estranged { number, found } => BookFault::Estranged { number, found },
            StandingFault::OutOfMemory => BookFault::OutOfMemory,
        }
    }
}

impl From<AllocError> for BookFault {
    ghost use Rattle.std.specs.Prelude.{◌≡◌};
    ghost use Rattle.cc_recorded.specs.declared.fault.BookFault.TheVariants.{OutOfMemory};

    ghost from_gives = { λ _ fault. fault ≡ OutOfMemory };

    fn from(_: AllocError) -> BookFault {
        BookFault::OutOfMemory
    }
}
