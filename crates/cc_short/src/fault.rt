// Why there is no script of a short command.

ghost use Rattle.std.specs.Prelude.{◌≡◌};
ghost use Rattle.cc_short.specs.Fault.{fault_number};

use std::alloc::AllocError;
use thiserror::Error;

/// Why there is no script of a short command.
#[derive(Clone, Copy, Debug, Drop, Error)]
pub enum ShortFault {
    /// 7: the source has more than 65,536 bytes.
    #[error("SourceTooLarge")]
    SourceTooLarge,
    /// 33: no unit can have the name.
    #[error("BadName")]
    BadName,
    /// 40: memory was refused.
    #[error("OutOfMemory")]
    OutOfMemory,
}

impl ShortFault {
    /// The number of the fault: 7, 33 or 40.
    pub fn number(self) -> u32
        ensures { result ≡ fault_number self }
    {
        match self {
            ShortFault::SourceTooLarge => 7,
            ShortFault::BadName => 33,
            ShortFault::OutOfMemory => 40,
        }
    }
}

impl From<AllocError> for ShortFault {
    ghost use Rattle.cc_short.specs.declared.fault.ShortFault.TheVariants.{OutOfMemory};

    ghost from_gives = { λ _ fault. fault ≡ OutOfMemory };

    fn from(_: AllocError) -> ShortFault {
        ShortFault::OutOfMemory
    }
}
