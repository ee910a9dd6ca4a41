// Why bytes are no unit's file.

ghost use Rattle.std.specs.Prelude.{◌≡◌};
ghost use Rattle.cc_pack.specs.Fault.{fault_number};

use std::alloc::AllocError;
use thiserror::Error;

/// Why bytes are no unit's file.
#[derive(Clone, Copy, Debug, Drop, Error)]
pub enum PackFault {
    /// 37: no unit is written as these bytes.
    #[error("Damaged")]
    Damaged,
    /// 40: memory was refused.
    #[error("OutOfMemory")]
    OutOfMemory,
}

impl PackFault {
    /// The number of the fault: 37 or 40.
    pub fn number(self) -> u32
        ensures { result ≡ fault_number self }
    {
        match self {
            PackFault::Damaged => 37,
            PackFault::OutOfMemory => 40,
        }
    }
}

impl From<AllocError> for PackFault {
    ghost use Rattle.cc_pack.specs.declared.fault.PackFault.TheVariants.{OutOfMemory};

    ghost from_gives = { λ _ fault. fault ≡ OutOfMemory };

    fn from(_: AllocError) -> PackFault {
        PackFault::OutOfMemory
    }
}
