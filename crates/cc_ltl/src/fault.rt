// Why bytes do not spell a function.

ghost use Rattle.std.specs.Prelude.{◌≡◌};

use std::alloc::{AllocError, AllocFailed};
use thiserror::Error;

/// Why bytes do not spell a function of LTL.
#[derive(Clone, Copy, Debug, Error)]
pub enum LtlFault {
    /// 37: the bytes spell no function.
    #[error("Damaged")]
    Damaged,
    /// 40: memory ran out.
    #[error("OutOfMemory")]
    OutOfMemory,
}

impl LtlFault {
    ghost use Rattle.cc_ltl.specs.Fault.{fault_number};

    /// The fault's number: 37 or 40.
    pub fn number(&self) -> u32
        ensures { result ≡ fault_number self.now }
    {
        match self {
            LtlFault::Damaged => 37,
            LtlFault::OutOfMemory => 40,
        }
    }
}

impl From<AllocError> for LtlFault {
    ghost use Rattle.cc_ltl.specs.declared.fault.LtlFault.TheVariants.{OutOfMemory};

    ghost from_gives = { λ _ fault. fault ≡ OutOfMemory };

    fn from(_: AllocError) -> LtlFault {
        LtlFault::OutOfMemory
    }
}

impl<T: Drop> From<AllocFailed<T>> for LtlFault {
    ghost use Rattle.cc_ltl.specs.declared.fault.LtlFault.TheVariants.{OutOfMemory};

    ghost from_gives = { λ _ fault. fault ≡ OutOfMemory };

    fn from(_: AllocFailed<T>) -> LtlFault {
        LtlFault::OutOfMemory
    }
}
