// Why a program is not run.

ghost use Rattle.std.specs.Prelude.{◌≡◌};
ghost use Rattle.cc_meaning.specs.Fault.{fault_number};

use std::alloc::AllocError;
use thiserror::Error;

/// Why a run stops before its end or its last step.
#[derive(Debug, Drop, Error)]
pub enum MeaningFault {
    /// 40: memory ran out.
    #[error("OutOfMemory")]
    OutOfMemory,
}

impl MeaningFault {
    /// The number of the fault: 40.
    pub fn number(&self) -> u32
        ensures { result ≡ fault_number self.now }
    {
        match self {
            MeaningFault::OutOfMemory => 40,
        }
    }
}

impl From<AllocError> for MeaningFault {
    ghost use Rattle.cc_meaning.specs.declared.fault.MeaningFault.TheVariants.{OutOfMemory};

    ghost from_gives = { λ _ e. e ≡ OutOfMemory };

    fn from(_error: AllocError) -> Self {
        MeaningFault::OutOfMemory
    }
}
