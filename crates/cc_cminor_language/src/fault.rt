// Why a pass makes no code for a function.

ghost use Rattle.std.specs.Prelude.{◌≡◌};
ghost use Rattle.cc_cminor_language.specs.Fault.{fault_number};

use std::alloc::AllocError;
use thiserror::Error;

/// Why a pass makes no code for a function.
#[derive(Debug, Drop, Error)]
pub enum CodeFault {
    /// 22: the code would be too large: it would have more nodes or set more variables than code may have.
    #[error("FunctionTooLarge")]
    FunctionTooLarge,
    /// 40: memory ran out.
    #[error("OutOfMemory")]
    OutOfMemory,
}

impl CodeFault {
    /// The number of the fault: 22 or 40.
    pub fn number(&self) -> u32
        ensures { result ≡ fault_number self.now }
    {
        match self {
            CodeFault::FunctionTooLarge => 22,
            CodeFault::OutOfMemory => 40,
        }
    }
}

impl From<AllocError> for CodeFault {
    ghost use Rattle.cc_cminor_language.specs.declared.fault.CodeFault.TheVariants.{OutOfMemory};

    ghost from_gives = { λ _ e. e ≡ OutOfMemory };

    fn from(_error: AllocError) -> Self {
        CodeFault::OutOfMemory
    }
}
