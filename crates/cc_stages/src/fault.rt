// Why a unit's stages are not written, or not completely.

ghost use Rattle.std.specs.Prelude.{◌≡◌};
ghost use Rattle.cc_stages.specs.Fault.{fault_number};

use cc_link::{LinkFault, PieceFault};
use std::alloc::AllocError;
use std::io;
use thiserror::Error;

/// Why a unit's stages are not written, or not completely.
#[derive(Debug, Drop, Error)]
pub enum StagesFault {
    /// 59: the unit defines no function with that name.
    #[error("UnknownFunction")]
    UnknownFunction,
    /// 22, 24, 40: a function has no piece.
    #[error(transparent)]
    Piece(PieceFault),
    /// 25, 40: the pieces make no image.
    #[error(transparent)]
    Link(LinkFault),
    /// 40: memory ran out.
    #[error("OutOfMemory")]
    OutOfMemory,
    /// 54: the text could not be written.
    #[error("WriteFault")]
    Write,
}

impl StagesFault {
    /// The fault's number: 22, 24, 25, 40, 54 or 59; or 26 to 28 of a `LinkFault`, which `stages` does not answer.
    pub fn number(&self) -> u32
        ensures { result ≡ fault_number self.now }
    {
        match self {
            StagesFault::UnknownFunction => 59,
            StagesFault::Piece(fault) => fault.number(),
            StagesFault::Link(fault) => fault.number(),
            StagesFault::OutOfMemory => 40,
            StagesFault::Write => 54,
        }
    }
}

impl From<AllocError> for StagesFault {
    ghost use Rattle.cc_stages.specs.declared.fault.StagesFault.TheVariants.{OutOfMemory};

    ghost from_gives = { λ _ fault. fault ≡ OutOfMemory };

    fn from(_: AllocError) -> StagesFault {
        StagesFault::OutOfMemory
    }
}

impl From<io::Error> for StagesFault {
    ghost use Rattle.cc_stages.specs.declared.fault.StagesFault.TheVariants.{Write};

    ghost from_gives = { λ _ fault. fault ≡ Write };

    fn from(_: io::Error) -> StagesFault {
        StagesFault::Write
    }
}
