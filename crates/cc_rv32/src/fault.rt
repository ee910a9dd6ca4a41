// Why a call of this crate fails.

ghost use Rattle.std.specs.Prelude.{◌≡◌};

use thiserror::Error;

/// Why a call of this crate fails.
#[derive(Debug, Drop, Error)]
pub enum MachineFault {
    /// 40: there was no memory left for a list that had to grow.
    #[error("OutOfMemory")]
    OutOfMemory,
}

impl MachineFault {
    /// The fault's number, 40.
    pub fn number(&self) -> u32
        ensures { result ≡ 40 }
    {
        match self {
            MachineFault::OutOfMemory => 40,
        }
    }
}
