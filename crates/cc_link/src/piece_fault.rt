// Why a function has no piece.

ghost use Rattle.std.specs.Prelude.{◌≡◌};
ghost use Rattle.cc_link.specs.Compile.{piece_fault_number};

use thiserror::Error;

/// Why a function has no piece. The function's name begins in the text at the offset `at` and has `length` bytes.
#[derive(Clone, Copy, Debug, Error)]
pub enum PieceFault {
    /// 22: the function would have more than 4,096 nodes of RTL, or guards that set more than 2,048 variables.
    /// This takes more than 256 tokens, or 177 in a checked piece.
    #[error("FunctionTooLarge")]
    FunctionTooLarge {
        at: usize,
        length: usize,
    },
    /// 24: the validator could not show that the allocated code does what the function does; its check failed at
    /// this label.
    #[error("Unvalidated")]
    Unvalidated {
        at: usize,
        length: usize,
        label: u32,
    },
    /// 40: memory ran out.
    #[error("OutOfMemory")]
    OutOfMemory,
}

impl PieceFault {
    /// The fault's number: 22, 24 or 40.
    pub fn number(&self) -> u32
        ensures { result ≡ piece_fault_number self.now }
    {
        match self {
            PieceFault::FunctionTooLarge { .. } => 22,
            PieceFault::Unvalidated { .. } => 24,
            PieceFault::OutOfMemory => 40,
        }
    }
}
