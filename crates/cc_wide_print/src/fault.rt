// Why a text is not printed.

use cc_tokens::Place;
use std::alloc::AllocError;
use thiserror::Error;

/// Why a text of wide C is not printed. Places are those of the wide text.
#[derive(Debug, Drop, Error)]
pub enum PrintFault {
    /// 5: a label in a wrong place, a statement of a `switch` before its first label, a label before no statement or before a
    /// declaration, or a `switch` without a block.
    #[error("Unexpected")]
    Unexpected(Place),
    /// 12: a second label with the same value, or a second `default`.
    #[error("Redeclared")]
    Redeclared(Place),
    /// 13: a label whose value is not constant, or -2147483648.
    #[error("WrongKind")]
    WrongKind(Place),
    /// 18: a `continue` that is in a `switch` and in no loop.
    #[error("BadBreak")]
    BadBreak(Place),
    /// 7: the printed text would have more than 65,536 bytes.
    #[error("SourceTooLarge")]
    SourceTooLarge,
    /// 40: memory ran out.
    #[error("OutOfMemory")]
    OutOfMemory,
}

impl PrintFault {
    /// The number of the fault.
    pub fn number(&self) -> u32 {
        match self {
            PrintFault::Unexpected(_) => 5,
            PrintFault::Redeclared(_) => 12,
            PrintFault::WrongKind(_) => 13,
            PrintFault::BadBreak(_) => 18,
            PrintFault::SourceTooLarge => 7,
            PrintFault::OutOfMemory => 40,
        }
    }

    /// The place in the wide text, if the fault has one.
    pub fn place(&self) -> Option<Place> {
        match self {
            PrintFault::Unexpected(place)
            | PrintFault::Redeclared(place)
            | PrintFault::WrongKind(place)
            | PrintFault::BadBreak(place) => Some(*place),
            PrintFault::SourceTooLarge | PrintFault::OutOfMemory => None,
        }
    }
}

impl From<AllocError> for PrintFault {
    fn from(_error: AllocError) -> Self {
        PrintFault::OutOfMemory
    }
}
