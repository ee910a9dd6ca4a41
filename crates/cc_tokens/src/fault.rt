// Why a text is refused.

ghost use Rattle.std.specs.Prelude.{◌≡◌};
ghost use Rattle.cc_tokens.specs.Fault.{fault_number, fault_place};

use super::place::Place;
use std::alloc::AllocError;
use thiserror::Error;

/// Why a text has no tokens or no syntax tree. Each fault except `SourceTooLarge` and `OutOfMemory` has a place.
#[derive(Debug, Drop, Error)]
pub enum SyntaxFault {
    /// 1: a byte that begins no token, or a line splice in a comment.
    #[error("BadByte")]
    BadByte(Place),
    /// 2: a comment that is never closed, at its first byte.
    #[error("UnclosedComment")]
    UnclosedComment(Place),
    /// 3: a number that is not a constant of the profile.
    #[error("BadConstant")]
    BadConstant(Place),
    /// 4: a constant that is too large: above 2147483647 if it is decimal and has no suffix, or above 4294967295.
    #[error("ConstantTooLarge")]
    ConstantTooLarge(Place),
    /// 5: a token that cannot follow the ones before it in any unit. The end of the text counts as a token.
    #[error("Unexpected")]
    Unexpected(Place),
    /// 6: the 513th token of a full expression, or a statement or declaration at level 65.
    #[error("TooDeep")]
    TooDeep(Place),
    /// 7: a text of more than 65,536 bytes.
    #[error("SourceTooLarge")]
    SourceTooLarge,
    /// 40: memory ran out.
    #[error("OutOfMemory")]
    OutOfMemory,
}

impl SyntaxFault {
    /// The number of the fault: 1 to 7, or 40.
    pub fn number(&self) -> u32
        ensures { result ≡ fault_number self.now }
    {
        match self {
            SyntaxFault::BadByte(_) => 1,
            SyntaxFault::UnclosedComment(_) => 2,
            SyntaxFault::BadConstant(_) => 3,
            SyntaxFault::ConstantTooLarge(_) => 4,
            SyntaxFault::Unexpected(_) => 5,
            SyntaxFault::TooDeep(_) => 6,
            SyntaxFault::SourceTooLarge => 7,
            SyntaxFault::OutOfMemory => 40,
        }
    }

    /// The place of the fault in the text: `Some` for faults 1 to 6.
    pub fn place(&self) -> Option<Place>
        ensures { result ≡ fault_place self.now }
    {
        match self {
            SyntaxFault::BadByte(place)
            | SyntaxFault::UnclosedComment(place)
            | SyntaxFault::BadConstant(place)
            | SyntaxFault::ConstantTooLarge(place)
            | SyntaxFault::Unexpected(place)
            | SyntaxFault::TooDeep(place) => Some(*place),
            SyntaxFault::SourceTooLarge | SyntaxFault::OutOfMemory => None,
        }
    }
}

impl From<AllocError> for SyntaxFault {
    ghost use Rattle.cc_tokens.specs.declared.fault.SyntaxFault.TheVariants.{OutOfMemory};

    ghost from_gives = { λ _ e. e ≡ OutOfMemory };

    fn from(_error: AllocError) -> Self {
        SyntaxFault::OutOfMemory
    }
}
