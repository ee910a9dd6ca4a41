// Why the parser stops at a token.

use std::alloc::{AllocError, AllocFailed};

/// Why the parser stops at a token.
#[derive(Drop)]
pub enum Stop {
    /// Memory ran out.
    Memory,
    /// No unit continues with the token.
    Unexpected,
    /// The token exceeds a limit.
    TooDeep,
}

/// Why tokens spell no unit.
#[derive(Drop)]
pub enum Refusal {
    /// Memory ran out.
    Memory,
    /// No unit continues with the token with this number. The end of the text counts as a last token.
    Unexpected(usize),
    /// The token with this number exceeds a limit.
    TooDeep(usize),
}

impl From<AllocError> for Stop {
    ghost use Rattle.std.specs.Prelude.{◌≡◌};
    ghost use Rattle.cc_syntax.specs.declared.parser.stop.Stop.TheVariants.{Memory};

    ghost from_gives = { λ _ e. e ≡ Memory };

    fn from(_error: AllocError) -> Self {
        Stop::Memory
    }
}

impl<T: Drop> From<AllocFailed<T>> for Stop {
    ghost use Rattle.std.specs.Prelude.{◌≡◌};
    ghost use Rattle.cc_syntax.specs.declared.parser.stop.Stop.TheVariants.{Memory};

    ghost from_gives = { λ _ e. e ≡ Memory };

    fn from(_error: AllocFailed<T>) -> Self {
        Stop::Memory
    }
}
