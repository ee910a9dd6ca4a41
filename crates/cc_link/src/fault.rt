// Why there is no unit, and why a function has no piece.

ghost use Rattle.std.specs.Prelude.{◌≡◌};
ghost use Rattle.cc_link.specs.Fault.{link_fault_number};

use thiserror::Error;

/// Why pieces make no unit. A place in the list of pieces counts from 0.
#[derive(Clone, Copy, Debug, Error)]
pub enum LinkFault {
    /// 25: the image would have more than 131,072 words of code.
    #[error("ImageTooLarge")]
    ImageTooLarge,
    /// 26: the function has no piece.
    #[error("Missing")]
    Missing { function: usize },
    /// 27: an earlier piece is of the same function as the piece at this place.
    #[error("Doubled")]
    Doubled { function: usize, at: usize },
    /// 28: the piece at this place is in another mode, or of a unit with another text.
    #[error("Stranger")]
    Stranger { function: usize, at: usize },
    /// 40: memory ran out.
    #[error("OutOfMemory")]
    OutOfMemory,
}

impl LinkFault {
    /// The fault's number: 25 to 28, or 40.
    pub fn number(&self) -> u32
        ensures { result ≡ link_fault_number self.now }
    {
        match self {
            LinkFault::ImageTooLarge => 25,
            LinkFault::Missing { .. } => 26,
            LinkFault::Doubled { .. } => 27,
            LinkFault::Stranger { .. } => 28,
            LinkFault::OutOfMemory => 40,
        }
    }
}
