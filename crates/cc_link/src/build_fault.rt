// Why a text has no image.

ghost use Rattle.std.specs.Prelude.{◌≡◌};
ghost use Rattle.cc_link.specs.Compile.{build_fault_number, build_fault_place};

use crate::fault::LinkFault;
use crate::piece_fault::PieceFault;
use crate::text::TextFault;
use cc_syntax::Place;
use thiserror::Error;

/// Why a text has no image: the faults of the stages, in order.
#[derive(Debug, Drop, Error)]
pub enum BuildFault {
    /// 1 to 7, 11 to 21, 40: the text is not a program.
    #[error(transparent)]
    Text(TextFault),
    /// 22, 24, 40: a function has no piece.
    #[error(transparent)]
    Piece(PieceFault),
    /// 25, 40: the pieces make no image.
    #[error(transparent)]
    Link(LinkFault),
}

impl BuildFault {
    /// The fault's number: 1 to 7, 11 to 22, 24, 25 or 40.
    pub fn number(&self) -> u32
        ensures { result ≡ build_fault_number self.now }
    {
        match self {
            BuildFault::Text(fault) => fault.number(),
            BuildFault::Piece(fault) => fault.number(),
            BuildFault::Link(fault) => fault.number(),
        }
    }

    /// The place of the fault in the text, for 1 to 6 and 11 to 21.
    pub fn place(&self) -> Option<Place>
        ensures { result ≡ build_fault_place self.now }
    {
        match self {
            BuildFault::Text(fault) => fault.place(),
            BuildFault::Piece(_) | BuildFault::Link(_) => None,
        }
    }
}
