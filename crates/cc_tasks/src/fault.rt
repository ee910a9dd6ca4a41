// Every refusal of the program, with its line.

ghost use Rattle.std.specs.Prelude.{◌≡◌, List, ℕ, OnOk};
ghost use Rattle.std.specs.Io.KnownBytes.{Appends};
ghost use Rattle.cc_answers.specs.Text.{position_text};
ghost use Rattle.cc_tasks.specs.Fault.{fault_number, fault_place};
ghost use Rattle.cc_tasks.specs.Written.{fault_text, where_text};

use cc_answers::{Stands, write_fault_line};
use cc_link::{LinkFault, PieceFault, TextFault};
use cc_meaning::MeaningFault;
use cc_tokens::Place;
use std::alloc::AllocError;
use std::io::{self, Write};
use thiserror::Error;

/// Why a task was not done.
#[derive(Debug, Drop, Error)]
pub enum Fault {
    /// 1 to 7, 11 to 21, 40: the text is not a program.
    #[error(transparent)]
    Text(TextFault),
    /// 40: memory was refused as the program ran.
    #[error(transparent)]
    Meaning(MeaningFault),
    /// 22, 24, 40: a function of the text has no piece.
    #[error(transparent)]
    Piece(PieceFault),
    /// 25, 40: the pieces make no image.
    #[error(transparent)]
    Link(LinkFault),
    /// 59: the program defines no function with the requested name.
    #[error("UnknownFunction")]
    UnknownFunction,
    /// 40: memory was refused as the text was read, or as an image ran.
    #[error("OutOfMemory")]
    OutOfMemory,
    /// 53: the text could not be read.
    #[error("ReadFault")]
    Read,
    /// 54: an answer could not be written.
    #[error("WriteFault")]
    Write,
}

impl From<AllocError> for Fault {
    ghost use Rattle.cc_tasks.specs.declared.fault.Fault.TheVariants.{OutOfMemory};

    ghost from_gives = { λ _ fault. fault ≡ OutOfMemory };

    fn from(_error: AllocError) -> Self {
        Fault::OutOfMemory
    }
}

impl Fault {
    /// The number of the fault: 1 to 7, 11 to 22, 24, 25, 40, 53, 54 or 59; or 26 to 28 of a `LinkFault`,
    /// which no task has.
    pub fn number(&self) -> u32
        ensures { result ≡ fault_number self.now }
    {
        match self {
            Fault::Text(fault) => fault.number(),
            Fault::Meaning(fault) => fault.number(),
            Fault::Piece(fault) => fault.number(),
            Fault::Link(fault) => fault.number(),
            Fault::UnknownFunction => 59,
            Fault::OutOfMemory => 40,
            Fault::Read => 53,
            Fault::Write => 54,
        }
    }

    /// The fault's place in the text, if it has one.
    pub fn place(&self) -> Option<Place>
        ensures { result ≡ fault_place self.now }
    {
        match self {
            Fault::Text(fault) => fault.place(),
            Fault::Meaning(_)
            | Fault::Piece(_)
            | Fault::Link(_)
            | Fault::UnknownFunction
            | Fault::OutOfMemory
            | Fault::Read
            | Fault::Write => None,
        }
    }

    /// The fault's position in the text, as `write_fault_line` and `of_fault` of `cc_answers` need it.
    pub(crate) fn stands(&self) -> Stands<'_>
        ensures { (text : List ℕ) → position_text text result ≡ where_text text self.now }
    {
        match self {
            Fault::Text(fault) => Stands::Text(fault),
            Fault::Piece(fault) => Stands::Function(*fault),
            Fault::Link(_)
            | Fault::Meaning(_)
            | Fault::UnknownFunction
            | Fault::OutOfMemory
            | Fault::Read
            | Fault::Write => Stands::Nowhere,
        }
    }

    /// Writes the fault's line for the text that has it, as `write_fault_line` does.
    pub fn write_line<W: Write>(&self, text: &[u8], writer: &mut W) -> io::Result<()>
        ensures { OnOk result (Appends (W.contents writer.old) (W.contents writer.new) (fault_text text.now self.now)) }
    {
        write_fault_line(self.number(), self.stands(), text, writer)
    }
}
