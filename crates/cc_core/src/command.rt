// What clients ask for; the commands that go into the order, each with a number of its own; and the answers.

ghost use Rattle.std.specs.Prelude.{◌≡◌, IfOk};

use crate::fault::Refusal;
use crate::sequence::Sequence;
use crate::sequence_number::SequenceNumber;
use cc_library::{Change, LibraryCommand};
use std::alloc::AllocError;

/// What a client asks for: a change with a source, which may be any bytes.
pub type Request = Change<Sequence<u8>>;

/// A command and its sequence number: that of its Begin among all Begins that took a step. Two commands that ask for the same
/// thing have different numbers.
#[derive(Drop)]
pub struct Numbered {
    pub number: SequenceNumber,
    pub command: LibraryCommand,
}

impl Numbered {
    /// A copy of the command with the same number.
    pub(crate) fn again(&self) -> Result<Numbered, AllocError>
        ensures { IfOk result (λ numbered. numbered ≡ self.now) }
    {
        Ok(Numbered {
            number: self.number.same(),
            command: self.command.again()?,
        })
    }
}

/// The answer to a client: that its command is done, or why it is refused.
#[derive(Drop)]
pub enum Reply {
    Done,
    Refused(Refusal),
}
