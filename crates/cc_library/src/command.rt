// What changes a library.

ghost use Rattle.std.specs.Prelude.{◌≡◌, IfOk};
ghost use Rattle.cc_library.specs.Body.{kind_number};

use crate::name::Name;
use crate::unit::SharedUnit;
use std::alloc::AllocError;

/// The three kinds of command.
#[derive(Clone, Copy)]
pub enum Kind {
    Add = 1,
    Replace = 2,
    Withdraw = 3,
}

impl Kind {
    /// The byte of the kind in the body of a record: 1 Add, 2 Replace, 3 Withdraw.
    pub fn number(&self) -> u8
        ensures { result ≡ kind_number self.now }
    {
        *self as u8
    }
}

/// A change of a library: Add sets the unit of an absent name, Replace sets that of a present name, and Withdraw removes a
/// present name. What a change carries as `U` depends on who makes the change: the unit itself, a compiled unit, or the unit's
/// source.
#[derive(Drop)]
pub enum Change<U> {
    Add(Name, U),
    Replace(Name, U),
    Withdraw(Name),
}

/// A change that carries the unit itself.
pub type LibraryCommand = Change<SharedUnit>;

/// A step of `Library::run`: a change of the map, or `Library::compact`.
#[derive(Drop)]
pub enum Edit {
    Change(LibraryCommand),
    Compact,
}

impl LibraryCommand {
    /// A copy of the command; the unit is shared. Err: memory ran out, or the unit already has as many owners as it can have.
    pub fn again(&self) -> Result<LibraryCommand, AllocError>
        ensures { IfOk result (λ command. command ≡ self.now) }
    {
        match self {
            LibraryCommand::Add(name, unit) => Ok(LibraryCommand::Add(
                name.clone()?,
                unit.again()?,
            )),
            LibraryCommand::Replace(name, unit) => Ok(LibraryCommand::Replace(
                name.clone()?,
                unit.again()?,
            )),
            LibraryCommand::Withdraw(name) => Ok(LibraryCommand::Withdraw(name.clone()?)),
        }
    }
}
