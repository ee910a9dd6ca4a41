// The unit that a command of a library stored.

ghost use Rattle.std.specs.Prelude.{◌≡◌, IsTrue, IfOk, IfErr, OnOk};
ghost use Rattle.cc_disk.specs.Images.{OnlyReads};
ghost use Rattle.cc_past.specs.Past.{IsNotStoredOn, IsStored, IsStoredBySome, IsStoredOn};
ghost use Rattle.cc_past.specs.internal.Steps.{IsNotStored};

use cc_disk::Disk;
use cc_library::{LibraryCommand, Name, SharedUnit};
use cc_log::{commands_on, stored_at};
use cc_tasks::PartFault;
use std::alloc::Global;

/// A unit that was stored, and its name.
#[derive(Drop)]
pub(crate) struct Stored {
    pub(crate) name: Name,
    pub(crate) unit: SharedUnit,
}

// The unit that the command with this number stored under this name.
fn stored_among(
    commands: &[LibraryCommand],
    name: &[u8],
    number: usize,
) -> Result<Stored, PartFault>
    ensures stored { IfOk result (λ stored. IsStored commands.now name.now number stored.unit) }
    ensures name { IfOk result (λ stored. stored.name ≡ name.now) }
    ensures refused { IfErr result (λ fault. IsNotStored commands.now name.now number fault) }
{
    let Ok(name) = Name::new(name) else {
        return Err(PartFault::BadName);
    };
    let Some(unit) = stored_at(commands, &name, number) else {
        return Err(PartFault::Absent);
    };
    match unit.again() {
        Ok(unit) => Ok(Stored { name, unit }),
        Err(_) => Err(PartFault::OutOfMemory),
    }
}

/// The unit that the command with this number stored under this name, in the library on a disk. The disk is handed back, and nothing
/// is written to it.
///
/// Refusals: first those of `Library::open`, 35, 38, 37 and 40; then 33 if the bytes are not a name, 32 if the command stored nothing
/// under that name.
pub(crate) fn stored_on<D: Disk + Drop>(
    alloc: Global,
    disk: D,
    name: &[u8],
    number: usize,
) -> (Result<Stored, PartFault>, D)
    ensures stored { IfOk result.0 (λ stored. IsTrue D.honest → IsStoredOn (D.seen disk) name.now number stored.unit) }
    ensures some { IfOk result.0 (λ stored. IsStoredBySome name.now number stored.unit) }
    ensures name { IfOk result.0 (λ stored. stored.name ≡ name.now) }
    ensures refused { IfErr result.0 (λ fault. IsNotStoredOn D.honest (D.seen disk) (D.failures disk) (D.failures result.1) name.now number fault) }
    ensures sound { OnOk result.0 (D.failures result.1 ≡ D.failures disk) }
    ensures reads { IsTrue D.honest → OnlyReads D.seen D.may_leave D.moment D.left_since disk result.1 }
{
    let (commands, disk) = commands_on(alloc, disk);
    match commands {
        Ok(commands) => {
            let found = stored_among(commands.as_slice(), name, number);
            drop(commands);
            (found, disk)
        }
        Err(fault) => (Err(PartFault::Library(fault)), disk),
    }
}
