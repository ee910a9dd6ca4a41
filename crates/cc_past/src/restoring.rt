// Puts back what a command of a library stored.

ghost use Rattle.std.specs.Prelude.{◌≡◌, ◌≢◌, ◌++◌, [], ◌∷◌, ℕ, List, IsTrue, IfErr, OnOk};
ghost use Rattle.std.specs.FinMap as map;
ghost use Rattle.cc_disk.specs.Images.{LeavesOnly, OnlyReads};
ghost use Rattle.cc_unit.specs.declared.unit.StoredUnit.{StoredUnit};
ghost use Rattle.cc_library.specs.Change.{LibraryCommand};
ghost use Rattle.cc_library.specs.Apply.{Units, library_of};
ghost use Rattle.cc_journal.specs.Format.{HoldsAlone};
ghost use Rattle.cc_library.specs.Body.{IsCommand, body_of};
ghost use Rattle.cc_library.specs.Recovered.{Recovers, RecoversAlone, RecoversOneOf};
ghost use Rattle.cc_log.specs.Commands.{HasCommands};
ghost use Rattle.cc_past.specs.Restored.{HasNoRoom, IsNotPut, IsNotRestored, IsRestoredBy, MayBeRestored, putting};
ghost use Rattle.cc_past.specs.internal.Steps.{MayBe};

use crate::stored::{Stored, stored_on};
use cc_disk::Disk;
use cc_library::{Library, LibraryCommand, LibraryFault};
use cc_tasks::PartFault;
use std::alloc::Global;

// Puts a unit under its name into the library on a disk, whether or not the name has a unit.
fn put<D: Disk + Drop>(alloc: Global, disk: D, stored: Stored) -> (Result<(), LibraryFault>, D)
    ensures put { OnOk result.0 (IsTrue D.honest → (units : Units) → Recovers (D.seen disk) units
        → (image : List ℕ) → D.may_leave result.1 image → RecoversAlone image (map.insert units stored.name stored.unit)) }
    // There is one more record, after those of the disk's commands.
    ensures logged { OnOk result.0 (IsTrue D.honest → (commands : List LibraryCommand) → HasCommands (D.seen disk) commands
        → IsCommand (putting (library_of commands) stored.name stored.unit) → (image : List ℕ) → D.may_leave result.1 image
        → HasCommands image (commands ++ putting (library_of commands) stored.name stored.unit ∷ [])) }
    // Exactly that record is added, and the areas keep their size.
    ensures alone { OnOk result.0 (IsTrue D.honest → (commands : List LibraryCommand) (has : HasCommands (D.seen disk) commands)
        → (image : List ℕ) → D.may_leave result.1 image
        → HoldsAlone image has.area (has.bodies ++ body_of (putting (library_of commands) stored.name stored.unit) ∷ [])) }
    ensures refused { IfErr result.0 (λ fault. IsNotPut D.honest (D.seen disk) (D.failures disk) (D.failures result.1)
        (HasNoRoom (D.seen disk) stored.name stored.unit) fault) }
    ensures untouched { IfErr result.0 (λ fault. fault ≢ LibraryFault.DiskFault → IsTrue D.honest
        → OnlyReads D.seen D.may_leave D.moment D.left_since disk result.1) }
    ensures moments { IsTrue D.honest → (units : Units) → Recovers (D.seen disk) units
        → LeavesOnly D.moment D.left_since disk result.1 (MayBe (D.may_leave disk) units (map.insert units stored.name stored.unit)) }
{
    match Library::open(alloc, disk) {
        Ok(mut library) => {
            let Stored { name, unit } = stored;
            let command = if library.units().contains(&name) {
                LibraryCommand::Replace(name, unit)
            } else {
                LibraryCommand::Add(name, unit)
            };
            let answer = library.change(alloc, command);
            (answer, library.into_disk())
        }
        Err((fault, disk)) => {
            drop(stored);
            (Err(fault), disk)
        }
    }
}

/// Puts what the command with this number stored under this name back into the library on a disk, byte for byte: with an Add if the name
/// has no unit, else with a Replace. The first command since the last compaction has the number 1. After Ok, every crash leaves it there.
///
/// Refusals: first those of `Library::open`, 35, 38, 37 and 40; then 33 if the bytes are not a name, 32 if the command stored nothing
/// under that name; then 34 if the record does not fit, 35 if the device failed.
pub fn restore<D: Disk + Drop>(
    alloc: Global,
    disk: D,
    name: &[u8],
    number: usize,
) -> (Result<(), PartFault>, D)
    // On an honest disk every image then has one more record, and recovers to the earlier map with the unit that the command stored.
    ensures restored { OnOk result.0 (IsTrue D.honest
        → (unit : StoredUnit) × IsRestoredBy (D.seen disk) name.now number unit (D.may_leave result.1)) }
    // Whatever the answer, a crash at any moment leaves what a crash could have left before, or the earlier map, or the map after the
    // change.
    ensures moments { IsTrue D.honest → (units : Units) → Recovers (D.seen disk) units
        → LeavesOnly D.moment D.left_since disk result.1 (MayBeRestored (D.seen disk) name.now number (D.may_leave disk) units) }
    ensures refused { IfErr result.0 (λ fault. IsNotRestored D.honest (D.seen disk) (D.failures disk) (D.failures result.1) name.now number fault) }
    // If the device did not fail, a refusal leaves an honest disk as it was.
    ensures untouched { IfErr result.0 (λ fault. fault ≢ PartFault.Library LibraryFault.DiskFault → IsTrue D.honest
        → OnlyReads D.seen D.may_leave D.moment D.left_since disk result.1) }
{
    let (found, disk) = stored_on(alloc, disk, name, number);
    match found {
        Ok(stored) => {
            let (answer, disk) = put(alloc, disk, stored);
            match answer {
                Ok(()) => (Ok(()), disk),
                Err(fault) => (Err(PartFault::Library(fault)), disk),
            }
        }
        Err(fault) => (Err(fault), disk),
    }
}
