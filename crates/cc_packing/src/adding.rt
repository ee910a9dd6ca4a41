// A unit is added to the library on a disk.

ghost use Rattle.std.specs.Prelude.{◌≢◌, List, ℕ, IsTrue, IfErr, OnOk};
ghost use Rattle.cc_disk.specs.Images.{LeavesOnly, OnlyReads};
ghost use Rattle.cc_library.specs.Apply.{Units};
ghost use Rattle.cc_library.specs.Recovered.{Recovers};
ghost use Rattle.cc_packing.specs.Added.{IsAddedTo, IsNotAdded, MayBeAdded};

use cc_disk::Disk;
use cc_library::{Library, LibraryCommand, LibraryFault, Name, SharedUnit};
use std::alloc::Global;

/// Adds a unit under a name to the library on a disk. After Ok, every crash leaves it there. The unit is not audited.
///
/// Refusals: first those of `Library::open`, 35, 38, 37 and 40; then 31 if the name has a unit, 34 if the record does not fit, 35 if the
/// device failed, and 40.
pub fn add_on<D: Disk + Drop>(
    alloc: Global,
    disk: D,
    name: Name,
    unit: SharedUnit,
) -> (Result<(), LibraryFault>, D)
    // On an honest disk every image then recovers to the earlier map with this unit.
    ensures added { OnOk result.0 (IsTrue D.honest → IsAddedTo (D.seen disk) name unit (D.may_leave result.1)) }
    // Whatever the answer, a crash at any moment leaves what a crash could have left before, or the earlier map, or the map after the
    // change.
    ensures moments { IsTrue D.honest → (units : Units) → Recovers (D.seen disk) units
        → LeavesOnly D.moment D.left_since disk result.1 (MayBeAdded (D.may_leave disk) units name unit) }
    ensures refused { IfErr result.0 (IsNotAdded D.honest (D.seen disk) (D.failures disk) (D.failures result.1) name unit) }
    // If the device did not fail, a refusal leaves an honest disk as it was.
    ensures untouched { IfErr result.0 (λ fault. fault ≢ LibraryFault.DiskFault → IsTrue D.honest
        → OnlyReads D.seen D.may_leave D.moment D.left_since disk result.1) }
{
    match Library::open(alloc, disk) {
        Ok(mut library) => {
            let answer = library.change(alloc, LibraryCommand::Add(name, unit));
            (answer, library.into_disk())
        }
        Err((fault, disk)) => {
            drop(name);
            drop(unit);
            (Err(fault), disk)
        }
    }
}
