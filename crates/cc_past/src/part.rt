// A part of what a command of a library stored.

ghost use Rattle.std.specs.Prelude.{IsTrue, IfOk, IfErr};
ghost use Rattle.cc_disk.specs.Images.{OnlyReads};
ghost use Rattle.cc_past.specs.Past.{IsNotStoredOn, IsPartAt, IsStoredBySome};
ghost use Rattle.cc_tasks.specs.Part.{IsPart};
ghost use Rattle.cc_unit.specs.declared.unit.StoredUnit.{StoredUnit};

use crate::stored::stored_on;
use cc_disk::Disk;
use cc_task::Part;
use cc_tasks::{PartFault, part_of};
use std::alloc::Global;

/// A part of what the command with this number stored under this name, in the library on a disk. The disk is handed back, and nothing
/// is written to it. The first command since the last compaction has the number 1.
///
/// Refusals: first those of `Library::open`, 35, 38, 37 and 40; then 33 if the bytes are not a name, 32 if the command stored nothing
/// under that name.
pub fn part_at<D: Disk + Drop>(
    alloc: Global,
    disk: D,
    name: &[u8],
    part: Part,
    number: usize,
) -> (Result<Vec<u8>, PartFault>, D)
    // The bytes are this part of a unit that one of some accepted commands stored under the name, whatever kind of disk it is. On an honest
    // disk the command is one of those whose records the disk has.
    ensures some { IfOk result.0 (λ bytes. (unit : StoredUnit) × IsStoredBySome name.now number unit × IsPart part unit bytes.items) }
    ensures part { IfOk result.0 (λ bytes. IsTrue D.honest → IsPartAt (D.seen disk) name.now number part bytes.items) }
    ensures refused { IfErr result.0 (λ fault. IsNotStoredOn D.honest (D.seen disk) (D.failures disk) (D.failures result.1) name.now number fault) }
    ensures reads { IsTrue D.honest → OnlyReads D.seen D.may_leave D.moment D.left_since disk result.1 }
{
    let (found, disk) = stored_on(alloc, disk, name, number);
    match found {
        Ok(stored) => {
            let bytes = match part_of(alloc, stored.unit.stored(), part) {
                Ok(bytes) => Ok(bytes),
                Err(_) => Err(PartFault::OutOfMemory),
            };
            drop(stored);
            (bytes, disk)
        }
        Err(fault) => (Err(fault), disk),
    }
}
