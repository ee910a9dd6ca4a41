// The lines that name units by their hash.

ghost use Rattle.std.specs.Prelude.{◌≡◌, IfOk, IfErr, IsTrue};
ghost use Rattle.std.specs.FinMap as map;
ghost use Rattle.cc_disk.specs.Images.{OnlyReads};
ghost use Rattle.cc_library.specs.Answers.{OpenFaults};
ghost use Rattle.cc_packing.specs.Packing.{AreHashLines, AreHashesOn, IsHashLine};

use crate::modes::modes_of;
use crate::packing::body_of_unit;
use cc_disk::Disk;
use cc_library::{Library, LibraryFault, Name, UnitMap};
use cc_pack::line_of;
use cc_unit::StoredUnit;
use std::alloc::{AllocError, Global};

/// The line of a unit: the first line of its file, a space and its name. Err: memory ran out, or the certificate is too long for a
/// record, as that of no unit of a library is.
pub fn hash_line(alloc: Global, name: &Name, unit: &StoredUnit) -> Result<Vec<u8>, AllocError>
    ensures { IfOk result (λ line. IsHashLine name.now unit.now line.items) }
{
    let modes = modes_of(alloc, unit)?;
    let body = body_of_unit(alloc, name, unit)?;
    let mut line = line_of(alloc, modes, body.as_slice())?;
    line.push(b' ')?;
    line.extend_from_slice(name.bytes())?;
    line.push(b'\n')?;
    Ok(line)
}

/// The lines of the units under these names, in this order: each is the first line of the unit's file, a space and the name. Err: memory
/// ran out, or a name has no unit.
pub fn hash_lines(alloc: Global, units: &UnitMap, names: &[Name]) -> Result<Vec<u8>, AllocError>
    ensures { IfOk result (λ text. AreHashLines units.now names.now text.items) }
{
    let mut text = Vec::new(alloc);
    for name in names {
        let Some(unit) = units.get(name) else {
            drop(text);
            return Err(AllocError);
        };
        let line = hash_line(alloc, name, unit)?;
        text.extend_from_slice(line.as_slice())?;
    }
    Ok(text)
}

// The lines of all units of a map, in the order of their names.
fn all_lines(alloc: Global, units: &UnitMap) -> Result<Vec<u8>, LibraryFault>
    ensures lines { IfOk result (λ text. AreHashLines units.now (map.keys units.now) text.items) }
    ensures refused { IfErr result (λ fault. fault ≡ LibraryFault.OutOfMemory) }
{
    let Ok(names) = units.names(alloc) else {
        return Err(LibraryFault::OutOfMemory);
    };
    match hash_lines(alloc, units, names.as_slice()) {
        Ok(lines) => Ok(lines),
        Err(_) => Err(LibraryFault::OutOfMemory),
    }
}

/// The lines of all units of the library on a disk, in the order of their names. Nothing is written to the disk.
///
/// Refusals: those of `Library::open`, 35, 38, 37 and 40; then 40 if memory ran out.
pub fn hashes_on<D: Disk + Drop>(alloc: Global, disk: D) -> (Result<Vec<u8>, LibraryFault>, D)
    // On an honest disk they are those of the units in the map to which the disk recovers.
    ensures lines { IfOk result.0 (λ text. IsTrue D.honest → AreHashesOn (D.seen disk) text.items) }
    ensures refused { IfErr result.0 (OpenFaults D.honest (D.seen disk) (D.failures disk) (D.failures result.1)) }
    ensures reads { IsTrue D.honest → OnlyReads D.seen D.may_leave D.moment D.left_since disk result.1 }
{
    match Library::open(alloc, disk) {
        Ok(library) => {
            let lines = all_lines(alloc, library.units());
            (lines, library.into_disk())
        }
        Err((fault, disk)) => (Err(fault), disk),
    }
}
