// Makes a new library with the units of a map: an empty journal, and then one commit with one Add for each name.

ghost use Rattle.std.specs.Prelude.{◌≡◌, ◌≤◌, ◌^◌, ℕ, List, false, IsTrue, IfErr, IsErrOf, OnOk};
ghost use Rattle.cc_journal.specs.Format.{AllHold, room_of};
ghost use Rattle.cc_library.specs.Compact.{compacted};
ghost use Rattle.cc_library.specs.Recovered.{RecoversAlone};
ghost use Rattle.cc_copy.specs.Copy.{CopyFaults, IsLeastArea};
ghost use Rattle.cc_copy.specs.internal.Writing.{WriteFaults};

use cc_disk::Disk;
use cc_journal::{Log, format};
use cc_library::{LibraryFault, UnitMap};
use std::alloc::Global;

/// An area has at least this many bytes.
const LEAST: usize = 64;

/// An area has at most this many bytes.
const MOST: usize = 1_073_741_824;

// Writes one Add for each name as the records of a log.
fn write_units<D: Disk>(
    alloc: Global,
    log: &mut Log<D>,
    units: &UnitMap,
) -> Result<(), LibraryFault>
    requires room { room_of (compacted units.now) ≤ 2 ^ 30 }
    requires usable { log.old.closed ≡ false }
    ensures records { OnOk result (IsTrue D.honest → AllHold (D.may_leave log.new.disk) log.old.area (compacted units.now)) }
    ensures copied { OnOk result (IsTrue D.honest → (image : List ℕ) → D.may_leave log.new.disk image → RecoversAlone image units.now) }
    ensures refused { IfErr result (λ fault. WriteFaults log.old.area units.now (D.failures log.old.disk) (D.failures log.new.disk) fault) }
{
    let bodies = match units.bodies(alloc) {
        Ok(bodies) => bodies,
        Err(_) => return Err(LibraryFault::OutOfMemory),
    };
    match log.rewrite(alloc, bodies) {
        Ok(kept) => {
            drop(kept);
            Ok(())
        }
        Err(fault) => Err(LibraryFault::from(fault)),
    }
}

/// Makes a new library with these units on a disk, with areas of `area` bytes. The disk is handed back. After Ok, every crash
/// leaves exactly these units.
///
/// Refusals: 34 if the units don't fit in such an area, or two such areas don't fit on the disk, which is then as before; 35 if
/// the device failed; 40 if memory ran out.
pub fn copy_units<D: Disk + Drop>(
    alloc: Global,
    units: &UnitMap,
    disk: D,
    area: u32,
) -> (Result<(), LibraryFault>, D)
    requires least { 64 ≤ area }
    requires most { area ≤ 2 ^ 30 }
    // On an honest disk every image has one Add for each name in areas of `area` bytes, and so it recovers to these units.
    ensures records { OnOk result.0 (IsTrue D.honest → AllHold (D.may_leave result.1) area (compacted units.now)) }
    ensures copied { OnOk result.0 (IsTrue D.honest → (image : List ℕ) → D.may_leave result.1 image → RecoversAlone image units.now) }
    ensures fits { OnOk result.0 (room_of (compacted units.now) ≤ area) }
    ensures refused { IfErr result.0 (λ fault. CopyFaults D.honest (D.size disk) area units.now (D.failures disk) (D.failures result.1) fault) }
    // An honest disk that does not have enough room is not touched.
    ensures untouched { IsErrOf result.0 LibraryFault.Full → IsTrue D.honest → result.1 ≡ disk }
{
    if !units.fits(area as usize) {
        return (Err(LibraryFault::Full), disk);
    }
    let mut disk = disk;
    match format(&mut disk, area) {
        Ok(()) => match Log::open(alloc, disk) {
            Ok((mut log, bodies)) => {
                drop(bodies);
                let answer = write_units(alloc, &mut log, units);
                (answer, log.into_disk())
            }
            Err((fault, disk)) => (Err(LibraryFault::from(fault)), disk),
        },
        Err(fault) => (Err(LibraryFault::from(fault)), disk),
    }
}

/// The least area that has room for these units; None if even the greatest area does not have enough room.
pub fn least_area(units: &UnitMap) -> Option<usize>
    ensures { IsLeastArea units.now result }
{
    if !units.fits(MOST) {
        return None;
    }
    let mut least = LEAST;
    let mut fitting = MOST;
    while least < fitting {
        let middle = least + (fitting - least) / 2;
        if units.fits(middle) {
            fitting = middle;
        } else {
            least = middle + 1;
        }
    }
    Some(fitting)
}
