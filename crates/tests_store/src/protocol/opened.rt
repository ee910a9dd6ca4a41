// Runs that begin on disks with units.

ghost use Rattle.std.specs.Prelude.{List, ℕ, IfOk};
ghost use Rattle.cc_disk.specs.Model.{bytes_of, IsImage};
ghost use Rattle.cc_library.specs.Apply.{Units};
ghost use Rattle.cc_library.specs.Recovered.{Recovers, RecoversAlone};
ghost use Rattle.cc_core.specs.Run.{EachUnit};
ghost use Rattle.tests_store.specs.Builds.{is_right};

use crate::library::helpers::name;
use crate::protocol::builds::{FewPieces, Nothing};
use crate::protocol::piece::compiled;
use crate::protocol::played::{Held, ONE, TWO, leaves};
use crate::protocol::script::Line::{Add, Begin, Commit, Crash, Make, Recover, UpToGate, Withdraw};
use crate::protocol::script::{Line, answers};
use cc_core::laws::units_law;
use cc_core::state::State;
use cc_disk::{Disk, MemoryDisk};
use cc_journal::format;
use cc_library::Library;
use std::alloc::Global;
use std::sync::Arc;
use std::test::Fail;
use tests_texts::verdict::passes;

// The library with one more unit, which is right for its source.
fn with_unit(
    alloc: Global,
    mut library: Library<MemoryDisk>,
    letter: u8,
    source: &str,
) -> Result<Library<MemoryDisk>, Fail>
    requires { EachUnit is_right library.units }
    ensures right { IfOk result (λ l. EachUnit is_right l.units) }
    ensures kept { IfOk result (λ l. (image : List ℕ) → IsImage l.disk.cells image → RecoversAlone image l.units) }
{
    units_law::<FewPieces>();
    let name = name(letter)?;
    let piece = compiled(alloc, source.as_bytes(), 0)?;
    let unit = Arc::try_clone(piece.unit())?;
    match library.add(alloc, name, unit) {
        Ok(()) => Ok(library),
        Err(fault) => Err(Fail::from(fault)),
    }
}

// A disk of 300 bytes with areas of 120, and two units on it.
fn two_units(alloc: Global) -> Result<MemoryDisk, Fail>
    ensures { IfOk result (λ disk. (units : Units) → Recovers (bytes_of disk.cells) units → EachUnit is_right units) }
{
    units_law::<FewPieces>();
    let mut disk = MemoryDisk::new(alloc, 300)?;
    format(&mut disk, 120)?;
    let library = match Library::open(alloc, disk) {
        Ok(library) => library,
        Err((fault, _)) => return Err(Fail::from(fault)),
    };
    let library = with_unit(alloc, library, b'a', ONE)?;
    let library = with_unit(alloc, library, b'b', TWO)?;
    Ok(library.into_disk())
}

// The state on that disk.
fn opened(alloc: Global) -> Result<State<FewPieces>, Fail> {
    match State::open(alloc, FewPieces {}, two_units(alloc)?) {
        Ok(state) => Ok(state),
        Err((fault, _)) => Err(Fail::from(fault)),
    }
}

// The names on the disk are in the library, and both records of the disk count as acknowledged. A third unit is made.
const MADE: [(Line, u32); 5] = [
    (Add(1, b'a', TWO), 0),
    (Make(1, 1, TWO), 0),
    (Begin(1), 31),
    (Add(1, b'c', ONE), 0),
    (Make(1, 1, ONE), 0),
];

// The third unit is committed, and then comes a crash.
const ACKNOWLEDGED: [(Line, u32); 3] = [(Commit(1), 1), (Crash(0x00), 0), (Recover, 0)];

// A crash during the write of the gate leaves the gate open, and the recovery keeps the unit for good.
const TORN: [(Line, u32); 6] = [
    (UpToGate(1), 0),
    (Crash(0xa5), 0),
    (Recover, 0),
    (Begin(1), 29),
    (Crash(0x00), 0),
    (Recover, 0),
];

// A crash during the write of the gate leaves the gate closed.
const LOST: [(Line, u32); 3] = [(UpToGate(1), 0), (Crash(0x00), 0), (Recover, 0)];

// Whether the third unit is made on the opened state, and the events after it give these answers and leave this library.
fn goes_on(alloc: Global, last: &[(Line, u32)], wanted: &Held) -> Result<bool, Fail> {
    let mut lines = Vec::from_slice(alloc, MADE.as_slice())?;
    lines.extend_from_slice(last)?;
    leaves(alloc, opened(alloc)?, &lines, wanted)
}

#[test]
fn a_third_unit(rt: HostRuntime) -> Result<(), Fail> {
    let alloc = rt.alloc();
    let two: Held = (Some(ONE), Some(TWO), None, 2);
    passes(leaves(alloc, opened(alloc)?, &[], &two))?;
    passes(goes_on(alloc, &ACKNOWLEDGED, &(Some(ONE), Some(TWO), Some(ONE), 3)))?;
    passes(goes_on(alloc, &TORN, &(Some(ONE), Some(TWO), Some(ONE), 2)))?;
    passes(goes_on(alloc, &LOST, &two))
}

// A header for areas of 64 bytes, with the second area in use.
const SECOND: [u8; 16] = [
    0x03, 0x43, 0x43, 0x4c, 0x49, 0x42, 0x30, 0x31, 0x40, 0x00, 0x00, 0x00, 0x00, 0x00, 0x00, 0x00,
];

// A record that adds `a` with the source `int main(void){}`, one code word 0, and no globals.
const RECORD: [u8; 41] = [
    0xa5, 0x24, 0x00, 0x00, 0x00, 0x01, 0x01, 0x01, 0x61, 0x10, 0x00, 0x00, 0x00, 0x69, 0x6e, 0x74,
    0x20, 0x6d, 0x61, 0x69, 0x6e, 0x28, 0x76, 0x6f, 0x69, 0x64, 0x29, 0x7b, 0x7d, 0x01, 0x00, 0x00,
    0x00, 0x00, 0x00, 0x00, 0x00, 0x00, 0x00, 0x00, 0x00,
];

// A disk of 150 bytes with this header at offset 0 and this record at offset 80, both written but not synced.
fn raw(alloc: Global, header: &[u8; 16], record: &[u8; 41]) -> Result<MemoryDisk, Fail> {
    let mut disk = MemoryDisk::new(alloc, 150)?;
    disk.write_at(0, header)?;
    disk.write_at(80, record)?;
    Ok(disk)
}

// The unit in the second area is withdrawn.
const WITHDRAWN: [(Line, u32); 6] = [
    (Withdraw(1, b'a'), 0),
    (Commit(1), 1),
    (Crash(0xa5), 0),
    (Recover, 0),
    (Withdraw(1, b'a'), 0),
    (Begin(1), 32),
];

// Whether the state has the unit of `RECORD`, the unit's record counts as acknowledged, and the events of `WITHDRAWN` give
// their answers and leave no unit.
fn withdraws(alloc: Global, state: &mut State<Nothing>) -> Result<bool, Fail> {
    let name = name(b'a')?;
    if state.library().get(&name).is_none() || state.acked().len() != 1 {
        return Ok(false);
    }
    let right = answers(alloc, state, &WITHDRAWN)?;
    Ok(right && state.library().get(&name).is_none() && state.acked().len() == 2)
}

// Whether a state is opened on a disk with these bytes, and `withdraws` is true of it.
fn is_withdrawn(alloc: Global, header: &[u8; 16], record: &[u8; 41]) -> Result<bool, Fail> {
    match State::open(alloc, Nothing {}, raw(alloc, header, record)?) {
        Ok(mut state) => {
            let answer = withdraws(alloc, &mut state);
            drop(state);
            answer
        }
        Err((fault, _)) => Err(Fail::from(fault)),
    }
}

#[test]
fn the_second_area(rt: HostRuntime) -> Result<(), Fail> {
    passes(is_withdrawn(rt.alloc(), &SECOND, &RECORD))
}

// Whether a disk with these bytes is refused with this number, and the disk is handed back with the same size.
fn is_refused(
    alloc: Global,
    header: &[u8; 16],
    record: &[u8; 41],
    number: u32,
) -> Result<bool, Fail> {
    match State::open(alloc, Nothing {}, raw(alloc, header, record)?) {
        Ok(state) => {
            drop(state);
            Ok(false)
        }
        Err((fault, disk)) => Ok(disk.size() == 150 && fault.number() == number),
    }
}

#[test]
fn not_a_library(rt: HostRuntime) -> Result<(), Fail> {
    passes(is_refused(rt.alloc(), &[0; 16], &RECORD, 38))?;
    // The length of the record goes past its area.
    let mut long = RECORD;
    long[1] = 0x3b;
    passes(is_refused(rt.alloc(), &SECOND, &long, 37))?;
    // The record replaces a unit, but the library has none.
    let mut replaces = RECORD;
    replaces[6] = 0x02;
    passes(is_refused(rt.alloc(), &SECOND, &replaces, 37))
}
