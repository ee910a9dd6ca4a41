// Disks that `format` did not make, opened as a journal and as a library. The record of the worked row is a Withdraw of `a`.

use crate::journal::helpers::{bytes_of, has_parts, holds, opened, refusal, row_disk};
use crate::journal::rows::ROW_BODY;
use crate::library::helpers::{recovers, refusal as library_refusal};
use cc_disk::{Disk, FuseDisk, FuseMode};
use cc_journal::Journal;
use std::alloc::Global;
use std::test::Fail;
use tests_texts::verdict::{passes, row_passes};

// A body of 58 bytes, the longest: it is there at once if the length says so.
const LONGEST: &[u8] = &[
    1, 3, 1, 0x61, 0, 0, 0, 0, 0, 0, 0, 0, 0, 0, 0, 0, 0, 0, 0, 0, 0, 0, 0, 0, 0, 0, 0, 0, 0, 0, 0,
    0, 0, 0, 0, 0, 0, 0, 0, 0, 0, 0, 0, 0, 0, 0, 0, 0, 0, 0, 0, 0, 0, 0, 0, 0, 0, 0,
];

// Bytes of the row's disk that are changed; the number with which it is refused as a journal, or 0, and the body that it then has;
// and the number with which it is refused as a library.
type Row = (&'static [(usize, u8)], u32, &'static [u8], u32);

static CHANGES: [Row; 19] = [
    // Withdraw of an absent name, in both versions.
    (&[], 0, &[1, 3, 1, 0x61], 37),
    (&[(21, 2)], 0, &[2, 3, 1, 0x61], 37),
    // A body of 58 bytes fits, and is no command; a body of 59 does not fit.
    (&[(17, 0x3a)], 0, LONGEST, 37),
    (&[(17, 0x3b)], 37, &[], 37),
    (
        &[(17, 0xff), (18, 0xff), (19, 0xff), (20, 0xff)],
        37,
        &[],
        37,
    ),
    // Another version, another kind, a bad name.
    (&[(21, 3)], 0, &[3, 3, 1, 0x61], 37),
    (&[(21, 0)], 0, &[0, 3, 1, 0x61], 37),
    (&[(22, 4)], 0, &[1, 4, 1, 0x61], 37),
    (&[(23, 0)], 0, &[1, 3, 0, 0x61], 37),
    (&[(24, 0x41)], 0, &[1, 3, 1, 0x41], 37),
    // An open gate with too few bytes after it for a length.
    (&[(17, 0x36), (75, 0xa5)], 37, &[], 37),
    // The name, the reserved bytes, an area below 64, an area that is larger than the disk.
    (&[(1, 0x44)], 38, &[], 38),
    (&[(7, 0x30)], 38, &[], 38),
    (&[(12, 1)], 38, &[], 38),
    (&[(15, 1)], 38, &[], 38),
    (&[(8, 0x3f)], 38, &[], 38),
    (&[(8, 0x41)], 38, &[], 38),
    (&[(10, 1)], 38, &[], 38),
    (&[(11, 0x80)], 38, &[], 38),
];

fn is_answered(alloc: Global, row: &Row) -> Result<bool, Fail> {
    let (changes, number, body, library_number) = *row;
    let right = if number == 0 {
        holds(alloc, row_disk(alloc, changes)?, &[body])
    } else {
        refusal(alloc, row_disk(alloc, changes)?) == number
    };
    Ok(right && library_refusal(alloc, row_disk(alloc, changes)?) == library_number)
}

#[test]
fn each_change_of_the_row(rt: HostRuntime) -> Result<(), Fail> {
    for number in 0..CHANGES.len() {
        row_passes(number, is_answered(rt.alloc(), &CHANGES[number]))?;
    }
    Ok(())
}

// Whether the row's disk with this gate has its record if the gate is open, and otherwise is an empty journal and an empty library.
fn has_gate(alloc: Global, gate: u8) -> Result<bool, Fail> {
    let disk = row_disk(alloc, &[(16, gate)])?;
    if gate == 0xa5 {
        return Ok(holds(alloc, disk, &[ROW_BODY]));
    }
    let is_empty = holds(alloc, disk, &[]);
    Ok(is_empty && recovers(alloc, row_disk(alloc, &[(16, gate)])?, (None, None))?)
}

// Whether a record with the body 77 is added after the first record of area A, or at the start of area B, depending on the
// area byte.
fn is_added(alloc: Global, area_byte: u8) -> Result<bool, Fail> {
    let mut journal = opened(alloc, row_disk(alloc, &[(0, area_byte)])?)?;
    journal.append(alloc, &[0x77])?;
    let start = if area_byte % 2 == 0 { 25 } else { 80 };
    has_parts(
        alloc,
        &mut journal.into_disk(),
        &[(start, &[0xa5, 1, 0, 0, 0, 0x77]), (0, &[area_byte])],
    )
}

#[test]
fn each_first_gate_and_each_area_byte(rt: HostRuntime) -> Result<(), Fail> {
    for byte in 0..=255u8 {
        row_passes(byte as usize, has_gate(rt.alloc(), byte))?;
        row_passes(byte as usize, is_added(rt.alloc(), byte))?;
    }
    Ok(())
}

// Opening a disk syncs, as it is, what was written before without a sync.
fn is_settled(alloc: Global) -> Result<bool, Fail> {
    let mut disk = row_disk(alloc, &[])?;
    let bytes = bytes_of(alloc, &mut disk)?;
    if bytes.len() > disk.size() {
        return Ok(false);
    }
    disk.write_at(0, &bytes)?;
    let disk = opened(alloc, disk)?.into_disk();
    Ok(holds(alloc, disk.crash(alloc, &[])?, &[ROW_BODY]))
}

// Whether a disk whose first call fails is handed back with its record.
fn is_handed_back(alloc: Global) -> Result<bool, Fail> {
    let fuse = FuseDisk::new(row_disk(alloc, &[])?, 0, FuseMode::Once);
    match Journal::open(alloc, fuse) {
        Ok(_) => Ok(false),
        Err((fault, fuse)) => Ok(fault.number() == 35 && holds(alloc, fuse, &[ROW_BODY])),
    }
}

#[test]
fn opening_settles_what_was_written_or_hands_the_disk_back(rt: HostRuntime) -> Result<(), Fail> {
    passes(is_settled(rt.alloc()))?;
    passes(is_handed_back(rt.alloc()))
}
