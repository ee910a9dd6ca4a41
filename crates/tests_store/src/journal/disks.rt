// The disk in memory and the fuse, call by call.

use crate::journal::helpers::{disk_of, has_bytes};
use cc_disk::{Disk, FuseDisk, FuseMode, MemoryDisk};
use std::alloc::Global;
use std::test::Fail;
use tests_texts::verdict::{passes, row_passes};

// Whether a crash with this choice leaves these bytes.
fn crash_leaves(
    alloc: Global,
    disk: &MemoryDisk,
    choice: &[u8],
    wanted: &[u8],
) -> Result<bool, Fail> {
    has_bytes(alloc, &mut disk.crash(alloc, choice)?, wanted)
}

fn is_chosen(alloc: Global) -> Result<bool, Fail> {
    let mut disk = disk_of(alloc, &[1, 2, 3, 4, 5])?;
    if disk.size() != 5 {
        return Ok(false);
    }
    disk.write_at(1, &[7, 8])?;
    let right = has_bytes(alloc, &mut disk, &[1, 7, 8, 4, 5])?
        // What was written is unsettled; past the end of the choice a crash leaves 0.
        && crash_leaves(alloc, &disk, &[9, 10], &[1, 10, 0, 4, 5])?;
    disk.sync()?;
    Ok(right && crash_leaves(alloc, &disk, &[0xff; 5], &[1, 7, 8, 4, 5])?)
}

#[test]
fn a_crash_chooses_the_unsettled_bytes(rt: HostRuntime) -> Result<(), Fail> {
    passes(is_chosen(rt.alloc()))
}

// The mode of a fuse that lets one call pass; whether two writes and a sync succeed; what the disk then has; and how many
// calls failed.
type Row = (FuseMode, [bool; 3], [u8; 2], u64);

static ROWS: [Row; 3] = [
    (FuseMode::Once, [true, false, true], [1, 0], 1),
    (FuseMode::Before, [true, false, false], [1, 0], 2),
    (FuseMode::Within, [true, false, false], [1, 2], 2),
];

fn is_row(alloc: Global, row: &Row) -> Result<bool, Fail> {
    let mut fuse = FuseDisk::new(MemoryDisk::new(alloc, 2)?, 1, row.0);
    if fuse.size() != 2 {
        return Ok(false);
    }
    let first = fuse.write_at(0, &[1]).is_ok();
    let second = fuse.write_at(1, &[2]).is_ok();
    let third = fuse.sync().is_ok();
    let failures = fuse.failures();
    let mut disk = fuse.into_disk();
    let mut bytes = [0u8; 2];
    disk.read_at(0, &mut bytes)?;
    Ok([first, second, third] == row.1 && bytes == row.2 && failures == row.3)
}

#[test]
fn the_modes_of_a_fuse(rt: HostRuntime) -> Result<(), Fail> {
    for number in 0..ROWS.len() {
        row_passes(number, is_row(rt.alloc(), &ROWS[number]))?;
    }
    Ok(())
}
