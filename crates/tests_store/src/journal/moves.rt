// Every point of failure of a `rewrite`, in each mode and from each area, and a crash after each.

use crate::journal::helpers::{formatted, holds, number, one_body, opened};
use cc_disk::{Disk, FuseDisk, FuseMode, MemoryDisk};
use std::alloc::Global;
use std::test::Fail;
use tests_texts::verdict::row_passes;

// How many device calls opening a journal with one record makes: a sync, a read of the header, and a read ahead of the records.
const OPENING: u64 = 3;

const OLD: [u8; 3] = [1, 2, 3];

// A body that is itself an open gate and a whole record.
const NEW: [u8; 7] = [0xa5, 1, 0, 0, 0, 9, 0];

// A disk with the old record, in area B if it was moved.
fn with_old(alloc: Global, moved: bool) -> Result<MemoryDisk, Fail> {
    let mut journal = opened(alloc, formatted(alloc)?)?;
    journal.append(alloc, &OLD)?;
    if moved {
        journal.rewrite(alloc, one_body(alloc, &OLD)?)?;
    }
    Ok(journal.into_disk())
}

// The disk after a rewrite that meets the fuse once this many of its device calls have passed; whether the rewrite answered Ok;
// and whether later calls answer 36 and make no device call.
fn rewritten(
    alloc: Global,
    moved: bool,
    passes: u64,
    mode: FuseMode,
) -> Result<(MemoryDisk, bool, bool), Fail> {
    let fuse = FuseDisk::new(
        with_old(alloc, moved)?,
        OPENING.saturating_add(passes),
        mode,
    );
    let mut journal = opened(alloc, fuse)?;
    let answer = number(journal.rewrite(alloc, one_body(alloc, &NEW)?));
    if answer == 0 {
        return Ok((journal.into_disk().into_disk(), true, true));
    }
    let later = number(journal.append(alloc, &OLD)) == 36
        && number(journal.rewrite(alloc, Vec::new(alloc))) == 36;
    let fuse = journal.into_disk();
    let quiet = answer == 35 && later && fuse.failures() == 1;
    Ok((fuse.into_disk(), false, quiet))
}

// Whether each crash leaves the old record or the new one, and only the new one if the rewrite was made.
fn is_right(alloc: Global, disk: &MemoryDisk, done: bool) -> Result<bool, Fail> {
    for byte in [0x00u8, 0xa5, 0xff] {
        let new = holds(alloc, disk.crash(alloc, &[byte; 144])?, &[&NEW]);
        let old = holds(alloc, disk.crash(alloc, &[byte; 144])?, &[&OLD]);
        if !new && (done || !old) {
            return Ok(false);
        }
    }
    Ok(true)
}

// Whether a rewrite that meets the fuse, in this mode, once this many of its device calls have passed leaves the right records.
fn survives(alloc: Global, moved: bool, calls: u64, mode: FuseMode) -> Result<bool, Fail> {
    let (disk, done, quiet) = rewritten(alloc, moved, calls, mode)?;
    Ok(quiet && done == (calls == 4) && is_right(alloc, &disk, done)?)
}

#[test]
fn every_failure_of_a_rewrite(rt: HostRuntime) -> Result<(), Fail> {
    for mode in [FuseMode::Once, FuseMode::Before, FuseMode::Within] {
        for calls in 0..5usize {
            for moved in [false, true] {
                row_passes(calls, survives(rt.alloc(), moved, calls as u64, mode))?;
            }
        }
    }
    Ok(())
}

// Whether a crash that leaves this area byte leaves the record of the area that it names.
fn is_torn(alloc: Global, disk: &MemoryDisk, byte: u8) -> Result<bool, Fail> {
    let wanted: &[u8] = if byte % 2 == 0 { &OLD } else { &NEW };
    Ok(holds(alloc, disk.crash(alloc, &[byte])?, &[wanted]))
}

#[test]
fn each_value_of_a_torn_area_byte(rt: HostRuntime) -> Result<(), Fail> {
    let alloc = rt.alloc();
    let (disk, _, _) = rewritten(alloc, false, 2, FuseMode::Within)?;
    for byte in 0..=255u8 {
        row_passes(byte as usize, is_torn(alloc, &disk, byte))?;
    }
    Ok(())
}
