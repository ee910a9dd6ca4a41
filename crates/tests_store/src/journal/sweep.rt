// Every point of failure of format, open and two appends, in each mode, and a crash after each.

use crate::journal::helpers::{AREA, SIZE, are_bodies};
use cc_disk::{FuseDisk, FuseMode, MemoryDisk};
use cc_journal::{Journal, format};
use std::alloc::Global;
use std::test::Fail;
use tests_texts::verdict::passes;

// Two device calls for `format`, three for `open`, and four for each `append`.
const CALLS: u64 = 13;

const FIRST: [u8; 3] = [1, 2, 3];

// A body that is itself an open gate and a whole record.
const SECOND: [u8; 7] = [0xa5, 1, 0, 0, 0, 9, 0];

// What a run reached: whether `format` answered Ok, how many appends were begun, and how many answered Ok.
#[derive(Clone, Copy)]
struct Reached {
    formatted: bool,
    begun: usize,
    kept: usize,
}

// Formats, opens and appends until the device fails, and then goes on as far as possible.
fn run(alloc: Global, passes: u64, mode: FuseMode) -> Result<(MemoryDisk, Reached), Fail> {
    let mut fuse = FuseDisk::new(MemoryDisk::new(alloc, SIZE)?, passes, mode);
    let mut reached = Reached {
        formatted: format(&mut fuse, AREA).is_ok(),
        begun: 0,
        kept: 0,
    };
    let mut journal = match Journal::open(alloc, fuse) {
        Ok(journal) => journal,
        Err((_, fuse)) => return Ok((fuse.into_disk(), reached)),
    };
    reached.begun = 1;
    if journal.append(alloc, &FIRST).is_ok() {
        reached.kept = 1;
        reached.begun = 2;
        if journal.append(alloc, &SECOND).is_ok() {
            reached.kept = 2;
        }
    }
    Ok((journal.into_disk().into_disk(), reached))
}

// Whether the recovered records are a prefix of those that were begun, and include all that were
// acknowledged.
fn is_right(alloc: Global, disk: MemoryDisk, reached: Reached) -> bool {
    match Journal::open(alloc, disk) {
        Ok(journal) => {
            let records = journal.records();
            let count = records.len();
            let all: [&[u8]; 2] = [&FIRST, &SECOND];
            reached.kept <= count
                && count <= reached.begun
                && count <= 2
                && are_bodies(records, &all[..count])
        }
        Err(_) => !reached.formatted,
    }
}

// Whether the disk is right if this many calls pass before the fuse blows, and is still right after each
// crash.
fn survives(alloc: Global, passes: u64, mode: FuseMode) -> Result<bool, Fail> {
    let (disk, reached) = run(alloc, passes, mode)?;
    for byte in [0x00u8, 0xa5, 0xff] {
        if !is_right(alloc, disk.crash(alloc, &[byte; 144])?, reached) {
            return Ok(false);
        }
    }
    Ok((passes < CALLS || reached.kept == 2) && is_right(alloc, disk, reached))
}

#[test]
fn every_failure_and_a_crash(rt: HostRuntime) -> Result<(), Fail> {
    for calls in 0..16u64 {
        for mode in [FuseMode::Once, FuseMode::Before, FuseMode::Within] {
            passes(survives(rt.alloc(), calls, mode))?;
        }
    }
    Ok(())
}
