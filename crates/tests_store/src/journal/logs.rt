// The calls of a log. A log keeps no body: each call returns the bodies instead.

use crate::journal::helpers::{are_bodies, bytes_of, formatted, has_bytes, one_body};
use crate::journal::rows::{ROW_BODY, Step, Steps};
use cc_disk::{Disk, FuseDisk, FuseMode, MemoryDisk};
use cc_journal::{Body, JournalFault, Log};
use std::alloc::Global;
use std::test::Fail;
use tests_texts::verdict::{passes, row_passes};

// The log on a disk.
fn opened<D: Disk + Drop>(alloc: Global, disk: D) -> Result<Log<D>, Fail> {
    match Log::open(alloc, disk) {
        Ok((log, bodies)) => {
            drop(bodies);
            Ok(log)
        }
        Err(_) => Err(Fail::from("not opened")),
    }
}

// The body of the row with what is around it in its record.
fn framed(alloc: Global) -> Result<Body, Fail> {
    Ok(Body::from_framed(vec![in alloc; 4u8, 0, 0, 0, 1, 3, 1, 0x61, 0]?))
}

// The number of an answer that hands over other bytes than it should.
const OTHER: u32 = 99;

// The number of the answer if this body, which has these bytes, is added; an added body is handed back.
fn appended<D: Disk>(alloc: Global, log: &mut Log<D>, body: Body, bytes: &[u8]) -> u32 {
    match log.append(alloc, body) {
        Ok(kept) if kept.as_slice() == bytes => 0,
        Ok(_) => OTHER,
        Err(fault) => fault.number(),
    }
}

// The number of an answer that hands over the bodies of all records.
fn handed(answer: Result<Vec<Body>, JournalFault>, wanted: &[&[u8]]) -> u32 {
    match answer {
        Ok(bodies) if are_bodies(&bodies, wanted) => 0,
        Ok(_) => OTHER,
        Err(fault) => fault.number(),
    }
}

// The number of the answer to a step.
fn answer<D: Disk>(alloc: Global, log: &mut Log<D>, step: Step) -> Result<u32, Fail> {
    match step {
        Step::Row => Ok(appended(alloc, log, framed(alloc)?, ROW_BODY)),
        Step::Append(bytes) => {
            let body = Body::new(Vec::from_slice(alloc, bytes)?);
            Ok(appended(alloc, log, body, bytes))
        }
        Step::Rewrite(bytes) => {
            Ok(handed(log.rewrite(alloc, one_body(alloc, bytes)?), &[bytes]))
        }
        Step::Clear => Ok(handed(log.rewrite(alloc, Vec::new(alloc)), &[])),
    }
}

// The disk after a step on its log was answered as it has to be, and did not close the log.
fn stepped(alloc: Global, disk: MemoryDisk, step: &(Step, u32)) -> Result<MemoryDisk, Fail> {
    let mut log = opened(alloc, disk)?;
    if answer(alloc, &mut log, step.0)? == step.1 && !log.is_closed() {
        Ok(log.into_disk())
    } else {
        Err(Fail::from("a step was answered otherwise"))
    }
}

/// The disk of a new log that is opened again before each of these steps, once they were answered as they have to be.
pub fn reopened(alloc: Global, steps: Steps) -> Result<MemoryDisk, Fail> {
    let mut disk = formatted(alloc)?;
    for step in steps {
        disk = stepped(alloc, disk, step)?;
    }
    Ok(disk)
}

// Whether these steps are answered as they have to be, and none of them closes the log.
fn are_done(alloc: Global, log: &mut Log<MemoryDisk>, steps: Steps) -> Result<bool, Fail> {
    let mut right = true;
    for (step, wanted) in steps {
        right = right && answer(alloc, log, *step)? == *wanted && !log.is_closed();
    }
    Ok(right)
}

/// The disk of a new log after these steps, once they were answered as they have to be.
pub fn played(alloc: Global, steps: Steps) -> Result<MemoryDisk, Fail> {
    let mut log = opened(alloc, formatted(alloc)?)?;
    if are_done(alloc, &mut log, steps)? {
        Ok(log.into_disk())
    } else {
        Err(Fail::from("a step was answered otherwise"))
    }
}

/// Whether a log on this disk has records with these bodies.
pub fn has_records(alloc: Global, disk: MemoryDisk, wanted: &[&[u8]]) -> bool {
    match Log::open(alloc, disk) {
        Ok((_, bodies)) => are_bodies(&bodies, wanted),
        Err(_) => false,
    }
}

#[test]
fn a_framed_body(rt: HostRuntime) -> Result<(), Fail> {
    let body = framed(rt.alloc())?;
    let right = body.as_slice() == ROW_BODY;
    passes(Ok(right && body.into_vec().as_slice() == ROW_BODY))
}

// A log whose disk fails at the call after this many calls. Opening makes three calls.
fn closed_after(alloc: Global, passes: u64) -> Result<Log<FuseDisk<MemoryDisk>>, Fail> {
    let mut log = opened(
        alloc,
        FuseDisk::new(formatted(alloc)?, passes, FuseMode::Once),
    )?;
    if answer(alloc, &mut log, Step::Append(&[1]))? == 35 && log.is_closed() {
        Ok(log)
    } else {
        Err(Fail::from("no 35"))
    }
}

// Whether a log that is closed at such a call answers 36, and its disk has the same bytes after that.
fn stays_closed(alloc: Global, passes: u64) -> Result<bool, Fail> {
    let before = bytes_of(alloc, &mut closed_after(alloc, passes)?.into_disk())?;
    let mut log = closed_after(alloc, passes)?;
    let rewritten = answer(alloc, &mut log, Step::Clear)?;
    let appended = answer(alloc, &mut log, Step::Append(&[1]))?;
    let same = has_bytes(alloc, &mut log.into_disk(), &before)?;
    Ok(rewritten == 36 && appended == 36 && same)
}

#[test]
fn a_log_is_closed_after_a_failure(rt: HostRuntime) -> Result<(), Fail> {
    for calls in 3..7usize {
        row_passes(calls, stays_closed(rt.alloc(), calls as u64))?;
    }
    Ok(())
}
