// Rewrites: what their events answer, that they make room, and what a crash or a failure at each of them leaves.

use crate::protocol::played::{ONE, TWO, begins, goes_on};
use crate::protocol::script::Line;
use crate::protocol::script::Line::{
    Ack, Add, Begin, Commit, Crash, Done, Fails, Make, Put, Recover, Replace, Rewrite, RewriteAll,
    SyncAll, SyncArea, Take, Withdraw, Write, WriteArea, WriteBody,
};
use std::alloc::Global;
use std::test::Fail;
use tests_texts::verdict::passes;

// Two records of the same name.
const TWICE: [Line; 4] = [
    Put(3, 1, b'a', ONE),
    Replace(1, b'a', TWO),
    Make(3, 1, TWO),
    Commit(1),
];

// Two records of the same name fill an area of 64 bytes, so there is no room for another name; a rewrite leaves one of the two, and then
// there is room. During a rewrite jobs come and workers answer, but no commit begins; each step of the rewrite is possible only in its
// turn. After the rewrite the other area is in use, and again after two more rewrites in a row.
const MAKES_ROOM: [(Line, u32); 36] = [
    (Add(7, b'b', ONE), 0),
    (Make(3, 7, ONE), 0),
    (Begin(7), 34),
    (SyncAll, 29),
    (WriteArea, 29),
    (SyncArea, 29),
    (Fails, 29),
    (RewriteAll, 0),
    (RewriteAll, 29),
    (WriteArea, 29),
    (SyncArea, 29),
    (WriteBody, 29),
    (Recover, 29),
    (Add(7, b'b', ONE), 0),
    (Take(3, 7, 0), 0),
    (SyncAll, 0),
    (SyncAll, 29),
    (Done(3, ONE, 0), 0),
    (Begin(7), 29),
    (WriteArea, 0),
    (WriteArea, 29),
    (Begin(7), 29),
    (SyncArea, 0),
    (SyncArea, 29),
    (Begin(7), 0),
    (RewriteAll, 29),
    (Write, 0),
    (Ack(7), 1),
    (Rewrite, 0),
    (Rewrite, 0),
    (Crash(0xa5), 0),
    (RewriteAll, 29),
    (Recover, 0),
    (Add(7, b'c', ONE), 0),
    (Take(3, 7, 0), 0),
    (Fails, 29),
];

// What the events of the two records of `TWICE` answer.
fn expected(line: Line) -> u32 {
    match line {
        Commit(_) | Put(..) => 1,
        _ => 0,
    }
}

// Adds the lines of the two records and those that come after them.
fn add_all(lines: &mut Vec<(Line, u32)>) -> Result<(), Fail> {
    for line in &TWICE {
        lines.push((*line, expected(*line)))?;
    }
    lines.extend_from_slice(&MAKES_ROOM)?;
    Ok(())
}

#[test]
fn a_rewrite_makes_room(rt: HostRuntime) -> Result<(), Fail> {
    let mut lines = Vec::new(rt.alloc());
    add_all(&mut lines)?;
    passes(begins(rt.alloc(), 64, &lines, &(Some(TWO), Some(ONE), None, 3)))
}

// A failure during a rewrite gives no reply, and closes the journal: no rewrite and no commit begins until the disk is opened again. Then
// the name can be withdrawn, and a rewrite of an empty library leaves no record.
const CLOSED: [(Line, u32); 18] = [
    (RewriteAll, 0),
    (SyncAll, 0),
    (Fails, 0),
    (Fails, 29),
    (WriteArea, 29),
    (RewriteAll, 29),
    (Withdraw(2, b'a'), 0),
    (Begin(2), 36),
    (Crash(0xff), 0),
    (Recover, 0),
    (Withdraw(2, b'a'), 0),
    (Begin(2), 0),
    (Fails, 35),
    (Crash(0x00), 0),
    (Recover, 0),
    (Withdraw(2, b'a'), 0),
    (Commit(2), 1),
    (Rewrite, 0),
];

#[test]
fn a_failure_closes(rt: HostRuntime) -> Result<(), Fail> {
    passes(goes_on(rt.alloc(), &TWICE, &CLOSED, &(None, None, None, 3)))
}

// The four device steps of a rewrite.
const STEPS: [Line; 4] = [RewriteAll, SyncAll, WriteArea, SyncArea];

// One more commit, in whichever area is then in use, and a crash.
const ANOTHER: [Line; 3] = [Put(3, 7, b'b', ONE), Crash(0xa5), Recover];

// Adds the two records, this many steps of a rewrite, the failure of the next step if `fails` is true, and a crash that leaves this byte.
fn add_crash(lines: &mut Vec<Line>, steps: usize, fails: bool, byte: u8) -> Result<(), Fail> {
    lines.extend_from_slice(&TWICE)?;
    for line in STEPS.iter().take(steps) {
        lines.push(*line)?;
    }
    if fails {
        lines.push(Fails)?;
    }
    lines.extend_from_slice(&[Crash(byte), Recover])?;
    Ok(())
}

// Whether the map is recovered after the crash that `add_crash` adds, and a commit after the recovery is kept through another crash.
fn survives(alloc: Global, steps: usize, fails: bool, byte: u8) -> Result<bool, Fail> {
    let mut lines = Vec::new(alloc);
    add_crash(&mut lines, steps, fails, byte)?;
    let recovered = goes_on(alloc, &lines, &[], &(Some(TWO), None, None, 2))?;
    lines.extend_from_slice(&ANOTHER)?;
    let kept = goes_on(alloc, &lines, &[], &(Some(TWO), Some(ONE), None, 3))?;
    Ok(recovered && kept)
}

#[test]
fn a_crash_at_each_step(rt: HostRuntime) -> Result<(), Fail> {
    for steps in 0..5 {
        for byte in &[0x00, 0xa5, 0xff] {
            passes(survives(rt.alloc(), steps, false, *byte))?;
            passes(survives(rt.alloc(), steps, true, *byte))?;
        }
    }
    Ok(())
}

// The map is recovered, whatever byte a torn write of the area byte leaves.
#[test]
fn each_area_byte(rt: HostRuntime) -> Result<(), Fail> {
    for byte in 0..=255 {
        passes(survives(rt.alloc(), 3, false, byte))?;
    }
    Ok(())
}
