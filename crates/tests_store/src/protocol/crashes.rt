// Crashes at each event of a commit, and what is recovered.

use crate::protocol::builds::FewPieces;
use crate::protocol::played::{ONE, TWO, begins, goes_on};
use crate::protocol::script::Line;
use crate::protocol::script::Line::{
    Ack, Add, Begin, Crash, Done, Fails, Make, Put, Recover, SyncBody, SyncGate, Take, WriteBody,
    WriteGate,
};
use cc_core::laws::{crash_law, survival_law, turn_law};
use std::alloc::Global;
use std::test::Fail;
use tests_texts::verdict::passes;

// The eight events of one commit, from its job to its last device event.
const COMMIT: [Line; 8] = [
    Add(1, b'a', ONE),
    Take(1, 1, 0),
    Done(1, ONE, 0),
    Begin(1),
    WriteBody,
    SyncBody,
    WriteGate,
    SyncGate,
];

// How many events of the commit come first, one more event, and the byte that a crash then leaves; whether the unit is there after the
// recovery, and how many commands are acknowledged.
type Row = (usize, Line, u8, bool, usize);

// Adds the lines of a row.
fn add_lines(lines: &mut Vec<Line>, done: usize, last: Line, byte: u8) -> Result<(), Fail> {
    for line in COMMIT.iter().take(done) {
        lines.push(*line)?;
    }
    lines.extend_from_slice(&[last, Crash(byte), Recover])?;
    Ok(())
}

// Whether what is recovered is what the row says.
fn recovers(alloc: Global, row: Row) -> Result<bool, Fail> {
    let (done, last, byte, there, acknowledged) = row;
    let mut lines = Vec::new(alloc);
    add_lines(&mut lines, done, last, byte)?;
    let wanted = if there { Some(ONE) } else { None };
    goes_on(alloc, &lines, &[], &(wanted, None, None, acknowledged))
}

const CRASHES: [Row; 12] = [
    // What is left of the body does not count without the gate.
    (4, WriteBody, 0x00, false, 0),
    (4, WriteBody, 0xa5, false, 0),
    (4, WriteBody, 0xff, false, 0),
    // If the crash comes during the write of the gate, the unit is there exactly if the gate is left open.
    (6, WriteGate, 0x00, false, 0),
    (6, WriteGate, 0xa5, true, 0),
    // After the reply the unit is there.
    (8, Ack(1), 0x00, true, 1),
    (8, Ack(1), 0xa5, true, 1),
    (8, Ack(1), 0xff, true, 1),
    // Each device event fails, one at a time.
    (4, Fails, 0xa5, false, 0),
    (5, Fails, 0xa5, false, 0),
    (6, Fails, 0xa5, true, 0),
    (7, Fails, 0xa5, true, 0),
];

#[test]
fn a_crash_at_each_event(rt: HostRuntime) -> Result<(), Fail> {
    for row in &CRASHES {
        passes(recovers(rt.alloc(), *row))?;
    }
    Ok(())
}

// From a crash until the recovery nothing else is possible. A failed step answers 35, and every later commit answers 36 until a recovery.
// Then commits are possible again, and two records are recovered after two crashes in a row. The first crash leaves the gate of the first
// record open.
const FAILED: [(Line, u32); 22] = [
    (Crash(0xa5), 0),
    (Add(4, b'b', TWO), 29),
    (Take(3, 7, 0), 29),
    (Begin(1), 29),
    (SyncGate, 29),
    (Recover, 0),
    (Recover, 29),
    (Add(2, b'b', TWO), 0),
    (Make(3, 2, TWO), 0),
    (Begin(2), 0),
    (Fails, 35),
    (WriteBody, 29),
    (Add(2, b'b', ONE), 0),
    (Make(3, 2, ONE), 0),
    (Begin(2), 36),
    (Crash(0xff), 0),
    (Crash(0x00), 0),
    (Recover, 0),
    (Put(3, 2, b'b', ONE), 1),
    (Crash(0xa5), 0),
    (Crash(0x00), 0),
    (Recover, 0),
];

#[test]
fn until_the_recovery(rt: HostRuntime) -> Result<(), Fail> {
    let first = &COMMIT[..7];
    passes(goes_on(rt.alloc(), first, &FAILED, &(Some(ONE), Some(ONE), None, 1)))
}

// Nothing is recovered from a new disk.
#[test]
fn an_empty_recovery(rt: HostRuntime) -> Result<(), Fail> {
    let wanted = (None, None, None, 0);
    passes(begins(rt.alloc(), 200, &[(Crash(0xa5), 0), (Recover, 0)], &wanted))
}

// The laws of the core, for this build.
#[test]
fn whatever_a_crash_leaves() {
    survival_law::<FewPieces>();
    crash_law::<FewPieces>();
    turn_law::<FewPieces>();
}
