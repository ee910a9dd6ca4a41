// The worked rows of the journal. Each is played on a journal and on a log, which is opened again before each step or is not.

use crate::journal::helpers::{
    ROW, SIZE, are_bodies, bytes_of, formatted, holds, number, one_body, opened, part,
};
use crate::journal::logs;
use cc_disk::MemoryDisk;
use cc_journal::Journal;
use std::alloc::Global;
use std::test::Fail;
use tests_texts::verdict::row_passes;

/// What is done to a journal or a log with areas of 64 bytes.
#[derive(Clone, Copy)]
pub enum Step {
    /// The body of the worked row is added, to a log with what is around it in its record.
    Row,
    /// This body is added.
    Append(&'static [u8]),
    /// All is written again as this one body.
    Rewrite(&'static [u8]),
    /// All is written again as no body at all.
    Clear,
}

/// The body of the worked row.
pub const ROW_BODY: &[u8] = &[1, 3, 1, 0x61];

/// Steps, each with the number of the right answer, 0 for Ok.
pub type Steps = &'static [(Step, u32)];

/// Steps of a new journal, the bodies of its records after them, and what its disk then has: parts from their offsets on. A last
/// step that is refused leaves the disk as it was.
type Worked = (
    Steps,
    &'static [&'static [u8]],
    &'static [(usize, &'static [u8])],
);

// A record with a body of 58 bytes fills area A of a journal. Then all is written again as one empty record, in area B: it has an
// open gate, a body of no bytes, and a closed gate. What area A has does not count from then on.
const FULL: (Step, u32) = (Step::Append(&[7; 58]), 0);

const MOVED: (Step, u32) = (Step::Rewrite(&[]), 0);

static ROWS: [Worked; 15] = [
    (&[(Step::Row, 0)], &[ROW_BODY], &[(0, ROW)]),
    (&[(Step::Append(ROW_BODY), 0)], &[ROW_BODY], &[(0, ROW)]),
    // if 54 bytes are left, a second body of 50 bytes does not fit: it would need 55 with its gate
    (
        &[
            (Step::Row, 0),
            (Step::Append(&[2; 50]), 34),
            (Step::Append(&[2; 49]), 0),
        ],
        &[ROW_BODY, &[2; 49]],
        &[],
    ),
    (
        &[
            (Step::Append(ROW_BODY), 0),
            (Step::Append(&[2; 50]), 34),
            (Step::Append(&[2; 49]), 0),
        ],
        &[ROW_BODY, &[2; 49]],
        &[],
    ),
    (
        &[
            (Step::Append(&[0, 0]), 0),
            (Step::Append(&[1, 1]), 0),
            (Step::Append(&[2, 2]), 0),
        ],
        &[&[0, 0], &[1, 1], &[2, 2]],
        &[],
    ),
    // the longest body, and one that is too long
    (&[FULL, (Step::Append(&[]), 34)], &[&[7; 58]], &[]),
    (&[(Step::Append(&[7; 59]), 34)], &[], &[]),
    // a rewrite goes to the other area, which has its own room
    (
        &[FULL, MOVED],
        &[&[]],
        &[(0, &[1]), (80, &[0xa5, 0, 0, 0, 0, 0])],
    ),
    (&[FULL, MOVED, (Step::Append(&[1; 54]), 34)], &[&[]], &[]),
    (
        &[FULL, MOVED, (Step::Append(&[1; 53]), 0), (Step::Clear, 0)],
        &[],
        &[(0, &[0]), (16, &[0])],
    ),
    // a rewrite that does not fit
    (
        &[FULL, MOVED, (Step::Rewrite(&[1; 58]), 0)],
        &[&[1; 58]],
        &[],
    ),
    (&[FULL, MOVED, (Step::Rewrite(&[1; 59]), 34)], &[&[]], &[]),
    (&[FULL, (Step::Rewrite(&[1; 59]), 34)], &[&[7; 58]], &[]),
    (
        &[
            FULL,
            (Step::Rewrite(&[1; 59]), 34),
            MOVED,
            (Step::Append(&[1; 54]), 34),
        ],
        &[&[]],
        &[(0, &[1]), (80, &[0xa5, 0, 0, 0, 0, 0])],
    ),
    (
        &[
            FULL,
            (Step::Rewrite(&[1; 59]), 34),
            MOVED,
            (Step::Append(&[1; 54]), 34),
            (Step::Append(&[1; 53]), 0),
        ],
        &[&[], &[1; 53]],
        &[],
    ),
];

// The number of the answer to a step.
fn answer(alloc: Global, journal: &mut Journal<MemoryDisk>, step: Step) -> Result<u32, Fail> {
    match step {
        Step::Row => Ok(number(journal.append(alloc, ROW_BODY))),
        Step::Append(body) => Ok(number(journal.append(alloc, body))),
        Step::Rewrite(body) => Ok(number(journal.rewrite(alloc, one_body(alloc, body)?))),
        Step::Clear => Ok(number(journal.rewrite(alloc, Vec::new(alloc)))),
    }
}

// The disk after a step on it was answered as it has to be.
fn stepped(alloc: Global, disk: MemoryDisk, step: &(Step, u32)) -> Result<MemoryDisk, Fail> {
    let mut journal = opened(alloc, disk)?;
    if answer(alloc, &mut journal, step.0)? == step.1 {
        Ok(journal.into_disk())
    } else {
        Err(Fail::from("a step was answered otherwise"))
    }
}

// The disk of a new journal that is opened again before each of these steps.
fn reopened(alloc: Global, steps: Steps) -> Result<MemoryDisk, Fail> {
    let mut disk = formatted(alloc)?;
    for step in steps {
        disk = stepped(alloc, disk, step)?;
    }
    Ok(disk)
}

// Whether these steps are answered as they have to be, and leave these records.
fn are_done(
    alloc: Global,
    journal: &mut Journal<MemoryDisk>,
    steps: Steps,
    held: &[&[u8]],
) -> Result<bool, Fail> {
    let mut right = true;
    for (step, wanted) in steps {
        right = right && answer(alloc, journal, *step)? == *wanted;
    }
    Ok(right && are_bodies(journal.records(), held))
}

// The disk of a new journal after these steps, once they left these records.
fn played(alloc: Global, steps: Steps, held: &[&[u8]]) -> Result<MemoryDisk, Fail> {
    let mut journal = opened(alloc, formatted(alloc)?)?;
    if are_done(alloc, &mut journal, steps, held)? {
        Ok(journal.into_disk())
    } else {
        Err(Fail::from("a step was answered otherwise"))
    }
}

// What a row is played on: a journal, or a log, that is opened once, or again before each step.
#[derive(Clone, Copy)]
enum On {
    Journal,
    JournalAgain,
    Log,
    LogAgain,
}

// Whether what the row was played on finds these records on the disk.
fn are_found(alloc: Global, on: On, disk: MemoryDisk, held: &[&[u8]]) -> bool {
    match on {
        On::Journal | On::JournalAgain => holds(alloc, disk, held),
        On::Log | On::LogAgain => logs::has_records(alloc, disk, held),
    }
}

// The bytes of the disk after these steps, if its records then are these.
fn bytes_after(
    alloc: Global,
    on: On,
    steps: Steps,
    held: &[&[u8]],
) -> Result<Option<Vec<u8>>, Fail> {
    let played = match on {
        On::Journal => played(alloc, steps, held),
        On::JournalAgain => reopened(alloc, steps),
        On::Log => logs::played(alloc, steps),
        On::LogAgain => logs::reopened(alloc, steps),
    };
    let mut disk = played?;
    let bytes = bytes_of(alloc, &mut disk)?;
    if are_found(alloc, on, disk, held) {
        Ok(Some(bytes))
    } else {
        drop(bytes);
        Ok(None)
    }
}

// Whether bytes have these parts.
fn have_parts(bytes: &[u8], parts: &[(usize, &[u8])]) -> bool {
    let mut right = bytes.len() == SIZE;
    for (from, wanted) in parts {
        right = right && part(bytes, *from, from.saturating_add(wanted.len())) == *wanted;
    }
    right
}

// Whether a row is right. A last step that is refused leaves the bytes that were there before it.
fn is_right(alloc: Global, on: On, row: &Worked) -> Result<bool, Fail> {
    let Some(bytes) = bytes_after(alloc, on, row.0, row.1)? else {
        return Ok(false);
    };
    let right = have_parts(bytes.as_slice(), row.2);
    let [before @ .., (_, number)] = row.0 else {
        return Ok(false);
    };
    if *number == 0 {
        return Ok(right);
    }
    match bytes_after(alloc, on, before, row.1)? {
        Some(kept) => Ok(right && kept.as_slice() == bytes.as_slice()),
        None => Ok(false),
    }
}

#[test]
fn worked_rows(rt: HostRuntime) -> Result<(), Fail> {
    for number in 0..ROWS.len() {
        for on in [On::Journal, On::JournalAgain, On::Log, On::LogAgain] {
            row_passes(number, is_right(rt.alloc(), on, &ROWS[number]))?;
        }
    }
    Ok(())
}
