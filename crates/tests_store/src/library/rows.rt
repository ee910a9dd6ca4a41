// The worked rows of the library.

use crate::journal::helpers::has_parts;
use crate::library::helpers::{
    Held, Step, answers, crash_leaves, does, edits, formatted, holds, opened, recovers, with_a,
    word_unit,
};
use cc_disk::{Disk, FuseDisk, FuseMode, MemoryDisk};
use cc_library::{Library, Name};
use std::alloc::Global;
use std::test::Fail;
use tests_texts::verdict::{passes, row_passes};

// How many device calls opening a library with one record makes: a sync, a read of the header, and a read ahead of the
// records.
const OPENING: u64 = 3;

// The size of an area, steps with their numbers on a new library, what its disk then holds, and parts of the disk.
type Row = (
    u32,
    &'static [(Step, u32)],
    Held,
    &'static [(usize, &'static [u8])],
);

static ROWS: [Row; 3] = [
    (
        128,
        &[
            (Step::Add(b'a', 1), 0),
            (Step::Add(b'a', 2), 31),
            (Step::Withdraw(b'b'), 32),
            (Step::Replace(b'a', 3), 0),
        ],
        (Some(3), None),
        &[],
    ),
    // a full area: two records of 25 bytes and the closed gate leave 13 bytes: one Withdraw of 9 fits, a third unit does not
    (
        64,
        &[
            (Step::Add(b'a', 1), 0),
            (Step::Add(b'b', 2), 0),
            (Step::Add(b'c', 3), 34),
            (Step::Replace(b'a', 3), 34),
            (Step::Withdraw(b'a'), 0),
            (Step::Withdraw(b'b'), 34),
        ],
        (None, Some(2)),
        &[],
    ),
    // `compact` writes one Add per name: area B begins at 144, with an Add of `a` and one of `b`, each of 25 bytes, and a closed gate
    (
        128,
        &[
            (Step::Add(b'b', 2), 0),
            (Step::Add(b'a', 1), 0),
            (Step::Withdraw(b'b'), 0),
            (Step::Add(b'b', 4), 0),
            (Step::Compact, 0),
        ],
        (Some(1), Some(4)),
        &[
            (0, &[1]),
            (144, &[0xa5]),
            (149, &[1]),
            (150, &[1]),
            (152, b"a"),
            (169, &[0xa5]),
            (175, &[1]),
            (177, b"b"),
            (194, &[0]),
        ],
    ),
];

// The disk of a new library after these steps, once they were answered with these numbers.
fn played(alloc: Global, area: u32, steps: &[(Step, u32)]) -> Result<MemoryDisk, Fail> {
    let mut library = opened(alloc, formatted(alloc, area)?)?;
    if answers(alloc, &mut library, steps)? {
        Ok(library.into_disk())
    } else {
        Err(Fail::from("a step was answered otherwise"))
    }
}

fn is_right(alloc: Global, row: &Row) -> Result<bool, Fail> {
    let mut disk = played(alloc, row.0, row.1)?;
    let right = has_parts(alloc, &mut disk, row.3)?;
    Ok(right && recovers(alloc, disk, row.2)?)
}

// Steps that a run makes on a new library, and the numbers that it gives.
static RUN: [Step; 5] = [
    Step::Add(b'a', 1),
    Step::Add(b'a', 2),
    Step::Withdraw(b'b'),
    Step::Replace(b'a', 3),
    Step::Compact,
];

// Whether a run of steps on a new library reaches its end, with these numbers.
fn runs(alloc: Global, steps: &[Step], wanted: &[u32]) -> Result<bool, Fail> {
    let edits = edits(alloc, steps)?;
    let library = opened(alloc, formatted(alloc, 128)?)?;
    let (left, numbers) = library.run(alloc, edits);
    match left {
        Ok(library) => {
            drop(library);
            Ok(numbers.as_slice() == wanted)
        }
        Err(refused) => {
            drop(refused);
            Ok(false)
        }
    }
}

// Whether `names` are the wanted ones, in order.
fn are_names(names: &[Name], wanted: &[&[u8]]) -> bool {
    names.len() == wanted.len()
        && names
            .iter()
            .zip(wanted)
            .all(|(name, bytes)| name.bytes() == *bytes)
}

// Adds a unit under this name. The result is whether the answer is Ok.
fn is_added<D: Disk>(alloc: Global, library: &mut Library<D>, name: &[u8]) -> Result<bool, Fail> {
    let unit = word_unit(alloc, 0)?;
    Ok(library.add(alloc, Name::new(name)?, unit).is_ok())
}

// Whether a library lists `wanted` once units were added under `names`.
fn lists(alloc: Global, names: &[&[u8]], wanted: &[&[u8]]) -> Result<bool, Fail> {
    let mut library = opened(alloc, formatted(alloc, 256)?)?;
    let mut right = true;
    for name in names {
        right = right && is_added(alloc, &mut library, name)?;
    }
    Ok(right && are_names(&library.list(alloc)?, wanted))
}

#[test]
fn worked_rows(rt: HostRuntime) -> Result<(), Fail> {
    let alloc = rt.alloc();
    for number in 0..ROWS.len() {
        row_passes(number, is_right(alloc, &ROWS[number]))?;
    }
    row_passes(3, runs(alloc, RUN.as_slice(), &[0, 31, 32, 0, 0]))?;
    // names come in the order of their bytes
    let names: [&[u8]; 4] = [b"b", b"a", b"ab", b"a_"];
    row_passes(4, lists(alloc, &names, &[b"a", b"a_", b"ab", b"b"]))
}

// The disk after an Add of `b` that meets the fuse once this many of its device calls have passed, and a crash with this
// choice.
fn torn(alloc: Global, passes: u64, choice: &[u8]) -> Result<MemoryDisk, Fail> {
    let mut library = with_a(alloc, OPENING.saturating_add(passes), FuseMode::Within)?;
    if does(alloc, &mut library, Step::Add(b'b', 2))? != 35 {
        return Err(Fail::from("the fuse was not met"));
    }
    Ok(library.into_disk().into_disk().crash(alloc, choice)?)
}

// The calls that pass, what a crash leaves wherever it may leave anything, and the units that are then held.
type Cut = (u64, &'static [u8], Held);

static CUTS: [Cut; 3] = [
    // the gate decides, before it is settled
    (2, &[0xa5; 144], (Some(1), Some(2))),
    (2, &[0; 144], (Some(1), None)),
    // a torn body counts for nothing: the record of `a` ends with byte 40, the gate of the next is byte 41; after it the crash leaves a
    // whole record, Withdraw of `a`, and an open gate
    (0, WITHDRAWN, (Some(1), None)),
];

const WITHDRAWN: &[u8] = &[
    0xa5, 0xa5, 0xa5, 0xa5, 0xa5, 0xa5, 0xa5, 0xa5, 0xa5, 0xa5, 0xa5, 0xa5, 0xa5, 0xa5, 0xa5, 0xa5,
    0xa5, 0xa5, 0xa5, 0xa5, 0xa5, 0xa5, 0xa5, 0xa5, 0xa5, 0xa5, 0xa5, 0xa5, 0xa5, 0xa5, 0xa5, 0xa5,
    0xa5, 0xa5, 0xa5, 0xa5, 0xa5, 0xa5, 0xa5, 0xa5, 0xa5, 0xa5, 4, 0, 0, 0, 1, 3, 1, b'a', 0xa5,
    0xa5, 0xa5, 0xa5, 0xa5, 0xa5, 0xa5, 0xa5, 0xa5, 0xa5, 0xa5, 0xa5, 0xa5, 0xa5, 0xa5, 0xa5, 0xa5,
    0xa5, 0xa5, 0xa5, 0xa5, 0xa5, 0xa5, 0xa5, 0xa5, 0xa5, 0xa5, 0xa5, 0xa5, 0xa5, 0xa5, 0xa5, 0xa5,
    0xa5, 0xa5, 0xa5, 0xa5, 0xa5, 0xa5, 0xa5, 0xa5, 0xa5, 0xa5, 0xa5, 0xa5, 0xa5, 0xa5, 0xa5, 0xa5,
    0xa5, 0xa5, 0xa5, 0xa5, 0xa5, 0xa5, 0xa5, 0xa5, 0xa5, 0xa5, 0xa5, 0xa5, 0xa5, 0xa5, 0xa5, 0xa5,
    0xa5, 0xa5, 0xa5, 0xa5, 0xa5, 0xa5, 0xa5, 0xa5, 0xa5, 0xa5, 0xa5, 0xa5, 0xa5, 0xa5, 0xa5, 0xa5,
    0xa5, 0xa5, 0xa5, 0xa5, 0xa5, 0xa5, 0xa5, 0xa5, 0xa5, 0xa5, 0xa5, 0xa5, 0xa5,
];

fn is_torn(alloc: Global, row: &Cut) -> Result<bool, Fail> {
    recovers(alloc, torn(alloc, row.0, row.1)?, row.2)
}

// The library with `a`, closed by a `compact` whose first two device calls pass the fuse.
fn cut_off(alloc: Global) -> Result<Library<FuseDisk<MemoryDisk>>, Fail> {
    let mut library = with_a(alloc, OPENING.saturating_add(2), FuseMode::Within)?;
    if does(alloc, &mut library, Step::Compact)? != 35 {
        return Err(Fail::from("the fuse was not met"));
    }
    Ok(library)
}

// Whether a closed library still answers from its map.
fn still_answers(alloc: Global) -> Result<bool, Fail> {
    let mut library = cut_off(alloc)?;
    let steps = [
        (Step::Compact, 36),
        (Step::Add(b'b', 2), 36),
        (Step::Replace(b'a', 2), 36),
        (Step::Withdraw(b'a'), 36),
    ];
    let right = answers(alloc, &mut library, &steps)? && holds(alloc, &library, (Some(1), None))?;
    // Only one device call failed: the one that met the fuse.
    Ok(right && library.into_disk().failures() == 1)
}

#[test]
fn torn_writes(rt: HostRuntime) -> Result<(), Fail> {
    let alloc = rt.alloc();
    for number in 0..CUTS.len() {
        row_passes(number, is_torn(alloc, &CUTS[number]))?;
    }
    passes(still_answers(alloc))?;
    // the row of that `compact`: its area byte is torn, and the map is kept
    let disk = cut_off(alloc)?.into_disk().into_disk();
    for byte in 0..=255u8 {
        row_passes(
            byte as usize,
            crash_leaves(alloc, &disk, &[byte], (Some(1), None)),
        )?;
    }
    Ok(())
}
