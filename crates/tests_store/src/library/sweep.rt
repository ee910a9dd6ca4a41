// Every point of failure of add, add, replace, compact, withdraw, in each mode, and a crash after each; and the same steps
// through `run`.

use crate::library::helpers::{
    Held, Step, crash_leaves, edits, formatted, next_byte, opened, refusal, steps_done,
};
use cc_disk::{FuseDisk, FuseMode, MemoryDisk};
use cc_library::Library;
use std::alloc::Global;
use std::test::Fail;
use tests_texts::verdict::{passes, row_passes};

// Three device calls to open an empty library, and four for each change and for `compact`.
const CALLS: u64 = 23;

const STEPS: [Step; 5] = [
    Step::Add(b'a', 1),
    Step::Add(b'b', 2),
    Step::Replace(b'a', 3),
    Step::Compact,
    Step::Withdraw(b'b'),
];

// What the library holds under `a` and `b` after this many of the steps.
fn map_after(done: usize) -> Held {
    match done {
        0 => (None, None),
        1 => (Some(1), None),
        2 => (Some(1), Some(2)),
        3 | 4 => (Some(3), Some(2)),
        _ => (Some(3), None),
    }
}

// A new library's disk, with a fuse in this mode that passes this many calls.
fn fused(alloc: Global, passes: u64, mode: FuseMode) -> Result<FuseDisk<MemoryDisk>, Fail> {
    Ok(FuseDisk::new(formatted(alloc, 128)?, passes, mode))
}

// Makes the steps until one is refused. The result is the disk, and how many were made.
fn changed(alloc: Global, disk: FuseDisk<MemoryDisk>) -> Result<(MemoryDisk, usize), Fail> {
    match Library::open(alloc, disk) {
        Ok(opened) => {
            let mut library = opened;
            let done = steps_done(alloc, &mut library, &STEPS)?;
            Ok((library.into_disk().into_disk(), done))
        }
        Err((_, disk)) => Ok((disk.into_disk(), 0)),
    }
}

// What a crash leaves at the places where it may leave anything: one byte everywhere, or bytes that look random.
fn choice(number: u64) -> [u8; 272] {
    let mut choice = match number {
        0 => [0; 272],
        1 => [0xa5; 272],
        _ => [0xff; 272],
    };
    let mut state = number;
    if number > 2 {
        for byte in choice.iter_mut() {
            *byte = next_byte(&mut state);
        }
    }
    choice
}

// Whether each crash leaves the map after the steps that were made, or after one more step.
fn is_right(alloc: Global, disk: &MemoryDisk, done: usize) -> Result<bool, Fail> {
    for number in 0..9u64 {
        let bytes = choice(number);
        let old = crash_leaves(alloc, disk, &bytes, map_after(done))?;
        let new = crash_leaves(alloc, disk, &bytes, map_after(done.saturating_add(1)))?;
        if !old && !new {
            return Ok(false);
        }
    }
    Ok(true)
}

// Whether each crash leaves the right map if the steps meet a fuse that passes this many calls.
fn survives(alloc: Global, calls: u64, mode: FuseMode) -> Result<bool, Fail> {
    let (disk, done) = changed(alloc, fused(alloc, calls, mode)?)?;
    Ok((done == 5 || calls < CALLS) && is_right(alloc, &disk, done)?)
}

#[test]
fn every_failure_and_a_crash(rt: HostRuntime) -> Result<(), Fail> {
    for calls in 0..CALLS + 1 {
        for mode in [FuseMode::Once, FuseMode::Before, FuseMode::Within] {
            row_passes(calls as usize, survives(rt.alloc(), calls, mode))?;
        }
    }
    Ok(())
}

// What a run of the steps over a fuse left: the disk, the number of the fault that stopped the run (0: none), how many
// numbers the run gave, and how many of these are 35.
#[derive(Drop)]
struct Ran {
    disk: MemoryDisk,
    stopped: u32,
    count: usize,
    failed: usize,
}

fn run_over(alloc: Global, passes: u64, mode: FuseMode) -> Result<Ran, Fail> {
    let edits = edits(alloc, &STEPS)?;
    let library = opened(alloc, fused(alloc, passes, mode)?)?;
    let (left, numbers) = library.run(alloc, edits);
    let count = numbers.len();
    let failed = numbers.iter().filter(|number| **number == 35).count();
    drop(numbers);
    let (disk, stopped) = match left {
        Ok(library) => (library.into_disk().into_disk(), 0),
        Err((fault, disk)) => (disk.into_disk(), fault.number()),
    };
    Ok(Ran {
        disk,
        stopped,
        count,
        failed,
    })
}

// Whether a run goes on after one failure.
fn goes_on(alloc: Global, calls: u64) -> Result<bool, Fail> {
    let ran = run_over(alloc, calls, FuseMode::Once)?;
    let right = ran.stopped == 0 && ran.count == 5 && ran.failed == usize::from(calls < CALLS);
    Ok(right && refusal(alloc, ran.disk) == 0)
}

// Whether a run stops if its disk is not opened again.
fn stops(alloc: Global, calls: u64) -> Result<bool, Fail> {
    let ran = run_over(alloc, calls, FuseMode::Before)?;
    // The last number is that of the step that met the fuse.
    let done = ran.count.saturating_sub(1);
    let right = ran.stopped == 35 && ran.failed == 1 && done as u64 == calls.saturating_sub(3) / 4;
    Ok(right && is_right(alloc, &ran.disk, done)?)
}

#[test]
fn runs_over_a_fuse(rt: HostRuntime) -> Result<(), Fail> {
    for calls in 3..CALLS {
        row_passes(calls as usize, goes_on(rt.alloc(), calls))?;
        row_passes(calls as usize, stops(rt.alloc(), calls))?;
    }
    passes(goes_on(rt.alloc(), CALLS))
}
