// A device that fails at each call of a script in turn: what is answered then and later, and what a crash leaves.

use crate::book::playing::{State, play};
use crate::helpers::{SIZE, formatted, opened};
use crate::model::{Call, Change, shows};
use cc_disk::{FuseDisk, FuseMode, MemoryDisk};
use std::alloc::Global;
use std::sync::Wait;
use std::test::Fail;
use std::thread::Threads;

const A: usize = 0;

const B: usize = 1;

// Five calls that change the disk, with four device calls each; then looks, which are answered from the map as it was.
const CALLS: [(bool, Call); 8] = [
    (true, Call::Make(Change::Add(A, 0))),
    (false, Call::Make(Change::Add(B, 1))),
    (true, Call::Make(Change::Replace(A, 2))),
    (true, Call::Compact),
    (false, Call::Make(Change::Withdraw(B))),
    (true, Call::Get(A)),
    (false, Call::Get(B)),
    (true, Call::List),
];

// The number of device calls that the two openings make before the first call.
const OPENING: u64 = 6;

// Whether the library on a disk after a crash has what was acknowledged, with or without the change that failed.
fn is_promised(alloc: Global, disk: MemoryDisk, state: &State) -> Result<bool, Fail> {
    let library = opened(alloc, disk)?;
    Ok(shows(alloc, &library, &state.model)? || shows(alloc, &library, &state.with)?)
}

// Plays the calls on a device that fails after `passes` of its own calls. The result is the place of the call with the answer 35, if
// there is one. It is an error if a crash leaves a map other than the promised one.
fn failed_at<R: Threads + Wait + Copy + Send + 'static>(
    rt: &R,
    alloc: Global,
    passes: u64,
    mode: FuseMode,
) -> Result<Option<usize>, Fail> {
    let played = play(
        rt,
        alloc,
        FuseDisk::new(formatted(alloc)?, passes, mode),
        &CALLS,
    )?;
    let disk = played.disk.into_disk();
    for byte in [0x00u8, 0xa5, 0xff] {
        let choice = vec![in alloc; byte; SIZE]?;
        if !is_promised(alloc, disk.crash(alloc, &choice)?, &played.state)? {
            return Err(Fail::from("another map after a crash"));
        }
    }
    Ok(played.state.failed)
}

#[test]
fn a_device_that_fails_at_each_call(rt: HostRuntime) -> Result<(), Fail> {
    for mode in [FuseMode::Once, FuseMode::Before, FuseMode::Within] {
        for call in 0..21u64 {
            let wanted = if call < 20 {
                Some(call as usize / 4)
            } else {
                None
            };
            let found = failed_at(&rt, rt.alloc(), OPENING + call, mode)?;
            assert!(rt; found == wanted, "device call {call}, {mode:?}: {found:?}");
        }
    }
    Ok(())
}
