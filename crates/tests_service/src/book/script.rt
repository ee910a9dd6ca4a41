// Twenty calls of two clients, with compactions between them, over a disk in memory and over one with a fuse that holds.

use crate::book::playing::{Played, play};
use crate::helpers::{formatted, opened};
use crate::model::{Call, Change, shows};
use cc_disk::{Disk, FuseDisk, FuseMode};
use std::alloc::Global;
use std::test::Fail;

const A: usize = 0;

const B: usize = 1;

const C: usize = 2;

// Both clients add, replace, withdraw and look; some calls are refused by the map.
const CALLS: [(bool, Call); 23] = [
    (true, Call::Get(A)),
    (true, Call::Make(Change::Add(B, 0))),
    (false, Call::Make(Change::Add(B, 1))),
    (false, Call::Make(Change::Add(A, 1))),
    (true, Call::List),
    (true, Call::Compact),
    (false, Call::Get(B)),
    (true, Call::Make(Change::Replace(C, 2))),
    (true, Call::Make(Change::Withdraw(C))),
    (false, Call::Make(Change::Add(C, 2))),
    (true, Call::Make(Change::Replace(A, 0))),
    (false, Call::Get(A)),
    (false, Call::Compact),
    (true, Call::Make(Change::Withdraw(B))),
    (false, Call::List),
    (false, Call::Make(Change::Replace(B, 2))),
    (true, Call::Get(B)),
    (true, Call::Make(Change::Add(B, 2))),
    (false, Call::Make(Change::Withdraw(A))),
    (true, Call::Make(Change::Add(A, 2))),
    (true, Call::Compact),
    (false, Call::List),
    (true, Call::Get(A)),
];

// Whether no call was answered 35, and the library on the disk shows the model of all.
fn is_whole<D: Disk + Drop>(alloc: Global, played: Played<D>) -> Result<bool, Fail> {
    let library = opened(alloc, played.disk)?;
    Ok(played.state.failed.is_none() && shows(alloc, &library, &played.state.model)?)
}

#[test]
fn twenty_calls_of_two_clients(rt: HostRuntime) -> Result<(), Fail> {
    let alloc = rt.alloc();
    let fuse = FuseDisk::new(formatted(alloc)?, u64::MAX, FuseMode::Once);
    assert!(rt; is_whole(alloc, play(&rt, alloc, formatted(alloc)?, &CALLS)?)?);
    assert!(rt; is_whole(alloc, play(&rt, alloc, fuse, &CALLS)?)?);
    Ok(())
}
