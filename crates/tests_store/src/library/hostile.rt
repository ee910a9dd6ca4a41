// Disks with three records, cut or changed.

use crate::journal::helpers::{SIZE, bytes_of, disk_of};
use crate::library::helpers::{Step, formatted, opened, recovers, refusal, steps_done};
use cc_disk::{FuseDisk, FuseMode, MemoryDisk};
use cc_library::Library;
use std::alloc::Global;
use std::test::Fail;
use tests_texts::verdict::{passes, row_passes};

// The bytes of a disk with three records, in area B if the empty library was compacted first.
fn three_records(alloc: Global, moved: bool) -> Result<Vec<u8>, Fail> {
    let mut library: Library<MemoryDisk> = opened(alloc, formatted(alloc, 64)?)?;
    let steps = [
        Step::Compact,
        Step::Add(b'a', 1),
        Step::Add(b'b', 2),
        Step::Withdraw(b'b'),
    ];
    let steps = if moved { &steps } else { &steps[1..] };
    if steps_done(alloc, &mut library, steps)? != steps.len() {
        return Err(Fail::from("not done"));
    }
    bytes_of(alloc, &mut library.into_disk())
}

fn is_handed_back(alloc: Global) -> Result<bool, Fail> {
    let disk = disk_of(alloc, &three_records(alloc, false)?)?;
    match Library::open(alloc, FuseDisk::new(disk, 0, FuseMode::Once)) {
        Ok(_) => Ok(false),
        Err((fault, fuse)) => {
            Ok(fault.number() == 35 && recovers(alloc, fuse, (Some(1), None))?)
        }
    }
}

#[test]
fn a_failure_hands_the_disk_back(rt: HostRuntime) -> Result<(), Fail> {
    passes(is_handed_back(rt.alloc()))
}

// The number of the fault with which a disk of these bytes is refused, or 0 if it is opened.
fn refusal_of(alloc: Global, bytes: &[u8]) -> Result<u32, Fail> {
    Ok(refusal(alloc, disk_of(alloc, bytes)?))
}

// Whether the disk with three records is opened, and no shorter one is.
fn has_no_prefix(alloc: Global, moved: bool) -> Result<bool, Fail> {
    let bytes = three_records(alloc, moved)?;
    let mut right = bytes.len() == SIZE && refusal_of(alloc, &bytes)? == 0;
    for length in 0..bytes.len() {
        right = right && refusal_of(alloc, &bytes[..length])? == 38;
    }
    Ok(right)
}

// The number of the fault with which this disk is refused after one byte was changed, or 0.
fn refusal_with(alloc: Global, bytes: &[u8], offset: usize, byte: u8) -> Result<u32, Fail> {
    let mut changed = Vec::from_slice(alloc, bytes)?;
    if offset < changed.len() {
        changed[offset] = byte;
    }
    refusal_of(alloc, &changed)
}

// Whether this disk, with any byte at this offset, is opened or is refused with 37 or 38.
fn are_opened_or_refused(alloc: Global, bytes: &[u8], offset: usize) -> Result<bool, Fail> {
    for byte in 0..=255u8 {
        let number = refusal_with(alloc, bytes, offset, byte)?;
        if number != 0 && number != 37 && number != 38 {
            return Ok(false);
        }
    }
    Ok(true)
}

#[test]
fn every_prefix_and_every_change_of_a_byte(rt: HostRuntime) -> Result<(), Fail> {
    for moved in [false, true] {
        passes(has_no_prefix(rt.alloc(), moved))?;
        let bytes = three_records(rt.alloc(), moved)?;
        for offset in 0..bytes.len() {
            row_passes(offset, are_opened_or_refused(rt.alloc(), &bytes, offset))?;
        }
    }
    Ok(())
}
