// Records that reading ahead cuts in two: what is read in one call ends at each of the first bytes of a record, and within a
// body.

use crate::journal::helpers::{holds, opened};
use cc_disk::MemoryDisk;
use cc_journal::format;
use std::alloc::Global;
use std::test::Fail;
use tests_texts::verdict::passes;

// How many bytes are read ahead, from the beginning of an area, when a journal is opened.
const AHEAD: usize = 65_536;

// This many bytes, whose values depend on their places.
fn counted(alloc: Global, length: usize) -> Result<Vec<u8>, Fail> {
    let mut bytes = Vec::with_capacity(alloc, length)?;
    for i in 0..length {
        bytes.push((i % 251) as u8)?;
    }
    Ok(bytes)
}

// Whether records with bodies of these lengths are found again, in order.
fn are_found(alloc: Global, lengths: &[usize]) -> Result<bool, Fail> {
    let longest = counted(alloc, 200_000)?;
    let mut disk = MemoryDisk::new(alloc, 16 + 2 * 300_000)?;
    format(&mut disk, 300_000)?;
    let mut journal = opened(alloc, disk)?;
    let mut bodies: Vec<&[u8]> = Vec::new(alloc);
    for length in lengths {
        let Some(body) = longest.get(..*length) else {
            return Ok(false);
        };
        journal.append(alloc, body)?;
        bodies.push(body)?;
    }
    Ok(holds(alloc, journal.into_disk(), &bodies))
}

#[test]
fn a_record_behind_what_was_read_ahead(rt: HostRuntime) -> Result<(), Fail> {
    // The second record begins `before` bytes before the end of what is read ahead in the first case, and `9 - before` bytes
    // after it in the second.
    for before in 0..9usize {
        let first = AHEAD - 5 - before;
        passes(are_found(rt.alloc(), &[first, 300, 0, 7]))?;
        passes(are_found(rt.alloc(), &[first + 9, 0, 300]))?;
    }
    Ok(())
}

#[test]
fn bodies_longer_than_what_is_read_ahead(rt: HostRuntime) -> Result<(), Fail> {
    passes(are_found(rt.alloc(), &[3, AHEAD, 1, 3 * AHEAD, 2]))?;
    passes(are_found(rt.alloc(), &[AHEAD - 6, 1, AHEAD - 5, 2 * AHEAD]))
}
