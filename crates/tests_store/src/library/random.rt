// Disks with random records and random bytes.

use crate::journal::helpers::{bytes_of, disk_of};
use crate::library::helpers::{Held, formatted, next_byte, opened, recovers, refusal};
use cc_disk::MemoryDisk;
use cc_library::Library;
use std::alloc::Global;
use std::test::Fail;
use tests_texts::verdict::row_passes;

// A command on `a` or `b`, with the byte of its kind and the code word of its unit.
#[derive(Clone, Copy)]
struct Random {
    kind: u8,
    letter: u8,
    word: u8,
}

fn next_command(state: &mut u64) -> Random {
    Random {
        kind: 1 + next_byte(state) % 3,
        letter: b'a' + next_byte(state) % 2,
        word: next_byte(state),
    }
}

// Writes the record of a command, with its gate open.
fn put_record(bytes: &mut Vec<u8>, command: Random) -> Result<(), Fail> {
    let Random { kind, letter, word } = command;
    if kind == 3 {
        bytes.extend_from_slice(&[0xa5, 4, 0, 0, 0, 1, 3, 1, letter])?;
    } else {
        bytes.extend_from_slice(&[
            0xa5, 20, 0, 0, 0, 1, kind, 1, letter, 0, 0, 0, 0, 1, 0, 0, 0, word, 0, 0, 0, 0, 0, 0,
            0,
        ])?;
    }
    Ok(())
}

// What `a` and `b` hold after a command, if it is accepted.
fn after(held: Held, command: Random) -> Option<Held> {
    let old = if command.letter == b'a' {
        held.0
    } else {
        held.1
    };
    let new = match (command.kind, old.is_some()) {
        (1, false) | (2, true) => Some(u32::from(command.word)),
        (3, true) => None,
        _ => return None,
    };
    Some(if command.letter == b'a' {
        (new, held.1)
    } else {
        (held.0, new)
    })
}

const AREA: u32 = 256;

// The bytes of a disk with up to seven random records, and what the library must hold, or `None` if a command is refused.
fn random_records(alloc: Global, state: &mut u64) -> Result<(Vec<u8>, Option<Held>), Fail> {
    let mut bytes = bytes_of(alloc, &mut formatted(alloc, AREA)?)?;
    let size = bytes.len();
    bytes.truncate(16);
    let mut held = Some((None, None));
    for _ in 0..next_byte(state) % 8 {
        let command = next_command(state);
        let next = held.and_then(|held| after(held, command));
        // Most of the commands that would be refused are left out.
        if next.is_some() || next_byte(state) < 16 {
            put_record(&mut bytes, command)?;
            held = next;
        }
    }
    bytes.resize(size, 0)?;
    Ok((bytes, held))
}

// Whether the next disk of random records holds the map that its commands lead to, or is refused if a command is refused.
fn is_fold(alloc: Global, state: &mut u64) -> Result<bool, Fail> {
    let (bytes, held) = random_records(alloc, state)?;
    let disk = disk_of(alloc, &bytes)?;
    match held {
        Some(held) => recovers(alloc, disk, held),
        None => Ok(refusal(alloc, disk) == 37),
    }
}

#[test]
fn random_records_stand_for_their_fold(rt: HostRuntime) -> Result<(), Fail> {
    let mut state = 1u64;
    for number in 0..10_000usize {
        row_passes(number, is_fold(rt.alloc(), &mut state))?;
    }
    Ok(())
}

// Whether a disk of random records, with up to four of its bytes made random, is refused with 37 or 38, or is opened and has
// the same names after it is compacted and opened again.
fn is_opened_or_refused(alloc: Global, state: &mut u64) -> Result<bool, Fail> {
    let (mut bytes, _) = random_records(alloc, state)?;
    for _ in 0..1 + next_byte(state) % 4 {
        let at = next_byte(state) as usize;
        let byte = next_byte(state);
        if at < bytes.len() {
            bytes[at] = byte;
        }
    }
    match Library::open(alloc, disk_of(alloc, &bytes)?) {
        Ok(library) => keeps_its_names(alloc, library),
        Err((fault, _)) => Ok(fault.number() == 37 || fault.number() == 38),
    }
}

// Whether a library that is compacted and opened again has the same names.
fn keeps_its_names(alloc: Global, mut library: Library<MemoryDisk>) -> Result<bool, Fail> {
    let names = library.list(alloc)?;
    // All the records fit in an area, so the compacted records fit too.
    library.compact(alloc)?;
    let found = opened(alloc, library.into_disk())?.list(alloc)?;
    Ok(found.as_slice() == names.as_slice())
}

#[test]
fn random_bytes_are_opened_or_refused(rt: HostRuntime) -> Result<(), Fail> {
    let mut state = 2u64;
    for number in 0..10_000usize {
        row_passes(number, is_opened_or_refused(rt.alloc(), &mut state))?;
    }
    Ok(())
}
