// Disks of random bytes. Each must be read as the format says.

use crate::journal::helpers::{ROW, SIZE, are_bodies, disk_of, part};
use crate::library::helpers::next_byte;
use cc_journal::Journal;
use std::alloc::Global;
use std::test::Fail;
use tests_texts::verdict::row_passes;

// The bytes of a disk: mostly a valid header with any area byte, an open first gate, and many zeros after it.
fn random_disk(alloc: Global, state: &mut u64) -> Result<Vec<u8>, Fail> {
    let mut bytes = vec![in alloc; 0u8; SIZE]?;
    for (i, byte) in bytes.iter_mut().enumerate() {
        let chosen = next_byte(state);
        *byte = match ROW.get(i) {
            Some(right) if 0 < i && i < 16 && chosen > 2 => *right,
            _ if i < 16 => chosen,
            _ if chosen < 40 || (chosen < 192 && (i == 16 || i == 80)) => 0xa5,
            _ if chosen < 56 => chosen % 16,
            _ if chosen < 64 => chosen.wrapping_mul(37),
            _ => 0,
        };
    }
    Ok(bytes)
}

// Whether the records of an area fit in it. Adds their bodies to `bodies`.
fn bodies_in<'a>(area: &'a [u8], bodies: &mut Vec<&'a [u8]>) -> Result<bool, Fail> {
    let mut rest = area;
    for _ in 0..area.len() {
        match rest {
            [0xa5, a, b, c, d, after @ ..] => {
                let length = u32::from_le_bytes([*a, *b, *c, *d]) as usize;
                // A gate comes after the body.
                if length >= after.len() {
                    return Ok(false);
                }
                bodies.push(&after[..length])?;
                rest = &after[length..];
            }
            [0xa5, ..] => return Ok(false),
            _ => return Ok(true),
        }
    }
    Ok(false)
}

// Whether a disk of these bytes is refused with the number that the format gives, or has the records that the format
// gives.
fn is_read(alloc: Global, bytes: &[u8]) -> Result<bool, Fail> {
    let start = match bytes {
        [first, ..] if first % 2 == 1 => 80,
        _ => 16,
    };
    let mut bodies = Vec::new(alloc);
    let fits = bodies_in(part(bytes, start, start + 64), &mut bodies)?;
    let number = if part(bytes, 1, 16) != part(ROW, 1, 16) {
        38
    } else if fits {
        0
    } else {
        37
    };
    match Journal::open(alloc, disk_of(alloc, bytes)?) {
        Ok(journal) => Ok(number == 0 && are_bodies(journal.records(), &bodies)),
        Err((fault, _disk)) => Ok(number == fault.number()),
    }
}

#[test]
fn random_bytes_are_read_as_the_format_says(rt: HostRuntime) -> Result<(), Fail> {
    let mut state = 1u64;
    for number in 0..10_000usize {
        let bytes = random_disk(rt.alloc(), &mut state)?;
        row_passes(number, is_read(rt.alloc(), &bytes))?;
    }
    Ok(())
}
