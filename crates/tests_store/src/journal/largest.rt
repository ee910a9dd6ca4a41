// The largest area, on a disk that keeps only a few of its bytes.

use crate::journal::helpers::refusal;
use crate::journal::sparse::SparseDisk;
use cc_journal::format;
use std::alloc::Global;
use std::test::Fail;
use tests_texts::verdict::row_passes;

const AREA: usize = 1_073_741_824;

const SIZE: usize = 2_147_483_664;

// Area byte, name, area size, zeros.
const HEADER: [u8; 16] = [
    0, 0x43, 0x43, 0x4c, 0x49, 0x42, 0x30, 0x31, 0, 0, 0, 0x40, 0, 0, 0, 0,
];

// Adds these bytes, from that offset on.
fn add(kept: &mut Vec<(usize, u8)>, from: usize, bytes: &[u8]) -> Result<(), Fail> {
    for (i, byte) in bytes.iter().enumerate() {
        kept.push((from.saturating_add(i), *byte))?;
    }
    Ok(())
}

// The size of a disk and of its areas, and the number of the fault with which `format` refuses it, or 0.
type Limit = (usize, u32, u32);

static LIMITS: [Limit; 7] = [
    (144, 63, 34),
    (144, 64, 0),
    (144, 65, 34),
    (143, 64, 34),
    (SIZE, 1_073_741_824, 0),
    (SIZE - 1, 1_073_741_824, 34),
    (8_589_934_592, 1_073_741_825, 34),
];

// Whether `format` refuses a disk with that number, and otherwise writes the header of an area of this size, if it is the largest.
fn is_limit(alloc: Global, row: &Limit) -> Result<bool, Fail> {
    let (size, area, number) = *row;
    let mut kept = Vec::new(alloc);
    add(&mut kept, 0, &[9; 16])?;
    let mut disk = SparseDisk::new(kept, size);
    match format(&mut disk, area) {
        Ok(()) => Ok(number == 0 && (size != SIZE || are_bytes(disk.kept(), &HEADER))),
        Err(fault) => Ok(fault.number() == number),
    }
}

// Whether these are the kept bytes, in order.
fn are_bytes(kept: &[(usize, u8)], wanted: &[u8]) -> bool {
    let mut right = kept.len() == wanted.len();
    for ((_, byte), other) in kept.iter().zip(wanted) {
        right = right && byte == other;
    }
    right
}

// The area byte of a disk, the length of the body of the open record at the beginning of its area, and the number of the
// refusal, or 0.
type Edge = (u8, u32, u32);

static EDGES: [Edge; 6] = [
    (0, 1_073_741_819, 37),
    (0, u32::MAX, 37),
    // The record and the closed gate fit, and a body of a gigabyte fits in memory too. One byte more does not fit.
    (1, 1_073_741_818, 0),
    (1, 1_073_741_819, 37),
    (1, 1_073_741_824, 37),
    (1, u32::MAX, 37),
];

fn is_edge(alloc: Global, row: &Edge) -> Result<bool, Fail> {
    let (area_byte, length, number) = *row;
    let start = if area_byte == 0 { 16 } else { 16 + AREA };
    let [a, b, c, d] = length.to_le_bytes();
    let mut kept = Vec::new(alloc);
    add(&mut kept, 0, &HEADER)?;
    add(&mut kept, 0, &[area_byte])?;
    add(&mut kept, start, &[0xa5, a, b, c, d])?;
    Ok(refusal(alloc, SparseDisk::new(kept, SIZE)) == number)
}

#[test]
fn the_limits_of_an_area_and_of_its_records(rt: HostRuntime) -> Result<(), Fail> {
    for number in 0..LIMITS.len() {
        row_passes(number, is_limit(rt.alloc(), &LIMITS[number]))?;
    }
    for number in 0..EDGES.len() {
        row_passes(number, is_edge(rt.alloc(), &EDGES[number]))?;
    }
    Ok(())
}
