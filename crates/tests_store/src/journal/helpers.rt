// Disks made of bytes, and what they hold.

use cc_disk::{Disk, MemoryDisk};
use cc_journal::{Body, Journal, JournalFault, format};
use std::alloc::Global;
use std::test::Fail;

/// The size of the smallest area, and of a disk with two of them.
pub const AREA: u32 = 64;

pub const SIZE: usize = 144;

/// A settled disk with these bytes.
pub fn disk_of(alloc: Global, bytes: &[u8]) -> Result<MemoryDisk, Fail> {
    let mut disk = MemoryDisk::new(alloc, bytes.len())?;
    if bytes.len() <= disk.size() {
        disk.write_at(0, bytes)?;
    }
    disk.sync()?;
    Ok(disk)
}

/// All the bytes of a disk.
pub fn bytes_of<D: Disk>(alloc: Global, disk: &mut D) -> Result<Vec<u8>, Fail> {
    let size = disk.size();
    let mut bytes = vec![in alloc; 0u8; size]?;
    if bytes.len() <= size {
        disk.read_at(0, &mut bytes)?;
    }
    Ok(bytes)
}

/// A formatted disk of 144 bytes with areas of 64.
pub fn formatted(alloc: Global) -> Result<MemoryDisk, Fail> {
    let mut disk = MemoryDisk::new(alloc, SIZE)?;
    format(&mut disk, AREA)?;
    Ok(disk)
}

/// The 26 bytes of the worked row: header, one open record with the body 01 03 01 61, the closed gate.
pub const ROW: &[u8] = &[
    0x00, 0x43, 0x43, 0x4c, 0x49, 0x42, 0x30, 0x31, 0x40, 0x00, 0x00, 0x00, 0x00, 0x00, 0x00, 0x00,
    0xa5, 0x04, 0x00, 0x00, 0x00, 0x01, 0x03, 0x01, 0x61, 0x00,
];

/// The row's disk of 144 bytes, with some of its bytes changed.
pub fn row_disk(alloc: Global, changes: &[(usize, u8)]) -> Result<MemoryDisk, Fail> {
    let mut bytes = vec![in alloc; 0u8; SIZE]?;
    for (i, byte) in ROW.iter().enumerate() {
        if i < bytes.len() {
            bytes[i] = *byte;
        }
    }
    for (offset, byte) in changes {
        if *offset < bytes.len() {
            bytes[*offset] = *byte;
        }
    }
    disk_of(alloc, &bytes)
}

/// The bytes from one offset to another, or no bytes if the offsets are not in range.
pub fn part(bytes: &[u8], from: usize, to: usize) -> &[u8] {
    if from <= to && to <= bytes.len() {
        &bytes[from..to]
    } else {
        &[]
    }
}

/// Whether the disk has exactly these bytes.
pub fn has_bytes<D: Disk>(alloc: Global, disk: &mut D, wanted: &[u8]) -> Result<bool, Fail> {
    Ok(bytes_of(alloc, disk)?.as_slice() == wanted)
}

/// Whether the disk has these bytes, each part from its offset on.
pub fn has_parts<D: Disk>(
    alloc: Global,
    disk: &mut D,
    parts: &[(usize, &[u8])],
) -> Result<bool, Fail> {
    let bytes = bytes_of(alloc, disk)?;
    Ok(
        parts.iter().all(|(from, wanted)| part(&bytes, *from, from.saturating_add(wanted.len()))
            == *wanted),
    )
}

/// Whether the records have these bodies, in order.
pub fn are_bodies(records: &[Body], wanted: &[&[u8]]) -> bool {
    if records.len() != wanted.len() {
        return false;
    }
    for (record, bytes) in records.iter().zip(wanted) {
        if record.as_slice() != *bytes {
            return false;
        }
    }
    true
}

/// The journal on a disk.
pub fn opened<D: Disk + Drop>(alloc: Global, disk: D) -> Result<Journal<D>, Fail> {
    match Journal::open(alloc, disk) {
        Ok(journal) => Ok(journal),
        Err(_) => Err(Fail::from("not opened")),
    }
}

/// Whether the disk is opened and has records with these bodies, in order.
pub fn holds<D: Disk + Drop>(alloc: Global, disk: D, wanted: &[&[u8]]) -> bool {
    match Journal::open(alloc, disk) {
        Ok(journal) => are_bodies(journal.records(), wanted),
        Err(_) => false,
    }
}

/// The number of the fault with which the disk is refused, or 0 if it is opened.
pub fn refusal<D: Disk + Drop>(alloc: Global, disk: D) -> u32 {
    match Journal::open(alloc, disk) {
        Ok(_) => 0,
        Err((fault, _)) => fault.number(),
    }
}

/// The number of an answer, 0 for Ok.
pub fn number(answer: Result<(), JournalFault>) -> u32 {
    match answer {
        Ok(()) => 0,
        Err(fault) => fault.number(),
    }
}

/// One record with this body.
pub fn one_body(alloc: Global, bytes: &[u8]) -> Result<Vec<Body>, Fail> {
    let mut bodies = Vec::new(alloc);
    bodies.push(Body::new(Vec::from_slice(alloc, bytes)?))?;
    Ok(bodies)
}
