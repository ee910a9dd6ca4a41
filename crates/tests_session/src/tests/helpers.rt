// Scripts on formatted disks.

use cc_disk::MemoryDisk;
use cc_journal::format;
use cc_session::{SessionEnd, session};
use std::alloc::Global;
use std::io::{Read, Write};
use std::sync::Wait;
use std::test::Fail;
use std::thread::Threads;

/// A formatted disk with two areas of this size.
pub fn formatted(alloc: Global, area: u32) -> Result<MemoryDisk, Fail> {
    let mut disk = MemoryDisk::new(alloc, 16 + 2 * area as usize)?;
    format(&mut disk, area)?;
    Ok(disk)
}

/// Whether a session over these streams, on a disk with areas of this size, ends with this end, and gives the disk back.
pub fn ends<H, R: Read, W: Write>(
    rt: &H,
    alloc: Global,
    reader: &mut R,
    writer: &mut W,
    area: u32,
    wanted: SessionEnd,
) -> Result<bool, Fail>
where
    H: Threads + Wait + Copy + Send + 'static,
{
    let disk = formatted(alloc, area)?;
    let (disk, end) = session(rt, alloc, reader, writer, disk, 1);
    Ok(end == wanted && disk.is_some())
}

/// The answer to a script on this disk, if the session ends well and gives the disk back.
pub fn written_on<H>(
    rt: &H,
    alloc: Global,
    script: &[u8],
    disk: MemoryDisk,
) -> Result<Vec<u8>, Fail>
where
    H: Threads + Wait + Copy + Send + 'static,
{
    let mut reader = script;
    let mut written = Vec::new(alloc);
    let (disk, end) = session(rt, alloc, &mut reader, &mut written, disk, 1);
    if end != SessionEnd::Finished || disk.is_none() {
        return Err(Fail::from("not finished"));
    }
    Ok(written)
}
