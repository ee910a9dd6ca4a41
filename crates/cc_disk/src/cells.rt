// The cells of a disk in memory: the byte that a read gives at each offset, and whether a crash keeps it. The bytes and the marks
// are in two vectors, so that a read, a write or a sync copies or fills whole ranges.

ghost use Rattle.std.specs.Prelude.{◌≡◌, ◌+◌, ◌≤◌, ◌++◌, false, length, take, drop, map, replicate, IfOk};
ghost use Rattle.cc_disk.specs.Model.{bytes_of, left, new_cells, settled, unsettled, written, synced, crashed};
ghost use Rattle.cc_disk.specs.File.{resized};
ghost use Rattle.cc_disk.specs.internal.Cells.{cells_of};

use std::alloc::{AllocError, Global};
use std::marker::Model;

/// The cells of a disk. A clause sees their list.
#[derive(Drop)]
pub struct Cells {
    bytes: Vec<u8>,
    settled: Vec<bool>,
}

impl Model for Cells {
    ghost use Rattle.std.specs.Prelude.{◌≡◌, List, length};
    ghost use Rattle.cc_disk.specs.Model.{Cell};
    ghost use Rattle.cc_disk.specs.internal.Cells.{cells_of};

    ghost Value = { List Cell };

    ghost view = { λ cells. cells_of cells.bytes.items cells.settled.items };

    ghost invariant = { λ cells. length cells.bytes.items ≡ length cells.settled.items };
}

impl Cells {
    /// Returns cells of zeros, all settled. `AllocError` if memory runs out.
    pub fn new(alloc: Global, size: usize) -> Result<Cells, AllocError>
        ensures cells { IfOk result (λ cells. cells ≡ new_cells size) }
    {
        Ok(Cells {
            bytes: vec![in alloc; 0u8; size]?,
            settled: vec![in alloc; true; size]?,
        })
    }

    /// Returns cells of these bytes, all settled. `AllocError` if memory runs out.
    pub fn of_bytes(alloc: Global, bytes: &[u8]) -> Result<Cells, AllocError>
        ensures cells { IfOk result (λ cells. cells ≡ map settled bytes.now) }
    {
        Ok(Cells {
            bytes: Vec::from_slice(alloc, bytes)?,
            settled: vec![in alloc; true; bytes.len()]?,
        })
    }

    /// Returns cells of the same bytes, cut to `size` or filled up with zeros, all unsettled. `AllocError` if memory runs out.
    pub fn resized(&self, alloc: Global, size: usize) -> Result<Cells, AllocError>
        ensures cells { IfOk result (λ cells. cells ≡ map unsettled (resized (bytes_of self.now) size)) }
    {
        let mut bytes = Vec::from_slice(alloc, &self.bytes)?;
        bytes.resize(size, 0)?;
        Ok(Cells {
            bytes,
            settled: vec![in alloc; false; size]?,
        })
    }

    /// How many cells there are.
    pub fn len(&self) -> usize
        ensures count { result ≡ length self.now }
    {
        self.bytes.len()
    }

    /// Returns the cells after a crash with this choice. `AllocError` if memory runs out.
    pub fn crash(&self, alloc: Global, choice: &[u8]) -> Result<Cells, AllocError>
        ensures cells { IfOk result (λ cells. cells ≡ crashed self.now choice.now) }
    {
        Ok(Cells {
            bytes: bytes_left(alloc, &self.bytes, &self.settled, choice)?,
            settled: vec![in alloc; true; self.bytes.len()]?,
        })
    }

    /// Copies the bytes that begin at `offset` into the buffer.
    pub fn read(&self, offset: usize, buffer: &mut [u8])
        requires { offset + length buffer.old ≤ length self.now }
        ensures read { buffer.new ≡ take (length buffer.old) (drop offset (bytes_of self.now)) }
    {
        copy_part(&self.bytes, offset, buffer);
    }

    /// Sets the cells that begin at `offset` to these bytes, unsettled.
    pub fn write(&mut self, offset: usize, bytes: &[u8])
        requires { offset + length bytes.now ≤ length self.old }
        ensures cells { self.new ≡ written self.old offset bytes.now }
    {
        put_part(&mut self.bytes, offset, bytes);
        clear_part(&mut self.settled, offset, bytes.len());
    }

    /// Settles every cell.
    pub fn settle(&mut self)
        ensures cells { self.new ≡ synced self.old }
    {
        self.settled.fill(true);
    }
}

// Copies the bytes that begin at `offset` into the buffer.
fn copy_part(bytes: &[u8], offset: usize, buffer: &mut [u8])
    requires { offset + length buffer.old ≤ length bytes.now }
    ensures { buffer.new ≡ take (length buffer.old) (drop offset bytes.now) }
{
    let end = offset + buffer.len();
    buffer.copy_from_slice(&bytes[offset..end]);
}

// Puts the bytes of `part` in place of those that begin at `offset`.
fn put_part(bytes: &mut [u8], offset: usize, part: &[u8])
    requires { offset + length part.now ≤ length bytes.old }
    ensures { bytes.new ≡ take offset bytes.old ++ (part.now ++ drop (offset + length part.now) bytes.old) }
{
    let end = offset + part.len();
    bytes[offset..end].copy_from_slice(part);
}

// Clears this many marks from `offset` on.
fn clear_part(marks: &mut [bool], offset: usize, count: usize)
    requires { offset + count ≤ length marks.old }
    ensures { marks.new ≡ take offset marks.old ++ (replicate count false ++ drop (offset + count) marks.old) }
{
    marks[offset..offset + count].fill(false);
}

// The bytes after a crash with this choice.
fn bytes_left(
    alloc: Global,
    bytes: &[u8],
    is_settled: &[bool],
    choice: &[u8],
) -> Result<Vec<u8>, AllocError>
    requires { length bytes.now ≡ length is_settled.now }
    ensures { IfOk result (λ after. map settled after.items ≡ crashed (cells_of bytes.now is_settled.now) choice.now) }
{
    let mut after = Vec::with_capacity(alloc, bytes.len())?;
    let mut rest = choice;
    for i in 0..bytes.len() {
        let chosen = match rest {
            [first, others @ ..] => {
                rest = others;
                *first
            }
            [] => 0,
        };
        after.push(byte_left(bytes[i], is_settled[i], chosen))?;
    }
    Ok(after)
}

// The byte after a crash that leaves the chosen byte if it can.
fn byte_left(byte: u8, is_settled: bool, chosen: u8) -> u8
    ensures { settled result ≡ left (record { byte = byte; settled = is_settled }) chosen }
{
    if is_settled { byte } else { chosen }
}
