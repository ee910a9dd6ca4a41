// Reads ahead. Records are short, and a device call for each of their parts would cost more than the parts. So one call reads a
// window of bytes that begins at some offset, and the parts of the records there are taken from this window. A body that goes on
// after the window is completed by a call of its own, so no byte is read twice.

ghost use Rattle.std.specs.Prelude.{◌≡◌, ◌+◌, ◌-◌, ◌^◌, ◌<◌, ◌≤◌, [], List, ℕ, IsTrue, length, take, drop, IfOk, IfErr, OnOk};
ghost use Rattle.cc_disk.specs.Images.{OnlyReads};
ghost use Rattle.cc_journal.specs.internal.Reading.{IsBytesFault, Shows, counted};

use crate::fault::JournalFault;
use cc_disk::Disk;
use std::alloc::Global;

/// The largest number of bytes that are read ahead.
pub const WINDOW: usize = 65_536;

/// The bytes that were read ahead from a disk, and the offset at which they begin.
#[derive(Drop)]
pub struct Window {
    pub offset: usize,
    pub bytes: Vec<u8>,
}

impl Window {
    /// A window that shows no byte. Takes no memory.
    pub fn new(alloc: Global) -> Window
        ensures { result.bytes.items ≡ [] }
    {
        Window {
            offset: 0,
            bytes: Vec::new(alloc),
        }
    }

    /// The bytes that the window shows from this offset on.
    pub fn from(&self, offset: usize) -> &[u8]
        ensures shows { (seen : List ℕ) → Shows self.now.offset self.now.bytes.items seen → Shows offset result.now seen }
        ensures all { self.now.offset ≤ offset → length result.now ≡ length self.now.bytes.items - (offset - self.now.offset) }
    {
        if offset < self.offset || self.bytes.len() < offset - self.offset {
            return &[];
        }
        &self.bytes[offset - self.offset..]
    }

    // The first `count` bytes that the window shows from this offset on, or all of them if there are fewer.
    fn part(&self, offset: usize, count: usize) -> &[u8]
        ensures shows { (seen : List ℕ) → Shows self.now.offset self.now.bytes.items seen → Shows offset result.now seen }
        ensures most { length result.now ≤ count }
    {
        let shown = self.from(offset);
        if shown.len() < count {
            return shown;
        }
        &shown[..count]
    }

    /// Reads ahead from this offset on, but not beyond `end`, if the window shows fewer than `count` bytes from there.
    pub fn look<D: Disk>(
        &mut self,
        disk: &mut D,
        offset: usize,
        end: usize,
        count: usize,
    ) -> Result<(), JournalFault>
        requires small { count ≤ WINDOW }
        requires within { offset + count ≤ end }
        requires on_disk { end ≤ D.size disk.old }
        requires shown { IsTrue D.honest → Shows self.old.offset self.old.bytes.items (D.seen disk.old) }
        ensures size { D.size disk.new ≡ D.size disk.old }
        ensures reads { IsTrue D.honest → OnlyReads D.seen D.may_leave D.moment D.left_since disk.old disk.new }
        ensures failures { D.failures disk.new ≡ counted result (D.failures disk.old) }
        ensures shown { OnOk result (IsTrue D.honest → Shows self.new.offset self.new.bytes.items (D.seen disk.old)) }
        ensures begins { OnOk result (self.new.offset ≤ offset) }
        ensures enough { OnOk result (count ≤ length self.new.bytes.items - (offset - self.new.offset)) }
        ensures others { IfErr result IsBytesFault }
    {
        if self.offset <= offset && count <= self.from(offset).len() {
            return Ok(());
        }
        let left = end - offset;
        self.bytes.resize(left.min(WINDOW), 0)?;
        self.offset = offset;
        // What follows is read ahead, so that the next records need no device call.
        disk.read_at(offset, &mut self.bytes)?;
        Ok(())
    }

    /// The `count` bytes of the disk that begin at this offset.
    pub fn read<D: Disk>(
        &self,
        alloc: Global,
        disk: &mut D,
        offset: usize,
        count: usize,
    ) -> Result<Vec<u8>, JournalFault>
        requires on_disk { offset + count ≤ D.size disk.old }
        requires addressed { offset + count < 2 ^ 64 }
        requires shown { IsTrue D.honest → Shows self.now.offset self.now.bytes.items (D.seen disk.old) }
        ensures size { D.size disk.new ≡ D.size disk.old }
        ensures reads { IsTrue D.honest → OnlyReads D.seen D.may_leave D.moment D.left_since disk.old disk.new }
        ensures failures { D.failures disk.new ≡ counted result (D.failures disk.old) }
        ensures count { IfOk result (λ bytes. length bytes.items ≡ count) }
        ensures read { IfOk result (λ bytes. IsTrue D.honest → bytes.items ≡ take count (drop offset (D.seen disk.old))) }
        ensures others { IfErr result IsBytesFault }
    {
        let first = self.part(offset, count);
        let mut bytes = Vec::with_capacity(alloc, count)?;
        bytes.extend_from_slice(first)?;
        if first.len() == count {
            return Ok(bytes);
        }
        bytes.resize(count, 0)?;
        // What lies after the window is read into its place in the answer.
        disk.read_at(offset + first.len(), &mut bytes[first.len()..])?;
        Ok(bytes)
    }
}
