// The disk in memory: the model itself, call by call. It never fails.

ghost use Rattle.std.specs.Prelude.{◌≡◌, ◌+◌, ◌-◌, ◌<◌, ◌≤◌, true, IsTrue, [], ◌∷◌, ◌++◌, length, take, drop, map, IfOk, IsOk};
ghost use Rattle.cc_disk.specs.Images.{IsWritten, UnsettlesWithin, AddsNone, LeavesAlone, Elapses};
ghost use Rattle.cc_disk.specs.Model.{bytes_of, IsImage, new_cells, written, synced, crashed};
ghost use Rattle.cc_disk.specs.Past.{LeftSince};
ghost use Rattle.cc_disk.specs.internal.Laws.{only_now_left, bytes_are_image};
ghost use Rattle.std.proofs.Common.{inl};
ghost use Rattle.std.proofs.lemmas.List.{length-map};

use crate::cells::Cells;
use crate::disk::{Disk, DiskFault};
use crate::history::History;
use std::alloc::{AllocError, Global};
use std::marker::Model;

/// A disk in memory, for tests and for runs that need no file. It is honest. Only `new` and `crash` take memory, and only they
/// can fail.
///
/// A clause sees its cells, and the states that it had before each write and each sync (`past`).
pub struct MemoryDisk {
    cells: Cells,
    // The states before each write and each sync, which only contracts read.
    past: History<Cells>,
}

// Written by hand, so that crates that use this one rely on this proof and need not prove again how each part is dropped.
impl Drop for MemoryDisk {
    fn drop(self) {
        let MemoryDisk { cells, past } = self;
    }
}

impl Model for MemoryDisk {
    ghost use Rattle.cc_disk.specs.Past.{DiskState};

    ghost Value = { DiskState };

    ghost view = { λ disk. record { cells = disk.cells; past = disk.past.items } };
}

impl MemoryDisk {
    /// Makes a disk of `size` zeros, all settled. Fails only if memory runs out (40).
    pub fn new(alloc: Global, size: usize) -> Result<MemoryDisk, AllocError>
        ensures cells { IfOk result (λ disk. disk.cells ≡ new_cells size) }
        ensures past { IfOk result (λ disk. disk.past ≡ []) }
    {
        Ok(MemoryDisk {
            cells: Cells::new(alloc, size)?,
            past: History::new(),
        })
    }

    /// Returns the disk after a crash that leaves, at each unsettled offset `i`, byte `i` of the choice, or 0 past the choice's
    /// end. All of it is settled. Fails only if memory runs out (40).
    pub fn crash(&self, alloc: Global, choice: &[u8]) -> Result<MemoryDisk, AllocError>
        ensures cells { IfOk result (λ disk. disk.cells ≡ crashed self.now.cells choice.now) }
        ensures past { IfOk result (λ disk. disk.past ≡ []) }
    {
        Ok(MemoryDisk {
            cells: self.cells.crash(alloc, choice)?,
            past: History::new(),
        })
    }
}

impl Disk for MemoryDisk {
    ghost size = { λ disk. length disk.cells };

    ghost failures = { λ disk. 0 };

    ghost honest = { true };

    ghost seen = { λ disk. bytes_of disk.cells };

    ghost may_leave = { λ disk image. IsImage disk.cells image };

    ghost moment = { λ disk. length disk.past };

    ghost left_since = { λ disk t image. LeftSince IsImage disk.cells disk.past t image };

    ghost reads = { λ old offset buffer ok after new. IsTrue ok
        × (after ≡ take (length buffer) (drop offset (bytes_of old.cells))) × (new ≡ old) };

    ghost writes = { λ old offset bytes ok new. IsTrue ok
        × (new.cells ≡ written old.cells offset bytes) × (new.past ≡ old.past ++ old.cells ∷ []) };

    ghost syncs = { λ old ok new. IsTrue ok
        × (new.cells ≡ synced old.cells) × (new.past ≡ old.past ++ old.cells ∷ []) };

    fn size(&self) -> usize {
        self.cells.len()
    }

    fn read_at(&mut self, offset: usize, buffer: &mut [u8]) -> Result<(), DiskFault>
        requires { offset + length buffer.old ≤ length self.old.cells }
        ensures answer { IsOk result }
        ensures read { buffer.new ≡ take (length buffer.old) (drop offset (bytes_of self.old.cells)) }
        ensures same { self.new ≡ self.old }
    {
        self.cells.read(offset, buffer);
        Ok(())
    }

    fn write_at(&mut self, offset: usize, bytes: &[u8]) -> Result<(), DiskFault>
        requires { offset + length bytes.now ≤ length self.old.cells }
        ensures answer { IsOk result }
        ensures cells { self.new.cells ≡ written self.old.cells offset bytes.now }
        ensures past { self.new.past ≡ self.old.past ++ self.old.cells ∷ [] }
        ensures size { length self.new.cells ≡ length self.old.cells }
        ensures written { IsWritten (bytes_of self.old.cells) offset bytes.now (bytes_of self.new.cells) }
        ensures images { UnsettlesWithin offset (length bytes.now) (IsImage self.old.cells) (IsImage self.new.cells) }
        ensures time { Elapses (length self.old.past) (length self.new.past)
            (LeftSince IsImage self.old.cells self.old.past)
            (LeftSince IsImage self.new.cells self.new.past) (IsImage self.new.cells) }
    {
        self.past = self.past.and(&self.cells);
        self.cells.write(offset, bytes);
        Ok(())
    }

    fn sync(&mut self) -> Result<(), DiskFault>
        ensures answer { IsOk result }
        ensures cells { self.new.cells ≡ synced self.old.cells }
        ensures past { self.new.past ≡ self.old.past ++ self.old.cells ∷ [] }
        ensures size { length self.new.cells ≡ length self.old.cells }
        ensures settled { LeavesAlone (bytes_of self.old.cells) (IsImage self.new.cells) }
        ensures seen { bytes_of self.new.cells ≡ bytes_of self.old.cells }
        ensures images { AddsNone (IsImage self.old.cells) (IsImage self.new.cells) }
        ensures time { Elapses (length self.old.past) (length self.new.past)
            (LeftSince IsImage self.old.cells self.old.past)
            (LeftSince IsImage self.new.cells self.new.past) (IsImage self.new.cells) }
    {
        self.past = self.past.and(&self.cells);
        self.cells.settle();
        Ok(())
    }

    fn failures(&self) -> u64 {
        0
    }

    ghost has_size = { λ disk h. length-map disk.cells (λ c. c.byte) };

    ghost seen_is_image = { λ disk h. bytes_are_image disk.cells };

    ghost counts_now = { λ disk t image h le now. inl now };

    ghost only_now = { λ disk image h left. only_now_left IsImage disk.cells disk.past image left };
}
