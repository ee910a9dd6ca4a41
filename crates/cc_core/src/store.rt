// The core's disk: a journal in one of the disk's two areas, written one device step at a time, with the journal's own commits.

ghost use Rattle.std.specs.Prelude.{◌≡◌, ◌↔◌, ◌+◌, ◌^◌, ◌≤◌, [], List, ℕ, IsTrue, length, IfOk, IfErr, OnOk, OnErr};
ghost use Rattle.cc_disk.specs.Model.{bytes_of, IsImage};
ghost use Rattle.cc_disk.specs.Images.{LeavesAlone};
ghost use Rattle.cc_journal.specs.Commit.{append_commit, rewrite_commit};
ghost use Rattle.cc_journal.specs.Format.{HoldsRecords, IsArea, records, room_of};
ghost use Rattle.cc_library.specs.Apply.{Units};
ghost use Rattle.cc_library.specs.Recovered.{Recovers};
ghost use Rattle.cc_core.specs.Store.{IsFormatted, gate_of, room_taken, first_written, decided, settled_all, crashed_store};
ghost use Rattle.cc_core.specs.internal.Opening.{IsFound};
ghost use Rattle.cc_core.specs.internal.Ready.{IsWithin};

use crate::opening::{Found, find};
use cc_disk::{Disk, MemoryDisk};
use cc_journal::{Body, Commit, format};
use cc_library::{LibraryFault, UnitMap};
use std::alloc::{AllocError, Global};
use std::marker::Model;

/// The bytes before the first area.
const HEADER: usize = 16;

/// A journal on a disk in memory. Contracts see the cells, the area byte, the size of an area in bytes, and the number of bytes that
/// the records take in the area that the area byte names.
#[derive(Drop)]
pub struct Store {
    disk: MemoryDisk,
    area_byte: u8,
    area: u32,
    used: usize,
}

impl Model for Store {
    ghost use Rattle.std.specs.Prelude.{◌+◌, ◌≤◌, length};
    ghost use Rattle.cc_journal.specs.Format.{IsArea};
    ghost use Rattle.cc_core.specs.StoreState.{StoreState};

    ghost Value = { StoreState };

    ghost view = { λ s. record { cells = s.disk.cells; area_byte = s.area_byte; area = s.area; used = s.used } };

    ghost invariant = { λ s. IsArea (length s.disk.cells) s.area × (s.used + 1 ≤ s.area) };
}

impl Store {
    /// A formatted disk of `16 + 2 * area` bytes, without records. Fails if memory ran out.
    pub(crate) fn new(alloc: Global, area: u32) -> Result<Store, AllocError>
        requires least { 64 ≤ area }
        requires most { area ≤ 2 ^ 30 }
        ensures { IfOk result (λ store. IsFormatted area store) }
    {
        let mut disk = MemoryDisk::new(alloc, HEADER + 2 * area as usize)?;
        format(&mut disk, area).unwrap();
        // This settles the whole disk, including the areas.
        let _ = disk.sync();
        Ok(Store {
            disk,
            area_byte: 0,
            area,
            used: 0,
        })
    }

    /// The journal on a disk that holds records, which take `used` bytes of their area. The sync here settles the whole disk.
    pub(crate) fn of_disk(mut disk: MemoryDisk, used: usize) -> Store
        requires { (area : ℕ) × (bodies : List (List ℕ)) × HoldsRecords (bytes_of disk.cells) area bodies × (used ≡ length (records bodies)) }
        ensures bytes { bytes_of result.cells ≡ bytes_of disk.cells }
        ensures alone { LeavesAlone (bytes_of result.cells) (IsImage result.cells) }
        ensures header { (area : ℕ) (bodies : List (List ℕ)) (h : HoldsRecords (bytes_of disk.cells) area bodies)
            → (area ≡ result.area) × (h.area_byte ≡ result.area_byte) }
        ensures used { result.used ≡ used }
    {
        let mut header = [0u8; HEADER];
        let _ = disk.read_at(0, &mut header);
        let _ = disk.sync();
        Store {
            disk,
            area_byte: header[0],
            area: u32::from_le_bytes([header[8], header[9], header[10], header[11]]),
            used,
        }
    }

    /// Whether a record with a body of `count` bytes fits in the area.
    pub(crate) fn fits(&self, count: usize) -> bool
        ensures { IsTrue result ↔ (self.now.used + (count + 6) ≤ self.now.area) }
    {
        let left = self.area as usize - self.used;
        6 <= left && count <= left - 6
    }

    // The offset of the closed gate after the last record.
    fn gate(&self) -> usize
        ensures gate { result ≡ gate_of self.now }
        ensures within { gate_of self.now ≤ 16 + self.now.area + self.now.used }
    {
        let begin = if self.area_byte % 2 == 0 {
            HEADER
        } else {
            HEADER + self.area as usize
        };
        begin + self.used
    }

    /// The commit that appends a record with this body. Fails if memory ran out.
    pub(crate) fn append(&self, alloc: Global, body: &[u8]) -> Result<Commit, AllocError>
        requires { room_taken self.now body.now ≤ self.now.area }
        ensures commit { IfOk result (λ commit. commit ≡ append_commit (gate_of self.now) body.now) }
        ensures within { IfOk result (λ commit. IsWithin commit self.now) }
    {
        // Gives the proof what the type keeps about the size of the disk.
        let _ = &self.disk;
        Commit::append(alloc, self.gate(), body)
    }

    /// The commit that writes one record for each of these bodies to the area that is not in use. Fails if memory ran out.
    pub(crate) fn rewrite(&self, alloc: Global, bodies: &[Body]) -> Result<Commit, AllocError>
        requires { room_of bodies.now ≤ self.now.area }
        ensures commit { IfOk result (λ commit. commit ≡ rewrite_commit self.now.area_byte self.now.area bodies.now) }
        ensures within { IfOk result (λ commit. IsWithin commit self.now) }
    {
        Commit::rewrite(alloc, self.area_byte, self.area as usize, bodies)
    }

    /// Makes the first write of a commit.
    pub(crate) fn write_first(&mut self, commit: &Commit)
        requires { IsWithin commit.now self.old }
        ensures { self.new ≡ first_written commit.now self.old }
    {
        let _ = self.disk.write_at(commit.offset(), commit.bytes());
    }

    /// Writes the deciding byte of a commit.
    pub(crate) fn decide(&mut self, commit: &Commit)
        requires { IsWithin commit.now self.old }
        ensures { self.new ≡ decided commit.now self.old }
    {
        let byte = commit.deciding_byte();
        let _ = self.disk.write_at(commit.deciding_offset(), &[byte]);
    }

    /// Settles every byte.
    pub(crate) fn sync(&mut self)
        ensures { self.new ≡ settled_all self.old }
    {
        let _ = self.disk.sync();
    }

    /// Counts this many bytes of the area as taken by records.
    pub(crate) fn set_used(&mut self, used: usize)
        requires { used + 1 ≤ self.old.area }
        ensures { self.new ≡ record self.old { used = used } }
    {
        self.used = used;
    }

    /// Switches to this area, and counts this many of its bytes as taken by records.
    pub(crate) fn take_area(&mut self, area_byte: u8, used: usize)
        requires { used + 1 ≤ self.old.area }
        ensures { self.new ≡ record self.old { area_byte = area_byte; used = used } }
    {
        self.area_byte = area_byte;
        self.used = used;
    }

    /// The number of bytes of the area that the records take.
    pub(crate) fn used(&self) -> usize
        ensures used { result ≡ self.now.used }
        ensures fits { self.now.used + 1 ≤ self.now.area }
        ensures small { self.now.area ≤ 2 ^ 30 }
    {
        self.used
    }

    /// Makes the disk crash: each unsettled offset gets the byte that `choice` has for it, or 0 if `choice` is shorter. If memory
    /// runs out, the disk stays as it was.
    pub(crate) fn crash(&mut self, alloc: Global, choice: &[u8]) -> Result<(), AllocError>
        ensures ok { OnOk result (self.new ≡ crashed_store choice.now self.old) }
        ensures err { OnErr result (self.new ≡ self.old) }
    {
        self.disk = self.disk.crash(alloc, choice)?;
        Ok(())
    }

    /// Opens a copy of the disk, and reads the map that its records represent, the area byte, and the number of bytes that the records
    /// take. The only refusal is 40 `OutOfMemory`, since the disk's bytes recover to a map.
    pub(crate) fn reopen(&self, alloc: Global) -> Result<(UnitMap, u8, usize), LibraryFault>
        requires alone { LeavesAlone (bytes_of self.now.cells) (IsImage self.now.cells) }
        requires recovers { (units : Units) × Recovers (bytes_of self.now.cells) units }
        ensures answer { IfOk result (λ found. (area : ℕ) × (bodies : List (List ℕ))
            × (is_found : IsFound (bytes_of self.now.cells) area bodies found.0 found.2) × (is_found.holds.area_byte ≡ found.1)) }
        ensures refused { IfErr result (λ fault. fault ≡ LibraryFault.OutOfMemory) }
    {
        let copy = self.disk.crash(alloc, &[])?;
        match find(alloc, copy) {
            Ok(found) => {
                let Found {
                    journal,
                    library,
                    used,
                } = found;
                let read = Store::of_disk(journal.into_disk(), used);
                let area_byte = read.area_byte;
                drop(read);
                Ok((library, area_byte, used))
            }
            Err((fault, disk)) => {
                drop(disk);
                Err(fault)
            }
        }
    }
}
