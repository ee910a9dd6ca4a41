// One commit: how records get onto the disk. Bytes are written to a place where they do not count yet, and synced. Then one byte
// is written that puts them in force, and that byte is synced. So a crash at any moment leaves the old records or the new ones.
// An `append` and a `rewrite` differ only in these bytes and their offsets.

ghost use Rattle.std.specs.Prelude.{◌≡◌, ◌+◌, ◌*◌, ◌^◌, ◌<◌, ◌≤◌, ◌++◌, List, ℕ, IsTrue, length, IfOk, OnErr, OnOk, is_ok, if◌then◌else◌};
ghost use Rattle.cc_disk.specs.Images.{LeavesAlone, LeavesOnly};
ghost use Rattle.cc_journal.specs.Format.{open_gate, records, room_of};
ghost use Rattle.cc_journal.specs.Commit.{append_commit, rewrite_commit, area_begin, other_area, behind_gate, FailsIn, IsCommitted};
ghost use Rattle.cc_journal.specs.internal.Commit.{IsMidCommit};

use crate::body::{Body, framed, put_body};
use crate::reading::HEADER;
use cc_disk::{Disk, DiskFault};
use std::alloc::{AllocError, Global};
use std::marker::Model;

/// The gate of a record that counts. Every other value is a closed gate.
pub const OPEN: u8 = 0xa5;

/// The closed gate, as it is written.
pub const CLOSED: u8 = 0;

/// What one commit writes, with the offsets: the bytes of its first write, and the one byte of its second write, which decides. A
/// clause sees both with their offsets.
#[derive(Drop)]
pub struct Commit {
    offset: usize,
    bytes: Vec<u8>,
    deciding_offset: usize,
    deciding_byte: u8,
}

impl Model for Commit {
    ghost use Rattle.cc_journal.specs.Commit as seen;

    ghost Value = { seen.Commit };

    ghost view = { λ c. record { offset = c.offset; bytes = c.bytes.items; deciding_offset = c.deciding_offset; deciding_byte = c.deciding_byte } };
}

impl Commit {
    /// The commit that writes a record with this body at the closed gate at this offset: first what comes after the record's own
    /// gate (the body's length, the body, and the next gate, closed), and then its own gate, open.
    pub fn append(alloc: Global, gate: usize, body: &[u8]) -> Result<Commit, AllocError>
        requires short { length body.now < 2 ^ 32 }
        requires fits { gate + 1 < 2 ^ 64 }
        ensures { IfOk result (λ c. c ≡ append_commit gate body.now) }
    {
        Ok(Commit::behind(gate, framed(alloc, body)?))
    }

    // Makes the commit of `append` for a body that is handed over; `into_body` hands the body back. Takes no memory if the body
    // was made by `Body::from_framed`.
    pub(crate) fn of_body(alloc: Global, gate: usize, body: Body) -> Result<Commit, AllocError>
        requires short { length body < 2 ^ 32 }
        requires fits { gate + 1 < 2 ^ 64 }
        ensures { IfOk result (λ c. c ≡ append_commit gate body) }
    {
        Ok(Commit::behind(gate, body.into_framed(alloc)?))
    }

    // The commit that writes these bytes after the closed gate at this offset, and then opens that gate.
    fn behind(gate: usize, bytes: Vec<u8>) -> Commit
        requires { gate + 1 < 2 ^ 64 }
        ensures { result ≡ record { offset = gate + 1; bytes = bytes.items; deciding_offset = gate; deciding_byte = open_gate } }
    {
        Commit {
            offset: gate + 1,
            bytes,
            deciding_offset: gate,
            deciding_byte: OPEN,
        }
    }

    // The body of the record that the commit writes. The commit must be an append.
    pub(crate) fn into_body(self) -> Body
        requires { (gate : ℕ) × (body : List ℕ) × (length body < 2 ^ 32) × (self ≡ append_commit gate body) }
        ensures { (gate : ℕ) (body : List ℕ) → self ≡ append_commit gate body → result ≡ body }
    {
        Body::from_framed(self.bytes)
    }

    /// The commit that makes these the records of a disk with this area byte and areas of `area` bytes. First it writes all
    /// records and the closed gate after them, from the beginning of the other area on, and then the area byte of the other area,
    /// 0 for A and 1 for B.
    pub fn rewrite(
        alloc: Global,
        area_byte: u8,
        area: usize,
        bodies: &[Body],
    ) -> Result<Commit, AllocError>
        requires fits { room_of bodies.now ≤ area }
        requires small { area ≤ 2 ^ 30 }
        ensures { IfOk result (λ c. c ≡ rewrite_commit area_byte area bodies.now) }
    {
        let other = other_area(area_byte);
        let mut bytes = Vec::new(alloc);
        put_records(&mut bytes, bodies)?;
        bytes.push(CLOSED)?;
        Ok(Commit {
            offset: HEADER + other as usize * area,
            bytes,
            deciding_offset: 0,
            deciding_byte: other,
        })
    }

    /// The offset of the first write.
    pub fn offset(&self) -> usize
        ensures { result ≡ self.now.offset }
    {
        self.offset
    }

    /// The bytes of the first write.
    pub fn bytes(&self) -> &[u8]
        ensures { result.now ≡ self.now.bytes }
    {
        &self.bytes
    }

    /// The offset of the byte that decides.
    pub fn deciding_offset(&self) -> usize
        ensures { result ≡ self.now.deciding_offset }
    {
        self.deciding_offset
    }

    /// The byte that decides.
    pub fn deciding_byte(&self) -> u8
        ensures { result ≡ self.now.deciding_byte }
    {
        self.deciding_byte
    }
}

/// Makes the commit: four device calls.
pub fn make<D: Disk>(disk: &mut D, commit: &Commit) -> Result<(), DiskFault>
    requires first_on_disk { commit.now.offset + length commit.now.bytes ≤ D.size disk.old }
    requires last_on_disk { commit.now.deciding_offset + 1 ≤ D.size disk.old }
    ensures size { D.size disk.new ≡ D.size disk.old }
    ensures failures { D.failures disk.new ≡ (if is_ok result then D.failures disk.old else D.failures disk.old + 1) }
    ensures committed { OnOk result (IsTrue D.honest → IsCommitted commit.now (D.seen disk.old) (D.seen disk.new)) }
    ensures alone { OnOk result (IsTrue D.honest → LeavesAlone (D.seen disk.new) (D.may_leave disk.new)) }
    // A failed commit leaves what the first write may leave, or what the deciding write may leave.
    ensures failed { OnErr result (IsTrue D.honest → LeavesAlone (D.seen disk.old) (D.may_leave disk.old) → FailsIn commit.now (D.seen disk.old) (D.may_leave disk.new)) }
    ensures moments { IsTrue D.honest → LeavesAlone (D.seen disk.old) (D.may_leave disk.old)
        → LeavesOnly D.moment D.left_since disk.old disk.new (IsMidCommit commit.now (D.seen disk.old)) }
{
    // The new bytes are after a closed gate, or in the area that is not in use: a torn write has no effect.
    disk.write_at(commit.offset(), commit.bytes())?;
    // The new bytes are settled before the deciding byte is written, so that this byte never puts torn records in force.
    disk.sync()?;
    // One byte decides. Torn or not, it has its old value or its new one: from here on all of the records count, or none.
    disk.write_at(commit.deciding_offset(), &[commit.deciding_byte()])?;
    // The decision is synced before the caller learns of it.
    disk.sync()
}

// The area byte of the other area.
fn other_area(area_byte: u8) -> u8
    ensures other { result ≡ other_area area_byte }
    ensures small { result ≤ 1 }
{
    if area_byte % 2 == 0 { 1 } else { 0 }
}

// Adds the records with these bodies, one after the other.
fn put_records(bytes: &mut Vec<u8>, bodies: &[Body]) -> Result<(), AllocError>
    requires { room_of bodies.now ≤ 2 ^ 30 }
    ensures { OnOk result (bytes.new.items ≡ bytes.old.items ++ records bodies.now) }
{
    for body in bodies {
        bytes.push(OPEN)?;
        put_body(bytes, body.as_slice())?;
    }
    Ok(())
}
