// The log: the places of records on a disk, and how records get there. The log keeps no body: whoever needs the bodies keeps
// them.

ghost use Rattle.std.specs.Prelude.{◌≡◌, ◌≢◌, ◌⊎◌, ◌+◌, ◌*◌, ◌^◌, ◌<◌, ◌≤◌, ◌++◌, [], ◌∷◌, List, ℕ, true, false, IsTrue, IsNone, length, IfOk, IfErr, IfSome, MatchResult, OnOk, OnErr, IsErrOf, vec_len, vec_capacity};
ghost use Rattle.cc_disk.specs.Images.{IsWritten, LeavesAlone, LeavesOnly, OnlyReads};
ghost use Rattle.cc_journal.specs.Format.{AllHold, HasAreaByte, HoldsOldOrNew, HoldsOneOf, HoldsRecords, IsArea, record_bytes, records, room_of};
ghost use Rattle.cc_journal.specs.Commit.{FailsIn, IsCommitted, append_commit, area_begin, rewrite_commit};
ghost use Rattle.cc_journal.specs.Answers.{AppendAnswers, CommitAnswers, OpenFaults};

use crate::body::Body;
use crate::commit::{Commit, make};
use crate::fault::JournalFault;
use crate::reading::{Found, HEADER, find_records};
use cc_disk::{Disk, History};
use std::alloc::{AllocError, Global};
use std::marker::Model;

/// Records on a disk. Each is kept through a power cut once its `append` has answered Ok. The log takes no memory for them: a
/// `Journal` is a log that has its records in memory too.
///
/// A clause sees the disk, the size of an area in bytes, the records (`bodies`, the oldest first), and whether the log is closed.
/// While it is not closed, every image of an honest disk has exactly these records.
pub struct Log<D: Disk> {
    disk: D,
    // The log's records, for contracts only.
    bodies: History<Body>,
    // The offset of the area in use, its size, and how many of its bytes the records take.
    start: usize,
    area: usize,
    used: usize,
    closed: bool,
}

// Written by hand, so that crates that use this one can call it and need not prove again how each part is dropped.
impl<D: Disk + Drop> Drop for Log<D> {
    fn drop(self) {
        let Log {
            disk,
            bodies,
            start,
            area,
            used,
            closed,
        } = self;
    }
}

impl<D: Disk> Model for Log<D> {
    ghost use Rattle.cc_journal.specs.Journal.{View, IsKept};

    ghost Value = { View D };

    ghost view = { λ j. record { disk = j.disk; area = j.area; bodies = j.bodies.items; closed = j.closed } };

    ghost invariant = { λ j. IsKept D.honest (D.size j.disk) (D.seen j.disk) (D.may_leave j.disk) j.start j.area j.used j.bodies.items j.closed };
}

impl<D: Disk> Log<D> {
    /// Opens the log on a disk: syncs it, then reads its records, which it returns.
    ///
    /// Refusals, in this order, with the disk handed back: 35 if the device failed during the call, 38 if there is no valid
    /// header, 37 if an open record does not fit in its area. Also 40 if memory ran out.
    pub fn open(alloc: Global, mut disk: D) -> Result<(Log<D>, Vec<Body>), (JournalFault, D)>
        // The records that are returned are the log's.
        ensures handed { IfOk result (λ x. x.1.items ≡ x.0.bodies) }

        // On an honest disk these are the records that were found, and every image then has exactly these.
        ensures records { IfOk result (λ x. IsTrue D.honest → HoldsRecords (D.seen disk) x.0.area x.0.bodies) }
        ensures kept { IfOk result (λ x. IsTrue D.honest → AllHold (D.may_leave x.0.disk) x.0.area x.0.bodies) }
        ensures settled { IfOk result (λ x. IsTrue D.honest → LeavesAlone (D.seen x.0.disk) (D.may_leave x.0.disk)) }
        ensures open { IfOk result (λ x. x.0.closed ≡ false) }

        // For every kind of disk: there is room for the areas and for the records, and a disk of fewer than 144 bytes is not a
        // library.
        ensures room { IfOk result (λ x. IsArea (D.size disk) x.0.area × (room_of x.0.bodies ≤ x.0.area)) }
        ensures small { D.size disk < 144 → IfErr result (λ e. (e.0 ≡ JournalFault.DiskFault) ⊎ (e.0 ≡ JournalFault.NotALibrary)) }

        // Which refusal comes, and when.
        ensures sound { IfOk result (λ x. D.failures x.0.disk ≡ D.failures disk) }
        ensures refused { IfErr result (λ e. OpenFaults D.honest (D.seen disk) (D.failures disk) (D.failures e.1) e.0) }

        // The disk has the same size and the same bytes, and no crash leaves anything new.
        ensures size { MatchResult result (λ x. D.size x.0.disk ≡ D.size disk) (λ e. D.size e.1 ≡ D.size disk) }
        ensures reads { MatchResult result
            (λ x. IsTrue D.honest → OnlyReads D.seen D.may_leave D.moment D.left_since disk x.0.disk)
            (λ e. IsTrue D.honest → OnlyReads D.seen D.may_leave D.moment D.left_since disk e.1) }
    {
        match find_records(alloc, &mut disk) {
            Ok(found) => {
                let Found {
                    bodies,
                    start,
                    area,
                    used,
                } = found;
                let log = Log {
                    disk,
                    bodies: told(&bodies),
                    start,
                    area,
                    used,
                    closed: false,
                };
                Ok((log, bodies))
            }
            Err(fault) => Err((fault, disk)),
        }
    }

    /// Whether the log is closed. Takes no memory.
    pub fn is_closed(&self) -> bool
        ensures closed { result ≡ self.now.closed }
        ensures kept { IsTrue D.honest → self.now.closed ≡ false
            → AllHold (D.may_leave self.now.disk) self.now.area self.now.bodies }
    {
        // Only opening the disk again yields a log that is not closed.
        self.closed
    }

    /// The size of an area in bytes. Takes no memory.
    pub fn area(&self) -> usize
        ensures area { result ≡ self.now.area }
        ensures is_area { IsArea (D.size self.now.disk) self.now.area }
    {
        self.area
    }

    /// How many bytes of the area the records take: each takes its body and 5 bytes. The closed gate after the last one takes one
    /// more. Takes no memory.
    pub fn used(&self) -> usize
        ensures used { result ≡ length (records self.now.bodies) }
        ensures fits { room_of self.now.bodies ≤ self.now.area }
    {
        self.used
    }

    /// Whether a record with a body of this many bytes would be taken now: 36 if the log is closed, then 34 if the record does
    /// not fit. Takes no memory.
    pub fn takes(&self, count: usize) -> Result<(), JournalFault>
        ensures answers { (body : List ℕ) (failures : ℕ) → length body ≡ count
            → AppendAnswers self.now.closed self.now.area self.now.bodies body failures failures result }
        ensures short { OnOk result (count < 2 ^ 30) }
        // If no call is made, every image has the records.
        ensures still { IsTrue D.honest → self.now.closed ≡ false
            → (body : List ℕ) → LeavesOnly D.moment D.left_since self.now.disk self.now.disk (HoldsOldOrNew self.now.area self.now.bodies body) }
    {
        if self.closed {
            return Err(JournalFault::Closed);
        }
        let left = self.area - self.used;
        if left < 6 {
            return Err(JournalFault::Full);
        }
        if left - 6 < count {
            return Err(JournalFault::Full);
        }
        Ok(())
    }

    /// Adds a record with this body, and hands the body back. After Ok the record is kept: every crash from then on leaves it. A
    /// body made by `Body::from_framed` is not copied.
    ///
    /// Refusals, in this order: 36 if the log is closed; 34 if the record, which takes its body and 5 bytes, does not fit after
    /// the records, with the closed gate after it; 40 if memory ran out. These three make no device call and change nothing.
    /// Last, 35 if the device failed during the call: the log is then closed, and its disk has the old records, or those and the
    /// new one. Every refusal drops the body.
    pub fn append(&mut self, alloc: Global, body: Body) -> Result<Body, JournalFault>
        ensures answers { AppendAnswers self.old.closed self.old.area self.old.bodies body (D.failures self.old.disk) (D.failures self.new.disk) result }
        ensures size { D.size self.new.disk ≡ D.size self.old.disk }
        ensures area { self.new.area ≡ self.old.area }

        // After Ok the record comes after the old ones, and every image has exactly these records.
        ensures added { OnOk result (self.new.bodies ≡ self.old.bodies ++ body ∷ []) }
        ensures handed { IfOk result (λ kept. kept ≡ body) }
        ensures open { OnOk result (self.new.closed ≡ false) }
        ensures kept { OnOk result (IsTrue D.honest → AllHold (D.may_leave self.new.disk) self.new.area self.new.bodies) }

        // The bytes of the disk change in one range only, which then has the record, with its gate open, and a closed gate after
        // it.
        ensures bytes { OnOk result (IsTrue D.honest → (offset : ℕ)
            × IsWritten (D.seen self.old.disk) offset (record_bytes body ++ 0 ∷ []) (D.seen self.new.disk)) }

        // After Ok the disk has the bytes that this one commit makes, given the area byte that the disk had, and all of them are
        // settled.
        ensures committed { OnOk result (IsTrue D.honest → (area_byte : ℕ) → HasAreaByte (D.seen self.old.disk) area_byte self.old.area
            → IsCommitted (append_commit (area_begin area_byte self.old.area + length (records self.old.bodies)) body) (D.seen self.old.disk) (D.seen self.new.disk)
            × LeavesAlone (D.seen self.new.disk) (D.may_leave self.new.disk)) }

        // If the device failed, the disk is as a failed commit leaves it.
        ensures failed { IsErrOf result JournalFault.DiskFault → IsTrue D.honest → (area_byte : ℕ) → HasAreaByte (D.seen self.old.disk) area_byte self.old.area
            → FailsIn (append_commit (area_begin area_byte self.old.area + length (records self.old.bodies)) body) (D.seen self.old.disk) (D.may_leave self.new.disk) }

        // A refusal leaves the records as they were. If no device call was made, everything is as it was; after 35 the log is
        // closed.
        ensures leaves { OnErr result (self.new.bodies ≡ self.old.bodies) }
        ensures untouched { IfErr result (λ e. e ≢ JournalFault.DiskFault → self.new ≡ self.old) }
        ensures closes { IsErrOf result JournalFault.DiskFault → self.new.closed ≡ true }

        // A crash at any moment of the call leaves the old records, or those and the new one.
        ensures moments { IsTrue D.honest → self.old.closed ≡ false
            → LeavesOnly D.moment D.left_since self.old.disk self.new.disk (HoldsOldOrNew self.old.area self.old.bodies body) }
    {
        if self.closed {
            return Err(JournalFault::Closed);
        }
        let length = body.as_slice().len();
        if self.area - self.used < length + 6 {
            return Err(JournalFault::Full);
        }
        // All memory is taken before the first device call.
        let gate = self.start + self.used;
        let commit = Commit::of_body(alloc, gate, body)?;
        match make(&mut self.disk, &commit) {
            Ok(()) => {
                let kept = commit.into_body();
                self.used += length + 5;
                self.bodies = self.bodies.and(&kept);
                Ok(kept)
            }
            Err(_) => {
                self.closed = true;
                Err(JournalFault::DiskFault)
            }
        }
    }

    /// Makes these the records, in place of all others, and hands them back. After Ok they are kept: every crash from then on
    /// leaves them, and no others. They are written to the area that is not in use, which is in use from then on.
    ///
    /// Refusals, in this order: 36 if the log is closed; 34 if the records and their closed gate do not fit in an area; 40 if
    /// memory ran out. These three make no device call and change nothing. Last, 35 if the device failed during the call: the log
    /// is then closed, and its disk has the old records or the new ones. Every refusal drops the new records.
    pub fn rewrite(&mut self, alloc: Global, bodies: Vec<Body>) -> Result<Vec<Body>, JournalFault>
        ensures answers { CommitAnswers self.old.closed self.old.area bodies.items (D.failures self.old.disk) (D.failures self.new.disk) result }
        ensures size { D.size self.new.disk ≡ D.size self.old.disk }
        ensures area { self.new.area ≡ self.old.area }

        // After Ok these are the records, and every image has exactly these.
        ensures rewritten { OnOk result (self.new.bodies ≡ bodies.items) }
        ensures handed { IfOk result (λ kept. kept.items ≡ bodies.items) }
        ensures open { OnOk result (self.new.closed ≡ false) }
        ensures kept { OnOk result (IsTrue D.honest → AllHold (D.may_leave self.new.disk) self.new.area self.new.bodies) }

        // After Ok the disk has the bytes that this one commit makes, given the area byte that the disk had.
        ensures bytes { OnOk result (IsTrue D.honest → (area_byte : ℕ) × HasAreaByte (D.seen self.old.disk) area_byte self.old.area
            × IsCommitted (rewrite_commit area_byte self.old.area bodies.items) (D.seen self.old.disk) (D.seen self.new.disk)) }

        // After Ok the disk has those bytes whatever area byte it had, and all of the new bytes are settled.
        ensures committed { OnOk result (IsTrue D.honest → (area_byte : ℕ) → HasAreaByte (D.seen self.old.disk) area_byte self.old.area
            → IsCommitted (rewrite_commit area_byte self.old.area bodies.items) (D.seen self.old.disk) (D.seen self.new.disk)
            × LeavesAlone (D.seen self.new.disk) (D.may_leave self.new.disk)) }

        // If the device failed, the disk is as a failed commit leaves it.
        ensures failed { IsErrOf result JournalFault.DiskFault → IsTrue D.honest → (area_byte : ℕ) → HasAreaByte (D.seen self.old.disk) area_byte self.old.area
            → FailsIn (rewrite_commit area_byte self.old.area bodies.items) (D.seen self.old.disk) (D.may_leave self.new.disk) }

        // A refusal leaves the records as they were. If no device call was made, everything is as it was; after 35 the log is
        // closed.
        ensures leaves { OnErr result (self.new.bodies ≡ self.old.bodies) }
        ensures untouched { IfErr result (λ e. e ≢ JournalFault.DiskFault → self.new ≡ self.old) }
        ensures closes { IsErrOf result JournalFault.DiskFault → self.new.closed ≡ true }

        // A crash at any moment of the call leaves the old records, or the new ones.
        ensures moments { IsTrue D.honest → self.old.closed ≡ false
            → LeavesOnly D.moment D.left_since self.old.disk self.new.disk (HoldsOneOf self.old.area self.old.bodies bodies.items) }
    {
        if self.closed {
            // No device call is made: what the disk holds is not known before it is opened again.
            return Err(JournalFault::Closed);
        }
        let Some(used) = bytes_taken(&bodies, self.area) else {
            return Err(JournalFault::Full);
        };
        // All memory is taken before the first device call.
        let commit = Commit::rewrite(alloc, side(self.start), self.area, &bodies)?;
        match make(&mut self.disk, &commit) {
            Ok(()) => {
                self.start = commit.offset();
                self.used = used;
                self.bodies = told(&bodies);
                Ok(bodies)
            }
            Err(_) => {
                self.closed = true;
                Err(JournalFault::DiskFault)
            }
        }
    }

    /// The disk, as the calls so far have left it. Takes no memory.
    pub fn into_disk(self) -> D
        ensures { result ≡ self.disk }
    {
        let Log {
            disk,
            bodies: _,
            start: _,
            area: _,
            used: _,
            closed: _,
        } = self;
        disk
    }
}

// Shows these bodies to contracts; does nothing at run time.
fn told(bodies: &[Body]) -> History<Body>
    ensures { result.items ≡ bodies.now }
{
    let mut history = History::new();
    for body in bodies {
        history = history.and(body);
    }
    history
}

// The area byte of the area that begins at this offset.
fn side(start: usize) -> u8
    ensures first { start ≡ 16 → result ≡ 0 }
    ensures second { start ≢ 16 → result ≡ 1 }
{
    if start == HEADER { 0 } else { 1 }
}

// How many bytes these records take, if they and their closed gate fit in an area of this many bytes.
fn bytes_taken(bodies: &[Body], area: usize) -> Option<usize>
    requires { 1 ≤ area }
    ensures taken { IfSome result (λ used. (used ≡ length (records bodies.now)) × (room_of bodies.now ≤ area)) }
    ensures full { IsNone result → area < room_of bodies.now }
{
    let mut left = area - 1;
    for body in bodies {
        let length = body.as_slice().len();
        if left < 5 || left - 5 < length {
            return None;
        }
        left -= length + 5;
    }
    Some(area - 1 - left)
}
