// The journal and its calls.

ghost use Rattle.std.specs.Prelude.{◌≡◌, ◌≢◌, ◌⊎◌, ◌+◌, ◌*◌, ◌^◌, ◌<◌, ◌≤◌, ◌++◌, [], ◌∷◌, List, ℕ, true, false, IsTrue, IsNone, length, IfOk, IfErr, IfSome, MatchResult, OnOk, OnErr, IsErrOf, vec_len, vec_capacity};
ghost use Rattle.cc_disk.specs.Images.{IsWritten, LeavesAlone, LeavesOnly, OnlyReads};
ghost use Rattle.cc_journal.specs.Format.{AllHold, HasAreaByte, HoldsOldOrNew, HoldsOneOf, HoldsRecords, IsArea, record_bytes, records, room_of};
ghost use Rattle.cc_journal.specs.Commit.{IsCommitted, append_commit, area_begin, rewrite_commit};
ghost use Rattle.cc_journal.specs.Answers.{AppendAnswers, CommitAnswers, OpenFaults};

use crate::body::{Body, framed};
use crate::fault::JournalFault;
use crate::log::Log;
use cc_disk::Disk;
use std::alloc::{AllocError, Global};
use std::marker::Model;

/// Records on a disk. Each is kept through a power cut once its `append` has answered Ok.
///
/// A clause sees the disk, the size of an area in bytes, the records (`bodies`, the oldest first), and whether the journal is
/// closed. While it is not closed, every image of an honest disk has exactly these records.
pub struct Journal<D: Disk> {
    log: Log<D>,
    bodies: Vec<Body>,
}

// Written by hand, so that crates that use this one can call it and need not prove again how each part is dropped.
impl<D: Disk + Drop> Drop for Journal<D> {
    fn drop(self) {
        let Journal { log, bodies } = self;
    }
}

impl<D: Disk> Model for Journal<D> {
    ghost use Rattle.std.specs.Prelude.{◌≡◌};
    ghost use Rattle.cc_journal.specs.Journal.{View};

    ghost Value = { View D };

    ghost view = { λ j. j.log };

    ghost invariant = { λ j. j.bodies.items ≡ j.log.bodies };
}

impl<D: Disk> Journal<D> {
    /// Opens the journal on a disk: syncs it, then reads its records.
    ///
    /// Refusals, in this order, with the disk handed back: 35 if the device failed during the call, 38 if there is no valid
    /// header, 37 if an open record does not fit in its area. Also 40 if memory ran out.
    pub fn open(alloc: Global, disk: D) -> Result<Journal<D>, (JournalFault, D)>
        // On an honest disk these are the records that were found, and every image then has exactly these.
        ensures records { IfOk result (λ j. IsTrue D.honest → HoldsRecords (D.seen disk) j.area j.bodies) }
        ensures kept { IfOk result (λ j. IsTrue D.honest → AllHold (D.may_leave j.disk) j.area j.bodies) }
        ensures open { IfOk result (λ j. j.closed ≡ false) }

        // For every kind of disk: there is room for the areas and for the records, and a disk of fewer than 144 bytes is not a
        // library.
        ensures room { IfOk result (λ j. IsArea (D.size disk) j.area × (room_of j.bodies ≤ j.area)) }
        ensures small { D.size disk < 144 → IfErr result (λ e. (e.0 ≡ JournalFault.DiskFault) ⊎ (e.0 ≡ JournalFault.NotALibrary)) }

        // Which refusal comes, and when.
        ensures sound { IfOk result (λ j. D.failures j.disk ≡ D.failures disk) }
        ensures refused { IfErr result (λ e. OpenFaults D.honest (D.seen disk) (D.failures disk) (D.failures e.1) e.0) }

        // The disk has the same size and the same bytes, and no crash leaves anything new.
        ensures size { MatchResult result (λ j. D.size j.disk ≡ D.size disk) (λ e. D.size e.1 ≡ D.size disk) }
        ensures reads { MatchResult result
            (λ j. IsTrue D.honest → OnlyReads D.seen D.may_leave D.moment D.left_since disk j.disk)
            (λ e. IsTrue D.honest → OnlyReads D.seen D.may_leave D.moment D.left_since disk e.1) }
    {
        match Log::open(alloc, disk) {
            Ok((log, bodies)) => Ok(Journal { log, bodies }),
            Err(refused) => Err(refused),
        }
    }

    /// The records, the oldest first. Takes no memory.
    pub fn records(&self) -> &[Body]
        ensures records { result.now ≡ self.now.bodies }
        ensures kept { IsTrue D.honest → self.now.closed ≡ false
            → AllHold (D.may_leave self.now.disk) self.now.area self.now.bodies }
    {
        // Gives the proof what the log promises about its images.
        let _kept = self.log.is_closed();
        &self.bodies
    }

    /// Adds a record with this body. After Ok the record is kept: every crash from then on leaves it.
    ///
    /// Refusals, in this order: 36 if the journal is closed; 34 if the record (5 bytes more than its body) and the closed gate
    /// after it do not fit after the records; 40 if memory ran out. These three make no device call and change nothing. Last, 35
    /// if the device failed during the call: the journal is then closed, and its disk has the old records, or those and the new
    /// one.
    pub fn append(&mut self, alloc: Global, body: &[u8]) -> Result<(), JournalFault>
        ensures answers { AppendAnswers self.old.closed self.old.area self.old.bodies body.now (D.failures self.old.disk) (D.failures self.new.disk) result }
        ensures size { D.size self.new.disk ≡ D.size self.old.disk }
        ensures area { self.new.area ≡ self.old.area }

        // After Ok the record comes after the old ones, and every image has exactly these records.
        ensures added { OnOk result (self.new.bodies ≡ self.old.bodies ++ body.now ∷ []) }
        ensures open { OnOk result (self.new.closed ≡ false) }
        ensures kept { OnOk result (IsTrue D.honest → AllHold (D.may_leave self.new.disk) self.new.area self.new.bodies) }

        // The bytes of the disk change in one range only, which then has the record, with its gate open, and a closed gate after
        // it.
        ensures bytes { OnOk result (IsTrue D.honest → (offset : ℕ)
            × IsWritten (D.seen self.old.disk) offset (record_bytes body.now ++ 0 ∷ []) (D.seen self.new.disk)) }

        // A refusal leaves the records as they were. If no device call was made, everything is as it was; after 35 the journal is
        // closed.
        ensures leaves { OnErr result (self.new.bodies ≡ self.old.bodies) }
        ensures untouched { IfErr result (λ e. e ≢ JournalFault.DiskFault → self.new ≡ self.old) }
        ensures closes { IsErrOf result JournalFault.DiskFault → self.new.closed ≡ true }

        // A crash at any moment of the call leaves the old records, or those and the new one.
        ensures moments { IsTrue D.honest → self.old.closed ≡ false
            → LeavesOnly D.moment D.left_since self.old.disk self.new.disk (HoldsOldOrNew self.old.area self.old.bodies body.now) }
    {
        self.log.takes(body.len())?;
        let bytes = framed(alloc, body)?;
        self.append_body(alloc, Body::from_framed(bytes))
    }

    /// Does the same as `append` for a body that is handed over. The body is not copied to be kept; a body made by
    /// `Body::from_framed` is not copied to be written either. Every refusal drops it.
    pub fn append_body(&mut self, alloc: Global, body: Body) -> Result<(), JournalFault>
        ensures answers { AppendAnswers self.old.closed self.old.area self.old.bodies body (D.failures self.old.disk) (D.failures self.new.disk) result }
        ensures size { D.size self.new.disk ≡ D.size self.old.disk }
        ensures area { self.new.area ≡ self.old.area }

        // After Ok the record comes after the old ones, and every image has exactly these records.
        ensures added { OnOk result (self.new.bodies ≡ self.old.bodies ++ body ∷ []) }
        ensures open { OnOk result (self.new.closed ≡ false) }
        ensures kept { OnOk result (IsTrue D.honest → AllHold (D.may_leave self.new.disk) self.new.area self.new.bodies) }

        // The bytes of the disk change in one range only, which then has the record, with its gate open, and a closed gate after
        // it.
        ensures bytes { OnOk result (IsTrue D.honest → (offset : ℕ)
            × IsWritten (D.seen self.old.disk) offset (record_bytes body ++ 0 ∷ []) (D.seen self.new.disk)) }

        // A refusal leaves the records as they were. If no device call was made, everything is as it was; after 35 the journal is
        // closed.
        ensures leaves { OnErr result (self.new.bodies ≡ self.old.bodies) }
        ensures untouched { IfErr result (λ e. e ≢ JournalFault.DiskFault → self.new ≡ self.old) }
        ensures closes { IsErrOf result JournalFault.DiskFault → self.new.closed ≡ true }

        // A crash at any moment of the call leaves the old records, or those and the new one.
        ensures moments { IsTrue D.honest → self.old.closed ≡ false
            → LeavesOnly D.moment D.left_since self.old.disk self.new.disk (HoldsOldOrNew self.old.area self.old.bodies body) }
    {
        self.log.takes(body.as_slice().len())?;
        // All memory is taken before the first device call.
        self.bodies.reserve(1)?;
        let kept = self.log.append(alloc, body)?;
        self.bodies.push(kept).unwrap();
        Ok(())
    }

    /// Makes these the records, in place of all others. After Ok they are kept: every crash from then on leaves them, and no
    /// others. They are written to the area that is not in use, which is in use from then on.
    ///
    /// Refusals, in this order: 36 if the journal is closed; 34 if the records and their closed gate do not fit in an area; 40 if
    /// memory ran out. These three make no device call and change nothing. Last, 35 if the device failed during the call: the
    /// journal is then closed, and its disk has the old records or the new ones. Every refusal drops the new records.
    pub fn rewrite(&mut self, alloc: Global, bodies: Vec<Body>) -> Result<(), JournalFault>
        ensures answers { CommitAnswers self.old.closed self.old.area bodies.items (D.failures self.old.disk) (D.failures self.new.disk) result }
        ensures size { D.size self.new.disk ≡ D.size self.old.disk }
        ensures area { self.new.area ≡ self.old.area }

        // After Ok these are the records, and every image has exactly these.
        ensures rewritten { OnOk result (self.new.bodies ≡ bodies.items) }
        ensures open { OnOk result (self.new.closed ≡ false) }
        ensures kept { OnOk result (IsTrue D.honest → AllHold (D.may_leave self.new.disk) self.new.area self.new.bodies) }

        // After Ok the disk has the bytes that this one commit makes, given the area byte that the disk had.
        ensures bytes { OnOk result (IsTrue D.honest → (area_byte : ℕ) × HasAreaByte (D.seen self.old.disk) area_byte self.old.area
            × IsCommitted (rewrite_commit area_byte self.old.area bodies.items) (D.seen self.old.disk) (D.seen self.new.disk)) }

        // A refusal leaves the records as they were. If no device call was made, everything is as it was; after 35 the journal is
        // closed.
        ensures leaves { OnErr result (self.new.bodies ≡ self.old.bodies) }
        ensures untouched { IfErr result (λ e. e ≢ JournalFault.DiskFault → self.new ≡ self.old) }
        ensures closes { IsErrOf result JournalFault.DiskFault → self.new.closed ≡ true }

        // A crash at any moment of the call leaves the old records, or the new ones.
        ensures moments { IsTrue D.honest → self.old.closed ≡ false
            → LeavesOnly D.moment D.left_since self.old.disk self.new.disk (HoldsOneOf self.old.area self.old.bodies bodies.items) }
    {
        self.bodies = self.log.rewrite(alloc, bodies)?;
        Ok(())
    }

    /// The disk, as the calls so far have left it. Takes no memory.
    pub fn into_disk(self) -> D
        ensures { result ≡ self.disk }
    {
        let Journal { log, bodies: _ } = self;
        log.into_disk()
    }
}
