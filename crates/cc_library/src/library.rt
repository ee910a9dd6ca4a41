// The library and its calls.

ghost use Rattle.std.specs.Prelude.{◌≡◌, ◌↔◌, ◌≤◌, ◌⊎◌, ◌+◌, [], ◌∷◌, ◌++◌, List, ℕ, false, IsTrue, IfOk, IfErr, Ok, OnOk, MatchResult};
ghost use Rattle.std.specs.Option.{option_map};
ghost use Rattle.std.specs.Arc.{arc_value};
ghost use Rattle.std.specs.FinMap as map;
ghost use Rattle.cc_disk.specs.Images.{LeavesAlone, LeavesOnly, OnlyReads};
ghost use Rattle.cc_journal.specs.Format.{AllHold, HoldsRecords};
ghost use Rattle.cc_library.specs.Change.{LibraryCommand};
ghost use Rattle.cc_library.specs.declared.command.Change.TheVariants as command;
ghost use Rattle.cc_library.specs.Apply.{after, after_all, library_of};
ghost use Rattle.cc_library.specs.Body.{body_of};
ghost use Rattle.cc_library.specs.Recovered.{Recovers, RecoversAlone, StandFor, View};
ghost use Rattle.cc_library.specs.Compact.{compacted, room_compacted};
ghost use Rattle.cc_library.specs.Space.{IsSpace};
ghost use Rattle.cc_library.specs.Answers.{OpenFaults, CompactLeaves, IsChanged, IsChangedAs, IsCompacted, IsCompactedAs, IsMended, room_with};
ghost use Rattle.cc_library.specs.Runs.{AreDone, AreEdited, EditAnswers, EditLeaves, HadNoRoom, IsEdited, IsRefused, RecoversAmong, Stopped, after_edit, records_after};
ghost use Rattle.cc_library.specs.internal.Steps.{IsOldOrNew, IsMidEdit};

use crate::body::{body_length, framed_body_of_command};
use crate::command::{Edit, LibraryCommand};
use crate::fault::LibraryFault;
use crate::name::Name;
use crate::replaying::replay;
use crate::space::SpaceUse;
use crate::unit::SharedUnit;
use crate::units::UnitMap;
use cc_disk::Disk;
use cc_journal::{JournalFault, Log};
use cc_unit::StoredUnit;
use std::alloc::{AllocError, Global};
use std::marker::Model;
use std::sync::Arc;

/// A map from names to stored units on a disk. A change survives a power cut once its call has answered Ok.
///
/// Contracts see the disk, the size of an area in bytes, the bodies of the records (the oldest first), the map that they represent, and
/// whether the library is closed.
pub struct Library<D: Disk> {
    log: Log<D>,
    units: UnitMap,
    // Whether the log is closed.
    closed: bool,
}

// Written by hand, so that crates that use this one rely on this proof and need not prove again how each part is dropped.
impl<D: Disk + Drop> Drop for Library<D> {
    fn drop(self) {
        let Library { log, units, closed } = self;
    }
}

impl<D: Disk> Model for Library<D> {
    ghost use Rattle.std.specs.Coded.{coded_ℕ, coded_list};
    ghost use Rattle.std.specs.FinMap as map;
    ghost use Rattle.cc_unit.specs.contracts.unit.StoredUnit as stored;
    ghost use Rattle.cc_library.specs.Recovered.{View, IsKept, view_code};

    ghost Value = { View D };

    ghost coded = { view_code D.code (map.code (coded_list coded_ℕ) stored.the_row.coded) };

    ghost view = { λ l. record { disk = l.log.disk; area = l.log.area; bodies = l.log.bodies; units = l.units; closed = l.closed } };

    ghost invariant = { λ l. IsKept l.log.bodies l.units l.closed l.log.closed };
}

impl<D: Disk> Library<D> {
    /// Opens the library on a disk: syncs it, reads its records, and carries out their commands in order.
    ///
    /// Refusals, in this order, with the disk handed back: 35 if the device failed during the call, 38 if there is no valid header, 37 if
    /// an open record does not fit in its area or the records are not a list of accepted commands. 40 if memory ran out.
    pub fn open(alloc: Global, disk: D) -> Result<Library<D>, (LibraryFault, D)>
        // On an honest disk, the map is the one that the disk's bytes recover to, and every image then recovers to this map alone.
        ensures recovered { IfOk result (λ l. IsTrue D.honest → Recovers (D.seen disk) l.units) }
        ensures kept { IfOk result (λ l. IsTrue D.honest → (image : List ℕ) → D.may_leave l.disk image → RecoversAlone image l.units) }
        ensures records { IfOk result (λ l. IsTrue D.honest → HoldsRecords (D.seen disk) l.area l.bodies) }
        ensures stand { IfOk result (λ l. StandFor l.bodies l.units) }
        ensures settled { IfOk result (λ l. IsTrue D.honest → LeavesAlone (D.seen l.disk) (D.may_leave l.disk)) }
        ensures open { IfOk result (λ l. l.closed ≡ false) }

        // A new journal has no records, and its map is empty.
        ensures fresh { IfOk result (λ l. IsTrue D.honest → (area : ℕ) → HoldsRecords (D.seen disk) area [] → (l.bodies ≡ []) × (l.units ≡ map.empty)) }

        // Which refusal comes, and when.
        ensures sound { IfOk result (λ l. D.failures l.disk ≡ D.failures disk) }
        ensures refused { IfErr result (λ e. OpenFaults D.honest (D.seen disk) (D.failures disk) (D.failures e.1) e.0) }

        // The disk has the same size and the same bytes, and no crash leaves anything new.
        ensures size { MatchResult result (λ l. D.size l.disk ≡ D.size disk) (λ e. D.size e.1 ≡ D.size disk) }
        ensures reads { MatchResult result
            (λ l. IsTrue D.honest → OnlyReads D.seen D.may_leave D.moment D.left_since disk l.disk)
            (λ e. IsTrue D.honest → OnlyReads D.seen D.may_leave D.moment D.left_since disk e.1) }
    {
        match Log::open(alloc, disk) {
            Ok((log, bodies)) => {
                let replayed = replay(alloc, &bodies);
                drop(bodies);
                match replayed {
                    Ok(units) => Ok(Library {
                        log,
                        units,
                        closed: false,
                    }),
                    Err(fault) => Err((fault, log.into_disk())),
                }
            }
            Err((fault, disk)) => Err((LibraryFault::from(fault), disk)),
        }
    }

    /// Makes a change, as `add`, `replace` and `withdraw` do, with the same refusals, which have the same effects.
    pub fn change(&mut self, alloc: Global, command: LibraryCommand) -> Result<(), LibraryFault>
        ensures changed { IsChanged D.Disk command self.old self.new result }
    {
        self.append_change(alloc, command)
    }

    /// Sets the unit of an absent name. After Ok the unit is kept: no crash removes it.
    ///
    /// Refusals, in this order: 36 if the library is closed, 31 if the name has a unit, 34 if the record does not fit, 35 if the
    /// device failed. 40 if memory ran out, before the first device call. Each leaves the map as it was; after 35 the library is
    /// closed, and its disk has the map with or without the unit.
    pub fn add(
        &mut self,
        alloc: Global,
        name: Name,
        unit: Arc<StoredUnit>,
    ) -> Result<(), LibraryFault>
        ensures changed { IsChanged D.Disk (command.Add name (arc_value unit)) self.old self.new result }
    {
        self.change(alloc, LibraryCommand::Add(name, SharedUnit::new(unit)))
    }

    /// Sets the unit of a present name. After Ok the new unit is kept: no crash removes it.
    ///
    /// Refusals, in this order: 36 if the library is closed, 32 if the name has no unit, 34 if the record does not fit, 35 if the
    /// device failed. 40 if memory ran out, before the first device call. Each leaves the map as it was; after 35 the library is
    /// closed, and its disk has the map with the old unit or with the new one.
    pub fn replace(
        &mut self,
        alloc: Global,
        name: Name,
        unit: Arc<StoredUnit>,
    ) -> Result<(), LibraryFault>
        ensures changed { IsChanged D.Disk (command.Replace name (arc_value unit)) self.old self.new result }
    {
        self.change(alloc, LibraryCommand::Replace(name, SharedUnit::new(unit)))
    }

    /// Removes a present name. After Ok the name is gone for good: no crash brings it back.
    ///
    /// Refusals, in this order: 36 if the library is closed, 32 if the name has no unit, 34 if the record does not fit, 35 if the device
    /// failed. 40 if memory ran out, before the first device call. Each leaves the map as it was; after 35 the library is closed, and its
    /// disk has the map with or without the name.
    pub fn withdraw(&mut self, alloc: Global, name: Name) -> Result<(), LibraryFault>
        ensures changed { IsChanged D.Disk (command.Withdraw name) self.old self.new result }
    {
        self.change(alloc, LibraryCommand::Withdraw(name))
    }

    /// Writes the records again, one Add per name in the order of the names' bytes, to the area that is not in use. This frees the room of
    /// records that no longer count. The map is the same at every moment of the call.
    ///
    /// Refusals, in this order: 36 if the library is closed, 34 if the new records do not fit, 35 if the device failed. 40 if memory ran
    /// out, before the first device call. After 35 the library is closed, and its disk has the old records or the new ones; every other
    /// refusal leaves everything as it was.
    pub fn compact(&mut self, alloc: Global) -> Result<(), LibraryFault>
        ensures compacted { IsCompacted D.Disk self.old self.new result }
    {
        self.write_anew(alloc)
    }

    /// Whether the record of this command would fit after the compacted records. After a `compact`, a change that the map accepts is
    /// refused with 34 exactly if the answer here was `false`. Takes no memory and makes no device call, but looks at each unit.
    pub fn has_room_compacted(&self, command: &LibraryCommand) -> bool
        ensures room { IsTrue result ↔ (room_compacted self.now.units command.now ≤ self.now.area) }
        // In other words, whether the record fits in the library that a `compact` leaves.
        ensures compacted { (new : View D) → CompactLeaves {T = Unit {0}} self.now new (Ok tt) → IsTrue result ↔ (room_with new command.now ≤ new.area) }
    {
        // A record takes five bytes in addition to its body.
        let room = self.log.area() - 5;
        let body = body_length(command);
        if room <= body {
            return false;
        }
        self.units.fits(room - body)
    }

    /// Whether this change would be refused with 34 now, but not after a `compact`. Takes no memory and makes no device call; looks at
    /// each unit only if the change would be refused with 34.
    pub fn is_mended_by_compact(&self, command: &LibraryCommand) -> bool
        ensures { IsTrue result ↔ IsMended self.now command.now }
    {
        if self.units.refusal(command).is_some() {
            return false;
        }
        match self.log.takes(body_length(command)) {
            Ok(()) => false,
            Err(fault) => if fault == JournalFault::Full {
                self.has_room_compacted(command)
            } else {
                false
            },
        }
    }

    /// Whether a device call has failed: after this, every change and every `compact` answers 36. This takes no memory.
    pub fn is_closed(&self) -> bool
        ensures { result ≡ self.now.closed }
    {
        self.closed
    }

    /// How much of its area the library takes. Takes no memory and makes no device call, but looks at each unit.
    pub fn space(&self) -> SpaceUse
        ensures space { IsSpace self.now.area self.now.bodies self.now.units result }
        // While the library is not closed, a crash leaves exactly these records.
        ensures kept { IsTrue D.honest → self.now.closed ≡ false → AllHold (D.may_leave self.now.disk) self.now.area self.now.bodies }
    {
        // Gives the proof what the log promises about its images.
        let _kept = self.log.is_closed();
        let size = self.log.area();
        let taken = self.log.used();
        let measured = self.units.measure();
        SpaceUse {
            area: size,
            used: taken,
            compacted: measured.0,
            units: measured.1,
        }
    }

    /// The map. This takes no memory.
    pub fn units(&self) -> &UnitMap
        ensures { result.now ≡ self.now.units }
    {
        &self.units
    }

    /// The unit of a name, if the name has one. This takes no memory.
    pub fn get(&self, name: &Name) -> Option<&Arc<StoredUnit>>
        ensures { option_map (λ unit. arc_value unit.now) result ≡ map.get self.now.units name.now }
    {
        self.units.get(name)
    }

    /// The names, in the order of their bytes. Err: memory ran out.
    pub fn list(&self, alloc: Global) -> Result<Vec<Name>, AllocError>
        ensures { IfOk result (λ names. names.items ≡ map.keys self.now.units) }
    {
        self.units.names(alloc)
    }

    /// The disk, as the calls so far have left it. This takes no memory.
    pub fn into_disk(self) -> D
        ensures { result ≡ self.disk }
    {
        let Library {
            log,
            units: _,
            closed: _,
        } = self;
        log.into_disk()
    }

    /// Carries out each edit in turn, opens the disk again after each 35, and stops if that opening is refused. The answer has the number
    /// of each edit that was carried out, in order (0 for Ok), and either the library after them, or the disk and the reason why the run
    /// stopped.
    ///
    /// Memory for all the numbers is taken first; if it runs out, the answer is 40 without numbers, and nothing was done. After that only
    /// the refusals of `open` are possible; on an honest disk these are 35 and 40.
    pub fn run(
        self,
        alloc: Global,
        edits: Vec<Edit>,
    ) -> (Result<Library<D>, (LibraryFault, D)>, Vec<u32>)
        // Each number is that of the answer to its edit.
        ensures numbers { IfOk result.0 (λ l. AreEdited D.honest D.failures self edits.items result.1.items l) }

        // The map is the earlier one after the changes with number 0, and those with 35 that the reopened disk turned out to have.
        ensures folded { IfOk result.0 (λ l. IsTrue D.honest
            → (done : List LibraryCommand) × AreDone edits.items result.1.items done × (l.units ≡ after_all self.units done)) }

        // If the run began with the empty map, the map is that of these changes alone.
        ensures from_new { IfOk result.0 (λ l. IsTrue D.honest → self.units ≡ map.empty
            → (done : List LibraryCommand) × AreDone edits.items result.1.items done × (l.units ≡ library_of done)) }

        // While the library is not closed, every image recovers to its map alone.
        ensures kept { IfOk result.0 (λ l. IsTrue D.honest → l.closed ≡ false → (image : List ℕ) → D.may_leave l.disk image → RecoversAlone image l.units) }

        // A crash at any moment of the run leaves the map after the changes of the edits up to some edit.
        ensures moments { IsTrue D.honest → self.closed ≡ false → MatchResult result.0
            (λ l. LeavesOnly D.moment D.left_since self.disk l.disk (RecoversAmong self.units edits.items result.1.items))
            (λ e. LeavesOnly D.moment D.left_since self.disk e.1 (RecoversAmong self.units edits.items result.1.items)) }

        // Why the run stopped, and after which edit.
        ensures refused { IfErr result.0 (λ e. HadNoRoom self result.1.items e.0 e.1
            ⊎ Stopped D.honest D.failures D.seen D.may_leave self edits.items result.1.items e.0 e.1) }
        ensures size { MatchResult result.0 (λ l. D.size l.disk ≡ D.size self.disk) (λ e. D.size e.1 ≡ D.size self.disk) }
    {
        // Gives the proof what the log promises about its images before the first edit.
        let _kept = self.log.is_closed();
        let Ok(mut numbers) = Vec::with_capacity(alloc, edits.len()) else {
            return (
                Err((LibraryFault::OutOfMemory, self.into_disk())),
                Vec::new(alloc),
            );
        };
        let mut library = self;
        for edit in edits {
            let (number, left) = library.edited(alloc, edit);
            numbers.push(number).unwrap();
            match left {
                Ok(left) => library = left,
                Err(refused) => return (Err(refused), numbers),
            }
        }
        // Gives the proof what the log promises about its images.
        let _kept = library.log.is_closed();
        (Ok(library), numbers)
    }

    // Carries out one edit of a run. The result is the edit's number, and the library after the edit, opened again if the device failed.
    fn edited(mut self, alloc: Global, edit: Edit) -> (u32, Result<Library<D>, (LibraryFault, D)>)
        ensures edited { IfOk result.1 (λ l. IsEdited D.honest D.failures self edit result.0 l) }
        ensures refused { IfErr result.1 (λ e. (result.0 ≡ 35) × IsRefused D.honest D.failures D.seen D.may_leave self edit e.0 e.1) }
        ensures size { MatchResult result.1 (λ l. D.size l.disk ≡ D.size self.disk) (λ e. D.size e.1 ≡ D.size self.disk) }
        ensures moments { IsTrue D.honest → self.closed ≡ false → MatchResult result.1
            (λ l. LeavesOnly D.moment D.left_since self.disk l.disk (IsMidEdit self.units edit result.0))
            (λ e. LeavesOnly D.moment D.left_since self.disk e.1 (IsMidEdit self.units edit result.0)) }
    {
        // Gives the proof what the log promises about its images, for edits that end before a device call.
        let _kept = self.log.is_closed();
        match self.perform(alloc, edit) {
            Ok(()) => (0, Ok(self)),
            Err(fault) => match fault {
                LibraryFault::DiskFault => match Library::open(alloc, self.into_disk()) {
                    Ok(library) => (35, Ok(library)),
                    Err(refused) => (35, Err(refused)),
                },
                other => (other.number(), Ok(self)),
            },
        }
    }

    // Carries out one edit.
    fn perform(&mut self, alloc: Global, edit: Edit) -> Result<(), LibraryFault>
        ensures answers { EditAnswers self.old edit (D.failures self.old.disk) (D.failures self.new.disk) result }
        ensures leaves { EditLeaves edit self.old self.new result }
        ensures size { D.size self.new.disk ≡ D.size self.old.disk }
        ensures moments { IsTrue D.honest → self.old.closed ≡ false
            → LeavesOnly D.moment D.left_since self.old.disk self.new.disk
            (IsOldOrNew self.old.area self.old.bodies self.old.units (records_after self.old edit) (after_edit self.old.units edit)) }
    {
        match edit {
            Edit::Change(command) => self.append_change(alloc, command),
            Edit::Compact => self.write_anew(alloc),
        }
    }

    // Compacts the records to one Add per name: first all memory is taken, then the log decides.
    fn write_anew(&mut self, alloc: Global) -> Result<(), LibraryFault>
        ensures compacted { IsCompactedAs D.Disk self.old self.new result
            (IsOldOrNew self.old.area self.old.bodies self.old.units (compacted self.old.units) self.old.units) }
    {
        // Gives the proof what the log promises about its images, for calls that end before a device call.
        let _kept = self.log.is_closed();
        if self.closed {
            return Err(LibraryFault::Closed);
        }
        // No body is made unless all of them fit, so that each body's length fits in four bytes.
        if !self.units.fits(self.log.area()) {
            return Err(LibraryFault::Full);
        }
        let bodies = self.units.bodies(alloc)?;
        match self.log.rewrite(alloc, bodies) {
            Ok(kept) => {
                drop(kept);
                Ok(())
            }
            Err(fault) => {
                self.closed = fault == JournalFault::DiskFault;
                Err(LibraryFault::from(fault))
            }
        }
    }

    // Makes one change: the map is asked, all memory is taken, and then the log decides.
    fn append_change(&mut self, alloc: Global, command: LibraryCommand) -> Result<(), LibraryFault>
        ensures changed { IsChangedAs D.Disk command self.old self.new result
            (IsOldOrNew self.old.area self.old.bodies self.old.units (self.old.bodies ++ body_of command ∷ []) (after self.old.units command)) }
    {
        // Gives the proof what the log promises about its images, for calls that end before a device call.
        let _kept = self.log.is_closed();
        if self.closed {
            drop(command);
            return Err(LibraryFault::Closed);
        }
        match self.units.refusal(&command) {
            None => {}
            Some(31) => {
                drop(command);
                return Err(LibraryFault::Exists);
            }
            Some(_) => {
                drop(command);
                return Err(LibraryFault::Absent);
            }
        }
        // The body is made only if it fits, so that its length fits in four bytes.
        if let Err(fault) = self.log.takes(body_length(&command)) {
            drop(command);
            return Err(LibraryFault::from(fault));
        }
        let body = framed_body_of_command(alloc, &command)?;
        self.units.begin(&command)?;
        match self.log.append(alloc, body) {
            Ok(kept) => {
                drop(kept);
                self.units.finish(command);
                Ok(())
            }
            Err(fault) => {
                self.units.undo(command);
                self.closed = fault == JournalFault::DiskFault;
                Err(LibraryFault::from(fault))
            }
        }
    }
}
