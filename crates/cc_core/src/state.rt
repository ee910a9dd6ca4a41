// The machine: a state, the step that an event takes, and the runs that lead from a beginning to a state.

ghost use Rattle.std.specs.Prelude.{◌≡◌, ◌≢◌, ◌↔◌, ◌≤◌, ◌^◌, true, ℕ, Option, IfOk, IfErr, OnErr, OnOk, IsErrOf, All, Contains, List};
ghost use Rattle.std.specs.FinMap.{empty};
ghost use Rattle.cc_disk.specs.Model.{bytes_of, IsImage};
ghost use Rattle.cc_disk.specs.Images.{AddsNone};
ghost use Rattle.cc_journal.specs.Format.{HoldsRecords};
ghost use Rattle.cc_library.specs.Answers.{OpenFaults};
ghost use Rattle.cc_library.specs.Apply.{AreAccepted, Units};
ghost use Rattle.cc_library.specs.Recovered.{Recovers};
ghost use Rattle.cc_core.specs.declared.contents.Contents.{Contents};
ghost use Rattle.cc_core.specs.declared.event.Event.{Event};
ghost use Rattle.cc_core.specs.declared.command.Numbered.{Numbered};
ghost use Rattle.cc_core.specs.declared.command.Reply.{Reply};
ghost use Rattle.cc_core.specs.declared.contents.Core.{Core};
ghost use Rattle.cc_core.specs.declared.contents.Phase.TheVariants.{Idle};
ghost use Rattle.cc_core.specs.Step.{Step, IsImpossible, IsStart, commands};
ghost use Rattle.cc_core.specs.Run.{Turn, Run, EachUnit, EachImageSurvives, EachImageIsRight, PutsCommand, HandsIn, AreRising, IsOpened, IsOrderOf, IsBeginning, live};

use crate::build::Build;
use crate::command::{Numbered, Reply};
use crate::contents::{Contents, Core, Phase};
use crate::event::Event;
use crate::events::take_step;
use crate::fault::CoreFault;
use crate::opening::{Opened, open};
use crate::sequence::Sequence;
use crate::sequence_number::SequenceNumber;
use crate::store::Store;
use crate::table::Table;
use cc_disk::MemoryDisk;
use cc_library::{LibraryFault, UnitMap};
use std::alloc::{AllocError, Global};
use std::marker::Model;

/// The protocol core with a build and a disk in memory. Contracts see its contents. The type keeps that some list of events leads from a
/// beginning to these contents. A beginning has a new disk, or one that was opened with a library on it.
pub struct State<B: Build> {
    build: B,
    contents: Contents<B::Piece>,
}

// Written by hand, so that crates that use this one can call this `drop` and need not prove again how each part is dropped.
impl<B: Build> Drop for State<B> {
    fn drop(self) {
        let State { build, contents } = self;
    }
}

impl<B: Build> Model for State<B> {
    ghost use Rattle.cc_core.specs.declared.contents.Contents.{Contents};
    ghost use Rattle.std.specs.Coded.{codes};
    ghost use Rattle.std.specs.FinMap as map;
    ghost use Rattle.cc_library.specs.contracts.units.UnitMap as units;

    ghost Value = { Contents B.Piece };

    ghost coded = { Prim.hlevel (codes, units.the_row.coded, map.code) };

    ghost use Rattle.cc_core.specs.Run.{Reached};

    ghost view = { λ s. s.contents };

    ghost invariant = { λ s. Reached B.rules B.keeps B.is_right s.contents };
}

impl<B: Build> State<B> {
    /// The state before any event, on a formatted disk of `16 + 2 * area` bytes. The only refusal is 40 `OutOfMemory`.
    pub fn new(alloc: Global, build: B, area: u32) -> Result<State<B>, CoreFault>
        requires least { 64 ≤ area }
        requires most { area ≤ 2 ^ 30 }
        ensures answer { IfOk result (λ state. IsStart area state) }
        ensures refused { IfErr result (λ fault. fault ≡ CoreFault.OutOfMemory) }
    {
        let store = Store::new(alloc, area)?;
        let core = Core {
            library: UnitMap::new(alloc),
            order: Sequence::new(Vec::new(alloc)),
            acknowledged: Sequence::new(Vec::new(alloc)),
            phase: Phase::Idle,
            store,
            upcoming: SequenceNumber::first(),
        };
        Ok(State::idle(alloc, build, core))
    }

    /// The state before any event, on a disk that already has a library. The disk may have any size and use either area. The live map is
    /// what the disk's bytes recover to. The order has the commands of the disk's records, numbered from 0 on.
    ///
    /// The caller must know that each unit that is found is right by the build's law. This holds if only this build wrote to the
    /// disk.
    ///
    /// Refusals, each with the disk handed back as it was: 38 `NotALibrary` if there is no valid header, 37 `Damaged` if the header is
    /// valid but the bytes recover to no library, and 40 `OutOfMemory`. 35 never comes, since a disk in memory does not fail.
    pub fn open(
        alloc: Global,
        build: B,
        disk: MemoryDisk,
    ) -> Result<State<B>, (LibraryFault, MemoryDisk)>
        requires right { (units : Units) → Recovers (bytes_of disk.cells) units → EachUnit B.is_right units }
        ensures answer { IfOk result (λ state. IsOpened state) }
        ensures recovered { IfOk result (λ state. Recovers (bytes_of disk.cells) state.core.library) }
        ensures order { IfOk result (λ state. (area : ℕ) (bodies : List (List ℕ)) → HoldsRecords (bytes_of disk.cells) area bodies
            → IsOrderOf bodies state.core.order state.core.upcoming) }
        ensures bytes { IfOk result (λ state. bytes_of state.core.store.cells ≡ bytes_of disk.cells) }
        ensures refused { IfErr result (λ e. OpenFaults true (bytes_of disk.cells) 0 0 e.0) }
        ensures no_failure { IfErr result (λ e. e.0 ≢ LibraryFault.DiskFault) }
        // After a refusal the disk has the same bytes, and a crash leaves nothing that it could not leave before.
        ensures hands_back { IfErr result (λ e. bytes_of e.1.cells ≡ bytes_of disk.cells) }
        ensures adds_none { IfErr result (λ e. AddsNone (IsImage disk.cells) (IsImage e.1.cells)) }
    {
        match open(alloc, disk) {
            Ok(opened) => {
                let Opened {
                    store,
                    library,
                    order,
                    acknowledged,
                    upcoming,
                } = opened;
                let core = Core {
                    library,
                    order,
                    acknowledged,
                    phase: Phase::Idle,
                    store,
                    upcoming,
                };
                Ok(State::idle(alloc, build, core))
            }
            Err(refused) => Err(refused),
        }
    }

    // A state before any event, with this core.
    fn idle(alloc: Global, build: B, core: Core) -> State<B>
        requires begins { IsBeginning {P = B.Piece} (record { core = core; jobs = empty; workers = empty }) }
        requires right { EachUnit B.is_right core.library }
        ensures { result ≡ record { core = core; jobs = empty; workers = empty } }
    {
        State {
            build,
            contents: Contents {
                core,
                jobs: Table::new(alloc),
                workers: Table::new(alloc),
            },
        }
    }

    /// Takes the step of an event. Answers the event's reply, if it gives one: that a command is done, or the number that refuses it.
    /// Fails with 29 `NotNow` if the event is not possible, and with 40 `OutOfMemory` if memory ran out. After either fault the state is
    /// as before.
    pub fn step(
        &mut self,
        alloc: Global,
        event: Event<B::Piece>,
    ) -> Result<Option<Reply>, CoreFault>
        ensures answer { IfOk result (λ reply. Step B.rules self.old event reply self.new) }
        ensures refused { IsErrOf result CoreFault.NotNow ↔ IsImpossible B.rules self.old event }
        ensures leaves { OnErr result (self.new ≡ self.old) }
        // A command that goes into the order has a spelling: the types of names and units keep this.
        ensures puts { OnOk result (PutsCommand self.old.core self.new.core) }
        // A piece that a worker hands in has what its type keeps.
        ensures hands { OnOk result (HandsIn B.keeps event) }
    {
        take_step(&self.build, alloc, &mut self.contents, event)
    }

    // Takes the step of an event, if it has one.
    fn turn(&mut self, alloc: Global, event: Event<B::Piece>) -> Result<(), AllocError>
        ensures { OnOk result (Turn B.rules B.keeps self.old event self.new) }
    {
        match self.step(alloc, event) {
            Ok(_) | Err(CoreFault::NotNow) => Ok(()),
            Err(CoreFault::OutOfMemory) => Err(AllocError),
        }
    }

    /// The live map: what the order gives, without the command that is in commit or has failed; empty from a crash to the recovery.
    pub fn library(&self) -> &UnitMap
        ensures library { result.now ≡ self.now.core.library }
        ensures replay { self.now.core.library ≡ live self.now.core.phase self.now.core.order }
        ensures accepted { AreAccepted empty (commands self.now.core.order) }
        ensures units { EachUnit B.is_right self.now.core.library }
    {
        &self.contents.core.library
    }

    /// The commands whose reply was given, each with its sequence number, in the order of the replies. Whatever a crash leaves of
    /// the disk recovers to a library that includes them.
    pub fn acked(&self) -> &[Numbered]
        ensures acked { result.now ≡ self.now.core.acknowledged }
        ensures in_order { All (Contains self.now.core.order) self.now.core.acknowledged }
        ensures rising { AreRising self.now.core.order }
        ensures rising_acked { AreRising self.now.core.acknowledged }
        ensures survives { EachImageSurvives self.now.core }
        ensures right { EachImageIsRight B.is_right self.now.core }
    {
        self.contents.core.acknowledged.as_slice()
    }
}

/// Takes these events in order, and skips each that is not possible when its turn comes. The only refusal is 40 `OutOfMemory`, after which
/// the state is lost.
pub fn run_events<B: Build>(
    alloc: Global,
    mut state: State<B>,
    events: Vec<Event<B::Piece>>,
) -> Result<State<B>, CoreFault>
    // The events make up a run: each event that has a step takes it, and any other event leaves the state as it is.
    ensures run { IfOk result (λ new. Run B.rules B.keeps state events.items new) }
    // Whatever a crash leaves of the disk recovers to the library of a prefix of the order, which has every acknowledged command and lacks
    // at most the last command.
    ensures survives { IfOk result (λ new. EachImageSurvives new.core) }
    // Each recovered unit is right for its source.
    ensures right { IfOk result (λ new. EachImageIsRight B.is_right new.core) }
    // The live map is what the order gives, without the command that is in commit or has failed; empty from a crash to the recovery.
    ensures replay { IfOk result (λ new. new.core.library ≡ live new.core.phase new.core.order) }
    // The library accepted each command of the order in its turn.
    ensures accepted { IfOk result (λ new. AreAccepted empty (commands new.core.order)) }
    // Every acknowledged command is in the order, with its sequence number.
    ensures acked { IfOk result (λ new. All (Contains new.core.order) new.core.acknowledged) }
    ensures rising { IfOk result (λ new. AreRising new.core.order) }
    ensures rising_acked { IfOk result (λ new. AreRising new.core.acknowledged) }
    // Each unit in the live map is right for its source.
    ensures units { IfOk result (λ new. EachUnit B.is_right new.core.library) }
    ensures refused { IfErr result (λ fault. fault ≡ CoreFault.OutOfMemory) }
{
    for event in events {
        if state.turn(alloc, event).is_err() {
            drop(state);
            return Err(CoreFault::OutOfMemory);
        }
    }
    let _ = state.library();
    let _ = state.acked();
    Ok(state)
}
