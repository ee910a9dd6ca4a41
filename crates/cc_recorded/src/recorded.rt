// The library with the history of its calls.

ghost use Rattle.std.specs.Prelude.{◌≡◌, ◌≤◌, ℕ, List, [], false, IsTrue, IfErr, IfOk, length};
ghost use Rattle.cc_journal.specs.Format.{AllHold};
ghost use Rattle.cc_library.specs.Answers.{IsMended};
ghost use Rattle.cc_library.specs.Apply.{apply};
ghost use Rattle.cc_library.specs.Recovered.{RecoversAlone};
ghost use Rattle.cc_history.specs.Calls.{reply_of, reply_of_change};
ghost use Rattle.cc_history.specs.History.{HaveAgreed, LastStands, Replays};
ghost use Rattle.cc_recorded.specs.Book.{AllAgreed, BookView, chronicle_of};
ghost use Rattle.cc_recorded.specs.Answers.{IsLook, LookAnswers, SpaceAnswers};
ghost use Rattle.cc_recorded.specs.Changed.{AllRecover, IsBookChanged, IsBookCompacted};
ghost use Rattle.cc_recorded.specs.internal.Decide.{answer_reply};
ghost use Rattle.cc_recorded.specs.internal.Early.{IsRefusedEarly};

use crate::entering::{enter, prepare};
use crate::fault::BookFault;
use crate::member::Member;
use crate::named::Based;
use cc_disk::{Disk, History};
use cc_history::{
    Asked, Command, Entry, NameList, Receipt, Reply, SharedEntry, calls_are_recorded, change_of,
    last_stands,
};
use cc_library::{Library, LibraryCommand, LibraryFault, SharedUnit, SpaceUse, UnitMap};
use std::alloc::{AllocError, Global};
use std::marker::Model;
use std::sync::Arc;
use std::sync::ledger::{self, Share};

/// What a service's lock protects: the library, and the history of the calls. Contracts see the map with which the service began, the
/// library, the history, and the change in whose call the device failed, if there was one.
#[derive(Drop)]
pub struct RecordedLibrary<N: Based, D: Disk> {
    pub(crate) base: UnitMap,
    pub(crate) library: Library<D>,
    pub(crate) history: Vec<SharedEntry>,
    pub(crate) calls: ledger::Book<N>,
    // For contracts only.
    pub(crate) failed: History<LibraryCommand>,
}

impl<N: Based, D: Disk> Model for RecordedLibrary<N, D> {
    ghost use Rattle.std.specs.Coded.{codes};
    ghost use Rattle.cc_library.specs.contracts.units.UnitMap as units;
    ghost use Rattle.cc_library.specs.contracts.command.Change as change;
    ghost use Rattle.cc_library.specs.contracts.unit.SharedUnit as shared;
    ghost use Rattle.cc_history.specs.contracts.entry.Entry as entry;
    ghost use Rattle.cc_recorded.specs.Book.{BookView, IsRecordedLibrary, book_code};

    ghost Value = { BookView D };

    ghost coded = { book_code D.code units.the_row.coded entry.the_row.coded (change.the_row shared.the_row).coded };

    ghost view = { λ b. record { base = b.base; library = b.library; history = b.history.items; failed = b.failed.items } };

    ghost invariant = { λ b. IsRecordedLibrary D.Disk N.base b.calls.total (record { base = b.base; library = b.library; history = b.history.items; failed = b.failed.items }) };
}

/// What is left of a library with its history: the map with which it began, the library, and the history.
#[derive(Drop)]
pub struct Ended<D: Disk> {
    pub base: UnitMap,
    pub library: Library<D>,
    pub history: Vec<SharedEntry>,
    /// The change in whose call the device failed, if there was one. For contracts only.
    pub failed: History<LibraryCommand>,
}

impl<N: Based, D: Disk> RecordedLibrary<N, D> {
    /// The book of a service that begins, over a library that was opened; the library's map is the base.
    pub(crate) fn new(
        alloc: Global,
        base: UnitMap,
        library: Library<D>,
        calls: ledger::Book<N>,
    ) -> RecordedLibrary<N, D>
        requires same { base ≡ library.units }
        requires usable { library.closed ≡ false }
        requires named { IsTrue D.honest → base ≡ N.base }
        requires images { IsTrue D.honest → (image : List ℕ) → D.may_leave library.disk image → RecoversAlone image library.units }
        requires counted { calls.total ≡ 0 }
        ensures { result ≡ record { base = base; library = library; history = []; failed = [] } }
    {
        RecordedLibrary {
            base,
            library,
            history: Vec::new(alloc),
            calls,
            failed: History::new(),
        }
    }

    pub(crate) fn into_disk(self) -> D
        ensures { result ≡ self.library.disk }
    {
        let RecordedLibrary { library, .. } = self;
        library.into_disk()
    }

    /// Shows the prover what the type keeps; at run time this does nothing.
    pub(crate) fn kept(&self)
        ensures base { IsTrue D.honest → self.now.base ≡ N.base }
        ensures replays { Replays (chronicle_of self.now) }
        ensures idle { self.now.library.closed ≡ false → self.now.failed ≡ [] }
        ensures one { length self.now.failed ≤ 1 }
        ensures agreed { HaveAgreed self.now.history }
        ensures agreed_failed { AllAgreed self.now.failed }
        ensures images { AllRecover D.Disk self.now }
    {
        let _ = &self.base;
    }

    /// Makes a change, and puts the call into the history with its answer: `Book::commit` says how it may be refused, and what each
    /// refusal leaves.
    pub fn commit(
        &mut self,
        alloc: Global,
        client: &mut Member<N>,
        command: Command,
    ) -> Result<Receipt, BookFault>
        ensures changed { IsBookChanged D.Disk self.old client.old command self.new client.new result }
    {
        calls_are_recorded();
        let RecordedLibrary {
            library,
            history,
            calls,
            failed,
            ..
        } = self;
        let Member {
            number,
            receipts,
            share,
        } = client;
        if library.is_closed() {
            return Err(BookFault::Closed);
        }
        match last_stands(history.as_slice(), receipts.as_slice()) {
            Ok(()) => {}
            Err(fault) => return Err(BookFault::from(fault)),
        }
        let Ok(change) = change_of(&command) else {
            return Err(BookFault::OutOfMemory);
        };
        let answer = decide(library, &change);
        let entry = Entry {
            client: *number,
            call: receipts.len() as u64 + 1,
            asked: Asked::Change(command),
            reply: answer.reply(),
        };
        let Ok(owners) = prepare(alloc, history, receipts, entry) else {
            return Err(BookFault::OutOfMemory);
        };
        match answer {
            Answer::Exists => Err(BookFault::Exists(enter(
                history, calls, receipts, share, owners,
            ))),
            Answer::Absent => Err(BookFault::Absent(enter(
                history, calls, receipts, share, owners,
            ))),
            Answer::Done => {
                let failing = failed.and(&change);
                match library.change(alloc, change) {
                    Ok(()) => Ok(enter(history, calls, receipts, share, owners)),
                    Err(LibraryFault::DiskFault) => {
                        *failed = failing;
                        Err(BookFault::DiskFault)
                    }
                    Err(LibraryFault::Full) => Err(BookFault::Full),
                    Err(LibraryFault::OutOfMemory) => Err(BookFault::OutOfMemory),
                    // The library is not closed, and its map accepts the change.
                    Err(_) => unreachable!(),
                }
            }
        }
    }

    /// Whether the change would be refused with 34 now, but not after a compaction.
    ///
    /// 39 if the client's last receipt does not match the history; 40 if memory ran out.
    pub(crate) fn is_mended_by_compact(
        &self,
        client: &Member<N>,
        command: &Command,
    ) -> Result<bool, BookFault>
        ensures mended { IfOk result (λ mended. IsTrue mended → IsMended self.now.library command.now) }
        ensures stands { IfOk result (λ mended. IsTrue mended → LastStands self.now.history client.now.receipts) }
        ensures not { IfOk result (λ mended. mended ≡ false → ¬ IsMended self.now.library command.now) }
        ensures refused { IfErr result (λ fault. IsRefusedEarly self.now.history client.now fault) }
        ensures idle { IfErr result (λ _. self.now.library.closed ≡ false) }
    {
        if self.library.is_closed() {
            return Ok(false);
        }
        let Ok(change) = change_of(command) else {
            return Err(BookFault::OutOfMemory);
        };
        // The library is asked first, since comparing receipts compares whole units.
        if !self.library.is_mended_by_compact(&change) {
            return Ok(false);
        }
        match last_stands(self.history.as_slice(), client.receipts.as_slice()) {
            Ok(()) => Ok(true),
            Err(fault) => Err(BookFault::from(fault)),
        }
    }

    /// Looks up a name or all names, and puts the call into the history with its answer: `Book::look` says how it may be refused.
    pub fn look(
        &mut self,
        alloc: Global,
        client: &mut Member<N>,
        asked: Asked,
    ) -> Result<Receipt, BookFault>
        requires { IsLook asked }
        ensures { LookAnswers self.old client.old asked self.new client.new result }
    {
        calls_are_recorded();
        let RecordedLibrary {
            library,
            history,
            calls,
            ..
        } = self;
        let Member {
            number,
            receipts,
            share,
        } = client;
        match last_stands(history.as_slice(), receipts.as_slice()) {
            Ok(()) => {}
            Err(fault) => return Err(BookFault::from(fault)),
        }
        let Ok(reply) = looked(alloc, library, &asked) else {
            return Err(BookFault::OutOfMemory);
        };
        let entry = Entry {
            client: *number,
            call: receipts.len() as u64 + 1,
            asked,
            reply,
        };
        let Ok(owners) = prepare(alloc, history, receipts, entry) else {
            return Err(BookFault::OutOfMemory);
        };
        Ok(enter(history, calls, receipts, share, owners))
    }

    /// How much of its area the library takes; 36 if the device has failed before.
    pub(crate) fn space(&self) -> Result<SpaceUse, BookFault>
        ensures answers { SpaceAnswers self.now result }
        ensures kept { IfOk result (λ _. IsTrue D.honest → AllHold (D.may_leave self.now.library.disk) self.now.library.area self.now.library.bodies) }
    {
        if self.library.is_closed() {
            return Err(BookFault::Closed);
        }
        Ok(self.library.space())
    }

    /// Writes the library's records again: `Book::compact` says how it may be refused.
    pub fn compact(&mut self, alloc: Global) -> Result<(), BookFault>
        ensures compacted { IsBookCompacted D.Disk self.old self.new result }
    {
        match self.library.compact(alloc) {
            Ok(()) => {}
            Err(LibraryFault::DiskFault) => return Err(BookFault::DiskFault),
            Err(LibraryFault::Closed) => return Err(BookFault::Closed),
            Err(LibraryFault::Full) => return Err(BookFault::Full),
            Err(LibraryFault::OutOfMemory) => return Err(BookFault::OutOfMemory),
            Err(_) => unreachable!(),
        }
        Ok(())
    }

    /// Ends the library with its history, given a share that is the whole ledger: this share counts as many calls as the history has.
    pub(crate) fn end(self, mut whole: Share<N>) -> Ended<D>
        requires parts { whole.parts ≡ N.parts }
        ensures counted { length result.history.items ≡ whole.amount }
        // The result has the library of the book, its history, and all else that contracts see of it.
        ensures of_book { ◌≡◌ {A = BookView D} (record { base = result.base; library = result.library; history = result.history.items; failed = result.failed.items }) self }
    {
        let RecordedLibrary {
            base,
            library,
            history,
            mut calls,
            failed,
        } = self;
        calls.audit(&mut whole);
        Ended {
            base,
            library,
            history,
            failed,
        }
    }
}

// The reply to a look-up.
fn looked<D: Disk>(alloc: Global, library: &Library<D>, asked: &Asked) -> Result<Reply, AllocError>
    requires { IsLook asked.now }
    ensures { IfOk result (λ reply. reply ≡ reply_of library.now.units asked.now) }
{
    match asked {
        // A change is not a look-up.
        Asked::Change(_) => unreachable!(),
        Asked::Fetch(name) => match library.get(name) {
            Some(unit) => Ok(Reply::Unit(SharedUnit::new(Arc::try_clone(unit)?))),
            None => Ok(Reply::Absent),
        },
        Asked::Names => Ok(Reply::Names(NameList::new(library.list(alloc)?))),
    }
}

// The answer to a change.
#[derive(Clone, Copy)]
pub(crate) enum Answer {
    Done,
    Exists,
    Absent,
}

impl Answer {
    fn reply(self) -> Reply
        ensures { result ≡ answer_reply self }
    {
        match self {
            Answer::Done => Reply::Done,
            Answer::Exists => Reply::Exists,
            Answer::Absent => Reply::Absent,
        }
    }
}

// The answer to a change on a library that is not closed: its map decides.
fn decide<D: Disk>(library: &Library<D>, change: &LibraryCommand) -> Answer
    ensures { answer_reply result ≡ reply_of_change (apply library.now.units change.now) }
{
    match library.units().refusal(change) {
        None => Answer::Done,
        Some(number) => if number == 31 {
            Answer::Exists
        } else {
            Answer::Absent
        },
    }
}
