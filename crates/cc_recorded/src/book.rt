// The value of a service's lock.

ghost use Rattle.std.specs.Prelude.{◌≡◌, ◌≤◌, ◌⊎◌, ℕ, List, [], ◌∷◌, ◌++◌, true, false, IsTrue, IfErr, IfOk, MatchResult, OnOk, Some, slice_get, length, map};
ghost use Rattle.std.specs.FinMap.{empty};
ghost use Rattle.cc_disk.specs.Images.{OnlyReads};
ghost use Rattle.cc_journal.specs.Format.{AllHold, HoldsRecords};
ghost use Rattle.cc_core.specs.Run.{EachUnit, IsRightOr};
ghost use Rattle.cc_library.specs.Answers.{IsMended, OpenFaults};
ghost use Rattle.cc_library.specs.Apply.{Units};
ghost use Rattle.cc_library.specs.Recovered.{Recovers, RecoversAlone};
ghost use Rattle.cc_headline.specs.Compiling.{compiling, Keeps, is_right};
ghost use Rattle.cc_history.specs.Closing.{AreApart, AreOwn, IsClosed, IsNotWhole, ReceiptsStand};
ghost use Rattle.cc_history.specs.History.{LastStands};
ghost use Rattle.cc_recorded.specs.Book.{BookView};
ghost use Rattle.cc_recorded.specs.Answers.{IsBegun, IsLook, IsNotClosed, LookAnswers, SpaceAnswers};
ghost use Rattle.cc_recorded.specs.Changed.{AllRecover, ChangesAtOnce, IsBookChanged, IsBookCompacted};
ghost use Rattle.cc_recorded.specs.Compacting.{CompactingAnswers};
ghost use Rattle.cc_recorded.specs.Opened.{IsOpened};
ghost use Rattle.cc_recorded.specs.Promise.{FailedByDevice, IsSound};
ghost use Rattle.cc_recorded.specs.Since.{HoldsFrom, IsPast};
ghost use Rattle.cc_recorded.specs.Tie.{IsTied};
ghost use Rattle.cc_recorded.specs.internal.Early.{IsRefusedEarly};

use crate::fault::BookFault;
use crate::member::{HasReceipts, Member};
use crate::named::Based;
use crate::recorded::{Ended, RecordedLibrary};
use cc_core::laws::{crash_law, turn_law, units_law};
use cc_disk::{Disk, History};
use cc_headline::{CcBuild, made_units_are_built};
use cc_history::{Asked, Command, Receipt, command_kept, units_agree};
use cc_library::{Library, LibraryFault, SpaceUse, UnitMap};
use std::alloc::Global;
use std::marker::Model;
use std::sync::ledger::{self, Share};

/// The value of a service's lock: the library with the history of its calls.
///
/// Its type keeps the tie to the crash theorem: on an honest disk some run of the protocol core, starting from an opened disk, leads to a
/// state that this book shows. The type also keeps what a crash at any moment since the opening, or since any call, has left. Contracts see
/// the book, and the book as it was at the opening and after each call.
pub struct Book<N: Based, D: Disk> {
    pub(crate) recorded: RecordedLibrary<N, D>,
    // The book at the opening and after each call, for contracts only.
    pub(crate) since: History<RecordedLibrary<N, D>>,
}

// Written by hand, so that the crates above call it instead of proving again how each part is dropped.
impl<N: Based, D: Disk + Drop> Drop for Book<N, D> {
    fn drop(self) {
        let Book { recorded, since } = self;
    }
}

impl<N: Based, D: Disk> Model for Book<N, D> {
    ghost use Rattle.cc_recorded.specs.contracts.recorded.RecordedLibrary as recorded;
    ghost use Rattle.cc_recorded.specs.Since.{BookSince, since_code};
    ghost use Rattle.cc_recorded.specs.Promise.{IsBook};
    ghost use Rattle.cc_recorded.specs.Book.{BookView, book_code};
    ghost use Rattle.cc_library.specs.contracts.units.UnitMap as units;
    ghost use Rattle.cc_library.specs.contracts.command.Change as change;
    ghost use Rattle.cc_library.specs.contracts.unit.SharedUnit as shared;
    ghost use Rattle.cc_history.specs.contracts.entry.Entry as entry;

    ghost Value = { BookSince D };

    ghost coded = { since_code (book_code D.code units.the_row.coded entry.the_row.coded (change.the_row shared.the_row).coded) };

    ghost view = { λ b. record { book = b.recorded; since = b.since.items } };

    ghost invariant = { λ b. IsBook D.Disk N.failures N.from N.left (record { book = b.recorded; since = b.since.items }) };
}

impl<N: Based, D: Disk> Book<N, D> {
    /// Opens the library on a disk, and begins a history over it: the map that was found is the base.
    ///
    /// Refusals, with the disk handed back: those of the library's opening, in the same order: 35 if the device failed in the
    /// call, 38 if there is no valid header, 37 if an open record does not fit in its area or the records are not a list of
    /// accepted commands. 40 if memory ran out. No refusal changes a byte.
    pub fn open(
        alloc: Global,
        disk: D,
        calls: ledger::Book<N>,
    ) -> Result<Book<N, D>, (LibraryFault, D)>
        // If the bytes of an honest disk recover to a map, it is the base that the service's parameter names.
        requires named { IsTrue D.honest → (units : Units) → Recovers (D.seen disk) units → units ≡ N.base }
        // The parameter names a moment up to now and what a crash has left since then; and a number of failed device calls that is at most
        // the actual one.
        requires past { IsTrue D.honest → IsPast D.Disk N.from N.left disk }
        requires failures { N.failures ≤ D.failures disk }
        requires counted { calls.total ≡ 0 }

        // No call has been made yet, and the base is what was recovered.
        ensures begun { IfOk result (λ b. IsBegun b.book) }
        ensures since { IfOk result (λ b. b.since ≡ b.book ∷ []) }
        ensures recovered { IfOk result (λ b. IsTrue D.honest → Recovers (D.seen disk) b.book.base) }
        ensures kept { IfOk result (λ b. IsTrue D.honest → (image : List ℕ) → D.may_leave b.book.library.disk image → RecoversAlone image b.book.base) }
        ensures records { IfOk result (λ b. IsTrue D.honest → HoldsRecords (D.seen disk) b.book.library.area b.book.library.bodies) }
        ensures fresh { IfOk result (λ b. IsTrue D.honest → (area : ℕ) → HoldsRecords (D.seen disk) area [] → b.book.base ≡ empty) }

        // When each refusal comes.
        ensures sound { IfOk result (λ b. D.failures b.book.library.disk ≡ D.failures disk) }
        ensures refused { IfErr result (λ e. OpenFaults D.honest (D.seen disk) (D.failures disk) (D.failures e.1) e.0) }

        // The disk keeps its size and its bytes, and no crash leaves anything new.
        ensures size { MatchResult result (λ b. D.size b.book.library.disk ≡ D.size disk) (λ e. D.size e.1 ≡ D.size disk) }
        ensures reads { MatchResult result
            (λ b. IsTrue D.honest → OnlyReads D.seen D.may_leave D.moment D.left_since disk b.book.library.disk)
            (λ e. IsTrue D.honest → OnlyReads D.seen D.may_leave D.moment D.left_since disk e.1) }
    {
        match Library::open(alloc, disk) {
            Ok(library) => match Book::over(alloc, library, calls) {
                Ok(book) => Ok(book),
                Err(library) => Err((LibraryFault::OutOfMemory, library.into_disk())),
            },
            Err(refused) => {
                drop(calls);
                Err(refused)
            }
        }
    }

    /// Begins a history over a library as its opening left it. The library is not read again: its map is the base. The library is handed
    /// back if memory ran out.
    pub fn over(
        alloc: Global,
        library: Library<D>,
        calls: ledger::Book<N>,
    ) -> Result<Book<N, D>, Library<D>>
        requires opened { IsOpened D.Disk library }
        // The service's parameter names the base, the moment and the number of failures.
        requires named { IsTrue D.honest → library.units ≡ N.base }
        requires past { IsTrue D.honest → IsPast D.Disk N.from N.left library.disk }
        requires failures { N.failures ≤ D.failures library.disk }
        requires counted { calls.total ≡ 0 }
        ensures book { IfOk result (λ b. b.book ≡ record { base = library.units; library = library; history = []; failed = [] }) }
        ensures since { IfOk result (λ b. b.since ≡ b.book ∷ []) }
        ensures back { IfErr result (λ l. l ≡ library) }
    {
        match library.units().again() {
            Ok(base) => Ok(Book::begin(alloc, base, library, calls)),
            Err(_) => {
                drop(calls);
                Err(library)
            }
        }
    }

    // Begins the book over a library that was opened; the library's map is the base.
    fn begin(
        alloc: Global,
        base: UnitMap,
        library: Library<D>,
        calls: ledger::Book<N>,
    ) -> Book<N, D>
        requires same { base ≡ library.units }
        requires opened { IsOpened D.Disk library }
        requires named { IsTrue D.honest → base ≡ N.base }
        requires past { IsTrue D.honest → IsPast D.Disk N.from N.left library.disk }
        requires failures { N.failures ≤ D.failures library.disk }
        requires counted { calls.total ≡ 0 }
        ensures book { result.book ≡ record { base = base; library = library; history = []; failed = [] } }
        ensures since { result.since ≡ result.book ∷ [] }
    {
        let recorded = RecordedLibrary::new(alloc, base, library, calls);
        recorded.kept();
        let since = History::new().and(&recorded);
        Book { recorded, since }
    }

    /// Makes a change, and puts the call into the history with its answer. After Ok the change is kept: every crash leaves it.
    ///
    /// Refusals, in this order: 36 if the device has failed before; 39 if the client's last receipt does not match the history; 31 if the
    /// name to be added has a unit, 32 if the name to be replaced or withdrawn has none (after 31 and 32 the call is in the history, with a
    /// receipt); 34 if the record does not fit; 35 if the device failed. 40 if memory ran out, before the first device call. After 34, 36,
    /// 39 and 40 everything is as before; after 35 the history and the map are as before, and the disk has the map with or without the
    /// change.
    pub fn commit(
        &mut self,
        alloc: Global,
        client: &mut Member<N>,
        command: Command,
    ) -> Result<Receipt, BookFault>
        ensures changed { IsBookChanged D.Disk self.old.book client.old command self.new.book client.new result }
        ensures since { self.new.since ≡ self.old.since ++ self.new.book ∷ [] }
    {
        self.recorded.kept();
        command_kept(&command);
        made_units_are_built();
        turn_law::<CcBuild>();
        let result = self.recorded.commit(alloc, client, command);
        self.recorded.kept();
        self.since = self.since.and(&self.recorded);
        result
    }

    /// Makes a change as `commit` does. But if `commit` would refuse the change with 34 now, and would not after a `compact`, the library
    /// is compacted first. The compaction makes no entry in the history, and the map stays the same.
    ///
    /// Refuses as `commit` does. It answers 34, without a device call, if the record would not fit even after a `compact`. It also answers
    /// 34 if `compact` was refused: then the change was not begun, and every crash leaves the map as it was; but if the device failed, the
    /// library is closed, and answers 36 from then on.
    pub fn commit_compacting(
        &mut self,
        alloc: Global,
        client: &mut Member<N>,
        command: Command,
    ) -> Result<Receipt, BookFault>
        ensures answers { CompactingAnswers D.Disk self.old.book client.old command self.new.book client.new result }
        // Either nothing was done, or the book as it is afterwards is the last one of `since`.
        ensures since { (self.new ≡ self.old) ⊎ ((between : List (BookView D)) × (self.new.since ≡ self.old.since ++ (between ++ self.new.book ∷ []))) }

        ensures moments { ChangesAtOnce D.Disk command self.old.book self.new.book }
        // After Ok every crash leaves the map with the change, and no other map.
        ensures kept { AllRecover D.Disk self.new.book }
    {
        self.kept();
        match self.is_mended_by_compact(client, &command) {
            Ok(true) => {}
            Ok(false) => return self.commit(alloc, client, command),
            Err(fault) => return Err(fault),
        }
        match self.compact(alloc) {
            Ok(()) => self.commit(alloc, client, command),
            Err(_) => Err(BookFault::Full),
        }
    }

    // Whether a change of this client would be refused with 34 now, but not after a `compact`.
    fn is_mended_by_compact(&self, client: &Member<N>, command: &Command) -> Result<bool, BookFault>
        ensures mended { IfOk result (λ mended. IsTrue mended → IsMended self.now.book.library command.now) }
        ensures stands { IfOk result (λ mended. IsTrue mended → LastStands self.now.book.history client.now.receipts) }
        ensures not { IfOk result (λ mended. mended ≡ false → ¬ IsMended self.now.book.library command.now) }
        ensures refused { IfErr result (λ fault. IsRefusedEarly self.now.book.history client.now fault) }
        ensures idle { IfErr result (λ _. self.now.book.library.closed ≡ false) }
    {
        self.recorded.is_mended_by_compact(client, command)
    }

    /// Shows the prover what the type of a book keeps about what a crash leaves now; at run time this does nothing.
    pub fn kept(&self)
        ensures images { AllRecover D.Disk self.now.book }
        ensures idle { self.now.book.library.closed ≡ false → self.now.book.failed ≡ [] }
    {
        self.recorded.kept();
    }

    /// Looks up a name or all names, and puts the call into the history with its answer, which is in the receipt's entry.
    ///
    /// 39 if the client's last receipt does not match the history; 40 if memory ran out. After either, everything is as before. A look-up
    /// works even if the device has failed.
    pub fn look(
        &mut self,
        alloc: Global,
        client: &mut Member<N>,
        asked: Asked,
    ) -> Result<Receipt, BookFault>
        requires { IsLook asked }
        ensures answers { LookAnswers self.old.book client.old asked self.new.book client.new result }
        ensures since { self.new.since ≡ self.old.since ++ self.new.book ∷ [] }
    {
        self.recorded.kept();
        let result = self.recorded.look(alloc, client, asked);
        self.recorded.kept();
        self.since = self.since.and(&self.recorded);
        result
    }

    /// Writes the library's records again, one Add per name. This makes no entry in the history, and the map stays the same at every
    /// moment.
    ///
    /// Refusals, in this order: 36 if the device has failed before, 34 if the new records do not fit, 35 if the device failed. 40 if memory
    /// ran out, before the first device call. After 34, 36 and 40 everything is as before.
    pub fn compact(&mut self, alloc: Global) -> Result<(), BookFault>
        ensures compacted { IsBookCompacted D.Disk self.old.book self.new.book result }
        ensures since { self.new.since ≡ self.old.since ++ self.new.book ∷ [] }
    {
        self.recorded.kept();
        turn_law::<CcBuild>();
        let result = self.recorded.compact(alloc);
        self.recorded.kept();
        self.since = self.since.and(&self.recorded);
        result
    }

    /// How much of its area the library takes. The call makes no entry in the history, needs no memory and makes no device call; it looks
    /// at each unit.
    ///
    /// 36 if the device has failed before: then the disk may have other records.
    pub fn space(&self) -> Result<SpaceUse, BookFault>
        ensures answers { SpaceAnswers self.now.book result }
        // Every crash leaves exactly these records.
        ensures kept { IfOk result (λ _. IsTrue D.honest
            → AllHold (D.may_leave self.now.book.library.disk) self.now.book.library.area self.now.book.library.bodies) }
    {
        self.recorded.space()
    }

    /// Whether the device has failed before: then every change and every `compact` answers 36. The call needs no memory.
    pub fn is_closed(&self) -> bool
        ensures { result ≡ self.now.book.library.closed }
    {
        self.recorded.library.is_closed()
    }

    /// Gives up the book and returns its disk.
    pub fn into_disk(self) -> D
        ensures { result ≡ self.book.library.disk }
    {
        let Book { recorded, since } = self;
        drop(since);
        recorded.into_disk()
    }

    /// Whether the book can be ended with these clients, if `made` clients were made.
    ///
    /// 39 for the first receipt that does not match the history; 39, with the history's length and no entry, if these are not all the
    /// clients that were made; 40 if memory ran out.
    pub fn ready<C: HasReceipts>(&self, made: u64, clients: &[C]) -> Result<(), BookFault>
        ensures many { OnOk result (length clients.now ≡ made) }
        ensures apart { OnOk result (AreApart (map C.member clients.now)) }
        ensures stand { OnOk result (ReceiptsStand self.now.book.history (map C.member clients.now)) }
        ensures err { IfErr result (λ f. IsNotClosed self.now.book.history made (map C.member clients.now) f) }
    {
        self.recorded.ready(made, clients)
    }

    /// Ends the book, given a share that is the whole ledger: this share counts as many calls as the history has.
    pub fn end(self, whole: Share<N>) -> Ended<D>
        requires parts { whole.parts ≡ N.parts }
        ensures sound { IsSound D.Disk N.base N.from N.left (record { base = result.base; library = result.library; history = result.history.items; failed = result.failed.items }) }
        ensures blamed { FailedByDevice D.Disk N.failures (record { base = result.base; library = result.library; history = result.history.items; failed = result.failed.items }) }
        ensures counted { length result.history.items ≡ whole.amount }
        // The result has the library of the book, its history, and all else that contracts see of it.
        ensures of_book { ◌≡◌ {A = BookView D} (record { base = result.base; library = result.library; history = result.history.items; failed = result.failed.items }) self.book }
    {
        self.survives();
        let Book { recorded, since } = self;
        drop(since);
        recorded.end(whole)
    }

    /// Gives up the book: the result is its disk, and whether these are all clients of the history. The call needs no memory.
    pub fn give_up<C: HasReceipts>(self, clients: &[C]) -> (D, bool)
        ensures disk { result.0 ≡ self.book.library.disk }
        ensures sound { IsSound D.Disk N.base N.from N.left self.book }
        ensures blamed { FailedByDevice D.Disk N.failures self.book }
        ensures own { AreOwn (map C.member clients.now) }
        // If these are all clients, each of their receipts is in the history, and each entry has a receipt; if not, a receipt or a client
        // shows why.
        ensures closed { IsTrue result.1 → IsClosed self.book.history (map C.member clients.now) }
        ensures why { result.1 ≡ false → IsNotWhole self.book.history (map C.member clients.now) }
    {
        self.survives();
        let are_all = self.recorded.is_whole(clients);
        (self.into_disk(), are_all)
    }

    /// What is known about a book at any time, in whatever order the calls of all threads took the lock: a law, which does nothing.
    pub fn survives(&self)
        // Some run of the core leads from an opened disk to a state that the book shows.
        ensures reached { IsTrue D.honest → IsTied compiling Keeps D.Disk self.now.book }

        // The history is legal, and the map is the base with its changes. What a crash leaves now has each acknowledged command, and what a
        // crash has left since the opening has a prefix of the calls. In both, each unit was found at the opening or agrees with its
        // source.
        ensures sound { IsSound D.Disk N.base N.from N.left self.now.book }

        // Each change that failed did so in a call of the device that failed since the opening.
        ensures blamed { FailedByDevice D.Disk N.failures self.now.book }

        // Whatever a crash has left since the end of the opening, or since any call, has all calls up to that moment.
        ensures since { IsTrue D.honest → (k : ℕ) (then' : BookView D) → slice_get self.now.since k ≡ Some then' → (image : List ℕ)
            → D.left_since self.now.book.library.disk (D.moment then'.library.disk) image → HoldsFrom self.now.book (length then'.history) image }

        // Each unit that is recovered from what a crash has left was found at the opening, or its image agrees with its source.
        ensures units { (entries : ℕ) (image : List ℕ) (library : Units) → HoldsFrom self.now.book entries image → Recovers image library
            → EachUnit (IsRightOr is_right self.now.book.base) library }
    {
        self.recorded.kept();
        units_agree();
        units_law::<CcBuild>();
        crash_law::<CcBuild>();
    }
}
