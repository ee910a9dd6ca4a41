// The service.

ghost use Rattle.std.specs.Prelude.{◌≡◌, ◌≤◌, ℕ, List, [], IsTrue, IfErr, IfOk, map};
ghost use Rattle.cc_disk.specs.Images.{OnlyReads};
ghost use Rattle.cc_library.specs.Apply.{Units};
ghost use Rattle.cc_library.specs.Name.{is_name};
ghost use Rattle.cc_library.specs.Recovered.{Recovers};
ghost use Rattle.cc_history.specs.Closing.{AreOwn, IsClosed};
ghost use Rattle.cc_c_semantics.specs.declared.mode.Mode.{Mode};
ghost use Rattle.cc_c_semantics.specs.declared.mode.Mode.TheVariants.{Plain};
ghost use Rattle.cc_service.specs.Client.{members};
ghost use Rattle.cc_service.specs.Compiling.{HasHandedIn, HasSentFor, IsNotPrepared, IsPastText};
ghost use Rattle.cc_recorded.specs.Opened.{IsOpened};
ghost use Rattle.cc_recorded.specs.Promise.{FailedByDevice, IsGivenUp, IsSound};
ghost use Rattle.cc_recorded.specs.Since.{IsPast};
ghost use Rattle.cc_service.specs.Serving.{Adds, GetAnswers, IsNotCompacted, IsNotEnded, IsNotOpened, IsNotStarted, IsOf, IsTurnedAway, ListAnswers, PutAnswers, Puts, Replaces, WithdrawAnswers};
ghost use Rattle.cc_service.specs.Space.{IsSpaceThen, SpaceAnswers};
ghost use Rattle.cc_service.specs.Stored.{IsStored};
ghost use Rattle.cc_recorded.specs.Answers.{IsLook};
ghost use Rattle.cc_service.specs.Updating.{UpdateAnswers};
ghost use Rattle.cc_service.specs.internal.Under.{IsSeen, MakesAnswers, UpdatesBy};
ghost use Rattle.cc_library.specs.declared.command.Change.TheVariants as commands;
ghost use Rattle.cc_recorded.specs.declared.fault.BookFault.{BookFault};
ghost use Rattle.cc_service.specs.declared.fault.ServiceFault.TheVariants as service;

use crate::answers::{Found, Listing, has_unit};
use crate::client::Client;
use crate::closing::{Closed, end, ready};
use crate::compiling::{Prepared, begun};
use crate::desk::Desk;
use crate::fault::ServiceFault;
use crate::named::{Fresh, Named};
use cc_disk::Disk;
use cc_history::{Asked, Command, Receipt};
use cc_library::{Library, Name, SpaceUse};
use cc_link::{CompiledUnit, Mode};
use cc_pool::{Gate, Pool, PoolFault};
use cc_recorded::{Book, BookFault};
use std::alloc::Global;
use std::sync::atomic::{AtomicU64, Ordering};
use std::sync::{Mutex, Wait};
use std::thread::Threads;

/// How a unit is put in a library.
#[derive(Clone, Copy, Debug, Drop, PartialEq, Eq)]
pub enum Put {
    /// The name has no unit yet.
    Add,
    /// The unit replaces the name's unit.
    Replace,
}

// The change that puts a unit in the library under a name.
fn change_of(put: Put, name: Name, unit: CompiledUnit) -> Command
    ensures { (mode : Mode) (source : List ℕ) → IsOf mode source unit → Puts put mode name source result }
{
    match put {
        Put::Add => Command::Add(name, unit),
        Put::Replace => Command::Replace(name, unit),
    }
}

// How much of its area the library of a book takes.
fn space_of<N: Named, D: Disk>(book: &Book<N, D>) -> Result<SpaceUse, ServiceFault>
    ensures answers { SpaceAnswers result }
    ensures moment { IfOk result (λ space. IsSpaceThen D.Disk N.base N.from N.left space) }
{
    book.survives();
    match book.space() {
        Ok(space) => Ok(space),
        Err(fault) => Err(ServiceFault::Book(fault)),
    }
}

/// A library for many clients on threads of their own. Workers compile function by function; changes are committed one at a time, under
/// the book's lock.
///
/// Each call is made on the caller's own thread. A worker holds no lock, and parsing, checking, compiling and linking are done before the
/// book's lock is taken. No two locks are ever held together.
pub struct Service<N: Named, D: Disk> {
    book: Mutex<Book<N, D>>,
    desk: Mutex<Desk<N>>,
    pool: Pool<N>,
    // The number of clients that wait for a unit to be compiled, or are putting one.
    putting: AtomicU64,
}

// Written by hand, so that the crates above call it instead of proving again how each part is dropped.
impl<N: Named, D: Disk + Drop> Drop for Service<N, D> {
    fn drop(self) {
        let Service {
            book,
            desk,
            pool,
            putting: _,
        } = self;
    }
}

impl<N: Named + Send + Sync + 'static, D: Disk> Service<N, D> {
    /// Opens the library on a disk, and starts this many workers, 1 to 8, which call the gate before each piece.
    ///
    /// Refusals, with the disk handed back: 35, 38, 37 and 40 as for the library's opening; then 41 if a thread could not be started, or 40
    /// if memory ran out. No worker is left then. No refusal changes a byte.
    pub fn open<R, G>(
        rt: &R,
        alloc: Global,
        fresh: Fresh,
        disk: D,
        workers: usize,
        gate: G,
    ) -> Result<Service<N, D>, (ServiceFault, D)>
    where
        R: Threads + Wait + Copy + Send + 'static,
        G: Gate + Drop + Send + Sync + 'static,
        // The parameter names this ledger, this queue, and, if an honest disk's bytes recover to a map, that map.
        requires ledger { fresh.ledger ≡ N.name }
        requires parts { N.parts ≡ 1025 }
        requires queue { fresh.queue ≡ N.queue }
        requires named { IsTrue D.honest → (units : Units) → Recovers (D.seen disk) units → units ≡ N.base }
        // The parameter also names a moment up to now, what a crash may have left since then (`finish` says what a crash leaves later), and
        // a number of failed device calls that is at most the actual one.
        requires past { IsTrue D.honest → IsPast D.Disk N.from N.left disk }
        requires failures { N.failures ≤ D.failures disk }
        requires some { 1 ≤ workers }
        requires few { workers ≤ 8 }
        ensures recovered { IfOk result (λ _. IsTrue D.honest → Recovers (D.seen disk) N.base) }
        ensures refused { IfErr result (λ e. IsNotOpened D.honest (D.seen disk) N.base (D.failures disk) (D.failures e.1) e.0) }
        ensures size { IfErr result (λ e. D.size e.1 ≡ D.size disk) }
        ensures reads { IfErr result (λ e. IsTrue D.honest → OnlyReads D.seen D.may_leave D.moment D.left_since disk e.1) }
    {
        let Fresh { blank, queue } = fresh;
        let (calls, rest) = blank.open::<N>();
        let book = match Book::open(alloc, disk, calls) {
            Ok(book) => book,
            Err((fault, disk)) => {
                drop(queue);
                return Err((ServiceFault::Opening(fault), disk));
            }
        };
        match Pool::start(rt, alloc, queue, workers, gate) {
            Ok(pool) => Ok(Service {
                book: Mutex::new(book),
                desk: Mutex::new(Desk::new(rest)),
                pool,
                putting: AtomicU64::new(0),
            }),
            Err(PoolFault::OutOfMemory) => Err((ServiceFault::OutOfMemory, book.into_disk())),
            Err(_) => Err((ServiceFault::WorkersGone, book.into_disk())),
        }
    }

    /// The service over a library as its opening left it, with this many workers, 1 to 8, which call the gate before each piece. The
    /// library is not read again.
    ///
    /// Refusals, with the disk handed back as it was: 40 if memory ran out; 41 if a thread could not be started. No worker is left then.
    pub fn over<R, G>(
        rt: &R,
        alloc: Global,
        fresh: Fresh,
        library: Library<D>,
        workers: usize,
        gate: G,
    ) -> Result<Service<N, D>, (ServiceFault, D)>
    where
        R: Threads + Wait + Copy + Send + 'static,
        G: Gate + Drop + Send + Sync + 'static,
        // The parameter names this ledger and this queue. On an honest disk it names the library's map and a moment up to now; on any disk,
        // a number of failed device calls that is at most the actual one.
        requires ledger { fresh.ledger ≡ N.name }
        requires parts { N.parts ≡ 1025 }
        requires queue { fresh.queue ≡ N.queue }
        requires opened { IsOpened D.Disk library }
        requires named { IsTrue D.honest → library.units ≡ N.base }
        requires past { IsTrue D.honest → IsPast D.Disk N.from N.left library.disk }
        requires failures { N.failures ≤ D.failures library.disk }
        requires some { 1 ≤ workers }
        requires few { workers ≤ 8 }
        ensures refused { IfErr result (λ e. IsNotStarted e.0) }
        ensures back { IfErr result (λ e. e.1 ≡ library.disk) }
    {
        let Fresh { blank, queue } = fresh;
        let (calls, rest) = blank.open::<N>();
        let book = match Book::over(alloc, library, calls) {
            Ok(book) => book,
            Err(library) => {
                drop(queue);
                return Err((ServiceFault::OutOfMemory, library.into_disk()));
            }
        };
        match Pool::start(rt, alloc, queue, workers, gate) {
            Ok(pool) => Ok(Service {
                book: Mutex::new(book),
                desk: Mutex::new(Desk::new(rest)),
                pool,
                putting: AtomicU64::new(0),
            }),
            Err(PoolFault::OutOfMemory) => Err((ServiceFault::OutOfMemory, book.into_disk())),
            Err(_) => Err((ServiceFault::WorkersGone, book.into_disk())),
        }
    }

    /// One more client, which has made no call. Its number is the number of clients made before.
    ///
    /// 30 if 1,024 were made.
    pub fn client<R: Wait>(&self, rt: &R, alloc: Global) -> Result<Client<N>, ServiceFault>
        ensures ok { IfOk result (λ c. (c.member.receipts ≡ []) × (c.sent ≡ [])) }
        ensures err { IfErr result (λ fault. fault ≡ service.TooManyClients) }
    {
        // The desk's lock is released before the pool's is taken.
        let seat = self.desk.lock(rt).seat(alloc);
        match seat {
            Some(member) => {
                let pass = self.pool.pass(rt);
                Ok(Client::of(member, pass))
            }
            None => Err(ServiceFault::TooManyClients),
        }
    }

    /// Compiles a text to a plain image and puts its unit in the library, as `put_in` does.
    pub fn put<R: Wait>(
        &self,
        rt: &R,
        alloc: Global,
        client: &mut Client<N>,
        put: Put,
        name: &[u8],
        source: &[u8],
    ) -> Result<Receipt, ServiceFault>
        ensures answers { PutAnswers Plain (Puts put Plain name.now source.now) name.now source.now client.old.member client.new.member result }
        ensures stored { IfOk result (λ receipt. IsStored D.Disk N.base N.from N.left receipt) }
        ensures sent { HasSentFor source.now client.old.sent client.new.sent }
    {
        self.put_in(rt, alloc, client, Mode::Plain, put, name, source)
    }

    /// Compiles a text in a mode and puts its unit in the library: under a name that has none, or in place of the name's unit.
    ///
    /// Refusals, in this order: 33; 7, 1 to 6, 11 to 21 for the text; for the first function whose piece did not come, 22 or 24 if a worker
    /// refused it, else 41; 25; then under the lock 36, 39, 31 (for `Add`) and 32 (for `Replace`), 34, 35. 40 if memory ran out. Only 31
    /// and 32 come with a receipt. The other refusals leave the client's number and receipts as they were, but its pass may have sent some
    /// of the functions.
    pub fn put_in<R: Wait>(
        &self,
        rt: &R,
        alloc: Global,
        client: &mut Client<N>,
        mode: Mode,
        put: Put,
        name: &[u8],
        source: &[u8],
    ) -> Result<Receipt, ServiceFault>
        ensures answers { PutAnswers mode (Puts put mode name.now source.now) name.now source.now client.old.member client.new.member result }
        ensures stored { IfOk result (λ receipt. IsStored D.Disk N.base N.from N.left receipt) }
        ensures sent { HasSentFor source.now client.old.sent client.new.sent }
    {
        let Ok(_) = Name::new(name) else {
            return Err(ServiceFault::BadName);
        };
        match begun(rt, alloc, &self.pool, &mut client.pass, mode, source) {
            Ok(prepared) => self.put_prepared(rt, alloc, client, put, name, prepared),
            Err(fault) => Err(fault),
        }
    }

    /// Hands the functions of a text to the workers, for a `put_prepared` of a plain image, as `prepare_in` does.
    pub fn prepare<R: Wait>(
        &self,
        rt: &R,
        alloc: Global,
        client: &mut Client<N>,
        source: &[u8],
    ) -> Result<Prepared<N>, ServiceFault>
        ensures text { IfOk result (λ prepared. prepared.text ≡ source.now) }
        ensures mode { IfOk result (λ prepared. prepared.mode ≡ Plain) }
        ensures handed { IfOk result (λ _. HasHandedIn source.now client.old.sent client.new.sent) }
        ensures refused { IfErr result (λ fault. IsNotPrepared source.now fault) }
        ensures member { client.new.member ≡ client.old.member }
        ensures sent { HasSentFor source.now client.old.sent client.new.sent }
    {
        self.prepare_in(rt, alloc, client, Mode::Plain, source)
    }

    /// Hands the functions of a text to the workers, for a `put_prepared` of an image in a mode. The call does not wait for them to be
    /// compiled: it waits only while the queue is full.
    ///
    /// Refusals, in this order: 7, 1 to 6, 11 to 21 for the text; 41. 40 if memory ran out. Each leaves the client's number and receipts
    /// as they were, as an Ok does; after 40 and 41 its pass may have sent some of the functions.
    pub fn prepare_in<R: Wait>(
        &self,
        rt: &R,
        alloc: Global,
        client: &mut Client<N>,
        mode: Mode,
        source: &[u8],
    ) -> Result<Prepared<N>, ServiceFault>
        ensures text { IfOk result (λ prepared. prepared.text ≡ source.now) }
        ensures mode { IfOk result (λ prepared. prepared.mode ≡ mode) }
        ensures handed { IfOk result (λ _. HasHandedIn source.now client.old.sent client.new.sent) }
        ensures refused { IfErr result (λ fault. IsNotPrepared source.now fault) }
        ensures member { client.new.member ≡ client.old.member }
        ensures sent { HasSentFor source.now client.old.sent client.new.sent }
    {
        begun(rt, alloc, &self.pool, &mut client.pass, mode, source)
    }

    /// Waits for the functions of a prepared text, and puts its unit in the library, as `put_in` does in that mode.
    ///
    /// Refusals, in this order: 33; for the first function whose piece did not come, 22 or 24 if a worker refused it, else 41; 25; then
    /// under the lock those of `put`. 40 if memory ran out. Only 31 and 32 come with a receipt; the other refusals leave the client's
    /// number and receipts as they were. The prepared text is used up in any case.
    pub fn put_prepared<R: Wait>(
        &self,
        rt: &R,
        alloc: Global,
        client: &mut Client<N>,
        put: Put,
        name: &[u8],
        prepared: Prepared<N>,
    ) -> Result<Receipt, ServiceFault>
        // The answers are those of a `put` of the prepared text.
        ensures answers { PutAnswers prepared.mode (Puts put prepared.mode name.now prepared.text) name.now prepared.text client.old.member client.new.member result }
        ensures stored { IfOk result (λ receipt. IsStored D.Disk N.base N.from N.left receipt) }
        ensures past_text { IfErr result (λ fault. IsPastText fault) }
        ensures sent { client.new.sent ≡ client.old.sent }
    {
        let Ok(name) = Name::new(name) else {
            drop(prepared);
            return Err(ServiceFault::BadName);
        };
        // From now until the unit is put, the client counts as waiting for it.
        self.putting.fetch_add(1, Ordering::SeqCst);
        match prepared.unit(rt, alloc, &self.pool) {
            Ok(unit) => {
                let answer = self.change(rt, alloc, client, change_of(put, name, unit));
                self.putting.fetch_sub(1, Ordering::SeqCst);
                answer
            }
            Err(fault) => {
                self.putting.fetch_sub(1, Ordering::SeqCst);
                Err(fault)
            }
        }
    }

    /// Compiles a text in a mode and replaces the unit under a name with it, if the old unit's source is the expected one. The comparison
    /// and the change happen under one lock: in the history there is no call between the look-up and the change.
    ///
    /// Refusals, in this order: those of `put_in` up to 25; then under the lock 36, 39, 32, 60 if the name's unit has another source, 34,
    /// 35. 40 if memory ran out. 32 and 60 come with a receipt, that of the look-up; after 34, 35 and a 40 of the change the client has
    ///     that receipt too. The other refusals leave the client's number and receipts as they were. The client's pass may have sent some
    ///     of the functions.
    pub fn update_in<R: Wait>(
        &self,
        rt: &R,
        alloc: Global,
        client: &mut Client<N>,
        mode: Mode,
        name: &[u8],
        expected: &[u8],
        source: &[u8],
    ) -> Result<Receipt, ServiceFault>
        ensures answers { UpdateAnswers mode name.now expected.now source.now client.old.member client.new.member result }
        ensures stored { IfOk result (λ receipt. IsStored D.Disk N.base N.from N.left receipt) }
        ensures sent { HasSentFor source.now client.old.sent client.new.sent }
    {
        let Ok(name) = Name::new(name) else {
            return Err(ServiceFault::BadName);
        };
        match begun(rt, alloc, &self.pool, &mut client.pass, mode, source) {
            Ok(prepared) => {
                // Until the unit is put, the client counts as waiting for it.
                self.putting.fetch_add(1, Ordering::SeqCst);
                let answer = self.update_unit(rt, alloc, client, name, expected, prepared);
                self.putting.fetch_sub(1, Ordering::SeqCst);
                answer
            }
            Err(fault) => Err(fault),
        }
    }

    // Replaces a unit with the unit of a prepared text, if the old unit's source is the expected one.
    fn update_unit<R: Wait>(
        &self,
        rt: &R,
        alloc: Global,
        client: &mut Client<N>,
        name: Name,
        expected: &[u8],
        prepared: Prepared<N>,
    ) -> Result<Receipt, ServiceFault>
        requires named { IsTrue (is_name name) }
        ensures answers { UpdateAnswers prepared.mode name expected.now prepared.text client.old.member client.new.member result }
        ensures stored { IfOk result (λ receipt. IsStored D.Disk N.base N.from N.left receipt) }
        ensures sent { client.new.sent ≡ client.old.sent }
    {
        match prepared.unit(rt, alloc, &self.pool) {
            Ok(unit) => self.exchange(rt, alloc, client, name, expected, unit),
            Err(fault) => Err(fault),
        }
    }

    // Compares the source and makes the change, under the book's lock.
    fn exchange<R: Wait>(
        &self,
        rt: &R,
        alloc: Global,
        client: &mut Client<N>,
        name: Name,
        expected: &[u8],
        unit: CompiledUnit,
    ) -> Result<Receipt, ServiceFault>
        ensures answers { UpdatesBy (commands.Replace name unit) name expected.now client.old.member client.new.member result }
        ensures stored { IfOk result (λ receipt. IsStored D.Disk N.base N.from N.left receipt) }
        ensures sent { client.new.sent ≡ client.old.sent }
    {
        let mut book = self.book.lock(rt);
        let answer = client.update(alloc, &mut book, name, expected, unit);
        book.survives();
        drop(book);
        answer
    }

    /// Whether some client waits for a unit that it puts. No clause says anything about the answer. A client that makes no other call at
    /// the time, and hands in texts early only if the answer is false, makes no other client wait longer.
    pub fn is_busy(&self) -> bool {
        self.putting.load(Ordering::SeqCst) != 0
    }

    /// Compiles a text and adds its unit under a name that has no unit: `put` with `Add`.
    pub fn add<R: Wait>(
        &self,
        rt: &R,
        alloc: Global,
        client: &mut Client<N>,
        name: &[u8],
        source: &[u8],
    ) -> Result<Receipt, ServiceFault>
        ensures answers { PutAnswers Plain (Adds Plain name.now source.now) name.now source.now client.old.member client.new.member result }
        ensures stored { IfOk result (λ receipt. IsStored D.Disk N.base N.from N.left receipt) }
        ensures sent { HasSentFor source.now client.old.sent client.new.sent }
    {
        self.put(rt, alloc, client, Put::Add, name, source)
    }

    /// Compiles a text and replaces a name's unit: `put` with `Replace`.
    pub fn replace<R: Wait>(
        &self,
        rt: &R,
        alloc: Global,
        client: &mut Client<N>,
        name: &[u8],
        source: &[u8],
    ) -> Result<Receipt, ServiceFault>
        ensures answers { PutAnswers Plain (Replaces Plain name.now source.now) name.now source.now client.old.member client.new.member result }
        ensures stored { IfOk result (λ receipt. IsStored D.Disk N.base N.from N.left receipt) }
        ensures sent { HasSentFor source.now client.old.sent client.new.sent }
    {
        self.put(rt, alloc, client, Put::Replace, name, source)
    }

    /// Removes a name and its unit.
    ///
    /// Refusals, in this order: 33, 36, 39, 32, 34, 35. 40 if memory ran out. Only 32 comes with a receipt; the other refusals leave the
    /// client as it was.
    pub fn withdraw<R: Wait>(
        &self,
        rt: &R,
        alloc: Global,
        client: &mut Client<N>,
        name: &[u8],
    ) -> Result<Receipt, ServiceFault>
        ensures answers { WithdrawAnswers name.now client.old.member client.new.member result }
        ensures stored { IfOk result (λ receipt. IsStored D.Disk N.base N.from N.left receipt) }
        ensures sent { client.new.sent ≡ client.old.sent }
    {
        let Ok(name) = Name::new(name) else {
            return Err(ServiceFault::BadName);
        };
        self.change(rt, alloc, client, Command::Withdraw(name))
    }

    // Makes a change under the book's lock.
    fn change<R: Wait>(
        &self,
        rt: &R,
        alloc: Global,
        client: &mut Client<N>,
        command: Command,
    ) -> Result<Receipt, ServiceFault>
        ensures answers { MakesAnswers command client.old.member client.new.member result }
        ensures stored { IfOk result (λ receipt. IsStored D.Disk N.base N.from N.left receipt) }
        ensures sent { client.new.sent ≡ client.old.sent }
    {
        let mut book = self.book.lock(rt);
        let answer = client.change(alloc, &mut book, command);
        book.survives();
        drop(book);
        match answer {
            Ok(receipt) => Ok(receipt),
            Err(fault) => Err(ServiceFault::Book(fault)),
        }
    }

    /// The unit under a name.
    ///
    /// Refusals, in this order: 33, 39, 32. 40 if memory ran out. Only 32 comes with a receipt; the other refusals leave the client as it
    /// was.
    pub fn get<R: Wait>(
        &self,
        rt: &R,
        alloc: Global,
        client: &mut Client<N>,
        name: &[u8],
    ) -> Result<Found, ServiceFault>
        ensures answers { GetAnswers name.now client.old.member client.new.member result }
        ensures sent { client.new.sent ≡ client.old.sent }
    {
        let Ok(name) = Name::new(name) else {
            return Err(ServiceFault::BadName);
        };
        match self.look(rt, alloc, client, Asked::Fetch(name)) {
            Ok(receipt) => if has_unit(&receipt) {
                Ok(Found::new(receipt))
            } else {
                Err(ServiceFault::Book(BookFault::Absent(receipt)))
            },
            Err(fault) => Err(ServiceFault::Book(fault)),
        }
    }

    /// All names that have a unit, in the order of their bytes.
    ///
    /// 39 if the client's last receipt does not match the history; 40 if memory ran out. Both leave the client as it was.
    pub fn list<R: Wait>(
        &self,
        rt: &R,
        alloc: Global,
        client: &mut Client<N>,
    ) -> Result<Listing, ServiceFault>
        ensures answers { ListAnswers client.old.member client.new.member result }
        ensures sent { client.new.sent ≡ client.old.sent }
    {
        match self.look(rt, alloc, client, Asked::Names) {
            Ok(receipt) => Ok(Listing::new(receipt)),
            Err(fault) => Err(ServiceFault::Book(fault)),
        }
    }

    // Looks up a name or all names under the book's lock.
    fn look<R: Wait>(
        &self,
        rt: &R,
        alloc: Global,
        client: &mut Client<N>,
        asked: Asked,
    ) -> Result<Receipt, BookFault>
        requires { IsLook asked }
        ensures ok { IfOk result (λ receipt. IsSeen asked client.old.member client.new.member receipt) }
        ensures err { IfErr result (λ fault. IsTurnedAway client.old.member client.new.member fault) }
        ensures sent { client.new.sent ≡ client.old.sent }
    {
        client.look(alloc, &mut self.book.lock(rt), asked)
    }

    /// Writes the library's records again, one for each name. The map stays the same, and the history gets no entry.
    ///
    /// Refusals, in this order: 36, 34, 35. 40 if memory ran out.
    pub fn compact<R: Wait>(&self, rt: &R, alloc: Global) -> Result<(), ServiceFault>
        ensures { IfErr result (λ fault. (f : BookFault) × (fault ≡ service.Book f) × IsNotCompacted f) }
    {
        let answer = self.book.lock(rt).compact(alloc);
        match answer {
            Ok(()) => Ok(()),
            Err(fault) => Err(ServiceFault::Book(fault)),
        }
    }

    /// How much of its area the library takes. The history gets no entry.
    ///
    /// 36 if the device has failed.
    pub fn space<R: Wait>(&self, rt: &R) -> Result<SpaceUse, ServiceFault>
        ensures answers { SpaceAnswers result }
        ensures moment { IfOk result (λ space. IsSpaceThen D.Disk N.base N.from N.left space) }
    {
        space_of(&self.book.lock(rt))
    }

    /// Ends the service, with all its clients.
    ///
    /// 39 for the first receipt that does not match the history; 39, with the history's length and no entry, if these are not all the
    /// clients that the service made; 40 if memory ran out. After a refusal the service and the clients are handed back, and no worker has
    /// been stopped. A failure to end the workers does not change the answer.
    pub fn finish<R: Wait>(
        self,
        rt: &R,
        alloc: Global,
        clients: Vec<Client<N>>,
    ) -> Result<Closed<D>, (ServiceFault, Service<N, D>, Vec<Client<N>>)>
        // One legal history from the base leads to the library. What a crash then leaves of the disk has each acknowledged command; what a
        // crash may have left at any moment since the opening has a prefix of these.
        ensures sound { IfOk result (λ r. IsSound D.Disk N.base N.from N.left (record { base = r.base; library = r.library; history = r.history.items; failed = r.failed.items })) }
        // Each change that failed did so in a device call that failed since the opening: if none did, whatever a crash leaves has exactly
        // the map.
        ensures blamed { IfOk result (λ r. FailedByDevice D.Disk N.failures (record { base = r.base; library = r.library; history = r.history.items; failed = r.failed.items })) }
        // Every receipt of every client is in the history, once and in the client's order.
        ensures closed { IfOk result (λ r. IsClosed r.history.items (members clients.items)) }
        ensures receipts { IfOk result (λ r. map (λ v. v.items) r.receipts.items ≡ map (λ c. c.receipts) (members clients.items)) }
        ensures own { IfOk result (λ _. AreOwn (members clients.items)) }
        ensures back { IfErr result (λ e. e.2 ≡ clients) }
        // If the refusal is 39 and has an entry, it concerns a receipt of one of these clients.
        ensures refused { IfErr result (λ e. IsNotEnded D.honest N.base (members clients.items) e.0) }
    {
        let Service {
            book,
            desk,
            pool,
            putting: _,
        } = self;
        let book = book.into_inner();
        book.survives();
        let Desk { made, rest } = desk.into_inner();
        match ready(alloc, &book, made, clients.as_slice()) {
            Ok(left) => {
                let (closed, passes) = end(book, rest, clients, left);
                drop(pool.finish(rt, passes));
                Ok(closed)
            }
            Err(fault) => {
                let service = Service {
                    book: Mutex::new(book),
                    desk: Mutex::new(Desk { made, rest }),
                    pool,
                    putting: AtomicU64::new(0),
                };
                Err((ServiceFault::Book(fault), service, clients))
            }
        }
    }

    /// Ends the service with any clients, and returns its disk and whether these are all its clients: each of their receipts matches the
    /// history, no two clients have the same number, and each entry of the history has a receipt. The call needs no memory, so it can end a
    /// service that `finish` refuses to end, or one that has lost a client.
    pub fn give_up<R: Wait>(self, rt: &R, alloc: Global, clients: Vec<Client<N>>) -> (D, bool)
        ensures { IsGivenUp D.Disk N.failures N.base N.from N.left (members clients.items) result.1 result.0 }
    {
        let Service {
            book,
            desk,
            pool,
            putting: _,
        } = self;
        drop(desk);
        let given_up = book.into_inner().give_up(clients.as_slice());
        drop(clients);
        // The workers are stopped; all passes have been dropped, so this cannot be refused.
        drop(pool.finish(rt, Vec::new(alloc)));
        given_up
    }
}
