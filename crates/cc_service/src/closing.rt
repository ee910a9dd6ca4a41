// The end of a service's book, with all its clients.

ghost use Rattle.std.specs.Prelude.{◌≡◌, ◌+◌, ◌≤◌, [], IfErr, IfOk, OnOk, length, map, vec_len};
ghost use Rattle.std.specs.Vec.{vec_capacity};
ghost use Rattle.cc_history.specs.Closing.{AreApart, AreOwn, IsClosed, ReceiptsStand, receipts_of};
ghost use Rattle.cc_recorded.specs.Answers.{IsNotClosed};
ghost use Rattle.cc_recorded.specs.Promise.{FailedByDevice, IsSound};
ghost use Rattle.cc_service.specs.Client.{members};

use crate::client::Client;
use crate::named::Named;
use cc_disk::{Disk, History};
use cc_history::{Receipt, SharedEntry, receipts_count_up};
use cc_library::{Library, LibraryCommand, UnitMap};
use cc_pool::Pass;
use cc_recorded::{Book, BookFault, Ended};
use std::alloc::{AllocError, Global};
use std::sync::ledger::Share;

/// What remains of a service: the map with which it began, its library, the history, and the receipts of each client, in the clients'
/// order.
#[derive(Drop)]
pub struct Closed<D: Disk> {
    pub base: UnitMap,
    pub library: Library<D>,
    pub history: Vec<SharedEntry>,
    /// The change in whose call the device failed, if there was one. For contracts only.
    pub failed: History<LibraryCommand>,
    pub receipts: Vec<Vec<Receipt>>,
}

/// What clients leave: the receipts of each, and their passes.
#[derive(Drop)]
pub(crate) struct Left<N: Named> {
    pub(crate) receipts: Vec<Vec<Receipt>>,
    pub(crate) passes: Vec<Pass<N>>,
}

impl<N: Named> Left<N> {
    // What clients leave, before any has left anything, with room for this many clients. Err: memory ran out.
    fn with_room(alloc: Global, clients: usize) -> Result<Left<N>, AllocError>
        ensures receipts { IfOk result (λ left. (left.receipts.items ≡ []) × (vec_len left.receipts ≡ 0) × (clients ≤ vec_capacity left.receipts)) }
        ensures passes { IfOk result (λ left. (vec_len left.passes ≡ 0) × (clients ≤ vec_capacity left.passes)) }
    {
        let receipts = Vec::with_capacity(alloc, clients)?;
        let passes = Vec::with_capacity(alloc, clients)?;
        Ok(Left { receipts, passes })
    }
}

// Adds the shares of all clients to `rest`, and stores what the clients leave.
fn gather<N: Named>(rest: &mut Share<N>, clients: Vec<Client<N>>, left: &mut Left<N>)
    requires receipts { (left.old.receipts.items ≡ []) × (vec_len left.old.receipts ≡ 0) × (length clients.items ≤ vec_capacity left.old.receipts) }
    requires passes { (vec_len left.old.passes ≡ 0) × (length clients.items ≤ vec_capacity left.old.passes) }
    ensures receipts { map (λ v. v.items) left.new.receipts.items ≡ map (λ c. c.receipts) (members clients.items) }
    ensures parts { rest.new.parts ≡ rest.old.parts + length clients.items }
    ensures amount { rest.new.amount ≡ rest.old.amount + receipts_of (members clients.items) }
    ensures own { AreOwn (members clients.items) }
{
    let Left {
        receipts: all,
        passes,
    } = left;
    for client in clients {
        let (member, pass) = client.into_parts();
        all.push_reserved(member.leave(rest));
        passes.push_reserved(pass);
    }
}

// Ok if a book for which `made` clients were made can be ended with these clients. The result has room for what they leave; the memory
// for it is allocated first.
pub(crate) fn ready<N: Named, D: Disk>(
    alloc: Global,
    book: &Book<N, D>,
    made: u64,
    clients: &[Client<N>],
) -> Result<Left<N>, BookFault>
    ensures receipts { IfOk result (λ left. (left.receipts.items ≡ []) × (vec_len left.receipts ≡ 0) × (length clients.now ≤ vec_capacity left.receipts)) }
    ensures passes { IfOk result (λ left. (vec_len left.passes ≡ 0) × (length clients.now ≤ vec_capacity left.passes)) }
    ensures many { OnOk result (length clients.now ≡ made) }
    ensures apart { OnOk result (AreApart (members clients.now)) }
    ensures stand { OnOk result (ReceiptsStand book.now.book.history (members clients.now)) }
    ensures err { IfErr result (λ f. IsNotClosed book.now.book.history made (members clients.now) f) }
{
    let Ok(left) = Left::with_room(alloc, clients.len()) else {
        return Err(BookFault::OutOfMemory);
    };
    match book.ready(made, clients) {
        Ok(()) => Ok(left),
        Err(fault) => {
            drop(left);
            Err(fault)
        }
    }
}

// Ends a book with its clients. The shares of all clients, with the rest, are the whole ledger.
pub(crate) fn end<N: Named, D: Disk>(
    book: Book<N, D>,
    mut rest: Share<N>,
    clients: Vec<Client<N>>,
    mut left: Left<N>,
) -> (Closed<D>, Vec<Pass<N>>)
    requires receipts { (left.receipts.items ≡ []) × (vec_len left.receipts ≡ 0) × (length clients.items ≤ vec_capacity left.receipts) }
    requires passes { (vec_len left.passes ≡ 0) × (length clients.items ≤ vec_capacity left.passes) }
    requires parts { rest.parts + length clients.items ≡ N.parts }
    requires amount { rest.amount ≡ 0 }
    requires apart { AreApart (members clients.items) }
    requires stand { ReceiptsStand book.book.history (members clients.items) }
    ensures sound { IsSound D.Disk N.base N.from N.left (record { base = result.0.base; library = result.0.library; history = result.0.history.items; failed = result.0.failed.items }) }
    ensures blamed { FailedByDevice D.Disk N.failures (record { base = result.0.base; library = result.0.library; history = result.0.history.items; failed = result.0.failed.items }) }
    ensures closed { IsClosed result.0.history.items (members clients.items) }
    ensures receipts { map (λ v. v.items) result.0.receipts.items ≡ map (λ c. c.receipts) (members clients.items) }
    // The receipts of each client are those of its own calls.
    ensures own { AreOwn (members clients.items) }
{
    receipts_count_up();
    gather(&mut rest, clients, &mut left);
    let Ended {
        base,
        library,
        history,
        failed,
    } = book.end(rest);
    let Left { receipts, passes } = left;
    let closed = Closed {
        base,
        library,
        history,
        failed,
        receipts,
    };
    (closed, passes)
}

/// Ends a book with its clients. `rest`, together with one part for each of the `made` clients, has to be the whole ledger. The clients'
/// passes are dropped.
///
/// 39 for the first receipt that does not match the history; 39, with the history's length and no entry, if these are not all the clients
/// that were made; 40 if memory ran out. In each case everything is handed back.
pub fn close<N: Named, D: Disk>(
    alloc: Global,
    book: Book<N, D>,
    made: u64,
    rest: Share<N>,
    clients: Vec<Client<N>>,
) -> Result<Closed<D>, (BookFault, Book<N, D>, Share<N>, Vec<Client<N>>)>
    requires parts { rest.parts + made ≡ N.parts }
    requires amount { rest.amount ≡ 0 }
    ensures sound { IfOk result (λ r. IsSound D.Disk N.base N.from N.left (record { base = r.base; library = r.library; history = r.history.items; failed = r.failed.items })) }
    ensures blamed { IfOk result (λ r. FailedByDevice D.Disk N.failures (record { base = r.base; library = r.library; history = r.history.items; failed = r.failed.items })) }
    ensures closed { IfOk result (λ r. IsClosed r.history.items (members clients.items)) }
    ensures all { OnOk result (length clients.items ≡ made) }
    ensures receipts { IfOk result (λ r. map (λ v. v.items) r.receipts.items ≡ map (λ c. c.receipts) (members clients.items)) }
    ensures own { IfOk result (λ _. AreOwn (members clients.items)) }
    ensures back { IfErr result (λ e. (e.1 ≡ book) × (e.2.parts ≡ rest.parts) × (e.2.amount ≡ rest.amount) × (e.3 ≡ clients)) }
    ensures err { IfErr result (λ e. IsNotClosed book.book.history made (members clients.items) e.0) }
{
    match ready(alloc, &book, made, clients.as_slice()) {
        Ok(left) => {
            let (closed, passes) = end(book, rest, clients, left);
            drop(passes);
            Ok(closed)
        }
        Err(fault) => Err((fault, book, rest, clients)),
    }
}
