// Plays the calls of two clients on a book, and compares each answer with the model.

ghost use Rattle.std.specs.Prelude.{◌≡◌, ◌+◌, ℕ, IsTrue, List};
ghost use Rattle.cc_library.specs.Apply.{Units};
ghost use Rattle.cc_library.specs.Recovered.{Recovers};

use crate::helpers::{TEXTS, bytes_at, found, name_at};
use crate::model::{Call, Change, EMPTY, Model, after, is_reply, number_of};
use cc_disk::Disk;
use cc_history::{Asked, Command, Receipt};
use cc_library::UnitMap;
use cc_link::compile;
use cc_pool::{FreshQueue, NoGate, Pool};
use cc_service::{Book, BookFault, Client, Named, close};
use std::alloc::Global;
use std::marker::Brand;
use std::sync::Wait;
use std::sync::ledger::{Blank, Share};
use std::test::Fail;
use std::thread::Threads;

/// What has been answered so far.
#[derive(Clone, Copy)]
pub struct State {
    /// The map with each change that was answered Ok.
    pub model: Model,
    /// The place of the call that was answered 35, if one was.
    pub failed: Option<usize>,
    /// The map with the change of that call too, if there was one.
    pub with: Model,
    entries: usize,
}

/// The disk at the end, and what was answered.
#[derive(Drop)]
pub struct Played<D: Disk> {
    pub disk: D,
    pub state: State,
}

// The command of a change.
fn command_of(alloc: Global, change: Change) -> Result<Command, Fail> {
    match change {
        Change::Add(name, text) => Ok(Command::Add(
            name_at(name)?,
            compile(alloc, bytes_at(&TEXTS, text))?,
        )),
        Change::Replace(name, text) => Ok(Command::Replace(
            name_at(name)?,
            compile(alloc, bytes_at(&TEXTS, text))?,
        )),
        Change::Withdraw(name) => Ok(Command::Withdraw(name_at(name)?)),
    }
}

// Makes a call. The result is the number of its answer, and the receipt if there is one.
fn made<N: Named, D: Disk>(
    alloc: Global,
    book: &mut Book<N, D>,
    client: &mut Client<N>,
    call: Call,
) -> Result<(u32, Option<Receipt>), Fail> {
    let answer = match call {
        Call::Make(change) => {
            let command = command_of(alloc, change)?;
            client.change(alloc, book, command)
        }
        Call::Get(name) => {
            let name = name_at(name)?;
            client.look(alloc, book, Asked::Fetch(name))
        }
        Call::List => client.look(alloc, book, Asked::Names),
        Call::Compact => match book.compact(alloc) {
            Ok(()) => return Ok((0, None)),
            Err(fault) => Err(fault),
        },
    };
    match answer {
        Ok(receipt) => Ok((0, Some(receipt))),
        Err(BookFault::Exists(receipt)) => Ok((31, Some(receipt))),
        Err(BookFault::Absent(receipt)) => Ok((32, Some(receipt))),
        Err(fault) => {
            let number = fault.number();
            drop(fault);
            Ok((number, None))
        }
    }
}

// Whether this is the receipt of the client's last call, with the number of that entry and the model's reply.
fn is_right<N: Named>(
    receipt: &Receipt,
    client: &Client<N>,
    entries: usize,
    model: &Model,
    call: Call,
    number: u32,
) -> bool {
    let entry = receipt.entry.entry();
    receipt.number == entries as u64
        && entry.client == client.number()
        && entry.call == client.receipts().len() as u64
        && is_reply(&entry.reply, model, call, number)
}

// The state after a call that was put into the history; `None` if its answer is not the model's.
fn recorded<N: Named>(
    state: &State,
    client: &Client<N>,
    call: Call,
    number: u32,
    receipt: &Receipt,
) -> Option<State> {
    let entries = state.entries.checked_add(1)?;
    let idle = match call {
        Call::Make(_) => state.failed.is_none(),
        Call::Compact => false,
        Call::Get(_) | Call::List => true,
    };
    if !idle
        || number != number_of(&state.model, call)
        || !is_right(receipt, client, entries, &state.model, call, number)
    {
        return None;
    }
    let model = if number == 0 {
        after(&state.model, call)
    } else {
        state.model
    };
    let with = if state.failed.is_none() {
        model
    } else {
        state.with
    };
    Some(State {
        model,
        failed: state.failed,
        with,
        entries,
    })
}

// The state after a call that was not put into the history; `None` if it should have been, or if its refusal is not the
// one that the device's failures require.
fn refused(state: &State, place: usize, call: Call, number: u32) -> Option<State> {
    let (compacts, looks) = match call {
        Call::Make(_) => (false, false),
        Call::Compact => (true, false),
        Call::Get(_) | Call::List => (false, true),
    };
    if looks {
        return None;
    }
    if state.failed.is_some() {
        return if number == 36 { Some(*state) } else { None };
    }
    match number {
        0 => if compacts { Some(*state) } else { None },
        35 => if number_of(&state.model, call) == 0 {
            let with = after(&state.model, call);
            let model = state.model;
            Some(State {
                model,
                failed: Some(place),
                with,
                entries: state.entries,
            })
        } else {
            None
        },
        _ => None,
    }
}

// Makes a call, whose answer has to be the model's. The result is the state after it.
fn step<N: Named, D: Disk>(
    alloc: Global,
    book: &mut Book<N, D>,
    client: &mut Client<N>,
    state: &State,
    place: usize,
    call: Call,
) -> Result<State, Fail> {
    let (number, receipt) = made(alloc, book, client, call)?;
    let next = match &receipt {
        Some(receipt) => recorded(state, client, call, number, receipt),
        None => refused(state, place, call, number),
    };
    drop(receipt);
    match next {
        Some(next) => Ok(next),
        None => Err(Fail::from("another answer")),
    }
}

// Ends a book with its two clients.
fn ended<N: Named, D: Disk + Drop>(
    alloc: Global,
    book: Book<N, D>,
    rest: Share<N>,
    one: Client<N>,
    other: Client<N>,
    state: State,
) -> Result<Played<D>, Fail>
    requires parts { rest.parts + 2 ≡ N.parts }
    requires amount { rest.amount ≡ 0 }
{
    let mut clients = Vec::new(alloc);
    clients.push(one)?;
    clients.push(other)?;
    match close(alloc, book, 2, rest, clients) {
        Ok(closed) => if closed.history.len() == state.entries && closed.receipts.len() == 2 {
            Ok(Played {
                disk: closed.library.into_disk(),
                state,
            })
        } else {
            Err(Fail::from("another history"))
        },
        Err(back) => {
            drop(back);
            Err(Fail::from("not closed"))
        }
    }
}

// Plays the calls on a book over the disk, each by the first client or the other one, and ends the book with both.
fn run<N, D, R>(
    rt: &R,
    alloc: Global,
    disk: D,
    base: UnitMap,
    blank: Blank,
    queue: FreshQueue,
    calls: &[(bool, Call)],
) -> Result<Played<D>, Fail>
where
    N: Named + Send + Sync + 'static,
    D: Disk + Drop,
    R: Threads + Wait + Copy + Send + 'static,
    requires name { blank.name ≡ N.name }
    requires parts { (blank.parts ≡ N.parts) × (N.parts ≡ 3) }
    requires queue { queue ≡ N.queue }
    requires base { IsTrue D.honest → (units : Units) → Recovers (D.seen disk) units → units ≡ base }
    requires named { base ≡ N.base }
    requires any { (N.from ≡ 0) × ((image : List ℕ) → N.left image) }
    requires failures { N.failures ≡ 0 }
{
    drop(base);
    // A client has a pass of a pool.
    let pool = Pool::<N>::start(rt, alloc, queue, 1, NoGate)?;
    let (ledger, mut rest) = blank.open::<N>();
    let mut book = match Book::open(alloc, disk, ledger) {
        Ok(book) => book,
        Err(refused) => {
            drop(refused);
            return Err(Fail::from("not opened"));
        }
    };
    let mut one = Client::new(alloc, 1, rest.split_off(1, 0), pool.pass(rt));
    let mut other = Client::new(alloc, 2, rest.split_off(1, 0), pool.pass(rt));
    let mut state = State {
        model: EMPTY,
        failed: None,
        with: EMPTY,
        entries: 0,
    };
    for (place, (first, call)) in calls.iter().enumerate() {
        let client = if *first { &mut one } else { &mut other };
        state = step(alloc, &mut book, client, &state, place, *call)?;
    }
    // `finish` answers 41, since the clients have passes of the pool.
    drop(pool.finish(rt, Vec::new(alloc)));
    ended(alloc, book, rest, one, other, state)
}

/// Plays the calls on a book over the disk. An error if an answer is not the model's.
pub fn play<D, R>(rt: &R, alloc: Global, disk: D, calls: &[(bool, Call)]) -> Result<Played<D>, Fail>
where
    D: Disk + Drop,
    R: Threads + Wait + Copy + Send + 'static,
{
    let (disk, base) = found(alloc, disk)?;
    let queue = FreshQueue::new(alloc)?;
    over(rt, alloc, disk, base, queue, calls)
}

fn over<D, R>(
    rt: &R,
    alloc: Global,
    disk: D,
    base: UnitMap,
    queue: FreshQueue,
    calls: &[(bool, Call)],
) -> Result<Played<D>, Fail>
where
    D: Disk + Drop,
    R: Threads + Wait + Copy + Send + 'static,
    requires base { IsTrue D.honest → (units : Units) → Recovers (D.seen disk) units → units ≡ base }
{
    run::<Brand, D, R>(rt, alloc, disk, base, Blank::new(3), queue, calls)
}
