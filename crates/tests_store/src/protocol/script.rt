// Scripts: events written with plain numbers, played on a state over any build, and their answers.

use crate::library::helpers::name;
use cc_core::build::Build;
use cc_core::command::{Reply, Request};
use cc_core::event::Event;
use cc_core::fault::CoreFault;
use cc_core::ids::{CallId, ClientId, PartIndex, WorkerId};
use cc_core::sequence::Sequence;
use cc_core::state::State;
use cc_library::Name;
use std::alloc::{AllocError, Global};
use std::test::Fail;

/// What happens, written with plain numbers: clients, workers and pieces are given by their numbers, a name by its one letter, and a
/// source by its text.
#[derive(Clone, Copy)]
pub enum Line {
    Add(u64, u8, &'static str),
    Replace(u64, u8, &'static str),
    Withdraw(u64, u8),
    Take(u64, u64, u32),
    Done(u64, &'static str, u32),
    Refuse(u64, u32),
    Begin(u64),
    WriteBody,
    SyncBody,
    WriteGate,
    SyncGate,
    /// The four device events of a commit.
    Write,
    RewriteAll,
    SyncAll,
    WriteArea,
    SyncArea,
    /// The four events of a rewrite.
    Rewrite,
    Fails,
    Ack(u64),
    /// A crash that leaves this byte at unsettled offsets from 0 to 3,999, and 0 at later ones.
    Crash(u8),
    Recover,
    /// A worker takes the only piece of a client's source and makes it.
    Make(u64, u64, &'static str),
    /// A client's commit begins, is written, and is acknowledged.
    Commit(u64),
    /// A client's commit begins and is written up to its gate, but the gate is not synced.
    UpToGate(u64),
    /// A worker and a client: the client adds a name with a source of one piece, the worker makes it, and the commit is acknowledged.
    Put(u64, u64, u8, &'static str),
}

use Line::{
    Ack, Add, Begin, Commit, Crash, Done, Fails, Make, Put, Recover, Refuse, Replace, Rewrite,
    RewriteAll, SyncAll, SyncArea, SyncBody, SyncGate, Take, UpToGate, Withdraw, Write, WriteArea,
    WriteBody, WriteGate,
};

/// A build whose pieces a script can make from sources.
pub trait Scripted: Build {
    /// The piece that is this part of a source.
    fn piece(alloc: Global, source: &str, part: u32) -> Result<Self::Piece, Fail>;
}

fn text(alloc: Global, source: &str) -> Result<Sequence<u8>, AllocError> {
    Ok(Sequence::new(Vec::from_slice(alloc, source.as_bytes())?))
}

// The name of one letter, and a source.
fn named_text(alloc: Global, letter: u8, source: &str) -> Result<(Name, Sequence<u8>), Fail> {
    let text = text(alloc, source)?;
    Ok((name(letter)?, text))
}

fn client(number: u64) -> ClientId {
    ClientId { number }
}

fn submit<P: Drop>(of: u64, request: Request) -> Event<P> {
    Event::Submit(client(of), CallId { number: 1 }, request)
}

fn worker(number: u64) -> WorkerId {
    WorkerId { number }
}

// Appends the events of a commit.
fn append_commit(lines: &mut Vec<Line>, of: u64) -> Result<(), AllocError> {
    lines.extend_from_slice(&[Begin(of), WriteBody, SyncBody])?;
    lines.extend_from_slice(&[WriteGate, SyncGate, Ack(of)])
}

// The lines of single events that a line expands to.
fn lines_of(alloc: Global, line: Line) -> Result<Vec<Line>, AllocError> {
    match line {
        Make(by, of, source) => Vec::from_slice(alloc, &[Take(by, of, 0), Done(by, source, 0)]),
        Write => Vec::from_slice(alloc, &[WriteBody, SyncBody, WriteGate, SyncGate]),
        Commit(of) => {
            let mut lines = Vec::new(alloc);
            append_commit(&mut lines, of)?;
            Ok(lines)
        }
        UpToGate(of) => Vec::from_slice(alloc, &[Begin(of), WriteBody, SyncBody, WriteGate]),
        Put(by, of, letter, source) => {
            let mut lines = Vec::from_slice(alloc, &[Add(of, letter, source)])?;
            lines.extend_from_slice(&[Take(by, of, 0), Done(by, source, 0)])?;
            append_commit(&mut lines, of)?;
            Ok(lines)
        }
        Rewrite => Vec::from_slice(alloc, &[RewriteAll, SyncAll, WriteArea, SyncArea]),
        _ => Vec::from_slice(alloc, &[line]),
    }
}

// The event of a line that is a single event.
fn event<B: Scripted>(alloc: Global, line: Line) -> Result<Event<B::Piece>, Fail> {
    match line {
        Add(of, letter, source) => {
            let (name, text) = named_text(alloc, letter, source)?;
            Ok(submit(of, Request::Add(name, text)))
        }
        Replace(of, letter, source) => {
            let (name, text) = named_text(alloc, letter, source)?;
            Ok(submit(of, Request::Replace(name, text)))
        }
        Withdraw(of, letter) => Ok(submit(of, Request::Withdraw(name(letter)?))),
        Take(by, of, index) => Ok(Event::Take(worker(by), client(of), PartIndex { index })),
        Done(by, source, part) => Ok(Event::Done(worker(by), B::piece(alloc, source, part)?)),
        Refuse(by, refusal) => Ok(Event::Refuse(worker(by), refusal)),
        Begin(of) => Ok(Event::Begin(client(of))),
        WriteBody => Ok(Event::WriteBody),
        SyncBody => Ok(Event::SyncBody),
        WriteGate => Ok(Event::WriteGate),
        SyncGate => Ok(Event::SyncGate),
        RewriteAll => Ok(Event::RewriteAll),
        SyncAll => Ok(Event::SyncAll),
        WriteArea => Ok(Event::WriteArea),
        SyncArea => Ok(Event::SyncArea),
        Fails => Ok(Event::Fail),
        Ack(of) => Ok(Event::Ack(client(of))),
        Crash(byte) => Ok(Event::Crash(Sequence::new(vec![in alloc; byte; 4000]?))),
        Recover => Ok(Event::Recover),
        Make(..) | Write | Commit(_) | UpToGate(_) | Put(..) | Rewrite => Err(Fail::from(
            "several events",
        )),
    }
}

/// The events of these lines.
pub fn events<B: Scripted>(alloc: Global, lines: &[Line]) -> Result<Vec<Event<B::Piece>>, Fail> {
    let mut events = Vec::new(alloc);
    for line in lines {
        for single in lines_of(alloc, *line)?.iter() {
            events.push(event::<B>(alloc, *single)?)?;
        }
    }
    Ok(events)
}

// The number of an answer: 0 for no reply, 1 for done, otherwise the number of the refusal or the fault.
fn number_in(answer: &Result<Option<Reply>, CoreFault>) -> u32 {
    match answer {
        Ok(None) => 0,
        Ok(Some(Reply::Done)) => 1,
        Ok(Some(Reply::Refused(refusal))) => refusal.number(),
        Err(fault) => fault.number(),
    }
}

// Whether a line that is a single event gives this answer.
fn answers_one<B: Scripted>(
    alloc: Global,
    state: &mut State<B>,
    line: Line,
    number: u32,
) -> Result<bool, Fail> {
    let event = event::<B>(alloc, line)?;
    let answer = state.step(alloc, event);
    let right = number_in(&answer) == number;
    drop(answer);
    Ok(right)
}

// Whether the last event of a line gives this answer, and each event before it gives no reply.
fn answers_line<B: Scripted>(
    alloc: Global,
    state: &mut State<B>,
    line: Line,
    number: u32,
) -> Result<bool, Fail> {
    let lines = lines_of(alloc, line)?;
    let mut left = lines.len();
    for single in lines.iter() {
        left = left.saturating_sub(1);
        let wanted = if left == 0 { number } else { 0 };
        if !answers_one(alloc, state, *single, wanted)? {
            return Ok(false);
        }
    }
    Ok(true)
}

/// Whether these events, played in order, give these answers: 0 for no reply, 1 for done, otherwise the number of the refusal or the
/// fault. If a line expands to several events, its answer is that of the last event, and each event before it gives no reply.
pub fn answers<B: Scripted>(
    alloc: Global,
    state: &mut State<B>,
    lines: &[(Line, u32)],
) -> Result<bool, Fail> {
    for (line, number) in lines {
        if !answers_line(alloc, state, *line, *number)? {
            return Ok(false);
        }
    }
    Ok(true)
}
