// What a commit answers, and what it leaves.

use crate::protocol::played::{ONE, TWO, begins, goes_on};
use crate::protocol::script::Line;
use crate::protocol::script::Line::{
    Ack, Add, Begin, Commit, Crash, Done, Make, Put, Recover, Refuse, Replace, Rewrite, SyncBody,
    Take, Withdraw, Write,
};
use cc_core::fault::{BuildRefusal, CoreFault};
use cc_core::sequence::Sequence;
use std::test::Fail;
use tests_texts::verdict::passes;

// A source that the build refuses, one whose pieces the build refuses, and one of two pieces.
const BAD: &str = "#xx";

const UNLINKED: &str = "!xx";

const LONG: &str = "2xx";

// The first line of the worked table: two clients add `a`, each with a source of its own.
const TWO_CLIENTS: [Line; 6] = [
    Add(1, b'a', ONE),
    Add(2, b'a', TWO),
    Take(1, 1, 0),
    Make(2, 2, TWO),
    Begin(2),
    Done(1, ONE, 0),
];

// The other lines of the worked table, with the four device events of the commit before the reply.
const ONE_OF_TWO: [(Line, u32); 5] = [
    (Begin(1), 29),
    (Write, 0),
    (Ack(2), 1),
    (Begin(1), 31),
    (Add(1, b'a', ONE), 0),
];

#[test]
fn two_clients_add_one_name(rt: HostRuntime) -> Result<(), Fail> {
    let alloc = rt.alloc();
    passes(goes_on(alloc, &TWO_CLIENTS, &[], &(None, None, None, 0)))?;
    passes(goes_on(
        alloc,
        &TWO_CLIENTS,
        &ONE_OF_TWO,
        &(Some(TWO), None, None, 1),
    ))
}

// The refusals at the beginning of a commit: of the source, of a piece, of the pieces by the build, and then by the map. Then a unit is
// added, replaced and withdrawn.
const CHANGED: [(Line, u32); 25] = [
    (Add(7, b'a', BAD), 0),
    (Begin(7), 11),
    (Add(7, b'a', ONE), 0),
    (Take(3, 7, 0), 0),
    (Refuse(3, 24), 0),
    (Begin(7), 24),
    (Add(7, b'a', UNLINKED), 0),
    (Make(3, 7, UNLINKED), 0),
    (Begin(7), 25),
    (Withdraw(7, b'a'), 0),
    (Begin(7), 32),
    (Replace(7, b'a', ONE), 0),
    (Make(3, 7, ONE), 0),
    (Begin(7), 32),
    (Withdraw(7, b'a'), 0),
    (Add(1, b'a', ONE), 0),
    (Make(3, 1, ONE), 0),
    (Begin(1), 0),
    (Ack(1), 29),
    (Write, 0),
    (Ack(1), 1),
    (Replace(1, b'a', TWO), 0),
    (Make(3, 1, TWO), 0),
    (Commit(1), 1),
    (Commit(7), 1),
];

#[test]
fn refused_and_changed(rt: HostRuntime) -> Result<(), Fail> {
    passes(begins(rt.alloc(), 200, &CHANGED, &(None, None, None, 3)))
}

// Events that are not possible: before a piece is made, while a worker has one, and while another client's commit is under way.
const NOT_NOW: [(Line, u32); 19] = [
    (Ack(1), 29),
    (Begin(1), 29),
    (Take(1, 1, 0), 29),
    (Add(1, b'a', ONE), 0),
    (Add(2, b'b', TWO), 0),
    (Add(1, b'c', ONE), 29),
    (Begin(1), 29),
    (Take(1, 1, 1), 29),
    (Take(1, 1, 0), 0),
    (Take(1, 2, 0), 29),
    (Take(2, 1, 0), 29),
    (Done(1, TWO, 0), 29),
    (Done(2, ONE, 0), 29),
    (Refuse(2, 24), 29),
    (Done(1, ONE, 0), 0),
    (Begin(1), 0),
    (Ack(2), 29),
    (Begin(1), 29),
    (SyncBody, 29),
];

#[test]
fn not_now(rt: HostRuntime) -> Result<(), Fail> {
    passes(begins(rt.alloc(), 200, &NOT_NOW, &(None, None, None, 0)))
}

// Two pieces come out of order. First one of them is refused; then both are refused, and the answer is the number that refuses the first
// piece; then both are made.
const TWO_PIECES: [(Line, u32); 20] = [
    (Add(1, b'a', LONG), 0),
    (Take(1, 1, 1), 0),
    (Take(2, 1, 0), 0),
    (Done(1, LONG, 0), 29),
    (Done(1, LONG, 1), 0),
    (Refuse(2, 22), 0),
    (Begin(1), 22),
    (Add(1, b'a', LONG), 0),
    (Take(1, 1, 1), 0),
    (Take(2, 1, 0), 0),
    (Refuse(1, 24), 0),
    (Begin(1), 29),
    (Refuse(2, 22), 0),
    (Begin(1), 22),
    (Add(1, b'a', LONG), 0),
    (Take(1, 1, 1), 0),
    (Take(2, 1, 0), 0),
    (Done(1, LONG, 1), 0),
    (Done(2, LONG, 0), 0),
    (Commit(1), 1),
];

#[test]
fn two_pieces(rt: HostRuntime) -> Result<(), Fail> {
    passes(begins(rt.alloc(), 200, &TWO_PIECES, &(Some(LONG), None, None, 1)))
}

// The record of a name of one byte and a source of three bytes takes 28 bytes: the gate, the length, 4 bytes up to the name, 7 for the
// source, 8 for the one code word, and 4 for no globals. An area of 64 bytes has room for two such records and their closed gate, but not
// for three.
const FULL: [(Line, u32); 5] = [
    (Put(3, 1, b'a', ONE), 1),
    (Put(3, 2, b'b', TWO), 1),
    (Add(7, b'c', ONE), 0),
    (Make(3, 7, ONE), 0),
    (Begin(7), 34),
];

#[test]
fn full_area(rt: HostRuntime) -> Result<(), Fail> {
    passes(begins(rt.alloc(), 64, &FULL, &(Some(ONE), Some(TWO), None, 2)))
}

// With a certificate a record takes more: 4 bytes for the certificate's length, and its bytes. An area of 64 bytes has room for a
// certificate of 31 bytes, but not for one of 32. A record with a certificate that fits survives a rewrite and a crash.
const ROOM: &str = "c\x1fx";

const NO_ROOM: &str = "c\x20x";

const CERTIFIED: [(Line, u32); 7] = [
    (Add(7, b'a', NO_ROOM), 0),
    (Make(3, 7, NO_ROOM), 0),
    (Begin(7), 34),
    (Put(3, 1, b'a', ROOM), 1),
    (Rewrite, 0),
    (Crash(0), 0),
    (Recover, 0),
];

#[test]
fn a_certificate_that_has_no_room(rt: HostRuntime) -> Result<(), Fail> {
    passes(begins(rt.alloc(), 64, &CERTIFIED, &(Some(ROOM), None, None, 1)))
}

// A list gives back what it was made from; each fault has its number.
#[test]
fn lists_and_numbers(rt: HostRuntime) -> Result<(), Fail> {
    let numbers = [
        CoreFault::OutOfMemory.number(),
        BuildRefusal::OutOfMemory.number(),
        BuildRefusal::Refused(22).number(),
    ];
    let list = Sequence::new(Vec::from_slice(rt.alloc(), TWO.as_bytes())?);
    let items = [list.get(1).copied(), list.get(3).copied()];
    let bytes = list.into_vec();
    passes(Ok(
        numbers == [40, 40, 22]
            && items == [Some(b'w'), None]
            && bytes.as_slice() == TWO.as_bytes(),
    ))
}
