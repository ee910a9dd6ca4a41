// Commits of compiled units, what refuses them, and crashes.

use crate::protocol::compiled::leaves;
use crate::protocol::script::Line::{
    Ack, Add, Begin, Commit, Crash, Done, Make, Put, Recover, Refuse, Replace, SyncBody, SyncGate,
    Take, Withdraw, WriteBody, WriteGate,
};
use crate::protocol::script::{Line, events};
use cc_core::state::State;
use cc_headline::{CcBuild, run};
use std::alloc::Global;
use std::test::Fail;
use tests_texts::verdict::passes;

/// A program that writes its input times 7.
const SEVEN: &str = "int main(void){write_word(read_word()*7);return 0;}";

/// A program that writes the factorial of its input, and has two functions.
const FACTORIAL: &str =
    "int f(int n){if(n<2)return 1;return n*f(n-1);}int main(void){write_word(f(read_word()));return 0;}";

const BROKEN: &str = "int main(void){return 0}";

const UNKNOWN: &str = "int main(void){return totl;}";

// The worked table: two clients add `a`, each with a source of its own; the second client is first to commit.
const TWO_CLIENTS: [(Line, u32); 20] = [
    (Add(1, b'a', SEVEN), 0),
    (Add(2, b'a', FACTORIAL), 0),
    (Take(1, 1, 0), 0),
    (Take(2, 2, 0), 0),
    (Take(3, 2, 1), 0),
    // a function of the other source, and the source's other function
    (Done(2, SEVEN, 0), 29),
    (Done(2, FACTORIAL, 1), 29),
    (Done(3, FACTORIAL, 1), 0),
    (Begin(2), 29),
    (Done(2, FACTORIAL, 0), 0),
    (Begin(2), 0),
    (Done(1, SEVEN, 0), 0),
    (Begin(1), 29),
    (WriteBody, 0),
    (SyncBody, 0),
    (WriteGate, 0),
    (Ack(2), 29),
    (SyncGate, 0),
    (Ack(2), 1),
    (Begin(1), 31),
];

#[test]
fn two_clients_add_one_name(rt: HostRuntime) -> Result<(), Fail> {
    let alloc = rt.alloc();
    let state = State::new(alloc, CcBuild {}, 4000)?;
    passes(leaves(alloc, state, &TWO_CLIENTS, Some((FACTORIAL, 720))))
}

// A fault of a source, one of a function, and one of the map; then one unit replaces another, and then it is withdrawn.
const REFUSED: [(Line, u32); 17] = [
    (Add(1, b'a', BROKEN), 0),
    (Begin(1), 5),
    (Add(1, b'a', UNKNOWN), 0),
    (Begin(1), 11),
    (Replace(1, b'a', SEVEN), 0),
    (Make(1, 1, SEVEN), 0),
    (Begin(1), 32),
    (Add(1, b'a', FACTORIAL), 0),
    (Take(1, 1, 1), 0),
    (Take(2, 1, 0), 0),
    (Done(1, FACTORIAL, 1), 0),
    (Refuse(2, 22), 0),
    (Begin(1), 22),
    (Put(1, 1, b'a', SEVEN), 1),
    (Add(2, b'a', SEVEN), 0),
    (Make(1, 2, SEVEN), 0),
    (Begin(2), 31),
];

#[test]
fn refused(rt: HostRuntime) -> Result<(), Fail> {
    let alloc = rt.alloc();
    let state = State::new(alloc, CcBuild {}, 4000)?;
    passes(leaves(alloc, state, &REFUSED, Some((SEVEN, 42))))
}

// A unit is acknowledged; then the commit of its replacement begins.
const REPLACED: [Line; 8] = [
    Put(1, 1, b'a', SEVEN),
    Replace(1, b'a', FACTORIAL),
    Take(1, 1, 0),
    Take(2, 1, 1),
    Done(1, FACTORIAL, 0),
    Done(2, FACTORIAL, 1),
    Begin(1),
    WriteBody,
];

// The state to which these events lead from a new state.
fn played(alloc: Global, lines: &[Line]) -> Result<State<CcBuild>, Fail> {
    let events = events::<CcBuild>(alloc, lines)?;
    let state = State::new(alloc, CcBuild {}, 4000)?;
    Ok(run(alloc, state, events)?)
}

// The old unit stays if a crash comes before the gate is written, whichever bytes the crash leaves.
#[test]
fn crash_before_the_gate(rt: HostRuntime) -> Result<(), Fail> {
    let alloc = rt.alloc();
    for byte in [0x00, 0x5a, 0xa5, 0xff] {
        let state = played(alloc, &REPLACED)?;
        let last = [(Crash(byte), 0), (Recover, 0)];
        passes(leaves(alloc, state, &last, Some((SEVEN, 42))))?;
    }
    Ok(())
}

// A crash during the write of the gate leaves the new unit if the byte that it leaves is that of an open gate, and otherwise the old unit.
#[test]
fn crash_in_the_gate(rt: HostRuntime) -> Result<(), Fail> {
    let alloc = rt.alloc();
    for (byte, wanted) in [(0x00, (SEVEN, 42)), (0xa5, (FACTORIAL, 720))] {
        let state = played(alloc, &REPLACED)?;
        let last = [
            (SyncBody, 0),
            (WriteGate, 0),
            (Crash(byte), 0),
            (Recover, 0),
        ];
        passes(leaves(alloc, state, &last, Some(wanted)))?;
    }
    Ok(())
}

// A unit whose withdrawal was acknowledged is gone after a crash.
#[test]
fn withdrawn(rt: HostRuntime) -> Result<(), Fail> {
    let alloc = rt.alloc();
    let state = played(alloc, &REPLACED[..1])?;
    let last = [
        (Withdraw(1, b'a'), 0),
        (Commit(1), 1),
        (Crash(0xa5), 0),
        (Recover, 0),
    ];
    passes(leaves(alloc, state, &last, None))
}
