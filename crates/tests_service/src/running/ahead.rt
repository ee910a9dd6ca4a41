// Texts that are handed to the workers before their turn.

use super::gates::{Signs, held_until};
use super::reading::{done_at, is_found, is_listed, number};
use super::starting::{ALL, Fused, OPENING, Own, SMALL, ended};
use super::trial::{Trial, succeeds};
use crate::helpers::{TEXTS, opened as opened_library, repeated};
use crate::model::{EMPTY, Model};
use cc_pool::NoGate;
use cc_service::{Client, Prepared, Put};
use std::alloc::Global;
use std::sync::Wait;
use std::sync::atomic::Ordering;
use std::test::Fail;
use tests_texts::lists::alone;

// The map after two puts.
const AFTER: Model = [Some(0), Some(2), None];

/// A text that is handed in.
pub fn ahead<N: Own, R: Wait>(
    rt: &R,
    alloc: Global,
    service: &Fused<N>,
    client: &mut Client<N>,
    text: &[u8],
) -> Result<Prepared<N>, Fail> {
    match service.prepare(rt, alloc, client, text) {
        Ok(prepared) => Ok(prepared),
        Err(fault) => {
            drop(fault);
            Err(Fail::from("not handed in"))
        }
    }
}

#[test]
fn texts_before_their_turn(rt: HostRuntime) -> Result<(), Fail> {
    succeeds(&rt, rt.alloc(), ALL, 2, NoGate, Trial::BeforeTheirTurn)
}

/// Hands three texts in, puts two of them in another order, with looks in between, and drops one; all calls of the client
/// count.
pub fn before_their_turn<N: Own, R: Wait>(
    rt: &R,
    alloc: Global,
    service: Fused<N>,
) -> Result<bool, Fail> {
    let mut client = service.client(rt, alloc)?;
    let one = ahead(rt, alloc, &service, &mut client, TEXTS[0])?;
    let two = ahead(rt, alloc, &service, &mut client, TEXTS[1])?;
    let three = ahead(rt, alloc, &service, &mut client, TEXTS[2])?;
    let known = one.text() == TEXTS[0] && two.functions() == 1 && three.functions() == 2;
    let idle = client.receipts().len() == 0;
    let before = is_listed(service.list(rt, alloc, &mut client), 1, &EMPTY);
    let later = done_at(service.put_prepared(rt, alloc, &mut client, Put::Add, b"b", three));
    let sooner = done_at(service.put_prepared(rt, alloc, &mut client, Put::Add, b"a", one));
    drop(two);
    let found = is_found(service.get(rt, alloc, &mut client, b"b"), 4, TEXTS[2])
        && is_listed(service.list(rt, alloc, &mut client), 5, &AFTER);
    let closed = ended(rt, alloc, service, alone(alloc, client)?)?;
    let right = known && idle && before && later == 2 && sooner == 3 && found;
    Ok(right && closed.history.len() == 5)
}

#[test]
fn texts_that_are_not_put(rt: HostRuntime) -> Result<(), Fail> {
    succeeds(&rt, rt.alloc(), ALL, 2, NoGate, Trial::NotPut)
}

/// The number of the answer to a put of a text that is handed in first, or of the answer to handing it in, if that is refused.
pub fn put_number<N: Own, R: Wait>(
    rt: &R,
    alloc: Global,
    service: &Fused<N>,
    client: &mut Client<N>,
    put: Put,
    name: &[u8],
    text: &[u8],
) -> u32 {
    match service.prepare(rt, alloc, client, text) {
        Ok(prepared) => number(service.put_prepared(rt, alloc, client, put, name, prepared)),
        Err(fault) => {
            let number = fault.number();
            drop(fault);
            number
        }
    }
}

/// Whether these are refused: names and texts that are not allowed, a function that is too long, a unit that has no room, and a
/// change of a name that already has a unit, or has none.
pub fn not_put<N: Own, R: Wait>(rt: &R, alloc: Global, service: Fused<N>) -> Result<bool, Fail> {
    let mut client = service.client(rt, alloc)?;
    let nodes = repeated(alloc, b"int main(void){", b"write_word(0);", 4097, b"}")?;
    let full = repeated(alloc, b"", b" ", 5000, TEXTS[0])?;
    let calls: [(Put, &[u8], &[u8], u32); 9] = [
        (Put::Add, b"A", SMALL, 33),
        (Put::Replace, b"", nodes.as_slice(), 33),
        (Put::Add, b"a", b"/*", 2),
        (Put::Add, b"a", b"int main(void){x=1;}", 11),
        (Put::Add, b"a", nodes.as_slice(), 22),
        (Put::Add, b"a", full.as_slice(), 34),
        (Put::Replace, b"a", SMALL, 32),
        (Put::Add, b"a", SMALL, 0),
        (Put::Add, b"a", TEXTS[1], 31),
    ];
    let mut right = true;
    for (put, name, text, wanted) in calls.iter() {
        let answer = put_number(rt, alloc, &service, &mut client, *put, *name, *text);
        right = right && answer == *wanted;
    }
    let counted = client.receipts().len() == 3;
    let closed = ended(rt, alloc, service, alone(alloc, client)?)?;
    Ok(right && counted && closed.history.len() == 3)
}

#[test]
fn a_text_ahead_of_a_failed_device(rt: HostRuntime) -> Result<(), Fail> {
    succeeds(&rt, rt.alloc(), OPENING + 2, 1, NoGate, Trial::FailsAhead)
}

/// The device fails at the first of two texts that were handed in; the second is refused. A third is open when the service is
/// given up.
pub fn fails_ahead<N: Own, R: Wait>(
    rt: &R,
    alloc: Global,
    service: Fused<N>,
) -> Result<bool, Fail> {
    let mut client = service.client(rt, alloc)?;
    let one = ahead(rt, alloc, &service, &mut client, TEXTS[0])?;
    let two = ahead(rt, alloc, &service, &mut client, TEXTS[1])?;
    let three = ahead(rt, alloc, &service, &mut client, TEXTS[2])?;
    let failed = number(service.put_prepared(rt, alloc, &mut client, Put::Add, b"a", one));
    let closed = number(service.put_prepared(rt, alloc, &mut client, Put::Add, b"b", two));
    let counted = client.receipts().len() == 0;
    let (disk, are_all) = service.give_up(rt, alloc, alone(alloc, client)?);
    drop(three);
    let library = opened_library(alloc, disk)?;
    let units = library.list(alloc)?.len();
    drop(library);
    Ok(failed == 35 && closed == 36 && counted && are_all && units <= 1)
}

#[test]
fn a_text_ahead_that_is_held(rt: HostRuntime) -> Result<(), Fail> {
    let (signs, gate) = held_until(rt.alloc(), 1, false)?;
    let trial = Trial::HeldAhead { signs: &signs };
    succeeds(&rt, rt.alloc(), ALL, 2, gate, trial)
}

/// Whether a second text is put while the piece of the first, which was handed in, is held, and the first is put after that.
pub fn held_ahead<N: Own, R: Wait>(
    rt: &R,
    alloc: Global,
    service: Fused<N>,
    signs: &Signs,
) -> Result<bool, Fail> {
    let mut client = service.client(rt, alloc)?;
    let one = ahead(rt, alloc, &service, &mut client, TEXTS[0])?;
    signs.wait_for_a_call();
    let two = ahead(rt, alloc, &service, &mut client, TEXTS[1])?;
    let second = done_at(service.put_prepared(rt, alloc, &mut client, Put::Add, b"b", two));
    signs.signs.fetch_add(1, Ordering::SeqCst);
    let first = done_at(service.put_prepared(rt, alloc, &mut client, Put::Add, b"a", one));
    drop(ended(rt, alloc, service, alone(alloc, client)?)?);
    Ok(second == 1 && first == 2 && signs.ended.load(Ordering::SeqCst) == 1)
}
