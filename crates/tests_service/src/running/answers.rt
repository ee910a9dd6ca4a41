// The answers to one client: to each call on its happy path, and each refusal of names, texts and the map.

use super::reading::{done_at, is_found, is_listed, number};
use super::starting::{ALL, Fused, Own, ended};
use super::trial::{Trial, succeeds};
use crate::helpers::{TEXTS, repeated};
use crate::model::{EMPTY, replayed, shows};
use cc_disk::Disk;
use cc_history::Receipt;
use cc_pool::NoGate;
use cc_service::{Client, Closed, ServiceFault};
use std::alloc::Global;
use std::sync::Wait;
use std::test::Fail;
use tests_texts::lists::alone;

// The map after the changes.
const AFTER: [Option<usize>; 3] = [Some(2), Some(0), None];

#[test]
fn one_client_makes_each_call(rt: HostRuntime) -> Result<(), Fail> {
    succeeds(&rt, rt.alloc(), ALL, 2, NoGate, Trial::EachCall)
}

/// Makes changes, looks and calls that are refused, and ends.
pub fn each_call<N: Own, R: Wait>(rt: &R, alloc: Global, service: Fused<N>) -> Result<bool, Fail> {
    let mut client = service.client(rt, alloc)?;
    let changed = are_changed(rt, alloc, &service, &mut client);
    let seen = are_seen(rt, alloc, &service, &mut client);
    let refused = are_refused(rt, alloc, &service, &mut client)?;
    let last = match client.last() {
        Some(receipt) => receipt.number,
        None => 0,
    };
    let right = changed && seen && refused && last == 11 && client.receipts().len() == 11;
    let closed = ended(rt, alloc, service, alone(alloc, client)?)?;
    Ok(right && is_whole(alloc, &closed)?)
}

// Lists an empty map, adds `b` and then `a`, and replaces `a`: entries 1 to 4.
fn are_changed<N: Own, R: Wait>(
    rt: &R,
    alloc: Global,
    service: &Fused<N>,
    client: &mut Client<N>,
) -> bool {
    is_listed(service.list(rt, alloc, client), 1, &EMPTY)
        && done_at(service.add(rt, alloc, client, b"b", TEXTS[0])) == 2
        && done_at(service.add(rt, alloc, client, b"a", TEXTS[1])) == 3
        && done_at(service.replace(rt, alloc, client, b"a", TEXTS[2])) == 4
}

// Looks at one name and at all, before and after a compaction, which makes no entry: entries 5 to 7.
fn are_seen<N: Own, R: Wait>(
    rt: &R,
    alloc: Global,
    service: &Fused<N>,
    client: &mut Client<N>,
) -> bool {
    is_listed(service.list(rt, alloc, client), 5, &AFTER)
        && number(service.compact(rt, alloc)) == 0
        && is_found(service.get(rt, alloc, client, b"a"), 6, TEXTS[2])
        && is_listed(service.list(rt, alloc, client), 7, &AFTER)
}

// Calls with names that are not names, with texts that are not programs, and with names that have a unit or none; the last four
// are entries 8 to 11.
fn are_refused<N: Own, R: Wait>(
    rt: &R,
    alloc: Global,
    service: &Fused<N>,
    client: &mut Client<N>,
) -> Result<bool, Fail> {
    let long = [b'a'; 33];
    let names = number(service.withdraw(rt, alloc, client, b"A")) == 33
        && number(service.add(rt, alloc, client, b"", TEXTS[0])) == 33
        && number(service.replace(rt, alloc, client, b"A", b"/*")) == 33
        && number(service.get(rt, alloc, client, &long)) == 33;
    let texts = are_texts_refused(rt, alloc, service, client)?;
    let counted = client.receipts().len() == 7;
    let map = number(service.add(rt, alloc, client, b"b", TEXTS[1])) == 31
        && number(service.replace(rt, alloc, client, b"c", TEXTS[1])) == 32
        && number(service.withdraw(rt, alloc, client, b"c")) == 32
        && number(service.get(rt, alloc, client, b"c")) == 32;
    Ok(names && texts && counted && map)
}

// Whether an answer is the fault with this number, at this column of the first line, or without a place if `column` is 0.
fn is_refused_at(answer: Result<Receipt, ServiceFault>, number: u32, column: usize) -> bool {
    match answer {
        Ok(receipt) => {
            drop(receipt);
            false
        }
        Err(fault) => {
            let right = fault.number() == number
                && match fault.place() {
                    Some(place) => place.line == 1 && place.column == column,
                    None => column == 0,
                };
            drop(fault);
            right
        }
    }
}

// Texts with an unclosed comment, an unexpected token, and an unknown name; one that is too long for a text, one with too many
// nodes for a function, and one that is too long for the area.
fn are_texts_refused<N: Own, R: Wait>(
    rt: &R,
    alloc: Global,
    service: &Fused<N>,
    client: &mut Client<N>,
) -> Result<bool, Fail> {
    let long = repeated(alloc, b"", b" ", 65537, b"")?;
    let nodes = repeated(alloc, b"int main(void){", b"write_word(0);", 4097, b"}")?;
    let full = repeated(alloc, b"", b" ", 5000, TEXTS[0])?;
    let texts: [(&[u8], u32, usize); 6] = [
        (b"/*", 2, 1),
        (b"int main(void){return 1 2;}", 5, 25),
        (b"int main(void){x=1;}", 11, 16),
        (long.as_slice(), 7, 0),
        (nodes.as_slice(), 22, 0),
        (full.as_slice(), 34, 0),
    ];
    let mut right = true;
    for (text, number, column) in texts.iter() {
        let answer = service.add(rt, alloc, client, b"c", *text);
        right = right && is_refused_at(answer, *number, *column);
    }
    Ok(right)
}

// Whether the end returns the base, which has no name, the library with the map, and a history and receipts with which the
// model agrees.
fn is_whole<D: Disk>(alloc: Global, closed: &Closed<D>) -> Result<bool, Fail> {
    let replays = match replayed(closed.history.as_slice(), closed.receipts.as_slice()) {
        Some(model) => model == AFTER,
        None => false,
    };
    Ok(
        replays
            && closed.history.len() == 11
            && closed.base.names(alloc)?.len() == 0
            && shows(alloc, &closed.library, &AFTER)?,
    )
}
