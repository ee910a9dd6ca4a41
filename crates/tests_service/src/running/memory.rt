// An `add` while an allocation is refused, with its text handed in first or not. `tests/outside/memory.sh service` refuses each
// allocation of these tests in turn, so there is one test for all of them.

use super::ahead::put_number;
use super::reading::number;
use super::starting::{ALL, Fused, Own, ended};
use super::trial::{Trial, succeeds};
use cc_pool::NoGate;
use cc_service::{Client, Put};
use std::alloc::Global;
use std::sync::Wait;
use std::test::Fail;
use tests_texts::lists::alone;
use tests_texts::worked::LONG;

#[test]
fn every_growth_of_an_add(rt: HostRuntime) -> Result<(), Fail> {
    let trial = Trial::IsAdded { is_ahead: false };
    succeeds(&rt, rt.alloc(), ALL, 1, NoGate, trial)
}

#[test]
fn every_growth_of_a_put_ahead(rt: HostRuntime) -> Result<(), Fail> {
    let trial = Trial::IsAdded { is_ahead: true };
    succeeds(&rt, rt.alloc(), ALL, 1, NoGate, trial)
}

// The number of the answer to an add of the unit.
fn add_number<N: Own, R: Wait>(
    rt: &R,
    alloc: Global,
    service: &Fused<N>,
    client: &mut Client<N>,
    is_ahead: bool,
) -> u32 {
    let text = LONG.as_bytes();
    if is_ahead {
        put_number(rt, alloc, service, client, Put::Add, b"a", text)
    } else {
        number(service.add(rt, alloc, client, b"a", text))
    }
}

// Whether memory ran out.
fn is_out(number: u32) -> bool {
    number == 40 || number == 41
}

// Adds one unit twice. A first call that is refused with 40 or 41 must be as if it had not been made. The result is how many
// entries there are, or `None` if an answer was not as it should be.
fn adds_twice<N: Own, R: Wait>(
    rt: &R,
    alloc: Global,
    service: &Fused<N>,
    client: &mut Client<N>,
    is_ahead: bool,
) -> Option<usize> {
    let first = add_number(rt, alloc, service, client, is_ahead);
    if first != 0 && (!is_out(first) || client.receipts().len() != 0) {
        return None;
    }
    let second = add_number(rt, alloc, service, client, is_ahead);
    let entries = client.receipts().len();
    let right = if first != 0 {
        second == 0 && entries == 1
    } else if second == 31 {
        entries == 2
    } else {
        is_out(second) && entries == 1
    };
    if right { Some(entries) } else { None }
}

/// Whether the unit is there at the end, and the history has exactly the calls that were answered.
pub fn is_added<N: Own, R: Wait>(
    rt: &R,
    alloc: Global,
    service: Fused<N>,
    is_ahead: bool,
) -> Result<bool, Fail> {
    let mut client = service.client(rt, alloc)?;
    let Some(entries) = adds_twice(rt, alloc, &service, &mut client, is_ahead) else {
        return Ok(false);
    };
    let closed = match service.finish(rt, alloc, alone(alloc, client)?) {
        Ok(closed) => closed,
        // If memory ran out while the service ended, it is ended again.
        Err((fault, service, clients)) => {
            let number = fault.number();
            drop(fault);
            if number != 40 {
                drop(service);
                drop(clients);
                return Err(Fail::from("another fault"));
            }
            ended(rt, alloc, service, clients)?
        }
    };
    Ok(closed.history.len() == entries && closed.library.list(alloc)?.len() == 1)
}
