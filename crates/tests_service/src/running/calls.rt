// Calls of one client, its updates, and calls of two in threads.

ghost use Rattle.tests_service.specs.internal.Named.{IsNamed};

use super::reading::{absent_at, done_at, is_found, number};
use super::starting::{ALL, Begun, Fused, Own, SMALL, adds, begin, ended, opened, prepared};
use super::trial::{Trial, succeeds};
use crate::helpers::{TEXTS, opened as opened_library};
use cc_library::SpaceUse;
use cc_link::Mode;
use cc_pool::NoGate;
use cc_service::{BookFault, Client, MOST_CLIENTS, Named, ServiceFault};
use std::alloc::Global;
use std::cmp::{max, min};
use std::marker::Brand;
use std::sync::Wait;
use std::test::Fail;
use std::thread;
use std::thread::Threads;
use tests_texts::lists::{alone, both};

#[test]
fn one_client(rt: HostRuntime) -> Result<(), Fail> {
    succeeds(&rt, rt.alloc(), ALL, 1, NoGate, Trial::FourCalls)
}

/// Adds, gets, withdraws and gets again; ends without the client, then with it.
pub fn four_calls<N: Own, R: Wait>(rt: &R, alloc: Global, service: Fused<N>) -> Result<bool, Fail> {
    let mut client = service.client(rt, alloc)?;
    let right = are_answered(rt, alloc, &service, &mut client);
    let (service, refused) = ended_without(rt, alloc, service)?;
    let closed = ended(rt, alloc, service, alone(alloc, client)?)?;
    Ok(
        right
            && refused
            && closed.history.len() == 4
            && closed.receipts.len() == 1
            && closed.receipts[0].len() == 4,
    )
}

fn are_answered<N: Own, R: Wait>(
    rt: &R,
    alloc: Global,
    service: &Fused<N>,
    client: &mut Client<N>,
) -> bool {
    done_at(service.add(rt, alloc, client, b"a", SMALL)) == 1
        && is_found(service.get(rt, alloc, client, b"a"), 2, SMALL)
        && done_at(service.withdraw(rt, alloc, client, b"a")) == 3
        && absent_at(service.get(rt, alloc, client, b"a")) == 4
        && has_no_unit(service.space(rt))
}

// Whether there are records but no unit, so that a compaction would leave out every record.
fn has_no_unit(answer: Result<SpaceUse, ServiceFault>) -> bool {
    match answer {
        Ok(space) => (space.compacted, space.units) == (0, 0) && 9 < space.used,
        Err(fault) => {
            drop(fault);
            false
        }
    }
}

// Ends the service without its client, which is refused. Returns the service, and whether the refusal was as it has to be.
fn ended_without<N: Own, R: Wait>(
    rt: &R,
    alloc: Global,
    service: Fused<N>,
) -> Result<(Fused<N>, bool), Fail> {
    match service.finish(rt, alloc, Vec::new(alloc)) {
        Ok(closed) => {
            drop(closed);
            Err(Fail::from("ended without its client"))
        }
        Err((fault, service, clients)) => {
            drop(clients);
            let right = is_estranged(&fault, 4);
            drop(fault);
            Ok((service, right))
        }
    }
}

// Whether the fault is 39 with this number and no entry.
fn is_estranged(fault: &ServiceFault, at: u64) -> bool {
    match fault {
        ServiceFault::Book(BookFault::Estranged { number, found }) => {
            *number == at && found.is_none()
        }
        _ => false,
    }
}

#[test]
fn one_client_updates(rt: HostRuntime) -> Result<(), Fail> {
    succeeds(&rt, rt.alloc(), ALL, 1, NoGate, Trial::Updates)
}

/// Adds a unit, and updates it. An update that expects another source makes only the entry of its look, one that is done makes
/// that entry and the next, and one for a name without a unit makes only the entry of its look.
pub fn updates<N: Own, R: Wait>(rt: &R, alloc: Global, service: Fused<N>) -> Result<bool, Fail> {
    let mut client = service.client(rt, alloc)?;
    let added = done_at(service.add(rt, alloc, &mut client, b"a", TEXTS[0]));
    let mode = Mode::Plain;
    let (first, second, third) = (TEXTS[0], TEXTS[1], TEXTS[2]);
    let other = number(service.update_in(rt, alloc, &mut client, mode, b"a", second, third));
    let done = done_at(service.update_in(rt, alloc, &mut client, mode, b"a", first, second));
    let absent = number(service.update_in(rt, alloc, &mut client, mode, b"b", first, second));
    let is_there = is_found(service.get(rt, alloc, &mut client, b"a"), 6, second);
    let closed = ended(rt, alloc, service, alone(alloc, client)?)?;
    let right = added == 1 && other == 60 && done == 4 && absent == 32 && is_there;
    Ok(right && closed.history.len() == 6)
}

#[test]
fn two_clients_add_one_name(rt: HostRuntime) -> Result<(), Fail> {
    let begun = prepared(rt.alloc(), ALL)?;
    let numbers = two_threads::<Brand, HostRuntime>(&rt, rt.alloc(), begun)?;
    assert_eq!(rt; numbers, (0, 31));
    Ok(())
}

// The numbers of both answers, the lesser one first, 0 for Ok.
fn two_threads<N, R>(rt: &R, alloc: Global, begun: Begun) -> Result<(u32, u32), Fail>
where
    N: Named + Send + Sync + 'static,
    R: Threads + Wait + Copy + Send + Sync + 'static,
    requires { IsNamed begun.fresh begun.base N.name N.parts N.queue N.failures N.base N.from N.left }
{
    let service = opened(begin::<N, R, NoGate>(rt, alloc, begun, 2, NoGate))?;
    let one = service.client(rt, alloc)?;
    let other = service.client(rt, alloc)?;
    let shared = &service;
    let (a, b) = thread::join(
        rt,
        move || adds(rt, alloc, shared, one, b"a"),
        move || adds(rt, alloc, shared, other, b"a"),
    );
    let (one, first) = a;
    let (other, second) = b;
    let closed = ended(rt, alloc, service, both(alloc, one, other)?)?;
    let once = closed.receipts.iter().all(|own| own.len() == 1);
    if closed.history.len() == 2 && closed.receipts.len() == 2 && once {
        Ok((min(first, second), max(first, second)))
    } else {
        Err(Fail::from("another history"))
    }
}

#[test]
fn the_last_client(rt: HostRuntime) -> Result<(), Fail> {
    succeeds(&rt, rt.alloc(), ALL, 1, NoGate, Trial::AllMade)
}

/// Whether 1,024 clients are made and no more, and the service ends with all of them.
pub fn all_made<N: Own, R: Wait>(rt: &R, alloc: Global, service: Fused<N>) -> Result<bool, Fail> {
    let mut clients = Vec::new(alloc);
    for _ in 0..MOST_CLIENTS {
        clients.push(service.client(rt, alloc)?)?;
    }
    let refused = number(service.client(rt, alloc));
    drop(ended(rt, alloc, service, clients)?);
    Ok(refused == 30)
}

#[test]
fn given_up_with_its_client(rt: HostRuntime) -> Result<(), Fail> {
    succeeds(
        &rt,
        rt.alloc(),
        ALL,
        1,
        NoGate,
        Trial::GivesUp { is_lost: false },
    )
}

#[test]
fn given_up_without_its_client(rt: HostRuntime) -> Result<(), Fail> {
    succeeds(
        &rt,
        rt.alloc(),
        ALL,
        1,
        NoGate,
        Trial::GivesUp { is_lost: true },
    )
}

/// Adds a unit and gives the service up, without its client if that is lost. The result is whether the answer says so and the
/// disk has the unit.
pub fn gives_up<N: Own, R: Wait>(
    rt: &R,
    alloc: Global,
    service: Fused<N>,
    is_lost: bool,
) -> Result<bool, Fail> {
    let mut client = service.client(rt, alloc)?;
    let added = number(service.add(rt, alloc, &mut client, b"a", SMALL));
    let mut clients = Vec::with_capacity(alloc, 1)?;
    if is_lost {
        drop(client);
    } else {
        clients.push(client)?;
    }
    let (disk, are_all) = service.give_up(rt, alloc, clients);
    let library = opened_library(alloc, disk)?;
    let units = library.list(alloc)?.len();
    drop(library);
    Ok(added == 0 && are_all != is_lost && units == 1)
}
