// A device that fails once.

ghost use Rattle.tests_service.specs.internal.Named.{IsNamed};

use super::reading::{absent_at, is_listed, number, refused_with};
use super::starting::{Begun, Device, Fused, OPENING, Own, SMALL, begin, ended, holds, prepared};
use super::trial::{Trial, is_right, succeeds};
use crate::helpers::TEXTS;
use crate::model::{EMPTY, Model};
use cc_pool::NoGate;
use cc_service::{Client, Named};
use std::alloc::Global;
use std::marker::Brand;
use std::sync::Wait;
use std::test::Fail;
use std::thread::Threads;
use tests_texts::lists::alone;

#[test]
fn a_failed_add(rt: HostRuntime) -> Result<(), Fail> {
    succeeds(&rt, rt.alloc(), OPENING + 2, 1, NoGate, Trial::FailsOnce)
}

/// The first change fails, the next one and a look at the space are refused, and a look at a name is answered; the disk has
/// nothing.
pub fn fails_once<N: Own, R: Wait>(rt: &R, alloc: Global, service: Fused<N>) -> Result<bool, Fail> {
    let mut client = service.client(rt, alloc)?;
    let right = number(service.add(rt, alloc, &mut client, b"a", SMALL)) == 35
        && number(service.add(rt, alloc, &mut client, b"b", SMALL)) == 36
        && number(service.space(rt)) == 36
        && absent_at(service.get(rt, alloc, &mut client, b"a")) == 1;
    let closed = ended(rt, alloc, service, alone(alloc, client)?)?;
    Ok(right && holds(alloc, closed.library.into_disk(), &EMPTY, &EMPTY)?)
}

// The maps before and after each of the five calls.
const MAPS: [Model; 6] = [
    [None, None, None],
    [Some(0), None, None],
    [Some(0), Some(0), None],
    [Some(1), Some(0), None],
    [Some(1), Some(0), None],
    [Some(1), None, None],
];

// The five calls, by their places.
fn call<N: Own, R: Wait>(
    rt: &R,
    alloc: Global,
    service: &Fused<N>,
    client: &mut Client<N>,
    place: usize,
) -> u32 {
    match place {
        0 => number(service.add(rt, alloc, client, b"a", TEXTS[0])),
        1 => number(service.add(rt, alloc, client, b"b", TEXTS[0])),
        2 => number(service.replace(rt, alloc, client, b"a", TEXTS[1])),
        3 => number(service.compact(rt, alloc)),
        _ => number(service.withdraw(rt, alloc, client, b"b")),
    }
}

// The map at a place.
fn map_at(place: usize) -> Model {
    if place < 6 { MAPS[place] } else { EMPTY }
}

// The place of the call that was answered 35, or 5 if there was none. It is an error if a call before it was not answered Ok,
// or one after it was not answered 36.
fn failed_at<N: Own, R: Wait>(
    rt: &R,
    alloc: Global,
    service: &Fused<N>,
    client: &mut Client<N>,
) -> Result<usize, Fail> {
    let mut failed = 5usize;
    for place in 0..5 {
        let answer = call(rt, alloc, service, client, place);
        if answer == 35 && failed == 5 {
            failed = place;
        } else if answer != if failed < 5 { 36 } else { 0 } {
            return Err(Fail::from("another answer"));
        }
    }
    Ok(failed)
}

/// Makes the five calls, looks, and ends. The result is whether the call at place `wanted` failed (none of them, if that is 5),
/// and whether the look, the end, and the disk after crashes are as they should be.
pub fn five_calls<N: Own, R: Wait>(
    rt: &R,
    alloc: Global,
    service: Fused<N>,
    wanted: usize,
) -> Result<bool, Fail> {
    let mut client = service.client(rt, alloc)?;
    let failed = failed_at(rt, alloc, &service, &mut client)?;
    let before = map_at(failed);
    let later = if failed < 5 {
        map_at(failed + 1)
    } else {
        before
    };
    let next = (client.receipts().len() as u64).saturating_add(1);
    let listed = is_listed(service.list(rt, alloc, &mut client), next, &before);
    let closed = ended(rt, alloc, service, alone(alloc, client)?)?;
    let right = holds(alloc, closed.library.into_disk(), &before, &later)?;
    Ok(failed == wanted && listed && right)
}

#[test]
fn a_device_that_fails_once(rt: HostRuntime) -> Result<(), Fail> {
    for passes in 0..21 {
        let trial = Trial::FiveCalls {
            failed: passes as usize / 4,
        };
        assert!(rt;
            is_right(&rt, rt.alloc(), OPENING + passes, 1, NoGate, trial)?,
            "{passes}"
        );
    }
    Ok(())
}

// The device, after opening a service on it was refused with the fault 35.
fn not_opened<N, R>(rt: &R, alloc: Global, begun: Begun) -> Result<Device, Fail>
where
    N: Named + Send + Sync + 'static,
    R: Threads + Wait + Copy + Send + 'static,
    requires { IsNamed begun.fresh begun.base N.name N.parts N.queue N.failures N.base N.from N.left }
{
    refused_with(begin::<N, R, NoGate>(rt, alloc, begun, 1, NoGate), 35)
}

#[test]
fn an_opening_that_fails(rt: HostRuntime) -> Result<(), Fail> {
    for passes in 0..OPENING {
        let begun = prepared(rt.alloc(), passes)?;
        let device = not_opened::<Brand, HostRuntime>(&rt, rt.alloc(), begun)?;
        assert!(rt; holds(rt.alloc(), device, &EMPTY, &EMPTY)?);
    }
    Ok(())
}
