// A full library, and the answers to clients whose changes compact it, or do not.

ghost use Rattle.tests_service.specs.internal.Named.{IsNamed};

use super::reading::number;
use super::starting::{
    ALL, Begun, Device, Fused, OPENING, SMALL, begin, ended, holds, opened, prepared,
};
use crate::helpers::TEXTS;
use crate::model::Model;
use cc_disk::Disk;
use cc_pool::NoGate;
use cc_service::{Client, Named, Service};
use std::alloc::Global;
use std::marker::Brand;
use std::sync::Wait;
use std::test::Fail;
use std::thread::Threads;
use tests_texts::lists::both;

// How many device calls a change makes, and also a compaction.
const CALLS: u64 = 4;

// Adds `a` and replaces it until there is no room. The result is how many changes were made.
fn refill<N, R>(rt: &R, alloc: Global, service: &Fused<N>, client: &mut Client<N>) -> u64
where
    N: Named + Send + Sync + 'static,
    R: Wait,
{
    let mut made = 0u64;
    if number(service.add(rt, alloc, client, b"a", TEXTS[0])) == 0 {
        made = 1;
    }
    for _ in 0..64 {
        if number(service.replace(rt, alloc, client, b"a", TEXTS[0])) != 0 {
            break;
        }
        made = made.saturating_add(1);
    }
    made
}

const BEFORE: Model = [Some(0), None, None];

const AFTER: Model = [Some(1), None, None];

// A library that is full of old units of `a`: how many changes filled it; the answer to a plain client then, the answer to a
// client whose changes compact, and the answer to the call after that; and the device.
fn mended<N, R>(rt: &R, alloc: Global, begun: Begun) -> Result<(u64, [u32; 3], Device), Fail>
where
    N: Named + Send + Sync + 'static,
    R: Threads + Wait + Copy + Send + 'static,
    requires { IsNamed begun.fresh begun.base N.name N.parts N.queue N.failures N.base N.from N.left }
{
    let service = opened(begin::<N, R, NoGate>(rt, alloc, begun, 1, NoGate))?;
    let mut plain = service.client(rt, alloc)?;
    let mut client = service.client(rt, alloc)?.compacting();
    let made = refill(rt, alloc, &service, &mut plain);
    let answers = [
        number(service.replace(rt, alloc, &mut plain, b"a", TEXTS[1])),
        number(service.replace(rt, alloc, &mut client, b"a", TEXTS[1])),
        number(service.withdraw(rt, alloc, &mut client, b"b")),
    ];
    let closed = ended(rt, alloc, service, both(alloc, plain, client)?)?;
    Ok((made, answers, closed.library.into_disk()))
}

#[test]
fn a_compaction_makes_room(rt: HostRuntime) -> Result<(), Fail> {
    let alloc = rt.alloc();
    let begun = prepared(alloc, ALL)?;
    let (made, answers, device) = mended::<Brand, HostRuntime>(&rt, alloc, begun)?;
    assert!(rt; 3 <= made && made < 64);
    assert!(rt; answers == [34, 0, 32]);
    assert!(rt; device.failures() == 0);
    assert!(rt; holds(alloc, device, &AFTER, &AFTER)?);
    // The device fails at each call of the compaction and of the change after it in turn: 34 if the change had not begun, 35 if
    // it had, and 36 after that.
    let filled = OPENING.saturating_add(made.saturating_mul(CALLS));
    for passes in 0..9u64 {
        let begun = prepared(alloc, filled.saturating_add(passes))?;
        let (again, answers, device) = mended::<Brand, HostRuntime>(&rt, alloc, begun)?;
        assert!(rt; again == made, "{passes}");
        let (wanted, failures) = if passes < 4 {
            ([34, 34, 36], 1)
        } else if passes < 8 {
            ([34, 35, 36], 1)
        } else {
            ([34, 0, 32], 0)
        };
        assert!(rt; answers == wanted, "{passes}");
        assert!(rt; device.failures() == failures, "{passes}");
        let before = if passes < 8 { &BEFORE } else { &AFTER };
        let after = if passes < 4 { &BEFORE } else { &AFTER };
        assert!(rt; holds(alloc, device, before, after)?, "{passes}");
    }
    Ok(())
}

// Adds units under new names, `n` followed by one letter or two, until there is no room. The result is how many were added.
fn fill<N, R>(rt: &R, alloc: Global, service: &Fused<N>, client: &mut Client<N>) -> u64
where
    N: Named + Send + Sync + 'static,
    R: Wait,
{
    let mut made = 0u64;
    for letter in b'a'..=b'z' {
        if number(service.add(rt, alloc, client, &[b'n', letter], SMALL)) != 0 {
            break;
        }
        made = made.saturating_add(1);
    }
    made
}

// A library that is full of units that are in use: how many there are, how many adds after them were answered 34, and the
// number of the answer to a compaction.
fn crowded<N, R>(rt: &R, alloc: Global, begun: Begun) -> Result<(u64, u64, u32), Fail>
where
    N: Named + Send + Sync + 'static,
    R: Threads + Wait + Copy + Send + 'static,
    requires { IsNamed begun.fresh begun.base N.name N.parts N.queue N.failures N.base N.from N.left }
{
    let service = opened(begin::<N, R, NoGate>(rt, alloc, begun, 1, NoGate))?;
    let mut client = service.client(rt, alloc)?.compacting();
    let plain = service.client(rt, alloc)?;
    let made = fill(rt, alloc, &service, &mut client);
    let mut refused = 0u64;
    for _ in 0..1000 {
        if number(service.add(rt, alloc, &mut client, b"more", SMALL)) == 34 {
            refused = refused.saturating_add(1);
        }
    }
    let compacted = number(service.compact(rt, alloc));
    let closed = ended(rt, alloc, service, both(alloc, client, plain)?)?;
    drop(closed);
    Ok((made, refused, compacted))
}

// A thousand adds make no device call: the call that fails is the next one after those of the last unit.
#[test]
fn units_that_are_there(rt: HostRuntime) -> Result<(), Fail> {
    let alloc = rt.alloc();
    let begun = prepared(alloc, ALL)?;
    let (made, refused, compacted) = crowded::<Brand, HostRuntime>(&rt, alloc, begun)?;
    assert!(rt; 3 <= made && made < 26 && refused == 1000 && compacted == 0);
    let filled = OPENING.saturating_add(made.saturating_mul(CALLS));
    let begun = prepared(alloc, filled)?;
    let answers = crowded::<Brand, HostRuntime>(&rt, alloc, begun)?;
    assert!(rt; answers == (made, 1000, 35));
    Ok(())
}
