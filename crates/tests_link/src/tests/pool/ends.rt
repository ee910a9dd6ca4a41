// How a pool ends: with all passes it ends, even though pieces are under way; without one of them it refuses to end.

ghost use Rattle.std.specs.Prelude.{◌≡◌};

use super::helpers::{TWO, unit};
use cc_pool::{Drained, FreshQueue, NoGate, Pool, PoolFault, Queued};
use std::alloc::Global;
use std::marker::Brand;
use std::sync::Wait;
use std::test::Fail;
use std::thread::Threads;
use tests_texts::lists::{alone, both};

#[test]
fn a_pass_is_missing(rt: HostRuntime) -> Result<(), Fail> {
    for given in [1u32, 2] {
        let fresh = FreshQueue::new(rt.alloc())?;
        let told = missing::<Brand, HostRuntime>(&rt, rt.alloc(), fresh, given)?;
        assert_eq!(rt; told, if given == 2 { 0 } else { 41 });
    }
    Ok(())
}

// The number with which `finish` refuses this many of two passes while pieces are under way, or 0.
fn missing<N, R>(rt: &R, alloc: Global, fresh: FreshQueue, given: u32) -> Result<u32, Fail>
where
    N: Queued + Send + Sync + 'static,
    R: Threads + Wait + Copy + Send + 'static,
    requires { fresh ≡ N.queue }
{
    let pool = Pool::<N>::start(rt, alloc, fresh, 8, NoGate)?;
    let pass = pool.pass(rt);
    let mut other = pool.pass(rt);
    let ticket = pool.submit(rt, alloc, &mut other, unit(alloc, TWO)?)?;
    let passes = match given {
        1 => alone(alloc, pass)?,
        _ => both(alloc, pass, other)?,
    };
    let told = number(pool.finish(rt, passes));
    drop(ticket);
    Ok(told)
}

fn number<N: Queued>(ended: Result<Drained<N>, PoolFault>) -> u32 {
    match ended {
        Ok(all) => {
            drop(all);
            0
        }
        Err(fault) => fault.number(),
    }
}
