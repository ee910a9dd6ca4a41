// What most tests do with a pool of two workers, and whether the result is as it should be.

ghost use Rattle.std.specs.Prelude.{◌≡◌};

use super::held::{at_once, held_job};
use super::helpers::Signs;
use super::tickets::{either_order, least_refused};
use cc_pool::{FreshQueue, Gate, Pool, Queued};
use std::alloc::Global;
use std::marker::Brand;
use std::sync::Wait;
use std::test::Fail;
use std::thread::Threads;

/// The names of a test's own pool.
pub trait Own: Queued + Send + Sync + 'static {}

impl Own for Brand {}

/// What a test does with a pool. Each is a function of the module that has its test.
#[derive(Clone, Copy)]
pub enum Trial<'a> {
    /// Two jobs are collected in the opposite order.
    EitherOrder,
    /// Two of three functions are refused.
    LeastRefused,
    /// A piece is held until the other one of its job comes.
    AtOnce,
    /// A job is held until another one is collected.
    HeldJob { signs: &'a Signs },
}

// Whether the result is as it should be on this pool.
fn is_right_on<N: Own, R: Wait>(
    rt: &R,
    alloc: Global,
    pool: Pool<N>,
    trial: Trial,
) -> Result<bool, Fail> {
    match trial {
        Trial::EitherOrder => either_order(rt, alloc, pool),
        Trial::LeastRefused => least_refused(rt, alloc, pool),
        Trial::AtOnce => at_once(rt, alloc, pool),
        Trial::HeldJob { signs } => held_job(rt, alloc, pool, signs),
    }
}

// Whether the result is as it should be on a pool with this queue.
fn begins_right<N, R, G>(
    rt: &R,
    alloc: Global,
    fresh: FreshQueue,
    gate: G,
    trial: Trial,
) -> Result<bool, Fail>
where
    N: Own,
    R: Threads + Wait + Copy + Send + 'static,
    G: Gate + Drop + Send + Sync + 'static,
    requires { fresh ≡ N.queue }
{
    let pool = Pool::<N>::start(rt, alloc, fresh, 2, gate)?;
    is_right_on(rt, alloc, pool, trial)
}

/// The failure of a test if the result is not as it should be on a pool whose workers pass this gate.
pub fn succeeds<R, G>(rt: &R, alloc: Global, gate: G, trial: Trial) -> Result<(), Fail>
where
    R: Threads + Wait + Copy + Send + 'static,
    G: Gate + Drop + Send + Sync + 'static,
{
    let fresh = FreshQueue::new(alloc)?;
    if begins_right::<Brand, R, G>(rt, alloc, fresh, gate, trial)? {
        Ok(())
    } else {
        Err(Fail::from("what comes of it is not as it should be"))
    }
}
