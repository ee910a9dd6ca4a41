// A gate that holds a worker: the other worker goes on, and other clients are answered.

use super::reading::number;
use super::starting::{ALL, Fused, Own, adds, ended};
use super::trial::{Trial, succeeds};
use cc_pool::Gate;
use cc_service::{Client, Named};
use std::alloc::Global;
use std::sync::atomic::{AtomicU64, Ordering};
use std::sync::{Arc, Wait};
use std::test::Fail;
use std::thread;
use std::thread::Threads;
use tests_texts::lists::{alone, both};
use tests_texts::worked::LONG;

// While a gate holds, it lets other threads go on at most this many times.
const TURNS: u64 = 20_000_000;

/// What a gate and its test report to each other.
pub struct Signs {
    // How many calls the gate has had.
    calls: AtomicU64,
    // How many signs have to come before the first call may go on.
    wanted: u64,
    pub signs: AtomicU64,
    // 1 if the hold ended below its limit.
    pub ended: AtomicU64,
}

impl Signs {
    /// Waits until the gate has had a call, for a limited time.
    pub fn wait_for_a_call(&self) {
        for _ in 0..TURNS {
            if self.calls.load(Ordering::SeqCst) > 0 {
                break;
            }
            thread::yield_now();
        }
    }
}

/// Holds its first call until enough signs have come.
#[derive(Drop)]
pub struct Holds {
    signs: Arc<Signs>,
    // Whether each call of the gate is a sign too.
    calls_count: bool,
}

impl Gate for Holds {
    fn before(&self, _job: u64, _piece: u32) {
        let first = self.signs.calls.fetch_add(1, Ordering::SeqCst) == 0;
        if self.calls_count {
            self.signs.signs.fetch_add(1, Ordering::SeqCst);
        }
        if !first {
            return;
        }
        for _ in 0..TURNS {
            if self.signs.signs.load(Ordering::SeqCst) >= self.signs.wanted {
                self.signs.ended.store(1, Ordering::SeqCst);
                return;
            }
            thread::yield_now();
        }
    }
}

impl Drop for Signs {
    fn drop(self) {
        let Signs {
            calls: _,
            wanted: _,
            signs: _,
            ended: _,
        } = self;
    }
}

/// A gate that holds until `wanted` signs have come, and what it reports. Each of its calls counts as a sign if `calls_count`
/// says so.
pub fn held_until(
    alloc: Global,
    wanted: u64,
    calls_count: bool,
) -> Result<(Arc<Signs>, Holds), Fail> {
    let signs = Arc::new(
        alloc,
        Signs {
            calls: AtomicU64::new(0),
            wanted,
            signs: AtomicU64::new(0),
            ended: AtomicU64::new(0),
        },
    )?;
    let gate = Holds {
        signs: Arc::try_clone(&signs)?,
        calls_count,
    };
    Ok((signs, gate))
}

#[test]
fn two_pieces_at_once(rt: HostRuntime) -> Result<(), Fail> {
    let (signs, gate) = held_until(rt.alloc(), 2, true)?;
    let trial = Trial::HeldByAPiece { signs: &signs };
    succeeds(&rt, rt.alloc(), ALL, 2, gate, trial)
}

/// Whether an `add` is answered with Ok although its first piece is held until the other one is begun, and whether the hold
/// ended before its limit.
pub fn held_by_a_piece<N: Own, R: Wait>(
    rt: &R,
    alloc: Global,
    service: Fused<N>,
    signs: &Signs,
) -> Result<bool, Fail> {
    let mut client = service.client(rt, alloc)?;
    let answer = number(service.add(rt, alloc, &mut client, b"a", LONG.as_bytes()));
    drop(ended(rt, alloc, service, alone(alloc, client)?)?);
    Ok(answer == 0 && signs.ended.load(Ordering::SeqCst) == 1)
}

#[test]
fn another_client_is_answered(rt: HostRuntime) -> Result<(), Fail> {
    let (signs, gate) = held_until(rt.alloc(), 1, false)?;
    let trial = Trial::HeldByAClient { signs: &signs };
    succeeds(&rt, rt.alloc(), ALL, 2, gate, trial)
}

/// Whether two adds are answered with Ok although one is held, and the other one is begun and answered during that hold, which
/// ended before its limit; and whether the service was busy during the hold, but not after it.
pub fn held_by_a_client<N, R>(
    rt: &R,
    alloc: Global,
    service: Fused<N>,
    signs: &Signs,
) -> Result<bool, Fail>
where
    N: Named + Send + Sync + 'static,
    R: Threads + Wait + Copy + Send + Sync + 'static,
{
    let one = service.client(rt, alloc)?;
    let other = service.client(rt, alloc)?;
    let shared = &service;
    let (a, b) = thread::join(
        rt,
        move || adds(rt, alloc, shared, one, b"a"),
        move || adds_meanwhile(rt, alloc, shared, other, signs),
    );
    let (one, first) = a;
    let (other, second) = b;
    let is_idle = !service.is_busy();
    drop(ended(rt, alloc, service, both(alloc, one, other)?)?);
    Ok(is_idle && first == 0 && second == 0 && signs.ended.load(Ordering::SeqCst) == 1)
}

// Adds once the gate holds and the service is busy, and then gives the sign.
fn adds_meanwhile<N, R>(
    rt: &R,
    alloc: Global,
    service: &Fused<N>,
    client: Client<N>,
    signs: &Signs,
) -> (Client<N>, u32)
where
    N: Named + Send + Sync + 'static,
    R: Wait,
{
    signs.wait_for_a_call();
    let mut is_busy = false;
    for _ in 0..TURNS {
        is_busy = service.is_busy();
        if is_busy {
            break;
        }
        thread::yield_now();
    }
    let (client, answer) = adds(rt, alloc, service, client, b"b");
    signs.signs.fetch_add(1, Ordering::SeqCst);
    (client, if is_busy { answer } else { 1 })
}
