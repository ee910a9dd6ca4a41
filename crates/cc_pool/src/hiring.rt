// How workers start and end.
//
// A worker that ends hands its pass back over a channel with a place for each worker. The handle of a worker's thread is dropped, since
// a handle cannot leave the thread that made it, and many threads share the pool.

ghost use Rattle.std.specs.Prelude.{◌≡◌, ◌+◌, ◌++◌, length, OnOk};
ghost use Rattle.cc_pool.specs.declared.rule.Role.TheVariants.{Owner};
ghost use Rattle.cc_pool.specs.Shared.{stops, sent_by};

use crate::ends::{Ends, Seat};
use crate::fault::PoolFault;
use crate::gate::Gate;
use crate::item::Item;
use crate::named::Queued;
use crate::seats::{Own, Pass, Taker};
use crate::worker::work;
use crossbeam_channel::{Receiver, Sender};
use std::alloc::{AllocError, Global};
use std::sync::{Arc, Wait};
use std::thread::{Builder, Threads};

/// A worker's stack in bytes: as large as a main thread's usually is, so that a worker can do what the main thread can.
const STACK: usize = 8 << 20;

// Starts this many workers, which hand their passes back over `back`. Answers how many workers were started: all of them if there is no
// fault.
pub(crate) fn hire<N, R, G>(
    rt: &R,
    alloc: Global,
    ends: &Ends<N>,
    own: &mut Own<N>,
    back: &Sender<Taker<N>>,
    count: usize,
    gate: G,
) -> (usize, Option<PoolFault>)
where
    N: Queued + Send + Sync + 'static,
    R: Threads + Wait + Copy + Send + 'static,
    G: Gate + Drop + Send + Sync + 'static,
{
    let Ok(gate) = Arc::new(alloc, gate) else {
        return (0, Some(PoolFault::OutOfMemory));
    };
    for started in 0..count {
        if let Err(fault) = start_one(*rt, alloc, ends, own, back, &gate) {
            return (started, Some(fault));
        }
    }
    (count, None)
}

// Starts a worker.
fn start_one<N, R, G>(
    rt: R,
    alloc: Global,
    ends: &Ends<N>,
    own: &mut Own<N>,
    back: &Sender<Taker<N>>,
    gate: &Arc<G>,
) -> Result<(), PoolFault>
where
    N: Queued + Send + Sync + 'static,
    R: Threads + Wait + Copy + Send + 'static,
    G: Gate + Drop + Send + Sync + 'static,
{
    let (Ok(theirs), Ok(gate), Ok(back)) = (ends.try_clone(), Arc::try_clone(gate), another(back))
    else {
        return Err(PoolFault::OutOfMemory);
    };
    let taker = own.taker(ends);
    if spawned(rt, alloc, theirs, taker, gate, back) {
        Ok(())
    } else {
        Err(PoolFault::WorkersGone)
    }
}

fn another<N: Queued>(back: &Sender<Taker<N>>) -> Result<Sender<Taker<N>>, AllocError> {
    Ok(back.clone()?)
}

// Starts a worker's thread, and answers whether the thread was started.
fn spawned<N, R, G>(
    rt: R,
    alloc: Global,
    ends: Ends<N>,
    taker: Taker<N>,
    gate: Arc<G>,
    back: Sender<Taker<N>>,
) -> bool
where
    N: Queued + Send + Sync + 'static,
    R: Threads + Wait + Copy + Send + 'static,
    G: Gate + Drop + Send + Sync + 'static,
{
    Builder::new()
        .stack_size(STACK)
        .spawn(&rt, move || work(&rt, alloc, &ends, taker, &*gate, &back))
        .is_ok()
}

// Makes each of this many workers stop, and takes back the pass of each.
pub(crate) fn dismiss<N: Queued, R: Wait>(
    rt: &R,
    ends: &Ends<N>,
    seat: &mut Seat<N>,
    back: &Receiver<Taker<N>>,
    count: usize,
) -> Result<(), PoolFault>
    requires { seat.old.role ≡ Owner }
    ensures role { seat.new.role ≡ Owner }
    ensures splits { seat.new.splits ≡ seat.old.splits }
    ensures joins { OnOk result (seat.new.joins ≡ seat.old.joins + count) }
    ensures sent { OnOk result (seat.new.sent ≡ seat.old.sent ++ stops count) }
{
    stop(rt, ends, seat, count)?;
    take_back(rt, ends, seat, back, count)
}

// Takes back the passes of this many workers.
fn take_back<N: Queued, R: Wait>(
    rt: &R,
    ends: &Ends<N>,
    seat: &mut Seat<N>,
    back: &Receiver<Taker<N>>,
    count: usize,
) -> Result<(), PoolFault>
    requires { seat.old.role ≡ Owner }
    ensures role { seat.new.role ≡ Owner }
    ensures splits { seat.new.splits ≡ seat.old.splits }
    ensures joins { OnOk result (seat.new.joins ≡ seat.old.joins + count) }
    ensures sent { seat.new.sent ≡ seat.old.sent }
{
    for _i in 0..count {
        match back.recv(rt) {
            Ok(taker) => ends.join(seat, taker.into_seat()),
            Err(_) => return Err(PoolFault::WorkersGone),
        }
    }
    Ok(())
}

// Makes this many workers stop, with one item for each.
fn stop<N: Queued, R: Wait>(
    rt: &R,
    ends: &Ends<N>,
    seat: &mut Seat<N>,
    count: usize,
) -> Result<(), PoolFault>
    requires { seat.old.role ≡ Owner }
    ensures role { seat.new.role ≡ Owner }
    ensures splits { seat.new.splits ≡ seat.old.splits }
    ensures joins { seat.new.joins ≡ seat.old.joins }
    ensures sent { OnOk result (seat.new.sent ≡ seat.old.sent ++ stops count) }
{
    for _i in 0..count {
        match ends.send(rt, seat, Item::Stop) {
            Ok(()) => {}
            Err(_) => return Err(PoolFault::WorkersGone),
        }
    }
    Ok(())
}

// Joins these passes into the pool's own.
pub(crate) fn take_in<N: Queued>(ends: &Ends<N>, seat: &mut Seat<N>, passes: Vec<Pass<N>>)
    requires { seat.old.role ≡ Owner }
    ensures role { seat.new.role ≡ Owner }
    ensures splits { seat.new.splits ≡ seat.old.splits }
    ensures joins { seat.new.joins ≡ seat.old.joins + length passes.items }
    ensures sent { seat.new.sent ≡ seat.old.sent ++ sent_by passes.items }
{
    for pass in passes {
        ends.join(seat, pass.into_seat());
    }
}
