// The pool.

ghost use Rattle.std.specs.Prelude.{◌≡◌, ◌≤◌, ◌++◌, [], length, All, IfOk, IfErr, OnOk};
ghost use Rattle.std.specs.Arc.{arc_value};
ghost use Rattle.cc_ast.specs.Source.{source};
ghost use Rattle.cc_types.specs.Typed.{defined_names};
ghost use Rattle.cc_c_semantics.specs.declared.mode.Mode.TheVariants.{Plain};
ghost use Rattle.cc_link.specs.Made.{IsCompiled};
ghost use Rattle.cc_link.specs.Pieces.{AreFromIn};
ghost use Rattle.cc_pool.specs.Fault.{IsJobRefusal};
ghost use Rattle.cc_pool.specs.Shared.{pieces_of, HasSentSome, IsDrained};

use crate::answer::Answer;
use crate::ends::{Ends, FreshQueue};
use crate::fault::PoolFault;
use crate::gate::Gate;
use crate::hiring::{dismiss, hire, take_in};
use crate::item::Order;
use crate::named::Queued;
use crate::seats::{Drained, Own, Pass, Taker};
use crate::ticket::Ticket;
use cc_emit::Piece;
use cc_link::Mode;
use cc_types::TypedUnit;
use crossbeam_channel::{Receiver, Sender, bounded};
use std::alloc::Global;
use std::marker::Model;
use std::sync::atomic::{AtomicU64, Ordering};
use std::sync::{Arc, Mutex, Wait};
use std::thread::Threads;

/// Workers that compile the functions of units. Contracts see the pool's number of workers, by which `finish` counts stop items.
pub struct Pool<N: Queued> {
    ends: Ends<N>,
    own: Mutex<Own<N>>,
    back: Receiver<Taker<N>>,
    workers: usize,
    jobs: AtomicU64,
}

// Written by hand, so that crates that use this one rely on this proof and need not prove again how each part is dropped.
impl<N: Queued> Drop for Pool<N> {
    fn drop(self) {
        let Pool {
            ends,
            own,
            back,
            workers,
            jobs,
        } = self;
    }
}

impl<N: Queued> Model for Pool<N> {
    ghost use Rattle.std.specs.Prelude.{ℕ};

    ghost Value = { ℕ };

    ghost view = { λ p. p.workers };
}

impl<N: Queued + Send + Sync + 'static> Pool<N> {
    /// Starts this many workers, which call the gate before each piece. Each worker has a stack of 8 MiB. The contract promises
    /// only that the pool has this number of workers, by which `finish` counts stop items.
    ///
    /// Refusals: OutOfMemory (40) if memory ran out; WorkersGone (41) if a thread could not be started. Before a refusal, the
    /// workers that were started are asked to stop.
    pub fn start<R, G>(
        rt: &R,
        alloc: Global,
        fresh: FreshQueue,
        workers: usize,
        gate: G,
    ) -> Result<Pool<N>, PoolFault>
    where
        R: Threads + Wait + Copy + Send + 'static,
        G: Gate + Drop + Send + Sync + 'static,
        requires queue { fresh ≡ N.queue }
        requires some { 1 ≤ workers }
        requires few { workers ≤ 8 }
        ensures { IfOk result (λ pool. pool ≡ workers) }
    {
        let (ends, seat) = fresh.open::<N>();
        let mut own = Own::new(seat);
        let Ok((hand_back, back)) = bounded(alloc, workers) else {
            return Err(PoolFault::OutOfMemory);
        };
        match hire(rt, alloc, &ends, &mut own, &hand_back, workers, gate) {
            (_, None) => Ok(Pool {
                ends,
                own: Mutex::new(own),
                back,
                workers,
                jobs: AtomicU64::new(0),
            }),
            (started, Some(fault)) => {
                let (mut seat, _) = own.into_seat();
                drop(dismiss(rt, &ends, &mut seat, &back, started));
                Err(fault)
            }
        }
    }

    /// A pass for handing in jobs, which has sent and taken nothing yet.
    pub fn pass<R: Wait>(&self, rt: &R) -> Pass<N>
        ensures sent { result.sent ≡ [] }
        ensures taken { result.taken ≡ [] }
    {
        self.own.lock(rt).pass(&self.ends)
    }

    /// Hands in a unit for plain pieces, as `submit_in` does.
    pub fn submit<R: Wait>(
        &self,
        rt: &R,
        alloc: Global,
        pass: &mut Pass<N>,
        unit: Arc<TypedUnit>,
    ) -> Result<Ticket, PoolFault>
        ensures mode { IfOk result (λ t. t.mode ≡ Plain) }
        ensures text { IfOk result (λ t. t.text ≡ (source (arc_value unit)).text) }
        ensures functions { IfOk result (λ t. t.functions ≡ length (defined_names (source (arc_value unit)))) }
        ensures sent { IfOk result (λ t. pass.new.sent ≡ pass.old.sent ++ pieces_of t.number t.functions) }
        ensures some { HasSentSome pass.old.sent pass.new.sent (length (defined_names (source (arc_value unit)))) }
        ensures taken { pass.new.taken ≡ pass.old.taken }
    {
        self.submit_in(rt, alloc, pass, Mode::Plain, unit)
    }

    /// Hands in a unit for pieces in a mode: an item for each of its functions, in the order of their definitions and with the
    /// job's number, is added to what the pass has sent. Waits while the queue is full.
    ///
    /// Refusals: OutOfMemory (40) if memory ran out; WorkersGone (41) if the queue is closed or 2^64 - 1 jobs were handed in.
    /// Some items may have been sent before a refusal: the first few of one job, and nothing else.
    pub fn submit_in<R: Wait>(
        &self,
        rt: &R,
        alloc: Global,
        pass: &mut Pass<N>,
        mode: Mode,
        unit: Arc<TypedUnit>,
    ) -> Result<Ticket, PoolFault>
        ensures mode { IfOk result (λ t. t.mode ≡ mode) }
        ensures text { IfOk result (λ t. t.text ≡ (source (arc_value unit)).text) }
        ensures functions { IfOk result (λ t. t.functions ≡ length (defined_names (source (arc_value unit)))) }
        ensures sent { IfOk result (λ t. pass.new.sent ≡ pass.old.sent ++ pieces_of t.number t.functions) }
        ensures some { HasSentSome pass.old.sent pass.new.sent (length (defined_names (source (arc_value unit)))) }
        ensures taken { pass.new.taken ≡ pass.old.taken }
    {
        let Some(job) = self.next_number() else {
            return Err(PoolFault::WorkersGone);
        };
        let Ok((answer, answers)) = bounded(alloc, unit.functions()) else {
            return Err(PoolFault::OutOfMemory);
        };
        match self.send_all(rt, pass, job, mode, &unit, &answer) {
            Ok(()) => Ok(Ticket::new(job, mode, unit, answers)),
            Err(fault) => Err(fault),
        }
    }

    fn next_number(&self) -> Option<u64> {
        self.jobs
            .fetch_update(Ordering::SeqCst, Ordering::SeqCst, |n| n.checked_add(1))
            .ok()
    }

    // Sends an item for each function of a unit.
    fn send_all<R: Wait>(
        &self,
        rt: &R,
        pass: &mut Pass<N>,
        job: u64,
        mode: Mode,
        unit: &Arc<TypedUnit>,
        answer: &Sender<Answer>,
    ) -> Result<(), PoolFault>
        ensures ok { OnOk result (pass.new.sent ≡ pass.old.sent ++ pieces_of job (length (defined_names (source (arc_value unit.now))))) }
        ensures some { HasSentSome pass.old.sent pass.new.sent (length (defined_names (source (arc_value unit.now)))) }
        ensures taken { pass.new.taken ≡ pass.old.taken }
    {
        let _kept = unit.externals();
        for function in 0..unit.functions() {
            let Ok(order) = Order::new(job, function, mode, unit, answer) else {
                return Err(PoolFault::OutOfMemory);
            };
            match pass.send(rt, &self.ends, order) {
                Ok(()) => {}
                Err(_) => return Err(PoolFault::WorkersGone),
            }
        }
        Ok(())
    }

    /// Waits for the pieces of a job: one compiled piece of its text and mode for each function, in the order of their
    /// definitions. If memory runs out, the pieces that came are dropped.
    ///
    /// Refusals are for the first function whose piece did not come: FunctionTooLarge (22) or Unvalidated (24) if a worker
    /// refused it, otherwise WorkersGone (41); and OutOfMemory (40) if memory ran out. Each function before one that was refused
    /// with 22 or 24 has a piece. With 22 the function is too long; no clause says that a function refused with 24 has no piece.
    pub fn collect<R: Wait>(
        &self,
        rt: &R,
        alloc: Global,
        ticket: Ticket,
    ) -> Result<Vec<Piece>, PoolFault>
        ensures count { IfOk result (λ pieces. length pieces.items ≡ ticket.functions) }
        ensures own { IfOk result (λ pieces. AreFromIn ticket.mode ticket.text 0 pieces.items) }
        ensures compiled { IfOk result (λ pieces. All IsCompiled pieces.items) }
        ensures refused { IfErr result (λ fault. IsJobRefusal ticket.mode ticket.text fault) }
    {
        ticket.collect(rt, alloc)
    }

    /// Ends the pool. Each worker is asked to stop after all that was sent; then the call waits until the workers have handed
    /// their passes back, and joins these and the given passes. All that was sent, by these passes and to stop the workers, has
    /// then been taken, each item once, so no item is left on the queue.
    ///
    /// Refusal: WorkersGone (41) if the passes are not all that were made, or if an item is left.
    pub fn finish<R: Wait>(self, rt: &R, passes: Vec<Pass<N>>) -> Result<Drained<N>, PoolFault>
        ensures { IfOk result (λ all. IsDrained self passes.items all) }
    {
        let Pool {
            ends,
            own,
            back,
            workers,
            jobs: _,
        } = self;
        let (mut seat, out) = own.into_inner().into_seat();
        let all = workers as u128 + passes.len() as u128;
        dismiss(rt, &ends, &mut seat, &back, workers)?;
        take_in(&ends, &mut seat, passes);
        match out {
            Some(out) if out as u128 == all => {}
            _ => return Err(PoolFault::WorkersGone),
        }
        match ends.try_take(rt, &mut seat) {
            Some(_) => Err(PoolFault::WorkersGone),
            None => Ok(Drained::new(seat)),
        }
    }
}
