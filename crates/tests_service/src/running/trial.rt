// What the tests do with a service on a formatted device, and whether its answers are as they should be.

ghost use Rattle.std.specs.Prelude.{◌≤◌};
ghost use Rattle.tests_service.specs.internal.Named.{IsNamed};

use super::ahead::{before_their_turn, fails_ahead, held_ahead, not_put};
use super::answers::each_call;
use super::calls::{all_made, four_calls, gives_up, updates};
use super::crowds::are_replayed;
use super::devices::{fails_once, five_calls};
use super::gates::{Signs, held_by_a_client, held_by_a_piece};
use super::memory::is_added;
use super::starting::{Begun, Fused, Own, begin, opened, prepared};
use cc_pool::Gate;
use std::alloc::Global;
use std::marker::Brand;
use std::sync::{Arc, Wait};
use std::test::Fail;
use std::thread::Threads;

/// What a test does with a service that is open. Each is a function of the module that has its test.
#[derive(Clone, Copy)]
pub enum Trial<'a> {
    /// One client makes each call.
    EachCall,
    /// One client makes four.
    FourCalls,
    /// A unit is replaced if its source is the one that is expected.
    Updates,
    /// The largest number of clients is made.
    AllMade,
    /// The service is given up, with its client or without.
    GivesUp { is_lost: bool },
    /// Sixteen clients call at once.
    SixteenClients,
    /// The device fails at the first change.
    FailsOnce,
    /// The device fails at one of five calls.
    FiveCalls { failed: usize },
    /// A piece is held until another one is begun.
    HeldByAPiece { signs: &'a Arc<Signs> },
    /// A client is held while another one is answered.
    HeldByAClient { signs: &'a Arc<Signs> },
    /// Texts are handed in before their turn, and put in another order.
    BeforeTheirTurn,
    /// Texts that were handed in are not put.
    NotPut,
    /// The device fails while texts are handed in.
    FailsAhead,
    /// A text that was handed in is held while another one is put.
    HeldAhead { signs: &'a Arc<Signs> },
    /// An `add` is made twice, with its text handed in first or not; one of its allocations may be refused.
    IsAdded { is_ahead: bool },
}

// Whether what the trial looks at is as it should be, on this service.
fn is_right_on<N, R>(rt: &R, alloc: Global, service: Fused<N>, trial: Trial) -> Result<bool, Fail>
where
    N: Own,
    R: Threads + Wait + Copy + Send + Sync + 'static,
{
    match trial {
        Trial::EachCall => each_call(rt, alloc, service),
        Trial::FourCalls => four_calls(rt, alloc, service),
        Trial::Updates => updates(rt, alloc, service),
        Trial::AllMade => all_made(rt, alloc, service),
        Trial::GivesUp { is_lost } => gives_up(rt, alloc, service, is_lost),
        Trial::SixteenClients => are_replayed(rt, alloc, service),
        Trial::FailsOnce => fails_once(rt, alloc, service),
        Trial::FiveCalls { failed } => five_calls(rt, alloc, service, failed),
        Trial::HeldByAPiece { signs } => held_by_a_piece(rt, alloc, service, signs),
        Trial::HeldByAClient { signs } => held_by_a_client(rt, alloc, service, signs),
        Trial::BeforeTheirTurn => before_their_turn(rt, alloc, service),
        Trial::NotPut => not_put(rt, alloc, service),
        Trial::FailsAhead => fails_ahead(rt, alloc, service),
        Trial::HeldAhead { signs } => held_ahead(rt, alloc, service, signs),
        Trial::IsAdded { is_ahead } => is_added(rt, alloc, service, is_ahead),
    }
}

// The same as `is_right_on`, on the service that begins with `begun`.
fn begins_right<N, R, G>(
    rt: &R,
    alloc: Global,
    begun: Begun,
    workers: usize,
    gate: G,
    trial: Trial,
) -> Result<bool, Fail>
where
    N: Own,
    R: Threads + Wait + Copy + Send + Sync + 'static,
    G: Gate + Drop + Send + Sync + 'static,
    requires names { IsNamed begun.fresh begun.base N.name N.parts N.queue N.failures N.base N.from N.left }
    requires some { 1 ≤ workers }
    requires few { workers ≤ 8 }
{
    let service = opened(begin::<N, R, G>(rt, alloc, begun, workers, gate))?;
    is_right_on(rt, alloc, service, trial)
}

/// The same as `begins_right`, on a device that passes this many calls before one fails, with this many workers, which pass
/// this gate.
pub fn is_right<R, G>(
    rt: &R,
    alloc: Global,
    passes: u64,
    workers: usize,
    gate: G,
    trial: Trial,
) -> Result<bool, Fail>
where
    R: Threads + Wait + Copy + Send + Sync + 'static,
    G: Gate + Drop + Send + Sync + 'static,
    requires some { 1 ≤ workers }
    requires few { workers ≤ 8 }
{
    let begun = prepared(alloc, passes)?;
    begins_right::<Brand, R, G>(rt, alloc, begun, workers, gate, trial)
}

/// Fails the test if `is_right` is false.
pub fn succeeds<R, G>(
    rt: &R,
    alloc: Global,
    passes: u64,
    workers: usize,
    gate: G,
    trial: Trial,
) -> Result<(), Fail>
where
    R: Threads + Wait + Copy + Send + Sync + 'static,
    G: Gate + Drop + Send + Sync + 'static,
    requires some { 1 ≤ workers }
    requires few { workers ≤ 8 }
{
    if is_right(rt, alloc, passes, workers, gate, trial)? {
        Ok(())
    } else {
        Err(Fail::from("it is not answered as it should be"))
    }
}
