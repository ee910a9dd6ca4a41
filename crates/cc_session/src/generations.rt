// Serving without end: each generation is one service, and the next begins with the disk and the spools that it left.

ghost use Rattle.std.specs.Prelude.{◌≡◌, ◌≢◌, ◌≤◌, ℕ, All, zero, suc, true, false, map};
ghost use Rattle.cc_session.specs.Generations.{GoesOn, ServesOn};
ghost use Rattle.cc_session.specs.declared.end.SessionEnd.TheVariants.{Finished};
ghost use Rattle.cc_session.specs.Spooling.{ServingEnds, given_by};

use crate::bounds::Bounds;
use crate::end::SessionEnd;
use crate::serving::{Served, serve_quietly};
use crate::steward::Steward;
use crate::telling::tell_end;
use cc_answers::explain_words;
use cc_disk::Disk;
use cc_link::Mode;
use cc_service::NoGate;
use cc_spool::Spool;
use std::alloc::Global;
use std::io::Write;
use std::rt::Clock;
use std::sync::Wait;
use std::thread;
use std::thread::Threads;
use std::time::Duration;

// The longest pause between two generations, in seconds.
const MOST_PAUSE: u64 = 60;

// Whether each spool is over.
fn are_over<S: Spool>(spools: &mut [S]) -> bool
    ensures over { result ≡ true → All S.over spools.new }
    ensures spools { map (given_by S.taken S.ended) spools.new ≡ map (given_by S.taken S.ended) spools.old }
{
    for i in 0..spools.len() {
        if !spools[i].is_over() {
            return false;
        }
    }
    true
}

// Waits for this many seconds, or until each spool is over. The result is whether each is over.
fn rest<H: Clock, S: Spool>(rt: &H, seconds: u64, spools: &mut [S]) -> bool
    ensures over { result ≡ true → All S.over spools.new }
    ensures spools { map (given_by S.taken S.ended) spools.new ≡ map (given_by S.taken S.ended) spools.old }
{
    for _ in 0..seconds {
        if are_over(spools) {
            return true;
        }
        thread::sleep(rt, Duration::from_secs(1));
    }
    are_over(spools)
}

// Whether the first generation ended in such a way that another may begin.
fn is_well(end: SessionEnd) -> bool
    ensures well { result ≡ true → GoesOn zero end }
    ensures not { result ≡ false → end ≢ Finished }
{
    match end {
        SessionEnd::Finished => true,
        SessionEnd::Fault(_) => false,
    }
}

// Whether a later generation ended in such a way that another may begin: without a fault, or with a fault that may pass.
fn may_pass(end: SessionEnd) -> bool
    ensures passes { result ≡ true → GoesOn (suc zero) end }
    ensures not { result ≡ false → end ≢ Finished }
{
    match end {
        SessionEnd::Finished => true,
        SessionEnd::Fault(number) => number == 40 || number == 41,
    }
}

// How many seconds the server waits after a generation that ended like this, if it waited for `last` seconds the last time.
fn pause_behind(end: SessionEnd, last: u64) -> u64
    ensures { result ≤ 60 }
{
    match end {
        SessionEnd::Finished => 0,
        SessionEnd::Fault(_) => last.saturating_mul(2).max(1).min(MOST_PAUSE),
    }
}

// Explains to a person that a generation ended with a fault that may pass. Only the first of several faults in a row is
// explained.
fn tell_pause<E: Write>(end: SessionEnd, pause: u64, explanations: &mut E) {
    match end {
        SessionEnd::Fault(number) if pause == 1 => {
            let _ = explain_words(number, explanations);
            let _ = writeln!(
                explanations,
                "cclib: it is tried again until the server can go on"
            );
            let _ = explanations.flush();
        }
        SessionEnd::Fault(_) | SessionEnd::Finished => {}
    }
}

// Whether another generation is to begin: the last one ended without a fault or with one that may pass, and some spool is not
// over. After a fault there is a pause.
fn goes_on<H: Clock, E: Write, D: Drop, S: Spool + Drop>(
    rt: &H,
    left: &mut Served<D, S>,
    pause: &mut u64,
    explanations: &mut E,
) -> bool
    ensures may { result ≡ true → GoesOn (suc zero) left.old.end }
    ensures over { result ≡ false → left.new.end ≡ Finished → All S.over left.new.spools.items }
    ensures end { left.new.end ≡ left.old.end }
    ensures disk { left.new.disk ≡ left.old.disk }
    ensures spools { map (given_by S.taken S.ended) left.new.spools.items ≡ map (given_by S.taken S.ended) left.old.spools.items }
{
    if !may_pass(left.end) {
        return false;
    }
    *pause = pause_behind(left.end, *pause);
    tell_pause(left.end, *pause, explanations);
    !rest(rt, *pause, left.spools.as_mut_slice())
}

/// Serves as `serve` does, one generation after the other, until each spool is over or a service ends with a fault. A
/// generation begins with the disk and the spools that the one before left; the numbers of its receipts begin at 1. Between two
/// generations no script is taken, for as long as the service's end, the opening of the library and `steward` take.
///
/// If a later generation ends with 40 or 41, which may pass, the next is tried after a pause: a second at first, then twice as
/// long each time, up to a minute. The first of several faults in a row is explained to `explanations`. Serving ends with such
/// a fault only if each spool is over by then. Any fault of the first generation ends it.
///
/// What goes to `writer` and `explanations`, and what is handed back, is what `serve` says, for the last generation.
pub fn serve_on<H, S, W, E, D, T>(
    rt: &H,
    alloc: Global,
    mode: Mode,
    spools: Vec<S>,
    writer: &mut W,
    explanations: &mut E,
    disk: D,
    workers: usize,
    bounds: Bounds,
    steward: &mut T,
) -> Served<D, S>
where
    H: Threads + Wait + Clock + Copy + Send + Sync + 'static,
    S: Spool + Send + Drop,
    W: Write,
    E: Write,
    D: Disk + Send + Drop,
    T: Steward,
    requires some { 1 ≤ workers }
    requires few { workers ≤ 8 }
    ensures generations { (earlier : ℕ) × ServesOn (ServingEnds mode D.Disk) earlier
        (map (given_by S.taken S.ended) spools.items) (map (given_by S.taken S.ended) result.spools.items) disk result.disk result.end }
    // If no fault ended serving, each spool has said that it is over.
    ensures over { result.end ≡ Finished → All S.over result.spools.items }
    // If no fault ended serving, nothing is written.
    ensures still { result.end ≡ Finished → W.contents writer.new ≡ W.contents writer.old }
{
    let mut left = serve_quietly(
        rt,
        alloc,
        mode,
        spools,
        explanations,
        disk,
        workers,
        NoGate,
        bounds,
        steward,
    );
    if !is_well(left.end) {
        tell_end(alloc, left.end, writer, explanations);
        return left;
    }
    let mut pause = 0;
    for _ in rt.forever() {
        if !goes_on(rt, &mut left, &mut pause, explanations) {
            tell_end(alloc, left.end, writer, explanations);
            return left;
        }
        let Served { disk, spools, .. } = left;
        left = serve_quietly(
            rt,
            alloc,
            mode,
            spools,
            explanations,
            disk,
            workers,
            NoGate,
            bounds,
            steward,
        );
    }
    unreachable!()
}
