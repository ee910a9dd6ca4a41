// The spool in memory.

ghost use Rattle.std.specs.Prelude.{◌≡◌, ◌≢◌, ◌<◌, ◌≤◌, ◌++◌, ◌∷◌, [], true, false, IfOk, IfNone, IfSome, map, vec_len};
ghost use Rattle.std.specs.Vec.{vec_capacity};
ghost use Rattle.cc_spool.specs.Spool.{delivered_as, taken_as};

use crate::spool::Spool;
use cc_disk::History;
use std::alloc::{AllocError, Global};
use std::collections::VecDeque;
use std::io::{Read, Write};

/// An answer that was handed over, and the number of the fault that ended its script, 51 to 54 or 61, if one did. With 54 the answer may be
/// cut off anywhere, and has no line for that fault.
#[derive(Drop)]
pub struct Answered<W: Drop> {
    pub answer: W,
    pub fault: Option<u32>,
}

/// A spool in memory, for tests and for runs that need no folder: the scripts of a list, each as a reader, with the writer of its answer.
/// It gives one script at a time, and is over when all are taken.
#[derive(Drop)]
pub struct MemorySpool<R: Drop, W: Drop> {
    waiting: VecDeque<(R, W)>,
    answered: Vec<Answered<W>>,
    taken: History<(R, W)>,
    ended: History<Answered<W>>,
    // Whether a script was taken whose answer was not handed over yet.
    in_hand: bool,
    // What `is_long` and `is_awaited` answer about the script that is being run.
    is_long: bool,
    is_awaited: bool,
}

impl<R: Read + Drop + Send, W: Write + Drop + Send> MemorySpool<R, W> {
    /// A spool with these scripts, which are taken in order. It reserves room for an answer to each of them, and fails only if there is no
    /// memory for that (40).
    pub fn new(alloc: Global, scripts: Vec<(R, W)>) -> Result<MemorySpool<R, W>, AllocError>
        ensures waiting { IfOk result (λ spool. spool.waiting.items ≡ scripts.items) }
        ensures taken { IfOk result (λ spool. spool.taken.items ≡ []) }
        ensures ended { IfOk result (λ spool. spool.ended.items ≡ []) }
        ensures none { IfOk result (λ spool. spool.answered.items ≡ []) }
        ensures room { IfOk result (λ spool. vec_len scripts ≤ vec_capacity spool.answered) }
        ensures idle { IfOk result (λ spool. spool.in_hand ≡ false) }
    {
        let answered = Vec::with_capacity(alloc, scripts.len())?;
        Ok(MemorySpool {
            waiting: VecDeque::from(scripts),
            answered,
            taken: History::new(),
            ended: History::new(),
            in_hand: false,
            is_long: false,
            is_awaited: false,
        })
    }

    /// Sets what `is_long` and `is_awaited` answer from now on.
    pub fn set_awaited(&mut self, is_long: bool, is_awaited: bool)
        ensures waiting { self.new.waiting ≡ self.old.waiting }
        ensures answered { self.new.answered ≡ self.old.answered }
        ensures taken { self.new.taken ≡ self.old.taken }
        ensures ended { self.new.ended ≡ self.old.ended }
        ensures idle { self.new.in_hand ≡ self.old.in_hand }
        ensures long { self.new.is_long ≡ is_long }
        ensures awaited { self.new.is_awaited ≡ is_awaited }
    {
        self.is_long = is_long;
        self.is_awaited = is_awaited;
    }

    /// The answers so far, in order.
    pub fn answered(&self) -> &[Answered<W>]
        ensures { result.now ≡ self.now.answered.items }
    {
        self.answered.as_slice()
    }
}

impl<R: Read + Drop + Send, W: Write + Drop + Send> Spool for MemorySpool<R, W> {
    type Script = R;

    type Answer = W;

    ghost taken = { λ s. map (λ job. taken_as (R.remaining job.0) (W.contents job.1)) s.taken.items };

    ghost ended = { λ s. map (λ a. delivered_as (W.contents a.answer) a.fault) s.ended.items };

    ghost idle = { λ s. s.in_hand ≡ false };

    // All its scripts were taken.
    ghost over = { λ s. s.waiting.items ≡ [] };

    fn is_over(&mut self) -> bool
        ensures said { result ≡ true → self.new.waiting.items ≡ [] }
        ensures taken { map (λ job. taken_as (R.remaining job.0) (W.contents job.1)) self.new.taken.items ≡ map (λ job. taken_as (R.remaining job.0) (W.contents job.1)) self.old.taken.items }
        ensures ended { map (λ a. delivered_as (W.contents a.answer) a.fault) self.new.ended.items ≡ map (λ a. delivered_as (W.contents a.answer) a.fault) self.old.ended.items }
        ensures idle { self.new.in_hand ≡ false → self.old.in_hand ≡ false }
        ensures same { self.new ≡ self.old }
        ensures more { result ≡ false → self.old.waiting.items ≢ [] }
    {
        self.waiting.is_empty()
    }

    fn next(&mut self) -> Option<(R, W)>
        ensures taken { IfSome result (λ job. map (λ job. taken_as (R.remaining job.0) (W.contents job.1)) self.new.taken.items
            ≡ map (λ job. taken_as (R.remaining job.0) (W.contents job.1)) self.old.taken.items ++ taken_as (R.remaining job.0) (W.contents job.1) ∷ []) }
        ensures none { IfNone result (map (λ job. taken_as (R.remaining job.0) (W.contents job.1)) self.new.taken.items ≡ map (λ job. taken_as (R.remaining job.0) (W.contents job.1)) self.old.taken.items) }
        ensures ended { map (λ a. delivered_as (W.contents a.answer) a.fault) self.new.ended.items ≡ map (λ a. delivered_as (W.contents a.answer) a.fault) self.old.ended.items }
        ensures first { IfSome result (λ job. self.old.waiting.items ≡ job ∷ self.new.waiting.items) }
        ensures over { IfNone result (self.old.in_hand ≡ false → self.old.waiting.items ≡ []) }
        ensures turn { IfSome result (λ _. (self.old.in_hand ≡ false) × (self.new.in_hand ≢ false)) }
        ensures idle { IfNone result (self.new.in_hand ≡ false → self.old.in_hand ≡ false) }
        ensures answered { self.new.answered ≡ self.old.answered }
    {
        if self.in_hand {
            return None;
        }
        let job = self.waiting.pop_front()?;
        self.taken = self.taken.and(&job);
        self.in_hand = true;
        Some(job)
    }

    fn is_long(&self) -> bool
        ensures { result ≡ self.now.is_long }
    {
        self.is_long
    }

    fn is_awaited(&self) -> bool
        ensures { result ≡ self.now.is_awaited }
    {
        self.is_awaited
    }

    fn deliver(&mut self, script: R, answer: W, fault: Option<u32>)
        ensures taken { map (λ job. taken_as (R.remaining job.0) (W.contents job.1)) self.new.taken.items ≡ map (λ job. taken_as (R.remaining job.0) (W.contents job.1)) self.old.taken.items }
        ensures ended { map (λ a. delivered_as (W.contents a.answer) a.fault) self.new.ended.items
            ≡ map (λ a. delivered_as (W.contents a.answer) a.fault) self.old.ended.items ++ delivered_as (W.contents answer) fault ∷ [] }
        ensures waiting { self.new.waiting ≡ self.old.waiting }
        ensures idle { self.new.in_hand ≡ false }
        ensures answered { vec_len self.old.answered < vec_capacity self.old.answered
            → self.new.answered.items ≡ self.old.answered.items ++ record { answer = answer; fault = fault } ∷ [] }
        ensures capacity { vec_capacity self.old.answered ≤ vec_capacity self.new.answered }
    {
        drop(script);
        let answered = Answered { answer, fault };
        self.ended = self.ended.and(&answered);
        self.in_hand = false;
        // There is room for as many answers as there were scripts. A further one is dropped if memory is refused.
        let _ = self.answered.push(answered);
    }
}
