// Whether a script is to end although more of it is left, and runs that are ended early. The run of an image asks from time to time
// whether others wait, and looks at how much it has written.

ghost use Rattle.std.specs.Prelude.{IfOk};
ghost use Rattle.cc_session.specs.internal.Calls.{IsRunEnd};

use crate::bounds::Meter;
use cc_rv32::image::Image;
use cc_rv32::machine::Machine;
use cc_rv32::outcome::MachineOutcome;
use cc_spool::Spool;
use std::alloc::{AllocError, Global};

// How many instructions of a run are executed between two looks whether it is to end early.
const SLICE: u64 = 1_000_000;

// A run that has written more words than this has no room in an answer of 16 MiB: the line of a word has at least two bytes.
const MOST_WORDS: usize = 8_388_608;

// Decides whether a script is to end.
pub(crate) trait Patience {
    // Whether the script is to end now. This is asked after each line, and after each slice of a run.
    fn is_out(&self) -> bool;
}

// Nobody waits for the script to end.
#[derive(Drop)]
pub(crate) struct Unhurried;

impl Patience for Unhurried {
    fn is_out(&self) -> bool {
        false
    }
}

// Others may wait for a script of a spool to end.
#[derive(Drop)]
pub(crate) struct Others<'a, S> {
    pub(crate) spool: &'a S,
    pub(crate) meter: &'a Meter,
}

impl<'a, S: Spool> Patience for Others<'a, S> {
    // The script has run for long, and another script waits, or the server or the generation is to end.
    fn is_out(&self) -> bool {
        self.spool.is_long() && (self.spool.is_awaited() || self.meter.is_full())
    }
}

// How a run that may be ended early came to its end.
#[derive(Clone, Copy, Drop)]
pub(crate) enum RunEnd {
    // All instructions that it may take were executed, or it ended by itself: its outcome.
    Done(MachineOutcome),
    // Others wait.
    Stopped,
    // It has written more words than an answer has room for.
    TooLong,
}

// Why a run may be ended early.
#[derive(Clone, Copy, Drop)]
pub(crate) struct RunBounds {
    // Others may wait.
    pub(crate) may_stop: bool,
    // Its answer may have at most 16 MiB.
    pub(crate) is_short: bool,
}

// Runs an image on input words for at most this many instructions, as `run_image` does. The result is the machine after the run,
// and how the run ended: before its end only if it may be ended early for this reason.
pub(crate) fn run_in_slices<P: Patience>(
    alloc: Global,
    image: &Image,
    words: &[u32],
    steps: u64,
    bounds: RunBounds,
    patience: &P,
) -> Result<(Machine, RunEnd), AllocError>
    ensures { IfOk result (λ ran. IsRunEnd bounds.may_stop bounds.is_short image.now words.now steps ran.0 ran.1) }
{
    let Ok(mut machine) = Machine::new(alloc, image, words) else {
        return Err(AllocError);
    };
    let mut left = steps;
    while SLICE < left {
        let Ok(outcome) = machine.run(SLICE) else {
            return Err(AllocError);
        };
        left -= SLICE;
        if bounds.is_short && MOST_WORDS < machine.output().len() {
            return Ok((machine, RunEnd::TooLong));
        }
        if bounds.may_stop && outcome == MachineOutcome::Going && patience.is_out() {
            return Ok((machine, RunEnd::Stopped));
        }
    }
    match machine.run(left) {
        Ok(outcome) => Ok((machine, RunEnd::Done(outcome))),
        Err(_) => Err(AllocError),
    }
}
