// A machine that is kept from one run to the next. A new machine has 2.25 MiB to clear; a restarted one only what its last run stored to.

ghost use Rattle.std.specs.Prelude.{IfOk};
ghost use Rattle.cc_runs.specs.Within.{IsCountedWithin};

use cc_runs::{CountedRun, run_words_on};
use cc_rv32::image::Image;
use cc_rv32::machine::Machine;
use std::alloc::{AllocError, Global};

/// A machine that is kept from one run to the next. The first run makes it.
pub struct KeptMachine {
    machine: Option<Machine>,
}

// This is written by hand, so that the callers use this proof and need not show again how the machine is dropped.
impl Drop for KeptMachine {
    fn drop(self) {
        let KeptMachine { machine } = self;
    }
}

impl KeptMachine {
    /// No machine yet. Takes no memory.
    pub fn new() -> KeptMachine {
        KeptMachine { machine: None }
    }

    /// What an image does on the input words within `steps` instructions, which are counted if `is_counted`. If at most so many words may be
    /// written, the run ends, as going, before the first one that is too many. Nothing of an earlier run is seen, whatever image that had.
    /// Fails with `AllocError` if memory was refused; the next run may then succeed.
    pub fn run(
        &mut self,
        alloc: Global,
        image: &Image,
        words: &[u32],
        steps: u64,
        most: Option<u32>,
        is_counted: bool,
    ) -> Result<CountedRun, AllocError>
        ensures { IfOk result (IsCountedWithin image.now is_counted steps most words.now) }
    {
        match &mut self.machine {
            Some(machine) => run_words_on(alloc, machine, image, words, steps, most, is_counted),
            None => {
                let Ok(mut machine) = Machine::new(alloc, image, words) else {
                    return Err(AllocError);
                };
                let run = run_words_on(alloc, &mut machine, image, words, steps, most, is_counted);
                self.machine = Some(machine);
                run
            }
        }
    }
}
