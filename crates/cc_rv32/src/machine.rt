// The simulator: it runs an image on an input, for a number of instructions at a time.

ghost use Rattle.std.specs.Prelude.{◌≡◌, ◌≢◌, ◌+◌, ◌-◌, ◌<◌, ◌≤◌, ◌++◌, ℕ, [], List, length, Option, IfOk, IfSome, OnErr, OnOk, true, option_map, unwrap_or, slice_get};
ghost use Rattle.cc_words.specs.Observed.{reads_in};
ghost use Rattle.cc_rv32.specs.Machine.{Run, machine_run, machine_behavior, observed_machine, start};
ghost use Rattle.cc_rv32.specs.InPlace.{is_in_place};
ghost use Rattle.cc_rv32.specs.Simulation.{Simulation, shown_run, in_words, IsAfter, IsFull, IsOn, IsWrite, StopsToRead, WentWithin, Wrote};

use crate::fault::MachineFault;
use crate::image::Image;
use crate::outcome::MachineOutcome;
use crate::simulator::{Simulator, run_for, run_to_read, run_to_wait, run_within};
use std::alloc::Global;
use std::marker::Model;

/// A machine that runs an image. A clause sees its parts, and `shown_run` is the run that they represent.
pub struct Machine {
    simulator: Simulator,
}

// This is written by hand, so that the crates above use this proof and need not show again how each part is dropped.
impl Drop for Machine {
    fn drop(self) {
        let Machine { simulator } = self;
    }
}

impl Model for Machine {
    ghost use Rattle.cc_rv32.specs.Simulation.{Simulation};

    ghost Value = { Simulation };

    ghost use Rattle.cc_rv32.specs.Simulation.{simulation_of};
    ghost use Rattle.cc_rv32.specs.internal.Simulated.{IsSound};

    ghost view = { λ m. simulation_of m.simulator };

    ghost invariant = { λ m. IsSound m.simulator };
}

impl Machine {
    /// Makes a machine with the image in place, before its first instruction. The program counter is 0x00010000, `x2` is 0x00800000, all
    /// other registers and the stack are 0, and these words are the input. Fails with 40 (OutOfMemory) if memory for these words, or for
    /// the 2.25 MiB of globals and stack, was refused.
    pub fn new(alloc: Global, image: &Image, input: &[u32]) -> Result<Self, MachineFault>
        ensures start { IfOk result (λ m. IsAfter image.now input.now 0 m) }
        ensures on { IfOk result (λ m. IsOn image.now input.now [] 0 m) }
    {
        match Simulator::new(alloc, image, input) {
            Ok(simulator) => Ok(Machine { simulator }),
            Err(_) => Err(MachineFault::OutOfMemory),
        }
    }

    /// Puts the machine before the first instruction of an image, with these words as the input, as `new` does, whatever it ran before. It
    /// clears not all of the 2.25 MiB, but the stack from the lowest word on that was stored to since the last start, and the globals up to
    /// the highest one; and it decodes the code only if it has other code. Fails with 40 (OutOfMemory) if memory for these words, or
    /// for other code, was refused; then nothing has changed.
    pub fn restart(&mut self, image: &Image, input: &[u32]) -> Result<(), MachineFault>
        ensures start { OnOk result (IsAfter image.now input.now 0 self.new) }
        ensures on { OnOk result (IsOn image.now input.now [] 0 self.new) }
        ensures refused { OnErr result (self.new ≡ self.old) }
    {
        let simulator = &mut self.simulator;
        let Ok(()) = simulator.restart(image, input) else {
            return Err(MachineFault::OutOfMemory);
        };
        Ok(())
    }

    /// Executes one instruction, unless the machine has exited or trapped, and returns the outcome of the run so far. Fails with 40
    /// (OutOfMemory) only if the instruction writes a word and the output could not grow; then nothing has changed.
    pub fn step(&mut self) -> Result<MachineOutcome, MachineFault>
        ensures code { self.new.code ≡ self.old.code }
        ensures words { in_words (shown_run self.old) ≡ shown_run self.old }
        ensures run { IfOk result (λ outcome. shown_run self.new ≡ in_words (machine_run self.old.code 1 (shown_run self.old))) }
        ensures outcome { IfOk result (λ outcome. outcome ≡ self.new.outcome) }
        ensures refused { OnErr result ((shown_run self.new ≡ shown_run self.old) × IsWrite self.new.code (shown_run self.new)) }
    {
        self.run(1)
    }

    /// Executes this many instructions, or fewer if the machine exits or traps, and returns the outcome of the run so far. To run `a` and
    /// then `b` instructions is the same as to run `a + b`. Fails with 40 (OutOfMemory) only if an instruction writes a word and the output
    /// could not grow; then the instructions before that one have been executed.
    pub fn run(&mut self, steps: u64) -> Result<MachineOutcome, MachineFault>
        ensures code { self.new.code ≡ self.old.code }
        ensures words { in_words (shown_run self.old) ≡ shown_run self.old }
        ensures run { IfOk result (λ outcome. shown_run self.new ≡ in_words (machine_run self.old.code steps (shown_run self.old))) }
        ensures outcome { IfOk result (λ outcome. outcome ≡ self.new.outcome) }
        ensures behavior { IfOk result (λ outcome. (image : Image) (input : List ℕ) (done : ℕ) → IsAfter image input done self.old
            → IsAfter image input (done + steps) self.new × (outcome ≡ (machine_behavior image input (done + steps)).outcome)) }
        ensures refused { OnErr result ((k : ℕ) × (k < steps) × (shown_run self.new ≡ in_words (machine_run self.old.code k (shown_run self.old)))
            × IsWrite self.new.code (shown_run self.new)) }
    {
        let simulator = &mut self.simulator;
        let Ok(()) = run_for(simulator, steps) else {
            return Err(MachineFault::OutOfMemory);
        };
        Ok(simulator.outcome)
    }

    /// Executes this many instructions, or fewer if the machine exits or traps, but stops before an instruction that writes a word when the
    /// output has `most` words already. Returns how many instructions are left then, at least 1, and otherwise `None`: then it has done what
    /// `run` does. Fails with 40 (OutOfMemory) only if an instruction writes a word and the output could not grow; then the instructions
    /// before that one have been executed.
    pub fn run_within(&mut self, steps: u64, most: u64) -> Result<Option<u64>, MachineFault>
        ensures code { self.new.code ≡ self.old.code }
        ensures run { IfOk result (λ left. shown_run self.new ≡ in_words (machine_run self.old.code (steps - unwrap_or left 0) (shown_run self.old))) }
        ensures full { IfOk result (λ left. IfSome left (λ n. IsFull steps most n self.new)) }
        ensures bounded { length self.old.output ≤ most → length self.new.output ≤ most }
        ensures behavior { IfOk result (λ left. (image : Image) (input : List ℕ) (done : ℕ) → IsAfter image input done self.old
            → IsAfter image input (done + (steps - unwrap_or left 0)) self.new
            × (self.new.outcome ≡ (machine_behavior image input (done + (steps - unwrap_or left 0))).outcome)) }
        // With any more instructions there are more words.
        ensures last { IfOk result (λ left. IfSome left (λ n. (image : Image) (input : List ℕ) (done more : ℕ) → IsAfter image input done self.old → 0 < more
            → length self.new.output < length (machine_behavior image input (done + (steps - n) + more)).output)) }
        ensures refused { OnErr result ((k : ℕ) × (k < steps) × (shown_run self.new ≡ in_words (machine_run self.old.code k (shown_run self.old)))
            × IsWrite self.new.code (shown_run self.new)) }
    {
        let simulator = &mut self.simulator;
        let Ok(left) = run_within(simulator, steps, most) else {
            return Err(MachineFault::OutOfMemory);
        };
        Ok(left)
    }

    /// Executes this many instructions, or fewer if the machine exits or traps, but stops before an instruction that reads. Returns how
    /// many instructions are left then, at least 1, and otherwise `None`. The input stays as it is. Fails with 40 (OutOfMemory) only if an
    /// instruction writes a word and the output could not grow; then the instructions before that one have been executed.
    pub fn run_to_read(&mut self, steps: u64) -> Result<Option<u64>, MachineFault>
        ensures code { self.new.code ≡ self.old.code }
        ensures wrote { IfOk result (λ left. Wrote self.old.code (steps - unwrap_or left 0) self.old self.new) }
        ensures read { IfOk result (λ left. IfSome left (λ n. StopsToRead steps n self.new)) }
        ensures refused { OnErr result ((k : ℕ) × (k < steps) × Wrote self.old.code k self.old self.new × IsWrite self.new.code (shown_run self.new)) }
    {
        let simulator = &mut self.simulator;
        let Ok(left) = run_to_read(simulator, steps) else {
            return Err(MachineFault::OutOfMemory);
        };
        Ok(left)
    }

    /// Executes this many instructions, or fewer if the machine exits or traps, but stops before an instruction that reads when no word of
    /// the input is left: it waits for words, which `feed` appends. Returns how many instructions are left then, at least 1, and otherwise
    /// `None`. Fails with 40 (OutOfMemory) only if an instruction writes a word and the output could not grow; then the instructions before
    /// that one have been executed.
    pub fn run_to_wait(&mut self, steps: u64) -> Result<Option<u64>, MachineFault>
        ensures code { self.new.code ≡ self.old.code }
        ensures went { IfOk result (λ left. WentWithin self.old.code (steps - unwrap_or left 0) self.old self.new) }
        ensures waits { IfOk result (λ left. IfSome left (λ n. StopsToRead steps n self.new × (self.new.input ≡ []))) }
        ensures on { IfOk result (λ left. (image : Image) (input given : List ℕ) (done : ℕ) → IsOn image input given done self.old
            → IsOn image input given (done + (steps - unwrap_or left 0)) self.new) }
        ensures refused { OnErr result ((k : ℕ) × (k < steps) × WentWithin self.old.code k self.old self.new × IsWrite self.new.code (shown_run self.new)) }
    {
        let simulator = &mut self.simulator;
        let Ok(left) = run_to_wait(simulator, steps) else {
            return Err(MachineFault::OutOfMemory);
        };
        Ok(left)
    }

    /// Appends words to the input, and lets go of those that were read. The run so far is, instruction for instruction, the run on all of the
    /// input together. Fails with 40 (OutOfMemory) if memory for the words was refused; then nothing has changed.
    pub fn feed(&mut self, words: &[u32]) -> Result<(), MachineFault>
        ensures fed { OnOk result (self.new ≡ record self.old { input = self.old.input ++ words.now }) }
        ensures on { OnOk result ((image : Image) (input given : List ℕ) (done : ℕ) → IsOn image input given done self.old
            → IsOn image (input ++ words.now) given done self.new) }
        ensures refused { OnErr result (self.new ≡ self.old) }
    {
        let simulator = &mut self.simulator;
        let Ok(()) = simulator.feed(words) else {
            return Err(MachineFault::OutOfMemory);
        };
        Ok(())
    }

    /// Gives up the words that the program has written so far; the next ones are written from here on. Takes no memory, and keeps what it
    /// has for them.
    pub fn clear_output(&mut self)
        ensures cleared { self.new ≡ record self.old { output = [] } }
        ensures on { (image : Image) (input given : List ℕ) (done : ℕ) → IsOn image input given done self.old
            → IsOn image input (given ++ self.old.output) done self.new }
    {
        let simulator = &mut self.simulator;
        simulator.clear_output();
    }

    /// The next word of the input, if one is left. Takes no memory.
    pub fn next_word(&self) -> Option<u32>
        ensures { result ≡ slice_get self.now.input 0 }
    {
        let simulator = &self.simulator;
        simulator.input.get(simulator.taken).copied()
    }

    /// How the run ended, or that it is going. Takes no memory.
    pub fn outcome(&self) -> MachineOutcome
        ensures { result ≡ self.now.outcome }
    {
        self.simulator.outcome
    }

    /// Whether the run has stopped in place: it is going, and its next instruction is a jump to itself. So it writes nothing more and does not
    /// end, however many instructions it is given. Takes no memory.
    pub fn is_in_place(&self) -> bool
        ensures exact { result ≡ is_in_place self.now }
        ensures for_ever { result ≡ true → (image : Image) (input : List ℕ) (done more : ℕ) → IsAfter image input done self.now
            → machine_behavior image input (done + more) ≡ record { outcome = MachineOutcome.Going; output = self.now.output } }
        ensures fed { result ≡ true → (image : Image) (input given : List ℕ) (done more : ℕ) → IsOn image input given done self.now
            → machine_behavior image input (done + more) ≡ record { outcome = MachineOutcome.Going; output = given ++ self.now.output } }
    {
        self.simulator.is_in_place()
    }

    /// The words that the program has written so far, oldest first. Takes no memory.
    pub fn output(&self) -> &[u32]
        ensures words { result.now ≡ self.now.output }
        ensures behavior { (image : Image) (input : List ℕ) (done : ℕ) → IsAfter image input done self.now
            → result.now ≡ (machine_behavior image input done).output }
    {
        self.simulator.output.as_slice()
    }
}

/// Shows what a machine whose input is fed has done: the words that it gave up and those that it has are what the image writes on all of the
/// input together, within as many instructions.
pub fn fed_runs_are_runs()
    ensures output { (image : Image) (input given : List ℕ) (done : ℕ) (m : Simulation) → IsOn image input given done m
        → given ++ m.output ≡ (machine_behavior image input done).output }
    ensures outcome { (image : Image) (input given : List ℕ) (done : ℕ) (m : Simulation) → IsOn image input given done m
        → m.outcome ≡ (machine_behavior image input done).outcome }
{}

/// Shows that a run that has not read past its input is the run on every longer input.
pub fn runs_ignore_more()
    ensures { (image : Image) (input more : List ℕ) (n : ℕ) → reads_in (observed_machine image input n).output ≤ length input
        → observed_machine image (input ++ more) n ≡ observed_machine image input n }
{}

/// Shows that to run `m` and then `n` instructions is the same as to run `m + n`, for any code and any run so far; and that a run that has
/// exited or trapped does not change, nor does its state.
pub fn runs_go_on()
    ensures additive { (code : List ℕ) (m n : ℕ) (r : Run) → machine_run code (m + n) r ≡ machine_run code n (machine_run code m r) }
    ensures ended { (code : List ℕ) (n : ℕ) (r : Run) → r.outcome ≢ MachineOutcome.Going → machine_run code n r ≡ r }
{}
