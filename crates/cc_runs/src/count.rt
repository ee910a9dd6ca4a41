// Runs an image within bounds on its instructions and its words, and counts the instructions.
//
// A machine says how far its run has come, but not after how many instructions. So to count, it runs in slices, up to the slice
// in which its run ends. Then it starts again, runs up to the beginning of that slice, and goes on instruction by instruction.

ghost use Rattle.std.specs.Prelude.{◌≡◌, ◌≤◌, ◌<◌, ◌+◌, ◌-◌, ℕ, List, true, IfOk, is_some};
ghost use Rattle.cc_rv32.specs.InPlace.{is_in_place};
ghost use Rattle.cc_rv32.specs.Machine.{machine_behavior};
ghost use Rattle.cc_rv32.specs.Simulation.{IsAfter};
ghost use Rattle.cc_rv32.specs.declared.outcome.MachineOutcome.TheVariants.{Going};
ghost use Rattle.cc_runs.specs.Count.{IsCounted};
ghost use Rattle.cc_runs.specs.Within.{IsCountedWithin, IsFew, IsOver};
ghost use Rattle.cc_runs.specs.internal.Ending.{HasRun};

use cc_answers::ImageRun;
use cc_rv32::image::Image;
use cc_rv32::machine::Machine;
use cc_rv32::outcome::MachineOutcome;
use std::alloc::{AllocError, Global};

// The machine executes this many instructions before it is asked again whether its run has ended.
const SLICE: u64 = 65_536;

/// What an image has written, how its run ended, after how many instructions, if that was asked for, and whether it has stopped
/// in place: then nothing more comes, however many instructions it is given.
#[derive(Drop)]
pub struct CountedRun {
    pub run: ImageRun,
    pub executed: Option<u64>,
    pub is_final: bool,
}

// Executes this many instructions. If only so many words may be written, it stops before the first one that is too many. The
// result is how many instructions are left then, or 0.
fn go_on(machine: &mut Machine, steps: u64, most: Option<u32>) -> Result<u64, AllocError>
    ensures left { IfOk result (λ left. left ≤ steps) }
    ensures after { IfOk result (λ left. (image : Image) (input : List ℕ) (done : ℕ) → IsAfter image input done machine.old
        → IsAfter image input (done + (steps - left)) machine.new) }
    ensures few { IsFew most machine.old.output → IsFew most machine.new.output }
    ensures over { IfOk result (λ left. 0 < left → (image : Image) (input : List ℕ) (done more : ℕ) → IsAfter image input done machine.old → 0 < more
        → IsOver most (machine_behavior image input (done + (steps - left) + more)).output) }
{
    let Some(most) = most else {
        return match machine.run(steps) {
            Ok(_) => Ok(0),
            Err(_) => Err(AllocError),
        };
    };
    match machine.run_within(steps, u64::from(most)) {
        Ok(Some(left)) => Ok(left),
        Ok(None) => Ok(0),
        Err(_) => Err(AllocError),
    }
}

// A number of instructions within the bound after which the run is still going: those of all slices before the one in which it
// ends.
fn going_for(
    machine: &mut Machine,
    image: &Image,
    words: &[u32],
    steps: u64,
    most: Option<u32>,
) -> Result<u64, AllocError>
    ensures within { IfOk result (λ done. done ≤ steps) }
    ensures going { IfOk result (λ done. (machine_behavior image.now words.now done).outcome ≡ Going) }
{
    let Ok(()) = machine.restart(image, words) else {
        return Err(AllocError);
    };
    let mut left = steps;
    while SLICE < left {
        let over = go_on(machine, SLICE, most)?;
        if over > 0 || machine.outcome() != MachineOutcome::Going {
            return Ok(steps - left);
        }
        left -= SLICE;
    }
    Ok(steps - left)
}

// Runs an image on input words within the bounds, and counts the instructions.
fn count_on(
    machine: &mut Machine,
    image: &Image,
    words: &[u32],
    steps: u64,
    most: Option<u32>,
) -> Result<u64, AllocError>
    ensures { IfOk result (λ count. HasRun image.now steps most words.now machine.new (Some count)) }
{
    let begun = going_for(machine, image, words, steps, most)?;
    let Ok(()) = machine.restart(image, words) else {
        return Err(AllocError);
    };
    let over = go_on(machine, begun, most)?;
    let mut left = steps - (begun - over);
    while left > 0 && machine.outcome() == MachineOutcome::Going {
        let over = go_on(machine, 1, most)?;
        if over > 0 {
            return Ok(steps - left);
        }
        left -= 1;
    }
    Ok(steps - left)
}

// Runs an image on input words within the bounds. The result is how many instructions that took, if they are counted.
fn run_on(
    machine: &mut Machine,
    image: &Image,
    words: &[u32],
    steps: u64,
    most: Option<u32>,
    is_counted: bool,
) -> Result<Option<u64>, AllocError>
    ensures run { IfOk result (λ executed. HasRun image.now steps most words.now machine.new executed) }
    ensures asked { IfOk result (λ executed. is_some executed ≡ is_counted) }
{
    if is_counted {
        let count = count_on(machine, image, words, steps, most)?;
        return Ok(Some(count));
    }
    let Ok(()) = machine.restart(image, words) else {
        return Err(AllocError);
    };
    go_on(machine, steps, most)?;
    Ok(None)
}

// What a machine has written, how its run ended, and whether it has stopped in place.
fn run_so_far(
    alloc: Global,
    machine: &Machine,
    executed: Option<u64>,
) -> Result<CountedRun, AllocError>
    ensures { IfOk result (λ r. (r.run.output.items ≡ machine.now.output) × (r.run.outcome ≡ machine.now.outcome) × (r.executed ≡ executed)
        × (r.is_final ≡ is_in_place machine.now)) }
{
    let output = Vec::from_slice(alloc, machine.output())?;
    Ok(CountedRun {
        run: ImageRun {
            output,
            outcome: machine.outcome(),
        },
        executed,
        is_final: machine.is_in_place(),
    })
}

/// What an image does on the input words within `steps` instructions, which are counted if `is_counted`. If at most so many words may be
/// written, the run ends, as going, before the first one that is too many. It runs on this machine, whatever that ran before: it is
/// restarted, and not made anew. Fails with `AllocError` if memory was refused.
pub fn run_words_on(
    alloc: Global,
    machine: &mut Machine,
    image: &Image,
    words: &[u32],
    steps: u64,
    most: Option<u32>,
    is_counted: bool,
) -> Result<CountedRun, AllocError>
    ensures { IfOk result (IsCountedWithin image.now is_counted steps most words.now) }
{
    let executed = run_on(machine, image, words, steps, most, is_counted)?;
    run_so_far(alloc, machine, executed)
}

/// The same on a machine of its own.
pub fn run_words_within(
    alloc: Global,
    image: &Image,
    words: &[u32],
    steps: u64,
    most: Option<u32>,
    is_counted: bool,
) -> Result<CountedRun, AllocError>
    ensures { IfOk result (IsCountedWithin image.now is_counted steps most words.now) }
{
    let Ok(mut machine) = Machine::new(alloc, image, words) else {
        return Err(AllocError);
    };
    run_words_on(alloc, &mut machine, image, words, steps, most, is_counted)
}

/// What an image does on the input words within `steps` instructions, which are counted if `is_counted`. Fails with
/// `AllocError` if memory was refused.
pub fn run_words(
    alloc: Global,
    image: &Image,
    words: &[u32],
    steps: u64,
    is_counted: bool,
) -> Result<CountedRun, AllocError>
    ensures { IfOk result (IsCounted image.now is_counted steps words.now) }
{
    run_words_within(alloc, image, words, steps, None, is_counted)
}

/// What an image does on the input words within `steps` instructions, and the least number of instructions with that result,
/// or the bound, if the run is still going then. Fails with `AllocError` if memory was refused during the run.
pub fn run_counted(
    alloc: Global,
    image: &Image,
    words: &[u32],
    steps: u64,
) -> Result<CountedRun, AllocError>
    ensures { IfOk result (IsCounted image.now true steps words.now) }
{
    run_words(alloc, image, words, steps, true)
}
