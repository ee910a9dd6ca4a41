// Runs of images.

use cc_link::CompiledUnit;
use cc_rv32::machine::Machine;
use cc_rv32::outcome::MachineOutcome;
use std::alloc::Global;
use std::test::Fail;

/// A program that writes two quotients.
pub const QUOTIENTS: &str = "int main(void){write_word(-7/2);write_word(-7%2);return 0;}";

/// The words from 1 to 24.
pub const WORDS: &[u32] = &[
    1, 2, 3, 4, 5, 6, 7, 8, 9, 10, 11, 12, 13, 14, 15, 16, 17, 18, 19, 20, 21, 22, 23, 24,
];

/// A run: its input, the largest number of instructions to execute, the words that it writes, and its
/// outcome.
#[derive(Clone, Copy)]
pub struct Run<'a> {
    pub input: &'a [u32],
    pub steps: u64,
    pub words: &'a [i32],
    pub outcome: MachineOutcome,
}

/// A run that reads `input`, executes at most `steps` instructions, writes `words`, and ends with 0.
pub fn ends_well<'a>(input: &'a [u32], steps: u64, words: &'a [i32]) -> Run<'a> {
    Run {
        input,
        steps,
        words,
        outcome: MachineOutcome::Exited(0),
    }
}

// Whether `found` has these words, as signed numbers.
fn are_words(found: &[u32], words: &[i32]) -> bool {
    let mut same = found.len() == words.len();
    for (one, other) in found.iter().zip(words.iter()) {
        same = same && one.cast_signed() == *other;
    }
    same
}

/// Whether the image of a unit has this run.
pub fn image_runs(alloc: Global, unit: &CompiledUnit, run: Run<'_>) -> Result<bool, Fail> {
    let mut machine = Machine::new(alloc, &unit.stored().image, run.input)?;
    let outcome = machine.run(run.steps);
    let same = are_words(machine.output(), run.words);
    drop(machine);
    Ok(same && outcome? == run.outcome)
}
