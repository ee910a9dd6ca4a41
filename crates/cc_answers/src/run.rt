// What an image does.

ghost use Rattle.std.specs.Prelude.{IfOk, OnOk};
ghost use Rattle.std.specs.Io.KnownBytes.{Appends};
ghost use Rattle.cc_answers.specs.Run.{IsRunOf};
ghost use Rattle.cc_answers.specs.Text.{machine_outcome_text, run_text, words_text};

use cc_rv32::image::Image;
use cc_rv32::machine::Machine;
use cc_rv32::outcome::MachineOutcome;
use std::alloc::{AllocError, Global};
use std::io::{self, Write};

/// What an image has written, and how its run ended.
#[derive(Drop)]
pub struct ImageRun {
    pub output: Vec<u32>,
    pub outcome: MachineOutcome,
}

/// What an image does on the input words within `steps` instructions. Fails with `AllocError` if memory was refused during the
/// run.
pub fn run_image(
    alloc: Global,
    image: &Image,
    words: &[u32],
    steps: u64,
) -> Result<ImageRun, AllocError>
    ensures { IfOk result (λ run. IsRunOf image.now steps words.now run) }
{
    let Ok(mut machine) = Machine::new(alloc, image, words) else {
        return Err(AllocError);
    };
    let Ok(outcome) = machine.run(steps) else {
        return Err(AllocError);
    };
    match Vec::from_slice(alloc, machine.output()) {
        Ok(output) => Ok(ImageRun { output, outcome }),
        Err(_) => Err(AllocError),
    }
}

/// Writes words as signed numbers, each on a line of its own. Fails if the writer failed.
pub fn write_words<W: Write>(words: &[u32], writer: &mut W) -> io::Result<()>
    ensures { OnOk result (Appends (W.contents writer.old) (W.contents writer.new) (words_text words.now)) }
{
    for word in words {
        writeln!(writer, "{}", word.cast_signed())?;
    }
    Ok(())
}

/// Writes how a run ended. Fails if the writer failed.
pub fn write_outcome<W: Write>(outcome: MachineOutcome, writer: &mut W) -> io::Result<()>
    ensures { OnOk result (Appends (W.contents writer.old) (W.contents writer.new) (machine_outcome_text outcome)) }
{
    match outcome {
        MachineOutcome::Going => writeln!(writer, "going"),
        MachineOutcome::Exited(word) => writeln!(writer, "exited {}", word.cast_signed()),
        MachineOutcome::Trapped => writeln!(writer, "trapped"),
    }
}

/// Writes the words, one on each line, and then how the run ended. Fails if the writer failed.
#[tactic(auto, using(crate::proofs::Writing::written_on))]
pub fn write_run<W: Write>(run: &ImageRun, writer: &mut W) -> io::Result<()>
    ensures { OnOk result (Appends (W.contents writer.old) (W.contents writer.new) (run_text run.now)) }
{
    write_words(run.output.as_slice(), writer)?;
    write_outcome(run.outcome, writer)
}
