// The answer to a task for a text, with a count of the steps or of the instructions.

ghost use Rattle.std.specs.Prelude.{IfOk, IfErr};
ghost use Rattle.cc_tasks.specs.Answer.{HasNoImage, HasNoProgram, IsExecutedCounted, IsRanCounted};

use super::answer::{Answer, compiled};
use super::fault::Fault;
use cc_link::{Mode, typed_unit};
use cc_steps::{interpret_counted, run_counted};
use std::alloc::Global;

/// What the program does on the input words, and in how many steps. Fails with 40 if memory was refused during the
/// run.
pub(crate) fn ran_counted(
    alloc: Global,
    text: &[u8],
    words: &[u32],
    steps: u64,
) -> Result<Answer, Fault>
    ensures answer { IfOk result (λ answer. IsRanCounted steps words.now text.now answer) }
    ensures refused { IfErr result (λ fault. HasNoProgram text.now fault) }
{
    match typed_unit(alloc, text) {
        Ok(program) => match interpret_counted(alloc, &program, words, steps) {
            Ok(outcome) => Ok(Answer::RanCounted(outcome)),
            Err(fault) => Err(Fault::Meaning(fault)),
        },
        Err(fault) => Err(Fault::Text(fault)),
    }
}

/// What the program's image does on the input words, and in how many instructions. Fails with 40 if memory was refused
/// during the run.
pub(crate) fn executed_counted(
    alloc: Global,
    mode: Mode,
    text: &[u8],
    words: &[u32],
    steps: u64,
) -> Result<Answer, Fault>
    ensures answer { IfOk result (λ answer. IsExecutedCounted mode steps words.now text.now answer) }
    ensures refused { IfErr result (λ fault. HasNoImage mode text.now fault) }
{
    let unit = match compiled(alloc, mode, text) {
        Ok(unit) => unit,
        Err(fault) => return Err(fault),
    };
    match run_counted(alloc, &unit.stored().image, words, steps) {
        Ok(run) => Ok(Answer::Executed(run)),
        Err(_) => Err(Fault::OutOfMemory),
    }
}
