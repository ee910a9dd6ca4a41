// The answer to a task for a text whose run may write only so many words.

ghost use Rattle.std.specs.Prelude.{IfOk, IfErr};
ghost use Rattle.cc_tasks.specs.Answer.{HasNoImage, HasNoProgram, IsExecutedWithin, IsRanWithin};

use super::answer::{Answer, compiled};
use super::fault::Fault;
use cc_link::{Mode, typed_unit};
use cc_meaning::interpret_within;
use cc_runs::run_words_within;
use std::alloc::Global;

/// What the program does on the input words until it would write more than `most` words. Fails with 40 if memory was refused during
/// the run.
pub(crate) fn ran_within(
    alloc: Global,
    text: &[u8],
    words: &[u32],
    steps: u64,
    most: u64,
) -> Result<Answer, Fault>
    ensures answer { IfOk result (λ answer. IsRanWithin steps most words.now text.now answer) }
    ensures refused { IfErr result (λ fault. HasNoProgram text.now fault) }
{
    match typed_unit(alloc, text) {
        Ok(program) => match interpret_within(alloc, &program, words, steps, most) {
            Ok(done) => Ok(Answer::Ran(done.outcome)),
            Err(fault) => Err(Fault::Meaning(fault)),
        },
        Err(fault) => Err(Fault::Text(fault)),
    }
}

/// What the program's image does on the input words until it would write more than `most` words. Fails with 40 if memory was refused
/// during the run, or if `most` is more than 4,294,967,295.
pub(crate) fn executed_within(
    alloc: Global,
    mode: Mode,
    text: &[u8],
    words: &[u32],
    steps: u64,
    most: u64,
) -> Result<Answer, Fault>
    ensures answer { IfOk result (λ answer. IsExecutedWithin mode steps most words.now text.now answer) }
    ensures refused { IfErr result (λ fault. HasNoImage mode text.now fault) }
{
    let unit = match compiled(alloc, mode, text) {
        Ok(unit) => unit,
        Err(fault) => return Err(fault),
    };
    let Ok(bound) = u32::try_from(most) else {
        drop(unit);
        return Err(Fault::OutOfMemory);
    };
    match run_words_within(
        alloc,
        &unit.stored().image,
        words,
        steps,
        Some(bound),
        false,
    ) {
        Ok(run) => Ok(Answer::Executed(run)),
        Err(_) => Err(Fault::OutOfMemory),
    }
}
