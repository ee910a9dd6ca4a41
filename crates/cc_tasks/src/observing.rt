// The answer to a task for a text that says what is read, too.

ghost use Rattle.std.specs.Prelude.{IfOk, IfErr};
ghost use Rattle.cc_tasks.specs.Answer.{HasNoImage, HasNoProgram, IsExecutedObserved, IsRanObserved};

use super::answer::{Answer, compiled};
use super::fault::Fault;
use cc_link::{Mode, typed_unit};
use cc_steps::{interpret_exchanges, run_exchanges};
use std::alloc::Global;

/// What the program reads and writes on the input words, and how it ends. Fails with 40 if memory was refused during the run.
pub(crate) fn ran_observed(
    alloc: Global,
    text: &[u8],
    words: &[u32],
    steps: u64,
) -> Result<Answer, Fault>
    ensures answer { IfOk result (λ answer. IsRanObserved steps words.now text.now answer) }
    ensures refused { IfErr result (λ fault. HasNoProgram text.now fault) }
{
    match typed_unit(alloc, text) {
        Ok(program) => match interpret_exchanges(alloc, &program, words, steps) {
            Ok(done) => Ok(Answer::RanObserved(done)),
            Err(fault) => Err(Fault::Meaning(fault)),
        },
        Err(fault) => Err(Fault::Text(fault)),
    }
}

/// What the program's image reads and writes on the input words, and how its run ends. Fails with 40 if memory was refused during
/// the run.
pub(crate) fn executed_observed(
    alloc: Global,
    mode: Mode,
    text: &[u8],
    words: &[u32],
    steps: u64,
) -> Result<Answer, Fault>
    ensures answer { IfOk result (λ answer. IsExecutedObserved mode steps words.now text.now answer) }
    ensures refused { IfErr result (λ fault. HasNoImage mode text.now fault) }
{
    let unit = match compiled(alloc, mode, text) {
        Ok(unit) => unit,
        Err(fault) => return Err(fault),
    };
    match run_exchanges(alloc, &unit.stored().image, words, steps) {
        Ok(done) => Ok(Answer::ExecutedObserved(done)),
        Err(_) => Err(Fault::OutOfMemory),
    }
}
