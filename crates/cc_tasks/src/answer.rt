// The answer to a task for a text.

ghost use Rattle.std.specs.Prelude.{◌≡◌, ℕ, List, IfOk, IfErr};
ghost use Rattle.cc_c_semantics.specs.declared.mode.Mode.{Mode};
ghost use Rattle.cc_link.specs.Agree.{Agree, AgreeIn};
ghost use Rattle.cc_link.specs.Compile.{IsBuildRefusalIn};
ghost use Rattle.cc_findings.specs.Measured.{Measures};
ghost use Rattle.cc_tasks.specs.Answer.{IsAccepted, IsRan, IsExecuted, IsListed, IsImage, IsJudged, IsMeasured, IsSizedImage, Answers, HasNoImage, HasNoProgram, IsRefused, mode_of};

use super::counting::{executed_counted, ran_counted};
use super::fault::Fault;
use super::observing::{executed_observed, ran_observed};
use super::within::{executed_within, ran_within};
use cc_findings::{Measure, Unsure, judge, measured};
use cc_hex::image::write;
use cc_link::{BuildFault, CompiledUnit, Mode, compile_in, typed_unit};
use cc_meaning::{Outcome, interpret};
use cc_runs::{CountedRun, run_words};
use cc_rv32::listing::list;
use cc_size::size_in;
use cc_steps::{CountedOutcome, ObservedOutcome, ObservedRun};
use cc_task::{Kind, Task};
use std::alloc::Global;

/// What a task answers, before it is written.
#[derive(Drop)]
pub enum Answer {
    /// The text is a program.
    Accepted,
    /// What the program does.
    Ran(Outcome),
    /// What the program's image has written, how its run ended, whether it has stopped in place, and in how many instructions, if these were
    /// counted.
    Executed(CountedRun),
    /// What the program does, and in how many steps.
    RanCounted(CountedOutcome),
    /// What the program reads and writes, and how it ends.
    RanObserved(ObservedOutcome),
    /// What the program's image has read and written, and how its run ended.
    ExecutedObserved(ObservedRun),
    /// The listing of the program's image.
    Listed(Vec<u8>),
    /// The program's image as Intel HEX.
    Image(Vec<u8>),
    /// How much memory the program's image takes.
    Sized(Measure),
    /// The program's image as Intel HEX, and how much memory this image takes.
    SizedImage(Vec<u8>, Measure),
    /// What may go wrong in the program, unless it is shown that nothing may.
    Judged(Vec<Unsure>),
}

// Answers that the text is a program.
fn accepted(alloc: Global, text: &[u8]) -> Result<Answer, Fault>
    ensures answer { IfOk result (λ answer. IsAccepted text.now answer) }
    ensures refused { IfErr result (λ fault. HasNoProgram text.now fault) }
{
    let _program = match typed_unit(alloc, text) {
        Ok(program) => program,
        Err(fault) => return Err(Fault::Text(fault)),
    };
    Ok(Answer::Accepted)
}

// What the program does on the input words. Fails with 40 if memory was refused during the run.
fn ran(alloc: Global, text: &[u8], words: &[u32], steps: u64) -> Result<Answer, Fault>
    ensures answer { IfOk result (λ answer. IsRan steps words.now text.now answer) }
    ensures refused { IfErr result (λ fault. HasNoProgram text.now fault) }
{
    match typed_unit(alloc, text) {
        Ok(program) => match interpret(alloc, &program, words, steps) {
            Ok(outcome) => Ok(Answer::Ran(outcome)),
            Err(fault) => Err(Fault::Meaning(fault)),
        },
        Err(fault) => Err(Fault::Text(fault)),
    }
}

/// The mode of an image.
pub fn mode_of(kind: Kind) -> Mode
    ensures { result ≡ mode_of kind }
{
    match kind {
        Kind::Plain => Mode::Plain,
        Kind::Checked => Mode::Checked,
    }
}

// The program's fault for a compilation fault.
fn fault_of_build(fault: BuildFault) -> Fault
    ensures { (mode : Mode) (text : List ℕ) → IsBuildRefusalIn mode text fault → HasNoImage mode text result }
{
    match fault {
        BuildFault::Text(fault) => Fault::Text(fault),
        BuildFault::Piece(fault) => Fault::Piece(fault),
        BuildFault::Link(fault) => Fault::Link(fault),
    }
}

/// The compiled unit of a text in a mode.
pub(crate) fn compiled(alloc: Global, mode: Mode, text: &[u8]) -> Result<CompiledUnit, Fault>
    ensures agrees { IfOk result (λ unit. Agree text.now unit.image) }
    ensures follows { IfOk result (λ unit. AgreeIn mode text.now unit.image) }
    ensures refused { IfErr result (λ fault. HasNoImage mode text.now fault) }
{
    match compile_in(alloc, mode, text) {
        Ok(unit) => Ok(unit),
        Err(fault) => Err(fault_of_build(fault)),
    }
}

// What the program's image does on the input words. Fails with 40 if memory was refused during the run.
fn executed(
    alloc: Global,
    mode: Mode,
    text: &[u8],
    words: &[u32],
    steps: u64,
) -> Result<Answer, Fault>
    ensures answer { IfOk result (λ answer. IsExecuted mode steps words.now text.now answer) }
    ensures refused { IfErr result (λ fault. HasNoImage mode text.now fault) }
{
    let unit = match compiled(alloc, mode, text) {
        Ok(unit) => unit,
        Err(fault) => return Err(fault),
    };
    match run_words(alloc, &unit.stored().image, words, steps, false) {
        Ok(run) => Ok(Answer::Executed(run)),
        Err(_) => Err(Fault::OutOfMemory),
    }
}

// The listing of the program's image.
fn listed(alloc: Global, mode: Mode, text: &[u8]) -> Result<Answer, Fault>
    ensures answer { IfOk result (λ answer. IsListed mode text.now answer) }
    ensures refused { IfErr result (λ fault. HasNoImage mode text.now fault) }
{
    match compiled(alloc, mode, text) {
        Err(fault) => Err(fault),
        Ok(unit) => match list(alloc, &unit.stored().image) {
            Ok(lines) => Ok(Answer::Listed(lines)),
            Err(_) => Err(Fault::OutOfMemory),
        },
    }
}

// The program's image as Intel HEX.
fn in_hex(alloc: Global, mode: Mode, text: &[u8]) -> Result<Answer, Fault>
    ensures answer { IfOk result (λ answer. IsImage mode text.now answer) }
    ensures refused { IfErr result (λ fault. HasNoImage mode text.now fault) }
{
    match compiled(alloc, mode, text) {
        Err(fault) => Err(fault),
        Ok(unit) => match write(alloc, &unit.stored().image) {
            Ok(lines) => Ok(Answer::Image(lines)),
            Err(_) => Err(Fault::OutOfMemory),
        },
    }
}

// The program's image with how much memory it takes.
fn measure_of(alloc: Global, mode: Mode, text: &[u8]) -> Result<Measure, Fault>
    ensures answer { IfOk result (λ it. Measures mode text.now it) }
    ensures refused { IfErr result (λ fault. HasNoImage mode text.now fault) }
{
    let sized = match size_in(alloc, mode, text) {
        Ok(sized) => sized,
        Err(fault) => return Err(fault_of_build(fault)),
    };
    match measured(alloc, sized) {
        Ok(measure) => Ok(measure),
        Err(_) => Err(Fault::OutOfMemory),
    }
}

// How much memory the program's image takes.
fn sized(alloc: Global, mode: Mode, text: &[u8]) -> Result<Answer, Fault>
    ensures answer { IfOk result (λ answer. IsMeasured mode text.now answer) }
    ensures refused { IfErr result (λ fault. HasNoImage mode text.now fault) }
{
    match measure_of(alloc, mode, text) {
        Ok(measure) => Ok(Answer::Sized(measure)),
        Err(fault) => Err(fault),
    }
}

// The program's image as Intel HEX, and how much memory this image takes. The program is compiled once.
fn sized_image(alloc: Global, mode: Mode, text: &[u8]) -> Result<Answer, Fault>
    ensures answer { IfOk result (λ answer. IsSizedImage mode text.now answer) }
    ensures refused { IfErr result (λ fault. HasNoImage mode text.now fault) }
{
    let measure = match measure_of(alloc, mode, text) {
        Ok(measure) => measure,
        Err(fault) => return Err(fault),
    };
    match write(alloc, &measure.sized.made.unit.stored().image) {
        Ok(lines) => Ok(Answer::SizedImage(lines, measure)),
        Err(_) => Err(Fault::OutOfMemory),
    }
}

// What may go wrong in the program.
fn judged(alloc: Global, text: &[u8]) -> Result<Answer, Fault>
    ensures answer { IfOk result (λ answer. IsJudged text.now answer) }
    ensures refused { IfErr result (λ fault. HasNoProgram text.now fault) }
{
    let program = match typed_unit(alloc, text) {
        Ok(program) => program,
        Err(fault) => return Err(Fault::Text(fault)),
    };
    match judge(alloc, text, &program) {
        Ok(lines) => Ok(Answer::Judged(lines)),
        Err(_) => Err(Fault::OutOfMemory),
    }
}

/// The answer to a task for a text. For `check`, `interpret` and `safe` it comes from the text's tree; for `run`, `asm`, `image`
/// and `size`, from an image that agrees with the text and follows what the program shows in the task's mode. `image --size`
/// prints and measures one such image.
///
/// Refusals: those of `typed_unit`; for `run`, `asm`, `image` and `size` then 22, 24 and 25, as for `compile_in`; 40 if memory
/// was refused.
pub fn answer_for(alloc: Global, task: &Task, text: &[u8]) -> Result<Answer, Fault>
    ensures answer { IfOk result (λ answer. Answers task.now text.now answer) }
    ensures refused { IfErr result (λ fault. IsRefused task.now text.now fault) }
{
    match task {
        Task::Check => accepted(alloc, text),
        Task::Interpret(steps, words) => ran(alloc, text, words.as_slice(), *steps),
        Task::Run(kind, steps, words) => {
            executed(alloc, mode_of(*kind), text, words.as_slice(), *steps)
        }
        Task::InterpretCounted(steps, words) => ran_counted(alloc, text, words.as_slice(), *steps),
        Task::RunCounted(kind, steps, words) => {
            executed_counted(alloc, mode_of(*kind), text, words.as_slice(), *steps)
        }
        Task::InterpretObserved(steps, words) => {
            ran_observed(alloc, text, words.as_slice(), *steps)
        }
        Task::RunObserved(kind, steps, words) => {
            executed_observed(alloc, mode_of(*kind), text, words.as_slice(), *steps)
        }
        Task::InterpretWithin(steps, most, words) => {
            ran_within(alloc, text, words.as_slice(), *steps, *most)
        }
        Task::RunWithin(kind, steps, most, words) => {
            executed_within(alloc, mode_of(*kind), text, words.as_slice(), *steps, *most)
        }
        Task::Asm(kind) => listed(alloc, mode_of(*kind), text),
        Task::Image(kind) => in_hex(alloc, mode_of(*kind), text),
        Task::Size(kind) => sized(alloc, mode_of(*kind), text),
        Task::SizedImage(kind) => sized_image(alloc, mode_of(*kind), text),
        Task::Safe => judged(alloc, text),
    }
}
