// Does a task over any reader and writer.

ghost use Rattle.std.specs.Prelude.{◌≡◌, ◌≤◌, ◌++◌, [], true, Bool, List, ℕ, Option, IfOk, IfErr, OnErr, OnOk};
ghost use Rattle.std.specs.Io.Buffered.{writer_buffer, writer_contents};
ghost use Rattle.std.specs.Io.KnownBytes.{Appends, Keeps};
ghost use Rattle.cc_task.specs.declared.task.Task.{Task};
ghost use Rattle.cc_sources.specs.Reading.{IsTextOf};
ghost use Rattle.cc_findings.specs.Written.{measure_text};
ghost use Rattle.cc_tasks.specs.Written.{answer_status, answer_text, counted_outcome_text, observed_outcome_text, observed_run_text, outcome_text, steps_text, stop_text, IsPerformed, Writes};
ghost use Rattle.cc_tasks.specs.internal.Working.{Flushes, HasNoAnswer, IsDoneFor, RefusesBy, TellsOf, is_told, matter_status, status_of, written_of};

use super::answer::{Answer, answer_for};
use super::explain::{
    Explanation, Matter, explanation_of_fault, explanation_of_matter, write_explanation,
};
use super::fault::Fault;
use super::source::read_source;
use cc_answers::{Telling, write_outcome as write_end, write_words};
use cc_findings::{Measure, cause_name, write_judged, write_measure};
use cc_meaning::{Outcome, Stop};
use cc_rv32::outcome::MachineOutcome;
use cc_sources::Origin;
use cc_steps::{
    CountedOutcome, Exchange, ObservedOutcome, ObservedRun, write_counted_run, write_exchanges,
};
use cc_task::Task;
use std::alloc::{AllocError, Global};
use std::io::{self, BufWriter, Read, Write};

/// Writes how a run of the interpreter stops.
pub fn write_stop<W: Write>(stop: Stop, writer: &mut W) -> io::Result<()>
    ensures { OnOk result (Appends (W.contents writer.old) (W.contents writer.new) (stop_text stop)) }
{
    match stop {
        Stop::Going => writeln!(writer, "going"),
        Stop::Ended(word) => writeln!(writer, "ended {}", word.cast_signed()),
        Stop::Wrong(cause) => writeln!(writer, "wrong {}", cause_name(cause)),
    }
}

#[tactic(auto, using(cc_answers::proofs::Writing::written_on))]
fn write_outcome<W: Write>(outcome: &Outcome, writer: &mut W) -> io::Result<()>
    ensures { OnOk result (Appends (W.contents writer.old) (W.contents writer.new) (outcome_text outcome.now)) }
{
    write_words(outcome.output.as_slice(), writer)?;
    write_stop(outcome.stop, writer)
}

// Writes the line for a number of steps.
fn write_steps<W: Write>(steps: u64, writer: &mut W) -> io::Result<()>
    ensures { OnOk result (Appends (W.contents writer.old) (W.contents writer.new) (steps_text steps)) }
{
    writeln!(writer, "steps {steps}")
}

#[tactic(auto, using(cc_answers::proofs::Writing::written_on))]
fn write_counted_outcome<W: Write>(done: &CountedOutcome, writer: &mut W) -> io::Result<()>
    ensures { OnOk result (Appends (W.contents writer.old) (W.contents writer.new) (counted_outcome_text done.now)) }
{
    write_outcome(&done.outcome, writer)?;
    write_steps(done.steps, writer)
}

#[tactic(auto, using(cc_answers::proofs::Writing::written_on))]
fn write_observed_outcome<W: Write>(done: &ObservedOutcome, writer: &mut W) -> io::Result<()>
    ensures { OnOk result (Appends (W.contents writer.old) (W.contents writer.new) (observed_outcome_text done.now)) }
{
    write_exchanges(done.exchanges.as_slice(), writer)?;
    write_stop(done.stop, writer)
}

#[tactic(auto, using(cc_answers::proofs::Writing::written_on))]
fn write_observed_run<W: Write>(done: &ObservedRun, writer: &mut W) -> io::Result<()>
    ensures { OnOk result (Appends (W.contents writer.old) (W.contents writer.new) (observed_run_text done.now)) }
{
    write_exchanges(done.exchanges.as_slice(), writer)?;
    write_end(done.outcome, writer)
}

// Writes an image as Intel HEX, and then how much memory it takes.
#[tactic(auto, using(cc_answers::proofs::Writing::written_on))]
fn write_sized_image<W: Write>(lines: &[u8], measure: &Measure, writer: &mut W) -> io::Result<()>
    ensures { OnOk result (Appends (W.contents writer.old) (W.contents writer.new) (lines.now ++ measure_text measure.now)) }
{
    writer.write_all(lines)?;
    write_measure(measure, writer)
}

/// Writes an answer: the lines that `perform` writes for it.
pub fn write_answer<W: Write>(answer: &Answer, writer: &mut W) -> io::Result<()>
    ensures { OnOk result (Appends (W.contents writer.old) (W.contents writer.new) (answer_text answer.now)) }
{
    match answer {
        Answer::Accepted => writeln!(writer, "ok"),
        Answer::Ran(outcome) => write_outcome(outcome, writer),
        Answer::Executed(run) => write_counted_run(run, writer),
        Answer::RanCounted(done) => write_counted_outcome(done, writer),
        Answer::RanObserved(done) => write_observed_outcome(done, writer),
        Answer::ExecutedObserved(done) => write_observed_run(done, writer),
        Answer::Listed(lines) => writer.write_all(lines.as_slice()),
        Answer::Image(lines) => writer.write_all(lines.as_slice()),
        Answer::Sized(it) => write_measure(it, writer),
        Answer::SizedImage(lines, it) => write_sized_image(lines.as_slice(), it, writer),
        Answer::Judged(lines) => write_judged(lines.as_slice(), writer),
    }
}

// Flushes a writer after a write: 54 if one of the two failed.
pub(crate) fn flushed<W: Write>(write: io::Result<()>, writer: &mut W) -> Result<(), Fault>
    ensures { Flushes write (W.contents writer.old) (W.contents writer.new) result }
{
    match write {
        Ok(()) => match writer.flush() {
            Ok(()) => Ok(()),
            Err(_) => Err(Fault::Write),
        },
        Err(_) => Err(Fault::Write),
    }
}

// What is to be explained after a run of the interpreter.
fn matter_of_stop(stop: Stop) -> Matter
    ensures { matter_status result ≡ 0 }
{
    match stop {
        Stop::Wrong(cause) => Matter::Wrong(cause),
        Stop::Going | Stop::Ended(_) => Matter::Text,
    }
}

// How many of the words were written.
fn written(exchanges: &[Exchange]) -> usize {
    exchanges
        .iter()
        .filter(|it| matches!(it, Exchange::Wrote(_)))
        .count()
}

// What is to be explained after a run of an image that has written so many words, and may have stopped in place.
fn matter_of_run(outcome: MachineOutcome, written: usize, is_final: bool) -> Matter
    ensures { matter_status result ≡ 0 }
{
    match outcome {
        MachineOutcome::Going => Matter::Going(written, is_final),
        MachineOutcome::Exited(_) | MachineOutcome::Trapped => Matter::Text,
    }
}

// What is to be explained after an answer.
fn matter_of(answer: &Answer) -> Matter
    ensures { matter_status result ≡ answer_status answer.now }
{
    match answer {
        Answer::Ran(outcome) => matter_of_stop(outcome.stop),
        Answer::RanCounted(done) => matter_of_stop(done.outcome.stop),
        Answer::RanObserved(done) => matter_of_stop(done.stop),
        Answer::Executed(done) => {
            matter_of_run(done.run.outcome, done.run.output.len(), done.is_final)
        }
        Answer::ExecutedObserved(done) => {
            matter_of_run(done.outcome, written(done.exchanges.as_slice()), false)
        }
        Answer::Judged(lines) if !lines.is_empty() => Matter::Unsure,
        Answer::Accepted
        | Answer::Listed(_)
        | Answer::Image(_)
        | Answer::Sized(_)
        | Answer::SizedImage(_, _)
        | Answer::Judged(_) => Matter::Text,
    }
}

/// Writes the line for a fault of a text, and flushes the writer. The result is the fault, or 54 if its line could not be
/// written.
#[tactic(auto, using(crate::proofs::Working::refused_by))]
pub(crate) fn refused<W: Write>(fault: Fault, text: &[u8], writer: &mut W) -> Fault
    ensures { RefusesBy fault text.now (W.contents writer.old) (W.contents writer.new) result }
{
    let write = fault.write_line(text, writer);
    match flushed(write, writer) {
        Ok(()) => fault,
        Err(unwritten) => {
            drop(fault);
            unwritten
        }
    }
}

// Writes an answer. The result is what is to be explained.
#[tactic(auto, using(crate::proofs::Working::written))]
fn tell_answer<W: Write>(answer: &Answer, writer: &mut W) -> Result<Matter, Fault>
    ensures written { Writes (W.contents writer.old) (W.contents writer.new) (answer_text answer.now) result }
    ensures matter { IfOk result (λ matter. matter_status matter ≡ answer_status answer.now) }
{
    let write = write_answer(answer, writer);
    match flushed(write, writer) {
        Ok(()) => Ok(matter_of(answer)),
        Err(fault) => Err(fault),
    }
}

// Does a task for a text: writes the answer, or the fault's line. The result is what is to be explained.
#[tactic(auto, using(crate::proofs::Working::told_answer, crate::proofs::Working::told_fault))]
fn tell<W: Write>(alloc: Global, task: &Task, text: &[u8], writer: &mut W) -> Result<Matter, Fault>
    ensures { TellsOf task.now text.now (W.contents writer.old) (W.contents writer.new) result }
{
    match answer_for(alloc, task, text) {
        Ok(answer) => tell_answer(&answer, writer),
        Err(fault) => Err(refused(fault, text, writer)),
    }
}

/// The part of a text that was read, and how a task ended for it: the fault, or what is to be explained.
#[derive(Drop)]
pub(crate) struct Performed {
    pub(crate) text: Vec<u8>,
    pub(crate) told: Result<Matter, Fault>,
}

/// The text of a reader; if it can't be read, the fault's line is written.
pub(crate) fn read_text<R: Read, W: Write>(
    alloc: Global,
    reader: &mut R,
    writer: &mut W,
) -> Result<Vec<u8>, Fault>
    ensures text { IfOk result (λ text. IsTextOf (R.remaining reader.old) text.items) }
    ensures kept { OnOk result (W.contents writer.new ≡ W.contents writer.old) }
    ensures unread { IfErr result (λ fault. (task : Task) → HasNoAnswer task (R.remaining reader.old) (W.contents writer.old) (W.contents writer.new) fault) }
{
    match read_source(alloc, reader) {
        Ok(text) => Ok(text),
        Err(fault) => Err(refused(fault, b"", writer)),
    }
}

/// Does a task.
#[tactic(auto, using(crate::proofs::Working::done))]
pub(crate) fn try_perform<R: Read, W: Write>(
    alloc: Global,
    task: &Task,
    reader: &mut R,
    writer: &mut W,
) -> Performed
    ensures { IsDoneFor task.now (R.remaining reader.old) (W.contents writer.old) (W.contents writer.new) result.told }
{
    match read_text(alloc, reader, writer) {
        Ok(text) => {
            let told = tell(alloc, task, text.as_slice(), writer);
            Performed { text, told }
        }
        Err(fault) => Performed {
            text: Vec::new(alloc),
            told: Err(fault),
        },
    }
}

/// Explains how a task ended for a text that comes from `origin`.
pub(crate) fn explain<W: Write>(
    alloc: Global,
    task: &Task,
    performed: &Performed,
    origin: Origin<'_>,
    writer: &mut W,
) {
    let text = performed.text.as_slice();
    let explanation = match &performed.told {
        Ok(matter) => explanation_of_matter(alloc, task, text, *matter),
        Err(fault) => explanation_of_fault(alloc, text, fault),
    };
    let _ = write_explanation(alloc, text, origin, &explanation, writer);
    let _ = writer.flush();
}

/// The explanation of an answer to a task for a text, as `perform_and_explain` writes it.
pub fn explanation_of_answer(
    alloc: Global,
    task: &Task,
    text: &[u8],
    answer: &Answer,
) -> Explanation {
    explanation_of_matter(alloc, task, text, matter_of(answer))
}

// The status of an answer after which this is to be explained.
fn status_of_matter(matter: Matter) -> u8
    ensures answer { result ≡ matter_status matter }
    ensures bound { result ≤ 1 }
{
    match matter {
        Matter::Text | Matter::Wrong(_) | Matter::Going(_, _) => 0,
        Matter::Unsure => 1,
    }
}

/// The status with which a task with this answer ends.
pub fn status_of_answer(answer: &Answer) -> u8
    ensures answer { result ≡ answer_status answer.now }
    ensures bound { result ≤ 1 }
{
    status_of_matter(matter_of(answer))
}

/// The status of a task that was done.
pub(crate) fn status(performed: Performed) -> u8
    ensures answer { result ≡ status_of performed.told }
    ensures bound { result ≤ 1 }
{
    match &performed.told {
        Ok(matter) => status_of_matter(*matter),
        Err(_) => 1,
    }
}

/// How a task ended.
#[derive(Clone, Copy, Debug, Drop, PartialEq, Eq)]
pub struct Done {
    /// The status of the answer, or 1 for a fault.
    pub status: u8,
    /// Whether all that was to be written is written. If not, the fault is 54, and the status is 1.
    pub is_written: bool,
}

/// Whether a fault is reported by its line.
pub(crate) fn is_told(fault: &Fault) -> bool
    ensures { result ≡ is_told fault.now }
{
    match fault {
        Fault::Write => false,
        Fault::Text(_)
        | Fault::Meaning(_)
        | Fault::Piece(_)
        | Fault::Link(_)
        | Fault::UnknownFunction
        | Fault::OutOfMemory
        | Fault::Read => true,
    }
}

/// How a performed task ended.
pub(crate) fn ended(performed: Performed) -> Done
    ensures status { result.status ≡ status_of performed.told }
    ensures written { result.is_written ≡ written_of performed.told }
{
    match &performed.told {
        Ok(matter) => Done {
            status: status_of_matter(*matter),
            is_written: true,
        },
        Err(fault) => Done {
            status: 1,
            is_written: is_told(fault),
        },
    }
}

/// Does a task: reads the text from `reader`, and writes the answer or the fault's line to `writer`.
///
/// The status is 1 for a fault, and for the answer of `safe` that the program may go wrong; it is 0 for other answers. A read
/// that fails is fault 53; a write that fails is fault 54, for which no line is written.
pub fn carry_out<H: AllocGlobal, R: Read, W: Write>(
    rt: &H,
    task: Task,
    reader: &mut R,
    writer: &mut W,
) -> Done
    ensures { IsPerformed task (R.remaining reader.old) (W.contents writer.old) (W.contents writer.new) result.status result.is_written }
{
    let performed = try_perform(rt.alloc(), &task, reader, writer);
    ended(performed)
}

/// Does a task as `carry_out` does. The result is the status.
pub fn perform<H: AllocGlobal, R: Read, W: Write>(
    rt: &H,
    task: Task,
    reader: &mut R,
    writer: &mut W,
) -> u8
    // The status alone does not say whether all is written.
    ensures { (written : Bool) × IsPerformed task (R.remaining reader.old) (W.contents writer.old) (W.contents writer.new) result written }
{
    let done = carry_out(rt, task, reader, writer);
    done.status
}

/// Does a task as `carry_out` does, and writes to `explanations` what helps a person with a fault or with a run that went wrong:
/// the place, as editors read it, what was found there and what was expected, and the line of the text. It does the same for a
/// checked image that has stopped in place, or will at a larger bound; for another program it writes the warnings. If the run of an image
/// has stopped in place, that comes first. If a write to `writer` fails,
/// `explanations` says so. If memory for an explanation runs out, or the explanation cannot be written, it is left out; the
/// status is the same.
pub fn perform_and_explain<H: AllocGlobal, R: Read, W: Write, E: Write>(
    rt: &H,
    task: Task,
    reader: &mut R,
    writer: &mut W,
    explanations: &mut E,
) -> Done
    ensures { IsPerformed task (R.remaining reader.old) (W.contents writer.old) (W.contents writer.new) result.status result.is_written }
{
    let performed = try_perform(rt.alloc(), &task, reader, writer);
    explain(rt.alloc(), &task, &performed, Origin::Input, explanations);
    ended(performed)
}

// Writes out what a buffer holds, and flushes its writer. The result is whether both succeeded.
fn is_flushed<A: Write + Drop>(buffered: &mut BufWriter<A>) -> bool
    ensures empty { result ≡ true → writer_buffer buffered.new ≡ [] }
    ensures kept { Keeps (writer_contents A.contents buffered.old) (writer_contents A.contents buffered.new) }
{
    match buffered.flush() {
        Ok(()) => true,
        Err(_) => false,
    }
}

/// Empties a buffer into its writer, and hands the writer back. If not all could be written, the task ended with 54.
pub(crate) fn emptied<A: Write + Drop>(
    performed: Performed,
    mut buffered: BufWriter<A>,
) -> (Performed, A)
    // What was done over the buffer is done over the writer.
    ensures { (task : Task) (input old : Option (List ℕ)) → IsDoneFor task input old (writer_contents A.contents buffered) performed.told → IsDoneFor task input old (A.contents result.1) result.0.told }
{
    if is_flushed(&mut buffered) {
        let (out, nothing) = buffered.into_parts();
        drop(nothing);
        return (performed, out);
    }
    let (out, unwritten) = buffered.into_parts();
    drop(unwritten);
    let Performed { text, told } = performed;
    drop(told);
    let told = Err(Fault::Write);
    (Performed { text, told }, out)
}

/// Does a task as `perform_and_explain` does, or as `carry_out` if explanations are left out, and writes to `out` through a
/// buffer. At the end the buffer is empty, and `out` is handed back: what is written is in `out` itself. If a write to it or its
/// flush fails, that is 54.
///
/// The only error is that memory for the buffer is refused. Then nothing was read or written, and `out` is dropped.
pub fn perform_into<H: AllocGlobal, R: Read, A: Write + Drop, E: Write + Drop>(
    rt: &H,
    task: Task,
    reader: &mut R,
    out: A,
    explanations: &mut Telling<E>,
) -> Result<(Done, A), AllocError>
    ensures performed { IfOk result (λ it. IsPerformed task (R.remaining reader.old) (A.contents out) (A.contents it.1) it.0.status it.0.is_written) }
    ensures unread { OnErr result (reader.new ≡ reader.old) }
{
    let Ok(mut buffered) = BufWriter::new(rt.alloc(), out) else {
        drop(task);
        return Err(AllocError);
    };
    let performed = try_perform(rt.alloc(), &task, reader, &mut buffered);
    let (performed, out) = emptied(performed, buffered);
    if !explanations.is_quiet {
        explain(rt.alloc(), &task, &performed, Origin::Input, explanations);
    }
    Ok((ended(performed), out))
}
