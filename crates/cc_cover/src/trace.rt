// The command `trace`: the last things that a run does.

ghost use Rattle.std.specs.Prelude.{◌≡◌, ◌≤◌, false, IsOkAnd, OnOk};
ghost use Rattle.std.specs.Io.KnownBytes.{Keeps};
ghost use Rattle.cc_sources.specs.Joined.{joined, lacks_newline};
ghost use Rattle.cc_tasks.specs.Answer.{Answers};
ghost use Rattle.cc_cover.specs.Traced.{HasStop, IsTraced};
ghost use Rattle.cc_cover.specs.internal.Watched.{Traces};

use super::shown::{write_call, write_place, write_word};
use cc_answers::Telling;
use cc_meaning::{Outcome, Stop};
use cc_sources::{NamedText, Origin, join};
use cc_syntax::{Unit, parse};
use cc_task::Task;
use cc_tasks::{
    Answer, Explanation, Fault, answer_for, explanation_of_answer, explanation_of_fault,
    write_explanation, write_stop,
};
use cc_trace::{Event, OpenCall, Replay, Watch, traced_unit, words_of};
use std::alloc::Global;
use std::io::{self, Write};

/// What a person is shown if the run that was watched is not the answer's run.
pub(crate) const OTHER: &str =
    "cclib: the run that was watched is not the one of the answer: it is left out";

// Ends a line.
#[tactic(auto, using(crate::proofs::Stopping::ends))]
fn end_line(lines: &mut Vec<u8>) -> io::Result<()>
    ensures { OnOk result (lacks_newline lines.new.items ≡ false) }
{
    lines.push(b'\n')?;
    Ok(())
}

// Writes what a run does, without an end of line.
fn write_event<W: Write>(texts: &[NamedText], event: Event<'_>, writer: &mut W) -> io::Result<()> {
    match event {
        Event::Call(at, name, arguments) => {
            write_place(texts, at, writer)?;
            writer.write_all(b": call ")?;
            write_call(name.bytes.as_slice(), arguments.words(), writer)?;
        }
        Event::Turn(at) => {
            write_place(texts, at, writer)?;
            writer.write_all(b": turn")?;
        }
        Event::Set(name, word) => {
            write_place(texts, name.at, writer)?;
            writer.write_all(b": ")?;
            writer.write_all(name.bytes.as_slice())?;
            writer.write_all(b" = ")?;
            write_word(word, writer)?;
        }
        Event::SetElement(name, index, word) => {
            write_place(texts, name.at, writer)?;
            writer.write_all(b": ")?;
            writer.write_all(name.bytes.as_slice())?;
            write!(writer, "[{index}] = ")?;
            write_word(word, writer)?;
        }
        Event::Read(at, word) => {
            write_place(texts, at, writer)?;
            writer.write_all(b": read ")?;
            write_word(word, writer)?;
        }
        Event::Write(at, word) => {
            write_place(texts, at, writer)?;
            writer.write_all(b": write ")?;
            write_word(word, writer)?;
        }
    }
    Ok(())
}

// Writes a line about what a run does.
fn write_event_line(texts: &[NamedText], event: Event<'_>, lines: &mut Vec<u8>) -> io::Result<()>
    ensures { OnOk result (lacks_newline lines.new.items ≡ false) }
{
    write_event(texts, event, lines)?;
    end_line(lines)
}

// Writes how many events were not kept, if there are any.
fn write_forgotten(forgotten: u64, lines: &mut Vec<u8>) -> io::Result<()>
    requires { lacks_newline lines.old.items ≡ false }
    ensures { OnOk result (lacks_newline lines.new.items ≡ false) }
{
    if forgotten == 0 {
        return Ok(());
    }
    write!(lines, "{forgotten} before these:")?;
    end_line(lines)
}

// Writes a call that is open.
fn write_open<W: Write>(texts: &[NamedText], call: OpenCall<'_>, writer: &mut W) -> io::Result<()> {
    write_place(texts, call.at, writer)?;
    writer.write_all(b": open call ")?;
    write_call(call.name.bytes.as_slice(), call.arguments.words(), writer)?;
    writer.write_all(b"\n")
}

// Writes the calls that are open, the innermost first, up to this many.
fn write_open_calls<W: Write>(
    texts: &[NamedText],
    replay: &Replay<'_>,
    most: usize,
    writer: &mut W,
) -> io::Result<()> {
    for number in 0..most {
        match replay.open_call(number) {
            Some(call) => write_open(texts, call, writer)?,
            None => return Ok(()),
        }
    }
    let left = replay.open().saturating_sub(1).saturating_sub(most);
    if left > 0 {
        writeln!(writer, "and {left} more open calls")?;
    }
    Ok(())
}

// Writes the events that are kept, each on a line.
fn write_events(texts: &[NamedText], replay: &Replay<'_>, lines: &mut Vec<u8>) -> io::Result<()>
    requires { lacks_newline lines.old.items ≡ false }
    ensures { OnOk result (lacks_newline lines.new.items ≡ false) }
{
    let watch = replay.watch();
    write_forgotten(watch.forgotten(), lines)?;
    for number in 0..watch.kept() {
        if let Some(event) = watch.event(number) {
            write_event_line(texts, event, lines)?;
        }
    }
    Ok(())
}

// A run that is watched: its input, its steps, and how many things are kept.
#[derive(Clone, Copy)]
struct Run<'a> {
    input: &'a [u32],
    steps: u64,
    last: usize,
}

// What is shown of a run, before and after the line that says how it stops; empty if the run is not the one that the
// interpreter answers.
#[derive(Drop)]
struct Seen {
    before: Vec<u8>,
    after: Vec<u8>,
    is_same: bool,
    // What comes before is empty or ends with a newline.
    ghost begins: { lacks_newline before.items ≡ false },
}

impl Seen {
    fn nothing(alloc: Global) -> Seen {
        Seen {
            before: Vec::new(alloc),
            after: Vec::new(alloc),
            is_same: false,
        }
    }
}

// What is seen of a unit's run that has this outcome.
fn seen_of_unit(
    alloc: Global,
    unit: &Unit,
    texts: &[NamedText],
    run: Run<'_>,
    outcome: &Outcome,
) -> io::Result<Seen> {
    let Some(traced) = traced_unit(alloc, unit)? else {
        return Ok(Seen::nothing(alloc));
    };
    let Some(main) = traced.main() else {
        return Ok(Seen::nothing(alloc));
    };
    let globals = words_of(alloc, unit)?;
    let watch = Watch::newest(alloc, run.last)?;
    let output = Some(outcome.output.as_slice());
    let program = traced.program();
    let mut replay = Replay::new(alloc, program, run.input, output, globals, run.steps, watch);
    if replay.run(main)? != Some(outcome.stop) {
        return Ok(Seen::nothing(alloc));
    }
    let mut before = Vec::new(alloc);
    write_events(texts, &replay, &mut before)?;
    let mut after = Vec::new(alloc);
    write_open_calls(texts, &replay, run.last, &mut after)?;
    Ok(Seen {
        before,
        after,
        is_same: true,
    })
}

// What is seen of a text's run that has this outcome.
fn seen_of_text(
    alloc: Global,
    text: &[u8],
    texts: &[NamedText],
    run: Run<'_>,
    outcome: &Outcome,
) -> io::Result<Seen> {
    match parse(alloc, text) {
        Ok(unit) => {
            let seen = seen_of_unit(alloc, &unit, texts, run, outcome);
            drop(unit);
            seen
        }
        Err(fault) => {
            drop(fault);
            Ok(Seen::nothing(alloc))
        }
    }
}

// Writes how a run stops, with what was seen.
#[tactic(auto, using(crate::proofs::Stopping::has_stop))]
fn write_seen<W: Write>(seen: &Seen, stop: Stop, writer: &mut W) -> io::Result<()>
    ensures { OnOk result (HasStop stop (W.contents writer.old) (W.contents writer.new)) }
{
    writer.write_all(seen.before.as_slice())?;
    write_stop(stop, writer)?;
    writer.write_all(seen.after.as_slice())
}

// Writes what a text's run does, and how it stops.
fn write_run<W: Write, E: Write + Drop>(
    alloc: Global,
    text: &[u8],
    texts: &[NamedText],
    run: Run<'_>,
    outcome: &Outcome,
    writer: &mut W,
    told: &mut Telling<E>,
) -> io::Result<()>
    ensures { OnOk result (HasStop outcome.now.stop (W.contents writer.old) (W.contents writer.new)) }
{
    let seen = match seen_of_text(alloc, text, texts, run, outcome) {
        Ok(seen) => seen,
        Err(why) => return Err(why),
    };
    let written = write_seen(&seen, outcome.stop, writer);
    if !seen.is_same {
        let _ = writeln!(told, "{OTHER}");
    }
    drop(seen);
    written
}

/// Writes the line for a fault of the joined text, and explains the fault. The result is the status.
pub(crate) fn refuse<W: Write, E: Write + Drop>(
    alloc: Global,
    fault: &Fault,
    text: &[u8],
    texts: &[NamedText],
    writer: &mut W,
    told: &mut Telling<E>,
) -> u8
    ensures { result ≡ 1 }
{
    let written = fault.write_line(text, writer);
    let _ = writer.flush();
    let explanation = explanation_of_fault(alloc, text, fault);
    tell(alloc, text, texts, &explanation, told);
    drop(written);
    1
}

/// Writes the explanation of an answer, for a person.
pub(crate) fn tell<E: Write + Drop>(
    alloc: Global,
    text: &[u8],
    texts: &[NamedText],
    explanation: &Explanation,
    told: &mut Telling<E>,
) {
    let origin = Origin::Texts(texts);
    let _ = write_explanation(alloc, text, origin, explanation, told);
    let _ = told.flush();
}

/// The status for what was written. Writes a fault line if memory ran out.
pub(crate) fn status_of<W: Write>(written: io::Result<()>, writer: &mut W) -> u8
    ensures bound { result ≤ 1 }
    ensures kept { result ≡ 0 → IsOkAnd written (λ _. Keeps (W.contents writer.old) (W.contents writer.new)) }
{
    match written {
        Ok(()) => match writer.flush() {
            Ok(()) => 0,
            Err(_) => 1,
        },
        Err(why) => {
            if why.kind() == io::ErrorKind::OutOfMemory {
                let _ = Fault::OutOfMemory.write_line(b"", writer);
                let _ = writer.flush();
            }
            1
        }
    }
}

// Writes what an answer's run did, and explains it. The result is the status.
#[tactic(auto, using(crate::proofs::Stopping::traced))]
fn answered<W: Write, E: Write + Drop>(
    alloc: Global,
    task: &Task,
    last: usize,
    text: &[u8],
    texts: &[NamedText],
    answer: &Answer,
    writer: &mut W,
    told: &mut Telling<E>,
) -> u8
    ensures bound { result ≤ 1 }
    ensures traced { result ≡ 0 → Answers task.now text.now answer.now → Traces task.now text.now (W.contents writer.old) (W.contents writer.new) }
{
    let (Task::Interpret(steps, words), Answer::Ran(outcome)) = (task, answer) else {
        return 1;
    };
    let run = Run {
        input: words.as_slice(),
        steps: *steps,
        last,
    };
    let written = write_run(alloc, text, texts, run, outcome, writer, told);
    let status = status_of(written, writer);
    let explanation = explanation_of_answer(alloc, task, text, answer);
    tell(alloc, text, texts, &explanation, told);
    status
}

// Answers a task for the joined text, writes what the run did, and returns the status.
fn perform<W: Write, E: Write + Drop>(
    alloc: Global,
    task: &Task,
    last: usize,
    text: &[u8],
    texts: &[NamedText],
    writer: &mut W,
    told: &mut Telling<E>,
) -> u8
    ensures bound { result ≤ 1 }
    ensures traced { result ≡ 0 → Traces task.now text.now (W.contents writer.old) (W.contents writer.new) }
{
    match answer_for(alloc, task, text) {
        Ok(answer) => {
            let status = answered(alloc, task, last, text, texts, &answer, writer, told);
            drop(answer);
            status
        }
        Err(fault) => {
            let status = refuse(alloc, &fault, text, texts, writer, told);
            drop(fault);
            status
        }
    }
}

/// Runs the program that the texts are joined to on input words, with the interpreter, for at most this many steps, and writes
/// the last things that it did: calls, turns of loops, values that names get, words that are read and written; then how it
/// ended, and the calls that were open. Refusals are those of `interpret`. The status is 0, or 1 for a fault.
pub fn perform_trace<H: AllocGlobal, W: Write, E: Write + Drop>(
    rt: &H,
    steps: u64,
    words: Vec<u32>,
    last: usize,
    texts: &[NamedText],
    writer: &mut W,
    told: &mut Telling<E>,
) -> u8
    ensures bound { result ≤ 1 }
    ensures traced { result ≡ 0 → IsTraced steps words.items (joined texts.now) (W.contents writer.old) (W.contents writer.new) }
{
    let alloc = rt.alloc();
    let task = Task::Interpret(steps, words);
    let status = match join(alloc, texts) {
        Ok(whole) => perform(alloc, &task, last, whole.as_slice(), texts, writer, told),
        Err(_) => refuse(alloc, &Fault::OutOfMemory, b"", texts, writer, told),
    };
    drop(task);
    status
}
