// The command `cover`: how often each line of a program is reached.

ghost use Rattle.std.specs.Prelude.{◌≤◌};

use super::lines::lines_of;
use super::trace::{OTHER, refuse, status_of};
use cc_answers::Telling;
use cc_meaning::{Outcome, Stop};
use cc_sources::{NamedText, join, write_name};
use cc_syntax::{Unit, parse};
use cc_task::Task;
use cc_tasks::{Answer, Fault, answer_for, write_stop};
use cc_trace::{Counts, Program, Replay, Traced, Watch, traced_unit, words_of};
use std::alloc::{AllocError, Global};
use std::io::{self, Write};

/// How often a line was reached; `None` if the line has nothing to execute.
type Reached = Option<u64>;

// Raises a line's count to this one, if this one is higher.
fn reach(counts: &mut Vec<Reached>, line: usize, count: u64) {
    if let Some(place) = counts.get_mut(line) {
        *place = Some(match *place {
            Some(old) => old.max(count),
            None => count,
        });
    }
}

// How often each line was reached, given what was watched.
fn counts_of(
    alloc: Global,
    program: Program<'_>,
    counted: &Counts,
    lines: &[u32],
) -> Result<Vec<Reached>, AllocError> {
    let count = match lines.last() {
        Some(last) => (*last as usize).saturating_add(1),
        None => 0,
    };
    let mut counts: Vec<Reached> = Vec::with_capacity(alloc, count)?;
    for _ in 0..count {
        counts.push(None)?;
    }
    for (mark, ran) in program.marks.iter().zip(counted.instructions.as_slice()) {
        if let Some(line) = lines.get(mark.at) {
            reach(&mut counts, *line as usize, *ran);
        }
    }
    for (function, entered) in program.functions.iter().zip(counted.functions.as_slice()) {
        if function.start != usize::MAX
            && let Some(line) = lines.get(function.name.at)
        {
            reach(&mut counts, *line as usize, *entered);
        }
    }
    Ok(counts)
}

// Writes a line of a text; a byte that could control a terminal is shown as `?`.
fn write_line<W: Write>(line: &[u8], writer: &mut W) -> io::Result<()> {
    for byte in line {
        let shown = if (*byte < 32 && *byte != b'\t') || *byte == 127 {
            b'?'
        } else {
            *byte
        };
        writer.write_all(&[shown])?;
    }
    writer.write_all(b"\n")
}

// Writes the lines of a text with their counts. `first` is the number of its first line in the whole program. The result is how
// many lines there are.
fn write_text<W: Write>(
    text: &[u8],
    first: usize,
    counts: &[Reached],
    writer: &mut W,
) -> io::Result<usize> {
    let mut number = 0usize;
    if text.is_empty() {
        return Ok(0);
    }
    let lines = text.strip_suffix(b"\n").unwrap_or(text);
    for line in lines.split(|byte| *byte == b'\n') {
        match counts.get(first.saturating_add(number)).copied() {
            Some(Some(0)) => write!(writer, "     never | ")?,
            Some(Some(count)) => write!(writer, "{count:>10} | ")?,
            _ => write!(writer, "           | ")?,
        }
        write_line(line, writer)?;
        number = number.saturating_add(1);
    }
    Ok(number)
}

// Writes all texts with their counts, each after its name if there are several.
fn write_texts<W: Write>(
    texts: &[NamedText],
    counts: &[Reached],
    writer: &mut W,
) -> io::Result<()> {
    let mut first = 0usize;
    for text in texts {
        if texts.len() > 1 {
            write_name(text.name.as_str(), writer)?;
            writer.write_all(b":\n")?;
        }
        let count = write_text(text.bytes.as_slice(), first, counts, writer)?;
        first = first.saturating_add(count);
    }
    Ok(())
}

// How runs ended.
#[derive(Clone, Copy)]
struct Ends {
    ended: usize,
    going: usize,
    wrong: usize,
    last: Option<Stop>,
}

impl Ends {
    fn add(&mut self, stop: Stop) {
        match stop {
            Stop::Ended(_) => self.ended = self.ended.saturating_add(1),
            Stop::Going => self.going = self.going.saturating_add(1),
            Stop::Wrong(_) => self.wrong = self.wrong.saturating_add(1),
        }
        self.last = Some(stop);
    }
}

// Why runs are not counted.
#[derive(Drop)]
enum NotCounted {
    /// The text is refused, so it has no run.
    Refused(Fault),
    /// A run differs from the one that the interpreter answers.
    Other,
    OutOfMemory,
}

// Counts a run whose outcome is this one by the interpreter's answer.
fn count_outcome(
    alloc: Global,
    unit: &Unit,
    traced: &Traced<'_>,
    task: &Task,
    outcome: &Outcome,
    counts: Counts,
) -> Result<Counts, NotCounted> {
    let (Task::Interpret(steps, words), Some(main)) = (task, traced.main()) else {
        drop(counts);
        return Err(NotCounted::Other);
    };
    let globals = match words_of(alloc, unit) {
        Ok(globals) => globals,
        Err(_) => {
            drop(counts);
            return Err(NotCounted::OutOfMemory);
        }
    };
    let output = Some(outcome.output.as_slice());
    let watch = Watch::counting(alloc, counts);
    let input = words.as_slice();
    let program = traced.program();
    let mut replay = Replay::new(alloc, program, input, output, globals, *steps, watch);
    let stop = replay.run(main);
    let counts = replay.into_counts();
    match stop {
        Ok(stop) if stop == Some(outcome.stop) => Ok(counts),
        Ok(_) => {
            drop(counts);
            Err(NotCounted::Other)
        }
        Err(_) => {
            drop(counts);
            Err(NotCounted::OutOfMemory)
        }
    }
}

// Counts one more run. The result is how it stops.
fn count_run(
    alloc: Global,
    unit: &Unit,
    traced: &Traced<'_>,
    text: &[u8],
    task: &Task,
    counts: Counts,
) -> Result<(Counts, Stop), NotCounted> {
    let answer = match answer_for(alloc, task, text) {
        Ok(answer) => answer,
        Err(fault) => {
            drop(counts);
            return Err(NotCounted::Refused(fault));
        }
    };
    match &answer {
        Answer::Ran(outcome) => {
            let counts = count_outcome(alloc, unit, traced, task, outcome, counts)?;
            Ok((counts, outcome.stop))
        }
        _ => {
            drop(counts);
            Err(NotCounted::Other)
        }
    }
}

// Counts runs on these inputs. `seen` gets a newline for each.
fn count_runs<S: Write>(
    alloc: Global,
    unit: &Unit,
    traced: &Traced<'_>,
    text: &[u8],
    steps: u64,
    inputs: Vec<Vec<u32>>,
    seen: &mut S,
) -> Result<(Counts, Ends), NotCounted> {
    let program = traced.program();
    let mut counts = match Counts::new(alloc, program.code.len(), program.functions.len()) {
        Ok(counts) => counts,
        Err(_) => {
            drop(inputs);
            return Err(NotCounted::OutOfMemory);
        }
    };
    let mut ends = Ends {
        ended: 0,
        going: 0,
        wrong: 0,
        last: None,
    };
    for input in inputs {
        let task = Task::Interpret(steps, input);
        let counted = count_run(alloc, unit, traced, text, &task, counts);
        drop(task);
        let (more, stop) = counted?;
        counts = more;
        ends.add(stop);
        let _ = seen.write_all(b"\n");
    }
    Ok((counts, ends))
}

// Writes how the runs ended; a single run's end is written as `interpret` writes it.
fn write_ends<W: Write>(ends: Ends, is_one: bool, writer: &mut W) -> io::Result<()> {
    match ends.last {
        Some(stop) if is_one => write_stop(stop, writer),
        _ => writeln!(
            writer,
            "{} ended, {} going, {} wrong",
            ends.ended, ends.going, ends.wrong
        ),
    }
}

// Writes what was counted.
fn write_counts<W: Write>(
    alloc: Global,
    traced: &Traced<'_>,
    text: &[u8],
    texts: &[NamedText],
    counts: &Counts,
    ends: Ends,
    is_one: bool,
    writer: &mut W,
) -> io::Result<()> {
    let lines = lines_of(alloc, text)?;
    let reached = counts_of(alloc, traced.program(), counts, lines.as_slice())?;
    write_texts(texts, reached.as_slice(), writer)?;
    write_ends(ends, is_one, writer)
}

// Counts runs of a unit and writes the counts.
fn cover_unit<S: Write, W: Write>(
    alloc: Global,
    unit: &Unit,
    text: &[u8],
    texts: &[NamedText],
    steps: u64,
    inputs: Vec<Vec<u32>>,
    is_one: bool,
    seen: &mut S,
    writer: &mut W,
) -> Result<io::Result<()>, NotCounted> {
    let traced = match traced_unit(alloc, unit) {
        Ok(Some(traced)) => traced,
        Ok(None) => {
            drop(inputs);
            return Err(NotCounted::Other);
        }
        Err(_) => {
            drop(inputs);
            return Err(NotCounted::OutOfMemory);
        }
    };
    let (counts, ends) = count_runs(alloc, unit, &traced, text, steps, inputs, seen)?;
    Ok(write_counts(alloc, &traced, text, texts, &counts, ends, is_one, writer))
}

// Counts runs of the program in a text and writes the counts.
fn cover_text<S: Write, W: Write>(
    alloc: Global,
    text: &[u8],
    texts: &[NamedText],
    steps: u64,
    inputs: Vec<Vec<u32>>,
    is_one: bool,
    seen: &mut S,
    writer: &mut W,
) -> Result<io::Result<()>, NotCounted> {
    if let Err(fault) = answer_for(alloc, &Task::Check, text) {
        drop(inputs);
        return Err(NotCounted::Refused(fault));
    }
    match parse(alloc, text) {
        Ok(unit) => {
            let covered = cover_unit(
                alloc, &unit, text, texts, steps, inputs, is_one, seen, writer,
            );
            drop(unit);
            covered
        }
        Err(fault) => {
            drop(fault);
            drop(inputs);
            Err(NotCounted::Other)
        }
    }
}

// Writes the fault if the lines could not be counted, and returns the program's status.
fn status<W: Write, E: Write + Drop>(
    alloc: Global,
    text: &[u8],
    texts: &[NamedText],
    covered: Result<io::Result<()>, NotCounted>,
    writer: &mut W,
    told: &mut Telling<E>,
) -> u8
    ensures { result ≤ 1 }
{
    match covered {
        Ok(written) => status_of(written, writer),
        Err(NotCounted::Refused(fault)) => {
            let status = refuse(alloc, &fault, text, texts, writer, told);
            drop(fault);
            status
        }
        Err(NotCounted::OutOfMemory) => {
            refuse(alloc, &Fault::OutOfMemory, text, texts, writer, told)
        }
        Err(NotCounted::Other) => {
            let _ = writeln!(told, "{OTHER}");
            let _ = told.flush();
            1
        }
    }
}

/// Runs the program that the texts are joined to on each of these inputs, with the interpreter, for at most this many steps
/// each, and writes each line with how often it was reached in all runs: the highest count on it. A line that could be reached
/// but never was is marked `never`; a line with nothing to execute is not marked. Then it writes how the runs ended. `seen`
/// gets a newline for each run, so that it can count the runs. Refusals are those of `interpret`. The status is 0, or 1 for a
/// fault.
pub fn perform_cover<H: AllocGlobal, S: Write, W: Write, E: Write + Drop>(
    rt: &H,
    steps: u64,
    inputs: Vec<Vec<u32>>,
    is_one: bool,
    texts: &[NamedText],
    seen: &mut S,
    writer: &mut W,
    told: &mut Telling<E>,
) -> u8
    ensures { result ≤ 1 }
{
    let alloc = rt.alloc();
    match join(alloc, texts) {
        Ok(whole) => {
            let text = whole.as_slice();
            let covered = cover_text(alloc, text, texts, steps, inputs, is_one, seen, writer);
            status(alloc, text, texts, covered, writer, told)
        }
        Err(_) => {
            drop(inputs);
            refuse(alloc, &Fault::OutOfMemory, b"", texts, writer, told)
        }
    }
}
