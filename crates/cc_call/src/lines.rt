// Runs of one image, each on the words of a line. They run on one machine, which the first run makes and each other one restarts.

ghost use Rattle.std.specs.Prelude.{◌≡◌, IfOk, IfSome, OnOk};
ghost use Rattle.std.specs.Io.KnownBytes.{Appends};
ghost use Rattle.cc_call.specs.Call.{AnswersLine, answer_text};
ghost use Rattle.cc_call.specs.Lines.{CallsLines};
ghost use Rattle.cc_call.specs.internal.Reading.{AnswersRead, IsToldUnread, end_after};

use crate::kept::KeptMachine;
use cc_runs::{
    CountedRun, ReadLine, explain_bad_line, next_line, words_in, write_counted_run, write_refusal,
};
use cc_rv32::image::Image;
use std::alloc::Global;
use std::io::{self, BufRead, ErrorKind, Write};

/// How a line was answered.
#[derive(Clone, Copy, Debug, Drop, PartialEq, Eq)]
pub enum LineEnd {
    /// With the run on its words, which may have stopped in place.
    Answered { is_final: bool },
    /// 50: the line is not a list of words, or is too long.
    BadLine,
    /// 40: memory was refused.
    OutOfMemory,
}

/// How the lines ended.
#[derive(Clone, Copy, Debug, Drop, PartialEq, Eq)]
pub enum LinesEnd {
    /// Each line was a list of words, and its run was answered.
    Answered,
    /// A line was not a list of words or was too long (50), or could not be read (53), or memory was refused (40): the answers say so.
    Refused,
    /// 54: an answer could not be written.
    Unwritten,
}

// Writes a run, and an empty line.
#[tactic(auto, using(cc_answers::proofs::Writing::written_on))]
fn write_answer<W: Write>(run: &CountedRun, writer: &mut W) -> io::Result<()>
    ensures { OnOk result (Appends (W.contents writer.old) (W.contents writer.new) (answer_text run.now)) }
{
    write_counted_run(run, writer)?;
    writer.write_all(b"\n")
}

/// Runs an image on the words of a line, which is given without its newline, on a machine that is kept. Writes what `run` would write, and an
/// empty line; and answers whether the run has stopped in place. If at most so many words may be written, the run ends, as going, before the
/// first one that is too many. If the line is not a list of words, it writes the line for fault 50 and an empty one; if memory was refused,
/// the line for fault 40 and an empty one.
pub fn answer_line<W: Write>(
    alloc: Global,
    kept: &mut KeptMachine,
    image: &Image,
    steps: u64,
    most: Option<u32>,
    is_counted: bool,
    line: &[u8],
    writer: &mut W,
) -> io::Result<LineEnd>
    ensures { IfOk result (AnswersLine image.now is_counted steps most line.now (W.contents writer.old) (W.contents writer.new)) }
{
    let words = match words_in(alloc, line) {
        Ok(Some(words)) => words,
        Ok(None) => {
            write_refusal(50, writer)?;
            return Ok(LineEnd::BadLine);
        }
        Err(_) => {
            write_refusal(40, writer)?;
            return Ok(LineEnd::OutOfMemory);
        }
    };
    match kept.run(alloc, image, words.as_slice(), steps, most, is_counted) {
        Ok(run) => {
            write_answer(&run, writer)?;
            Ok(LineEnd::Answered {
                is_final: run.is_final,
            })
        }
        Err(_) => {
            write_refusal(40, writer)?;
            Ok(LineEnd::OutOfMemory)
        }
    }
}

// Answers what was read of a line.
fn answer_read<W: Write>(
    alloc: Global,
    kept: &mut KeptMachine,
    image: &Image,
    steps: u64,
    most: Option<u32>,
    is_counted: bool,
    read: ReadLine,
    line: &[u8],
    writer: &mut W,
) -> io::Result<LineEnd>
    ensures { IfOk result (AnswersRead image.now is_counted steps most read line.now (W.contents writer.old) (W.contents writer.new)) }
{
    match read {
        ReadLine::Whole => {
            answer_line(alloc, kept, image, steps, most, is_counted, line, writer)
        }
        ReadLine::TooLong => {
            write_refusal(50, writer)?;
            Ok(LineEnd::BadLine)
        }
    }
}

// Answers a line, and flushes the answer.
#[tactic(auto, using(crate::proofs::Turns::answered_on))]
fn tell_line<W: Write>(
    alloc: Global,
    kept: &mut KeptMachine,
    image: &Image,
    steps: u64,
    most: Option<u32>,
    is_counted: bool,
    read: ReadLine,
    line: &[u8],
    writer: &mut W,
) -> io::Result<LineEnd>
    ensures { IfOk result (AnswersRead image.now is_counted steps most read line.now (W.contents writer.old) (W.contents writer.new)) }
{
    let end = answer_read(
        alloc, kept, image, steps, most, is_counted, read, line, writer,
    )?;
    writer.flush()?;
    Ok(end)
}

// Writes why the next line could not be read.
fn tell_unread<W: Write>(error: io::Error, writer: &mut W) -> LinesEnd
    ensures { IsToldUnread (W.contents writer.old) (W.contents writer.new) result }
{
    let number = if error.kind() == ErrorKind::OutOfMemory {
        40
    } else {
        53
    };
    drop(error);
    match write_refusal(number, writer) {
        Ok(()) => match writer.flush() {
            Ok(()) => LinesEnd::Refused,
            Err(_) => LinesEnd::Unwritten,
        },
        Err(_) => LinesEnd::Unwritten,
    }
}

// How the lines end when one more is added; `None` if no other line may follow it.
fn end_after(end: LinesEnd, line: LineEnd) -> Option<LinesEnd>
    ensures { result ≡ end_after end line }
{
    match line {
        LineEnd::Answered { is_final: _ } => Some(end),
        LineEnd::BadLine => Some(LinesEnd::Refused),
        LineEnd::OutOfMemory => None,
    }
}

// Explains why the line with this number, counted from 1, got BadLine (50), or that its run has stopped in place.
fn explain_line<E: Write>(
    alloc: Global,
    number: u64,
    read: ReadLine,
    line: &[u8],
    end: LineEnd,
    explanations: &mut E,
) -> io::Result<()> {
    match end {
        LineEnd::BadLine => explain_bad_line(alloc, number, read, line, explanations),
        LineEnd::Answered { is_final: true } => {
            writeln!(
                explanations,
                "-:{number}:1: the run has stopped in place: nothing more comes, however many instructions it may take"
            )?;
            explanations.flush()
        }
        LineEnd::Answered { is_final: false } | LineEnd::OutOfMemory => Ok(()),
    }
}

// Answers the lines of a reader on a machine that is kept.
fn call_on<R: BufRead, W: Write, E: Write>(
    alloc: Global,
    kept: &mut KeptMachine,
    image: &Image,
    steps: u64,
    most: Option<u32>,
    is_counted: bool,
    reader: &mut R,
    writer: &mut W,
    explanations: &mut E,
) -> LinesEnd
    ensures lines { IfSome (R.remaining reader.old) (λ input.
        CallsLines image.now is_counted steps most input (W.contents writer.old) (W.contents writer.new) result) }
{
    let mut end = LinesEnd::Answered;
    let mut line = Vec::new(alloc);
    for number in 0..u64::MAX {
        let read = match next_line(reader, &mut line) {
            Ok(Some(read)) => read,
            Ok(None) => return end,
            Err(error) => return tell_unread(error, writer),
        };
        let bytes = line.as_slice();
        let answered = match tell_line(
            alloc, kept, image, steps, most, is_counted, read, bytes, writer,
        ) {
            Ok(answered) => answered,
            Err(_) => return LinesEnd::Unwritten,
        };
        let _ = explain_line(alloc, number + 1, read, bytes, answered, explanations);
        match end_after(end, answered) {
            Some(next) => end = next,
            None => return LinesEnd::Refused,
        }
    }
    // There were more lines than a `u64` can count.
    LinesEnd::Refused
}

/// Runs an image on the words of each line of a reader, as `answer_line` does, all on one machine, and flushes each answer before it reads the
/// next line. A line of more than 16,777,216 bytes gets 50; it is skipped, and not kept. Goes on after a line that got 50, and explains that;
/// explains too if a run has stopped in place; ends if memory is refused.
pub fn call_lines<R: BufRead, W: Write, E: Write>(
    alloc: Global,
    image: &Image,
    steps: u64,
    most: Option<u32>,
    is_counted: bool,
    reader: &mut R,
    writer: &mut W,
    explanations: &mut E,
) -> LinesEnd
    // For a reader whose bytes are known.
    ensures lines { IfSome (R.remaining reader.old) (λ input.
        CallsLines image.now is_counted steps most input (W.contents writer.old) (W.contents writer.new) result) }
{
    let mut kept = KeptMachine::new();
    call_on(
        alloc,
        &mut kept,
        image,
        steps,
        most,
        is_counted,
        reader,
        writer,
        explanations,
    )
}
