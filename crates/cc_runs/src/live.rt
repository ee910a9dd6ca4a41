// A run that goes on while its input comes: the words of each line are fed, and what the program writes until it waits for more
// is the answer to the line.

ghost use Rattle.std.specs.Prelude.{◌≡◌, IfOk, IfSome, OnOk};
ghost use Rattle.std.specs.Io.KnownBytes.{Appends};
ghost use Rattle.cc_rv32.specs.InPlace.{is_in_place};
ghost use Rattle.cc_runs.specs.Live.{GoesLive};
ghost use Rattle.cc_runs.specs.Written.{last_text, turn_text};
ghost use Rattle.cc_runs.specs.internal.Turning.{AnswersLive, AnswersTurn, AnswersWhole, Begins, EndsInput, GoesOnZeros, TellsLast, TellsRefused, TellsUnread, after_turn, end_after};

use crate::reading::{ReadLine, next_line};
use crate::telling::explain_bad_line;
use crate::words::words_in;
use crate::written::write_refusal;
use cc_answers::{write_outcome, write_words};
use cc_rv32::fault::MachineFault;
use cc_rv32::image::Image;
use cc_rv32::machine::Machine;
use std::alloc::Global;
use std::io::{self, BufRead, ErrorKind, Write};

/// How a run has ended that goes on while its input comes.
#[derive(Clone, Copy, Debug, Drop, PartialEq, Eq)]
pub enum LiveEnd {
    /// The last line says how it ended, or that it is going. It may have stopped in place; and a line of the input may have been no
    /// list of words (50).
    Ended { is_final: bool, has_bad_line: bool },
    /// A line could not be read (53), or memory was refused (40): the answers say so.
    Refused,
    /// 54: an answer could not be written.
    Unwritten,
}

// How a turn has ended.
#[derive(Clone, Copy, Drop)]
pub(crate) enum Turn {
    // The program waits for words.
    Waits,
    // The line is not a list of words, or is too long.
    BadLine,
    // The program has ended, or used the instructions of the turn.
    Ended,
    // Memory was refused.
    OutOfMemory,
}

// Writes the words of a turn and an empty line, and flushes them.
#[tactic(auto, using(cc_answers::proofs::Writing::written_on))]
fn write_turn<W: Write>(words: &[u32], writer: &mut W) -> io::Result<()>
    ensures { OnOk result (Appends (W.contents writer.old) (W.contents writer.new) (turn_text words.now)) }
{
    write_words(words, writer)?;
    writer.write_all(b"\n")
}

// Writes the words of the last turn, and how the run ended.
#[tactic(auto, using(cc_answers::proofs::Writing::written_on))]
fn write_last<W: Write>(machine: &Machine, writer: &mut W) -> io::Result<()>
    ensures { OnOk result (Appends (W.contents writer.old) (W.contents writer.new) (last_text machine.now.output machine.now.outcome)) }
{
    write_words(machine.output(), writer)?;
    write_outcome(machine.outcome(), writer)
}

// Feeds words to a machine that waits, and runs it until it waits again. If it waits within so many instructions, the words of the turn and
// an empty line are written, and the machine gives them up; else those of the last turn. If memory was refused, the line for fault 40.
fn answer_words<W: Write>(
    machine: &mut Machine,
    steps: u64,
    words: &[u32],
    writer: &mut W,
) -> io::Result<Turn>
    ensures { IfOk result (AnswersTurn steps words.now machine.old machine.new (W.contents writer.old) (W.contents writer.new)) }
{
    let Ok(()) = machine.feed(words) else {
        write_refusal(40, writer)?;
        return Ok(Turn::OutOfMemory);
    };
    match machine.run_to_wait(steps) {
        Ok(Some(_)) => {
            write_turn(machine.output(), writer)?;
            machine.clear_output();
            Ok(Turn::Waits)
        }
        Ok(None) => {
            write_last(machine, writer)?;
            Ok(Turn::Ended)
        }
        Err(_) => {
            write_refusal(40, writer)?;
            Ok(Turn::OutOfMemory)
        }
    }
}

// Answers a whole line.
fn answer_whole<W: Write>(
    alloc: Global,
    machine: &mut Machine,
    steps: u64,
    line: &[u8],
    writer: &mut W,
) -> io::Result<Turn>
    ensures { IfOk result (AnswersWhole steps line.now machine.old machine.new (W.contents writer.old) (W.contents writer.new)) }
{
    let words = match words_in(alloc, line) {
        Ok(Some(words)) => words,
        Ok(None) => {
            write_refusal(50, writer)?;
            return Ok(Turn::BadLine);
        }
        Err(_) => {
            write_refusal(40, writer)?;
            return Ok(Turn::OutOfMemory);
        }
    };
    answer_words(machine, steps, words.as_slice(), writer)
}

// Answers what was read of a line.
fn answer_read<W: Write>(
    alloc: Global,
    machine: &mut Machine,
    steps: u64,
    read: ReadLine,
    line: &[u8],
    writer: &mut W,
) -> io::Result<Turn>
    ensures { IfOk result (AnswersLive steps read line.now machine.old machine.new (W.contents writer.old) (W.contents writer.new)) }
{
    match read {
        ReadLine::Whole => answer_whole(alloc, machine, steps, line, writer),
        ReadLine::TooLong => {
            write_refusal(50, writer)?;
            Ok(Turn::BadLine)
        }
    }
}

// Answers a line, and flushes the answer.
#[tactic(auto, using(crate::proofs::Turns::answered_on))]
fn tell_line<W: Write>(
    alloc: Global,
    machine: &mut Machine,
    steps: u64,
    read: ReadLine,
    line: &[u8],
    writer: &mut W,
) -> io::Result<Turn>
    ensures { IfOk result (AnswersLive steps read line.now machine.old machine.new (W.contents writer.old) (W.contents writer.new)) }
{
    let turn = answer_read(alloc, machine, steps, read, line, writer)?;
    writer.flush()?;
    Ok(turn)
}

// Runs a machine that waits for at most this many instructions, with zeros after its input.
fn run_on_zeros(machine: &mut Machine, steps: u64) -> Result<(), MachineFault>
    ensures { IfOk result (λ _. GoesOnZeros steps machine.old machine.new) }
{
    let mut left = steps;
    while left > 0 {
        machine.feed(&[0])?;
        match machine.run_to_wait(left)? {
            Some(rest) => left = rest,
            None => return Ok(()),
        }
    }
    Ok(())
}

// Writes the last turn of a run, and flushes it.
fn tell_last<W: Write>(machine: &Machine, has_bad_line: bool, writer: &mut W) -> LiveEnd
    ensures { TellsLast machine.now has_bad_line (W.contents writer.old) (W.contents writer.new) result }
{
    let Ok(()) = write_last(machine, writer) else {
        return LiveEnd::Unwritten;
    };
    let Ok(()) = writer.flush() else {
        return LiveEnd::Unwritten;
    };
    LiveEnd::Ended {
        is_final: machine.is_in_place(),
        has_bad_line,
    }
}

// Writes the line for a fault, and flushes it.
fn tell_refused<W: Write>(number: u32, writer: &mut W) -> LiveEnd
    ensures { TellsRefused number (W.contents writer.old) (W.contents writer.new) result }
{
    let Ok(()) = write_refusal(number, writer) else {
        return LiveEnd::Unwritten;
    };
    let Ok(()) = writer.flush() else {
        return LiveEnd::Unwritten;
    };
    LiveEnd::Refused
}

// Ends a run that waits when no line is left. It goes on with zeros if it is to read these.
#[tactic(auto, using(crate::proofs::Turns::ends_stayed, crate::proofs::Turns::ends_gone_on, crate::proofs::Turns::ends_in_lack))]
fn end_input<W: Write>(
    machine: &mut Machine,
    steps: u64,
    reads_zeros: bool,
    has_bad_line: bool,
    writer: &mut W,
) -> LiveEnd
    ensures { EndsInput steps reads_zeros has_bad_line machine.old (W.contents writer.old) (W.contents writer.new) result }
{
    if !reads_zeros {
        return tell_last(machine, has_bad_line, writer);
    }
    match run_on_zeros(machine, steps) {
        Ok(()) => tell_last(machine, has_bad_line, writer),
        Err(_) => tell_refused(40, writer),
    }
}

// What follows a turn: how many instructions the next one may take, and whether a line had no words by then; `None` if it was the last.
fn after_turn(turn: Turn, steps: u64, left: u64, has_bad_line: bool) -> Option<(u64, bool)>
    ensures { result ≡ after_turn turn steps left has_bad_line }
{
    match turn {
        Turn::Waits => Some((steps, has_bad_line)),
        Turn::BadLine => Some((left, true)),
        Turn::Ended => None,
        Turn::OutOfMemory => None,
    }
}

// How a run ends with a turn that is the last.
fn end_after(machine: &Machine, turn: Turn, has_bad_line: bool) -> LiveEnd
    ensures { result ≡ end_after turn (is_in_place machine.now) has_bad_line }
{
    match turn {
        Turn::Ended => LiveEnd::Ended {
            is_final: machine.is_in_place(),
            has_bad_line,
        },
        Turn::Waits | Turn::BadLine | Turn::OutOfMemory => LiveEnd::Refused,
    }
}

// Explains why a line has no words, if it has none.
fn explain_turn<E: Write>(
    alloc: Global,
    number: u64,
    read: ReadLine,
    line: &[u8],
    turn: Turn,
    explanations: &mut E,
) {
    if let Turn::BadLine = turn {
        let _ = explain_bad_line(alloc, number, read, line, explanations);
    }
}

// Answers the lines of a reader with a machine that waits for its first words, and may execute `left` instructions more in its
// first turn, and `steps` in each other one.
fn answer_lines<R: BufRead, W: Write, E: Write>(
    alloc: Global,
    machine: &mut Machine,
    steps: u64,
    left: u64,
    reads_zeros: bool,
    reader: &mut R,
    writer: &mut W,
    explanations: &mut E,
) -> LiveEnd
    ensures { IfSome (R.remaining reader.old) (λ input. (image : Image) → Begins image steps left machine.old
        → GoesLive image steps reads_zeros input (W.contents writer.old) (W.contents writer.new) result) }
{
    let mut left = left;
    let mut has_bad_line = false;
    let mut line = Vec::new(alloc);
    for number in 0..u64::MAX {
        let read = match next_line(reader, &mut line) {
            Ok(Some(read)) => read,
            Ok(None) => return end_input(machine, left, reads_zeros, has_bad_line, writer),
            Err(error) => return tell_unread(error, writer),
        };
        let bytes = line.as_slice();
        let turn = match tell_line(alloc, machine, left, read, bytes, writer) {
            Ok(turn) => turn,
            Err(_) => return LiveEnd::Unwritten,
        };
        explain_turn(alloc, number + 1, read, bytes, turn, explanations);
        match after_turn(turn, steps, left, has_bad_line) {
            Some((next, bad)) => {
                left = next;
                has_bad_line = bad;
            }
            None => return end_after(machine, turn, has_bad_line),
        }
    }
    // There were more lines than a `u64` can count.
    LiveEnd::Refused
}

// Writes why the next line could not be read.
#[tactic(auto, using(crate::proofs::Turns::unread_of_40, crate::proofs::Turns::unread_of_53))]
fn tell_unread<W: Write>(error: io::Error, writer: &mut W) -> LiveEnd
    ensures { TellsUnread (W.contents writer.old) (W.contents writer.new) result }
{
    let is_memory = error.kind() == ErrorKind::OutOfMemory;
    drop(error);
    if is_memory {
        return tell_refused(40, writer);
    }
    tell_refused(53, writer)
}

/// Runs an image while its input comes. The program runs until it waits for a word. Then each line of a reader has words, decimal numbers
/// between single spaces, which are fed; the program runs until it waits again; what it has written and was not printed yet is printed, a
/// word on each line, and an empty line, and is flushed before the next line is read. A turn may take `steps` instructions; those before the
/// first line are of the first turn. When the program ends, or has used the instructions of a turn, the words of that turn are printed, and
/// how it ended, or `going`. When no line is left, the words that are left are printed and `going`; if it `reads_zeros`, it goes on with
/// zeros, up to the end of a turn. A line that is no list of words, or has more than 16,777,216 bytes, gets the line for 50 and an empty
/// one, is explained, and feeds nothing; if memory is refused, the line for 40 and an empty one come, and the run is over.
#[tactic(auto, using(crate::proofs::Turns::live_refused))]
pub fn run_live<R: BufRead, W: Write, E: Write>(
    alloc: Global,
    image: &Image,
    steps: u64,
    reads_zeros: bool,
    reader: &mut R,
    writer: &mut W,
    explanations: &mut E,
) -> LiveEnd
    // For a reader whose bytes are known.
    ensures turns { IfSome (R.remaining reader.old) (λ input.
        GoesLive image.now steps reads_zeros input (W.contents writer.old) (W.contents writer.new) result) }
{
    let Ok(mut machine) = Machine::new(alloc, image, &[]) else {
        return tell_refused(40, writer);
    };
    match machine.run_to_wait(steps) {
        Ok(Some(left)) => answer_lines(
            alloc,
            &mut machine,
            steps,
            left,
            reads_zeros,
            reader,
            writer,
            explanations,
        ),
        Ok(None) => tell_last(&machine, false, writer),
        Err(_) => tell_refused(40, writer),
    }
}
