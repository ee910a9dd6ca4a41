// The command `call`: it runs a unit of the library in a file, or one in a file of its own: once, once for each line of standard input, or
// while its input comes there. The library's file is open until the unit has been read, and nothing is written to it. What is written and
// the status are those of `cc_call`.

ghost use Rattle.std.specs.Prelude.{◌≡◌};

use crate::telling::{refuse_quietly, unwritten};
use crate::unit_file::{NoUnit, refuse_unit, unit_from_file};
use crate::words::words_of_file;
use cc_answers::Persons;
use cc_call::{
    Called, answer_lines, answer_live, call_image, call_lines_on, call_live_on, call_on,
};
use cc_command_line::Calling;
use cc_disk::FileDisk;
use cc_filing::{NoDisk, buffers, disk_to_read, explain_part, no_library};
use cc_runs::explain_final;
use cc_tasks::Done;
use cc_unit::StoredUnit;
use cc_watch::AnswerProgress;
use std::alloc::{AllocError, Global};
use std::io::{BufRead, BufReader, Input, IsTerminal, Write};
use std::rt::Clock;
use std::sync::Arc;

// What is to be run.
enum Source {
    // The unit that has the name in the library on a disk.
    Library(FileDisk),
    // A unit that was read from a file of its own.
    File(Arc<StoredUnit>),
}

// Why nothing is run.
enum NoSource {
    // The library's file is not opened.
    Library(NoDisk),
    // The unit's file is not read.
    File(NoUnit),
}

// What the words of the command name.
fn source_of(alloc: Global, files: &HostRuntime, asked: &Calling) -> Result<Source, NoSource> {
    let path = asked.disk.as_str();
    if asked.is_file {
        return match unit_from_file(alloc, files, path) {
            Ok(unit) => Ok(Source::File(unit)),
            Err(reason) => Err(NoSource::File(reason)),
        };
    }
    match disk_to_read(files, path, asked.wait) {
        Ok(disk) => Ok(Source::Library(disk)),
        Err(reason) => Err(NoSource::Library(reason)),
    }
}

// Writes why nothing is run, and explains it. The result is the status.
fn no_source<W: Write, E: Write>(
    nothing: NoSource,
    asked: &Calling,
    writer: &mut W,
    told: &mut E,
) -> u8 {
    let path = asked.disk.as_str();
    match nothing {
        NoSource::Library(reason) => no_library(reason, path, writer, told),
        NoSource::File(reason) => refuse_unit(&reason, Some(path), writer, told),
    }
}

// The most words that a run may write, if that is bounded.
fn most_of(asked: &Calling) -> Option<u32> {
    match asked.most {
        Some(most) => Some(u32::try_from(most).unwrap_or(u32::MAX)),
        None => None,
    }
}

// What was written, if an image was run on lines.
fn called_lines(done: Done) -> Called
    ensures { result.done ≡ done }
{
    Called {
        done,
        fault: None,
        is_final: false,
    }
}

// Explains what was written. The result is the status.
fn explained<E: Write>(called: Called, told: &mut E) -> u8
    ensures { result ≡ called.done.status }
{
    if !called.done.is_written {
        let _ = unwritten(told);
    } else if called.is_final {
        let _ = explain_final(told);
    }
    if let Some(fault) = called.fault {
        let _ = explain_part(fault, told);
    }
    called.done.status
}

// Runs what is asked for once, on these words.
fn once<W: Write, E: Write>(
    alloc: Global,
    source: Source,
    asked: &Calling,
    words: &[u32],
    writer: &mut W,
    told: &mut E,
) -> Called {
    let (steps, most, is_counted) = (asked.steps, most_of(asked), asked.is_counted);
    match source {
        Source::Library(disk) => {
            let name = asked.name.as_bytes();
            call_on(
                alloc, disk, name, words, steps, most, is_counted, writer, told,
            )
        }
        Source::File(unit) => {
            let image = &unit.image;
            let called = call_image(alloc, image, words, steps, most, is_counted, writer);
            drop(unit);
            called
        }
    }
}

// Runs what is asked for once for each line of a reader.
fn each_line<R: BufRead, W: Write, E: Write>(
    alloc: Global,
    source: Source,
    asked: &Calling,
    reader: &mut R,
    writer: &mut W,
    told: &mut E,
) -> Called {
    let (steps, most, is_counted) = (asked.steps, most_of(asked), asked.is_counted);
    match source {
        Source::Library(disk) => {
            let name = asked.name.as_bytes();
            call_lines_on(
                alloc, disk, name, steps, most, is_counted, reader, writer, told,
            )
        }
        Source::File(unit) => {
            let image = &unit.image;
            let done = answer_lines(alloc, image, steps, most, is_counted, reader, writer, told);
            drop(unit);
            called_lines(done)
        }
    }
}

// Runs what is asked for while its input comes.
fn live<R: BufRead, W: Write, E: Write>(
    alloc: Global,
    source: Source,
    asked: &Calling,
    reader: &mut R,
    writer: &mut W,
    told: &mut E,
) -> Called {
    let (steps, zeros) = (asked.steps, asked.reads_zeros);
    match source {
        Source::Library(disk) => {
            let name = asked.name.as_bytes();
            call_live_on(alloc, disk, name, steps, zeros, reader, writer, told)
        }
        Source::File(unit) => {
            let image = &unit.image;
            let done = answer_live(alloc, image, steps, zeros, reader, writer, told);
            drop(unit);
            called_lines(done)
        }
    }
}

// Runs a unit once. The result is the status.
fn run_once<R: AllocGlobal + Input, W: Write, E: Write>(
    rt: &R,
    files: &HostRuntime,
    asked: &Calling,
    writer: &mut W,
    told: &mut E,
) -> u8 {
    let read = match &asked.input {
        Some(path) => match words_of_file(rt, files, rt.alloc(), path.as_str(), told) {
            Ok(words) => Some(words),
            Err(nothing) => return refuse_quietly(nothing.number(), writer, told),
        },
        None => None,
    };
    let words = match &read {
        Some(words) => words.as_slice(),
        None => asked.words.as_slice(),
    };
    match source_of(rt.alloc(), files, asked) {
        Ok(source) => {
            let called = once(rt.alloc(), source, asked, words, writer, told);
            explained(called, told)
        }
        Err(nothing) => no_source(nothing, asked, writer, told),
    }
}

// Runs a unit on lines: once for each, or while they come. The result is the status.
fn run_on_lines<R: AllocGlobal + Input, I: BufRead, W: Write, E: Write>(
    rt: &R,
    files: &HostRuntime,
    asked: &Calling,
    reader: &mut I,
    writer: &mut W,
    told: &mut E,
) -> u8 {
    let source = match source_of(rt.alloc(), files, asked) {
        Ok(source) => source,
        Err(nothing) => return no_source(nothing, asked, writer, told),
    };
    let called = if asked.is_live {
        live(rt.alloc(), source, asked, reader, writer, told)
    } else {
        each_line(rt.alloc(), source, asked, reader, writer, told)
    };
    explained(called, told)
}

/// Runs a unit of the library in a file, or a unit in a file of its own: on input words, on the words of each line of standard input, or
/// while its input comes there, line by line. A person who sees standard error, but not the answers, is shown how many lines have been
/// answered. The result is the status. The only error is that memory ran out before the command began.
pub fn call_in_file<R: AllocGlobal + Clock + Input + Copy + Drop, A: Write + Drop, E: Write + Drop>(
    rt: &R,
    files: &HostRuntime,
    asked: &Calling,
    persons: Persons,
    answers: A,
    errors: E,
) -> Result<u8, AllocError> {
    let is_quiet = persons.is_quiet;
    let (mut writer, mut told) = buffers(rt.alloc(), answers, errors, is_quiet)?;
    if !asked.is_lines && !asked.is_live {
        return Ok(run_once(rt, files, asked, &mut writer, &mut told));
    }
    let Ok(mut reader) = BufReader::new(rt.alloc(), rt.reader()) else {
        return Err(AllocError);
    };
    let is_watched = asked.is_lines && persons.is_watched && !is_quiet;
    let screen = if is_watched && !files.stdout().is_terminal() {
        Some(files.stderr())
    } else {
        None
    };
    let mut writer = AnswerProgress::new(writer, *rt, screen, "lines of answers");
    let status = run_on_lines(rt, files, asked, &mut reader, &mut writer, &mut told);
    writer.clear();
    drop(writer);
    Ok(status)
}
