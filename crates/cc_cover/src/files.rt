// Runs whose program is in files, or on standard input, and whose inputs may be in a file.

use super::cover::perform_cover;
use super::inputs::{BadInput, inputs_of};
use super::trace::perform_trace;
use cc_answers::{Stands, Telling, write_fault_line};
use cc_sources::{INPUT, NamedText, NoText, read_named, tell_unread, write_name};
use cc_tasks::read_or_refuse;
use std::alloc::{AllocError, Global};
use std::io::{self, Input, Write};
use std::rt::Files;

/// A file of inputs has at most this many bytes.
const MOST_BYTES: usize = 16_777_216;

/// At most this many bytes are read: one more than a file of inputs may have.
const MOST_READ: usize = MOST_BYTES + 1;

// Why there are no inputs.
#[derive(Drop)]
enum NoInputs {
    // The file could not be opened or read.
    Unread(io::Error),
    // The inputs should come from standard input, but the program does already.
    Taken,
    // The file has too many bytes.
    TooLong,
    // The line with this number is not an input.
    Bad(usize),
    OutOfMemory,
}

// Whether the program with these file names comes on standard input.
fn is_on_input(names: &[String]) -> bool {
    names.is_empty() || names.iter().any(|name| name.as_str() == INPUT)
}

// The inputs in the file with this name, one on each line, for the program in the files with these names.
fn inputs_in<R: Input, F: Files>(
    rt: &R,
    files: &F,
    alloc: Global,
    names: &[String],
    name: &str,
) -> Result<Vec<Vec<u32>>, NoInputs> {
    if name == INPUT && is_on_input(names) {
        return Err(NoInputs::Taken);
    }
    let lines = match read_named(rt, files, alloc, name, MOST_READ) {
        Ok(lines) => lines,
        Err(NoText::Unread(why)) => return Err(NoInputs::Unread(why)),
        Err(NoText::OutOfMemory) => return Err(NoInputs::OutOfMemory),
    };
    if lines.len() > MOST_BYTES {
        return Err(NoInputs::TooLong);
    }
    match inputs_of(alloc, lines.as_slice()) {
        Ok(inputs) => Ok(inputs),
        Err(BadInput::Line(line)) => Err(NoInputs::Bad(line)),
        Err(BadInput::OutOfMemory) => Err(NoInputs::OutOfMemory),
    }
}

// Explains to a person why there are no inputs.
fn tell_no_inputs<E: Write>(name: &str, why: &NoInputs, told: &mut E) -> io::Result<()> {
    match why {
        NoInputs::Unread(why) => return tell_unread(name, why, told),
        NoInputs::Taken => {
            told.write_all(
                b"cclib: standard input has the program, so that it can't have the inputs\n",
            )?
        }
        NoInputs::TooLong => {
            write_name(name, told)?;
            writeln!(told, ": more than {MOST_BYTES} bytes of inputs")?;
        }
        NoInputs::Bad(line) => {
            write_name(name, told)?;
            writeln!(
                told,
                ":{line}:1: a line has the WORDs of one run: decimal numbers from 0 to 4294967295 between single spaces"
            )?;
        }
        NoInputs::OutOfMemory => {}
    }
    told.flush()
}

// The number of the fault for this reason.
fn number_of(why: &NoInputs) -> u32 {
    match why {
        NoInputs::Unread(_) | NoInputs::Taken => 53,
        NoInputs::TooLong => 52,
        NoInputs::Bad(_) => 50,
        NoInputs::OutOfMemory => 40,
    }
}

// Writes the fault's line, and explains the fault.
fn refuse_inputs<W: Write, E: Write>(name: &str, why: &NoInputs, writer: &mut W, told: &mut E) {
    let written = write_fault_line(number_of(why), Stands::Nowhere, b"", writer);
    if written.is_ok() && writer.flush().is_ok() {
        let _ = tell_no_inputs(name, why, told);
    }
}

// The names, or the name of standard input if nothing is named.
fn named(alloc: Global, names: &[String]) -> Result<Vec<String>, AllocError> {
    let mut all = Vec::new(alloc);
    for name in names {
        all.push(String::from_str(alloc, name.as_str())?)?;
    }
    if all.is_empty() {
        all.push(String::from_str(alloc, INPUT)?)?;
    }
    Ok(all)
}

// The program's texts; `None` if one could not be read: the fault is then written and explained.
fn texts_of<R: AllocGlobal + Input, F: Files, W: Write, E: Write>(
    rt: &R,
    files: &F,
    names: &[String],
    writer: &mut W,
    told: &mut E,
) -> Result<Option<Vec<NamedText>>, AllocError> {
    let names = named(rt.alloc(), names)?;
    read_or_refuse(rt, files, names.as_slice(), writer, told)
}

/// Runs the program in these files, or on standard input, as `perform_trace` does. The result is the status. The only error is
/// that memory ran out before the run began.
pub fn trace_files<R: AllocGlobal + Input, F: Files, W: Write, E: Write + Drop>(
    rt: &R,
    files: &F,
    names: &[String],
    steps: u64,
    words: Vec<u32>,
    last: usize,
    writer: &mut W,
    told: &mut Telling<E>,
) -> Result<u8, AllocError> {
    match texts_of(rt, files, names, writer, told) {
        Ok(Some(texts)) => {
            let texts = texts.as_slice();
            Ok(perform_trace(rt, steps, words, last, texts, writer, told))
        }
        Ok(None) => {
            drop(words);
            Ok(1)
        }
        Err(error) => {
            drop(words);
            Err(error)
        }
    }
}

// Runs the program on each of these inputs.
fn cover_inputs<R: AllocGlobal + Input, F: Files, S: Write, W: Write, E: Write + Drop>(
    rt: &R,
    files: &F,
    names: &[String],
    steps: u64,
    inputs: Vec<Vec<u32>>,
    is_one: bool,
    seen: &mut S,
    writer: &mut W,
    told: &mut Telling<E>,
) -> Result<u8, AllocError> {
    match texts_of(rt, files, names, writer, told) {
        Ok(Some(texts)) => {
            let texts = texts.as_slice();
            Ok(perform_cover(rt, steps, inputs, is_one, texts, seen, writer, told))
        }
        Ok(None) => {
            drop(inputs);
            Ok(1)
        }
        Err(error) => {
            drop(inputs);
            Err(error)
        }
    }
}

/// Runs the program in these files, or on standard input, on input words, as `perform_cover` does. The result is the status.
/// The only error is that memory ran out before the run began.
pub fn cover_files<R: AllocGlobal + Input, F: Files, W: Write, E: Write + Drop>(
    rt: &R,
    files: &F,
    names: &[String],
    steps: u64,
    words: Vec<u32>,
    writer: &mut W,
    told: &mut Telling<E>,
) -> Result<u8, AllocError> {
    let mut inputs = Vec::with_capacity(rt.alloc(), 1)?;
    inputs.push(words)?;
    let seen = &mut io::sink();
    cover_inputs(rt, files, names, steps, inputs, true, seen, writer, told)
}

/// Runs the program as `cover_files` does, once for the words of each line of a file; `seen` gets a newline for each run. The
/// fault is 50 if a line of the file is not a list of words, 53 if the file can't be read or is the standard input that has
/// the program, and 52 if it has more than 16,777,216 bytes.
pub fn cover_lines<R: AllocGlobal + Input, F: Files, S: Write, W: Write, E: Write + Drop>(
    rt: &R,
    files: &F,
    names: &[String],
    steps: u64,
    lines: &str,
    seen: &mut S,
    writer: &mut W,
    told: &mut Telling<E>,
) -> Result<u8, AllocError> {
    match inputs_in(rt, files, rt.alloc(), names, lines) {
        Ok(inputs) => cover_inputs(rt, files, names, steps, inputs, false, seen, writer, told),
        Err(why) => {
            refuse_inputs(lines, &why, writer, told);
            drop(why);
            Ok(1)
        }
    }
}
