// A task whose answer is written as JSON.

ghost use Rattle.std.specs.Prelude.{◌≤◌, IfOk};

use super::line::{LineObject, Said, object_of_line};
use super::object::{Object, write_object};
use super::telling::{add_explanation, add_told};
use cc_diagnostic::Diagnostic;
use cc_sources::{NamedText, NoText, NoTexts, join, read_texts};
use cc_task::Task;
use cc_tasks::{
    Answer, Explanation, Fault, answer_for, explanation_of_answer, explanation_of_fault,
    status_of_answer, write_answer,
};
use std::alloc::{AllocError, Global};
use std::io::{self, Input, Write};
use std::rt::Files;

/// What is written if there is no memory for an object.
const NO_MEMORY: &[u8] =
    b"{\"cclib\":1,\"kind\":\"fault\",\"name\":\"OutOfMemory\",\"number\":40}\n";

// An empty explanation.
fn nothing(alloc: Global) -> Explanation {
    Explanation {
        is_final: false,
        words: None,
        first: None,
        halt: None,
        calls: Vec::new(alloc),
        further: Vec::new(alloc),
        warnings: Vec::new(alloc),
    }
}

// Writes explanations, each as an object of this kind.
fn write_each<W: Write>(
    alloc: Global,
    kind: &str,
    texts: &[NamedText],
    list: &[Diagnostic],
    writer: &mut W,
) -> io::Result<()> {
    for diagnostic in list {
        let mut object = Object::new(alloc, kind)?;
        add_told(alloc, &mut object, texts, diagnostic, &[])?;
        write_object(alloc, object, writer)?;
    }
    Ok(())
}

// The object for a line, with what explains it.
fn explained(
    alloc: Global,
    texts: &[NamedText],
    line: &[u8],
    explanation: &Explanation,
) -> Result<Object, AllocError> {
    let LineObject { mut object, said } = object_of_line(alloc, line)?;
    match said {
        Said::End => {
            if explanation.is_final {
                object.truth("final")?;
            }
            add_explanation(alloc, &mut object, texts, explanation)?;
        }
        Said::Fault(_) => add_explanation(alloc, &mut object, texts, explanation)?,
        Said::Other => {}
    }
    Ok(object)
}

// Writes the lines of an answer or a fault, each as an object, and then the other explanations.
fn write_lines<W: Write>(
    alloc: Global,
    texts: &[NamedText],
    lines: &[u8],
    explanation: &Explanation,
    writer: &mut W,
) -> io::Result<()> {
    if let Some(lines) = lines.strip_suffix(b"\n") {
        for line in lines.split(|byte| *byte == b'\n') {
            let object = explained(alloc, texts, line, explanation)?;
            write_object(alloc, object, writer)?;
        }
    }
    let further = explanation.further.as_slice();
    write_each(alloc, "further", texts, further, writer)?;
    let warnings = explanation.warnings.as_slice();
    write_each(alloc, "warning", texts, warnings, writer)
}

// A task for the text that some texts make up, and whether nothing is to be explained.
#[derive(Clone, Copy)]
struct Asked<'a> {
    task: &'a Task,
    texts: &'a [NamedText],
    text: &'a [u8],
    is_quiet: bool,
}

// Writes an answer and explains it. The result is the status.
fn tell_answer<W: Write>(
    alloc: Global,
    asked: &Asked<'_>,
    answer: &Answer,
    writer: &mut W,
) -> io::Result<u8>
    ensures { IfOk result (λ status. status ≤ 1) }
{
    let mut lines = Vec::new(alloc);
    write_answer(answer, &mut lines)?;
    let explanation = if asked.is_quiet {
        nothing(alloc)
    } else {
        explanation_of_answer(alloc, asked.task, asked.text, answer)
    };
    write_lines(alloc, asked.texts, lines.as_slice(), &explanation, writer)?;
    Ok(status_of_answer(answer))
}

// Writes a fault and explains it.
fn tell_fault<W: Write>(
    alloc: Global,
    asked: &Asked<'_>,
    fault: &Fault,
    writer: &mut W,
) -> io::Result<()> {
    let mut lines = Vec::new(alloc);
    fault.write_line(asked.text, &mut lines)?;
    let explanation = if asked.is_quiet {
        nothing(alloc)
    } else {
        explanation_of_fault(alloc, asked.text, fault)
    };
    write_lines(alloc, asked.texts, lines.as_slice(), &explanation, writer)
}

// Performs a task for the text that these texts make up. The result is the status.
fn try_perform<W: Write>(
    alloc: Global,
    task: &Task,
    texts: &[NamedText],
    is_quiet: bool,
    writer: &mut W,
) -> io::Result<u8>
    ensures { IfOk result (λ status. status ≤ 1) }
{
    let whole = join(alloc, texts)?;
    let asked = Asked {
        task,
        texts,
        text: whole.as_slice(),
        is_quiet,
    };
    match answer_for(alloc, task, asked.text) {
        Ok(answer) => {
            let written = tell_answer(alloc, &asked, &answer, writer);
            drop(answer);
            written
        }
        Err(fault) => {
            let written = tell_fault(alloc, &asked, &fault, writer);
            drop(fault);
            match written {
                Ok(()) => Ok(1),
                Err(why) => Err(why),
            }
        }
    }
}

/// The status, which is 1 if writing failed. If there was no memory for an object, `NO_MEMORY` is written in its place.
pub(crate) fn status_of<W: Write>(written: io::Result<u8>, writer: &mut W) -> u8
    requires { IfOk written (λ status. status ≤ 1) }
    ensures { result ≤ 1 }
{
    let status = match written {
        Ok(status) => status,
        Err(why) => {
            if why.kind() == io::ErrorKind::OutOfMemory {
                let _ = writer.write_all(NO_MEMORY);
            }
            1
        }
    };
    if writer.flush().is_err() {
        return 1;
    }
    status
}

/// Performs a task for the text that these texts make up, and writes each thing that `perform_and_explain` writes or explains as
/// an object of JSON on a line of its own; if nothing is to be explained, only what `perform` writes. The status is that of
/// `perform`, but 1 if there was no memory for an object.
pub fn perform_in_json<H: AllocGlobal, W: Write>(
    rt: &H,
    task: Task,
    texts: &[NamedText],
    is_quiet: bool,
    writer: &mut W,
) -> u8
    ensures { result ≤ 1 }
{
    let written = try_perform(rt.alloc(), &task, texts, is_quiet, writer);
    drop(task);
    status_of(written, writer)
}

// The name of the text that could not be read.
fn name_of(names: &[String], number: usize) -> &str {
    match names.get(number) {
        Some(name) => name.as_str(),
        None => "",
    }
}

// The object for fault 53: the text with this name could not be read.
fn unread(alloc: Global, name: &str, why: &io::Error) -> Result<Object, AllocError> {
    let LineObject {
        mut object,
        said: _,
    } = object_of_line(alloc, b"fault 53 ReadFault")?;
    object.words("file", name)?;
    object.words("message", "could not be read")?;
    let why = format!(in alloc; "{why}")?;
    object.words("help", why.as_str())?;
    Ok(object)
}

// Writes that a text could not be read. The result is the status.
fn refuse<W: Write>(
    alloc: Global,
    names: &[String],
    refused: &NoTexts,
    writer: &mut W,
) -> io::Result<u8>
    ensures { IfOk result (λ status. status ≤ 1) }
{
    match &refused.why {
        NoText::Unread(why) => {
            let object = unread(alloc, name_of(names, refused.number), why)?;
            write_object(alloc, object, writer)?;
            Ok(1)
        }
        NoText::OutOfMemory => Err(io::Error::from(io::ErrorKind::OutOfMemory)),
    }
}

/// Performs a task for the files with these names, as `perform_in_json` does; `-` is standard input.
pub fn perform_files_in_json<R: AllocGlobal + Input, F: Files, W: Write>(
    rt: &R,
    files: &F,
    task: Task,
    names: &[String],
    is_quiet: bool,
    writer: &mut W,
) -> u8
    ensures { result ≤ 1 }
{
    match read_texts(rt, files, rt.alloc(), names) {
        Ok(texts) => perform_in_json(rt, task, texts.as_slice(), is_quiet, writer),
        Err(refused) => {
            drop(task);
            let written = refuse(rt.alloc(), names, &refused, writer);
            drop(refused);
            status_of(written, writer)
        }
    }
}
