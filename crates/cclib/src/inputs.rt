// Input words that come from a file.
//
// The file is read before the work begins, and its words take the place of those of the command line. So the work is the same, wherever its
// words come from.

ghost use Rattle.std.specs.Prelude.{IfOk};
ghost use Rattle.cc_task.specs.Task.{IsWithinLimits};
ghost use Rattle.cc_command_line.specs.Work.{IsAllowed};

use cc_answers::{Stands, write_fault_line};
use cc_command_line::{Invocation, Work};
use cc_filing::buffers;
use cc_json::{InJson, LineKind};
use cc_keeping::{NoWords, words_of_file};
use cc_sources::INPUT;
use cc_task::Task;
use std::alloc::{AllocError, Global};
use std::io::{self, BufWriter, Input, Print, Write};

// Whether the program in the files with these names comes on standard input.
fn is_on_input(names: &[String]) -> bool {
    names.is_empty() || names.iter().any(|name| name.as_str() == INPUT)
}

// The words of the file with this name, for the program in the files with these names. Standard input can't have both.
fn words_of<R: AllocGlobal + Input>(
    rt: &R,
    files: &HostRuntime,
    names: &[String],
    name: &str,
    told: &mut Vec<u8>,
) -> Result<Vec<u32>, NoWords> {
    if name == INPUT && is_on_input(names) {
        let _ = told.write_all(
            b"cclib: standard input has the program, so that it can't have the words\n",
        );
        return Err(NoWords::ReadFault);
    }
    words_of_file(rt, files, rt.alloc(), name, told)
}

// The same task on these input words. A task that has none stays as it is.
fn task_on(task: Task, words: Vec<u32>) -> Task
    requires { IsWithinLimits task }
    ensures { IsWithinLimits result }
{
    match task {
        Task::Interpret(steps, _) => Task::Interpret(steps, words),
        Task::InterpretCounted(steps, _) => Task::InterpretCounted(steps, words),
        Task::InterpretObserved(steps, _) => Task::InterpretObserved(steps, words),
        Task::InterpretWithin(steps, most, _) => Task::InterpretWithin(steps, most, words),
        Task::Run(kind, steps, _) => Task::Run(kind, steps, words),
        Task::RunCounted(kind, steps, _) => Task::RunCounted(kind, steps, words),
        Task::RunObserved(kind, steps, _) => Task::RunObserved(kind, steps, words),
        Task::RunWithin(kind, steps, most, _) => Task::RunWithin(kind, steps, most, words),
        other => {
            drop(words);
            other
        }
    }
}

// The same work on these input words. Work that is no task stays as it is.
fn work_on(work: Work, words: Vec<u32>) -> Work
    requires { IsAllowed work }
    ensures { IsAllowed result }
{
    match work {
        Work::One(task) => Work::One(task_on(task, words)),
        other => {
            drop(words);
            other
        }
    }
}

// Writes the line of the fault, and its explanation. The result is the status.
fn refuse<A: Write + Drop, E: Write + Drop>(
    alloc: Global,
    why: NoWords,
    said: &[u8],
    is_quiet: bool,
    answers: A,
    errors: E,
) -> Result<u8, AllocError> {
    let (mut writer, mut told) = buffers(alloc, answers, errors, is_quiet)?;
    let written = write_fault_line(why.number(), Stands::Nowhere, b"", &mut writer);
    if written.is_ok() && writer.flush().is_ok() && told.write_all(said).is_ok() {
        let _ = told.flush();
    }
    Ok(1)
}

// The same, as lines or as JSON.
fn refuse_as<R: AllocGlobal + Print>(
    rt: &R,
    files: &HostRuntime,
    why: NoWords,
    said: &[u8],
    is_quiet: bool,
    is_json: bool,
) -> Result<u8, AllocError> {
    let alloc = rt.alloc();
    if !is_json {
        return refuse(alloc, why, said, is_quiet, io::writer(rt), files.stderr());
    }
    let (Ok(answers), Ok(errors)) = (
        BufWriter::new(alloc, io::writer(rt)),
        BufWriter::new(alloc, io::writer(rt)),
    ) else {
        return Err(AllocError);
    };
    let answers = InJson::new(alloc, answers, LineKind::Answers);
    let errors = InJson::new(alloc, errors, LineKind::Told);
    refuse(alloc, why, said, is_quiet, answers, errors)
}

/// What a command line asks for, with the words of the file that has the input of its task, if one is named. Err: there are no words; the line
/// of the fault is written, and explained, and the status is 1. 53 if the file can't be read, 50 if a line of it is no list of words, or it has
/// more than 16,777,216 bytes.
pub fn with_input<R: AllocGlobal + Input + Print>(
    rt: &R,
    files: &HostRuntime,
    request: Invocation,
) -> Result<Invocation, Result<u8, AllocError>>
    requires { IsAllowed request.work }
    ensures { IfOk result (λ done. IsAllowed done.work) }
{
    let Some(name) = &request.input else {
        return Ok(request);
    };
    let mut said = Vec::new(rt.alloc());
    let names = request.files.as_slice();
    match words_of(rt, files, names, name.as_str(), &mut said) {
        Ok(words) => {
            let mut request = request;
            request.work = work_on(request.work, words);
            Ok(request)
        }
        Err(why) => {
            let said = said.as_slice();
            Err(refuse_as(rt, files, why, said, request.is_quiet, request.is_json))
        }
    }
}
