// Work whose answers and explanations are printed as JSON.

ghost use Rattle.std.specs.Prelude.{◌≡◌};
ghost use Rattle.cc_command_line.specs.Work.{IsAllowed, IsBoundedLook};

use crate::do_work;
use crate::keeping::look_into;
use cc_answers::Persons;
use cc_command_line::{Keeping, Work};
use cc_json::{Ended, InJson, LineKind, perform_files_in_json, write_ended};
use cc_script::Dialect;
use cc_sources::INPUT;
use cc_task::Task;
use std::alloc::{AllocError, Global};
use std::fs::File;
use std::io::{self, BufWriter, Input, Print};
use std::rt::{Clock, Files};
use std::sync::Wait;
use std::thread::Threads;

// The names of a program's files; standard input if none is given.
fn named(alloc: Global, names: Vec<String>) -> Result<Vec<String>, AllocError> {
    let mut names = names;
    if names.is_empty() {
        names.push(String::from_str(alloc, INPUT)?)?;
    }
    Ok(names)
}

// Performs a task; the only error is that memory ran out before it began.
fn start<R: AllocGlobal + Input + Print>(
    rt: &R,
    files: &HostRuntime,
    task: Task,
    names: Vec<String>,
    is_quiet: bool,
) -> Result<u8, AllocError> {
    let (Ok(mut writer), Ok(names)) = (
        BufWriter::new(rt.alloc(), io::writer(rt)),
        named(rt.alloc(), names),
    ) else {
        drop(task);
        return Err(AllocError);
    };
    let names = names.as_slice();
    Ok(perform_files_in_json(rt, files, task, names, is_quiet, &mut writer))
}

// The first of the files that the work compares; an empty name if it compares none.
fn left_of(asked: &Keeping) -> &str {
    match asked {
        Keeping::Diff(asked) => asked.left.as_str(),
        _ => "",
    }
}

// The second of the files that the work compares; an empty name if it compares none.
fn right_of(asked: &Keeping) -> &str {
    match asked {
        Keeping::Diff(asked) => asked.right.as_str(),
        _ => "",
    }
}

// What a command wrote that has ended.
fn ended_with<'a>(
    answers: &'a [u8],
    told: &'a [u8],
    left: &'a str,
    right: &'a str,
    status: u8,
) -> Ended<'a>
    ensures { result.status ≡ status }
{
    let files = [left, right];
    Ended {
        answers,
        told,
        files,
        status,
    }
}

// Looks into libraries, and writes the whole answer once it is there. The only error is that memory ran out.
fn look<R: AllocGlobal + Clock + Input + Print + Copy + Drop>(
    rt: &R,
    files: &HostRuntime,
    asked: &Keeping,
    persons: Persons,
) -> Result<u8, AllocError>
    requires { IsBoundedLook asked.now }
{
    let alloc = rt.alloc();
    let Ok(mut writer) = BufWriter::new(alloc, io::writer(rt)) else {
        return Err(AllocError);
    };
    let mut answers = Vec::new(alloc);
    let mut told = Vec::new(alloc);
    let status = look_into(rt, files, asked, persons, &mut answers, &mut told)?;
    let (answers, told) = (answers.as_slice(), told.as_slice());
    let status = if status == 0 { 0 } else { 1 };
    let ended = ended_with(answers, told, left_of(asked), right_of(asked), status);
    Ok(write_ended(alloc, &ended, &mut writer))
}

// Whether the work answers bit by bit, so that each object has to be written at once.
fn answers_by_line(asked: &Keeping) -> bool {
    match asked {
        Keeping::Call(asked) => asked.is_lines,
        _ => false,
    }
}

// The kind of the answers to work.
fn kind_of(work: &Work) -> LineKind {
    match work {
        Work::Library(_) | Work::Short(_) => LineKind::Script(Dialect::Plain),
        Work::Submit(_) => LineKind::Script(Dialect::Served),
        _ => LineKind::Answers,
    }
}

// Does work whose answers are printed one after the other, with writers of objects in place of standard output and standard error.
fn answer_by_line<R>(
    rt: &R,
    files: &HostRuntime,
    persons: Persons,
    work: Work,
    names: Vec<String>,
) -> Result<u8, AllocError>
where
    R: AllocGlobal
        + Files<File = File>
        + Clock
        + Input
        + Print
        + Eprint
        + Threads
        + Wait
        + Copy
        + Clone
        + Send
        + Sync
        + Drop
        + 'static,
    requires { IsAllowed work }
{
    let alloc = rt.alloc();
    let (Ok(writer), Ok(errors)) = (
        BufWriter::new(alloc, io::writer(rt)),
        BufWriter::new(alloc, io::writer(rt)),
    ) else {
        drop(work);
        drop(names);
        return Err(AllocError);
    };
    let answers = InJson::new(alloc, writer, kind_of(&work));
    let told = InJson::new(alloc, errors, LineKind::Told);
    let names = names.as_slice();
    do_work(rt, files, answers, told, false, persons, work, names)
}

/// Does work that can be printed as JSON, with writers of objects in place of standard output and standard
/// error. The result is the status. Notes that a person would read while waiting are left out.
pub fn do_work_in_json<R>(
    rt: &R,
    files: &HostRuntime,
    is_quiet: bool,
    work: Work,
    names: Vec<String>,
) -> Result<u8, AllocError>
where
    R: AllocGlobal
        + Files<File = File>
        + Clock
        + Input
        + Print
        + Eprint
        + Threads
        + Wait
        + Copy
        + Clone
        + Send
        + Sync
        + Drop
        + 'static,
    requires { IsAllowed work }
{
    let persons = Persons {
        is_typed: false,
        is_watched: false,
        is_quiet,
    };
    match work {
        Work::One(task) => start(rt, files, task, names, is_quiet),
        Work::Keep(asked) => {
            if answers_by_line(&asked) {
                answer_by_line(rt, files, persons, Work::Keep(asked), names)
            } else {
                drop(names);
                look(rt, files, &asked, persons)
            }
        }
        other => answer_by_line(rt, files, persons, other, names),
    }
}
