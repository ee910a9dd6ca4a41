//! The program `cclib`: reads a C program from standard input or from files, and checks, interprets, runs or lists it, or runs a
//! script over a library. `cc_command_line` reads the command line, `cc_tasks` performs a task, `cc_session` runs a script.
//! `cc_filing` opens the file of a library and takes a unit out of it, `cc_keeping` looks into libraries, `cc_submit` is a
//! server's client, `cc_json` prints JSON, `cc_cover` watches a run, `cc_translating` translates wide C. `keeping` looks into
//! libraries, `library` has a session over a file, `short` one of one line, `serving` a server, `stack` reserves the stack, `texts` has
//! programs that come in files, `inputs` words that do, `going_on` runs that take words while they run, `translation` translates,
//! `in_json` has work in JSON, `watching` runs that are watched, `version` the names of the program's sources.
#![tactic(auto)]

mod going_on;
mod in_json;
mod inputs;
mod keeping;
mod library;
mod serving;
mod short;
mod stack;
mod texts;
mod translation;
mod version;
mod watching;

ghost use Rattle.std.specs.Prelude.{◌≤◌, IfOk};
ghost use Rattle.cc_command_line.specs.Work.{IsAllowed};
ghost use Rattle.cc_tasks.specs.Written.{IsPerformed};

use cc_answers::{Persons, Telling};
use cc_command_line::{Invocation, NoRequest, Work, read_or_tell, tell_bytes};
use cc_descriptors::{System, take_free};
use cc_filing::buffers;
use cc_keeping::pack_in_file;
use cc_submit::submit_script;
use cc_task::{Kind, Task};
use cc_tasks::{Done, Fault, perform_and_explain_stages, perform_into, perform_stages};
use going_on::start_live;
use in_json::do_work_in_json;
use inputs::with_input;
use keeping::{look_into, take_out};
use library::library_session;
use serving::serve_folder;
use short::short_session;
use stack::reserve_stack;
use std::alloc::AllocError;
use std::fs::File;
use std::io::{self, BufWriter, IsTerminal, Read, Write};
use std::process::{self, ExitCode};
use std::rt::{Clock, Env, Files};
use std::sync::Wait;
use std::thread::Threads;
use texts::{start_stages_of_texts, start_texts};
use translation::start_translation;
use version::print_sources;
use watching::{start_cover, start_trace};

/// Does what the command line asks; the status is 0 for an answer, 1 for a fault, 2 for a command line that is refused.
///
/// If standard input, output or error is closed, its descriptor is occupied before any file is opened, and kept until the end.
/// Otherwise the file of a library would get that descriptor, and what is printed would go into the file. If a descriptor can't
/// be occupied, nothing is done, and the status is 1.
fn main(rt: HostRuntime) -> ExitCode {
    let Ok(stand_ins) = take_free(&mut System { rt }) else {
        return ExitCode::from(1);
    };
    let done = match read_request(&rt, &rt) {
        Ok(
            Invocation {
                work,
                is_quiet,
                is_json,
                files,
                input,
            },
        ) => {
            drop(input);
            if is_json {
                do_work_in_json(&rt, &rt, is_quiet, work, files)
            } else {
                let persons = persons_at(&rt, is_quiet);
                let is_seen = rt.stdout().is_terminal();
                let (answers, errors) = (io::writer(&rt), rt.stderr());
                let names = files.as_slice();
                do_work(&rt, &rt, answers, errors, is_seen, persons, work, names)
            }
        }
        Err(done) => done,
    };
    let status = match done {
        Ok(status) => status,
        Err(_) => {
            let _ = Fault::OutOfMemory.write_line(b"", &mut io::writer(&rt));
            1
        }
    };
    drop(stand_ins);
    ExitCode::from(status)
}

// Whether a person types the input, and whether a person sees what is printed.
fn persons_at(rt: &HostRuntime, is_quiet: bool) -> Persons {
    Persons {
        is_typed: rt.stdin().is_terminal(),
        is_watched: rt.stderr().is_terminal(),
        is_quiet,
    }
}

// What the command line asks for, once the stack that this may need is reserved and the words are read that are in a file; else the status, or
// that memory ran out.
fn read_request<R: AllocGlobal + Env + Eprint + Input + Print>(
    rt: &R,
    files: &HostRuntime,
) -> Result<Invocation, Result<u8, AllocError>>
    ensures { IfOk result (λ request. IsAllowed request.work) }
{
    let words = match std::env::args(rt) {
        Ok(words) => words,
        Err(error) if error.kind() == io::ErrorKind::InvalidData => {
            return Err(status_of(rt, files, tell_bytes(rt, rt.alloc())));
        }
        Err(_) => return Err(Err(AllocError)),
    };
    let words: Vec<String> = match words.collect(rt.alloc()) {
        Ok(words) => words,
        Err(_) => return Err(Err(AllocError)),
    };
    match read_or_tell(rt, rt.alloc(), words.as_slice()) {
        Ok(request) => {
            if goes_deep(&request.work) && reserve_stack(rt.alloc()).is_err() {
                drop(request);
                return Err(Err(AllocError));
            }
            with_input(rt, files, request)
        }
        Err(nothing) => Err(status_of(rt, files, nothing)),
    }
}

// Does a task for the text that `reader` has, writes its answer to `out`, and hands this back. The only error is that memory ran
// out before it began.
fn do_task<H: AllocGlobal, R: Read, A: Write + Drop, E: Write + Drop>(
    rt: &H,
    task: Task,
    reader: &mut R,
    out: A,
    errors: E,
    is_quiet: bool,
) -> Result<(Done, A), AllocError>
    ensures { IfOk result (λ it. IsPerformed task (R.remaining reader.old) (A.contents out) (A.contents it.1) it.0.status it.0.is_written) }
{
    let Ok(errors) = BufWriter::new(rt.alloc(), errors) else {
        drop(task);
        drop(out);
        return Err(AllocError);
    };
    let mut told = Telling { errors, is_quiet };
    perform_into(rt, task, reader, out, &mut told)
}

// Performs a task; the only error is that memory ran out before it began.
fn start<R: AllocGlobal + Input + Print, E: Write + Drop>(
    rt: &R,
    files: &HostRuntime,
    task: Task,
    names: &[String],
    is_quiet: bool,
    errors: E,
) -> Result<u8, AllocError> {
    if !names.is_empty() {
        return start_texts(rt, files, task, names, is_quiet, errors);
    }
    let mut reader = rt.reader();
    let (done, out) = do_task(rt, task, &mut reader, io::writer(rt), errors, is_quiet)?;
    drop(out);
    Ok(done.status)
}

// Shows each stage of the compilation of a text; the only error is that memory ran out before this began.
fn start_stages<R: AllocGlobal + Input + Print, E: Write + Drop>(
    rt: &R,
    files: &HostRuntime,
    kind: Kind,
    function: Option<String>,
    names: &[String],
    is_quiet: bool,
    errors: E,
) -> Result<u8, AllocError> {
    let name = match &function {
        Some(name) => Some(name.as_bytes()),
        None => None,
    };
    let status = if names.is_empty() {
        start_stages_of_input(rt, kind, name, is_quiet, errors)
    } else {
        start_stages_of_texts(rt, files, kind, name, names, is_quiet, errors)
    };
    drop(function);
    status
}

// Shows each stage of the compilation of the text that `reader` has. The result is the status.
fn show_stages<H: AllocGlobal, R: Read, W: Write, E: Write + Drop>(
    rt: &H,
    kind: Kind,
    name: Option<&[u8]>,
    reader: &mut R,
    writer: &mut W,
    told: &mut Telling<E>,
) -> u8
    ensures { result ≤ 1 }
{
    if told.is_quiet {
        perform_stages(rt, kind, name, reader, writer)
    } else {
        perform_and_explain_stages(rt, kind, name, reader, writer, told)
    }
}

// Shows each stage of the compilation of the text on standard input.
fn start_stages_of_input<R: AllocGlobal + Input + Print, E: Write + Drop>(
    rt: &R,
    kind: Kind,
    name: Option<&[u8]>,
    is_quiet: bool,
    errors: E,
) -> Result<u8, AllocError> {
    let (mut writer, mut told) = buffers(rt.alloc(), io::writer(rt), errors, is_quiet)?;
    let mut reader = rt.reader();
    Ok(show_stages(rt, kind, name, &mut reader, &mut writer, &mut told))
}

// The status if the command line asks for no work; the only error is that memory ran out.
fn status_of<R: Print>(rt: &R, files: &HostRuntime, nothing: NoRequest) -> Result<u8, AllocError> {
    match nothing {
        NoRequest::Told(status) => Ok(status),
        NoRequest::Version => Ok(print_sources(rt, files)),
        NoRequest::OutOfMemory => Err(AllocError),
    }
}

// Whether work may need more of the stack than a process begins with: any work may, except a client's, which sends texts as they
// are.
fn goes_deep(work: &Work) -> bool {
    !matches!(work, Work::Submit(_))
}

/// Does the work that was asked for; `names` are the files of its program, if it comes in files. If the work's answer can be
/// printed as JSON, it goes to `answers`, which may be a terminal, unless the work is a task. All other answers go to standard
/// output.
pub(crate) fn do_work<R, A: Write + Drop, E: Write + Drop>(
    rt: &R,
    files: &HostRuntime,
    answers: A,
    errors: E,
    is_seen: bool,
    persons: Persons,
    work: Work,
    names: &[String],
) -> Result<u8, AllocError>
where
    R: AllocGlobal
        + Files<File = File>
        + Clock
        + Input
        + Print
        + Eprint
        + Threads
        + Wait
        + Copy
        + Clone
        + Send
        + Sync
        + Drop
        + 'static,
    requires allowed { IsAllowed work }
{
    let is_quiet = persons.is_quiet;
    match work {
        Work::One(task) => {
            drop(answers);
            start(rt, files, task, names, is_quiet, errors)
        }
        Work::Stages(kind, function) => {
            drop(answers);
            start_stages(rt, files, kind, function, names, is_quiet, errors)
        }
        Work::Live(asked) => start_live(rt, files, asked, names, is_quiet, answers, errors),
        Work::Translate(asked) => {
            start_translation(rt, files, asked, names, is_quiet, answers, errors)
        }
        Work::Trace(asked) => start_trace(rt, files, asked, names, is_quiet, answers, errors),
        Work::Cover(asked) => start_cover(rt, files, asked, names, persons, answers, errors),
        Work::TakeOut(wanted) => {
            drop(answers);
            take_out(rt, files, &wanted, is_quiet, errors)
        }
        Work::Keep(asked) => look_into(rt, files, &asked, persons, answers, errors),
        Work::Library(asked) => library_session(rt, files, &asked, persons, answers, errors),
        Work::Short(asked) => { short_session(rt, files, &asked, names, persons, answers, errors) }
        Work::Pack(asked) => pack_in_file(rt, files, &asked, is_quiet, answers, errors),
        Work::Serve(asked) => {
            drop(answers);
            serve_folder(rt, files, &asked, is_quiet, errors)
        }
        Work::Submit(asked) => {
            let process = process::id(files.process());
            submit_script(
                rt, files, process, &asked, names, persons, is_seen, answers, errors,
            )
        }
    }
}
