// The short commands: a session over a script of one line. What its answers are is what a session on that script answers; the
// status is 1 if there is a fault among them.

ghost use Rattle.std.specs.Prelude.{◌≡◌, ◌≢◌, ◌≤◌, List, ℕ, Some};
ghost use Rattle.cc_session.specs.Session.{SessionEnds};
ghost use Rattle.cc_session.specs.declared.end.SessionEnd.TheVariants.{Finished};
ghost use Rattle.cc_short.specs.Short.{IsScriptOf};
ghost use Rattle.cc_tasks.specs.Answer.{mode_of};

use crate::library::{How, Progress, Ran, is_out_of_sight, run_session};
use cc_answers::{Persons, Stands, explain_words, write_fault_line};
use cc_command_line::{Short, ShortVerb};
use cc_disk::Disk;
use cc_filing::{buffers, disk_to_change, no_library, tell_wide_disk};
use cc_keeping::{Auditing, audit_in_file, audit_of_file};
use cc_session::Gate;
use cc_short::{ShortCommand, script_of};
use cc_sources::{NoText, join, read_text};
use cc_tasks::read_or_refuse;
use cc_watch::{AnswerProgress, FaultWatch};
use std::alloc::AllocError;
use std::io::{BufWriter, Input, Write};
use std::rt::Clock;
use std::sync::Wait;
use std::thread::Threads;

// Writes the line of a fault, and explains it. The result is the status.
fn refuse<W: Write, E: Write>(number: u32, writer: &mut W, told: &mut E) -> u8
    ensures { result ≡ 1 }
{
    let line = write_fault_line(number, Stands::Nowhere, b"", writer);
    let number = if line.is_err() || writer.flush().is_err() {
        54
    } else {
        number
    };
    let _ = explain_words(number, told);
    1
}

// The source that comes in these files, or on standard input; if it is too long, at least one byte more than it may have. If it can't
// be read, the line of the fault is written, and the result is `None`.
fn source_of<R: AllocGlobal + Input, W: Write, E: Write>(
    rt: &R,
    files: &HostRuntime,
    names: &[String],
    writer: &mut W,
    told: &mut E,
) -> Result<Option<Vec<u8>>, AllocError> {
    if !names.is_empty() {
        let Some(texts) = read_or_refuse(rt, files, names, writer, told)? else {
            return Ok(None);
        };
        return Ok(Some(join(rt.alloc(), texts.as_slice())?));
    }
    match read_text(rt.alloc(), &mut rt.reader()) {
        Ok(text) => Ok(Some(text)),
        Err(NoText::Unread(_)) => {
            let _status = refuse(53, writer, told);
            Ok(None)
        }
        Err(NoText::OutOfMemory) => Err(AllocError),
    }
}

// Plays the script of a command over a library's disk.
fn run_short<H, W, C, S, E: Write, D: Disk + Drop, G>(
    rt: &H,
    how: How,
    command: ShortCommand<'_>,
    script: &[u8],
    writer: &mut AnswerProgress<FaultWatch<W>, C, S>,
    told: &mut E,
    disk: D,
    gate: G,
) -> Ran<D>
where
    H: AllocGlobal + Threads + Wait + Copy + Send + 'static,
    W: Write + Drop,
    C: Clock + Drop,
    S: Write + Drop,
    G: Gate + Drop + Send + Sync + 'static,
    requires some { 1 ≤ how.workers }
    requires few { how.workers ≤ 8 }
    requires script { IsScriptOf command script.now }
    // The answers are those of the session on the command's script.
    ensures answers { (text : List ℕ) × IsScriptOf command.entry text
        × SessionEnds (mode_of how.kind) D.Disk (Some text) (W.contents writer.old.writer.writer) (W.contents writer.new.writer.writer) disk result.disk result.end }
    ensures fault { result.end ≢ Finished → result.status ≡ 1 }
    ensures bound { result.status ≤ 1 }
{
    let mut reader = script;
    run_session(rt, how, &mut reader, writer, told, disk, gate)
}

// Plays a short command over the library in a file, which has to be there. The result is the status.
fn play<R, A: Write + Drop, E: Write>(
    rt: &R,
    files: &HostRuntime,
    asked: &Short,
    command: ShortCommand<'_>,
    persons: Persons,
    mut writer: BufWriter<A>,
    told: &mut E,
) -> u8
where
    R: AllocGlobal + Clock + Input + Eprint + Threads + Wait + Copy + Drop + Send + Sync + 'static,
    requires some { 1 ≤ asked.now.workers }
    requires few { asked.now.workers ≤ 8 }
{
    let script = match script_of(rt.alloc(), command) {
        Ok(script) => script,
        Err(fault) => return refuse(fault.number(), &mut writer, told),
    };
    let path = asked.disk.as_str();
    let disk = match disk_to_change(files, path, asked.wait) {
        Ok(disk) => disk,
        Err(reason) => return no_library(reason, path, &mut writer, told),
    };
    let _ = tell_wide_disk(files, path, told);
    let is_shown = persons.is_watched && !persons.is_quiet;
    let screen = if is_shown && is_out_of_sight(files) {
        Some(files.stderr())
    } else {
        None
    };
    let mut writer = AnswerProgress::new(FaultWatch::new(writer), *rt, screen, "lines of answers");
    let how = How {
        kind: asked.kind,
        workers: asked.workers,
        is_strict: true,
    };
    let gate = Progress { rt: *rt, is_shown };
    let text = script.as_slice();
    let Ran { disk, status, .. } = run_short(rt, how, command, text, &mut writer, told, disk, gate);
    drop(disk);
    writer.clear();
    status
}

// The command of a line that takes no source; `None` if there is no script of it.
fn plain_command(verb: &ShortVerb) -> Option<ShortCommand<'_>> {
    match verb {
        ShortVerb::Withdraw(name) => Some(ShortCommand::Withdraw {
            name: name.as_bytes(),
        }),
        ShortVerb::List => Some(ShortCommand::List),
        ShortVerb::Compact => Some(ShortCommand::Compact),
        ShortVerb::Audit(None) => Some(ShortCommand::Audit),
        _ => None,
    }
}

// The command of a line with its source; `None` if the line takes none.
fn sourced_command<'a>(verb: &'a ShortVerb, source: &'a [u8]) -> Option<ShortCommand<'a>> {
    match verb {
        ShortVerb::Add(name) => Some(ShortCommand::Add {
            name: name.as_bytes(),
            source,
        }),
        ShortVerb::Replace(name) => Some(ShortCommand::Replace {
            name: name.as_bytes(),
            source,
        }),
        _ => None,
    }
}

/// Does a short command with the library in a file. The result is the status: 0 only if no answer is a fault. The only error is that
/// memory ran out before this began.
pub fn short_session<R, A: Write + Drop, E: Write + Drop>(
    rt: &R,
    files: &HostRuntime,
    asked: &Short,
    names: &[String],
    persons: Persons,
    answers: A,
    errors: E,
) -> Result<u8, AllocError>
where
    R: AllocGlobal + Clock + Input + Eprint + Threads + Wait + Copy + Drop + Send + Sync + 'static,
    requires some { 1 ≤ asked.now.workers }
    requires few { asked.now.workers ≤ 8 }
{
    match &asked.verb {
        ShortVerb::AuditFile => {
            let path = asked.disk.as_str();
            return audit_of_file(rt, files, path, persons.is_quiet, answers, errors);
        }
        ShortVerb::Audit(Some(name)) => {
            let one = Auditing {
                disk: asked.disk.as_str(),
                name: name.as_str(),
                kind: asked.kind,
                wait: asked.wait,
            };
            return audit_in_file(rt, files, one, persons.is_quiet, answers, errors);
        }
        _ => {}
    }
    let (mut writer, mut told) = buffers(rt.alloc(), answers, errors, persons.is_quiet)?;
    if let Some(command) = plain_command(&asked.verb) {
        return Ok(play(rt, files, asked, command, persons, writer, &mut told));
    }
    let Some(source) = source_of(rt, files, names, &mut writer, &mut told)? else {
        return Ok(1);
    };
    match sourced_command(&asked.verb, source.as_slice()) {
        Some(command) => Ok(play(rt, files, asked, command, persons, writer, &mut told)),
        None => Ok(1),
    }
}
