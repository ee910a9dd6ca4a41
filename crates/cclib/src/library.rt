// The command `library`: a session over a file.

ghost use Rattle.std.specs.Prelude.{◌≡◌, ◌≢◌, ◌≤◌, true, false};
ghost use Rattle.cc_session.specs.Session.{SessionEnds};
ghost use Rattle.cc_session.specs.declared.end.SessionEnd.TheVariants.{Finished};
ghost use Rattle.cc_tasks.specs.Answer.{mode_of};

use cc_answers::{Persons, greet};
use cc_command_line::Session;
use cc_disk::Disk;
use cc_filing::{buffers, disk_of_session, no_disk, tell_wide_disk};
use cc_session::{Gate, SessionEnd, session_and_explain};
use cc_task::Kind;
use cc_tasks::mode_of;
use cc_watch::{AnswerProgress, FaultWatch};
use std::alloc::AllocError;
use std::io::{Input, IsTerminal, Read, Write};
use std::rt::Clock;
use std::sync::Wait;
use std::thread::Threads;

// Shows a person how far a long `add` has got: the workers pass this gate before each function.
#[derive(Drop)]
pub(crate) struct Progress<R> {
    pub(crate) rt: R,
    pub(crate) is_shown: bool,
}

/// How many functions are compiled between two notes to the person.
const STEP: u32 = 16;

impl<R: Eprint> Gate for Progress<R> {
    fn before(&self, _job: u64, piece: u32) {
        if self.is_shown && piece > 0 && piece % STEP == 0 {
            let _ = eprintln!(self.rt; "cclib: compiling, {piece} functions so far");
        }
    }
}

// The status of a session that ended this way; `is_refused` says that a fault among the answers counts, and that there was one.
fn status(end: SessionEnd, is_refused: bool) -> u8
    ensures well { end ≡ Finished → is_refused ≡ false → result ≡ 0 }
    ensures fault { end ≢ Finished → result ≡ 1 }
    ensures refused { is_refused ≡ true → result ≡ 1 }
    ensures bound { result ≤ 1 }
{
    match end {
        SessionEnd::Finished => u8::from(is_refused),
        SessionEnd::Fault(_) => 1,
    }
}

/// How a session is played.
#[derive(Clone, Copy, Drop)]
pub(crate) struct How {
    /// How images are compiled.
    pub(crate) kind: Kind,
    /// How many threads compile: 1 to 8.
    pub(crate) workers: usize,
    /// Whether a fault among the answers makes the status 1.
    pub(crate) is_strict: bool,
}

/// How a session went.
#[derive(Drop)]
pub(crate) struct Ran<D: Drop> {
    pub(crate) disk: Option<D>,
    pub(crate) end: SessionEnd,
    pub(crate) status: u8,
}

/// Runs a script over a library's disk, as the session that was asked for: in its mode, with its workers, and with its status.
pub(crate) fn run_session<H, R: Read, W, C, S, E: Write, D: Disk + Drop, G>(
    rt: &H,
    how: How,
    reader: &mut R,
    writer: &mut AnswerProgress<FaultWatch<W>, C, S>,
    told: &mut E,
    disk: D,
    gate: G,
) -> Ran<D>
where
    H: AllocGlobal + Threads + Wait + Copy + Send + 'static,
    W: Write + Drop,
    C: Clock + Drop,
    S: Write + Drop,
    G: Gate + Drop + Send + Sync + 'static,
    requires some { 1 ≤ how.workers }
    requires few { how.workers ≤ 8 }
    ensures answers { SessionEnds (mode_of how.kind) D.Disk (R.remaining reader.old) (W.contents writer.old.writer.writer) (W.contents writer.new.writer.writer) disk result.disk result.end }
    ensures well { result.end ≡ Finished → how.is_strict ≡ false → result.status ≡ 0 }
    ensures fault { result.end ≢ Finished → result.status ≡ 1 }
    ensures bound { result.status ≤ 1 }
{
    let (disk, end) = session_and_explain(
        rt,
        rt.alloc(),
        mode_of(how.kind),
        reader,
        writer,
        told,
        disk,
        how.workers,
        gate,
    );
    let is_refused = how.is_strict && writer.writer().has_fault();
    let status = status(end, is_refused);
    Ran { disk, end, status }
}

/// Whether nobody sees the answers as they come.
pub(crate) fn is_out_of_sight(files: &HostRuntime) -> bool {
    !files.stdout().is_terminal()
}

/// Runs the script on standard input over the library in a file. The result is the status. The only error is that memory ran out
/// before this began.
pub fn library_session<R, A: Write + Drop, E: Write + Drop>(
    rt: &R,
    files: &HostRuntime,
    asked: &Session,
    persons: Persons,
    answers: A,
    errors: E,
) -> Result<u8, AllocError>
where
    R: AllocGlobal + Clock + Input + Eprint + Threads + Wait + Copy + Drop + Send + Sync + 'static,
    requires some { 1 ≤ asked.now.workers }
    requires few { asked.now.workers ≤ 8 }
{
    let (buffered, mut told) = buffers(rt.alloc(), answers, errors, persons.is_quiet)?;
    let is_shown = persons.is_watched && !persons.is_quiet;
    let screen = if is_shown && is_out_of_sight(files) {
        Some(files.stderr())
    } else {
        None
    };
    let watch = FaultWatch::new(buffered);
    let mut writer = AnswerProgress::new(watch, *rt, screen, "lines of answers");
    let disk = match disk_of_session(files, asked, persons.is_quiet, &mut told) {
        Ok(disk) => disk,
        Err(reason) => return Ok(no_disk(reason, asked.disk.as_str(), &mut writer, &mut told)),
    };
    let _ = tell_wide_disk(files, asked.disk.as_str(), &mut told);
    let mut reader = rt.reader();
    if persons.is_typed {
        let _ = greet(&mut told);
    }
    let progress = Progress { rt: *rt, is_shown };
    let how = How {
        kind: asked.kind,
        workers: asked.workers,
        is_strict: asked.is_strict,
    };
    let Ran { disk, status, .. } = run_session(
        rt,
        how,
        &mut reader,
        &mut writer,
        &mut told,
        disk,
        progress,
    );
    drop(disk);
    writer.clear();
    Ok(status)
}
