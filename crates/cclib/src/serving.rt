// The command `serve`: it runs the scripts that others leave in a folder, with many clients at a time, over a library in a file.

ghost use Rattle.std.specs.Fmt.{decimal};
ghost use Rattle.std.specs.Io.KnownBytes.{Appends};
ghost use Rattle.std.specs.Prelude.{◌≡◌, ◌≢◌, ◌≤◌, ◌++◌, ◌∷◌, [], ℕ, All, map, true, false, IfOk, OnOk, codes};
ghost use Rattle.cc_session.specs.Generations.{ServesOn};
ghost use Rattle.cc_session.specs.Spooling.{ServingEnds, given_by};
ghost use Rattle.cc_tasks.specs.Answer.{mode_of};
ghost use Rattle.cc_session.specs.declared.end.SessionEnd.TheVariants.{Finished};

use cc_command_line::Server;
use cc_disk::Disk;
use cc_filing::{
    AnswerCounts, Keeper, NoFolder, Taken, buffers, count_all, no_folder, spools_of, take_to_serve,
    tell_generation, tell_kept,
};
use cc_session::{BOUNDS, Generation, GenerationEnd, Served, SessionEnd, Steward, serve_on};
use cc_spool::{FolderLayout, FolderSpool, Spool};
use cc_tasks::mode_of;
use std::alloc::{AllocError, Global};
use std::io::{self, Print, Write};
use std::rt::Clock;
use std::sync::Wait;
use std::thread::Threads;

// Looks after the folder between generations, and reports on the generations to a person.
#[derive(Drop)]
struct Serving {
    keeper: Keeper,
}

impl Steward for Serving {
    fn opened<E: Write>(&mut self, told: &mut E) {
        self.keeper.tidy(told);
    }

    fn ended<E: Write>(&mut self, generation: Generation, told: &mut E) {
        let why = match generation.why {
            GenerationEnd::Over => "no more are to be taken",
            GenerationEnd::Bytes => "its history is full",
            GenerationEnd::Scripts => "it took as many as it may",
        };
        let Generation {
            scripts,
            entries,
            bytes,
            ..
        } = generation;
        let _ = tell_generation(scripts, entries, bytes, why, told);
    }
}

// Prints how many answers were handed over.
fn print_served<W: Write>(answered: u64, writer: &mut W) -> io::Result<()>
    ensures { OnOk result (Appends (W.contents writer.old) (W.contents writer.new) (codes "served " ++ decimal answered ++ 10 ∷ [])) }
{
    writeln!(writer, "served {answered}")?;
    writer.flush()
}

// Prints how many answers were handed over, or explains that this failed. The result is whether it was printed.
fn is_served_printed<W: Write, E: Write>(answered: u64, writer: &mut W, told: &mut E) -> bool
    ensures { result ≡ true → Appends (W.contents writer.old) (W.contents writer.new) (codes "served " ++ decimal answered ++ 10 ∷ []) }
{
    match print_served(answered, writer) {
        Ok(()) => true,
        Err(_) => {
            let _ = writeln!(told, "cclib: `served {answered}` could not be printed");
            let _ = told.flush();
            false
        }
    }
}

// Writes how serving ended, if no line for a fault was written. The result is whether everything that had to be printed was printed.
fn write_end<W: Write, E: Write>(
    end: SessionEnd,
    counts: AnswerCounts,
    folder: &str,
    writer: &mut W,
    told: &mut E,
) -> bool
    ensures served { end ≡ Finished → counts.has_failed ≡ false → result ≡ true
        → Appends (W.contents writer.old) (W.contents writer.new) (codes "served " ++ decimal counts.answered ++ 10 ∷ []) }
{
    let _ = tell_kept(counts.kept, told);
    match end {
        SessionEnd::Finished if counts.has_failed => {
            let _status = no_folder(NoFolder::Lost, folder, writer, told);
            true
        }
        SessionEnd::Finished => is_served_printed(counts.answered, writer, told),
        SessionEnd::Fault(_) => true,
    }
}

// The status of a server that ended this way.
fn status_of(end: SessionEnd, counts: AnswerCounts, is_printed: bool) -> u8
    ensures well { end ≡ Finished → counts.kept ≡ 0 → counts.has_failed ≡ false → is_printed ≡ true → result ≡ 0 }
    ensures fault { end ≢ Finished → result ≡ 1 }
    ensures kept { 1 ≤ counts.kept → result ≡ 1 }
    ensures failed { counts.has_failed ≡ true → result ≡ 1 }
    ensures unprinted { is_printed ≡ false → result ≡ 1 }
{
    match end {
        SessionEnd::Finished => { u8::from(counts.kept > 0 || counts.has_failed || !is_printed) }
        SessionEnd::Fault(_) => 1,
    }
}

// What serving a folder begins with: its spools, and the steward that looks after it.
fn begin(
    alloc: Global,
    layout: &FolderLayout,
    kept: Vec<String>,
    asked: &Server,
) -> Result<(Vec<FolderSpool>, Serving), AllocError> {
    let spools = spools_of(alloc, layout, asked.clients, kept)?;
    let keeper = Keeper::new(alloc, layout, asked)?;
    Ok((spools, Serving { keeper }))
}

// Serves spools over a library's disk, as the server that was asked for: in its mode and with its workers.
fn serve_asked<H, S, W, E, D, T>(
    rt: &H,
    asked: &Server,
    spools: Vec<S>,
    writer: &mut W,
    told: &mut E,
    disk: D,
    steward: &mut T,
) -> Served<D, S>
where
    H: AllocGlobal + Threads + Wait + Clock + Copy + Send + Sync + 'static,
    S: Spool + Send + Drop,
    W: Write,
    E: Write,
    D: Disk + Send + Drop,
    T: Steward,
    requires some { 1 ≤ asked.now.workers }
    requires few { asked.now.workers ≤ 8 }
    ensures generations { (earlier : ℕ) × ServesOn (ServingEnds (mode_of asked.now.kind) D.Disk) earlier
        (map (given_by S.taken S.ended) spools.items) (map (given_by S.taken S.ended) result.spools.items) disk result.disk result.end }
    ensures over { result.end ≡ Finished → All S.over result.spools.items }
    ensures still { result.end ≡ Finished → W.contents writer.new ≡ W.contents writer.old }
{
    serve_on(
        rt,
        rt.alloc(),
        mode_of(asked.kind),
        spools,
        writer,
        told,
        disk,
        asked.workers,
        BOUNDS,
        steward,
    )
}

// Counts the answers and reports how serving ended. The result is the status.
fn finish<W: Write, E: Write>(
    layout: &FolderLayout,
    spools: Vec<FolderSpool>,
    end: SessionEnd,
    asked: &Server,
    writer: &mut W,
    told: &mut E,
) -> u8
    ensures { result ≤ 1 }
{
    let counts = count_all(spools.as_slice());
    drop(spools);
    if !counts.has_failed {
        // If `stop` can't be removed now, the next start removes it.
        let _ = layout.unstop();
    }
    let is_printed = write_end(end, counts, asked.folder.as_str(), writer, told);
    status_of(end, counts, is_printed)
}

/// Serves a folder over a library's disk until the folder has `stop`. The result is the status: 0 if the service ended well, each
/// answer was handed over, and `served N` was printed, else 1. The folder is released at the end. The only error is that memory ran out
/// before this began.
pub fn serve_folder<R, E: Write + Drop>(
    rt: &R,
    files: &HostRuntime,
    asked: &Server,
    is_quiet: bool,
    errors: E,
) -> Result<u8, AllocError>
where
    R: AllocGlobal + Print + Threads + Wait + Clock + Copy + Send + Sync + 'static,
    requires some { 1 ≤ asked.now.workers }
    requires few { asked.now.workers ≤ 8 }
    ensures { IfOk result (λ status. status ≤ 1) }
{
    let alloc = rt.alloc();
    let (mut writer, mut told) = buffers(alloc, io::writer(rt), errors, is_quiet)?;
    let taken = match take_to_serve(files, alloc, asked, is_quiet, &mut writer, &mut told)? {
        Ok(taken) => taken,
        Err(status) => return Ok(status),
    };
    let Taken {
        layout,
        disk,
        kept,
        held,
    } = taken;
    let Ok((spools, mut serving)) = begin(alloc, &layout, kept, asked) else {
        drop(disk);
        drop(held);
        return Err(AllocError);
    };
    let Served { disk, spools, end } = serve_asked(
        rt,
        asked,
        spools,
        &mut writer,
        &mut told,
        disk,
        &mut serving,
    );
    drop(disk);
    drop(serving);
    let status = finish(&layout, spools, end, asked, &mut writer, &mut told);
    drop(held);
    Ok(status)
}
