// The folder of a server. It is taken together with the library's disk, and cleaned of what an earlier server left. This file
// also reports on the folder, and makes the spools with which its clients begin.

ghost use Rattle.std.specs.Prelude.{◌≡◌, ◌≢◌, IfErr, IfOk};

use crate::filing::{disk_to_serve, no_disk, tell_wide_disk};
use cc_command_line::Server;
use cc_disk::FileDisk;
use cc_spool::{
    FolderLayout, FolderSpool, Held, Limits, MOST_ENTRIES, Recovered, SpoolFault, WidePart,
    clear_old, count_entries, recover, take_folder, wide_parts,
};
use std::alloc::{AllocError, Global};
use std::io::{self, Write};
use std::process;

/// Why a folder can't be served.
#[derive(Drop)]
pub enum NoFolder {
    /// 56: the system refused a call.
    Refused(io::Error),
    /// 57: another server works in the folder.
    InUse,
    /// 56: the folder could be used at the start, but can no longer be used.
    Lost,
}

// Writes the fault line for a folder that can't be served.
fn write_fault<W: Write>(reason: &NoFolder, writer: &mut W) -> io::Result<()> {
    let fault = match reason {
        NoFolder::Refused(why) if why.kind() == io::ErrorKind::OutOfMemory => {
            writer.write_all(b"fault 40 OutOfMemory\n")?;
            return writer.flush();
        }
        NoFolder::Refused(_) | NoFolder::Lost => SpoolFault::FolderFault,
        NoFolder::InUse => SpoolFault::FolderInUse,
    };
    writeln!(writer, "fault {} {fault}", fault.number())?;
    writer.flush()
}

/// Writes the fault of a folder that can't be served (56 or 57, or 40 if memory was refused), and explains why. Returns the
/// status.
pub fn no_folder<W: Write, E: Write>(
    reason: NoFolder,
    folder: &str,
    writer: &mut W,
    told: &mut E,
) -> u8
    ensures { result ≡ 1 }
{
    let _ = write_fault(&reason, writer);
    let _ = match &reason {
        NoFolder::Refused(why) => writeln!(told, "cclib: the folder {folder} can't be used: {why}"),
        NoFolder::InUse => writeln!(told, "cclib: another server works in the folder {folder}"),
        NoFolder::Lost => writeln!(
            told,
            "cclib: for some seconds {folder}/new could not be read, or {folder}/lock was not the server's any more"
        ),
    };
    let _ = told.flush();
    1
}

/// The word to use for `count` things: `one` for one thing, `more` for any other number.
pub(crate) fn word(count: u64, one: &'static str, more: &'static str) -> &'static str
    ensures one { count ≡ 1 → result.now ≡ one.now }
    ensures more { count ≢ 1 → result.now ≡ more.now }
{
    if count == 1 { one } else { more }
}

// Warns about the parts of a folder that have wider rights than they should have.
fn tell_wide<E: Write>(folder: &str, parts: &[WidePart], told: &mut E) -> io::Result<()> {
    for wide in parts {
        writeln!(
            told,
            "cclib: {folder}/{} has the rights {:04o}, wider than {:04o}: others could take scripts or answers away",
            wide.part, wide.mode, wide.most
        )?;
    }
    told.flush()
}

// Reports what an earlier server had left.
fn tell_recovered<E: Write>(begun: u64, kept: usize, stuck: u64, told: &mut E) -> io::Result<()> {
    if begun > 0 {
        let scripts = word(begun, "script", "scripts");
        writeln!(
            told,
            "cclib: answered as interrupted: {begun} {scripts} that an earlier server had begun"
        )?;
    }
    if kept > 0 {
        let answers = word(kept as u64, "answer", "answers");
        writeln!(
            told,
            "cclib: not handed over yet: {kept} {answers} of an earlier server"
        )?;
    }
    if stuck > 0 {
        let names = word(stuck, "name", "names");
        writeln!(
            told,
            "cclib: cur has {stuck} {names} that can't be removed, as that of a directory that is not empty: scripts can't have these names"
        )?;
    }
    told.flush()
}

// Warns that `new` has more entries than a client looks at.
fn tell_crowded<E: Write>(folder: &str, waiting: usize, told: &mut E) -> io::Result<()> {
    if waiting > MOST_ENTRIES {
        writeln!(
            told,
            "cclib: {folder}/new has more than {MOST_ENTRIES} entries: those after these are not seen until some are gone"
        )?;
    }
    told.flush()
}

// Answers the scripts that an earlier server had begun. Returns the names of those that could not be answered yet.
fn clean_folder<E: Write>(
    layout: &FolderLayout,
    asked: &Server,
    told: &mut E,
) -> io::Result<Vec<String>> {
    let Recovered { begun, kept, stuck } = recover(layout)?;
    let wide = wide_parts(layout)?;
    let waiting = count_entries(layout, MOST_ENTRIES + 1)?;
    // A report that can't be written is not a reason to end.
    let folder = asked.folder.as_str();
    let _ = tell_recovered(begun, kept.len(), stuck, told);
    let _ = tell_wide(folder, wide.as_slice(), told);
    let _ = tell_crowded(folder, waiting, told);
    Ok(kept)
}

// Takes the folder for this server.
fn take(layout: &mut FolderLayout, process: u32) -> Result<Held, NoFolder> {
    match take_folder(layout, process) {
        Ok(Some(held)) => Ok(held),
        Ok(None) => Err(NoFolder::InUse),
        Err(why) => Err(NoFolder::Refused(why)),
    }
}

/// A folder and a library's disk, taken for a server.
#[derive(Drop)]
pub struct Taken {
    /// The folder.
    pub layout: FolderLayout,
    /// The disk.
    pub disk: FileDisk,
    /// The scripts that the start had to answer and could not; they have to be tried again.
    pub kept: Vec<String>,
    /// The folder is the server's until this is dropped.
    pub held: Held,
}

/// Takes a folder and a library's disk for a server, and answers the scripts that an earlier server had begun. If it can't
/// take both, it writes the line for the fault (56 or 57 for the folder, otherwise the line that `no_disk` writes) and
/// returns the status instead; nothing is held then. Fails only if memory was refused before anything was taken or written.
pub fn take_to_serve<W: Write, E: Write>(
    files: &HostRuntime,
    alloc: Global,
    asked: &Server,
    is_quiet: bool,
    writer: &mut W,
    told: &mut E,
) -> Result<Result<Taken, u8>, AllocError>
    ensures { IfOk result (λ taken. IfErr taken (λ status. status ≡ 1)) }
{
    let folder = asked.folder.as_str();
    let limits = Limits {
        days: asked.keep,
        bytes: asked.done,
        is_quiet,
        patience: asked.patience,
        clients: asked.clients,
    };
    let mut layout = FolderLayout::for_server(*files, alloc, folder, limits)?;
    let held = match take(&mut layout, process::id(files.process())) {
        Ok(held) => held,
        Err(reason) => return Ok(Err(no_folder(reason, folder, writer, told))),
    };
    // The disk is locked before the scripts that an earlier server left are answered.
    let path = asked.disk.as_str();
    let disk = match disk_to_serve(files, path, asked.area, asked.wait, told) {
        Ok(disk) => disk,
        Err(reason) => return Ok(Err(no_disk(reason, path, writer, told))),
    };
    let _ = tell_wide_disk(files, path, told);
    let kept = match clean_folder(&layout, asked, told) {
        Ok(kept) => kept,
        Err(why) => {
            drop(disk);
            return Ok(Err(no_folder(NoFolder::Refused(why), folder, writer, told)));
        }
    };
    Ok(Ok(Taken {
        layout,
        disk,
        kept,
        held,
    }))
}

// Reports that the server now takes scripts.
fn tell_ready<E: Write>(folder: &str, clients: usize, told: &mut E) -> io::Result<()> {
    let many = word(clients as u64, "client", "clients");
    writeln!(
        told,
        "cclib: ready, taking scripts from {folder} by {clients} {many}; `touch {folder}/stop` ends it"
    )?;
    told.flush()
}

// Reports that files that nobody fetched could not be removed.
fn tell_uncleared<E: Write>(folder: &str, why: &io::Error, told: &mut E) -> io::Result<()> {
    writeln!(told, "cclib: old files in {folder} are not removed: {why}")?;
    told.flush()
}

/// Reports what a generation did, and why it ended. Fails if `told` failed, as `tell_kept` does.
pub fn tell_generation<E: Write>(
    scripts: u64,
    entries: u64,
    bytes: u64,
    why: &str,
    told: &mut E,
) -> io::Result<()> {
    let (done, calls) = (
        word(scripts, "script", "scripts"),
        word(entries, "call", "calls"),
    );
    writeln!(
        told,
        "cclib: {scripts} {done} done, {entries} {calls} and {bytes} bytes of history: {why}"
    )?;
    told.flush()
}

/// Looks after a folder while it is served.
#[derive(Drop)]
pub struct Keeper {
    layout: FolderLayout,
    folder: String,
    clients: usize,
    // How many days an answer is kept.
    keep: u32,
    is_ready: bool,
}

impl Keeper {
    /// The keeper of the folder that was asked for. Fails only if memory was refused.
    pub fn new(alloc: Global, layout: &FolderLayout, asked: &Server) -> Result<Keeper, AllocError> {
        Ok(Keeper {
            layout: layout.again()?,
            folder: String::from_str(alloc, asked.folder.as_str())?,
            clients: asked.clients,
            keep: asked.keep,
            is_ready: false,
        })
    }

    /// Removes old files that nobody fetched. The first call also reports that the server now takes scripts.
    pub fn tidy<E: Write>(&mut self, told: &mut E) {
        // What can't be removed remains.
        if let Err(why) = clear_old(&self.layout, self.keep) {
            let _ = tell_uncleared(self.folder.as_str(), &why, told);
        }
        if !self.is_ready {
            self.is_ready = true;
            let _ = tell_ready(self.folder.as_str(), self.clients, told);
        }
    }
}

/// A spool for each of `count` clients; there is at least one. The first client tries again to answer the scripts that the
/// start could not answer. Fails only if memory was refused; then these scripts stay in the folder.
pub fn spools_of(
    alloc: Global,
    layout: &FolderLayout,
    count: usize,
    kept: Vec<String>,
) -> Result<Vec<FolderSpool>, AllocError> {
    let mut spools = Vec::with_capacity(alloc, count)?;
    let mut first = FolderSpool::new(layout.again()?, u64::MAX);
    first.keep(kept);
    spools.push(first)?;
    for _ in 1..count {
        spools.push(FolderSpool::new(layout.again()?, u64::MAX))?;
    }
    Ok(spools)
}

/// How many answers were handed over, and how many were not.
#[derive(Clone, Copy, Drop)]
pub struct AnswerCounts {
    /// How many were handed over.
    pub answered: u64,
    /// How many could not be handed over.
    pub kept: u64,
    /// Whether the folder could no longer be used.
    pub has_failed: bool,
}

/// Counts over all spools. Each count saturates at the largest number of 64 bits.
pub fn count_all(spools: &[FolderSpool]) -> AnswerCounts {
    let mut counts = AnswerCounts {
        answered: 0,
        kept: 0,
        has_failed: false,
    };
    for spool in spools {
        counts.answered = counts.answered.saturating_add(spool.answered());
        counts.kept = counts.kept.saturating_add(spool.kept() as u64);
        counts.has_failed |= spool.has_failed();
    }
    counts
}

/// Reports how many answers could not be handed over, if there are any.
pub fn tell_kept<E: Write>(kept: u64, told: &mut E) -> io::Result<()> {
    if kept == 0 {
        return Ok(());
    }
    let answers = word(kept, "answer", "answers");
    writeln!(
        told,
        "cclib: left in cur for the next start: {kept} {answers} that could not be handed over"
    )?;
    told.flush()
}
