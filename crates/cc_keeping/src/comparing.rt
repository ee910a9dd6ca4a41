// The command `diff`: the differences between the libraries in two files. Nothing is written to them.

ghost use Rattle.std.specs.Prelude.{◌≡◌, ◌≢◌, [], false, true};
ghost use Rattle.std.specs.Io.KnownBytes.{Appends};
ghost use Rattle.cc_diff.specs.Written.{diff_text};

use crate::telling::{refuse_quietly, settled};
use cc_answers::explain_words;
use cc_command_line::Comparing;
use cc_diff::{DiffFault, DiffLine, diff_disks, write_diff};
use cc_filing::{NoDisk, buffers, disk_to_read, no_library};
use cc_tasks::Done;
use std::alloc::{AllocError, Global};
use std::io::{self, Write};

// Why there are no differences to write.
#[derive(Clone, Copy, Drop)]
enum NoLines {
    // 35, 37, 38 or 40: of one of the libraries, or of both.
    Fault(DiffFault),
    // 35: another process has the file of the left library open.
    LeftInUse,
    // 35: another process has the file of the right library open.
    RightInUse,
}

// The differences between the libraries in the files.
fn lines_of(
    alloc: Global,
    files: &HostRuntime,
    asked: &Comparing,
) -> Result<Vec<DiffLine>, NoLines> {
    let left = match disk_to_read(files, asked.left.as_str(), asked.wait) {
        Ok(disk) => disk,
        Err(NoDisk::FileInUse) => return Err(NoLines::LeftInUse),
        Err(reason) => return Err(NoLines::Fault(DiffFault::Left(reason.fault()))),
    };
    let right = match disk_to_read(files, asked.right.as_str(), asked.wait) {
        Ok(disk) => disk,
        Err(reason) => {
            drop(left);
            return Err(match reason {
                NoDisk::FileInUse => NoLines::RightInUse,
                reason => NoLines::Fault(DiffFault::Right(reason.fault())),
            });
        }
    };
    let (lines, disks) = diff_disks(alloc, left, right);
    drop(disks);
    match lines {
        Ok(lines) => Ok(lines),
        Err(fault) => Err(NoLines::Fault(fault)),
    }
}

// Explains to a person which file has a fault.
fn explain<E: Write>(fault: DiffFault, left: &str, right: &str, told: &mut E) -> io::Result<()> {
    let path = match fault {
        DiffFault::Left(_) => left,
        DiffFault::Right(_) => right,
        DiffFault::OutOfMemory => return explain_words(40, told),
    };
    match fault.number() {
        35 => writeln!(
            told,
            "cclib: {path}: the file could not be opened, or failed, or another process has it open"
        )?,
        37 => writeln!(told, "cclib: {path}: the file's records are damaged")?,
        38 => writeln!(told, "cclib: {path}: the file is no library")?,
        number => return explain_words(number, told),
    }
    told.flush()
}

// Writes the line of the fault, and explains it. The result is the status.
fn refuse<W: Write, E: Write>(
    reason: NoLines,
    asked: &Comparing,
    writer: &mut W,
    told: &mut E,
) -> u8 {
    let (left, right) = (asked.left.as_str(), asked.right.as_str());
    match reason {
        NoLines::LeftInUse => no_library(NoDisk::FileInUse, left, writer, told),
        NoLines::RightInUse => no_library(NoDisk::FileInUse, right, writer, told),
        NoLines::Fault(fault) => {
            let status = refuse_quietly(fault.number(), writer, told);
            let _ = explain(fault, left, right, told);
            status
        }
    }
}

// Writes the lines: the status is 0 if there are none, else 1.
#[tactic(auto, using(crate::proofs::Settled::settled_text))]
fn answer<W: Write, E: Write>(lines: &[DiffLine], writer: &mut W, told: &mut E) -> Done
    ensures written { result.is_written ≡ true → Appends (W.contents writer.old) (W.contents writer.new) (diff_text lines.now) }
    ensures same { result.is_written ≡ true → lines.now ≡ [] → result.status ≡ 0 }
    ensures different { lines.now ≢ [] → result.status ≡ 1 }
    ensures unwritten { result.is_written ≡ false → result.status ≡ 1 }
{
    let write = write_diff(lines, writer);
    let status = if lines.is_empty() { 0 } else { 1 };
    settled(write, status, writer, told)
}

/// Writes the differences between the libraries in two files. The result is the status: 0 if both have the same units. The
/// only error is that memory ran out before the command began.
pub fn diff_files<R: AllocGlobal, A: Write + Drop, E: Write + Drop>(
    rt: &R,
    files: &HostRuntime,
    asked: &Comparing,
    is_quiet: bool,
    answers: A,
    errors: E,
) -> Result<u8, AllocError> {
    let (mut writer, mut told) = buffers(rt.alloc(), answers, errors, is_quiet)?;
    Ok(match lines_of(rt.alloc(), files, asked) {
        Ok(lines) => answer(lines.as_slice(), &mut writer, &mut told).status,
        Err(reason) => refuse(reason, asked, &mut writer, &mut told),
    })
}
