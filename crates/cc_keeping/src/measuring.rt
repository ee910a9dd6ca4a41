// The command `size` with DISK and NAME: it says how much memory a unit's image takes. The unit comes from the library in a
// file, and nothing is written to the file.

use crate::telling::{refuse, unwritten};
use cc_answers::tell_audit;
use cc_call::{StoredSize, size_on};
use cc_command_line::Measuring;
use cc_disk::Disk;
use cc_filing::{buffers, disk_to_read, no_library};
use cc_findings::write_measure;
use cc_link::Audit;
use cc_task::Kind;
use cc_tasks::{PartFault, mode_of};
use std::alloc::{AllocError, Global};
use std::io::{self, Write};

// How much memory the image of the unit takes.
fn size_of<D: Disk + Drop, E: Write>(
    alloc: Global,
    disk: D,
    asked: &Measuring,
    told: &mut E,
) -> Result<StoredSize, PartFault> {
    let name = asked.name.as_bytes();
    let (size, disk) = size_on(alloc, disk, name, mode_of(asked.kind), told);
    drop(disk);
    size
}

// Explains to a person why an audit may not confirm the unit under a name.
fn explain_left<E: Write>(name: &str, kind: Kind, told: &mut E) -> io::Result<()> {
    let (asked, other) = match kind {
        Kind::Plain => ("without", "with"),
        Kind::Checked => ("with", "without"),
    };
    writeln!(
        told,
        "cclib: {name}: this version does not make it {asked} --checked: it was compiled {other} --checked, another version made it, or it is damaged"
    )?;
    told.flush()
}

// Writes how much memory an image takes, or what an audit says about the unit. The result is the status.
fn answer<W: Write, E: Write>(
    asked: &Measuring,
    size: &StoredSize,
    writer: &mut W,
    told: &mut E,
) -> u8 {
    match size {
        StoredSize::Confirmed(measure) => {
            let written = write_measure(measure, writer);
            if written.is_err() || writer.flush().is_err() {
                return unwritten(told);
            }
            0
        }
        StoredSize::Left(audit) => {
            if tell_audit(asked.name.as_bytes(), *audit, writer).is_err() {
                return unwritten(told);
            }
            if let Audit::Unconfirmed = audit {
                let _ = explain_left(asked.name.as_str(), asked.kind, told);
            }
            1
        }
    }
}

/// Writes how much memory the image of a unit takes, or the line of an audit that does not confirm the unit. The unit comes
/// from the library in a file. The result is the status: 0 if the unit is confirmed. The only error is that memory ran out
/// before the command began.
pub fn size_in_file<R: AllocGlobal, A: Write + Drop, E: Write + Drop>(
    rt: &R,
    files: &HostRuntime,
    asked: &Measuring,
    is_quiet: bool,
    answers: A,
    errors: E,
) -> Result<u8, AllocError> {
    let (mut writer, mut told) = buffers(rt.alloc(), answers, errors, is_quiet)?;
    let path = asked.disk.as_str();
    let disk = match disk_to_read(files, path, asked.wait) {
        Ok(disk) => disk,
        Err(reason) => return Ok(no_library(reason, path, &mut writer, &mut told)),
    };
    Ok(match size_of(rt.alloc(), disk, asked, &mut told) {
        Ok(size) => answer(asked, &size, &mut writer, &mut told),
        Err(fault) => refuse(fault, &mut writer, &mut told),
    })
}
