// The commands `image` and `source` with `--at`, and `restore`: what a command of the library in a file stored.

use crate::telling::{refuse, unwritten};
use cc_command_line::{Restoring, Wanted};
use cc_disk::Disk;
use cc_filing::{buffers, disk_to_change, disk_to_read, no_library, write_found};
use cc_past::{part_at, restore};
use cc_screen::Screen;
use cc_tasks::PartFault;
use std::alloc::{AllocError, Global};
use std::io::{self, IsTerminal, Print, Write};

/// What a person reads if a command stored nothing under the name.
const NOT_STORED: &str =
    "cclib: that command stored no unit under the name: `cclib log DISK NAME` has those that did\n";

// Explains that a command stored nothing under the name, if that is the fault.
fn explain_absent<T, E: Write>(found: &Result<T, PartFault>, told: &mut E) {
    if let Err(PartFault::Absent) = found {
        let _ = told.write_all(NOT_STORED.as_bytes());
        let _ = told.flush();
    }
}

// The bytes of the part that is wanted.
fn bytes_of<D: Disk + Drop>(
    alloc: Global,
    disk: D,
    wanted: &Wanted,
    number: u64,
) -> Result<Vec<u8>, PartFault> {
    let name = wanted.name.as_bytes();
    let (found, disk) = part_at(alloc, disk, name, wanted.part, number as usize);
    drop(disk);
    found
}

/// Writes to standard output a part of what the command with this number stored in the library in a file. The result is the
/// status. On a terminal, control bytes of the source are shown as `?`. The only error is that memory ran out before the
/// command began.
pub fn take_out_of_past<R: AllocGlobal + Print, E: Write + Drop>(
    rt: &R,
    files: &HostRuntime,
    wanted: &Wanted,
    number: u64,
    is_quiet: bool,
    errors: E,
) -> Result<u8, AllocError> {
    let (buffered, mut told) = buffers(rt.alloc(), io::writer(rt), errors, is_quiet)?;
    let mut writer = Screen::new(buffered, files.stdout().is_terminal());
    let path = wanted.disk.as_str();
    let disk = match disk_to_read(files, path, wanted.wait) {
        Ok(disk) => disk,
        Err(reason) => return Ok(no_library(reason, path, &mut writer, &mut told)),
    };
    let found = bytes_of(rt.alloc(), disk, wanted, number);
    explain_absent(&found, &mut told);
    let done = write_found(found, &mut writer, &mut told);
    Ok(done.status)
}

// Puts back what a command stored.
fn restored<D: Disk + Drop>(alloc: Global, disk: D, asked: &Restoring) -> Result<(), PartFault> {
    let (answer, disk) = restore(alloc, disk, asked.name.as_bytes(), asked.number as usize);
    drop(disk);
    answer
}

/// Puts back what a command of the library in a file stored. The result is the status. The only error is that memory ran out
/// before the command began.
pub fn restore_in_file<R: AllocGlobal + Print, E: Write + Drop>(
    rt: &R,
    files: &HostRuntime,
    asked: &Restoring,
    is_quiet: bool,
    errors: E,
) -> Result<u8, AllocError> {
    let (mut writer, mut told) = buffers(rt.alloc(), io::writer(rt), errors, is_quiet)?;
    let path = asked.disk.as_str();
    let disk = match disk_to_change(files, path, asked.wait) {
        Ok(disk) => disk,
        Err(reason) => return Ok(no_library(reason, path, &mut writer, &mut told)),
    };
    let answer = restored(rt.alloc(), disk, asked);
    explain_absent(&answer, &mut told);
    Ok(match answer {
        Ok(()) => {
            if writeln!(writer, "ok").is_err() || writer.flush().is_err() {
                return Ok(unwritten(&mut told));
            }
            0
        }
        Err(fault) => refuse(fault, &mut writer, &mut told),
    })
}
