// Opens the file of a library as it is, or makes it.

ghost use Rattle.std.specs.Prelude.{◌≡◌};

use crate::device::{NoDisk, is_prepared, may_overwrite};
use crate::folder::word;
use crate::taking::explain_part;
use crate::waiting::{USUAL_WAIT, open_to_change, open_to_read};
use cc_answers::explain_words;
use cc_command_line::Session;
use cc_disk::{FileDisk, OpenFault};
use cc_journal::format;
use cc_library::{Library, LibraryFault};
use cc_tasks::PartFault;
use std::fs::{self, File};
use std::io::{self, Write};
use std::os::unix::fs::MetadataExt;
use std::path::Path;

/// What a person reads if there is no disk on the file, because of 35.
const NO_FILE: &str =
    "cclib: the file could not be opened, or another process has it open; if it is not there yet, `--format AREA` makes it\n";

/// What a person reads if a block device is in use.
const IN_USE: &str =
    "cclib: the device is mounted or swapped on, or another device is built on it: lsblk, findmnt and swapon --show say which\n";

/// What a person reads if a block device is too small.
const SMALL: &str = "cclib: the device has fewer than 16 + 2 * AREA bytes\n";

/// The disk on the file of an existing library, for a command that only reads it: others may read it at the same time. It waits
/// this many seconds for a process that changes it.
pub fn disk_to_read(files: &HostRuntime, path: &str, wait: u64) -> Result<FileDisk, NoDisk> {
    Ok(open_to_read(files, path, wait)?)
}

/// The disk on the file of an existing library, for a command that changes it. It waits this many seconds for other processes.
pub fn disk_to_change(files: &HostRuntime, path: &str, wait: u64) -> Result<FileDisk, NoDisk> {
    Ok(open_to_change(files, path, wait)?)
}

// Waits this many seconds until no other process has the file open, if the file is there.
fn wait_until_free(files: &HostRuntime, path: &str, wait: u64) -> Result<(), NoDisk> {
    match open_to_change(files, path, wait) {
        Ok(disk) => {
            drop(disk);
            Ok(())
        }
        Err(OpenFault::InUse) => Err(NoDisk::FileInUse),
        // The file is not there, or whoever writes it anew says why that fails.
        Err(OpenFault::DeviceFailed) => Ok(()),
    }
}

// The disk on the file. If an area is given, the file is made anew and formatted.
fn disk_of(
    files: &HostRuntime,
    path: &str,
    area: Option<u32>,
    wait: u64,
) -> Result<FileDisk, NoDisk> {
    let Some(area) = area else {
        return disk_to_change(files, path, wait);
    };
    let size = size_for(area);
    wait_until_free(files, path, wait)?;
    may_overwrite(files, path, size)?;
    match FileDisk::create(files, path, size) {
        Ok(disk) => formatted(disk, area),
        Err(_) => Err(NoDisk::Refused(LibraryFault::DiskFault)),
    }
}

/// The disk on the file of an existing library, as `disk_to_read` opens it if the command line says nothing about waiting.
pub fn library_disk(files: &HostRuntime, path: &str) -> Result<FileDisk, PartFault> {
    match disk_to_read(files, path, USUAL_WAIT) {
        Ok(disk) => Ok(disk),
        Err(reason) => Err(PartFault::Library(reason.fault())),
    }
}

// How many bytes a library takes, given the size of its areas.
fn size_for(area: u32) -> usize {
    16 + 2 * area as usize
}

// Formats the disk as a new library, and returns it.
fn formatted(mut disk: FileDisk, area: u32) -> Result<FileDisk, NoDisk> {
    match format(&mut disk, area) {
        Ok(()) => Ok(disk),
        Err(fault) => {
            drop(disk);
            Err(NoDisk::Refused(LibraryFault::from(fault)))
        }
    }
}

/// Warns if other users may read or write the file of a library, since the file has the sources of all units.
pub fn tell_wide_disk<E: Write>(files: &HostRuntime, path: &str, told: &mut E) -> io::Result<()> {
    let Ok(found) = fs::metadata(files, path) else {
        return Ok(());
    };
    let rights = found.mode() & 0o7777;
    if found.is_file() && rights & 0o077 != 0 {
        writeln!(
            told,
            "cclib: {path} has the rights {rights:04o}, wider than 0600: others could read its sources, write it, or keep it from being opened"
        )?;
    }
    told.flush()
}

/// Gives a new disk its name, if nothing has that name; removes the name under which the disk was made; and syncs the folder.
pub fn name_disk(files: &HostRuntime, making: &str, path: &str) -> io::Result<()> {
    fs::hard_link(files, making, path)?;
    fs::remove_file(files, making)?;
    let folder = match Path::new(path).parent() {
        Some(folder) if !folder.as_str().is_empty() => folder.as_str(),
        _ => ".",
    };
    File::open(files, folder)?.sync_all()
}

// Whether two names belong to the same file.
fn is_same(files: &HostRuntime, one: &str, other: &str) -> bool {
    match (
        fs::symlink_metadata(files, one),
        fs::symlink_metadata(files, other),
    ) {
        (Ok(one), Ok(other)) => one.dev() == other.dev() && one.ino() == other.ino(),
        _ => false,
    }
}

// Removes the file named `making`, which was left by a server that was killed while it made a library. If the file also has
// another name, the server was killed after it had given the finished library its name: then only `making` is removed. A file
// that has records was prepared by somebody, and is kept.
fn clear_name(files: &HostRuntime, making: &str) -> Result<(), NoDisk> {
    let Ok(found) = fs::symlink_metadata(files, making) else {
        return Ok(());
    };
    if found.is_file() && found.nlink() == 1 && is_prepared(files, making) {
        return Err(NoDisk::Prepared);
    }
    if !found.is_file() || fs::remove_file(files, making).is_err() {
        return Err(NoDisk::Refused(LibraryFault::DiskFault));
    }
    Ok(())
}

// Makes the disk of a new library, under a name that it has only until it is complete.
fn disk_to_name(files: &HostRuntime, making: &str, area: u32) -> Result<FileDisk, NoDisk> {
    clear_name(files, making)?;
    match FileDisk::create_new(files, making, size_for(area)) {
        Ok(disk) => formatted(disk, area),
        Err(_) => Err(NoDisk::Refused(LibraryFault::DiskFault)),
    }
}

/// The disk of a server: the file as it is; if nothing is there and an area is given, a new file. A new file gets its name once
/// it is complete, so a server that is killed while it makes the file leaves nothing under that name. If an area is given
/// although the file is there, a note says that it is opened as it is.
pub fn disk_to_serve<E: Write>(
    files: &HostRuntime,
    path: &str,
    area: Option<u32>,
    wait: u64,
    told: &mut E,
) -> Result<FileDisk, NoDisk> {
    let Some(area) = area else {
        return disk_to_change(files, path, wait);
    };
    let Ok(making) = format!(in files.alloc(); "{path}.new") else {
        return Err(NoDisk::Refused(LibraryFault::OutOfMemory));
    };
    if fs::symlink_metadata(files, path).is_ok() {
        if is_same(files, path, making.as_str()) {
            let _ = fs::remove_file(files, making.as_str());
        }
        let _ = writeln!(
            told,
            "cclib: {path} is there, and is opened as it is; `--format` is for a new file"
        );
        let _ = told.flush();
        return disk_to_change(files, path, wait);
    }
    let disk = disk_to_name(files, making.as_str(), area)?;
    match name_disk(files, making.as_str(), path) {
        Ok(()) => Ok(disk),
        Err(_) => {
            drop(disk);
            Err(NoDisk::Refused(LibraryFault::DiskFault))
        }
    }
}

// How many units the library in a file has. 0 if the file can't be read or is damaged, and if it is no library. Nothing is written.
fn count_units(files: &HostRuntime, path: &str, wait: u64) -> usize {
    let Ok(disk) = open_to_read(files, path, wait) else {
        return 0;
    };
    match Library::open(files.alloc(), disk) {
        Ok(library) => {
            let names = library.list(files.alloc());
            drop(library);
            match names {
                Ok(names) => names.len(),
                Err(_) => 0,
            }
        }
        Err((_, disk)) => {
            drop(disk);
            0
        }
    }
}

// Reports how many units were lost with the library that a file had, if any were.
fn tell_dropped<E: Write>(path: &str, units: usize, told: &mut E) -> io::Result<()> {
    if units > 0 {
        let dropped = word(units as u64, "unit", "units");
        writeln!(
            told,
            "cclib: dropped {units} {dropped} of the library that {path} had; `--if-new` keeps such a library"
        )?;
    }
    told.flush()
}

/// The disk on the file of a session. If an area is given, the file is made anew and formatted, and a note says how many units
/// of an earlier library are lost with it; with `--if-new` it is instead what a server's disk is (`disk_to_serve`).
pub fn disk_of_session<E: Write>(
    files: &HostRuntime,
    asked: &Session,
    is_quiet: bool,
    told: &mut E,
) -> Result<FileDisk, NoDisk> {
    let path = asked.disk.as_str();
    if asked.is_if_new {
        return disk_to_serve(files, path, asked.area, asked.wait, told);
    }
    let units = if asked.area.is_some() && !is_quiet {
        count_units(files, path, asked.wait)
    } else {
        0
    };
    let disk = disk_of(files, path, asked.area, asked.wait)?;
    let _ = tell_dropped(path, units, told);
    Ok(disk)
}

// Explains to a person why there is no disk.
fn explain<E: Write>(reason: NoDisk, path: &str, errors: &mut E) -> io::Result<()> {
    match reason {
        NoDisk::Refused(LibraryFault::DiskFault) => errors.write_all(NO_FILE.as_bytes())?,
        NoDisk::Refused(fault) => explain_words(fault.number(), errors)?,
        NoDisk::FileInUse => writeln!(errors, "cclib: {path}: another process has it open")?,
        NoDisk::SmallDevice => errors.write_all(SMALL.as_bytes())?,
        NoDisk::DeviceInUse => errors.write_all(IN_USE.as_bytes())?,
        NoDisk::OtherContent => writeln!(
            errors,
            "cclib: the device has something that is no library; if it may be lost: dd if=/dev/zero of={path} bs=128K count=1"
        )?,
        NoDisk::Prepared => writeln!(
            errors,
            "cclib: {path}.new is a library with units, which `--format` would destroy: move it to {path}, or away"
        )?,
    }
    errors.flush()
}

/// Writes why there is no disk for a session or a server, and explains it. Returns the status.
pub fn no_disk<W: Write, E: Write>(reason: NoDisk, path: &str, writer: &mut W, errors: &mut E) -> u8
    ensures { result ≡ 1 }
{
    let fault = reason.fault();
    let _ = writeln!(writer, "fault {} {fault}", fault.number());
    let _ = writer.flush();
    let _ = explain(reason, path, errors);
    1
}

// Explains to a person why the file of an existing library could not be opened.
fn explain_closed<E: Write>(reason: NoDisk, path: &str, errors: &mut E) -> io::Result<()> {
    match reason {
        NoDisk::FileInUse => explain(reason, path, errors),
        reason => explain_part(PartFault::Library(reason.fault()), errors),
    }
}

/// Writes why the file of an existing library could not be opened, and explains it. Returns the status.
pub fn no_library<W: Write, E: Write>(
    reason: NoDisk,
    path: &str,
    writer: &mut W,
    errors: &mut E,
) -> u8
    ensures { result ≡ 1 }
{
    let fault = reason.fault();
    let _ = writeln!(writer, "fault {} {fault}", fault.number());
    let _ = writer.flush();
    let _ = explain_closed(reason, path, errors);
    1
}
