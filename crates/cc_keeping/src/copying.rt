// The command `copy`: it copies units of the library in a file into a new library in another file.
//
// The new file is written under a name that only this process uses, and gets its own name through a link once all of it is on the
// medium: nothing is overwritten, and a power cut or a kill leaves the whole file or nothing under its own name.

ghost use Rattle.std.specs.Prelude.{◌≤◌};

use crate::telling::{refuse, refuse_quietly, unwritten};
use cc_answers::{Persons, tell_audit, tell_ok};
use cc_command_line::Copying;
use cc_copy::{LeftOut, Selection, copy_units, least_area, selection_on};
use cc_disk::{Disk, FileDisk};
use cc_filing::{buffers, disk_to_read, name_disk, no_library};
use cc_library::{LibraryFault, Name, UnitMap};
use cc_tasks::PartFault;
use cc_watch::AnswerProgress;
use std::alloc::{AllocError, Global};
use std::fs::{self, OpenOptions, Permissions};
use std::io::{self, Print, Write};
use std::os::unix::fs::{OpenOptionsExt, PermissionsExt};
use std::rt::Clock;

/// The rights of a new file: only its owner may use it.
const OWN: u32 = 0o600;

// The selected units of the library on this disk.
fn selection_of<D: Disk + Drop, S: Write, E: Write>(
    alloc: Global,
    disk: D,
    asked: &Copying,
    seen: &mut S,
    told: &mut E,
) -> Result<Selection, PartFault> {
    let names = asked.names.as_slice();
    let (selection, disk) = selection_on(alloc, disk, names, asked.is_confirmed, seen, told);
    drop(disk);
    selection
}

// Makes an empty file at a path; nothing may be there yet.
fn begin(files: &HostRuntime, path: &str) -> io::Result<()> {
    let mut how = OpenOptions::new();
    how.write(true).create_new(true).mode(OWN);
    let file = how.open(files, path)?;
    // The umask may have removed some of the rights.
    match file.set_permissions(Permissions::from_mode(OWN)) {
        Ok(()) => Ok(()),
        Err(error) => {
            let _ = fs::remove_file(files, path);
            Err(error)
        }
    }
}

// Makes the new library in a file that belongs to this call. The file is removed again if that fails.
fn made(
    alloc: Global,
    files: &HostRuntime,
    units: &UnitMap,
    making: &str,
    area: u32,
) -> Result<FileDisk, LibraryFault>
    requires least { 64 ≤ area }
    requires most { area ≤ 1073741824 }
{
    let answer = match FileDisk::create(files, making, 16 + 2 * area as usize) {
        Ok(disk) => {
            let (answer, disk) = copy_units(alloc, units, disk, area);
            match answer {
                Ok(()) => return Ok(disk),
                Err(fault) => {
                    drop(disk);
                    fault
                }
            }
        }
        Err(_) => LibraryFault::DiskFault,
    };
    let _ = fs::remove_file(files, making);
    Err(answer)
}

// Explains to a person that something already has the name that the new file was to have.
fn tell_taken<E: Write>(path: &str, told: &mut E) -> LibraryFault {
    let _ = writeln!(
        told,
        "cclib: {path}: something has this name already, and nothing is overwritten"
    );
    LibraryFault::DiskFault
}

// Makes the new library of these units under a temporary name, which it keeps until it is complete. Nothing may have that name
// yet.
fn write_beside<E: Write>(
    alloc: Global,
    files: &HostRuntime,
    units: &UnitMap,
    making: &str,
    asked: &Copying,
    told: &mut E,
) -> Result<(), LibraryFault>
    requires least { 64 ≤ asked.now.area }
    requires most { asked.now.area ≤ 1073741824 }
{
    let path = asked.new.as_str();
    if fs::symlink_metadata(files, making).is_ok() {
        return Err(tell_taken(making, told));
    }
    if begin(files, making).is_err() {
        let _ = writeln!(told, "cclib: {making}: the new file could not be made");
        return Err(LibraryFault::DiskFault);
    }
    let disk = match made(alloc, files, units, making, asked.area) {
        Ok(disk) => disk,
        Err(fault) => {
            if let LibraryFault::DiskFault = fault {
                let _ = writeln!(told, "cclib: {making}: the new file could not be written");
            }
            return Err(fault);
        }
    };
    let named = name_disk(files, making, path);
    drop(disk);
    match named {
        Ok(()) => Ok(()),
        Err(_) => {
            let _ = fs::remove_file(files, making);
            let _ = writeln!(
                told,
                "cclib: {path}: the new file could not get this name, or it is not known that the name lasts"
            );
            Err(LibraryFault::DiskFault)
        }
    }
}

// Makes the new library of these units, or says why that failed.
fn write_new<E: Write>(
    alloc: Global,
    files: &HostRuntime,
    process: u32,
    units: &UnitMap,
    asked: &Copying,
    told: &mut E,
) -> Result<(), LibraryFault>
    requires least { 64 ≤ asked.now.area }
    requires most { asked.now.area ≤ 1073741824 }
{
    if !units.fits(asked.area as usize) {
        let _ = match least_area(units) {
            Some(least) => writeln!(told, "cclib: the units take an AREA of at least {least}"),
            None => writeln!(
                told,
                "cclib: the units take more bytes than an AREA may have"
            ),
        };
        return Err(LibraryFault::Full);
    }
    let path = asked.new.as_str();
    if fs::symlink_metadata(files, path).is_ok() {
        return Err(tell_taken(path, told));
    }
    let Ok(making) = format!(in alloc; "{path}.{process}.copy") else {
        return Err(LibraryFault::OutOfMemory);
    };
    let answer = write_beside(alloc, files, units, making.as_str(), asked, told);
    drop(making);
    answer
}

// Writes the names of the units that were copied.
fn write_names<W: Write>(names: &[Name], writer: &mut W) -> io::Result<()> {
    for name in names {
        writer.write_all(b"copied ")?;
        writer.write_all(name.bytes())?;
        writer.write_all(b"\n")?;
    }
    Ok(())
}

// Writes the names of the units that were copied, what an audit says about those that were left out, and that everything is
// written. The result is whether these lines could be written.
fn is_told<W: Write>(names: &[Name], left_out: &[LeftOut], writer: &mut W) -> bool {
    if write_names(names, writer).is_err() {
        return false;
    }
    for left in left_out {
        if tell_audit(left.name.bytes(), left.audit, writer).is_err() {
            return false;
        }
    }
    tell_ok(writer).is_ok()
}

// The selected units, as `selection_of` selects them. A person who sees standard error is shown how many units were audited.
fn selection_seen<R: AllocGlobal + Clock + Copy + Drop, D: Disk + Drop, E: Write>(
    rt: &R,
    files: &HostRuntime,
    disk: D,
    asked: &Copying,
    persons: Persons,
    told: &mut E,
) -> Result<Selection, PartFault> {
    let screen = if persons.is_watched && !persons.is_quiet {
        Some(files.stderr())
    } else {
        None
    };
    let mut seen = AnswerProgress::new(io::sink(), *rt, screen, "units audited");
    let selection = selection_of(rt.alloc(), disk, asked, &mut seen, told);
    seen.clear();
    drop(seen);
    selection
}

// Copies units of the library on this disk into a new library in a file. The result is the status.
fn copied<R: AllocGlobal + Clock + Print + Copy + Drop, D: Disk + Drop, W: Write, E: Write>(
    rt: &R,
    files: &HostRuntime,
    process: u32,
    disk: D,
    asked: &Copying,
    persons: Persons,
    writer: &mut W,
    told: &mut E,
) -> u8
    requires least { 64 ≤ asked.now.area }
    requires most { asked.now.area ≤ 1073741824 }
{
    let selection = match selection_seen(rt, files, disk, asked, persons, told) {
        Ok(selection) => selection,
        Err(fault) => return refuse(fault, writer, told),
    };
    // The memory for what is printed is allocated before the new file is made.
    let Ok(names) = selection.units.names(rt.alloc()) else {
        return refuse(PartFault::OutOfMemory, writer, told);
    };
    let written = write_new(rt.alloc(), files, process, &selection.units, asked, told);
    if let Err(fault) = written {
        let _ = told.flush();
        return refuse_quietly(fault.number(), writer, told);
    }
    if !is_told(names.as_slice(), selection.left_out.as_slice(), writer) {
        return unwritten(told);
    }
    if selection.left_out.is_empty() { 0 } else { 1 }
}

/// Copies units of the library in a file into a new library in a file. The result is the status: 0 if no unit was left out. The
/// only error is that memory ran out before the command began.
pub fn copy_file<R: AllocGlobal + Clock + Print + Copy + Drop, E: Write + Drop>(
    rt: &R,
    files: &HostRuntime,
    process: u32,
    asked: &Copying,
    persons: Persons,
    errors: E,
) -> Result<u8, AllocError>
    requires least { 64 ≤ asked.now.area }
    requires most { asked.now.area ≤ 1073741824 }
{
    let (mut writer, mut told) = buffers(rt.alloc(), io::writer(rt), errors, persons.is_quiet)?;
    let path = asked.old.as_str();
    let disk = match disk_to_read(files, path, asked.wait) {
        Ok(disk) => disk,
        Err(reason) => return Ok(no_library(reason, path, &mut writer, &mut told)),
    };
    let (writer, told) = (&mut writer, &mut told);
    Ok(copied(rt, files, process, disk, asked, persons, writer, told))
}
