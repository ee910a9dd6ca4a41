// The commands `pack`, `unpack` and `hash`: units as files, and their hashes.

ghost use Rattle.std.specs.Prelude.{◌≡◌, IfOk, IsTrue, false, true};
ghost use Rattle.std.specs.Io.KnownBytes.{Appends};
ghost use Rattle.cc_call.specs.Call.{IsUnitOn};
ghost use Rattle.cc_packing.specs.Packing.{IsHashLine, IsPacked};
ghost use Rattle.cc_unit.specs.declared.unit.StoredUnit.{StoredUnit};

use crate::auditing::explain_audit;
use crate::telling::{refuse, settled, unwritten};
use crate::unit_file::{NoUnit, file_bytes, read_bytes, refuse_unit};
use cc_answers::{tell_audit, tell_ok};
use cc_call::unit_on;
use cc_command_line::{PackVerb, Packing};
use cc_disk::Disk;
use cc_filing::{buffers, disk_to_change, disk_to_read, no_library};
use cc_library::Name;
use cc_link::Audit;
use cc_packing::{UnpackFault, hash_line, hashes_on, pack, unpack};
use cc_tasks::{Done, PartFault};
use std::alloc::{AllocError, Global};
use std::io::{Input, Write};

// The file of the unit with this name on a disk.
fn packed_on<D: Disk + Drop, E: Write>(
    alloc: Global,
    disk: D,
    name: &[u8],
    told: &mut E,
) -> Result<Vec<u8>, PartFault>
    ensures { IfOk result (λ file. IsTrue D.honest → (unit : StoredUnit) × IsUnitOn (D.seen disk) name.now unit × IsPacked name.now unit file.items) }
{
    let (unit, disk) = unit_on(alloc, disk, name, told);
    drop(disk);
    let unit = unit?;
    let Ok(name) = Name::new(name) else {
        return Err(PartFault::BadName);
    };
    match pack(alloc, &name, &unit) {
        Ok(file) => Ok(file),
        Err(_) => Err(PartFault::OutOfMemory),
    }
}

// The line with the hash of the unit with this name on a disk.
fn hash_on<D: Disk + Drop, E: Write>(
    alloc: Global,
    disk: D,
    name: &[u8],
    told: &mut E,
) -> Result<Vec<u8>, PartFault>
    ensures { IfOk result (λ line. IsTrue D.honest → (unit : StoredUnit) × IsUnitOn (D.seen disk) name.now unit × IsHashLine name.now unit line.items) }
{
    let (unit, disk) = unit_on(alloc, disk, name, told);
    drop(disk);
    let unit = unit?;
    let Ok(name) = Name::new(name) else {
        return Err(PartFault::BadName);
    };
    match hash_line(alloc, &name, &unit) {
        Ok(line) => Ok(line),
        Err(_) => Err(PartFault::OutOfMemory),
    }
}

// The lines with the hashes of the units on a disk: of the one with this name, if one is given, else of all.
fn lines_on<D: Disk + Drop, E: Write>(
    alloc: Global,
    disk: D,
    name: Option<&str>,
    told: &mut E,
) -> Result<Vec<u8>, PartFault> {
    if let Some(name) = name {
        return hash_on(alloc, disk, name.as_bytes(), told);
    }
    let (lines, disk) = hashes_on(alloc, disk);
    drop(disk);
    match lines {
        Ok(lines) => Ok(lines),
        Err(fault) => Err(PartFault::Library(fault)),
    }
}

// Writes these bytes.
#[tactic(auto, using(crate::proofs::Settled::settled_text))]
fn answer<W: Write, E: Write>(bytes: &[u8], writer: &mut W, told: &mut E) -> Done
    ensures written { result.is_written ≡ true → Appends (W.contents writer.old) (W.contents writer.new) bytes.now × (result.status ≡ 0) }
    ensures unwritten { result.is_written ≡ false → result.status ≡ 1 }
{
    let write = writer.write_all(bytes);
    settled(write, 0, writer, told)
}

// Writes what was found, or the line for a fault. The result is the status.
fn tell<W: Write, E: Write>(found: Result<Vec<u8>, PartFault>, writer: &mut W, told: &mut E) -> u8 {
    match found {
        Ok(bytes) => answer(bytes.as_slice(), writer, told).status,
        Err(fault) => refuse(fault, writer, told),
    }
}

// Writes what became of a unit that was to be unpacked. The result is the status.
fn tell_unpacked<W: Write, E: Write>(
    answer: Result<Audit, UnpackFault>,
    name: &[u8],
    path: Option<&str>,
    writer: &mut W,
    told: &mut E,
) -> u8 {
    match answer {
        Ok(Audit::Confirmed) => match tell_ok(writer) {
            Ok(()) => 0,
            Err(_) => unwritten(told),
        },
        Ok(audit) => {
            if tell_audit(name, audit, writer).is_err() {
                return unwritten(told);
            }
            let _ = explain_audit(name, audit, told);
            1
        }
        Err(UnpackFault::Library(fault)) => refuse(PartFault::Library(fault), writer, told),
        Err(UnpackFault::File(fault)) => refuse_unit(&NoUnit::Fault(fault), path, writer, told),
    }
}

// Unpacks the file with this path, or the one on standard input, into the library in a file. The result is the status.
fn unpack_in_file<R: AllocGlobal + Input, W: Write, E: Write>(
    rt: &R,
    files: &HostRuntime,
    asked: &Packing,
    name: &str,
    path: Option<&str>,
    writer: &mut W,
    told: &mut E,
) -> u8 {
    let Ok(name) = Name::new(name.as_bytes()) else {
        return refuse(PartFault::BadName, writer, told);
    };
    let bytes = match path {
        Some(path) => file_bytes(rt.alloc(), files, path),
        None => read_bytes(rt.alloc(), rt.reader()),
    };
    let bytes = match bytes {
        Ok(bytes) => bytes,
        Err(reason) => return refuse_unit(&reason, path, writer, told),
    };
    let disk = match disk_to_change(files, asked.disk.as_str(), asked.wait) {
        Ok(disk) => disk,
        Err(reason) => return no_library(reason, asked.disk.as_str(), writer, told),
    };
    let Ok(said) = name.clone() else {
        return refuse(PartFault::OutOfMemory, writer, told);
    };
    let (answer, disk) = unpack(rt.alloc(), disk, said, bytes.as_slice());
    drop(disk);
    tell_unpacked(answer, name.bytes(), path, writer, told)
}

/// Packs or unpacks a unit of the library in a file, or prints hashes of its units. The result is the status. The only error is that
/// memory ran out before the command began.
pub fn pack_in_file<R: AllocGlobal + Input, A: Write + Drop, E: Write + Drop>(
    rt: &R,
    files: &HostRuntime,
    asked: &Packing,
    is_quiet: bool,
    answers: A,
    errors: E,
) -> Result<u8, AllocError> {
    let (mut writer, mut told) = buffers(rt.alloc(), answers, errors, is_quiet)?;
    if let PackVerb::Unpack(name, path) = &asked.verb {
        let path = match path {
            Some(path) => Some(path.as_str()),
            None => None,
        };
        let (writer, told) = (&mut writer, &mut told);
        return Ok(unpack_in_file(rt, files, asked, name.as_str(), path, writer, told));
    }
    let disk = match disk_to_read(files, asked.disk.as_str(), asked.wait) {
        Ok(disk) => disk,
        Err(reason) => {
            return Ok(no_library(reason, asked.disk.as_str(), &mut writer, &mut told));
        }
    };
    let found = match &asked.verb {
        PackVerb::Pack(name) => packed_on(rt.alloc(), disk, name.as_bytes(), &mut told),
        PackVerb::Hash(Some(name)) => { lines_on(rt.alloc(), disk, Some(name.as_str()), &mut told) }
        PackVerb::Hash(None) | PackVerb::Unpack(..) => {
            lines_on(rt.alloc(), disk, None, &mut told)
        }
    };
    Ok(tell(found, &mut writer, &mut told))
}
