// A part of a unit that a library keeps.

ghost use Rattle.std.specs.Prelude.{◌≡◌, IfOk, IfErr, IsTrue, OnOk};
ghost use Rattle.std.specs.Io.KnownBytes.{Appends};
ghost use Rattle.std.specs.FinMap as map;
ghost use Rattle.cc_disk.specs.Images.{OnlyReads};
ghost use Rattle.cc_library.specs.Apply.{Units};
ghost use Rattle.cc_tasks.specs.Part.{IsPart, IsPartIn, IsNoPartIn, IsPartOn, IsNoPartOn, part_fault_number};
ghost use Rattle.cc_tasks.specs.Written.{Writes, found_text};

use super::fault::Fault;
use super::unknown::explain_unknown;
use super::work::flushed;
use cc_answers::{Stands, write_fault_line};
use cc_disk::Disk;
use cc_hex::image::write;
use cc_library::{Library, LibraryFault, Name, UnitMap};
use cc_task::Part;
use cc_unit::StoredUnit;
use std::alloc::{AllocError, Global};
use std::io::{self, Write};
use thiserror::Error;

/// Why there is no part of a unit.
#[derive(Clone, Copy, Debug, Drop, Error)]
pub enum PartFault {
    /// 33: the bytes are not a name.
    #[error("BadName")]
    BadName,
    /// 32: no unit has the name.
    #[error("Absent")]
    Absent,
    /// 35, 37, 38, 40: the library could not be opened.
    #[error(transparent)]
    Library(LibraryFault),
    /// 40: memory ran out.
    #[error("OutOfMemory")]
    OutOfMemory,
}

impl PartFault {
    /// The fault's number.
    pub fn number(&self) -> u32
        ensures { result ≡ part_fault_number self.now }
    {
        match self {
            PartFault::BadName => 33,
            PartFault::Absent => 32,
            PartFault::Library(fault) => fault.number(),
            PartFault::OutOfMemory => 40,
        }
    }
}

/// A part of a unit: its image as Intel HEX, or the bytes of its source.
pub fn part_of(alloc: Global, unit: &StoredUnit, part: Part) -> Result<Vec<u8>, AllocError>
    ensures { IfOk result (λ bytes. IsPart part unit.now bytes.items) }
{
    match part {
        Part::Image => write(alloc, &unit.image),
        Part::Source => Vec::from_slice(alloc, unit.source.bytes()),
    }
}

/// A part of the unit under this name in a map: its image as Intel HEX, or the bytes of its source.
///
/// Refusals, in this order: 33 if the bytes are not a name, 32 if no unit has that name, 40 if memory ran out.
pub fn part_in(
    alloc: Global,
    units: &UnitMap,
    name: &[u8],
    part: Part,
) -> Result<Vec<u8>, PartFault>
    ensures part { IfOk result (λ bytes. IsPartIn units.now name.now part bytes.items) }
    ensures refused { IfErr result (λ fault. IsNoPartIn units.now name.now fault) }
{
    let Ok(name) = Name::new(name) else {
        return Err(PartFault::BadName);
    };
    let Some(unit) = units.get(&name) else {
        return Err(PartFault::Absent);
    };
    match part_of(alloc, unit, part) {
        Ok(bytes) => Ok(bytes),
        Err(_) => Err(PartFault::OutOfMemory),
    }
}

/// Writes that no unit has the name, and which name in the map is near it. Writes nothing if memory runs out.
pub fn explain_absent<W: Write>(
    alloc: Global,
    units: &UnitMap,
    name: &[u8],
    writer: &mut W,
) -> io::Result<()> {
    let Ok(found) = units.names(alloc) else {
        return Ok(());
    };
    match slices_of(alloc, found.as_slice()) {
        Ok(names) => explain_unknown("unit", name, names.as_slice(), writer),
        Err(_) => Ok(()),
    }
}

// The bytes of each name.
fn slices_of(alloc: Global, names: &[Name]) -> Result<Vec<&[u8]>, AllocError> {
    let mut slices = Vec::new(alloc);
    for name in names {
        slices.push(name.bytes())?;
    }
    Ok(slices)
}

/// A part, as `part_in` returns it, of the unit that the library on a disk keeps under this name; the disk is handed back.
/// Nothing is written to the disk. If no unit has the name, a name near it is written to `explanations`; if this write fails,
/// the fault is still `Absent`.
///
/// Refusals: first those of `Library::open`, 35, 38, 37 and 40; then those of `part_in`.
pub fn take_out<D: Disk + Drop, E: Write>(
    alloc: Global,
    disk: D,
    name: &[u8],
    part: Part,
    explanations: &mut E,
) -> (Result<Vec<u8>, PartFault>, D)
    // The result is the part of the unit that has the name in some map, whatever kind of disk it is. On an honest disk this is the map to
    // which the disk recovers.
    ensures some { IfOk result.0 (λ bytes. (units : Units) × IsPartIn units name.now part bytes.items) }
    ensures part { IfOk result.0 (λ bytes. IsTrue D.honest → IsPartOn (D.seen disk) name.now part bytes.items) }
    // When each refusal comes.
    ensures refused { IfErr result.0 (λ fault. IsNoPartOn D.honest (D.seen disk) (D.failures disk) (D.failures result.1) name.now fault) }
    // The disk has the same bytes, and no crash leaves anything new.
    ensures reads { IsTrue D.honest → OnlyReads D.seen D.may_leave D.moment D.left_since disk result.1 }
{
    match Library::open(alloc, disk) {
        Ok(library) => {
            let found = part_in(alloc, library.units(), name, part);
            if let Err(PartFault::Absent) = &found {
                let _ = explain_absent(alloc, library.units(), name, explanations);
            }
            (found, library.into_disk())
        }
        Err((fault, disk)) => (Err(PartFault::Library(fault)), disk),
    }
}

// Writes what was taken out, or the line of the fault.
fn write_found<W: Write>(found: &Result<Vec<u8>, PartFault>, writer: &mut W) -> io::Result<()>
    ensures { OnOk result (Appends (W.contents writer.old) (W.contents writer.new) (found_text found.now)) }
{
    match found {
        Ok(bytes) => writer.write_all(bytes.as_slice()),
        Err(fault) => write_fault_line(fault.number(), Stands::Nowhere, b"", writer),
    }
}

/// Writes what was taken out, or the line that says why there is nothing, and flushes the writer. 54 if a write or the flush
/// fails.
#[tactic(auto, using(crate::proofs::Working::written))]
pub fn write_part<W: Write>(found: &Result<Vec<u8>, PartFault>, writer: &mut W) -> Result<(), Fault>
    ensures { Writes (W.contents writer.old) (W.contents writer.new) (found_text found.now) result }
{
    let write = write_found(found, writer);
    flushed(write, writer)
}
