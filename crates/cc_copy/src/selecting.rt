// Which units of the library on a disk are selected.

ghost use Rattle.std.specs.Prelude.{◌≡◌, All, IsTrue, IfErr, IfOk, OnOk, map, string_bytes};
ghost use Rattle.cc_disk.specs.Images.{OnlyReads};
ghost use Rattle.cc_library.specs.Apply.{Units};
ghost use Rattle.cc_library.specs.Name.{is_name};
ghost use Rattle.cc_copy.specs.Selected.{AreOf, IsNotSelectedIn, IsNotSelectedOn, IsSelectedIn, IsSelectedOn, IsSelection};
ghost use Rattle.cc_copy.specs.internal.Named.{IsNotTaken, IsUnnamed};

use crate::choosing::{ChooseFault, choose};
use crate::judging::{Selection, confirm};
use cc_disk::Disk;
use cc_library::{Library, Name, UnitMap};
use cc_tasks::{PartFault, explain_absent};
use std::alloc::{AllocError, Global};
use std::io::Write;

// The names that these texts are.
fn names_in(alloc: Global, texts: &[String]) -> Result<Vec<Name>, PartFault>
    ensures names { IfOk result (λ names. names.items ≡ map string_bytes texts.now) }
    ensures all { OnOk result (All (λ name. IsTrue (is_name name)) (map string_bytes texts.now)) }
    ensures refused { IfErr result (IsUnnamed (map string_bytes texts.now)) }
{
    let mut names = Vec::new(alloc);
    for text in texts {
        let Ok(name) = Name::new(text.as_bytes()) else {
            drop(names);
            return Err(PartFault::BadName);
        };
        match names.push(name) {
            Ok(()) => {}
            Err(_) => {
                drop(names);
                return Err(PartFault::OutOfMemory);
            }
        }
    }
    Ok(names)
}

// The units with these names, or all units. For the first name that has no unit, a similar name is shown.
fn taken<E: Write>(
    alloc: Global,
    units: &UnitMap,
    names: &[Name],
    explanations: &mut E,
) -> Result<UnitMap, PartFault>
    ensures taken { IfOk result (AreOf units.now names.now) }
    ensures refused { IfErr result (IsNotTaken units.now names.now) }
{
    if names.is_empty() {
        return match units.again() {
            Ok(units) => Ok(units),
            Err(_) => Err(PartFault::OutOfMemory),
        };
    }
    match choose(alloc, units, names) {
        Ok(units) => Ok(units),
        Err(ChooseFault::Absent(i)) => {
            if let Some(name) = names.get(i) {
                let _ = explain_absent(alloc, units, name.bytes(), explanations);
            }
            Err(PartFault::Absent)
        }
        Err(ChooseFault::OutOfMemory) => Err(PartFault::OutOfMemory),
    }
}

// All of these units, or those that an audit confirms.
fn selection<S: Write>(
    alloc: Global,
    units: UnitMap,
    is_confirmed: bool,
    seen: &mut S,
) -> Result<Selection, AllocError>
    ensures { IfOk result (IsSelection is_confirmed units) }
{
    if !is_confirmed {
        return Ok(Selection {
            units,
            left_out: Vec::new(alloc),
        });
    }
    let selection = confirm(alloc, &units, seen);
    drop(units);
    selection
}

// Selects units from a map.
fn selected<S: Write, E: Write>(
    alloc: Global,
    units: &UnitMap,
    names: &[String],
    is_confirmed: bool,
    seen: &mut S,
    explanations: &mut E,
) -> Result<Selection, PartFault>
    ensures selected { IfOk result (IsSelectedIn units.now (map string_bytes names.now) is_confirmed) }
    ensures refused { IfErr result (IsNotSelectedIn units.now (map string_bytes names.now)) }
{
    let names = match names_in(alloc, names) {
        Ok(names) => names,
        Err(fault) => return Err(fault),
    };
    let units = match taken(alloc, units, names.as_slice(), explanations) {
        Ok(units) => units,
        Err(fault) => {
            drop(names);
            return Err(fault);
        }
    };
    drop(names);
    match selection(alloc, units, is_confirmed, seen) {
        Ok(selection) => Ok(selection),
        Err(_) => Err(PartFault::OutOfMemory),
    }
}

/// The units with these names in the library on a disk, or all its units if no name is given; then all of these, or those that
/// an audit confirms. The disk is handed back, and nothing is written to it. A newline goes to `seen` for each unit that was
/// audited, and for a name that no unit has, a similar name is written to `explanations`.
///
/// Refusals: first those of `Library::open`, 35, 38, 37 and 40; then 33 if one of the texts is not a name; then 32 if one of the
/// names has no unit; 40 if memory ran out.
pub fn selection_on<D: Disk + Drop, S: Write, E: Write>(
    alloc: Global,
    disk: D,
    names: &[String],
    is_confirmed: bool,
    seen: &mut S,
    explanations: &mut E,
) -> (Result<Selection, PartFault>, D)
    // The units are selected from some map, whatever kind of disk it is. On an honest disk this is the map to which it recovers.
    ensures some { IfOk result.0 (λ selection. (units : Units) × IsSelectedIn units (map string_bytes names.now) is_confirmed selection) }
    ensures selected { IfOk result.0 (λ selection. IsTrue D.honest → IsSelectedOn (D.seen disk) (map string_bytes names.now) is_confirmed selection) }
    ensures refused { IfErr result.0 (λ fault. IsNotSelectedOn D.honest (D.seen disk) (D.failures disk) (D.failures result.1) (map string_bytes names.now) fault) }
    ensures reads { IsTrue D.honest → OnlyReads D.seen D.may_leave D.moment D.left_since disk result.1 }
{
    match Library::open(alloc, disk) {
        Ok(library) => {
            let units = library.units();
            let selection = selected(alloc, units, names, is_confirmed, seen, explanations);
            let disk = library.into_disk();
            (selection, disk)
        }
        Err((fault, disk)) => (Err(PartFault::Library(fault)), disk),
    }
}
