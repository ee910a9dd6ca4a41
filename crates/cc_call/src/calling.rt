// Running the image of a library's unit on input words.

ghost use Rattle.std.specs.Prelude.{◌≡◌, ℕ, Bool, List, IfOk, IfErr, IsTrue};
ghost use Rattle.std.specs.Arc.{arc_value};
ghost use Rattle.cc_disk.specs.Images.{OnlyReads};
ghost use Rattle.cc_tasks.specs.Part.{IsFound, IsNoPartIn, IsNoPartOn};
ghost use Rattle.cc_runs.specs.Count.{IsCounted};
ghost use Rattle.cc_runs.specs.Within.{IsCountedWithin};
ghost use Rattle.cc_call.specs.Call.{IsCallOn, IsUnitOn};

use cc_disk::Disk;
use cc_library::{Library, Name, UnitMap};
use cc_runs::{CountedRun, run_words_within};
use cc_rv32::image::Image;
use cc_tasks::{PartFault, explain_absent};
use cc_unit::StoredUnit;
use std::alloc::Global;
use std::io::Write;
use std::sync::Arc;

/// The unit with this name in a map.
///
/// Refusals, in this order: 33 if the bytes are not a name, 32 if no unit has the name.
pub fn unit_in(units: &UnitMap, name: &[u8]) -> Result<Arc<StoredUnit>, PartFault>
    ensures found { IfOk result (λ unit. IsFound units.now name.now (arc_value unit)) }
    ensures refused { IfErr result (λ fault. IsNoPartIn units.now name.now fault) }
{
    let Ok(name) = Name::new(name) else {
        return Err(PartFault::BadName);
    };
    let Some(unit) = units.get(&name) else {
        return Err(PartFault::Absent);
    };
    match Arc::try_clone(unit) {
        Ok(unit) => Ok(unit),
        Err(_) => Err(PartFault::OutOfMemory),
    }
}

/// The unit that the library on a disk keeps under this name. The disk is handed back, and nothing is written to it. If no unit has
/// the name, a similar name is written to `explanations`.
///
/// Refusals: first those of `Library::open`, 35, 38, 37 and 40; then those of `unit_in`.
pub fn unit_on<D: Disk + Drop, E: Write>(
    alloc: Global,
    disk: D,
    name: &[u8],
    explanations: &mut E,
) -> (Result<Arc<StoredUnit>, PartFault>, D)
    // On an honest disk this is the unit under the name in the map to which the disk recovers.
    ensures found { IfOk result.0 (λ unit. IsTrue D.honest → IsUnitOn (D.seen disk) name.now (arc_value unit)) }
    ensures sound { IfOk result.0 (λ _. D.failures result.1 ≡ D.failures disk) }
    ensures refused { IfErr result.0 (λ fault. IsNoPartOn D.honest (D.seen disk) (D.failures disk) (D.failures result.1) name.now fault) }
    ensures reads { IsTrue D.honest → OnlyReads D.seen D.may_leave D.moment D.left_since disk result.1 }
{
    match Library::open(alloc, disk) {
        Ok(library) => {
            let found = unit_in(library.units(), name);
            if let Err(PartFault::Absent) = &found {
                let _ = explain_absent(alloc, library.units(), name, explanations);
            }
            (found, library.into_disk())
        }
        Err((fault, disk)) => (Err(PartFault::Library(fault)), disk),
    }
}

/// What the stored image of the unit with this name does on the input words within this many instructions, and, if `is_counted`, the least
/// number of instructions with that result. If at most so many words may be written, the run ends, as going, before the first one that is
/// too many. Nothing is compiled, and nothing is written to the disk.
///
/// Refusals: those of `unit_on`; 40 if memory was refused during the run.
pub fn call<D: Disk + Drop, E: Write>(
    alloc: Global,
    disk: D,
    name: &[u8],
    words: &[u32],
    steps: u64,
    most: Option<u32>,
    is_counted: bool,
    explanations: &mut E,
) -> (Result<CountedRun, PartFault>, D)
    // On an honest disk the unit is the one in the map to which the disk recovers.
    ensures run { IfOk result.0 (IsCallOn D.honest (D.seen disk) name.now is_counted steps most words.now) }
    ensures refused { IfErr result.0 (λ fault. IsNoPartOn D.honest (D.seen disk) (D.failures disk) (D.failures result.1) name.now fault) }
    ensures reads { IsTrue D.honest → OnlyReads D.seen D.may_leave D.moment D.left_since disk result.1 }
{
    let (found, disk) = unit_on(alloc, disk, name, explanations);
    match found {
        Ok(unit) => {
            let run = match run_words_within(alloc, &unit.image, words, steps, most, is_counted) {
                Ok(run) => Ok(run),
                Err(_) => Err(PartFault::OutOfMemory),
            };
            drop(unit);
            (run, disk)
        }
        Err(fault) => (Err(fault), disk),
    }
}

/// Shows that a run that may write any number of words is the run within all of its instructions, and the other way round.
pub fn runs_without_bound()
    ensures all { (image : Image) (counted : Bool) (steps : ℕ) (words : List ℕ) (run : CountedRun) → IsCountedWithin image counted steps None words run
        → IsCounted image counted steps words run }
    ensures any { (image : Image) (counted : Bool) (steps : ℕ) (words : List ℕ) (run : CountedRun) → IsCounted image counted steps words run
        → IsCountedWithin image counted steps None words run }
{}
