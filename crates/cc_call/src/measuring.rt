// How much memory the image of a library's unit takes.

ghost use Rattle.std.specs.Prelude.{IfOk, IfErr, IsTrue};
ghost use Rattle.cc_disk.specs.Images.{OnlyReads};
ghost use Rattle.cc_call.specs.Measured.{IsSizeOf, IsSizeOn, IsUnmeasured};

use crate::calling::unit_on;
use cc_disk::Disk;
use cc_findings::{Measure, measured};
use cc_link::{Audit, Mode};
use cc_size::size_along_in;
use cc_tasks::PartFault;
use cc_unit::StoredUnit;
use std::alloc::{AllocError, Global};
use std::io::Write;

/// How much memory the image of a stored unit takes.
#[derive(Drop)]
pub enum StoredSize {
    /// The measure of the unit, which was rebuilt from its certificate.
    Confirmed(Measure),
    /// An audit does not confirm the unit; this is its result.
    Left(Audit),
}

// How much memory the image of a unit takes.
fn size_of_unit(alloc: Global, mode: Mode, unit: &StoredUnit) -> Result<StoredSize, AllocError>
    ensures { IfOk result (IsSizeOf mode unit.now) }
{
    let Some(certificate) = &unit.certificate else {
        return Ok(StoredSize::Left(Audit::NoCertificate));
    };
    let source = unit.source.bytes();
    match size_along_in(alloc, mode, source, certificate.bytes(), &unit.image)? {
        Some(sized) => match measured(alloc, sized) {
            Ok(measure) => Ok(StoredSize::Confirmed(measure)),
            Err(error) => Err(error),
        },
        None => Ok(StoredSize::Left(Audit::Unconfirmed)),
    }
}

/// How much memory the image of the unit with this name takes, rebuilt from its certificate in a mode; or the audit's result, if the audit
/// does not confirm the unit. Nothing is written to the disk.
///
/// Refusals: those of `unit_on`; 40 if memory was refused.
pub fn size_on<D: Disk + Drop, E: Write>(
    alloc: Global,
    disk: D,
    name: &[u8],
    mode: Mode,
    explanations: &mut E,
) -> (Result<StoredSize, PartFault>, D)
    // On an honest disk the unit is the one in the map to which the disk recovers.
    ensures size { IfOk result.0 (IsSizeOn mode D.honest (D.seen disk) name.now) }
    ensures refused { IfErr result.0 (IsUnmeasured D.honest (D.seen disk) (D.failures disk) (D.failures result.1) name.now) }
    ensures reads { IsTrue D.honest → OnlyReads D.seen D.may_leave D.moment D.left_since disk result.1 }
{
    let (found, disk) = unit_on(alloc, disk, name, explanations);
    match found {
        Ok(unit) => {
            let size = match size_of_unit(alloc, mode, &unit) {
                Ok(size) => Ok(size),
                Err(_) => Err(PartFault::OutOfMemory),
            };
            drop(unit);
            (size, disk)
        }
        Err(fault) => (Err(fault), disk),
    }
}
