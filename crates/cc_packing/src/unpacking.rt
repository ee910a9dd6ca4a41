// The unit of a file is added to a library if an audit confirms it.

ghost use Rattle.std.specs.Prelude.{◌≡◌, ◌≢◌, List, ℕ, IsTrue, IfErr, IfOk};
ghost use Rattle.cc_disk.specs.Images.{LeavesOnly, OnlyReads};
ghost use Rattle.cc_library.specs.Apply.{Units};
ghost use Rattle.cc_library.specs.Recovered.{Recovers};
ghost use Rattle.cc_unit.specs.declared.unit.StoredUnit.{StoredUnit};
ghost use Rattle.cc_link.specs.declared.audit_answer.Audit.TheVariants.{Confirmed};
ghost use Rattle.cc_packing.specs.Packing.{IsNoFile};
ghost use Rattle.cc_packing.specs.Unpacked.{IsFileWith, IsNotUnpacked, IsUnpacked, MayBeUnpacked};

use crate::adding::add_on;
use crate::modes::audit_as;
use crate::packing::{UnitFile, read_unit};
use cc_disk::Disk;
use cc_library::{LibraryFault, Name, SharedUnit};
use cc_link::Audit;
use cc_pack::PackFault;
use std::alloc::Global;
use thiserror::Error;

/// Why a unit's file is not unpacked.
#[derive(Clone, Copy, Debug, Drop, Error)]
pub enum UnpackFault {
    /// 37 or 40: the bytes are the file of no unit, or memory ran out.
    #[error(transparent)]
    File(PackFault),
    /// 31, 34, 35, 37, 38 or 40: the unit is not added to the library.
    #[error(transparent)]
    Library(LibraryFault),
}

impl UnpackFault {
    /// The fault's number.
    pub fn number(&self) -> u32 {
        match self {
            UnpackFault::File(fault) => fault.number(),
            UnpackFault::Library(fault) => fault.number(),
        }
    }
}

/// A unit that was read from its file and audited.
#[derive(Drop)]
pub struct AuditedFile {
    /// The name under which the unit was packed.
    pub name: Name,
    /// The unit.
    pub unit: SharedUnit,
    /// What an audit says about the unit in the modes that the file names.
    pub audit: Audit,
}

/// The unit of a file, and what an audit says about it in each of the modes that the file names. Nothing is assumed about the file,
/// whoever made it.
///
/// 37 exactly if the bytes are the file of no unit, 40 if memory ran out.
pub fn audit_file(alloc: Global, file: &[u8]) -> Result<AuditedFile, PackFault>
    ensures audited { IfOk result (λ it. IsFileWith file.now it.unit it.audit) }
    ensures refused { IfErr result (IsNoFile file.now) }
{
    let UnitFile { modes, name, unit } = read_unit(alloc, file)?;
    match audit_as(alloc, modes, unit.stored()) {
        Ok(audit) => Ok(AuditedFile { name, unit, audit }),
        Err(_) => {
            drop(name);
            drop(unit);
            Err(PackFault::OutOfMemory)
        }
    }
}

/// Adds the unit of a file under a name to the library on a disk, if an audit confirms the unit in each of the modes that the file
/// names. The answer is what the audit says; the unit is added exactly if this is `Confirmed`, and then every crash leaves it there.
/// Otherwise the disk is not touched.
///
/// Refusals: 37 if the bytes are the file of no unit, then, if the unit is confirmed, those of `add_on`. 40 if memory ran out.
pub fn unpack<D: Disk + Drop>(
    alloc: Global,
    disk: D,
    name: Name,
    file: &[u8],
) -> (Result<Audit, UnpackFault>, D)
    // The audit is that of the file's unit; a unit that it does not confirm leaves the disk as it is.
    ensures audited { IfOk result.0 (λ audit. (unit : StoredUnit) × IsFileWith file.now unit audit) }
    ensures left { IfOk result.0 (λ audit. audit ≢ Confirmed → result.1 ≡ disk) }
    ensures unpacked { IfOk result.0 (λ audit. audit ≡ Confirmed → IsTrue D.honest → IsUnpacked (D.seen disk) name file.now (D.may_leave result.1)) }
    // Whatever the answer, a crash at any moment leaves what a crash could have left before, or the earlier map, or that map with a
    // confirmed unit.
    ensures moments { IsTrue D.honest → (units : Units) → Recovers (D.seen disk) units
        → LeavesOnly D.moment D.left_since disk result.1 (MayBeUnpacked file.now name (D.may_leave disk) units) }
    ensures refused { IfErr result.0 (IsNotUnpacked D.honest (D.seen disk) (D.failures disk) (D.failures result.1) name file.now) }
    // If the device did not fail, a refusal leaves an honest disk as it was.
    ensures untouched { IfErr result.0 (λ fault. fault ≢ UnpackFault.Library LibraryFault.DiskFault → IsTrue D.honest
        → OnlyReads D.seen D.may_leave D.moment D.left_since disk result.1) }
{
    let AuditedFile {
        name: packed,
        unit,
        audit,
    } = match audit_file(alloc, file) {
        Ok(audited) => audited,
        Err(fault) => {
            drop(name);
            return (Err(UnpackFault::File(fault)), disk);
        }
    };
    drop(packed);
    match audit {
        Audit::Confirmed => {
            let (answer, disk) = add_on(alloc, disk, name, unit);
            match answer {
                Ok(()) => (Ok(Audit::Confirmed), disk),
                Err(fault) => (Err(UnpackFault::Library(fault)), disk),
            }
        }
        audit => {
            drop(name);
            drop(unit);
            (Ok(audit), disk)
        }
    }
}
