// A unit's file is written and read. Its body is the body of the record that adds the unit.

ghost use Rattle.std.specs.Prelude.{IfOk, IfErr, IsTrue};
ghost use Rattle.cc_library.specs.Body.{IsShort, Spells};
ghost use Rattle.cc_library.specs.declared.command.Change.TheVariants.{Add};
ghost use Rattle.cc_packing.specs.Packing.{IsFileOf, IsNoFile, IsPacked};

use crate::modes::modes_of;
use cc_library::{Kind, LibraryCommand, Name, ReadFault, SharedUnit, command_body, read_command};
use cc_pack::{ConfirmedIn, PackFault, Packed, read_file, write_file};
use cc_unit::StoredUnit;
use std::alloc::{AllocError, Global};

/// A unit that was read from its file.
#[derive(Drop)]
pub struct UnitFile {
    /// The modes in which, as the file says, an audit confirms the unit.
    pub modes: ConfirmedIn,
    /// The name under which the unit was packed.
    pub name: Name,
    /// The unit.
    pub unit: SharedUnit,
}

// Whether a certificate is short enough for a record. Each certificate that was read from a record is.
fn is_short(unit: &StoredUnit) -> bool
    ensures { IsTrue result → IsShort unit.now.certificate }
{
    match &unit.certificate {
        Some(certificate) => certificate.bytes().len() <= u32::MAX as usize,
        None => true,
    }
}

/// The body of a unit's file: that of the record which adds the unit under this name. Err: memory ran out, or the certificate is too
/// long for a record, as that of no unit of a library is.
pub fn body_of_unit(alloc: Global, name: &Name, unit: &StoredUnit) -> Result<Vec<u8>, AllocError>
    ensures { IfOk result (λ body. Spells body.items (Add name.now unit.now)) }
{
    if !is_short(unit) {
        return Err(AllocError);
    }
    command_body(alloc, Kind::Add, name, Some(unit))
}

/// The file of a unit, with the modes in which an audit confirms the unit. Err: memory ran out, or the certificate is too long for a
/// record, as that of no unit of a library is.
pub fn pack(alloc: Global, name: &Name, unit: &StoredUnit) -> Result<Vec<u8>, AllocError>
    ensures { IfOk result (λ file. IsPacked name.now unit.now file.items) }
{
    let modes = modes_of(alloc, unit)?;
    let body = body_of_unit(alloc, name, unit)?;
    write_file(alloc, modes, body.as_slice())
}

/// The unit that a file has, its name, and the modes that the file names. Nothing is audited.
///
/// 37 exactly if the bytes are the file of no unit: another form or version, another word, a digest that is not that of the rest, a
/// rest that is not the record of an Add. 40 if memory ran out.
#[tactic(auto, using(crate::proofs::Unread::no_packed))]
pub fn read_unit(alloc: Global, file: &[u8]) -> Result<UnitFile, PackFault>
    ensures read { IfOk result (λ it. IsFileOf file.now it.modes it.name it.unit) }
    ensures refused { IfErr result (IsNoFile file.now) }
{
    let Packed { confirmed, body } = match read_file(alloc, file) {
        Ok(packed) => packed,
        Err(fault) => return Err(fault),
    };
    match read_command(alloc, body) {
        Ok(LibraryCommand::Add(name, unit)) => Ok(UnitFile {
            modes: confirmed,
            name,
            unit,
        }),
        Ok(LibraryCommand::Replace(name, unit)) => {
            drop(name);
            drop(unit);
            Err(PackFault::Damaged)
        }
        Ok(LibraryCommand::Withdraw(name)) => {
            drop(name);
            Err(PackFault::Damaged)
        }
        Err(ReadFault::NoCommand) => Err(PackFault::Damaged),
        Err(ReadFault::OutOfMemory) => Err(PackFault::OutOfMemory),
    }
}
