// The command `audit` of one unit of the library in a file, and of a unit that is a file itself. The answers are the lines that a
// script's `audit NAME` has.

ghost use Rattle.std.specs.Prelude.{◌≡◌, IfOk, IsTrue};
ghost use Rattle.cc_call.specs.Call.{IsUnitOn};
ghost use Rattle.cc_link.specs.declared.audit_answer.Audit.TheVariants.{Confirmed};
ghost use Rattle.cc_packing.specs.Modes.{SaysIn};
ghost use Rattle.cc_tasks.specs.Answer.{mode_of};
ghost use Rattle.cc_unit.specs.declared.unit.StoredUnit.{StoredUnit};

use crate::telling::{refuse, unwritten};
use crate::unit_file::{NoUnit, file_bytes, refuse_unit};
use cc_answers::{tell_audit, tell_ok};
use cc_call::unit_on;
use cc_disk::Disk;
use cc_filing::{buffers, disk_to_read, no_library};
use cc_link::Audit;
use cc_packing::{AuditedFile, audit_file, audit_unit};
use cc_task::Kind;
use cc_tasks::{PartFault, mode_of};
use std::alloc::{AllocError, Global};
use std::io::{self, Write};

/// A unit of the library in a file that is to be audited.
#[derive(Clone, Copy, Drop)]
pub struct Auditing<'a> {
    /// The path of the file.
    pub disk: &'a str,
    /// The name of the unit, as it was given.
    pub name: &'a str,
    /// The mode.
    pub kind: Kind,
    /// How many seconds to try while another process changes the library.
    pub wait: u64,
}

// What an audit says about the unit with this name on a disk.
fn audit_on<D: Disk + Drop, E: Write>(
    alloc: Global,
    disk: D,
    name: &[u8],
    kind: Kind,
    told: &mut E,
) -> Result<Audit, PartFault>
    ensures { IfOk result (λ audit. IsTrue D.honest → (unit : StoredUnit) × IsUnitOn (D.seen disk) name.now unit × SaysIn (mode_of kind) unit audit) }
{
    let (unit, disk) = unit_on(alloc, disk, name, told);
    drop(disk);
    let unit = unit?;
    match audit_unit(alloc, mode_of(kind), &unit) {
        Ok(audit) => Ok(audit),
        Err(_) => Err(PartFault::OutOfMemory),
    }
}

/// Explains to a person why an audit does not confirm a unit, if it does not.
pub(crate) fn explain_audit<E: Write>(name: &[u8], audit: Audit, told: &mut E) -> io::Result<()> {
    let words = match audit {
        Audit::Confirmed => return Ok(()),
        Audit::NoCertificate => "it has no certificate",
        Audit::Unconfirmed => {
            "it was compiled in the other mode (with --checked, or without), another version made it, or it is damaged"
        }
    };
    told.write_all(b"cclib: ")?;
    told.write_all(name)?;
    writeln!(told, ": {words}")?;
    told.flush()
}

// Writes what an audit says. The result is the status.
fn answer<W: Write, E: Write>(name: &[u8], audit: Audit, writer: &mut W, told: &mut E) -> u8
    ensures confirmed { result ≡ 0 → audit ≡ Confirmed }
{
    if tell_audit(name, audit, writer).is_err() || tell_ok(writer).is_err() {
        return unwritten(told);
    }
    let _ = explain_audit(name, audit, told);
    match audit {
        Audit::Confirmed => 0,
        Audit::NoCertificate | Audit::Unconfirmed => 1,
    }
}

/// Audits a unit of the library in a file. The result is the status: 0 only if the audit confirms the unit. The only error is that
/// memory ran out before the command began.
pub fn audit_in_file<R: AllocGlobal, A: Write + Drop, E: Write + Drop>(
    rt: &R,
    files: &HostRuntime,
    asked: Auditing<'_>,
    is_quiet: bool,
    answers: A,
    errors: E,
) -> Result<u8, AllocError> {
    let (mut writer, mut told) = buffers(rt.alloc(), answers, errors, is_quiet)?;
    let disk = match disk_to_read(files, asked.disk, asked.wait) {
        Ok(disk) => disk,
        Err(reason) => return Ok(no_library(reason, asked.disk, &mut writer, &mut told)),
    };
    let name = asked.name.as_bytes();
    Ok(
        match audit_on(rt.alloc(), disk, name, asked.kind, &mut told) {
            Ok(audit) => answer(name, audit, &mut writer, &mut told),
            Err(fault) => refuse(fault, &mut writer, &mut told),
        },
    )
}

// What an audit says about the unit in the file with this path.
fn audit_path(alloc: Global, files: &HostRuntime, path: &str) -> Result<AuditedFile, NoUnit> {
    let bytes = file_bytes(alloc, files, path)?;
    Ok(audit_file(alloc, bytes.as_slice())?)
}

/// Audits the unit that is a file itself, in the modes that the file names. The result is the status: 0 only if the audit confirms the
/// unit. The only error is that memory ran out before the command began.
pub fn audit_of_file<R: AllocGlobal, A: Write + Drop, E: Write + Drop>(
    rt: &R,
    files: &HostRuntime,
    path: &str,
    is_quiet: bool,
    answers: A,
    errors: E,
) -> Result<u8, AllocError> {
    let (mut writer, mut told) = buffers(rt.alloc(), answers, errors, is_quiet)?;
    match audit_path(rt.alloc(), files, path) {
        Ok(audited) => {
            let status = answer(audited.name.bytes(), audited.audit, &mut writer, &mut told);
            drop(audited);
            Ok(status)
        }
        Err(reason) => {
            let status = refuse_unit(&reason, Some(path), &mut writer, &mut told);
            drop(reason);
            Ok(status)
        }
    }
}
