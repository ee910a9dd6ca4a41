// What an audit says about a unit that was found.

ghost use Rattle.std.specs.Prelude.{◌≡◌, IfOk};
ghost use Rattle.std.specs.Option.{option_map};
ghost use Rattle.cc_session.specs.Auditing.{IsSaidOf};

use cc_link::{Audit, FailedPart, Mode, StoredUnit, failed_part_in};
use cc_service::Found;
use std::alloc::{AllocError, Global};
use std::io::{self, Write};

/// The result of an audit: the answer; and, if the unit's certificate does not confirm the unit, the first part of it that
/// fails.
#[derive(Drop)]
pub(crate) struct Audited {
    pub(crate) audit: Audit,
    failed: Option<FailedPart>,
}

// The bytes of a unit's certificate, if it has one.
fn certificate_of(unit: &StoredUnit) -> Option<&[u8]>
    ensures { option_map (λ c. c.now) result ≡ unit.now.certificate }
{
    match &unit.certificate {
        Some(certificate) => Some(certificate.bytes()),
        None => None,
    }
}

// Audits the unit that was found, in a mode. Err: memory ran out.
pub(crate) fn audit_found(alloc: Global, mode: Mode, found: &Found) -> Result<Audited, AllocError>
    ensures { IfOk result (λ audited. IsSaidOf mode found.now.entry.reply audited.audit) }
{
    let unit = found.unit().stored();
    let Some(certificate) = certificate_of(unit) else {
        return Ok(Audited {
            audit: Audit::NoCertificate,
            failed: None,
        });
    };
    match failed_part_in(alloc, mode, unit.source.bytes(), certificate, &unit.image) {
        Ok(None) => Ok(Audited {
            audit: Audit::Confirmed,
            failed: None,
        }),
        Ok(Some(part)) => Ok(Audited {
            audit: Audit::Unconfirmed,
            failed: Some(part),
        }),
        Err(error) => Err(error),
    }
}

// Writes which part of a unit fails.
fn write_failed<E: Write>(
    name: &[u8],
    source: &[u8],
    failed: &FailedPart,
    explanations: &mut E,
) -> io::Result<()> {
    explanations.write_all(b"cclib: ")?;
    explanations.write_all(name)?;
    match failed {
        FailedPart::Text(fault) => writeln!(
            explanations,
            ": the source is not a program's: fault {}",
            fault.number()
        )?,
        FailedPart::Function { at, length } => {
            explanations.write_all(b": the certificate does not show the code of ")?;
            explanations.write_all(
                source
                    .get(*at..at.saturating_add(*length))
                    .unwrap_or(b"a function"),
            )?;
            explanations.write_all(
                b": it was compiled in the other mode (with --checked, or without), another version made it, or it is damaged\n",
            )?;
        }
        FailedPart::Certificate => explanations.write_all(
            b": the certificate has another number of functions, or bytes that are left over\n",
        )?,
        FailedPart::Image => explanations.write_all(
            b": the image is not what this version makes: it was compiled in the other mode (with --checked, or without), another version made it, or it is damaged\n",
        )?,
    }
    explanations.flush()
}

/// Writes which part of the unit under a name fails, if an audit found one. If this can't be written, it is left out.
pub(crate) fn explain_audit<E: Write>(
    name: &[u8],
    found: &Found,
    audited: &Audited,
    explanations: &mut E,
) {
    if let Some(failed) = &audited.failed {
        let source = found.unit().stored().source.bytes();
        let _ = write_failed(name, source, failed, explanations);
    }
}
