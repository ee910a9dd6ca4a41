// In which modes an audit confirms a unit.

ghost use Rattle.std.specs.Prelude.{IfOk};
ghost use Rattle.cc_packing.specs.Modes.{AreModesOf, SaysAs, SaysIn};

use cc_c_semantics::Mode;
use cc_link::{Audit, failed_part_in};
use cc_pack::ConfirmedIn;
use cc_unit::StoredUnit;
use std::alloc::{AllocError, Global};

/// What an audit in a mode says about a unit. Nothing is assumed about the unit, whoever made it. Err: memory ran out.
pub fn audit_unit(alloc: Global, mode: Mode, unit: &StoredUnit) -> Result<Audit, AllocError>
    ensures { IfOk result (SaysIn mode unit.now) }
{
    let Some(certificate) = &unit.certificate else {
        return Ok(Audit::NoCertificate);
    };
    let certificate = certificate.bytes();
    match failed_part_in(alloc, mode, unit.source.bytes(), certificate, &unit.image)? {
        None => Ok(Audit::Confirmed),
        Some(_) => Ok(Audit::Unconfirmed),
    }
}

/// The modes in which an audit confirms a unit. Err: memory ran out.
pub fn modes_of(alloc: Global, unit: &StoredUnit) -> Result<ConfirmedIn, AllocError>
    ensures { IfOk result (AreModesOf unit.now) }
{
    let plain = audit_unit(alloc, Mode::Plain, unit)?;
    let checked = audit_unit(alloc, Mode::Checked, unit)?;
    Ok(match plain {
        Audit::Confirmed => match checked {
            Audit::Confirmed => ConfirmedIn::Both,
            Audit::NoCertificate | Audit::Unconfirmed => ConfirmedIn::Plain,
        },
        Audit::NoCertificate | Audit::Unconfirmed => match checked {
            Audit::Confirmed => ConfirmedIn::Checked,
            Audit::NoCertificate | Audit::Unconfirmed => ConfirmedIn::Neither,
        },
    })
}

/// What an audit says about a unit in each of these modes: `Confirmed` only if the audit confirms the unit in all of them, and there
/// is one. Err: memory ran out.
pub fn audit_as(alloc: Global, modes: ConfirmedIn, unit: &StoredUnit) -> Result<Audit, AllocError>
    ensures { IfOk result (SaysAs modes unit.now) }
{
    match modes {
        ConfirmedIn::Plain => audit_unit(alloc, Mode::Plain, unit),
        ConfirmedIn::Checked => audit_unit(alloc, Mode::Checked, unit),
        ConfirmedIn::Both => match audit_unit(alloc, Mode::Plain, unit)? {
            Audit::Confirmed => audit_unit(alloc, Mode::Checked, unit),
            audit => Ok(audit),
        },
        ConfirmedIn::Neither => match &unit.certificate {
            Some(_) => Ok(Audit::Unconfirmed),
            None => Ok(Audit::NoCertificate),
        },
    }
}
