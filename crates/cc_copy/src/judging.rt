// Which units an audit confirms.

ghost use Rattle.std.specs.Prelude.{◌≡◌, ◌++◌, IsTrue, All, IfOk, OnOk};
ghost use Rattle.std.specs.FinMap as map;
ghost use Rattle.cc_link.specs.Audit.{AuditSays};
ghost use Rattle.cc_copy.specs.Choice.{IsConfirmed, if_confirmed, if_left_out};
ghost use Rattle.cc_copy.specs.internal.Judged.{IsJudged};

use crate::choosing::choose;
use cc_library::{Name, UnitMap};
use cc_link::{Audit, audit};
use cc_unit::StoredUnit;
use std::alloc::{AllocError, Global};
use std::io::Write;

/// A unit that is left out, and the audit's result for it.
#[derive(Drop)]
pub struct LeftOut {
    pub name: Name,
    pub audit: Audit,
}

/// The units that an audit confirms, and the others.
#[derive(Drop)]
pub struct Selection {
    pub units: UnitMap,
    pub left_out: Vec<LeftOut>,
}

// The names of the units that an audit confirms, and the others.
#[derive(Drop)]
struct Judged {
    confirmed: Vec<Name>,
    left_out: Vec<LeftOut>,
}

// The result of an audit of a unit. Err: memory ran out.
fn audit_of(alloc: Global, unit: &StoredUnit) -> Result<Audit, AllocError>
    ensures { IfOk result (λ audit. AuditSays unit.now.source unit.now.certificate unit.now.image audit) }
{
    let certificate = match &unit.certificate {
        Some(certificate) => Some(certificate.bytes()),
        None => None,
    };
    audit(alloc, unit.source.bytes(), certificate, &unit.image)
}

// Adds a name to those that are confirmed, or to those that are left out.
fn put(judged: &mut Judged, name: &Name, audit: Audit) -> Result<(), AllocError>
    ensures confirmed { OnOk result (judged.new.confirmed.items ≡ judged.old.confirmed.items ++ if_confirmed name.now audit) }
    ensures left_out { OnOk result (judged.new.left_out.items ≡ judged.old.left_out.items ++ if_left_out name.now audit) }
{
    let name = name.clone()?;
    match audit {
        Audit::Confirmed => judged.confirmed.push(name)?,
        Audit::NoCertificate | Audit::Unconfirmed => judged.left_out.push(LeftOut { name, audit })?,
    }
    Ok(())
}

// Audits the units with these names, in the order of the names. Each name has a unit. A newline goes to `seen` for each unit.
fn judge<S: Write>(
    alloc: Global,
    units: &UnitMap,
    names: &[Name],
    seen: &mut S,
) -> Result<Judged, AllocError>
    requires { All (λ name. IsTrue (map.contains_key units.now name)) names.now }
    ensures { IfOk result (IsJudged units.now names.now) }
{
    let mut judged = Judged {
        confirmed: Vec::new(alloc),
        left_out: Vec::new(alloc),
    };
    for name in names {
        let Some(unit) = units.get(name) else {
            drop(judged);
            return Err(AllocError);
        };
        let audit = audit_of(alloc, unit)?;
        put(&mut judged, name, audit)?;
        let _ = seen.write_all(b"\n");
    }
    Ok(judged)
}

/// The units of a map that an audit confirms, and those that are left out, in the order of their names. A newline goes to `seen`
/// for each unit that was audited, so that `seen` can count them. Err: memory ran out.
pub fn confirm<S: Write>(
    alloc: Global,
    units: &UnitMap,
    seen: &mut S,
) -> Result<Selection, AllocError>
    ensures { IfOk result (IsConfirmed units.now) }
{
    let names = units.names(alloc)?;
    let judged = judge(alloc, units, names.as_slice(), seen)?;
    let Judged {
        confirmed,
        left_out,
    } = judged;
    match choose(alloc, units, confirmed.as_slice()) {
        Ok(units) => Ok(Selection { units, left_out }),
        Err(_) => {
            drop(left_out);
            Err(AllocError)
        }
    }
}
