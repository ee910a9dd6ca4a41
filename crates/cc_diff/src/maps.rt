// The differences between two maps.

ghost use Rattle.std.specs.Prelude.{◌≡◌, ◌↔◌, [], true, IfOk, OnOk};
ghost use Rattle.std.specs.FinMap as map;
ghost use Rattle.cc_diff.specs.internal.Names.{HasNameToo};
ghost use Rattle.cc_diff.specs.Diff.{HasNamesOf, IsDiff};

use crate::difference::{DiffLine, push_lines};
use cc_library::{Name, UnitMap};
use std::alloc::{AllocError, Global};

// Adds the unit that the other map has with this name, if the map has no unit with the name.
#[tactic(auto, using(crate::proofs::Names::added_on))]
fn add_name(both: &mut UnitMap, other: &UnitMap, name: &Name) -> Result<(), AllocError>
    requires { map.contains_key other.now name.now ≡ true }
    ensures { OnOk result (HasNameToo both.old name.now both.new) }
{
    match other.get(name) {
        Some(unit) => both.add(name, unit),
        None => Ok(()),
    }
}

// A map with the names of both maps.
fn with_names_of(alloc: Global, left: &UnitMap, right: &UnitMap) -> Result<UnitMap, AllocError>
    ensures { IfOk result (HasNamesOf left.now right.now) }
{
    let mut both = left.again()?;
    let names = right.names(alloc)?;
    for name in &names {
        add_name(&mut both, right, name)?;
    }
    Ok(both)
}

/// The differences between two maps: by name, in the order of the names' bytes. Fails with `AllocError` if
/// memory runs out.
pub fn diff_maps(
    alloc: Global,
    left: &UnitMap,
    right: &UnitMap,
) -> Result<Vec<DiffLine>, AllocError>
    ensures lines { IfOk result (λ lines. IsDiff left.now right.now lines.items) }
    // There are no differences exactly if the two maps are the same.
    ensures equal { IfOk result (λ lines. (lines.items ≡ []) ↔ (left.now ≡ right.now)) }
{
    let both = with_names_of(alloc, left, right)?;
    let names = both.names(alloc)?;
    let mut lines = Vec::new(alloc);
    for name in &names {
        push_lines(&mut lines, name, left.get(name), right.get(name))?;
    }
    Ok(lines)
}
