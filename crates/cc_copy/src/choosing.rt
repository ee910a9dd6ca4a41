// Which units are copied.

ghost use Rattle.std.specs.Prelude.{IfOk, IfErr};
ghost use Rattle.cc_copy.specs.Choice.{IsChosen, IsNotChosen};

use cc_library::{Name, UnitMap};
use std::alloc::Global;

/// Why no units were chosen.
#[derive(Clone, Copy, Debug, Drop)]
pub enum ChooseFault {
    /// 32: the name with this index has no unit, and each name before it has one.
    Absent(usize),
    /// 40: memory ran out.
    OutOfMemory,
}

/// The units with these names in a map; each name must have one.
///
/// Refusals: 32, with the index of the first name that has no unit; 40 if memory ran out.
pub fn choose(alloc: Global, units: &UnitMap, names: &[Name]) -> Result<UnitMap, ChooseFault>
    ensures chosen { IfOk result (IsChosen units.now names.now) }
    ensures refused { IfErr result (IsNotChosen units.now names.now) }
{
    let mut chosen = UnitMap::new(alloc);
    for i in 0..names.len() {
        let name = &names[i];
        let Some(unit) = units.get(name) else {
            drop(chosen);
            return Err(ChooseFault::Absent(i));
        };
        match chosen.add(name, unit) {
            Ok(()) => {}
            Err(_) => {
                drop(chosen);
                return Err(ChooseFault::OutOfMemory);
            }
        }
    }
    Ok(chosen)
}
