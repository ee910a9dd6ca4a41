// The map that the records of a journal represent.

ghost use Rattle.std.specs.Prelude.{IfOk, IfErr};
ghost use Rattle.cc_library.specs.Recovered.{StandFor};
ghost use Rattle.cc_library.specs.Answers.{ReplayFaults};
ghost use Rattle.cc_library.specs.internal.Steps.{ReplaysBody};

use crate::fault::LibraryFault;
use crate::reading::{ReadFault, read_command};
use crate::units::UnitMap;
use cc_journal::Body;
use std::alloc::Global;

/// The map that records with these bodies, the oldest first, represent.
///
/// 37 exactly if they represent no map: some body does not spell a command, or the map so far refuses the command. 40 if
/// memory ran out.
pub fn replay(alloc: Global, bodies: &[Body]) -> Result<UnitMap, LibraryFault>
    ensures answer { IfOk result (λ units. StandFor bodies.now units) }
    ensures refused { IfErr result (λ fault. ReplayFaults bodies.now fault) }
{
    let mut units = UnitMap::new(alloc);
    for body in bodies {
        units = replay_body(alloc, units, body)?;
    }
    Ok(units)
}

// The map after the command of one more record.
fn replay_body(alloc: Global, mut units: UnitMap, body: &Body) -> Result<UnitMap, LibraryFault>
    ensures { ReplaysBody units body.now result }
{
    let command = match read_command(alloc, body.as_slice()) {
        Ok(command) => command,
        Err(ReadFault::NoCommand) => return Err(LibraryFault::Damaged),
        Err(ReadFault::OutOfMemory) => return Err(LibraryFault::OutOfMemory),
    };
    // A single search both asks the map and changes it.
    match units.accept(command) {
        Ok(true) => Ok(units),
        Ok(false) => Err(LibraryFault::Damaged),
        Err(_) => Err(LibraryFault::OutOfMemory),
    }
}
