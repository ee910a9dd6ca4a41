// Reads the commands that a disk's records spell.

ghost use Rattle.std.specs.Prelude.{◌≡◌, IsTrue, IfOk, IfErr, OnOk};
ghost use Rattle.std.specs.FinMap.{empty};
ghost use Rattle.cc_disk.specs.Images.{OnlyReads};
ghost use Rattle.cc_library.specs.Answers.{OpenFaults, ReplayFaults};
ghost use Rattle.cc_library.specs.Apply.{AreAccepted};
ghost use Rattle.cc_library.specs.Recovered.{AreSpelled};
ghost use Rattle.cc_log.specs.Commands.{HasCommands, AreRead};
ghost use Rattle.cc_log.specs.internal.Reading.{IsUnread};

use cc_disk::Disk;
use cc_journal::{Body, Log};
use cc_library::{LibraryCommand, LibraryFault, ReadFault, read_command, replay};
use std::alloc::Global;

// The commands that these bodies spell.
fn spelled(alloc: Global, bodies: &[Body]) -> Result<Vec<LibraryCommand>, LibraryFault>
    ensures commands { IfOk result (λ commands. AreSpelled bodies.now commands.items) }
    ensures refused { IfErr result (λ fault. IsUnread bodies.now fault) }
{
    let mut commands = Vec::new(alloc);
    for body in bodies {
        match read_command(alloc, body.as_slice()) {
            Ok(command) => commands.push(command)?,
            Err(ReadFault::NoCommand) => return Err(LibraryFault::Damaged),
            Err(ReadFault::OutOfMemory) => return Err(LibraryFault::OutOfMemory),
        }
    }
    Ok(commands)
}

// The commands that these bodies spell, if the library accepts them one after another.
fn accepted(alloc: Global, bodies: &[Body]) -> Result<Vec<LibraryCommand>, LibraryFault>
    ensures commands { IfOk result (λ commands. AreRead bodies.now commands.items) }
    ensures refused { IfErr result (λ fault. ReplayFaults bodies.now fault) }
{
    match replay(alloc, bodies) {
        Ok(units) => drop(units),
        Err(fault) => return Err(fault),
    }
    spelled(alloc, bodies)
}

/// The commands whose records are on a disk, the oldest first. Each was accepted by the map that those before it made. The disk
/// is handed back, and nothing is written to it.
///
/// Refusals: those of `Library::open`, which are 35, 38, 37 and 40.
pub fn commands_on<D: Disk + Drop>(
    alloc: Global,
    disk: D,
) -> (Result<Vec<LibraryCommand>, LibraryFault>, D)
    // Each command is accepted by the map that those before it made, whatever kind of disk it is. On an honest disk, the commands are those
    // whose records the disk has.
    ensures accepted { IfOk result.0 (λ commands. AreAccepted empty commands.items) }
    ensures commands { IfOk result.0 (λ commands. IsTrue D.honest → HasCommands (D.seen disk) commands.items) }
    ensures refused { IfErr result.0 (λ fault. OpenFaults D.honest (D.seen disk) (D.failures disk) (D.failures result.1) fault) }
    ensures sound { OnOk result.0 (D.failures result.1 ≡ D.failures disk) }
    ensures reads { IsTrue D.honest → OnlyReads D.seen D.may_leave D.moment D.left_since disk result.1 }
{
    match Log::open(alloc, disk) {
        Ok((log, bodies)) => (accepted(alloc, &bodies), log.into_disk()),
        Err((fault, disk)) => (Err(LibraryFault::from(fault)), disk),
    }
}
