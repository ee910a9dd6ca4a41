// Opening a disk: what its records represent, and the state from which a run goes on.

ghost use Rattle.std.specs.Prelude.{◌≡◌, ◌^◌, ◌≤◌, true, IfOk, IfErr, MatchResult, length};
ghost use Rattle.cc_disk.specs.Model.{bytes_of, IsImage};
ghost use Rattle.cc_disk.specs.Images.{AddsNone};
ghost use Rattle.cc_journal.specs.Format.{records, room_of};
ghost use Rattle.cc_library.specs.Answers.{OpenFaults};
ghost use Rattle.cc_core.specs.Run.{IsOrderOf};
ghost use Rattle.cc_core.specs.internal.Opening.{IsFound, IsOpenedAt};

use crate::command::Numbered;
use crate::sequence::Sequence;
use crate::sequence_number::SequenceNumber;
use crate::store::Store;
use cc_disk::MemoryDisk;
use cc_journal::{Body, Journal};
use cc_library::{LibraryFault, UnitMap, read_command, replay};
use std::alloc::{AllocError, Global};

/// A disk that was opened: its journal, the map that its records represent, and how many bytes of the area they take.
#[derive(Drop)]
pub(crate) struct Found {
    pub journal: Journal<MemoryDisk>,
    pub library: UnitMap,
    pub used: usize,
}

/// The beginning of a run on an opened disk: the disk, settled; the map that its records represent; the commands of these records, numbered
/// from 0 on and all acknowledged; and the number of the next Begin.
#[derive(Drop)]
pub(crate) struct Opened {
    pub store: Store,
    pub library: UnitMap,
    pub order: Sequence<Numbered>,
    pub acknowledged: Sequence<Numbered>,
    pub upcoming: SequenceNumber,
}

/// Opens the journal of a disk, and carries out the commands of its records in order. Refuses for the same reasons as opening a library
/// does, and then hands the disk back.
pub(crate) fn find(alloc: Global, disk: MemoryDisk) -> Result<Found, (LibraryFault, MemoryDisk)>
    ensures answer { IfOk result (λ found.
        IsFound (bytes_of disk.cells) found.journal.area found.journal.bodies found.library found.used) }
    ensures refused { IfErr result (λ e. OpenFaults true (bytes_of disk.cells) 0 0 e.0) }
    ensures bytes { MatchResult result
        (λ found. bytes_of found.journal.disk.cells ≡ bytes_of disk.cells)
        (λ e. bytes_of e.1.cells ≡ bytes_of disk.cells) }
    ensures adds_none { MatchResult result
        (λ found. AddsNone (IsImage disk.cells) (IsImage found.journal.disk.cells))
        (λ e. AddsNone (IsImage disk.cells) (IsImage e.1.cells)) }
{
    let journal = match Journal::open(alloc, disk) {
        Ok(journal) => journal,
        Err((fault, disk)) => return Err((LibraryFault::from(fault), disk)),
    };
    match replay(alloc, journal.records()) {
        Ok(library) => {
            let used = bytes_taken(journal.records());
            Ok(Found {
                journal,
                library,
                used,
            })
        }
        Err(fault) => Err((fault, journal.into_disk())),
    }
}

// The number of bytes that these records take.
fn bytes_taken(bodies: &[Body]) -> usize
    requires { room_of bodies.now ≤ 2 ^ 30 }
    ensures { result ≡ length (records bodies.now) }
{
    let mut taken = 0;
    for body in bodies {
        taken += body.as_slice().len() + 5;
    }
    taken
}

// A copy of the commands.
fn again(alloc: Global, order: &[Numbered]) -> Result<Sequence<Numbered>, AllocError>
    ensures { IfOk result (λ copy. copy ≡ order.now) }
{
    let mut copy = Sequence::new(Vec::new(alloc));
    for numbered in order {
        copy.push(numbered.again()?)?;
    }
    Ok(copy)
}

// The commands that these records spell, numbered from 0 on; a copy of them, as the acknowledged ones; and the number after that of the
// last. If each record spells a command, the only refusal is out of memory.
fn read_order(
    alloc: Global,
    bodies: &[Body],
) -> Result<(Sequence<Numbered>, Sequence<Numbered>, SequenceNumber), AllocError>
    ensures order { IfOk result (λ read. IsOrderOf bodies.now read.0 read.2) }
    ensures acknowledged { IfOk result (λ read. read.1 ≡ read.0) }
{
    let mut order = Sequence::new(Vec::new(alloc));
    let mut upcoming = SequenceNumber::first();
    for body in bodies {
        let Ok(command) = read_command(alloc, body.as_slice()) else {
            return Err(AllocError);
        };
        order.push(Numbered {
            number: upcoming.same(),
            command,
        })?;
        upcoming = upcoming.next();
    }
    let acknowledged = again(alloc, order.as_slice())?;
    Ok((order, acknowledged, upcoming))
}

/// Opens a disk as the beginning of a run. Refuses for the same reasons as opening a library does, and then hands the disk back.
pub(crate) fn open(alloc: Global, disk: MemoryDisk) -> Result<Opened, (LibraryFault, MemoryDisk)>
    ensures answer { IfOk result (λ opened. IsOpenedAt (bytes_of disk.cells) opened) }
    ensures refused { IfErr result (λ e. OpenFaults true (bytes_of disk.cells) 0 0 e.0) }
    ensures hands_back { IfErr result (λ e. bytes_of e.1.cells ≡ bytes_of disk.cells) }
    ensures adds_none { IfErr result (λ e. AddsNone (IsImage disk.cells) (IsImage e.1.cells)) }
{
    let Found {
        journal,
        library,
        used,
    } = match find(alloc, disk) {
        Ok(found) => found,
        Err(refused) => return Err(refused),
    };
    // The records have been replayed, so each spells a command.
    match read_order(alloc, journal.records()) {
        Ok((order, acknowledged, upcoming)) => Ok(Opened {
            store: Store::of_disk(journal.into_disk(), used),
            library,
            order,
            acknowledged,
            upcoming,
        }),
        Err(_) => {
            drop(library);
            Err((LibraryFault::OutOfMemory, journal.into_disk()))
        }
    }
}
