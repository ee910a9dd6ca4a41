// The differences between the libraries on two disks.

ghost use Rattle.std.specs.Prelude.{IsTrue, IfOk, IfErr};
ghost use Rattle.cc_disk.specs.Images.{OnlyReads};
ghost use Rattle.cc_diff.specs.Diff.{DiffFaults, IsDiffOn};

use crate::difference::DiffLine;
use crate::maps::diff_maps;
use cc_disk::Disk;
use cc_library::{Library, LibraryFault};
use std::alloc::Global;
use thiserror::Error;

/// Why two libraries were not compared.
#[derive(Clone, Copy, Debug, Drop, Error)]
pub enum DiffFault {
    /// 35, 37, 38, 40: the left library could not be opened.
    #[error(transparent)]
    Left(LibraryFault),
    /// 35, 37, 38, 40: the right library could not be opened.
    #[error(transparent)]
    Right(LibraryFault),
    /// 40: memory ran out.
    #[error("OutOfMemory")]
    OutOfMemory,
}

impl DiffFault {
    ghost use Rattle.std.specs.Prelude.{◌≡◌};
    ghost use Rattle.cc_diff.specs.Diff.{fault_number};

    /// The fault's number.
    pub fn number(&self) -> u32
        ensures { result ≡ fault_number self.now }
    {
        match self {
            DiffFault::Left(fault) | DiffFault::Right(fault) => fault.number(),
            DiffFault::OutOfMemory => 40,
        }
    }
}

/// The differences between the libraries on two disks, as `diff_maps` returns them. The disks are handed back, and nothing is written
/// to them.
///
/// Refusals: those of `Library::open` on the left disk, 35, 38, 37 and 40, then on the right one; then 40.
pub fn diff_disks<D: Disk + Drop>(
    alloc: Global,
    left: D,
    right: D,
) -> (Result<Vec<DiffLine>, DiffFault>, (D, D))
    // The lines are the differences between two maps. On an honest kind of disk these are the maps to which the disks recover.
    ensures lines { IfOk result.0 (λ lines. IsDiffOn D.honest (D.seen left) (D.seen right) lines.items) }
    ensures refused { IfErr result.0 (λ fault. DiffFaults D.honest (D.seen left) (D.seen right)
        (D.failures left) (D.failures result.1.0) (D.failures right) (D.failures result.1.1) fault) }
    ensures reads_left { IsTrue D.honest → OnlyReads D.seen D.may_leave D.moment D.left_since left result.1.0 }
    ensures reads_right { IsTrue D.honest → OnlyReads D.seen D.may_leave D.moment D.left_since right result.1.1 }
{
    match Library::open(alloc, left) {
        Ok(left) => match Library::open(alloc, right) {
            Ok(right) => {
                let lines = match diff_maps(alloc, left.units(), right.units()) {
                    Ok(lines) => Ok(lines),
                    Err(_) => Err(DiffFault::OutOfMemory),
                };
                (lines, (left.into_disk(), right.into_disk()))
            }
            Err((fault, right)) => (Err(DiffFault::Right(fault)), (left.into_disk(), right)),
        },
        Err((fault, left)) => (Err(DiffFault::Left(fault)), (left, right)),
    }
}
