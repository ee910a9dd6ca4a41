// Making an empty journal on a disk.

ghost use Rattle.std.specs.Prelude.{◌≡◌, ◌+◌, ◌++◌, [], ◌∷◌, List, ℕ, IsTrue, drop, OnOk, IsErrOf};
ghost use Rattle.cc_journal.specs.Format.{header, AllHold};
ghost use Rattle.cc_journal.specs.Answers.{FormatAnswers};

use crate::commit::CLOSED;
use crate::fault::JournalFault;
use crate::reading::{header_bytes, is_area};
use cc_disk::Disk;

/// Makes an empty journal of two areas of `area` bytes, 64 to 1,073,741,824, on the disk: the header with area byte 0, and a
/// closed gate after it. Takes no memory.
///
/// Refusals: 34 if `area` is outside its limits or `16 + 2 * area` bytes do not fit on the disk, and the disk is then as it was
/// before; 35 if the device failed, after which the disk has to be formatted again.
pub fn format<D: Disk>(disk: &mut D, area: u32) -> Result<(), JournalFault>
    ensures answers { FormatAnswers (D.size disk.old) area (D.failures disk.old) (D.failures disk.new) result }
    ensures size { D.size disk.new ≡ D.size disk.old }
    ensures untouched { IsErrOf result JournalFault.Full → disk.new ≡ disk.old }
    ensures bytes { OnOk result (IsTrue D.honest → D.seen disk.new ≡ header 0 area ++ (0 ∷ drop 17 (D.seen disk.old))) }
    ensures kept { OnOk result (IsTrue D.honest → AllHold (D.may_leave disk.new) area []) }
{
    if !is_area(disk.size(), area as usize) {
        return Err(JournalFault::Full);
    }
    let [a, b, c, d, e, f, g, h, i, j, k, l, m, n, o, p] = header_bytes(0, area);
    // The header and the closed gate go out in one write: until the sync, nothing is promised about a disk that is being
    // formatted.
    disk.write_at(0, &[a, b, c, d, e, f, g, h, i, j, k, l, m, n, o, p, CLOSED])?;
    // From here on every crash leaves the empty journal.
    disk.sync()?;
    Ok(())
}
