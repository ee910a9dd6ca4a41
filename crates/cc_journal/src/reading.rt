// Reads a journal from a disk that may have arbitrary bytes.

ghost use Rattle.std.specs.Prelude.{IfSome, IsNone, IsErrOf, ◌↔◌, ◌≡◌, ◌≢◌, ◌⊎◌, ◌+◌, ◌*◌, ◌^◌, ◌<◌, ◌≤◌, ◌++◌, [], ◌∷◌, List, ℕ, false, IsTrue, length, take, drop, IfOk, IfErr, MatchResult, OnOk, OnErr, is_ok, if◌then◌else◌};
ghost use Rattle.std.specs.Int.{w32, to_le_bytes, from_le_bytes};
ghost use Rattle.cc_disk.specs.Images.{LeavesAlone, OnlyReads};
ghost use Rattle.cc_journal.specs.Format.{header, records, room_of, HasHeader, IsArea};
ghost use Rattle.cc_journal.specs.Journal.{IsKept};
ghost use Rattle.cc_journal.specs.Answers.{OpenFaults};
ghost use Rattle.cc_journal.specs.internal.Reading.{BeginsWith, EndsClosed, FindsRecord, IsReadingFault, Shows, counted};

use crate::body::Body;
use crate::commit::OPEN;
use crate::fault::JournalFault;
use crate::window::Window;
use cc_disk::{Disk, DiskFault};
use std::alloc::Global;

/// The smallest and the largest size of an area, in bytes.
pub const LEAST_AREA: usize = 64;

pub const LARGEST_AREA: usize = 1 << 30;

/// The number of bytes of the header, which comes before the two areas.
pub const HEADER: usize = 16;

/// The records that a disk holds, and their places.
#[derive(Drop)]
pub struct Found {
    pub bodies: Vec<Body>,
    // The offset of the area, its size, and how many of its bytes the records take.
    pub start: usize,
    pub area: usize,
    pub used: usize,
}

/// Syncs the disk and reads its records.
pub fn find_records<D: Disk>(alloc: Global, disk: &mut D) -> Result<Found, JournalFault>
    ensures size { D.size disk.new ≡ D.size disk.old }
    ensures reads { IsTrue D.honest → OnlyReads D.seen D.may_leave D.moment D.left_since disk.old disk.new }
    ensures kept { IfOk result (λ f. IsKept D.honest (D.size disk.new) (D.seen disk.new) (D.may_leave disk.new) f.start f.area f.used f.bodies.items false) }
    ensures small { D.size disk.old < 144 → IfErr result (λ fault. (fault ≡ JournalFault.DiskFault) ⊎ (fault ≡ JournalFault.NotALibrary)) }
    ensures sound { OnOk result (D.failures disk.new ≡ D.failures disk.old) }
    ensures faults { IfErr result (λ fault. OpenFaults D.honest (D.seen disk.old) (D.failures disk.old) (D.failures disk.new) fault) }
{
    // What earlier calls left unsettled is synced first, so that a crash leaves the records that are read.
    disk.sync()?;
    let Some((start, area)) = read_header(disk)? else {
        return Err(JournalFault::NotALibrary);
    };
    let (bodies, used) = read_records(alloc, disk, start, area)?;
    Ok(Found {
        bodies,
        start,
        area,
        used,
    })
}

// The offset of the area in use and the size of an area, if there is a valid header.
fn read_header<D: Disk>(disk: &mut D) -> Result<Option<(usize, usize)>, DiskFault>
    ensures size { D.size disk.new ≡ D.size disk.old }
    ensures failures { D.failures disk.new ≡ (if is_ok result then D.failures disk.old else D.failures disk.old + 1) }
    ensures reads { IsTrue D.honest → OnlyReads D.seen D.may_leave D.moment D.left_since disk.old disk.new }
    ensures right { IfOk result (λ found. IfSome found (λ at. IsArea (D.size disk.old) at.1 × (at.0 ≤ 16 + at.1)
        × (IsTrue D.honest → BeginsWith (D.seen disk.old) at.0 at.1))) }
    ensures wrong { IfOk result (λ found. IsNone found → IsTrue D.honest → (area : ℕ) → HasHeader (D.seen disk.old) area → ⊥) }
{
    let size = disk.size();
    if size < HEADER {
        return Ok(None);
    }
    let mut bytes = [0u8; 16];
    // Only the header says where the records are.
    disk.read_at(0, &mut bytes)?;
    Ok(parse_header(&bytes, size))
}

// The header of a journal, empty or not: area byte, name, area size, zeros.
pub fn header_bytes(area_byte: u8, area: u32) -> [u8; 16]
    ensures { result ≡ header area_byte area }
{
    let [a, b, c, d] = area.to_le_bytes();
    [
        area_byte, b'C', b'C', b'L', b'I', b'B', b'0', b'1', a, b, c, d, 0, 0, 0, 0,
    ]
}

// Whether `area` is within its limits, and a disk of `size` bytes has room for two such areas.
pub fn is_area(size: usize, area: usize) -> bool
    ensures { IsTrue result ↔ IsArea size area }
{
    LEAST_AREA <= area && area <= LARGEST_AREA && HEADER + 2 * area <= size
}

// The offset of the area in use and the size of an area, if these first 16 bytes of a disk of `size` bytes
// are a valid header.
fn parse_header(bytes: &[u8; 16], size: usize) -> Option<(usize, usize)>
    ensures right { IfSome result (λ at. IsArea size at.1 × (at.0 ≤ 16 + at.1) × BeginsWith bytes.now at.0 at.1) }
    ensures wrong { IsNone result → (area_byte area : ℕ) → bytes.now ≡ header area_byte area → IsArea size area → ⊥ }
{
    let area_byte = bytes[0];
    let area = u32::from_le_bytes([bytes[8], bytes[9], bytes[10], bytes[11]]);
    let wanted = header_bytes(area_byte, area);
    if bytes.as_slice() != wanted.as_slice() {
        return None;
    }
    let area = area as usize;
    if !is_area(size, area) {
        return None;
    }
    let start = if area_byte % 2 == 0 {
        HEADER
    } else {
        HEADER + area
    };
    Some((start, area))
}

// The records in the area of `area` bytes that begins at `start`, and how many bytes they take.
#[tactic(auto, using(crate::proofs::Ahead::shows_none))]
fn read_records<D: Disk>(
    alloc: Global,
    disk: &mut D,
    start: usize,
    area: usize,
) -> Result<(Vec<Body>, usize), JournalFault>
    requires begins { start ≤ 16 + area }
    requires is_area { IsArea (D.size disk.old) area }
    ensures size { D.size disk.new ≡ D.size disk.old }
    ensures reads { IsTrue D.honest → OnlyReads D.seen D.may_leave D.moment D.left_since disk.old disk.new }
    ensures failures { D.failures disk.new ≡ counted result (D.failures disk.old) }
    ensures room { IfOk result (λ found. (found.1 ≡ length (records found.0.items)) × (found.1 + 1 ≤ area)) }
    ensures records { IfOk result (λ found. IsTrue D.honest → EndsClosed (drop start (D.seen disk.old)) found.0.items) }
    ensures damaged { IsErrOf result JournalFault.Damaged → IsTrue D.honest
        → (bodies : List (List ℕ)) → EndsClosed (drop start (D.seen disk.old)) bodies → room_of bodies ≤ area → ⊥ }
    ensures others { IfErr result IsReadingFault }
{
    let mut bodies = Vec::new(alloc);
    let mut used = 0;
    let mut window = Window::new(alloc);
    while let Some(body) = read_record(alloc, disk, &mut window, start + used, area - used)? {
        used += body.as_slice().len() + 5;
        bodies.push(body)?;
    }
    Ok((bodies, used))
}

// The number that these four bytes spell, the lowest first.
fn length_of(bytes: &[u8; 4]) -> u32
    ensures value { result ≡ from_le_bytes w32 bytes.now }
    ensures bytes { to_le_bytes w32 result ≡ bytes.now }
{
    u32::from_le_bytes([bytes[0], bytes[1], bytes[2], bytes[3]])
}

// The record at this offset, if its gate is open; the area has `left` bytes from there on.
fn read_record<D: Disk>(
    alloc: Global,
    disk: &mut D,
    window: &mut Window,
    offset: usize,
    left: usize,
) -> Result<Option<Body>, JournalFault>
    requires some { 0 < left }
    requires on_disk { offset + left ≤ D.size disk.old }
    requires addressed { offset + left < 2 ^ 64 }
    requires shown { IsTrue D.honest → Shows window.old.offset window.old.bytes.items (D.seen disk.old) }
    ensures size { D.size disk.new ≡ D.size disk.old }
    ensures reads { IsTrue D.honest → OnlyReads D.seen D.may_leave D.moment D.left_since disk.old disk.new }
    ensures failures { D.failures disk.new ≡ counted result (D.failures disk.old) }
    ensures shown { OnOk result (IsTrue D.honest → Shows window.new.offset window.new.bytes.items (D.seen disk.old)) }
    ensures fits { IfOk result (λ found. IfSome found (λ body. length body + 6 ≤ left)) }
    ensures finds { IsTrue D.honest → FindsRecord (drop offset (D.seen disk.old)) left result }
    ensures others { IfErr result IsReadingFault }
{
    window.look(disk, offset, offset + left, left.min(5))?;
    let prefix = window.from(offset);
    // A closed gate ends the records, whatever comes after it.
    if prefix[0] != OPEN {
        return Ok(None);
    }
    if left < 6 {
        return Err(JournalFault::Damaged);
    }
    // The length says how far the record goes.
    let length = length_of(&[prefix[1], prefix[2], prefix[3], prefix[4]]) as usize;
    if left - 6 < length {
        return Err(JournalFault::Damaged);
    }
    // The body has as many bytes as the length says, all of them within the area.
    let bytes = window.read(alloc, disk, offset + 5, length)?;
    Ok(Some(Body::new(bytes)))
}
