// Disks, names and texts for the tests.

ghost use Rattle.std.specs.Prelude.{◌≡◌, IsTrue, IfOk};
ghost use Rattle.cc_library.specs.Apply.{Units};
ghost use Rattle.cc_library.specs.Recovered.{Recovers};

use cc_disk::{Disk, MemoryDisk};
use cc_journal::format;
use cc_library::{Library, Name, UnitMap};
use std::alloc::{AllocError, Global};
use std::test::Fail;

/// The names, by their places.
pub const NAMES: [&[u8]; 3] = [b"a", b"b", b"c"];

/// Texts of units, by their places.
pub const TEXTS: [&[u8]; 3] = [
    b"int main(void) { return 1; }",
    b"int main(void) { return 22; }",
    b"int three(void) { return 3; } int main(void) { return three(); }",
];

/// The size of an area.
pub const AREA: u32 = 4096;

/// How many bytes a disk has.
pub const SIZE: usize = 16 + 2 * 4096;

/// The bytes at a place, or no bytes.
pub fn bytes_at(table: &[&'static [u8]; 3], place: usize) -> &'static [u8] {
    if place < 3 { table[place] } else { &[] }
}

/// The name at a place.
pub fn name_at(place: usize) -> Result<Name, Fail> {
    match Name::new(bytes_at(&NAMES, place)) {
        Ok(name) => Ok(name),
        Err(_) => Err(Fail::from("no name")),
    }
}

/// A text: its head, then `part` repeated `times` times, and its end.
pub fn repeated(
    alloc: Global,
    head: &[u8],
    part: &[u8],
    times: usize,
    end: &[u8],
) -> Result<Vec<u8>, AllocError> {
    let mut text = Vec::new(alloc);
    text.extend_from_slice(head)?;
    for _ in 0..times {
        text.extend_from_slice(part)?;
    }
    text.extend_from_slice(end)?;
    Ok(text)
}

/// A disk without a record.
pub fn formatted(alloc: Global) -> Result<MemoryDisk, Fail> {
    let mut disk = MemoryDisk::new(alloc, SIZE)?;
    format(&mut disk, AREA)?;
    Ok(disk)
}

/// The library on a disk.
pub fn opened<D: Disk + Drop>(alloc: Global, disk: D) -> Result<Library<D>, Fail>
    ensures { IfOk result (λ l. IsTrue D.honest → (units : Units) → Recovers (D.seen l.disk) units → units ≡ l.units) }
{
    match Library::open(alloc, disk) {
        Ok(library) => Ok(library),
        Err(_) => Err(Fail::from("not opened")),
    }
}

/// The disk, and the map that is recovered from its bytes.
pub fn found<D: Disk + Drop>(alloc: Global, disk: D) -> Result<(D, UnitMap), Fail>
    ensures { IfOk result (λ r. IsTrue D.honest → (units : Units) → Recovers (D.seen r.0) units → units ≡ r.1) }
{
    let library = opened(alloc, disk)?;
    match library.units().again() {
        Ok(base) => Ok((library.into_disk(), base)),
        Err(_) => Err(Fail::from("no memory")),
    }
}
