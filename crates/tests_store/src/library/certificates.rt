// Bodies of both versions on a disk: files that were written before there were certificates, and units with a certificate.

use crate::journal::helpers::{are_bodies, opened as opened_journal};
use crate::library::helpers::{formatted, has_certificate, name, number, opened, refusal, unit};
use cc_disk::MemoryDisk;
use cc_library::Library;
use cc_unit::{Certificate, StoredUnit};
use std::alloc::Global;
use std::sync::Arc;
use std::test::Fail;
use tests_texts::verdict::row_passes;

// An Add of `a` with the source `int main(void){}` and one code word 0, as it is written: without a certificate, with a certificate
// of no bytes, and with one of two bytes.
const NONE: &[u8] =
    b"\x01\x01\x01a\x10\x00\x00\x00int main(void){}\x01\x00\x00\x00\x00\x00\x00\x00\x00\x00\x00\x00";

const EMPTY: &[u8] =
    b"\x02\x01\x01a\x10\x00\x00\x00int main(void){}\x01\x00\x00\x00\x00\x00\x00\x00\x00\x00\x00\x00\x00\x00\x00\x00";

const TWO: &[u8] =
    b"\x02\x01\x01a\x10\x00\x00\x00int main(void){}\x01\x00\x00\x00\x00\x00\x00\x00\x00\x00\x00\x00\x02\x00\x00\x00hi";

// A Withdraw of `a` of version 1.
const WITHDRAW: &[u8] = b"\x01\x03\x01a";

// A disk with areas of 256 bytes and these records.
fn disk_with(alloc: Global, bodies: &[&[u8]]) -> Result<MemoryDisk, Fail> {
    let mut journal = opened_journal(alloc, formatted(alloc, 256)?)?;
    for body in bodies {
        journal.append(alloc, body)?;
    }
    Ok(journal.into_disk())
}

// Whether the disk has these records.
fn has_records(alloc: Global, disk: MemoryDisk, bodies: &[&[u8]]) -> Result<bool, Fail> {
    let journal = opened_journal(alloc, disk)?;
    Ok(are_bodies(journal.records(), bodies))
}

// What a library has under `a`: no unit, or a unit with that certificate or without one.
#[derive(Clone, Copy)]
enum Found {
    Nothing,
    Unit(Option<&'static [u8]>),
}

fn has(library: &Library<MemoryDisk>, wanted: Found) -> Result<bool, Fail> {
    Ok(match (library.get(&name(b'a')?), wanted) {
        (None, Found::Nothing) => true,
        (Some(unit), Found::Unit(certificate)) => has_certificate(unit, certificate),
        _ => false,
    })
}

// What is done to a library.
#[derive(Clone, Copy)]
enum Step {
    Nothing,
    Compact,
    Withdraw,
}

// The records of a disk, what its library has, a step, what it then has, and its records after that.
type Row = (
    &'static [&'static [u8]],
    Found,
    Step,
    Found,
    &'static [&'static [u8]],
);

static ROWS: [Row; 6] = [
    // `compact` keeps each certificate
    (
        &[NONE],
        Found::Unit(None),
        Step::Compact,
        Found::Unit(None),
        &[NONE],
    ),
    (
        &[EMPTY],
        Found::Unit(Some(b"")),
        Step::Compact,
        Found::Unit(Some(b"")),
        &[EMPTY],
    ),
    (
        &[TWO],
        Found::Unit(Some(b"hi")),
        Step::Compact,
        Found::Unit(Some(b"hi")),
        &[TWO],
    ),
    // files of version 1 open, and are continued in version 2
    (
        &[NONE, WITHDRAW, NONE],
        Found::Unit(None),
        Step::Nothing,
        Found::Unit(None),
        &[NONE, WITHDRAW, NONE],
    ),
    (
        &[NONE, WITHDRAW],
        Found::Nothing,
        Step::Nothing,
        Found::Nothing,
        &[NONE, WITHDRAW],
    ),
    (
        &[NONE],
        Found::Unit(None),
        Step::Withdraw,
        Found::Nothing,
        &[NONE, b"\x02\x03\x01a"],
    ),
];

// The disk after a step, if its library had what it should before that.
fn stepped(alloc: Global, row: &Row) -> Result<Option<MemoryDisk>, Fail> {
    let mut library = opened(alloc, disk_with(alloc, row.0)?)?;
    if !has(&library, row.1)? {
        return Ok(None);
    }
    match row.2 {
        Step::Nothing => {}
        Step::Compact => library.compact(alloc)?,
        Step::Withdraw => library.withdraw(alloc, name(b'a')?)?,
    }
    Ok(Some(library.into_disk()))
}

fn is_right(alloc: Global, row: &Row) -> Result<bool, Fail> {
    let Some(disk) = stepped(alloc, row)? else {
        return Ok(false);
    };
    let library = opened(alloc, disk)?;
    Ok(has(&library, row.3)? && has_records(alloc, library.into_disk(), row.4)?)
}

// The bytes of a body with another version.
fn of_version(alloc: Global, version: u8, body: &[u8]) -> Result<Vec<u8>, Fail> {
    let mut bytes = vec![in alloc; version; 1]?;
    for byte in body.iter().skip(1) {
        bytes.push(*byte)?;
    }
    Ok(bytes)
}

// Version 2 without its last field, and with a certificate that ends early; version 1 with a certificate; a number that is no
// version.
static NO_COMMANDS: [(u8, &[u8], usize); 4] = [
    (2, NONE, 36),
    (2, TWO, 41),
    (1, EMPTY, 40),
    (3, TWO, 42),
];

fn is_refused(alloc: Global, row: &(u8, &[u8], usize)) -> Result<bool, Fail> {
    let mut body = of_version(alloc, row.0, row.1)?;
    body.truncate(row.2);
    Ok(refusal(alloc, disk_with(alloc, &[&body])?) == 37)
}

// The unit of one word with a certificate of this many bytes.
fn certified(alloc: Global, count: usize) -> Result<Arc<StoredUnit>, Fail> {
    let bytes = vec![in alloc; 7u8; count]?;
    let mut stored = unit(alloc, b"int main(void){}".as_slice(), 0)?;
    stored.certificate = Some(Certificate::new(bytes));
    Ok(Arc::new(alloc, stored)?)
}

// A record takes 45 bytes and its certificate, and there is the closed gate: 18 bytes are left in an area of 64.
static ROOMS: [(usize, u32); 3] = [(18, 0), (19, 34), (1000, 34)];

// Whether adding `a` with a certificate of this many bytes is answered with this number.
fn is_answered(alloc: Global, row: &(usize, u32)) -> Result<bool, Fail> {
    let unit = certified(alloc, row.0)?;
    let mut library = opened(alloc, formatted(alloc, 64)?)?;
    Ok(number(library.add(alloc, name(b'a')?, unit)) == row.1)
}

#[test]
fn both_versions(rt: HostRuntime) -> Result<(), Fail> {
    for number in 0..ROWS.len() {
        row_passes(number, is_right(rt.alloc(), &ROWS[number]))?;
    }
    for number in 0..NO_COMMANDS.len() {
        row_passes(number, is_refused(rt.alloc(), &NO_COMMANDS[number]))?;
    }
    for number in 0..ROOMS.len() {
        row_passes(number, is_answered(rt.alloc(), &ROOMS[number]))?;
    }
    Ok(())
}
