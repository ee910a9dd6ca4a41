// Names, and the bytes of commands.

use crate::library::helpers::{has_certificate, name, unit};
use cc_library::{
    Kind, LibraryCommand, Name, ReadFault, body_length, body_of_command, command_body, read_command,
};
use std::alloc::Global;
use std::test::Fail;
use tests_texts::verdict::{passes, row_passes};

// The body of Add of `a` with the source `int main(void){}`, one code word 0 and no global words.
const ADD: &[u8] =
    b"\x01\x01\x01a\x10\x00\x00\x00int main(void){}\x01\x00\x00\x00\x00\x00\x00\x00\x00\x00\x00\x00";

// The same in version 2, with a certificate of no bytes.
const CERTIFIED: &[u8] =
    b"\x02\x01\x01a\x10\x00\x00\x00int main(void){}\x01\x00\x00\x00\x00\x00\x00\x00\x00\x00\x00\x00\x00\x00\x00\x00";

// A Replace of `a` without source, with the code word 7 and a certificate of three bytes.
const REPLACE: &[u8] =
    b"\x02\x02\x01a\x00\x00\x00\x00\x01\x00\x00\x00\x07\x00\x00\x00\x00\x00\x00\x00\x03\x00\x00\x00xyz";

// The body of a Withdraw of `a`, as it is written, and in the other form that is read too.
const WITHDRAW: &[u8] = b"\x02\x03\x01a";

const WITHDRAW_1: &[u8] = b"\x01\x03\x01a";

static NAMES: [(&[u8], bool); 9] = [
    (b"a", true),
    (b"a_9", true),
    (&[b'a'; 32], true),
    (b"", false),
    (b"A", false),
    (b"_a", false),
    (b"9", false),
    (b"aB", false),
    (&[b'a'; 33], false),
];

// Whether these bytes are a name, and the name that they make has these bytes.
fn is_name(bytes: &[u8]) -> bool {
    match Name::new(bytes) {
        Ok(name) => name.bytes() == bytes,
        Err(_) => false,
    }
}

// Whether the body of an Add of `a` with that source has these bytes.
fn is_add_body(alloc: Global, wanted: &[u8]) -> Result<bool, Fail> {
    let stored = unit(alloc, b"int main(void){}", 0)?;
    let body = command_body(alloc, Kind::Add, &name(b'a')?, Some(&stored))?;
    Ok(body.as_slice() == wanted)
}

// The certificate of a command's unit, or that the command has no unit.
#[derive(Clone, Copy)]
enum Has {
    NoUnit,
    Certificate(Option<&'static [u8]>),
}

// The bytes of a command, those of its body, and the certificate of its unit.
type Row = (&'static [u8], &'static [u8], Has);

static ROWS: [Row; 5] = [
    (ADD, ADD, Has::Certificate(None)),
    // an empty certificate is not none
    (CERTIFIED, CERTIFIED, Has::Certificate(Some(b""))),
    (REPLACE, REPLACE, Has::Certificate(Some(b"xyz"))),
    (WITHDRAW, WITHDRAW, Has::NoUnit),
    (WITHDRAW_1, WITHDRAW, Has::NoUnit),
];

// Whether a command has such a unit.
fn has_unit(command: &LibraryCommand, wanted: Has) -> bool {
    match (command, wanted) {
        (
            LibraryCommand::Add(_, unit) | LibraryCommand::Replace(_, unit),
            Has::Certificate(bytes),
        ) => has_certificate(unit.stored(), bytes),
        (LibraryCommand::Withdraw(_), Has::NoUnit) => true,
        _ => false,
    }
}

// Whether the command that these bytes spell has such a unit, the wanted body, and a body of as many bytes as these.
fn is_spelled(alloc: Global, row: &Row) -> Result<bool, Fail> {
    let (bytes, wanted, has) = *row;
    let command = read_command(alloc, bytes)?;
    if body_length(&command) != bytes.len() || bytes.len() > 100 {
        return Ok(false);
    }
    let body = body_of_command(alloc, &command)?;
    Ok(has_unit(&command, has) && body.as_slice() == wanted)
}

#[test]
fn bodies(rt: HostRuntime) -> Result<(), Fail> {
    passes(is_add_body(rt.alloc(), ADD))?;
    for number in 0..ROWS.len() {
        row_passes(number, is_spelled(rt.alloc(), &ROWS[number]))?;
    }
    Ok(())
}

// Whether these bytes are refused because they are not a command.
fn is_refused(alloc: Global, bytes: &[u8]) -> bool {
    match read_command(alloc, bytes) {
        Err(ReadFault::NoCommand) => true,
        _ => false,
    }
}

static NO_COMMANDS: [&[u8]; 14] = [
    b"",
    b"\x01\x03\x01",
    b"\x00\x03\x01a",
    b"\x03\x03\x01a",
    b"\xff\x03\x01a",
    b"\x02\x03\x01a\x00\x00\x00\x00",
    // 36 and 39 bytes of an Add with a certificate of no bytes
    b"\x02\x01\x01a\x10\x00\x00\x00int main(void){}\x01\x00\x00\x00\x00\x00\x00\x00\x00\x00\x00\x00",
    b"\x02\x01\x01a\x10\x00\x00\x00int main(void){}\x01\x00\x00\x00\x00\x00\x00\x00\x00\x00\x00\x00\x00\x00\x00",
    // 26 bytes of a Replace with a certificate of three
    b"\x02\x02\x01a\x00\x00\x00\x00\x01\x00\x00\x00\x07\x00\x00\x00\x00\x00\x00\x00\x03\x00\x00\x00xy",
    b"\x01\x01\x01a\x00\x00\x00\x00\x01\x00\x00\x00\x07\x00\x00\x00\x00\x00\x00\x00\x00\x00\x00\x00",
    b"\x01\x04\x01a",
    b"\x01\x03\x01A",
    b"\x01\x03\x01a\x00",
    // 35 bytes of an Add
    b"\x01\x01\x01a\x10\x00\x00\x00int main(void){}\x01\x00\x00\x00\x00\x00\x00\x00\x00\x00\x00",
];

#[test]
fn names_and_bytes_that_are_no_command(rt: HostRuntime) -> Result<(), Fail> {
    for number in 0..NAMES.len() {
        let (bytes, right) = NAMES[number];
        row_passes(number, Ok(is_name(bytes) == right))?;
    }
    for number in 0..NO_COMMANDS.len() {
        row_passes(number, Ok(is_refused(rt.alloc(), NO_COMMANDS[number])))?;
    }
    Ok(())
}
