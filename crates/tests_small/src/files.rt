// Files of units.

use cc_pack::{ConfirmedIn, line_of, read_file, write_file};
use std::alloc::Global;
use std::test::Fail;

// The SHA-256 of `abc` is the example of FIPS 180-4; that of no bytes is what `sha256sum` prints.
const ABC: &[u8] =
    b"cclib-unit 1 plain ba7816bf8f01cfea414140de5dae2223b00361a396177a9cb410ff61f20015ad\nabc";

const EMPTY: &[u8] =
    b"cclib-unit 1 none e3b0c44298fc1c149afbf4c8996fb92427ae41e4649b934ca495991b7852b855\n";

const WRONG_DIGEST: &[u8] =
    b"cclib-unit 1 plain ba7816bf8f01cfea414140de5dae2223b00361a396177a9cb410ff61f20015ad\nabd";

// Whether a file is read as these modes and this body.
fn is_read(alloc: Global, file: &[u8], confirmed: ConfirmedIn, body: &[u8]) -> bool {
    match read_file(alloc, file) {
        Ok(found) => found.confirmed == confirmed && found.body == body,
        Err(_) => false,
    }
}

// Whether a file is refused with this number.
fn is_refused(alloc: Global, file: &[u8], number: u32) -> bool {
    match read_file(alloc, file) {
        Ok(_) => false,
        Err(fault) => fault.number() == number,
    }
}

#[test]
fn files_are_written_and_read(rt: HostRuntime) -> Result<(), Fail> {
    let alloc = rt.alloc();
    let abc = write_file(alloc, ConfirmedIn::Plain, b"abc")?;
    let empty = write_file(alloc, ConfirmedIn::Neither, b"")?;
    assert_eq!(rt; abc.as_slice(), ABC);
    assert_eq!(rt; empty.as_slice(), EMPTY);
    let line = line_of(alloc, ConfirmedIn::Neither, b"")?;
    assert_eq!(rt; line.as_slice(), &EMPTY[..EMPTY.len() - 1]);
    assert!(rt; is_read(alloc, ABC, ConfirmedIn::Plain, b"abc"));
    assert!(rt; is_read(alloc, EMPTY, ConfirmedIn::Neither, b""));
    assert!(rt; is_refused(alloc, WRONG_DIGEST, 37));
    assert!(rt; is_refused(alloc, &ABC[1..], 37));
    Ok(())
}
