// Functions as bytes, written by hand from the tables of docs/FORMATS.md, and their listings.

use cc_ltl::{LtlFault, read_ltl, write_ltl};
use std::alloc::{AllocError, Global};
use std::test::Fail;
use tests_texts::verdict::{passes, row_passes};

// One block with label 0 that returns, without slots, and entry 0.
const RETURNS: &[u8] =
    b"\x00\x00\x00\x00\x00\x00\x00\x00\x01\x00\x00\x00\x00\x00\x00\x00\x00\x00\x0a\x00\x00";

// Three slots and three blocks: two parameters are put into slots, and their difference is computed and returned.
const DIFFERENCE: &[u8] =
    b"\x03\x00\x00\x00\x00\x00\x00\x00\x03\x00\x00\x00\x00\x00\x00\x00\x02\x00\x02\x00\x00\x0a\x02\x01\x00\x0b\x00\x01\x00\x00\x00\x00\x00\x01\x00\x00\x00\x02\x00\x01\x07\x00\x00\x01\x08\x01\x00\x03\x01\x07\x07\x08\x2c\x01\x00\x00\x02\x00\x02\x02\x00\x07\x00\x09\x07\x2c\x01\x00\x00\x01\x00\x01\x0a\x02\x00\x0a\x00\x00";

// A block for each operation.
const KINDS: &[u8] =
    b"\x01\x00\x00\x00\x00\x00\x00\x00\x0b\x00\x00\x00\x00\x00\x00\x00\x00\x00\x00\x01\x00\x00\x00\x00\x00\x01\x00\x00\x00\x00\x00\x01\x07\xff\xff\xff\xff\x02\x00\x00\x00\x00\x00\x02\x00\x00\x00\x00\x00\x02\x01\x08\x07\x03\x00\x00\x00\x00\x00\x03\x00\x00\x00\x00\x00\x03\x12\x1f\x08\x07\x04\x00\x00\x00\x00\x00\x04\x00\x00\x00\x00\x00\x04\x04\x02\x00\x00\x00\x09\x1f\x05\x00\x00\x00\x00\x00\x05\x00\x00\x00\x00\x00\x05\x04\x02\x01\x00\x00\x09\x08\x06\x00\x00\x00\x00\x00\x06\x00\x00\x00\x01\x00\x00\x0a\x09\x06\x3f\x00\x00\x00\x07\x00\x00\x00\x01\x00\x02\x00\x00\x0a\x07\x00\x00\x00\x00\x00\x07\x08\x00\x00\x00\x00\x00\x08\x00\x00\x00\x00\x00\x08\x09\x00\x00\x00\x00\x00\x09\x00\x00\x00\x00\x00\x09\x07\x00\x00\x00\x00\xff\xff\xff\xff\x00\x00\xff\xff\xff\xff\x00\x00\x0a\x00\x00";

// Whether a function is written as these bytes, from which it was read.
fn is_same(again: Result<Vec<u8>, AllocError>, bytes: &[u8]) -> Result<bool, Fail> {
    if again?.as_slice() == bytes {
        Ok(true)
    } else {
        Err(Fail::from("the function has other bytes"))
    }
}

// False if the bytes are damaged; any other fault is a failure.
fn no_function(fault: LtlFault) -> Result<bool, Fail> {
    if fault.number() == 37 {
        Ok(false)
    } else {
        Err(Fail::from("memory ran out"))
    }
}

// Whether the bytes are a function. Fails if that function is written as other bytes.
fn is_function(alloc: Global, bytes: &[u8]) -> Result<bool, Fail> {
    match read_ltl(alloc, bytes) {
        Ok(ltl) => {
            let again = write_ltl(alloc, &ltl);
            drop(ltl);
            is_same(again, bytes)
        }
        Err(fault) => no_function(fault),
    }
}

// Whether the bytes with one of them changed are a function.
fn is_changed(alloc: Global, bytes: &[u8], place: usize, value: u8) -> Result<bool, Fail> {
    let mut changed = Vec::from_slice(alloc, bytes)?;
    match changed.get_mut(place) {
        Some(byte) => *byte = value,
        None => return Err(Fail::from("no such byte")),
    }
    is_function(alloc, changed.as_slice())
}

static FUNCTIONS: [&[u8]; 3] = [RETURNS, DIFFERENCE, KINDS];

#[test]
fn functions_are_read_and_written(rt: HostRuntime) -> Result<(), Fail> {
    for number in 0..FUNCTIONS.len() {
        row_passes(number, is_function(rt.alloc(), FUNCTIONS[number]))?;
    }
    Ok(())
}

fn is_damaged(alloc: Global, bytes: &[u8]) -> Result<bool, Fail> {
    Ok(!is_function(alloc, bytes)?)
}

#[test]
fn shorter_bytes_are_damaged(rt: HostRuntime) -> Result<(), Fail> {
    for length in 0..DIFFERENCE.len() {
        row_passes(length, is_damaged(rt.alloc(), &DIFFERENCE[..length]))?;
    }
    Ok(())
}

// Each byte of the three blocks in turn, with each value, gives either another function or none.
#[test]
fn each_byte_changed(rt: HostRuntime) -> Result<(), Fail> {
    let mut functions = 0u32;
    for place in 0..DIFFERENCE.len() {
        for value in 0..=255u8 {
            if is_changed(rt.alloc(), DIFFERENCE, place, value)? {
                functions = functions.saturating_add(1);
            }
        }
    }
    passes(Ok(functions > 78))
}

// The index of a byte of the function with each operation, a new value for it, and whether the bytes are still a function.
type Limit = (usize, u8, bool);

fn is_limit(alloc: Global, row: &Limit) -> Result<bool, Fail> {
    Ok(is_changed(alloc, KINDS, row.0, row.1)? == row.2)
}

#[test]
fn limits(rt: HostRuntime) -> Result<(), Fail> {
    for number in 0..LIMITS.len() {
        row_passes(number, is_limit(rt.alloc(), &LIMITS[number]))?;
    }
    Ok(())
}

static LIMITS: [Limit; 21] = [
    // 257 and 513 slots
    (1, 1, true),
    (1, 2, false),
    // an operation, an operator on one word and one on two words, a move: the last one of each, and one more
    (18, 8, true),
    (18, 11, false),
    (50, 2, true),
    (50, 3, false),
    (66, 18, true),
    (66, 19, false),
    (122, 3, false),
    // a register beyond each end
    (32, 7, true),
    (32, 6, false),
    (32, 5, false),
    (32, 31, true),
    (32, 32, false),
    // the slot whose number is the number of slots
    (137, 1, false),
    // the label before and the one after
    (25, 0, false),
    (25, 2, false),
    // the widths are 1 and 4
    (83, 1, true),
    (83, 2, false),
    (83, 3, false),
    (83, 5, false),
];

// What comes after the bytes of a function up to its block's operation, and whether that is a function.
type Tail = (&'static [u8], bool);

fn is_with_tail(alloc: Global, row: &Tail) -> Result<bool, Fail> {
    let mut bytes = Vec::from_slice(alloc, &RETURNS[..18])?;
    bytes.extend_from_slice(row.0)?;
    Ok(is_function(alloc, bytes.as_slice())? == row.1)
}

// No moves come after a branch or a return, and no bytes after a function.
static TAILS: [Tail; 6] = [
    (b"\x00\x00\x00\x00\x00\x01\x00\x00\x07\x08", true),
    (b"\x0a\x01\x00\x00\x07\x08", false),
    (
        b"\x09\x07\x00\x00\x00\x00\x00\x00\x00\x00\x01\x00\x00\x07\x08",
        false,
    ),
    (b"\x09\x07\x00\x00\x00\x00\x00\x00\x00\x00\x00\x00", true),
    // a return as it was, with a byte more and with one less
    (b"\x0a\x00\x00\x00", false),
    (b"\x0a\x00", false),
];

#[test]
fn ends_of_functions(rt: HostRuntime) -> Result<(), Fail> {
    for number in 0..TAILS.len() {
        row_passes(number, is_with_tail(rt.alloc(), &TAILS[number]))?;
    }
    Ok(())
}

// The bytes of a function, and its listing.
type Listed = (&'static [u8], &'static str);

static LISTED: [Listed; 2] = [
    (
        DIFFERENCE,
        "slots 3, entry 0\n0: slot0 = x10; slot1 = x11; nop -> 1\n1: x7 = slot0; x8 = slot1; x7 = sub x7, x8; slot2 = x7; x9 = x7 -> 300\n300: x10 = slot2; return\n",
    ),
    (
        KINDS,
        "slots 1, entry 0\n0: nop -> 1\n1: x7 = 4294967295 -> 2\n2: x8 = complement x7 -> 3\n3: x31 = le_u x8, x7 -> 4\n4: x9 = object2[x31] -> 5\n5: object258[x9] = x8 -> 6\n6: x10 = x9; call 63; slot0 = x10 -> 7\n7: read -> 8\n8: write -> 9\n9: branch x7 -> 0, 4294967295\n4294967295: return\n",
    ),
];

fn is_listed(alloc: Global, row: &Listed) -> Result<bool, Fail> {
    let ltl = read_ltl(alloc, row.0)?;
    let listing = ltl.to_string(alloc);
    drop(ltl);
    Ok(listing?.as_str() == row.1)
}

#[test]
fn listings(rt: HostRuntime) -> Result<(), Fail> {
    for number in 0..LISTED.len() {
        row_passes(number, is_listed(rt.alloc(), &LISTED[number]))?;
    }
    Ok(())
}

type Fault = (LtlFault, u32, &'static str);

static FAULTS: [Fault; 2] = [
    (LtlFault::Damaged, 37, "Damaged"),
    (LtlFault::OutOfMemory, 40, "OutOfMemory"),
];

fn is_fault(alloc: Global, row: &Fault) -> Result<bool, Fail> {
    let shown = row.0.to_string(alloc)?;
    Ok(row.0.number() == row.1 && shown.as_str() == row.2)
}

#[test]
fn faults(rt: HostRuntime) -> Result<(), Fail> {
    for number in 0..FAULTS.len() {
        row_passes(number, is_fault(rt.alloc(), &FAULTS[number]))?;
    }
    Ok(())
}
