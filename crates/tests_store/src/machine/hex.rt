// Writes images as Intel HEX and compares the text with what GNU objcopy 2.40 wrote for the same bytes; objcopy of LLVM 14 wrote
// the same. Below 1 MiB both write a record of type 02 (extended segment address) in place of our record of type 04 (extended
// linear address), and another one that returns to segment 0. The lines are otherwise the same.

use crate::machine::listing::image_of;
use cc_hex::image::write;
use cc_rv32::image::{MOST_CODE, MOST_GLOBALS};
use std::alloc::{AllocError, Global};
use std::test::Fail;
use tests_texts::verdict::passes;

static CODE: [u32; 9] = [
    0x00200137, 0xfff00093, 0x0210b133, 0x00010513, 0x00100893, 0x00000073, 0x05d00893, 0x00000073,
    0x00000000,
];

static GLOBALS: [u32; 5] = [0x00000001, 0x00000000, 0xcafef00d, 0xffffffff, 0x80000000];

// What objcopy -O ihex wrote for an ELF file with these words.
const BY_OBJCOPY: &str = ":020000021000EC\r
:10000000370120009300F0FF33B110021305010007\r
:1000100093081000730000009308D00573000000DF\r
:0400200000000000DC\r
:020000020000FC\r
:020000040020DA\r
:1000000001000000000000000DF0FECAFFFFFFFF2E\r
:04001000000000806C\r
:00000001FF\r
";

// Our line in place of a line of objcopy.
fn as_linear(line: &str) -> &str {
    match line {
        ":020000021000EC" => ":020000040001F9",
        _ => line,
    }
}

fn expected(alloc: Global) -> Result<String, AllocError> {
    let mut text = String::new(alloc);
    for line in BY_OBJCOPY.lines() {
        if line != ":020000020000FC" {
            text.push_str(as_linear(line))?;
            text.push_str("\n")?;
        }
    }
    Ok(text)
}

/// The text of an image with these words.
fn text_of(alloc: Global, code: Vec<u32>, globals: Vec<u32>) -> Result<Vec<u8>, Fail> {
    let image = image_of(code, globals)?;
    let text = write(alloc, &image);
    drop(image);
    Ok(text?)
}

// Whether the text of an image with these words is this one.
fn writes(alloc: Global, code: &[u32], globals: &[u32], wanted: &str) -> Result<bool, Fail> {
    let code = Vec::from_slice(alloc, code)?;
    let text = text_of(alloc, code, Vec::from_slice(alloc, globals)?)?;
    Ok(text.as_slice() == wanted.as_bytes())
}

// The text of an image of one word, with no globals.
const ONE_WORD: &str = ":020000040001F9\n:040000007300000089\n:00000001FF\n";

#[test]
fn writes_code_and_globals(rt: HostRuntime) -> Result<(), Fail> {
    let wanted = expected(rt.alloc())?;
    passes(writes(rt.alloc(), &CODE, &GLOBALS, wanted.as_str()))?;
    passes(writes(rt.alloc(), &[0x00000073], &[], ONE_WORD))
}

/// This many words, all different: multiples of `factor`, each plus `more`.
fn words(alloc: Global, count: usize, factor: u32, more: u32) -> Result<Vec<u32>, AllocError> {
    let mut words = Vec::new(alloc);
    let mut word = more;
    for _ in 0..count {
        words.extend_from_slice([word].as_slice())?;
        word = word.wrapping_add(factor);
    }
    Ok(words)
}

// The FNV-1a checksum of a text.
fn fnv(text: &[u8]) -> u64 {
    let mut hash = 0xcbf2_9ce4_8422_2325u64;
    for byte in text {
        hash = (hash ^ u64::from(*byte)).wrapping_mul(0x0100_0000_01b3);
    }
    hash
}

// The length and the checksum of the text of the largest image.
fn largest(alloc: Global) -> Result<(usize, u64), Fail> {
    let code = words(alloc, MOST_CODE, 2_654_435_761, 0x13)?;
    let text = text_of(alloc, code, words(alloc, MOST_GLOBALS, 2_246_822_519, 7)?)?;
    Ok((text.len(), fnv(text.as_slice())))
}

// The length and checksum of the text that objcopy wrote for an ELF file with these words, with its lines rewritten as above.
#[test]
fn writes_the_largest_image(rt: HostRuntime) -> Result<(), Fail> {
    passes(Ok(largest(rt.alloc())? == (2_162_892, 0xb1e0_47c4_c09b_c017)))
}
