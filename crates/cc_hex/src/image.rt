// An image's text: rows of 16 bytes, first those of its code and then those of its globals.

ghost use Rattle.std.specs.Prelude.{◌≡◌, ◌+◌, ◌++◌, ◌≤◌, length, IfOk, OnOk};
ghost use Rattle.cc_hex.specs.Contents.{bytes_of_words, Holds, Says};
ghost use Rattle.cc_hex.specs.Layout.{base_line, row, block, image_text};

use crate::record::{RecordType, push_record};
use cc_rv32::image::Image;
use cc_rv32::map::{CODE_FROM, GLOBALS_FROM};
use std::alloc::{AllocError, Global};
use std::cmp::min;

/// How many bytes a data record has. The last record of the code and that of the globals may have fewer.
const ROW: usize = 16;

/// Returns the image as Intel HEX, in ASCII: its code's bytes from 0x00010000 on, and then the bytes of its globals' initial
/// values from 0x00200000 on, zeros included; the lowest byte of each word comes first. A record has 16 bytes of data, digits are
/// in upper case, and each line ends in a line feed. An extended linear address record precedes each block of 65,536 addresses.
pub fn write(alloc: Global, image: &Image) -> Result<Vec<u8>, AllocError>
    // Read as the format defines it, the text has the image's byte once at each address, and nothing at any other address.
    ensures holds { IfOk result (λ text. Holds text.items image.now) }
    // The bytes are in order of address.
    ensures says { IfOk result (λ text. Says text.items image.now) }
    // The text has the layout that `image_text` defines.
    ensures laid_out { IfOk result (λ text. text.items ≡ image_text image.now) }
{
    let mut text = Vec::new(alloc);
    push_words(alloc, &mut text, CODE_FROM, image.code.words())?;
    push_words(alloc, &mut text, GLOBALS_FROM, image.globals.words())?;
    push_record(&mut text, RecordType::EndOfFile, 0, &[])?;
    Ok(text)
}

fn push_words(alloc: Global, text: &mut Vec<u8>, from: u32, words: &[u32]) -> Result<(), AllocError>
    requires from { from ≤ 0x00200000 }
    requires words { length words.now ≤ 131072 }
    ensures { OnOk result (text.new.items ≡ text.old.items ++ block from (bytes_of_words words.now)) }
{
    let bytes = bytes_of(alloc, words)?;
    push_block(text, from, bytes.as_slice())
}

fn bytes_of(alloc: Global, words: &[u32]) -> Result<Vec<u8>, AllocError>
    requires { length words.now ≤ 131072 }
    ensures items { IfOk result (λ bytes. bytes.items ≡ bytes_of_words words.now) }
    ensures len { IfOk result (λ bytes. length bytes.items ≤ 524288) }
{
    let mut bytes = Vec::new(alloc);
    for word in words {
        bytes.extend_from_slice(&word.to_le_bytes())?;
    }
    Ok(bytes)
}

fn push_block(text: &mut Vec<u8>, from: u32, bytes: &[u8]) -> Result<(), AllocError>
    requires from { from ≤ 0x00200000 }
    requires bytes { length bytes.now ≤ 524288 }
    ensures { OnOk result (text.new.items ≡ text.old.items ++ block from bytes.now) }
{
    let mut address = from;
    let mut rest = bytes;
    for _ in 0..bytes.len().div_ceil(ROW) {
        let (front, back) = rest.split_at(min(ROW, rest.len()));
        push_row(text, address, front)?;
        address += 16;
        rest = back;
    }
    Ok(())
}

fn push_row(text: &mut Vec<u8>, address: u32, bytes: &[u8]) -> Result<(), AllocError>
    requires { length bytes.now ≤ 16 }
    ensures { OnOk result (text.new.items ≡ text.old.items ++ row address bytes.now) }
{
    push_base(text, address)?;
    push_record(text, RecordType::Data, (address % 65536) as u16, bytes)
}

/// Writes the upper half of an address, if a new upper half begins there.
fn push_base(text: &mut Vec<u8>, address: u32) -> Result<(), AllocError>
    ensures { OnOk result (text.new.items ≡ text.old.items ++ base_line address) }
{
    if address % 65536 != 0 {
        return Ok(());
    }
    let upper = (address / 65536) as u16;
    push_record(
        text,
        RecordType::ExtendedLinearAddress,
        0,
        &upper.to_be_bytes(),
    )
}
