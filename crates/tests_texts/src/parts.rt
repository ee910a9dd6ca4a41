// Texts made from parts.

use std::alloc::{AllocError, Global};

/// A part of a text, and how often it is repeated.
pub type Part<'a> = (&'a str, usize);

/// Appends a part to a text `times` times.
pub fn append(text: &mut Vec<u8>, part: &str, times: usize) -> Result<(), AllocError> {
    for _ in 0..times {
        text.extend_from_slice(part.as_bytes())?;
    }
    Ok(())
}

/// The parts of a text whose `main` writes 0 `writes` times and then reads `reads` times.
pub fn main_of(writes: usize, reads: usize) -> [Part<'static>; 4] {
    [
        ("int main(void){", 1),
        ("write_word(0);", writes),
        ("read_word();", reads),
        ("}", 1),
    ]
}

/// The text that consists of these parts.
pub fn text_of(alloc: Global, parts: &[Part<'_>]) -> Result<Vec<u8>, AllocError> {
    let mut text = Vec::new(alloc);
    for (part, times) in parts {
        append(&mut text, part, *times)?;
    }
    Ok(text)
}
