// Reads the input words in a line of text.

ghost use Rattle.std.specs.Prelude.{◌≡◌, ◌<◌, IfOk, IfSome, length, option_map};
ghost use Rattle.cc_script.specs.Line.{number_in, words};
ghost use Rattle.cc_runs.specs.Words.{input_in};
ghost use Rattle.cc_runs.specs.internal.Cutting.{words_behind};

use std::alloc::{AllocError, Global};

// A word has at most this many digits.
const MOST_DIGITS: usize = 10;

// The first word of a line, and, if a space ends it, what comes after that space.
fn cut(line: &[u8]) -> (&[u8], Option<&[u8]>)
    ensures words { words line.now ≡ words_behind result.0.now result.1 }
    ensures shorter { IfSome result.1 (λ rest. length rest.now < length line.now) }
{
    for i in 0..line.len() {
        if line[i] == b' ' {
            return (&line[..i], Some(&line[i + 1..]));
        }
    }
    (line, None)
}

// The word that these digits spell, if they spell one.
fn word_in(bytes: &[u8]) -> Option<u32>
    ensures { result ≡ number_in 10 4294967295 bytes.now }
{
    if bytes.is_empty() || bytes.len() > MOST_DIGITS {
        return None;
    }
    let mut number: u64 = 0;
    for i in 0..bytes.len() {
        if !bytes[i].is_ascii_digit() {
            return None;
        }
        number = 10 * number + u64::from(bytes[i] - b'0');
    }
    if number <= 4_294_967_295 {
        Some(number as u32)
    } else {
        None
    }
}

/// The input words in a line, which is given without its newline. They are decimal numbers from 0 to 4294967295, of at most 10
/// digits, between single spaces. `None` if the line has anything else.
pub fn words_in(alloc: Global, line: &[u8]) -> Result<Option<Vec<u32>>, AllocError>
    ensures { IfOk result (λ words. option_map (λ w. w.items) words ≡ input_in line.now) }
{
    let mut words = Vec::new(alloc);
    if line.is_empty() {
        return Ok(Some(words));
    }
    let mut rest = Some(line);
    while let Some(bytes) = rest {
        let (word, behind) = cut(bytes);
        let Some(number) = word_in(word) else {
            return Ok(None);
        };
        words.push(number)?;
        rest = behind;
    }
    Ok(Some(words))
}
