// Messages about a byte, a comment or a number that is not a token.

use super::left_out::{BYTES, CHARACTERS, FLOATING, said_of_prefix};
use super::parts::{MessagePart, message, words};
use std::alloc::{AllocError, Global};

// Whether the bytes here begin with a backslash directly before the end of a line.
fn is_splice(rest: &[u8]) -> bool {
    rest.starts_with(b"\\\n".as_slice()) || rest.starts_with(b"\\\r\n".as_slice())
}

// How many bytes a character has, by its first byte in UTF-8.
fn character_length(byte: u8) -> usize {
    match byte {
        0xf0.. => 4,
        0xe0.. => 3,
        0xc0.. => 2,
        _ => 1,
    }
}

// The character outside ASCII that begins here, if one does.
fn character(rest: &[u8]) -> Option<char> {
    let first = rest.first().copied()?;
    let bytes = rest.get(..character_length(first))?;
    match std::str::from_utf8(bytes) {
        Ok(text) if first > 127 => text.chars().next(),
        _ => None,
    }
}

// What to say about a character.
fn said_of_character(c: char) -> &'static str {
    for (from, to, said) in CHARACTERS.iter() {
        if *from <= c && c <= *to {
            return said;
        }
    }
    ""
}

// What to say about bytes that begin no token; empty if nothing is known.
fn said(rest: &[u8]) -> &'static str {
    match rest {
        [b'.', b'0'..=b'9', ..] => FLOATING,
        _ => match said_of_prefix(&BYTES, rest) {
            Some(said) => said,
            None => match character(rest) {
                Some(c) => said_of_character(c),
                None => "",
            },
        },
    }
}

// How bytes that begin no token are shown.
fn shown(rest: &[u8]) -> MessagePart<'_> {
    match character(rest) {
        Some(c) => MessagePart::Character(c),
        None => match rest.first() {
            Some(byte) if !byte.is_ascii_graphic() => MessagePart::Byte(*byte),
            _ => MessagePart::Token(rest.get(..1).unwrap_or(rest)),
        },
    }
}

/// The message about a byte that begins no token.
pub fn bad_byte(alloc: Global, text: &[u8], at: usize) -> Result<String, AllocError> {
    let rest = text.get(at..).unwrap_or(b"");
    if is_splice(rest) {
        return words(
            alloc,
            "a backslash before the end of a line joins no lines in this C",
        );
    }
    let said = said(rest);
    let colon = if said.is_empty() { "" } else { ": " };
    let what = MessagePart::Words(" begins no token");
    message(
        alloc,
        &[
            shown(rest),
            what,
            MessagePart::Words(colon),
            MessagePart::Words(said),
        ],
    )
}

// Whether a byte continues a number, after another byte.
fn goes_on(before: u8, b: u8) -> bool {
    let is_sign = b == b'+' || b == b'-';
    b.is_ascii_alphanumeric()
        || b == b'_'
        || b == b'.'
        || (is_sign && matches!(before, b'e' | b'E' | b'p' | b'P'))
}

// The bytes of the number that begins here: at least its first byte.
fn number(rest: &[u8]) -> &[u8] {
    let mut before = b'0';
    for (i, b) in rest.iter().enumerate() {
        if !goes_on(before, *b) {
            return &rest[..i];
        }
        before = *b;
    }
    rest
}

// Whether a number begins in one of two ways.
fn begins(number: &[u8], lower: &[u8], upper: &[u8]) -> bool {
    number.starts_with(lower) || number.starts_with(upper)
}

// Whether a number contains any of these bytes.
fn has(number: &[u8], bytes: &[u8]) -> bool {
    for b in number {
        if bytes.contains(b) {
            return true;
        }
    }
    false
}

// Why a number is not a constant.
fn reason(number: &[u8]) -> &'static str {
    let is_hexadecimal = begins(number, b"0x", b"0X");
    if begins(number, b"0b", b"0B") {
        "there are no binary constants in this C; write 0x and hexadecimal digits"
    } else if has(number, b".") || has(number, b"pP") || (!is_hexadecimal && has(number, b"eE")) {
        FLOATING
    } else if has(number, b"lL") {
        "there is no suffix l or L in this C; int and unsigned have 32 bits"
    } else if is_hexadecimal || !number.starts_with(b"0") {
        "one has decimal digits, or hexadecimal ones after 0x, and then u or nothing"
    } else if has(number, b"8") {
        "8 is no octal digit, and a number that begins with 0 is octal"
    } else {
        "9 is no octal digit, and a number that begins with 0 is octal"
    }
}

/// The message about a number that is not a constant.
pub fn bad_constant(alloc: Global, text: &[u8], at: usize) -> Result<String, AllocError> {
    let number = number(text.get(at..).unwrap_or(b""));
    let what = MessagePart::Words(" is no decimal, octal or hexadecimal constant: ");
    message(
        alloc,
        &[
            MessagePart::Token(number),
            what,
            MessagePart::Words(reason(number)),
        ],
    )
}

// Whether a constant may be as large as an `unsigned`: it may if it has a suffix, or is octal or hexadecimal.
fn may_be_unsigned(number: &[u8]) -> bool {
    number.first() == Some(&b'0') || matches!(number.last(), Some(b'u' | b'U'))
}

/// The message about a constant that is too large for its type.
pub fn constant_too_large(alloc: Global, text: &[u8], at: usize) -> Result<String, AllocError> {
    let number = number(text.get(at..).unwrap_or(b""));
    let limit = if may_be_unsigned(number) {
        " is larger than 4294967295, the largest unsigned"
    } else {
        " is larger than 2147483647, the largest int"
    };
    message(
        alloc,
        &[MessagePart::Token(number), MessagePart::Words(limit)],
    )
}
