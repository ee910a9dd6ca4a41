// The object for a line of an answer.

use super::kinds::object_of_kind;
use super::numbers::{signed, unsigned};
use super::object::Object;
use std::alloc::{AllocError, Global};

/// What a line says, if that may need an explanation.
#[derive(Clone, Copy)]
pub(crate) enum Said {
    /// How a run ended.
    End,
    /// The fault with this number.
    Fault(u64),
    /// Something else.
    Other,
}

/// The object for a line, and what the line says.
#[derive(Drop)]
pub(crate) struct LineObject {
    pub(crate) object: Object,
    pub(crate) said: Said,
}

// What comes after a word and a space.
fn after<'a>(line: &'a [u8], word: &str) -> Option<&'a [u8]> {
    line.strip_prefix(word.as_bytes())?.strip_prefix(b" ")
}

// An object that is neither a fault nor an end.
fn other(object: Object) -> LineObject {
    LineObject {
        object,
        said: Said::Other,
    }
}

fn receipt(alloc: Global, number: u64) -> Result<LineObject, AllocError> {
    let mut object = Object::new(alloc, "receipt")?;
    object.count("number", number)?;
    Ok(other(object))
}

fn unit(alloc: Global, name: &[u8]) -> Result<LineObject, AllocError> {
    let mut object = Object::new(alloc, "unit")?;
    object.bytes("name", name)?;
    Ok(other(object))
}

fn word(alloc: Global, word: i32) -> Result<LineObject, AllocError> {
    let mut object = Object::new(alloc, "word")?;
    object.number("value", i64::from(word))?;
    Ok(other(object))
}

// The object for a line that is of no other kind.
fn plain_line(alloc: Global, line: &[u8]) -> Result<Object, AllocError> {
    let mut object = Object::new(alloc, "line")?;
    object.bytes("text", line)?;
    Ok(object)
}

// How a run ended.
#[derive(Clone, Copy)]
enum End<'a> {
    // With this name, without a word.
    Bare(&'static str),
    // With this name and this word.
    With(&'static str, i32),
    // It went wrong, for this cause.
    Wrong(&'a [u8]),
}

/// Why a program goes wrong, as `interpret` prints it.
static CAUSES: [&str; 4] = ["Division", "Shift", "Index", "Depth"];

// Whether this is the name of a cause.
fn is_cause(name: &[u8]) -> bool {
    CAUSES.iter().any(|cause| cause.as_bytes() == name)
}

// The end that a line names; `None` if the line says something else.
fn end_in(line: &[u8]) -> Option<End<'_>> {
    if line == b"going".as_slice() {
        return Some(End::Bare("going"));
    }
    if line == b"trapped".as_slice() {
        return Some(End::Bare("trapped"));
    }
    if let Some(why) = after(line, "wrong")
        && is_cause(why)
    {
        return Some(End::Wrong(why));
    }
    if let Some(word) = after(line, "exited").and_then(signed) {
        return Some(End::With("exited", word));
    }
    let word = after(line, "ended").and_then(signed)?;
    Some(End::With("ended", word))
}

fn end_object(alloc: Global, end: End<'_>) -> Result<LineObject, AllocError> {
    let mut object = Object::new(alloc, "end")?;
    match end {
        End::Bare(how) => object.words("how", how)?,
        End::With(how, word) => {
            object.words("how", how)?;
            object.number("value", i64::from(word))?;
        }
        End::Wrong(why) => {
            object.words("how", "wrong")?;
            object.bytes("why", why)?;
        }
    }
    Ok(LineObject {
        object,
        said: Said::End,
    })
}

// Adds what the line of a fault has after the fault's name: a place, or a function and a label.
fn add_position(object: &mut Object, rest: &[u8]) -> Result<(), AllocError> {
    let mut parts = rest.split(|byte| *byte == b' ');
    for _ in 0..2 {
        let (Some(word), Some(value)) = (parts.next(), parts.next()) else {
            return Ok(());
        };
        if word == b"in".as_slice() {
            object.bytes("function", value)?;
        } else if value == b"label".as_slice() {
            if let Some(label) = parts.next().and_then(unsigned) {
                object.count("label", label)?;
            }
        } else {
            object.bytes("at", value)?;
        }
    }
    Ok(())
}

// What is before the first space, and what is after it.
fn split_word(text: &[u8]) -> (&[u8], &[u8]) {
    match text.iter().position(|byte| *byte == b' ') {
        Some(at) => {
            let (word, rest) = text.split_at(at);
            (word, rest.strip_prefix(b" ").unwrap_or(rest))
        }
        None => (text, b""),
    }
}

// The object for the line of a fault with this number; `rest` is what comes after the number.
fn fault(alloc: Global, number: u64, rest: &[u8]) -> Result<LineObject, AllocError> {
    let (name, position) = split_word(rest);
    let mut object = Object::new(alloc, "fault")?;
    object.count("number", number)?;
    object.bytes("name", name)?;
    add_position(&mut object, position)?;
    Ok(LineObject {
        object,
        said: Said::Fault(number),
    })
}

// The number of the fault whose line this is, and what follows the number; `None` if this is another line.
fn fault_in(line: &[u8]) -> Option<(u64, &[u8])> {
    let (digits, rest) = split_word(after(line, "fault")?);
    Some((unsigned(digits)?, rest))
}

/// The object for a line of an answer. The lines of `size` begin with any name that a function may have, so a word alone does not
/// show what a line says: what comes after it has to fit too.
pub(crate) fn object_of_line(alloc: Global, line: &[u8]) -> Result<LineObject, AllocError> {
    if line == b"ok".as_slice() {
        return Ok(other(Object::new(alloc, "ok")?));
    }
    if let Some(number) = after(line, "ok").and_then(unsigned) {
        return receipt(alloc, number);
    }
    if let Some(name) = after(line, "unit")
        && !name.contains(&b' ')
    {
        return unit(alloc, name);
    }
    if let Some(value) = signed(line) {
        return word(alloc, value);
    }
    if let Some(how) = end_in(line) {
        return end_object(alloc, how);
    }
    if let Some((number, rest)) = fault_in(line) {
        return fault(alloc, number, rest);
    }
    match object_of_kind(alloc, line)? {
        Some(object) => Ok(other(object)),
        None => Ok(other(plain_line(alloc, line)?)),
    }
}
