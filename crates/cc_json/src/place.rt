// The object for a line that is written for a person.

use super::numbers::unsigned;
use super::object::Object;
use super::telling::{add_message, add_words};
use cc_answers::words_of;
use std::alloc::{AllocError, Global};

// A message about a place in a source that was sent, written as `-:4:2: ..`.
#[derive(Clone, Copy)]
struct Placed<'a> {
    line: u64,
    column: u64,
    message: &'a [u8],
}

// The message on a line; `None` if the line has no message about a place.
fn message_in(line: &[u8]) -> Option<Placed<'_>> {
    let mut parts = line.strip_prefix(b"-:")?.splitn(3, |byte| *byte == b':');
    let line = unsigned(parts.next()?)?;
    let column = unsigned(parts.next()?)?;
    let message = parts.next()?.strip_prefix(b" ")?;
    Some(Placed {
        line,
        column,
        message,
    })
}

// The object for a message about a place.
fn placed_object(alloc: Global, placed: Placed<'_>) -> Result<Object, AllocError> {
    let message = String::from_utf8_lossy(alloc, placed.message)?;
    let message = message.as_str();
    let (kind, words) = match message.strip_prefix("warning: ") {
        Some(words) => ("warning", words),
        None => ("further", message),
    };
    let mut object = Object::new(alloc, kind)?;
    object.words("file", "-")?;
    object.count("line", placed.line)?;
    object.count("column", placed.column)?;
    add_message(&mut object, words)?;
    Ok(object)
}

// What `cc_runs` explains about a run that has stopped in place.
const FINAL: &[u8] =
    b"the run has stopped in place: nothing more comes, however many instructions it may take";

/// The number of the answer whose run has stopped in place, if a line says so; 0 if the command has one answer only.
pub(crate) fn final_in(line: &[u8]) -> Option<u64> {
    if words_in(line) == Some(FINAL) {
        return Some(0);
    }
    match message_in(line) {
        Some(placed) if placed.message == FINAL => Some(placed.line),
        _ => None,
    }
}

// How many bytes at the front of a line are spaces.
fn spaces(line: &[u8]) -> usize {
    line.iter().take_while(|byte| **byte == b' ').count()
}

// How many bytes at the front of a line are digits.
fn digits(line: &[u8]) -> usize {
    line.iter().take_while(|byte| byte.is_ascii_digit()).count()
}

// Whether a line shows a line of a text, or a caret below one.
fn is_excerpt(line: &[u8]) -> bool {
    let number = line.get(spaces(line)..).unwrap_or(b"");
    let rest = number.get(digits(number)..).unwrap_or(b"");
    if rest.len() < number.len() {
        rest.starts_with(b" | ")
    } else {
        number.len() < line.len() && rest.starts_with(b"| ")
    }
}

/// The words of an explanation that belongs to no place in a text.
pub(crate) fn words_in(line: &[u8]) -> Option<&[u8]> {
    line.strip_prefix(b"cclib: ")
}

// Whether the object for a fault already says what this line says.
fn is_said(line: &[u8]) -> bool {
    let Some(words) = words_in(line) else {
        return false;
    };
    if words.starts_with(b"the line is no command: ") {
        return true;
    }
    for number in 1..100 {
        if let Some(said) = words_of(number)
            && said.as_bytes() == words
        {
            return true;
        }
    }
    false
}

// The object for an explanation that belongs to no place.
fn further_object(alloc: Global, words: &[u8]) -> Result<Object, AllocError> {
    let words = String::from_utf8_lossy(alloc, words)?;
    let mut object = Object::new(alloc, "further")?;
    add_words(&mut object, 0, words.as_str())?;
    Ok(object)
}

/// The object for a line of explanations; `None` if the object for a fault already says what the line says, if the line only
/// shows the text, and if it is empty; and if the object for an end says it.
pub(crate) fn told_object(alloc: Global, line: &[u8]) -> Result<Option<Object>, AllocError> {
    if line.is_empty() || is_excerpt(line) || is_said(line) || final_in(line).is_some() {
        return Ok(None);
    }
    match message_in(line) {
        Some(placed) => Ok(Some(placed_object(alloc, placed)?)),
        None => {
            let words = words_in(line).unwrap_or(line);
            Ok(Some(further_object(alloc, words)?))
        }
    }
}
