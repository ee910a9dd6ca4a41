// Messages that have a place in their words.

use super::joining::join;
use super::place::place_in;
use super::text::NamedText;
use cc_syntax_diagnostic::offset_in;
use cc_tokens::Place;
use std::alloc::{AllocError, Global};

/// What precedes a place in the words of a message.
const BEFORE: &str = " at ";

// The place with which words begin, such as `2:5`, and the words after it.
fn place_before(words: &str) -> Option<(Place, &str)> {
    let (line, rest) = words.split_once(":")?;
    let end = rest
        .bytes()
        .take_while(|byte| byte.is_ascii_digit())
        .count();
    let column = rest.get(..end)?;
    let line = line.parse().ok()?;
    let column = column.parse().ok()?;
    Some((Place { line, column }, rest.get(end..)?))
}

// Adds the place in one of the texts, such as `B.c:2:5`, that corresponds to this place in the whole.
fn add_place(
    alloc: Global,
    texts: &[NamedText],
    whole: &[u8],
    place: Place,
    said: &mut String,
) -> Result<(), AllocError> {
    let Some(at) = offset_in(whole, Some(place)) else {
        return Ok(());
    };
    let Some(found) = place_in(texts, at) else {
        return Ok(());
    };
    if let Some(text) = texts.get(found.number) {
        for letter in text.name.as_str().chars() {
            said.push(if letter.is_control() { '?' } else { letter })?;
        }
    }
    let place = format!(in alloc; ":{}:{}", found.place.line, found.place.column)?;
    said.push_str(place.as_str())
}

// A message with places in the texts instead of places in the whole.
fn with_names(
    alloc: Global,
    texts: &[NamedText],
    whole: &[u8],
    message: &str,
) -> Result<String, AllocError> {
    let mut said = String::new(alloc);
    let mut rest = message;
    for _ in 0..message.len() {
        let Some((before, after)) = rest.split_once(BEFORE) else {
            break;
        };
        said.push_str(before)?;
        said.push_str(BEFORE)?;
        rest = match place_before(after) {
            Some((place, behind)) => {
                add_place(alloc, texts, whole, place, &mut said)?;
                behind
            }
            None => after,
        };
    }
    said.push_str(rest)?;
    Ok(said)
}

/// Returns a message about the joined text that may have words like `declared at 2:5`. If there are several texts, the place gets
/// the name of its text and the line and column there: `declared at B.c:1:5`. `AllocError` if memory runs out.
pub fn named_message(
    alloc: Global,
    texts: &[NamedText],
    message: &str,
) -> Result<String, AllocError> {
    if texts.len() < 2 || !message.contains(BEFORE) {
        return String::from_str(alloc, message);
    }
    let whole = join(alloc, texts)?;
    with_names(alloc, texts, whole.as_slice(), message)
}
