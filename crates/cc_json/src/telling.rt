// Explanations of a text, as members of an object.

use super::object::Object;
use cc_answers::words_of;
use cc_diagnostic::{Diagnostic, Related};
use cc_sources::{NamedText, named_message, place_in};
use cc_tasks::{Explanation, Halt};
use serde_json::Value;
use std::alloc::{AllocError, Global};

// Adds the place of a byte of the joined text: the text that contains the byte, and its line and column in
// that text.
fn add_place(object: &mut Object, texts: &[NamedText], at: usize) -> Result<(), AllocError> {
    let Some(found) = place_in(texts, at) else {
        return Ok(());
    };
    if let Some(text) = texts.get(found.number) {
        object.words("file", text.name.as_str())?;
    }
    object.count("line", found.place.line as u64)?;
    object.count("column", found.place.column as u64)
}

/// Adds a message; what it proposes after a colon becomes the help.
pub(crate) fn add_message(object: &mut Object, message: &str) -> Result<(), AllocError> {
    match message.split_once(": ") {
        Some((message, help)) => {
            object.words("message", message)?;
            object.words("help", help)
        }
        None => object.words("message", message),
    }
}

/// The words that explain a fault with this number.
pub(crate) fn words_of_fault(number: u64) -> Option<&'static str> {
    match u32::try_from(number) {
        Ok(number) => words_of(number),
        Err(_) => None,
    }
}

/// Adds the words of an explanation. What they propose becomes the help: of the words for the fault with this number, and of those
/// about a name that nothing has, it comes after a colon.
pub(crate) fn add_words(object: &mut Object, number: u64, words: &str) -> Result<(), AllocError> {
    if words_of_fault(number) == Some(words) || words.starts_with("no ") {
        add_message(object, words)
    } else {
        object.words("message", words)
    }
}

// A note about a byte of the joined text.
fn note(alloc: Global, texts: &[NamedText], at: usize, words: &str) -> Result<Value, AllocError> {
    let mut note = Object::empty(alloc);
    add_place(&mut note, texts, at)?;
    note.words("message", words)?;
    Ok(note.into_value())
}

// The notes of a message: another place, and the calls that were open.
fn notes_of(
    alloc: Global,
    texts: &[NamedText],
    related: Option<Related>,
    calls: &[Diagnostic],
) -> Result<Vec<Value>, AllocError> {
    let mut notes = Vec::new(alloc);
    if let Some(Related { at, words }) = related {
        notes.push(note(alloc, texts, at, words)?)?;
    }
    for call in calls {
        let message = call.message.as_str();
        let words = message.strip_prefix("note: ").unwrap_or(message);
        if let Some(at) = call.at {
            notes.push(note(alloc, texts, at, words)?)?;
        }
    }
    Ok(notes)
}

/// Adds an explanation about the joined text, with the calls that were open.
pub(crate) fn add_told(
    alloc: Global,
    object: &mut Object,
    texts: &[NamedText],
    diagnostic: &Diagnostic,
    calls: &[Diagnostic],
) -> Result<(), AllocError> {
    if let Some(at) = diagnostic.at {
        add_place(object, texts, at)?;
    }
    let told = named_message(alloc, texts, diagnostic.message.as_str())?;
    let message = told.as_str();
    add_message(object, message.strip_prefix("warning: ").unwrap_or(message))?;
    let notes = notes_of(alloc, texts, diagnostic.related, calls)?;
    object.list("notes", notes)
}

// Adds whether a checked image has stopped, or how many more words it writes before it stops.
fn add_halt(object: &mut Object, halt: Option<Halt>) -> Result<(), AllocError> {
    match halt {
        Some(Halt::Reached) => object.truth("stopped"),
        Some(Halt::Ahead(more)) => object.count("more", more as u64),
        None => Ok(()),
    }
}

/// Adds what explains a fault, or an end of a run.
pub(crate) fn add_explanation(
    alloc: Global,
    object: &mut Object,
    texts: &[NamedText],
    explanation: &Explanation,
) -> Result<(), AllocError> {
    match (&explanation.first, explanation.words) {
        (Some(first), _) => {
            add_halt(object, explanation.halt)?;
            let calls = explanation.calls.as_slice();
            add_told(alloc, object, texts, first, calls)
        }
        (None, Some(words)) => add_message(object, words),
        (None, None) => Ok(()),
    }
}
