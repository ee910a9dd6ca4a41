// The messages for the calls that are open.

use cc_diagnostic::{Diagnostic, MessagePart, message};
use cc_tokens::Scalar;
use cc_trace::{OpenCall, Replay};
use std::alloc::{AllocError, Global};

/// At most this many open calls are shown.
const MOST_CALLS: usize = 8;

// The message for a call, for example `note: gcd(12, 18) is called here`.
fn message_of(alloc: Global, call: OpenCall<'_>) -> Result<String, AllocError> {
    let mut parts = Vec::new(alloc);
    parts.push(MessagePart::Words("note: "))?;
    parts.push(MessagePart::Name(call.name.bytes.as_slice()))?;
    parts.push(MessagePart::Words("("))?;
    for (number, word) in call.arguments.words().iter().enumerate() {
        if number > 0 {
            parts.push(MessagePart::Words(", "))?;
        }
        parts.push(MessagePart::Word(Scalar::Int, *word))?;
    }
    parts.push(MessagePart::Words(") is called here"))?;
    message(alloc, parts.as_slice())
}

// The message for a call, with its place.
fn told(alloc: Global, call: OpenCall<'_>) -> Result<Diagnostic, AllocError> {
    Ok(Diagnostic {
        at: Some(call.at),
        message: message_of(alloc, call)?,
        related: None,
    })
}

/// The messages for the calls that are open in a run, the innermost first; only the first few if there are many.
pub(crate) fn of_calls(alloc: Global, replay: &Replay<'_>) -> Result<Vec<Diagnostic>, AllocError> {
    let mut calls = Vec::new(alloc);
    for number in 0..MOST_CALLS {
        match replay.open_call(number) {
            Some(call) => calls.push(told(alloc, call)?)?,
            None => return Ok(calls),
        }
    }
    let left = replay.open().saturating_sub(1).saturating_sub(MOST_CALLS);
    if left > 0
        && let Some(call) = replay.open_call(MOST_CALLS)
    {
        let message = format!(in alloc; "note: and here, the next of {left} more open calls")?;
        calls.push(Diagnostic {
            at: Some(call.at),
            message,
            related: None,
        })?;
    }
    Ok(calls)
}
