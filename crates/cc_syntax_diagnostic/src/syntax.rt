// Messages about a text that has no tree.
//
// For an unexpected token, a reason is looked for in this order: this C leaves it out; a word before it is nearly a keyword, or
// is one of another language; something is missing before it. Otherwise the token is reported, with what could come there.

ghost use Rattle.std.specs.Prelude.{◌≡◌, ◌≤◌, length, is_some, IfOk, IfSome};
ghost use Rattle.cc_tokens.specs.Fault.{fault_place};

use super::around::Around;
use super::diagnostic::{Diagnostic, Related};
use super::expected::{Prefix, Reply};
use super::left_out::INNER_FUNCTIONS;
use super::lexical::{bad_byte, bad_constant, constant_too_large};
use super::offset::{moved, offset_in};
use super::parts::{MessagePart, message, words};
use super::reason::{Reason, find_reason};
use cc_syntax::{DEEPEST_LEVEL, MOST_TOKENS};
use cc_tokens::{Keyword, MOST_BYTES, Punctuator, SyntaxFault, Token, TokenKind, tokens};
use std::alloc::{AllocError, Global};

/// A message about a fault, with its place. The place differs from the fault's if something is missing or misspelt.
#[derive(Drop)]
struct Told {
    at: usize,
    message: String,
    related: Option<Related>,
}

// A message about an offset.
fn alone(at: usize, message: Result<String, AllocError>) -> Result<Told, AllocError> {
    let message = message?;
    let related = None;
    Ok(Told {
        at,
        message,
        related,
    })
}

// Adds the words of a list, such as `',', ';' or ')'`.
fn add_list(message: &mut String, list: &[&str]) -> Result<(), AllocError> {
    for (i, word) in list.iter().enumerate() {
        if i > 0 {
            let is_last = i == list.len() - 1;
            message.push_str(if is_last { " or " } else { ", " })?;
        }
        message.push_str(word)?;
    }
    Ok(())
}

// The tokens of a text; an empty list if it cannot be split into tokens.
fn tokens_of(alloc: Global, text: &[u8]) -> Result<Vec<Token>, AllocError> {
    match tokens(alloc, text) {
        Ok(found) => Ok(found),
        Err(SyntaxFault::OutOfMemory) => Err(AllocError),
        Err(_) => Ok(Vec::new(alloc)),
    }
}

// What could come in place of a token.
fn expected(
    alloc: Global,
    text: &[u8],
    tokens: &[Token],
    at: usize,
) -> Result<Vec<&'static str>, AllocError> {
    let mut prefix = Prefix::new(alloc, text, tokens, at)?;
    let expected = prefix.expected(alloc);
    drop(prefix);
    expected
}

// Adds the words of a list, if it has any, after other words.
fn with_list(before: String, list: &[&str]) -> Result<String, AllocError> {
    let mut message = before;
    if !list.is_empty() {
        message.push_str(", expected ")?;
        add_list(&mut message, list)?;
    }
    Ok(message)
}

// Reports a token, and what could come in its place.
fn instead(alloc: Global, around: &Around<'_>, list: &[&str]) -> Result<Told, AllocError> {
    let before = message(alloc, &[MessagePart::Words("unexpected "), around.found()])?;
    Ok(Told {
        at: around.place(),
        message: with_list(before, list)?,
        related: around.unclosed(),
    })
}

// Reports what is missing before a token.
fn missing(alloc: Global, around: &Around<'_>, list: &[&str]) -> Result<Told, AllocError> {
    let mut message = String::from_str(alloc, "expected ")?;
    add_list(&mut message, list)?;
    let found = match around.next(0) {
        Some(_) => around.found(),
        None => MessagePart::Words("the end of the text"),
    };
    write!(message, " before {found}")?;
    Ok(Told {
        at: around.end_before(),
        message,
        related: around.left_open(list),
    })
}

// Whether a word of a list ends something, as `;` and `)` do.
fn ends(word: &str) -> bool {
    matches!(word.as_bytes(), [_, b';' | b')' | b']' | b'}', _])
}

// Whether any word of a list ends something.
fn one_ends(list: &[&str]) -> bool {
    for word in list {
        if ends(word) {
            return true;
        }
    }
    false
}

// Whether a list only has things that end or separate something, and at least one that ends something.
fn is_missing(list: &[&str]) -> bool {
    let begins = match list.first() {
        Some(first) => !first.starts_with("'") || *first == "'('" || *first == "'while'",
        None => true,
    };
    !begins && one_ends(list)
}

// Reports that something is missing before a token, or that the token is unexpected, depending on what could come in its place.
fn by_list(alloc: Global, around: &Around<'_>, list: &[&str]) -> Result<Told, AllocError> {
    if is_missing(list) {
        missing(alloc, around, list)
    } else {
        instead(alloc, around, list)
    }
}

// Whether a list begins with a name.
fn is_name(list: &[&str]) -> bool {
    match list.first() {
        Some(first) => *first == "a name",
        None => false,
    }
}

// Reports a token, with the reason why it is unexpected.
fn for_reason(
    alloc: Global,
    around: &Around<'_>,
    reason: Reason<'_>,
    list: &[&str],
) -> Result<Told, AllocError> {
    let before = message(
        alloc,
        &[
            MessagePart::Words("unexpected "),
            MessagePart::Token(reason.found),
        ],
    )?;
    let count = if reason.is_keyword && is_name(list) {
        list.len()
    } else {
        0
    };
    let mut message = with_list(before, list.get(..count).unwrap_or(list))?;
    let said = reason.said;
    write!(message, ": {said}")?;
    if let Some(spelling) = reason.meant {
        write!(message, "'{spelling}'?")?;
    }
    Ok(Told {
        at: reason.at,
        message,
        related: if said == INNER_FUNCTIONS {
            around.outermost()
        } else {
            None
        },
    })
}

// Whether a missing token is a better report than a reason: what is missing may be the end of the line before.
fn gives_way(around: &Around<'_>, reason: Reason<'_>) -> bool {
    reason.is_keyword || (reason.at == around.at() && around.begins_line())
}

// Reports the unexpected token at an offset, given all tokens of the text.
fn unexpected_of(
    alloc: Global,
    text: &[u8],
    tokens: &[Token],
    at: usize,
) -> Result<Told, AllocError> {
    let around = Around::new(text, tokens, at);
    let list = expected(alloc, text, tokens, at)?;
    let told = match find_reason(&around) {
        Some(reason) if !(is_missing(list.as_slice()) && gives_way(&around, reason)) => {
            for_reason(alloc, &around, reason, list.as_slice())
        }
        _ => by_list(alloc, &around, list.as_slice()),
    };
    drop(list);
    told
}

// Reports an unexpected token.
fn unexpected(alloc: Global, text: &[u8], at: usize) -> Result<Told, AllocError> {
    let tokens = tokens_of(alloc, text)?;
    let told = unexpected_of(alloc, text, tokens.as_slice(), at);
    drop(tokens);
    told
}

// Whether the two tokens before an offset are `for (`: a declaration may come there, but no statement.
fn begins_header(tokens: &[Token], at: usize) -> bool {
    let mut before = None;
    let mut second = None;
    for token in tokens {
        if token.from < at {
            second = before;
            before = Some(token.kind);
        }
    }
    matches!(second, Some(TokenKind::Keyword(Keyword::For)))
        && matches!(
            before,
            Some(TokenKind::Punctuator(Punctuator::OpenParenthesis))
        )
}

// Words for something that has more than a limit allows.
fn more_than(alloc: Global, what: &str, most: usize, of: &str) -> Result<String, AllocError> {
    format!(in alloc; "{what} more than {most} {of}")
}

// The message about a token that exceeds a limit of the grammar: it begins a statement or a declaration, or is one too many in an
// expression.
fn too_deep(alloc: Global, text: &[u8], at: usize) -> Result<String, AllocError> {
    let tokens = tokens_of(alloc, text)?;
    let mut prefix = Prefix::new(alloc, text, tokens.as_slice(), at)?;
    let reply = prefix.ask(alloc, "return")?;
    if reply == Reply::PastLimit || begins_header(tokens.as_slice(), at) {
        more_than(alloc, "statements are nested", DEEPEST_LEVEL, "levels deep")
    } else {
        more_than(alloc, "the expression has", MOST_TOKENS, "tokens")
    }
}

// The message about a fault at an offset.
fn told_at(alloc: Global, text: &[u8], fault: &SyntaxFault, at: usize) -> Result<Told, AllocError> {
    match fault {
        SyntaxFault::Unexpected(_) => unexpected(alloc, text, at),
        SyntaxFault::BadByte(_) => alone(at, bad_byte(alloc, text, at)),
        SyntaxFault::UnclosedComment(_) => alone(at, words(alloc, "the comment is never closed")),
        SyntaxFault::BadConstant(_) => alone(at, bad_constant(alloc, text, at)),
        SyntaxFault::ConstantTooLarge(_) => alone(at, constant_too_large(alloc, text, at)),
        SyntaxFault::TooDeep(_) => alone(at, too_deep(alloc, text, at)),
        SyntaxFault::SourceTooLarge => {
            alone(at, more_than(alloc, "the text has", MOST_BYTES, "bytes"))
        }
        SyntaxFault::OutOfMemory => alone(at, words(alloc, "memory ran out")),
    }
}

/// Makes a diagnostic for the fault that `parse` returned for a text: which byte, number or token was found, and what could come
/// there, what is missing before it, or what to write instead of what this C leaves out; or which limit was exceeded. If something is
/// missing, the diagnostic's place is after the token before it; if a word is misspelt, the place is at that word.
///
/// `AllocError` if memory runs out.
pub fn of_syntax(alloc: Global, text: &[u8], fault: &SyntaxFault) -> Result<Diagnostic, AllocError>
    // The diagnostic has a place exactly if the fault has one.
    ensures placed { IfOk result (λ told. is_some told.at ≡ is_some (fault_place fault.now)) }
    ensures within { IfOk result (λ told. IfSome told.at (λ at. at ≤ length text.now)) }
{
    let at = offset_in(text, fault.place());
    let Told {
        at: place,
        message,
        related,
    } = told_at(alloc, text, fault, at.unwrap_or(0))?;
    Ok(Diagnostic {
        at: moved(at, place, text),
        message,
        related,
    })
}
