// Warnings about a program: it may run, but probably not as it was meant to.
//
// The walk finds what is in expressions and statements. This module has the warnings that tokens give rise to, and all
// messages.

use super::code::Element;
use super::walk::Walk;
use cc_syntax::{Identifier, SyntaxFault, Unit, parse};
use cc_syntax_diagnostic::{Diagnostic, MessagePart, message};
use cc_tokens::{NextToken, Token, next_token};
use std::alloc::{AllocError, Global};

/// At most this many warnings are reported.
const MOST_WARNINGS: usize = 20;

/// What a warning is about.
#[derive(Clone, Copy)]
pub enum Warning<'a> {
    /// A constant index outside its array.
    Index(Element<'a>, u32),
    /// A statement without effect, at the offset of its first name.
    NoEffect(usize),
    /// A function that has a result, but whose end can be reached.
    NoReturn(&'a Identifier),
}

// The token at or after an offset.
fn token_at(text: &[u8], at: usize) -> Option<Token> {
    match next_token(text, at.min(text.len())) {
        NextToken::Token(token) => Some(token),
        NextToken::End | NextToken::Error(_, _) => None,
    }
}

fn byte_at(text: &[u8], at: usize) -> u8 {
    text.get(at).copied().unwrap_or(0)
}

// The offset of the brace that ends a function's body, given the offset of the function's name.
fn end_of_body(text: &[u8], at: usize) -> usize {
    let mut at = at;
    let mut depth: usize = 0;
    for _ in 0..text.len() {
        let Some(token) = token_at(text, at) else {
            return at;
        };
        let byte = byte_at(text, token.from);
        if byte == b'{' {
            depth = depth.saturating_add(1);
        }
        if byte == b'}' {
            depth = depth.saturating_sub(1);
            if depth == 0 {
                return token.from;
            }
        }
        at = token.to;
    }
    at
}

fn no_return(alloc: Global, text: &[u8], name: &Identifier) -> Result<Diagnostic, AllocError> {
    let parts = [
        MessagePart::Words("warning: "),
        MessagePart::Token(name.bytes.as_slice()),
        MessagePart::Words(" has no return at its end, and gives 0 there"),
    ];
    let message = message(alloc, &parts)?;
    Ok(Diagnostic {
        at: Some(end_of_body(text, name.at)),
        message,
        related: None,
    })
}

fn index(alloc: Global, element: Element<'_>, word: u32) -> Result<Diagnostic, AllocError> {
    let parts = [
        MessagePart::Words("warning: index "),
        MessagePart::Word(element.index, word),
        MessagePart::Words(" is outside "),
        MessagePart::Name(element.array.bytes.as_slice()),
        MessagePart::Words("["),
        MessagePart::Count(element.extent.length),
        MessagePart::Words("]"),
    ];
    let message = message(alloc, &parts)?;
    Ok(Diagnostic {
        at: Some(element.array.at),
        message,
        related: None,
    })
}

// A warning with this message.
fn plain(alloc: Global, at: usize, words: &str) -> Result<Diagnostic, AllocError> {
    let message = String::from_str(alloc, words)?;
    Ok(Diagnostic {
        at: Some(at),
        message,
        related: None,
    })
}

fn told(alloc: Global, text: &[u8], warning: Warning<'_>) -> Result<Diagnostic, AllocError> {
    match warning {
        Warning::NoReturn(name) => no_return(alloc, text, name),
        Warning::Index(element, word) => index(alloc, element, word),
        Warning::NoEffect(at) => plain(alloc, at, "warning: this statement has no effect"),
    }
}

// What to say about `=` if a sign directly follows it, and a space follows the sign.
fn of_sign(text: &[u8], token: Token) -> Option<&'static str> {
    let is_assignment = byte_at(text, token.from) == b'='
        && token.to == token.from.saturating_add(1);
    let is_apart = byte_at(text, token.to.saturating_add(1)) == b' ';
    match byte_at(text, token.to) {
        b'+' if is_assignment && is_apart => Some("warning: '=+' sets, did you mean '+='?"),
        b'-' if is_assignment && is_apart => Some("warning: '=-' sets, did you mean '-='?"),
        _ => None,
    }
}

// Adds the warnings that a text's tokens give rise to.
fn add_signs(alloc: Global, text: &[u8], list: &mut Vec<Diagnostic>) -> Result<(), AllocError> {
    let mut at = 0;
    for _ in 0..text.len() {
        let Some(token) = token_at(text, at) else {
            return Ok(());
        };
        if let Some(said) = of_sign(text, token)
            && list.len() < MOST_WARNINGS
        {
            list.push(plain(alloc, token.from, said)?)?;
        }
        at = token.to;
    }
    Ok(())
}

// Adds the warnings that a walk found.
fn add_found(
    alloc: Global,
    text: &[u8],
    found: &[Warning<'_>],
    list: &mut Vec<Diagnostic>,
) -> Result<(), AllocError> {
    for warning in found {
        if list.len() < MOST_WARNINGS {
            list.push(told(alloc, text, *warning)?)?;
        }
    }
    Ok(())
}

// All warnings about a text, given those that a walk found in it.
fn all(alloc: Global, text: &[u8], found: &[Warning<'_>]) -> Result<Vec<Diagnostic>, AllocError> {
    let mut list = Vec::new(alloc);
    add_found(alloc, text, found, &mut list)?;
    add_signs(alloc, text, &mut list)?;
    Ok(list)
}

// The warnings about a unit.
fn of_unit(alloc: Global, unit: &Unit) -> Result<Vec<Diagnostic>, AllocError> {
    let mut walk = Walk::new(alloc, Vec::new(alloc), None)?;
    let walked = walk.externals(unit.externals());
    let list = all(alloc, unit.text(), walk.warnings.as_slice());
    drop(walk);
    match walked {
        Ok(()) => list,
        Err(error) => {
            drop(list);
            Err(error)
        }
    }
}

/// Returns the warnings about a text that is a program, at most 20: a constant index outside its array, a statement without
/// effect, a function with a result, other than `main`, whose end can be reached without a `return`, and `=+` or `=-` with a
/// space after it.
///
/// Fails with `AllocError` if memory runs out.
pub fn warnings(alloc: Global, text: &[u8]) -> Result<Vec<Diagnostic>, AllocError> {
    match parse(alloc, text) {
        Ok(unit) => {
            let list = of_unit(alloc, &unit);
            drop(unit);
            list
        }
        Err(SyntaxFault::OutOfMemory) => Err(AllocError),
        Err(fault) => {
            drop(fault);
            Ok(Vec::new(alloc))
        }
    }
}
