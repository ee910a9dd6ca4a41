// The tokens of a text.

use super::vectors::{VECTORS_1, VECTORS_2, VECTORS_3, VECTORS_4, VECTORS_5, Vector};
use cc_syntax::{Place, SyntaxFault, Token, TokenKind, tokens};
use std::alloc::Global;
use std::fmt::{self, Write};
use std::process::Abort;

/// The rest of the line that is expected. Writing anything but its next bytes is an error.
#[derive(Drop)]
struct Wanted<'a> {
    left: &'a [u8],
}

impl Write for Wanted<'_> {
    fn write_str(&mut self, piece: &str) -> fmt::Result {
        let bytes = piece.as_bytes();
        if !self.left.starts_with(bytes) {
            return Err(fmt::Error);
        }
        self.left = &self.left[bytes.len()..];
        Ok(())
    }
}

/// The name of a token's kind: `another` if these bytes do not spell the keyword or punctuator.
fn kind_name(kind: TokenKind, bytes: &[u8]) -> &'static str {
    match kind {
        TokenKind::Identifier => "Identifier",
        TokenKind::Keyword(word) => if word.bytes() == bytes {
            "Keyword"
        } else {
            "another"
        },
        TokenKind::Punctuator(mark) => if mark.bytes() == bytes {
            "Punctuator"
        } else {
            "another"
        },
        TokenKind::Number(_, _) => "Number",
    }
}

/// A token, for example `; 0 4 Keyword`, or `; 5 7 Number(Int, 12)`.
fn show_token(wanted: &mut Wanted<'_>, text: &[u8], token: Token) -> fmt::Result {
    let Token { kind, from, to } = token;
    let Some(bytes) = text.get(from..to) else {
        return Err(fmt::Error);
    };
    write!(wanted, "; {from} {to} {}", kind_name(kind, bytes))?;
    match kind {
        TokenKind::Number(scalar, word) => write!(wanted, "({scalar:?}, {word})"),
        _ => Ok(()),
    }
}

/// The tokens, for example `tokens 1; 0 4 Keyword`.
fn show_tokens(wanted: &mut Wanted<'_>, text: &[u8], found: &[Token]) -> fmt::Result {
    write!(wanted, "tokens {}", found.len())?;
    for token in found {
        show_token(wanted, text, *token)?;
    }
    Ok(())
}

/// The fault, for example `fault BadByte 1 4`.
fn show_fault(wanted: &mut Wanted<'_>, fault: &SyntaxFault) -> fmt::Result {
    match fault.place() {
        Some(Place { line, column }) => write!(wanted, "fault {fault} {line} {column}"),
        None => write!(wanted, "fault {fault}"),
    }
}

/// Whether the line describes the text's tokens, or its fault.
fn holds(alloc: Global, text: &[u8], line: &str) -> bool {
    let mut wanted = Wanted {
        left: line.as_bytes(),
    };
    let shown = match tokens(alloc, text) {
        Ok(found) => show_tokens(&mut wanted, text, found.as_slice()),
        Err(fault) => show_fault(&mut wanted, &fault),
    };
    shown.is_ok() && wanted.left.is_empty()
}

fn all_hold(rt: &(impl AllocGlobal + Abort), vectors: &[Vector]) {
    for (text, line) in vectors {
        assert!(rt; holds(rt.alloc(), text, line), "wants {line}");
    }
}

#[test]
fn vectors(rt: HostRuntime) {
    all_hold(&rt, VECTORS_1.as_slice());
    all_hold(&rt, VECTORS_2.as_slice());
    all_hold(&rt, VECTORS_3.as_slice());
    all_hold(&rt, VECTORS_4.as_slice());
    all_hold(&rt, VECTORS_5.as_slice());
}
