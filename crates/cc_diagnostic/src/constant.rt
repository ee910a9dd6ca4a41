// Why an expression is not a constant expression: it contains a name or a call, or its value is not defined.
//
// The reason is found in its tokens: the first name decides.

use cc_tokens::{NextToken, Token, TokenKind, next_token};

/// Why an expression is not a constant expression.
#[derive(Clone, Copy)]
pub enum Cause {
    /// The expression contains a name, at these bytes of the text.
    Name(usize, usize),
    /// The expression calls a name, at these bytes of the text.
    Call(usize, usize),
    /// The expression divides by 0, or shifts by too much.
    Undefined,
}

// The token at or after an offset.
fn token_at(text: &[u8], at: usize) -> Option<Token> {
    match next_token(text, at.min(text.len())) {
        NextToken::Token(token) => Some(token),
        NextToken::End | NextToken::Error(_, _) => None,
    }
}

// Whether a token ends a constant expression, if no name came before it.
fn is_end(text: &[u8], token: Token) -> bool {
    match text.get(token.from) {
        Some(byte) => matches!(*byte, b',' | b';' | b']' | b'}'),
        None => true,
    }
}

// The cause if this is the first name: the name, or a call of it if a parenthesis follows.
fn of_name(text: &[u8], name: Token) -> Cause {
    match token_at(text, name.to) {
        Some(token) if text.get(token.from) == Some(&b'(') => Cause::Call(name.from, name.to),
        _ => Cause::Name(name.from, name.to),
    }
}

/// Why the expression at this offset of a text is not a constant expression.
pub fn why(text: &[u8], at: usize) -> Cause {
    let mut at = at;
    for _ in 0..text.len() {
        let Some(token) = token_at(text, at) else {
            return Cause::Undefined;
        };
        if matches!(token.kind, TokenKind::Identifier) {
            return of_name(text, token);
        }
        if is_end(text, token) {
            return Cause::Undefined;
        }
        at = token.to;
    }
    Cause::Undefined
}
