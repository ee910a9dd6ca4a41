// What surrounds an unexpected token: the tokens before it, and the brackets that are open there.
//
// The tokens before it are the beginning of some valid text, so their brackets are nested correctly.

use super::diagnostic::Related;
use super::parts::MessagePart;
use cc_tokens::{Token, TokenKind};

/// A text, its tokens before a given token, those from that token on, and the token's offset.
#[derive(Clone, Copy)]
pub struct Around<'a> {
    text: &'a [u8],
    before: &'a [Token],
    behind: &'a [Token],
    at: usize,
}

// The note for a bracket that is open.
fn not_closed(byte: u8) -> &'static str {
    match byte {
        b'(' => "this '(' is not closed",
        b'[' => "this '[' is not closed",
        _ => "this '{' is not closed",
    }
}

// The token that closes a bracket, in quotes, as it is in a list of expected tokens.
fn closing(byte: u8) -> &'static [u8] {
    match byte {
        b'(' => b"')'",
        b'[' => b"']'",
        _ => b"'}'",
    }
}

fn is_open(byte: u8) -> bool {
    byte == b'(' || byte == b'[' || byte == b'{'
}

fn is_closing(byte: u8) -> bool {
    byte == b')' || byte == b']' || byte == b'}'
}

// How many tokens begin before an offset.
fn count_before(tokens: &[Token], at: usize) -> usize {
    for (i, token) in tokens.iter().enumerate() {
        if token.from >= at {
            return i;
        }
    }
    tokens.len()
}

// Whether a word is in a list.
fn is_listed(list: &[&str], word: &[u8]) -> bool {
    for listed in list {
        if listed.as_bytes() == word {
            return true;
        }
    }
    false
}

impl<'a> Around<'a> {
    /// Returns what surrounds the token that begins at the offset `at`, or the end of the text if no token does.
    pub fn new(text: &'a [u8], tokens: &'a [Token], at: usize) -> Around<'a> {
        let count = count_before(tokens, at);
        Around {
            text,
            before: tokens.get(..count).unwrap_or(tokens),
            behind: tokens.get(count..).unwrap_or(&[]),
            at,
        }
    }

    /// The offset of the token.
    pub fn at(&self) -> usize {
        self.at
    }

    /// The first byte of a token.
    fn first_byte(&self, token: Token) -> u8 {
        self.text.get(token.from).copied().unwrap_or(0)
    }

    /// The bytes of a token.
    pub fn bytes(&self, token: Option<Token>) -> &'a [u8] {
        match token {
            Some(token) => self.text.get(token.from..token.to).unwrap_or(b""),
            None => b"",
        }
    }

    /// Whether a token has this spelling.
    pub fn is(&self, token: Option<Token>, spelling: &[u8]) -> bool {
        self.bytes(token) == spelling
    }

    /// The bytes from one offset up to another.
    pub fn between(&self, from: usize, to: usize) -> &'a [u8] {
        self.text.get(from..to).unwrap_or(b"")
    }

    /// The bytes of the last token before an offset.
    pub fn last_before(&self, at: usize) -> &'a [u8] {
        match count_before(self.before, at).checked_sub(1) {
            Some(place) => self.bytes(self.before.get(place).copied()),
            None => b"",
        }
    }

    /// The token, or the one `count` after it; `None` past the end of the text.
    pub fn next(&self, count: usize) -> Option<Token> {
        self.behind.get(count).copied()
    }

    /// The last token before this one, or the one `count` before that.
    pub fn last(&self, count: usize) -> Option<Token> {
        let place = self.before.len().checked_sub(count)?.checked_sub(1)?;
        self.before.get(place).copied()
    }

    /// The token, in quotes.
    pub fn found(&self) -> MessagePart<'a> {
        match self.next(0) {
            Some(_) => MessagePart::Token(self.bytes(self.next(0))),
            None => MessagePart::Words("end of the text"),
        }
    }

    /// The end of the last token before this one.
    pub fn end_before(&self) -> usize {
        match self.last(0) {
            Some(token) => token.to,
            None => self.at,
        }
    }

    /// The place to report: the token's offset, or at the end of the text the end of the last token.
    pub fn place(&self) -> usize {
        match self.next(0) {
            Some(_) => self.at,
            None => self.end_before(),
        }
    }

    /// Whether a line ends between the last token before this one and the token itself.
    pub fn begins_line(&self) -> bool {
        self.between(self.end_before(), self.at).contains(&b'\n')
    }

    /// Whether a word is among the tokens before an offset.
    pub fn stands_before(&self, word: &[u8], at: usize) -> bool {
        for token in self.before {
            if token.from < at && self.bytes(Some(*token)) == word {
                return true;
            }
        }
        false
    }

    /// The number of the innermost bracket that is open after the first `count` tokens.
    fn innermost(&self, count: usize) -> Option<usize> {
        let mut closed: usize = 0;
        for (i, token) in self.before.iter().enumerate().rev() {
            let byte = self.first_byte(*token);
            if i < count && is_closing(byte) {
                closed = closed.saturating_add(1);
            }
            if i < count && is_open(byte) {
                if closed == 0 {
                    return Some(i);
                }
                closed -= 1;
            }
        }
        None
    }

    /// The innermost bracket that is open.
    pub fn open(&self) -> Option<Token> {
        let number = self.innermost(self.before.len())?;
        self.before.get(number).copied()
    }

    /// The token before the innermost bracket that is open.
    pub fn before_open(&self) -> Option<Token> {
        let number = self.innermost(self.before.len())?;
        self.before.get(number.checked_sub(1)?).copied()
    }

    /// The token before the brackets that the last token closes.
    pub fn before_closed(&self) -> Option<Token> {
        let number = self.innermost(self.before.len().checked_sub(1)?)?;
        self.before.get(number.checked_sub(1)?).copied()
    }

    /// The first brace that is open.
    fn open_brace(&self) -> Option<Token> {
        let mut depth: usize = 0;
        let mut first = None;
        for token in self.before {
            let byte = self.first_byte(*token);
            if byte == b'{' {
                if depth == 0 {
                    first = Some(*token);
                }
                depth = depth.saturating_add(1);
            }
            if byte == b'}' {
                depth = depth.saturating_sub(1);
            }
        }
        if depth == 0 { None } else { first }
    }

    /// Whether the token is inside braces.
    pub fn is_in_braces(&self) -> bool {
        self.open_brace().is_some()
    }

    fn note(&self, bracket: Option<Token>) -> Option<Related> {
        let token = bracket?;
        Some(Related {
            at: token.from,
            words: not_closed(self.first_byte(token)),
        })
    }

    /// A note about the first brace that is open.
    pub fn outermost(&self) -> Option<Related> {
        self.note(self.open_brace())
    }

    /// At the end of the text, a note about the innermost bracket that is open.
    pub fn unclosed(&self) -> Option<Related> {
        match self.next(0) {
            Some(_) => None,
            None => self.note(self.open()),
        }
    }

    /// A note about the innermost bracket that is open, if the list has the token that closes it, and the token at hand
    /// does not begin an operand.
    pub fn left_open(&self, list: &[&str]) -> Option<Related> {
        let bracket = self.open()?;
        let closing = closing(self.first_byte(bracket));
        let is_operand = match self.next(0) {
            Some(token) => matches!(token.kind, TokenKind::Identifier | TokenKind::Number(_, _)),
            None => false,
        };
        if !is_operand && is_listed(list, closing) {
            self.note(Some(bracket))
        } else {
            None
        }
    }
}
