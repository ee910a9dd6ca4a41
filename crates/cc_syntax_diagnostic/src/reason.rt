// Why a token is unexpected, if that can be said: it is something that this C leaves out, or a word is misspelt.

use super::around::Around;
use super::left_out::{
    ACTIONS, ARRAY_PARAMETERS, COMMA, DESIGNATORS, INNER_FUNCTIONS, KEYWORDS, LABELS, LISTS,
    LOCAL_ARRAYS, NO_TARGET, POINTERS, ROWS, SINGLE_BYTES, STRUCTURES, VOID_CASTS, said_of,
    said_of_foreign,
};
use super::near::near_keyword;
use cc_tokens::{Token, TokenKind};

/// A reason: the offset and the bytes of what it is about, what to say, the spelling that was meant, if known, and whether the
/// reason is a keyword that this C leaves out.
#[derive(Clone, Copy)]
pub struct Reason<'a> {
    pub at: usize,
    pub found: &'a [u8],
    pub said: &'static str,
    pub meant: Option<&'static str>,
    pub is_keyword: bool,
}

// A reason that consists of words.
fn plain<'a>(at: usize, found: &'a [u8], said: &'static str) -> Reason<'a> {
    Reason {
        at,
        found,
        said,
        meant: None,
        is_keyword: false,
    }
}

// The reason that another spelling was meant.
fn meant<'a>(at: usize, found: &'a [u8], spelling: &'static str) -> Reason<'a> {
    Reason {
        at,
        found,
        said: "did you mean ",
        meant: Some(spelling),
        is_keyword: false,
    }
}

fn is_name(token: Option<Token>) -> bool {
    match token {
        Some(token) => matches!(token.kind, TokenKind::Identifier),
        None => false,
    }
}

fn is_one_of(bytes: &[u8], words: &[&[u8]]) -> bool {
    for word in words {
        if *word == bytes {
            return true;
        }
    }
    false
}

// What to say about `[`, given what precedes it.
fn of_bracket(around: &Around<'_>) -> Option<&'static str> {
    let last = around.bytes(around.last(0));
    let is_inside = around.is_in_braces();
    match last {
        [b']'] => Some(ROWS),
        [b'{'] | [b','] if is_inside => Some(DESIGNATORS),
        [b')'] => None,
        _ if is_inside => Some(LOCAL_ARRAYS),
        _ => Some(ARRAY_PARAMETERS),
    }
}

// Whether what ends before the token is an operand that could be assigned to, and not a parameter.
fn is_behind_target(around: &Around<'_>) -> bool {
    let last = around.last(0);
    (is_name(last) || around.is(last, b"]"))
        && (around.is_in_braces() || !around.is(around.open(), b"("))
}

// What to say about an operator that forms a statement.
fn of_action(around: &Around<'_>, bytes: &[u8]) -> Option<&'static str> {
    let said = said_of(&ACTIONS, bytes)?;
    if is_behind_target(around) || is_name(around.next(1)) {
        Some(said)
    } else if around.is(around.last(0), b")") && around.is_in_braces() {
        Some(NO_TARGET)
    } else {
        None
    }
}

// What to say about `,`: it separates expressions if one ends before it.
fn of_comma(around: &Around<'_>) -> Option<&'static str> {
    let last = around.bytes(around.last(0));
    let ends = !is_one_of(last, &[b",", b"(", b"{", b"=", b";"]);
    if ends && around.is_in_braces() {
        Some(COMMA)
    } else {
        None
    }
}

// What to say about `:`.
fn of_colon(around: &Around<'_>) -> Option<&'static str> {
    let second = around.bytes(around.last(1));
    let begins = is_one_of(second, &[b"{", b"}", b";", b")", b":", b"else", b"do"]);
    if begins && is_name(around.last(0)) {
        Some(LABELS)
    } else {
        None
    }
}

// What to say about `(`: a function's parameters, or a pointer to a function.
fn of_parenthesis(around: &Around<'_>) -> Option<&'static str> {
    if around.is(around.next(1), b"*") {
        Some(POINTERS)
    } else if is_name(around.last(0)) && around.is_in_braces() {
        Some(INNER_FUNCTIONS)
    } else {
        None
    }
}

// Whether a function is declared in a place where a statement could come.
fn is_inner_function(around: &Around<'_>) -> bool {
    let last = around.bytes(around.last(0));
    around.is(around.next(0), b"void")
        && is_one_of(last, &[b";", b"{", b"}"])
        && around.is_in_braces()
}

fn is_void_cast(around: &Around<'_>) -> bool {
    around.is(around.next(0), b"void") && around.is(around.last(0), b"(")
}

// Whether the name before the token can only be that of an array of `unsigned char`.
fn is_behind_byte_name(around: &Around<'_>) -> bool {
    is_name(around.last(0)) && around.is(around.last(1), b"char")
}

// What to say about a token, given its spelling and its surroundings.
fn said(around: &Around<'_>, bytes: &[u8]) -> Option<&'static str> {
    match bytes {
        _ if is_behind_byte_name(around) => Some(SINGLE_BYTES),
        [b'*'] | [b'&'] => Some(POINTERS),
        [b'['] => of_bracket(around),
        [b'('] => of_parenthesis(around),
        [b','] => of_comma(around),
        [b':'] => of_colon(around),
        [b'{'] if is_one_of(around.bytes(around.last(0)), &[b"=", b"{", b","]) => Some(LISTS),
        [b';'] if around.is(around.last(0), b"}") => Some("leave it out"),
        _ if is_void_cast(around) => Some(VOID_CASTS),
        _ if is_inner_function(around) => Some(INNER_FUNCTIONS),
        _ => of_action(around, bytes),
    }
}

// The reason that this C leaves the token out, if it does.
fn left_out<'a>(around: &Around<'a>) -> Option<Reason<'a>> {
    let bytes = around.bytes(around.next(0));
    match said_of(&KEYWORDS, bytes) {
        Some(said) => Some(Reason {
            at: around.at(),
            found: bytes,
            said,
            meant: None,
            is_keyword: true,
        }),
        None => Some(plain(around.at(), bytes, said(around, bytes)?)),
    }
}

// Two adjacent tokens, and the one token that was meant.
static JOINED: [(&[u8], &[u8], &str); 9] = [
    (b":", b"=", "="),
    (b"=", b">", ">="),
    (b"=", b"<", "<="),
    (b"==", b"=", "=="),
    (b"!=", b"=", "!="),
    (b"<", b">", "!="),
    (b"&&", b"=", "&="),
    (b"||", b"=", "|="),
    (b"-", b">", "->"),
];

// What to say about two adjacent tokens.
fn of_joined<'a>(around: &Around<'a>, first: Token, second: Token) -> Option<Reason<'a>> {
    let (before, behind) = (around.bytes(Some(first)), around.bytes(Some(second)));
    if first.to != second.from {
        return None;
    }
    for (left, right, spelling) in JOINED.iter() {
        if *left == before && *right == behind {
            let found = around.between(first.from, second.to);
            if *spelling == "->" {
                return Some(plain(first.from, found, STRUCTURES));
            }
            return Some(meant(first.from, found, spelling));
        }
    }
    None
}

// Whether the token and a neighbour were meant to be one token.
fn joined<'a>(around: &Around<'a>) -> Option<Reason<'a>> {
    let token = around.next(0)?;
    if let Some(last) = around.last(0)
        && let Some(reason) = of_joined(around, last, token)
    {
        return Some(reason);
    }
    of_joined(around, token, around.next(1)?)
}

// Whether a name is declared here: a type precedes it.
fn is_declared(around: &Around<'_>, name: Token) -> bool {
    let before = around.last_before(name.from);
    is_one_of(before, &[b"int", b"unsigned", b"signed", b"void", b"char"])
}

// What to say about a name that did not occur before: it is a word of another language, or nearly a keyword.
fn of_name<'a>(around: &Around<'a>, name: Option<Token>) -> Option<Reason<'a>> {
    let name = name?;
    let found = around.bytes(Some(name));
    if !is_name(Some(name)) || around.stands_before(found, name.from) || is_declared(around, name) {
        return None;
    }
    match said_of_foreign(found) {
        Some(said) => Some(plain(name.from, found, said)),
        None => Some(meant(name.from, found, near_keyword(found)?)),
    }
}

// Whether a word at the token or before it is misspelt.
fn misspelt<'a>(around: &Around<'a>) -> Option<Reason<'a>> {
    let words = [
        around.next(0),
        around.last(0),
        around.before_closed(),
        around.before_open(),
    ];
    for word in &words {
        if let Some(reason) = of_name(around, *word) {
            return Some(reason);
        }
    }
    None
}

// What is left out or misspelt, for a token that is not part of another one.
fn alone<'a>(around: &Around<'a>) -> Option<Reason<'a>> {
    if around.is(around.next(0), b":") {
        return left_out(around);
    }
    match misspelt(around) {
        Some(reason) => Some(reason),
        None => left_out(around),
    }
}

/// Why the token is unexpected, if that can be said.
pub fn find_reason<'a>(around: &Around<'a>) -> Option<Reason<'a>> {
    match joined(around) {
        Some(reason) => Some(reason),
        None => alone(around),
    }
}
