// What the remaining bytes of a text begin with: white space, a comment, a token, or an error.
//
// Each function returns what the function of the same name in specs/internal/Scan.antt returns. proofs/ shows that the functions
// in Scan.antt agree with the definition of a text's tokens.

ghost use Rattle.std.specs.Prelude.{◌≡◌, ◌+◌, ◌*◌, ◌<◌, ◌≤◌, ◌||◌, ◌&&◌, ◌==◌, true, length, drop, min, slice_index};
ghost use Rattle.std.specs.List.{find, fold, prefix_len, starts_with};
ghost use Rattle.std.specs.Str.{bytes_eq};
ghost use Rattle.std.specs.Char.{digit_value};
ghost use Rattle.cc_tokens.specs.Spelling.{keyword_bytes, punctuator_bytes};
ghost use Rattle.cc_tokens.specs.Constant.{is_digit_of, type_of_value};
ghost use Rattle.cc_tokens.specs.Tokens.{is_blank, is_nondigit, is_exponent_letter, begins_comment};
ghost use Rattle.cc_tokens.specs.internal.Scan.{begins, offset_within, goes_on, run_of, keywords_with, punctuators_with, keyword_named, punctuator_at, word_kind, base_of, prefix_of_base, suffix_of, constant_spelled, constant_kind, typed, comment_of, comment_head, head_of};

use super::lexical_error::LexicalError;
use super::scalar::Scalar;
use super::token::{Keyword, Punctuator, TokenKind};

/// What a search looks for.
#[derive(Clone, Copy)]
enum Mark {
    /// `*/`
    CommentEnd,
    /// The byte that ends a line.
    LineEnd,
    /// A backslash directly before the end of a line.
    Splice,
}

/// A kind of token whose bytes are read as one run.
#[derive(Clone, Copy)]
enum Run {
    Word,
    Number,
}

/// What a sequence of bytes begins with.
#[derive(Clone, Copy)]
pub enum Head {
    /// A byte of white space.
    Blank,
    /// A comment, with its length in bytes.
    Comment(usize),
    /// A token, with its length in bytes.
    Token(TokenKind, usize),
    /// An error, with its offset in bytes.
    Error(LexicalError, usize),
}

// The byte at an index, or 0 past the end.
fn byte_at(bytes: &[u8], i: usize) -> u8
    ensures value { result ≡ slice_index bytes.now i }
    ensures within { 0 < result → i < length bytes.now }
{
    if i < bytes.len() { bytes[i] } else { 0 }
}

fn is_blank(b: u8) -> bool
    ensures { result ≡ is_blank b }
{
    b == b' ' || (9 <= b && b <= 13)
}

fn is_nondigit(b: u8) -> bool
    ensures { result ≡ is_nondigit b }
{
    b.is_ascii_alphabetic() || b == b'_'
}

fn is_exponent_letter(b: u8) -> bool
    ensures { result ≡ is_exponent_letter b }
{
    (b == b'e' || b == b'E') || (b == b'p' || b == b'P')
}

fn goes_on(run: Run, before: u8, b: u8) -> bool
    ensures { result ≡ goes_on run before b }
{
    match run {
        Run::Word => is_nondigit(b) || b.is_ascii_digit(),
        Run::Number => {
            ((is_nondigit(b) || b.is_ascii_digit()) || b == b'.')
                || (is_exponent_letter(before) && (b == b'+' || b == b'-'))
        }
    }
}

fn begins_comment(bytes: &[u8]) -> bool
    ensures { result ≡ begins_comment bytes.now }
{
    byte_at(bytes, 0) == b'/' && (byte_at(bytes, 1) == b'*' || byte_at(bytes, 1) == b'/')
}

fn begins(mark: Mark, bytes: &[u8]) -> bool
    ensures { result ≡ begins mark bytes.now }
{
    match mark {
        Mark::CommentEnd => byte_at(bytes, 0) == b'*' && byte_at(bytes, 1) == b'/',
        Mark::LineEnd => byte_at(bytes, 0) == b'\n',
        Mark::Splice => {
            byte_at(bytes, 0) == b'\\'
                && (byte_at(bytes, 1) == b'\n'
                    || (byte_at(bytes, 1) == b'\r' && byte_at(bytes, 2) == b'\n'))
        }
    }
}

// The first of n offsets at which the mark is found, or n if it is not found.
fn offset_within(mark: Mark, bytes: &[u8], n: usize) -> usize
    requires { n ≤ length bytes.now }
    ensures value { result ≡ offset_within (begins mark) n bytes.now }
    ensures bound { result ≤ n }
    ensures here { result < n → begins mark (drop result bytes.now) ≡ true }
{
    for i in 0..n {
        if begins(mark, &bytes[i..]) {
            return i;
        }
    }
    n
}

// How many bytes the run at the beginning has. The caller knows that the first byte belongs to the run.
fn run_len(run: Run, bytes: &[u8]) -> usize
    requires { 0 < length bytes.now }
    ensures value { result ≡ run_of (goes_on run) bytes.now }
    ensures bound { result ≤ length bytes.now }
{
    let mut n = 1;
    while n < bytes.len() && goes_on(run, bytes[n - 1], bytes[n]) {
        n += 1;
    }
    n
}

// The keywords that begin with this byte.
fn keywords_with(first: u8) -> &'static [Keyword]
    ensures { result.now ≡ keywords_with first }
{
    // ORDER Keyword
    match first {
        b'_' => &[Keyword::Bool, Keyword::Complex, Keyword::Imaginary],
        b'a' => &[Keyword::Auto],
        b'b' => &[Keyword::Break],
        b'c' => &[
            Keyword::Case,
            Keyword::Char,
            Keyword::Const,
            Keyword::Continue,
        ],
        b'd' => &[Keyword::Default, Keyword::Do, Keyword::Double],
        b'e' => &[Keyword::Else, Keyword::Enum, Keyword::Extern],
        b'f' => &[Keyword::Float, Keyword::For],
        b'g' => &[Keyword::Goto],
        b'i' => &[Keyword::If, Keyword::Inline, Keyword::Int],
        b'l' => &[Keyword::Long],
        b'r' => &[Keyword::Register, Keyword::Restrict, Keyword::Return],
        b's' => &[
            Keyword::Short,
            Keyword::Signed,
            Keyword::Sizeof,
            Keyword::Static,
            Keyword::Struct,
            Keyword::Switch,
        ],
        b't' => &[Keyword::Typedef],
        b'u' => &[Keyword::Union, Keyword::Unsigned],
        b'v' => &[Keyword::Void, Keyword::Volatile],
        b'w' => &[Keyword::While],
        _ => &[],
    }
}

// The first of these keywords that the bytes spell.
fn keyword_in(few: &[Keyword], word: &[u8]) -> Option<Keyword>
    ensures { result ≡ find (λ k. bytes_eq (keyword_bytes k) word.now) few.now }
{
    few.iter().copied().find(|k| k.bytes() == word)
}

fn keyword_named(word: &[u8]) -> Option<Keyword>
    ensures { result ≡ keyword_named word.now }
{
    keyword_in(keywords_with(byte_at(word, 0)), word)
}

// The punctuators that begin with this byte, the longest first.
fn punctuators_with(first: u8) -> &'static [Punctuator]
    ensures { result.now ≡ punctuators_with first }
{
    // ORDER Punctuator
    match first {
        b'<' => &[
            Punctuator::ShiftLeftAssign,
            Punctuator::ShiftLeft,
            Punctuator::LessOrEqual,
            Punctuator::Less,
        ],
        b'>' => &[
            Punctuator::ShiftRightAssign,
            Punctuator::ShiftRight,
            Punctuator::GreaterOrEqual,
            Punctuator::Greater,
        ],
        b'=' => &[Punctuator::Equal, Punctuator::Assign],
        b'!' => &[Punctuator::NotEqual, Punctuator::Exclamation],
        b'&' => &[
            Punctuator::AndAnd,
            Punctuator::AmpersandAssign,
            Punctuator::Ampersand,
        ],
        b'|' => &[Punctuator::OrOr, Punctuator::BarAssign, Punctuator::Bar],
        b'+' => &[
            Punctuator::PlusAssign,
            Punctuator::PlusPlus,
            Punctuator::Plus,
        ],
        b'-' => &[
            Punctuator::MinusAssign,
            Punctuator::MinusMinus,
            Punctuator::Minus,
        ],
        b'*' => &[Punctuator::StarAssign, Punctuator::Star],
        b'/' => &[Punctuator::SlashAssign, Punctuator::Slash],
        b'%' => &[Punctuator::PercentAssign, Punctuator::Percent],
        b'^' => &[Punctuator::CaretAssign, Punctuator::Caret],
        b'(' => &[Punctuator::OpenParenthesis],
        b')' => &[Punctuator::CloseParenthesis],
        b'[' => &[Punctuator::OpenBracket],
        b']' => &[Punctuator::CloseBracket],
        b'{' => &[Punctuator::OpenBrace],
        b'}' => &[Punctuator::CloseBrace],
        b';' => &[Punctuator::Semicolon],
        b',' => &[Punctuator::Comma],
        b'?' => &[Punctuator::Question],
        b':' => &[Punctuator::Colon],
        b'~' => &[Punctuator::Tilde],
        _ => &[],
    }
}

// The first of these punctuators that the bytes begin with.
fn punctuator_in(few: &[Punctuator], bytes: &[u8]) -> Option<Punctuator>
    ensures { result ≡ find (λ p. starts_with (λ a b. a == b) bytes.now (punctuator_bytes p)) few.now }
{
    few.iter().copied().find(|p| bytes.starts_with(p.bytes()))
}

fn punctuator_at(bytes: &[u8]) -> Option<Punctuator>
    ensures { result ≡ punctuator_at bytes.now }
{
    punctuator_in(punctuators_with(byte_at(bytes, 0)), bytes)
}

fn word_kind(word: &[u8]) -> TokenKind
    ensures { result ≡ word_kind (keyword_named word.now) }
{
    match keyword_named(word) {
        Some(k) => TokenKind::Keyword(k),
        None => TokenKind::Identifier,
    }
}

fn digit_value(b: u8) -> u8
    ensures value { result ≡ digit_value b }
    ensures bound { result ≤ 36 }
{
    match b {
        b'0'..=b'9' => b - 48,
        b'A'..=b'Z' => b - 55,
        b'a'..=b'z' => b - 87,
        _ => 36,
    }
}

// The base of a number.
#[tactic(auto, unfolding(crate::specs::internal::Scan::base_of))]
fn base_of(number: &[u8]) -> u8
    requires { 0 < length number.now }
    ensures value { result ≡ base_of number.now }
    ensures bound { result ≤ 16 }
    ensures low { 8 ≤ result }
    ensures room { prefix_of_base result ≤ length number.now }
{
    if byte_at(number, 0) != b'0' {
        10
    } else if byte_at(number, 1) == b'x' || byte_at(number, 1) == b'X' {
        16
    } else {
        8
    }
}

// How many bytes precede the digits.
fn prefix_of_base(base: u8) -> usize
    ensures { result ≡ prefix_of_base base }
{
    match base {
        10 => 0,
        8 => 1,
        _ => 2,
    }
}

// How many digits of the base the bytes begin with.
fn digits_len(base: u8, bytes: &[u8]) -> usize
    ensures value { result ≡ prefix_len (is_digit_of base) bytes.now }
    ensures bound { result ≤ length bytes.now }
{
    let mut n = 0;
    while n < bytes.len() && digit_value(bytes[n]) < base {
        n += 1;
    }
    n
}

// Whether the bytes are a suffix: `Some(true)` for `u` or `U`, `Some(false)` for no bytes, `None` for anything else.
#[tactic(auto, unfolding(crate::specs::internal::Scan::suffix_of))]
fn suffix_of(bytes: &[u8]) -> Option<bool>
    ensures { result ≡ suffix_of bytes.now }
{
    if bytes.is_empty() {
        Some(false)
    } else if bytes.len() == 1 && (byte_at(bytes, 0) == b'u' || byte_at(bytes, 0) == b'U') {
        Some(true)
    } else {
        None
    }
}

// The value of the digits, capped at 2^32.
fn value_of(base: u8, digits: &[u8]) -> u64
    requires { base ≤ 16 }
    ensures { result ≡ fold (λ v b. min (v * base + digit_value b) 4294967296) 0 digits.now }
{
    let mut value: u64 = 0;
    for b in digits {
        value = (value * base as u64 + digit_value(*b) as u64).min(4294967296);
    }
    value
}

fn typed(base: u8, suffixed: bool, value: u64) -> Result<TokenKind, LexicalError>
    ensures { result ≡ typed (type_of_value base suffixed value) value }
{
    if !suffixed && value <= 2147483647 {
        Ok(TokenKind::Number(Scalar::Int, value as u32))
    } else if (suffixed || base != 10) && value <= 4294967295 {
        Ok(TokenKind::Number(Scalar::Unsigned, value as u32))
    } else {
        Err(LexicalError::ConstantTooLarge)
    }
}

// What kind of token the bytes of a number are.
#[tactic(auto, unfolding(crate::specs::internal::Scan::constant_spelled))]
fn constant_kind(number: &[u8]) -> Result<TokenKind, LexicalError>
    requires { 0 < length number.now }
    ensures { result ≡ constant_kind (constant_spelled number.now) }
{
    let base = base_of(number);
    let behind = &number[prefix_of_base(base)..];
    let n = digits_len(base, behind);
    if n == 0 && base != 8 {
        return Err(LexicalError::BadConstant);
    }
    match suffix_of(&behind[n..]) {
        None => Err(LexicalError::BadConstant),
        Some(suffixed) => typed(base, suffixed, value_of(base, &behind[..n])),
    }
}

fn comment_of(n: usize, bytes: &[u8]) -> Head
    requires { n ≤ length bytes.now }
    ensures { result ≡ comment_of n bytes.now }
{
    let place = offset_within(Mark::Splice, bytes, n);
    if place < n {
        Head::Error(LexicalError::BadByte, place)
    } else {
        Head::Comment(n)
    }
}

fn comment_head(bytes: &[u8]) -> Head
    requires { 2 ≤ length bytes.now }
    ensures { result ≡ comment_head bytes.now }
{
    let body = &bytes[2..];
    if bytes[1] == b'*' {
        let n = offset_within(Mark::CommentEnd, body, body.len());
        if n < body.len() {
            comment_of(n + 4, bytes)
        } else {
            Head::Error(LexicalError::UnclosedComment, 0)
        }
    } else {
        comment_of(offset_within(Mark::LineEnd, body, body.len()) + 2, bytes)
    }
}

/// What the bytes begin with. There must be at least one byte.
#[tactic(auto, unfolding(crate::specs::internal::Scan::head_of))]
pub fn head_of(bytes: &[u8]) -> Head
    requires { 0 < length bytes.now }
    ensures { result ≡ head_of bytes.now }
{
    let first = bytes[0];
    if is_blank(first) {
        return Head::Blank;
    }
    if begins_comment(bytes) {
        return comment_head(bytes);
    }
    if is_nondigit(first) {
        let n = run_len(Run::Word, bytes);
        return Head::Token(word_kind(&bytes[..n]), n);
    }
    if first.is_ascii_digit() {
        let n = run_len(Run::Number, bytes);
        return match constant_kind(&bytes[..n]) {
            Ok(kind) => Head::Token(kind, n),
            Err(error) => Head::Error(error, 0),
        };
    }
    match punctuator_at(bytes) {
        Some(p) => Head::Token(TokenKind::Punctuator(p), p.bytes().len()),
        None => Head::Error(LexicalError::BadByte, 0),
    }
}
