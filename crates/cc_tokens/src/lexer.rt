// The tokens of a text, from its first byte to its last.

ghost use Rattle.std.specs.Prelude.{◌≡◌, ◌<◌, ◌≤◌, List, length, IfOk, IfErr};
ghost use Rattle.cc_tokens.specs.Place.{place_of};
ghost use Rattle.cc_tokens.specs.declared.token.Token as token;
ghost use Rattle.cc_tokens.specs.Reading.{FoundBefore, FoundNext, IsBehind};
ghost use Rattle.cc_tokens.specs.Token.{lexemes};
ghost use Rattle.cc_tokens.specs.Tokens.{most_bytes, IsTokens, AreInOrder, IsTokenRefusal, lexical_fault, TokensAreOne, TokensHaveNoLexicalError, FirstLexicalErrorIsOne, TokensOrLexicalError};

use super::fault::SyntaxFault;
use super::lexical_error::LexicalError;
use super::place::place_at;
use super::scan::{Head, head_of};
use super::token::Token;
use std::alloc::Global;

/// The largest number of bytes that a text may have.
pub const MOST_BYTES: usize = 65536;

// The fault for an error at an offset.
fn fault_at(text: &[u8], error: LexicalError, at: usize) -> SyntaxFault
    requires { at ≤ length text.now }
    ensures { result ≡ lexical_fault error (place_of text.now at) }
{
    let place = place_at(text, at);
    match error {
        LexicalError::BadByte => SyntaxFault::BadByte(place),
        LexicalError::UnclosedComment => SyntaxFault::UnclosedComment(place),
        LexicalError::BadConstant => SyntaxFault::BadConstant(place),
        LexicalError::ConstantTooLarge => SyntaxFault::ConstantTooLarge(place),
    }
}

/// What comes next in a text, after white space and comments.
#[derive(Clone, Copy)]
pub enum NextToken {
    Token(Token),
    /// There is no further token in the text.
    End,
    /// An error comes before any further token: the first error of the text, with its offset.
    Error(LexicalError, usize),
}

/// Returns the next token of a text at or after the offset `at`. The result is right if the text before `at` consists of whole
/// tokens, comments and white space (`found`). Takes no memory.
pub fn next_token(text: &[u8], at: usize) -> NextToken
    requires { at ≤ length text.now }
    ensures found { (ts : List token.Token) → FoundBefore text.now ts at → FoundNext text.now ts result }
    ensures behind { IsBehind at (length text.now) result }
{
    let mut at = at;
    while at < text.len() {
        match head_of(&text[at..]) {
            Head::Blank => at += 1,
            Head::Comment(n) => at += n,
            Head::Token(kind, n) => {
                let to = at + n;
                return NextToken::Token(Token { kind, from: at, to });
            }
            Head::Error(error, n) => return NextToken::Error(error, at + n),
        }
    }
    NextToken::End
}

/// Returns the tokens of a text, in order (C99 6.4 and the profile).
///
/// Refuses with 7 (SourceTooLarge) a text of more than 65,536 bytes, whatever else is wrong with it. Otherwise it refuses with
/// the first lexical error of the text, at the error's first byte: 1 (BadByte) for a byte that begins no token or a line splice
/// in a comment, 2 (UnclosedComment) for a comment that is never closed, 3 (BadConstant) for a number that is not a constant, 4
/// (ConstantTooLarge) for a constant above 2147483647 that is decimal and has no suffix, or for any constant above 4294967295.
/// It refuses with 40 (OutOfMemory) if memory for the tokens runs out.
pub fn tokens(alloc: Global, text: &[u8]) -> Result<Vec<Token>, SyntaxFault>
    ensures fits { IfOk result (λ ts. length text.now ≤ most_bytes) }
    ensures ordered { IfOk result (λ ts. AreInOrder 0 ts.items (length text.now)) }
    ensures answer { IfOk result (λ ts. IsTokens text.now (lexemes text.now ts.items)) }
    ensures refused { IfErr result (λ fault. IsTokenRefusal text.now fault) }
{
    if text.len() > MOST_BYTES {
        return Err(SyntaxFault::SourceTooLarge);
    }
    let mut found = Vec::new(alloc);
    let mut at = 0;
    while at < text.len() {
        match next_token(text, at) {
            NextToken::Token(token) => {
                if found.push(token).is_err() {
                    return Err(SyntaxFault::OutOfMemory);
                }
                at = token.to;
            }
            NextToken::End => at = text.len(),
            NextToken::Error(error, at) => return Err(fault_at(text, error, at)),
        }
    }
    Ok(found)
}

/// Shows that a text has either exactly one list of tokens or exactly one first error. So `tokens` is `Ok` exactly if the text
/// has at most 65,536 bytes and has tokens, and there is memory for them.
pub fn tokens_are_determined()
    ensures one { TokensAreOne }
    ensures no_error { TokensHaveNoLexicalError }
    ensures one_error { FirstLexicalErrorIsOne }
    ensures either { TokensOrLexicalError }
{}
