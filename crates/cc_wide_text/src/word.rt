// A token with its bytes.

ghost use Rattle.std.specs.Prelude.{◌≡◌, ◌+◌, ◌++◌, ◌<◌, ◌≤◌, Some, length, slice_get, slice_range, OnOk};
ghost use Rattle.cc_tokens.specs.Token.{lexemes};
ghost use Rattle.cc_tokens.specs.Tokens.{AreInOrder};
ghost use Rattle.cc_wide_text.specs.Lexing.{is_identifier, is_word, spaced};
ghost use Rattle.cc_wide_text.specs.internal.Answers.{IsStage};
ghost use Rattle.cc_wide_text.specs.internal.Views.{lexeme_of};

use cc_tokens::{MOST_BYTES, SyntaxFault, Token, TokenKind};
use std::alloc::AllocError;

/// A text that tokens of another became, and how many of its bytes had been written after each of these.
#[derive(Drop)]
pub struct Stage {
    pub text: Vec<u8>,
    pub ends: Vec<usize>,
}

/// One more token: how many bytes have been written after it.
pub fn push_end(ends: &mut Vec<usize>, written: usize) -> Result<(), AllocError> {
    ends.push(written)?;
    Ok(())
}

/// The stage, if its text has at most 65,536 bytes; otherwise 7 (SourceTooLarge).
pub fn staged(stage: Stage) -> Result<Stage, SyntaxFault>
    ensures { IsStage stage.text.items result }
{
    if MOST_BYTES < stage.text.len() {
        return Err(SyntaxFault::SourceTooLarge);
    }
    Ok(stage)
}

/// A token, its bytes, and the offset of its first byte.
#[derive(Clone, Copy)]
pub struct Word<'a> {
    pub kind: TokenKind,
    pub bytes: &'a [u8],
    pub at: usize,
}

// The bytes of a text from an offset up to another.
fn between(text: &[u8], from: usize, to: usize) -> &[u8]
    requires order { from ≤ to }
    requires within { to ≤ length text.now }
    ensures bytes { result.now ≡ slice_range text.now from to }
    ensures len { from + length result.now ≡ to }
{
    &text[from..to]
}

/// Token number `i`.
pub fn word_at<'a>(text: &'a [u8], tokens: &[Token], i: usize) -> Word<'a>
    requires ordered { AreInOrder 0 tokens.now (length text.now) }
    requires within { i < length tokens.now }
    ensures token { slice_get (lexemes text.now tokens.now) i ≡ Some (lexeme_of result) }
    ensures end { result.at + length result.bytes.now ≤ length text.now }
{
    let token = tokens[i];
    Word {
        kind: token.kind,
        bytes: between(text, token.from, token.to),
        at: token.from,
    }
}

/// Whether a token is an identifier.
pub fn is_identifier(kind: TokenKind) -> bool
    ensures { result ≡ is_identifier kind }
{
    match kind {
        TokenKind::Identifier => true,
        TokenKind::Keyword(_) => false,
        TokenKind::Number(_, _) => false,
        TokenKind::Punctuator(_) => false,
    }
}

/// Whether a token is this word.
pub fn is_word(x: &Word<'_>, word: &[u8]) -> bool
    ensures { result ≡ is_word (lexeme_of x.now) word.now }
{
    is_identifier(x.kind) && x.bytes == word
}

/// Writes a token's bytes, and a space.
pub fn push_spaced(written: &mut Vec<u8>, bytes: &[u8]) -> Result<(), AllocError>
    ensures { OnOk result (written.new.items ≡ written.old.items ++ spaced bytes.now) }
{
    written.extend_from_slice(bytes)?;
    written.push(b' ')?;
    Ok(())
}
