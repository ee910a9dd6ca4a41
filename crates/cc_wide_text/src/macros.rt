// Names that `#define` lines define are replaced by their tokens.

ghost use Rattle.std.specs.Prelude.{◌≡◌, ◌+◌, ◌++◌, ◌<◌, ◌≤◌, ◌^◌, length, take, map, OnOk, IfOk};
ghost use Rattle.std.specs.Option.{option_map};
ghost use Rattle.cc_tokens.specs.Token.{lexemes};
ghost use Rattle.cc_tokens.specs.Tokens.{AreInOrder};
ghost use Rattle.cc_wide_text.specs.internal.Answers.{IsStage};
ghost use Rattle.cc_wide_text.specs.internal.Views.{lexeme_of};
ghost use Rattle.cc_wide_text.specs.Macros.{is_semicolon, occurs, end_of, expanded};

use crate::plain::MACRO;
use crate::word::{Stage, Word, is_identifier, is_word, push_end, push_spaced, staged, word_at};
use cc_tokens::{MOST_BYTES, Punctuator, SyntaxFault, Token, TokenKind};
use std::alloc::{AllocError, Global};
use std::mem::replace;

/// What is wrong, as it is written.
pub const WRONG: &[u8] = b"# ";

/// A name is replaced by at most this many bytes.
const MOST_REPLACING: usize = 4096;

/// A defined name, and the bytes that replace it.
#[derive(Drop)]
pub struct Macro {
    pub name: Vec<u8>,
    pub body: Vec<u8>,
}

/// What comes next.
#[derive(Clone, Copy)]
pub enum Expecting {
    Program,
    /// The name that a line defines.
    Name,
    /// What replaces the name, or the end of the line, after the name that ends at this offset.
    First(usize),
    /// More of that, or the end of the line.
    Body,
}

/// What has been written, the names that are defined, and the one that is being defined.
#[derive(Drop)]
pub struct Expander {
    pub alloc: Global,
    pub written: Vec<u8>,
    pub macros: Vec<Macro>,
    pub name: Vec<u8>,
    pub body: Vec<u8>,
    pub expecting: Expecting,
}

/// Whether a token is a semicolon.
pub fn is_semicolon(kind: TokenKind) -> bool
    ensures { result ≡ is_semicolon kind }
{
    match kind {
        TokenKind::Identifier => false,
        TokenKind::Keyword(_) => false,
        TokenKind::Number(_, _) => false,
        TokenKind::Punctuator(Punctuator::Semicolon) => true,
        TokenKind::Punctuator(_) => false,
    }
}

/// Whether one of the first n tokens is this name.
pub fn occurs(text: &[u8], tokens: &[Token], n: usize, name: &[u8]) -> bool
    requires ordered { AreInOrder 0 tokens.now (length text.now) }
    requires within { n ≤ length tokens.now }
    ensures { result ≡ occurs (take n (lexemes text.now tokens.now)) name.now }
{
    for i in 0..n {
        if is_word(&word_at(text, tokens, i), name) {
            return true;
        }
    }
    false
}

impl Macro {
    ghost use Rattle.cc_wide_text.specs.Macros.{meaning_of, replaced};
    ghost use Rattle.cc_wide_text.specs.internal.Views.{meaning};

    // What replaces a name, if it is defined.
    fn body_of<'a>(macros: &'a [Macro], name: &[u8]) -> Option<&'a [u8]>
        ensures { option_map (λ b. b.now) result ≡ meaning_of (map meaning macros.now) name.now }
    {
        for known in macros {
            if known.name.as_slice() == name {
                return Some(known.body.as_slice());
            }
        }
        None
    }

    // Writes a token, or what replaces it.
    fn push_replaced(
        written: &mut Vec<u8>,
        macros: &[Macro],
        x: &Word<'_>,
    ) -> Result<(), AllocError>
        ensures { OnOk result (written.new.items ≡ written.old.items ++ replaced (map meaning macros.now) (lexeme_of x.now)) }
    {
        if is_identifier(x.kind) {
            match Macro::body_of(macros, x.bytes) {
                Some(body) => written.extend_from_slice(body),
                None => push_spaced(written, x.bytes),
            }
        } else {
            push_spaced(written, x.bytes)
        }
    }
}

impl Expander {
    ghost use Rattle.cc_wide_text.specs.Lexing.{wrong};
    ghost use Rattle.cc_wide_text.specs.Macros.{writes, program_token, name_token, defines, body_token, expand_token};
    ghost use Rattle.cc_wide_text.specs.internal.Views.{expansion};

    fn put_wrong(&mut self) -> Result<(), AllocError>
        ensures { OnOk result (expansion self.new ≡ writes (expansion self.old) wrong) }
    {
        self.written.extend_from_slice(WRONG)?;
        self.expecting = Expecting::Program;
        Ok(())
    }

    fn program_token(&mut self, x: &Word<'_>) -> Result<(), AllocError>
        ensures { OnOk result (expansion self.new ≡ program_token (expansion self.old) (lexeme_of x.now)) }
    {
        if is_word(x, MACRO) {
            self.expecting = Expecting::Name;
            return Ok(());
        }
        Macro::push_replaced(&mut self.written, self.macros.as_slice(), x)?;
        self.expecting = Expecting::Program;
        Ok(())
    }

    fn name_token(
        &mut self,
        text: &[u8],
        tokens: &[Token],
        n: usize,
        x: &Word<'_>,
    ) -> Result<(), AllocError>
        requires ordered { AreInOrder 0 tokens.now (length text.now) }
        requires within { n ≤ length tokens.now }
        requires end { x.now.at + length x.now.bytes.now < 2 ^ 64 }
        ensures { OnOk result (expansion self.new ≡ name_token (expansion self.old) (take n (lexemes text.now tokens.now)) (lexeme_of x.now)) }
    {
        if is_identifier(x.kind) && !occurs(text, tokens, n, x.bytes) {
            self.name = Vec::from_slice(self.alloc, x.bytes)?;
            self.body.clear();
            self.expecting = Expecting::First(x.at + x.bytes.len());
            Ok(())
        } else {
            self.put_wrong()
        }
    }

    fn define(&mut self) -> Result<(), AllocError>
        ensures { OnOk result (expansion self.new ≡ defines (expansion self.old)) }
    {
        let name = Vec::from_slice(self.alloc, self.name.as_slice())?;
        let body = Vec::from_slice(self.alloc, self.body.as_slice())?;
        self.macros.push(Macro { name, body })?;
        self.expecting = Expecting::Program;
        Ok(())
    }

    fn body_token(&mut self, x: &Word<'_>) -> Result<(), AllocError>
        ensures { OnOk result (expansion self.new ≡ body_token (expansion self.old) (lexeme_of x.now)) }
    {
        if is_semicolon(x.kind) {
            return self.define();
        }
        Macro::push_replaced(&mut self.body, self.macros.as_slice(), x)?;
        if MOST_REPLACING < self.body.len() {
            self.body.clear();
            return self.put_wrong();
        }
        self.expecting = Expecting::Body;
        Ok(())
    }

    fn token(
        &mut self,
        text: &[u8],
        tokens: &[Token],
        n: usize,
        x: &Word<'_>,
    ) -> Result<(), AllocError>
        requires ordered { AreInOrder 0 tokens.now (length text.now) }
        requires within { n ≤ length tokens.now }
        requires end { x.now.at + length x.now.bytes.now < 2 ^ 64 }
        ensures { OnOk result (expansion self.new ≡ expand_token (expansion self.old) (take n (lexemes text.now tokens.now)) (lexeme_of x.now)) }
    {
        match self.expecting {
            Expecting::Program => self.program_token(x),
            Expecting::Name => self.name_token(text, tokens, n, x),
            Expecting::First(at) => {
                if x.at == at && !is_semicolon(x.kind) {
                    self.put_wrong()
                } else {
                    self.body_token(x)
                }
            }
            Expecting::Body => self.body_token(x),
        }
    }
}

fn end_of(expecting: Expecting) -> &'static [u8]
    ensures { result.now ≡ end_of expecting }
{
    match expecting {
        Expecting::Program => b"",
        Expecting::Name => b"# ",
        Expecting::First(_) => b"",
        Expecting::Body => b"",
    }
}

/// The text without `#define` lines, the names that they define replaced. Refuses with 7 (SourceTooLarge) if it has more than 65,536
/// bytes, and with 40 (OutOfMemory).
pub fn expanded(alloc: Global, text: &[u8], tokens: &[Token]) -> Result<Stage, SyntaxFault>
    requires { AreInOrder 0 tokens.now (length text.now) }
    ensures { IsStage (expanded (lexemes text.now tokens.now)) result }
{
    let mut expander = Expander {
        alloc,
        written: Vec::new(alloc),
        macros: Vec::new(alloc),
        name: Vec::new(alloc),
        body: Vec::new(alloc),
        expecting: Expecting::Program,
    };
    let mut ends = Vec::new(alloc);
    for i in 0..tokens.len() {
        let word = word_at(text, tokens, i);
        let Ok(()) = expander.token(text, tokens, i, &word) else {
            return Err(SyntaxFault::OutOfMemory);
        };
        if MOST_BYTES < expander.written.len() {
            return Err(SyntaxFault::SourceTooLarge);
        }
        let Ok(()) = push_end(&mut ends, expander.written.len()) else {
            return Err(SyntaxFault::OutOfMemory);
        };
    }
    let end = end_of(expander.expecting);
    let mut text = replace(&mut expander.written, Vec::new(alloc));
    match text.extend_from_slice(end) {
        Ok(()) => staged(Stage { text, ends }),
        Err(_) => Err(SyntaxFault::OutOfMemory),
    }
}
