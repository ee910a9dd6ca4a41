// A text of wide C as the text of the profile that it is, with marks for `switch` and its labels.

ghost use Rattle.std.specs.Prelude.{◌≡◌, ◌++◌, length, map, OnOk, IfOk};
ghost use Rattle.cc_tokens.specs.Token.{lexemes};
ghost use Rattle.cc_tokens.specs.Tokens.{AreInOrder};
ghost use Rattle.cc_wide_text.specs.Lexing.{spaced};
ghost use Rattle.cc_wide_text.specs.internal.Answers.{IsStage};
ghost use Rattle.cc_wide_text.specs.internal.Views.{lexeme_of, number};
ghost use Rattle.cc_wide_text.specs.Marks.{one_more, front_wrong, switch_bytes, is_colon, label_wrong, stored, inlined, registered, marked};

use crate::macros::is_semicolon;
use crate::numbers::Numbered;
use crate::word::{Stage, Word, push_end, staged, word_at};
use cc_tokens::{Keyword, Punctuator, SyntaxFault, Token, TokenKind};
use std::alloc::{AllocError, Global};
use std::mem::replace;

/// Whether a label is being read.
#[derive(Clone, Copy)]
pub enum Label {
    Outside,
    /// A `case`, and how many of its question marks await their colon.
    Within(usize),
    /// A `default`.
    Default,
}

/// What the token before was.
#[derive(Clone, Copy)]
pub enum Front {
    Plain,
    /// The end of a statement or declaration, or a brace.
    Opening,
    /// A qualifier or a storage class; whether no storage class may follow.
    Qualified(bool),
    /// A part of a type.
    Typed,
}

/// What has been written, how many braces and parentheses are open, and what the tokens before were.
#[derive(Drop)]
pub struct Marker {
    pub written: Vec<u8>,
    pub braces: usize,
    pub parentheses: usize,
    pub label: Label,
    pub front: Front,
}

/// One more, up to 65,536.
pub fn one_more(n: usize) -> usize
    ensures { result ≡ one_more n }
{
    if n < 65536 { n + 1 } else { n }
}

fn front_wrong(front: Front) -> &'static [u8]
    ensures { result.now ≡ front_wrong front }
{
    match front {
        Front::Plain | Front::Opening | Front::Typed => b"",
        Front::Qualified(_) => b"# ",
    }
}

fn is_colon(kind: TokenKind) -> bool
    ensures { result ≡ is_colon kind }
{
    match kind {
        TokenKind::Identifier => false,
        TokenKind::Keyword(_) => false,
        TokenKind::Number(_, _) => false,
        TokenKind::Punctuator(Punctuator::Colon) => true,
        TokenKind::Punctuator(_) => false,
    }
}

// What is wrong with a token in a label.
fn label_wrong(label: Label, kind: TokenKind) -> &'static [u8]
    ensures { result.now ≡ label_wrong label kind }
{
    let may = match label {
        Label::Outside => true,
        Label::Within(_) => !is_semicolon(kind),
        Label::Default => is_colon(kind),
    };
    if may { b"" } else { b"# " }
}

fn switch_bytes(braces: usize) -> &'static [u8]
    ensures { result.now ≡ switch_bytes braces }
{
    if braces == 0 {
        b"# "
    } else {
        b"while ( __switch ) while "
    }
}

// The front after a storage class, if one may come here.
fn stored(front: Front, may: bool) -> Option<Front>
    ensures { result ≡ stored front may }
{
    match front {
        Front::Opening | Front::Qualified(false) if may => Some(Front::Qualified(true)),
        _ => None,
    }
}

// The front after `inline`, if it may come here.
fn inlined(front: Front, may: bool) -> Option<Front>
    ensures { result ≡ inlined front may }
{
    match front {
        Front::Opening if may => Some(Front::Qualified(false)),
        Front::Qualified(already) if may => Some(Front::Qualified(already)),
        _ => None,
    }
}

// The front after `register` before a parameter, if it may come here.
fn registered(front: Front) -> Option<Front>
    ensures { result ≡ registered front }
{
    match front {
        Front::Plain => Some(Front::Qualified(true)),
        Front::Opening | Front::Qualified(_) | Front::Typed => None,
    }
}

impl Marker {
    ghost use Rattle.cc_wide_text.specs.Marks.{writes, fronts, qualifier, register, is_outside, is_parameter, is_inside, type_word, labels, keyword_token, question, ends_label, colon, opens, punctuator_token, marking_token, in_label, mark_token};
    ghost use Rattle.cc_wide_text.specs.Numbers.{numbered};
    ghost use Rattle.cc_wide_text.specs.internal.Views.{marking};

    fn writes(&mut self, bytes: &[u8]) -> Result<(), AllocError>
        ensures { OnOk result (marking self.new ≡ writes (marking self.old) bytes.now) }
    {
        self.written.extend_from_slice(front_wrong(self.front))?;
        self.written.extend_from_slice(bytes)?;
        self.front = Front::Plain;
        Ok(())
    }

    fn writes_spaced(&mut self, bytes: &[u8]) -> Result<(), AllocError>
        ensures { OnOk result (marking self.new ≡ writes (marking self.old) (spaced bytes.now)) }
    {
        self.written.extend_from_slice(front_wrong(self.front))?;
        self.written.extend_from_slice(bytes)?;
        self.written.push(b' ')?;
        self.front = Front::Plain;
        Ok(())
    }

    fn writes_numbered(
        &mut self,
        alloc: Global,
        numbers: &[Numbered],
        x: &Word<'_>,
    ) -> Result<(), AllocError>
        ensures { OnOk result (marking self.new ≡ writes (marking self.old) (numbered (map number numbers.now) (lexeme_of x.now))) }
    {
        self.written.extend_from_slice(front_wrong(self.front))?;
        Numbered::push(alloc, &mut self.written, numbers, x)?;
        self.front = Front::Plain;
        Ok(())
    }

    // What may not come here is wrong.
    fn fronts(&mut self, front: Option<Front>) -> Result<(), AllocError>
        ensures { OnOk result (marking self.new ≡ fronts (marking self.old) front) }
    {
        match front {
            Some(front) => {
                self.front = front;
                Ok(())
            }
            None => self.writes(b"# "),
        }
    }

    fn qualifier(&mut self)
        ensures { marking self.new ≡ qualifier (marking self.old) self.old.front }
    {
        match self.front {
            Front::Plain => self.front = Front::Qualified(true),
            Front::Opening => self.front = Front::Qualified(false),
            Front::Qualified(_) | Front::Typed => {}
        }
    }

    fn is_outside(&self) -> bool
        ensures { result ≡ is_outside (marking self.now) }
    {
        self.braces == 0 && self.parentheses == 0
    }

    fn register(&mut self) -> Result<(), AllocError>
        ensures { OnOk result (marking self.new ≡ register (marking self.old)) }
    {
        if self.braces == 0 && self.parentheses != 0 {
            return self.fronts(registered(self.front));
        }
        let may = 0 < self.braces;
        self.fronts(stored(self.front, may))
    }

    fn type_word(&mut self, bytes: &[u8]) -> Result<(), AllocError>
        ensures { OnOk result (marking self.new ≡ type_word (marking self.old) (spaced bytes.now)) }
    {
        self.written.extend_from_slice(bytes)?;
        self.written.push(b' ')?;
        self.front = Front::Typed;
        Ok(())
    }

    fn labels(&mut self, bytes: &[u8], label: Label) -> Result<(), AllocError>
        ensures { OnOk result (marking self.new ≡ labels (marking self.old) bytes.now label) }
    {
        if self.braces == 0 {
            return self.writes(b"# ");
        }
        self.writes(bytes)?;
        self.label = label;
        Ok(())
    }

    fn keyword_token(&mut self, k: Keyword, bytes: &[u8]) -> Result<(), AllocError>
        ensures { OnOk result (marking self.new ≡ keyword_token (marking self.old) k (spaced bytes.now)) }
    {
        match k {
            Keyword::Const | Keyword::Volatile => {
                self.qualifier();
                Ok(())
            }
            Keyword::Static => {
                let may = self.is_outside();
                self.fronts(stored(self.front, may))
            }
            Keyword::Inline => {
                let may = self.is_outside();
                self.fronts(inlined(self.front, may))
            }
            Keyword::Register => self.register(),
            Keyword::Auto => {
                let may = 0 < self.braces;
                self.fronts(stored(self.front, may))
            }
            Keyword::Int | Keyword::Signed | Keyword::Unsigned | Keyword::Char | Keyword::Void =>
                self.type_word(bytes),
            Keyword::Switch => self.writes(switch_bytes(self.braces)),
            Keyword::Case => self.labels(b"__case = ", Label::Within(0)),
            Keyword::Default => self.labels(b"__default ", Label::Default),
            _ => self.writes_spaced(bytes),
        }
    }

    fn question(&mut self, bytes: &[u8]) -> Result<(), AllocError>
        ensures { OnOk result (marking self.new ≡ question (marking self.old) self.old.label (spaced bytes.now)) }
    {
        self.writes_spaced(bytes)?;
        match self.label {
            Label::Outside | Label::Default => {}
            Label::Within(n) => self.label = Label::Within(one_more(n)),
        }
        Ok(())
    }

    fn ends_label(&mut self) -> Result<(), AllocError>
        ensures { OnOk result (marking self.new ≡ ends_label (marking self.old)) }
    {
        self.writes(b"; ")?;
        self.label = Label::Outside;
        Ok(())
    }

    fn colon(&mut self, bytes: &[u8]) -> Result<(), AllocError>
        ensures { OnOk result (marking self.new ≡ colon (marking self.old) self.old.label (spaced bytes.now)) }
    {
        match self.label {
            Label::Outside => self.writes_spaced(bytes),
            Label::Within(n) => {
                if n == 0 {
                    return self.ends_label();
                }
                self.writes_spaced(bytes)?;
                self.label = Label::Within(n - 1);
                Ok(())
            }
            Label::Default => self.ends_label(),
        }
    }

    fn opens(&mut self, bytes: &[u8]) -> Result<(), AllocError>
        ensures { OnOk result (marking self.new ≡ opens (marking self.old) (spaced bytes.now)) }
    {
        self.writes_spaced(bytes)?;
        self.front = Front::Opening;
        Ok(())
    }

    fn punctuator_token(&mut self, p: Punctuator, bytes: &[u8]) -> Result<(), AllocError>
        ensures { OnOk result (marking self.new ≡ punctuator_token (marking self.old) p (spaced bytes.now)) }
    {
        match p {
            Punctuator::OpenBrace => {
                self.opens(bytes)?;
                self.braces = one_more(self.braces);
                Ok(())
            }
            Punctuator::CloseBrace => {
                self.opens(bytes)?;
                self.braces = self.braces.saturating_sub(1);
                Ok(())
            }
            Punctuator::Semicolon => self.opens(bytes),
            Punctuator::OpenParenthesis => {
                self.writes_spaced(bytes)?;
                self.parentheses = one_more(self.parentheses);
                Ok(())
            }
            Punctuator::CloseParenthesis => {
                self.writes_spaced(bytes)?;
                self.parentheses = self.parentheses.saturating_sub(1);
                Ok(())
            }
            Punctuator::Question => self.question(bytes),
            Punctuator::Colon => self.colon(bytes),
            _ => self.writes_spaced(bytes),
        }
    }

    fn in_label(&mut self, kind: TokenKind) -> Result<(), AllocError>
        ensures { OnOk result (marking self.new ≡ in_label (marking self.old) kind) }
    {
        self.written
            .extend_from_slice(label_wrong(self.label, kind))?;
        Ok(())
    }

    fn token(&mut self, alloc: Global, numbers: &[Numbered], x: &Word<'_>) -> Result<(), AllocError>
        ensures { OnOk result (marking self.new ≡ marking_token (map number numbers.now) (in_label (marking self.old) x.now.kind) (lexeme_of x.now) x.now.kind) }
    {
        self.in_label(x.kind)?;
        match x.kind {
            TokenKind::Identifier => self.writes_numbered(alloc, numbers, x),
            TokenKind::Number(_, _) => self.writes_spaced(x.bytes),
            TokenKind::Keyword(k) => self.keyword_token(k, x.bytes),
            TokenKind::Punctuator(p) => self.punctuator_token(p, x.bytes),
        }
    }
}

fn mark_all(
    alloc: Global,
    numbers: &[Numbered],
    text: &[u8],
    tokens: &[Token],
) -> Result<Stage, AllocError>
    requires { AreInOrder 0 tokens.now (length text.now) }
    ensures { IfOk result (λ stage. stage.text.items ≡ marked (map number numbers.now) (lexemes text.now tokens.now)) }
{
    let mut marker = Marker {
        written: Vec::new(alloc),
        braces: 0,
        parentheses: 0,
        label: Label::Outside,
        front: Front::Opening,
    };
    let mut ends = Vec::new(alloc);
    for i in 0..tokens.len() {
        let word = word_at(text, tokens, i);
        marker.token(alloc, numbers, &word)?;
        push_end(&mut ends, marker.written.len())?;
    }
    let end = front_wrong(marker.front);
    let mut text = replace(&mut marker.written, Vec::new(alloc));
    text.extend_from_slice(end)?;
    Ok(Stage { text, ends })
}

/// The text of the profile that a text is, with marks, and with enumerators replaced by their numbers. Refuses with 7
/// (SourceTooLarge) if it has more than 65,536 bytes, and with 40 (OutOfMemory).
pub fn marked(
    alloc: Global,
    numbers: &[Numbered],
    text: &[u8],
    tokens: &[Token],
) -> Result<Stage, SyntaxFault>
    requires { AreInOrder 0 tokens.now (length text.now) }
    ensures { IsStage (marked (map number numbers.now) (lexemes text.now tokens.now)) result }
{
    match mark_all(alloc, numbers, text, tokens) {
        Ok(stage) => staged(stage),
        Err(_) => Err(SyntaxFault::OutOfMemory),
    }
}
