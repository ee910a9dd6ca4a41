// Names of types are replaced by their types, and the enumerators are found.

ghost use Rattle.std.specs.Prelude.{◌≡◌, ◌++◌, ◌≤◌, if◌then◌else◌, [], ◌∷◌, length, map, OnOk, IfOk};
ghost use Rattle.std.specs.Option.{option_map};
ghost use Rattle.cc_tokens.specs.Token.{lexemes};
ghost use Rattle.cc_tokens.specs.Tokens.{AreInOrder};
ghost use Rattle.cc_wide_text.specs.Lexing.{wrong};
ghost use Rattle.cc_wide_text.specs.internal.Answers.{IsNamed};
ghost use Rattle.cc_wide_text.specs.internal.Views.{enumerator as enumerator_of, lexeme_of, naming};
ghost use Rattle.cc_wide_text.specs.Names.{sign_of_punctuator, sign_of, is_int, behind_block, next_value, end_of, start, named, enumerators};

use crate::before::Before;
use crate::macros::occurs;
use crate::marks::one_more;
use crate::numbers::Constant;
use crate::word::{Stage, Word, is_identifier, push_end, push_spaced, staged, word_at};
use cc_tokens::{Keyword, Punctuator, SyntaxFault, Token, TokenKind};
use std::alloc::{AllocError, Global};
use std::mem::replace;

/// A name of a type, and the bytes that replace it.
#[derive(Drop)]
pub struct Definition {
    pub name: Vec<u8>,
    pub body: Vec<u8>,
}

/// The tag of an enumeration.
#[derive(Drop)]
pub struct Tag {
    pub name: Vec<u8>,
}

/// What comes next.
#[derive(Clone, Copy)]
pub enum Awaiting {
    Program,
    /// A type, after `typedef`.
    TypeFirst,
    /// `int` or a name, after `signed` or `unsigned`.
    TypeSecond,
    TypeName,
    TypeEnd,
    /// A tag or a brace, after `enum`.
    EnumFirst,
    /// A brace, or what follows a type, after a tag.
    EnumTagged,
    /// An enumerator; after a comma the closing brace may come too.
    Enumerator(bool),
    Enumerated,
    EnumValue,
    EnumEnd,
}

/// What the token before was.
#[derive(Clone, Copy)]
pub enum After {
    /// The end of a declaration, or nothing.
    End,
    /// A closing parenthesis.
    Head,
    /// Anything else.
    Inside,
}

/// The punctuation of definitions.
#[derive(Clone, Copy)]
pub enum Sign {
    Other,
    Semicolon,
    Comma,
    Assign,
    OpenBrace,
    CloseBrace,
    OpenParenthesis,
    CloseParenthesis,
}

/// What has been written, and what is known and being defined.
#[derive(Drop)]
pub struct Namer {
    pub alloc: Global,
    pub written: Vec<u8>,
    pub types: Vec<Definition>,
    pub tags: Vec<Tag>,
    pub enumerators: Vec<Constant>,
    pub braces: usize,
    pub block: bool,
    pub after: After,
    pub name: Vec<u8>,
    /// The number of the token that is the name.
    pub token: usize,
    pub body: Vec<u8>,
    pub value: Vec<u8>,
    pub last: Vec<u8>,
    pub parentheses: usize,
    pub may: bool,
    pub typing: bool,
    pub awaiting: Awaiting,
}

/// The text with the names of types replaced, and the enumerators.
#[derive(Drop)]
pub struct NamedText {
    pub stage: Stage,
    pub enumerators: Vec<Constant>,
}

fn sign_of_punctuator(p: Punctuator) -> Sign
    ensures { result ≡ sign_of_punctuator p }
{
    match p {
        Punctuator::Semicolon => Sign::Semicolon,
        Punctuator::Comma => Sign::Comma,
        Punctuator::Assign => Sign::Assign,
        Punctuator::OpenBrace => Sign::OpenBrace,
        Punctuator::CloseBrace => Sign::CloseBrace,
        Punctuator::OpenParenthesis => Sign::OpenParenthesis,
        Punctuator::CloseParenthesis => Sign::CloseParenthesis,
        _ => Sign::Other,
    }
}

fn sign_of(kind: TokenKind) -> Sign
    ensures { result ≡ sign_of kind }
{
    match kind {
        TokenKind::Identifier | TokenKind::Keyword(_) | TokenKind::Number(_, _) => Sign::Other,
        TokenKind::Punctuator(p) => sign_of_punctuator(p),
    }
}

fn is_int(kind: TokenKind) -> bool
    ensures { result ≡ is_int kind }
{
    match kind {
        TokenKind::Keyword(Keyword::Int) => true,
        TokenKind::Keyword(_) => false,
        TokenKind::Identifier | TokenKind::Number(_, _) | TokenKind::Punctuator(_) => false,
    }
}

impl After {
    ghost use Rattle.cc_wide_text.specs.Names.{is_end, is_head};

    fn is_end(self) -> bool
        ensures { result ≡ is_end self }
    {
        match self {
            After::End => true,
            After::Head | After::Inside => false,
        }
    }

    fn is_head(self) -> bool
        ensures { result ≡ is_head self }
    {
        match self {
            After::Head => true,
            After::End | After::Inside => false,
        }
    }
}

fn behind_block(block: bool) -> After
    ensures { result ≡ behind_block block }
{
    if block { After::End } else { After::Inside }
}

// The value of an enumerator that has none.
fn next_value(alloc: Global, last: &[u8]) -> Result<Vec<u8>, AllocError>
    ensures { IfOk result (λ v. v.items ≡ next_value last.now) }
{
    if last.len() == 0 {
        return Vec::from_slice(alloc, b"0 ");
    }
    let mut value = Vec::new(alloc);
    push_spaced(&mut value, last)?;
    value.extend_from_slice(b"+ 1 ")?;
    Ok(value)
}

impl Definition {
    ghost use Rattle.cc_wide_text.specs.Names.{type_of, replaced};
    ghost use Rattle.cc_wide_text.specs.internal.Views.{known};

    // The bytes of the type that a name has.
    fn find<'a>(all: &'a [Definition], name: &[u8]) -> Option<&'a [u8]>
        ensures { option_map (λ b. b.now) result ≡ type_of (map known all.now) name.now }
    {
        for one in all {
            if one.name.as_slice() == name {
                return Some(one.body.as_slice());
            }
        }
        None
    }

    // Writes a token, or what replaces it.
    fn push_replaced(
        written: &mut Vec<u8>,
        all: &[Definition],
        x: &Word<'_>,
    ) -> Result<(), AllocError>
        ensures { OnOk result (written.new.items ≡ written.old.items ++ replaced (map known all.now) (lexeme_of x.now)) }
    {
        if is_identifier(x.kind) {
            match Definition::find(all, x.bytes) {
                Some(body) => written.extend_from_slice(body),
                None => push_spaced(written, x.bytes),
            }
        } else {
            push_spaced(written, x.bytes)
        }
    }
}

impl Tag {
    ghost use Rattle.cc_wide_text.specs.Names.{is_tag};
    ghost use Rattle.cc_wide_text.specs.internal.Views.{tag};

    // Whether a name is one of the tags.
    fn is_tag(all: &[Tag], name: &[u8]) -> bool
        ensures { result ≡ is_tag (map tag all.now) name.now }
    {
        for one in all {
            if one.name.as_slice() == name {
                return true;
            }
        }
        false
    }
}

impl Namer {
    ghost use Rattle.cc_wide_text.specs.Names.{is_new, writes, refuses, is_fresh, opens_type, opens_enumeration, keyword_token, opens_block, punctuator_token, program_token, signed_int, unsigned_int, typed, named_type, type_keyword, type_first, new_name, type_second, begins_enumeration, enum_opening, enum_first, uses_tag, enum_tagged, is_tag, counts, behind_enumeration, enum_close, enumerator, enumerated, adds, value_token, ends, enum_end, type_end, naming_token, type_of, replaced};
    ghost use Rattle.cc_wide_text.specs.Lexing.{spaced};
    ghost use Rattle.cc_wide_text.specs.internal.Views.{known, lexemes_of};
    ghost use Rattle.cc_wide_text.specs.declared.names.After.TheVariants.{Inside};

    fn writes(&mut self, bytes: &[u8], after: After) -> Result<(), AllocError>
        ensures { OnOk result (naming self.new ≡ writes (naming self.old) (spaced bytes.now) after) }
    {
        push_spaced(&mut self.written, bytes)?;
        self.after = after;
        self.awaiting = Awaiting::Program;
        Ok(())
    }

    fn refuses(&mut self) -> Result<(), AllocError>
        ensures { OnOk result (naming self.new ≡ refuses (naming self.old)) }
    {
        self.written.extend_from_slice(b"# ")?;
        self.after = After::Inside;
        self.awaiting = Awaiting::Program;
        Ok(())
    }

    fn awaits(&mut self, next: Awaiting) -> Result<(), AllocError>
        ensures { OnOk result (naming self.new ≡ record (naming self.old) { awaiting = next }) }
    {
        self.awaiting = next;
        Ok(())
    }

    fn is_fresh(&self) -> bool
        ensures { result ≡ is_fresh (naming self.now) }
    {
        self.braces == 0 && self.after.is_end()
    }

    fn opens_type(&mut self, x: &Word<'_>) -> Result<(), AllocError>
        ensures { OnOk result (naming self.new ≡ opens_type (naming self.old) (lexeme_of x.now)) }
    {
        if self.is_fresh() {
            return self.awaits(Awaiting::TypeFirst);
        }
        self.writes(x.bytes, After::Inside)?;
        Ok(())
    }

    fn opens_enumeration(&mut self, may: bool, typing: bool)
        ensures { naming self.new ≡ opens_enumeration (naming self.old) may typing }
    {
        self.may = may;
        self.typing = typing;
        self.awaiting = Awaiting::EnumFirst;
    }

    fn keyword_token(&mut self, x: &Word<'_>, k: Keyword) -> Result<(), AllocError>
        ensures { OnOk result (naming self.new ≡ keyword_token (naming self.old) (lexeme_of x.now) k) }
    {
        match k {
            Keyword::Typedef => self.opens_type(x),
            Keyword::Enum => {
                let may = self.is_fresh();
                self.opens_enumeration(may, false);
                Ok(())
            }
            _ => self.writes(x.bytes, After::Inside),
        }
    }

    fn opens_block(&self) -> bool
        ensures { result ≡ opens_block (naming self.now) }
    {
        if self.braces == 0 {
            self.after.is_head()
        } else {
            self.block
        }
    }

    fn punctuator_token(&mut self, x: &Word<'_>, p: Punctuator) -> Result<(), AllocError>
        ensures { OnOk result (naming self.new ≡ punctuator_token (naming self.old) (lexeme_of x.now) p) }
    {
        match p {
            Punctuator::OpenBrace => {
                let block = self.opens_block();
                self.writes(x.bytes, After::Inside)?;
                self.braces = one_more(self.braces);
                self.block = block;
                Ok(())
            }
            Punctuator::CloseBrace => {
                self.writes(x.bytes, behind_block(self.block))?;
                self.braces = self.braces.saturating_sub(1);
                Ok(())
            }
            Punctuator::Semicolon => self.writes(x.bytes, After::End),
            Punctuator::CloseParenthesis => self.writes(x.bytes, After::Head),
            _ => self.writes(x.bytes, After::Inside),
        }
    }

    fn identifier_token(&mut self, x: &Word<'_>) -> Result<(), AllocError>
        ensures { OnOk result (naming self.new ≡ writes (naming self.old) (replaced (map known self.old.types.items) (lexeme_of x.now)) Inside) }
    {
        Definition::push_replaced(&mut self.written, self.types.as_slice(), x)?;
        self.after = After::Inside;
        self.awaiting = Awaiting::Program;
        Ok(())
    }

    fn program_token(&mut self, x: &Word<'_>) -> Result<(), AllocError>
        ensures { OnOk result (naming self.new ≡ program_token (naming self.old) (lexeme_of x.now) x.now.kind) }
    {
        match x.kind {
            TokenKind::Identifier => self.identifier_token(x),
            TokenKind::Keyword(k) => self.keyword_token(x, k),
            TokenKind::Number(_, _) => self.writes(x.bytes, After::Inside),
            TokenKind::Punctuator(p) => self.punctuator_token(x, p),
        }
    }

    fn typed(&mut self, bytes: &[u8], next: Awaiting) -> Result<(), AllocError>
        ensures { OnOk result (naming self.new ≡ typed (naming self.old) bytes.now next) }
    {
        self.body = Vec::from_slice(self.alloc, bytes)?;
        self.awaiting = next;
        Ok(())
    }

    fn named_type(&mut self, name: &[u8]) -> Result<(), AllocError>
        ensures { OnOk result (naming self.new ≡ named_type (naming self.old) (type_of (map known self.old.types.items) name.now)) }
    {
        let body = match Definition::find(self.types.as_slice(), name) {
            Some(body) => Vec::from_slice(self.alloc, body)?,
            None => return self.refuses(),
        };
        self.body = body;
        self.awaiting = Awaiting::TypeName;
        Ok(())
    }

    fn type_keyword(&mut self, k: Keyword) -> Result<(), AllocError>
        ensures { OnOk result (naming self.new ≡ type_keyword (naming self.old) k) }
    {
        match k {
            Keyword::Int => self.typed(b"signed int ", Awaiting::TypeName),
            Keyword::Signed => self.typed(b"signed int ", Awaiting::TypeSecond),
            Keyword::Unsigned => self.typed(b"unsigned int ", Awaiting::TypeSecond),
            Keyword::Enum => {
                self.typed(b"signed int ", Awaiting::TypeName)?;
                self.opens_enumeration(true, true);
                Ok(())
            }
            _ => self.refuses(),
        }
    }

    fn type_first(&mut self, x: &Word<'_>) -> Result<(), AllocError>
        ensures { OnOk result (naming self.new ≡ type_first (naming self.old) (lexeme_of x.now) x.now.kind) }
    {
        match x.kind {
            TokenKind::Identifier => self.named_type(x.bytes),
            TokenKind::Keyword(k) => self.type_keyword(k),
            TokenKind::Number(_, _) | TokenKind::Punctuator(_) => self.refuses(),
        }
    }

    fn new_name(
        &mut self,
        before: Before<'_>,
        x: &Word<'_>,
        next: Awaiting,
    ) -> Result<(), AllocError>
        requires ordered { AreInOrder 0 before.tokens.now (length before.text.now) }
        requires within { before.n ≤ length before.tokens.now }
        ensures { OnOk result (naming self.new ≡ new_name (naming self.old) (lexemes_of before.entry) (lexeme_of x.now) next) }
    {
        if is_identifier(x.kind) && !occurs(before.text, before.tokens, before.n, x.bytes) {
            self.name = Vec::from_slice(self.alloc, x.bytes)?;
            self.token = before.n;
            self.awaiting = next;
            return Ok(());
        }
        self.refuses()?;
        Ok(())
    }

    fn type_second(&mut self, before: Before<'_>, x: &Word<'_>) -> Result<(), AllocError>
        requires ordered { AreInOrder 0 before.tokens.now (length before.text.now) }
        requires within { before.n ≤ length before.tokens.now }
        ensures { OnOk result (naming self.new ≡ type_second (naming self.old) (lexemes_of before.entry) (lexeme_of x.now)) }
    {
        if is_int(x.kind) {
            return self.awaits(Awaiting::TypeName);
        }
        self.new_name(before, x, Awaiting::TypeEnd)?;
        Ok(())
    }

    fn begins_enumeration(&mut self) -> Result<(), AllocError>
        ensures { OnOk result (naming self.new ≡ begins_enumeration (naming self.old)) }
    {
        if self.may {
            self.last.clear();
            self.awaiting = Awaiting::Enumerator(true);
            return Ok(());
        }
        self.refuses()?;
        Ok(())
    }

    fn enum_opening(&mut self, sign: Sign) -> Result<(), AllocError>
        ensures { OnOk result (naming self.new ≡ enum_opening (naming self.old) sign) }
    {
        match sign {
            Sign::OpenBrace => self.begins_enumeration(),
            _ => self.refuses(),
        }
    }

    fn enum_first(&mut self, x: &Word<'_>) -> Result<(), AllocError>
        ensures { OnOk result (naming self.new ≡ enum_first (naming self.old) (lexeme_of x.now)) }
    {
        if is_identifier(x.kind) {
            self.name = Vec::from_slice(self.alloc, x.bytes)?;
            self.awaiting = Awaiting::EnumTagged;
            return Ok(());
        }
        self.enum_opening(sign_of(x.kind))?;
        Ok(())
    }

    fn uses_tag(&mut self, before: Before<'_>, x: &Word<'_>) -> Result<(), AllocError>
        requires ordered { AreInOrder 0 before.tokens.now (length before.text.now) }
        requires within { before.n ≤ length before.tokens.now }
        ensures { OnOk result (naming self.new ≡ uses_tag (naming self.old) (lexemes_of before.entry) (lexeme_of x.now)) }
    {
        if self.typing {
            return self.new_name(before, x, Awaiting::TypeEnd);
        }
        self.writes(b"signed int", After::Inside)?;
        self.program_token(x)?;
        Ok(())
    }

    // An enumeration with a tag, if the tag is new.
    fn new_tag(&mut self) -> Result<(), AllocError>
        ensures { OnOk result (naming self.new ≡ (if is_tag (naming self.old).tags (naming self.old).name then refuses (naming self.old) else begins_enumeration (record (naming self.old) { tags = (naming self.old).tags ++ (naming self.old).name ∷ [] }))) }
    {
        if Tag::is_tag(self.tags.as_slice(), self.name.as_slice()) {
            return self.refuses();
        }
        let name = Vec::from_slice(self.alloc, self.name.as_slice())?;
        self.tags.push(Tag { name })?;
        self.begins_enumeration()?;
        Ok(())
    }

    fn enum_tagged(
        &mut self,
        before: Before<'_>,
        x: &Word<'_>,
        sign: Sign,
    ) -> Result<(), AllocError>
        requires ordered { AreInOrder 0 before.tokens.now (length before.text.now) }
        requires within { before.n ≤ length before.tokens.now }
        ensures { OnOk result (naming self.new ≡ enum_tagged (naming self.old) (lexemes_of before.entry) (lexeme_of x.now) sign) }
    {
        match sign {
            Sign::OpenBrace => self.new_tag(),
            _ => {
                if Tag::is_tag(self.tags.as_slice(), self.name.as_slice()) {
                    self.uses_tag(before, x)
                } else {
                    self.refuses()
                }
            }
        }
    }

    // One more enumerator is known.
    fn counts(&mut self, value: Vec<u8>, next: Awaiting) -> Result<(), AllocError>
        ensures { OnOk result (naming self.new ≡ counts (naming self.old) value.items next) }
    {
        let name = Vec::from_slice(self.alloc, self.name.as_slice())?;
        self.last = Vec::from_slice(self.alloc, self.name.as_slice())?;
        let token = self.token;
        self.enumerators.push(Constant { name, value, token })?;
        self.awaiting = next;
        Ok(())
    }

    // An enumerator without a value.
    fn counts_next(&mut self, next: Awaiting) -> Result<(), AllocError>
        ensures { OnOk result (naming self.new ≡ counts (naming self.old) (next_value (naming self.old).last) next) }
    {
        let value = next_value(self.alloc, self.last.as_slice())?;
        self.counts(value, next)
    }

    // An enumerator with a value.
    fn counts_value(&mut self, next: Awaiting) -> Result<(), AllocError>
        ensures { OnOk result (naming self.new ≡ counts (naming self.old) (naming self.old).value next) }
    {
        let value = Vec::from_slice(self.alloc, self.value.as_slice())?;
        self.counts(value, next)
    }

    fn behind_enumeration(&self) -> Awaiting
        ensures { result ≡ behind_enumeration (naming self.now) }
    {
        if self.typing {
            Awaiting::TypeName
        } else {
            Awaiting::EnumEnd
        }
    }

    fn enum_close(&mut self, sign: Sign, first: bool) -> Result<(), AllocError>
        ensures { OnOk result (naming self.new ≡ enum_close (naming self.old) sign first) }
    {
        match sign {
            Sign::CloseBrace => {
                if first {
                    self.refuses()
                } else {
                    let next = self.behind_enumeration();
                    self.awaits(next)
                }
            }
            _ => self.refuses(),
        }
    }

    fn enumerator(
        &mut self,
        before: Before<'_>,
        x: &Word<'_>,
        first: bool,
    ) -> Result<(), AllocError>
        requires ordered { AreInOrder 0 before.tokens.now (length before.text.now) }
        requires within { before.n ≤ length before.tokens.now }
        ensures { OnOk result (naming self.new ≡ enumerator (naming self.old) (lexemes_of before.entry) (lexeme_of x.now) first) }
    {
        if is_identifier(x.kind) {
            return self.new_name(before, x, Awaiting::Enumerated);
        }
        self.enum_close(sign_of(x.kind), first)?;
        Ok(())
    }

    fn enumerated(&mut self, sign: Sign) -> Result<(), AllocError>
        ensures { OnOk result (naming self.new ≡ enumerated (naming self.old) sign) }
    {
        match sign {
            Sign::Assign => {
                self.value.clear();
                self.parentheses = 0;
                self.awaiting = Awaiting::EnumValue;
                Ok(())
            }
            Sign::Comma => self.counts_next(Awaiting::Enumerator(false)),
            Sign::CloseBrace => {
                let next = self.behind_enumeration();
                self.counts_next(next)
            }
            _ => self.refuses(),
        }
    }

    fn adds(&mut self, x: &Word<'_>) -> Result<(), AllocError>
        ensures { OnOk result (naming self.new ≡ adds (naming self.old) (lexeme_of x.now)) }
    {
        Definition::push_replaced(&mut self.value, self.types.as_slice(), x)?;
        Ok(())
    }

    fn value_token(&mut self, x: &Word<'_>, sign: Sign) -> Result<(), AllocError>
        ensures { OnOk result (naming self.new ≡ value_token (naming self.old) (lexeme_of x.now) sign) }
    {
        match sign {
            Sign::Comma => {
                if self.parentheses == 0 {
                    return self.counts_value(Awaiting::Enumerator(false));
                }
                self.adds(x)
            }
            Sign::CloseBrace => {
                if self.parentheses == 0 {
                    let next = self.behind_enumeration();
                    return self.counts_value(next);
                }
                self.refuses()
            }
            Sign::OpenParenthesis => {
                self.adds(x)?;
                self.parentheses = one_more(self.parentheses);
                Ok(())
            }
            Sign::CloseParenthesis => {
                self.adds(x)?;
                self.parentheses = self.parentheses.saturating_sub(1);
                Ok(())
            }
            Sign::Semicolon | Sign::Assign | Sign::OpenBrace => self.refuses(),
            Sign::Other => self.adds(x),
        }
    }

    fn ends(&mut self)
        ensures { naming self.new ≡ ends (naming self.old) }
    {
        self.after = After::End;
        self.awaiting = Awaiting::Program;
    }

    fn enum_end(&mut self, sign: Sign) -> Result<(), AllocError>
        ensures { OnOk result (naming self.new ≡ enum_end (naming self.old) sign) }
    {
        match sign {
            Sign::Semicolon => {
                self.ends();
                Ok(())
            }
            _ => self.refuses(),
        }
    }

    fn type_end(&mut self, sign: Sign) -> Result<(), AllocError>
        ensures { OnOk result (naming self.new ≡ type_end (naming self.old) sign) }
    {
        match sign {
            Sign::Semicolon => {
                let name = Vec::from_slice(self.alloc, self.name.as_slice())?;
                let body = Vec::from_slice(self.alloc, self.body.as_slice())?;
                self.types.push(Definition { name, body })?;
                self.ends();
                Ok(())
            }
            _ => self.refuses(),
        }
    }

    fn token(&mut self, before: Before<'_>, x: &Word<'_>) -> Result<(), AllocError>
        requires ordered { AreInOrder 0 before.tokens.now (length before.text.now) }
        requires within { before.n ≤ length before.tokens.now }
        ensures { OnOk result (naming self.new ≡ naming_token (naming self.old) (lexemes_of before.entry) (lexeme_of x.now) self.old.awaiting) }
    {
        match self.awaiting {
            Awaiting::Program => self.program_token(x),
            Awaiting::TypeFirst => self.type_first(x),
            Awaiting::TypeSecond => self.type_second(before, x),
            Awaiting::TypeName => self.new_name(before, x, Awaiting::TypeEnd),
            Awaiting::TypeEnd => self.type_end(sign_of(x.kind)),
            Awaiting::EnumFirst => self.enum_first(x),
            Awaiting::EnumTagged => self.enum_tagged(before, x, sign_of(x.kind)),
            Awaiting::Enumerator(first) => self.enumerator(before, x, first),
            Awaiting::Enumerated => self.enumerated(sign_of(x.kind)),
            Awaiting::EnumValue => self.value_token(x, sign_of(x.kind)),
            Awaiting::EnumEnd => self.enum_end(sign_of(x.kind)),
        }
    }
}

fn end_of(awaiting: Awaiting) -> &'static [u8]
    ensures { result.now ≡ end_of awaiting }
{
    match awaiting {
        Awaiting::Program => b"",
        _ => b"# ",
    }
}

fn start(alloc: Global) -> Namer
    ensures { naming result ≡ start }
{
    Namer {
        alloc,
        written: Vec::new(alloc),
        types: Vec::new(alloc),
        tags: Vec::new(alloc),
        enumerators: Vec::new(alloc),
        braces: 0,
        block: false,
        after: After::End,
        name: Vec::new(alloc),
        token: 0,
        body: Vec::new(alloc),
        value: Vec::new(alloc),
        last: Vec::new(alloc),
        parentheses: 0,
        may: false,
        typing: false,
        awaiting: Awaiting::Program,
    }
}

fn name_all(alloc: Global, text: &[u8], tokens: &[Token]) -> Result<NamedText, AllocError>
    requires { AreInOrder 0 tokens.now (length text.now) }
    ensures text { IfOk result (λ n. n.stage.text.items ≡ named (lexemes text.now tokens.now)) }
    ensures enumerators { IfOk result (λ n. map enumerator_of n.enumerators.items ≡ enumerators (lexemes text.now tokens.now)) }
{
    let mut namer = start(alloc);
    let mut ends = Vec::new(alloc);
    for n in 0..tokens.len() {
        let word = word_at(text, tokens, n);
        namer.token(Before { text, tokens, n }, &word)?;
        push_end(&mut ends, namer.written.len())?;
    }
    let end = end_of(namer.awaiting);
    let mut text = replace(&mut namer.written, Vec::new(alloc));
    text.extend_from_slice(end)?;
    let enumerators = replace(&mut namer.enumerators, Vec::new(alloc));
    Ok(NamedText {
        stage: Stage { text, ends },
        enumerators,
    })
}

/// The text without `typedef` and enumerations, the names of types replaced, and the enumerators. Refuses with 7 (SourceTooLarge)
/// if the text has more than 65,536 bytes, and with 40 (OutOfMemory).
pub fn named(alloc: Global, text: &[u8], tokens: &[Token]) -> Result<NamedText, SyntaxFault>
    requires { AreInOrder 0 tokens.now (length text.now) }
    ensures { IsNamed (lexemes text.now tokens.now) result }
{
    let NamedText { stage, enumerators } = match name_all(alloc, text, tokens) {
        Ok(named) => named,
        Err(_) => return Err(SyntaxFault::OutOfMemory),
    };
    match staged(stage) {
        Ok(stage) => Ok(NamedText { stage, enumerators }),
        Err(fault) => Err(fault),
    }
}
