// From a text of wide C to its marked tree, and the places of faults.

ghost use Rattle.std.specs.Prelude.{◌≡◌, ◌≤◌, length, map, IfOk, IfErr};
ghost use Rattle.cc_ast.specs.Source.{source};
ghost use Rattle.cc_tokens.specs.Token.{lexemes};
ghost use Rattle.cc_tokens.specs.Tokens.{AreInOrder};
ghost use Rattle.cc_wide_text.specs.Program.{IsMarkedTree, IsReadRefusal};
ghost use Rattle.cc_wide_text.specs.internal.Answers.{IsPlaced, IsNumberedAnswer, IsKnownAnswer, IsReplacedAnswer};
ghost use Rattle.cc_wide_text.specs.internal.Views.{number};

use crate::macros::expanded;
use crate::marks::marked;
use crate::names::named;
use crate::numbers::{Counted, Numbered, numbers_of};
use crate::plain::plain;
use crate::word::Stage;
use cc_ast::Unit;
use cc_syntax::{parse, trees_are_determined};
use cc_tokens::{MOST_BYTES, Place, SyntaxFault, Token, place_at, tokens, tokens_are_determined};
use std::alloc::{AllocError, Global};

/// A text of wide C that has been read.
#[derive(Drop)]
pub struct WideText {
    /// The marked text, with the tree that it spells.
    pub unit: Unit,
    /// For each token of the marked text, the offset in the wide text of the token that it comes from. Tested, not proved.
    pub origins: Vec<usize>,
}

impl WideText {
    /// The marked text, with the tree that it spells.
    pub fn unit(&self) -> &Unit
        ensures { result.now ≡ self.now.unit }
    {
        &self.unit
    }
}

// The offset of a place in a text.
fn offset_of(text: &[u8], place: Place) -> usize {
    let mut line: usize = 1;
    let mut column: usize = 1;
    for i in 0..text.len() {
        if line == place.line && column == place.column {
            return i;
        }
        if text[i] == b'\n' {
            line = line.saturating_add(1);
            column = 1;
        } else {
            column = column.saturating_add(1);
        }
    }
    text.len()
}

// The first number from k on of a token after which more than `at` bytes had been written.
fn token_of(ends: &[usize], k: usize, at: usize) -> usize {
    for i in k..ends.len() {
        if at < ends[i] {
            return i;
        }
    }
    ends.len()
}

// For each token of a stage, the origin of the token that became it.
fn origins_of(
    alloc: Global,
    stage: &Stage,
    origins: &[usize],
    found: &[Token],
) -> Result<Vec<usize>, AllocError> {
    let mut all = Vec::new(alloc);
    let mut k = 0;
    for token in found {
        k = token_of(stage.ends.as_slice(), k, token.from);
        let origin = if k < origins.len() { origins[k] } else { 0 };
        all.push(origin)?;
    }
    Ok(all)
}

// For each token, its offset.
fn offsets(alloc: Global, found: &[Token]) -> Result<Vec<usize>, AllocError> {
    let mut all = Vec::new(alloc);
    for token in found {
        all.push(token.from)?;
    }
    Ok(all)
}

fn place_in(text: &[u8], at: usize) -> Place {
    place_at(text, at.min(text.len()))
}

// The fault at another place; 7, which comes only for what is too long, becomes 5.
fn at_place(fault: SyntaxFault, place: Place) -> SyntaxFault
    ensures { IsPlaced fault result }
{
    match fault {
        SyntaxFault::BadByte(_) => SyntaxFault::BadByte(place),
        SyntaxFault::UnclosedComment(_) => SyntaxFault::UnclosedComment(place),
        SyntaxFault::BadConstant(_) => SyntaxFault::BadConstant(place),
        SyntaxFault::ConstantTooLarge(_) => SyntaxFault::ConstantTooLarge(place),
        SyntaxFault::Unexpected(_) | SyntaxFault::SourceTooLarge => SyntaxFault::Unexpected(place),
        SyntaxFault::TooDeep(_) => SyntaxFault::TooDeep(place),
        SyntaxFault::OutOfMemory => SyntaxFault::OutOfMemory,
    }
}

// The same for a fault of a text that another has become: what begins no token there is unexpected here.
fn become_at(fault: SyntaxFault, place: Place) -> SyntaxFault
    ensures { IsPlaced fault result }
{
    match fault {
        SyntaxFault::BadByte(_) => SyntaxFault::Unexpected(place),
        other => at_place(other, place),
    }
}

// The fault of a text without character constants, whose offsets are those of the wide text.
fn fault_in_plain(wide: &[u8], plain: &[u8], fault: SyntaxFault) -> SyntaxFault
    ensures { IsPlaced fault result }
{
    let at = match fault.place() {
        Some(place) => offset_of(plain, place),
        None => wide.len(),
    };
    at_place(fault, place_in(wide, at))
}

// A text that tokens are those of, and the origin of each token in the wide text.
#[derive(Clone, Copy)]
struct Reader<'a> {
    alloc: Global,
    wide: &'a [u8],
    text: &'a [u8],
    tokens: &'a [Token],
    origins: &'a [usize],
}

impl Reader<'_> {
    // The place in the wide text that token number i comes from.
    fn origin(self, i: usize) -> Place {
        let at = if i < self.origins.len() {
            self.origins[i]
        } else {
            self.wide.len()
        };
        place_in(self.wide, at)
    }

    // The fault of what the tokens became.
    fn fault_in(self, stage: &Stage, fault: SyntaxFault) -> SyntaxFault
        ensures { IsPlaced fault result }
    {
        let i = match fault.place() {
            Some(place) => {
                let at = offset_of(stage.text.as_slice(), place);
                token_of(stage.ends.as_slice(), 0, at)
            }
            None => self.tokens.len(),
        };
        become_at(fault, self.origin(i))
    }

    // Reads the text that tokens become with marks.
    fn read_numbered(self, numbers: &[Numbered]) -> Result<WideText, SyntaxFault>
        requires { AreInOrder 0 self.tokens.now (length self.text.now) }
        ensures { IsNumberedAnswer (map number numbers.now) (lexemes self.entry.text.now self.entry.tokens.now) result }
    {
        let stage = match marked(self.alloc, numbers, self.text, self.tokens) {
            Ok(stage) => stage,
            Err(fault) => return Err(fault),
        };
        let unit = match parse(self.alloc, stage.text.as_slice()) {
            Ok(unit) => unit,
            Err(fault) => return Err(self.fault_in(&stage, fault)),
        };
        let Ok(found) = tokens(self.alloc, stage.text.as_slice()) else {
            return Err(SyntaxFault::OutOfMemory);
        };
        let Ok(origins) = origins_of(self.alloc, &stage, self.origins, found.as_slice()) else {
            return Err(SyntaxFault::OutOfMemory);
        };
        Ok(WideText { unit, origins })
    }

    // Reads the text that tokens become with the names of types replaced.
    fn read_replaced(self) -> Result<WideText, SyntaxFault>
        requires { AreInOrder 0 self.tokens.now (length self.text.now) }
        ensures { IsKnownAnswer (lexemes self.entry.text.now self.entry.tokens.now) result }
    {
        tokens_are_determined();
        trees_are_determined();
        let named = match named(self.alloc, self.text, self.tokens) {
            Ok(named) => named,
            Err(fault) => return Err(fault),
        };
        let known = match tokens(self.alloc, named.stage.text.as_slice()) {
            Ok(known) => known,
            Err(fault) => return Err(self.fault_in(&named.stage, fault)),
        };
        let numbers = match numbers_of(self.alloc, named.enumerators.as_slice()) {
            Ok(Counted::All(numbers)) => numbers,
            Ok(Counted::Wrong(i)) => return Err(SyntaxFault::Unexpected(self.origin(i))),
            Err(_) => return Err(SyntaxFault::OutOfMemory),
        };
        let Ok(origins) = origins_of(self.alloc, &named.stage, self.origins, known.as_slice())
        else {
            return Err(SyntaxFault::OutOfMemory);
        };
        let reader = Reader {
            alloc: self.alloc,
            wide: self.wide,
            text: named.stage.text.as_slice(),
            tokens: known.as_slice(),
            origins: origins.as_slice(),
        };
        reader.read_numbered(numbers.as_slice())
    }

    // Reads the text that tokens become with defined names replaced.
    fn read_words(self) -> Result<WideText, SyntaxFault>
        requires { AreInOrder 0 self.tokens.now (length self.text.now) }
        ensures { IsReplacedAnswer (lexemes self.entry.text.now self.entry.tokens.now) result }
    {
        tokens_are_determined();
        let stage = match expanded(self.alloc, self.text, self.tokens) {
            Ok(stage) => stage,
            Err(fault) => return Err(fault),
        };
        let replaced = match tokens(self.alloc, stage.text.as_slice()) {
            Ok(replaced) => replaced,
            Err(fault) => return Err(self.fault_in(&stage, fault)),
        };
        let Ok(origins) = origins_of(self.alloc, &stage, self.origins, replaced.as_slice()) else {
            return Err(SyntaxFault::OutOfMemory);
        };
        let reader = Reader {
            alloc: self.alloc,
            wide: self.wide,
            text: stage.text.as_slice(),
            tokens: replaced.as_slice(),
            origins: origins.as_slice(),
        };
        reader.read_replaced()
    }
}

/// Returns the marked text of a text of wide C, and the tree that it spells.
///
/// Refuses with 7 (SourceTooLarge) a text of more than 65,536 bytes, or one that becomes longer than that, and with 40 (OutOfMemory)
/// if memory runs out. Otherwise it refuses exactly if the text has no marked tree, at the first wrong place: with 1 to 4 as `tokens`
/// does, also a word that begins with two underscores (1) and a semicolon in a `#define` line (1); with 5 (Unexpected) or 6 (TooDeep)
/// as `parse` does, also a defined name that is not new, one without white space after it, one that is replaced by more than 4,096
/// bytes, a name that is defined again, a wrong `typedef` or enumeration, a value of an enumerator that is not constant or not from
/// -2147483647 to 2147483647 (at the enumerator), a qualifier without a type, a storage class in the wrong place, a label without a
/// colon, and `switch`, `case` and `default` outside functions (5). Which of these faults comes first, and its place, are tested, not
/// proved.
pub fn read(alloc: Global, text: &[u8]) -> Result<WideText, SyntaxFault>
    ensures read { IfOk result (λ w. IsMarkedTree text.now (source w.unit).externals) }
    ensures refused { IfErr result (λ fault. IsReadRefusal text.now fault) }
{
    tokens_are_determined();
    if text.len() > MOST_BYTES {
        return Err(SyntaxFault::SourceTooLarge);
    }
    let Ok(plain) = plain(alloc, text) else {
        return Err(SyntaxFault::OutOfMemory);
    };
    let words = match tokens(alloc, plain.as_slice()) {
        Ok(words) => words,
        Err(fault) => return Err(fault_in_plain(text, plain.as_slice(), fault)),
    };
    let Ok(origins) = offsets(alloc, words.as_slice()) else {
        return Err(SyntaxFault::OutOfMemory);
    };
    let reader = Reader {
        alloc,
        wide: text,
        text: plain.as_slice(),
        tokens: words.as_slice(),
        origins: origins.as_slice(),
    };
    reader.read_words()
}
