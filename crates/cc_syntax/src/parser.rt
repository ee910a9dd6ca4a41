// Finds the tree that the tokens of a text spell.
//
// The parser reads the tokens in order, without going back, and changes its state in place. Deeper nesting in the text causes no
// deeper recursion.
//
// - `state`: the parser's state between two tokens.
// - `step`: what one token does, depending on what is being read.
// - `cursor`: a token in its text; `role`: the role of a token in the grammar.
// - `outer` and `objects`: tokens at file scope.
// - `body`, with `settle` for the ends of statements: tokens in a function's body.
// - `operand` and `operator`: tokens in a full expression, with `expression` for pending operators, `count` for the limit, and
//   `ends` for the token after the expression.
// - `read`: all tokens, with the limits.

mod body;
mod count;
mod cursor;
mod ends;
mod expression;
mod objects;
mod operand;
mod operator;
mod outer;
mod read;
mod role;
mod settle;
mod state;
mod step;
mod stop;

ghost use Rattle.std.specs.Prelude.{◌≡◌, ◌≤◌, length, IfOk, IfErr};
ghost use Rattle.cc_tokens.specs.Token.{lexemes};
ghost use Rattle.cc_tokens.specs.Tokens.{AreInOrder, IsTokens, most_bytes};
ghost use Rattle.cc_ast.specs.Erase.{external_trees};
ghost use Rattle.cc_syntax.specs.internal.ParserView.{Refuses};
ghost use Rattle.cc_ast.specs.Parse.{SpellsText, IsParseRefusal, ParseAnswersAreOne, TextsHaveAnswers, place_at_token};
ghost use Rattle.cc_ast.specs.Limits.{TreesAreOne, SpelledHaveNoFault};
ghost use Rattle.cc_ast.specs.Source.{source, UnitTree, AnswersTree};
ghost use Rattle.cc_syntax.specs.internal.Answer.{IsParse};

pub use crate::parser::count::MOST_TOKENS;
pub use crate::parser::read::DEEPEST_LEVEL;
use crate::parser::state::{At, Outer, Parser, Values, no_body, no_full, no_objects, no_signature};
use crate::parser::stop::Refusal;
use cc_ast::{External, Unit};
use cc_tokens::{MOST_BYTES, Place, SyntaxFault, Token, place_at, tokens};
use std::alloc::Global;

/// The place of a token, or of the end of the text.
fn place_of_token(text: &[u8], tokens: &[Token], number: usize) -> Place
    requires { AreInOrder 0 tokens.now (length text.now) }
    ensures { result ≡ place_at_token text.now (lexemes text.now tokens.now) number }
{
    if number < tokens.len() {
        place_at(text, tokens[number].from)
    } else {
        place_at(text, text.len())
    }
}

/// The fault for a text whose tokens were refused because of the grammar, a limit, or lack of memory.
fn fault_of(text: &[u8], tokens: &[Token], refusal: Refusal) -> SyntaxFault
    requires fits { length text.now ≤ most_bytes }
    requires ordered { AreInOrder 0 tokens.now (length text.now) }
    requires tokens { IsTokens text.now (lexemes text.now tokens.now) }
    requires refused { Refuses (lexemes text.now tokens.now) refusal }
    ensures { IsParseRefusal text.now result }
{
    match refusal {
        Refusal::Memory => SyntaxFault::OutOfMemory,
        Refusal::Unexpected(number) => SyntaxFault::Unexpected(place_of_token(
            text, tokens, number,
        )),
        Refusal::TooDeep(number) => SyntaxFault::TooDeep(place_of_token(text, tokens, number)),
    }
}

/// Makes a unit from a text and the external declarations that its tokens spell.
fn unit_of(alloc: Global, text: &[u8], externals: Vec<External>) -> Result<Unit, SyntaxFault>
    requires fits { length text.now ≤ most_bytes }
    requires spelled { SpellsText text.now (external_trees externals.items) }
    ensures { IsParse text.now result }
{
    match Vec::from_slice(alloc, text) {
        Ok(text) => Ok(Unit::new(text, externals)),
        Err(_) => Err(SyntaxFault::OutOfMemory),
    }
}

impl Parser {
    /// Parses a text after making a list of its tokens.
    fn parse_list(&mut self, text: &[u8]) -> Result<Unit, SyntaxFault>
        ensures { IsParse text.now result }
    {
        let found = tokens(self.alloc, text)?;
        match self.read_tokens(text, found.as_slice()) {
            Ok(externals) => unit_of(self.alloc, text, externals),
            Err(refusal) => Err(fault_of(text, found.as_slice(), refusal)),
        }
    }

    /// Parses a text.
    fn parse(&mut self, text: &[u8]) -> Result<Unit, SyntaxFault>
        ensures { IsParse text.now result }
    {
        if text.len() <= MOST_BYTES {
            if let Some(externals) = self.read_text(text) {
                return unit_of(self.alloc, text, externals);
            }
        }
        self.parse_list(text)
    }
}

/// Parses a text with a new parser.
fn parse_text(alloc: Global, text: &[u8]) -> Result<Unit, SyntaxFault>
    ensures { IsParse text.now result }
{
    let mut parser = Parser {
        alloc,
        externals: Vec::new(alloc),
        at: At::File,
        outer: Outer::Between,
        signature: no_signature(alloc),
        naming: no_objects(alloc),
        list: Values {
            size: None,
            values: Vec::new(alloc),
        },
        body: no_body(alloc),
        full: no_full(alloc),
    };
    parser.parse(text)
}

/// Returns the text with the tree that it spells (C99 6.5 to 6.9, and the profile's grammar).
///
/// Refuses with 7 (SourceTooLarge) or a lexical error (1 to 4), as `tokens` does. Otherwise it refuses with 5 or 6 at the first
/// token that is wrong. The fault is 5 (Unexpected) if no unit begins with the tokens up to and including that one; the end of
/// the text counts as a last token. It is 6 (TooDeep) if the token comes after the 512th of its full expression, or begins a
/// statement or declaration below level 64. It refuses with 40 (OutOfMemory) if memory runs out.
pub fn parse(alloc: Global, text: &[u8]) -> Result<Unit, SyntaxFault>
    ensures fits { IfOk result (λ _. length text.now ≤ most_bytes) }
    ensures text { IfOk result (λ u. (source u).text ≡ text.now) }
    ensures spelled { IfOk result (λ u. SpellsText text.now (source u).externals) }
    // If the text spells a tree, the result is that tree, unless memory ran out.
    ensures only { (tree : UnitTree) → length text.now ≤ most_bytes → SpellsText text.now tree → AnswersTree tree result }
    ensures refused { IfErr result (λ fault. IsParseRefusal text.now fault) }
{
    parse_text(alloc, text)
}

/// Shows that tokens spell at most one tree, and that if they spell one within the limits, no token breaks the grammar or a
/// limit.
pub fn trees_are_determined()
    ensures one { TreesAreOne }
    ensures no_fault { SpelledHaveNoFault }
{}

/// Shows that, if memory suffices, the text alone determines what `parse` returns: each text has either one tree or one fault
/// with one number and one place, and not both.
pub fn parse_is_determined()
    ensures one { ParseAnswersAreOne }
    ensures some { TextsHaveAnswers }
{}
