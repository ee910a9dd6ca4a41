// Reading all tokens, one after another.
//
// A text is first read token by token, without a list of tokens, which would need memory. If that yields no tree, the tokens are
// put into a list. Making the list finds the text's first lexical error, and reading the list finds the first token that breaks
// the grammar or a limit.

ghost use Rattle.std.specs.Prelude.{◌≡◌, length, IfSome, MatchResult};
ghost use Rattle.std.specs.Option.{option_map};
ghost use Rattle.cc_ast.specs.Erase.{external_trees};
ghost use Rattle.cc_syntax.specs.internal.Parser.{tree_of};
ghost use Rattle.cc_ast.specs.Limits.{SpellsWithin};
ghost use Rattle.cc_ast.specs.Parse.{SpellsText};
ghost use Rattle.cc_syntax.specs.internal.ParserView.{parser_view, Advances, Refuses};
ghost use Rattle.cc_tokens.specs.Token.{lexeme, lexemes};
ghost use Rattle.cc_tokens.specs.Tokens.{AreInOrder};

use crate::parser::cursor::Cursor;
use crate::parser::role::of_kind;
use crate::parser::state::{At, Outer, Parser};
use crate::parser::stop::{Refusal, Stop};
use cc_ast::External;
use cc_tokens::{NextToken, Token, next_token};
use std::mem::replace;

/// The deepest level that a statement or declaration may have.
pub const DEEPEST_LEVEL: usize = 64;

impl Parser {
    /// Reads one token, and checks the limits.
    fn advance(&mut self, cursor: &Cursor<'_>) -> Result<(), Stop>
        ensures { Advances (parser_view self.old) (lexeme cursor.now.text.now cursor.now.token) result self.new }
    {
        let role = of_kind(cursor.token.kind);
        let level = self.level_begun(role);
        match self.step(role, cursor) {
            Ok(()) => {
                if level > DEEPEST_LEVEL {
                    Err(Stop::TooDeep)
                } else {
                    Ok(())
                }
            }
            Err(stop) => Err(stop),
        }
    }

    /// Returns the external declarations that a text spells, without making a list of its tokens. Returns `None` if the text is
    /// refused or memory runs out.
    pub fn read_text(&mut self, text: &[u8]) -> Option<Vec<External>>
        ensures { IfSome result (λ es. SpellsText text.now (external_trees es.items)) }
    {
        self.restart();
        let mut at = 0;
        while at < text.len() {
            match next_token(text, at) {
                NextToken::Token(token) => match self.advance(&Cursor { text, token }) {
                    Ok(()) => at = token.to,
                    Err(_) => return None,
                },
                NextToken::End => at = text.len(),
                NextToken::Error(_, _) => return None,
            }
        }
        self.finished()
    }

    /// Returns the external declarations that the tokens spell within the limits, or says which token is the first that breaks
    /// the grammar or a limit.
    pub fn read_tokens(&mut self, text: &[u8], tokens: &[Token]) -> Result<Vec<External>, Refusal>
        requires { AreInOrder 0 tokens.now (length text.now) }
        ensures { MatchResult result (λ es. SpellsWithin (lexemes text.now tokens.now) (external_trees es.items)) (λ e. Refuses (lexemes text.now tokens.now) e) }
    {
        self.restart();
        for number in 0..tokens.len() {
            let cursor = Cursor {
                text,
                token: tokens[number],
            };
            match self.advance(&cursor) {
                Ok(()) => {}
                Err(Stop::Memory) => return Err(Refusal::Memory),
                Err(Stop::Unexpected) => return Err(Refusal::Unexpected(number)),
                Err(Stop::TooDeep) => return Err(Refusal::TooDeep(number)),
            }
        }
        match self.finished() {
            Some(externals) => Ok(externals),
            None => Err(Refusal::Unexpected(tokens.len())),
        }
    }

    /// Returns the external declarations if the unit may end here.
    fn finished(&mut self) -> Option<Vec<External>>
        ensures { option_map (λ es. external_trees es.items) result ≡ tree_of (parser_view self.old) }
    {
        match self.at {
            At::File => match self.outer {
                Outer::Between => {
                    if self.externals.is_empty() {
                        return None;
                    }
                    Some(replace(&mut self.externals, Vec::new(self.alloc)))
                }
                _ => None,
            },
            _ => None,
        }
    }
}
