//! From C text to a syntax tree: the tree that a text's tokens spell (C99 6.5 to 6.9, and the profile's grammar).
//!
//! `parser` finds the tree. The tree, the grammar and a text with its tree are defined in `cc_ast`; the tokens, the places and
//! the refusals in `cc_tokens`.
//!
//! The crate exports `parse`, the theorems that its result is determined by the text, and the items of those two crates. Its
//! contracts use the definitions of `cc_ast`.
#![tactic(auto)]

mod parser;

pub use cc_ast::{
    Action, AssignmentOperator, Beginning, BinaryOperator, ConstantExpression, Declarator,
    Expression, External, Identifier, Object, Parameter, Signature, Statement, StepOperator,
    Target, UnaryOperator, Unit,
};
pub use cc_tokens::{
    Keyword, LexicalError, MOST_BYTES, NextToken, Place, Punctuator, Scalar, SyntaxFault, Token,
    TokenKind, next_token, place_at, tokens, tokens_are_determined,
};
pub use parser::{DEEPEST_LEVEL, MOST_TOKENS, parse, parse_is_determined, trees_are_determined};
