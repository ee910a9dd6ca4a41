//! The syntax tree of a C text, the grammar, and a text together with the tree that its tokens spell (C99 6.5 to 6.9, and the
//! profile's grammar).
//!
//! The parser, which finds the tree, is in `cc_syntax`. A crate that only reads trees needs only this crate, so it does not wait
//! for the parser's proofs. The tree is in `ast`, and a text with its tree in `unit`.
//!
//! The crate exports `Unit`, the tree's types, the definitions that contracts use (`specs/`), and the tokens, places and refusals
//! of `cc_tokens`.
#![tactic(auto)]

mod ast;
mod unit;

pub use ast::{
    Action, AssignmentOperator, Beginning, BinaryOperator, ConstantExpression, Declarator,
    Expression, External, Identifier, Object, Parameter, Signature, Statement, StepOperator,
    Target, UnaryOperator,
};
pub use cc_tokens::{
    Keyword, LexicalError, MOST_BYTES, NextToken, Place, Punctuator, Scalar, SyntaxFault, Token,
    TokenKind, next_token, place_at, tokens, tokens_are_determined,
};
pub use unit::Unit;
