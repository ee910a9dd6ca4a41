// The operators of a text that can go wrong, found among its tokens.

use cc_tokens::{Punctuator, Token, TokenKind, tokens};
use std::alloc::{AllocError, Global};

// Whether a token is an operator that can go wrong.
fn can_go_wrong(token: Token) -> bool {
    // ORDER BinaryOperator
    match token.kind {
        TokenKind::Punctuator(punctuator) => matches!(
            punctuator,
            Punctuator::Slash
                | Punctuator::Percent
                | Punctuator::ShiftLeft
                | Punctuator::ShiftRight
                | Punctuator::SlashAssign
                | Punctuator::PercentAssign
                | Punctuator::ShiftLeftAssign
                | Punctuator::ShiftRightAssign
        ),
        TokenKind::Identifier | TokenKind::Keyword(_) | TokenKind::Number(_, _) => false,
    }
}

/// The offsets of the operators that can go wrong, in the order of the text; `None` if the text cannot be
/// split into tokens.
pub fn operators(alloc: Global, text: &[u8]) -> Result<Option<Vec<usize>>, AllocError> {
    match tokens(alloc, text) {
        Ok(tokens) => {
            let offsets = tokens
                .iter()
                .filter(|token| can_go_wrong(**token))
                .map(|token| token.from)
                .collect(alloc);
            drop(tokens);
            Ok(Some(offsets?))
        }
        Err(fault) => {
            drop(fault);
            Ok(None)
        }
    }
}
