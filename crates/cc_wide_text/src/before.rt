// The tokens before a token.

use cc_tokens::Token;

/// The first tokens of a text.
#[derive(Clone, Copy)]
pub struct Before<'a> {
    pub text: &'a [u8],
    pub tokens: &'a [Token],
    /// How many there are.
    pub n: usize,
}
