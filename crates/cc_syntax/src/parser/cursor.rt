// A token, with the text that it is in.

ghost use Rattle.std.specs.Prelude.{◌≡◌, ◌≤◌, length, IfOk};

use cc_ast::Identifier;
use cc_tokens::Token;
use std::alloc::{AllocError, Global};

/// A token, and the text that contains its bytes.
#[derive(Clone, Copy)]
pub struct Cursor<'a> {
    pub text: &'a [u8],
    pub token: Token,
    pub ghost order: { token.from ≤ token.to },
    pub ghost within: { token.to ≤ length text.now },
}

impl<'a> Cursor<'a> {
    ghost use Rattle.cc_ast.specs.Erase.{name_tree};
    ghost use Rattle.cc_syntax.specs.internal.ParserView.{name_at};

    /// The offset of the token.
    pub fn at(&self) -> usize
        ensures { result ≡ self.now.token.from }
    {
        self.token.from
    }

    /// The token as an identifier.
    pub fn name(&self, alloc: Global) -> Result<Identifier, AllocError>
        ensures { IfOk result (λ n. name_tree n ≡ name_at self.now) }
    {
        Ok(Identifier {
            bytes: Vec::from_slice(alloc, &self.text[self.token.from..self.token.to])?,
            at: self.token.from,
        })
    }
}
