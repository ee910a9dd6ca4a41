// A text with the tree that its tokens spell.

ghost use Rattle.std.specs.Prelude.{◌≡◌, ◌≤◌, length};
ghost use Rattle.cc_ast.specs.Erase.{external_trees};
ghost use Rattle.cc_ast.specs.Parse.{SpellsText};
ghost use Rattle.cc_tokens.specs.Tokens.{most_bytes};

use super::ast::External;

/// A parsed text: the text, and the tree that its tokens spell within the limits.
pub struct Unit {
    text: Vec<u8>,
    externals: Vec<External>,
    ghost spelled: { ∥ SpellsText text.items (external_trees externals.items) ∥₁ },
    ghost fits: { length text.items ≤ most_bytes },
}

// Written by hand, so that the crates above use this proof and need not show again how each part is dropped.
impl Drop for Unit {
    fn drop(self) {
        let Unit { text, externals } = self;
    }
}

impl Unit {
    ghost use Rattle.cc_ast.specs.Source.{source};

    /// Makes a unit from a text and a tree that the text's tokens spell.
    pub fn new(text: Vec<u8>, externals: Vec<External>) -> Self
        requires spelled { SpellsText text.items (external_trees externals.items) }
        requires fits { length text.items ≤ most_bytes }
        ensures text { (source result).text ≡ text.items }
        ensures externals { (source result).externals ≡ external_trees externals.items }
    {
        Unit { text, externals }
    }

    /// The text, byte for byte: at most 65,536 bytes.
    pub fn text(&self) -> &[u8]
        ensures answer { result.now ≡ (source self.now).text }
        ensures few { length result.now ≤ most_bytes }
    {
        self.text.as_slice()
    }

    /// The external declarations that the text spells.
    pub fn externals(&self) -> &[External]
        ensures tree { external_trees result.now ≡ (source self.now).externals }
        // The text's tokens spell the tree, and the limits hold.
        ensures spelled { ∥ SpellsText (source self.now).text (source self.now).externals ∥₁ }
    {
        self.externals.as_slice()
    }
}
