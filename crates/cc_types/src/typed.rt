// A unit that keeps the rules and limits.

ghost use Rattle.std.specs.Prelude.{◌≡◌, ◌<◌, ◌≤◌, [], ◌∷◌, Some, MatchOption, length, slice_get};
ghost use Rattle.cc_ast.specs.Source.{source};
ghost use Rattle.cc_ast.specs.Erase.{external_tree, external_trees};
ghost use Rattle.cc_ast.specs.Parse.{SpellsText};
ghost use Rattle.cc_tokens.specs.Tokens.{most_bytes};
ghost use Rattle.cc_types.specs.internal.Externals.{defines};
ghost use Rattle.cc_types.specs.Typed.{IsTyped, IsWithinLimits, defined_names, definitions};
ghost use Rattle.cc_types.specs.Checked.{IsChecked};
ghost use Rattle.cc_types.specs.Defined.{definition_tree};

use cc_ast::{External, Signature, Statement, Unit};
use std::marker::Model;

/// A unit that breaks no rule of scope or type and exceeds no limit. Contracts see it as the unit that it was made from.
pub struct TypedUnit {
    unit: Unit,
}

// Written by hand, so that the crates above use this proof and need not show again how each part is dropped.
impl Drop for TypedUnit {
    fn drop(self) {
        let TypedUnit { unit } = self;
    }
}

impl Model for TypedUnit {
    ghost use Rattle.cc_ast.specs.Source.{source};
    ghost use Rattle.cc_ast.specs.declared.unit.Unit.{Unit};
    ghost use Rattle.cc_ast.specs.contracts.unit.Unit.{the_row};
    ghost use Rattle.cc_types.specs.Checked.{IsChecked};

    ghost Value = { Unit };

    ghost coded = { the_row.coded };

    ghost view = { λ t. t.unit };

    ghost invariant = { λ t. IsChecked (source t.unit) };
}

/// A function that a unit defines: its head and its body.
#[derive(Clone, Copy)]
pub struct Definition<'a> {
    pub signature: &'a Signature,
    pub body: &'a [Statement],
}

fn definitions_in(external: &External) -> usize
    ensures count { result ≡ length (defines (external_tree external.now)) }
    ensures bound { result ≤ 1 }
{
    match external {
        External::Definition(_, _) => 1,
        External::Declaration(_) | External::Objects(_, _) => 0,
    }
}

fn definition_in(external: &External) -> Option<Definition<'_>>
    ensures { MatchOption result (definitions (external_tree external.now ∷ []) ≡ []) (λ d. definitions (external_tree external.now ∷ []) ≡ definition_tree d ∷ []) }
{
    match external {
        External::Definition(signature, body) => Some(Definition {
            signature,
            body: body.as_slice(),
        }),
        External::Declaration(_) | External::Objects(_, _) => None,
    }
}

impl TypedUnit {
    /// Makes a typed unit from a parsed one. The caller must show that the parsed unit breaks no rule and exceeds no
    /// limit. Takes no memory.
    pub fn new(unit: Unit) -> TypedUnit
        requires { IsChecked (source unit) }
        ensures { result ≡ unit }
    {
        TypedUnit { unit }
    }

    /// The text, byte for byte: at most 65,536 bytes.
    pub fn text(&self) -> &[u8]
        ensures answer { result.now ≡ (source self.now).text }
        ensures few { length result.now ≤ most_bytes }
    {
        self.unit.text()
    }

    /// How many functions the unit defines.
    pub fn functions(&self) -> usize
        ensures { result ≡ length (defined_names (source self.now)) }
    {
        let mut count = 0;
        for external in self.unit.externals() {
            count += definitions_in(external);
        }
        count
    }

    /// The name of the function with this number. Functions are numbered from 0 in the order of their definitions.
    pub fn function_name(&self, function: usize) -> &[u8]
        requires { function < length (defined_names (source self.now)) }
        ensures { slice_get (defined_names (source self.now)) function ≡ Some result.now }
    {
        self.definition(function).signature.name.bytes.as_slice()
    }

    /// The function with this number. Functions are numbered from 0 in the order of their definitions.
    pub fn definition(&self, function: usize) -> Definition<'_>
        requires { function < length (defined_names (source self.now)) }
        ensures { slice_get (definitions (source self.now).externals) function ≡ Some (definition_tree result) }
    {
        let mut left = function;
        for external in self.unit.externals() {
            let Some(definition) = definition_in(external) else {
                continue;
            };
            if left == 0 {
                return definition;
            }
            left -= 1;
        }
        unreachable!()
    }

    /// The external declarations that the text spells.
    pub fn externals(&self) -> &[External]
        ensures tree { external_trees result.now ≡ (source self.now).externals }
        ensures spelled { ∥ SpellsText (source self.now).text (source self.now).externals ∥₁ }
        ensures typed { IsTyped (source self.now).externals }
        ensures limits { IsWithinLimits (source self.now).externals }
    {
        self.unit.externals()
    }
}
