// The addresses of a unit's objects: each object lies right after the one before it, in the order of their declarations.

ghost use Rattle.std.specs.Prelude.{◌≡◌, ◌≤◌, ◌<◌, ◌++◌, ◌∷◌, ℕ, List, length, IfOk, OnOk};
ghost use Rattle.cc_ast.specs.Erase.{object_trees, external_tree, external_trees};
ghost use Rattle.cc_ast.specs.Tree.{External as Tree};
ghost use Rattle.cc_types.specs.Limits.{objects};
ghost use Rattle.cc_types.specs.Typed.{IsTyped, IsWithinLimits};
ghost use Rattle.cc_c_semantics.specs.Numbered.{objects_in};
ghost use Rattle.cc_rv32.specs.Machine.{globals_to};
ghost use Rattle.cc_emit.specs.Objects.{object_address};
ghost use Rattle.cc_emit.specs.internal.Bases.{base_in, bases_from, address_behind};

use cc_ast::{External, Object};
use cc_c_semantics::names_have_numbers;
use cc_rv32::map::GLOBALS_FROM;
use cc_types::object_words;
use std::alloc::{AllocError, Global};
use std::marker::Model;

/// The address of each object, and the address after the last one. Contracts see the list.
#[derive(Drop)]
pub(crate) struct Bases {
    addresses: Vec<u32>,
}

impl Model for Bases {
    ghost use Rattle.std.specs.Prelude.{ℕ, List, ◌<◌, length};

    ghost Value = { List ℕ };

    ghost view = { λ b. b.addresses.items };

    ghost invariant = { λ b. 0 < length b.addresses.items };
}

impl Bases {
    /// Works out the addresses of a unit's objects from its declarations. Err: memory ran out.
    pub(crate) fn new(alloc: Global, trees: &[External]) -> Result<Bases, AllocError>
        requires typed { IsTyped (external_trees trees.now) }
        requires limits { IsWithinLimits (external_trees trees.now) }
        ensures { IfOk result (λ b. (object : ℕ) → base_in b object ≡ object_address (objects_in (external_trees trees.now)) object) }
    {
        // In a typed unit an object has as many words before the run as its declaration says.
        names_have_numbers();
        let mut addresses = Vec::new(alloc);
        let mut behind = GLOBALS_FROM;
        for tree in trees {
            behind = add_bases(&mut addresses, behind, objects_of(tree))?;
        }
        addresses.push(behind)?;
        Ok(Bases { addresses })
    }

    /// The address of an object; the address after the last object, if there is no such object.
    pub(crate) fn of(&self, object: u32) -> u32
        ensures { result ≡ base_in self.now object }
    {
        let last = self.addresses.len() - 1;
        self.addresses[last.min(object as usize)]
    }
}

// The objects that a declaration declares.
fn objects_of(external: &External) -> &[Object]
    ensures { (rest : List Tree) → objects (external_tree external.now ∷ rest) ≡ object_trees result.now ++ objects rest }
{
    match external {
        External::Objects(_, objects) => objects.as_slice(),
        External::Declaration(_) | External::Definition(_, _) => &[],
    }
}

// Adds the addresses of these objects, starting at `address`, and answers the address after them.
fn add_bases(addresses: &mut Vec<u32>, address: u32, trees: &[Object]) -> Result<u32, AllocError>
    requires { address_behind address (object_trees trees.now) ≤ globals_to }
    ensures bases { OnOk result (addresses.new.items ≡ addresses.old.items ++ bases_from address (object_trees trees.now)) }
    ensures behind { IfOk result (λ n. n ≡ address_behind address (object_trees trees.now)) }
{
    let mut behind = address;
    for tree in trees {
        addresses.push(behind)?;
        behind += 4 * object_words(tree) as u32;
    }
    Ok(behind)
}
