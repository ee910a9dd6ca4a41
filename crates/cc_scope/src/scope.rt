// The names in scope, scope by scope.

ghost use Rattle.std.specs.Prelude.{◌≡◌, ◌≤◌, [], length, drop, IfOk, OnOk};
ghost use Rattle.cc_types.specs.Scope.{opened, declared, in_scope, is_declared, found, with_declared, first_file_scope};
ghost use Rattle.cc_scope.specs.Entities.{entity_of, optional_entity};
ghost use Rattle.cc_scope.specs.Bindings.{closed, file_level, number_of};
ghost use Rattle.cc_scope.specs.internal.Scopes.{from};

use super::bindings::{Bindings, Newest};
use super::entity::Entity;
use std::alloc::{AllocError, Global};
use std::marker::Model;

/// The names of file scope, and those of the blocks that are open.
#[derive(Drop)]
pub struct Scope<'a> {
    bindings: Bindings<'a>,
    // How many of the newest bindings belong to the innermost scope. This is 0 if only file scope is open.
    inner: usize,
}

impl<'a> Model for Scope<'a> {
    ghost use Rattle.std.specs.Prelude.{◌≤◌, length};
    ghost use Rattle.cc_types.specs.Scope.{Visible};
    ghost use Rattle.cc_scope.specs.Bindings.{scope_of};

    ghost Value = { Visible };

    ghost view = { λ s. scope_of s.bindings s.inner };

    ghost invariant = { λ s. s.inner ≤ length s.bindings };
}

pub const WRITE_WORD: &[u8] = b"write_word";

pub const READ_WORD: &[u8] = b"read_word";

fn push_builtins(bindings: &mut Bindings<'_>) -> Result<(), AllocError>
    requires { bindings.old ≡ [] }
    ensures { OnOk result (bindings.new ≡ first_file_scope.bindings) }
{
    bindings.push(READ_WORD, Entity::ReadWord)?;
    bindings.push(WRITE_WORD, Entity::WriteWord)?;
    Ok(())
}

// Whether there is a binding, and its number is at least `first`.
fn is_from(binding: Option<Newest<'_>>, first: usize) -> bool
    ensures { result ≡ from first (number_of binding.entry) }
{
    match binding {
        Some(newest) => newest.number >= first,
        None => false,
    }
}

impl<'a> Scope<'a> {
    /// Returns file scope at the start of a text, which contains the builtins. `AllocError` if memory runs out.
    pub fn new(alloc: Global) -> Result<Scope<'a>, AllocError>
        ensures { IfOk result (λ s. s ≡ file_level first_file_scope.bindings) }
    {
        let mut bindings = Bindings::new(alloc);
        match push_builtins(&mut bindings) {
            Ok(()) => Ok(Scope { bindings, inner: 0 }),
            Err(error) => {
                drop(bindings);
                Err(error)
            }
        }
    }

    /// Opens an inner scope, and returns how many names the scope around it has declared. The `close` that ends the inner scope
    /// takes that number.
    pub fn open(&mut self) -> usize
        ensures scope { self.new ≡ opened self.old }
        ensures around { result ≡ length self.old.inner }
    {
        let around = self.inner;
        self.inner = 0;
        around
    }

    /// Closes the innermost scope and removes its names. `around` is how many names the scope around it has declared.
    pub fn close(&mut self, around: usize)
        requires { around ≤ length self.old.outer }
        ensures { self.new ≡ closed around self.old }
    {
        while self.inner > 0 {
            self.bindings.pop();
            self.inner -= 1;
        }
        self.inner = around;
    }

    /// Declares a name in the innermost scope, and returns whether this scope had declared it already. `AllocError` if memory
    /// runs out; nothing is known about the scope then.
    pub fn declare(&mut self, name: &'a [u8], entity: Entity<'a>) -> Result<bool, AllocError>
        ensures scope { OnOk result (self.new ≡ declared name.now (entity_of entity.entry) self.old) }
        ensures again { IfOk result (λ b. b ≡ is_declared self.old.inner name.now) }
    {
        let first = self.bindings.len() - self.inner;
        let hidden = self.bindings.push(name, entity)?;
        self.inner += 1;
        Ok(is_from(hidden, first))
    }

    /// Removes the newest name of the innermost scope, if there is one.
    pub fn undeclare(&mut self)
        ensures { self.new ≡ record self.old { inner = drop 1 self.old.inner } }
    {
        if self.inner > 0 {
            self.bindings.pop();
            self.inner -= 1;
        }
    }

    /// Declares a name in file scope if it is new; an earlier declaration stays as it is. Returns whether the name was declared
    /// already. `AllocError` if memory runs out; nothing is known about the scope then.
    pub fn declare_in_file(
        &mut self,
        name: &'a [u8],
        entity: Entity<'a>,
    ) -> Result<bool, AllocError>
        requires { self.old.inner ≡ [] }
        ensures again { IfOk result (λ b. b ≡ is_declared self.old.outer name.now) }
        ensures scope { OnOk result (self.new ≡ file_level (with_declared name.now (entity_of entity.entry) (record { bindings = self.old.outer; defined = [] })).bindings) }
    {
        if self.bindings.push(name, entity)?.is_some() {
            self.bindings.pop();
            return Ok(true);
        }
        Ok(false)
    }

    /// What a name denotes, or `None` if it is not in scope.
    pub fn find(&self, name: &[u8]) -> Option<Entity<'a>>
        ensures { optional_entity result ≡ found (in_scope self.now) name.now }
    {
        match self.bindings.find(name) {
            Some(newest) => Some(newest.entity),
            None => None,
        }
    }
}
