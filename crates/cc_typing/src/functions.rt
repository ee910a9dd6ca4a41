// Which functions a unit defines, and which of them are defined before a given place.
//
// A function's name gets a number when it first appears, and at that number a table contains what is known about the
// function.

ghost use Rattle.std.specs.Prelude.{◌≡◌, [], ◌∷◌, OnOk};
ghost use Rattle.cc_types.specs.Scope.{has_name};
ghost use Rattle.cc_typing.specs.internal.Functions.{is_defined, stands_before};

use cc_scope::Numbering;
use indexmap::IndexMap;
use std::alloc::{AllocError, Global};
use std::marker::Model;

// What is known about a function: whether the unit defines it, and whether it has been defined already.
#[derive(Clone, Copy)]
pub struct State {
    defined: bool,
    before: bool,
}

fn is_defined(state: Option<State>) -> bool
    ensures { result ≡ is_defined state }
{
    match state {
        Some(state) => state.defined,
        None => false,
    }
}

fn stands_before(state: Option<State>) -> bool
    ensures { result ≡ stands_before state }
{
    match state {
        Some(state) => state.before,
        None => false,
    }
}

/// The known functions: each name's number, and each number's state.
#[derive(Drop)]
pub struct Functions<'a> {
    names: Numbering<'a>,
    states: IndexMap<usize, State>,
    // Only the names, newest last.
    defined: Vec<&'a [u8]>,
    before: Vec<&'a [u8]>,
}

impl<'a> Model for Functions<'a> {
    ghost use Rattle.std.specs.Prelude.{nat_eq};
    ghost use Rattle.indexmap.specs.IndexMap.{get};
    ghost use Rattle.cc_typing.specs.internal.Functions as functions;
    ghost use Rattle.cc_typing.specs.internal.Functions.{AreStates, newest_first};

    ghost Value = { functions.Functions };

    ghost view = { λ f. record { defined = newest_first f.defined.items; before = newest_first f.before.items } };

    ghost invariant = { λ f. AreStates f.names (get nat_eq f.states) (newest_first f.defined.items) (newest_first f.before.items) };
}

impl<'a> Functions<'a> {
    /// Returns an empty table: nothing is known about any function.
    pub fn new(alloc: Global) -> Functions<'a>
        ensures { result ≡ record { defined = []; before = [] } }
    {
        Functions {
            names: Numbering::new(alloc),
            states: IndexMap::new(alloc),
            defined: Vec::new(alloc),
            before: Vec::new(alloc),
        }
    }

    fn state(&self, name: &[u8]) -> Option<State>
        ensures defined { is_defined result ≡ has_name self.now.defined name.now }
        ensures before { stands_before result ≡ has_name self.now.before name.now }
    {
        let number = self.names.find(name)?;
        self.states.get(&number).copied()
    }

    /// Whether the unit defines a function of this name.
    pub fn is_defined(&self, name: &[u8]) -> bool
        ensures { result ≡ has_name self.now.defined name.now }
    {
        is_defined(self.state(name))
    }

    /// Whether a function of this name has been defined already.
    pub fn stands_before(&self, name: &[u8]) -> bool
        ensures { result ≡ has_name self.now.before name.now }
    {
        stands_before(self.state(name))
    }

    /// Records that the unit defines a function of this name.
    pub fn define(&mut self, name: &'a [u8]) -> Result<(), AllocError>
        ensures { OnOk result (self.new ≡ record self.old { defined = name.now ∷ self.old.defined }) }
    {
        self.defined.reserve(1)?;
        let number = self.names.add(name)?;
        let state = State {
            defined: true,
            before: stands_before(self.states.get(&number).copied()),
        };
        match self.states.insert(number, state) {
            Ok(_) => {
                self.defined.push_reserved(name);
                Ok(())
            }
            Err(_) => Err(AllocError),
        }
    }

    /// Records that a function of this name has now been defined.
    pub fn mark_before(&mut self, name: &'a [u8]) -> Result<(), AllocError>
        ensures { OnOk result (self.new ≡ record self.old { before = name.now ∷ self.old.before }) }
    {
        self.before.reserve(1)?;
        let number = self.names.add(name)?;
        let state = State {
            defined: is_defined(self.states.get(&number).copied()),
            before: true,
        };
        match self.states.insert(number, state) {
            Ok(_) => {
                self.before.push_reserved(name);
                Ok(())
            }
            Err(_) => Err(AllocError),
        }
    }
}
