// The numbers of names: a name gets a number when it first appears, and keeps it.
//
// The search is by the order of the names' bytes, so no choice of names makes it long. What names denote is kept in tables
// indexed by their numbers, which the writer of a text cannot choose.

ghost use Rattle.std.specs.Prelude.{◌≡◌, [], IfOk, OnErr};
ghost use Rattle.cc_scope.specs.Numberings.{number_of_name, IsNumbered};

use std::alloc::{AllocError, Global};
use std::collections::BTreeMap;
use std::marker::Model;

/// The names so far with their numbers, which are 0, 1, 2 and so on in the order of first appearance.
#[derive(Drop)]
pub struct Numbering<'a> {
    numbers: BTreeMap<&'a [u8], usize>,
}

impl<'a> Model for Numbering<'a> {
    ghost use Rattle.std.specs.Prelude.{List, ℕ};
    ghost use Rattle.cc_scope.specs.Numberings.{numbered_in, AreNumbers};

    ghost Value = { List (List ℕ × ℕ) };

    ghost view = { λ n. numbered_in n.numbers.entries };

    ghost invariant = { λ n. AreNumbers (numbered_in n.numbers.entries) };
}

impl<'a> Numbering<'a> {
    /// Returns a numbering without names.
    pub fn new(alloc: Global) -> Numbering<'a>
        ensures { result ≡ [] }
    {
        Numbering {
            numbers: BTreeMap::new(alloc),
        }
    }

    /// The number of a name, if it has one.
    pub fn find(&self, name: &[u8]) -> Option<usize>
        ensures { result ≡ number_of_name self.now name.now }
    {
        self.numbers.get(name).copied()
    }

    /// The number of a name; a new name gets the next number. An `Err` leaves the numbers unchanged.
    pub fn add(&mut self, name: &'a [u8]) -> Result<usize, AllocError>
        ensures ok { IfOk result (λ n. IsNumbered self.old self.new name.now n) }
        ensures err { OnErr result (self.new ≡ self.old) }
    {
        if let Some(number) = self.numbers.get(name).copied() {
            return Ok(number);
        }
        let next = self.numbers.len();
        self.numbers.insert(name, next)?;
        Ok(next)
    }
}
