// Lists of names, with the first place of each name.
//
// A name gets a number, found by the order of the names' bytes, and at that number a table contains the name's first place.
// So no choice of names makes a search long or makes two names collide.

ghost use Rattle.std.specs.Prelude.{◌≡◌, [], ◌∷◌, ◌++◌, length, OnOk, OnErr};
ghost use Rattle.cc_resolve.specs.Numberings.{first_of};

use cc_scope::Numbering;
use indexmap::IndexMap;
use std::alloc::{AllocError, Global};
use std::marker::Model;

/// Names in order, which may repeat. The first has place 0.
#[derive(Drop)]
pub struct Places<'a> {
    list: Vec<&'a [u8]>,
    names: Numbering<'a>,
    places: IndexMap<usize, usize>,
}

impl<'a> Model for Places<'a> {
    ghost use Rattle.std.specs.Prelude.{List, ℕ, nat_eq};
    ghost use Rattle.indexmap.specs.IndexMap.{get};
    ghost use Rattle.cc_scope.specs.Entities.{names_in};
    ghost use Rattle.cc_resolve.specs.Numberings.{ArePlaces};

    ghost Value = { List (List ℕ) };

    ghost view = { λ n. names_in n.list.items };

    ghost invariant = { λ n. ArePlaces n.list.items n.names (get nat_eq n.places) };
}

impl<'a> Places<'a> {
    pub fn new(alloc: Global) -> Places<'a>
        ensures { result ≡ [] }
    {
        Places {
            list: Vec::new(alloc),
            names: Numbering::new(alloc),
            places: IndexMap::new(alloc),
        }
    }

    pub fn len(&self) -> usize
        ensures { result ≡ length self.now }
    {
        self.list.len()
    }

    /// The first place of a name, or `None` if the name is not in the list.
    pub fn find(&self, name: &[u8]) -> Option<usize>
        ensures { result ≡ first_of self.now name.now }
    {
        let number = self.names.find(name)?;
        self.places.get(&number).copied()
    }

    /// Adds a name. An `Err` leaves the list unchanged.
    pub fn push(&mut self, name: &'a [u8]) -> Result<(), AllocError>
        ensures ok { OnOk result (self.new ≡ self.old ++ name.now ∷ []) }
        ensures err { OnErr result (self.new ≡ self.old) }
    {
        self.list.reserve(1)?;
        let place = self.list.len();
        let number = self.names.add(name)?;
        let known = self.places.get(&number).copied();
        if known.is_some() {
            self.list.push_reserved(name);
            return Ok(());
        }
        match self.places.insert(number, place) {
            Ok(_) => {
                self.list.push_reserved(name);
                Ok(())
            }
            Err(_) => Err(AllocError),
        }
    }
}
