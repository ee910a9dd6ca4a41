// The names in scope, with the newest binding of each.
//
// Each name has a number, and `newest` has the newest binding at each name's number. A binding records which binding of its name
// was the newest before it. So a look-up is one search for the number and one step, and removing the newest binding needs no
// search.

ghost use Rattle.std.specs.Prelude.{◌≡◌, [], ◌∷◌, ◌<◌, ◌^◌, length, drop, IfSome, IfOk, OnOk, OnErr, slice_index_or};
ghost use Rattle.cc_types.specs.Scope.{found};
ghost use Rattle.cc_scope.specs.Entities.{entity_of};
ghost use Rattle.cc_scope.specs.declared.bindings.Binding.{Binding};
ghost use Rattle.cc_scope.specs.Bindings.{number_in, number_of, entity_found};

use super::entity::Entity;
use super::numbering::Numbering;
use indexmap::IndexMap;
use std::alloc::{AllocError, Global};
use std::marker::Model;

/// The newest binding of a name: the binding's number, and what the name denotes.
#[derive(Clone, Copy)]
pub struct Newest<'a> {
    pub number: usize,
    pub entity: Entity<'a>,
}

#[derive(Drop)]
pub struct Binding<'a> {
    name: &'a [u8],
    number: usize,
    entity: Entity<'a>,
    hidden: Option<usize>,
}

/// The names in scope. The oldest has the number 0.
pub struct Bindings<'a> {
    list: Vec<Binding<'a>>,
    names: Numbering<'a>,
    newest: IndexMap<usize, usize>,
}

// Written by hand, so that the crates above use this proof and need not show again how each part is dropped.
impl Drop for Bindings<'_> {
    fn drop(self) {
        let Bindings {
            list,
            names,
            newest,
        } = self;
    }
}

impl<'a> Model for Bindings<'a> {
    ghost use Rattle.std.specs.Prelude.{List, nat_eq};
    ghost use Rattle.indexmap.specs.IndexMap.{get};
    ghost use Rattle.cc_types.specs.Scope as scope;
    ghost use Rattle.cc_scope.specs.Bindings.{bindings_of, IsTable};

    ghost Value = { List scope.Binding };

    ghost view = { λ b. bindings_of b.list.items };

    ghost invariant = { λ b. IsTable b.list.items b.names (get nat_eq b.newest) };
}

// The binding with this number, if there is one.
fn newest_at<'a>(list: &[Binding<'a>], number: Option<usize>) -> Option<Newest<'a>>
    requires { IfSome number (λ n. n < length list.now) }
    ensures number { number_of result ≡ number }
    ensures entity { IfSome result (λ n. (d : Binding) → n.entity ≡ (slice_index_or list.now n.number d).entity) }
{
    match number {
        Some(number) => {
            Some(Newest {
                number,
                entity: list[number].entity,
            })
        }
        None => None,
    }
}

impl<'a> Bindings<'a> {
    pub fn new(alloc: Global) -> Bindings<'a>
        ensures { result ≡ [] }
    {
        Bindings {
            list: Vec::new(alloc),
            names: Numbering::new(alloc),
            newest: IndexMap::new(alloc),
        }
    }

    pub fn len(&self) -> usize
        ensures { result ≡ length self.now }
    {
        self.list.len()
    }

    /// Returns the newest binding of a name, or `None` if the name is not in scope.
    pub fn find(&self, name: &[u8]) -> Option<Newest<'a>>
        ensures number { number_of result ≡ number_in self.now name.now }
        ensures entity { entity_found result ≡ found self.now name.now }
    {
        let number = self.names.find(name)?;
        let place = self.newest.get(&number).copied();
        newest_at(self.list.as_slice(), place)
    }

    /// Adds a name, which gets the next number, and returns the binding of the same name that it hides, if there is one. An `Err`
    /// leaves the bindings unchanged.
    pub fn push(
        &mut self,
        name: &'a [u8],
        entity: Entity<'a>,
    ) -> Result<Option<Newest<'a>>, AllocError>
        ensures ok { OnOk result (self.new ≡ record { name = name.now; entity = entity_of entity.entry } ∷ self.old) }
        ensures err { OnErr result (self.new ≡ self.old) }
        ensures fits { OnOk result (length self.new < 2 ^ 64) }
        ensures hides { IfOk result (λ hidden. number_of hidden ≡ number_in self.old name.now) }
        ensures hidden { IfOk result (λ hidden. entity_found hidden ≡ found self.old name.now) }
    {
        self.list.reserve(1)?;
        let place = self.list.len();
        let number = self.names.add(name)?;
        match self.newest.insert(number, place) {
            Ok(hidden) => {
                self.list.push_reserved(Binding {
                    name,
                    number,
                    entity,
                    hidden,
                });
                Ok(newest_at(self.list.as_slice(), hidden))
            }
            Err(_) => Err(AllocError),
        }
    }

    /// Removes the newest name.
    pub fn pop(&mut self)
        ensures { self.new ≡ drop 1 self.old }
    {
        let Some(
            Binding {
                name: _,
                number,
                entity: _,
                hidden,
            },
        ) = self.list.pop()
        else {
            return;
        };
        match hidden {
            // The number is in the table already, so the insertion needs no memory.
            Some(place) => {
                let _ = self.newest.insert(number, place);
            }
            None => {
                self.newest.swap_remove(&number);
            }
        }
    }
}
