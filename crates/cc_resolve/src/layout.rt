// What the names of file scope refer to: the objects' words, and the functions' numbers.

ghost use Rattle.std.specs.Prelude.{◌≡◌, [], ◌∷◌, ◌++◌, length, OnOk};
ghost use Rattle.cc_layout.specs.Layout.{callee, extent_of, names_before, object_number};

use super::places::Places;
use cc_layout::{Callee, Extent};
use cc_scope::{READ_WORD, WRITE_WORD};
use cc_words::Width;
use std::alloc::{AllocError, Global};
use std::marker::Model;

const NOWHERE: Extent = Extent {
    offset: 0,
    length: 0,
    width: Width::Word,
};

/// The objects of a unit, and its functions in the order of their definitions.
pub struct Layout<'a> {
    objects: Places<'a>,
    extents: Vec<Extent>,
    functions: Places<'a>,
}

// Written by hand, so that the crates above use this proof and need not show again how each part is dropped.
impl Drop for Layout<'_> {
    fn drop(self) {
        let Layout {
            objects,
            extents,
            functions,
        } = self;
    }
}

impl<'a> Model for Layout<'a> {
    ghost use Rattle.std.specs.Prelude.{◌≡◌, length};
    ghost use Rattle.cc_layout.specs.Layout as layout;
    ghost use Rattle.cc_resolve.specs.Numberings.{laid_objects};

    ghost Value = { layout.Layout };

    ghost view = { λ p. record { objects = laid_objects p.objects p.extents.items; functions = p.functions } };

    ghost invariant = { λ p. length p.objects ≡ length p.extents.items };
}

impl<'a> Layout<'a> {
    /// Returns the layout of a unit that has no objects and no functions.
    pub(crate) fn new(alloc: Global) -> Layout<'a>
        ensures { result ≡ record { objects = []; functions = [] } }
    {
        Layout {
            objects: Places::new(alloc),
            extents: Vec::new(alloc),
            functions: Places::new(alloc),
        }
    }

    /// Adds an object after the others. If two objects have the same name, the name refers to the first.
    pub(crate) fn add_object(&mut self, name: &'a [u8], extent: Extent) -> Result<(), AllocError>
        ensures { OnOk result (self.new ≡ record self.old { objects = self.old.objects ++ record { name = name.now; extent = extent } ∷ [] }) }
    {
        self.extents.push(extent)?;
        if self.objects.push(name).is_err() {
            self.extents.pop();
            return Err(AllocError);
        }
        Ok(())
    }

    /// Gives a function the next number.
    pub(crate) fn add_function(&mut self, name: &'a [u8]) -> Result<(), AllocError>
        ensures { OnOk result (self.new ≡ record self.old { functions = self.old.functions ++ name.now ∷ [] }) }
    {
        self.functions.push(name)
    }

    /// Where the words of an object are. If no object has the name, the extent has no words, at offset 0.
    pub(crate) fn extent(&self, name: &[u8]) -> Extent
        ensures { result ≡ extent_of self.now.objects name.now }
    {
        match self.objects.find(name) {
            Some(number) => self.extents[number],
            None => NOWHERE,
        }
    }

    /// The number of the named object, or `None` if no object has the name.
    pub(crate) fn object_number(&self, name: &[u8]) -> Option<usize>
        ensures { result ≡ object_number self.now.objects name.now }
    {
        self.objects.find(name)
    }

    /// The number of a function. If no function has the name, the result is how many functions there are.
    pub fn function(&self, name: &[u8]) -> usize
        ensures { result ≡ names_before self.now.functions name.now }
    {
        match self.functions.find(name) {
            Some(number) => number,
            None => self.functions.len(),
        }
    }

    /// What a called name refers to.
    pub(crate) fn callee(&self, name: &[u8]) -> Callee
        ensures { result ≡ callee self.now name.now }
    {
        if WRITE_WORD == name {
            Callee::WriteWord
        } else if READ_WORD == name {
            Callee::ReadWord
        } else {
            Callee::Defined(self.function(name))
        }
    }
}
