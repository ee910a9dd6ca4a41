// The names in scope, each with the place of its declaration and what it refers to.

use cc_layout::Extent;
use cc_scope::{Bindings, Entity, READ_WORD, WRITE_WORD};
use cc_syntax_diagnostic::near_name;
use std::alloc::{AllocError, Global};

/// What a name refers to.
#[derive(Clone, Copy)]
pub enum Lead {
    /// The variable of the function with this number; parameters come first.
    Local(usize),
    /// These words of the objects at file scope.
    Words(Extent),
    /// The function with this number, in the order of first declarations.
    Function(usize),
    /// A builtin function.
    Builtin,
}

/// What a name denotes, the offset of the name in its first declaration (`None` for a builtin), and what it refers to.
#[derive(Clone, Copy)]
pub struct Standing<'a> {
    pub entity: Entity<'a>,
    pub at: Option<usize>,
    pub lead: Lead,
}

/// The names in scope. Those from number `inner` on belong to the innermost scope.
#[derive(Drop)]
pub struct Names<'a> {
    bindings: Bindings<'a>,
    standings: Vec<Standing<'a>>,
    words: Vec<&'a [u8]>,
    inner: usize,
}

impl<'a> Names<'a> {
    /// No names.
    pub fn new(alloc: Global) -> Names<'a> {
        Names {
            bindings: Bindings::new(alloc),
            standings: Vec::new(alloc),
            words: Vec::new(alloc),
            inner: 0,
        }
    }

    /// Adds the builtin functions.
    pub fn add_builtins(&mut self) -> Result<(), AllocError> {
        let (at, lead) = (None, Lead::Builtin);
        self.declare(
            READ_WORD,
            Standing {
                entity: Entity::ReadWord,
                at,
                lead,
            },
        )?;
        self.declare(
            WRITE_WORD,
            Standing {
                entity: Entity::WriteWord,
                at,
                lead,
            },
        )
    }

    /// Declares a name in the innermost scope.
    pub fn declare(&mut self, name: &'a [u8], standing: Standing<'a>) -> Result<(), AllocError> {
        self.standings.push(standing)?;
        self.words.push(name)?;
        self.bindings.push(name, standing.entity)?;
        Ok(())
    }

    /// What a name denotes.
    pub fn find(&self, name: &[u8]) -> Option<Standing<'a>> {
        let newest = self.bindings.find(name)?;
        self.standings.get(newest.number).copied()
    }

    /// What a name denotes, if the innermost scope declared it.
    pub fn find_inner(&self, name: &[u8]) -> Option<Standing<'a>> {
        let newest = self.bindings.find(name)?;
        if newest.number < self.inner {
            return None;
        }
        self.standings.get(newest.number).copied()
    }

    /// How many names are in scope.
    pub fn len(&self) -> usize {
        self.words.len()
    }

    /// The name in scope that is nearest to this one, if any is near.
    pub fn near(&self, name: &[u8]) -> Option<&'a [u8]> {
        near_name(self.words.as_slice(), name)
    }

    /// Opens an inner scope, and returns the number of the first name of the scope around it. Pass that number to the `close`
    /// that ends the inner scope.
    pub fn open(&mut self) -> usize {
        let around = self.inner;
        self.inner = self.standings.len();
        around
    }

    /// Closes the innermost scope and removes its names.
    pub fn close(&mut self, around: usize) {
        for _ in self.inner..self.standings.len() {
            self.standings.pop();
            self.words.pop();
            self.bindings.pop();
        }
        self.inner = around;
    }
}
