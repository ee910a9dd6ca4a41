// Sets of registers, as rows of bits: register r is bit r % 64 of word r / 64.

ghost use Rattle.std.specs.Prelude.{◌≡◌, ℕ, ◌==◌, ◌||◌, ◌&&◌, not, IfOk, IfErr};
ghost use Rattle.cc_bits.specs.Rows.{holds};
ghost use Rattle.cc_live.specs.internal.Facts.{Below, nothing, either};
ghost use Rattle.cc_live.specs.internal.Room.{room as room_of, height as height_of, bounded as room_bounded};
ghost use Rattle.cc_live.specs.internal.Laws.{laws};

use cc_bits::BitRow;
use cc_flow::Facts;
use std::alloc::{AllocError, Global};
use std::marker::Model;

/// A set of registers. Contracts see its words.
#[derive(Drop)]
pub struct RegisterSet {
    row: BitRow,
}

impl Model for RegisterSet {
    ghost use Rattle.std.specs.Prelude.{List, ℕ, ◌≤◌, length};
    ghost use Rattle.cc_live.specs.internal.Room.{most_words};

    ghost Value = { List ℕ };

    ghost view = { λ s. s.row };

    ghost invariant = { λ s. length s.row ≤ most_words };
}

impl RegisterSet {
    /// The words of the set: register r is bit r % 64 of word r / 64. No register past their end is in the set.
    pub fn words(&self) -> &[u64]
        ensures { result.now ≡ self.now }
    {
        self.row.words()
    }

    /// Whether a register is in the set.
    pub fn contains(&self, register: u32) -> bool
        ensures { result ≡ holds self.now register }
    {
        self.row.contains(register as usize)
    }

    /// A copy of the set.
    pub(crate) fn copy(&self, alloc: Global) -> Result<RegisterSet, AllocError>
        ensures { IfOk result (λ made. made ≡ self.now) }
    {
        Ok(RegisterSet {
            row: self.row.copy(alloc)?,
        })
    }

    /// Adds a register. If memory runs out, the set stays as it was.
    pub(crate) fn insert(&mut self, register: u32) -> Result<(), AllocError>
        ensures added { IfOk result (λ _. (r : ℕ) → holds self.new r ≡ (register == r || holds self.old r)) }
        ensures leaves { IfErr result (λ _. self.new ≡ self.old) }
    {
        self.row.insert(register as usize)?;
        Ok(())
    }

    /// Removes a register.
    pub(crate) fn remove(&mut self, register: u32)
        ensures { (r : ℕ) → holds self.new r ≡ (holds self.old r && not (register == r)) }
    {
        self.row.remove(register as usize);
    }
}

/// A set of registers for each node, in the order of the nodes. Contracts see the rows.
pub struct Liveness {
    sets: Vec<RegisterSet>,
}

// Written by hand, so that crates above use this proof and need not show again how each part is dropped.
impl Drop for Liveness {
    fn drop(self) {
        let Liveness { sets } = self;
    }
}

impl Model for Liveness {
    ghost use Rattle.std.specs.Prelude.{List, ℕ};

    ghost Value = { List (List ℕ) };

    ghost view = { λ s. s.sets.items };
}

impl Liveness {
    /// Makes the live sets of a function from these sets, one for each node in order.
    pub(crate) fn new(sets: Vec<RegisterSet>) -> Liveness
        ensures { result ≡ sets.items }
    {
        Liveness { sets }
    }

    /// The sets, in the order of the nodes.
    pub fn as_slice(&self) -> &[RegisterSet]
        ensures { result.now ≡ self.now }
    {
        self.sets.as_slice()
    }
}

impl Facts for RegisterSet {
    ghost below = { Below };

    ghost bottom = { nothing };

    ghost lub = { either };

    ghost room = { room_of };

    ghost height = { height_of };

    fn least(alloc: Global) -> Result<RegisterSet, AllocError> {
        Ok(RegisterSet {
            row: BitRow::new(alloc),
        })
    }

    fn join(&mut self, other: &RegisterSet) -> Result<bool, AllocError> {
        let rose = self.row.join(&other.row)?;
        Ok(rose)
    }

    ghost laws = { laws };

    ghost bounded = { room_bounded };
}
