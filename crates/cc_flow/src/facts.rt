// What may be known at a node, and what a node computes from the facts after it.

ghost use Rattle.std.specs.Prelude.{◌≡◌, ℕ, ◌<◌, ◌≤◌, IfOk, IfErr, IsTrue, IsFalse};
ghost use Rattle.cc_flow.specs.Lattice.{Equivalent, IsLattice};

use std::alloc::{AllocError, Global};

/// What may be known at a node, ordered by how much it says.
///
/// `below` is the order, `bottom` its least value, `lub` the join. `room` says how often a value can still rise; from the least
/// value, no value rises more than `height` times.
pub trait Facts: Drop {
    ghost below: { Self → Self → Type 0 };

    ghost bottom: { Self };

    ghost lub: { Self → Self → Self };

    ghost room: { Self → ℕ };

    ghost height: { ℕ };

    /// Returns the least value.
    fn least(alloc: Global) -> Result<Self, AllocError>
        ensures { IfOk result (λ facts. facts ≡ bottom) };

    /// Joins other facts to these, and returns whether these rose. If memory runs out, they remain as they were.
    fn join(&mut self, other: &Self) -> Result<bool, AllocError>
        ensures joined { IfOk result (λ _. Equivalent below self.new (lub self.old other.now)) }
        ensures unchanged { IfOk result (λ rose. IsFalse rose → self.new ≡ self.old) }
        ensures rises { IfOk result (λ rose. IsTrue rose → room self.new < room self.old) }
        ensures leaves { IfErr result (λ _. self.new ≡ self.old) };

    // The order has a least value and least upper bounds.
    ghost laws: { IsLattice below bottom lub };

    // From the least value, no value rises more than `height` times.
    ghost bounded: { room bottom ≤ height };
}

/// What each node computes from the facts after it. This is monotone: more facts never lead to fewer.
pub trait Transfer<F: Facts> {
    ghost carries: { Self → ℕ → F → F };

    /// Returns what a node computes from these facts.
    fn apply(&self, alloc: Global, node: usize, facts: &F) -> Result<F, AllocError>
        ensures { IfOk result (λ carried. Equivalent F.below carried (carries self.now node facts.now)) };

    ghost monotone: { (t : Self) (node : ℕ) (x y : F) → F.below x y → F.below (carries t node x) (carries t node y) };
}
