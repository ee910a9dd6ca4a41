// The nodes that wait for a visit.

ghost use Rattle.std.specs.Prelude.{◌≡◌, ◌<◌, ℕ, Bool, true, false, replicate, slice_set, Some, IfOk, IfSome, IfNone, length};
ghost use Rattle.cc_flow.specs.internal.Waiting.{waits};

use std::alloc::{AllocError, Global};
use std::collections::BinaryHeap;
use std::marker::Model;

/// The nodes that wait, each once. The one with the largest number is taken first. Contracts see a flag for each node.
#[derive(Drop)]
pub struct Worklist {
    waits: Vec<bool>,
    queue: BinaryHeap<usize>,
}

impl Model for Worklist {
    ghost use Rattle.std.specs.Prelude.{List, Bool};
    ghost use Rattle.std.specs.BinaryHeap.{heap_items};
    ghost use Rattle.cc_flow.specs.internal.Waiting.{IsQueued};

    ghost Value = { List Bool };

    ghost view = { λ w. w.waits.items };

    ghost invariant = { λ w. IsQueued (heap_items w.queue) w.waits.items };
}

impl Worklist {
    /// Returns a list for `nodes` nodes, none of them waiting.
    fn of_none(alloc: Global, nodes: usize) -> Result<Worklist, AllocError>
        ensures { IfOk result (λ waiting. waiting ≡ replicate nodes false) }
    {
        Ok(Worklist {
            waits: vec![in alloc; false; nodes]?,
            queue: BinaryHeap::with_capacity(alloc, nodes)?,
        })
    }

    /// Returns a list for `nodes` nodes, all of them waiting.
    pub fn of_all(alloc: Global, nodes: usize) -> Result<Worklist, AllocError>
        ensures long { IfOk result (λ waiting. length waiting ≡ nodes) }
        ensures waits { IfOk result (λ waiting. (node : ℕ) → node < nodes → waits waiting node ≡ true) }
    {
        let mut waiting = Worklist::of_none(alloc, nodes)?;
        for node in (0..nodes).rev() {
            waiting.add(node)?;
        }
        Ok(waiting)
    }

    /// Takes the waiting node with the largest number, which then no longer waits.
    pub fn take(&mut self) -> Option<usize>
        ensures taken { IfSome result (λ node. (waits self.old node ≡ true) × (self.new ≡ slice_set self.old node false)) }
        ensures all_done { IfNone result ((node : ℕ) → waits self.old node ≡ false) }
    {
        let node = self.queue.pop()?;
        self.waits[node] = false;
        Some(node)
    }

    /// Makes a node wait.
    pub fn add(&mut self, node: usize) -> Result<(), AllocError>
        requires { node < length self.old }
        ensures { IfOk result (λ _. self.new ≡ slice_set self.old node true) }
    {
        if !self.waits[node] {
            self.queue.push(node)?;
            self.waits[node] = true;
        }
        Ok(())
    }
}
