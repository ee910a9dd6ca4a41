// The order in which blocks are laid out.

ghost use Rattle.std.specs.Prelude.{◌≡◌, ◌<◌, length, IfOk, All};
ghost use Rattle.std.specs.List.{AllPairs, Contains};
ghost use Rattle.cc_linear.specs.internal.Reached.{InGraph, IsClosed};

use super::arrange::arrange;
use super::chains::in_chains;
use super::reached::reached;
use super::ways::Ways;
use std::alloc::{AllocError, Global};

/// The entry and all blocks to which it leads, each once. Err: memory ran out.
pub fn order(alloc: Global, graph: &[Ways], entry: usize) -> Result<Vec<usize>, AllocError>
    requires graph { InGraph graph.now }
    requires entry { entry < length graph.now }
    ensures distinct { IfOk result (λ order. AllPairs (λ a b. a ≡ b → ⊥) order.items) }
    ensures inside { IfOk result (λ order. All (λ l. l < length graph.now) order.items) }
    ensures entry { IfOk result (λ order. Contains order.items entry) }
    ensures closed { IfOk result (λ order. IsClosed graph.now order.items) }
{
    let found = reached(alloc, graph, entry)?;
    let labels = found.as_slice();
    let wish = in_chains(alloc, graph, labels)?;
    let order = arrange(alloc, graph.len(), labels, wish.as_slice())?;
    Ok(order)
}
