// Blocks by their places in the list, which is in the order of labels.

ghost use Rattle.std.specs.Prelude.{◌≡◌, ◌<◌, length, IfOk, Contains};
ghost use Rattle.cc_linear.specs.internal.Layout.{is_empty};
ghost use Rattle.cc_linear.specs.internal.Places.{labels_of, place_in, AreLabels};

use cc_ltl::{Block, Operation};
use std::alloc::{AllocError, Global};

/// The labels of blocks. Err: memory ran out.
pub fn labels(alloc: Global, blocks: &[Block]) -> Result<Vec<u32>, AllocError>
    ensures { IfOk result (λ labels. labels.items ≡ labels_of blocks.now) }
{
    let mut labels = Vec::with_capacity(alloc, blocks.len())?;
    for block in blocks {
        labels.push(block.label)?;
    }
    Ok(labels)
}

/// The place of a label among labels in ascending order.
pub fn place(labels: &[u32], label: u32) -> usize
    requires there { Contains labels.now label }
    requires labels { AreLabels labels.now }
    ensures place { result ≡ place_in labels.now label }
    ensures inside { result < length labels.now }
{
    // Usually a label is the number of its place.
    let own = label as usize;
    if own < labels.len() && labels[own] == label {
        return own;
    }
    match labels.binary_search(&label) {
        Ok(place) => place,
        Err(_) => unreachable!(),
    }
}

/// Whether a block does nothing.
pub fn does_nothing(block: &Block) -> bool
    ensures { result ≡ is_empty block.now }
{
    matches!(block.operation, Operation::Nop { .. })
        && block.before.moves().is_empty()
        && block.after.moves().is_empty()
}
