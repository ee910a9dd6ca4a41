// Lays out all blocks as a list, in a given order of their places.

ghost use Rattle.std.specs.Prelude.{◌≡◌, ◌<◌, ◌++◌, [], length, drop, Contains, All, OnOk, IfOk};
ghost use Rattle.cc_linear.specs.internal.Layout.{block_then, leads, laid};
ghost use Rattle.cc_linear.specs.internal.Places.{AreLabels, LeadsIn, AllLeadIn, end_in, labels_at, labels_of, listed, listed_first};

use crate::tables::end_of;
use crate::writing::{branch, end_item, item_of, put, way};
use cc_linear_language::LinearItem;
use cc_ltl::{Block, Operation};
use std::alloc::{AllocError, Global};

/// The label at which the chain from a label ends.
fn end_label(labels: &[u32], ends: &[usize], label: u32) -> u32
    requires labels { AreLabels labels.now }
    requires there { Contains labels.now label }
    requires long { length ends.now ≡ length labels.now }
    requires inside { All (λ e. e < length labels.now) ends.now }
    ensures { result ≡ end_in labels.now ends.now label }
{
    labels[end_of(labels, ends, label)]
}

/// Appends the items of a block. `following` is the label that comes next.
fn put_block(
    items: &mut Vec<LinearItem>,
    labels: &[u32],
    ends: &[usize],
    block: &Block,
    following: Option<u32>,
) -> Result<(), AllocError>
    requires labels { AreLabels labels.now }
    requires leads { LeadsIn labels.now block.now.operation }
    requires long { length ends.now ≡ length labels.now }
    requires inside { All (λ e. e < length labels.now) ends.now }
    ensures { OnOk result (items.new.items ≡ items.old.items ++ block_then (end_in labels.now ends.now) block.now block.now.operation (listed following) []) }
{
    let before = block.before.moves();
    let after = block.after.moves();
    match block.operation {
        Operation::Branch {
            from,
            if_nonzero,
            if_zero,
        } => {
            let nonzero = end_label(labels, ends, if_nonzero);
            let zero = end_label(labels, ends, if_zero);
            let (first, second) = branch(from, nonzero, zero, following);
            put(items, before, Some(first))?;
            put(items, &[], second)
        }
        Operation::Return => put(items, before, Some(LinearItem::Return)),
        Operation::Nop { next }
        | Operation::Const { next, .. }
        | Operation::Unary { next, .. }
        | Operation::Binary { next, .. }
        | Operation::Load { next, .. }
        | Operation::Store { next, .. }
        | Operation::Call { next, .. }
        | Operation::Read { next }
        | Operation::Write { next } => {
            let to = end_label(labels, ends, next);
            put(items, before, item_of(&block.operation))?;
            put(items, after, end_item(block, to, following))
        }
    }
}

/// The list that lays out the blocks at the places in `order`, in that order. It begins with a jump if the entry does not come first. Err:
/// memory ran out.
pub fn lay_out(
    alloc: Global,
    labels: &[u32],
    ends: &[usize],
    blocks: &[Block],
    entry: u32,
    order: &[usize],
) -> Result<Vec<LinearItem>, AllocError>
    requires labels { AreLabels labels.now }
    requires blocks { labels.now ≡ labels_of blocks.now }
    requires leads { AllLeadIn labels.now blocks.now }
    requires entry { Contains labels.now entry }
    requires long { length ends.now ≡ length labels.now }
    requires inside { All (λ e. e < length labels.now) ends.now }
    requires order { All (λ p. p < length labels.now) order.now }
    ensures { IfOk result (λ items. items.items ≡ leads (end_in labels.now ends.now entry) (labels_at labels.now order.now) (laid blocks.now (end_in labels.now ends.now) (labels_at labels.now order.now))) }
{
    // Each block has one label and one item. Usually there are fewer moves and jumps than blocks.
    let mut items = Vec::with_capacity(alloc, order.len().saturating_mul(3))?;
    let first = label_at(labels, order, 0);
    put(&mut items, &[], way(end_label(labels, ends, entry), first))?;
    for i in 0..order.len() {
        let place = order[i];
        put(
            &mut items,
            &[],
            Some(LinearItem::Label {
                label: labels[place],
            }),
        )?;
        let following = label_at(labels, order, i + 1);
        put_block(&mut items, labels, ends, &blocks[place], following)?;
    }
    Ok(items)
}

// The label at an index of the order; None past its end.
fn label_at(labels: &[u32], order: &[usize], i: usize) -> Option<u32>
    requires order { All (λ p. p < length labels.now) order.now }
    ensures { listed result ≡ listed_first (labels_at labels.now (drop i order.now)) }
{
    if i < order.len() {
        Some(labels[order[i]])
    } else {
        None
    }
}
