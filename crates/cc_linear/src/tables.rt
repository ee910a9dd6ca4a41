// Tables by the places of blocks: where each block leads, and the graph without empty blocks.

ghost use Rattle.std.specs.Prelude.{◌≡◌, length, Contains, IfOk};
ghost use Rattle.cc_linear.specs.internal.Places.{AreLabels, LeadsIn, AllLeadIn, next_place as leads_to, next_places as all_lead_to, end_place, ways_of, graph_of};

use crate::places::{does_nothing, place};
use crate::tracing::ways::Ways;
use cc_ltl::{Block, Operation};
use std::alloc::{AllocError, Global};

// The place to which a block leads: its successor's if the block is empty, else its own.
fn next_place(labels: &[u32], own: usize, block: &Block) -> usize
    requires labels { AreLabels labels.now }
    requires leads { LeadsIn labels.now block.now.operation }
    ensures { result ≡ leads_to labels.now own block.now }
{
    match block.operation {
        Operation::Nop { next } => {
            if does_nothing(block) {
                place(labels, next)
            } else {
                own
            }
        }
        _ => own,
    }
}

/// The places to which the blocks lead. Err: memory ran out.
pub fn next_places(
    alloc: Global,
    labels: &[u32],
    blocks: &[Block],
) -> Result<Vec<usize>, AllocError>
    requires labels { AreLabels labels.now }
    requires leads { AllLeadIn labels.now blocks.now }
    ensures { IfOk result (λ places. places.items ≡ all_lead_to labels.now 0 blocks.now) }
{
    let mut places = Vec::with_capacity(alloc, blocks.len())?;
    let mut own = 0;
    for block in blocks {
        places.push(next_place(labels, own, block))?;
        own += 1;
    }
    Ok(places)
}

/// The place at which the chain from a label ends.
pub fn end_of(labels: &[u32], ends: &[usize], label: u32) -> usize
    requires labels { AreLabels labels.now }
    requires there { Contains labels.now label }
    requires long { length ends.now ≡ length labels.now }
    ensures { result ≡ end_place labels.now ends.now label }
{
    ends[place(labels, label)]
}

// The places to which an operation leads, with empty blocks passed over.
fn ways(labels: &[u32], ends: &[usize], operation: &Operation) -> Ways
    requires labels { AreLabels labels.now }
    requires leads { LeadsIn labels.now operation.now }
    requires long { length ends.now ≡ length labels.now }
    ensures { result ≡ ways_of labels.now ends.now operation.now }
{
    match *operation {
        Operation::Nop { next }
        | Operation::Const { next, .. }
        | Operation::Unary { next, .. }
        | Operation::Binary { next, .. }
        | Operation::Load { next, .. }
        | Operation::Store { next, .. }
        | Operation::Call { next, .. }
        | Operation::Read { next }
        | Operation::Write { next } => Ways::One(end_of(labels, ends, next)),
        Operation::Branch {
            if_nonzero,
            if_zero,
            ..
        } => Ways::Two(
            end_of(labels, ends, if_nonzero),
            end_of(labels, ends, if_zero),
        ),
        Operation::Return => Ways::Leaves,
    }
}

/// The graph of blocks. Err: memory ran out.
pub fn graph(
    alloc: Global,
    labels: &[u32],
    ends: &[usize],
    blocks: &[Block],
) -> Result<Vec<Ways>, AllocError>
    requires labels { AreLabels labels.now }
    requires leads { AllLeadIn labels.now blocks.now }
    requires long { length ends.now ≡ length labels.now }
    ensures { IfOk result (λ graph. graph.items ≡ graph_of labels.now ends.now blocks.now) }
{
    let mut graph = Vec::with_capacity(alloc, blocks.len())?;
    for block in blocks {
        graph.push(ways(labels, ends, &block.operation))?;
    }
    Ok(graph)
}
