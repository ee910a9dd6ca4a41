// What a node reads, what it writes, where it leads, and an estimate of how often it is executed.
//
// Nodes are known by their places in the list of a function's nodes, from 0 on.

use crate::live::Live;
use cc_rtl_language::{Node, Rtl};
use cc_words::Binary;
use std::alloc::{AllocError, Global};

/// The places that a node leads to: two for a branch, none for a return.
pub type Next = [Option<usize>; 2];

/// A function as the allocator sees it before there are webs.
#[derive(Clone, Copy)]
pub struct Shape<'a> {
    pub rtl: &'a Rtl,
    pub live: Live<'a>,
    pub next: &'a [Next],
    pub weights: &'a [u32],
}

impl Shape<'_> {
    /// The places that a node leads to.
    pub fn next_of(&self, node: usize) -> Next {
        self.next.get(node).copied().unwrap_or([None, None])
    }

    /// The place that a node leads to, unless it is a branch.
    pub fn behind(&self, node: usize) -> Option<usize> {
        match self.next_of(node) {
            [first, None] => first,
            [_, Some(_)] => None,
        }
    }

    /// An estimate of how often a node is executed.
    pub fn weight(&self, node: usize) -> u32 {
        self.weights.get(node).copied().unwrap_or(1)
    }

    /// For a call, the register that it sets, if any, and the place after it; None for another node.
    pub fn call(&self, node: usize) -> Option<(Option<u32>, usize)> {
        let behind = self.behind(node)?;
        match self.rtl.at(node)? {
            Node::Call { to, .. } => Some((*to, behind)),
            _ => None,
        }
    }
}

/// The places to which each node leads. `Err` if memory runs out.
pub fn next_places(alloc: Global, rtl: &Rtl) -> Result<Vec<Next>, AllocError> {
    let graph = rtl.graph(alloc)?;
    let mut all = Vec::with_capacity(alloc, graph.len())?;
    for at in 0..graph.len() {
        all.push(match graph.successors(at) {
            [] => [None, None],
            [next] => [Some(*next), None],
            [nonzero, zero, ..] => [Some(*nonzero), Some(*zero)],
        })?;
    }
    Ok(all)
}

/// For each node, the only place that leads to it; None if several places do, or none does. `Err` if memory runs out.
pub fn sole_places(alloc: Global, next: &[Next]) -> Result<Vec<Option<usize>>, AllocError> {
    let mut sole = vec![in alloc; None; next.len()]?;
    let mut is_led_to = vec![in alloc; false; next.len()]?;
    for (at, places) in next.iter().enumerate() {
        for place in *places {
            if let Some(place) = place {
                lead_to(sole.as_mut_slice(), is_led_to.as_mut_slice(), at, place);
            }
        }
    }
    Ok(sole)
}

fn lead_to(sole: &mut [Option<usize>], is_led_to: &mut [bool], at: usize, place: usize) {
    if let Some(before) = sole.get_mut(place)
        && let Some(is_led_to) = is_led_to.get_mut(place)
    {
        *before = if *is_led_to { None } else { Some(at) };
        *is_led_to = true;
    }
}

/// The pseudo-register that a node writes.
pub fn result(node: &Node) -> Option<u32> {
    match node {
        Node::Const { to, .. }
        | Node::Move { to, .. }
        | Node::Unary { to, .. }
        | Node::Binary { to, .. }
        | Node::Load { to, .. }
        | Node::Read { to, .. } => Some(*to),
        Node::Call { to, .. } => *to,
        Node::Nop { .. }
        | Node::Store { .. }
        | Node::Write { .. }
        | Node::Branch { .. }
        | Node::Return { .. } => None,
    }
}

/// The pseudo-registers that a node other than a call reads, in order: at most two.
pub fn operands(node: &Node) -> [Option<u32>; 2] {
    match node {
        Node::Move { from: one, .. }
        | Node::Unary { from: one, .. }
        | Node::Load { index: one, .. }
        | Node::Write { from: one, .. }
        | Node::Branch { from: one, .. }
        | Node::Return { from: one } => [Some(*one), None],
        Node::Binary {
            left: one,
            right: two,
            ..
        }
        | Node::Store {
            index: one,
            from: two,
            ..
        } => [Some(*one), Some(*two)],
        Node::Nop { .. } | Node::Const { .. } | Node::Read { .. } | Node::Call { .. } => {
            [None, None]
        }
    }
}

/// An estimate of how often each node is executed: 1, times 10 for each loop around it, up to four loops. A loop is everything from a
/// node to the last node after it that leads back to it. `Err` if memory runs out.
pub fn weights(alloc: Global, next: &[Next]) -> Result<Vec<u32>, AllocError> {
    let mut weights = vec![in alloc; 1; next.len()]?;
    if !has_loop(next) {
        return Ok(weights);
    }
    let ends = loop_ends(alloc, next)?;
    let mut leaves = vec![in alloc; 0u32; next.len()]?;
    put_weights(
        ends.as_slice(),
        leaves.as_mut_slice(),
        weights.as_mut_slice(),
    );
    Ok(weights)
}

// Whether some node leads to itself or to an earlier node.
fn has_loop(next: &[Next]) -> bool {
    for (at, heads) in next.iter().enumerate() {
        for head in *heads {
            if let Some(head) = head
                && head <= at
            {
                return true;
            }
        }
    }
    false
}

// Fills in the weight of each node, given the ends of the loops that begin there. Counts how many loops end at each node.
fn put_weights(ends: &[Option<usize>], leaves: &mut [u32], weights: &mut [u32]) {
    let mut depth = 0u32;
    for (at, weight) in weights.iter_mut().enumerate() {
        if let Some(end) = ends.get(at).copied().flatten() {
            depth = depth.saturating_add(1);
            if let Some(count) = leaves.get_mut(end) {
                *count = count.saturating_add(1);
            }
        }
        *weight = ten_to(depth);
        depth = depth.saturating_sub(leaves.get(at).copied().unwrap_or(0));
    }
}

// For each node, the last node that leads back to it, if there is one.
fn loop_ends(alloc: Global, next: &[Next]) -> Result<Vec<Option<usize>>, AllocError> {
    let mut ends = vec![in alloc; None; next.len()]?;
    for (at, heads) in next.iter().enumerate() {
        for head in *heads {
            put_end(ends.as_mut_slice(), at, head);
        }
    }
    Ok(ends)
}

fn put_end(ends: &mut [Option<usize>], at: usize, head: Option<usize>) {
    if let Some(head) = head
        && head <= at
        && let Some(end) = ends.get_mut(head)
    {
        *end = Some(at);
    }
}

fn ten_to(depth: u32) -> u32 {
    match depth {
        0 => 1,
        1 => 10,
        2 => 100,
        3 => 1_000,
        _ => 10_000,
    }
}

/// The left operand of an operation, if its right operand is `constant`, the left one is another register, and the constant fits in
/// an immediate of the instruction.
pub fn beside_constant(node: &Node, constant: u32) -> Option<u32> {
    match node {
        Node::Binary {
            operator,
            left,
            right,
            ..
        } => {
            if *right == constant && *left != constant && has_immediate(*operator) {
                Some(*left)
            } else {
                None
            }
        }
        _ => None,
    }
}

fn has_immediate(operator: Binary) -> bool {
    match operator {
        Binary::Mul | Binary::DivS | Binary::DivU | Binary::RemS | Binary::RemU => false,
        _ => true,
    }
}
