// The step from the registers that are live after a node to those that are live before it, and the solver's answer with this
// step.

ghost use Rattle.std.specs.Prelude.{◌≡◌, ℕ, ◌||◌, ◌&&◌, ◌↔◌, not, length, IsTrue, IfOk};
ghost use Rattle.cc_rtl_language.specs.Code.{node_of};
ghost use Rattle.cc_rtl_language.specs.Live.{reads, result as result_of, pure_result as pure_result_of, among};
ghost use Rattle.cc_bits.specs.Rows.{holds};
ghost use Rattle.cc_live.specs.Rows.{rows_at};
ghost use Rattle.cc_live.specs.internal.Facts.{live_before as made_live_before, is_unread, is_result, carries, AreLeastAs};
ghost use Rattle.cc_live.specs.internal.Laws.{carries_up};

use crate::set::RegisterSet;
use cc_flow::{Facts, Transfer, solve_backward};
use cc_rtl_language::{Node, Rtl};
use std::alloc::{AllocError, Global};

/// The nodes of a function. With `strong`, dead nodes need nothing of what they read.
#[derive(Drop)]
pub struct Code<'a> {
    pub rtl: &'a Rtl,
    pub strong: bool,
}

impl<'a> Transfer<RegisterSet> for Code<'a> {
    ghost carries = { λ c. carries c.strong c.rtl.now.nodes };

    fn apply(
        &self,
        alloc: Global,
        node: usize,
        facts: &RegisterSet,
    ) -> Result<RegisterSet, AllocError> {
        match self.rtl.at(node) {
            Some(node) => live_before(alloc, self.strong, node, facts),
            None => RegisterSet::least(alloc),
        }
    }

    ghost monotone = { λ c. carries_up c.strong c.rtl.now.nodes };
}

/// What is live before a node, given what is live after it.
fn live_before(
    alloc: Global,
    strong: bool,
    node: &Node,
    behind: &RegisterSet,
) -> Result<RegisterSet, AllocError>
    ensures { IfOk result (λ before. (r : ℕ) → IsTrue (holds before r) ↔ IsTrue (holds (made_live_before strong (node_of node.now) behind.now) r)) }
{
    let mut before = behind.copy(alloc)?;
    if is_left_out(strong, node, behind) {
        return Ok(before);
    }
    drop_result(&mut before, node);
    add_reads(&mut before, node)?;
    Ok(before)
}

/// Removes the register that gets a node's result.
fn drop_result(before: &mut RegisterSet, node: &Node)
    ensures { (r : ℕ) → holds before.new r ≡ (holds before.old r && not (is_result (result_of (node_of node.now)) r)) }
{
    if let Some(to) = result(node) {
        before.remove(to);
    }
}

/// Whether a node needs nothing of what it reads: true with `strong`, if the node is pure and its result is not live after
/// it.
fn is_left_out(strong: bool, node: &Node, behind: &RegisterSet) -> bool
    ensures { result ≡ (strong && is_unread behind.now (pure_result_of (node_of node.now))) }
{
    if !strong {
        return false;
    }
    match pure_result(node) {
        Some(to) => !behind.contains(to),
        None => false,
    }
}

/// The register that a pure node writes. A pure node does nothing else.
fn pure_result(node: &Node) -> Option<u32>
    ensures { result ≡ pure_result_of (node_of node.now) }
{
    match node {
        Node::Const { to, .. }
        | Node::Move { to, .. }
        | Node::Unary { to, .. }
        | Node::Binary { to, .. }
        | Node::Load { to, .. } => Some(*to),
        _ => None,
    }
}

/// The register that gets a node's result.
fn result(node: &Node) -> Option<u32>
    ensures { result ≡ result_of (node_of node.now) }
{
    match node {
        Node::Call { to, .. } => *to,
        Node::Read { to, .. } => Some(*to),
        _ => pure_result(node),
    }
}

/// Adds what a node reads.
fn add_reads(before: &mut RegisterSet, node: &Node) -> Result<(), AllocError>
    ensures { IfOk result (λ _. (r : ℕ) → holds before.new r ≡ (among (reads (node_of node.now)) r || holds before.old r)) }
{
    match node {
        Node::Nop { .. } | Node::Const { .. } | Node::Read { .. } => Ok(()),
        Node::Move { from, .. }
        | Node::Unary { from, .. }
        | Node::Load { index: from, .. }
        | Node::Write { from, .. }
        | Node::Branch { from, .. }
        | Node::Return { from } => add_all(before, &[*from]),
        Node::Binary { left, right, .. } => add_all(before, &[*left, *right]),
        Node::Store { index, from, .. } => add_all(before, &[*index, *from]),
        Node::Call { arguments, .. } => add_all(before, arguments.as_slice()),
    }
}

/// Adds some registers.
fn add_all(before: &mut RegisterSet, registers: &[u32]) -> Result<(), AllocError>
    ensures { IfOk result (λ _. (r : ℕ) → holds before.new r ≡ (among registers.now r || holds before.old r)) }
{
    for register in registers {
        before.insert(*register)?;
    }
    Ok(())
}

/// The least live sets of a function, one for each node; with `strong`, the least strongly live sets. Err: memory ran out.
pub fn solve(alloc: Global, rtl: &Rtl, strong: bool) -> Result<Vec<RegisterSet>, AllocError>
    ensures long { IfOk result (λ sets. length sets.items ≡ length rtl.now.nodes) }
    ensures least { IfOk result (λ sets. AreLeastAs strong rtl.now.nodes (rows_at rtl.now.nodes sets.items)) }
{
    let _kept = rtl.len();
    let graph = rtl.graph(alloc)?;
    let code = Code { rtl, strong };
    let least = solve_backward(alloc, &graph, &code)?;
    Ok(least.into_vec())
}
