// A function without its dead nodes.

ghost use Rattle.std.specs.Prelude.{◌≡◌, [], get_or, length, All, IsSome, IfOk, IfErr};
ghost use Rattle.cc_rtl_language.specs.Rtl.{node_at, successors};
ghost use Rattle.cc_rtl_language.specs.Code.{node_of};
ghost use Rattle.cc_rtl_language.specs.Live.{AreLive, is_dead as is_dead_by};
ghost use Rattle.cc_bits.specs.Rows.{holds};
ghost use Rattle.cc_live.specs.Rows.{rows_at};
ghost use Rattle.cc_live.specs.Liveness.{AreLeastLive, AreStronglyLive, without_dead, IsWithoutFaint, NothingIsDead};
ghost use Rattle.cc_live.specs.internal.Dead.{dead_labels as dead_labels_of};

use crate::set::{Liveness, RegisterSet};
use crate::transfer::solve;
use cc_rtl_language::{Node, Rtl, RtlPair};
use std::alloc::{AllocError, Global};

/// Turns the pure nodes whose result is in none of their successors' sets into nops. Any live sets of the code will do. The rest
/// of the pair stays as it is, and the pair's run still keeps up with the function. What the removed nodes read may no longer be
/// live then, so more nodes may be dead: `drop_faint` removes them all. If memory runs out, the pair stays as it was.
pub fn drop_dead(alloc: Global, pair: &mut RtlPair, live: &Liveness) -> Result<(), AllocError>
    requires { AreLive pair.old.rtl.nodes (rows_at pair.old.rtl.nodes live.now) }
    ensures dropped { IfOk result (λ _. pair.new ≡ record pair.old { rtl = without_dead (rows_at pair.old.rtl.nodes live.now) pair.old.rtl }) }
    ensures leaves { IfErr result (λ _. pair.new ≡ pair.old) }
{
    drop_by(alloc, pair, live.as_slice())?;
    Ok(())
}

/// Turns all nodes that nothing needs into nops: the pure nodes whose result is read only by such nodes, or by no node. The rest
/// of the pair stays as it is, and the pair's run still keeps up with the function. Afterwards no node is dead. The answer is the
/// least live sets of what is left, as `liveness` would answer them. If memory runs out, the pair stays as it was.
pub fn drop_faint(alloc: Global, pair: &mut RtlPair) -> Result<Liveness, AllocError>
    ensures mode { pair.new.mode ≡ pair.old.mode }
    ensures unit { pair.new.unit ≡ pair.old.unit }
    ensures function { pair.new.function ≡ pair.old.function }
    ensures without { IfOk result (λ _. IsWithoutFaint pair.old.rtl pair.new.rtl) }
    ensures nothing_dead { IfOk result (λ _. NothingIsDead pair.new.rtl) }
    ensures long { IfOk result (λ live. length live ≡ length pair.new.rtl.nodes) }
    ensures live { IfOk result (λ live. AreLeastLive pair.new.rtl.nodes (rows_at pair.new.rtl.nodes live)) }
    ensures leaves { IfErr result (λ _. pair.new ≡ pair.old) }
{
    let live = solve(alloc, pair.code(), true)?;
    drop_by(alloc, pair, live.as_slice())?;
    Ok(Liveness::new(live))
}

/// Turns the nodes that are dead by strongly live sets into nops; any live sets will do, since live sets are strongly live too.
fn drop_by(alloc: Global, pair: &mut RtlPair, live: &[RegisterSet]) -> Result<(), AllocError>
    requires { AreStronglyLive pair.old.rtl.nodes (rows_at pair.old.rtl.nodes live.now) }
    ensures dropped { IfOk result (λ _. pair.new ≡ record pair.old { rtl = without_dead (rows_at pair.old.rtl.nodes live.now) pair.old.rtl }) }
    ensures leaves { IfErr result (λ _. pair.new ≡ pair.old) }
{
    let labels = dead_labels(alloc, pair.code(), live)?;
    pair.make_nops(labels.as_slice());
    Ok(())
}

/// The labels of the nodes that are dead by these sets.
fn dead_labels(alloc: Global, rtl: &Rtl, live: &[RegisterSet]) -> Result<Vec<u32>, AllocError>
    ensures { IfOk result (λ labels. labels.items ≡ dead_labels_of (rows_at rtl.now.nodes live.now) rtl.now.nodes) }
{
    let mut labels = Vec::new(alloc);
    for at in 0..rtl.len() {
        if is_dead(rtl, live, rtl.node(at)) {
            labels.push(at as u32)?;
        }
    }
    Ok(labels)
}

/// Whether a node is pure and its result is in no successor's set.
fn is_dead(rtl: &Rtl, live: &[RegisterSet], node: &Node) -> bool
    requires { All (λ s. IsSome (node_at rtl.now.nodes s)) (successors (node_of node.now)) }
    ensures { result ≡ is_dead_by (rows_at rtl.now.nodes live.now) (node_of node.now) }
{
    match node {
        Node::Const { to, next, .. }
        | Node::Move { to, next, .. }
        | Node::Unary { to, next, .. }
        | Node::Binary { to, next, .. }
        | Node::Load { to, next, .. } => !holds_at(live, rtl.position(*next), *to),
        _ => false,
    }
}

/// Whether the set at a position holds a register.
fn holds_at(live: &[RegisterSet], position: usize, register: u32) -> bool
    ensures { result ≡ holds (get_or live.now position []) register }
{
    match live.get(position) {
        Some(set) => set.contains(register),
        None => false,
    }
}
