// An order in which code falls through to the likely successor, and a loop's test is at the loop's bottom. No proof depends on it.
//
// Blocks are joined into chains, in which each block falls through to the next. Places are in the order of labels, and labels in the order
// of the source. So a block whose successor does not come later leads back to the head of a loop. Blocks are joined in this order:
// 1. the blocks that only lead back, the last one of a loop first (others come from `continue`), so that the head, with the loop's test,
//    comes after the loop's body, and a turn needs no jump;
// 2. the blocks that have one successor, unless it is the head of a loop;
// 3. the branches: each is joined to its successor for a word that is 0, which leads out of a loop or past an `if`, or to its other
//    successor if the first one already follows another block;
// 4. the blocks that lead into a loop.

ghost use Rattle.std.specs.Prelude.{◌≡◌, ◌<◌, length, vec_len, IfOk, All};
ghost use Rattle.cc_linear.specs.internal.Reached.{InGraph};

use super::ways::Ways;
use std::alloc::{AllocError, Global};

/// Chains of labels that follow one another. In place of a label, the number of labels means that there is no label.
#[derive(Drop)]
struct Chains {
    behind: Vec<usize>,
    is_led: Vec<bool>,
    first: Vec<usize>, // of the chain that ends here
    last: Vec<usize>, // of the chain that begins here
    ghost is_led_long: { vec_len is_led ≡ vec_len behind },
    ghost first_long: { vec_len first ≡ vec_len behind },
    ghost last_long: { vec_len last ≡ vec_len behind },
}

/// Chains of one label each.
fn alone(alloc: Global, count: usize) -> Result<Chains, AllocError>
    ensures { IfOk result (λ chains. vec_len chains.behind ≡ count) }
{
    let mut first: Vec<usize> = Vec::with_capacity(alloc, count)?;
    let mut last: Vec<usize> = Vec::with_capacity(alloc, count)?;
    for label in 0..count {
        first.push(label)?;
        last.push(label)?;
    }
    let behind = vec![in alloc; count; count]?;
    let is_led = vec![in alloc; false; count]?;
    Ok(Chains {
        behind,
        is_led,
        first,
        last,
    })
}

/// Puts a label after another, if the other is the last of its chain and the label is the first of a different one.
fn join(chains: &mut Chains, from: usize, to: usize)
    requires from { from < vec_len chains.old.behind }
    requires to { to < vec_len chains.old.behind }
    ensures { vec_len chains.new.behind ≡ vec_len chains.old.behind }
{
    let count = chains.behind.len();
    let first = chains.first[from];
    let last = chains.last[to];
    if chains.behind[from] == count
        && !chains.is_led[to]
        && first != to
        && first < count
        && last < count
    {
        chains.behind[from] = to;
        chains.is_led[to] = true;
        chains.first[last] = first;
        chains.last[first] = last;
    }
}

/// Joins the blocks that do nothing but lead back, the last one first.
fn join_back(chains: &mut Chains, graph: &[Ways], is_found: &[bool])
    requires graph { InGraph graph.now }
    requires found { length is_found.now ≡ length graph.now }
    requires chains { vec_len chains.old.behind ≡ length graph.now }
    ensures { vec_len chains.new.behind ≡ length graph.now }
{
    let count = graph.len();
    for i in 0..count {
        let from = count - 1 - i;
        if let Ways::One(to) = graph[from] {
            if is_found[from] && to <= from {
                join(chains, from, to);
            }
        }
    }
}

/// Joins the blocks that have one successor: those that lead to heads of loops, or the others.
fn join_on(
    chains: &mut Chains,
    graph: &[Ways],
    is_found: &[bool],
    is_head: &[bool],
    into_loops: bool,
)
    requires graph { InGraph graph.now }
    requires found { length is_found.now ≡ length graph.now }
    requires heads { length is_head.now ≡ length graph.now }
    requires chains { vec_len chains.old.behind ≡ length graph.now }
    ensures { vec_len chains.new.behind ≡ length graph.now }
{
    for from in 0..graph.len() {
        if let Ways::One(to) = graph[from] {
            if is_found[from] && is_head[to] == into_loops {
                join(chains, from, to);
            }
        }
    }
}

/// Joins the branches.
fn join_branches(chains: &mut Chains, graph: &[Ways], is_found: &[bool])
    requires graph { InGraph graph.now }
    requires found { length is_found.now ≡ length graph.now }
    requires chains { vec_len chains.old.behind ≡ length graph.now }
    ensures { vec_len chains.new.behind ≡ length graph.now }
{
    for from in 0..graph.len() {
        if let Ways::Two(taken, other) = graph[from] {
            if is_found[from] {
                join(chains, from, other);
                join(chains, from, taken);
            }
        }
    }
}

/// Which labels are heads of loops: a block that was found leads back to them.
fn heads(alloc: Global, graph: &[Ways], is_found: &[bool]) -> Result<Vec<bool>, AllocError>
    requires graph { InGraph graph.now }
    requires found { length is_found.now ≡ length graph.now }
    ensures { IfOk result (λ is_head. length is_head.items ≡ length graph.now) }
{
    let mut is_head = vec![in alloc; false; graph.len()]?;
    for from in 0..graph.len() {
        if is_found[from] {
            match graph[from] {
                Ways::Leaves => {}
                Ways::One(to) => mark_back(&mut is_head, from, to),
                Ways::Two(taken, other) => {
                    mark_back(&mut is_head, from, taken);
                    mark_back(&mut is_head, from, other);
                }
            }
        }
    }
    Ok(is_head)
}

/// Marks the label `to` as the head of a loop if `from` leads back to it.
fn mark_back(is_head: &mut Vec<bool>, from: usize, to: usize)
    requires { to < length is_head.old.items }
    ensures { length is_head.new.items ≡ length is_head.old.items }
{
    if to <= from {
        is_head[to] = true;
    }
}

/// The chains one after another, the entry's first.
fn listed(alloc: Global, chains: &Chains, found: &[usize]) -> Result<Vec<usize>, AllocError>
    requires inside { All (λ l. l < vec_len chains.now.behind) found.now }
{
    let count = chains.behind.len();
    let mut order: Vec<usize> = Vec::with_capacity(alloc, found.len())?;
    for i in 0..found.len() {
        let mut at = found[i];
        if !chains.is_led[at] {
            for _ in 0..count {
                if at >= count {
                    break;
                }
                order.push(at)?;
                at = chains.behind[at];
            }
        }
    }
    Ok(order)
}

/// The labels that were found, chain by chain. Err: memory ran out.
pub fn in_chains(alloc: Global, graph: &[Ways], found: &[usize]) -> Result<Vec<usize>, AllocError>
    requires graph { InGraph graph.now }
    requires inside { All (λ l. l < length graph.now) found.now }
{
    let mut is_found = vec![in alloc; false; graph.len()]?;
    for i in 0..found.len() {
        is_found[found[i]] = true;
    }
    let is_head = heads(alloc, graph, &is_found)?;
    let mut chains = alone(alloc, graph.len())?;
    join_back(&mut chains, graph, &is_found);
    join_on(&mut chains, graph, &is_found, &is_head, false);
    join_branches(&mut chains, graph, &is_found);
    join_on(&mut chains, graph, &is_found, &is_head, true);
    listed(alloc, &chains, found)
}
