// The solver.

ghost use Rattle.std.specs.Prelude.{◌≡◌, ℕ, ◌<◌, length, set, IfOk, IsTrue, IsFalse, All, sum_by, true, Contains};
ghost use Rattle.cc_flow.specs.Lattice.{Equivalent};
ghost use Rattle.cc_flow.specs.Flow.{joined, carried, facts_at, Solves, LiesUnder};
ghost use Rattle.cc_flow.specs.internal.Waiting.{waits};

use crate::facts::{Facts, Transfer};
use crate::graph::Graph;
use crate::worklist::Worklist;
use std::alloc::{AllocError, Global};
use std::marker::Model;

/// The facts at each node. Contracts see them as a list.
#[derive(Drop)]
pub struct Solution<F> {
    facts: Vec<F>,
}

impl<F> Model for Solution<F> {
    ghost use Rattle.std.specs.Prelude.{List};

    ghost Value = { List F };

    ghost view = { λ s. s.facts.items };
}

impl<F> Solution<F> {
    /// The facts of the nodes, in order.
    pub fn as_slice(&self) -> &[F]
        ensures { result.now ≡ self.now }
    {
        self.facts.as_slice()
    }

    /// The facts of the nodes, in order, as a `Vec`. This takes no memory.
    pub fn into_vec(self) -> Vec<F>
        ensures { result.items ≡ self }
    {
        let Solution { facts } = self;
        facts
    }
}

/// Returns the solution that is below every other. `AllocError` if memory runs out.
///
/// Each node gets what its transfer computes from the join of its successors' facts.
pub fn solve_backward<F: Facts, T: Transfer<F>>(
    alloc: Global,
    graph: &Graph,
    transfer: &T,
) -> Result<Solution<F>, AllocError>
    ensures long { IfOk result (λ solution. length solution ≡ length graph.now) }
    ensures solves { IfOk result (λ solution. Solves F.below F.bottom F.lub (T.carries transfer.now) graph.now (facts_at F.bottom solution)) }
    ensures least { IfOk result (λ solution. (other : ℕ → F) → Solves F.below F.bottom F.lub (T.carries transfer.now) graph.now other → LiesUnder F.below (facts_at F.bottom solution) other) }
{
    let mut facts = least_facts(alloc, graph.len())?;
    let mut waiting = Worklist::of_all(alloc, graph.len())?;
    while let Some(node) = waiting.take() {
        if raise(alloc, graph, transfer, &mut facts, node)? {
            wake(&mut waiting, graph.predecessors(node))?;
        }
    }
    Ok(Solution { facts })
}

/// The least value for each of `nodes` nodes.
fn least_facts<F: Facts>(alloc: Global, nodes: usize) -> Result<Vec<F>, AllocError>
    ensures long { IfOk result (λ facts. length facts.items ≡ nodes) }
    ensures least { IfOk result (λ facts. (node : ℕ) → facts_at F.bottom facts.items node ≡ F.bottom) }
{
    let mut facts = Vec::with_capacity(alloc, nodes)?;
    for made in 0..nodes {
        let _made = made;
        facts.push(F::least(alloc)?)?;
    }
    Ok(facts)
}

/// Makes each of these nodes wait; nodes that waited before still wait.
fn wake(waiting: &mut Worklist, nodes: &[usize]) -> Result<(), AllocError>
    requires { All (λ node. node < length waiting.old) nodes.now }
    ensures long { IfOk result (λ _. length waiting.new ≡ length waiting.old) }
    ensures still { IfOk result (λ _. (node : ℕ) → waits waiting.old node ≡ true → waits waiting.new node ≡ true) }
    ensures woken { IfOk result (λ _. (node : ℕ) → Contains nodes.now node → waits waiting.new node ≡ true) }
{
    for node in nodes {
        waiting.add(*node)?;
    }
    Ok(())
}

/// Joins what comes back to a node to the node's facts, and returns whether these rose.
fn raise<F: Facts, T: Transfer<F>>(
    alloc: Global,
    graph: &Graph,
    transfer: &T,
    facts: &mut Vec<F>,
    node: usize,
) -> Result<bool, AllocError>
    requires long { length facts.old.items ≡ length graph.now }
    requires node { node < length graph.now }
    ensures stays { IfOk result (λ rose. IsFalse rose → facts.new.items ≡ facts.old.items) }
    ensures rises { IfOk result (λ rose. IsTrue rose → sum_by F.room facts.new.items < sum_by F.room facts.old.items) }
    ensures raised { IfOk result (λ _. (own : F) × (facts.new.items ≡ set facts.old.items node own) × F.below (carried F.bottom F.lub (T.carries transfer.now) graph.now (facts_at F.bottom facts.old.items) node) own) }
    ensures within { IfOk result (λ _. (other : ℕ → F) → Solves F.below F.bottom F.lub (T.carries transfer.now) graph.now other → LiesUnder F.below (facts_at F.bottom facts.old.items) other → LiesUnder F.below (facts_at F.bottom facts.new.items) other) }
{
    let comes_back = carry(
        alloc,
        transfer,
        facts.as_slice(),
        node,
        graph.successors(node),
    )?;
    let rose = facts[node].join(&comes_back)?;
    Ok(rose)
}

/// What a node computes from the join of its successors' facts.
fn carry<F: Facts, T: Transfer<F>>(
    alloc: Global,
    transfer: &T,
    facts: &[F],
    node: usize,
    successors: &[usize],
) -> Result<F, AllocError>
    requires { All (λ s. s < length facts.now) successors.now }
    ensures { IfOk result (λ back. Equivalent F.below back (T.carries transfer.now node (joined F.bottom F.lub (facts_at F.bottom facts.now) successors.now))) }
{
    if successors.len() == 1 {
        return transfer.apply(alloc, node, &facts[successors[0]]);
    }
    let behind = join_all(alloc, facts, successors)?;
    transfer.apply(alloc, node, &behind)
}

/// The join of the facts at some nodes.
fn join_all<F: Facts>(alloc: Global, facts: &[F], nodes: &[usize]) -> Result<F, AllocError>
    requires { All (λ s. s < length facts.now) nodes.now }
    ensures { IfOk result (λ r. Equivalent F.below r (joined F.bottom F.lub (facts_at F.bottom facts.now) nodes.now)) }
{
    let mut behind = F::least(alloc)?;
    let mut n = nodes.len();
    while n > 0 {
        n -= 1;
        behind.join(&facts[nodes[n]])?;
    }
    Ok(behind)
}
