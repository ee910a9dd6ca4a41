// Graphs whose nodes are numbers.

ghost use Rattle.std.specs.Prelude.{◌≡◌, ℕ, ◌<◌, ◌++◌, ◌∷◌, [], All, Contains, length, replicate, slice_set, set, IfOk, IfErr};
ghost use Rattle.cc_flow.specs.Flow.{successors_of, rows_of};

use smallvec::SmallVec;
use std::alloc::{AllocError, Global};
use std::marker::Model;

// The nodes that a node leads to: at most two in code without switches, so most rows take no memory of their own.
type Row = SmallVec<usize, 2>;

/// A graph: for each node, numbered from 0, the nodes that it leads to. Contracts see it as the list of these rows.
#[derive(Drop)]
pub struct Graph {
    successors: Vec<Row>,
    // For each node, the nodes that lead to it, and possibly others.
    predecessors: Vec<Row>,
}

impl Model for Graph {
    ghost use Rattle.std.specs.Prelude.{List, ℕ};
    ghost use Rattle.cc_flow.specs.internal.Edges.{AreEdges};
    ghost use Rattle.cc_flow.specs.Flow.{rows_of};

    ghost Value = { List (List ℕ) };

    ghost view = { λ g. rows_of g.successors.items };

    ghost invariant = { λ g. AreEdges (rows_of g.successors.items) (rows_of g.predecessors.items) };
}

impl Graph {
    /// Makes a graph of this many nodes without edges. `AllocError` if memory runs out.
    pub fn new(alloc: Global, nodes: usize) -> Result<Graph, AllocError>
        ensures { IfOk result (λ graph. graph ≡ replicate nodes []) }
    {
        Ok(Graph {
            successors: empty_rows(alloc, nodes)?,
            predecessors: empty_rows(alloc, nodes)?,
        })
    }

    /// How many nodes the graph has.
    pub fn len(&self) -> usize
        ensures { result ≡ length self.now }
    {
        self.successors.len()
    }

    /// Adds an edge from one node to another, at the end of the first node's row. If memory runs out, the graph remains as it
    /// was.
    pub fn add_edge(&mut self, from: usize, to: usize) -> Result<(), AllocError>
        requires from { from < length self.old }
        requires to { to < length self.old }
        ensures added { IfOk result (λ _. self.new ≡ slice_set self.old from (successors_of self.old from ++ to ∷ [])) }
        ensures leaves { IfErr result (λ _. self.new ≡ self.old) }
    {
        push_in(&mut self.predecessors, to, from)?;
        push_in(&mut self.successors, from, to)?;
        Ok(())
    }

    /// The nodes that a node leads to.
    pub fn successors(&self, node: usize) -> &[usize]
        requires { node < length self.now }
        ensures row { result.now ≡ successors_of self.now node }
        ensures nodes { All (λ s. s < length self.now) result.now }
    {
        row_at(self.successors.as_slice(), node)
    }

    /// The nodes that lead to a node, and perhaps others.
    pub(crate) fn predecessors(&self, node: usize) -> &[usize]
        requires { node < length self.now }
        ensures leads { (p : ℕ) → Contains (successors_of self.now p) node → Contains result.now p }
        ensures nodes { All (λ p. p < length self.now) result.now }
    {
        row_at(self.predecessors.as_slice(), node)
    }
}

/// `nodes` empty rows.
fn empty_rows(alloc: Global, nodes: usize) -> Result<Vec<Row>, AllocError>
    ensures { IfOk result (λ rows. rows_of rows.items ≡ replicate nodes []) }
{
    let mut rows = Vec::with_capacity(alloc, nodes)?;
    for made in 0..nodes {
        let _made = made;
        rows.push(SmallVec::new(alloc))?;
    }
    Ok(rows)
}

/// The row at an index.
fn row_at(rows: &[Row], at: usize) -> &[usize]
    requires { at < length rows.now }
    ensures { result.now ≡ successors_of (rows_of rows.now) at }
{
    rows[at].as_slice()
}

/// Adds a node at the end of one row.
fn push_in(rows: &mut Vec<Row>, at: usize, node: usize) -> Result<(), AllocError>
    requires { at < length rows.old.items }
    ensures added { IfOk result (λ _. rows_of rows.new.items ≡ set (rows_of rows.old.items) at (successors_of (rows_of rows.old.items) at ++ node ∷ [])) }
    ensures leaves { IfErr result (λ _. rows_of rows.new.items ≡ rows_of rows.old.items) }
{
    rows[at].push(node)?;
    Ok(())
}
