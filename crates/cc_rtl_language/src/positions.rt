// The nodes of a function by their positions, as dataflow numbers them, with the graph of their successors.

ghost use Rattle.std.specs.Prelude.{◌≡◌, ◌<◌, ◌++◌, length, map, slice_set, All, IsSome, IfOk};
ghost use Rattle.cc_flow.specs.Flow.{successors_of};
ghost use Rattle.cc_rtl_language.specs.Rtl.{node_at, successors};
ghost use Rattle.cc_rtl_language.specs.Code.{node_of};
ghost use Rattle.cc_rtl_language.specs.Positions.{position_of, graph_of};

use crate::node::Node;
use crate::rtl::Rtl;
use cc_flow::Graph;
use std::alloc::{AllocError, Global};

/// Returns the graph of a function: from each node to its successors.
pub fn graph(alloc: Global, rtl: &Rtl) -> Result<Graph, AllocError>
    ensures { IfOk result (λ graph. graph ≡ graph_of rtl.now.nodes) }
{
    let count = rtl.len();
    let mut graph = Graph::new(alloc, count)?;
    for at in 0..count {
        add_edges(&mut graph, rtl, at, rtl.node(at))?;
    }
    Ok(graph)
}

/// Adds the edges from one node to its successors.
fn add_edges(graph: &mut Graph, rtl: &Rtl, at: usize, node: &Node) -> Result<(), AllocError>
    requires inside { All (λ s. IsSome (node_at rtl.now.nodes s)) (successors (node_of node.now)) }
    requires long { length graph.old ≡ length rtl.now.nodes }
    requires at { at < length graph.old }
    ensures { IfOk result (λ _. graph.new ≡ slice_set graph.old at (successors_of graph.old at ++ map (position_of rtl.now.nodes) (successors (node_of node.now)))) }
{
    match node {
        Node::Nop { next }
        | Node::Const { next, .. }
        | Node::Move { next, .. }
        | Node::Unary { next, .. }
        | Node::Binary { next, .. }
        | Node::Load { next, .. }
        | Node::Store { next, .. }
        | Node::Call { next, .. }
        | Node::Read { next, .. }
        | Node::Write { next, .. } => graph.add_edge(at, rtl.position(*next)),
        Node::Branch {
            if_nonzero,
            if_zero,
            ..
        } => {
            graph.add_edge(at, rtl.position(*if_nonzero))?;
            graph.add_edge(at, rtl.position(*if_zero))?;
            Ok(())
        }
        Node::Return { .. } => Ok(()),
    }
}
