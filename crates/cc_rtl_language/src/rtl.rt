// A function of RTL: its nodes, in an instruction list.
//
// The list's labels are the nodes' labels. They are the numbers from 0 on, and ascend along the code as it was made. So a label
// is also its node's position, and a node is found in constant time. An edit replaces a node with another, under the same label.

ghost use Rattle.std.specs.Prelude.{◌≡◌, ◌<◌, ◌≤◌, length, slice_get, Some, All, IsSome, IfOk, MatchOption};
ghost use Rattle.cc_rtl_language.specs.Rtl.{IsRtl, most_nodes, node_at};
ghost use Rattle.cc_rtl_language.specs.Code.{node_of, labelled_of};
ghost use Rattle.cc_rtl_language.specs.Live.{without};
ghost use Rattle.cc_rtl_language.specs.Positions.{position_of, graph_of, AreNumbered};

use crate::dead::make_all_nops;
use crate::node::Node;
use crate::positions::graph as graph_of_nodes;
use cc_flow::Graph;
use cc_instr_list::InstrList;
use std::alloc::{AllocError, Global};
use std::marker::Model;

/// A function: how many parameters it has (the first pseudo-registers), the label of the node that it begins with, and its nodes.
/// There are at most 4,096 nodes, whose labels are the numbers from 0 on. Each node leads to nodes, and the one at the entry is a
/// nop that no node leads to. Clauses see these parts.
pub struct Rtl {
    parameters: u32,
    entry: u32,
    nodes: InstrList<Node>,
}

// Written by hand, so that the crates above use this proof and need not show again how each part is dropped.
impl Drop for Rtl {
    fn drop(self) {
        let Rtl {
            parameters,
            entry,
            nodes,
        } = self;
    }
}

impl Model for Rtl {
    ghost use Rattle.cc_rtl_language.specs.Rtl.{Rtl as Function, IsRtl};
    ghost use Rattle.cc_rtl_language.specs.Code.{labelled_of};
    ghost use Rattle.cc_rtl_language.specs.Positions.{AreNumbered};

    ghost Value = { Function };

    ghost view = { λ r. record { parameters = r.parameters; entry = r.entry; nodes = labelled_of r.nodes.entries } };

    ghost invariant = { λ r. IsRtl (record { parameters = r.parameters; entry = r.entry; nodes = labelled_of r.nodes.entries }) × AreNumbered 0 (labelled_of r.nodes.entries) };
}

impl Rtl {
    /// Makes a function of these nodes, labelled from 0 on, whose entry and edges lead to nodes. Takes no memory.
    pub fn new(parameters: u32, entry: u32, nodes: InstrList<Node>) -> Rtl
        requires rtl { IsRtl (record { parameters = parameters; entry = entry; nodes = labelled_of nodes.entries }) }
        requires numbered { AreNumbered 0 (labelled_of nodes.entries) }
        ensures { result ≡ record { parameters = parameters; entry = entry; nodes = labelled_of nodes.entries } }
    {
        Rtl {
            parameters,
            entry,
            nodes,
        }
    }

    /// How many parameters the function has.
    pub fn parameters(&self) -> u32
        ensures { result ≡ self.now.parameters }
    {
        self.parameters
    }

    /// The label of the node that the function begins with.
    pub fn entry(&self) -> u32
        ensures { result ≡ self.now.entry }
    {
        self.entry
    }

    /// How many nodes the function has.
    pub fn len(&self) -> usize
        ensures count { result ≡ length self.now.nodes }
        ensures few { result ≤ most_nodes }
        ensures rtl { IsRtl self.now }
        ensures numbered { AreNumbered 0 self.now.nodes }
    {
        self.nodes.len()
    }

    /// The node at a position, which is also its label; `None` past the last node.
    pub fn at(&self, position: usize) -> Option<&Node>
        ensures { MatchOption result (length self.now.nodes ≤ position) (λ node. slice_get self.now.nodes position ≡ Some (record { label = position; node = node_of node.now })) }
    {
        if position < self.nodes.len() {
            self.nodes.at(position as u32)
        } else {
            None
        }
    }

    /// The node at a position that exists.
    pub fn node(&self, position: usize) -> &Node
        requires { position < length self.now.nodes }
        ensures { slice_get self.now.nodes position ≡ Some (record { label = position; node = node_of result.now }) }
    {
        match self.at(position) {
            Some(node) => node,
            None => unreachable!(),
        }
    }

    /// The position of the node with this label, in constant time.
    pub fn position(&self, label: u32) -> usize
        requires { IsSome (node_at self.now.nodes label) }
        ensures position { result ≡ position_of self.now.nodes label }
        ensures within { result < length self.now.nodes }
    {
        let _kept = self.len();
        label as usize
    }

    /// Returns the graph of the nodes by their positions, for `cc_flow`. Fails with `AllocError` if memory runs out.
    pub fn graph(&self, alloc: Global) -> Result<Graph, AllocError>
        ensures { IfOk result (λ graph. graph ≡ graph_of self.now.nodes) }
    {
        graph_of_nodes(alloc, self)
    }

    // Turns the nodes with these labels into nops, if they are pure. Takes no memory.
    pub(crate) fn make_nops(&mut self, labels: &[u32])
        requires { All (λ l. IsSome (node_at self.old.nodes l)) labels.now }
        ensures { self.new ≡ without labels.now self.old }
    {
        make_all_nops(&mut self.nodes, labels);
    }
}
