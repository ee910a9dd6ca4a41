// A graph that grows: each node has a place, which is its label until the order is reversed.
//
// Nodes are made from the end of the code to its beginning, so each comes before all others: the list has them in the code's
// order, while places ascend in the order in which they are made. At the end they are moved, in the code's order, to a list in
// which labels ascend.

ghost use Rattle.std.specs.Prelude.{◌≡◌, ◌+◌, ◌-◌, ◌<◌, ◌≤◌, [], ◌∷◌, ◌++◌, length, set, Some, None, IfOk, OnOk, option_map};
ghost use Rattle.cc_rtl_language.specs.Rtl as rtl;
ghost use Rattle.cc_rtl_language.specs.Rtl.{most_nodes};
ghost use Rattle.cc_rtl_language.specs.Code.{node_of, labelled_of};
ghost use Rattle.cc_rtl.specs.internal.Generate.{pushed, renamed, labelled_from, nodes_back};
ghost use Rattle.cc_rtl.specs.internal.Generating.{made_at};

use cc_instr_list::InstrList;
use cc_rtl_language::Node;
use std::alloc::{AllocError, Global};
use std::marker::Model;

/// The nodes so far, by their places. A place that is reserved for a loop's head has no node yet.
#[derive(Drop)]
pub struct Graph {
    places: InstrList<Option<Node>>,
}

impl Model for Graph {
    ghost use Rattle.std.specs.Prelude.{◌≡◌, length};
    ghost use Rattle.cc_rtl.specs.internal.Generate.{Places};
    ghost use Rattle.cc_rtl.specs.internal.Generating.{places_of, AreCountedDown};

    ghost Value = { Places };

    ghost view = { λ g. places_of g.places.entries };

    ghost invariant = { λ g. (g.places.given ≡ length g.places.entries) × AreCountedDown g.places.entries };
}

impl Graph {
    pub fn new(alloc: Global) -> Graph
        ensures { result ≡ [] }
    {
        Graph {
            places: InstrList::new(alloc),
        }
    }

    /// Puts a node at the next place, and returns its label.
    pub fn put(&mut self, node: Node) -> Result<u32, AllocError>
        requires { length self.old < most_nodes }
        ensures made { IfOk result (λ entry. made_at entry self.new ≡ pushed (node_of node) self.old) }
        ensures longer { OnOk result (length self.new ≡ length self.old + 1) }
    {
        self.add(Some(node))
    }

    /// Reserves the next place for a loop's head, and returns its label.
    pub fn open(&mut self) -> Result<u32, AllocError>
        requires { length self.old < most_nodes }
        ensures head { IfOk result (λ head. head ≡ length self.old) }
        ensures places { OnOk result (self.new ≡ self.old ++ None ∷ []) }
    {
        self.add(None)
    }

    /// Makes a loop's head lead to its body.
    pub fn close(&mut self, head: u32, first: u32)
        requires { head < length self.old }
        ensures { self.new ≡ set self.old head (Some (rtl.Nop first)) }
    {
        drop(self.places.replace(head, Some(Node::Nop { next: first })));
    }

    // Adds the next place, before all others.
    fn add(&mut self, place: Option<Node>) -> Result<u32, AllocError>
        requires { length self.old < most_nodes }
        ensures label { IfOk result (λ label. label ≡ length self.old) }
        ensures places { OnOk result (self.new ≡ self.old ++ option_map node_of place ∷ []) }
    {
        match self.places.first() {
            Some(first) => Ok(self.places.insert_before(first, place)?),
            None => Ok(self.places.push_back(place)?),
        }
    }

    /// Returns the nodes in the code's order, with labels that ascend from 0. `last` is the last place.
    pub fn finish(self, alloc: Global, last: u32) -> Result<InstrList<Node>, AllocError>
        requires { length self ≤ most_nodes }
        ensures { IfOk result (λ nodes. labelled_of nodes.entries ≡ labelled_from last 0 (nodes_back self)) }
    {
        let Graph { mut places } = self;
        let mut nodes = InstrList::new(alloc);
        while let Some(place) = places.first() {
            if let Some(mut node) = places.unlink(place) {
                turn(&mut node, last);
                nodes.push_back(node)?;
            }
        }
        Ok(nodes)
    }
}

// Renumbers the node's successors, whose labels then count from the last place.
fn turn(node: &mut Node, last: u32)
    ensures { node_of node.new ≡ renamed (λ l. last - l) (node_of node.old) }
{
    match node {
        Node::Nop { next } => *next = last.saturating_sub(*next),
        Node::Const { next, .. } => *next = last.saturating_sub(*next),
        Node::Move { next, .. } => *next = last.saturating_sub(*next),
        Node::Unary { next, .. } => *next = last.saturating_sub(*next),
        Node::Binary { next, .. } => *next = last.saturating_sub(*next),
        Node::Load { next, .. } => *next = last.saturating_sub(*next),
        Node::Store { next, .. } => *next = last.saturating_sub(*next),
        Node::Call { next, .. } => *next = last.saturating_sub(*next),
        Node::Read { next, .. } => *next = last.saturating_sub(*next),
        Node::Write { next, .. } => *next = last.saturating_sub(*next),
        Node::Branch {
            if_nonzero,
            if_zero,
            ..
        } => {
            *if_nonzero = last.saturating_sub(*if_nonzero);
            *if_zero = last.saturating_sub(*if_zero);
        }
        Node::Return { .. } => {}
    }
}
