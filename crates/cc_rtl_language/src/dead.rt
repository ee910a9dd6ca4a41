// Turning nodes into nops.

ghost use Rattle.std.specs.Prelude.{◌≡◌, ◌==◌, All, IsSome, Some, MatchOption, option_map};
ghost use Rattle.cc_rtl_language.specs.Rtl as rtl;
ghost use Rattle.cc_rtl_language.specs.Rtl.{Ascend, node_at};
ghost use Rattle.cc_rtl_language.specs.Code.{node_of, labelled_of};
ghost use Rattle.cc_rtl_language.specs.Live.{as_nop, with_nops, among};

use crate::node::Node;
use cc_instr_list::InstrList;

/// Turns the nodes with these labels into nops, if they are pure.
pub fn make_all_nops(nodes: &mut InstrList<Node>, labels: &[u32])
    requires ascend { Ascend (labelled_of nodes.old.entries) }
    requires there { All (λ l. IsSome (node_at (labelled_of nodes.old.entries) l)) labels.now }
    ensures { labelled_of nodes.new.entries ≡ with_nops (λ label node. among labels.now label) (labelled_of nodes.old.entries) }
{
    for label in labels {
        make_nop(nodes, *label);
    }
}

/// Turns the node with this label into a nop, if it is pure.
fn make_nop(nodes: &mut InstrList<Node>, label: u32)
    requires ascend { Ascend (labelled_of nodes.old.entries) }
    requires there { IsSome (node_at (labelled_of nodes.old.entries) label) }
    ensures { labelled_of nodes.new.entries ≡ with_nops (λ l node. label == l) (labelled_of nodes.old.entries) }
{
    if let Some(next) = pure_next(nodes, label) {
        drop(nodes.replace(label, Node::Nop { next }));
    }
}

/// The label that follows the node with this label, if the node is pure and not a nop.
fn pure_next(nodes: &InstrList<Node>, label: u32) -> Option<u32>
    ensures { MatchOption result (option_map as_nop (node_at (labelled_of nodes.now.entries) label) ≡ node_at (labelled_of nodes.now.entries) label) (λ next. option_map as_nop (node_at (labelled_of nodes.now.entries) label) ≡ Some (rtl.Nop next)) }
{
    match nodes.at(label) {
        Some(node) => next_of_pure(node),
        None => None,
    }
}

fn next_of_pure(node: &Node) -> Option<u32>
    ensures { MatchOption result (as_nop (node_of node.now) ≡ node_of node.now) (λ next. as_nop (node_of node.now) ≡ rtl.Nop next) }
{
    match node {
        Node::Const { next, .. }
        | Node::Move { next, .. }
        | Node::Unary { next, .. }
        | Node::Binary { next, .. }
        | Node::Load { next, .. } => Some(*next),
        _ => None,
    }
}
