// The nodes of a function's code.
//
// Nodes are made from the end of the code to its beginning, so that the label to continue at is known when a node is made. Then
// they get new labels, which ascend in the code's order.

mod expressions;
mod graph;
mod statements;

ghost use Rattle.std.specs.Prelude.{◌≡◌, ◌≤◌, IfOk};
ghost use Rattle.cc_cminor_language.specs.Code.{statement_of};
ghost use Rattle.cc_cminor_language.specs.Numbers.{most_variables, StatementFits};
ghost use Rattle.cc_rtl_language.specs.Rtl.{most_nodes};
ghost use Rattle.cc_rtl_language.specs.Code.{labelled_of};
ghost use Rattle.cc_rtl.specs.Size.{function_nodes};
ghost use Rattle.cc_rtl.specs.internal.Generating.{generated_nodes};

use cc_cminor_language::Statement;
use cc_instr_list::InstrList;
use cc_rtl_language::Node;
use graph::Graph;
use statements::statement;
use std::alloc::{AllocError, Global};

/// Returns the nodes of a body whose variables are those below `count`. Their labels ascend from 0, the label of the first. There
/// are at most 4,096 of them.
pub fn generate(alloc: Global, count: u32, body: &Statement) -> Result<InstrList<Node>, AllocError>
    requires few { function_nodes (statement_of body.now) ≤ most_nodes }
    requires numbers { StatementFits (statement_of body.now) }
    requires count { count ≤ most_variables }
    ensures nodes { IfOk result (λ nodes. labelled_of nodes.entries ≡ generated_nodes count (statement_of body.now)) }
{
    let mut graph = Graph::new(alloc);
    let returning = graph.put(Node::Return { from: count })?;
    let exit = graph.put(Node::Const {
        to: count,
        word: 0,
        next: returning,
    })?;
    let mut exits = Vec::new(alloc);
    let first = statement(alloc, &mut graph, &mut exits, count, body, exit)?;
    let entry = graph.put(Node::Nop { next: first })?;
    graph.finish(alloc, entry)
}
