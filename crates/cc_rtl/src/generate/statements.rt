// The nodes of statements, made from last to first.
//
// The recursion is as deep as the tree; a loop goes through the statements of a list.

ghost use Rattle.std.specs.Prelude.{◌≡◌, ◌+◌, ◌<◌, ◌≤◌, [], length, reverse, get_or, IfOk, OnOk};
ghost use Rattle.cc_cminor_language.specs.Cminor.{Call, Store};
ghost use Rattle.cc_cminor_language.specs.Code.{expression_of, expressions_of, statement_of, in_sequence};
ghost use Rattle.cc_cminor_language.specs.Statements.{statements_of};
ghost use Rattle.cc_cminor_language.specs.Numbers.{most_variables, ResultBelow, ExpressionBelow, StatementFits};
ghost use Rattle.cc_rtl_language.specs.Rtl.{most_nodes};
ghost use Rattle.cc_rtl_language.specs.Code.{node_of};
ghost use Rattle.cc_rtl.specs.Size.{operand_nodes, statement_nodes};
ghost use Rattle.cc_rtl.specs.internal.Generate.{pushed, operand, made};
ghost use Rattle.cc_rtl.specs.internal.Generating.{made_at};

use super::expressions::{hold, into, operand, operands, register, taken};
use super::graph::Graph;
use cc_cminor_language::{Expression, Statement};
use cc_rtl_language::Node;
use cc_words::Width;
use smallvec::SmallVec;
use std::alloc::{AllocError, Global};

// The register that a result goes into, if it is used.
fn result_register(to: Option<usize>) -> Option<u32>
    requires { ResultBelow most_variables to }
    ensures { result ≡ to }
{
    match to {
        Some(x) => Some(x as u32),
        None => None,
    }
}

// The label after the block that an exit leaves; any label if there is no such block.
fn label_behind(exits: &[u32], blocks: usize, exit: u32) -> u32
    ensures { result ≡ get_or (reverse exits.now) blocks exit }
{
    if blocks < exits.len() {
        exits[exits.len() - 1 - blocks]
    } else {
        exit
    }
}

// Makes a node that reads an operand, and before it the nodes that put the operand's value into a register.
fn with_operand(
    graph: &mut Graph,
    node: Node,
    e: &Expression,
    count: u32,
) -> Result<u32, AllocError>
    requires room { length graph.old + 1 + operand_nodes (expression_of e.now) ≤ most_nodes }
    requires numbers { ExpressionBelow most_variables (expression_of e.now) }
    requires count { count ≤ most_variables }
    ensures made { IfOk result (λ entry. made_at entry graph.new ≡ operand (expression_of e.now) count (pushed (node_of node) graph.old)) }
    ensures longer { OnOk result (length graph.new ≡ length graph.old + 1 + operand_nodes (expression_of e.now)) }
{
    let next = graph.put(node)?;
    operand(graph, e, count, next)
}

// Makes the nodes of a store.
fn store(
    graph: &mut Graph,
    width: Width,
    object: usize,
    index: &Expression,
    value: &Expression,
    count: u32,
    exit: u32,
) -> Result<u32, AllocError>
    requires room { length graph.old + statement_nodes (Store width object (expression_of index.now) (expression_of value.now)) ≤ most_nodes }
    requires numbers { StatementFits (Store width object (expression_of index.now) (expression_of value.now)) }
    requires count { count ≤ most_variables }
    ensures made { IfOk result (λ entry. made_at entry graph.new ≡ made count (Store width object (expression_of index.now) (expression_of value.now)) exit [] graph.old) }
    ensures longer { OnOk result (length graph.new ≡ length graph.old + statement_nodes (Store width object (expression_of index.now) (expression_of value.now))) }
{
    let behind = taken(index, count);
    let next = graph.put(Node::Store {
        width,
        object: object as u32,
        index: register(index, count),
        from: register(value, behind),
        next: exit,
    })?;
    let next = operand(graph, value, behind, next)?;
    operand(graph, index, count, next)
}

// Makes the nodes of a call.
fn call(
    alloc: Global,
    graph: &mut Graph,
    to: Option<usize>,
    function: usize,
    arguments: &[Expression],
    count: u32,
    exit: u32,
) -> Result<u32, AllocError>
    requires room { length graph.old + statement_nodes (Call to function (expressions_of arguments.now)) ≤ most_nodes }
    requires numbers { StatementFits (Call to function (expressions_of arguments.now)) }
    requires count { count ≤ most_variables }
    ensures made { IfOk result (λ entry. made_at entry graph.new ≡ made count (Call to function (expressions_of arguments.now)) exit [] graph.old) }
    ensures longer { OnOk result (length graph.new ≡ length graph.old + statement_nodes (Call to function (expressions_of arguments.now))) }
{
    let mut held = SmallVec::new(alloc);
    hold(&mut held, arguments, count)?;
    let next = graph.put(Node::Call {
        function: function as u32,
        arguments: held,
        to: result_register(to),
        next: exit,
    })?;
    operands(graph, arguments, count, next)
}

/// Makes the nodes of a statement that continues at `exit`, and returns where they begin. `exits` has the labels after the open
/// blocks, innermost last; on success it is unchanged.
#[cycle(code)]
pub fn statement(
    alloc: Global,
    graph: &mut Graph,
    exits: &mut Vec<u32>,
    count: u32,
    s: &Statement,
    exit: u32,
) -> Result<u32, AllocError>
    requires room { length graph.old + statement_nodes (statement_of s.now) ≤ most_nodes }
    requires numbers { StatementFits (statement_of s.now) }
    requires count { count ≤ most_variables }
    ensures made { IfOk result (λ entry. made_at entry graph.new ≡ made count (statement_of s.now) exit (reverse exits.old.items) graph.old) }
    ensures longer { OnOk result (length graph.new ≡ length graph.old + statement_nodes (statement_of s.now)) }
    ensures exits { OnOk result (exits.new.items ≡ exits.old.items) }
{
    match s {
        Statement::Skip => Ok(exit),
        Statement::Set(x, e) => into(graph, e, count, *x as u32, exit),
        Statement::Store(width, object, index, value) => {
            store(graph, *width, *object, index, value, count, exit)
        }
        Statement::Call(to, function, arguments) => {
            call(alloc, graph, *to, *function, arguments, count, exit)
        }
        Statement::Read(to) => graph.put(Node::Read {
            to: result_register(*to).unwrap_or(count),
            next: exit,
        }),
        Statement::Write(e) => {
            let from = register(e, count);
            with_operand(graph, Node::Write { from, next: exit }, e, count)
        }
        Statement::Sequence(all) => sequence(alloc, graph, exits, count, all, exit),
        Statement::If(e, a, b) => {
            let if_zero = statement(alloc, graph, exits, count, b, exit)?;
            let if_nonzero = statement(alloc, graph, exits, count, a, exit)?;
            let branch = Node::Branch {
                from: register(e, count),
                if_nonzero,
                if_zero,
            };
            with_operand(graph, branch, e, count)
        }
        Statement::Loop(a) => {
            let head = graph.open()?;
            let first = statement(alloc, graph, exits, count, a, head)?;
            graph.close(head, first);
            Ok(head)
        }
        Statement::Block(a) => {
            exits.push(exit)?;
            let entry = statement(alloc, graph, exits, count, a, exit)?;
            exits.pop();
            Ok(entry)
        }
        Statement::Exit(blocks) => Ok(label_behind(exits, *blocks, exit)),
        Statement::Return(e) => {
            let from = register(e, count);
            with_operand(graph, Node::Return { from }, e, count)
        }
    }
}

// Makes the nodes of statements, one after another.
#[cycle(code)]
fn sequence(
    alloc: Global,
    graph: &mut Graph,
    exits: &mut Vec<u32>,
    count: u32,
    all: &[Statement],
    exit: u32,
) -> Result<u32, AllocError>
    requires room { length graph.old + statement_nodes (in_sequence (statements_of all.now)) ≤ most_nodes }
    requires numbers { StatementFits (in_sequence (statements_of all.now)) }
    requires count { count ≤ most_variables }
    ensures made { IfOk result (λ entry. made_at entry graph.new ≡ made count (in_sequence (statements_of all.now)) exit (reverse exits.old.items) graph.old) }
    ensures longer { OnOk result (length graph.new ≡ length graph.old + statement_nodes (in_sequence (statements_of all.now))) }
    ensures exits { OnOk result (exits.new.items ≡ exits.old.items) }
{
    let mut entry = exit;
    for s in all.iter().rev() {
        entry = statement(alloc, graph, exits, count, s, entry)?;
    }
    Ok(entry)
}
