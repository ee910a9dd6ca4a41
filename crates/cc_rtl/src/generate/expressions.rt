// The nodes that put the value of an expression into a register, made from last to first.
//
// A variable is read from its own register, so an operand that is a variable needs no node. The recursion is as deep as the tree,
// with two calls for each of its levels.

ghost use Rattle.std.specs.Prelude.{◌≡◌, ◌+◌, ◌<◌, ◌≤◌, ◌^◌, ◌++◌, length, IfOk, OnOk};
ghost use Rattle.cc_cminor_language.specs.Code.{expression_of, expressions_of};
ghost use Rattle.cc_cminor_language.specs.Numbers.{most_variables, ExpressionBelow, ExpressionsBelow};
ghost use Rattle.cc_rtl_language.specs.Rtl.{most_nodes};
ghost use Rattle.cc_rtl.specs.internal.Generate.{register, taken, made_into, operand, registers, operands};
ghost use Rattle.cc_rtl.specs.Size.{into_nodes, operand_nodes, operands_nodes};
ghost use Rattle.cc_rtl_language.specs.Code.{node_of};
ghost use Rattle.cc_rtl.specs.internal.Generating.{made_at, last_node};

use super::graph::Graph;
use cc_cminor_language::Expression;
use cc_rtl_language::Node;
use smallvec::SmallVec;
use std::alloc::AllocError;

/// The register that holds an operand: a variable's own, or the first free one.
pub fn register(e: &Expression, free: u32) -> u32
    requires numbers { ExpressionBelow most_variables (expression_of e.now) }
    ensures { result ≡ register (expression_of e.now) free }
{
    match e {
        Expression::Local(x) => *x as u32,
        _ => free,
    }
}

/// The first free register after an operand.
pub fn taken(e: &Expression, free: u32) -> u32
    requires { free + operand_nodes (expression_of e.now) < 2 ^ 32 }
    ensures register { result ≡ taken (expression_of e.now) free }
    ensures few { result ≤ free + operand_nodes (expression_of e.now) }
{
    match e {
        Expression::Local(_) => free,
        _ => free + 1,
    }
}

// The node that puts the value of an expression into a register, once its operands are in registers.
fn last_node(e: &Expression, free: u32, to: u32, exit: u32) -> Node
    requires registers { free + into_nodes (expression_of e.now) < 2 ^ 32 }
    requires numbers { ExpressionBelow most_variables (expression_of e.now) }
    ensures { node_of result ≡ last_node (expression_of e.now) free to exit }
{
    match e {
        Expression::Constant(word) => Node::Const {
            to,
            word: *word,
            next: exit,
        },
        Expression::Local(x) => Node::Move {
            to,
            from: *x as u32,
            next: exit,
        },
        Expression::Unary(operator, a) => Node::Unary {
            operator: *operator,
            to,
            from: register(a, free),
            next: exit,
        },
        Expression::Binary(operator, a, b) => Node::Binary {
            operator: *operator,
            to,
            left: register(a, free),
            right: register(b, taken(a, free)),
            next: exit,
        },
        Expression::Load(width, object, a) => Node::Load {
            width: *width,
            object: *object as u32,
            to,
            index: register(a, free),
            next: exit,
        },
    }
}

/// Makes the nodes that put the value of an expression into a register and continue at a label. Returns where they begin.
#[cycle(values)]
pub fn into(
    graph: &mut Graph,
    e: &Expression,
    free: u32,
    to: u32,
    exit: u32,
) -> Result<u32, AllocError>
    requires room { length graph.old + into_nodes (expression_of e.now) ≤ most_nodes }
    requires registers { free + into_nodes (expression_of e.now) < 2 ^ 32 }
    requires numbers { ExpressionBelow most_variables (expression_of e.now) }
    ensures made { IfOk result (λ entry. made_at entry graph.new ≡ made_into (expression_of e.now) free to exit graph.old) }
    ensures longer { OnOk result (length graph.new ≡ length graph.old + into_nodes (expression_of e.now)) }
{
    let next = graph.put(last_node(e, free, to, exit))?;
    match e {
        Expression::Constant(_) => Ok(next),
        Expression::Local(_) => Ok(next),
        Expression::Unary(_, a) => operand(graph, a, free, next),
        Expression::Binary(_, a, b) => {
            let next = operand(graph, b, taken(a, free), next)?;
            operand(graph, a, free, next)
        }
        Expression::Load(_, _, a) => operand(graph, a, free, next),
    }
}

/// Makes the nodes that put an operand's value into a register and continue at a label: none for a variable. Returns where they
/// begin.
#[cycle(values)]
pub fn operand(graph: &mut Graph, e: &Expression, free: u32, exit: u32) -> Result<u32, AllocError>
    requires room { length graph.old + operand_nodes (expression_of e.now) ≤ most_nodes }
    requires registers { free + 1 + operand_nodes (expression_of e.now) < 2 ^ 32 }
    requires numbers { ExpressionBelow most_variables (expression_of e.now) }
    ensures made { IfOk result (λ entry. made_at entry graph.new ≡ operand (expression_of e.now) free (made_at exit graph.old)) }
    ensures longer { OnOk result (length graph.new ≡ length graph.old + operand_nodes (expression_of e.now)) }
{
    match e {
        Expression::Local(_) => Ok(exit),
        _ => into(graph, e, free + 1, free, exit),
    }
}

/// Makes the nodes that put the values of arguments into registers, in the order of the arguments.
pub fn operands(
    graph: &mut Graph,
    es: &[Expression],
    free: u32,
    exit: u32,
) -> Result<u32, AllocError>
    requires room { length graph.old + operands_nodes (expressions_of es.now) ≤ most_nodes }
    requires registers { free + 1 + operands_nodes (expressions_of es.now) < 2 ^ 32 }
    requires numbers { ExpressionsBelow most_variables (expressions_of es.now) }
    ensures made { IfOk result (λ entry. made_at entry graph.new ≡ operands (expressions_of es.now) free (made_at exit graph.old)) }
    ensures longer { OnOk result (length graph.new ≡ length graph.old + operands_nodes (expressions_of es.now)) }
{
    match es.split_first() {
        None => Ok(exit),
        Some((e, rest)) => {
            let next = operands(graph, rest, taken(e, free), exit)?;
            operand(graph, e, free, next)
        }
    }
}

/// Adds the register that holds each argument.
pub fn hold(held: &mut SmallVec<u32, 8>, es: &[Expression], free: u32) -> Result<(), AllocError>
    requires registers { free + 1 + operands_nodes (expressions_of es.now) < 2 ^ 32 }
    requires numbers { ExpressionsBelow most_variables (expressions_of es.now) }
    ensures { OnOk result (held.new.items ≡ held.old.items ++ registers (expressions_of es.now) free) }
{
    match es.split_first() {
        None => Ok(()),
        Some((e, rest)) => {
            held.push(register(e, free))?;
            hold(held, rest, taken(e, free))
        }
    }
}
