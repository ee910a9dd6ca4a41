// How many nodes a body needs. They are counted before any node is made: a body is refused exactly if it needs too many.

ghost use Rattle.std.specs.Prelude.{◌≡◌, ◌+◌, ◌<◌, ◌≤◌, IsTrue, IsFalse, MatchOption};
ghost use Rattle.cc_cminor_language.specs.Code.{expression_of, expressions_of, statement_of, in_sequence};
ghost use Rattle.cc_cminor_language.specs.Statements.{statements_of};
ghost use Rattle.cc_rtl_language.specs.Rtl.{most_nodes};
ghost use Rattle.cc_rtl.specs.Size.{into_nodes, operand_nodes, operands_nodes, statement_nodes, function_nodes};

use cc_cminor_language::{Expression, Statement};

// How much room for nodes is left after those that put an expression into a register; `None` if they do not fit.
#[cycle(values)]
fn room_behind(e: &Expression, room: u32) -> Option<u32>
    ensures { MatchOption result (room < into_nodes (expression_of e.now)) (λ left. left + into_nodes (expression_of e.now) ≡ room) }
{
    if room == 0 {
        return None;
    }
    match e {
        Expression::Constant(_) | Expression::Local(_) => Some(room - 1),
        Expression::Unary(_, a) => room_behind_operand(a, room - 1),
        Expression::Load(_, _, a) => room_behind_operand(a, room - 1),
        Expression::Binary(_, a, b) => {
            let left = room_behind_operand(a, room - 1)?;
            room_behind_operand(b, left)
        }
    }
}

// How much room is left after the nodes of an operand; a variable needs none.
#[cycle(values)]
fn room_behind_operand(e: &Expression, room: u32) -> Option<u32>
    ensures { MatchOption result (room < operand_nodes (expression_of e.now)) (λ left. left + operand_nodes (expression_of e.now) ≡ room) }
{
    match e {
        Expression::Local(_) => Some(room),
        _ => room_behind(e, room),
    }
}

// How much room is left after the nodes of operands.
fn room_behind_operands(es: &[Expression], room: u32) -> Option<u32>
    ensures { MatchOption result (room < operands_nodes (expressions_of es.now)) (λ left. left + operands_nodes (expressions_of es.now) ≡ room) }
{
    let mut left = room;
    for e in es {
        left = room_behind_operand(e, left)?;
    }
    Some(left)
}

// How much room is left after a node with one operand. The next function does the same for two operands.
fn room_behind_one(e: &Expression, room: u32) -> Option<u32>
    ensures { MatchOption result (room < 1 + operand_nodes (expression_of e.now)) (λ left. left + (1 + operand_nodes (expression_of e.now)) ≡ room) }
{
    if room == 0 {
        return None;
    }
    room_behind_operand(e, room - 1)
}

fn room_behind_two(a: &Expression, b: &Expression, room: u32) -> Option<u32>
    ensures { MatchOption result (room < 1 + (operand_nodes (expression_of a.now) + operand_nodes (expression_of b.now))) (λ left. left + (1 + (operand_nodes (expression_of a.now) + operand_nodes (expression_of b.now))) ≡ room) }
{
    let left = room_behind_one(a, room)?;
    room_behind_operand(b, left)
}

// How much room is left after the nodes of a statement.
#[cycle(statements)]
#[tactic(auto, using(crate::proofs::Sizes::sequence_is))]
fn room_behind_statement(s: &Statement, room: u32) -> Option<u32>
    ensures { MatchOption result (room < statement_nodes (statement_of s.now)) (λ left. left + statement_nodes (statement_of s.now) ≡ room) }
{
    match s {
        Statement::Skip | Statement::Exit(_) => Some(room),
        Statement::Set(_, e) => room_behind(e, room),
        Statement::Store(_, _, i, e) => room_behind_two(i, e, room),
        Statement::Call(_, _, es) => room_behind_operands(es.as_slice(), room.checked_sub(1)?),
        Statement::Read(_) => room.checked_sub(1),
        Statement::Write(e) => room_behind_one(e, room),
        Statement::Sequence(all) => room_behind_statements(all.as_slice(), room),
        Statement::If(e, a, b) => {
            let left = room_behind_one(e, room)?;
            let left = room_behind_statement(a, left)?;
            room_behind_statement(b, left)
        }
        Statement::Loop(a) => room_behind_statement(a, room.checked_sub(1)?),
        Statement::Block(a) => room_behind_statement(a, room),
        Statement::Return(e) => room_behind_one(e, room),
    }
}

// How much room is left after the nodes of statements, one after another.
#[cycle(statements)]
fn room_behind_statements(all: &[Statement], room: u32) -> Option<u32>
    ensures { MatchOption result (room < statement_nodes (in_sequence (statements_of all.now))) (λ left. left + statement_nodes (in_sequence (statements_of all.now)) ≡ room) }
{
    let mut left = room;
    for s in all {
        left = room_behind_statement(s, left)?;
    }
    Some(left)
}

// A body has at most this many nodes. Every function has three more: the entry's, and the constant and the return after the body.
const MOST_IN_BODY: u32 = 4093;

/// Whether the function with this body has at most 4,096 nodes.
pub fn fits(body: &Statement) -> bool
    ensures small { IsTrue result → function_nodes (statement_of body.now) ≤ most_nodes }
    ensures large { IsFalse result → most_nodes < function_nodes (statement_of body.now) }
{
    room_behind_statement(body, MOST_IN_BODY).is_some()
}
