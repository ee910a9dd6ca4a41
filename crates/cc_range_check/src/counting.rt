// How many loops and blocks, and how many operations that can lack a value, a statement has that is never reached.
//
// The recursion is as deep as the tree, like that of `statements`.

ghost use Rattle.std.specs.Prelude.{◌≡◌, ◌+◌, IfOk, OnOk};
ghost use Rattle.cc_cminor_language.specs.Code.{expression_of, expressions_of, statement_of, in_sequence};
ghost use Rattle.cc_cminor_language.specs.Statements.{statements_of};
ghost use Rattle.cc_range_table.specs.Inductive.{places};
ghost use Rattle.cc_range_check.specs.Places.{operations_of, operations_of_all, operations_in};
ghost use Rattle.cc_range_check.specs.internal.Walked.{Skips};

use crate::places::{Found, counted};
use crate::walk::Walk;
use cc_cminor_language::{Expression, Statement, above};
use std::alloc::AllocError;

/// The number of an operation, and the place of a loop or block.
#[derive(Clone, Copy)]
struct Numbers {
    place: usize,
    operation: usize,
}

// The number of the operation after those of an expression.
fn after_expression(first: usize, e: &Expression) -> Result<usize, AllocError>
    ensures { IfOk result (λ n. n ≡ first + operations_of (expression_of e.now)) }
{
    match e {
        Expression::Constant(_) | Expression::Local(_) => Ok(first),
        Expression::Unary(_, a) => after_expression(first, a),
        Expression::Binary(operator, a, b) => {
            let behind = after_expression(first, a)?;
            let behind = after_expression(behind, b)?;
            above(behind, counted(*operator))
        }
        Expression::Load(_, _, i) => above(after_expression(first, i)?, 1),
    }
}

fn after_expressions(first: usize, es: &[Expression]) -> Result<usize, AllocError>
    ensures { IfOk result (λ n. n ≡ first + operations_of_all (expressions_of es.now)) }
{
    let mut next = first;
    for e in es {
        next = after_expression(next, e)?;
    }
    Ok(next)
}

// The numbers after an expression of a statement.
fn with_expression(first: Numbers, e: &Expression) -> Result<Numbers, AllocError>
    ensures place { IfOk result (λ n. n.place ≡ first.place) }
    ensures operation { IfOk result (λ n. n.operation ≡ first.operation + operations_of (expression_of e.now)) }
{
    Ok(Numbers {
        place: first.place,
        operation: after_expression(first.operation, e)?,
    })
}

// The numbers after a statement.
#[cycle(counting)]
fn after(first: Numbers, s: &Statement) -> Result<Numbers, AllocError>
    ensures place { IfOk result (λ n. n.place ≡ first.place + places (statement_of s.now)) }
    ensures operation { IfOk result (λ n. n.operation ≡ first.operation + operations_in (statement_of s.now)) }
{
    match s {
        Statement::Skip | Statement::Read(_) | Statement::Exit(_) => Ok(first),
        Statement::Set(_, e) => with_expression(first, e),
        Statement::Store(_, _, i, e) => {
            let index = with_expression(first, i)?;
            let behind = Numbers {
                place: index.place,
                operation: above(index.operation, 1)?,
            };
            with_expression(behind, e)
        }
        Statement::Call(_, _, es) => Ok(Numbers {
            place: first.place,
            operation: after_expressions(first.operation, es.as_slice())?,
        }),
        Statement::Write(e) | Statement::Return(e) => with_expression(first, e),
        Statement::Sequence(all) => after_all(first, all.as_slice()),
        Statement::If(e, nonzero, otherwise) => {
            let tested = with_expression(first, e)?;
            let behind = after(tested, nonzero)?;
            after(behind, otherwise)
        }
        Statement::Loop(body) | Statement::Block(body) => {
            let inside = Numbers {
                place: above(first.place, 1)?,
                operation: first.operation,
            };
            after(inside, body)
        }
    }
}

#[cycle(counting)]
fn after_all(first: Numbers, all: &[Statement]) -> Result<Numbers, AllocError>
    ensures place { IfOk result (λ n. n.place ≡ first.place + places (in_sequence (statements_of all.now))) }
    ensures operation { IfOk result (λ n. n.operation ≡ first.operation + operations_in (in_sequence (statements_of all.now))) }
{
    let mut next = first;
    for s in all {
        next = after(next, s)?;
    }
    Ok(next)
}

/// Skips a statement that is never reached.
pub(crate) fn skip(walk: &mut Walk, found: &mut Found, s: &Statement) -> Result<(), AllocError>
    ensures { OnOk result (Skips (statement_of s.now) walk.old walk.new found.old found.new) }
{
    let behind = after(
        Numbers {
            place: walk.place,
            operation: found.operation,
        },
        s,
    )?;
    walk.place = behind.place;
    found.operation = behind.operation;
    Ok(())
}
