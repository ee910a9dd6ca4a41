// How many variables code uses.

ghost use Rattle.std.specs.Prelude.{◌≡◌, ◌<◌, ◌≤◌};
ghost use Rattle.cc_cminor_language.specs.Code.{expression_of, expressions_of, statement_of, in_sequence};
ghost use Rattle.cc_cminor_language.specs.Statements.{statements_of};
ghost use Rattle.cc_cminor_language.specs.Numbers.{most_variables, ResultBelow, ExpressionBelow, ExpressionsBelow, StatementFits};
ghost use Rattle.cc_cminor_language.specs.Variables.{above, above_result, above_expression, above_expressions, above_statement};

use super::code::{Expression, Statement};

// The count, or the number after the variable if that is larger.
fn with_variable(count: u32, variable: usize) -> u32
    requires number { variable < most_variables }
    requires count { count ≤ most_variables }
    ensures counted { result ≡ above count variable }
    ensures few { result ≤ most_variables }
{
    let variable = variable as u32;
    if count <= variable {
        variable + 1
    } else {
        count
    }
}

fn with_result(count: u32, to: Option<usize>) -> u32
    requires number { ResultBelow most_variables to }
    requires count { count ≤ most_variables }
    ensures counted { result ≡ above_result count to }
    ensures few { result ≤ most_variables }
{
    match to {
        Some(variable) => with_variable(count, variable),
        None => count,
    }
}

fn with_expression(count: u32, e: &Expression) -> u32
    requires numbers { ExpressionBelow most_variables (expression_of e.now) }
    requires count { count ≤ most_variables }
    ensures counted { result ≡ above_expression count (expression_of e.now) }
    ensures few { result ≤ most_variables }
{
    match e {
        Expression::Constant(_) => count,
        Expression::Local(variable) => with_variable(count, *variable),
        Expression::Unary(_, a) => with_expression(count, a),
        Expression::Binary(_, a, b) => with_expression(with_expression(count, a), b),
        Expression::Load(_, _, a) => with_expression(count, a),
    }
}

fn with_expressions(count: u32, es: &[Expression]) -> u32
    requires numbers { ExpressionsBelow most_variables (expressions_of es.now) }
    requires count { count ≤ most_variables }
    ensures counted { result ≡ above_expressions count (expressions_of es.now) }
    ensures few { result ≤ most_variables }
{
    let mut all = count;
    for e in es {
        all = with_expression(all, e);
    }
    all
}

/// The least number that is at least `count` and above each variable that a statement reads or sets.
#[cycle(statements)]
#[tactic(auto, using(crate::proofs::Counting::above_list))]
pub fn variables_above(count: u32, s: &Statement) -> u32
    requires numbers { StatementFits (statement_of s.now) }
    requires count { count ≤ most_variables }
    ensures counted { result ≡ above_statement count (statement_of s.now) }
    ensures few { result ≤ most_variables }
{
    match s {
        Statement::Skip | Statement::Exit(_) => count,
        Statement::Set(variable, e) => with_expression(with_variable(count, *variable), e),
        Statement::Store(_, _, i, e) => with_expression(with_expression(count, i), e),
        Statement::Call(to, _, es) => with_expressions(with_result(count, *to), es.as_slice()),
        Statement::Read(to) => with_result(count, *to),
        Statement::Write(e) => with_expression(count, e),
        Statement::Sequence(all) => all_above(count, all.as_slice()),
        Statement::If(e, a, b) => {
            let count = with_expression(count, e);
            variables_above(variables_above(count, a), b)
        }
        Statement::Loop(a) => variables_above(count, a),
        Statement::Block(a) => variables_above(count, a),
        Statement::Return(e) => with_expression(count, e),
    }
}

#[cycle(statements)]
fn all_above(count: u32, all: &[Statement]) -> u32
    requires numbers { StatementFits (in_sequence (statements_of all.now)) }
    requires count { count ≤ most_variables }
    ensures counted { result ≡ above_statement count (in_sequence (statements_of all.now)) }
    ensures few { result ≤ most_variables }
{
    let mut counted = count;
    for s in all {
        counted = variables_above(counted, s);
    }
    counted
}
