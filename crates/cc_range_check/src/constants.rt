// The constants of code are words. This is known about a constant once it is read, so these walks read every constant; they
// change nothing.
//
// The recursion is as deep as the tree, like that of `statements`.

ghost use Rattle.cc_cminor_language.specs.Code.{expression_of, expressions_of, statement_of, in_sequence};
ghost use Rattle.cc_cminor_language.specs.Statements.{statements_of};
ghost use Rattle.cc_guard.specs.Safe.{ConstantsFit, AllConstantsFit, CodeConstantsFit};

use cc_cminor_language::{Expression, Statement};

fn expression_fits(e: &Expression)
    ensures { ConstantsFit (expression_of e.now) }
{
    match e {
        Expression::Constant(word) => {
            let _word = *word;
        }
        Expression::Local(_) => {}
        Expression::Unary(_, a) => expression_fits(a),
        Expression::Binary(_, a, b) => {
            expression_fits(a);
            expression_fits(b);
        }
        Expression::Load(_, _, i) => expression_fits(i),
    }
}

fn expressions_fit(es: &[Expression])
    ensures { AllConstantsFit (expressions_of es.now) }
{
    for e in es {
        expression_fits(e);
    }
}

/// Reads each constant of a statement.
#[cycle(constants)]
pub fn constants_fit(s: &Statement)
    ensures { CodeConstantsFit (statement_of s.now) }
{
    match s {
        Statement::Skip | Statement::Read(_) | Statement::Exit(_) => {}
        Statement::Set(_, e) => expression_fits(e),
        Statement::Store(_, _, i, e) => {
            expression_fits(i);
            expression_fits(e);
        }
        Statement::Call(_, _, es) => expressions_fit(es.as_slice()),
        Statement::Write(e) => expression_fits(e),
        Statement::Sequence(all) => all_fit(all.as_slice()),
        Statement::If(e, nonzero, otherwise) => {
            expression_fits(e);
            constants_fit(nonzero);
            constants_fit(otherwise);
        }
        Statement::Loop(body) => constants_fit(body),
        Statement::Block(body) => constants_fit(body),
        Statement::Return(e) => expression_fits(e),
    }
}

#[cycle(constants)]
fn all_fit(all: &[Statement])
    ensures { CodeConstantsFit (in_sequence (statements_of all.now)) }
{
    for s in all {
        constants_fit(s);
    }
}
