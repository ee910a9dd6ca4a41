// Branches: what a branch tests, chosen to cost least.
//
// A branch only asks whether a word is 0. So a comparison need not be turned into a word of 0 or 1 if another word is 0 in the
// same cases. A word that is 0 in exactly the other cases will also do, with the two branches exchanged.

ghost use Rattle.std.specs.Prelude.{◌≡◌, if◌then◌else◌, IfOk};
ghost use Rattle.cc_cminor_language.specs.Cminor as cminor;
ghost use Rattle.cc_cminor_language.specs.Code.{expression_of, statement_of};
ghost use Rattle.cc_cminor.specs.internal.Lowering.{is_nothing, is_constant, different, compared, is_opposite, condition, is_reversed, branch};

use cc_cminor_language::{Expression, Statement, boxed_expression, boxed_statement};
use cc_words::{Binary, Unary};
use std::alloc::{AllocError, Global};

fn is_nothing(expression: &Expression) -> bool
    ensures { result ≡ is_nothing (expression_of expression.now) }
{
    match expression {
        Expression::Constant(word) => *word == 0,
        Expression::Local(_)
        | Expression::Unary(_, _)
        | Expression::Binary(_, _, _)
        | Expression::Load(_, _, _) => false,
    }
}

// A word that is 0 exactly if two words are equal.
fn different(
    alloc: Global,
    left: Box<Expression>,
    right: Box<Expression>,
) -> Result<Box<Expression>, AllocError>
    ensures { IfOk result (λ e. expression_of e.value ≡ different (expression_of left.value) (expression_of right.value)) }
{
    if is_nothing(&right) {
        drop(right);
        return Ok(left);
    }
    boxed_expression(alloc, Expression::Binary(Binary::Xor, left, right))
}

fn is_constant(expression: &Expression) -> bool
    ensures { result ≡ is_constant (expression_of expression.now) }
{
    match expression {
        Expression::Constant(_) => true,
        Expression::Local(_)
        | Expression::Unary(_, _)
        | Expression::Binary(_, _, _)
        | Expression::Load(_, _, _) => false,
    }
}

// `<=`, which is the opposite of `<` with the operands exchanged. If the right operand is a constant, the comparison is left as
// it is.
fn at_most(
    alloc: Global,
    operator: Binary,
    less: Binary,
    left: Box<Expression>,
    right: Box<Expression>,
) -> Result<Box<Expression>, AllocError>
    ensures { IfOk result (λ e. expression_of e.value ≡ (if is_constant (expression_of right.value)
        then cminor.Binary operator (expression_of left.value) (expression_of right.value)
        else cminor.Binary less (expression_of right.value) (expression_of left.value))) }
{
    let expression = if is_constant(&right) {
        Expression::Binary(operator, left, right)
    } else {
        Expression::Binary(less, right, left)
    };
    boxed_expression(alloc, expression)
}

// What a branch on an operator's value tests.
fn compared(
    alloc: Global,
    operator: Binary,
    left: Box<Expression>,
    right: Box<Expression>,
) -> Result<Box<Expression>, AllocError>
    ensures { IfOk result (λ e. expression_of e.value ≡ compared operator (expression_of left.value) (expression_of right.value)) }
{
    match operator {
        Binary::LeS => at_most(alloc, Binary::LeS, Binary::LtS, left, right),
        Binary::LeU => at_most(alloc, Binary::LeU, Binary::LtU, left, right),
        Binary::Eq | Binary::Ne => different(alloc, left, right),
        _ => boxed_expression(alloc, Expression::Binary(operator, left, right)),
    }
}

// Whether the tested word is 0 exactly if the operator's value is not 0.
fn is_opposite(operator: Binary, right: &Expression) -> bool
    ensures { result ≡ is_opposite operator (expression_of right.now) }
{
    match operator {
        Binary::LeS | Binary::LeU => !is_constant(right),
        Binary::Eq => true,
        _ => false,
    }
}

// What a branch tests, and whether the tested word is 0 exactly if the value is not 0.
fn condition(alloc: Global, test: Box<Expression>) -> Result<(Box<Expression>, bool), AllocError>
    ensures condition { IfOk result (λ t. expression_of t.0.value ≡ condition (expression_of test.value)) }
    ensures reversed { IfOk result (λ t. t.1 ≡ is_reversed (expression_of test.value)) }
{
    match Box::into_inner(test) {
        Expression::Unary(Unary::IsZero, operand) => {
            let (condition, is_reversed) = condition(alloc, operand)?;
            Ok((condition, !is_reversed))
        }
        Expression::Binary(operator, left, right) => {
            let is_reversed = is_opposite(operator, &right);
            let condition = compared(alloc, operator, left, right)?;
            Ok((condition, is_reversed))
        }
        other => Ok((boxed_expression(alloc, other)?, false)),
    }
}

/// The branch that runs the first statement if a value is not 0, else the second.
pub fn branch(
    alloc: Global,
    test: Box<Expression>,
    nonzero: Box<Statement>,
    otherwise: Box<Statement>,
) -> Result<Box<Statement>, AllocError>
    ensures { IfOk result (λ s. statement_of s.value ≡ branch (expression_of test.value) (statement_of nonzero.value) (statement_of otherwise.value)) }
{
    let (condition, is_reversed) = condition(alloc, test)?;
    let statement = if is_reversed {
        Statement::If(condition, otherwise, nonzero)
    } else {
        Statement::If(condition, nonzero, otherwise)
    };
    boxed_statement(alloc, statement)
}
