// Boxed expressions and statements of Cminor.

ghost use Rattle.std.specs.Prelude.{◌≡◌, IfOk};
ghost use Rattle.cc_cminor_language.specs.Cminor as cminor;
ghost use Rattle.cc_cminor_language.specs.Code.{expression_of, statement_of, in_sequence};
ghost use Rattle.cc_cminor_language.specs.Statements.{statements_of};

use cc_cminor_language::{
    Expression, Statement, boxed_expression, boxed_statement, constant, local,
};
use cc_words::{Binary, Unary, Width};
use std::alloc::{AllocError, Global};

pub fn unary(
    alloc: Global,
    operator: Unary,
    operand: Box<Expression>,
) -> Result<Box<Expression>, AllocError>
    ensures { IfOk result (λ e. expression_of e.value ≡ cminor.Unary operator (expression_of operand.value)) }
{
    boxed_expression(alloc, Expression::Unary(operator, operand))
}

pub fn binary(
    alloc: Global,
    operator: Binary,
    left: Box<Expression>,
    right: Box<Expression>,
) -> Result<Box<Expression>, AllocError>
    ensures { IfOk result (λ e. expression_of e.value ≡ cminor.Binary operator (expression_of left.value) (expression_of right.value)) }
{
    boxed_expression(alloc, Expression::Binary(operator, left, right))
}

pub fn load(
    alloc: Global,
    width: Width,
    object: usize,
    index: Box<Expression>,
) -> Result<Box<Expression>, AllocError>
    ensures { IfOk result (λ e. expression_of e.value ≡ cminor.Load width object (expression_of index.value)) }
{
    boxed_expression(alloc, Expression::Load(width, object, index))
}

/// Copies an expression.
pub fn copied(alloc: Global, e: &Expression) -> Result<Box<Expression>, AllocError>
    ensures { IfOk result (λ copy. expression_of copy.value ≡ expression_of e.now) }
{
    match e {
        Expression::Constant(word) => constant(alloc, *word),
        Expression::Local(variable) => local(alloc, *variable),
        Expression::Unary(operator, a) => {
            let a = copied(alloc, a)?;
            unary(alloc, *operator, a)
        }
        Expression::Binary(operator, a, b) => {
            let a = copied(alloc, a)?;
            let b = copied(alloc, b)?;
            binary(alloc, *operator, a, b)
        }
        Expression::Load(width, object, i) => {
            let i = copied(alloc, i)?;
            load(alloc, *width, *object, i)
        }
    }
}

/// A statement that runs these statements one after another.
pub fn sequence(alloc: Global, all: Vec<Statement>) -> Result<Box<Statement>, AllocError>
    ensures { IfOk result (λ s. statement_of s.value ≡ in_sequence (statements_of all.items)) }
{
    boxed_statement(alloc, Statement::Sequence(all))
}
