// Statements and expressions of Cminor in boxes.

ghost use Rattle.std.specs.Prelude.{◌≡◌, ◌+◌, IfOk};
ghost use Rattle.cc_cminor_language.specs.Cminor as cminor;
ghost use Rattle.cc_cminor_language.specs.Code.{expression_of, statement_of, in_sequence};
ghost use Rattle.cc_cminor_language.specs.Statements.{statements_of};

use super::code::{Expression, Statement};
use std::alloc::{AllocError, Global};

/// The variable that is `count` above another. Each variable holds a value of the tree, so memory runs out long before numbers do.
pub fn above(variable: usize, count: usize) -> Result<usize, AllocError>
    ensures { IfOk result (λ n. n ≡ variable + count) }
{
    match variable.checked_add(count) {
        Some(sum) => Ok(sum),
        None => Err(AllocError),
    }
}

/// An expression in a box.
pub fn boxed_expression(
    alloc: Global,
    expression: Expression,
) -> Result<Box<Expression>, AllocError>
    ensures { IfOk result (λ e. e.value ≡ expression) }
{
    Ok(Box::new(alloc, expression)?)
}

/// A statement in a box.
pub fn boxed_statement(alloc: Global, statement: Statement) -> Result<Box<Statement>, AllocError>
    ensures { IfOk result (λ s. s.value ≡ statement) }
{
    Ok(Box::new(alloc, statement)?)
}

/// The expression for a word.
pub fn constant(alloc: Global, word: u32) -> Result<Box<Expression>, AllocError>
    ensures { IfOk result (λ e. expression_of e.value ≡ cminor.Constant word) }
{
    boxed_expression(alloc, Expression::Constant(word))
}

/// The value of a variable.
pub fn local(alloc: Global, variable: usize) -> Result<Box<Expression>, AllocError>
    ensures { IfOk result (λ e. expression_of e.value ≡ cminor.Local variable) }
{
    boxed_expression(alloc, Expression::Local(variable))
}

/// A statement that puts a value into a variable.
pub fn set(
    alloc: Global,
    variable: usize,
    value: Box<Expression>,
) -> Result<Box<Statement>, AllocError>
    ensures { IfOk result (λ s. statement_of s.value ≡ cminor.Set variable (expression_of value.value)) }
{
    boxed_statement(alloc, Statement::Set(variable, value))
}

/// A statement that runs two statements one after the other.
pub fn both(
    alloc: Global,
    first: Box<Statement>,
    second: Box<Statement>,
) -> Result<Box<Statement>, AllocError>
    ensures { IfOk result (λ s. statement_of s.value ≡ cminor.Sequence (statement_of first.value) (statement_of second.value)) }
{
    let mut all = Vec::new(alloc);
    all.push(Box::into_inner(first))?;
    all.push(Box::into_inner(second))?;
    boxed_statement(alloc, Statement::Sequence(all))
}

/// A statement that runs these statements one after another.
pub fn sequence(alloc: Global, all: Vec<Statement>) -> Result<Box<Statement>, AllocError>
    ensures { IfOk result (λ s. statement_of s.value ≡ in_sequence (statements_of all.items)) }
{
    boxed_statement(alloc, Statement::Sequence(all))
}
