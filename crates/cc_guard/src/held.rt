// Constants that conditions compare with, held in variables: each chosen word is put into a variable once, before the code, and
// conditions read it there.
//
// A branch that compares two registers is one instruction; a branch that compares a register with a constant is two. So the test
// in a loop costs half as much.

ghost use Rattle.std.specs.Prelude.{◌≡◌, IfOk};
ghost use Rattle.cc_cminor_language.specs.Code.{expression_of, expressions_of, statement_of, in_sequence};
ghost use Rattle.cc_cminor_language.specs.Statements.{statements_of};
ghost use Rattle.cc_cminor_language.specs.Numbers.{StatementFits};
ghost use Rattle.cc_guard.specs.Held.{held_word, held_operand, held_test, held_in, with_words, IsHeld};

use crate::boxes::{binary, copied, sequence};
use crate::wanted::wanted_words;
use cc_cminor_language::{
    Expression, Statement, boxed_statement, constant, local, variables_above,
};
use std::alloc::{AllocError, Global};

/// The greatest number of variables that code may have.
pub const MOST_VARIABLES: usize = 2048;

// A constant, or the variable that holds its word.
fn held_word(
    alloc: Global,
    words: &[u32],
    first: usize,
    word: u32,
) -> Result<Box<Expression>, AllocError>
    ensures { IfOk result (λ e. expression_of e.value ≡ held_word words.now first word) }
{
    let mut variable = first;
    for held in words {
        if *held == word {
            return local(alloc, variable);
        }
        let Some(next) = variable.checked_add(1) else {
            return Err(AllocError);
        };
        variable = next;
    }
    constant(alloc, word)
}

fn held_operand(
    alloc: Global,
    words: &[u32],
    first: usize,
    e: &Expression,
) -> Result<Box<Expression>, AllocError>
    ensures { IfOk result (λ made. expression_of made.value ≡ held_operand words.now first (expression_of e.now)) }
{
    match e {
        Expression::Constant(word) => held_word(alloc, words, first, *word),
        Expression::Local(_)
        | Expression::Unary(_, _)
        | Expression::Binary(_, _, _)
        | Expression::Load(_, _, _) => copied(alloc, e),
    }
}

fn held_test(
    alloc: Global,
    words: &[u32],
    first: usize,
    e: &Expression,
) -> Result<Box<Expression>, AllocError>
    ensures { IfOk result (λ made. expression_of made.value ≡ held_test words.now first (expression_of e.now)) }
{
    match e {
        Expression::Binary(operator, a, b) => {
            let a = held_operand(alloc, words, first, a)?;
            let b = held_operand(alloc, words, first, b)?;
            binary(alloc, *operator, a, b)
        }
        Expression::Constant(_)
        | Expression::Local(_)
        | Expression::Unary(_, _)
        | Expression::Load(_, _, _) => copied(alloc, e),
    }
}

fn all_copied(alloc: Global, es: &[Expression]) -> Result<Vec<Expression>, AllocError>
    ensures { IfOk result (λ copies. expressions_of copies.items ≡ expressions_of es.now) }
{
    let mut copies = Vec::new(alloc);
    for e in es {
        let copy = copied(alloc, e)?;
        copies.push(Box::into_inner(copy))?;
    }
    Ok(copies)
}

// Copies a statement that has no statements in it.
fn copied_statement(alloc: Global, s: &Statement) -> Result<Box<Statement>, AllocError>
    ensures { IfOk result (λ made. statement_of made.value ≡ statement_of s.now) }
{
    let copy = match s {
        Statement::Set(variable, e) => Statement::Set(*variable, copied(alloc, e)?),
        Statement::Store(width, object, i, e) => {
            let i = copied(alloc, i)?;
            let e = copied(alloc, e)?;
            Statement::Store(*width, *object, i, e)
        }
        Statement::Call(to, function, es) => {
            Statement::Call(*to, *function, all_copied(alloc, es.as_slice())?)
        }
        Statement::Read(to) => Statement::Read(*to),
        Statement::Write(e) => Statement::Write(copied(alloc, e)?),
        Statement::Exit(k) => Statement::Exit(*k),
        Statement::Return(e) => Statement::Return(copied(alloc, e)?),
        Statement::Skip => Statement::Skip,
        Statement::Sequence(_)
        | Statement::If(_, _, _)
        | Statement::Loop(_)
        | Statement::Block(_) => return Err(AllocError),
    };
    boxed_statement(alloc, copy)
}

// A copy of the statement whose conditions read the words from variables, numbered from `first` on.
#[cycle(holding)]
fn held_in(
    alloc: Global,
    words: &[u32],
    first: usize,
    s: &Statement,
) -> Result<Box<Statement>, AllocError>
    ensures { IfOk result (λ made. statement_of made.value ≡ held_in words.now first (statement_of s.now)) }
{
    match s {
        Statement::Sequence(all) => held_all(alloc, words, first, all.as_slice()),
        Statement::If(e, nonzero, otherwise) => {
            let test = held_test(alloc, words, first, e)?;
            let nonzero = held_in(alloc, words, first, nonzero)?;
            let otherwise = held_in(alloc, words, first, otherwise)?;
            boxed_statement(alloc, Statement::If(test, nonzero, otherwise))
        }
        Statement::Loop(body) => {
            let body = held_in(alloc, words, first, body)?;
            boxed_statement(alloc, Statement::Loop(body))
        }
        Statement::Block(body) => {
            let body = held_in(alloc, words, first, body)?;
            boxed_statement(alloc, Statement::Block(body))
        }
        Statement::Skip
        | Statement::Set(_, _)
        | Statement::Store(_, _, _, _)
        | Statement::Call(_, _, _)
        | Statement::Read(_)
        | Statement::Write(_)
        | Statement::Exit(_)
        | Statement::Return(_) => copied_statement(alloc, s),
    }
}

#[cycle(holding)]
fn held_all(
    alloc: Global,
    words: &[u32],
    first: usize,
    all: &[Statement],
) -> Result<Box<Statement>, AllocError>
    ensures { IfOk result (λ made. statement_of made.value ≡ held_in words.now first (in_sequence (statements_of all.now))) }
{
    let mut made = Vec::new(alloc);
    for s in all {
        let one = held_in(alloc, words, first, s)?;
        made.push(Box::into_inner(one))?;
    }
    sequence(alloc, made)
}

// Puts each word into its variable, then runs the statement, whose conditions read the words there.
fn with_words(
    alloc: Global,
    words: &[u32],
    first: usize,
    s: &Statement,
) -> Result<Box<Statement>, AllocError>
    ensures { IfOk result (λ made. statement_of made.value ≡ with_words words.now first (statement_of s.now)) }
{
    let mut all = Vec::new(alloc);
    let mut variable = first;
    for word in words {
        let value = constant(alloc, *word)?;
        all.push(Statement::Set(variable, value))?;
        let Some(next) = variable.checked_add(1) else {
            return Err(AllocError);
        };
        variable = next;
    }
    let code = held_in(alloc, words, first, s)?;
    all.push(Box::into_inner(code))?;
    sequence(alloc, all)
}

/// Code whose conditions read some of their constants from variables, if that makes the code faster and the limit on variables
/// allows it. Otherwise the code stays as it was.
pub fn held(alloc: Global, code: Box<Statement>) -> Result<Box<Statement>, AllocError>
    requires { StatementFits (statement_of code.value) }
    ensures { IfOk result (λ made. IsHeld (statement_of code.value) (statement_of made.value)) }
{
    let words = wanted_words(alloc, &code)?;
    let first = variables_above(0, &code) as usize;
    if words.is_empty() || first + words.len() > MOST_VARIABLES {
        return Ok(code);
    }
    let made = with_words(alloc, words.as_slice(), first, &code)?;
    drop(code);
    Ok(made)
}
