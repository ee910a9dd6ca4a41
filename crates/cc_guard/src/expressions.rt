// Expressions with their guards: inner parts come first, and left ones before right ones.
//
// The recursion is as deep as the expression, which has at most 512 tokens of the source.

ghost use Rattle.std.specs.Prelude.{◌≡◌, ◌++◌, IfOk, OnOk};
ghost use Rattle.cc_cminor_language.specs.Cminor as cminor;
ghost use Rattle.cc_cminor_language.specs.Code.{expression_of, expressions_of};
ghost use Rattle.cc_guard.specs.Guard.{asked, reads_left, waiting, waiting_if, indexed, guarded, guarded_all};
ghost use Rattle.cc_guard.specs.internal.Written.{Adds, AddsAll, here, sizes_of};

use crate::boxes::{binary, load, unary};
use crate::guards::{Guards, add_asked, bounded, waiting};
use crate::known::{always, is_below, most};
use crate::sizes::{ObjectSize, elements_in};
use cc_cminor_language::{Expression, constant, local};
use cc_words::{Binary, Width};
use std::alloc::{AllocError, Global};

fn reads_left(operator: Binary) -> bool
    ensures { result ≡ reads_left operator }
{
    matches!(operator, Binary::DivS | Binary::RemS)
}

fn waiting_if(
    alloc: Global,
    blocks: usize,
    guards: &mut Guards,
    waits: bool,
    value: Box<Expression>,
) -> Result<Box<Expression>, AllocError>
    ensures value { IfOk result (λ v. expression_of v.value ≡ (waiting_if waits (here guards.old (expression_of value.value))).value) }
    ensures adds { OnOk result (AddsAll blocks (waiting_if waits (here guards.old (expression_of value.value))) guards.old guards.new) }
{
    if waits {
        waiting(alloc, blocks, guards, value)
    } else {
        Ok(value)
    }
}

// An operation that can lack a value, after its own guards. Its right operand is first put into a variable, unless it
// already is a constant or a variable.
fn tested(
    alloc: Global,
    blocks: usize,
    guards: &mut Guards,
    operator: Binary,
    a: Box<Expression>,
    b: Box<Expression>,
) -> Result<Box<Expression>, AllocError>
    ensures value { IfOk result (λ v. expression_of v.value ≡ cminor.Binary operator (expression_of a.value) (waiting (here guards.old (expression_of b.value))).value) }
    ensures adds { OnOk result (Adds blocks ((waiting (here guards.old (expression_of b.value))).before ++ asked operator (expression_of a.value) (waiting (here guards.old (expression_of b.value))).value) (waiting (here guards.old (expression_of b.value))).next (waiting (here guards.old (expression_of b.value))).known guards.old guards.new) }
{
    let b = waiting(alloc, blocks, guards, b)?;
    add_asked(alloc, blocks, guards, operator, &a, &b)?;
    binary(alloc, operator, a, b)
}

/// An index into an object; a guard tests that it lies in the object, unless that is evident.
#[cycle(expressions)]
pub fn index(
    alloc: Global,
    sizes: &[ObjectSize],
    blocks: usize,
    guards: &mut Guards,
    width: Width,
    object: usize,
    i: &Expression,
) -> Result<Box<Expression>, AllocError>
    ensures value { IfOk result (λ v. expression_of v.value ≡ (indexed (sizes_of sizes.now) guards.old.known.items width object (expression_of i.now) (guarded (sizes_of sizes.now) guards.old.known.items guards.old.next (expression_of i.now))).value) }
    ensures adds { OnOk result (AddsAll blocks (indexed (sizes_of sizes.now) guards.old.known.items width object (expression_of i.now) (guarded (sizes_of sizes.now) guards.old.known.items guards.old.next (expression_of i.now))) guards.old guards.new) }
{
    let count = elements_in(sizes, width, object);
    let is_evident = is_below(most(guards.known.as_slice(), i), count);
    let value = expression(alloc, sizes, blocks, guards, i)?;
    if is_evident {
        return Ok(value);
    }
    let value = waiting(alloc, blocks, guards, value)?;
    bounded(alloc, blocks, guards, &value, count)?;
    Ok(value)
}

/// Writes the guards of an expression, and returns the expression that follows them.
#[cycle(expressions)]
pub fn expression(
    alloc: Global,
    sizes: &[ObjectSize],
    blocks: usize,
    guards: &mut Guards,
    e: &Expression,
) -> Result<Box<Expression>, AllocError>
    ensures value { IfOk result (λ v. expression_of v.value ≡ (guarded (sizes_of sizes.now) guards.old.known.items guards.old.next (expression_of e.now)).value) }
    ensures adds { OnOk result (AddsAll blocks (guarded (sizes_of sizes.now) guards.old.known.items guards.old.next (expression_of e.now)) guards.old guards.new) }
{
    match e {
        Expression::Constant(word) => constant(alloc, *word),
        Expression::Local(variable) => local(alloc, *variable),
        Expression::Unary(operator, a) => {
            let a = expression(alloc, sizes, blocks, guards, a)?;
            unary(alloc, *operator, a)
        }
        Expression::Binary(operator, a, b) => {
            let a = expression(alloc, sizes, blocks, guards, a)?;
            if always(guards.known.as_slice(), *operator, b) {
                let b = expression(alloc, sizes, blocks, guards, b)?;
                binary(alloc, *operator, a, b)
            } else {
                let a = waiting_if(alloc, blocks, guards, reads_left(*operator), a)?;
                let b = expression(alloc, sizes, blocks, guards, b)?;
                tested(alloc, blocks, guards, *operator, a, b)
            }
        }
        Expression::Load(width, object, i) => {
            let i = index(alloc, sizes, blocks, guards, *width, *object, i)?;
            load(alloc, *width, *object, i)
        }
    }
}

/// Writes the guards of the arguments of a call, and returns the arguments that follow them.
pub fn expressions(
    alloc: Global,
    sizes: &[ObjectSize],
    blocks: usize,
    guards: &mut Guards,
    es: &[Expression],
) -> Result<Vec<Expression>, AllocError>
    ensures values { IfOk result (λ vs. expressions_of vs.items ≡ (guarded_all (sizes_of sizes.now) guards.old.known.items guards.old.next (expressions_of es.now)).values) }
    ensures adds { OnOk result (Adds blocks (guarded_all (sizes_of sizes.now) guards.old.known.items guards.old.next (expressions_of es.now)).before (guarded_all (sizes_of sizes.now) guards.old.known.items guards.old.next (expressions_of es.now)).next (guarded_all (sizes_of sizes.now) guards.old.known.items guards.old.next (expressions_of es.now)).known guards.old guards.new) }
{
    let mut all = Vec::new(alloc);
    for e in es {
        let value = expression(alloc, sizes, blocks, guards, e)?;
        all.push(Box::into_inner(value))?;
    }
    Ok(all)
}
