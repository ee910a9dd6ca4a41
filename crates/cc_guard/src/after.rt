// The bounds known for variables after a statement. No code is written: the guards of the statement's expressions are made
// again, only to find which bounds are known after them.
//
// Loops are not entered, since control never reaches the end of a loop. After a block from which an exit leaves just that block,
// nothing is known about the variables that the block sets. The bounds known at a loop's head are found in four turns; the last
// turn verifies them. So a statement is walked four more times for the innermost loop that it is in, but not again for the loops
// around that one.

ghost use Rattle.std.specs.Prelude.{◌≡◌, IfOk};
ghost use Rattle.cc_cminor_language.specs.Cminor as cminor;
ghost use Rattle.cc_cminor_language.specs.Code.{expression_of, expressions_of, statement_of, in_sequence};
ghost use Rattle.cc_cminor_language.specs.Statements.{statements_of};
ghost use Rattle.cc_guard.specs.Guard.{guarded, guarded_all, first_index, stored_word, told, with_told, kept, sets, met, falls, known_after, turn, narrowed, found, head};
ghost use Rattle.cc_guard.specs.internal.Written.{sizes_of};

use crate::changed::{add_told, falls, kept, kept_but, kept_set, leaves, set_to};
use crate::expressions::{expression, expressions, index};
use crate::guards::{Guards, begun};
use crate::heads::{all_again, joined, met_both, still, together, widened};
use crate::known::{Limit, most, told};
use crate::sizes::ObjectSize;
use cc_cminor_language::{Expression, Statement};
use cc_words::Width;
use std::alloc::{AllocError, Global};

// The bounds known after the guards.
fn left_known(guards: Guards) -> Vec<Limit>
    ensures { result.items ≡ guards.known.items }
{
    let Guards {
        before,
        next: _,
        known,
    } = guards;
    drop(before);
    known
}

fn after_value(
    alloc: Global,
    sizes: &[ObjectSize],
    first: usize,
    known: &[Limit],
    e: &Expression,
) -> Result<Vec<Limit>, AllocError>
    ensures { IfOk result (λ limits. limits.items ≡ (guarded (sizes_of sizes.now) known.now first (expression_of e.now)).known) }
{
    let mut guards = begun(alloc, first, known)?;
    let value = expression(alloc, sizes, 0, &mut guards, e)?;
    drop(value);
    Ok(left_known(guards))
}

fn after_store(
    alloc: Global,
    sizes: &[ObjectSize],
    first: usize,
    known: &[Limit],
    width: Width,
    object: usize,
    i: &Expression,
    e: &Expression,
) -> Result<Vec<Limit>, AllocError>
    ensures { IfOk result (λ limits. limits.items ≡ (stored_word (sizes_of sizes.now) (first_index (sizes_of sizes.now) known.now first width object (expression_of i.now)) (expression_of e.now)).known) }
{
    let mut guards = begun(alloc, first, known)?;
    let i = index(alloc, sizes, 0, &mut guards, width, object, i)?;
    drop(i);
    let value = expression(alloc, sizes, 0, &mut guards, e)?;
    drop(value);
    Ok(left_known(guards))
}

fn after_values(
    alloc: Global,
    sizes: &[ObjectSize],
    first: usize,
    known: &[Limit],
    es: &[Expression],
) -> Result<Vec<Limit>, AllocError>
    ensures { IfOk result (λ limits. limits.items ≡ (guarded_all (sizes_of sizes.now) known.now first (expressions_of es.now)).known) }
{
    let mut guards = begun(alloc, first, known)?;
    let values = expressions(alloc, sizes, 0, &mut guards, es)?;
    drop(values);
    Ok(left_known(guards))
}

fn after_set(
    alloc: Global,
    sizes: &[ObjectSize],
    first: usize,
    known: &[Limit],
    variable: usize,
    e: &Expression,
) -> Result<Vec<Limit>, AllocError>
    ensures { IfOk result (λ limits. limits.items ≡ known_after (sizes_of sizes.now) first known.now (cminor.Set variable (expression_of e.now))) }
{
    let left = after_value(alloc, sizes, first, known, e)?;
    let mut limits = kept_but(alloc, first, Some(variable), left.as_slice())?;
    set_to(&mut limits, variable, most(left.as_slice(), e))?;
    Ok(limits)
}

/// The bounds known at the start of one way of an `If`, once the guards of its condition have run.
pub fn within(
    alloc: Global,
    first: usize,
    way: bool,
    left: &[Limit],
    e: &Expression,
) -> Result<Vec<Limit>, AllocError>
    ensures { IfOk result (λ limits. limits.items ≡ kept first (sets cminor.Skip) (with_told left.now (told left.now way (expression_of e.now)))) }
{
    let mut limits = Vec::from_slice(alloc, left)?;
    add_told(&mut limits, told(left, way, e))?;
    kept_but(alloc, first, None, limits.as_slice())
}

/// The bounds known after an `If`, given those at the end of each way.
pub fn meet(
    alloc: Global,
    first: usize,
    s: &Statement,
    nonzero: &Statement,
    otherwise: &Statement,
    before: Vec<Limit>,
    one: Vec<Limit>,
    other: Vec<Limit>,
) -> Result<Vec<Limit>, AllocError>
    ensures { IfOk result (λ limits. limits.items ≡ met (falls (statement_of nonzero.now)) (falls (statement_of otherwise.now)) first (statement_of s.now) before.items one.items other.items) }
{
    let first_falls = falls(nonzero);
    if falls(otherwise) {
        if first_falls {
            met_both(
                alloc,
                first,
                s,
                before.as_slice(),
                one.as_slice(),
                other.as_slice(),
            )
        } else {
            Ok(other)
        }
    } else if first_falls {
        Ok(one)
    } else {
        Ok(before)
    }
}

/// The bounds known after a statement.
#[cycle(after)]
pub fn after(
    alloc: Global,
    sizes: &[ObjectSize],
    first: usize,
    known: &[Limit],
    s: &Statement,
) -> Result<Vec<Limit>, AllocError>
    ensures { IfOk result (λ limits. limits.items ≡ known_after (sizes_of sizes.now) first known.now (statement_of s.now)) }
{
    match s {
        Statement::Skip | Statement::Exit(_) => Vec::from_slice(alloc, known),
        Statement::Set(variable, e) => after_set(alloc, sizes, first, known, *variable, e),
        Statement::Store(width, object, i, e) => {
            let left = after_store(alloc, sizes, first, known, *width, *object, i, e)?;
            kept_but(alloc, first, None, left.as_slice())
        }
        Statement::Call(to, _, es) => {
            let left = after_values(alloc, sizes, first, known, es.as_slice())?;
            kept_but(alloc, first, *to, left.as_slice())
        }
        Statement::Read(to) => kept_but(alloc, first, *to, known),
        Statement::Write(e) => {
            let left = after_value(alloc, sizes, first, known, e)?;
            kept_but(alloc, first, None, left.as_slice())
        }
        Statement::Return(e) => {
            let left = after_value(alloc, sizes, first, known, e)?;
            kept_but(alloc, first, None, left.as_slice())
        }
        Statement::Sequence(all) => after_all(alloc, sizes, first, known, all.as_slice()),
        Statement::If(e, nonzero, otherwise) => {
            let left = after_value(alloc, sizes, first, known, e)?;
            let before = kept(alloc, first, s, left.as_slice())?;
            let one = within(alloc, first, true, left.as_slice(), e)?;
            let one = after(alloc, sizes, first, one.as_slice(), nonzero)?;
            let other = within(alloc, first, false, left.as_slice(), e)?;
            let other = after(alloc, sizes, first, other.as_slice(), otherwise)?;
            meet(alloc, first, s, nonzero, otherwise, before, one, other)
        }
        Statement::Loop(body) => kept(alloc, first, body, known),
        Statement::Block(body) => {
            if leaves(0, body)? {
                kept(alloc, first, body, known)
            } else {
                after(alloc, sizes, first, known, body)
            }
        }
    }
}

#[cycle(after)]
fn after_all(
    alloc: Global,
    sizes: &[ObjectSize],
    first: usize,
    known: &[Limit],
    all: &[Statement],
) -> Result<Vec<Limit>, AllocError>
    ensures { IfOk result (λ limits. limits.items ≡ known_after (sizes_of sizes.now) first known.now (in_sequence (statements_of all.now))) }
{
    let mut limits = Vec::from_slice(alloc, known)?;
    for s in all {
        limits = after(alloc, sizes, first, limits.as_slice(), s)?;
    }
    Ok(limits)
}

// The bounds known after one turn that starts with the bounds `more` for variables that the loop sets.
fn turn(
    alloc: Global,
    sizes: &[ObjectSize],
    first: usize,
    known: &[Limit],
    more: &[Limit],
    body: &Statement,
) -> Result<Vec<Limit>, AllocError>
    ensures { IfOk result (λ limits. limits.items ≡ turn (sizes_of sizes.now) first known.now (statement_of body.now) more.now) }
{
    let kept = kept(alloc, first, body, known)?;
    let limits = together(alloc, kept.as_slice(), more)?;
    after(alloc, sizes, first, limits.as_slice(), body)
}

fn narrowed(
    alloc: Global,
    sizes: &[ObjectSize],
    first: usize,
    known: &[Limit],
    before: &[Limit],
    body: &Statement,
) -> Result<Vec<Limit>, AllocError>
    ensures { IfOk result (λ limits. limits.items ≡ narrowed (sizes_of sizes.now) first known.now (statement_of body.now) before.now) }
{
    let turned = turn(alloc, sizes, first, known, before, body)?;
    let wide = widened(alloc, turned.as_slice(), before)?;
    let turned = turn(alloc, sizes, first, known, wide.as_slice(), body)?;
    joined(alloc, before, turned.as_slice())
}

fn found(
    alloc: Global,
    sizes: &[ObjectSize],
    first: usize,
    known: &[Limit],
    body: &Statement,
) -> Result<Vec<Limit>, AllocError>
    ensures { IfOk result (λ limits. limits.items ≡ found (sizes_of sizes.now) first known.now (statement_of body.now)) }
{
    let before = kept_set(alloc, first, body, known)?;
    let near = narrowed(alloc, sizes, first, known, before.as_slice(), body)?;
    let turned = turn(alloc, sizes, first, known, near.as_slice(), body)?;
    still(alloc, turned.as_slice(), near.as_slice())
}

/// The bounds known at a loop's head, given those known before the loop.
pub fn head(
    alloc: Global,
    sizes: &[ObjectSize],
    first: usize,
    known: &[Limit],
    body: &Statement,
) -> Result<Vec<Limit>, AllocError>
    ensures { IfOk result (λ limits. limits.items ≡ head (sizes_of sizes.now) first known.now (statement_of body.now)) }
{
    let kept = kept(alloc, first, body, known)?;
    let found = found(alloc, sizes, first, known, body)?;
    let turned = turn(alloc, sizes, first, known, found.as_slice(), body)?;
    if all_again(turned.as_slice(), found.as_slice()) {
        together(alloc, kept.as_slice(), found.as_slice())
    } else {
        Ok(kept)
    }
}
