// Statements, each with its guards before it, given the bounds known for variables at that point.
//
// The recursion is as deep as the tree: at most eight levels of Cminor for each of the source's 64 levels.

ghost use Rattle.std.specs.Prelude.{◌≡◌, IfOk, OnOk};
ghost use Rattle.cc_cminor_language.specs.Cminor as cminor;
ghost use Rattle.cc_cminor_language.specs.Code.{expression_of, expressions_of, statement_of, in_sequence};
ghost use Rattle.cc_cminor_language.specs.Statements.{statements_of};
ghost use Rattle.cc_guard.specs.Guard.{known_after, code_after};
ghost use Rattle.cc_guard.specs.internal.Written.{SeesStatement, sizes_of};

use crate::after::{after, head, meet, within};
use crate::boxes::sequence;
use crate::changed::{kept, leaves};
use crate::expressions::{expression, expressions, index};
use crate::guards::{Seen, begun, finished, note};
use crate::known::Limit;
use crate::sizes::ObjectSize;
use cc_cminor_language::{Expression, Statement, boxed_statement};
use cc_words::Width;
use std::alloc::{AllocError, Global};

fn set(
    alloc: Global,
    sizes: &[ObjectSize],
    first: usize,
    blocks: usize,
    seen: &mut Seen,
    known: &[Limit],
    variable: usize,
    e: &Expression,
) -> Result<Box<Statement>, AllocError>
    ensures code { IfOk result (λ s. statement_of s.value ≡ code_after (sizes_of sizes.now) first known.now blocks (cminor.Set variable (expression_of e.now))) }
    ensures seen { OnOk result (SeesStatement (sizes_of sizes.now) first known.now (cminor.Set variable (expression_of e.now)) seen.old seen.new) }
{
    let mut guards = begun(alloc, first, known)?;
    let value = expression(alloc, sizes, blocks, &mut guards, e)?;
    note(&guards, seen);
    finished(alloc, guards, Statement::Set(variable, value))
}

fn store(
    alloc: Global,
    sizes: &[ObjectSize],
    first: usize,
    blocks: usize,
    seen: &mut Seen,
    known: &[Limit],
    width: Width,
    object: usize,
    i: &Expression,
    e: &Expression,
) -> Result<Box<Statement>, AllocError>
    ensures code { IfOk result (λ s. statement_of s.value ≡ code_after (sizes_of sizes.now) first known.now blocks (cminor.Store width object (expression_of i.now) (expression_of e.now))) }
    ensures seen { OnOk result (SeesStatement (sizes_of sizes.now) first known.now (cminor.Store width object (expression_of i.now) (expression_of e.now)) seen.old seen.new) }
{
    let mut guards = begun(alloc, first, known)?;
    let i = index(alloc, sizes, blocks, &mut guards, width, object, i)?;
    let value = expression(alloc, sizes, blocks, &mut guards, e)?;
    note(&guards, seen);
    finished(alloc, guards, Statement::Store(width, object, i, value))
}

fn call(
    alloc: Global,
    sizes: &[ObjectSize],
    first: usize,
    blocks: usize,
    seen: &mut Seen,
    known: &[Limit],
    to: Option<usize>,
    function: usize,
    es: &[Expression],
) -> Result<Box<Statement>, AllocError>
    ensures code { IfOk result (λ s. statement_of s.value ≡ code_after (sizes_of sizes.now) first known.now blocks (cminor.Call to function (expressions_of es.now))) }
    ensures seen { OnOk result (SeesStatement (sizes_of sizes.now) first known.now (cminor.Call to function (expressions_of es.now)) seen.old seen.new) }
{
    let mut guards = begun(alloc, first, known)?;
    let values = expressions(alloc, sizes, blocks, &mut guards, es)?;
    note(&guards, seen);
    finished(alloc, guards, Statement::Call(to, function, values))
}

fn write(
    alloc: Global,
    sizes: &[ObjectSize],
    first: usize,
    blocks: usize,
    seen: &mut Seen,
    known: &[Limit],
    e: &Expression,
) -> Result<Box<Statement>, AllocError>
    ensures code { IfOk result (λ s. statement_of s.value ≡ code_after (sizes_of sizes.now) first known.now blocks (cminor.Write (expression_of e.now))) }
    ensures seen { OnOk result (SeesStatement (sizes_of sizes.now) first known.now (cminor.Write (expression_of e.now)) seen.old seen.new) }
{
    let mut guards = begun(alloc, first, known)?;
    let value = expression(alloc, sizes, blocks, &mut guards, e)?;
    note(&guards, seen);
    finished(alloc, guards, Statement::Write(value))
}

fn give_back(
    alloc: Global,
    sizes: &[ObjectSize],
    first: usize,
    blocks: usize,
    seen: &mut Seen,
    known: &[Limit],
    e: &Expression,
) -> Result<Box<Statement>, AllocError>
    ensures code { IfOk result (λ s. statement_of s.value ≡ code_after (sizes_of sizes.now) first known.now blocks (cminor.Return (expression_of e.now))) }
    ensures seen { OnOk result (SeesStatement (sizes_of sizes.now) first known.now (cminor.Return (expression_of e.now)) seen.old seen.new) }
{
    let mut guards = begun(alloc, first, known)?;
    let value = expression(alloc, sizes, blocks, &mut guards, e)?;
    note(&guards, seen);
    finished(alloc, guards, Statement::Return(value))
}

/// A statement with its guards, and the bounds known after it.
#[derive(Drop)]
pub struct Done {
    pub code: Box<Statement>,
    pub known: Vec<Limit>,
}

// Returns this code as done. A separate walk of the statement finds the bounds known after it, so this function is used
// only for statements that contain no others.
fn alone(
    alloc: Global,
    sizes: &[ObjectSize],
    first: usize,
    known: &[Limit],
    s: &Statement,
    code: Box<Statement>,
) -> Result<Done, AllocError>
    ensures code { IfOk result (λ done. done.code ≡ code) }
    ensures known { IfOk result (λ done. done.known.items ≡ known_after (sizes_of sizes.now) first known.now (statement_of s.now)) }
{
    let known = after(alloc, sizes, first, known, s)?;
    Ok(Done { code, known })
}

/// A statement with its guards. The statement is in `blocks` blocks, its guards set variables from `first` on, and `known` are
/// the bounds known before it.
#[cycle(statements)]
pub fn statement(
    alloc: Global,
    sizes: &[ObjectSize],
    first: usize,
    blocks: usize,
    seen: &mut Seen,
    known: &[Limit],
    s: &Statement,
) -> Result<Done, AllocError>
    ensures code { IfOk result (λ done. statement_of done.code.value ≡ code_after (sizes_of sizes.now) first known.now blocks (statement_of s.now)) }
    ensures known { IfOk result (λ done. done.known.items ≡ known_after (sizes_of sizes.now) first known.now (statement_of s.now)) }
    ensures seen { OnOk result (SeesStatement (sizes_of sizes.now) first known.now (statement_of s.now) seen.old seen.new) }
{
    match s {
        Statement::Skip => {
            let code = boxed_statement(alloc, Statement::Skip)?;
            alone(alloc, sizes, first, known, s, code)
        }
        Statement::Set(variable, e) => {
            let code = set(alloc, sizes, first, blocks, seen, known, *variable, e)?;
            alone(alloc, sizes, first, known, s, code)
        }
        Statement::Store(width, object, i, e) => {
            let code = store(
                alloc, sizes, first, blocks, seen, known, *width, *object, i, e,
            )?;
            alone(alloc, sizes, first, known, s, code)
        }
        Statement::Call(to, function, es) => {
            let code = call(
                alloc,
                sizes,
                first,
                blocks,
                seen,
                known,
                *to,
                *function,
                es.as_slice(),
            )?;
            alone(alloc, sizes, first, known, s, code)
        }
        Statement::Read(to) => {
            let code = boxed_statement(alloc, Statement::Read(*to))?;
            alone(alloc, sizes, first, known, s, code)
        }
        Statement::Write(e) => {
            let code = write(alloc, sizes, first, blocks, seen, known, e)?;
            alone(alloc, sizes, first, known, s, code)
        }
        Statement::Sequence(all) => {
            statements(alloc, sizes, first, blocks, seen, known, all.as_slice())
        }
        Statement::If(e, nonzero, otherwise) => {
            let mut guards = begun(alloc, first, known)?;
            let value = expression(alloc, sizes, blocks, &mut guards, e)?;
            note(&guards, seen);
            let before = kept(alloc, first, s, guards.known.as_slice())?;
            let one = within(alloc, first, true, guards.known.as_slice(), e)?;
            let done = statement(alloc, sizes, first, blocks, seen, one.as_slice(), nonzero)?;
            let Done {
                code: nonzero_code,
                known: one,
            } = done;
            let other = within(alloc, first, false, guards.known.as_slice(), e)?;
            let done = statement(
                alloc,
                sizes,
                first,
                blocks,
                seen,
                other.as_slice(),
                otherwise,
            )?;
            let Done {
                code: otherwise_code,
                known: other,
            } = done;
            let known = meet(alloc, first, s, nonzero, otherwise, before, one, other)?;
            let code = finished(
                alloc,
                guards,
                Statement::If(value, nonzero_code, otherwise_code),
            )?;
            Ok(Done { code, known })
        }
        Statement::Loop(body) => {
            let again = head(alloc, sizes, first, known, body)?;
            let done = statement(alloc, sizes, first, blocks, seen, again.as_slice(), body)?;
            let Done {
                code: body_code,
                known: after_turn,
            } = done;
            drop(after_turn);
            let code = boxed_statement(alloc, Statement::Loop(body_code))?;
            let known = kept(alloc, first, body, known)?;
            Ok(Done { code, known })
        }
        Statement::Block(body) => {
            let Some(inside) = blocks.checked_add(1) else {
                return Err(AllocError);
            };
            let is_left = leaves(0, body)?;
            let done = statement(alloc, sizes, first, inside, seen, known, body)?;
            let Done {
                code: body_code,
                known: after_body,
            } = done;
            let code = boxed_statement(alloc, Statement::Block(body_code))?;
            if is_left {
                drop(after_body);
                let known = kept(alloc, first, body, known)?;
                Ok(Done { code, known })
            } else {
                Ok(Done {
                    code,
                    known: after_body,
                })
            }
        }
        Statement::Exit(k) => {
            let code = boxed_statement(alloc, Statement::Exit(*k))?;
            alone(alloc, sizes, first, known, s, code)
        }
        Statement::Return(e) => {
            let code = give_back(alloc, sizes, first, blocks, seen, known, e)?;
            alone(alloc, sizes, first, known, s, code)
        }
    }
}

#[cycle(statements)]
fn statements(
    alloc: Global,
    sizes: &[ObjectSize],
    first: usize,
    blocks: usize,
    seen: &mut Seen,
    known: &[Limit],
    all: &[Statement],
) -> Result<Done, AllocError>
    ensures code { IfOk result (λ done. statement_of done.code.value ≡ code_after (sizes_of sizes.now) first known.now blocks (in_sequence (statements_of all.now))) }
    ensures known { IfOk result (λ done. done.known.items ≡ known_after (sizes_of sizes.now) first known.now (in_sequence (statements_of all.now))) }
    ensures seen { OnOk result (SeesStatement (sizes_of sizes.now) first known.now (in_sequence (statements_of all.now)) seen.old seen.new) }
{
    let mut codes = Vec::new(alloc);
    let mut limits = Vec::from_slice(alloc, known)?;
    for s in all {
        let done = statement(alloc, sizes, first, blocks, seen, limits.as_slice(), s)?;
        let Done { code, known } = done;
        codes.push(Box::into_inner(code))?;
        limits = known;
    }
    let code = sequence(alloc, codes)?;
    Ok(Done {
        code,
        known: limits,
    })
}
