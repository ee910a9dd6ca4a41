// The guards of one statement, which are written in front of it.

ghost use Rattle.std.specs.Prelude.{◌≡◌, ◌∷◌, [], ◌+◌, ◌++◌, IfOk, OnOk};
ghost use Rattle.cc_cminor_language.specs.Cminor as cminor;
ghost use Rattle.cc_cminor_language.specs.Code.{expression_of, statement_of, in_sequence};
ghost use Rattle.cc_cminor_language.specs.Statements.{statements_of};
ghost use Rattle.cc_words.specs.declared.operators.Binary.TheVariants as two;
ghost use Rattle.cc_guard.specs.Guard as guard;
ghost use Rattle.cc_guard.specs.Guard.{Stop, StopBoth, guard_code, asked_signed, asked, learned, waiting, bounded, forever, with_loop};
ghost use Rattle.cc_guard.specs.internal.Written.{Adds, AddsAll, here, Sees, some_of};

use crate::boxes::{binary, copied, sequence, unary};
use crate::known::Limit;
use cc_cminor_language::{Expression, Statement, both, boxed_statement, constant, local};
use cc_words::{Binary, Unary};
use std::alloc::{AllocError, Global};

/// The guards written for a statement so far, the next variable that a guard may set, and the bounds known for variables after
/// the guards.
#[derive(Drop)]
pub struct Guards {
    pub before: Vec<Statement>,
    pub next: usize,
    pub known: Vec<Limit>,
}

/// Whether a function has a guard so far, and the least number above every variable that its guards set.
#[derive(Clone, Copy)]
pub struct Seen {
    pub guards: bool,
    pub variables: usize,
}

// ---- one guard

// Adds a guard.
fn add(guards: &mut Guards, code: Box<Statement>) -> Result<(), AllocError>
    ensures before { OnOk result (statements_of guards.new.before.items ≡ statements_of guards.old.before.items ++ (statement_of code.value ∷ [])) }
    ensures next { OnOk result (guards.new.next ≡ guards.old.next) }
    ensures known { OnOk result (guards.new.known.items ≡ guards.old.known.items) }
{
    guards.before.push(Box::into_inner(code))?;
    Ok(())
}

// The guard that stops the run if the word is not 0.
fn stops(alloc: Global, blocks: usize, test: Box<Expression>) -> Result<Box<Statement>, AllocError>
    ensures { IfOk result (λ s. statement_of s.value ≡ guard_code blocks (Stop (expression_of test.value))) }
{
    let exit = boxed_statement(alloc, Statement::Exit(blocks))?;
    let skip = boxed_statement(alloc, Statement::Skip)?;
    boxed_statement(alloc, Statement::If(test, exit, skip))
}

// The guard that stops the run if neither of two words is 0.
fn stops_both(
    alloc: Global,
    blocks: usize,
    first: Box<Expression>,
    second: Box<Expression>,
) -> Result<Box<Statement>, AllocError>
    ensures { IfOk result (λ s. statement_of s.value ≡ guard_code blocks (StopBoth (expression_of first.value) (expression_of second.value))) }
{
    let stop = stops(alloc, blocks, second)?;
    let skip = boxed_statement(alloc, Statement::Skip)?;
    boxed_statement(alloc, Statement::If(first, stop, skip))
}

fn add_stop(
    alloc: Global,
    blocks: usize,
    guards: &mut Guards,
    test: Box<Expression>,
) -> Result<(), AllocError>
    ensures { OnOk result (Adds blocks (Stop (expression_of test.value) ∷ []) guards.old.next guards.old.known.items guards.old guards.new) }
{
    let stop = stops(alloc, blocks, test)?;
    add(guards, stop)
}

fn add_stop_both(
    alloc: Global,
    blocks: usize,
    guards: &mut Guards,
    first: Box<Expression>,
    second: Box<Expression>,
) -> Result<(), AllocError>
    ensures { OnOk result (Adds blocks (StopBoth (expression_of first.value) (expression_of second.value) ∷ []) guards.old.next guards.old.known.items guards.old guards.new) }
{
    let stop = stops_both(alloc, blocks, first, second)?;
    add(guards, stop)
}

// Adds the guard that puts a word into the next variable.
fn add_put(
    alloc: Global,
    blocks: usize,
    guards: &mut Guards,
    value: Box<Expression>,
) -> Result<Box<Expression>, AllocError>
    ensures value { IfOk result (λ v. expression_of v.value ≡ cminor.Local guards.old.next) }
    ensures adds { OnOk result (Adds blocks (guard.Put guards.old.next (expression_of value.value) ∷ []) (guards.old.next + 1) guards.old.known.items guards.old guards.new) }
{
    let variable = guards.next;
    let Some(next) = variable.checked_add(1) else {
        drop(value);
        return Err(AllocError);
    };
    let held = local(alloc, variable)?;
    let put = boxed_statement(alloc, Statement::Set(variable, value))?;
    add(guards, put)?;
    guards.next = next;
    Ok(held)
}

// ---- values and operands

/// What to use for a value that is read twice: a constant or a variable itself, else a new variable into which the value is
/// put.
pub fn waiting(
    alloc: Global,
    blocks: usize,
    guards: &mut Guards,
    value: Box<Expression>,
) -> Result<Box<Expression>, AllocError>
    ensures value { IfOk result (λ v. expression_of v.value ≡ (waiting (here guards.old (expression_of value.value))).value) }
    ensures adds { OnOk result (AddsAll blocks (waiting (here guards.old (expression_of value.value))) guards.old guards.new) }
{
    if matches!(&*value, Expression::Constant(_) | Expression::Local(_)) {
        Ok(value)
    } else {
        add_put(alloc, blocks, guards, value)
    }
}

fn add_asked_divisor(
    alloc: Global,
    blocks: usize,
    guards: &mut Guards,
    b: &Expression,
) -> Result<(), AllocError>
    ensures { OnOk result (Adds blocks (guard.asked_divisor (expression_of b.now)) guards.old.next guards.old.known.items guards.old guards.new) }
{
    let divisor = copied(alloc, b)?;
    let test = unary(alloc, Unary::IsZero, divisor)?;
    add_stop(alloc, blocks, guards, test)
}

// The expression that tests whether the value of `e` is this word.
fn is_word(alloc: Global, e: &Expression, word: u32) -> Result<Box<Expression>, AllocError>
    ensures { IfOk result (λ test. expression_of test.value ≡ cminor.Binary two.Eq (expression_of e.now) (cminor.Constant word)) }
{
    let e = copied(alloc, e)?;
    let word = constant(alloc, word)?;
    binary(alloc, Binary::Eq, e, word)
}

fn add_asked_signed(
    alloc: Global,
    blocks: usize,
    guards: &mut Guards,
    a: &Expression,
    b: &Expression,
) -> Result<(), AllocError>
    ensures { OnOk result (Adds blocks (asked_signed (expression_of a.now) (expression_of b.now)) guards.old.next guards.old.known.items guards.old guards.new) }
{
    add_asked_divisor(alloc, blocks, guards, b)?;
    let first = is_word(alloc, b, 4294967295)?;
    let second = is_word(alloc, a, 2147483648)?;
    add_stop_both(alloc, blocks, guards, first, second)
}

// Adds the guard that stops the run unless a word is below a number.
fn add_asked_below(
    alloc: Global,
    blocks: usize,
    guards: &mut Guards,
    b: &Expression,
    number: u32,
) -> Result<(), AllocError>
    ensures { OnOk result (Adds blocks (Stop (cminor.Binary two.LeU (cminor.Constant number) (expression_of b.now)) ∷ []) guards.old.next guards.old.known.items guards.old guards.new) }
{
    let value = copied(alloc, b)?;
    let number = constant(alloc, number)?;
    let test = binary(alloc, Binary::LeU, number, value)?;
    add_stop(alloc, blocks, guards, test)
}

/// Adds the guards of an operator.
pub fn add_asked(
    alloc: Global,
    blocks: usize,
    guards: &mut Guards,
    operator: Binary,
    a: &Expression,
    b: &Expression,
) -> Result<(), AllocError>
    ensures { OnOk result (Adds blocks (asked operator (expression_of a.now) (expression_of b.now)) guards.old.next guards.old.known.items guards.old guards.new) }
{
    match operator {
        Binary::DivS | Binary::RemS => add_asked_signed(alloc, blocks, guards, a, b),
        Binary::DivU | Binary::RemU => add_asked_divisor(alloc, blocks, guards, b),
        Binary::Shl | Binary::ShrS | Binary::ShrU => add_asked_below(alloc, blocks, guards, b, 32),
        _ => Ok(()),
    }
}

// Records that a value is below a number: if `value` is a variable, this bound is known from then on.
fn learn(guards: &mut Guards, value: &Expression, number: u32) -> Result<(), AllocError>
    ensures known { OnOk result (guards.new.known.items ≡ learned (expression_of value.now) number guards.old.known.items) }
    ensures before { OnOk result (guards.new.before.items ≡ guards.old.before.items) }
    ensures next { OnOk result (guards.new.next ≡ guards.old.next) }
{
    if let Expression::Local(variable) = value {
        guards.known.push(Limit {
            variable: *variable,
            most: number.saturating_sub(1),
        })?;
    }
    Ok(())
}

/// Adds a guard that tests that the value is below `number`. If `value` is a variable, this bound is known from then on.
pub fn bounded(
    alloc: Global,
    blocks: usize,
    guards: &mut Guards,
    value: &Expression,
    number: u32,
) -> Result<(), AllocError>
    ensures { OnOk result (AddsAll blocks (bounded number (here guards.old (expression_of value.now))) guards.old guards.new) }
{
    add_asked_below(alloc, blocks, guards, value, number)?;
    learn(guards, value, number)
}

// ---- the statement

/// No guards yet. `first` is the first variable that a guard may set, and `known` holds the bounds known beforehand.
pub fn begun(alloc: Global, first: usize, known: &[Limit]) -> Result<Guards, AllocError>
    ensures before { IfOk result (λ guards. guards.before.items ≡ []) }
    ensures next { IfOk result (λ guards. guards.next ≡ first) }
    ensures known { IfOk result (λ guards. guards.known.items ≡ known.now) }
{
    let known = Vec::from_slice(alloc, known)?;
    Ok(Guards {
        before: Vec::new(alloc),
        next: first,
        known,
    })
}

/// Updates what was seen of the function with the guards of one of its statements.
pub fn note(guards: &Guards, seen: &mut Seen)
    ensures { Sees (some_of guards.now.before.items) guards.now.next seen.old seen.new }
{
    seen.guards = seen.guards || !guards.before.is_empty();
    seen.variables = seen.variables.max(guards.next);
}

/// The guards, followed by their statement.
pub fn finished(
    alloc: Global,
    guards: Guards,
    last: Statement,
) -> Result<Box<Statement>, AllocError>
    ensures { IfOk result (λ s. statement_of s.value ≡ in_sequence (statements_of guards.before.items ++ (statement_of last ∷ []))) }
{
    let Guards {
        before,
        next: _,
        known,
    } = guards;
    drop(known);
    let mut all = before;
    all.push(last)?;
    sequence(alloc, all)
}

/// A function's code with guards, followed by the loop at its end.
pub fn with_loop(alloc: Global, code: Box<Statement>) -> Result<Box<Statement>, AllocError>
    ensures { IfOk result (λ s. statement_of s.value ≡ with_loop (statement_of code.value)) }
{
    let done = boxed_statement(alloc, Statement::Exit(1))?;
    let inner = both(alloc, code, done)?;
    let inner = boxed_statement(alloc, Statement::Block(inner))?;
    let skip = boxed_statement(alloc, Statement::Skip)?;
    let forever = boxed_statement(alloc, Statement::Loop(skip))?;
    let outer = both(alloc, inner, forever)?;
    boxed_statement(alloc, Statement::Block(outer))
}
