// What is known about variables after a statement that sets some of them, and how control leaves a statement.
//
// One walk marks all the variables that a statement sets: a walk for each bound would be slow, since there are many bounds
// and nested loops.

ghost use Rattle.std.specs.Prelude.{◌≡◌, ◌&&◌, ℕ, nat_lt, Bool, false, not, Some, length, get_or, IfOk, OnOk};
ghost use Rattle.cc_cminor_language.specs.Code.{statement_of, in_sequence};
ghost use Rattle.cc_cminor_language.specs.Statements.{statements_of};
ghost use Rattle.cc_guard.specs.Guard.{sets_result, sets, unset, kept, set_to, with_told, falls, leaves};
ghost use Rattle.cc_guard.specs.internal.Marks.{Marks, IsMarked};

use crate::known::Limit;
use cc_cminor_language::Statement;
use std::alloc::{AllocError, Global};

// Whether a call or a read puts its result into this variable.
fn sets_result(to: Option<usize>, variable: usize) -> bool
    ensures { result ≡ sets_result to variable }
{
    match to {
        None => false,
        Some(set) => set == variable,
    }
}

// Sets the mark of a variable, if it has one.
fn mark_variable(marks: &mut Vec<bool>, variable: usize)
    ensures { Marks (sets_result (Some variable)) marks.old.items marks.new.items }
{
    if variable < marks.len() {
        marks[variable] = true;
    }
}

fn mark_result(marks: &mut Vec<bool>, to: Option<usize>)
    ensures { Marks (sets_result to) marks.old.items marks.new.items }
{
    if let Some(variable) = to {
        mark_variable(marks, variable);
    }
}

// Marks the variables that a statement sets.
#[cycle(marking)]
fn mark(marks: &mut Vec<bool>, s: &Statement)
    ensures { Marks (sets (statement_of s.now)) marks.old.items marks.new.items }
{
    match s {
        Statement::Set(variable, _) => mark_variable(marks, *variable),
        Statement::Call(to, _, _) => mark_result(marks, *to),
        Statement::Read(to) => mark_result(marks, *to),
        Statement::Sequence(all) => mark_all(marks, all.as_slice()),
        Statement::If(_, nonzero, otherwise) => {
            mark(marks, nonzero);
            mark(marks, otherwise);
        }
        Statement::Loop(body) => mark(marks, body),
        Statement::Block(body) => mark(marks, body),
        Statement::Skip
        | Statement::Store(_, _, _, _)
        | Statement::Write(_)
        | Statement::Exit(_)
        | Statement::Return(_) => {}
    }
}

#[cycle(marking)]
fn mark_all(marks: &mut Vec<bool>, all: &[Statement])
    ensures { Marks (sets (in_sequence (statements_of all.now))) marks.old.items marks.new.items }
{
    for s in all {
        mark(marks, s);
    }
}

// As many marks as `first` says, none of them set.
fn unmarked(alloc: Global, first: usize) -> Result<Vec<bool>, AllocError>
    ensures long { IfOk result (λ marks. length marks.items ≡ first) }
    ensures none { IfOk result (λ marks. (x : ℕ) → get_or marks.items x false ≡ false) }
{
    let mut marks = Vec::with_capacity(alloc, first)?;
    for i in 0..first {
        let _i = i;
        marks.push(false)?;
    }
    Ok(marks)
}

// Which variables below `first` a statement sets.
fn marked(alloc: Global, first: usize, s: &Statement) -> Result<Vec<bool>, AllocError>
    ensures { IfOk result (λ marks. IsMarked first (sets (statement_of s.now)) marks.items) }
{
    let mut marks = unmarked(alloc, first)?;
    mark(&mut marks, s);
    Ok(marks)
}

// Whether a variable has a mark and that mark is not set.
fn stays(marks: &[bool], variable: usize) -> bool
    ensures { (n : ℕ) (changed : ℕ → Bool) → IsMarked n changed marks.now → result ≡ (nat_lt variable n && not (changed variable)) }
{
    variable < marks.len() && !marks[variable]
}

// Whether a variable has a mark and that mark is set.
fn changes(marks: &[bool], variable: usize) -> bool
    ensures { (n : ℕ) (changed : ℕ → Bool) → IsMarked n changed marks.now → result ≡ (nat_lt variable n && not (not (changed variable))) }
{
    variable < marks.len() && marks[variable]
}

/// The known bounds of variables below `first` that a statement does not set.
pub fn kept(
    alloc: Global,
    first: usize,
    s: &Statement,
    known: &[Limit],
) -> Result<Vec<Limit>, AllocError>
    ensures { IfOk result (λ limits. limits.items ≡ kept first (sets (statement_of s.now)) known.now) }
{
    let marks = marked(alloc, first, s)?;
    let mut limits = Vec::new(alloc);
    for limit in known {
        if stays(marks.as_slice(), limit.variable) {
            limits.push(*limit)?;
        }
    }
    Ok(limits)
}

/// The known bounds of variables below `first`, except the variable `to`, if it is given.
pub fn kept_but(
    alloc: Global,
    first: usize,
    to: Option<usize>,
    known: &[Limit],
) -> Result<Vec<Limit>, AllocError>
    ensures { IfOk result (λ limits. limits.items ≡ kept first (sets_result to) known.now) }
{
    let mut limits = Vec::new(alloc);
    for limit in known {
        if limit.variable < first && !sets_result(to, limit.variable) {
            limits.push(*limit)?;
        }
    }
    Ok(limits)
}

/// Adds the bound `most`, if there is one, for a variable that was just set.
pub fn set_to(known: &mut Vec<Limit>, variable: usize, most: Option<u32>) -> Result<(), AllocError>
    ensures { OnOk result (known.new.items ≡ set_to variable most known.old.items) }
{
    if let Some(most) = most {
        known.push(Limit { variable, most })?;
    }
    Ok(())
}

/// The known bounds of variables below `first` that a statement sets.
pub fn kept_set(
    alloc: Global,
    first: usize,
    s: &Statement,
    known: &[Limit],
) -> Result<Vec<Limit>, AllocError>
    ensures { IfOk result (λ limits. limits.items ≡ kept first (unset (statement_of s.now)) known.now) }
{
    let marks = marked(alloc, first, s)?;
    let mut limits = Vec::new(alloc);
    for limit in known {
        if changes(marks.as_slice(), limit.variable) {
            limits.push(*limit)?;
        }
    }
    Ok(limits)
}

/// Adds the bound that a condition shows, if it shows one.
pub fn add_told(known: &mut Vec<Limit>, told: Option<Limit>) -> Result<(), AllocError>
    ensures { OnOk result (known.new.items ≡ with_told known.old.items told) }
{
    if let Some(limit) = told {
        known.push(limit)?;
    }
    Ok(())
}

/// Whether control may reach the end of a statement, judging by its form.
#[cycle(falling)]
pub fn falls(s: &Statement) -> bool
    ensures { result ≡ falls (statement_of s.now) }
{
    match s {
        Statement::Sequence(all) => last_falls(all.as_slice()),
        Statement::If(_, nonzero, otherwise) => falls(nonzero) || falls(otherwise),
        Statement::Loop(_) | Statement::Exit(_) | Statement::Return(_) => false,
        Statement::Skip
        | Statement::Set(_, _)
        | Statement::Store(_, _, _, _)
        | Statement::Call(_, _, _)
        | Statement::Read(_)
        | Statement::Write(_)
        | Statement::Block(_) => true,
    }
}

#[cycle(falling)]
fn last_falls(all: &[Statement]) -> bool
    ensures { result ≡ falls (in_sequence (statements_of all.now)) }
{
    let mut last = true;
    for s in all {
        last = falls(s);
    }
    last
}

/// Whether an exit in a statement leaves exactly the block with this number: 0 is the innermost block around the statement.
#[cycle(leaving)]
pub fn leaves(outer: usize, s: &Statement) -> Result<bool, AllocError>
    ensures { IfOk result (λ left. left ≡ leaves outer (statement_of s.now)) }
{
    match s {
        Statement::Sequence(all) => any_leaves(outer, all.as_slice()),
        Statement::If(_, nonzero, otherwise) => {
            let first = leaves(outer, nonzero)?;
            let second = leaves(outer, otherwise)?;
            Ok(first || second)
        }
        Statement::Loop(body) => leaves(outer, body),
        Statement::Block(body) => {
            let Some(more) = outer.checked_add(1) else {
                return Err(AllocError);
            };
            leaves(more, body)
        }
        Statement::Exit(k) => Ok(*k == outer),
        Statement::Skip
        | Statement::Set(_, _)
        | Statement::Store(_, _, _, _)
        | Statement::Call(_, _, _)
        | Statement::Read(_)
        | Statement::Write(_)
        | Statement::Return(_) => Ok(false),
    }
}

#[cycle(leaving)]
fn any_leaves(outer: usize, all: &[Statement]) -> Result<bool, AllocError>
    ensures { IfOk result (λ left. left ≡ leaves outer (in_sequence (statements_of all.now))) }
{
    let mut found = false;
    for s in all {
        let left = leaves(outer, s)?;
        found = found || left;
    }
    Ok(found)
}
