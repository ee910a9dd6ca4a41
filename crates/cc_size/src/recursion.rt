// Which calls are part of a cycle of calls. To find them, the functions from which calls lead to a function are found.

ghost use Rattle.std.specs.Prelude.{◌≡◌, ◌<◌, ◌+◌, ◌==◌, ◌&&◌, ◌||◌, ◌++◌, ℕ, false, length, get_or, IfOk, OnOk};
ghost use Rattle.cc_link.specs.Linked.{all_items, lent_pieces};
ghost use Rattle.cc_size.specs.Cycles.{AreCyclic};
ghost use Rattle.cc_size.specs.internal.Reached.{added, item_calls, items_call, nearer, reaches, FoundUpTo};

use cc_emit::{Piece, PieceItem};
use std::alloc::{AllocError, Global};

/// A call with which a function calls itself, directly or through others: the number of the function that calls, and that of
/// the function that is called.
#[derive(Clone, Copy)]
pub struct Recursion {
    pub caller: usize,
    pub called: usize,
}

fn either(a: bool, b: bool) -> bool
    ensures { result ≡ (a || b) }
{
    a || b
}

fn both(a: bool, b: bool) -> bool
    ensures { result ≡ (a && b) }
{
    a && b
}

// Whether an item calls a function that is in the table.
fn item_calls(table: &[bool], item: &PieceItem) -> bool
    ensures { result ≡ item_calls (λ g. get_or table.now g false) item.now }
{
    match item {
        PieceItem::Call(function) => table.get(*function as usize).copied().unwrap_or(false),
        PieceItem::Plain(_) | PieceItem::Go(_) => false,
    }
}

fn items_call(table: &[bool], items: &[PieceItem]) -> bool
    ensures { result ≡ items_call (λ g. get_or table.now g false) items.now }
{
    for item in items {
        if item_calls(table, item) {
            return true;
        }
    }
    false
}

fn is_call_of(function: usize, item: &PieceItem) -> bool
    ensures { result ≡ item_calls (λ g. g == function) item.now }
{
    match item {
        PieceItem::Call(called) => *called as usize == function,
        PieceItem::Plain(_) | PieceItem::Go(_) => false,
    }
}

fn call(function: usize, items: &[PieceItem]) -> bool
    ensures { result ≡ items_call (λ g. g == function) items.now }
{
    for item in items {
        if is_call_of(function, item) {
            return true;
        }
    }
    false
}

// The table of the functions that are in `table`, and of those that call one of these.
fn nearer(alloc: Global, pieces: &[&Piece], table: &[bool]) -> Result<Vec<bool>, AllocError>
    requires { length table.now ≡ length pieces.now }
    ensures { IfOk result (λ more. more.items ≡ nearer (λ g. get_or table.now g false) table.now (all_items (lent_pieces pieces.now))) }
{
    let mut more = Vec::with_capacity(alloc, table.len())?;
    for at in 0..table.len() {
        let calls = items_call(table, pieces[at].items());
        more.push(either(table[at], calls))?;
    }
    Ok(more)
}

// For each function, whether at most as many calls as there are functions lead from it to the target.
fn leading(alloc: Global, pieces: &[&Piece], target: usize) -> Result<Vec<bool>, AllocError>
    requires { target < length pieces.now }
    ensures long { IfOk result (λ table. length table.items ≡ length pieces.now) }
    ensures each { IfOk result (λ table. (f : ℕ) → get_or table.items f false ≡ reaches (all_items (lent_pieces pieces.now)) target (length pieces.now) f) }
{
    let mut table = vec![in alloc; false; pieces.len()]?;
    table[target] = true;
    for _call in 0..pieces.len() {
        let more = nearer(alloc, pieces, table.as_slice())?;
        table = more;
    }
    Ok(table)
}

// Adds a call, if `is` says that it is part of a cycle.
fn add_if(
    found: &mut Vec<Recursion>,
    is: bool,
    caller: usize,
    called: usize,
) -> Result<(), AllocError>
    ensures { OnOk result (found.new.items ≡ found.old.items ++ added is caller called) }
{
    if is {
        found.push(Recursion { caller, called })?;
        Ok(())
    } else {
        Ok(())
    }
}

// Adds the calls of one function that are part of a cycle.
fn add_of(
    alloc: Global,
    pieces: &[&Piece],
    caller: usize,
    found: &mut Vec<Recursion>,
) -> Result<(), AllocError>
    requires within { caller < length pieces.now }
    requires before { FoundUpTo (all_items (lent_pieces pieces.now)) caller 0 found.old.items }
    ensures { OnOk result (FoundUpTo (all_items (lent_pieces pieces.now)) (caller + 1) 0 found.new.items) }
{
    let leading = leading(alloc, pieces, caller)?;
    let back = leading.as_slice();
    for called in 0..back.len() {
        let calls = call(called, pieces[caller].items());
        add_if(found, both(calls, back[called]), caller, called)?;
    }
    Ok(())
}

/// The calls of a unit that are part of a cycle of calls, ordered by the function that calls and then by the one that is
/// called. The pieces are in the order of the functions.
pub(crate) fn recursions(alloc: Global, pieces: &[&Piece]) -> Result<Vec<Recursion>, AllocError>
    ensures { IfOk result (λ found. AreCyclic (all_items (lent_pieces pieces.now)) found.items) }
{
    let mut found = Vec::new(alloc);
    for caller in 0..pieces.len() {
        add_of(alloc, pieces, caller, &mut found)?;
    }
    Ok(found)
}
