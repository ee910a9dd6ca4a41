// Tables over the functions of a unit: what each function needs together with the functions that it calls, as deep as calls may
// go.

ghost use Rattle.std.specs.Prelude.{◌≡◌, ◌≤◌, ℕ, ◌∷◌, [], length, get_or, IfOk};
ghost use Rattle.cc_emit.specs.Contract.{largest_frame, most_open};
ghost use Rattle.cc_link.specs.Linked.{all_items, lent_pieces};
ghost use Rattle.cc_link.specs.Stack.{larger, most_called, need};
ghost use Rattle.cc_size.specs.internal.Deeper.{deeper, AreFew};

use cc_emit::{Piece, PieceItem};
use std::alloc::{AllocError, Global};

fn larger(a: u32, b: u32) -> u32
    ensures { result ≡ larger a b }
{
    if a <= b { b } else { a }
}

// The entry of the function that an item calls; 0 if the item calls none.
fn entry_at(table: &[u32], item: &PieceItem) -> u32
    ensures { result ≡ most_called (λ g. get_or table.now g 0) (item.now ∷ []) }
{
    match item {
        PieceItem::Call(function) => table.get(*function as usize).copied().unwrap_or(0),
        PieceItem::Plain(_) | PieceItem::Go(_) => 0,
    }
}

// The largest entry of a function that one of the items calls.
fn most_called(table: &[u32], items: &[PieceItem]) -> u32
    ensures { result ≡ most_called (λ g. get_or table.now g 0) items.now }
{
    let mut most = 0;
    for item in items {
        most = larger(most, entry_at(table, item));
    }
    most
}

// The table if one more call may be open than in `table`. `own` has the bytes that each function itself needs.
fn deeper(
    alloc: Global,
    own: &[u32],
    pieces: &[&Piece],
    table: &[u32],
) -> Result<Vec<u32>, AllocError>
    requires count { length pieces.now ≡ length own.now }
    requires own { AreFew largest_frame own.now }
    requires table { AreFew 2078736 table.now }
    ensures { IfOk result (λ more. more.items ≡ deeper (λ g. get_or table.now g 0) own.now (all_items (lent_pieces pieces.now))) }
{
    let mut more = Vec::with_capacity(alloc, own.len())?;
    for at in 0..own.len() {
        more.push(own[at] + most_called(table, pieces[at].items()))?;
    }
    Ok(more)
}

/// The table of the most that a call of each function needs, if `calls` calls may be open, including that one. `own` has the
/// bytes that each function itself needs.
pub(crate) fn needs(
    alloc: Global,
    own: &[u32],
    pieces: &[&Piece],
    calls: u32,
) -> Result<Vec<u32>, AllocError>
    requires count { length pieces.now ≡ length own.now }
    requires own { AreFew largest_frame own.now }
    requires calls { calls ≤ most_open }
    ensures { IfOk result (λ table. (f : ℕ) → get_or table.items f 0 ≡ need own.now (all_items (lent_pieces pieces.now)) calls f) }
{
    let mut table = Vec::new(alloc);
    for _call in 0..calls {
        let more = deeper(alloc, own, pieces, table.as_slice())?;
        table = more;
    }
    Ok(table)
}
