// Tables with one entry for each function, given the pieces in the order of the functions.

ghost use Rattle.std.specs.Prelude.{◌≡◌, ℕ, get_or, IfOk};
ghost use Rattle.cc_emit.specs.Contract.{largest_frame};
ghost use Rattle.cc_link.specs.Linked.{lent_pieces};
ghost use Rattle.cc_size.specs.Size.{frames_of, ones_of, sizes_of, stack_at, calls_at};
ghost use Rattle.cc_size.specs.internal.Deeper.{AreFew};

use crate::size::FunctionSize;
use cc_emit::Piece;
use std::alloc::{AllocError, Global};

/// The bytes of each function's frame.
pub(crate) fn frames(alloc: Global, pieces: &[&Piece]) -> Result<Vec<u32>, AllocError>
    ensures answer { IfOk result (λ frames. frames.items ≡ frames_of (lent_pieces pieces.now)) }
    ensures few { IfOk result (λ frames. AreFew largest_frame frames.items) }
{
    let mut frames = Vec::with_capacity(alloc, pieces.len())?;
    for piece in pieces {
        frames.push(piece.frame())?;
    }
    Ok(frames)
}

/// The number 1 for each function.
pub(crate) fn ones(alloc: Global, pieces: &[&Piece]) -> Result<Vec<u32>, AllocError>
    ensures answer { IfOk result (λ ones. ones.items ≡ ones_of (lent_pieces pieces.now)) }
    ensures few { IfOk result (λ ones. AreFew largest_frame ones.items) }
{
    let mut ones = Vec::with_capacity(alloc, pieces.len())?;
    for _piece in pieces {
        ones.push(1)?;
    }
    Ok(ones)
}

/// The entry of a function; 0 if the table has no such entry.
pub(crate) fn entry(table: &[u32], function: usize) -> u32
    ensures { result ≡ get_or table.now function 0 }
{
    table.get(function).copied().unwrap_or(0)
}

/// What each function needs.
pub(crate) fn sizes(
    alloc: Global,
    pieces: &[&Piece],
    stacks: &[u32],
    calls: &[u32],
) -> Result<Vec<FunctionSize>, AllocError>
    requires stacks { (f : ℕ) → get_or stacks.now f 0 ≡ stack_at (lent_pieces pieces.now) f }
    requires calls { (f : ℕ) → get_or calls.now f 0 ≡ calls_at (lent_pieces pieces.now) f }
    ensures { IfOk result (λ sizes. sizes.items ≡ sizes_of (lent_pieces pieces.now)) }
{
    let mut sizes = Vec::with_capacity(alloc, pieces.len())?;
    for (function, piece) in pieces.iter().enumerate() {
        sizes.push(FunctionSize {
            words: piece.items().len(),
            frame: piece.frame(),
            stack: entry(stacks, function),
            calls: entry(calls, function),
        })?;
    }
    Ok(sizes)
}
