// The piece of each function: the refusals Stranger (28), Doubled (27) and Missing (26), and the functions' pieces in the
// order of definitions.
//
// There are at most 64 functions, so a piece is found by going over all the pieces.

ghost use Rattle.std.specs.Prelude.{◌≡◌, ◌⊎◌, [], None, Some, All, IfOk, IfErr, IfNone, MatchOption};
ghost use Rattle.cc_emit.specs.Piece.{IsPieceOfUnit};
ghost use Rattle.cc_link.specs.declared.fault.LinkFault.TheVariants.{OutOfMemory};
ghost use Rattle.cc_link.specs.Made.{IsCompiled};
ghost use Rattle.cc_link.specs.Linked.{same_mode, is_own, stranger, is_among, doubled, piece_of, missing, in_order, all_items, lent_pieces};
ghost use Rattle.cc_link.specs.internal.Filling.{lent};
ghost use Rattle.cc_link.specs.internal.Lent.{functions_of};

use crate::fault::LinkFault;
use cc_c_semantics::Mode;
use cc_emit::{Piece, PieceItem};
use cc_types::TypedUnit;
use std::alloc::{AllocError, Global};

// Whether two modes are the same.
fn same_mode(a: Mode, b: Mode) -> bool
    ensures { result ≡ same_mode a b }
{
    match a {
        Mode::Plain => match b {
            Mode::Plain => true,
            Mode::Checked => false,
        },
        Mode::Checked => match b {
            Mode::Plain => false,
            Mode::Checked => true,
        },
    }
}

// Whether a piece is in this mode and of a unit of this text.
fn is_own(mode: Mode, text: &[u8], piece: &Piece) -> bool
    ensures { result ≡ is_own mode text.now piece.now }
{
    let unit: &TypedUnit = piece.unit();
    if same_mode(piece.mode(), mode) {
        unit.text() == text
    } else {
        false
    }
}

/// Stranger (28) for the first piece that is in another mode or of a unit with another text. If there is no such piece, each
/// piece has what its type keeps.
pub(crate) fn stranger(mode: Mode, text: &[u8], pieces: &[&Piece]) -> Option<LinkFault>
    ensures answer { result ≡ stranger mode text.now 0 (lent_pieces pieces.now) }
    ensures kept { IfNone result (All IsPieceOfUnit (lent_pieces pieces.now)) }
    ensures compiled { IfNone result (All IsCompiled (lent_pieces pieces.now)) }
{
    for (at, piece) in pieces.iter().enumerate() {
        let function = piece.function();
        let _kept = piece.items();
        let other: &TypedUnit = piece.unit();
        let _kept = other.externals();
        if !is_own(mode, text, *piece) {
            return Some(LinkFault::Stranger { function, at });
        }
    }
    None
}

// Whether one of the pieces is of the function.
fn came(pieces: &[&Piece], function: usize) -> bool
    ensures { result ≡ is_among (functions_of (lent_pieces pieces.now)) function }
{
    for piece in pieces {
        if piece.function() == function {
            return true;
        }
    }
    false
}

/// Doubled (27) for the first piece whose function has an earlier piece.
pub(crate) fn doubled(pieces: &[&Piece]) -> Option<LinkFault>
    ensures { result ≡ doubled [] 0 (lent_pieces pieces.now) }
{
    for (at, piece) in pieces.iter().enumerate() {
        let function = piece.function();
        if came(&pieces[..at], function) {
            return Some(LinkFault::Doubled { function, at });
        }
    }
    None
}

// The first piece of the function.
fn piece_of<'a>(pieces: &'a [&'a Piece], function: usize) -> Option<&'a Piece>
    ensures { MatchOption result (piece_of (lent_pieces pieces.now) function ≡ None) (λ piece. piece_of (lent_pieces pieces.now) function ≡ Some piece.now) }
{
    for piece in pieces {
        if piece.function() == function {
            return Some(*piece);
        }
    }
    None
}

/// The first piece of each of this many functions, in the order of functions; or Missing (26) for the lowest-numbered function
/// without a piece.
pub fn in_order<'a>(
    alloc: Global,
    functions: usize,
    pieces: &'a [&'a Piece],
) -> Result<Vec<&'a Piece>, LinkFault>
    ensures ordered { IfOk result (λ ordered. lent_pieces ordered.items ≡ in_order (lent_pieces pieces.now) 0 functions) }
    ensures none { IfOk result (λ _. missing (lent_pieces pieces.now) 0 functions ≡ None) }
    ensures refused { IfErr result (λ fault. (fault ≡ OutOfMemory) ⊎ (missing (lent_pieces pieces.now) 0 functions ≡ Some fault)) }
{
    let mut ordered = Vec::new(alloc);
    for function in 0..functions {
        let Some(piece) = piece_of(pieces, function) else {
            return Err(LinkFault::Missing { function });
        };
        if ordered.push(piece).is_err() {
            return Err(LinkFault::OutOfMemory);
        }
    }
    Ok(ordered)
}

/// The items of each piece, in the order of pieces.
pub(crate) fn all_items<'a>(
    alloc: Global,
    pieces: &'a [&'a Piece],
) -> Result<Vec<&'a [PieceItem]>, AllocError>
    ensures { IfOk result (λ bodies. lent bodies.items ≡ all_items (lent_pieces pieces.now)) }
{
    let mut bodies = Vec::with_capacity(alloc, pieces.len())?;
    for piece in pieces {
        bodies.push(piece.items())?;
    }
    Ok(bodies)
}
