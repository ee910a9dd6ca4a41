// The pass: it makes the piece of a pair of selected steps.

ghost use Rattle.std.specs.Prelude.{◌≡◌, IfOk};
ghost use Rattle.cc_emit.specs.Function.{pair_frame, pair_items};

use crate::bases::Bases;
use crate::emission::function_items;
use crate::frame::frame_bytes;
use crate::piece::Piece;
use cc_select::SelectedPair;
use std::alloc::{AllocError, Global};
use std::sync::Arc;

/// At most this many steps are emitted. No memory holds more.
const MOST_STEPS: usize = 1 << 55;

/// Makes the items of the code of a unit's function: those that `specs/Function.antt` defines, at most 15 for each step, and at most
/// 16 in the prologue. The answer's type keeps the fact that these items make the machine do what the function does. The answer also
/// has the LTL, and the size of the frame in bytes.
///
/// This fails only if memory runs out (40); the pair is then lost.
pub fn emit(alloc: Global, pair: SelectedPair) -> Result<Piece, AllocError>
    ensures mode { IfOk result (λ piece. piece.mode ≡ pair.mode) }
    ensures unit { IfOk result (λ piece. piece.unit ≡ pair.unit) }
    ensures function { IfOk result (λ piece. piece.function ≡ pair.function) }
    ensures ltl { IfOk result (λ piece. piece.ltl ≡ pair.ltl) }
    ensures frame { IfOk result (λ piece. piece.frame ≡ pair_frame pair) }
    ensures items { IfOk result (λ piece. piece.items ≡ pair_items pair) }
{
    let code = pair.code();
    if code.len() > MOST_STEPS {
        return Err(AllocError);
    }
    let bases = Bases::new(alloc, pair.unit().externals())?;
    let items = function_items(alloc, pair.slots(), code, &bases)?;
    let frame = frame_bytes(alloc, pair.slots(), code)?;
    let mode = pair.mode();
    let function = pair.function();
    let (unit, ltl) = pair.into_parts();
    Ok(Piece::new(mode, unit, function, ltl, frame, items))
}
