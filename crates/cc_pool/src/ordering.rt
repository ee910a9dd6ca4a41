// How a job's answers are put in order.
//
// A plain channel does not say which job a message comes from. So an answer is recognised by its mode, its text (compared at run
// time) and its function's number. An answer for another text or mode is left out.

ghost use Rattle.std.specs.Prelude.{◌≡◌, ◌<◌, length, All, HoldsAt, IfOk, IfErr, IfSome};
ghost use Rattle.cc_link.specs.Made.{IsCompiled};
ghost use Rattle.cc_link.specs.Pieces.{AreFromIn};
ghost use Rattle.cc_pool.specs.Fault.{IsJobRefusal};
ghost use Rattle.cc_pool.specs.internal.Reason.{IsOf, IsReason};

use crate::answer::{Answer, Refusal};
use crate::fault::PoolFault;
use cc_emit::Piece;
use cc_link::Mode;
use cc_types::TypedUnit;
use crossbeam_channel::Receiver;
use std::alloc::{AllocError, Global};
use std::sync::Wait;

// The answers that came, in order of arrival.
#[derive(Drop)]
pub(crate) struct Came {
    pieces: Vec<Piece>,
    refusals: Vec<Refusal>,
}

// This many answers, or, if the answers end early, those that came until then. Err: memory ran out.
pub(crate) fn gather<R: Wait>(
    rt: &R,
    alloc: Global,
    answers: &Receiver<Answer>,
    count: usize,
) -> Result<Came, AllocError> {
    let mut pieces = Vec::with_capacity(alloc, count)?;
    let mut refusals = Vec::new(alloc);
    for _ in 0..count {
        match answers.recv(rt) {
            Ok(Answer::Made(piece)) => pieces.push(piece)?,
            Ok(Answer::Refused(refusal)) => refusals.push(refusal)?,
            Err(_) => break,
        }
    }
    Ok(Came { pieces, refusals })
}

// The fault for a function whose piece did not come: the reason that a worker gave, otherwise 41.
fn reason(mode: Mode, text: &[u8], function: usize, refusals: &[Refusal]) -> PoolFault
    ensures { IsReason mode text.now function result }
{
    for refusal in refusals {
        if refusal.function() == function && refusal.mode() == mode && refusal.text() == text {
            return PoolFault::Piece {
                function,
                fault: refusal.fault(),
            };
        }
    }
    PoolFault::WorkersGone
}

// The index of the piece of a function of a text in a mode.
fn place_of(pieces: &[Piece], mode: Mode, text: &[u8], function: usize) -> Option<usize>
    ensures within { IfSome result (λ at. at < length pieces.now) }
    ensures some { IfSome result (λ at. HoldsAt (IsOf mode text.now function) pieces.now at) }
{
    for at in 0..pieces.len() {
        if pieces[at].function() == function
            && pieces[at].mode() == mode
            && pieces[at].unit().text() == text
        {
            return Some(at);
        }
    }
    None
}

// Takes out the piece of a function of a text in a mode.
fn piece_of(pieces: &mut Vec<Piece>, mode: Mode, text: &[u8], function: usize) -> Option<Piece>
    ensures { IfSome result (IsOf mode text.now function) }
{
    let at = place_of(pieces.as_slice(), mode, text, function)?;
    Some(pieces.swap_remove(at))
}

// The pieces of this many functions of a text in a mode, in the order of functions, or the fault for the first function whose
// piece did not come.
pub(crate) fn in_order(
    alloc: Global,
    mode: Mode,
    text: &[u8],
    functions: usize,
    came: Came,
) -> Result<Vec<Piece>, PoolFault>
    ensures count { IfOk result (λ pieces. length pieces.items ≡ functions) }
    ensures own { IfOk result (λ pieces. AreFromIn mode text.now 0 pieces.items) }
    ensures compiled { IfOk result (λ pieces. All IsCompiled pieces.items) }
    ensures refused { IfErr result (λ fault. IsJobRefusal mode text.now fault) }
{
    let Came {
        pieces: mut made,
        refusals,
    } = came;
    let mut pieces = Vec::new(alloc);
    for function in 0..functions {
        let Some(piece) = piece_of(&mut made, mode, text, function) else {
            return Err(reason(mode, text, function, refusals.as_slice()));
        };
        // Gives the proof what the types of the piece and of its unit keep.
        let _kept = piece.items();
        let other: &TypedUnit = piece.unit();
        let _kept = other.externals();
        if pieces.push(piece).is_err() {
            return Err(PoolFault::OutOfMemory);
        }
    }
    Ok(pieces)
}
