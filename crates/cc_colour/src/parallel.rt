// Orders moves that should happen all at once, so that they can be done one after the other.
//
// A move may be done when no other move still reads the place that it writes. If no move may be done, each of them is on a cycle
// of registers: one register is copied to a spare register, which is read instead of it from then on, and then the move into the
// copied register may be done.

use crate::registers::{Place, Registers, first_free, numbered, numbered_slot, only};
use cc_ltl::Move;
use std::alloc::AllocError;

/// One of the moves.
#[derive(Clone, Copy)]
pub struct Transfer {
    pub to: Place,
    pub from: Place,
}

/// Adds to `into` moves that do all the pending ones, which write different places. Apart from their targets, no register of
/// `kept` is changed. Answers whether there was a spare register for each cycle; if not, some moves are left out. `Err` if memory
/// runs out.
pub fn in_parallel(
    pending: &mut Vec<Transfer>,
    kept: Registers,
    into: &mut Vec<Move>,
) -> Result<bool, AllocError> {
    for _ in 0..pending.len().saturating_mul(2) {
        match ready(pending.as_slice()) {
            Some(at) => {
                if at < pending.len() {
                    let done = pending.swap_remove(at);
                    if !done.to.is(done.from) {
                        push_move(into, done)?;
                    }
                }
            }
            None => {
                if !turn_aside(pending.as_mut_slice(), kept, into)? {
                    return Ok(false);
                }
            }
        }
    }
    Ok(true)
}

/// Adds one move. For a move from slot to slot, which LTL does not have, nothing is added. `Err` if memory runs out.
pub fn push_move(into: &mut Vec<Move>, transfer: Transfer) -> Result<(), AllocError> {
    match as_move(transfer) {
        Some(one) => put(into, one),
        None => Ok(()),
    }
}

fn as_move(transfer: Transfer) -> Option<Move> {
    match transfer.to {
        Place::Register(to) => match transfer.from {
            Place::Register(from) => Some(Move::Between {
                to: numbered(to),
                from: numbered(from),
            }),
            Place::Slot(slot) => Some(Move::Reload {
                to: numbered(to),
                slot: numbered_slot(slot),
            }),
        },
        Place::Slot(slot) => match transfer.from {
            Place::Register(from) => Some(Move::Spill {
                slot: numbered_slot(slot),
                from: numbered(from),
            }),
            Place::Slot(_) => None,
        },
    }
}

fn put(into: &mut Vec<Move>, one: Move) -> Result<(), AllocError> {
    into.push(one)?;
    Ok(())
}

// The first move that changes nothing, or whose target no other move reads.
fn ready(pending: &[Transfer]) -> Option<usize> {
    for (at, transfer) in pending.iter().enumerate() {
        if transfer.to.is(transfer.from) || !is_read(pending, transfer.to) {
            return Some(at);
        }
    }
    None
}

fn is_read(pending: &[Transfer], place: Place) -> bool {
    for transfer in pending {
        if transfer.from.is(place) {
            return true;
        }
    }
    false
}

// Copies the register that the first move reads to a spare register, which is read instead of it from now on. Answers whether
// there was a spare register; if there is no move, the answer is yes.
fn turn_aside(
    pending: &mut [Transfer],
    kept: Registers,
    into: &mut Vec<Move>,
) -> Result<bool, AllocError> {
    let Some(from) = first_source(pending) else {
        return Ok(pending.is_empty());
    };
    let Some(spare) = first_free(kept | touched(pending)) else {
        return Ok(false);
    };
    push_move(
        into,
        Transfer {
            to: Place::Register(spare),
            from: Place::Register(from),
        },
    )?;
    read_instead(pending, from, spare);
    Ok(true)
}

// The register that the first move reads.
fn first_source(pending: &[Transfer]) -> Option<u8> {
    match pending.first() {
        Some(transfer) => match transfer.from {
            Place::Register(register) => Some(register),
            Place::Slot(_) => None,
        },
        None => None,
    }
}

// The registers that are written or read.
fn touched(pending: &[Transfer]) -> Registers {
    let mut registers = 0;
    for transfer in pending {
        registers |= register_of(transfer.to) | register_of(transfer.from);
    }
    registers
}

fn read_instead(pending: &mut [Transfer], from: u8, spare: u8) {
    for transfer in pending.iter_mut() {
        if transfer.from.is(Place::Register(from)) {
            transfer.from = Place::Register(spare);
        }
    }
}

fn register_of(place: Place) -> Registers {
    match place {
        Place::Register(register) => only(register),
        Place::Slot(_) => 0,
    }
}
