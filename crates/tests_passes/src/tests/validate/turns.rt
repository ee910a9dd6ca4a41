// Words that are passed round through three slots, by few moves and by more moves than there are locations.

use super::changes::with_moves;
use crate::tests::pairs::{rtl_of, verdict};
use cc_colour::spill_all;
use cc_ltl::{Ltl, Move, Register, Slot};
use std::alloc::Global;
use std::test::Fail;
use tests_texts::verdict::row_passes;

static TEXT: &str = "int f(int a,int b,int c){return (a-b)/c;}int main(void){}";

// The move from a slot to a register.
fn reload(to: u8, slot: u16) -> Result<Move, Fail> {
    match (Register::new(to), Slot::new(slot)) {
        (Some(to), Some(slot)) => Ok(Move::Reload { to, slot }),
        _ => Err(Fail::from("no register or no slot")),
    }
}

// The move from a register to a slot.
fn spill(slot: u16, from: u8) -> Result<Move, Fail> {
    match (Register::new(from), Slot::new(slot)) {
        (Some(from), Some(slot)) => Ok(Move::Spill { slot, from }),
        _ => Err(Fail::from("no register or no slot")),
    }
}

// Parameter i goes to slot i + shift, in a ring of slots 0 to 2. Then each of the three words goes to the slot below, `turns`
// times.
fn turned(alloc: Global, shift: u16, turns: u32) -> Result<Vec<Move>, Fail> {
    let mut moves = Vec::new(alloc);
    for number in 0..3u8 {
        let slot = u16::from(number).saturating_add(shift) % 3;
        moves.push(spill(slot, 10 + number)?)?;
    }
    for _ in 0..turns {
        turn(&mut moves)?;
    }
    Ok(moves)
}

fn turn(moves: &mut Vec<Move>) -> Result<(), Fail> {
    moves.push(reload(30, 0)?)?;
    for number in 0..2u16 {
        moves.push(reload(31, number + 1)?)?;
        moves.push(spill(number, 31)?)?;
    }
    moves.push(spill(2, 30)?)?;
    Ok(())
}

fn entry_place(ltl: &Ltl) -> usize {
    for (place, block) in ltl.blocks().iter().enumerate() {
        if block.label == ltl.entry() {
            return place;
        }
    }
    ltl.blocks().len()
}

// The allocation that passes the words round before its entry.
fn turning(alloc: Global, spilled: &Ltl, turns: u32, shift: u16) -> Result<Ltl, Fail> {
    let moves = turned(alloc, shift, turns)?;
    let made = with_moves(
        alloc,
        spilled,
        entry_place(spilled),
        moves.as_slice(),
        false,
    );
    drop(moves);
    match made? {
        Some(ltl) => Ok(ltl),
        None => Err(Fail::from("no function")),
    }
}

fn answer(alloc: Global, turns: u32, shift: u16) -> Result<u32, Fail> {
    let pair = rtl_of(alloc, TEXT.as_bytes(), 0)?;
    let spilled = spill_all(alloc, pair.code())?;
    let ltl = turning(alloc, &spilled, turns, shift)?;
    drop(spilled);
    Ok(verdict(alloc, pair, ltl))
}

// Whether the validator accepts the moves if they bring the parameters back to their own slots, and otherwise refuses them with
// 24.
fn is_answered(alloc: Global, turns: u32, shift: u16) -> Result<bool, Fail> {
    let wanted = if turns % 3 == u32::from(shift) { 0 } else { 24 };
    Ok(answer(alloc, turns, shift)? == wanted)
}

// Whether the validator does so at each shift.
fn are_answered(alloc: Global, turns: u32) -> Result<bool, Fail> {
    Ok(
        is_answered(alloc, turns, 0)?
            && is_answered(alloc, turns, 1)?
            && is_answered(alloc, turns, 2)?,
    )
}

static TURNS: [u32; 11] = [0, 1, 2, 3, 87, 88, 89, 90, 9_999, 10_000, 10_001];

#[test]
fn words_are_where_the_turns_leave_them(rt: HostRuntime) -> Result<(), Fail> {
    for number in 0..TURNS.len() {
        row_passes(number, are_answered(rt.alloc(), TURNS[number]))?;
    }
    Ok(())
}
