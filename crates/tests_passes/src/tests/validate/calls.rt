// Where a value may be kept while another function runs. By the standard calling convention of RISC-V, a call keeps x8, x9 and
// x18 to x27 (s0 to s11); the words of all other registers are lost.

use super::changes::as_moves;
use crate::tests::pairs::{rtl_of, verdict};
use cc_colour::spill_all;
use cc_ltl::{Block, Ltl, Move, Moves, Register};
use std::alloc::Global;
use std::test::Fail;
use tests_texts::verdict::passes;

// Function 1 needs its parameter again: in one text after a call, in the other without a call.
static BEHIND_A_CALL: &str = "int g(void){return 7;}int f(int x){g();return x;}int main(void){}";

static WITHOUT_A_CALL: &str = "int g(void){return 7;}int f(int x){return x;}int main(void){}";

static KEPT: [u8; 12] = [8, 9, 18, 19, 20, 21, 22, 23, 24, 25, 26, 27];

// The move, with this register instead of slot 0, which `spill_all` gives the parameter.
fn moved(each: Move, place: Register) -> Move {
    match each {
        Move::Spill { slot, from } if slot.number() == 0 => Move::Between { to: place, from },
        Move::Reload { to, slot } if slot.number() == 0 => Move::Between { to, from: place },
        other => other,
    }
}

fn all_moved(alloc: Global, moves: &[Move], place: Register) -> Result<Moves, Fail> {
    let mut made = Vec::new(alloc);
    for each in moves {
        made.push(moved(*each, place))?;
    }
    as_moves(made)
}

fn moved_block(alloc: Global, block: &Block, place: Register) -> Result<Block, Fail> {
    let before = all_moved(alloc, block.before.moves(), place)?;
    match all_moved(alloc, block.after.moves(), place) {
        Ok(after) => Ok(Block {
            label: block.label,
            before,
            operation: block.operation,
            after,
        }),
        Err(fail) => {
            drop(before);
            Err(fail)
        }
    }
}

fn in_register(alloc: Global, spilled: &Ltl, place: Register) -> Result<Ltl, Fail> {
    let mut blocks = Vec::new(alloc);
    for block in spilled.blocks() {
        blocks.push(moved_block(alloc, block, place)?)?;
    }
    match Ltl::new(spilled.slots(), spilled.entry(), blocks) {
        Ok(ltl) => Ok(ltl),
        Err(blocks) => {
            drop(blocks);
            Err(Fail::from("no function"))
        }
    }
}

// Whether the validator gives this answer (a fault's number, or 0) for function 1 if its parameter is in this register all the
// time.
fn is_answered(alloc: Global, text: &str, place: Register, wanted: u32) -> Result<bool, Fail> {
    let pair = rtl_of(alloc, text.as_bytes(), 1)?;
    let spilled = spill_all(alloc, pair.code())?;
    let ltl = in_register(alloc, &spilled, place)?;
    drop(spilled);
    Ok(verdict(alloc, pair, ltl) == wanted)
}

// Whether a value in the register with this number is accepted across a call exactly if calls keep the register, and is always
// accepted without a call.
fn is_kept_or_not(alloc: Global, number: u8) -> Result<bool, Fail> {
    let Some(place) = Register::new(number) else {
        return Ok(false);
    };
    let is_kept = KEPT.as_slice().contains(&number);
    let wanted = if is_kept { 0 } else { 24 };
    Ok(
        is_answered(alloc, BEHIND_A_CALL, place, wanted)?
            && is_answered(alloc, WITHOUT_A_CALL, place, 0)?,
    )
}

#[test]
fn a_value_lives_over_a_call_in_a_kept_register_alone(rt: HostRuntime) -> Result<(), Fail> {
    for number in 7..32u8 {
        passes(is_kept_or_not(rt.alloc(), number))?;
    }
    Ok(())
}
