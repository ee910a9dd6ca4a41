// Functions that are made from their parts.

use cc_ltl::{Block, Ltl, Move, Moves, Operation, Register, Slot, write_ltl};
use std::alloc::Global;
use std::test::Fail;
use tests_texts::lists::{alone, both};
use tests_texts::verdict::{passes, row_passes};

#[test]
fn registers_and_slots(_rt: HostRuntime) -> Result<(), Fail> {
    let registers = [0, 5, 6, 7, 31, 32].map(|number| Register::new(number).is_some());
    let slots = [0, 494, 495].map(|number| Slot::new(number).is_some());
    passes(Ok(
        registers == [false, false, false, true, true, false] && slots == [true, true, false],
    ))
}

// A block with this label, with these moves before its operation and none after.
fn block(
    alloc: Global,
    label: u32,
    before: Vec<Move>,
    operation: Operation,
) -> Result<Block, Fail> {
    let Ok(before) = Moves::new(before) else {
        return Err(Fail::from("too many moves"));
    };
    let Ok(after) = Moves::new(Vec::new(alloc)) else {
        return Err(Fail::from("no moves are moves"));
    };
    Ok(Block {
        label,
        before,
        operation,
        after,
    })
}

// A block with this label that loads x10 from slot 2 and leads to another one.
fn loading(alloc: Global, label: u32, next: u32) -> Result<Block, Fail> {
    let (Some(to), Some(slot)) = (Register::new(10), Slot::new(2)) else {
        return Err(Fail::from("no register"));
    };
    let reload = alone(alloc, Move::Reload { to, slot })?;
    block(alloc, label, reload, Operation::Nop { next })
}

// A block with this label that loads x10 from slot 2, and then one that returns.
fn two_blocks(alloc: Global, first: u32, second: u32) -> Result<Vec<Block>, Fail> {
    let load = loading(alloc, first, second)?;
    match block(alloc, second, Vec::new(alloc), Operation::Return) {
        Ok(last) => Ok(both(alloc, load, last)?),
        Err(fail) => {
            drop(load);
            Err(fail)
        }
    }
}

// The function with this many slots, whose first label is `first`, and with these blocks.
fn of_blocks(slots: u16, first: u32, blocks: Vec<Block>) -> Result<Option<Ltl>, Fail> {
    match Ltl::new(slots, first, blocks) {
        Ok(ltl) => Ok(Some(ltl)),
        Err(back) => {
            let are_two = back.len() == 2;
            drop(back);
            if are_two {
                Ok(None)
            } else {
                Err(Fail::from("other blocks came back"))
            }
        }
    }
}

// The number of slots, two labels, and whether such a function exists.
type Parts = (u16, u32, u32, bool);

static PARTS: [Parts; 6] = [
    (3, 0, 1, true),
    (495, 0, 1, true),
    (496, 0, 1, false),
    (2, 0, 1, false),
    (3, 1, 1, false),
    (3, 2, 1, false),
];

fn is_made(alloc: Global, row: &Parts) -> Result<bool, Fail> {
    let made = of_blocks(row.0, row.1, two_blocks(alloc, row.1, row.2)?)?;
    let is_made = made.is_some();
    drop(made);
    Ok(is_made == row.3)
}

#[test]
fn functions_from_parts(rt: HostRuntime) -> Result<(), Fail> {
    for number in 0..PARTS.len() {
        row_passes(number, is_made(rt.alloc(), &PARTS[number]))?;
    }
    Ok(())
}

// 3 slots, entry 0, two blocks.
static TWO: [u8; 38] =
    *b"\x03\x00\x00\x00\x00\x00\x00\x00\x02\x00\x00\x00\x00\x00\x00\x00\x01\x00\x01\x0a\x02\x00\x00\x01\x00\x00\x00\x00\x00\x01\x00\x00\x00\x00\x00\x0a\x00\x00";

// Whether a function has the parts of the one below, and is written as its bytes.
fn is_two(alloc: Global, ltl: &Ltl) -> Result<bool, Fail> {
    let has_parts = ltl.slots() == 3 && ltl.entry() == 0 && ltl.blocks().len() == 2;
    let bytes = write_ltl(alloc, ltl)?;
    Ok(has_parts && bytes.as_slice() == TWO.as_slice())
}

#[test]
fn made_functions_are_written(rt: HostRuntime) -> Result<(), Fail> {
    match of_blocks(3, 0, two_blocks(rt.alloc(), 0, 1)?)? {
        Some(ltl) => {
            let answer = is_two(rt.alloc(), &ltl);
            drop(ltl);
            passes(answer)
        }
        None => Err(Fail::from("the parts are a function")),
    }
}

// Whether so many moves are those of a block.
fn are_moves(alloc: Global, count: usize) -> Result<bool, Fail> {
    let Some(x8) = Register::new(8) else {
        return Err(Fail::from("no register"));
    };
    let copy = Move::Between { to: x8, from: x8 };
    Ok(Moves::new(vec![in alloc; copy; count]?).is_ok())
}

#[test]
fn moves_have_a_limit(rt: HostRuntime) -> Result<(), Fail> {
    passes(Ok(are_moves(rt.alloc(), 65_535)? && !are_moves(rt.alloc(), 65_536)?))
}
