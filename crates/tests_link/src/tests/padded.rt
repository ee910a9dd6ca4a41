// Code of any length: the allocation of a function, with needless moves before its blocks. Each move becomes one word of
// code, and the validator accepts the moves, since the registers that they use have no value in them.

use super::orders::piece;
use cc_cminor::to_cminor;
use cc_colour::spill_all;
use cc_emit::{Piece, emit};
use cc_linear::linearise;
use cc_link::{CompiledUnit, LinkFault, link};
use cc_ltl::{Block, Ltl, Move, Moves, Register};
use cc_rtl::{RtlPair, to_rtl};
use cc_select::select;
use cc_types::TypedUnit;
use cc_validate::{LtlPair, Refused, validate};
use std::alloc::Global;
use std::sync::Arc;
use std::test::Fail;

/// The place of a block, counted from 0, and how many moves are added before it.
pub type Padding = (usize, usize);

fn padding_of(paddings: &[Padding], place: usize) -> usize {
    let mut count = 0;
    for (at, more) in paddings {
        if *at == place {
            count = *more;
        }
    }
    count
}

// The moves of a block with `count` moves from x28 to x29 before them.
fn padded_moves(alloc: Global, count: usize, moves: &[Move]) -> Result<Moves, Fail> {
    let (Some(to), Some(from)) = (Register::new(29), Register::new(28)) else {
        return Err(Fail::from("no such register"));
    };
    let mut all = vec![in alloc; Move::Between { to, from }; count]?;
    all.extend_from_slice(moves)?;
    match Moves::new(all) {
        Ok(moves) => Ok(moves),
        Err(moves) => {
            drop(moves);
            Err(Fail::from("too many moves"))
        }
    }
}

fn padded_block(alloc: Global, block: &Block, count: usize) -> Result<Block, Fail> {
    Ok(Block {
        label: block.label,
        before: padded_moves(alloc, count, block.before.moves())?,
        operation: block.operation,
        after: padded_moves(alloc, 0, block.after.moves())?,
    })
}

fn padded_ltl(alloc: Global, ltl: &Ltl, paddings: &[Padding]) -> Result<Ltl, Fail> {
    let mut blocks = Vec::new(alloc);
    for (place, block) in ltl.blocks().iter().enumerate() {
        blocks.push(padded_block(alloc, block, padding_of(paddings, place))?)?;
    }
    match Ltl::new(ltl.slots(), ltl.entry(), blocks) {
        Ok(ltl) => Ok(ltl),
        Err(blocks) => {
            drop(blocks);
            Err(Fail::from("no function"))
        }
    }
}

// The RTL of one function.
fn rtl_of(alloc: Global, unit: &Arc<TypedUnit>, function: usize) -> Result<RtlPair, Fail> {
    if function >= unit.functions() {
        return Err(Fail::from("no such function"));
    }
    let cminor = to_cminor(alloc, unit, function)?;
    Ok(to_rtl(alloc, cminor)?)
}

// The allocation that `spill_all` makes for one function, with these paddings.
fn allocated(
    alloc: Global,
    unit: &Arc<TypedUnit>,
    function: usize,
    paddings: &[Padding],
) -> Result<LtlPair, Fail> {
    let pair = rtl_of(alloc, unit, function)?;
    let plain = spill_all(alloc, pair.code())?;
    let ltl = padded_ltl(alloc, &plain, paddings)?;
    match validate(alloc, pair, ltl) {
        Ok(pair) => Ok(pair),
        Err(Refused { pair, fault }) => {
            drop(pair);
            Err(Fail::from(fault))
        }
    }
}

/// How many blocks the allocation of a function has.
pub fn blocks(alloc: Global, unit: &Arc<TypedUnit>, function: usize) -> Result<usize, Fail> {
    let pair = rtl_of(alloc, unit, function)?;
    let plain = spill_all(alloc, pair.code())?;
    Ok(plain.blocks().len())
}

// The piece of a function with these paddings.
fn padded_piece(
    alloc: Global,
    unit: &Arc<TypedUnit>,
    function: usize,
    paddings: &[Padding],
) -> Result<Piece, Fail> {
    let pair = allocated(alloc, unit, function, paddings)?;
    let selected = select(alloc, linearise(alloc, pair)?)?;
    Ok(emit(alloc, selected)?)
}

/// Links a unit whose last function has these paddings.
pub fn padded(
    alloc: Global,
    unit: &Arc<TypedUnit>,
    paddings: &[Padding],
) -> Result<Result<CompiledUnit, LinkFault>, Fail> {
    let mut pieces = Vec::new(alloc);
    let last = unit.functions().saturating_sub(1);
    for function in 0..last {
        pieces.push(piece(alloc, unit, function)?)?;
    }
    pieces.push(padded_piece(alloc, unit, last, paddings)?)?;
    Ok(link(alloc, unit, pieces))
}
