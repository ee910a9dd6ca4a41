// A function of LTL: its blocks, in the order of their labels.

ghost use Rattle.std.specs.Prelude.{◌≡◌, ◌↔◌, not, IsTrue, IsOk, MatchResult};
ghost use Rattle.std.specs.List.{AllByRecursion};
ghost use Rattle.cc_ltl.specs.Ltl.{Ltl as Function, IsLtl, IsMove, IsOperation, IsBlock, IsBelowFirst, Ascend, goes_on};

use crate::block::Block;
use crate::location::MOST_SLOTS;
use crate::operation::{Move, Operation};
use std::marker::Model;

/// A function: its number of slots, the label of the block at which it begins, and its blocks in ascending order of their
/// labels. The values of this type are exactly the functions that bytes can spell: at most 495 slots, each slot below the
/// function's number of slots, and no moves after a branch or a return. Contracts see these parts.
pub struct Ltl {
    slots: u16,
    entry: u32,
    blocks: Vec<Block>,
}

// Written by hand, so that crates above can call this `drop` and need not prove again how each part is dropped.
impl Drop for Ltl {
    fn drop(self) {
        let Ltl {
            slots,
            entry,
            blocks,
        } = self;
    }
}

impl Model for Ltl {
    ghost use Rattle.cc_ltl.specs.Ltl.{Ltl as Function, IsLtl};

    ghost Value = { Function };

    ghost view = { λ l. record { slots = l.slots; entry = l.entry; blocks = l.blocks.items } };

    ghost invariant = { λ l. IsLtl (record { slots = l.slots; entry = l.entry; blocks = l.blocks.items }) };
}

impl Ltl {
    /// Makes a function of these parts. Fails and hands the blocks back if the parts make no function: more than 495 slots,
    /// labels that do not ascend, a slot that is not below the number of slots, moves after a branch or a return, or 2^32
    /// blocks or more. Takes no memory.
    pub fn new(slots: u16, entry: u32, blocks: Vec<Block>) -> Result<Self, Vec<Block>>
        ensures fits { IsOk result ↔ IsLtl (record { slots = slots; entry = entry; blocks = blocks.items }) }
        ensures hands_back { MatchResult result (λ ltl. ltl ≡ record { slots = slots; entry = entry; blocks = blocks.items }) (λ back. back ≡ blocks) }
    {
        if slots > MOST_SLOTS
            || blocks.len() > 0xffff_ffff
            || !ascend(&blocks)
            || !blocks_fit(slots, &blocks)
        {
            return Err(blocks);
        }
        Ok(Ltl {
            slots,
            entry,
            blocks,
        })
    }

    /// The function's number of slots, at most 495.
    pub fn slots(&self) -> u16
        ensures { result ≡ self.now.slots }
    {
        self.slots
    }

    /// The label of the block at which the function begins.
    pub fn entry(&self) -> u32
        ensures { result ≡ self.now.entry }
    {
        self.entry
    }

    /// The blocks, in the order of their labels.
    pub fn blocks(&self) -> &[Block]
        ensures blocks { result.now ≡ self.now.blocks }
        ensures ltl { IsLtl self.now }
    {
        self.blocks.as_slice()
    }
}

// Whether the labels of the blocks ascend.
fn ascend(blocks: &[Block]) -> bool
    ensures { IsTrue result ↔ Ascend blocks.now }
{
    match blocks {
        [] => true,
        [first, rest @ ..] => ascend_after(first, rest),
    }
}

fn ascend_after(first: &Block, rest: &[Block]) -> bool
    ensures { IsTrue result ↔ (IsBelowFirst first.now.label rest.now × Ascend rest.now) }
{
    let mut last = first.label;
    for block in rest {
        if block.label <= last {
            return false;
        }
        last = block.label;
    }
    true
}

// Whether each block is right for a function with this many slots.
fn blocks_fit(slots: u16, blocks: &[Block]) -> bool
    ensures { IsTrue result ↔ AllByRecursion (IsBlock slots) blocks.now }
{
    for block in blocks {
        if !block_fits(slots, block) {
            return false;
        }
    }
    true
}

fn block_fits(slots: u16, block: &Block) -> bool
    ensures { IsTrue result ↔ IsBlock slots block.now }
{
    let _label = block.label;
    let before = block.before.moves();
    let after = block.after.moves();
    let ends = ends(&block.operation);
    (after.is_empty() || !ends) && moves_fit(slots, before) && moves_fit(slots, after)
}

// Whether the operation has no single next block: it is a branch or a return. The other facts about an operation hold by its
// type. The code reads the operation's numbers only so that the proof sees their ranges.
fn ends(operation: &Operation) -> bool
    ensures ends { result ≡ not (goes_on operation.now) }
    ensures operation { IsOperation operation.now }
{
    match operation {
        Operation::Nop { next } | Operation::Read { next } | Operation::Write { next } => {
            let _words = *next;
            false
        }
        Operation::Const { to, word, next } => {
            let _kept = to.number();
            let _words = (*word, *next);
            false
        }
        Operation::Unary { to, from, next, .. } => {
            let _kept = (to.number(), from.number());
            let _words = *next;
            false
        }
        Operation::Binary {
            to,
            left,
            right,
            next,
            ..
        } => {
            let _kept = (to.number(), left.number(), right.number());
            let _words = *next;
            false
        }
        Operation::Load {
            object,
            to,
            index,
            next,
            ..
        } => {
            let _kept = (to.number(), index.number());
            let _words = (*object, *next);
            false
        }
        Operation::Store {
            object,
            index,
            from,
            next,
            ..
        } => {
            let _kept = (index.number(), from.number());
            let _words = (*object, *next);
            false
        }
        Operation::Call { function, next } => {
            let _words = (*function, *next);
            false
        }
        Operation::Branch {
            from,
            if_nonzero,
            if_zero,
        } => {
            let _kept = from.number();
            let _words = (*if_nonzero, *if_zero);
            true
        }
        Operation::Return => true,
    }
}

fn moves_fit(slots: u16, moves: &[Move]) -> bool
    ensures { IsTrue result ↔ AllByRecursion (IsMove slots) moves.now }
{
    for each in moves {
        if !move_fits(slots, each) {
            return false;
        }
    }
    true
}

// Whether a move's slot is below the number of slots. Its registers are allocatable by their type.
fn move_fits(slots: u16, each: &Move) -> bool
    ensures { IsTrue result ↔ IsMove slots each.now }
{
    match each {
        Move::Between { to, from } => {
            let _kept = (to.number(), from.number());
            true
        }
        Move::Reload { to: register, slot }
        | Move::Spill {
            slot,
            from: register,
        } => {
            let _kept = register.number();
            slot.number() < slots
        }
    }
}
