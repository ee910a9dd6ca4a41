// Single changes of a function of LTL: one register, slot, successor, operator, constant or number in one operation or move is
// replaced with another, or one move is dropped or made twice.

use cc_ltl::{Block, Ltl, Move, Moves, Operation, Register, Slot};
use cc_words::{Binary, Unary, Width};
use std::alloc::{AllocError, Global};
use std::test::Fail;

// Another register.
fn other(register: Register, far: bool) -> Register {
    let by = if far { 5 } else { 1 };
    let number = (register.number() - 7 + by) % 25 + 7;
    Register::new(number).unwrap_or(register)
}

fn other_slot(slot: Slot, slots: u16) -> Slot {
    let number = if slot.number() + 1 < slots {
        slot.number() + 1
    } else {
        0
    };
    Slot::new(number).unwrap_or(slot)
}

fn other_unary(operator: Unary) -> Unary {
    match operator {
        Unary::Neg => Unary::Complement,
        Unary::Complement => Unary::IsZero,
        Unary::IsZero => Unary::Neg,
    }
}

fn other_binary(operator: Binary) -> Binary {
    match operator {
        Binary::Add => Binary::Sub,
        Binary::Sub => Binary::Add,
        Binary::Mul => Binary::Add,
        Binary::DivS => Binary::DivU,
        Binary::DivU => Binary::DivS,
        Binary::RemS => Binary::RemU,
        Binary::RemU => Binary::RemS,
        Binary::Shl => Binary::ShrU,
        Binary::ShrS => Binary::ShrU,
        Binary::ShrU => Binary::ShrS,
        Binary::And => Binary::Or,
        Binary::Or => Binary::Xor,
        Binary::Xor => Binary::And,
        Binary::Eq => Binary::Ne,
        Binary::Ne => Binary::Eq,
        Binary::LtS => Binary::LtU,
        Binary::LtU => Binary::LtS,
        Binary::LeS => Binary::LeU,
        Binary::LeU => Binary::LtU,
    }
}

/// The change of a move with this number, if there is one: two change what the move sets, and two change what it reads.
pub fn changed_move(each: &Move, slots: u16, number: u32) -> Option<Move> {
    if number > 3 {
        return None;
    }
    let far = number % 2 == 1;
    let sets = number < 2;
    match *each {
        Move::Between { to, from } => Some(Move::Between {
            to: if sets { other(to, far) } else { to },
            from: if sets { from } else { other(from, far) },
        }),
        Move::Reload { to, slot } => Some(Move::Reload {
            to: if sets { other(to, far) } else { to },
            slot: if sets { slot } else { other_slot(slot, slots) },
        }),
        Move::Spill { slot, from } => Some(Move::Spill {
            slot: if sets { other_slot(slot, slots) } else { slot },
            from: if sets { from } else { other(from, far) },
        }),
    }
}

// A register of an operation; another register instead, if this is the place to change.
fn register_at(number: u32, place: u32, register: Register) -> Register {
    if number == place {
        other(register, false)
    } else {
        register
    }
}

fn word_at(number: u32, place: u32, word: u32) -> u32 {
    if number == place {
        word.wrapping_add(1)
    } else {
        word
    }
}

fn label_at(number: u32, place: u32, label: u32, blocks: u32) -> u32 {
    if number != place {
        label
    } else if label.wrapping_add(1) < blocks {
        label.wrapping_add(1)
    } else {
        0
    }
}

fn width_at(number: u32, place: u32, width: Width) -> Width {
    match (number == place, width) {
        (true, Width::Word) | (false, Width::Byte) => Width::Byte,
        (true, Width::Byte) | (false, Width::Word) => Width::Word,
    }
}

/// How many changes an operation has.
pub fn operation_changes(operation: &Operation) -> u32 {
    match operation {
        Operation::Nop { .. } | Operation::Read { .. } | Operation::Write { .. } => 1,
        Operation::Call { .. } => 2,
        Operation::Const { .. } | Operation::Branch { .. } => 3,
        Operation::Unary { .. } => 4,
        Operation::Binary { .. } | Operation::Load { .. } | Operation::Store { .. } => 5,
        Operation::Return => 0,
    }
}

/// The change of an operation with this number, in a function with `blocks` blocks.
pub fn changed_operation(operation: &Operation, blocks: u32, number: u32) -> Operation {
    match *operation {
        Operation::Unary {
            operator,
            to,
            from,
            next,
        } => Operation::Unary {
            operator: if number == 0 {
                other_unary(operator)
            } else {
                operator
            },
            to: register_at(number, 1, to),
            from: register_at(number, 2, from),
            next: label_at(number, 3, next, blocks),
        },
        Operation::Binary {
            operator,
            to,
            left,
            right,
            next,
        } => Operation::Binary {
            operator: if number == 0 {
                other_binary(operator)
            } else {
                operator
            },
            to: register_at(number, 1, to),
            left: register_at(number, 2, left),
            right: register_at(number, 3, right),
            next: label_at(number, 4, next, blocks),
        },
        Operation::Branch {
            from,
            if_nonzero,
            if_zero,
        } => Operation::Branch {
            from: register_at(number, 0, from),
            if_nonzero: label_at(number, 1, if_nonzero, blocks),
            if_zero: label_at(number, 2, if_zero, blocks),
        },
        other => changed_plain(other, blocks, number),
    }
}

fn changed_plain(operation: Operation, blocks: u32, number: u32) -> Operation {
    match operation {
        Operation::Nop { next } => Operation::Nop {
            next: label_at(number, 0, next, blocks),
        },
        Operation::Const { to, word, next } => Operation::Const {
            to: register_at(number, 0, to),
            word: word_at(number, 1, word),
            next: label_at(number, 2, next, blocks),
        },
        Operation::Load {
            width,
            object,
            to,
            index,
            next,
        } => Operation::Load {
            width: width_at(number, 4, width),
            object: word_at(number, 0, object),
            to: register_at(number, 1, to),
            index: register_at(number, 2, index),
            next: label_at(number, 3, next, blocks),
        },
        Operation::Store {
            width,
            object,
            index,
            from,
            next,
        } => Operation::Store {
            width: width_at(number, 4, width),
            object: word_at(number, 0, object),
            index: register_at(number, 1, index),
            from: register_at(number, 2, from),
            next: label_at(number, 3, next, blocks),
        },
        Operation::Call { function, next } => Operation::Call {
            function: word_at(number, 0, function),
            next: label_at(number, 1, next, blocks),
        },
        Operation::Read { next } => Operation::Read {
            next: label_at(number, 0, next, blocks),
        },
        Operation::Write { next } => Operation::Write {
            next: label_at(number, 0, next, blocks),
        },
        other => other,
    }
}

/// What takes a move's place in a change of this number: a move, and how many copies of it. The move is dropped, made twice, or
/// changed. `None` if there is no change with that number.
pub fn in_its_place(each: &Move, slots: u16, number: u32) -> Option<(usize, Move)> {
    match number {
        0 => Some((0, *each)),
        1 => Some((2, *each)),
        _ => match changed_move(each, slots, number - 2) {
            Some(other) => Some((1, other)),
            None => None,
        },
    }
}

/// A list of moves with so many copies of a move in place of the one at `place`.
pub fn changed_moves(
    alloc: Global,
    moves: &[Move],
    place: usize,
    copies: usize,
    other: &Move,
) -> Result<Vec<Move>, AllocError> {
    let mut changed = Vec::new(alloc);
    for at in 0..moves.len() {
        if at != place {
            changed.push(moves[at])?;
        } else {
            for _ in 0..copies {
                changed.push(*other)?;
            }
        }
    }
    Ok(changed)
}

/// These moves as the moves of a block, if there are not too many.
pub fn as_moves(moves: Vec<Move>) -> Result<Moves, Fail> {
    match Moves::new(moves) {
        Ok(moves) => Ok(moves),
        Err(moves) => {
            drop(moves);
            Err(Fail::from("too many moves"))
        }
    }
}

fn copied(alloc: Global, moves: &[Move]) -> Result<Moves, Fail> {
    as_moves(Vec::from_slice(alloc, moves)?)
}

// The block with this label and this operation, with these moves before it and after it.
fn block_of(
    alloc: Global,
    label: u32,
    operation: Operation,
    before: &[Move],
    after: &[Move],
) -> Result<Block, Fail> {
    let before = copied(alloc, before)?;
    match copied(alloc, after) {
        Ok(after) => Ok(Block {
            label,
            before,
            operation,
            after,
        }),
        Err(fail) => {
            drop(before);
            Err(fail)
        }
    }
}

// A block of a function; if it is the one to change, it has another operation and other moves before it and after it.
fn other_block(
    alloc: Global,
    block: &Block,
    is_there: bool,
    operation: Operation,
    before: &[Move],
    after: &[Move],
) -> Result<Block, Fail> {
    if is_there {
        block_of(alloc, block.label, operation, before, after)
    } else {
        let (first, last) = (block.before.moves(), block.after.moves());
        block_of(alloc, block.label, block.operation, first, last)
    }
}

// The function with another operation in the block at `place`, and other moves before it and after it. `None` if the result is not
// a function.
fn changed(
    alloc: Global,
    ltl: &Ltl,
    place: usize,
    operation: Operation,
    before: &[Move],
    after: &[Move],
) -> Result<Option<Ltl>, Fail> {
    let mut blocks = Vec::new(alloc);
    for (at, block) in ltl.blocks().iter().enumerate() {
        blocks.push(other_block(alloc, block, at == place, operation, before, after)?)?;
    }
    match Ltl::new(ltl.slots(), ltl.entry(), blocks) {
        Ok(ltl) => Ok(Some(ltl)),
        Err(blocks) => {
            drop(blocks);
            Ok(None)
        }
    }
}

/// The function with another operation in the block at `place`. `None` if there is no such function.
pub fn with_operation(
    alloc: Global,
    ltl: &Ltl,
    place: usize,
    other: Operation,
) -> Result<Option<Ltl>, Fail> {
    match ltl.blocks().get(place) {
        Some(block) => changed(
            alloc,
            ltl,
            place,
            other,
            block.before.moves(),
            block.after.moves(),
        ),
        None => Ok(None),
    }
}

/// The function with other moves after the operation of the block at `place`, or before it. `None` if there is no such function.
pub fn with_moves(
    alloc: Global,
    ltl: &Ltl,
    place: usize,
    moves: &[Move],
    behind: bool,
) -> Result<Option<Ltl>, Fail> {
    match ltl.blocks().get(place) {
        Some(block) if behind => {
            changed(
                alloc,
                ltl,
                place,
                block.operation,
                block.before.moves(),
                moves,
            )
        }
        Some(block) => changed(
            alloc,
            ltl,
            place,
            block.operation,
            moves,
            block.after.moves(),
        ),
        None => Ok(None),
    }
}
