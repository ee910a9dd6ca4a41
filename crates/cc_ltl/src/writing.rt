// A function as bytes.

ghost use Rattle.std.specs.Prelude.{◌≡◌, ◌++◌, ◌<◌, ◌^◌, length, IfOk, OnOk};
ghost use Rattle.cc_ltl.specs.Bytes.{Spells, block_bytes, moves_bytes, move_bytes, operation_bytes, word_bytes, unary_number, binary_number};

use crate::block::Block;
use crate::ltl::Ltl;
use crate::operation::{Move, Operation};
use cc_words::{Binary, Unary};
use std::alloc::{AllocError, Global};

/// The bytes that spell the function: three numbers of four bytes, lowest byte first (the number of slots, the entry, the
/// number of blocks), and the blocks in the order of their labels. A block is its label, the moves before, the operation, and
/// the moves after. Before each list of moves, their number comes in two bytes. See docs/FORMATS.md. Fails if memory ran out.
pub fn write_ltl(alloc: Global, ltl: &Ltl) -> Result<Vec<u8>, AllocError>
    ensures spelled { IfOk result (λ bytes. Spells bytes.items ltl.now) }
{
    let mut bytes = Vec::new(alloc);
    let blocks = ltl.blocks();
    put_word(&mut bytes, u32::from(ltl.slots()))?;
    put_word(&mut bytes, ltl.entry())?;
    put_word(&mut bytes, blocks.len() as u32)?;
    for block in blocks {
        put_block(&mut bytes, block)?;
    }
    Ok(bytes)
}

fn put_block(bytes: &mut Vec<u8>, block: &Block) -> Result<(), AllocError>
    ensures { OnOk result (bytes.new.items ≡ bytes.old.items ++ block_bytes block.now) }
{
    put_word(bytes, block.label)?;
    put_moves(bytes, block.before.moves())?;
    put_operation(bytes, &block.operation)?;
    put_moves(bytes, block.after.moves())
}

// Writes the number of moves, and the moves.
fn put_moves(bytes: &mut Vec<u8>, moves: &[Move]) -> Result<(), AllocError>
    requires { length moves.now < 2 ^ 16 }
    ensures { OnOk result (bytes.new.items ≡ bytes.old.items ++ moves_bytes moves.now) }
{
    bytes.extend_from_slice(&(moves.len() as u16).to_le_bytes())?;
    for each in moves {
        put_move(bytes, each)?;
    }
    Ok(())
}

fn put_move(bytes: &mut Vec<u8>, each: &Move) -> Result<(), AllocError>
    ensures { OnOk result (bytes.new.items ≡ bytes.old.items ++ move_bytes each.now) }
{
    match each {
        Move::Between { to, from } => bytes.extend_from_slice(&[0, to.number(), from.number()]),
        Move::Reload { to, slot } => {
            bytes.extend_from_slice(&[1, to.number()])?;
            bytes.extend_from_slice(&slot.number().to_le_bytes())
        }
        Move::Spill { slot, from } => {
            bytes.extend_from_slice(&[2])?;
            bytes.extend_from_slice(&slot.number().to_le_bytes())?;
            bytes.extend_from_slice(&[from.number()])
        }
    }
}

fn put_operation(bytes: &mut Vec<u8>, operation: &Operation) -> Result<(), AllocError>
    ensures { OnOk result (bytes.new.items ≡ bytes.old.items ++ operation_bytes operation.now) }
{
    // ORDER Operation
    match *operation {
        Operation::Nop { next } => put(bytes, &[0], next),
        Operation::Const { to, word, next } => {
            put(bytes, &[1, to.number()], word)?;
            put_word(bytes, next)
        }
        Operation::Unary {
            operator,
            to,
            from,
            next,
        } => {
            put(
                bytes,
                &[2, number_of_unary(operator), to.number(), from.number()],
                next,
            )
        }
        Operation::Binary {
            operator,
            to,
            left,
            right,
            next,
        } => {
            put(
                bytes,
                &[
                    3,
                    number_of_binary(operator),
                    to.number(),
                    left.number(),
                    right.number(),
                ],
                next,
            )
        }
        Operation::Load {
            width,
            object,
            to,
            index,
            next,
        } => {
            put(bytes, &[4, width.bytes()], object)?;
            put(bytes, &[to.number(), index.number()], next)
        }
        Operation::Store {
            width,
            object,
            index,
            from,
            next,
        } => {
            put(bytes, &[5, width.bytes()], object)?;
            put(bytes, &[index.number(), from.number()], next)
        }
        Operation::Call { function, next } => {
            put(bytes, &[6], function)?;
            put_word(bytes, next)
        }
        Operation::Read { next } => put(bytes, &[7], next),
        Operation::Write { next } => put(bytes, &[8], next),
        Operation::Branch {
            from,
            if_nonzero,
            if_zero,
        } => {
            put(bytes, &[9, from.number()], if_nonzero)?;
            put_word(bytes, if_zero)
        }
        Operation::Return => bytes.extend_from_slice(&[10]),
    }
}

// Writes the bytes `prefix`, then a four-byte number.
fn put(bytes: &mut Vec<u8>, prefix: &[u8], number: u32) -> Result<(), AllocError>
    ensures { OnOk result (bytes.new.items ≡ bytes.old.items ++ (prefix.now ++ word_bytes number)) }
{
    bytes.extend_from_slice(prefix)?;
    put_word(bytes, number)
}

fn put_word(bytes: &mut Vec<u8>, number: u32) -> Result<(), AllocError>
    ensures { OnOk result (bytes.new.items ≡ bytes.old.items ++ word_bytes number) }
{
    bytes.extend_from_slice(&number.to_le_bytes())
}

fn number_of_unary(operator: Unary) -> u8
    ensures { result ≡ unary_number operator }
{
    // ORDER Unary
    match operator {
        Unary::Neg => 0,
        Unary::Complement => 1,
        Unary::IsZero => 2,
    }
}

fn number_of_binary(operator: Binary) -> u8
    ensures { result ≡ binary_number operator }
{
    // ORDER Binary
    match operator {
        Binary::Add => 0,
        Binary::Sub => 1,
        Binary::Mul => 2,
        Binary::DivS => 3,
        Binary::DivU => 4,
        Binary::RemS => 5,
        Binary::RemU => 6,
        Binary::Shl => 7,
        Binary::ShrS => 8,
        Binary::ShrU => 9,
        Binary::And => 10,
        Binary::Or => 11,
        Binary::Xor => 12,
        Binary::Eq => 13,
        Binary::Ne => 14,
        Binary::LtS => 15,
        Binary::LtU => 16,
        Binary::LeS => 17,
        Binary::LeU => 18,
    }
}
