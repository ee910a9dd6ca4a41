// Keeps each pseudo-register in a slot of its own.
//
// A block reloads its operands, does its operation, and spills the result; at entry the parameters go to their slots. So no word
// stays in a register from block to block, and only a function with more pseudo-registers than slots is refused.

ghost use Rattle.std.specs.Prelude.{◌≡◌, ◌<◌, ◌≤◌, ◌^◌, length, IfOk};

use crate::operation::{Used, operation_of};
use crate::slots::Slots;
use cc_ltl::{Block, Ltl, Move, Moves, Register};
use cc_rtl_language::{Node, Rtl};
use std::alloc::{AllocError, Global};

// Arguments and parameters are in x10 and up, 22 at most: the last register is x31.
const FIRST_ARGUMENT: u8 = 10;

/// LTL for the function in which each pseudo-register has a slot of its own: slot i for pseudo-register i. If more than 495 slots are
/// needed, the answer is some LTL that the validator may refuse. `Err` if memory runs out.
pub fn spill_all(alloc: Global, rtl: &Rtl) -> Result<Ltl, AllocError> {
    let slots = Slots::of(rtl);
    let mut blocks = Vec::with_capacity(alloc, rtl.len())?;
    for at in 0..rtl.len() {
        blocks.push(block(alloc, slots, rtl, at as u32, rtl.node(at))?)?;
    }
    match Ltl::new(slots.count(), rtl.entry(), blocks) {
        Ok(ltl) => Ok(ltl),
        Err(blocks) => {
            drop(blocks);
            no_blocks(alloc, rtl.entry())
        }
    }
}

// An LTL that does nothing. It is never needed, since the blocks above always make an LTL, but nothing depends on that.
fn no_blocks(alloc: Global, entry: u32) -> Result<Ltl, AllocError> {
    match Ltl::new(0, entry, Vec::new(alloc)) {
        Ok(ltl) => Ok(ltl),
        Err(_) => unreachable!(),
    }
}

fn block(
    alloc: Global,
    slots: Slots,
    rtl: &Rtl,
    label: u32,
    node: &Node,
) -> Result<Block, AllocError> {
    let before = if label == rtl.entry() {
        keep_parameters(alloc, slots, rtl.parameters())?
    } else {
        reload_operands(alloc, slots, node)?
    };
    let after = spill_result(alloc, slots, node)?;
    Ok(Block {
        label,
        before: in_order(before),
        operation: operation_of(node, scratch()),
        after: in_order(after),
    })
}

fn in_order(moves: Vec<Move>) -> Moves
    requires { length moves.items < 2 ^ 16 }
{
    match Moves::new(moves) {
        Ok(moves) => moves,
        Err(_) => unreachable!(),
    }
}

// At entry, moves parameter i from x(10 + i) to its slot.
fn keep_parameters(alloc: Global, slots: Slots, parameters: u32) -> Result<Vec<Move>, AllocError>
    ensures { IfOk result (λ moves. length moves.items ≤ 22) }
{
    let mut moves = Vec::new(alloc);
    let mut parameter = 0;
    while parameter < parameters && parameter < 22 {
        let slot = slots.slot(parameter);
        let from = register(FIRST_ARGUMENT + parameter as u8);
        moves.push(Move::Spill { slot, from })?;
        parameter += 1;
    }
    Ok(moves)
}

// Reloads the operation's operands from their slots.
fn reload_operands(alloc: Global, slots: Slots, node: &Node) -> Result<Vec<Move>, AllocError>
    ensures { IfOk result (λ moves. length moves.items ≤ 22) }
{
    match node {
        Node::Move { from, .. } | Node::Unary { from, .. } | Node::Branch { from, .. } => {
            reload(alloc, slots, *from, left())
        }
        Node::Load { index, .. } => reload(alloc, slots, *index, left()),
        Node::Binary {
            left: first,
            right: second,
            ..
        }
        | Node::Store {
            index: first,
            from: second,
            ..
        } => {
            let mut moves = reload(alloc, slots, *first, left())?;
            let slot = slots.slot(*second);
            moves.push(Move::Reload { to: right(), slot })?;
            Ok(moves)
        }
        Node::Call { arguments, .. } => reload_arguments(alloc, slots, arguments.as_slice()),
        Node::Write { from, .. } | Node::Return { from } => {
            reload(alloc, slots, *from, register(FIRST_ARGUMENT))
        }
        Node::Nop { .. } | Node::Const { .. } | Node::Read { .. } => Ok(Vec::new(alloc)),
    }
}

fn reload(alloc: Global, slots: Slots, from: u32, to: Register) -> Result<Vec<Move>, AllocError>
    ensures { IfOk result (λ moves. length moves.items ≡ 1) }
{
    let mut moves = Vec::new(alloc);
    let slot = slots.slot(from);
    moves.push(Move::Reload { to, slot })?;
    Ok(moves)
}

// Moves argument i from its slot to x(10 + i). An argument for which there is no register stays where it is.
fn reload_arguments(alloc: Global, slots: Slots, arguments: &[u32]) -> Result<Vec<Move>, AllocError>
    ensures { IfOk result (λ moves. length moves.items ≤ 22) }
{
    let mut moves = Vec::new(alloc);
    let mut argument = 0;
    while argument < arguments.len() && argument < 22 {
        let slot = slots.slot(arguments[argument]);
        let to = register(FIRST_ARGUMENT + argument as u8);
        moves.push(Move::Reload { to, slot })?;
        argument += 1;
    }
    Ok(moves)
}

// Moves the result to its slot.
fn spill_result(alloc: Global, slots: Slots, node: &Node) -> Result<Vec<Move>, AllocError>
    ensures { IfOk result (λ moves. length moves.items ≤ 1) }
{
    match node {
        Node::Const { to, .. }
        | Node::Move { to, .. }
        | Node::Unary { to, .. }
        | Node::Binary { to, .. }
        | Node::Load { to, .. } => spill(alloc, slots, *to, left()),
        Node::Read { to, .. } | Node::Call { to: Some(to), .. } => {
            spill(alloc, slots, *to, register(FIRST_ARGUMENT))
        }
        Node::Nop { .. }
        | Node::Store { .. }
        | Node::Call { to: None, .. }
        | Node::Write { .. }
        | Node::Branch { .. }
        | Node::Return { .. } => Ok(Vec::new(alloc)),
    }
}

fn spill(alloc: Global, slots: Slots, to: u32, from: Register) -> Result<Vec<Move>, AllocError>
    ensures { IfOk result (λ moves. length moves.items ≡ 1) }
{
    let mut moves = Vec::new(alloc);
    let slot = slots.slot(to);
    moves.push(Move::Spill { slot, from })?;
    Ok(moves)
}

// The registers of every operation: operands in x28 and x29, the result in x28. A move of RTL needs only moves.
fn scratch() -> Used {
    Used {
        first: left(),
        second: right(),
        to: left(),
    }
}

// A call preserves neither of these two registers, and neither holds an argument.
fn left() -> Register {
    register(28)
}

fn right() -> Register {
    register(29)
}

fn register(number: u8) -> Register
    requires low { 7 ≤ number }
    requires high { number < 32 }
{
    match Register::new(number) {
        Some(register) => register,
        None => unreachable!(),
    }
}
