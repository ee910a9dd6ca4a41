// Makes instructions, as items, from the numbers of their operands; and splits a word in two, for `lui` and the instruction after it.

ghost use Rattle.std.specs.Prelude.{◌≡◌, ◌<◌, ◌^◌, ◌++◌, ◌∷◌, [], OnOk};
ghost use Rattle.cc_rv32.specs.Fields.{IsImmediate, IsBranchOffset};
ghost use Rattle.cc_rv32.specs.declared.instr.Instr.TheVariants.{Op, OpImm, Shift, Load, Store, Branch, Lui, Jalr, Ecall};
ghost use Rattle.cc_rv32.specs.declared.instr.ImmediateOperation.TheVariants.{Addi};
ghost use Rattle.cc_rv32.specs.declared.instr.ShiftOperation.TheVariants.{Slli};
ghost use Rattle.cc_rv32.specs.declared.instr.LoadOperation.TheVariants.{Lw};
ghost use Rattle.cc_rv32.specs.declared.instr.StoreOperation.TheVariants.{Sw};
ghost use Rattle.cc_emit.specs.declared.item.PieceItem.TheVariants.{Plain};
ghost use Rattle.cc_emit.specs.Contract.{load_of, store_of};
ghost use Rattle.cc_emit.specs.Emission.{low, high, from_pointer, known_place};

use crate::condition::Condition;
use crate::item::PieceItem;
use cc_rv32::instr::{
    ImmediateOperation, Instr, LoadOperation, RegisterOperation, ShiftOperation, StoreOperation,
};
use cc_rv32::map::GLOBALS_FROM;
use cc_rv32::operand::{BranchOffset, Immediate, Register, ShiftCount, UpperImmediate};
use cc_words::Width;
use std::alloc::AllocError;

/// The word in `x3` in a function that sets it. From `x3`, an access reaches the first 4 KiB of the globals.
pub(crate) const GLOBAL_POINTER: u32 = GLOBALS_FROM + 2048;

/// `x0`, which holds 0.
pub(crate) const ZERO: u8 = 0;
/// `x1`, in which a call leaves its return address.
pub(crate) const RETURN_ADDRESS: u8 = 1;
/// `x2`, the address of the frame.
pub(crate) const STACK: u8 = 2;
/// `x3`, the global pointer in a function that sets it.
pub(crate) const POINTER: u8 = 3;
/// `x5`, for a result between two instructions of a step, and for an element's address.
pub(crate) const SCRATCH: u8 = 5;
/// `x6`, for the upper part of an address.
pub(crate) const OTHER_SCRATCH: u8 = 6;
/// `x17`, in which the machine finds the number of a service.
pub(crate) const SERVICE: u8 = 17;

/// Appends an item.
pub(crate) fn put_item(items: &mut Vec<PieceItem>, item: PieceItem) -> Result<(), AllocError>
    ensures { OnOk result (items.new.items ≡ items.old.items ++ item ∷ []) }
{
    match item {
        PieceItem::Plain(instr) => put(items, instr),
        PieceItem::Call(_) | PieceItem::Go(_) => {
            items.push(item)?;
            Ok(())
        }
    }
}

/// Appends an instruction.
pub(crate) fn put(items: &mut Vec<PieceItem>, instr: Instr) -> Result<(), AllocError>
    ensures { OnOk result (items.new.items ≡ items.old.items ++ Plain instr ∷ []) }
{
    items.reserve(1)?;
    items.push_reserved(PieceItem::Plain(instr));
    Ok(())
}

/// An instruction on two registers.
pub(crate) fn operate(operation: RegisterOperation, to: u8, left: u8, right: u8) -> Instr
    requires to { to < 32 }
    requires left { left < 32 }
    requires right { right < 32 }
    ensures { result ≡ Op operation to left right }
{
    Instr::Op {
        operation,
        rd: Register::new(to),
        rs1: Register::new(left),
        rs2: Register::new(right),
    }
}

/// An instruction on a register and an immediate.
pub(crate) fn operate_immediate(operation: ImmediateOperation, to: u8, from: u8, word: u32) -> Instr
    requires to { to < 32 }
    requires from { from < 32 }
    requires word { IsImmediate word }
    ensures { result ≡ OpImm operation to from word }
{
    Instr::OpImm {
        operation,
        rd: Register::new(to),
        rs1: Register::new(from),
        immediate: Immediate::new(word),
    }
}

/// The instruction that adds an immediate to a register.
pub(crate) fn add_immediate(to: u8, from: u8, word: u32) -> Instr
    requires to { to < 32 }
    requires from { from < 32 }
    requires word { IsImmediate word }
    ensures { result ≡ OpImm Addi to from word }
{
    operate_immediate(ImmediateOperation::Addi, to, from, word)
}

/// The instruction that shifts a register by 0 to 31 bits.
pub(crate) fn shift(operation: ShiftOperation, to: u8, from: u8, bits: u8) -> Instr
    requires to { to < 32 }
    requires from { from < 32 }
    requires bits { bits < 32 }
    ensures { result ≡ Shift operation to from bits }
{
    Instr::Shift {
        operation,
        rd: Register::new(to),
        rs1: Register::new(from),
        count: ShiftCount::new(bits),
    }
}

/// The instruction that multiplies a register by 4.
pub(crate) fn four_times(to: u8, from: u8) -> Instr
    requires to { to < 32 }
    requires from { from < 32 }
    ensures { result ≡ Shift Slli to from 2 }
{
    shift(ShiftOperation::Slli, to, from, 2)
}

/// The instruction that loads the element at a register plus an offset.
pub(crate) fn load_element(width: Width, to: u8, at: u8, offset: u32) -> Instr
    requires to { to < 32 }
    requires at { at < 32 }
    requires offset { IsImmediate offset }
    ensures { result ≡ Load (load_of width) to at offset }
{
    Instr::Load {
        operation: match width {
            Width::Byte => LoadOperation::Lbu,
            Width::Word => LoadOperation::Lw,
        },
        rd: Register::new(to),
        rs1: Register::new(at),
        offset: Immediate::new(offset),
    }
}

/// The instruction that loads the word at a register plus an offset.
pub(crate) fn load(to: u8, at: u8, offset: u32) -> Instr
    requires to { to < 32 }
    requires at { at < 32 }
    requires offset { IsImmediate offset }
    ensures { result ≡ Load Lw to at offset }
{
    load_element(Width::Word, to, at, offset)
}

/// The instruction that stores an element at a register plus an offset.
pub(crate) fn store_element(width: Width, at: u8, from: u8, offset: u32) -> Instr
    requires at { at < 32 }
    requires from { from < 32 }
    requires offset { IsImmediate offset }
    ensures { result ≡ Store (store_of width) at from offset }
{
    Instr::Store {
        operation: match width {
            Width::Byte => StoreOperation::Sb,
            Width::Word => StoreOperation::Sw,
        },
        rs1: Register::new(at),
        rs2: Register::new(from),
        offset: Immediate::new(offset),
    }
}

/// The instruction that stores a word at a register plus an offset.
pub(crate) fn store(at: u8, from: u8, offset: u32) -> Instr
    requires at { at < 32 }
    requires from { from < 32 }
    requires offset { IsImmediate offset }
    ensures { result ≡ Store Sw at from offset }
{
    store_element(Width::Word, at, from, offset)
}

/// The branch that is taken if the condition holds.
pub(crate) fn branch(condition: Condition, offset: u32) -> Instr
    requires { IsBranchOffset offset }
    ensures { result ≡ Branch condition.operation condition.left condition.right offset }
{
    Instr::Branch {
        operation: condition.operation,
        rs1: condition.left,
        rs2: condition.right,
        offset: BranchOffset::new(offset),
    }
}

/// The instruction that sets the upper twenty bits of a register, and zeros below them.
pub(crate) fn load_upper(to: u8, field: u32) -> Instr
    requires to { to < 32 }
    requires field { field < 2 ^ 20 }
    ensures { result ≡ Lui to field }
{
    Instr::Lui {
        rd: Register::new(to),
        immediate: UpperImmediate::new(field),
    }
}

/// The instruction that returns to the caller.
pub(crate) fn go_back() -> Instr
    ensures { result ≡ Jalr 0 1 0 }
{
    Instr::Jalr {
        rd: Register::new(ZERO),
        rs1: Register::new(RETURN_ADDRESS),
        offset: Immediate::new(0),
    }
}

/// The instruction that calls the machine's service whose number is in `x17`.
pub(crate) fn serve() -> Instr
    ensures { result ≡ Ecall }
{
    Instr::Ecall
}

/// The lower twelve bits of a word, as a sign-extended immediate.
pub(crate) fn low(word: u32) -> u32
    ensures value { result ≡ low word }
    ensures fits { IsImmediate result }
{
    let part = word % 4096;
    if part < 2048 {
        part
    } else {
        part + 0xffff_f000
    }
}

/// The upper twenty bits of a word, plus one if the lower twelve bits, sign-extended, are below 0.
pub(crate) fn high(word: u32) -> u32
    ensures value { result ≡ high word }
    ensures fits { result < 2 ^ 20 }
{
    ((u64::from(word) + 2048) / 4096 % 1_048_576) as u32
}

/// The distance from `x3` to an address within its reach.
pub(crate) fn from_pointer(address: u32) -> u32
    ensures value { result ≡ from_pointer address }
    ensures fits { IsImmediate result }
{
    low(address.wrapping_add(0u32.wrapping_sub(GLOBAL_POINTER)))
}

/// The address of an element whose number is known.
pub(crate) fn known_place(width: Width, base: u32, number: u32) -> u32
    ensures { result ≡ known_place width base number }
{
    match width {
        Width::Byte => base.wrapping_add(number),
        Width::Word => base.wrapping_add(number.wrapping_mul(4)),
    }
}
