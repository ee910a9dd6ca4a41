// The word of an instruction: its fields, side by side.

ghost use Rattle.std.specs.Prelude.{◌≡◌, ◌<◌, Some};
ghost use Rattle.cc_rv32.specs.Table.{instruction_of, encoding_of, IsEncodable, fields_word, immediate_word, upper_word};

use crate::instr::{
    BranchOperation, ImmediateOperation, Instr, LoadOperation, RegisterOperation, ShiftOperation,
    StoreOperation,
};
use crate::operand::{BranchOffset, Immediate, JumpOffset, Register, ShiftCount, UpperImmediate};

/// Returns the word of the instruction, by the table of the RISC-V unprivileged ISA. Every instruction has a word, and `decode` turns the
/// word back into the instruction. Takes no memory.

pub fn encode(instr: Instr) -> u32
    ensures table { result ≡ encoding_of instr }
    ensures decoded { instruction_of result ≡ Some instr }
    ensures encodable { IsEncodable instr }
{
    match instr {
        Instr::Op {
            operation,
            rd,
            rs1,
            rs2,
        } => operation_word(operation, rd, rs1, rs2),
        Instr::OpImm {
            operation,
            rd,
            rs1,
            immediate,
        } => immediate_operation_word(operation, rd, rs1, immediate),
        Instr::Shift {
            operation,
            rd,
            rs1,
            count,
        } => shift_word(operation, rd, rs1, count),
        Instr::Load {
            operation,
            rd,
            rs1,
            offset,
        } => load_word(operation, rd, rs1, offset),
        Instr::Store {
            operation,
            rs1,
            rs2,
            offset,
        } => store_word(operation, rs1, rs2, offset),
        Instr::Branch {
            operation,
            rs1,
            rs2,
            offset,
        } => branch_word(operation, rs1, rs2, offset),
        Instr::Lui { rd, immediate } => lui_word(rd, immediate),
        Instr::Auipc { rd, immediate } => auipc_word(rd, immediate),
        Instr::Jal { rd, offset } => jal_word(rd, offset),
        Instr::Jalr { rd, rs1, offset } => jalr_word(rd, rs1, offset),
        Instr::Ecall => 0x73,
    }
}

fn six_fields(opcode: u32, rd: u32, funct3: u32, rs1: u32, rs2: u32, funct7: u32) -> u32
    requires opcode { opcode < 128 }
    requires rd { rd < 32 }
    requires funct3 { funct3 < 8 }
    requires rs1 { rs1 < 32 }
    requires rs2 { rs2 < 32 }
    requires funct7 { funct7 < 128 }
    ensures { result ≡ fields_word opcode rd funct3 rs1 rs2 funct7 }
{
    opcode + (rd << 7) + (funct3 << 12) + (rs1 << 15) + (rs2 << 20) + (funct7 << 25)
}

fn with_immediate(
    opcode: u32,
    rd: Register,
    funct3: u32,
    rs1: Register,
    immediate: Immediate,
) -> u32
    requires opcode { opcode < 128 }
    requires funct3 { funct3 < 8 }
    ensures { result ≡ immediate_word opcode rd funct3 rs1 immediate }
{
    let twelve = immediate.word() & 0xfff;
    opcode
        + (u32::from(rd.number()) << 7)
        + (funct3 << 12)
        + (u32::from(rs1.number()) << 15)
        + (twelve << 20)
}

fn with_upper(opcode: u32, rd: Register, upper: u32) -> u32
    requires opcode { opcode < 128 }
    requires upper { upper < 1048576 }
    ensures { result ≡ upper_word opcode rd upper }
{
    opcode + (u32::from(rd.number()) << 7) + (upper << 12)
}

#[tactic(auto, unfolding(crate::specs::Table::encoding_of))]
fn operation_word(operation: RegisterOperation, rd: Register, rs1: Register, rs2: Register) -> u32
    ensures table { result ≡ encoding_of (Instr.Op operation rd rs1 rs2) }
    ensures encodable { IsEncodable (Instr.Op operation rd rs1 rs2) }
{
    six_fields(
        0x33,
        u32::from(rd.number()),
        operation.funct3(),
        u32::from(rs1.number()),
        u32::from(rs2.number()),
        operation.funct7(),
    )
}

#[tactic(auto, unfolding(crate::specs::Table::encoding_of))]
fn immediate_operation_word(
    operation: ImmediateOperation,
    rd: Register,
    rs1: Register,
    immediate: Immediate,
) -> u32
    ensures table { result ≡ encoding_of (Instr.OpImm operation rd rs1 immediate) }
    ensures encodable { IsEncodable (Instr.OpImm operation rd rs1 immediate) }
{
    with_immediate(0x13, rd, operation.funct3(), rs1, immediate)
}

#[tactic(auto, unfolding(crate::specs::Table::encoding_of))]
fn shift_word(operation: ShiftOperation, rd: Register, rs1: Register, count: ShiftCount) -> u32
    ensures table { result ≡ encoding_of (Instr.Shift operation rd rs1 count) }
    ensures encodable { IsEncodable (Instr.Shift operation rd rs1 count) }
{
    six_fields(
        0x13,
        u32::from(rd.number()),
        operation.funct3(),
        u32::from(rs1.number()),
        u32::from(count.amount()),
        operation.funct7(),
    )
}

#[tactic(auto, unfolding(crate::specs::Table::encoding_of))]
fn load_word(operation: LoadOperation, rd: Register, rs1: Register, offset: Immediate) -> u32
    ensures table { result ≡ encoding_of (Instr.Load operation rd rs1 offset) }
    ensures encodable { IsEncodable (Instr.Load operation rd rs1 offset) }
{
    with_immediate(0x03, rd, operation.funct3(), rs1, offset)
}

#[tactic(auto, unfolding(crate::specs::Table::encoding_of))]
fn store_word(operation: StoreOperation, rs1: Register, rs2: Register, offset: Immediate) -> u32
    ensures table { result ≡ encoding_of (Instr.Store operation rs1 rs2 offset) }
    ensures encodable { IsEncodable (Instr.Store operation rs1 rs2 offset) }
{
    let word = offset.word();
    six_fields(
        0x23,
        word & 31,
        operation.funct3(),
        u32::from(rs1.number()),
        u32::from(rs2.number()),
        (word >> 5) & 127,
    )
}

#[tactic(auto, unfolding(crate::specs::Table::encoding_of))]
fn branch_word(
    operation: BranchOperation,
    rs1: Register,
    rs2: Register,
    offset: BranchOffset,
) -> u32
    ensures table { result ≡ encoding_of (Instr.Branch operation rs1 rs2 offset) }
    ensures encodable { IsEncodable (Instr.Branch operation rs1 rs2 offset) }
{
    let word = offset.word();
    six_fields(
        0x63,
        (((word >> 1) & 15) << 1) + ((word >> 11) & 1),
        operation.funct3(),
        u32::from(rs1.number()),
        u32::from(rs2.number()),
        (((word >> 12) & 1) << 6) + ((word >> 5) & 63),
    )
}

#[tactic(auto, unfolding(crate::specs::Table::encoding_of))]
fn lui_word(rd: Register, immediate: UpperImmediate) -> u32
    ensures table { result ≡ encoding_of (Instr.Lui rd immediate) }
    ensures encodable { IsEncodable (Instr.Lui rd immediate) }
{
    with_upper(0x37, rd, immediate.field())
}

#[tactic(auto, unfolding(crate::specs::Table::encoding_of))]
fn auipc_word(rd: Register, immediate: UpperImmediate) -> u32
    ensures table { result ≡ encoding_of (Instr.Auipc rd immediate) }
    ensures encodable { IsEncodable (Instr.Auipc rd immediate) }
{
    with_upper(0x17, rd, immediate.field())
}

#[tactic(auto, unfolding(crate::specs::Table::encoding_of))]
fn jal_word(rd: Register, offset: JumpOffset) -> u32
    ensures table { result ≡ encoding_of (Instr.Jal rd offset) }
    ensures encodable { IsEncodable (Instr.Jal rd offset) }
{
    let word = offset.word();
    let upper = (((word >> 20) & 1) << 19)
        + (((word >> 1) & 1023) << 9)
        + (((word >> 11) & 1) << 8)
        + ((word >> 12) & 255);
    with_upper(0x6f, rd, upper)
}

#[tactic(auto, unfolding(crate::specs::Table::encoding_of))]
fn jalr_word(rd: Register, rs1: Register, offset: Immediate) -> u32
    ensures table { result ≡ encoding_of (Instr.Jalr rd rs1 offset) }
    ensures encodable { IsEncodable (Instr.Jalr rd rs1 offset) }
{
    with_immediate(0x67, rd, 0, rs1, offset)
}
