// The instruction of a word: the opcode decides the form, and funct3 and funct7 decide what the instruction does.

ghost use Rattle.std.specs.Prelude.{◌≡◌, ◌<◌, ◌^◌, IfSome, Some, ◌+◌, ◌-◌, ◌%◌, ◌≢◌, ◌⊎◌, nat_lt, if◌then◌else◌};
ghost use Rattle.cc_rv32.specs.Fields as fields;
ghost use Rattle.cc_rv32.specs.Table.{instruction_of, encoding_of, operation_of, immediate_operation_of, shift_operation_of, load_operation_of, store_operation_of, branch_operation_of, operation_funct3, operation_funct7, immediate_operation_funct3, shift_operation_funct3, shift_operation_funct7, load_operation_funct3, store_operation_funct3, branch_operation_funct3};

use crate::instr::{
    BranchOperation, ImmediateOperation, Instr, LoadOperation, RegisterOperation, ShiftOperation,
    StoreOperation,
};
use crate::operand::{BranchOffset, Immediate, JumpOffset, Register, ShiftCount, UpperImmediate};

/// Returns the instruction of the word, by the table of the RISC-V unprivileged ISA (RV32I and M, without `fence`, `ebreak` and
/// the control registers), or `None` if the word is in no row of the table. Takes no memory.
#[tactic(auto, unfolding(crate::specs::Table::instruction_of, crate::specs::Table::encoding_of))]
pub fn decode(word: u32) -> Option<Instr>
    ensures table { result ≡ instruction_of word }
    ensures encoded { IfSome result (λ instr. encoding_of instr ≡ word) }
{
    match word & 0x7f {
        0x33 => operation(word),
        0x13 => match funct3(word) {
            1 | 5 => shift(word),
            _ => immediate_operation(word),
        },
        0x03 => load(word),
        0x23 => store(word),
        0x63 => branch(word),
        0x37 => Some(Instr::Lui {
            rd: rd(word),
            immediate: immediate_u(word),
        }),
        0x17 => Some(Instr::Auipc {
            rd: rd(word),
            immediate: immediate_u(word),
        }),
        0x6f => Some(Instr::Jal {
            rd: rd(word),
            offset: immediate_j(word),
        }),
        0x67 if funct3(word) == 0 => Some(Instr::Jalr {
            rd: rd(word),
            rs1: rs1(word),
            offset: immediate_i(word),
        }),
        _ if word == 0x73 => Some(Instr::Ecall),
        _ => None,
    }
}

#[tactic(auto, unfolding(crate::specs::Table::instruction_of, crate::specs::Table::encoding_of))]
fn operation(word: u32) -> Option<Instr>
    requires { fields.opcode word ≡ 0x33 }
    ensures table { result ≡ instruction_of word }
    ensures encoded { IfSome result (λ instr. encoding_of instr ≡ word) }
{
    let operation = operation_in(word >> 25, funct3(word))?;
    Some(Instr::Op {
        operation,
        rd: rd(word),
        rs1: rs1(word),
        rs2: rs2(word),
    })
}

#[tactic(auto, unfolding(crate::specs::Table::instruction_of, crate::specs::Table::encoding_of))]
fn immediate_operation(word: u32) -> Option<Instr>
    requires opcode { fields.opcode word ≡ 0x13 }
    requires left { fields.funct3 word ≢ 1 }
    requires right { fields.funct3 word ≢ 5 }
    ensures table { result ≡ instruction_of word }
    ensures encoded { IfSome result (λ instr. encoding_of instr ≡ word) }
{
    let operation = immediate_operation_in(funct3(word))?;
    Some(Instr::OpImm {
        operation,
        rd: rd(word),
        rs1: rs1(word),
        immediate: immediate_i(word),
    })
}

#[tactic(auto, unfolding(crate::specs::Table::instruction_of, crate::specs::Table::encoding_of))]
fn shift(word: u32) -> Option<Instr>
    requires opcode { fields.opcode word ≡ 0x13 }
    requires funct3 { (fields.funct3 word ≡ 1) ⊎ (fields.funct3 word ≡ 5) }
    ensures table { result ≡ instruction_of word }
    ensures encoded { IfSome result (λ instr. encoding_of instr ≡ word) }
{
    let operation = shift_operation_in(word >> 25, funct3(word))?;
    Some(Instr::Shift {
        operation,
        rd: rd(word),
        rs1: rs1(word),
        count: count(word),
    })
}

#[tactic(auto, unfolding(crate::specs::Table::instruction_of, crate::specs::Table::encoding_of))]
fn load(word: u32) -> Option<Instr>
    requires { fields.opcode word ≡ 0x03 }
    ensures table { result ≡ instruction_of word }
    ensures encoded { IfSome result (λ instr. encoding_of instr ≡ word) }
{
    let operation = load_operation_in(funct3(word))?;
    Some(Instr::Load {
        operation,
        rd: rd(word),
        rs1: rs1(word),
        offset: immediate_i(word),
    })
}

#[tactic(auto, unfolding(crate::specs::Table::instruction_of, crate::specs::Table::encoding_of))]
fn store(word: u32) -> Option<Instr>
    requires { fields.opcode word ≡ 0x23 }
    ensures table { result ≡ instruction_of word }
    ensures encoded { IfSome result (λ instr. encoding_of instr ≡ word) }
{
    let operation = store_operation_in(funct3(word))?;
    Some(Instr::Store {
        operation,
        rs1: rs1(word),
        rs2: rs2(word),
        offset: immediate_s(word),
    })
}

#[tactic(auto, unfolding(crate::specs::Table::instruction_of, crate::specs::Table::encoding_of))]
fn branch(word: u32) -> Option<Instr>
    requires { fields.opcode word ≡ 0x63 }
    ensures table { result ≡ instruction_of word }
    ensures encoded { IfSome result (λ instr. encoding_of instr ≡ word) }
{
    let operation = branch_operation_in(funct3(word))?;
    Some(Instr::Branch {
        operation,
        rs1: rs1(word),
        rs2: rs2(word),
        offset: immediate_b(word),
    })
}

fn operation_in(funct7: u32, funct3: u32) -> Option<RegisterOperation>
    requires { funct3 < 8 }
    ensures table { result ≡ operation_of funct7 funct3 }
    ensures funct3 { IfSome result (λ o. operation_funct3 o ≡ funct3) }
    ensures funct7 { IfSome result (λ o. operation_funct7 o ≡ funct7) }
{
    match (funct7, funct3) {
        (0x00, 0) => Some(RegisterOperation::Add),
        (0x20, 0) => Some(RegisterOperation::Sub),
        (0x00, 1) => Some(RegisterOperation::Sll),
        (0x00, 2) => Some(RegisterOperation::Slt),
        (0x00, 3) => Some(RegisterOperation::Sltu),
        (0x00, 4) => Some(RegisterOperation::Xor),
        (0x00, 5) => Some(RegisterOperation::Srl),
        (0x20, 5) => Some(RegisterOperation::Sra),
        (0x00, 6) => Some(RegisterOperation::Or),
        (0x00, 7) => Some(RegisterOperation::And),
        (0x01, _) => Some(multiplication_in(funct3)),
        _ => None,
    }
}

fn multiplication_in(funct3: u32) -> RegisterOperation
    requires { funct3 < 8 }
    ensures table { Some result ≡ operation_of 0x01 funct3 }
    ensures funct3 { operation_funct3 result ≡ funct3 }
    ensures funct7 { operation_funct7 result ≡ 1 }
{
    // ORDER Instr
    match funct3 {
        0 => RegisterOperation::Mul,
        1 => RegisterOperation::Mulh,
        2 => RegisterOperation::Mulhsu,
        3 => RegisterOperation::Mulhu,
        4 => RegisterOperation::Div,
        5 => RegisterOperation::Divu,
        6 => RegisterOperation::Rem,
        _ => RegisterOperation::Remu,
    }
}

fn immediate_operation_in(funct3: u32) -> Option<ImmediateOperation>
    ensures table { result ≡ immediate_operation_of funct3 }
    ensures funct3 { IfSome result (λ o. immediate_operation_funct3 o ≡ funct3) }
{
    match funct3 {
        0 => Some(ImmediateOperation::Addi),
        2 => Some(ImmediateOperation::Slti),
        3 => Some(ImmediateOperation::Sltiu),
        4 => Some(ImmediateOperation::Xori),
        6 => Some(ImmediateOperation::Ori),
        7 => Some(ImmediateOperation::Andi),
        _ => None,
    }
}

fn shift_operation_in(funct7: u32, funct3: u32) -> Option<ShiftOperation>
    ensures table { result ≡ shift_operation_of funct7 funct3 }
    ensures funct3 { IfSome result (λ o. shift_operation_funct3 o ≡ funct3) }
    ensures funct7 { IfSome result (λ o. shift_operation_funct7 o ≡ funct7) }
{
    match (funct7, funct3) {
        (0x00, 1) => Some(ShiftOperation::Slli),
        (0x00, 5) => Some(ShiftOperation::Srli),
        (0x20, 5) => Some(ShiftOperation::Srai),
        _ => None,
    }
}

fn load_operation_in(funct3: u32) -> Option<LoadOperation>
    ensures table { result ≡ load_operation_of funct3 }
    ensures funct3 { IfSome result (λ o. load_operation_funct3 o ≡ funct3) }
{
    match funct3 {
        0 => Some(LoadOperation::Lb),
        1 => Some(LoadOperation::Lh),
        2 => Some(LoadOperation::Lw),
        4 => Some(LoadOperation::Lbu),
        5 => Some(LoadOperation::Lhu),
        _ => None,
    }
}

fn store_operation_in(funct3: u32) -> Option<StoreOperation>
    ensures table { result ≡ store_operation_of funct3 }
    ensures funct3 { IfSome result (λ o. store_operation_funct3 o ≡ funct3) }
{
    match funct3 {
        0 => Some(StoreOperation::Sb),
        1 => Some(StoreOperation::Sh),
        2 => Some(StoreOperation::Sw),
        _ => None,
    }
}

fn branch_operation_in(funct3: u32) -> Option<BranchOperation>
    ensures table { result ≡ branch_operation_of funct3 }
    ensures funct3 { IfSome result (λ o. branch_operation_funct3 o ≡ funct3) }
{
    match funct3 {
        0 => Some(BranchOperation::Beq),
        1 => Some(BranchOperation::Bne),
        4 => Some(BranchOperation::Blt),
        5 => Some(BranchOperation::Bge),
        6 => Some(BranchOperation::Bltu),
        7 => Some(BranchOperation::Bgeu),
        _ => None,
    }
}

fn funct3(word: u32) -> u32
    ensures value { result ≡ fields.funct3 word }
    ensures in_range { result < 8 }
{
    (word >> 12) & 7
}

fn rd(word: u32) -> Register
    ensures { result ≡ fields.rd word }
{
    Register::new(((word >> 7) & 31) as u8)
}

fn rs1(word: u32) -> Register
    ensures { result ≡ fields.rs1 word }
{
    Register::new(((word >> 15) & 31) as u8)
}

fn rs2(word: u32) -> Register
    ensures { result ≡ fields.rs2 word }
{
    Register::new(((word >> 20) & 31) as u8)
}

fn count(word: u32) -> ShiftCount
    ensures { result ≡ fields.rs2 word }
{
    ShiftCount::new(((word >> 20) & 31) as u8)
}

/// Sign-extends a number in two's complement to a word. `sign` is the weight of the number's highest bit.
fn sign_extended(number: u32, sign: u32) -> u32
    ensures { result ≡ (if nat_lt number sign then number else (number + (2 ^ 32 - sign) + (2 ^ 32 - sign)) % 2 ^ 32) }
{
    if number < sign {
        number
    } else {
        number.wrapping_sub(sign).wrapping_sub(sign)
    }
}

fn immediate_i(word: u32) -> Immediate
    ensures { result ≡ fields.immediate_I word }
{
    Immediate::new(sign_extended(word >> 20, 1 << 11))
}

fn immediate_s(word: u32) -> Immediate
    ensures { result ≡ fields.immediate_S word }
{
    Immediate::new(sign_extended(((word >> 25) << 5) + ((word >> 7) & 31), 1 << 11))
}

fn immediate_b(word: u32) -> BranchOffset
    ensures { result ≡ fields.immediate_B word }
{
    let number = ((word >> 31) << 12)
        + (((word >> 7) & 1) << 11)
        + (((word >> 25) & 63) << 5)
        + (((word >> 8) & 15) << 1);
    BranchOffset::new(sign_extended(number, 1 << 12))
}

fn immediate_u(word: u32) -> UpperImmediate
    ensures { result ≡ fields.immediate_U word }
{
    UpperImmediate::new(word >> 12)
}

fn immediate_j(word: u32) -> JumpOffset
    ensures { result ≡ fields.immediate_J word }
{
    let number = ((word >> 31) << 20)
        + (((word >> 12) & 255) << 12)
        + (((word >> 20) & 1) << 11)
        + (((word >> 21) & 1023) << 1);
    JumpOffset::new(sign_extended(number, 1 << 20))
}
