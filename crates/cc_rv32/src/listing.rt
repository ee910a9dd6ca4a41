// The listing of an image: a line for each word of its code, with its address, the word and the instruction.

ghost use Rattle.std.specs.Prelude.{◌≡◌, ◌++◌, ◌<◌, ◌≤◌, length, Some, IfOk, OnOk, string_bytes};
ghost use Rattle.std.specs.Fmt.{decimal};
ghost use Rattle.cc_rv32.specs.Table.{instruction_of};
ghost use Rattle.cc_rv32.specs.internal.Operands.{operands_text};
ghost use Rattle.cc_rv32.specs.Listing.{register_text, signed_text, operation_text, immediate_operation_text, shift_operation_text, load_operation_text, store_operation_text, branch_operation_text, instruction_text, word_text, hexadecimal, hexadecimal_digit, line, lines_from, listing};

use crate::decode::decode;
use crate::fault::MachineFault;
use crate::image::Image;
use crate::instr::{
    BranchOperation, ImmediateOperation, Instr, LoadOperation, RegisterOperation, ShiftOperation,
    StoreOperation,
};
use crate::map::CODE_FROM;
use crate::operand::{BranchOffset, Immediate, JumpOffset, Register, ShiftCount, UpperImmediate};
use crate::operands::{Last, Operands};
use std::alloc::{AllocError, Global};
use std::fmt;

impl fmt::Display for Register {
    ghost output = { λ r. Some (register_text r) };

    fn fmt<W: fmt::Write>(&self, f: &mut fmt::Formatter<W>) -> fmt::Result {
        let number = self.number();
        write!(f, "x{number}")
    }
}

impl fmt::Display for Immediate {
    ghost output = { λ i. Some (signed_text i) };

    fn fmt<W: fmt::Write>(&self, f: &mut fmt::Formatter<W>) -> fmt::Result {
        let value = self.word().cast_signed();
        write!(f, "{value}")
    }
}

impl fmt::Display for BranchOffset {
    ghost output = { λ i. Some (signed_text i) };

    fn fmt<W: fmt::Write>(&self, f: &mut fmt::Formatter<W>) -> fmt::Result {
        let value = self.word().cast_signed();
        write!(f, "{value}")
    }
}

impl fmt::Display for JumpOffset {
    ghost output = { λ i. Some (signed_text i) };

    fn fmt<W: fmt::Write>(&self, f: &mut fmt::Formatter<W>) -> fmt::Result {
        let value = self.word().cast_signed();
        write!(f, "{value}")
    }
}

impl fmt::Display for ShiftCount {
    ghost output = { λ c. Some (decimal c) };

    fn fmt<W: fmt::Write>(&self, f: &mut fmt::Formatter<W>) -> fmt::Result {
        let amount = self.amount();
        write!(f, "{amount}")
    }
}

impl fmt::Display for UpperImmediate {
    ghost output = { λ i. Some (decimal i) };

    fn fmt<W: fmt::Write>(&self, f: &mut fmt::Formatter<W>) -> fmt::Result {
        let field = self.field();
        write!(f, "{field}")
    }
}

impl fmt::Display for RegisterOperation {
    ghost output = { λ o. Some (operation_text o) };

    fn fmt<W: fmt::Write>(&self, f: &mut fmt::Formatter<W>) -> fmt::Result {
        let name = operation_name(*self);
        write!(f, "{name}")
    }
}

impl fmt::Display for ImmediateOperation {
    ghost output = { λ o. Some (immediate_operation_text o) };

    fn fmt<W: fmt::Write>(&self, f: &mut fmt::Formatter<W>) -> fmt::Result {
        let name = immediate_operation_name(*self);
        write!(f, "{name}")
    }
}

impl fmt::Display for ShiftOperation {
    ghost output = { λ o. Some (shift_operation_text o) };

    fn fmt<W: fmt::Write>(&self, f: &mut fmt::Formatter<W>) -> fmt::Result {
        let name = shift_operation_name(*self);
        write!(f, "{name}")
    }
}

impl fmt::Display for LoadOperation {
    ghost output = { λ o. Some (load_operation_text o) };

    fn fmt<W: fmt::Write>(&self, f: &mut fmt::Formatter<W>) -> fmt::Result {
        let name = load_operation_name(*self);
        write!(f, "{name}")
    }
}

impl fmt::Display for StoreOperation {
    ghost output = { λ o. Some (store_operation_text o) };

    fn fmt<W: fmt::Write>(&self, f: &mut fmt::Formatter<W>) -> fmt::Result {
        let name = store_operation_name(*self);
        write!(f, "{name}")
    }
}

impl fmt::Display for BranchOperation {
    ghost output = { λ o. Some (branch_operation_text o) };

    fn fmt<W: fmt::Write>(&self, f: &mut fmt::Formatter<W>) -> fmt::Result {
        let name = branch_operation_name(*self);
        write!(f, "{name}")
    }
}

/// The name, followed by its operands.
impl fmt::Display for Instr {
    ghost output = { λ i. Some (instruction_text i) };

    fn fmt<W: fmt::Write>(&self, f: &mut fmt::Formatter<W>) -> fmt::Result {
        let Parts { name, operands } = parts_of(*self);
        write!(f, "{name}{operands}")
    }
}

/// Returns the listing of the image, as ASCII text: a line for each word of its code, in order of address, and none for its globals. A line
/// has the address and the word, both as eight hexadecimal digits in lower case, and the instruction (`.word` if the word is not one),
/// separated by spaces. It ends with a newline. Fails with 40 (OutOfMemory) if memory was refused.
pub fn list(alloc: Global, image: &Image) -> Result<Vec<u8>, MachineFault>
    ensures { IfOk result (λ text. text.items ≡ listing image.now) }
{
    match listed(alloc, image.code.words()) {
        Ok(text) => Ok(text.into_bytes()),
        Err(_) => Err(MachineFault::OutOfMemory),
    }
}

fn listed(alloc: Global, code: &[u32]) -> Result<String, AllocError>
    requires { length code.now ≤ 131072 }
    ensures { IfOk result (λ text. string_bytes text ≡ lines_from 0x00010000 code.now) }
{
    let mut text = String::new(alloc);
    let mut address = CODE_FROM;
    for word in code {
        push_line(&mut text, address, *word)?;
        address += 4;
    }
    Ok(text)
}

fn push_line(text: &mut String, address: u32, word: u32) -> Result<(), AllocError>
    ensures { OnOk result (string_bytes text.new ≡ string_bytes text.old ++ line address word) }
{
    push_hexadecimal(text, address)?;
    text.push_str(" ")?;
    push_hexadecimal(text, word)?;
    text.push_str(" ")?;
    push_instruction(text, word)?;
    text.push_str("\n")
}

fn push_instruction(text: &mut String, word: u32) -> Result<(), AllocError>
    ensures { OnOk result (string_bytes text.new ≡ string_bytes text.old ++ word_text (instruction_of word)) }
{
    match decode(word) {
        Some(instr) => write!(text, "{instr}"),
        None => text.push_str(".word"),
    }
}

/// Appends eight hexadecimal digits, in lower case.
fn push_hexadecimal(text: &mut String, word: u32) -> Result<(), AllocError>
    ensures { OnOk result (string_bytes text.new ≡ string_bytes text.old ++ hexadecimal 8 word) }
{
    for index in 0..8u32 {
        text.push(digit((word >> (28 - 4 * index)) & 15))?;
    }
    Ok(())
}

fn digit(value: u32) -> char
    requires { value < 16 }
    ensures value { result ≡ hexadecimal_digit value }
    ensures ascii { result < 128 }
{
    let code = if value < 10 { 48 + value } else { 87 + value };
    char::from(code as u8)
}

// An instruction's name and its operands.
#[derive(Clone, Copy)]
struct Parts {
    name: &'static str,
    operands: Operands,
}

fn parts_of(instr: Instr) -> Parts
    ensures { result.name.now ++ operands_text result.operands ≡ instruction_text instr }
{
    match instr {
        Instr::Op {
            operation,
            rd,
            rs1,
            rs2,
        } => Parts {
            name: operation_name(operation),
            operands: Operands::Three(rd, rs1, Last::Register(rs2)),
        },
        Instr::OpImm {
            operation,
            rd,
            rs1,
            immediate,
        } => Parts {
            name: immediate_operation_name(operation),
            operands: Operands::Three(rd, rs1, Last::Signed(immediate.word())),
        },
        Instr::Shift {
            operation,
            rd,
            rs1,
            count,
        } => Parts {
            name: shift_operation_name(operation),
            operands: Operands::Three(rd, rs1, Last::Number(u32::from(count.amount()))),
        },
        Instr::Load {
            operation,
            rd,
            rs1,
            offset,
        } => Parts {
            name: load_operation_name(operation),
            operands: Operands::Two(rd, Last::Address(offset, rs1)),
        },
        Instr::Store {
            operation,
            rs1,
            rs2,
            offset,
        } => Parts {
            name: store_operation_name(operation),
            operands: Operands::Two(rs2, Last::Address(offset, rs1)),
        },
        Instr::Branch {
            operation,
            rs1,
            rs2,
            offset,
        } => Parts {
            name: branch_operation_name(operation),
            operands: Operands::Three(rs1, rs2, Last::Signed(offset.word())),
        },
        Instr::Lui { rd, immediate } => Parts {
            name: "lui",
            operands: Operands::Two(rd, Last::Number(immediate.field())),
        },
        Instr::Auipc { rd, immediate } => Parts {
            name: "auipc",
            operands: Operands::Two(rd, Last::Number(immediate.field())),
        },
        Instr::Jal { rd, offset } => Parts {
            name: "jal",
            operands: Operands::Two(rd, Last::Signed(offset.word())),
        },
        Instr::Jalr { rd, rs1, offset } => Parts {
            name: "jalr",
            operands: Operands::Two(rd, Last::Address(offset, rs1)),
        },
        Instr::Ecall => Parts {
            name: "ecall",
            operands: Operands::None,
        },
    }
}

fn operation_name(operation: RegisterOperation) -> &'static str
    ensures { result.now ≡ operation_text operation }
{
    // ORDER Instr
    match operation {
        RegisterOperation::Add => "add",
        RegisterOperation::Sub => "sub",
        RegisterOperation::Sll => "sll",
        RegisterOperation::Slt => "slt",
        RegisterOperation::Sltu => "sltu",
        RegisterOperation::Xor => "xor",
        RegisterOperation::Srl => "srl",
        RegisterOperation::Sra => "sra",
        RegisterOperation::Or => "or",
        RegisterOperation::And => "and",
        RegisterOperation::Mul => "mul",
        RegisterOperation::Mulh => "mulh",
        RegisterOperation::Mulhsu => "mulhsu",
        RegisterOperation::Mulhu => "mulhu",
        RegisterOperation::Div => "div",
        RegisterOperation::Divu => "divu",
        RegisterOperation::Rem => "rem",
        RegisterOperation::Remu => "remu",
    }
}

fn immediate_operation_name(operation: ImmediateOperation) -> &'static str
    ensures { result.now ≡ immediate_operation_text operation }
{
    match operation {
        ImmediateOperation::Addi => "addi",
        ImmediateOperation::Slti => "slti",
        ImmediateOperation::Sltiu => "sltiu",
        ImmediateOperation::Xori => "xori",
        ImmediateOperation::Ori => "ori",
        ImmediateOperation::Andi => "andi",
    }
}

fn shift_operation_name(operation: ShiftOperation) -> &'static str
    ensures { result.now ≡ shift_operation_text operation }
{
    match operation {
        ShiftOperation::Slli => "slli",
        ShiftOperation::Srli => "srli",
        ShiftOperation::Srai => "srai",
    }
}

fn load_operation_name(operation: LoadOperation) -> &'static str
    ensures { result.now ≡ load_operation_text operation }
{
    match operation {
        LoadOperation::Lb => "lb",
        LoadOperation::Lh => "lh",
        LoadOperation::Lw => "lw",
        LoadOperation::Lbu => "lbu",
        LoadOperation::Lhu => "lhu",
    }
}

fn store_operation_name(operation: StoreOperation) -> &'static str
    ensures { result.now ≡ store_operation_text operation }
{
    match operation {
        StoreOperation::Sb => "sb",
        StoreOperation::Sh => "sh",
        StoreOperation::Sw => "sw",
    }
}

fn branch_operation_name(operation: BranchOperation) -> &'static str
    ensures { result.now ≡ branch_operation_text operation }
{
    match operation {
        BranchOperation::Beq => "beq",
        BranchOperation::Bne => "bne",
        BranchOperation::Blt => "blt",
        BranchOperation::Bge => "bge",
        BranchOperation::Bltu => "bltu",
        BranchOperation::Bgeu => "bgeu",
    }
}
