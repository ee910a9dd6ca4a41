// The instructions of RV32I and M: one variant for each form of instruction word, with the operands of that form. Every value of `Instr`
// has a word, because each operand's type has exactly the values that fit in its field.

ghost use Rattle.std.specs.Prelude.{◌≡◌, ◌<◌};
ghost use Rattle.cc_rv32.specs.Table.{operation_funct3, operation_funct7, immediate_operation_funct3, shift_operation_funct3, shift_operation_funct7, load_operation_funct3, store_operation_funct3, branch_operation_funct3};

use crate::operand::{BranchOffset, Immediate, JumpOffset, Register, ShiftCount, UpperImmediate};

// ORDER Instr
/// What an instruction on two registers computes (opcode OP).
#[derive(Clone, Copy)]
pub enum RegisterOperation {
    /// Sum modulo 2^32.
    Add,
    /// Difference modulo 2^32.
    Sub,
    /// Shift left by the low five bits of the second word.
    Sll,
    /// 1 if the first is less as a signed number, else 0.
    Slt,
    /// 1 if the first is less as an unsigned number, else 0.
    Sltu,
    /// Exclusive or.
    Xor,
    /// Shift right by the low five bits of the second word; zeros are shifted in.
    Srl,
    /// Shift right by the low five bits of the second word; copies of the sign are shifted in.
    Sra,
    /// Or.
    Or,
    /// And.
    And,
    /// Low word of the product.
    Mul,
    /// High word of the product, signed by signed.
    Mulh,
    /// High word of the product, signed by unsigned.
    Mulhsu,
    /// High word of the product, unsigned by unsigned.
    Mulhu,
    /// Signed quotient, truncated toward zero.
    Div,
    /// Unsigned quotient.
    Divu,
    /// Signed remainder.
    Rem,
    /// Unsigned remainder.
    Remu,
}

impl RegisterOperation {
    /// The field funct3 of the operation's word.
    pub(crate) fn funct3(self) -> u32
        ensures table { result ≡ operation_funct3 self }
        ensures in_range { result < 8 }
    {
        // ORDER Instr
        match self {
            RegisterOperation::Add => 0,
            RegisterOperation::Sub => 0,
            RegisterOperation::Sll => 1,
            RegisterOperation::Slt => 2,
            RegisterOperation::Sltu => 3,
            RegisterOperation::Xor => 4,
            RegisterOperation::Srl => 5,
            RegisterOperation::Sra => 5,
            RegisterOperation::Or => 6,
            RegisterOperation::And => 7,
            RegisterOperation::Mul => 0,
            RegisterOperation::Mulh => 1,
            RegisterOperation::Mulhsu => 2,
            RegisterOperation::Mulhu => 3,
            RegisterOperation::Div => 4,
            RegisterOperation::Divu => 5,
            RegisterOperation::Rem => 6,
            RegisterOperation::Remu => 7,
        }
    }

    /// The field funct7 of the operation's word.
    pub(crate) fn funct7(self) -> u32
        ensures table { result ≡ operation_funct7 self }
        ensures in_range { result < 128 }
    {
        // ORDER Instr
        match self {
            RegisterOperation::Add => 0x00,
            RegisterOperation::Sub => 0x20,
            RegisterOperation::Sll => 0x00,
            RegisterOperation::Slt => 0x00,
            RegisterOperation::Sltu => 0x00,
            RegisterOperation::Xor => 0x00,
            RegisterOperation::Srl => 0x00,
            RegisterOperation::Sra => 0x20,
            RegisterOperation::Or => 0x00,
            RegisterOperation::And => 0x00,
            RegisterOperation::Mul => 0x01,
            RegisterOperation::Mulh => 0x01,
            RegisterOperation::Mulhsu => 0x01,
            RegisterOperation::Mulhu => 0x01,
            RegisterOperation::Div => 0x01,
            RegisterOperation::Divu => 0x01,
            RegisterOperation::Rem => 0x01,
            RegisterOperation::Remu => 0x01,
        }
    }
}

/// What an instruction on a register and an immediate computes (opcode OP-IMM).
#[derive(Clone, Copy)]
pub enum ImmediateOperation {
    /// Sum modulo 2^32.
    Addi,
    /// 1 if the register is less as a signed number, else 0.
    Slti,
    /// 1 if the register is less as an unsigned number, else 0.
    Sltiu,
    /// Exclusive or.
    Xori,
    /// Or.
    Ori,
    /// And.
    Andi,
}

impl ImmediateOperation {
    /// The field funct3 of the operation's word.
    pub(crate) fn funct3(self) -> u32
        ensures table { result ≡ immediate_operation_funct3 self }
        ensures in_range { result < 8 }
    {
        match self {
            ImmediateOperation::Addi => 0,
            ImmediateOperation::Slti => 2,
            ImmediateOperation::Sltiu => 3,
            ImmediateOperation::Xori => 4,
            ImmediateOperation::Ori => 6,
            ImmediateOperation::Andi => 7,
        }
    }
}

/// A shift by a constant count (opcode OP-IMM).
#[derive(Clone, Copy)]
pub enum ShiftOperation {
    /// Left.
    Slli,
    /// Right; zeros are shifted in.
    Srli,
    /// Right; copies of the sign are shifted in.
    Srai,
}

impl ShiftOperation {
    /// The field funct3 of the operation's word.
    pub(crate) fn funct3(self) -> u32
        ensures table { result ≡ shift_operation_funct3 self }
        ensures in_range { result < 8 }
    {
        match self {
            ShiftOperation::Slli => 1,
            ShiftOperation::Srli => 5,
            ShiftOperation::Srai => 5,
        }
    }

    /// The field funct7 of the operation's word.
    pub(crate) fn funct7(self) -> u32
        ensures table { result ≡ shift_operation_funct7 self }
        ensures in_range { result < 128 }
    {
        match self {
            ShiftOperation::Slli => 0x00,
            ShiftOperation::Srli => 0x00,
            ShiftOperation::Srai => 0x20,
        }
    }
}

/// What a load reads (opcode LOAD).
#[derive(Clone, Copy)]
pub enum LoadOperation {
    /// A byte, sign-extended.
    Lb,
    /// A half word, sign-extended.
    Lh,
    /// A word.
    Lw,
    /// A byte, zero-extended.
    Lbu,
    /// A half word, zero-extended.
    Lhu,
}

impl LoadOperation {
    /// The field funct3 of the operation's word.
    pub(crate) fn funct3(self) -> u32
        ensures table { result ≡ load_operation_funct3 self }
        ensures in_range { result < 8 }
    {
        match self {
            LoadOperation::Lb => 0,
            LoadOperation::Lh => 1,
            LoadOperation::Lw => 2,
            LoadOperation::Lbu => 4,
            LoadOperation::Lhu => 5,
        }
    }
}

/// What a store writes (opcode STORE).
#[derive(Clone, Copy)]
pub enum StoreOperation {
    /// The low byte.
    Sb,
    /// The low half word.
    Sh,
    /// The word.
    Sw,
}

impl StoreOperation {
    /// The field funct3 of the operation's word.
    pub(crate) fn funct3(self) -> u32
        ensures table { result ≡ store_operation_funct3 self }
        ensures in_range { result < 8 }
    {
        match self {
            StoreOperation::Sb => 0,
            StoreOperation::Sh => 1,
            StoreOperation::Sw => 2,
        }
    }
}

/// The condition of a branch (opcode BRANCH).
#[derive(Clone, Copy)]
pub enum BranchOperation {
    /// Equal.
    Beq,
    /// Not equal.
    Bne,
    /// Less, as signed numbers.
    Blt,
    /// Greater or equal, as signed numbers.
    Bge,
    /// Less, as unsigned numbers.
    Bltu,
    /// Greater or equal, as unsigned numbers.
    Bgeu,
}

impl BranchOperation {
    /// The field funct3 of the operation's word.
    pub(crate) fn funct3(self) -> u32
        ensures table { result ≡ branch_operation_funct3 self }
        ensures in_range { result < 8 }
    {
        match self {
            BranchOperation::Beq => 0,
            BranchOperation::Bne => 1,
            BranchOperation::Blt => 4,
            BranchOperation::Bge => 5,
            BranchOperation::Bltu => 6,
            BranchOperation::Bgeu => 7,
        }
    }
}

/// An instruction: its form, what it does, and its operands.
#[derive(Clone, Copy)]
pub enum Instr {
    /// `add x3, x1, x2`: `rd` gets the operation's value for `rs1` and `rs2`.
    Op {
        operation: RegisterOperation,
        rd: Register,
        rs1: Register,
        rs2: Register,
    },
    /// `addi x1, x0, -1`: `rd` gets the operation's value for `rs1` and the immediate.
    OpImm {
        operation: ImmediateOperation,
        rd: Register,
        rs1: Register,
        immediate: Immediate,
    },
    /// `slli x1, x2, 3`: `rd` gets `rs1` shifted by the count.
    Shift {
        operation: ShiftOperation,
        rd: Register,
        rs1: Register,
        count: ShiftCount,
    },
    /// `lw x5, 8(x2)`: `rd` gets what memory holds at `rs1` + offset.
    Load {
        operation: LoadOperation,
        rd: Register,
        rs1: Register,
        offset: Immediate,
    },
    /// `sw x5, 8(x2)`: `rs2` is written at `rs1` + offset.
    Store {
        operation: StoreOperation,
        rs1: Register,
        rs2: Register,
        offset: Immediate,
    },
    /// `beq x1, x2, -4`: continues at pc + offset if the condition holds for `rs1` and `rs2`.
    Branch {
        operation: BranchOperation,
        rs1: Register,
        rs2: Register,
        offset: BranchOffset,
    },
    /// `lui x5, 74565`: `rd` gets the upper immediate.
    Lui {
        rd: Register,
        immediate: UpperImmediate,
    },
    /// `auipc x5, 74565`: `rd` gets pc plus the upper immediate.
    Auipc {
        rd: Register,
        immediate: UpperImmediate,
    },
    /// `jal x1, 12`: continues at pc + offset; `rd` gets pc + 4.
    Jal {
        rd: Register,
        offset: JumpOffset,
    },
    /// `jalr x0, 0(x1)`: continues at `rs1` + offset with bit 0 cleared; `rd` gets pc + 4.
    Jalr {
        rd: Register,
        rs1: Register,
        offset: Immediate,
    },
    /// A call of a service of the machine, by the number in `x17`.
    Ecall,
}
