// Conditions of branches: how the words of two registers compare. A comparison of registers is a condition of its own, so a branch on it
// needs no truth value in a register. A comparison with a word is one too, if a comparison with 0 has the same result.

ghost use Rattle.std.specs.Prelude.{◌≡◌, ◌<◌};
ghost use Rattle.cc_emit.specs.Branches.{opposite, compares, opposed, turned, comparison, immediate_against_zero, operation_on_zero, against_zero};

use crate::instructions::ZERO;
use crate::recipe::WordRecipe;
use cc_rv32::instr::{BranchOperation, ImmediateOperation, RegisterOperation};
use cc_rv32::operand::Register;
use cc_words::Binary;

/// When a branch is taken.
#[derive(Clone, Copy)]
pub(crate) struct Condition {
    pub(crate) operation: BranchOperation,
    pub(crate) left: Register,
    pub(crate) right: Register,
}

impl Condition {
    /// The condition of a branch with this operation on these two registers.
    pub(crate) fn new(operation: BranchOperation, left: u8, right: u8) -> Condition
        requires left { left < 32 }
        requires right { right < 32 }
        ensures { result ≡ compares operation left right }
    {
        Condition {
            operation,
            left: Register::new(left),
            right: Register::new(right),
        }
    }

    /// The condition that holds exactly if this one does not.
    pub(crate) fn opposite(self) -> Condition
        ensures { result ≡ opposed self }
    {
        Condition {
            operation: opposite(self.operation),
            left: self.left,
            right: self.right,
        }
    }

    /// This condition if `nonzero` is true, else its opposite.
    pub(crate) fn turned(self, nonzero: bool) -> Condition
        ensures { result ≡ turned nonzero self }
    {
        if nonzero { self } else { self.opposite() }
    }

    /// The condition under which a comparison of two registers yields 1.
    pub(crate) fn of_comparison(operator: Binary, left: u8, right: u8) -> Condition
        requires left { left < 32 }
        requires right { right < 32 }
        ensures { result ≡ comparison operator left right }
    {
        match operator {
            Binary::Eq => Condition::new(BranchOperation::Beq, left, right),
            Binary::LtS => Condition::new(BranchOperation::Blt, left, right),
            Binary::LtU => Condition::new(BranchOperation::Bltu, left, right),
            Binary::LeS => Condition::new(BranchOperation::Bge, right, left),
            Binary::LeU => Condition::new(BranchOperation::Bgeu, right, left),
            _ => Condition::new(BranchOperation::Bne, left, right),
        }
    }

    /// The condition under which the result of a recipe is not 0, if a comparison of the register with 0 decides that.
    pub(crate) fn against_zero(recipe: WordRecipe, from: u8) -> Option<Condition>
        requires { from < 32 }
        ensures { result ≡ against_zero recipe from }
    {
        match recipe {
            WordRecipe::WithImmediate(operation, part) => {
                immediate_against_zero(operation, part, from)
            }
            WordRecipe::ZeroOfImmediate(operation, part) => {
                match immediate_against_zero(operation, part, from) {
                    Some(condition) => Some(condition.opposite()),
                    None => None,
                }
            }
            WordRecipe::OnZero(operation) => operation_on_zero(operation, from),
            WordRecipe::ShiftBy(_, _) | WordRecipe::NonzeroOfImmediate(_, _) => None,
        }
    }
}

// The operation of a branch that is taken exactly if one with `operation` is not.
fn opposite(operation: BranchOperation) -> BranchOperation
    ensures { result ≡ opposite operation }
{
    match operation {
        BranchOperation::Beq => BranchOperation::Bne,
        BranchOperation::Bne => BranchOperation::Beq,
        BranchOperation::Blt => BranchOperation::Bge,
        BranchOperation::Bge => BranchOperation::Blt,
        BranchOperation::Bltu => BranchOperation::Bgeu,
        BranchOperation::Bgeu => BranchOperation::Bltu,
    }
}

// The condition under which the result of an instruction with an immediate is not 0, if a comparison of its register with 0 decides
// that.
fn immediate_against_zero(operation: ImmediateOperation, part: u32, from: u8) -> Option<Condition>
    requires { from < 32 }
    ensures { result ≡ immediate_against_zero operation part from }
{
    match (operation, part) {
        (ImmediateOperation::Slti, 0) => Some(Condition::new(BranchOperation::Blt, from, ZERO)),
        (ImmediateOperation::Slti, 1) => Some(Condition::new(BranchOperation::Bge, ZERO, from)),
        (ImmediateOperation::Sltiu, 1) => Some(Condition::new(BranchOperation::Beq, from, ZERO)),
        _ => None,
    }
}

// The condition under which the result of an instruction on 0 and a register is not 0, if a comparison of the register with 0 decides
// that.
fn operation_on_zero(operation: RegisterOperation, from: u8) -> Option<Condition>
    requires { from < 32 }
    ensures { result ≡ operation_on_zero operation from }
{
    match operation {
        RegisterOperation::Slt => Some(Condition::new(BranchOperation::Blt, ZERO, from)),
        RegisterOperation::Sltu => Some(Condition::new(BranchOperation::Bne, from, ZERO)),
        _ => None,
    }
}
