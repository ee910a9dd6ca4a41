// How operators become instructions: each becomes one instruction, or one followed by another that tests whether its result is 0, or
// whether it is not 0.

ghost use Rattle.std.specs.Prelude.{◌≡◌, ◌<◌, ◌≤◌};
ghost use Rattle.cc_emit.specs.Branches.{asked_of};
ghost use Rattle.cc_emit.specs.Emission.{recipe, recipe_size, word_recipe, word_recipe_size, first_instr};
ghost use Rattle.cc_emit.specs.internal.Room.{HasRoom};
ghost use Rattle.cc_select.specs.declared.step.WordOperator.TheVariants.{Eq, Ne};

use crate::instructions::{ZERO, low, operate, operate_immediate, shift};
use cc_rv32::instr::{
    BranchOperation, ImmediateOperation, Instr, RegisterOperation, ShiftOperation,
};
use cc_select::WordOperator;
use cc_words::{Binary, add, sub};

/// The instructions for an operator on two words.
#[derive(Clone, Copy)]
pub(crate) enum Recipe {
    /// One instruction.
    Direct(RegisterOperation),
    /// An instruction, then one that tests whether its result is 0.
    ZeroOf(RegisterOperation),
    /// An instruction with the operands exchanged, then one that tests whether its result is 0.
    ZeroOfExchanged(RegisterOperation),
    /// An instruction, then one that tests whether its result is not 0.
    NonzeroOf(RegisterOperation),
}

impl Recipe {
    /// The recipe of an operator.
    pub(crate) fn of(operator: Binary) -> Recipe
        ensures { result ≡ recipe operator }
    {
        // ORDER Binary
        match operator {
            Binary::Add => Recipe::Direct(RegisterOperation::Add),
            Binary::Sub => Recipe::Direct(RegisterOperation::Sub),
            Binary::Mul => Recipe::Direct(RegisterOperation::Mul),
            Binary::DivS => Recipe::Direct(RegisterOperation::Div),
            Binary::DivU => Recipe::Direct(RegisterOperation::Divu),
            Binary::RemS => Recipe::Direct(RegisterOperation::Rem),
            Binary::RemU => Recipe::Direct(RegisterOperation::Remu),
            Binary::Shl => Recipe::Direct(RegisterOperation::Sll),
            Binary::ShrS => Recipe::Direct(RegisterOperation::Sra),
            Binary::ShrU => Recipe::Direct(RegisterOperation::Srl),
            Binary::And => Recipe::Direct(RegisterOperation::And),
            Binary::Or => Recipe::Direct(RegisterOperation::Or),
            Binary::Xor => Recipe::Direct(RegisterOperation::Xor),
            Binary::Eq => Recipe::ZeroOf(RegisterOperation::Sub),
            Binary::Ne => Recipe::NonzeroOf(RegisterOperation::Sub),
            Binary::LtS => Recipe::Direct(RegisterOperation::Slt),
            Binary::LtU => Recipe::Direct(RegisterOperation::Sltu),
            Binary::LeS => Recipe::ZeroOfExchanged(RegisterOperation::Slt),
            Binary::LeU => Recipe::ZeroOfExchanged(RegisterOperation::Sltu),
        }
    }

    /// The number of items that the recipe needs.
    pub(crate) fn size(self) -> usize
        ensures answer { result ≡ recipe_size self }
        ensures few { result ≤ 2 }
    {
        match self {
            Recipe::Direct(_) => 1,
            Recipe::ZeroOf(_) | Recipe::ZeroOfExchanged(_) | Recipe::NonzeroOf(_) => 2,
        }
    }
}

/// The instructions for an operator on a register and a word.
#[derive(Clone, Copy)]
pub(crate) enum WordRecipe {
    /// One instruction with an immediate.
    WithImmediate(ImmediateOperation, u32),
    /// A shift.
    ShiftBy(ShiftOperation, u8),
    /// One instruction on 0 and the register.
    OnZero(RegisterOperation),
    /// An instruction with an immediate, then one that tests whether its result is 0.
    ZeroOfImmediate(ImmediateOperation, u32),
    /// An instruction with an immediate, then one that tests whether its result is not 0.
    NonzeroOfImmediate(ImmediateOperation, u32),
}

impl WordRecipe {
    /// The recipe of an operator and a word.
    pub(crate) fn of(operator: WordOperator, word: u32) -> WordRecipe
        ensures answer { result ≡ word_recipe operator word }
        ensures fits { HasRoom result }
    {
        match operator {
            WordOperator::Add => WordRecipe::WithImmediate(ImmediateOperation::Addi, low(word)),
            WordOperator::Sub => WordRecipe::WithImmediate(
                ImmediateOperation::Addi,
                low(sub(0, word)),
            ),
            WordOperator::Shl => WordRecipe::ShiftBy(ShiftOperation::Slli, (word % 32) as u8),
            WordOperator::ShrS => WordRecipe::ShiftBy(ShiftOperation::Srai, (word % 32) as u8),
            WordOperator::ShrU => WordRecipe::ShiftBy(ShiftOperation::Srli, (word % 32) as u8),
            WordOperator::And => WordRecipe::WithImmediate(ImmediateOperation::Andi, low(word)),
            WordOperator::Or => WordRecipe::WithImmediate(ImmediateOperation::Ori, low(word)),
            WordOperator::Xor => WordRecipe::WithImmediate(ImmediateOperation::Xori, low(word)),
            WordOperator::Eq => equal_to(word),
            WordOperator::Ne => unequal_to(word),
            WordOperator::LtS => WordRecipe::WithImmediate(ImmediateOperation::Slti, low(word)),
            WordOperator::LtU => WordRecipe::WithImmediate(ImmediateOperation::Sltiu, low(word)),
            WordOperator::LeS => WordRecipe::WithImmediate(
                ImmediateOperation::Slti,
                low(add(word, 1)),
            ),
            WordOperator::LeU => WordRecipe::WithImmediate(
                ImmediateOperation::Sltiu,
                low(add(word, 1)),
            ),
            WordOperator::GtS => WordRecipe::OnZero(RegisterOperation::Slt),
            WordOperator::GtU => WordRecipe::OnZero(RegisterOperation::Sltu),
            WordOperator::GeS => WordRecipe::ZeroOfImmediate(ImmediateOperation::Slti, low(word)),
            WordOperator::GeU => WordRecipe::ZeroOfImmediate(ImmediateOperation::Sltiu, low(word)),
        }
    }

    /// The number of items that the recipe needs.
    pub(crate) fn size(self) -> usize
        ensures answer { result ≡ word_recipe_size self }
        ensures few { result ≤ 2 }
    {
        match self {
            WordRecipe::WithImmediate(_, _) | WordRecipe::ShiftBy(_, _) | WordRecipe::OnZero(_) =>
                1,
            WordRecipe::ZeroOfImmediate(_, _) | WordRecipe::NonzeroOfImmediate(_, _) => 2,
        }
    }

    /// The recipe's first instruction, with its result in register `to`.
    pub(crate) fn first(self, to: u8, from: u8) -> Instr
        requires room { HasRoom self }
        requires to { to < 32 }
        requires from { from < 32 }
        ensures { result ≡ first_instr self to from }
    {
        match self {
            WordRecipe::WithImmediate(operation, part)
            | WordRecipe::ZeroOfImmediate(operation, part)
            | WordRecipe::NonzeroOfImmediate(operation, part) => {
                operate_immediate(operation, to, from, part)
            }
            WordRecipe::ShiftBy(operation, bits) => shift(operation, to, from, bits),
            WordRecipe::OnZero(operation) => operate(operation, to, ZERO, from),
        }
    }

    /// The comparison with 0 that holds for the first instruction's result exactly if the recipe's result is not 0.
    pub(crate) fn asked(self) -> BranchOperation
        ensures { result ≡ asked_of self }
    {
        match self {
            WordRecipe::ZeroOfImmediate(_, _) => BranchOperation::Beq,
            _ => BranchOperation::Bne,
        }
    }
}

// The recipe that tests whether a register holds `word`. If `word` is 0, it tests whether the register holds less than 1, unsigned.
fn equal_to(word: u32) -> WordRecipe
    ensures answer { result ≡ word_recipe Eq word }
    ensures fits { HasRoom result }
{
    if word == 0 {
        WordRecipe::WithImmediate(ImmediateOperation::Sltiu, 1)
    } else {
        WordRecipe::ZeroOfImmediate(ImmediateOperation::Addi, low(sub(0, word)))
    }
}

// The recipe that tests whether a register holds a word other than `word`. If `word` is 0, it tests whether the register holds more
// than 0, unsigned.
fn unequal_to(word: u32) -> WordRecipe
    ensures answer { result ≡ word_recipe Ne word }
    ensures fits { HasRoom result }
{
    if word == 0 {
        WordRecipe::OnZero(RegisterOperation::Sltu)
    } else {
        WordRecipe::NonzeroOfImmediate(ImmediateOperation::Addi, low(sub(0, word)))
    }
}
