// Operators: the items of each, by its recipe.

ghost use Rattle.std.specs.Prelude.{◌≡◌, ◌<◌, ◌++◌, OnOk};
ghost use Rattle.cc_emit.specs.Emission.{recipe, recipe_items, word_recipe, word_recipe_items, unary_instr};
ghost use Rattle.cc_rv32.specs.declared.instr.Instr.TheVariants.{Op, OpImm};
ghost use Rattle.cc_rv32.specs.declared.instr.RegisterOperation.TheVariants.{Sltu};
ghost use Rattle.cc_rv32.specs.declared.instr.ImmediateOperation.TheVariants.{Sltiu};

use crate::instructions::{SCRATCH, ZERO, operate, operate_immediate, put};
use crate::item::PieceItem;
use crate::recipe::{Recipe, WordRecipe};
use cc_rv32::instr::{ImmediateOperation, Instr, RegisterOperation};
use cc_select::WordOperator;
use cc_words::{Binary, Unary};
use std::alloc::AllocError;

/// The instruction of an operator on one word.
pub(crate) fn unary(operator: Unary, to: u8, from: u8) -> Instr
    requires to { to < 32 }
    requires from { from < 32 }
    ensures { result ≡ unary_instr operator to from }
{
    match operator {
        Unary::Neg => operate(RegisterOperation::Sub, to, ZERO, from),
        Unary::Complement => operate_immediate(ImmediateOperation::Xori, to, from, 0xffff_ffff),
        Unary::IsZero => operate_immediate(ImmediateOperation::Sltiu, to, from, 1),
    }
}

/// Emits the items of an operator on two words.
pub(crate) fn put_binary(
    items: &mut Vec<PieceItem>,
    operator: Binary,
    to: u8,
    left: u8,
    right: u8,
) -> Result<(), AllocError>
    requires to { to < 32 }
    requires left { left < 32 }
    requires right { right < 32 }
    ensures { OnOk result (items.new.items ≡ items.old.items ++ recipe_items (recipe operator) to left right) }
{
    match Recipe::of(operator) {
        Recipe::Direct(operation) => put(items, operate(operation, to, left, right)),
        Recipe::ZeroOf(operation) => {
            put(items, operate(operation, SCRATCH, left, right))?;
            put(items, is_zero(to))
        }
        Recipe::ZeroOfExchanged(operation) => {
            put(items, operate(operation, SCRATCH, right, left))?;
            put(items, is_zero(to))
        }
        Recipe::NonzeroOf(operation) => {
            put(items, operate(operation, SCRATCH, left, right))?;
            put(items, is_nonzero(to))
        }
    }
}

/// Emits the items of an operator on a register and a word.
pub(crate) fn put_immediate(
    items: &mut Vec<PieceItem>,
    operator: WordOperator,
    to: u8,
    from: u8,
    word: u32,
) -> Result<(), AllocError>
    requires to { to < 32 }
    requires from { from < 32 }
    ensures { OnOk result (items.new.items ≡ items.old.items ++ word_recipe_items (word_recipe operator word) to from) }
{
    let recipe = WordRecipe::of(operator, word);
    match recipe {
        WordRecipe::WithImmediate(_, _) | WordRecipe::ShiftBy(_, _) | WordRecipe::OnZero(_) => {
            put(items, recipe.first(to, from))
        }
        WordRecipe::ZeroOfImmediate(_, _) => {
            put(items, recipe.first(SCRATCH, from))?;
            put(items, is_zero(to))
        }
        WordRecipe::NonzeroOfImmediate(_, _) => {
            put(items, recipe.first(SCRATCH, from))?;
            put(items, is_nonzero(to))
        }
    }
}

// The instruction that tests whether the scratch register's word is 0.
fn is_zero(to: u8) -> Instr
    requires { to < 32 }
    ensures { result ≡ OpImm Sltiu to 5 1 }
{
    operate_immediate(ImmediateOperation::Sltiu, to, SCRATCH, 1)
}

// The instruction that tests whether the scratch register's word is not 0.
fn is_nonzero(to: u8) -> Instr
    requires { to < 32 }
    ensures { result ≡ Op Sltu to 0 5 }
{
    operate(RegisterOperation::Sltu, to, ZERO, SCRATCH)
}
