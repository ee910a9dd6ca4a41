// The operators on a register and a word: which words each can encode, and which operators of Linear have such a form.

ghost use Rattle.std.specs.Prelude.{◌≡◌};
ghost use Rattle.cc_select.specs.Immediates.{is_short, has_word, is_power, immediate_of, immediate_of_left, is_comparison, gains};

use crate::step::WordOperator;
use cc_words::{Binary, add, sub};

// Whether the word fits in an instruction's immediate: -2048 to 2047.
fn is_short(word: u32) -> bool
    ensures { result ≡ is_short word }
{
    word.wrapping_add(2048) < 4096
}

/// Whether the operator's instructions can encode the word as an immediate.
pub(crate) fn has_word(operator: WordOperator, word: u32) -> bool
    ensures { result ≡ has_word operator word }
{
    match operator {
        WordOperator::Add
        | WordOperator::And
        | WordOperator::Or
        | WordOperator::Xor
        | WordOperator::LtS
        | WordOperator::LtU
        | WordOperator::GeS
        | WordOperator::GeU => is_short(word),
        WordOperator::Sub | WordOperator::Eq | WordOperator::Ne => is_short(sub(0, word)),
        WordOperator::Shl | WordOperator::ShrS | WordOperator::ShrU => word < 32,
        WordOperator::LeS => is_short(add(word, 1)),
        WordOperator::LeU => is_short(add(word, 1)) && word != u32::MAX,
        WordOperator::GtS | WordOperator::GtU => word == 0,
    }
}

// Whether the word is a power of two; its exponent is then `trailing_zeros`.
fn is_power(word: u32) -> bool
    ensures { result ≡ is_power word }
{
    let exponent = word.trailing_zeros();
    exponent < 32 && word == 1 << exponent
}

/// The form of an operator with a word on its right: an operator on a register and a word. The word of the form can differ from
/// `word`: `x % 8` is `x & 7`.
pub(crate) fn immediate_of(operator: Binary, word: u32) -> Option<(WordOperator, u32)>
    ensures { result ≡ immediate_of operator word }
{
    // ORDER Binary
    match operator {
        Binary::Add => Some((WordOperator::Add, word)),
        Binary::Sub => Some((WordOperator::Sub, word)),
        Binary::Shl => Some((WordOperator::Shl, word)),
        Binary::ShrS => Some((WordOperator::ShrS, word)),
        Binary::ShrU => Some((WordOperator::ShrU, word)),
        Binary::And => Some((WordOperator::And, word)),
        Binary::Or => Some((WordOperator::Or, word)),
        Binary::Xor => Some((WordOperator::Xor, word)),
        Binary::Eq => Some((WordOperator::Eq, word)),
        Binary::Ne => Some((WordOperator::Ne, word)),
        Binary::LtS => Some((WordOperator::LtS, word)),
        Binary::LtU => Some((WordOperator::LtU, word)),
        Binary::LeS => Some((WordOperator::LeS, word)),
        Binary::LeU => Some((WordOperator::LeU, word)),
        Binary::Mul if is_power(word) => Some((WordOperator::Shl, word.trailing_zeros())),
        Binary::DivU if is_power(word) => Some((WordOperator::ShrU, word.trailing_zeros())),
        Binary::RemU if is_power(word) => Some((WordOperator::And, word - 1)),
        _ => None,
    }
}

/// An operator with a word on its left, as an operator on a register and a word.
pub(crate) fn immediate_of_left(operator: Binary, word: u32) -> Option<(WordOperator, u32)>
    ensures { result ≡ immediate_of_left operator word }
{
    match operator {
        Binary::Add => Some((WordOperator::Add, word)),
        Binary::And => Some((WordOperator::And, word)),
        Binary::Or => Some((WordOperator::Or, word)),
        Binary::Xor => Some((WordOperator::Xor, word)),
        Binary::Eq => Some((WordOperator::Eq, word)),
        Binary::Ne => Some((WordOperator::Ne, word)),
        Binary::LtS => Some((WordOperator::GtS, word)),
        Binary::LtU => Some((WordOperator::GtU, word)),
        Binary::LeS => Some((WordOperator::GeS, word)),
        Binary::LeU => Some((WordOperator::GeU, word)),
        Binary::Mul if is_power(word) => Some((WordOperator::Shl, word.trailing_zeros())),
        _ => None,
    }
}

/// Whether the operator is a comparison.
pub(crate) fn is_comparison(operator: Binary) -> bool
    ensures { result ≡ is_comparison operator }
{
    matches!(
        operator,
        Binary::Eq | Binary::Ne | Binary::LtS | Binary::LtU | Binary::LeS | Binary::LeU
    )
}

/// Whether a branch on a comparison by this operator with the word needs fewer instructions than the comparison and a branch on
/// its value.
pub(crate) fn gains(operator: WordOperator, word: u32) -> bool
    ensures { result ≡ gains operator word }
{
    match operator {
        WordOperator::Eq
        | WordOperator::Ne
        | WordOperator::GeS
        | WordOperator::GeU
        | WordOperator::GtS
        | WordOperator::GtU => true,
        WordOperator::LtS => word == 0 || word == 1,
        WordOperator::LtU => word == 1,
        WordOperator::LeS => word == 0 || word == u32::MAX,
        WordOperator::LeU => word == 0,
        WordOperator::Add
        | WordOperator::Sub
        | WordOperator::Shl
        | WordOperator::ShrS
        | WordOperator::ShrU
        | WordOperator::And
        | WordOperator::Or
        | WordOperator::Xor => false,
    }
}
