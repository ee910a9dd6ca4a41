// The values of operators on words, and of instructions that push a constant.

use super::code::{Instruction, TypedOperator};
use cc_resolve::UnaryOperation;
use cc_syntax::BinaryOperator;
use cc_tokens::Scalar;

/// At most this many words are kept while an expression is evaluated; one that keeps more has no value here.
const MOST_KEPT: usize = 16;

/// The words of an expression that is evaluated, and how many there are; the newest is the last one.
#[derive(Clone, Copy)]
struct Kept {
    words: [u32; MOST_KEPT],
    count: usize,
}

/// The value of an operator on two words, in the type in which it works; `None` if it goes wrong.
pub fn binary_word(operation: TypedOperator, left: u32, right: u32) -> Option<u32> {
    let signed = operation.working == Scalar::Int;
    // ORDER BinaryOperator
    match operation.operator {
        BinaryOperator::Multiply => Some(cc_words::mul(left, right)),
        BinaryOperator::Divide if signed => cc_words::div_s(left, right),
        BinaryOperator::Divide => cc_words::div_u(left, right),
        BinaryOperator::Remainder if signed => cc_words::rem_s(left, right),
        BinaryOperator::Remainder => cc_words::rem_u(left, right),
        BinaryOperator::Add => Some(cc_words::add(left, right)),
        BinaryOperator::Subtract => Some(cc_words::sub(left, right)),
        BinaryOperator::ShiftLeft => cc_words::shl(left, right),
        BinaryOperator::ShiftRight if signed => cc_words::shr_s(left, right),
        BinaryOperator::ShiftRight => cc_words::shr_u(left, right),
        BinaryOperator::Equal => Some(cc_words::eq(left, right)),
        BinaryOperator::NotEqual => Some(cc_words::ne(left, right)),
        BinaryOperator::And | BinaryOperator::LogicalAnd => Some(left & right),
        BinaryOperator::Xor => Some(left ^ right),
        BinaryOperator::Or | BinaryOperator::LogicalOr => Some(left | right),
        BinaryOperator::Less => Some(less(signed, left, right)),
        BinaryOperator::Greater => Some(less(signed, right, left)),
        BinaryOperator::LessOrEqual => Some(cc_words::eq(less(signed, right, left), 0)),
        BinaryOperator::GreaterOrEqual => Some(cc_words::eq(less(signed, left, right), 0)),
    }
}

// 1 if `left` is less than `right`, both read as signed or both as unsigned numbers, else 0.
fn less(signed: bool, left: u32, right: u32) -> u32 {
    if signed {
        cc_words::lt_s(left, right)
    } else {
        cc_words::lt_u(left, right)
    }
}

/// The value of an operator on a word.
pub fn unary_word(operation: UnaryOperation, word: u32) -> u32 {
    match operation {
        UnaryOperation::Negate => cc_words::sub(0, word),
        UnaryOperation::Complement => !word,
        UnaryOperation::IsZero => cc_words::eq(word, 0),
    }
}

impl Kept {
    fn push(&mut self, word: u32) -> Option<()> {
        let place = self.words.get_mut(self.count)?;
        *place = word;
        self.count = self.count.saturating_add(1);
        Some(())
    }

    fn pop(&mut self) -> Option<u32> {
        self.count = self.count.checked_sub(1)?;
        self.words.get(self.count).copied()
    }

    // Carries out an instruction; `None` if it does anything but compute, or goes wrong.
    fn step(&mut self, instruction: Instruction<'_>) -> Option<()> {
        match instruction {
            Instruction::Constant(word) => self.push(word),
            Instruction::Unary(operation) => {
                let word = self.pop()?;
                self.push(unary_word(operation, word))
            }
            Instruction::Binary(operation) => {
                let right = self.pop()?;
                let left = self.pop()?;
                self.push(binary_word(operation, left, right)?)
            }
            _ => None,
        }
    }
}

/// The word that these instructions push, if they compute it from constants alone and do nothing else.
pub fn folded(code: &[Instruction<'_>]) -> Option<u32> {
    let mut kept = Kept {
        words: [0; MOST_KEPT],
        count: 0,
    };
    for instruction in code {
        kept.step(*instruction)?;
    }
    let word = kept.pop()?;
    if kept.count == 0 { Some(word) } else { None }
}
