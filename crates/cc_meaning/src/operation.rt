// The values of operations on words.

ghost use Rattle.std.specs.Prelude.{◌≡◌, ok_or};
ghost use Rattle.cc_meaning.specs.internal.FormMeaning.{unary_result, binary_result, cause_of_operation};

use cc_c_semantics::Cause;
use cc_resolve::{BinaryOperation, UnaryOperation};

/// The value of an operation on one word.
#[inline(always)]
pub fn unary(operation: UnaryOperation, word: u32) -> u32
    ensures { result ≡ unary_result operation word }
{
    match operation {
        UnaryOperation::Negate => cc_words::sub(0, word),
        UnaryOperation::Complement => !word,
        UnaryOperation::IsZero => cc_words::eq(word, 0),
    }
}

/// The value of an operation on two words, or why it has no value.
#[inline(always)]
pub fn binary(operation: BinaryOperation, left: u32, right: u32) -> Result<u32, Cause>
    ensures { result ≡ ok_or (binary_result operation left right) (cause_of_operation operation) }
{
    match operation {
        BinaryOperation::Multiply => Ok(cc_words::mul(left, right)),
        BinaryOperation::DivideSigned => cc_words::div_s(left, right).ok_or(Cause::Division),
        BinaryOperation::DivideUnsigned => cc_words::div_u(left, right).ok_or(Cause::Division),
        BinaryOperation::RemainderSigned => cc_words::rem_s(left, right).ok_or(Cause::Division),
        BinaryOperation::RemainderUnsigned => cc_words::rem_u(left, right).ok_or(Cause::Division),
        BinaryOperation::Add => Ok(cc_words::add(left, right)),
        BinaryOperation::Subtract => Ok(cc_words::sub(left, right)),
        BinaryOperation::ShiftLeft => cc_words::shl(left, right).ok_or(Cause::Shift),
        BinaryOperation::ShiftRightSigned => cc_words::shr_s(left, right).ok_or(Cause::Shift),
        BinaryOperation::ShiftRightUnsigned => cc_words::shr_u(left, right).ok_or(Cause::Shift),
        BinaryOperation::LessSigned => Ok(cc_words::lt_s(left, right)),
        BinaryOperation::LessUnsigned => Ok(cc_words::lt_u(left, right)),
        BinaryOperation::GreaterSigned => Ok(cc_words::lt_s(right, left)),
        BinaryOperation::GreaterUnsigned => Ok(cc_words::lt_u(right, left)),
        BinaryOperation::LessOrEqualSigned => Ok(cc_words::le_s(left, right)),
        BinaryOperation::LessOrEqualUnsigned => Ok(cc_words::le_u(left, right)),
        BinaryOperation::GreaterOrEqualSigned => Ok(cc_words::le_s(right, left)),
        BinaryOperation::GreaterOrEqualUnsigned => Ok(cc_words::le_u(right, left)),
        BinaryOperation::Equal => Ok(cc_words::eq(left, right)),
        BinaryOperation::NotEqual => Ok(cc_words::ne(left, right)),
        BinaryOperation::And => Ok(left & right),
        BinaryOperation::Xor => Ok(left ^ right),
        BinaryOperation::Or => Ok(left | right),
    }
}
