// Operators as operations on words, depending on the type in which they work.

ghost use Rattle.std.specs.Prelude.{◌≡◌};
ghost use Rattle.cc_resolve.specs.Operations.{by_type, operation, unary_operation};

use cc_ast::{BinaryOperator, Scalar, UnaryOperator};

/// An operation on one word.
#[derive(Clone, Copy)]
pub enum UnaryOperation {
    Negate,
    Complement,
    IsZero,
}

/// An operation on two words.
#[derive(Clone, Copy)]
pub enum BinaryOperation {
    Multiply,
    DivideSigned,
    DivideUnsigned,
    RemainderSigned,
    RemainderUnsigned,
    Add,
    Subtract,
    ShiftLeft,
    ShiftRightSigned,
    ShiftRightUnsigned,
    LessSigned,
    LessUnsigned,
    GreaterSigned,
    GreaterUnsigned,
    LessOrEqualSigned,
    LessOrEqualUnsigned,
    GreaterOrEqualSigned,
    GreaterOrEqualUnsigned,
    Equal,
    NotEqual,
    And,
    Xor,
    Or,
}

/// The operation on a word that a unary operator performs; `None` for plus, which leaves its operand as it is.
pub fn unary_operation(operator: UnaryOperator) -> Option<UnaryOperation>
    ensures { result ≡ unary_operation operator }
{
    match operator {
        UnaryOperator::Plus => None,
        UnaryOperator::Minus => Some(UnaryOperation::Negate),
        UnaryOperator::Complement => Some(UnaryOperation::Complement),
        UnaryOperator::Not => Some(UnaryOperation::IsZero),
    }
}

fn by_type(working: Scalar, signed: BinaryOperation, unsigned: BinaryOperation) -> BinaryOperation
    ensures { result ≡ by_type working signed unsigned }
{
    match working {
        Scalar::Int => signed,
        Scalar::Unsigned => unsigned,
    }
}

/// The operation on words that an operator performs in its working type.
pub fn operation(operator: BinaryOperator, working: Scalar) -> BinaryOperation
    ensures { result ≡ operation operator working }
{
    use BinaryOperation::*;
    // ORDER BinaryOperator
    match operator {
        BinaryOperator::Multiply => Multiply,
        BinaryOperator::Divide => by_type(working, DivideSigned, DivideUnsigned),
        BinaryOperator::Remainder => by_type(working, RemainderSigned, RemainderUnsigned),
        BinaryOperator::Add => Add,
        BinaryOperator::Subtract => Subtract,
        BinaryOperator::ShiftLeft => ShiftLeft,
        BinaryOperator::ShiftRight => by_type(working, ShiftRightSigned, ShiftRightUnsigned),
        BinaryOperator::Less => by_type(working, LessSigned, LessUnsigned),
        BinaryOperator::Greater => by_type(working, GreaterSigned, GreaterUnsigned),
        BinaryOperator::LessOrEqual => by_type(working, LessOrEqualSigned, LessOrEqualUnsigned),
        BinaryOperator::GreaterOrEqual => {
            by_type(working, GreaterOrEqualSigned, GreaterOrEqualUnsigned)
        }
        BinaryOperator::Equal => Equal,
        BinaryOperator::NotEqual => NotEqual,
        BinaryOperator::And | BinaryOperator::LogicalAnd => And,
        BinaryOperator::Xor => Xor,
        BinaryOperator::Or | BinaryOperator::LogicalOr => Or,
    }
}
