// The types in which operators work.

ghost use Rattle.std.specs.Prelude.{◌≡◌};
ghost use Rattle.cc_types.specs.Operators.{common_type, working_type, binary_type, unary_type, applied_operator, step_operator};

use cc_ast::{AssignmentOperator, BinaryOperator, Scalar, StepOperator, UnaryOperator};

/// The common type of two operands (C99 6.3.1.8).
pub fn common_type(left: Scalar, right: Scalar) -> Scalar
    ensures { result ≡ common_type left right }
{
    match left {
        Scalar::Int => right,
        Scalar::Unsigned => Scalar::Unsigned,
    }
}

/// The type in which an operator works: the left operand's for a shift, otherwise the common type.
pub fn working_type(operator: BinaryOperator, left: Scalar, right: Scalar) -> Scalar
    ensures { result ≡ working_type operator left right }
{
    match operator {
        BinaryOperator::ShiftLeft | BinaryOperator::ShiftRight => left,
        _ => common_type(left, right),
    }
}

/// The type of a binary operator's value.
pub fn binary_type(operator: BinaryOperator, left: Scalar, right: Scalar) -> Scalar
    ensures { result ≡ binary_type operator left right }
{
    match operator {
        BinaryOperator::Less
        | BinaryOperator::Greater
        | BinaryOperator::LessOrEqual
        | BinaryOperator::GreaterOrEqual
        | BinaryOperator::Equal
        | BinaryOperator::NotEqual
        | BinaryOperator::LogicalAnd
        | BinaryOperator::LogicalOr => Scalar::Int,
        _ => working_type(operator, left, right),
    }
}

/// The type of a unary operator's value.
pub fn unary_type(operator: UnaryOperator, operand: Scalar) -> Scalar
    ensures { result ≡ unary_type operator operand }
{
    match operator {
        UnaryOperator::Not => Scalar::Int,
        _ => operand,
    }
}

/// The operator that an assignment applies to the old value; `None` for `=`.
pub fn applied_operator(operator: AssignmentOperator) -> Option<BinaryOperator>
    ensures { result ≡ applied_operator operator }
{
    match operator {
        AssignmentOperator::Plain => None,
        AssignmentOperator::Multiply => Some(BinaryOperator::Multiply),
        AssignmentOperator::Divide => Some(BinaryOperator::Divide),
        AssignmentOperator::Remainder => Some(BinaryOperator::Remainder),
        AssignmentOperator::Add => Some(BinaryOperator::Add),
        AssignmentOperator::Subtract => Some(BinaryOperator::Subtract),
        AssignmentOperator::ShiftLeft => Some(BinaryOperator::ShiftLeft),
        AssignmentOperator::ShiftRight => Some(BinaryOperator::ShiftRight),
        AssignmentOperator::And => Some(BinaryOperator::And),
        AssignmentOperator::Xor => Some(BinaryOperator::Xor),
        AssignmentOperator::Or => Some(BinaryOperator::Or),
    }
}

/// The assignment operator that an increment or decrement applies, with the operand 1.
pub fn step_operator(operator: StepOperator) -> AssignmentOperator
    ensures { result ≡ step_operator operator }
{
    match operator {
        StepOperator::Increment => AssignmentOperator::Add,
        StepOperator::Decrement => AssignmentOperator::Subtract,
    }
}
