// The operators of C as operators of Cminor, depending on the type in which they work.

ghost use Rattle.std.specs.Prelude.{◌≡◌, IfOk};
ghost use Rattle.cc_cminor_language.specs.Cminor as cminor;
ghost use Rattle.cc_cminor_language.specs.Code.{expression_of};
ghost use Rattle.cc_cminor.specs.internal.Taken.{in_order};
ghost use Rattle.cc_cminor.specs.internal.Lowering.{single_of, unary_of, operation_of, binary_of, is_comparison, is_truth, truth_of};

use cc_ast::{BinaryOperator, Scalar, UnaryOperator};
use cc_cminor_language::{Expression, boxed_expression};
use cc_resolve::{BinaryOperation, UnaryOperation, operation, unary_operation};
use cc_words::{Binary, Unary};
use std::alloc::{AllocError, Global};

fn single_of(operation: UnaryOperation) -> Unary
    ensures { (e : cminor.Expression) → cminor.Unary result e ≡ single_of operation e }
{
    match operation {
        UnaryOperation::Negate => Unary::Neg,
        UnaryOperation::Complement => Unary::Complement,
        UnaryOperation::IsZero => Unary::IsZero,
    }
}

/// A unary operator applied to an expression; plus leaves it as it is.
pub fn unary(
    alloc: Global,
    operator: UnaryOperator,
    operand: Box<Expression>,
) -> Result<Box<Expression>, AllocError>
    ensures { IfOk result (λ e. expression_of e.value ≡ unary_of operator (expression_of operand.value)) }
{
    match unary_operation(operator) {
        None => Ok(operand),
        Some(operation) => boxed_expression(
            alloc,
            Expression::Unary(single_of(operation), operand),
        ),
    }
}

// Whether an operator's value is always 0 or 1.
fn is_comparison(operator: Binary) -> bool
    ensures { result ≡ is_comparison operator }
{
    matches!(
        operator,
        Binary::Eq | Binary::Ne | Binary::LtS | Binary::LtU | Binary::LeS | Binary::LeU
    )
}

// Whether the value of an expression is always 0 or 1, judging by its form.
fn is_truth(expression: &Expression) -> bool
    ensures { result ≡ is_truth (expression_of expression.now) }
{
    match expression {
        Expression::Unary(operator, _) => matches!(operator, Unary::IsZero),
        Expression::Binary(operator, _, _) => is_comparison(*operator),
        Expression::Constant(_) | Expression::Local(_) | Expression::Load(_, _, _) => false,
    }
}

/// An expression that is 1 if the operand is not 0, else 0. If the operand, judging by its form, is always 0 or 1, the answer is the
/// operand itself.
pub fn truth(alloc: Global, operand: Box<Expression>) -> Result<Box<Expression>, AllocError>
    ensures { IfOk result (λ e. expression_of e.value ≡ truth_of (expression_of operand.value)) }
{
    if is_truth(&operand) {
        return Ok(operand);
    }
    let zero = boxed_expression(alloc, Expression::Unary(Unary::IsZero, operand))?;
    boxed_expression(alloc, Expression::Unary(Unary::IsZero, zero))
}

// An operator, and whether its operands are exchanged: `>` is `<` with the operands exchanged.
fn operator_of(operation: BinaryOperation) -> (Binary, bool)
    ensures { (a b : cminor.Expression) → in_order result.1 result.0 a b ≡ operation_of operation a b }
{
    // ORDER Binary
    match operation {
        BinaryOperation::Multiply => (Binary::Mul, false),
        BinaryOperation::DivideSigned => (Binary::DivS, false),
        BinaryOperation::DivideUnsigned => (Binary::DivU, false),
        BinaryOperation::RemainderSigned => (Binary::RemS, false),
        BinaryOperation::RemainderUnsigned => (Binary::RemU, false),
        BinaryOperation::Add => (Binary::Add, false),
        BinaryOperation::Subtract => (Binary::Sub, false),
        BinaryOperation::ShiftLeft => (Binary::Shl, false),
        BinaryOperation::ShiftRightSigned => (Binary::ShrS, false),
        BinaryOperation::ShiftRightUnsigned => (Binary::ShrU, false),
        BinaryOperation::LessSigned => (Binary::LtS, false),
        BinaryOperation::LessUnsigned => (Binary::LtU, false),
        BinaryOperation::GreaterSigned => (Binary::LtS, true),
        BinaryOperation::GreaterUnsigned => (Binary::LtU, true),
        BinaryOperation::LessOrEqualSigned => (Binary::LeS, false),
        BinaryOperation::LessOrEqualUnsigned => (Binary::LeU, false),
        BinaryOperation::GreaterOrEqualSigned => (Binary::LeS, true),
        BinaryOperation::GreaterOrEqualUnsigned => (Binary::LeU, true),
        BinaryOperation::Equal => (Binary::Eq, false),
        BinaryOperation::NotEqual => (Binary::Ne, false),
        BinaryOperation::And => (Binary::And, false),
        BinaryOperation::Xor => (Binary::Xor, false),
        BinaryOperation::Or => (Binary::Or, false),
    }
}

/// A binary operator applied to two expressions, in the type in which it works.
pub fn binary(
    alloc: Global,
    operator: BinaryOperator,
    working: Scalar,
    left: Box<Expression>,
    right: Box<Expression>,
) -> Result<Box<Expression>, AllocError>
    ensures { IfOk result (λ e. expression_of e.value ≡ binary_of operator working (expression_of left.value) (expression_of right.value)) }
{
    let (operator, exchanged) = operator_of(operation(operator, working));
    let expression = if exchanged {
        Expression::Binary(operator, right, left)
    } else {
        Expression::Binary(operator, left, right)
    };
    boxed_expression(alloc, expression)
}
