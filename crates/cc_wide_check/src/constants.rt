// The words of labels (C99 6.6): as `constant_word` of `cc_types`, of an expression that is in no initialiser.

ghost use Rattle.std.specs.Prelude.{◌≡◌, [], unwrap_or};
ghost use Rattle.cc_ast.specs.Erase.{expression_tree};
ghost use Rattle.cc_ast.specs.Tree.{ConstantExpr};
ghost use Rattle.cc_types.specs.Operators.{unary_word, binary_word};
ghost use Rattle.cc_types.specs.Types.{value_type, constant_value, is_constant, constant_word};

use cc_ast::{BinaryOperator, Expression, Scalar, UnaryOperator};
use cc_types::{binary_type, common_type, unary_type, working_type};
// The type of an expression without names.
fn constant_type(tree: &Expression) -> Scalar
    ensures { result ≡ value_type [] (expression_tree tree.now) }
{
    match tree {
        Expression::Number(scalar, _) | Expression::Cast(scalar, _) => *scalar,
        Expression::Name(_) | Expression::Element(_, _) | Expression::Call(_, _) => Scalar::Int,
        Expression::Parenthesised(inner) => constant_type(inner),
        Expression::Unary(operator, operand) => unary_type(*operator, constant_type(operand)),
        Expression::Binary(operator, left, right) => {
            binary_type(*operator, constant_type(left), constant_type(right))
        }
        Expression::Conditional(_, held, other) => {
            common_type(constant_type(held), constant_type(other))
        }
    }
}

fn unary_word(operator: UnaryOperator, word: u32) -> u32
    ensures { result ≡ unary_word operator word }
{
    match operator {
        UnaryOperator::Plus => word,
        UnaryOperator::Minus => cc_words::sub(0, word),
        UnaryOperator::Complement => !word,
        UnaryOperator::Not => cc_words::eq(word, 0),
    }
}

// The word that a binary operator yields in the working type, or `None` if the operator has no value for
// these words.
fn binary_word(operator: BinaryOperator, working: Scalar, a: u32, b: u32) -> Option<u32>
    ensures { result ≡ binary_word operator working a b }
{
    let signed = working == Scalar::Int;
    // ORDER BinaryOperator
    match operator {
        BinaryOperator::Multiply => Some(cc_words::mul(a, b)),
        BinaryOperator::Divide if signed => cc_words::div_s(a, b),
        BinaryOperator::Divide => cc_words::div_u(a, b),
        BinaryOperator::Remainder if signed => cc_words::rem_s(a, b),
        BinaryOperator::Remainder => cc_words::rem_u(a, b),
        BinaryOperator::Add => Some(cc_words::add(a, b)),
        BinaryOperator::Subtract => Some(cc_words::sub(a, b)),
        BinaryOperator::ShiftLeft => cc_words::shl(a, b),
        BinaryOperator::ShiftRight if signed => cc_words::shr_s(a, b),
        BinaryOperator::ShiftRight => cc_words::shr_u(a, b),
        BinaryOperator::Less if signed => Some(cc_words::lt_s(a, b)),
        BinaryOperator::Less => Some(cc_words::lt_u(a, b)),
        BinaryOperator::Greater if signed => Some(cc_words::lt_s(b, a)),
        BinaryOperator::Greater => Some(cc_words::lt_u(b, a)),
        BinaryOperator::LessOrEqual if signed => Some(cc_words::le_s(a, b)),
        BinaryOperator::LessOrEqual => Some(cc_words::le_u(a, b)),
        BinaryOperator::GreaterOrEqual if signed => Some(cc_words::le_s(b, a)),
        BinaryOperator::GreaterOrEqual => Some(cc_words::le_u(b, a)),
        BinaryOperator::Equal => Some(cc_words::eq(a, b)),
        BinaryOperator::NotEqual => Some(cc_words::ne(a, b)),
        BinaryOperator::And => Some(a & b),
        BinaryOperator::Xor => Some(a ^ b),
        BinaryOperator::Or => Some(a | b),
        BinaryOperator::LogicalAnd => Some(u32::from(a != 0 && b != 0)),
        BinaryOperator::LogicalOr => Some(u32::from(a != 0 || b != 0)),
    }
}

// The word of an expression without names and calls, or `None` if its evaluation goes wrong.
fn constant_value(tree: &Expression) -> Option<u32>
    ensures { result ≡ constant_value (expression_tree tree.now) }
{
    match tree {
        Expression::Number(_, word) => Some(*word),
        Expression::Name(_) | Expression::Element(_, _) | Expression::Call(_, _) => None,
        Expression::Parenthesised(inner) | Expression::Cast(_, inner) => constant_value(inner),
        Expression::Unary(operator, operand) => {
            let word = constant_value(operand)?;
            Some(unary_word(*operator, word))
        }
        Expression::Binary(operator, left, right) => {
            let first = constant_value(left)?;
            match operator {
                BinaryOperator::LogicalAnd if first == 0 => return Some(0),
                BinaryOperator::LogicalOr if first != 0 => return Some(1),
                _ => {}
            }
            let second = constant_value(right)?;
            let working = working_type(*operator, constant_type(left), constant_type(right));
            binary_word(*operator, working, first, second)
        }
        Expression::Conditional(condition, held, other) => {
            let word = constant_value(condition)?;
            if word != 0 {
                constant_value(held)
            } else {
                constant_value(other)
            }
        }
    }
}

// Whether an expression contains no name and no call.
fn is_constant(tree: &Expression) -> bool
    ensures { result ≡ is_constant (expression_tree tree.now) }
{
    match tree {
        Expression::Number(_, _) => true,
        Expression::Name(_) | Expression::Element(_, _) | Expression::Call(_, _) => false,
        Expression::Parenthesised(inner)
        | Expression::Cast(_, inner)
        | Expression::Unary(_, inner) => is_constant(inner),
        Expression::Binary(_, left, right) => is_constant(left) && is_constant(right),
        Expression::Conditional(condition, held, other) => {
            is_constant(condition) && is_constant(held) && is_constant(other)
        }
    }
}

/// The word of a label's expression, or `None` if the expression is not constant or goes wrong.
pub(crate) fn constant_word(e: &Expression) -> Option<u32>
    ensures { result ≡ constant_word (record { at = 0; expr = expression_tree e.now }) }
{
    if is_constant(e) {
        constant_value(e)
    } else {
        None
    }
}

/// The word of a label's expression, or 0 if it has none.
pub(crate) fn label_word(e: &Expression) -> u32
    ensures { result ≡ unwrap_or (constant_word (record { at = 0; expr = expression_tree e.now })) 0 }
{
    constant_word(e).unwrap_or(0)
}
