// The pending parts of an expression, which await an operand, and how tightly they bind.

ghost use Rattle.std.specs.Prelude.{◌≡◌, IfOk};
ghost use Rattle.cc_ast.specs.Grammar.{precedence};
ghost use Rattle.cc_ast.specs.Tree.{Call};
ghost use Rattle.cc_ast.specs.Erase.{name_tree, expression_tree};
ghost use Rattle.cc_ast.specs.internal.Arguments.{expressions_of};
ghost use Rattle.cc_syntax.specs.internal.Parser.{tightness, completed, reduced, with_argument};
ghost use Rattle.cc_syntax.specs.internal.ParserView.{waiting_view, waiting_views};

use crate::parser::state::Waiting;
use cc_ast::{BinaryOperator, Expression, Identifier};
use std::alloc::{AllocError, Global};

/// How tightly a binary operator binds (C99 6.5.5 to 6.5.14).
pub fn precedence_of(operator: BinaryOperator) -> usize
    ensures { result ≡ precedence operator }
{
    match operator {
        BinaryOperator::Multiply | BinaryOperator::Divide | BinaryOperator::Remainder => 11,
        BinaryOperator::Add | BinaryOperator::Subtract => 10,
        BinaryOperator::ShiftLeft | BinaryOperator::ShiftRight => 9,
        BinaryOperator::Less
        | BinaryOperator::Greater
        | BinaryOperator::LessOrEqual
        | BinaryOperator::GreaterOrEqual => 8,
        BinaryOperator::Equal | BinaryOperator::NotEqual => 7,
        BinaryOperator::And => 6,
        BinaryOperator::Xor => 5,
        BinaryOperator::Or => 4,
        BinaryOperator::LogicalAnd => 3,
        BinaryOperator::LogicalOr => 2,
    }
}

fn tightness_of(waiting: &Waiting) -> usize
    ensures { result ≡ tightness (waiting_view waiting.now) }
{
    match waiting {
        Waiting::Prefix(_) | Waiting::Cast(_) => 12,
        Waiting::Infix(operator, _) => precedence_of(*operator),
        Waiting::Otherwise(_, _) => 1,
        _ => 0,
    }
}

/// Makes a call of a function with these arguments.
pub fn call_of(name: Identifier, arguments: Vec<Expression>) -> Expression
    ensures { expression_tree result ≡ Call (name_tree name) (expressions_of arguments.items) }
{
    Expression::Call(name, arguments)
}

/// Adds an argument.
pub fn add_argument(
    arguments: &mut Vec<Expression>,
    argument: Box<Expression>,
) -> Result<(), AllocError>
    ensures { IfOk result (λ _. expressions_of arguments.new.items ≡ with_argument (expressions_of arguments.old.items) (expression_tree argument.value)) }
{
    arguments.push(Box::into_inner(argument))?;
    Ok(())
}

/// Puts an expression into a box.
pub fn boxed(alloc: Global, expression: Expression) -> Result<Box<Expression>, AllocError>
    ensures { IfOk result (λ b. b.value ≡ expression) }
{
    Ok(Box::new(alloc, expression)?)
}

/// Completes a pending part with its operand.
fn complete(
    alloc: Global,
    waiting: Waiting,
    operand: Box<Expression>,
) -> Result<Box<Expression>, AllocError>
    ensures { IfOk result (λ e. expression_tree e.value ≡ completed (waiting_view waiting) (expression_tree operand.value)) }
{
    match waiting {
        Waiting::Parenthesis => boxed(alloc, Expression::Parenthesised(operand)),
        Waiting::Index(name) => boxed(alloc, Expression::Element(name, operand)),
        Waiting::Arguments(name, arguments) => {
            let mut arguments = arguments;
            add_argument(&mut arguments, operand)?;
            boxed(alloc, call_of(name, arguments))
        }
        Waiting::Prefix(operator) => boxed(alloc, Expression::Unary(operator, operand)),
        Waiting::Cast(scalar) => boxed(alloc, Expression::Cast(scalar, operand)),
        Waiting::Infix(operator, left) => {
            boxed(alloc, Expression::Binary(operator, left, operand))
        }
        Waiting::Then(_) => Ok(operand),
        Waiting::Otherwise(test, then) => {
            boxed(alloc, Expression::Conditional(test, then, operand))
        }
    }
}

/// Returns the expression that precedes an operator of this level: every pending part that binds at least as tightly is
/// completed.
pub fn reduce(
    alloc: Global,
    level: usize,
    waiting: &mut Vec<Waiting>,
    operand: Box<Expression>,
) -> Result<Box<Expression>, AllocError>
    ensures { IfOk result (λ e. reduced level (waiting_views waiting.old.items) (expression_tree operand.value) ≡ (expression_tree e.value, waiting_views waiting.new.items)) }
{
    let mut expression = operand;
    while let Some(last) = waiting.pop() {
        if tightness_of(&last) < level {
            waiting.push(last)?;
            break;
        }
        expression = complete(alloc, last, expression)?;
    }
    Ok(expression)
}
