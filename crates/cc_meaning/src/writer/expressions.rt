// The instructions of expressions, which precede the instructions that are written already.
//
// The recursion is as deep as the tree, which has at most 512 tokens in a full expression.

ghost use Rattle.std.specs.Prelude.{◌≡◌, ◌-◌, ◌<◌, ◌≤◌, ◌∷◌, ◌++◌, length, IfOk, OnOk};
ghost use Rattle.cc_ast.specs.Erase.{name_tree, expression_tree, optional_tree};
ghost use Rattle.cc_ast.specs.internal.Arguments.{expressions_of};
ghost use Rattle.cc_ast.specs.Tree as tree;
ghost use Rattle.cc_types.specs.Operators.{working_type};
ghost use Rattle.cc_types.specs.Scope.{found};
ghost use Rattle.cc_types.specs.Types.{variable_type, element_type, result_type, or_int, value_type};
ghost use Rattle.cc_layout.specs.Environment.{types_in};
ghost use Rattle.cc_layout.specs.Layout.{extent_of};
ghost use Rattle.cc_resolve.specs.Operations.{operation};
ghost use Rattle.cc_meaning.specs.internal.Form.{unary_code, load, call_of, expression_code, arguments_code, value_code, condition_code};
ghost use Rattle.cc_meaning.specs.internal.Emitted.{short_cut, some_code, operated};
ghost use Rattle.cc_meaning.specs.declared.form.Instruction.TheVariants as instruction;

use super::access::{call_instruction, load};
use crate::emitter::Emitter;
use crate::form::Instruction;
use cc_ast::{BinaryOperator, Expression, Identifier, Scalar, UnaryOperator};
use cc_resolve::{Environment, operation, unary_operation};
use cc_types::{binary_type, common_type, unary_type, working_type};
use std::alloc::AllocError;

fn unary(code: &mut Emitter, operator: UnaryOperator) -> Result<(), AllocError>
    ensures { OnOk result (code.new ≡ unary_code operator ++ code.old) }
{
    match unary_operation(operator) {
        Some(operation) => code.emit(Instruction::Unary(operation)),
        None => Ok(()),
    }
}

// The instruction that skips a right operand of `skip` instructions, for an operator that does not always need it.
fn short_cut(operator: BinaryOperator, skip: usize) -> Option<Instruction>
    ensures { result ≡ short_cut operator skip }
{
    match operator {
        BinaryOperator::LogicalAnd => Some(Instruction::AndThen(skip)),
        BinaryOperator::LogicalOr => Some(Instruction::OrElse(skip)),
        _ => None,
    }
}

fn variable(
    names: &Environment<'_>,
    code: &mut Emitter,
    name: &Identifier,
) -> Result<Scalar, AllocError>
    ensures code { OnOk result (code.new ≡ load names.now (name_tree name.now).text ∷ code.old) }
    ensures scalar { IfOk result (λ t. t ≡ variable_type (found (types_in names.now) (name_tree name.now).text)) }
{
    code.emit(load(names, name.bytes.as_slice()))?;
    Ok(names.variable_type(name.bytes.as_slice()))
}

// Writes an element whose index has already been pushed.
fn element(
    names: &Environment<'_>,
    code: &mut Emitter,
    name: &Identifier,
) -> Result<Scalar, AllocError>
    ensures code { OnOk result (code.new ≡ instruction.Element (extent_of names.now.layout.objects (name_tree name.now).text) ∷ code.old) }
    ensures scalar { IfOk result (λ t. t ≡ element_type (found (types_in names.now) (name_tree name.now).text)) }
{
    code.emit(Instruction::Element(names.object(name.bytes.as_slice())))?;
    Ok(names.element_type(name.bytes.as_slice()))
}

// Writes a call whose arguments have already been pushed.
fn call(
    names: &Environment<'_>,
    code: &mut Emitter,
    name: &Identifier,
) -> Result<Scalar, AllocError>
    ensures code { OnOk result (code.new ≡ call_of names.now (name_tree name.now).text ∷ code.old) }
    ensures scalar { IfOk result (λ t. t ≡ or_int (result_type (found (types_in names.now) (name_tree name.now).text))) }
{
    code.emit(call_instruction(names, name.bytes.as_slice()))?;
    Ok(names.call_type(name.bytes.as_slice()))
}

// Writes the instruction that skips the right operand, for an operator that does not always need it. `behind` is how many
// instructions follow that operand.
fn skip_right(code: &mut Emitter, operator: BinaryOperator, behind: usize) -> Result<(), AllocError>
    requires { behind ≤ length code.old }
    ensures { OnOk result (code.new ≡ some_code (short_cut operator (length code.old - behind)) ++ code.old) }
{
    let skip = code.distance(behind);
    match short_cut(operator, skip) {
        Some(instruction) => code.emit(instruction),
        None => Ok(()),
    }
}

// Replaces the instruction that is followed by `behind` instructions with the operation on two words of these types. `&&` and
// `||` have no operation.
fn operate(code: &mut Emitter, operator: BinaryOperator, behind: usize, left: Scalar, right: Scalar)
    requires { behind < length code.old }
    ensures { code.new ≡ operated (short_cut operator 0) (operation operator (working_type operator left right)) behind code.old }
{
    if short_cut(operator, 0).is_none() {
        let working = working_type(operator, left, right);
        code.replace(behind, Instruction::Binary(operation(operator, working)));
    }
}

/// Writes the instructions that push the value of an expression, and returns its type.
#[cycle(expressions)]
pub fn expression(
    names: &Environment<'_>,
    code: &mut Emitter,
    tree: &Expression,
) -> Result<Scalar, AllocError>
    ensures code { OnOk result (code.new ≡ expression_code names.now (expression_tree tree.now) ++ code.old) }
    ensures scalar { IfOk result (λ t. t ≡ value_type (types_in names.now) (expression_tree tree.now)) }
{
    match tree {
        Expression::Number(scalar, word) => {
            code.emit(Instruction::Constant(*word))?;
            Ok(*scalar)
        }
        Expression::Name(name) => variable(names, code, name),
        Expression::Element(name, index) => {
            let scalar = element(names, code, name)?;
            expression(names, code, index)?;
            Ok(scalar)
        }
        Expression::Call(name, all) => {
            let all = all.as_slice();
            let scalar = call(names, code, name)?;
            arguments(names, code, all)?;
            Ok(scalar)
        }
        Expression::Parenthesised(inner) => expression(names, code, inner),
        Expression::Unary(operator, operand) => {
            unary(code, *operator)?;
            let scalar = expression(names, code, operand)?;
            Ok(unary_type(*operator, scalar))
        }
        Expression::Cast(scalar, operand) => {
            expression(names, code, operand)?;
            Ok(*scalar)
        }
        Expression::Binary(operator, left, right) => binary(names, code, *operator, left, right),
        Expression::Conditional(test, held, other) => conditional(names, code, test, held, other),
    }
}

// Writes both operands and the operation on them. The operation depends on the types of both operands; until they are known,
// `Truth` is in its place, and it stays there for `&&` and `||`.
#[cycle(expressions)]
fn binary(
    names: &Environment<'_>,
    code: &mut Emitter,
    operator: BinaryOperator,
    left: &Expression,
    right: &Expression,
) -> Result<Scalar, AllocError>
    ensures code { OnOk result (code.new ≡ expression_code names.now (tree.Binary operator (expression_tree left.now) (expression_tree right.now)) ++ code.old) }
    ensures scalar { IfOk result (λ t. t ≡ value_type (types_in names.now) (tree.Binary operator (expression_tree left.now) (expression_tree right.now))) }
{
    let behind = code.len();
    code.emit(Instruction::Truth)?;
    let second = expression(names, code, right)?;
    skip_right(code, operator, behind)?;
    let first = expression(names, code, left)?;
    operate(code, operator, behind, first, second);
    Ok(binary_type(operator, first, second))
}

// Writes a condition, and the two values between which it chooses.
#[cycle(expressions)]
fn conditional(
    names: &Environment<'_>,
    code: &mut Emitter,
    test: &Expression,
    held: &Expression,
    other: &Expression,
) -> Result<Scalar, AllocError>
    ensures code { OnOk result (code.new ≡ expression_code names.now (tree.Conditional (expression_tree test.now) (expression_tree held.now) (expression_tree other.now)) ++ code.old) }
    ensures scalar { IfOk result (λ t. t ≡ value_type (types_in names.now) (tree.Conditional (expression_tree test.now) (expression_tree held.now) (expression_tree other.now))) }
{
    let behind = code.len();
    let second = expression(names, code, other)?;
    let other_arm = code.len();
    code.emit(Instruction::Jump(code.distance(behind)))?;
    let first = expression(names, code, held)?;
    code.emit(Instruction::JumpIfZero(code.distance(other_arm)))?;
    expression(names, code, test)?;
    Ok(common_type(first, second))
}

// Writes the arguments of a call, from last to first.
#[cycle(expressions)]
fn arguments(
    names: &Environment<'_>,
    code: &mut Emitter,
    trees: &[Expression],
) -> Result<(), AllocError>
    ensures { OnOk result (code.new ≡ arguments_code names.now (expressions_of trees.now) ++ code.old) }
{
    let mut left = trees.len();
    while left > 0 {
        left -= 1;
        expression(names, code, &trees[left])?;
    }
    Ok(())
}

/// Writes the instructions that push the value of a return, or 0 if it has none.
pub fn value(
    names: &Environment<'_>,
    code: &mut Emitter,
    tree: &Option<Box<Expression>>,
) -> Result<(), AllocError>
    ensures { OnOk result (code.new ≡ value_code names.now (optional_tree tree.now) ++ code.old) }
{
    match tree {
        Some(tree) => {
            expression(names, code, tree)?;
            Ok(())
        }
        None => code.emit(Instruction::Constant(0)),
    }
}

/// Writes the instructions that push a condition, or 1 if it is absent.
pub fn condition(
    names: &Environment<'_>,
    code: &mut Emitter,
    tree: &Option<Box<Expression>>,
) -> Result<(), AllocError>
    ensures { OnOk result (code.new ≡ condition_code names.now (optional_tree tree.now) ++ code.old) }
{
    match tree {
        Some(tree) => {
            expression(names, code, tree)?;
            Ok(())
        }
        None => code.emit(Instruction::Constant(1)),
    }
}
