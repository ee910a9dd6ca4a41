// The instructions of actions: assignments, increments and decrements, and expressions whose value is not used.

ghost use Rattle.std.specs.Prelude.{◌≡◌, ◌++◌, OnOk};
ghost use Rattle.cc_ast.specs.Tree as tree;
ghost use Rattle.cc_ast.specs.Erase.{expression_tree, target_tree, action_tree, optional_action};
ghost use Rattle.cc_types.specs.Types.{target_type};
ghost use Rattle.cc_layout.specs.Environment.{types_in};
ghost use Rattle.cc_meaning.specs.internal.Form.{applied, action_code, optional_action_code};
ghost use Rattle.cc_meaning.specs.internal.Emitted.{index_code, write_of};

use super::access::{store, store_element};
use super::expressions::expression;
use crate::emitter::Emitter;
use crate::form::Instruction;
use cc_ast::{
    Action, AssignmentOperator, BinaryOperator, Expression, Scalar, StepOperator, Target,
};
use cc_resolve::{BinaryOperation, Environment, operation};
use cc_types::{applied_operator, step_operator, working_type};
use std::alloc::AllocError;

// The operation that an assignment applies, for a target and a right side of these types.
fn applied(
    operator: Option<BinaryOperator>,
    target: Scalar,
    right: Scalar,
) -> Option<BinaryOperation>
    ensures { result ≡ applied operator target right }
{
    match operator {
        Some(operator) => Some(operation(operator, working_type(operator, target, right))),
        None => None,
    }
}

// The instruction that writes a word to the target, given the type of the right side.
fn write(
    names: &Environment<'_>,
    operator: Option<BinaryOperator>,
    target: &Target,
    right: Scalar,
) -> Instruction
    ensures { result ≡ write_of (applied operator (target_type (types_in names.now) (target_tree target.now)) right) names.now (target_tree target.now) }
{
    match target {
        Target::Variable(name) => {
            let scalar = names.variable_type(name.bytes.as_slice());
            store(
                names,
                applied(operator, scalar, right),
                name.bytes.as_slice(),
            )
        }
        Target::Element(name, _) => {
            let scalar = names.element_type(name.bytes.as_slice());
            store_element(
                names,
                applied(operator, scalar, right),
                name.bytes.as_slice(),
            )
        }
    }
}

// Writes the index of the target, if it has one.
fn index(names: &Environment<'_>, code: &mut Emitter, target: &Target) -> Result<(), AllocError>
    ensures { OnOk result (code.new ≡ index_code names.now (target_tree target.now) ++ code.old) }
{
    match target {
        Target::Variable(_) => Ok(()),
        Target::Element(_, index) => {
            expression(names, code, index)?;
            Ok(())
        }
    }
}

// Writes an assignment. The instruction for the write depends on the type of the right side; until that is known, `Drop` is in
// its place.
fn assignment(
    names: &Environment<'_>,
    code: &mut Emitter,
    operator: AssignmentOperator,
    target: &Target,
    right: &Expression,
) -> Result<(), AllocError>
    ensures { OnOk result (code.new ≡ action_code names.now (tree.Assign operator (target_tree target.now) (expression_tree right.now)) ++ code.old) }
{
    let behind = code.len();
    code.emit(Instruction::Drop)?;
    let scalar = expression(names, code, right)?;
    code.replace(
        behind,
        write(names, applied_operator(operator), target, scalar),
    );
    index(names, code, target)
}

// Writes an increment or a decrement.
fn step(
    names: &Environment<'_>,
    code: &mut Emitter,
    operator: StepOperator,
    target: &Target,
) -> Result<(), AllocError>
    ensures { OnOk result (code.new ≡ action_code names.now (tree.Step operator (target_tree target.now)) ++ code.old) }
{
    let applied = applied_operator(step_operator(operator));
    code.emit(write(names, applied, target, Scalar::Int))?;
    code.emit(Instruction::Constant(1))?;
    index(names, code, target)
}

/// Writes the instructions of an action.
pub fn action(
    names: &Environment<'_>,
    code: &mut Emitter,
    action: &Action,
) -> Result<(), AllocError>
    ensures { OnOk result (code.new ≡ action_code names.now (action_tree action.now) ++ code.old) }
{
    match action {
        Action::Assign(operator, target, right) => {
            assignment(names, code, *operator, target, right)
        }
        Action::Step(operator, target) => step(names, code, *operator, target),
        Action::Evaluate(tree) => {
            code.emit(Instruction::Drop)?;
            expression(names, code, tree)?;
            Ok(())
        }
    }
}

/// Writes the instructions of an action that may be absent.
pub fn optional_action(
    names: &Environment<'_>,
    code: &mut Emitter,
    tree: &Option<Action>,
) -> Result<(), AllocError>
    ensures { OnOk result (code.new ≡ optional_action_code names.now (optional_action tree.now) ++ code.old) }
{
    match tree {
        Some(tree) => action(names, code, tree),
        None => Ok(()),
    }
}
