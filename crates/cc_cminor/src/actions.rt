// Assignments, increments and decrements, and expressions whose value is not used. The value of such an expression is still put
// into a variable, because it may go wrong.
//
// The order of `a[i] op= e` is index, right side, old value, write. The index waits in the first free variable, the right side
// uses the variables above it, and the store itself reads the old value.

ghost use Rattle.std.specs.Prelude.{◌≡◌, IfOk};
ghost use Rattle.cc_ast.specs.Tree as tree;
ghost use Rattle.cc_ast.specs.Erase.{name_tree, target_tree, action_tree, optional_action};
ghost use Rattle.cc_cminor_language.specs.Code.{expression_of, statement_of};
ghost use Rattle.cc_cminor.specs.internal.Lowering.{combined, performed, performed_optional};
ghost use Rattle.cc_cminor.specs.internal.Taken.{code_before, behind_code, above_target, element_set, assigned_to};

use super::access::{object, read_variable, set_variable, width};
use super::expressions::{put, value};
use super::operators::binary;
use super::taken::{Taken, behind, word};
use cc_ast::{Action, BinaryOperator, Identifier, Scalar, Target};
use cc_cminor_language::{
    Expression, Statement, above, both, boxed_expression, boxed_statement, local,
};
use cc_resolve::Environment;
use cc_types::{applied_operator, step_operator, working_type};
use std::alloc::{AllocError, Global};

// The value to write, given an old value of one type and a right side of another.
fn combine(
    alloc: Global,
    operator: Option<BinaryOperator>,
    target: Scalar,
    right: Scalar,
    old: Box<Expression>,
    new: Box<Expression>,
) -> Result<Box<Expression>, AllocError>
    ensures { IfOk result (λ e. expression_of e.value ≡ combined operator target right (expression_of old.value) (expression_of new.value)) }
{
    match operator {
        Some(operator) => {
            let working = working_type(operator, target, right);
            binary(alloc, operator, working, old, new)
        }
        None => {
            drop(old);
            Ok(new)
        }
    }
}

fn assign_variable(
    alloc: Global,
    names: &Environment<'_>,
    operator: Option<BinaryOperator>,
    name: &Identifier,
    right: Taken,
) -> Result<Box<Statement>, AllocError>
    ensures { IfOk result (λ s. statement_of s.value
        ≡ assigned_to names.now.layout names.now operator (tree.AtVariable (name_tree name.now)) right.scalar (code_before right.before) (expression_of right.expression.value)) }
{
    let Taken {
        scalar,
        before,
        expression,
    } = right;
    let name = name.bytes.as_slice();
    let old = read_variable(alloc, names, name)?;
    let target = names.variable_type(name);
    let new = combine(alloc, operator, target, scalar, old, expression)?;
    let statement = set_variable(alloc, names, name, new)?;
    behind(alloc, before, statement)
}

// The statement that writes an element whose index waits in variable `k`.
fn store_element(
    alloc: Global,
    names: &Environment<'_>,
    k: usize,
    operator: Option<BinaryOperator>,
    name: &Identifier,
    right: Taken,
) -> Result<Box<Statement>, AllocError>
    ensures { IfOk result (λ s. statement_of s.value ≡ behind_code (code_before right.before) (element_set names.now.layout names.now k operator (name_tree name.now).text right.scalar (expression_of right.expression.value))) }
{
    let Taken {
        scalar,
        before,
        expression,
    } = right;
    let name = name.bytes.as_slice();
    let object = object(names, name);
    let width = width(names, name);
    let waited = local(alloc, k)?;
    let old = boxed_expression(alloc, Expression::Load(width, object, waited))?;
    let target = names.element_type(name);
    let new = combine(alloc, operator, target, scalar, old, expression)?;
    let index = local(alloc, k)?;
    let store = boxed_statement(alloc, Statement::Store(width, object, index, new))?;
    behind(alloc, before, store)
}

// Sets a target to a right side that uses only variables above those of the target.
fn assign(
    alloc: Global,
    names: &Environment<'_>,
    operator: Option<BinaryOperator>,
    target: &Target,
    right: Taken,
) -> Result<Box<Statement>, AllocError>
    ensures { IfOk result (λ s. statement_of s.value
        ≡ assigned_to names.now.layout names.now operator (target_tree target.now) right.scalar (code_before right.before) (expression_of right.expression.value)) }
{
    match target {
        Target::Variable(name) => assign_variable(alloc, names, operator, name, right),
        Target::Element(name, index) => {
            let k = names.len();
            let store = store_element(alloc, names, k, operator, name, right)?;
            let code = put(alloc, names, k, index)?;
            both(alloc, code, store)
        }
    }
}

// The first variable that the right side may use.
fn above_target(names: &Environment<'_>, target: &Target) -> Result<usize, AllocError>
    ensures { IfOk result (λ k. k ≡ above_target names.now (target_tree target.now)) }
{
    match target {
        Target::Variable(_) => Ok(names.len()),
        Target::Element(_, _) => above(names.len(), 1),
    }
}

/// The statement that performs an action.
pub fn action(
    alloc: Global,
    names: &Environment<'_>,
    tree: &Action,
) -> Result<Box<Statement>, AllocError>
    ensures { IfOk result (λ s. statement_of s.value ≡ performed names.now.layout names.now (action_tree tree.now)) }
{
    match tree {
        Action::Assign(operator, target, right) => {
            let k = above_target(names, target)?;
            let right = value(alloc, names, k, right)?;
            assign(alloc, names, applied_operator(*operator), target, right)
        }
        Action::Step(operator, target) => {
            let operator = applied_operator(step_operator(*operator));
            let one = word(alloc, Scalar::Int, 1)?;
            assign(alloc, names, operator, target, one)
        }
        Action::Evaluate(expression) => put(alloc, names, names.len(), expression),
    }
}

/// The statement that performs an action that may be absent.
pub fn optional_action(
    alloc: Global,
    names: &Environment<'_>,
    tree: &Option<Action>,
) -> Result<Box<Statement>, AllocError>
    ensures { IfOk result (λ s. statement_of s.value ≡ performed_optional names.now.layout names.now (optional_action tree.now)) }
{
    match tree {
        Some(tree) => action(alloc, names, tree),
        None => boxed_statement(alloc, Statement::Skip),
    }
}
