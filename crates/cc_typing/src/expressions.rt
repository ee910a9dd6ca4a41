// The rules of expressions and actions (C99 6.5, 6.8.3).
//
// The walk continues after an error, because the first error in the text need not be the first that the walk meets. The
// recursion is as deep as the tree, and a full expression has at most 512 tokens.

ghost use Rattle.std.specs.Prelude.{◌≡◌, ◌==◌, [], not};
ghost use Rattle.cc_ast.specs.Erase.{expression_tree, optional_tree, target_tree, action_tree, optional_action};
ghost use Rattle.cc_ast.specs.internal.Arguments.{expressions_of};
ghost use Rattle.cc_typing.specs.internal.Findings.{after};
ghost use Rattle.cc_types.specs.declared.rule.Rule.TheVariants.{WrongCount};
ghost use Rattle.cc_types.specs.Types.{result_type};
ghost use Rattle.cc_types.specs.Rules.{broken_if, variable_errors, array_errors, function_errors, void_errors, expression_errors, argument_errors, value_errors, optional_errors, target_errors, action_errors, optional_action_errors, called_in, called_in_all, called_in_optional, called_in_target, called_in_action, called_in_optional_action};
ghost use Rattle.cc_types.specs.Scope.{found, in_scope};

use super::findings::Findings;
use cc_ast::{Action, Expression, Identifier, Scalar, Target};
use cc_scope::{Entity, Scope};
use cc_types::Rule;

// Checks a name that must be a variable. An array or a function breaks the rule `misuse`.
fn variable(scope: &Scope, findings: &mut Findings, name: &Identifier, misuse: Rule)
    ensures { findings.new ≡ after findings.old (variable_errors misuse (found (in_scope scope.now) name.now.bytes.items) name.now.at) [] }
{
    match scope.find(name.bytes.as_slice()) {
        Some(Entity::Variable(_)) => {}
        Some(_) => findings.note(misuse, name.at),
        None => findings.note(Rule::Unknown, name.at),
    }
}

// Checks a name that must be an array.
fn array(scope: &Scope, findings: &mut Findings, name: &Identifier)
    ensures { findings.new ≡ after findings.old (array_errors (found (in_scope scope.now) name.now.bytes.items) name.now.at) [] }
{
    match scope.find(name.bytes.as_slice()) {
        Some(Entity::Elements(_)) => {}
        Some(_) => findings.note(Rule::WrongKind, name.at),
        None => findings.note(Rule::Unknown, name.at),
    }
}

// Checks a call that has `count` arguments, of a function that has `parameters` parameters.
fn argument_count(findings: &mut Findings, name: &Identifier, count: usize, parameters: usize)
    ensures { findings.new ≡ after findings.old (broken_if (not (count == parameters)) WrongCount name.now.at) [] }
{
    findings.note_if(count != parameters, Rule::WrongCount, name.at);
}

// Checks a name that must be a function with `count` parameters.
fn function(scope: &Scope, findings: &mut Findings, name: &Identifier, count: usize)
    ensures { findings.new ≡ after findings.old (function_errors (found (in_scope scope.now) name.now.bytes.items) count name.now.at) [] }
{
    match scope.find(name.bytes.as_slice()) {
        Some(Entity::Function(signature)) => {
            argument_count(findings, name, count, signature.parameters.as_slice().len());
        }
        Some(Entity::WriteWord) => argument_count(findings, name, count, 1),
        Some(Entity::ReadWord) => argument_count(findings, name, count, 0),
        Some(Entity::Variable(_) | Entity::Elements(_)) => {
            findings.note(Rule::WrongKind, name.at);
        }
        None => findings.note(Rule::Unknown, name.at),
    }
}

// The type of a function's result, `None` for `void`. A name that is not a function is treated as if it returned `int`.
fn result_type(scope: &Scope, name: &[u8]) -> Option<Scalar>
    ensures { result ≡ result_type (found (in_scope scope.now) name.now) }
{
    match scope.find(name) {
        Some(Entity::Function(signature)) => signature.result,
        Some(Entity::WriteWord) => None,
        Some(Entity::ReadWord | Entity::Variable(_) | Entity::Elements(_)) | None => {
            Some(Scalar::Int)
        }
    }
}

// Checks that an expression whose value is used is not a void call, in parentheses or not.
fn void_call(scope: &Scope, findings: &mut Findings, tree: &Expression)
    ensures { findings.new ≡ after findings.old (void_errors (in_scope scope.now) (expression_tree tree.now)) [] }
{
    match tree {
        Expression::Parenthesised(inner) => void_call(scope, findings, inner),
        Expression::Call(name, _) => {
            if result_type(scope, name.bytes.as_slice()).is_none() {
                findings.note(Rule::VoidValue, name.at);
            }
        }
        Expression::Number(_, _)
        | Expression::Name(_)
        | Expression::Element(_, _)
        | Expression::Unary(_, _)
        | Expression::Cast(_, _)
        | Expression::Binary(_, _, _)
        | Expression::Conditional(_, _, _) => {}
    }
}

/// Checks an expression whose value is used.
#[cycle(expressions)]
pub fn value(scope: &Scope, findings: &mut Findings, tree: &Expression)
    ensures { findings.new ≡ after findings.old (value_errors (in_scope scope.now) (expression_tree tree.now)) (called_in (expression_tree tree.now)) }
{
    expression(scope, findings, tree);
    void_call(scope, findings, tree);
}

// Checks an expression that is evaluated, whether its value is used or not.
#[cycle(expressions)]
fn expression(scope: &Scope, findings: &mut Findings, tree: &Expression)
    ensures { findings.new ≡ after findings.old (expression_errors (in_scope scope.now) (expression_tree tree.now)) (called_in (expression_tree tree.now)) }
{
    match tree {
        Expression::Number(_, _) => {}
        Expression::Name(name) => variable(scope, findings, name, Rule::WrongKind),
        Expression::Element(name, index) => {
            array(scope, findings, name);
            value(scope, findings, index);
        }
        Expression::Call(name, all) => {
            let all = all.as_slice();
            findings.note_call(name);
            function(scope, findings, name, all.len());
            arguments(scope, findings, all);
        }
        Expression::Parenthesised(inner) => expression(scope, findings, inner),
        Expression::Unary(_, operand) | Expression::Cast(_, operand) => {
            value(scope, findings, operand);
        }
        Expression::Binary(_, left, right) => {
            value(scope, findings, left);
            value(scope, findings, right);
        }
        Expression::Conditional(condition, held, other) => {
            value(scope, findings, condition);
            value(scope, findings, held);
            value(scope, findings, other);
        }
    }
}

#[cycle(expressions)]
fn arguments(scope: &Scope, findings: &mut Findings, trees: &[Expression])
    ensures { findings.new ≡ after findings.old (argument_errors (in_scope scope.now) (expressions_of trees.now)) (called_in_all (expressions_of trees.now)) }
{
    for tree in trees {
        value(scope, findings, tree);
    }
}

/// Checks a value that may be absent.
pub fn optional_value(scope: &Scope, findings: &mut Findings, tree: &Option<Box<Expression>>)
    ensures { findings.new ≡ after findings.old (optional_errors (in_scope scope.now) (optional_tree tree.now)) (called_in_optional (optional_tree tree.now)) }
{
    if let Some(tree) = tree {
        value(scope, findings, tree);
    }
}

fn target(scope: &Scope, findings: &mut Findings, target: &Target)
    ensures { findings.new ≡ after findings.old (target_errors (in_scope scope.now) (target_tree target.now)) (called_in_target (target_tree target.now)) }
{
    match target {
        Target::Variable(name) => variable(scope, findings, name, Rule::BadAssign),
        Target::Element(name, index) => {
            array(scope, findings, name);
            value(scope, findings, index);
        }
    }
}

/// Checks an assignment, an increment or decrement, or an expression whose value is not used.
pub fn action(scope: &Scope, findings: &mut Findings, action: &Action)
    ensures { findings.new ≡ after findings.old (action_errors (in_scope scope.now) (action_tree action.now)) (called_in_action (action_tree action.now)) }
{
    match action {
        Action::Assign(_, written, right) => {
            target(scope, findings, written);
            value(scope, findings, right);
        }
        Action::Step(_, written) => target(scope, findings, written),
        Action::Evaluate(tree) => expression(scope, findings, tree),
    }
}

/// Checks an action that may be absent.
pub fn optional_action(scope: &Scope, findings: &mut Findings, tree: &Option<Action>)
    ensures { findings.new ≡ after findings.old (optional_action_errors (in_scope scope.now) (optional_action tree.now)) (called_in_optional_action (optional_action tree.now)) }
{
    if let Some(tree) = tree {
        action(scope, findings, tree);
    }
}
