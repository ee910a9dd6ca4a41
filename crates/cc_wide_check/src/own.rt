// Whether no name is reserved.

ghost use Rattle.std.specs.Prelude.{◌≡◌};
ghost use Rattle.cc_ast.specs.Erase.{name_tree, expression_tree, optional_tree, target_tree, action_tree, optional_action, declarator_trees, beginning_tree};
ghost use Rattle.cc_ast.specs.internal.Arguments.{expressions_of};
ghost use Rattle.cc_wide_check.specs.internal.Lowers.{own_name, own_expression, own_expressions, own_optional, own_target, own_action, own_optional_action, own_declarators, own_beginning};

use cc_ast::{Action, Beginning, Declarator, Expression, Identifier, Target};

fn own_name(name: &Identifier) -> bool
    ensures { result ≡ own_name (name_tree name.now) }
{
    match name.bytes.as_slice() {
        [] | [_] => true,
        [first, second, ..] => !(*first == b'_' && *second == b'_'),
    }
}

/// Whether no name in an expression is reserved.
#[cycle(expressions)]
pub(crate) fn own_expression(e: &Expression) -> bool
    ensures { result ≡ own_expression (expression_tree e.now) }
{
    match e {
        Expression::Number(_, _) => true,
        Expression::Name(name) => own_name(name),
        Expression::Element(name, index) => own_name(name) && own_expression(index),
        Expression::Call(name, all) => own_name(name) && own_expressions(all.as_slice()),
        Expression::Parenthesised(inner)
        | Expression::Unary(_, inner)
        | Expression::Cast(_, inner) => own_expression(inner),
        Expression::Binary(_, left, right) => own_expression(left) && own_expression(right),
        Expression::Conditional(condition, held, other) => {
            own_expression(condition) && own_expression(held) && own_expression(other)
        }
    }
}

#[cycle(expressions)]
fn own_expressions(all: &[Expression]) -> bool
    ensures { result ≡ own_expressions (expressions_of all.now) }
{
    for e in all {
        if !own_expression(e) {
            return false;
        }
    }
    true
}

/// Whether no name in an expression that may be absent is reserved.
pub(crate) fn own_optional(e: &Option<Box<Expression>>) -> bool
    ensures { result ≡ own_optional (optional_tree e.now) }
{
    match e {
        Some(e) => own_expression(e),
        None => true,
    }
}

fn own_target(target: &Target) -> bool
    ensures { result ≡ own_target (target_tree target.now) }
{
    match target {
        Target::Variable(name) => own_name(name),
        Target::Element(name, index) => own_name(name) && own_expression(index),
    }
}

fn own_action(action: &Action) -> bool
    ensures { result ≡ own_action (action_tree action.now) }
{
    match action {
        Action::Assign(_, target, e) => own_target(target) && own_expression(e),
        Action::Step(_, target) => own_target(target),
        Action::Evaluate(e) => own_expression(e),
    }
}

/// Whether no name in an action that may be absent is reserved.
pub(crate) fn own_optional_action(action: &Option<Action>) -> bool
    ensures { result ≡ own_optional_action (optional_action action.now) }
{
    match action {
        Some(action) => own_action(action),
        None => true,
    }
}

/// Whether no name in a declaration of locals is reserved.
pub(crate) fn own_declarators(all: &[Declarator]) -> bool
    ensures { result ≡ own_declarators (declarator_trees all.now) }
{
    for declarator in all {
        if !(own_name(&declarator.name) && own_optional(&declarator.initial)) {
            return false;
        }
    }
    true
}

/// Whether no name in the first part of a `for` header is reserved.
pub(crate) fn own_beginning(first: &Beginning) -> bool
    ensures { result ≡ own_beginning (beginning_tree first.now) }
{
    match first {
        Beginning::Declaration(_, all) => own_declarators(all.as_slice()),
        Beginning::Action(action) => own_optional_action(action),
    }
}
