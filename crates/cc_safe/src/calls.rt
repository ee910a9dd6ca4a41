// Whether all calls in a tree are of functions whose ranks are below a limit.
//
// A function's rank is the entry of a table at the function's number; a name that the unit does not define has rank 0. The recursion is as
// deep as the tree.

ghost use Rattle.std.specs.Prelude.{◌≡◌, ◌<◌, true};
ghost use Rattle.cc_ast.specs.Erase.{expression_tree, optional_tree, target_tree, action_tree, optional_action, declarator_trees, beginning_tree, statement_tree, statements_of};
ghost use Rattle.cc_ast.specs.internal.Arguments.{expressions_of};
ghost use Rattle.cc_depth.specs.Cycles.{InExpression, InExpressions, InOptional, InTarget, InAction, InOptionalAction, InDeclarators, InBeginning, InStatement, InStatements};
ghost use Rattle.cc_safe.specs.internal.Ranks.{rank_by};

use cc_ast::{Action, Beginning, Declarator, Expression, Statement, Target};
use cc_resolve::Layout;

/// The rank of a function.
pub(crate) fn rank_of(layout: &Layout<'_>, table: &[u32], name: &[u8]) -> u32
    ensures { result ≡ rank_by layout.now table.now name.now }
{
    table.get(layout.function(name)).copied().unwrap_or(0)
}

#[cycle(expressions)]
fn in_expression(layout: &Layout<'_>, table: &[u32], limit: u32, e: &Expression) -> bool
    ensures { result ≡ true → InExpression (λ g. rank_by layout.now table.now g < limit) (expression_tree e.now) }
{
    match e {
        Expression::Number(_, _) | Expression::Name(_) => true,
        Expression::Element(_, index) => in_expression(layout, table, limit, index),
        Expression::Call(name, all) => {
            let rank = rank_of(layout, table, name.bytes.as_slice());
            if rank >= limit {
                return false;
            }
            in_expressions(layout, table, limit, all.as_slice())
        }
        Expression::Parenthesised(inner) => in_expression(layout, table, limit, inner),
        Expression::Unary(_, operand) | Expression::Cast(_, operand) => {
            in_expression(layout, table, limit, operand)
        }
        Expression::Binary(_, left, right) => {
            if !in_expression(layout, table, limit, left) {
                return false;
            }
            in_expression(layout, table, limit, right)
        }
        Expression::Conditional(condition, held, other) => {
            if !in_expression(layout, table, limit, condition) {
                return false;
            }
            if !in_expression(layout, table, limit, held) {
                return false;
            }
            in_expression(layout, table, limit, other)
        }
    }
}

#[cycle(expressions)]
fn in_expressions(layout: &Layout<'_>, table: &[u32], limit: u32, all: &[Expression]) -> bool
    ensures { result ≡ true → InExpressions (λ g. rank_by layout.now table.now g < limit) (expressions_of all.now) }
{
    for e in all {
        if !in_expression(layout, table, limit, e) {
            return false;
        }
    }
    true
}

fn in_optional(layout: &Layout<'_>, table: &[u32], limit: u32, e: &Option<Box<Expression>>) -> bool
    ensures { result ≡ true → InOptional (λ g. rank_by layout.now table.now g < limit) (optional_tree e.now) }
{
    match e {
        Some(e) => in_expression(layout, table, limit, e),
        None => true,
    }
}

fn in_target(layout: &Layout<'_>, table: &[u32], limit: u32, target: &Target) -> bool
    ensures { result ≡ true → InTarget (λ g. rank_by layout.now table.now g < limit) (target_tree target.now) }
{
    match target {
        Target::Variable(_) => true,
        Target::Element(_, index) => in_expression(layout, table, limit, index),
    }
}

fn in_action(layout: &Layout<'_>, table: &[u32], limit: u32, action: &Action) -> bool
    ensures { result ≡ true → InAction (λ g. rank_by layout.now table.now g < limit) (action_tree action.now) }
{
    match action {
        Action::Assign(_, written, right) => {
            if !in_target(layout, table, limit, written) {
                return false;
            }
            in_expression(layout, table, limit, right)
        }
        Action::Step(_, written) => in_target(layout, table, limit, written),
        Action::Evaluate(e) => in_expression(layout, table, limit, e),
    }
}

fn in_optional_action(
    layout: &Layout<'_>,
    table: &[u32],
    limit: u32,
    action: &Option<Action>,
) -> bool
    ensures { result ≡ true → InOptionalAction (λ g. rank_by layout.now table.now g < limit) (optional_action action.now) }
{
    match action {
        Some(action) => in_action(layout, table, limit, action),
        None => true,
    }
}

fn in_declarators(layout: &Layout<'_>, table: &[u32], limit: u32, all: &[Declarator]) -> bool
    ensures { result ≡ true → InDeclarators (λ g. rank_by layout.now table.now g < limit) (declarator_trees all.now) }
{
    for declarator in all {
        if !in_optional(layout, table, limit, &declarator.initial) {
            return false;
        }
    }
    true
}

fn in_beginning(layout: &Layout<'_>, table: &[u32], limit: u32, first: &Beginning) -> bool
    ensures { result ≡ true → InBeginning (λ g. rank_by layout.now table.now g < limit) (beginning_tree first.now) }
{
    match first {
        Beginning::Declaration(_, all) => in_declarators(layout, table, limit, all.as_slice()),
        Beginning::Action(action) => in_optional_action(layout, table, limit, action),
    }
}

#[cycle(statements)]
fn in_statement(layout: &Layout<'_>, table: &[u32], limit: u32, s: &Statement) -> bool
    ensures { result ≡ true → InStatement (λ g. rank_by layout.now table.now g < limit) (statement_tree s.now) }
{
    match s {
        Statement::Block(all) => in_statements(layout, table, limit, all.as_slice()),
        Statement::Local(_, all) => in_declarators(layout, table, limit, all.as_slice()),
        Statement::Perform(action) => in_optional_action(layout, table, limit, action),
        Statement::Return(_, e) => in_optional(layout, table, limit, e),
        Statement::Break(_) | Statement::Continue(_) => true,
        Statement::If(condition, held) => {
            if !in_expression(layout, table, limit, condition) {
                return false;
            }
            in_statement(layout, table, limit, held)
        }
        Statement::IfElse(condition, held, other) => {
            if !in_expression(layout, table, limit, condition) {
                return false;
            }
            if !in_statement(layout, table, limit, held) {
                return false;
            }
            in_statement(layout, table, limit, other)
        }
        Statement::While(condition, body) => {
            if !in_expression(layout, table, limit, condition) {
                return false;
            }
            in_statement(layout, table, limit, body)
        }
        Statement::DoWhile(body, condition) => {
            if !in_statement(layout, table, limit, body) {
                return false;
            }
            in_expression(layout, table, limit, condition)
        }
        Statement::For(first, condition, behind, body) => {
            if !in_beginning(layout, table, limit, first) {
                return false;
            }
            if !in_optional(layout, table, limit, condition) {
                return false;
            }
            if !in_optional_action(layout, table, limit, behind) {
                return false;
            }
            in_statement(layout, table, limit, body)
        }
    }
}

/// Whether all functions that some statements call have ranks below the limit.
#[cycle(statements)]
pub(crate) fn in_statements(
    layout: &Layout<'_>,
    table: &[u32],
    limit: u32,
    all: &[Statement],
) -> bool
    ensures { result ≡ true → InStatements (λ g. rank_by layout.now table.now g < limit) (statements_of all.now) }
{
    for s in all {
        if !in_statement(layout, table, limit, s) {
            return false;
        }
    }
    true
}
