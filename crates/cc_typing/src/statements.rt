// The rules of statements and declarations of locals (C99 6.2.1, 6.7, 6.8).
//
// The recursion is as deep as the tree: at most 64 levels.

ghost use Rattle.std.specs.Prelude.{◌≡◌, OnOk};
ghost use Rattle.cc_ast.specs.Erase.{optional_tree, optional_action, declarator_tree, declarator_trees, beginning_tree, statement_tree, statements_of};
ghost use Rattle.cc_ast.specs.Tree as tree;
ghost use Rattle.cc_typing.specs.internal.Findings.{after, around_of, declarator_errors, is_bad_return};
ghost use Rattle.cc_types.specs.Rules.{within_loop, declared_errors, beginning_errors, return_errors, statement_errors, statements_errors, called_in_optional, called_in_declared, called_in_beginning, called_in_statement, called_in_statements};
ghost use Rattle.cc_types.specs.Scope.{Variable, in_scope, opened, declared, all_declared, scope_behind, scope_behind_beginning};

use super::around::Surroundings;
use super::expressions::{optional_action, optional_value, value};
use super::findings::Findings;
use cc_ast::{Action, Beginning, Declarator, Expression, Scalar, Statement};
use cc_scope::{Entity, Scope};
use cc_types::Rule;
use std::alloc::AllocError;

// Checks one name in a declaration. The name is in scope in its own initialiser.
fn declarator<'a>(
    scope: &mut Scope<'a>,
    findings: &mut Findings,
    scalar: Scalar,
    tree: &'a Declarator,
) -> Result<(), AllocError>
    ensures scope { OnOk result (scope.new ≡ declared tree.now.name.bytes.items (Variable scalar) scope.old) }
    ensures found { OnOk result (findings.new ≡ after findings.old (declarator_errors scalar (declarator_tree tree.now) scope.old) (called_in_optional (optional_tree tree.now.initial))) }
{
    let again = scope.declare(tree.name.bytes.as_slice(), Entity::Variable(scalar))?;
    findings.note_if(again, Rule::Redeclared, tree.name.at);
    optional_value(scope, findings, &tree.initial);
    Ok(())
}

// Checks a declaration of locals.
fn declaration<'a>(
    scope: &mut Scope<'a>,
    findings: &mut Findings,
    scalar: Scalar,
    trees: &'a [Declarator],
) -> Result<(), AllocError>
    ensures scope { OnOk result (scope.new ≡ all_declared scalar (declarator_trees trees.now) scope.old) }
    ensures found { OnOk result (findings.new ≡ after findings.old (declared_errors scalar (declarator_trees trees.now) scope.old) (called_in_declared (declarator_trees trees.now))) }
{
    for tree in trees {
        declarator(scope, findings, scalar, tree)?;
    }
    Ok(())
}

// Checks the first part of a `for` header.
fn beginning<'a>(
    scope: &mut Scope<'a>,
    findings: &mut Findings,
    tree: &'a Beginning,
) -> Result<(), AllocError>
    ensures scope { OnOk result (scope.new ≡ scope_behind_beginning (beginning_tree tree.now) scope.old) }
    ensures found { OnOk result (findings.new ≡ after findings.old (beginning_errors (beginning_tree tree.now) scope.old) (called_in_beginning (beginning_tree tree.now))) }
{
    match tree {
        Beginning::Declaration(scalar, names) => {
            declaration(scope, findings, *scalar, names.as_slice())
        }
        Beginning::Action(action) => {
            optional_action(scope, findings, action);
            Ok(())
        }
    }
}

fn is_bad_return(gives: Option<Scalar>, tree: &Option<Box<Expression>>) -> bool
    ensures { result ≡ is_bad_return gives (optional_tree tree.now) }
{
    match tree {
        Some(_) => gives.is_none(),
        None => gives.is_some(),
    }
}

// Checks a `return`. `at` is the offset of the keyword.
fn returned(
    scope: &Scope,
    findings: &mut Findings,
    around: Surroundings,
    at: usize,
    tree: &Option<Box<Expression>>,
)
    ensures { findings.new ≡ after findings.old (return_errors around.result (in_scope scope.now) at (optional_tree tree.now)) (called_in_optional (optional_tree tree.now)) }
{
    findings.note_if(is_bad_return(around.result, tree), Rule::BadReturn, at);
    optional_value(scope, findings, tree);
}

// Checks a statement that has its own scope.
#[cycle(statements)]
fn inner_statement<'a>(
    scope: &mut Scope<'a>,
    findings: &mut Findings,
    around: Surroundings,
    tree: &'a Statement,
) -> Result<(), AllocError>
    ensures scope { OnOk result (scope.new ≡ scope.old) }
    ensures found { OnOk result (findings.new ≡ after findings.old (statement_errors (statement_tree tree.now) (around_of around) (opened scope.old)) (called_in_statement (statement_tree tree.now))) }
{
    let names = scope.open();
    statement(scope, findings, around, tree)?;
    scope.close(names);
    Ok(())
}

// Checks a statement. Afterwards what it declares in the innermost scope is in scope.
#[cycle(statements)]
fn statement<'a>(
    scope: &mut Scope<'a>,
    findings: &mut Findings,
    around: Surroundings,
    tree: &'a Statement,
) -> Result<(), AllocError>
    ensures scope { OnOk result (scope.new ≡ scope_behind (statement_tree tree.now) scope.old) }
    ensures found { OnOk result (findings.new ≡ after findings.old (statement_errors (statement_tree tree.now) (around_of around) scope.old) (called_in_statement (statement_tree tree.now))) }
{
    match tree {
        Statement::Block(all) => block(scope, findings, around, all),
        Statement::Local(scalar, names) => {
            declaration(scope, findings, *scalar, names.as_slice())
        }
        Statement::Perform(action) => {
            optional_action(scope, findings, action);
            Ok(())
        }
        Statement::Return(at, tree) => {
            returned(scope, findings, around, *at, tree);
            Ok(())
        }
        Statement::Break(at) | Statement::Continue(at) => {
            findings.note_if(!around.in_loop, Rule::BadBreak, *at);
            Ok(())
        }
        Statement::If(condition, held) => {
            value(scope, findings, condition);
            inner_statement(scope, findings, around, held)
        }
        Statement::IfElse(condition, held, other) => {
            value(scope, findings, condition);
            inner_statement(scope, findings, around, held)?;
            inner_statement(scope, findings, around, other)
        }
        Statement::While(condition, body) => {
            value(scope, findings, condition);
            inner_statement(scope, findings, within_loop(around), body)
        }
        Statement::DoWhile(body, condition) => {
            inner_statement(scope, findings, within_loop(around), body)?;
            value(scope, findings, condition);
            Ok(())
        }
        Statement::For(first, condition, following, body) => {
            for_statement(scope, findings, around, first, condition, following, body)
        }
    }
}

// Checks a `for`, whose header is a scope around its body.
#[cycle(statements)]
fn for_statement<'a>(
    scope: &mut Scope<'a>,
    findings: &mut Findings,
    around: Surroundings,
    first: &'a Beginning,
    condition: &Option<Box<Expression>>,
    following: &Option<Action>,
    body: &'a Statement,
) -> Result<(), AllocError>
    ensures scope { OnOk result (scope.new ≡ scope.old) }
    ensures found { OnOk result (findings.new ≡ after findings.old (statement_errors (tree.For (beginning_tree first.now) (optional_tree condition.now) (optional_action following.now) (statement_tree body.now)) (around_of around) scope.old) (called_in_statement (tree.For (beginning_tree first.now) (optional_tree condition.now) (optional_action following.now) (statement_tree body.now)))) }
{
    let names = scope.open();
    beginning(scope, findings, first)?;
    optional_value(scope, findings, condition);
    optional_action(scope, findings, following);
    inner_statement(scope, findings, within_loop(around), body)?;
    scope.close(names);
    Ok(())
}

// Checks a block, which is a scope.
#[cycle(statements)]
fn block<'a>(
    scope: &mut Scope<'a>,
    findings: &mut Findings,
    around: Surroundings,
    trees: &'a [Statement],
) -> Result<(), AllocError>
    ensures scope { OnOk result (scope.new ≡ scope.old) }
    ensures found { OnOk result (findings.new ≡ after findings.old (statements_errors (statements_of trees.now) (around_of around) (opened scope.old)) (called_in_statements (statements_of trees.now))) }
{
    let names = scope.open();
    all_statements(scope, findings, around, trees)?;
    scope.close(names);
    Ok(())
}

/// Checks the statements of a block, in its scope.
#[cycle(statements)]
pub fn all_statements<'a>(
    scope: &mut Scope<'a>,
    findings: &mut Findings,
    around: Surroundings,
    trees: &'a [Statement],
) -> Result<(), AllocError>
    ensures outer { OnOk result (scope.new.outer ≡ scope.old.outer) }
    ensures found { OnOk result (findings.new ≡ after findings.old (statements_errors (statements_of trees.now) (around_of around) scope.old) (called_in_statements (statements_of trees.now))) }
{
    for tree in trees {
        statement(scope, findings, around, tree)?;
    }
    Ok(())
}

fn within_loop(around: Surroundings) -> Surroundings
    ensures { around_of result ≡ within_loop (around_of around) }
{
    Surroundings {
        result: around.result,
        in_loop: true,
    }
}
