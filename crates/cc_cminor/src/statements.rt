// Declarations and statements.
//
// Only loops make blocks: `break` leaves the block around the loop, `continue` the block of the body. So a loop's condition,
// and what follows its body, are inside the outer block but outside the inner one. The recursion is as deep as the tree: at
// most 64 levels.

ghost use Rattle.std.specs.Prelude.{◌≡◌, ◌≤◌, ◌-◌, ◌++◌, true, length, drop, IfOk, OnOk};
ghost use Rattle.cc_ast.specs.Tree as tree;
ghost use Rattle.cc_ast.specs.Erase.{optional_tree, optional_action, declarator_tree, declarator_trees, beginning_tree, statement_tree, statements_of};
ghost use Rattle.cc_scope.specs.Bindings.{closed};
ghost use Rattle.cc_layout.specs.Environment.{inner, behind, behind_beginning, with_local, with_locals};
ghost use Rattle.cc_cminor_language.specs.Cminor as cminor;
ghost use Rattle.cc_cminor_language.specs.Statements as codes;
ghost use Rattle.cc_cminor_language.specs.Code.{expression_of, statement_of, in_sequence};
ghost use Rattle.cc_cminor.specs.internal.Lowering.{branch, initialised, declarator_code, declared_code, started, leaving, lowered, all_lowered, behind_all, body_code};
ghost use Rattle.cc_cminor.specs.internal.Taken.{code_before, behind_code};

use super::actions::optional_action;
use super::expressions::{value, value_or};
use super::taken::{Taken, behind, choice};
use cc_ast::{
    Action, Beginning, Declarator, Expression as Tree, Scalar, Statement as TreeStatement,
};
use cc_cminor_language::{Statement, above, both, boxed_statement, constant, sequence, set};
use cc_resolve::{Environment, declare_locals};
use std::alloc::{AllocError, Global};

// Removes the newest locals until only `locals` are left, and closes the scope; the scope around it has declared `around`
// names.
fn close(names: &mut Environment<'_>, locals: usize, around: usize)
    requires { around ≤ length names.old.visible.outer }
    ensures { names.new ≡ record names.old { visible = closed around names.old.visible; locals = drop (length names.old.locals - locals) names.old.locals } }
{
    while names.len() > locals {
        names.undeclare();
    }
    names.close(around);
}

// ---- declarations

// Adds the code of a local's initialiser, if there is one; the local is in scope in its own initialiser.
fn initialise(
    alloc: Global,
    names: &Environment<'_>,
    number: usize,
    initial: &Option<Box<Tree>>,
    into: &mut Vec<Statement>,
) -> Result<(), AllocError>
    ensures { OnOk result (codes.statements_of into.new.items ≡ codes.statements_of into.old.items ++ initialised names.now.layout names.now number (optional_tree initial.now)) }
{
    match initial {
        None => Ok(()),
        Some(initial) => {
            let Taken {
                scalar: _,
                before,
                expression,
            } = value(alloc, names, above(number, 1)?, initial)?;
            let statement = set(alloc, number, expression)?;
            let code = behind(alloc, before, statement)?;
            into.push(Box::into_inner(code))?;
            Ok(())
        }
    }
}

// Sets a local to 0, then to its initialiser.
fn declarator<'a>(
    alloc: Global,
    names: &mut Environment<'a>,
    scalar: Scalar,
    tree: &'a Declarator,
    into: &mut Vec<Statement>,
) -> Result<(), AllocError>
    ensures names { OnOk result (names.new ≡ with_local scalar tree.now.name.bytes.items names.old) }
    ensures code { OnOk result (codes.statements_of into.new.items ≡ codes.statements_of into.old.items ++ declarator_code names.old.layout scalar (declarator_tree tree.now) names.old) }
{
    let number = names.len();
    let zero = constant(alloc, 0)?;
    let zero = set(alloc, number, zero)?;
    into.push(Box::into_inner(zero))?;
    declare_locals(names, scalar, std::slice::from_ref(tree))?;
    initialise(alloc, names, number, &tree.initial, into)
}

fn declaration<'a>(
    alloc: Global,
    names: &mut Environment<'a>,
    scalar: Scalar,
    trees: &'a [Declarator],
) -> Result<Box<Statement>, AllocError>
    ensures names { OnOk result (names.new ≡ with_locals scalar (declarator_trees trees.now) names.old) }
    ensures code { IfOk result (λ s. statement_of s.value ≡ in_sequence (declared_code names.old.layout scalar (declarator_trees trees.now) names.old)) }
{
    let mut all = Vec::new(alloc);
    for tree in trees {
        declarator(alloc, names, scalar, tree, &mut all)?;
    }
    sequence(alloc, all)
}

fn beginning<'a>(
    alloc: Global,
    names: &mut Environment<'a>,
    tree: &'a Beginning,
) -> Result<Box<Statement>, AllocError>
    ensures names { OnOk result (names.new ≡ behind_beginning (beginning_tree tree.now) names.old) }
    ensures code { IfOk result (λ s. statement_of s.value ≡ started names.old.layout (beginning_tree tree.now) names.old) }
{
    match tree {
        Beginning::Declaration(scalar, declared) => {
            declaration(alloc, names, *scalar, declared.as_slice())
        }
        Beginning::Action(action) => optional_action(alloc, names, action),
    }
}

// ---- what the parts of a statement become

// `break` and `continue`, which leave this many blocks and one more. Outside a loop, which typing excludes, the function ends.
fn leave(alloc: Global, in_loop: bool, blocks: usize) -> Result<Box<Statement>, AllocError>
    ensures { IfOk result (λ s. statement_of s.value ≡ leaving in_loop blocks) }
{
    if in_loop {
        boxed_statement(alloc, Statement::Exit(blocks))
    } else {
        let zero = constant(alloc, 0)?;
        boxed_statement(alloc, Statement::Return(zero))
    }
}

// A `return` with a value.
fn give_back(alloc: Global, given: Taken) -> Result<Box<Statement>, AllocError>
    ensures { IfOk result (λ s. statement_of s.value ≡ behind_code (code_before given.before) (cminor.Return (expression_of given.expression.value))) }
{
    let Taken {
        scalar: _,
        before,
        expression,
    } = given;
    let statement = boxed_statement(alloc, Statement::Return(expression))?;
    behind(alloc, before, statement)
}

// A statement that runs `held` if a value is not 0.
fn held(alloc: Global, test: Taken, held: Box<Statement>) -> Result<Box<Statement>, AllocError>
    ensures { IfOk result (λ s. statement_of s.value ≡ behind_code (code_before test.before) (branch (expression_of test.expression.value) (statement_of held.value) cminor.Skip)) }
{
    let skip = boxed_statement(alloc, Statement::Skip)?;
    choice(alloc, test, held, skip)
}

// The turns of a loop: this statement runs again and again, until a `break` leaves the block around it.
fn turns(alloc: Global, turn: Box<Statement>) -> Result<Box<Statement>, AllocError>
    ensures { IfOk result (λ s. statement_of s.value ≡ cminor.Block (cminor.Loop (statement_of turn.value))) }
{
    let turns = boxed_statement(alloc, Statement::Loop(turn))?;
    boxed_statement(alloc, Statement::Block(turns))
}

// A loop that tests its condition first: the body in its block, then what follows it.
fn test_first(
    alloc: Global,
    test: Taken,
    body: Box<Statement>,
    following: Box<Statement>,
) -> Result<Box<Statement>, AllocError>
    ensures { IfOk result (λ s. statement_of s.value ≡ cminor.Block (cminor.Loop (behind_code (code_before test.before)
        (branch (expression_of test.expression.value) (cminor.Sequence (cminor.Block (statement_of body.value)) (statement_of following.value)) (cminor.Exit 0))))) }
{
    let body = boxed_statement(alloc, Statement::Block(body))?;
    let held = both(alloc, body, following)?;
    let exit = boxed_statement(alloc, Statement::Exit(0))?;
    let turn = choice(alloc, test, held, exit)?;
    turns(alloc, turn)
}

// A loop that tests its condition last.
fn test_last(alloc: Global, body: Box<Statement>, test: Taken) -> Result<Box<Statement>, AllocError>
    ensures { IfOk result (λ s. statement_of s.value ≡ cminor.Block (cminor.Loop (cminor.Sequence (cminor.Block (statement_of body.value))
        (behind_code (code_before test.before) (branch (expression_of test.expression.value) cminor.Skip (cminor.Exit 0)))))) }
{
    let body = boxed_statement(alloc, Statement::Block(body))?;
    let skip = boxed_statement(alloc, Statement::Skip)?;
    let exit = boxed_statement(alloc, Statement::Exit(0))?;
    let choice = choice(alloc, test, skip, exit)?;
    let turn = both(alloc, body, choice)?;
    turns(alloc, turn)
}

// ---- statements

// A statement in a scope of its own.
#[cycle(lowering)]
fn inner_statement<'a>(
    alloc: Global,
    names: &mut Environment<'a>,
    in_loop: bool,
    tree: &'a TreeStatement,
) -> Result<Box<Statement>, AllocError>
    ensures names { OnOk result (names.new ≡ names.old) }
    ensures code { IfOk result (λ s. statement_of s.value ≡ lowered names.old.layout in_loop (inner names.old) (statement_tree tree.now)) }
{
    let locals = names.len();
    let around = names.open();
    let code = statement(alloc, names, in_loop, tree)?;
    close(names, locals, around);
    Ok(code)
}

#[cycle(lowering)]
fn block<'a>(
    alloc: Global,
    names: &mut Environment<'a>,
    in_loop: bool,
    trees: &'a [TreeStatement],
) -> Result<Box<Statement>, AllocError>
    ensures names { OnOk result (names.new ≡ names.old) }
    ensures code { IfOk result (λ s. statement_of s.value ≡ in_sequence (all_lowered names.old.layout in_loop (inner names.old) (statements_of trees.now))) }
{
    let locals = names.len();
    let around = names.open();
    let code = statements(alloc, names, in_loop, trees)?;
    close(names, locals, around);
    Ok(code)
}

// A `for`, whose header is a scope around its body.
#[cycle(lowering)]
fn for_loop<'a>(
    alloc: Global,
    names: &mut Environment<'a>,
    in_loop: bool,
    first: &'a Beginning,
    test: &Option<Box<Tree>>,
    following: &Option<Action>,
    body: &'a TreeStatement,
) -> Result<Box<Statement>, AllocError>
    ensures names { OnOk result (names.new ≡ names.old) }
    ensures code { IfOk result (λ s. statement_of s.value ≡ lowered names.old.layout in_loop names.old
        (tree.For (beginning_tree first.now) (optional_tree test.now) (optional_action following.now) (statement_tree body.now))) }
{
    let locals = names.len();
    let around = names.open();
    let first = beginning(alloc, names, first)?;
    let test = value_or(alloc, names, names.len(), 1, test)?;
    let following = optional_action(alloc, names, following)?;
    let body = inner_statement(alloc, names, true, body)?;
    close(names, locals, around);
    let turns = test_first(alloc, test, body, following)?;
    both(alloc, first, turns)
}

#[cycle(lowering)]
fn statement<'a>(
    alloc: Global,
    names: &mut Environment<'a>,
    in_loop: bool,
    tree: &'a TreeStatement,
) -> Result<Box<Statement>, AllocError>
    ensures names { OnOk result (names.new ≡ behind (statement_tree tree.now) names.old) }
    ensures code { IfOk result (λ s. statement_of s.value ≡ lowered names.old.layout in_loop names.old (statement_tree tree.now)) }
{
    match tree {
        TreeStatement::Block(all) => block(alloc, names, in_loop, all.as_slice()),
        TreeStatement::Local(scalar, all) => { declaration(alloc, names, *scalar, all.as_slice()) }
        TreeStatement::Perform(action) => optional_action(alloc, names, action),
        TreeStatement::Return(_, given) => {
            let given = value_or(alloc, names, names.len(), 0, given)?;
            give_back(alloc, given)
        }
        TreeStatement::Break(_) => leave(alloc, in_loop, 1),
        TreeStatement::Continue(_) => leave(alloc, in_loop, 0),
        TreeStatement::If(test, nonzero) => {
            let test = value(alloc, names, names.len(), test)?;
            let nonzero = inner_statement(alloc, names, in_loop, nonzero)?;
            held(alloc, test, nonzero)
        }
        TreeStatement::IfElse(test, nonzero, other) => {
            let test = value(alloc, names, names.len(), test)?;
            let nonzero = inner_statement(alloc, names, in_loop, nonzero)?;
            let other = inner_statement(alloc, names, in_loop, other)?;
            choice(alloc, test, nonzero, other)
        }
        TreeStatement::While(test, body) => {
            let test = value(alloc, names, names.len(), test)?;
            let body = inner_statement(alloc, names, true, body)?;
            let skip = boxed_statement(alloc, Statement::Skip)?;
            test_first(alloc, test, body, skip)
        }
        TreeStatement::DoWhile(body, test) => {
            let test = value(alloc, names, names.len(), test)?;
            let body = inner_statement(alloc, names, true, body)?;
            test_last(alloc, body, test)
        }
        TreeStatement::For(first, test, following, body) => {
            for_loop(alloc, names, in_loop, first, test, following, body)
        }
    }
}

// The statements of a list, in its scope.
#[cycle(lowering)]
fn statements<'a>(
    alloc: Global,
    names: &mut Environment<'a>,
    in_loop: bool,
    trees: &'a [TreeStatement],
) -> Result<Box<Statement>, AllocError>
    ensures names { OnOk result (names.new ≡ behind_all (statements_of trees.now) names.old) }
    ensures code { IfOk result (λ s. statement_of s.value ≡ in_sequence (all_lowered names.old.layout in_loop names.old (statements_of trees.now))) }
{
    let mut all = Vec::new(alloc);
    for tree in trees {
        let code = statement(alloc, names, in_loop, tree)?;
        all.push(Box::into_inner(code))?;
    }
    sequence(alloc, all)
}

/// The statements of a function's body, from the environment in which it begins.
pub fn body<'a>(
    alloc: Global,
    names: &mut Environment<'a>,
    trees: &'a [TreeStatement],
) -> Result<Box<Statement>, AllocError>
    ensures { IfOk result (λ s. statement_of s.value ≡ body_code names.old.layout names.old (statements_of trees.now)) }
{
    statements(alloc, names, false, trees)
}
