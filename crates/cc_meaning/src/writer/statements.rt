// Statements. The instructions of each precede those of the statements after it.
//
// The statements of a list are written from last to first. All names that they declare are in scope before that, and each
// declaration removes its own names. The recursion is as deep as the tree: at most 64 levels.

ghost use Rattle.std.specs.Prelude.{◌≡◌, ◌≤◌, ◌<◌, ◌-◌, ◌∷◌, ◌++◌, List, length, OnOk};
ghost use Rattle.cc_ast.specs.Erase.{expression_tree, optional_tree, optional_action, beginning_tree, statement_tree, statements_of};
ghost use Rattle.cc_ast.specs.Tree as tree;
ghost use Rattle.cc_layout.specs.Environment as resolve;
ghost use Rattle.cc_meaning.specs.internal.Form as written;
ghost use Rattle.cc_layout.specs.Environment.{inner, behind};
ghost use Rattle.cc_meaning.specs.internal.Form.{exits_of_body, expression_code, turns_code, statement_code, statements_code};
ghost use Rattle.cc_meaning.specs.internal.Writing.{exits_of, conditional_code};
ghost use Rattle.cc_meaning.specs.declared.form.Instruction.TheVariants.{Repeat};
ghost use Rattle.cc_meaning.specs.declared.form.Instruction as form;

use super::actions::optional_action;
use super::declarations::{beginning, declaration};
use super::expressions::{condition, expression, value};
use crate::emitter::Emitter;
use crate::form::Instruction;
use cc_ast::{Action, Beginning, Expression, Statement};
use cc_resolve::{Environment, declare_beginning, declare_statement};
use std::alloc::AllocError;

/// The targets of a break and a continue, each given by how many instructions of the function follow it.
#[derive(Clone, Copy)]
pub struct Exits {
    pub breaks: usize,
    pub continues: usize,
}

// Writes a statement whose own names are in scope, and removes them.
#[cycle(resolved_statements)]
fn statement<'a>(
    names: &mut Environment<'a>,
    code: &mut Emitter,
    exits: Exits,
    tree: &'a Statement,
) -> Result<(), AllocError>
    requires breaks { exits.breaks ≤ length code.old }
    requires continues { exits.continues ≤ length code.old }
    ensures names { OnOk result ((w : resolve.Environment) → names.old ≡ behind (statement_tree tree.now) w → names.new ≡ w) }
    ensures code { OnOk result ((w : resolve.Environment) → names.old ≡ behind (statement_tree tree.now) w
        → code.new ≡ statement_code w (exits_of (length code.old) exits) (statement_tree tree.now) ++ code.old) }
{
    match tree {
        Statement::Block(all) => block(names, code, exits, all),
        Statement::Local(_, declared) => declaration(names, code, declared.as_slice()),
        Statement::Perform(action) => optional_action(names, code, action),
        Statement::Return(_, given) => {
            code.emit(Instruction::Return)?;
            value(names, code, given)
        }
        Statement::Break(_) => code.emit(Instruction::Jump(code.distance(exits.breaks))),
        Statement::Continue(_) => code.emit(Instruction::Jump(code.distance(exits.continues))),
        Statement::If(test, held) => conditional(names, code, exits, code.len(), held, test),
        Statement::IfElse(test, held, other) => {
            let behind = code.len();
            inner_statement(names, code, exits, other)?;
            let second = code.len();
            code.emit(Instruction::Jump(code.distance(behind)))?;
            conditional(names, code, exits, second, held, test)
        }
        Statement::While(test, body) => while_loop(names, code, body, test),
        Statement::DoWhile(body, test) => do_loop(names, code, body, test),
        Statement::For(first, test, following, body) => {
            for_loop(names, code, first, test, following, body)
        }
    }
}

// Writes a statement that has its own scope.
#[cycle(resolved_statements)]
fn inner_statement<'a>(
    names: &mut Environment<'a>,
    code: &mut Emitter,
    exits: Exits,
    tree: &'a Statement,
) -> Result<(), AllocError>
    requires breaks { exits.breaks ≤ length code.old }
    requires continues { exits.continues ≤ length code.old }
    ensures names { OnOk result (names.new ≡ names.old) }
    ensures code { OnOk result (code.new ≡ statement_code (inner names.old) (exits_of (length code.old) exits) (statement_tree tree.now) ++ code.old) }
{
    let around = names.open();
    declare_statement(names, tree)?;
    statement(names, code, exits, tree)?;
    names.close(around);
    Ok(())
}

// Writes a condition and the branch that runs if the condition holds. Another branch may follow; if the condition does not
// hold, the jump goes to the place that `second` instructions follow.
#[cycle(resolved_statements)]
fn conditional<'a>(
    names: &mut Environment<'a>,
    code: &mut Emitter,
    exits: Exits,
    second: usize,
    held: &'a Statement,
    test: &Expression,
) -> Result<(), AllocError>
    requires breaks { exits.breaks ≤ length code.old }
    requires continues { exits.continues ≤ length code.old }
    requires second { second ≤ length code.old }
    ensures names { OnOk result (names.new ≡ names.old) }
    ensures code { OnOk result (code.new ≡ conditional_code (expression_code names.old (expression_tree test.now))
        (statement_code (inner names.old) (exits_of (length code.old) exits) (statement_tree held.now)) (length code.old - second) ++ code.old) }
{
    inner_statement(names, code, exits, held)?;
    code.emit(Instruction::JumpIfZero(code.distance(second)))?;
    expression(names, code, test)?;
    Ok(())
}

// Writes the turns of a loop. The part after the body, the condition, and the backward jump (still without its distance)
// are already written.
#[cycle(resolved_statements)]
fn turns<'a>(
    names: &mut Environment<'a>,
    code: &mut Emitter,
    breaks: usize,
    body: &'a Statement,
) -> Result<(), AllocError>
    requires { breaks < length code.old }
    ensures names { OnOk result (names.new ≡ names.old) }
    ensures code { OnOk result ((following test rest : List form.Instruction) → code.old ≡ following ++ (test ++ Repeat 0 ∷ rest) → breaks ≡ length rest
        → code.new ≡ turns_code (statement_code (inner names.old) (exits_of_body following test) (statement_tree body.now)) following test ++ rest) }
    ensures longer { OnOk result (length code.old ≤ length code.new) }
{
    let continues = code.len();
    inner_statement(names, code, Exits { breaks, continues }, body)?;
    let back = code.distance(breaks);
    code.replace(breaks, Instruction::Repeat(back));
    code.emit(Instruction::Step)
}

#[cycle(resolved_statements)]
fn while_loop<'a>(
    names: &mut Environment<'a>,
    code: &mut Emitter,
    body: &'a Statement,
    test: &Expression,
) -> Result<(), AllocError>
    ensures names { OnOk result (names.new ≡ names.old) }
    ensures code { OnOk result ((x : written.Exits) → code.new ≡ statement_code names.old x (tree.While (expression_tree test.now) (statement_tree body.now)) ++ code.old) }
{
    let breaks = code.len();
    code.emit(Instruction::Repeat(0))?;
    expression(names, code, test)?;
    let begin = code.len();
    turns(names, code, breaks, body)?;
    code.emit(Instruction::Jump(code.distance(begin)))
}

#[cycle(resolved_statements)]
fn do_loop<'a>(
    names: &mut Environment<'a>,
    code: &mut Emitter,
    body: &'a Statement,
    test: &Expression,
) -> Result<(), AllocError>
    ensures names { OnOk result (names.new ≡ names.old) }
    ensures code { OnOk result ((x : written.Exits) → code.new ≡ statement_code names.old x (tree.DoWhile (statement_tree body.now) (expression_tree test.now)) ++ code.old) }
{
    let breaks = code.len();
    code.emit(Instruction::Repeat(0))?;
    expression(names, code, test)?;
    turns(names, code, breaks, body)
}

// Writes a `for`, whose header is a scope around its body.
#[cycle(resolved_statements)]
fn for_loop<'a>(
    names: &mut Environment<'a>,
    code: &mut Emitter,
    first: &'a Beginning,
    test: &Option<Box<Expression>>,
    following: &Option<Action>,
    body: &'a Statement,
) -> Result<(), AllocError>
    ensures names { OnOk result (names.new ≡ names.old) }
    ensures code { OnOk result ((x : written.Exits)
        → code.new ≡ statement_code names.old x (tree.For (beginning_tree first.now) (optional_tree test.now) (optional_action following.now) (statement_tree body.now)) ++ code.old) }
{
    let around = names.open();
    declare_beginning(names, first)?;
    let breaks = code.len();
    code.emit(Instruction::Repeat(0))?;
    condition(names, code, test)?;
    let begin = code.len();
    optional_action(names, code, following)?;
    turns(names, code, breaks, body)?;
    code.emit(Instruction::Jump(code.distance(begin)))?;
    beginning(names, code, first)?;
    names.close(around);
    Ok(())
}

#[cycle(resolved_statements)]
fn block<'a>(
    names: &mut Environment<'a>,
    code: &mut Emitter,
    exits: Exits,
    trees: &'a [Statement],
) -> Result<(), AllocError>
    requires breaks { exits.breaks ≤ length code.old }
    requires continues { exits.continues ≤ length code.old }
    ensures names { OnOk result (names.new ≡ names.old) }
    ensures code { OnOk result (code.new ≡ statements_code (inner names.old) (exits_of (length code.old) exits) (statements_of trees.now) ++ code.old) }
{
    let around = names.open();
    statements(names, code, exits, trees)?;
    names.close(around);
    Ok(())
}

/// Writes the statements of a list, in the scope of the list.
#[cycle(resolved_statements)]
pub fn statements<'a>(
    names: &mut Environment<'a>,
    code: &mut Emitter,
    exits: Exits,
    trees: &'a [Statement],
) -> Result<(), AllocError>
    requires breaks { exits.breaks ≤ length code.old }
    requires continues { exits.continues ≤ length code.old }
    ensures names { OnOk result (names.new ≡ names.old) }
    ensures code { OnOk result (code.new ≡ statements_code names.old (exits_of (length code.old) exits) (statements_of trees.now) ++ code.old) }
{
    for tree in trees {
        declare_statement(names, tree)?;
    }
    for tree in trees.iter().rev() {
        statement(names, code, exits, tree)?;
    }
    Ok(())
}
