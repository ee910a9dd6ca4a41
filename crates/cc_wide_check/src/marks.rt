// The marks of a marked tree: which statements are switches, and which are labels.

ghost use Rattle.std.specs.Prelude.{◌≡◌, MatchOption, None, Some};
ghost use Rattle.std.specs.Str.{bytes_eq};
ghost use Rattle.cc_ast.specs.Erase.{expression_tree, target_tree, action_tree, statement_tree, statements_of};
ghost use Rattle.cc_wide_text.specs.Forms.{is_name, case_of, label_of_action, label_of, wide_statement};
ghost use Rattle.cc_wide_check.specs.internal.Switches.{begins, begins_block, begins_while, is_switch};
ghost use Rattle.cc_wide_check.specs.internal.Views.{label_tree};

use cc_ast::{Action, AssignmentOperator, Expression, Statement, Target};

/// A label of a switch: the offset and the constant of a case, or `default`.
#[derive(Clone, Copy)]
pub(crate) enum Label<'a> {
    Case(usize, &'a Expression),
    Default,
}

// Whether an expression is this name.
fn is_name(mark: &[u8], e: &Expression) -> bool
    ensures { result ≡ is_name mark.now (expression_tree e.now) }
{
    match e {
        Expression::Name(name) => name.bytes.as_slice() == mark,
        Expression::Number(_, _)
        | Expression::Element(_, _)
        | Expression::Call(_, _)
        | Expression::Parenthesised(_)
        | Expression::Unary(_, _)
        | Expression::Cast(_, _)
        | Expression::Binary(_, _, _)
        | Expression::Conditional(_, _, _) => false,
    }
}

// The label that an assignment is.
fn case_of<'a>(
    operator: AssignmentOperator,
    target: &'a Target,
    e: &'a Expression,
) -> Option<Label<'a>>
    ensures { MatchOption result (case_of operator (target_tree target.now) (expression_tree e.now) ≡ None) (λ l. case_of operator (target_tree target.now) (expression_tree e.now) ≡ Some (label_tree l)) }
{
    match (operator, target) {
        (AssignmentOperator::Plain, Target::Variable(name)) => {
            if name.bytes.as_slice() == b"__case".as_slice() {
                Some(Label::Case(name.at, e))
            } else {
                None
            }
        }
        _ => None,
    }
}

// The label that an action is.
fn label_of_action(action: &Action) -> Option<Label<'_>>
    ensures { MatchOption result (label_of_action (action_tree action.now) ≡ None) (λ l. label_of_action (action_tree action.now) ≡ Some (label_tree l)) }
{
    match action {
        Action::Assign(operator, target, e) => case_of(*operator, target, e),
        Action::Step(_, _) => None,
        Action::Evaluate(e) => {
            if is_name(b"__default", e) {
                Some(Label::Default)
            } else {
                None
            }
        }
    }
}

/// The label that a marked statement is.
pub(crate) fn label_of(s: &Statement) -> Option<Label<'_>>
    ensures { MatchOption result (label_of (wide_statement (statement_tree s.now)) ≡ None) (λ l. label_of (wide_statement (statement_tree s.now)) ≡ Some (label_tree l)) }
{
    match s {
        Statement::Perform(Some(action)) => label_of_action(action),
        Statement::Perform(None)
        | Statement::Block(_)
        | Statement::Local(_, _)
        | Statement::Return(_, _)
        | Statement::Break(_)
        | Statement::Continue(_)
        | Statement::If(_, _)
        | Statement::IfElse(_, _, _)
        | Statement::While(_, _)
        | Statement::DoWhile(_, _)
        | Statement::For(_, _, _, _) => None,
    }
}

/// Whether a list of statements is empty or begins with a label.
pub(crate) fn begins(all: &[Statement]) -> bool
    ensures { result ≡ begins (statements_of all.now) }
{
    match all {
        [] => true,
        [first, ..] => label_of(first).is_some(),
    }
}

fn begins_block(s: &Statement) -> bool
    ensures { result ≡ begins_block (statement_tree s.now) }
{
    match s {
        Statement::Block(all) => begins(all.as_slice()),
        _ => false,
    }
}

fn begins_while(s: &Statement) -> bool
    ensures { result ≡ begins_while (statement_tree s.now) }
{
    match s {
        Statement::While(_, body) => begins_block(body),
        _ => false,
    }
}

/// Whether a marked `while` with this condition and body is a switch.
pub(crate) fn is_switch(c: &Expression, body: &Statement) -> bool
    ensures { result ≡ is_switch (expression_tree c.now) (statement_tree body.now) }
{
    is_name(b"__switch", c) && begins_while(body)
}
