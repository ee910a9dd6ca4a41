// Statements and expressions with the hidden locals of switches.

ghost use Rattle.std.specs.Prelude.{◌≡◌, ◌+◌, ◌<◌, ◌^◌, ℕ, nat_eq, length, IsTrue, IfSome, MatchOption, None, Some};
ghost use Rattle.std.specs.Cmp.Lexicographic.{pointwise};
ghost use Rattle.cc_ast.specs.Erase.{name_tree, expression_tree, action_tree, statement_tree, statements_of};
ghost use Rattle.cc_ast.specs.Tree as tree;
ghost use Rattle.cc_wide.specs.Places.{name_only, bare, bare_action, bare_statement, bare_statements};
ghost use Rattle.cc_wide.specs.Lowering.{marks, hidden, sets, continuing, after};
ghost use Rattle.cc_wide_check.specs.internal.Equal.{equal_name, equal_expression, equal_statement, equal_statements};
ghost use Rattle.cc_wide_check.specs.internal.Sections.{assigned_by, assigned};
ghost use Rattle.cc_wide_check.specs.internal.Views.{around_of};

use super::around::Around;
use super::expressions::inner;
use super::operators::{same_assignment, same_binary, same_scalar};
use cc_ast::{
    Action, AssignmentOperator, BinaryOperator, Expression, Identifier, Scalar, Statement, Target,
};

// Whether the bytes are one `s` more than this number.
fn are_marks(number: usize, bytes: &[u8]) -> bool
    ensures few { IsTrue result → number < length bytes.now }
    ensures are { result ≡ pointwise nat_eq bytes.now (marks number) }
{
    match bytes {
        [] => false,
        [first, rest @ ..] => {
            if number == 0 {
                *first == b's' && rest.is_empty()
            } else {
                *first == b's' && are_marks(number - 1, rest)
            }
        }
    }
}

/// Whether a name is that of hidden local `number`.
pub(crate) fn is_hidden(number: usize, name: &Identifier) -> bool
    ensures low { IsTrue result → number + 1 < 2 ^ 64 }
    ensures is { result ≡ equal_name (name_only (name_tree name.now)) (hidden number) }
{
    match name.bytes.as_slice() {
        [] | [_] => false,
        [first, second, rest @ ..] => {
            *first == b'_' && *second == b'_' && are_marks(number, rest)
        }
    }
}

fn is_local(number: usize, e: &Expression) -> bool
    ensures { result ≡ equal_expression (bare (expression_tree e.now)) (tree.Variable (hidden number)) }
{
    match inner(e) {
        Expression::Name(name) => is_hidden(number, name),
        _ => false,
    }
}

/// Whether an expression is this number.
pub(crate) fn is_number(scalar: Scalar, number: usize, e: &Expression) -> bool
    ensures { result ≡ equal_expression (bare (expression_tree e.now)) (tree.Number scalar number) }
{
    match inner(e) {
        Expression::Number(t, n) => same_scalar(*t, scalar) && *n as usize == number,
        _ => false,
    }
}

/// Whether an expression compares a hidden local with a number.
pub(crate) fn is_test(operator: BinaryOperator, local: usize, number: usize, e: &Expression) -> bool
    ensures { result ≡ equal_expression (bare (expression_tree e.now)) (tree.Binary operator (tree.Variable (hidden local)) (tree.Number Scalar.Unsigned number)) }
{
    match inner(e) {
        Expression::Binary(o, a, b) => {
            same_binary(*o, operator)
                && is_local(local, a)
                && is_number(Scalar::Unsigned, number, b)
        }
        _ => false,
    }
}

fn assigned_by(local: usize, action: &Action) -> Option<&Expression>
    ensures low { IfSome result (λ _. local + 1 < 2 ^ 64) }
    ensures is { MatchOption result (assigned_by local (bare_action (action_tree action.now)) ≡ None) (λ e. assigned_by local (bare_action (action_tree action.now)) ≡ Some (bare (expression_tree e.now))) }
{
    match action {
        Action::Assign(operator, Target::Variable(name), e) => {
            if same_assignment(*operator, AssignmentOperator::Plain) && is_hidden(local, name) {
                Some(e)
            } else {
                None
            }
        }
        _ => None,
    }
}

/// What a statement assigns to a hidden local, if it does.
pub(crate) fn assigned(local: usize, s: &Statement) -> Option<&Expression>
    ensures low { IfSome result (λ _. local + 1 < 2 ^ 64) }
    ensures is { MatchOption result (assigned local (bare_statement (statement_tree s.now)) ≡ None) (λ e. assigned local (bare_statement (statement_tree s.now)) ≡ Some (bare (expression_tree e.now))) }
{
    match s {
        Statement::Perform(Some(action)) => assigned_by(local, action),
        _ => None,
    }
}

// Whether a statement writes 0 to a hidden local.
fn is_cleared(local: usize, s: &Statement) -> bool
    ensures { result ≡ equal_statement (bare_statement (statement_tree s.now)) (sets local (tree.Number Scalar.Unsigned 0)) }
{
    match assigned(local, s) {
        Some(e) => is_number(Scalar::Unsigned, 0, e),
        None => false,
    }
}

fn is_break(s: &Statement) -> bool
    ensures { result ≡ equal_statement (bare_statement (statement_tree s.now)) (tree.Break 0) }
{
    match s {
        Statement::Break(_) => true,
        _ => false,
    }
}

// Whether the statements write 0 to a hidden local and end the switch.
fn leave(local: usize, all: &[Statement]) -> bool
    ensures { result ≡ equal_statements (bare_statements (statements_of all.now)) (tree.next (sets local (tree.Number Scalar.Unsigned 0)) (tree.next (tree.Break 0) tree.end)) }
{
    match all {
        [set, end] => is_cleared(local, set) && is_break(end),
        _ => false,
    }
}

/// Whether a statement does what `continue` does here.
pub(crate) fn continues(around: Around, s: &Statement) -> bool
    ensures { (at : ℕ) → result ≡ equal_statement (bare_statement (statement_tree s.now)) (bare_statement (continuing (around_of around) at)) }
{
    match (around, s) {
        (Around::Outside | Around::Loop, Statement::Continue(_)) => true,
        (Around::Caught(local), Statement::Block(all)) => leave(local, all.as_slice()),
        _ => false,
    }
}

fn continues_if(around: Around, local: usize, s: &Statement) -> bool
    ensures { result ≡ equal_statement (bare_statement (statement_tree s.now)) (tree.If (tree.Binary BinaryOperator.Equal (tree.Variable (hidden local)) (tree.Number Scalar.Unsigned 0)) (bare_statement (continuing (around_of around) 0))) }
{
    match s {
        Statement::If(c, held) => {
            is_test(BinaryOperator::Equal, local, 0, c) && continues(around, held)
        }
        _ => false,
    }
}

/// Whether the statements are those after the loop of a switch.
pub(crate) fn come_after(around: Around, local: usize, all: &[Statement]) -> bool
    ensures { result ≡ equal_statements (bare_statements (statements_of all.now)) (bare_statements (after (around_of around) local)) }
{
    match (around, all) {
        (Around::Outside, []) => true,
        (Around::Loop | Around::Caught(_), [s]) => continues_if(around, local, s),
        _ => false,
    }
}
