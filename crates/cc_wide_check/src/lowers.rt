// Whether a program may be lowered: no name in its functions is reserved, each `continue` is in a loop, and no function has more switches
// inside one another than hidden locals. The recursion is as deep as the tree.

ghost use Rattle.std.specs.Prelude.{◌≡◌};
ghost use Rattle.cc_ast.specs.Erase.{statement_tree};
ghost use Rattle.cc_wide_text.specs.Forms.{wide_statement};
ghost use Rattle.cc_wide_check.specs.internal.Lowers.{lowers, all_lower, unlabelled_lower, block_lowers, switch_lowers, is_shallow, are_shallow};
ghost use Rattle.cc_wide_check.specs.internal.Views.{around_of, wide_of};

use super::around::{Around, may_continue, within};
use super::marks::{is_switch, label_of};
use super::own::{
    own_beginning, own_declarators, own_expression, own_optional, own_optional_action,
};
use cc_ast::Statement;

// Whether at most `limit` switches are inside one another in a marked statement.
#[cycle(nesting)]
fn is_shallow(limit: usize, s: &Statement) -> bool
    ensures { result ≡ is_shallow limit (wide_statement (statement_tree s.now)) }
{
    match s {
        Statement::Block(all) => are_shallow(limit, all.as_slice()),
        Statement::Local(_, _)
        | Statement::Perform(_)
        | Statement::Return(_, _)
        | Statement::Break(_)
        | Statement::Continue(_) => true,
        Statement::IfElse(_, held, other) => is_shallow(limit, held) && is_shallow(limit, other),
        Statement::While(c, body) => {
            if is_switch(c, body) {
                limit > 0 && is_shallow(limit - 1, body)
            } else {
                is_shallow(limit, body)
            }
        }
        Statement::If(_, body) | Statement::DoWhile(body, _) | Statement::For(_, _, _, body) =>
            is_shallow(limit, body),
    }
}

/// Whether at most `limit` switches are inside one another in marked statements.
#[cycle(nesting)]
pub(crate) fn are_shallow(limit: usize, all: &[Statement]) -> bool
    ensures { result ≡ are_shallow limit (wide_of all.now) }
{
    for s in all {
        if !is_shallow(limit, s) {
            return false;
        }
    }
    true
}

#[cycle(lowering)]
fn lowers(most: usize, around: Around, depth: usize, s: &Statement) -> bool
    ensures { result ≡ lowers most (around_of around) depth (wide_statement (statement_tree s.now)) }
{
    match s {
        Statement::Block(all) => all_lower(most, around, depth, all.as_slice()),
        Statement::Local(_, all) => own_declarators(all.as_slice()),
        Statement::Perform(action) => own_optional_action(action),
        Statement::Return(_, e) => own_optional(e),
        Statement::Break(_) => true,
        Statement::Continue(_) => may_continue(around),
        Statement::If(c, held) => own_expression(c) && lowers(most, around, depth, held),
        Statement::IfElse(c, held, other) => {
            own_expression(c)
                && lowers(most, around, depth, held)
                && lowers(most, around, depth, other)
        }
        Statement::While(c, body) => {
            if is_switch(c, body) {
                switch_lowers(most, around, depth, body)
            } else {
                own_expression(c) && lowers(most, Around::Loop, depth, body)
            }
        }
        Statement::DoWhile(body, c) => {
            lowers(most, Around::Loop, depth, body) && own_expression(c)
        }
        Statement::For(first, c, following, body) => {
            own_beginning(first)
                && own_optional(c)
                && own_optional_action(following)
                && lowers(most, Around::Loop, depth, body)
        }
    }
}

/// Whether marked statements inside `depth` switches may be lowered in a function with `most` hidden locals.
#[cycle(lowering)]
pub(crate) fn all_lower(most: usize, around: Around, depth: usize, all: &[Statement]) -> bool
    ensures { result ≡ all_lower most (around_of around) depth (wide_of all.now) }
{
    for s in all {
        if !lowers(most, around, depth, s) {
            return false;
        }
    }
    true
}

// The same of a switch, given the second `while` of its mark.
#[cycle(lowering)]
fn switch_lowers(most: usize, around: Around, depth: usize, s: &Statement) -> bool
    ensures { result ≡ switch_lowers most (around_of around) depth (statement_tree s.now) }
{
    match s {
        Statement::While(e, block) => {
            depth < most
                && own_expression(e)
                && block_lowers(most, within(around, depth), depth + 1, block)
        }
        _ => false,
    }
}

#[cycle(lowering)]
fn block_lowers(most: usize, around: Around, depth: usize, s: &Statement) -> bool
    ensures { result ≡ block_lowers most (around_of around) depth (statement_tree s.now) }
{
    match s {
        Statement::Block(all) => unlabelled_lower(most, around, depth, all.as_slice()),
        _ => false,
    }
}

#[cycle(lowering)]
fn unlabelled_lower(most: usize, around: Around, depth: usize, all: &[Statement]) -> bool
    ensures { result ≡ unlabelled_lower most (around_of around) depth (wide_of all.now) }
{
    for s in all {
        if !(label_of(s).is_some() || lowers(most, around, depth, s)) {
            return false;
        }
    }
    true
}
