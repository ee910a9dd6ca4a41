// Whether a statement of C is the lowered one of a marked statement, but for places and parentheses. The recursion is as deep as the
// marked tree.

ghost use Rattle.std.specs.Prelude.{◌≡◌, ◌+◌, ◌<◌, ◌≤◌, ◌^◌, ℕ, suc, Bool, false, length, IsTrue, MatchOption, None, Some};
ghost use Rattle.cc_ast.specs.Erase.{expression_tree, statement_tree, statements_of};
ghost use Rattle.cc_ast.specs.Tree as tree;
ghost use Rattle.cc_wide.specs.Places.{bare, bare_statement, bare_statements};
ghost use Rattle.cc_wide.specs.Lowering.{Loop, lowered, all_lowered};
ghost use Rattle.cc_wide.specs.WideTree as wide;
ghost use Rattle.cc_wide_text.specs.Forms.{parts_of, wide_statement};
ghost use Rattle.cc_wide_check.specs.internal.Equal.{equal_statement, equal_statements};
ghost use Rattle.cc_wide_check.specs.internal.Sections.{opened_first, statement_step, label_step, block_of, are_sections, are_grouped, are_halved, section_count, run_of, is_run, is_value, is_chosen, parts, of_block, of_switch};
ghost use Rattle.cc_wide_check.specs.internal.Views.{around_of, wide_of, left, sections_left};

use super::actions::{same_beginning, same_declarators, same_optional_action};
use super::around::{Around, within};
use super::choices::{are_few, count_in, default_number, is_choice};
use super::expressions::{same_expression, same_optional};
use super::groups::{FEW_SECTIONS, cut, section_count};
use super::hidden::{assigned, come_after, continues, is_number, is_test};
use super::marks::{begins, is_switch, label_of};
use super::operators::same_scalar;
use cc_ast::{BinaryOperator, Expression, Scalar, Statement};

/// Whether a statement is the lowered one.
#[cycle(statements)]
fn same_statement(around: Around, depth: usize, wide: &Statement, tree: &Statement) -> bool
    ensures { result ≡ equal_statement (bare_statement (statement_tree tree.now)) (bare_statement (lowered (around_of around) depth (wide_statement (statement_tree wide.now)))) }
{
    match (wide, tree) {
        (Statement::Block(ws), Statement::Block(ss)) => {
            same_statements(around, depth, ws.as_slice(), ss.as_slice())
        }
        (Statement::Local(t, ds), Statement::Local(u, es)) => {
            same_scalar(*u, *t) && same_declarators(es.as_slice(), ds.as_slice())
        }
        (Statement::Perform(a), Statement::Perform(b)) => same_optional_action(b, a),
        (Statement::Return(_, e), Statement::Return(_, f)) => same_optional(f, e),
        (Statement::Break(_), Statement::Break(_)) => true,
        (Statement::Continue(_), _) => continues(around, tree),
        (Statement::If(c, w), Statement::If(d, s)) => {
            same_expression(d, c) && same_statement(around, depth, w, s)
        }
        (Statement::IfElse(c, w, v), Statement::IfElse(d, s, r)) => {
            same_expression(d, c)
                && same_statement(around, depth, w, s)
                && same_statement(around, depth, v, r)
        }
        (Statement::While(c, body), _) => {
            if is_switch(c, body) {
                same_switch(around, depth, body, tree)
            } else {
                same_while(depth, body, c, tree)
            }
        }
        (Statement::DoWhile(w, c), Statement::DoWhile(s, d)) => {
            same_statement(Around::Loop, depth, w, s) && same_expression(d, c)
        }
        (Statement::For(f, c, a, w), Statement::For(g, d, b, s)) => {
            same_beginning(g, f)
                && same_optional(d, c)
                && same_optional_action(b, a)
                && same_statement(Around::Loop, depth, w, s)
        }
        _ => false,
    }
}

#[cycle(statements)]
fn same_while(depth: usize, body: &Statement, c: &Expression, tree: &Statement) -> bool
    ensures { result ≡ equal_statement (bare_statement (statement_tree tree.now)) (bare_statement (lowered Loop depth (wide.While (expression_tree c.now) (wide_statement (statement_tree body.now))))) }
{
    match tree {
        Statement::While(d, s) => {
            same_expression(d, c) && same_statement(Around::Loop, depth, body, s)
        }
        _ => false,
    }
}

/// Whether statements are the lowered ones.
#[cycle(statements)]
pub(crate) fn same_statements(
    around: Around,
    depth: usize,
    wide: &[Statement],
    trees: &[Statement],
) -> bool
    ensures { result ≡ equal_statements (bare_statements (statements_of trees.now)) (bare_statements (all_lowered (around_of around) depth (wide_of wide.now))) }
{
    if wide.len() != trees.len() {
        return false;
    }
    for i in 0..wide.len() {
        if !same_statement(around, depth, &wide[i], &trees[i]) {
            return false;
        }
    }
    true
}

// Whether a statement is a lowered switch, given the second `while` of the switch's mark.
#[cycle(statements)]
fn same_switch(around: Around, depth: usize, marked: &Statement, tree: &Statement) -> bool
    ensures { result ≡ of_switch (around_of around) depth (statement_tree marked.now) (bare_statement (statement_tree tree.now)) }
{
    match marked {
        Statement::While(e, block) => same_block(around, depth, block, e, tree),
        _ => false,
    }
}

// The same given the marked block and the switch's expression.
#[cycle(statements)]
fn same_block(
    around: Around,
    depth: usize,
    block: &Statement,
    e: &Expression,
    tree: &Statement,
) -> bool
    ensures { result ≡ of_block (around_of around) depth (expression_tree e.now) (statement_tree block.now) (bare_statement (statement_tree tree.now)) }
{
    match (block, tree) {
        (Statement::Block(all), Statement::Block(trees)) => {
            same_parts(around, depth, all.as_slice(), e, trees.as_slice())
        }
        _ => false,
    }
}

// The same given the statements of the marked block, and those of the lowered switch.
#[cycle(statements)]
fn same_parts(
    around: Around,
    depth: usize,
    all: &[Statement],
    e: &Expression,
    trees: &[Statement],
) -> bool
    ensures { result ≡ parts (around_of around) depth (expression_tree e.now) (wide_of all.now) (bare_statements (statements_of trees.now)) }
{
    match trees {
        [value, chosen, run, rest @ ..] => {
            if !is_value(depth, e, value) {
                return false;
            }
            if !is_chosen(depth, all, chosen) {
                return false;
            }
            same_run(within(around, depth), depth, all, run) && come_after(around, depth, rest)
        }
        [] | [_] | [_, _] => false,
    }
}

// Whether a statement is the loop with the sections of a marked block.
#[cycle(statements)]
fn same_run(around: Around, depth: usize, all: &[Statement], run: &Statement) -> bool
    requires { depth + 1 < 2 ^ 64 }
    ensures { result ≡ is_run (around_of around) depth (wide_of all.now) (bare_statement (statement_tree run.now)) }
{
    let Some(ifs) = run_of(run) else {
        return false;
    };
    if !begins(all) {
        return false;
    }
    same_groups(around, depth, section_count(all), 0, all, ifs)
}

// Whether a statement keeps the value of a switch's expression in its local.
fn is_value(depth: usize, e: &Expression, s: &Statement) -> bool
    ensures low { IsTrue result → depth + 1 < 2 ^ 64 }
    ensures is { result ≡ is_value depth (expression_tree e.now) (bare_statement (statement_tree s.now)) }
{
    match assigned(depth, s) {
        Some(f) => same_expression(f, e),
        None => false,
    }
}

// Whether a statement chooses the section with which a switch goes on.
fn is_chosen(depth: usize, all: &[Statement], s: &Statement) -> bool
    ensures { result ≡ is_chosen depth (wide_of all.now) (bare_statement (statement_tree s.now)) }
{
    let default = default_number(all);
    is_choice(count_in(0, None, all), depth, default, 0, None, all, s)
}

// The statements of a block.
fn block_of(s: &Statement) -> Option<&[Statement]>
    ensures { MatchOption result (block_of (bare_statement (statement_tree s.now)) ≡ None) (λ all. block_of (bare_statement (statement_tree s.now)) ≡ Some (bare_statements (statements_of all.now))) }
{
    match s {
        Statement::Block(all) => Some(all.as_slice()),
        _ => None,
    }
}

// The statements of `do { .. } while (0);`.
fn run_of(s: &Statement) -> Option<&[Statement]>
    ensures { MatchOption result (run_of (bare_statement (statement_tree s.now)) ≡ None) (λ ifs. run_of (bare_statement (statement_tree s.now)) ≡ Some (bare_statements (statements_of ifs.now))) }
{
    match s {
        Statement::DoWhile(body, c) => {
            if is_number(Scalar::Int, 0, c) {
                block_of(body)
            } else {
                None
            }
        }
        _ => None,
    }
}

// The statements of a section with this number.
fn opened(depth: usize, number: usize, s: &Statement) -> Option<&[Statement]>
    ensures { MatchOption result (opened_first depth number (bare_statement (statement_tree s.now)) ≡ None) (λ body. opened_first depth number (bare_statement (statement_tree s.now)) ≡ Some (bare_statements (statements_of body.now))) }
{
    match s {
        Statement::If(c, held) => {
            if is_test(BinaryOperator::LessOrEqual, depth, number, c) {
                block_of(held)
            } else {
                None
            }
        }
        _ => None,
    }
}

// How far the statements of a marked block have been read: the number of the last section that has begun, how many of the lowered
// sections have begun, whether a label was read last, and the statements of the section that has begun, with the number of those that have
// been compared.
#[derive(Clone, Copy)]
struct Reading<'a> {
    sections: usize,
    next: usize,
    label: bool,
    body: &'a [Statement],
    done: usize,
}

// After a label.
fn after_label<'a>(depth: usize, reading: Reading<'a>, ifs: &'a [Statement]) -> Option<Reading<'a>>
    requires few { reading.next ≤ length ifs.now }
    requires room { reading.sections + length ifs.now < 2 ^ 64 + reading.next }
    ensures read { (go : ℕ → Bool → tree.Stmts → tree.Stmts → Bool) → MatchOption result (label_step depth go reading.entry.sections reading.entry.label (left reading.entry) (sections_left reading.entry ifs.now) ≡ false) (λ r. label_step depth go reading.entry.sections reading.entry.label (left reading.entry) (sections_left reading.entry ifs.now) ≡ go r.sections r.label (left r) (sections_left r ifs.now)) }
    ensures within { MatchOption result (Unit {0}) (λ r. (r.next ≤ length ifs.now) × (r.sections + length ifs.now < 2 ^ 64 + r.next)) }
{
    if reading.label {
        return Some(reading);
    }
    if reading.done < reading.body.len() || reading.next == ifs.len() {
        return None;
    }
    let body = opened(depth, reading.sections + 1, &ifs[reading.next])?;
    Some(Reading {
        sections: reading.sections + 1,
        next: reading.next + 1,
        label: true,
        body,
        done: 0,
    })
}

// After a statement that is no label.
#[cycle(statements)]
fn after_statement<'a>(
    around: Around,
    depth: usize,
    s: &Statement,
    reading: Reading<'a>,
) -> Option<Reading<'a>>
    requires { depth + 1 < 2 ^ 64 }
    ensures read { (go : tree.Stmts → tree.Stmts → Bool) (ifs : tree.Stmts) → MatchOption result (statement_step (bare_statement (lowered (around_of around) (suc depth) (wide_statement (statement_tree s.now)))) go (left reading.entry) ifs ≡ false) (λ r. statement_step (bare_statement (lowered (around_of around) (suc depth) (wide_statement (statement_tree s.now)))) go (left reading.entry) ifs ≡ go (left r) ifs) }
    ensures kept { MatchOption result (Unit {0}) (λ r. (r.sections ≡ reading.entry.sections) × (r.next ≡ reading.entry.next) × (r.label ≡ false)) }
{
    if reading.done >= reading.body.len() {
        return None;
    }
    if !same_statement(around, depth + 1, s, &reading.body[reading.done]) {
        return None;
    }
    Some(Reading {
        sections: reading.sections,
        next: reading.next,
        label: false,
        body: reading.body,
        done: reading.done + 1,
    })
}

// After a statement of the marked block.
#[cycle(statements)]
fn after<'a>(
    around: Around,
    depth: usize,
    s: &Statement,
    reading: Reading<'a>,
    ifs: &'a [Statement],
) -> Option<Reading<'a>>
    requires low { depth + 1 < 2 ^ 64 }
    requires few { reading.next ≤ length ifs.now }
    requires room { reading.sections + length ifs.now < 2 ^ 64 + reading.next }
    ensures read { (rest : wide.WideStmts) → MatchOption result (are_sections (around_of around) depth reading.entry.sections reading.entry.label (wide.next (wide_statement (statement_tree s.now)) rest) (left reading.entry) (sections_left reading.entry ifs.now) ≡ false) (λ r. are_sections (around_of around) depth reading.entry.sections reading.entry.label (wide.next (wide_statement (statement_tree s.now)) rest) (left reading.entry) (sections_left reading.entry ifs.now) ≡ are_sections (around_of around) depth r.sections r.label rest (left r) (sections_left r ifs.now)) }
    ensures within { MatchOption result (Unit {0}) (λ r. (r.next ≤ length ifs.now) × (r.sections + length ifs.now < 2 ^ 64 + r.next)) }
{
    if label_of(s).is_some() {
        after_label(depth, reading, ifs)
    } else {
        after_statement(around, depth, s, reading)
    }
}

// Whether the statements are the sections after number `before` of a switch, one after another.
#[cycle(statements)]
fn same_sections(
    around: Around,
    depth: usize,
    before: usize,
    all: &[Statement],
    ifs: &[Statement],
) -> bool
    requires low { depth + 1 < 2 ^ 64 }
    requires room { before < 2 ^ 63 }
    ensures { result ≡ are_sections (around_of around) depth before false (wide_of all.now) tree.end (bare_statements (statements_of ifs.now)) }
{
    let mut reading = Reading {
        sections: before,
        next: 0,
        label: false,
        body: &[],
        done: 0,
    };
    for s in all {
        match after(around, depth, s, reading, ifs) {
            Some(next) => reading = next,
            None => return false,
        }
    }
    reading.done >= reading.body.len() && reading.next == ifs.len()
}

// Whether the statements are the sections after number `before` of a switch, in groups of at most so many levels.
#[cycle(statements)]
fn same_groups(
    around: Around,
    depth: usize,
    levels: usize,
    before: usize,
    all: &[Statement],
    ifs: &[Statement],
) -> bool
    requires low { depth + 1 < 2 ^ 64 }
    requires enters { (parts_of (wide_of all.now)).front ≡ wide.end }
    requires room { before + section_count (wide_of all.now) < 2 ^ 63 }
    ensures { result ≡ are_grouped (around_of around) levels depth before (wide_of all.now) (bare_statements (statements_of ifs.now)) }
{
    let count = section_count(all);
    if are_few(levels, FEW_SECTIONS, count) {
        return same_sections(around, depth, before, all, ifs);
    }
    same_halves(around, depth, levels - 1, before, count / 2, all, ifs)
}

// Whether the statements are the sections after number `before` of a switch, the first half of them in a group.
#[cycle(statements)]
fn same_halves(
    around: Around,
    depth: usize,
    levels: usize,
    before: usize,
    half: usize,
    all: &[Statement],
    ifs: &[Statement],
) -> bool
    requires low { depth + 1 < 2 ^ 64 }
    requires enters { (parts_of (wide_of all.now)).front ≡ wide.end }
    requires room { before + section_count (wide_of all.now) < 2 ^ 63 }
    requires half { half ≤ section_count (wide_of all.now) }
    ensures { result ≡ are_halved (around_of around) levels depth before half (wide_of all.now) (bare_statements (statements_of ifs.now)) }
{
    let at = cut(half, all);
    match ifs {
        [] => false,
        [first, rest @ ..] => {
            let Some(body) = opened(depth, before + half, first) else {
                return false;
            };
            same_groups(around, depth, levels, before, &all[..at], body)
                && same_groups(around, depth, levels, before + half, &all[at..], rest)
        }
    }
}
