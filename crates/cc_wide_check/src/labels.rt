// The rules of labels (C99 6.8.1; 6.8.4.2, paragraph 3). The recursion is as deep as the tree.

ghost use Rattle.std.specs.Prelude.{◌≡◌, ◌+◌, length, ℕ, false, true};
ghost use Rattle.cc_ast.specs.Erase.{statement_tree};
ghost use Rattle.cc_wide_text.specs.Forms.{wide_statement};
ghost use Rattle.cc_wide_text.specs.Rules.{case_words, defaults};
ghost use Rattle.cc_wide_check.specs.internal.Labels.{all_constant, lacks, different, are_filled, labels_in, are_good, good_block, good_switch, keeps_labels, all_keep_labels};
ghost use Rattle.cc_wide_check.specs.internal.Views.{wide_of};

use super::constants::{constant_word, label_word};
use super::marks::{Label, is_switch, label_of};
use cc_ast::Statement;

// Whether each case has a constant expression.
fn all_constant(all: &[Statement]) -> bool
    ensures { result ≡ all_constant (labels_in (wide_of all.now)) }
{
    for s in all {
        if let Some(Label::Case(_, e)) = label_of(s) {
            if constant_word(e).is_none() {
                return false;
            }
        }
    }
    true
}

// Whether no case has this word.
fn lacks(word: u32, all: &[Statement]) -> bool
    ensures { result ≡ lacks word (case_words (labels_in (wide_of all.now))) }
{
    for s in all {
        if let Some(Label::Case(_, e)) = label_of(s) {
            if label_word(e) == word {
                return false;
            }
        }
    }
    true
}

// Whether no two cases have the same word.
fn different(all: &[Statement]) -> bool
    ensures { result ≡ different (case_words (labels_in (wide_of all.now))) }
{
    for i in 0..all.len() {
        if let Some(Label::Case(_, e)) = label_of(&all[i]) {
            if !lacks(label_word(e), &all[i + 1..]) {
                return false;
            }
        }
    }
    true
}

// How many of the labels are `default`.
fn defaults(all: &[Statement]) -> usize
    ensures { result ≡ length (defaults (labels_in (wide_of all.now))) }
{
    let mut count: usize = 0;
    for s in all {
        if let Some(Label::Default) = label_of(s) {
            count += 1;
        }
    }
    count
}

// Whether each section has statements, and no declarations.
fn are_filled(all: &[Statement]) -> bool
    ensures { result ≡ are_filled false (wide_of all.now) }
{
    let mut label = false;
    for s in all {
        if let Statement::Local(_, _) = s {
            return false;
        }
        label = label_of(s).is_some();
    }
    !label
}

// Whether the marked block of a switch keeps the rules.
fn are_good(all: &[Statement]) -> bool
    ensures { result ≡ are_good (wide_of all.now) }
{
    all_constant(all) && different(all) && defaults(all) <= 1 && are_filled(all)
}

fn good_block(s: &Statement) -> bool
    ensures { result ≡ good_block (statement_tree s.now) }
{
    match s {
        Statement::Block(all) => are_good(all.as_slice()),
        _ => false,
    }
}

// Whether a switch keeps the rules, given the second `while` of its mark.
fn good_switch(s: &Statement) -> bool
    ensures { result ≡ good_switch (statement_tree s.now) }
{
    match s {
        Statement::While(_, block) => good_block(block),
        _ => false,
    }
}

#[cycle(labels)]
fn keeps_labels(s: &Statement) -> bool
    ensures { result ≡ keeps_labels (wide_statement (statement_tree s.now)) }
{
    match s {
        Statement::Block(all) => all_keep_labels(all.as_slice()),
        Statement::Local(_, _)
        | Statement::Perform(_)
        | Statement::Return(_, _)
        | Statement::Break(_)
        | Statement::Continue(_) => true,
        Statement::IfElse(_, held, other) => keeps_labels(held) && keeps_labels(other),
        Statement::While(c, body) => {
            if is_switch(c, body) {
                good_switch(body) && keeps_labels(body)
            } else {
                keeps_labels(body)
            }
        }
        Statement::If(_, body) | Statement::DoWhile(body, _) | Statement::For(_, _, _, body) =>
            keeps_labels(body),
    }
}

/// Whether all switches in marked statements keep the rules of labels.
#[cycle(labels)]
pub(crate) fn all_keep_labels(all: &[Statement]) -> bool
    ensures { result ≡ all_keep_labels (wide_of all.now) }
{
    for s in all {
        if !keeps_labels(s) {
            return false;
        }
    }
    true
}
