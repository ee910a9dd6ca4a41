// The choice of a switch: the number of the section with which it goes on. A range of words is given by its lowest, and by the lowest
// above it, if it does not reach to the highest.

ghost use Rattle.std.specs.Prelude.{◌≡◌, ◌+◌, ◌<◌, ◌^◌, ℕ, MatchOption, IsFalse, None, Some, false, unwrap_or};
ghost use Rattle.cc_ast.specs.Erase.{expression_tree, statement_tree};
ghost use Rattle.cc_ast.specs.Tree as tree;
ghost use Rattle.cc_types.specs.Types.{constant_word};
ghost use Rattle.cc_wide.specs.Places.{bare, bare_statement};
ghost use Rattle.cc_wide.specs.WideMeaning.{label_word};
ghost use Rattle.cc_wide.specs.Lowering.{equals, in_range, count_in, middle_from, middle};
ghost use Rattle.cc_wide_text.specs.Rules.{case_words};
ghost use Rattle.cc_wide_check.specs.internal.Labels.{labels_in};
ghost use Rattle.cc_wide_check.specs.internal.Sections.{begun, default_number, cases_in, otherwise, chain_left, is_chain, are_few, is_assigned, is_choice, is_halved};
ghost use Rattle.cc_wide_check.specs.internal.Views.{label_tree, wide_of};

use super::constants::label_word;
use super::expressions::inner;
use super::hidden::{assigned, is_number, is_test};
use super::marks::{Label, label_of};
use cc_ast::{BinaryOperator, Expression, Scalar, Statement};

/// How many cases are tried one after another: more are halved.
const FEW_CASES: usize = 4;

/// How many sections have begun after a label, given whether another label precedes it.
pub(crate) fn begun(label: bool, sections: usize) -> usize
    requires { sections + 1 < 2 ^ 64 }
    ensures { result ≡ begun label sections }
{
    if label { sections } else { sections + 1 }
}

/// The number of the section after `default`, or one more than that of the last section.
pub(crate) fn default_number(all: &[Statement]) -> usize
    ensures { result ≡ default_number 0 false (wide_of all.now) }
{
    let mut sections: usize = 0;
    let mut label = false;
    for s in all {
        match label_of(s) {
            None => label = false,
            Some(Label::Default) => return begun(label, sections),
            Some(Label::Case(_, _)) => {
                sections = begun(label, sections);
                label = true;
            }
        }
    }
    sections + 1
}

// Whether a word is at least `low`, and below `high` if there is that.
fn in_range(low: u32, high: Option<u32>, word: u32) -> bool
    ensures { result ≡ in_range low high word }
{
    match high {
        None => low <= word,
        Some(high) => low <= word && word < high,
    }
}

/// Whether so many levels or cases need no halves.
pub(crate) fn are_few(levels: usize, few: usize, count: usize) -> bool
    ensures is { result ≡ are_few levels few count }
    ensures some { IsFalse result → 0 < levels }
{
    levels == 0 || count <= few
}

/// How many words of cases are in a range.
pub(crate) fn count_in(low: u32, high: Option<u32>, all: &[Statement]) -> usize
    ensures { result ≡ count_in low high (case_words (labels_in (wide_of all.now))) }
{
    let mut count: usize = 0;
    for s in all {
        if let Some(Label::Case(_, e)) = label_of(s) {
            if in_range(low, high, label_word(e)) {
                count += 1;
            }
        }
    }
    count
}

// The first word of a case in a range that has so many words of the range below it; 0 if there is none.
fn middle_from(low: u32, high: Option<u32>, below: usize, all: &[Statement]) -> u32
    ensures { result ≡ middle_from low high below (case_words (labels_in (wide_of all.now))) (case_words (labels_in (wide_of all.now))) }
{
    for s in all {
        if let Some(Label::Case(_, e)) = label_of(s) {
            let word = label_word(e);
            if in_range(low, high, word) && count_in(low, Some(word), all) == below {
                return word;
            }
        }
    }
    0
}

// The word at which the cases in a range are halved.
fn middle(low: u32, high: Option<u32>, all: &[Statement]) -> u32
    ensures { result ≡ middle low high (case_words (labels_in (wide_of all.now))) }
{
    middle_from(low, high, count_in(low, high, all) / 2, all)
}

// What is left of `local == word ? number : ..`.
fn otherwise(local: usize, word: usize, number: usize, e: &Expression) -> Option<&Expression>
    ensures { MatchOption result (otherwise (equals local word) (tree.Number Scalar.Unsigned number) (bare (expression_tree e.now)) ≡ None) (λ f. otherwise (equals local word) (tree.Number Scalar.Unsigned number) (bare (expression_tree e.now)) ≡ Some (bare (expression_tree f.now))) }
{
    match inner(e) {
        Expression::Conditional(c, held, other) => {
            if is_test(BinaryOperator::Equal, local, word, c)
                && is_number(Scalar::Unsigned, number, held)
            {
                Some(other)
            } else {
                None
            }
        }
        _ => None,
    }
}

// What is left of the chain after a case with this word, which is in this section.
fn chain_left(
    local: usize,
    low: u32,
    high: Option<u32>,
    word: u32,
    section: usize,
    e: &Expression,
) -> Option<&Expression>
    ensures { MatchOption result (chain_left local low high word section (bare (expression_tree e.now)) ≡ None) (λ f. chain_left local low high word section (bare (expression_tree e.now)) ≡ Some (bare (expression_tree f.now))) }
{
    if in_range(low, high, word) {
        otherwise(local, word as usize, section, e)
    } else {
        Some(e)
    }
}

// Whether an expression is the chain of the cases in a range.
fn is_chain(
    local: usize,
    default: usize,
    low: u32,
    high: Option<u32>,
    all: &[Statement],
    e: &Expression,
) -> bool
    ensures { result ≡ is_chain local default low high (cases_in 0 false (wide_of all.now)) (bare (expression_tree e.now)) }
{
    let mut sections: usize = 0;
    let mut label = false;
    let mut left = e;
    for s in all {
        match label_of(s) {
            None => label = false,
            Some(Label::Default) => {
                sections = begun(label, sections);
                label = true;
            }
            Some(Label::Case(_, constant)) => {
                sections = begun(label, sections);
                label = true;
                match chain_left(local, low, high, label_word(constant), sections, left) {
                    Some(rest) => left = rest,
                    None => return false,
                }
            }
        }
    }
    is_number(Scalar::Unsigned, default, left)
}

// Whether a statement assigns the chain of the cases in a range.
fn is_assigned(
    local: usize,
    default: usize,
    low: u32,
    high: Option<u32>,
    all: &[Statement],
    s: &Statement,
) -> bool
    ensures { result ≡ is_assigned local default low high (cases_in 0 false (wide_of all.now)) (bare_statement (statement_tree s.now)) }
{
    match assigned(local, s) {
        Some(e) => is_chain(local, default, low, high, all, e),
        None => false,
    }
}

/// Whether a statement is the choice among the cases in a range, in at most so many levels. The recursion is as deep as the levels.
#[cycle(choices)]
pub(crate) fn is_choice(
    levels: usize,
    local: usize,
    default: usize,
    low: u32,
    high: Option<u32>,
    all: &[Statement],
    s: &Statement,
) -> bool
    ensures { result ≡ is_choice levels local default low high (cases_in 0 false (wide_of all.now)) (bare_statement (statement_tree s.now)) }
{
    if are_few(levels, FEW_CASES, count_in(low, high, all)) {
        return is_assigned(local, default, low, high, all, s);
    }
    is_halved(
        levels - 1,
        local,
        default,
        low,
        middle(low, high, all),
        high,
        all,
        s,
    )
}

// Whether a statement is the choices below a word and from it on.
#[cycle(choices)]
fn is_halved(
    levels: usize,
    local: usize,
    default: usize,
    low: u32,
    middle: u32,
    high: Option<u32>,
    all: &[Statement],
    s: &Statement,
) -> bool
    ensures { result ≡ is_halved levels local default low middle high (cases_in 0 false (wide_of all.now)) (bare_statement (statement_tree s.now)) }
{
    match s {
        Statement::IfElse(c, held, other) => {
            is_test(BinaryOperator::Less, local, middle as usize, c)
                && is_choice(levels, local, default, low, Some(middle), all, held)
                && is_choice(levels, local, default, middle, high, all, other)
        }
        _ => false,
    }
}
