// Jump threading: a test directly after a label goes before the label and into each jump to it, if only jumps lead to the label. So a truth
// value is tested where it is computed, and if the value is known, a jump replaces the test. The same walk chooses the steps of the items.
//
// Two walks make the table of these tests. The first goes from the back and finds the test after each label; the second clears
// the labels to which branches lead.

ghost use Rattle.std.specs.Prelude.{◌≡◌, ◌++◌, ◌∷◌, [], ℕ, ◌+◌, ◌≤◌, drop, None, false, not, IfOk, vec_len, vec_capacity, if◌then◌else◌, ◌==◌};
ghost use Rattle.cc_linear_language.specs.declared.item.LinearItem.TheVariants.{Jump};
ghost use Rattle.cc_select.specs.Known.{unknown, is_taken, chosen};
ghost use Rattle.cc_select.specs.Threading.{branches_to, first_test, test_behind, tests, way, is_jump, before_label, in_jump, piece, is_before_gone, threaded_by, threaded};
ghost use Rattle.cc_select.specs.internal.Sets.{known_in, tests_in};
ghost use Rattle.cc_select.specs.internal.Passes.{branched_to};

use crate::known::{Known, choose, is_taken};
use crate::step::Step;
use cc_linear_language::LinearItem;
use std::alloc::{AllocError, Global};

/// For each label, by its number, the test that goes before it.
#[derive(Drop)]
struct Tests {
    rows: Vec<Option<LinearItem>>,
}

impl Tests {
    // The test of a label.
    fn row(&self, label: u32) -> Option<LinearItem>
        ensures { result ≡ tests_in self.now label }
    {
        match self.rows.get(label as usize) {
            Some(row) => *row,
            None => None,
        }
    }

    // Sets the test of a label. If memory runs out, everything stays as it was.
    fn put(&mut self, label: u32, row: Option<LinearItem>) -> Result<(), AllocError>
        ensures { IfOk result (λ _. (n : ℕ) → tests_in self.new n ≡ (if label == n then row else tests_in self.old n)) }
    {
        let at = label as usize;
        if self.rows.len() <= at {
            if row.is_none() {
                return Ok(());
            }
            self.rows.resize(at + 1, None)?;
        }
        self.rows[at] = row;
        Ok(())
    }
}

// The item at a place, if it is a test.
fn first_test(items: &[LinearItem], at: usize) -> Option<LinearItem>
    ensures { result ≡ first_test (drop at items.now) }
{
    match items.get(at) {
        Some(LinearItem::IfNonzero { from, to }) => Some(LinearItem::IfNonzero {
            from: *from,
            to: *to,
        }),
        Some(LinearItem::IfZero { from, to }) => Some(LinearItem::IfZero {
            from: *from,
            to: *to,
        }),
        _ => None,
    }
}

// The test directly after each label.
fn tests_behind(alloc: Global, items: &[LinearItem]) -> Result<Tests, AllocError>
    ensures { IfOk result (λ found. (n : ℕ) → tests_in found n ≡ test_behind items.now n) }
{
    let mut found = Tests {
        rows: Vec::new(alloc),
    };
    let mut at = items.len();
    while at > 0 {
        at -= 1;
        if let LinearItem::Label { label } = items[at] {
            found.put(label, first_test(items, at + 1))?;
        }
    }
    Ok(found)
}

// The label to which an item may lead besides the next item.
fn branched_to(item: &LinearItem) -> Option<u32>
    ensures { result ≡ branched_to item.now }
{
    match item {
        LinearItem::IfNonzero { to, .. } | LinearItem::IfZero { to, .. } => Some(*to),
        _ => None,
    }
}

// Clears the tests of the labels to which branches lead.
fn without_branched(found: &mut Tests, items: &[LinearItem]) -> Result<(), AllocError>
    ensures { IfOk result (λ _. (n : ℕ) → tests_in found.new n ≡ (if branches_to items.now n then None else tests_in found.old n)) }
{
    for item in items {
        if let Some(to) = branched_to(item) {
            found.put(to, None)?;
        }
    }
    Ok(())
}

// The tests that go before labels.
fn find_tests(alloc: Global, items: &[LinearItem]) -> Result<Tests, AllocError>
    ensures { IfOk result (λ found. (n : ℕ) → tests_in found n ≡ tests items.now n) }
{
    let mut found = tests_behind(alloc, items)?;
    without_branched(&mut found, items)?;
    Ok(found)
}

// What replaces a test: a jump to one of two labels if the word is known, else the test.
fn decided(nonzero: bool, word: Option<u32>, to: u32, label: u32, test: LinearItem) -> LinearItem
    ensures { result ≡ (if is_taken nonzero word then Jump to else (if is_taken (not nonzero) word then Jump label else test)) }
{
    if is_taken(nonzero, word) {
        LinearItem::Jump { to }
    } else if is_taken(!nonzero, word) {
        LinearItem::Jump { to: label }
    } else {
        test
    }
}

// What a test becomes before a jump to a label, or before the label itself.
fn way(known: &Known, test: LinearItem, label: u32) -> LinearItem
    ensures { result ≡ way (known_in known.now) test label }
{
    match test {
        LinearItem::IfNonzero { from, to } => decided(true, known.word(from), to, label, test),
        LinearItem::IfZero { from, to } => decided(false, known.word(from), to, label, test),
        _ => test,
    }
}

// Whether an item is a jump.
fn is_jump(item: &LinearItem) -> bool
    ensures { result ≡ is_jump item.now }
{
    matches!(item, LinearItem::Jump { .. })
}

// Pushes the steps of a label and of the test that goes before it.
fn push_label(steps: &mut Vec<Step>, tests: &Tests, known: &Known, label: u32)
    requires { vec_len steps.old + 2 ≤ vec_capacity steps.old }
    ensures { steps.new.items ≡ steps.old.items ++ chosen (known_in known.now) (before_label (known_in known.now) (tests_in tests.now label) label) }
{
    if let Some(test) = tests.row(label) {
        steps.push_reserved(choose(known, way(known, test, label)));
    }
    steps.push_reserved(Step::One(LinearItem::Label { label }));
}

// Pushes the step of an item and then, unless `alone` is true, a jump to a label.
fn push_step(steps: &mut Vec<Step>, known: &Known, item: LinearItem, label: u32, alone: bool)
    requires { vec_len steps.old + 2 ≤ vec_capacity steps.old }
    ensures { steps.new.items ≡ steps.old.items ++ chosen (known_in known.now) (item ∷ (if alone then [] else Jump label ∷ [])) }
{
    steps.push_reserved(choose(known, item));
    if !alone {
        steps.push_reserved(Step::One(LinearItem::Jump { to: label }));
    }
}

// Pushes the steps of a jump to a label and of the test that goes before the label.
fn push_jump(steps: &mut Vec<Step>, tests: &Tests, known: &Known, label: u32)
    requires { vec_len steps.old + 2 ≤ vec_capacity steps.old }
    ensures { steps.new.items ≡ steps.old.items ++ chosen (known_in known.now) (in_jump (known_in known.now) (tests_in tests.now label) label) }
{
    match tests.row(label) {
        Some(test) => {
            let way = way(known, test, label);
            let alone = is_jump(&way);
            push_step(steps, known, way, label, alone);
        }
        None => push_step(steps, known, LinearItem::Jump { to: label }, label, true),
    }
}

// Pushes the steps for an item: at most two, for which there is room.
fn push_piece(steps: &mut Vec<Step>, tests: &Tests, known: &Known, item: LinearItem)
    requires { vec_len steps.old + 2 ≤ vec_capacity steps.old }
    ensures { steps.new.items ≡ steps.old.items ++ chosen (known_in known.now) (piece (tests_in tests.now) (known_in known.now) item) }
{
    match item {
        LinearItem::Label { label } => push_label(steps, tests, known, label),
        LinearItem::Jump { to } => push_jump(steps, tests, known, to),
        _ => push_step(steps, known, item, 0, true),
    }
}

// Whether the item after this one is a test that was moved before its label.
fn is_before_gone(tests: &Tests, item: &LinearItem) -> bool
    ensures { result ≡ is_before_gone (tests_in tests.now) item.now }
{
    match item {
        LinearItem::Label { label } => tests.row(*label).is_some(),
        _ => false,
    }
}

// The steps of the items, with these tests before labels.
fn chosen_by(alloc: Global, tests: &Tests, items: &[LinearItem]) -> Result<Vec<Step>, AllocError>
    ensures { IfOk result (λ steps. steps.items ≡ chosen unknown (threaded_by (tests_in tests.now) unknown false items.now)) }
{
    let mut known = Known::nothing();
    let mut steps = Vec::with_capacity(alloc, items.len())?;
    let mut gone = false;
    for item in items {
        if gone {
            gone = false;
        } else {
            steps.reserve(2)?;
            push_piece(&mut steps, tests, &known, *item);
            gone = is_before_gone(tests, item);
            known.go_behind(item);
        }
    }
    Ok(steps)
}

/// The steps of a function's items, with tests before the labels to which only jumps lead: one step for each item, and at most one more for
/// each jump. Err: memory ran out.
pub(crate) fn chosen(alloc: Global, items: &[LinearItem]) -> Result<Vec<Step>, AllocError>
    ensures { IfOk result (λ steps. steps.items ≡ chosen unknown (threaded items.now)) }
{
    let tests = find_tests(alloc, items)?;
    chosen_by(alloc, &tests, items)
}
