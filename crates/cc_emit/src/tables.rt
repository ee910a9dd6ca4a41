// The places of labels. A place is given as the number of items from the place to the end, so a table of labels is filled from the back,
// and each sum is known when it is needed. The first table counts each branch in its long form, and decides which branches are near. The
// second has the places with each branch at its final length.

ghost use Rattle.std.specs.Prelude.{◌≡◌, ◌≤◌, ◌<◌, ◌^◌, length, get_or, ℕ, List, [], ◌∷◌, false, IfOk};
ghost use Rattle.std.specs.List.{AllByRecursion};
ghost use Rattle.cc_select.specs.declared.step.Step.{Step as Shown};
ghost use Rattle.cc_select.specs.Selected.{labels};
ghost use Rattle.cc_emit.specs.Branches.{against_zero};
ghost use Rattle.cc_emit.specs.Emission.{access_size, known_access_size, word_branch_size, size_of_one, size, long_size, is_close, label_of_step};
ghost use Rattle.cc_emit.specs.internal.Behind.{near_behind, behind, branched_to, label_of, IsTable, ArePlaces, place_from};

use crate::addressed::{Addressed, Remembered};
use crate::condition::Condition;
use crate::constants::constant_size;
use crate::frame::Frame;
use crate::recipe::{Recipe, WordRecipe};
use cc_linear_language::LinearItem;
use cc_select::Step;
use cc_words::Width;
use std::alloc::{AllocError, Global};

/// The places of a function's labels, as the number of items from each label to the end: with each branch in its long form, and with each
/// branch at its final length. Also the number of items after the prologue with each branch in its long form, and the number of items of
/// the function's code.
#[derive(Drop)]
pub(crate) struct Places {
    first: Vec<usize>,
    second: Vec<usize>,
    long: usize,
    end: usize,
}

impl Places {
    /// The places of the labels below `count` in these steps. Err: memory ran out.
    pub(crate) fn new(
        alloc: Global,
        frame: &Frame,
        steps: &[Addressed],
        count: usize,
    ) -> Result<Places, AllocError>
        requires { length steps.now ≤ 2 ^ 59 }
        ensures places { IfOk result (λ p. ArePlaces frame.now steps.now p.first.items p.second.items p.end) }
        ensures long { IfOk result (λ p. p.long ≡ behind frame.now [] steps.now) }
        ensures labels { IfOk result (λ p. length p.first.items ≡ count) }
    {
        let (first, long) = table(alloc, frame, steps, count, &[])?;
        let (second, behind) = table(alloc, frame, steps, count, first.as_slice())?;
        let end = frame.prologue_size() + behind;
        Ok(Places {
            first,
            second,
            long,
            end,
        })
    }

    /// The number of items after the prologue, with each branch in its long form.
    pub(crate) fn long(&self) -> usize
        ensures { result ≡ self.now.long }
    {
        self.long
    }

    /// The number of items of the function's code.
    pub(crate) fn end(&self) -> usize
        ensures { result ≡ self.now.end }
    {
        self.end
    }

    /// Whether a branch to a label is near; `here` is the number of items from the branch to the end, with each branch in its long form.
    pub(crate) fn is_near(&self, here: usize, label: u32) -> bool
        ensures { result ≡ near_behind self.now.first.items here label }
    {
        is_near(self.first.as_slice(), here, label)
    }

    /// The place of a label, as the number of items before it.
    pub(crate) fn place(&self, label: u32) -> usize
        requires known { label < length self.now.second.items }
        requires within { get_or self.now.second.items label 0 ≤ self.now.end }
        ensures { result ≡ place_from self.now.second.items self.now.end label }
    {
        self.end - self.second[label as usize]
    }
}

/// A number above all labels of these steps.
pub(crate) fn label_count(code: &[Step]) -> usize
    ensures { AllByRecursion (λ label. label < result) (labels code.now) }
{
    let mut count = 0;
    for step in code {
        count = count.max(above_label(step));
    }
    count
}

// A step's label plus one; 0 if it is not a label.
fn above_label(step: &Step) -> usize
    ensures { (n : ℕ) (rest : List Shown) → result ≤ n → AllByRecursion (λ label. label < n) (labels rest) → AllByRecursion (λ label. label < n) (labels (step.now ∷ rest)) }
{
    match step {
        Step::One(LinearItem::Label { label }) => *label as usize + 1,
        _ => 0,
    }
}

// Whether two places are at most 1,023 items apart, so that a branch at `from`, or at the place after it, reaches `to`.
fn is_close(from: usize, to: usize) -> bool
    ensures { result ≡ is_close from to }
{
    if from <= to {
        to - from < 1024
    } else {
        from - to < 1024
    }
}

// Whether a branch to `label` is near; false if the first table does not have the label. `here` is the number of items from the branch to
// the end.
fn is_near(first: &[usize], here: usize, label: u32) -> bool
    ensures { result ≡ near_behind first.now here label }
{
    match first.get(label as usize) {
        Some(there) => is_close(*there, here),
        None => false,
    }
}

/// The number of items of an access to an element whose number is in a register.
pub(crate) fn access_size(known: Remembered, width: Width) -> usize
    ensures answer { result ≡ access_size known width }
    ensures few { result ≤ 4 }
{
    match (known, width) {
        (Remembered::Nothing, Width::Byte) => 3,
        (Remembered::Nothing, Width::Word) => 4,
        (Remembered::Upper | Remembered::ByPointer, Width::Byte) => 2,
        (Remembered::Upper | Remembered::ByPointer, Width::Word) => 3,
        (Remembered::Element | Remembered::ElementByPointer, _) => 1,
    }
}

/// The number of items of an access to an element whose number is known.
pub(crate) fn known_access_size(known: Remembered) -> usize
    ensures answer { result ≡ known_access_size known }
    ensures few { result ≤ 2 }
{
    match known {
        Remembered::Nothing => 2,
        Remembered::Upper
        | Remembered::Element
        | Remembered::ByPointer
        | Remembered::ElementByPointer => 1,
    }
}

// The number of items that an item of Linear needs if each branch is long: at most 15.
fn long_size_of_one(frame: &Frame, known: Remembered, item: &LinearItem) -> usize
    ensures answer { result ≡ size_of_one frame.now (λ label. false) known item.now }
    ensures few { result ≤ 15 }
{
    match item {
        LinearItem::Label { .. } => 0,
        LinearItem::Jump { .. }
        | LinearItem::Copy { .. }
        | LinearItem::Unary { .. }
        | LinearItem::Call { .. } => 1,
        LinearItem::IfNonzero { .. }
        | LinearItem::IfZero { .. }
        | LinearItem::Read
        | LinearItem::Write => 2,
        LinearItem::Const { word, .. } => constant_size(*word),
        LinearItem::Binary { operator, .. } => Recipe::of(*operator).size(),
        LinearItem::Load { width, .. } | LinearItem::Store { width, .. } => {
            access_size(known, *width)
        }
        LinearItem::Return => frame.saved().len() + frame.moves() + 1,
    }
}

// The number of items that a long branch on a register and a word needs: 2 or 3.
fn long_word_branch_size(recipe: WordRecipe, from: u8) -> usize
    requires { from < 32 }
    ensures answer { result ≡ word_branch_size (against_zero recipe from) false }
    ensures few { result ≤ 3 }
{
    match Condition::against_zero(recipe, from) {
        Some(_) => 2,
        None => 3,
    }
}

/// The number of items that a step needs if each branch is long: at most 15.
pub(crate) fn long_size(frame: &Frame, step: &Addressed) -> usize
    ensures answer { result ≡ long_size frame.now step.now }
    ensures few { result ≤ 15 }
{
    match &step.step {
        Step::One(item) => long_size_of_one(frame, step.known, item),
        Step::Immediate { operator, word, .. } => WordRecipe::of(*operator, *word).size(),
        Step::LoadAt { .. } | Step::StoreAt { .. } => known_access_size(step.known),
        Step::LoadNear { width, .. } | Step::StoreNear { width, .. } => {
            access_size(step.known, *width)
        }
        Step::Branch { .. } => 2,
        Step::BranchImmediate {
            operator,
            from,
            word,
            ..
        } => long_word_branch_size(WordRecipe::of(*operator, *word), from.number()),
    }
}

// The number of items of a step: `long`, which is the number if each branch is long, or one less if the step is a near branch. `here` is
// the number of items from the step to the end.
fn size(frame: &Frame, first: &[usize], here: usize, long: usize, step: &Addressed) -> usize
    requires long { long ≡ long_size frame.now step.now }
    requires few { long ≤ 15 }
    ensures answer { result ≡ size frame.now (near_behind first.now here) step.now }
    ensures few { result ≤ 15 }
{
    match branched_to(step) {
        Some(to) if is_near(first, here, to) => long - 1,
        _ => long,
    }
}

// The label to which a step branches, if it is a branch.
fn branched_to(step: &Addressed) -> Option<u32>
    ensures { result ≡ branched_to step.now }
{
    match &step.step {
        Step::One(LinearItem::IfNonzero { to, .. } | LinearItem::IfZero { to, .. })
        | Step::Branch { to, .. }
        | Step::BranchImmediate { to, .. } => Some(*to),
        _ => None,
    }
}

/// The label, if the step is a label.
pub(crate) fn label_of_step(step: &Step) -> Option<u32>
    ensures { result ≡ label_of_step step.now }
{
    match step {
        Step::One(LinearItem::Label { label }) => Some(*label),
        _ => None,
    }
}

fn label_of(step: &Addressed) -> Option<u32>
    ensures { result ≡ label_of step.now }
{
    label_of_step(&step.step)
}

// A table of the labels below `count`, and the number of all items; `first` says which branches are near.
fn table(
    alloc: Global,
    frame: &Frame,
    steps: &[Addressed],
    count: usize,
    first: &[usize],
) -> Result<(Vec<usize>, usize), AllocError>
    requires { length steps.now ≤ 2 ^ 59 }
    ensures table { IfOk result (λ t. IsTable frame.now first.now steps.now count t.0.items) }
    ensures whole { IfOk result (λ t. t.1 ≡ behind frame.now first.now steps.now) }
    ensures few { IfOk result (λ t. t.1 < 2 ^ 63) }
{
    let mut labels = vec![in alloc; 0; count]?;
    let mut here = 0;
    let mut behind = 0;
    let mut at = steps.len();
    while at > 0 {
        at -= 1;
        let step = &steps[at];
        let long = long_size(frame, step);
        here += long;
        behind += size(frame, first, here, long, step);
        if let Some(label) = label_of(step) {
            if (label as usize) < labels.len() {
                labels[label as usize] = behind;
            }
        }
    }
    Ok((labels, behind))
}
