// Nearby elements. If the element number of an access was computed by adding a word to a register, and neither that register nor the
// sum's has changed since, the access is to the element whose number is the register's word plus the added word. So the sum need not be
// computed, and accesses to nearby elements share one register. Only the last such sum is known.

ghost use Rattle.std.specs.Prelude.{◌≡◌, IfOk, None};
ghost use Rattle.cc_select.specs.Near.{unless, summed, sum_item, sum_behind, sum_in, with_sum, near, nearer};
ghost use Rattle.cc_select.specs.declared.step.Step.TheVariants.{One, LoadNear, StoreNear};

use crate::registers::{DESTROYED, RESULT};
use crate::step::{Step, WordOperator};
use cc_linear_language::LinearItem;
use cc_ltl::{Move, Register};
use cc_words::{Width, sub};
use std::alloc::{AllocError, Global};

/// A register holds another register's word plus a word.
#[derive(Clone, Copy)]
pub(crate) struct Sum {
    to: Register,
    from: Register,
    word: u32,
}

// The known sum after register number `register` is written.
fn unless(register: u8, known: &Option<Sum>) -> Option<Sum>
    ensures { result ≡ unless register known.now }
{
    match known {
        Some(sum) => {
            if register == sum.to.number() || register == sum.from.number() {
                None
            } else {
                Some(*sum)
            }
        }
        None => None,
    }
}

// The known sum after a sum is written to a register.
fn summed(to: Register, from: Register, word: u32) -> Option<Sum>
    ensures { result ≡ summed to from word }
{
    if to.number() == from.number() {
        None
    } else {
        Some(Sum { to, from, word })
    }
}

// The known sum after an item of Linear.
fn sum_item(item: &LinearItem, known: &Option<Sum>) -> Option<Sum>
    ensures { result ≡ sum_item item.now known.now }
{
    match item {
        LinearItem::Label { .. }
        | LinearItem::Jump { .. }
        | LinearItem::Call { .. }
        | LinearItem::Return => None,
        LinearItem::Copy {
            between: Move::Between { to, .. } | Move::Reload { to, .. },
        }
        | LinearItem::Const { to, .. }
        | LinearItem::Unary { to, .. }
        | LinearItem::Binary { to, .. }
        | LinearItem::Load { to, .. } => unless(to.number(), known),
        LinearItem::Read => unless(RESULT, &unless(DESTROYED, known)),
        LinearItem::Write => unless(DESTROYED, known),
        LinearItem::IfNonzero { .. }
        | LinearItem::IfZero { .. }
        | LinearItem::Copy {
            between: Move::Spill { .. },
        }
        | LinearItem::Store { .. } => *known,
    }
}

// The known sum after a step.
fn sum_behind(step: &Step, known: &Option<Sum>) -> Option<Sum>
    ensures { result ≡ sum_behind step.now known.now }
{
    match step {
        Step::One(item) => sum_item(item, known),
        Step::Immediate {
            operator: WordOperator::Add,
            to,
            from,
            word,
        } => summed(*to, *from, *word),
        Step::Immediate {
            operator: WordOperator::Sub,
            to,
            from,
            word,
        } => summed(*to, *from, sub(0, *word)),
        Step::Immediate { to, .. } | Step::LoadAt { to, .. } | Step::LoadNear { to, .. } => {
            unless(to.number(), known)
        }
        Step::StoreAt { .. }
        | Step::StoreNear { .. }
        | Step::Branch { .. }
        | Step::BranchImmediate { .. } => *known,
    }
}

// The sum that a register holds, if it is known.
fn sum_in(known: &Option<Sum>, register: Register) -> Option<Sum>
    ensures { result ≡ sum_in known.now register }
{
    match known {
        Some(sum) => {
            if register.number() == sum.to.number() {
                Some(*sum)
            } else {
                None
            }
        }
        None => None,
    }
}

// A load from the element whose number is the sum, if the sum is known; else `other`.
fn near_load(sum: &Option<Sum>, width: Width, object: u32, to: Register, other: Step) -> Step
    ensures { result ≡ with_sum sum.now other (λ s. LoadNear width object to s.from s.word) }
{
    match sum {
        Some(sum) => Step::LoadNear {
            width,
            object,
            to,
            index: sum.from,
            word: sum.word,
        },
        None => other,
    }
}

// A store into the element whose number is the sum, if the sum is known; else `other`.
fn near_store(sum: &Option<Sum>, width: Width, object: u32, value: Register, other: Step) -> Step
    ensures { result ≡ with_sum sum.now other (λ s. StoreNear width object s.from s.word value) }
{
    match sum {
        Some(sum) => Step::StoreNear {
            width,
            object,
            index: sum.from,
            word: sum.word,
            from: value,
        },
        None => other,
    }
}

// The step for an item of Linear, given the sum that is known before it.
fn near_item(known: &Option<Sum>, item: LinearItem) -> Step
    ensures { result ≡ near known.now (One item) }
{
    match item {
        LinearItem::Load {
            width,
            object,
            to,
            index,
        } => near_load(&sum_in(known, index), width, object, to, Step::One(item)),
        LinearItem::Store {
            width,
            object,
            index,
            from,
        } => near_store(&sum_in(known, index), width, object, from, Step::One(item)),
        _ => Step::One(item),
    }
}

// The step that replaces `step`, given the sum that is known before it.
fn near(known: &Option<Sum>, step: Step) -> Step
    ensures { result ≡ near known.now step }
{
    match step {
        Step::One(item) => near_item(known, item),
        _ => step,
    }
}

/// The steps with accesses to nearby elements. Err: memory ran out.
pub(crate) fn nearer(alloc: Global, steps: &[Step]) -> Result<Vec<Step>, AllocError>
    ensures { IfOk result (λ made. made.items ≡ nearer None steps.now) }
{
    let mut made = Vec::with_capacity(alloc, steps.len())?;
    let mut known = None;
    for step in steps {
        made.push_reserved(near(&known, *step));
        known = sum_behind(step, &known);
    }
    Ok(made)
}
