// Loops: a step is in a loop if it is between a label and a later step that leads back to the label. For each label the code notes the
// position of the last such step, so it need not search the steps again.

ghost use Rattle.std.specs.Prelude.{◌≡◌, ◌<◌, ℕ, length, get_or, IfOk};
ghost use Rattle.cc_emit.specs.Emission.{label_of_step};
ghost use Rattle.cc_emit.specs.Scratch.{led_to, is_led};
ghost use Rattle.cc_emit.specs.internal.Loops.{AreLast, noted, later, reach_past};

use crate::tables::label_of_step;
use cc_linear_language::LinearItem;
use cc_select::Step;
use std::alloc::{AllocError, Global};

// The label to which a step may lead.
fn led_to(step: &Step) -> Option<u32>
    ensures { result ≡ led_to step.now }
{
    match step {
        Step::One(
            LinearItem::Jump { to }
            | LinearItem::IfNonzero { to, .. }
            | LinearItem::IfZero { to, .. },
        )
        | Step::Branch { to, .. }
        | Step::BranchImmediate { to, .. } => Some(*to),
        _ => None,
    }
}

// If a step leads to a label to which no later step leads, notes `at` for the label: the number of steps up to and including this one.
fn note(last: &mut Vec<usize>, step: &Step, at: usize)
    ensures long { length last.new.items ≡ length last.old.items }
    ensures each { (label : ℕ) → label < length last.old.items → get_or last.new.items label 0 ≡ noted (is_led (led_to step.now) label) (get_or last.old.items label 0) at }
{
    if let Some(label) = led_to(step) {
        let label = label as usize;
        if label < last.len() && last[label] == 0 {
            last[label] = at;
        }
    }
}

/// For each label below `count`, the number of steps up to and including the last one that leads to it; 0 if none does. Err: memory ran
/// out.
pub(crate) fn last_leads(
    alloc: Global,
    code: &[Step],
    count: usize,
) -> Result<Vec<usize>, AllocError>
    ensures { IfOk result (λ last. AreLast code.now count last.items) }
{
    let mut last = vec![in alloc; 0; count]?;
    let mut at = code.len();
    while at > 0 {
        note(&mut last, &code[at - 1], at);
        at -= 1;
    }
    Ok(last)
}

fn later(a: usize, b: usize) -> usize
    ensures { result ≡ later a b }
{
    if a < b { b } else { a }
}

/// The number of steps up to the last one that leads back to one of the labels up to and including `step`; `reach` is this number for
/// the labels before `step`.
pub(crate) fn reach_past(last: &[usize], reach: usize, step: &Step) -> usize
    ensures { result ≡ reach_past last.now (label_of_step step.now) reach }
{
    match label_of_step(step) {
        Some(label) => match last.get(label as usize) {
            Some(there) => later(reach, *there),
            None => reach,
        },
        None => reach,
    }
}
