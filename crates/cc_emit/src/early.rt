// What comes before a function's frame. A function may begin with operations on registers that a call destroys, followed by a test that
// leads to a label after which the function returns, with at most one such operation before the return. In such a function all of this
// comes before the frame is made, with the test reversed: the reversed test jumps over the return to the rest of the function.

ghost use Rattle.std.specs.Prelude.{◌≡◌, ◌≤◌, ◌+◌, ◌∷◌, ◌++◌, [], List, IfOk, IfSome, drop, take, length, option_map};
ghost use Rattle.cc_ltl.specs.Registers.{most_slots};
ghost use Rattle.cc_select.specs.declared.step.Step.{Step as Shown};
ghost use Rattle.cc_linear_language.specs.declared.item.LinearItem.TheVariants.{Label, Return};
ghost use Rattle.cc_select.specs.declared.step.Step.TheVariants.{One};
ghost use Rattle.cc_select.specs.Selected.{place};
ghost use Rattle.cc_emit.specs.Early.{is_lost, written_by, is_light, fork_of, is_return, last_of, ending, early_from, early};
ghost use Rattle.cc_emit.specs.Emission.{label_of_step};
ghost use Rattle.cc_emit.specs.Scratch.{is_led};
ghost use Rattle.cc_emit.specs.internal.Ahead.{listed, shown, with_before, early_test};

use crate::frame::frame_bytes;
use crate::tables::label_of_step;
use cc_linear_language::LinearItem;
use cc_ltl::Move;
use cc_select::Step;
use std::alloc::{AllocError, Global};

/// The steps before the frame, and how many of the function's steps they replace.
#[derive(Drop)]
pub(crate) struct Ahead {
    pub(crate) head: Vec<Step>,
    pub(crate) taken: usize,
}

/// A reversed test, and the label to which the original test leads.
#[derive(Clone, Copy)]
pub(crate) struct Fork {
    to: u32,
    turned: Step,
}

// Whether a call destroys a register, other than x5 and x6: x7, x10 to x17, x28 to x31.
fn is_lost(register: u8) -> bool
    ensures { result ≡ is_lost register }
{
    register == 7 || (10 <= register && register <= 17) || 28 <= register
}

// The register that a step writes, if the step is an operation on registers.
fn written_by(step: &Step) -> Option<u8>
    ensures { result ≡ written_by step.now }
{
    match step {
        Step::One(
            LinearItem::Copy {
                between: Move::Between { to, .. },
            }
            | LinearItem::Const { to, .. }
            | LinearItem::Unary { to, .. }
            | LinearItem::Binary { to, .. },
        )
        | Step::Immediate { to, .. } => Some(to.number()),
        _ => None,
    }
}

// Whether a step is an operation on registers that needs no frame.
fn is_light(step: &Step) -> bool
    ensures { result ≡ is_light step.now }
{
    match written_by(step) {
        Some(register) => is_lost(register),
        None => false,
    }
}

// If the step is a test: the reversed test, and the label to which the step leads.
fn fork_of(step: &Step) -> Option<Fork>
    ensures { result ≡ fork_of step.now }
{
    match *step {
        Step::One(LinearItem::IfNonzero { from, to }) => Some(Fork {
            to,
            turned: Step::One(LinearItem::IfZero { from, to }),
        }),
        Step::One(LinearItem::IfZero { from, to }) => Some(Fork {
            to,
            turned: Step::One(LinearItem::IfNonzero { from, to }),
        }),
        Step::Branch {
            operator,
            nonzero,
            left,
            right,
            to,
        } => Some(Fork {
            to,
            turned: Step::Branch {
                operator,
                nonzero: !nonzero,
                left,
                right,
                to,
            },
        }),
        Step::BranchImmediate {
            operator,
            nonzero,
            from,
            word,
            to,
        } => Some(Fork {
            to,
            turned: Step::BranchImmediate {
                operator,
                nonzero: !nonzero,
                from,
                word,
                to,
            },
        }),
        _ => None,
    }
}

fn is_return(step: &Step) -> bool
    ensures { result ≡ is_return step.now }
{
    matches!(step, Step::One(LinearItem::Return))
}

// Whether a step is this label.
fn is_label(step: &Step, label: u32) -> bool
    ensures { result ≡ is_led (label_of_step step.now) label }
{
    match label_of_step(step) {
        Some(here) => here == label,
        None => false,
    }
}

// The place of a label; the place after the last step, if the label does not occur.
fn place_of(code: &[Step], label: u32) -> usize
    ensures place { drop result code.now ≡ place code.now label }
    ensures within { result ≤ length code.now }
{
    let mut at = 0;
    while at < code.len() {
        if is_label(&code[at], label) {
            return at;
        }
        at += 1;
    }
    at
}

// What comes between a place and the return after it, if that is at most one light step.
fn last_of(code: &[Step], at: usize) -> Option<Option<Step>>
    ensures { option_map listed result ≡ last_of (drop at code.now) }
{
    if at >= code.len() {
        return None;
    }
    if is_return(&code[at]) {
        return Some(None);
    }
    if at + 1 >= code.len() {
        return None;
    }
    if is_light(&code[at]) && is_return(&code[at + 1]) {
        Some(Some(code[at]))
    } else {
        None
    }
}

// What comes between a label and the return after it, if that is at most one light step.
fn ending(code: &[Step], label: u32) -> Option<Option<Step>>
    ensures { option_map listed result ≡ ending (place code.now label) }
{
    let at = place_of(code, label);
    if at < code.len() {
        last_of(code, at + 1)
    } else {
        None
    }
}

// The number of light steps with which the code begins.
fn light_count(code: &[Step]) -> usize
    ensures within { result ≤ length code.now }
    ensures light { (all : List Shown) → early_from all code.now ≡ option_map (with_before (take result code.now)) (early_test all (drop result code.now)) }
{
    let mut count = 0;
    while count < code.len() {
        if !is_light(&code[count]) {
            return count;
        }
        count += 1;
    }
    count
}

// The steps before the frame: those of `before`, the reversed test, the return and the label.
fn head_of(alloc: Global, before: &[Step], fork: Fork) -> Result<Vec<Step>, AllocError>
    ensures { IfOk result (λ head. head.items ≡ before.now ++ (fork.turned ∷ One Return ∷ One (Label fork.to) ∷ [])) }
{
    let mut head = Vec::from_slice(alloc, before)?;
    head.push(fork.turned)?;
    head.push(Step::One(LinearItem::Return))?;
    head.push(Step::One(LinearItem::Label { label: fork.to }))?;
    Ok(head)
}

// The steps before the frame: those of `before`, the reversed test, one more step, the return and the label.
fn head_with(
    alloc: Global,
    before: &[Step],
    fork: Fork,
    last: Step,
) -> Result<Vec<Step>, AllocError>
    ensures { IfOk result (λ head. head.items ≡ before.now ++ (fork.turned ∷ last ∷ One Return ∷ One (Label fork.to) ∷ [])) }
{
    let mut head = Vec::from_slice(alloc, before)?;
    head.push(fork.turned)?;
    head.push(last)?;
    head.push(Step::One(LinearItem::Return))?;
    head.push(Step::One(LinearItem::Label { label: fork.to }))?;
    Ok(head)
}

// What comes before the frame, if anything does.
fn found(alloc: Global, code: &[Step]) -> Result<Option<Ahead>, AllocError>
    ensures found { IfOk result (λ found. option_map (shown code.now) found ≡ early_from code.now code.now) }
    ensures few { IfOk result (λ found. IfSome found (λ a. (a.taken ≤ length code.now) × (length a.head.items ≤ length code.now + 4))) }
{
    let count = light_count(code);
    if count >= code.len() {
        return Ok(None);
    }
    let Some(fork) = fork_of(&code[count]) else {
        return Ok(None);
    };
    let Some(last) = ending(code, fork.to) else {
        return Ok(None);
    };
    let before = &code[..count];
    let taken = count + 1;
    match last {
        Some(step) => {
            let head = head_with(alloc, before, fork, step)?;
            Ok(Some(Ahead { head, taken }))
        }
        None => {
            let head = head_of(alloc, before, fork)?;
            Ok(Some(Ahead { head, taken }))
        }
    }
}

/// What comes before the frame of a function with `slots` slots, if it has a frame and anything comes before it.
pub(crate) fn before_frame(
    alloc: Global,
    slots: u16,
    code: &[Step],
) -> Result<Option<Ahead>, AllocError>
    requires { slots ≤ most_slots }
    ensures found { IfOk result (λ found. option_map (shown code.now) found ≡ early slots code.now) }
    ensures few { IfOk result (λ found. IfSome found (λ a. (a.taken ≤ length code.now) × (length a.head.items ≤ length code.now + 4))) }
{
    if frame_bytes(alloc, slots, code)? == 0 {
        return Ok(None);
    }
    found(alloc, code)
}
