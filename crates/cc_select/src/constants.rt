// The steps without the constants that no step reads.

ghost use Rattle.std.specs.Prelude.{◌≡◌, length, IfOk};
ghost use Rattle.cc_select.specs.Live.{Registers as set};
ghost use Rattle.cc_select.specs.Table.{Table};
ghost use Rattle.cc_select.specs.Selection.{lean};
ghost use Rattle.cc_select.specs.internal.Sets.{holds, Same, AreBehind};
ghost use Rattle.cc_select.specs.internal.Passes.{stays};

use crate::registers::Registers;
use crate::step::Step;
use cc_linear_language::LinearItem;
use std::alloc::{AllocError, Global};

/// Steps, and what is live after each.
#[derive(Drop)]
pub(crate) struct Lean {
    pub(crate) steps: Vec<Step>,
    pub(crate) behind: Vec<Registers>,
}

// Whether a step stays, if these registers are live after it.
fn stays(step: &Step, behind: Registers) -> bool
    ensures { (s : set) → Same (holds behind) s → result ≡ stays step.now s }
{
    match step {
        Step::One(LinearItem::Const { to, .. }) => behind.has(to.number()),
        Step::Immediate { to, from, .. } => {
            behind.has(to.number()) || !behind.has(from.number())
        }
        _ => true,
    }
}

/// The steps that stay, given the registers that are live after each of them. Err: memory ran out.
pub(crate) fn without_unread(
    alloc: Global,
    steps: &[Step],
    behind: &[Registers],
) -> Result<Lean, AllocError>
    requires { length behind.now ≡ length steps.now }
    ensures long { IfOk result (λ l. length l.behind.items ≡ length l.steps.items) }
    ensures steps { IfOk result (λ l. (t : Table) → AreBehind t steps.now behind.now → l.steps.items ≡ lean t steps.now) }
    ensures behind { IfOk result (λ l. (t : Table) → AreBehind t steps.now behind.now → AreBehind t l.steps.items l.behind.items) }
{
    let mut kept = Vec::with_capacity(alloc, steps.len())?;
    let mut live = Vec::with_capacity(alloc, steps.len())?;
    for at in 0..steps.len() {
        let step = &steps[at];
        if stays(step, behind[at]) {
            kept.push_reserved(*step);
            live.push_reserved(behind[at]);
        }
    }
    Ok(Lean {
        steps: kept,
        behind: live,
    })
}
