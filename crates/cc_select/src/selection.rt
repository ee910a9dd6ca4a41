// The pass: it selects the steps of a pair of Linear.

ghost use Rattle.std.specs.Prelude.{◌≡◌, IfOk};
ghost use Rattle.cc_ast.specs.Source.{source};
ghost use Rattle.cc_types.specs.Typed.{IsWithinLimits};
ghost use Rattle.cc_select.specs.Selection.{trimmed, selected};

use crate::constants::without_unread;
use crate::fuse::fused;
use crate::near::nearer;
use crate::pair::SelectedPair;
use crate::step::Step;
use crate::table::settle;
use crate::threading::chosen;
use cc_linear_language::{LinearItem, LinearPair};
use cc_types::TypedUnit;
use std::alloc::{AllocError, Global};

// The steps without the constants that no step reads, and with comparisons and their tests joined.
fn trimmed(alloc: Global, steps: &[Step]) -> Result<Vec<Step>, AllocError>
    ensures { IfOk result (λ made. made.items ≡ trimmed steps.now) }
{
    let settled = settle(alloc, steps)?;
    let lean = without_unread(alloc, steps, settled.behind.as_slice())?;
    fused(
        alloc,
        &settled.table,
        lean.steps.as_slice(),
        lean.behind.as_slice(),
    )
}

// The steps of a function's items.
fn selected(alloc: Global, items: &[LinearItem]) -> Result<Vec<Step>, AllocError>
    ensures { IfOk result (λ made. made.items ≡ selected items.now) }
{
    let plain = chosen(alloc, items)?;
    let steps = nearer(alloc, plain.as_slice())?;
    trimmed(alloc, steps.as_slice())
}

// A typed unit is within the limits, so no function has more parameters than there are registers for them.
fn is_within_limits(unit: &TypedUnit)
    ensures { IsWithinLimits (source unit.now).externals }
{
    unit.externals();
}

/// The steps of a function of a unit, as `specs/Selection.antt` defines them: at most one for each item of Linear, and one more for each
/// jump. The answer's type keeps the fact that the run of the steps keeps up with the function. The pair has the LTL as well.
///
/// This fails only if memory runs out (40); the pair is then dropped.
pub fn select(alloc: Global, pair: LinearPair) -> Result<SelectedPair, AllocError>
    ensures mode { IfOk result (λ made. made.mode ≡ pair.mode) }
    ensures unit { IfOk result (λ made. made.unit ≡ pair.unit) }
    ensures function { IfOk result (λ made. made.function ≡ pair.function) }
    ensures ltl { IfOk result (λ made. made.ltl ≡ pair.ltl) }
    ensures code { IfOk result (λ made. made.code ≡ selected pair.code) }
{
    let steps = selected(alloc, pair.code())?;
    is_within_limits(pair.unit());
    let mode = pair.mode();
    let function = pair.function();
    let (unit, ltl) = pair.into_parts();
    Ok(SelectedPair::new(mode, unit, function, ltl, steps))
}
