// From LTL to Linear.

ghost use Rattle.std.specs.Prelude.{◌≡◌, IfOk};
ghost use Rattle.cc_validate.specs.Pair.{IsGraph};
ghost use Rattle.cc_linear.specs.Targets.{NoneIdle};
ghost use Rattle.cc_linear.specs.internal.Whole.{IsMadeOf};

use crate::idle::without_idle;
use crate::layout::lay_out;
use crate::places::labels;
use crate::tables::{end_of, graph, next_places};
use crate::tracing::ends::chain_ends;
use crate::tracing::order::order;
use cc_linear_language::{LinearItem, LinearPair};
use cc_ltl::Ltl;
use cc_validate::LtlPair;
use std::alloc::{AllocError, Global};

// The items of a function's blocks.
fn items_of(alloc: Global, ltl: &Ltl) -> Result<Vec<LinearItem>, AllocError>
    requires { IsGraph ltl.now }
    ensures { IfOk result (λ items. IsMadeOf ltl.now items.items) }
{
    let blocks = ltl.blocks();
    let names = labels(alloc, blocks)?;
    let labels = names.as_slice();
    let nexts = next_places(alloc, labels, blocks)?;
    let table = chain_ends(alloc, &nexts)?;
    let ends = table.as_slice();
    let graph = graph(alloc, labels, ends, blocks)?;
    let entry = end_of(labels, ends, ltl.entry());
    let order = order(alloc, &graph, entry)?;
    let items = lay_out(alloc, labels, ends, blocks, ltl.entry(), &order)?;
    without_idle(alloc, &items)
}

/// The Linear of a function. Chains of empty blocks are passed over; an endless cycle of them stays an endless jump. In the chosen order a
/// loop's test is at the loop's bottom and a branch falls through to its likely successor, so one turn of a loop executes one branch and no
/// jump. Unreachable blocks are left out, and so is each label to which nothing leads. The pair keeps the LTL as well.
///
/// Fails with `AllocError` if memory runs out; the pair is then dropped.
pub fn linearise(alloc: Global, pair: LtlPair) -> Result<LinearPair, AllocError>
    ensures mode { IfOk result (λ made. made.mode ≡ pair.mode) }
    ensures unit { IfOk result (λ made. made.unit ≡ pair.unit) }
    ensures function { IfOk result (λ made. made.function ≡ pair.function) }
    ensures ltl { IfOk result (λ made. made.ltl ≡ pair.ltl) }
    ensures labels { IfOk result (λ made. NoneIdle made.code) }
{
    let mode = pair.mode();
    let function = pair.function();
    let code = items_of(alloc, pair.code())?;
    let (unit, ltl) = pair.into_parts();
    Ok(LinearPair::new(mode, unit, function, ltl, code))
}
