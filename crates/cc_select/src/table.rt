// The table of labels. Each sweep goes over the steps from the back and notes what is live at labels, using what the last sweep
// found. The pass uses the first table in which a check finds, for each label, everything that is live at the label's place. If
// none of 32 sweeps yields such a table, everything counts as live at each label. The check notes what is live after each step,
// which the passes need.

ghost use Rattle.std.specs.Prelude.{◌≡◌, length, IfOk, true};
ghost use Rattle.cc_select.specs.Table.{Table, table, rows, fits};
ghost use Rattle.cc_select.specs.internal.Sets.{holds, table_of, SameTable, AreBehind};
ghost use Rattle.cc_select.specs.internal.Passes.{label_of, is_met};

use crate::live::{LiveTable, live_before};
use crate::registers::Registers;
use crate::step::Step;
use cc_linear_language::LinearItem;
use std::alloc::{AllocError, Global};

// There are at most this many sweeps.
const MOST_SWEEPS: u32 = 32;

/// The table of a function's steps, and what is live after each of them.
#[derive(Drop)]
pub(crate) struct Settled {
    pub(crate) table: LiveTable,
    pub(crate) behind: Vec<Registers>,
}

// The label, if the step is a label.
fn label_of(step: &Step) -> Option<u32>
    ensures { result ≡ label_of step.now }
{
    match step {
        Step::One(LinearItem::Label { label }) => Some(*label),
        _ => None,
    }
}

// One sweep.
fn sweep(table: &mut LiveTable, steps: &[Step]) -> Result<(), AllocError>
    ensures { IfOk result (λ _. (t : Table) → SameTable (table_of table.old) t → SameTable (table_of table.new) (rows t steps.now)) }
{
    let mut live = Registers::none();
    let mut at = steps.len();
    while at > 0 {
        at -= 1;
        let step = &steps[at];
        match label_of(step) {
            Some(label) => table.put(label, live)?,
            None => live = live_before(step, table, live),
        }
    }
    Ok(())
}

// If the step is a label, whether the label's row has everything that is live there.
fn is_met(table: &LiveTable, step: &Step, live: Registers) -> bool
    ensures { result ≡ is_met (table_of table.now) step.now (holds live) }
{
    match label_of(step) {
        Some(label) => live.lies_within(table.row(label)),
        None => true,
    }
}

// Whether each label's row has everything that is live there. If so, what is live after each step is noted.
fn fits(table: &LiveTable, steps: &[Step], behind: &mut Vec<Registers>) -> bool
    requires { length behind.old.items ≡ length steps.now }
    ensures long { length behind.new.items ≡ length steps.now }
    ensures answer { (t : Table) → SameTable (table_of table.now) t → result ≡ fits t steps.now }
    ensures behind { result ≡ true → (t : Table) → SameTable (table_of table.now) t → AreBehind t steps.now behind.new.items }
{
    let mut live = Registers::none();
    let mut at = steps.len();
    while at > 0 {
        at -= 1;
        behind[at] = live;
        let step = &steps[at];
        if !is_met(table, step, live) {
            return false;
        }
        live = live_before(step, table, live);
    }
    true
}

/// The table of these steps, and what is live after each. Err: memory ran out.
#[tactic(auto, unfolding(crate::specs::Table::table))]
pub(crate) fn settle(alloc: Global, steps: &[Step]) -> Result<Settled, AllocError>
    ensures table { IfOk result (λ s. SameTable (table_of s.table) (table steps.now)) }
    ensures long { IfOk result (λ s. length s.behind.items ≡ length steps.now) }
    ensures behind { IfOk result (λ s. AreBehind (table steps.now) steps.now s.behind.items) }
{
    let mut table = LiveTable::nowhere(alloc);
    let mut behind = vec![in alloc; Registers::none(); steps.len()]?;
    let mut left = MOST_SWEEPS;
    while left > 0 {
        left -= 1;
        sweep(&mut table, steps)?;
        if fits(&table, steps, &mut behind) {
            return Ok(Settled { table, behind });
        }
    }
    let table = LiveTable::everywhere(alloc);
    fits(&table, steps, &mut behind);
    Ok(Settled { table, behind })
}
