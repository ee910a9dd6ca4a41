// Which registers are live before a step, given those after it and a table of the labels.

ghost use Rattle.std.specs.Prelude.{◌≡◌, IfOk, ◌==◌, if◌then◌else◌, ℕ};
ghost use Rattle.cc_select.specs.Live.{live_move, live_item, live_before};
ghost use Rattle.cc_select.specs.Table.{nowhere, everywhere};
ghost use Rattle.cc_select.specs.internal.Sets.{holds, row_of, table_of, SameTable};

use crate::registers::{DESTROYED, RESULT, Registers};
use crate::step::Step;
use cc_linear_language::LinearItem;
use cc_ltl::Move;
use std::alloc::{AllocError, Global};

/// For each label, by its number, the registers that are live there; `rest` has those of every label past the rows.
#[derive(Drop)]
pub(crate) struct LiveTable {
    rows: Vec<Registers>,
    rest: Registers,
}

impl LiveTable {
    /// A table in which no register is live at any label.
    pub(crate) fn nowhere(alloc: Global) -> LiveTable
        ensures { SameTable (table_of result) nowhere }
    {
        LiveTable {
            rows: Vec::new(alloc),
            rest: Registers::none(),
        }
    }

    /// A table in which every register is live at every label.
    pub(crate) fn everywhere(alloc: Global) -> LiveTable
        ensures { SameTable (table_of result) everywhere }
    {
        LiveTable {
            rows: Vec::new(alloc),
            rest: Registers::all(),
        }
    }

    /// The registers that are live at a label.
    pub(crate) fn row(&self, label: u32) -> Registers
        ensures { result ≡ row_of self.now label }
    {
        match self.rows.get(label as usize) {
            Some(row) => *row,
            None => self.rest,
        }
    }

    /// Sets the registers that are live at a label. If memory runs out, everything stays as it was.
    pub(crate) fn put(&mut self, label: u32, row: Registers) -> Result<(), AllocError>
        ensures { IfOk result (λ _. (l : ℕ) → row_of self.new l ≡ (if label == l then row else row_of self.old l)) }
    {
        let at = label as usize;
        if self.rows.len() <= at {
            self.rows.resize(at + 1, self.rest)?;
        }
        self.rows[at] = row;
        Ok(())
    }
}

// The registers that are live before a move.
fn live_move(between: Move, behind: Registers) -> Registers
    ensures { holds result ≡ live_move between (holds behind) }
{
    match between {
        Move::Between { to, from } => behind.without(to.number()).with(from.number()),
        Move::Reload { to, .. } => behind.without(to.number()),
        Move::Spill { from, .. } => behind.with(from.number()),
    }
}

// The registers that are live before an item.
fn live_item(item: &LinearItem, table: &LiveTable, behind: Registers) -> Registers
    ensures { holds result ≡ live_item item.now (table_of table.now) (holds behind) }
{
    match *item {
        LinearItem::Label { .. } => behind,
        LinearItem::Jump { to } => table.row(to),
        LinearItem::IfNonzero { from, to } | LinearItem::IfZero { from, to } => {
            table.row(to).or(behind).with(from.number())
        }
        LinearItem::Copy { between } => live_move(between, behind),
        LinearItem::Const { to, .. } => behind.without(to.number()),
        LinearItem::Unary { to, from, .. } => behind.without(to.number()).with(from.number()),
        LinearItem::Binary {
            to,
            left,
            right,
            ..
        } => {
            behind
                .without(to.number())
                .with(right.number())
                .with(left.number())
        }
        LinearItem::Load { to, index, .. } => behind.without(to.number()).with(index.number()),
        LinearItem::Store { index, from, .. } => behind.with(from.number()).with(index.number()),
        LinearItem::Call { .. } => behind.before_call(),
        LinearItem::Read => behind.without(DESTROYED).without(RESULT),
        LinearItem::Write => behind.without(DESTROYED).with(RESULT),
        LinearItem::Return => Registers::result(),
    }
}

/// The registers that are live before a step.
pub(crate) fn live_before(step: &Step, table: &LiveTable, behind: Registers) -> Registers
    ensures { holds result ≡ live_before step.now (table_of table.now) (holds behind) }
{
    match step {
        Step::One(item) => live_item(item, table, behind),
        Step::Immediate { to, from, .. } => behind.without(to.number()).with(from.number()),
        Step::LoadAt { to, .. } => behind.without(to.number()),
        Step::StoreAt { from, .. } => behind.with(from.number()),
        Step::LoadNear { to, index, .. } => behind.without(to.number()).with(index.number()),
        Step::StoreNear { index, from, .. } => behind.with(from.number()).with(index.number()),
        Step::Branch {
            left,
            right,
            to,
            ..
        } => {
            table
                .row(*to)
                .or(behind)
                .with(right.number())
                .with(left.number())
        }
        Step::BranchImmediate { from, to, .. } => table.row(*to).or(behind).with(from.number()),
    }
}
