// The items of a block's parts. One call writes moves and the item after them, so that no caller leaves the moves out.

ghost use Rattle.std.specs.Prelude.{◌≡◌, ◌++◌, [], ◌∷◌, cond, OnOk};
ghost use Rattle.cc_linear_language.specs.declared.item.LinearItem.TheVariants.{Jump};
ghost use Rattle.cc_linear.specs.internal.Lays.{moves_then, operation_then};
ghost use Rattle.cc_linear.specs.internal.Layout.{leads, is_empty, branch_then};
ghost use Rattle.cc_linear.specs.internal.Places.{listed, listed_items};

use crate::places::does_nothing;
use cc_linear_language::LinearItem;
use cc_ltl::{Block, Move, Operation, Register};
use std::alloc::AllocError;

/// Appends moves, and an item after them, if there is one. Err: memory ran out.
pub fn put(
    items: &mut Vec<LinearItem>,
    moves: &[Move],
    item: Option<LinearItem>,
) -> Result<(), AllocError>
    ensures { OnOk result (items.new.items ≡ items.old.items ++ (moves_then moves.now [] ++ listed_items item)) }
{
    for between in moves {
        items.push(LinearItem::Copy { between: *between })?;
    }
    if let Some(item) = item {
        items.push(item)?;
    }
    Ok(())
}

/// The item of an operation, without its next labels; None for a nop or a branch.
pub fn item_of(operation: &Operation) -> Option<LinearItem>
    ensures { operation_then operation.now [] ≡ listed_items result }
{
    match *operation {
        Operation::Nop { .. } | Operation::Branch { .. } => None,
        Operation::Const { to, word, .. } => Some(LinearItem::Const { to, word }),
        Operation::Unary {
            operator,
            to,
            from,
            ..
        } => Some(LinearItem::Unary { operator, to, from }),
        Operation::Binary {
            operator,
            to,
            left,
            right,
            ..
        } => Some(LinearItem::Binary {
            operator,
            to,
            left,
            right,
        }),
        Operation::Load {
            width,
            object,
            to,
            index,
            ..
        } => Some(LinearItem::Load {
            width,
            object,
            to,
            index,
        }),
        Operation::Store {
            width,
            object,
            index,
            from,
            ..
        } => Some(LinearItem::Store {
            width,
            object,
            index,
            from,
        }),
        Operation::Call { function, .. } => Some(LinearItem::Call { function }),
        Operation::Read { .. } => Some(LinearItem::Read),
        Operation::Write { .. } => Some(LinearItem::Write),
        Operation::Return => Some(LinearItem::Return),
    }
}

/// A jump to a label, unless the label comes next.
pub fn way(to: u32, following: Option<u32>) -> Option<LinearItem>
    ensures { listed_items result ≡ leads to (listed following) [] }
{
    match following {
        Some(label) if label == to => None,
        _ => Some(LinearItem::Jump { to }),
    }
}

/// A branch that falls through to whichever successor comes next, followed by a jump if neither does.
pub fn branch(
    from: Register,
    nonzero: u32,
    zero: u32,
    following: Option<u32>,
) -> (LinearItem, Option<LinearItem>)
    ensures { result.0 ∷ listed_items result.1 ≡ branch_then (λ l. l) from nonzero zero (listed following) [] }
{
    match following {
        Some(label) if label == nonzero => (LinearItem::IfZero { from, to: zero }, None),
        _ => (
            LinearItem::IfNonzero { from, to: nonzero },
            way(zero, following),
        ),
    }
}

/// The item after a block's operation and moves. An empty block that was not passed over is an endless cycle, so its jump is never left
/// out.
pub fn end_item(block: &Block, to: u32, following: Option<u32>) -> Option<LinearItem>
    ensures { listed_items result ≡ cond (is_empty block.now) (Jump to ∷ []) (leads to (listed following) []) }
{
    if does_nothing(block) {
        return Some(LinearItem::Jump { to });
    }
    way(to, following)
}
