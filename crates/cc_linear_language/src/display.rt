// A function as text: its number and its slots, and a line for each item.

use crate::item::LinearItem;
use crate::pair::LinearPair;
use cc_ltl::Operation;
use std::fmt;

// The operation of LTL that does what an item does, if there is one.
fn operation_of(item: LinearItem) -> Option<Operation> {
    let next = 0;
    match item {
        LinearItem::Const { to, word } => Some(Operation::Const { to, word, next }),
        LinearItem::Unary { operator, to, from } => Some(Operation::Unary {
            operator,
            to,
            from,
            next,
        }),
        LinearItem::Binary {
            operator,
            to,
            left,
            right,
        } => Some(Operation::Binary {
            operator,
            to,
            left,
            right,
            next,
        }),
        LinearItem::Load {
            width,
            object,
            to,
            index,
        } => Some(Operation::Load {
            width,
            object,
            to,
            index,
            next,
        }),
        LinearItem::Store {
            width,
            object,
            index,
            from,
        } => Some(Operation::Store {
            width,
            object,
            index,
            from,
            next,
        }),
        LinearItem::Call { function } => Some(Operation::Call { function, next }),
        LinearItem::Read => Some(Operation::Read { next }),
        LinearItem::Write => Some(Operation::Write { next }),
        LinearItem::Return => Some(Operation::Return),
        LinearItem::Label { .. }
        | LinearItem::Jump { .. }
        | LinearItem::IfNonzero { .. }
        | LinearItem::IfZero { .. }
        | LinearItem::Copy { .. } => None,
    }
}

/// A label is `3:`, a jump `jump 3`, a branch `branch x7 != 0 -> 3` or `branch x7 == 0 -> 3`, a move `x8 = slot0`. An operation is as in
/// LTL: `x7 = sub x8, x9`, `x7 = object0[x8]`, `call 3`, `return`.
impl fmt::Display for LinearItem {
    fn fmt<W: fmt::Write>(&self, f: &mut fmt::Formatter<W>) -> fmt::Result {
        match self {
            LinearItem::Label { label } => write!(f, "{label}:"),
            LinearItem::Jump { to } => write!(f, "jump {to}"),
            LinearItem::IfNonzero { from, to } => write!(f, "branch {from} != 0 -> {to}"),
            LinearItem::IfZero { from, to } => write!(f, "branch {from} == 0 -> {to}"),
            LinearItem::Copy { between } => write!(f, "{between}"),
            _ => match operation_of(*self) {
                Some(operation) => write!(f, "{operation}"),
                None => Ok(()),
            },
        }
    }
}

/// The listing: a line with the function's number and its number of slots, and a line for each item. All items but labels are indented.
impl fmt::Display for LinearPair {
    fn fmt<W: fmt::Write>(&self, f: &mut fmt::Formatter<W>) -> fmt::Result {
        let function = self.function();
        let slots = self.slots();
        writeln!(f, "f{function} slots {slots}")?;
        for item in self.code() {
            match item {
                LinearItem::Label { .. } => writeln!(f, "{item}")?,
                _ => writeln!(f, "  {item}")?,
            }
        }
        Ok(())
    }
}
