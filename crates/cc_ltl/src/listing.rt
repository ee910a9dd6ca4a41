// A function as text: a line with its slots and its entry, and a line for each block.

ghost use Rattle.std.specs.Prelude.{Some};
ghost use Rattle.cc_ltl.specs.Listing.{register_text, slot_text, move_text, operation_text, next_text, block_text, ltl_text};

use crate::block::Block;
use crate::location::{Register, Slot};
use crate::ltl::Ltl;
use crate::operation::{Move, Operation};
use std::fmt;

impl fmt::Display for Register {
    ghost output = { λ r. Some (register_text r) };

    fn fmt<W: fmt::Write>(&self, f: &mut fmt::Formatter<W>) -> fmt::Result {
        let number = self.number();
        write!(f, "x{number}")
    }
}

impl fmt::Display for Slot {
    ghost output = { λ s. Some (slot_text s) };

    fn fmt<W: fmt::Write>(&self, f: &mut fmt::Formatter<W>) -> fmt::Result {
        let number = self.number();
        write!(f, "slot{number}")
    }
}

/// The target, then what is moved to it: `x8 = slot0`.
impl fmt::Display for Move {
    ghost output = { λ m. Some (move_text m) };

    fn fmt<W: fmt::Write>(&self, f: &mut fmt::Formatter<W>) -> fmt::Result {
        match self {
            Move::Between { to, from } => write!(f, "{to} = {from}"),
            Move::Reload { to, slot } => write!(f, "{to} = {slot}"),
            Move::Spill { slot, from } => write!(f, "{slot} = {from}"),
        }
    }
}

/// The operation, without the blocks that come next: `x7 = sub x8, x9`, `x7 = object0[x8]`, `branch x7`.
impl fmt::Display for Operation {
    ghost output = { λ o. Some (operation_text o) };

    fn fmt<W: fmt::Write>(&self, f: &mut fmt::Formatter<W>) -> fmt::Result {
        match self {
            Operation::Nop { .. } => write!(f, "nop"),
            Operation::Const { to, word, .. } => write!(f, "{to} = {word}"),
            Operation::Unary {
                operator,
                to,
                from,
                ..
            } => {
                let name = operator.name();
                write!(f, "{to} = {name} {from}")
            }
            Operation::Binary {
                operator,
                to,
                left,
                right,
                ..
            } => {
                let name = operator.name();
                write!(f, "{to} = {name} {left}, {right}")
            }
            Operation::Load {
                width,
                object,
                to,
                index,
                ..
            } => {
                let mark = width.mark();
                write!(f, "{to} = {mark}object{object}[{index}]")
            }
            Operation::Store {
                width,
                object,
                index,
                from,
                ..
            } => {
                let mark = width.mark();
                write!(f, "{mark}object{object}[{index}] = {from}")
            }
            Operation::Call { function, .. } => write!(f, "call {function}"),
            Operation::Read { .. } => write!(f, "read"),
            Operation::Write { .. } => write!(f, "write"),
            Operation::Branch { from, .. } => write!(f, "branch {from}"),
            Operation::Return => write!(f, "return"),
        }
    }
}

// The labels of the blocks that come next.
#[derive(Clone, Copy)]
struct Next(Operation);

impl fmt::Display for Next {
    ghost output = { λ n. Some (next_text n.0) };

    fn fmt<W: fmt::Write>(&self, f: &mut fmt::Formatter<W>) -> fmt::Result {
        match &self.0 {
            Operation::Nop { next }
            | Operation::Const { next, .. }
            | Operation::Unary { next, .. }
            | Operation::Binary { next, .. }
            | Operation::Load { next, .. }
            | Operation::Store { next, .. }
            | Operation::Call { next, .. }
            | Operation::Read { next }
            | Operation::Write { next } => write!(f, " -> {next}"),
            Operation::Branch {
                if_nonzero,
                if_zero,
                ..
            } => write!(f, " -> {if_nonzero}, {if_zero}"),
            Operation::Return => Ok(()),
        }
    }
}

/// The label, then the moves and the operation in order, then the blocks that come next:
/// `3: x7 = slot0; x7 = neg x7; slot1 = x7 -> 4`.
impl fmt::Display for Block {
    ghost output = { λ b. Some (block_text b) };

    #[tactic(auto, unfolding(crate::specs::Listing::block_text))]
    fn fmt<W: fmt::Write>(&self, f: &mut fmt::Formatter<W>) -> fmt::Result {
        let (label, operation) = (self.label, self.operation);
        write!(f, "{label}: ")?;
        for before in self.before.moves() {
            write!(f, "{before}; ")?;
        }
        write!(f, "{operation}")?;
        for after in self.after.moves() {
            write!(f, "; {after}")?;
        }
        let next = Next(operation);
        write!(f, "{next}")
    }
}

/// The listing: a line with the number of slots and the entry, and a line for each block.
impl fmt::Display for Ltl {
    ghost output = { λ l. Some (ltl_text l) };

    fn fmt<W: fmt::Write>(&self, f: &mut fmt::Formatter<W>) -> fmt::Result {
        let (slots, entry) = (self.slots(), self.entry());
        write!(f, "slots {slots}, entry {entry}\n")?;
        for block in self.blocks() {
            write!(f, "{block}\n")?;
        }
        Ok(())
    }
}
