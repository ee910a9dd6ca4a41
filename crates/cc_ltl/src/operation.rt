// What a block does: moves between locations, and one operation on registers.

use crate::location::{Register, Slot};
use cc_words::{Binary, Unary, Width};

// ORDER Operation
/// A word moves from one location to another. No word moves from slot to slot.
#[derive(Clone, Copy)]
pub enum Move {
    Between { to: Register, from: Register },
    Reload { to: Register, slot: Slot },
    Spill { slot: Slot, from: Register },
}

/// The operation of a block, and the label of the next block. A call takes its arguments in `x10` and the registers after it,
/// and leaves its result in `x10`. A read leaves its word in `x10`; a write and a return take theirs from `x10`.
#[derive(Clone, Copy)]
pub enum Operation {
    Nop {
        next: u32,
    },
    Const {
        to: Register,
        word: u32,
        next: u32,
    },
    Unary {
        operator: Unary,
        to: Register,
        from: Register,
        next: u32,
    },
    Binary {
        operator: Binary,
        to: Register,
        left: Register,
        right: Register,
        next: u32,
    },
    Load {
        width: Width,
        object: u32,
        to: Register,
        index: Register,
        next: u32,
    },
    Store {
        width: Width,
        object: u32,
        index: Register,
        from: Register,
        next: u32,
    },
    Call {
        function: u32,
        next: u32,
    },
    Read {
        next: u32,
    },
    Write {
        next: u32,
    },
    Branch {
        from: Register,
        if_nonzero: u32,
        if_zero: u32,
    },
    Return,
}
