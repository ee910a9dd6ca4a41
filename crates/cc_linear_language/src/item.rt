// The items of Linear: moves, operations on registers, labels, jumps and branches.

use cc_ltl::{Move, Register};
use cc_words::{Binary, Unary, Width};

/// One item of a function's list. A label is not a move of the run: at a label the next item is executed. A call takes its arguments in
/// `x10` and up and leaves its result in `x10`. A read leaves its word in `x10`; a write and a return take theirs from `x10`.
#[derive(Clone, Copy)]
pub enum LinearItem {
    /// A place to which jumps and branches lead.
    Label {
        label: u32,
    },
    /// Goes on at a label.
    Jump {
        to: u32,
    },
    /// Goes on at a label if the register is not 0, else at the next item.
    IfNonzero {
        from: Register,
        to: u32,
    },
    /// Goes on at a label if the register is 0, else at the next item.
    IfZero {
        from: Register,
        to: u32,
    },
    /// Moves a word from one location to another.
    Copy {
        between: Move,
    },
    Const {
        to: Register,
        word: u32,
    },
    Unary {
        operator: Unary,
        to: Register,
        from: Register,
    },
    Binary {
        operator: Binary,
        to: Register,
        left: Register,
        right: Register,
    },
    Load {
        width: Width,
        object: u32,
        to: Register,
        index: Register,
    },
    Store {
        width: Width,
        object: u32,
        index: Register,
        from: Register,
    },
    Call {
        function: u32,
    },
    Read,
    Write,
    Return,
}
