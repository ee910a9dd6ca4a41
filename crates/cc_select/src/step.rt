// The steps of a function: an item of Linear, an operation that contains a word or an element's number, or a branch that compares.

use cc_linear_language::LinearItem;
use cc_ltl::Register;
use cc_words::{Binary, Width};

/// The operators on a register and a word: those that need fewer instructions this way than with the word in a register, if
/// nothing else reads that register. `has_word` of `specs/Immediates.antt` says which words each can encode.
#[derive(Clone, Copy)]
pub enum WordOperator {
    Add,
    Sub,
    Shl,
    ShrS,
    ShrU,
    And,
    Or,
    Xor,
    Eq,
    Ne,
    LtS,
    LtU,
    LeS,
    LeU,
    /// The register's word is greater.
    GtS,
    GtU,
    /// The register's word is at least the other word.
    GeS,
    GeU,
}

/// One step of a function. `specs/Selected.antt` defines what it does.
#[derive(Clone, Copy)]
pub enum Step {
    /// An item of Linear.
    One(LinearItem),
    /// An operator on a register and a word.
    Immediate {
        operator: WordOperator,
        to: Register,
        from: Register,
        word: u32,
    },
    /// A load of the element with this number.
    LoadAt {
        width: Width,
        object: u32,
        to: Register,
        number: u32,
    },
    /// A store into the element with this number.
    StoreAt {
        width: Width,
        object: u32,
        number: u32,
        from: Register,
    },
    /// A load of the element whose number is a register's word plus a word.
    LoadNear {
        width: Width,
        object: u32,
        to: Register,
        index: Register,
        word: u32,
    },
    /// A store into the element whose number is a register's word plus a word.
    StoreNear {
        width: Width,
        object: u32,
        index: Register,
        word: u32,
        from: Register,
    },
    /// Goes on at a label if a comparison of two registers yields 1 (`nonzero`) or 0 (not `nonzero`), else at the next step.
    Branch {
        operator: Binary,
        nonzero: bool,
        left: Register,
        right: Register,
        to: u32,
    },
    /// Like `Branch`, for a register and a word.
    BranchImmediate {
        operator: WordOperator,
        nonzero: bool,
        from: Register,
        word: u32,
        to: u32,
    },
}
