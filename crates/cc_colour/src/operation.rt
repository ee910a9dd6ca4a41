// The operation of LTL for a node, once its registers are chosen.

use crate::registers::{DUMMY, numbered};
use cc_ltl::{Operation, Register};
use cc_rtl_language::Node;

/// The registers of an operation: those of its operands, in order, and that of its result. An operand or result that it does not
/// have may be given any register.
#[derive(Clone, Copy)]
pub struct Used {
    pub first: Register,
    pub second: Register,
    pub to: Register,
}

/// Arbitrary registers, for a node without operands and without a result.
pub fn nothing_used() -> Used {
    let any = numbered(DUMMY);
    Used {
        first: any,
        second: any,
        to: any,
    }
}

/// The operation of a node with these registers.
pub fn operation_of(node: &Node, used: Used) -> Operation {
    match node {
        Node::Nop { next } | Node::Move { next, .. } => Operation::Nop { next: *next },
        Node::Const { word, next, .. } => Operation::Const {
            to: used.to,
            word: *word,
            next: *next,
        },
        Node::Unary { operator, next, .. } => Operation::Unary {
            operator: *operator,
            to: used.to,
            from: used.first,
            next: *next,
        },
        Node::Binary { operator, next, .. } => Operation::Binary {
            operator: *operator,
            to: used.to,
            left: used.first,
            right: used.second,
            next: *next,
        },
        Node::Load {
            width,
            object,
            next,
            ..
        } => Operation::Load {
            width: *width,
            object: *object,
            to: used.to,
            index: used.first,
            next: *next,
        },
        Node::Store {
            width,
            object,
            next,
            ..
        } => Operation::Store {
            width: *width,
            object: *object,
            index: used.first,
            from: used.second,
            next: *next,
        },
        Node::Call { function, next, .. } => Operation::Call {
            function: *function,
            next: *next,
        },
        Node::Read { next, .. } => Operation::Read { next: *next },
        Node::Write { next, .. } => Operation::Write { next: *next },
        Node::Branch {
            if_nonzero,
            if_zero,
            ..
        } => Operation::Branch {
            from: used.first,
            if_nonzero: *if_nonzero,
            if_zero: *if_zero,
        },
        Node::Return { .. } => Operation::Return,
    }
}
