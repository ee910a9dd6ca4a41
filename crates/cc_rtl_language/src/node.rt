// The nodes of RTL.

use cc_words::{Binary, Unary, Width};
use smallvec::SmallVec;

/// A node: a pseudo-register `to` that gets a word, the pseudo-registers that it reads, and the label of the next node.
#[derive(Drop)]
pub enum Node {
    /// Does nothing.
    Nop {
        next: u32,
    },
    Const {
        to: u32,
        word: u32,
        next: u32,
    },
    Move {
        to: u32,
        from: u32,
        next: u32,
    },
    Unary {
        operator: Unary,
        to: u32,
        from: u32,
        next: u32,
    },
    /// Goes wrong if the operator has no value.
    Binary {
        operator: Binary,
        to: u32,
        left: u32,
        right: u32,
        next: u32,
    },
    /// Reads an element of this width of an object; goes wrong if there is no such element, or the object's elements have another
    /// width.
    Load {
        width: Width,
        object: u32,
        to: u32,
        index: u32,
        next: u32,
    },
    /// Sets an element of this width of an object; goes wrong if there is no such element, or the object's elements have another
    /// width.
    Store {
        width: Width,
        object: u32,
        index: u32,
        from: u32,
        next: u32,
    },
    /// Calls a function. Its result goes into a pseudo-register or is dropped.
    Call {
        function: u32,
        arguments: SmallVec<u32, 8>,
        to: Option<u32>,
        next: u32,
    },
    /// Reads the next word of the input, or 0 if none is left.
    Read {
        to: u32,
        next: u32,
    },
    /// Appends a word to the output.
    Write {
        from: u32,
        next: u32,
    },
    /// Continues at one label if the word is not 0, at the other if it is 0.
    Branch {
        from: u32,
        if_nonzero: u32,
        if_zero: u32,
    },
    /// Ends the function with a word.
    Return {
        from: u32,
    },
}
