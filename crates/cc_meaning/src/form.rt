// The resolved form of a unit: one list of instructions over a stack of words, with numbers in place of names.
//
// The arguments of a call are the first variables of the called function, and stay on the stack as the caller left them. The
// other variables follow, and above them the words of unfinished expressions. A jump's number is how many instructions it skips
// after itself.

use cc_layout::Extent;
use cc_resolve::{BinaryOperation, UnaryOperation};

/// What is written to: a variable of the function, a word of the objects at file scope, or an element of an array.
#[derive(Clone, Copy)]
pub enum Slot {
    Local(usize),
    Global(usize),
    Element(Extent),
}

/// One step of an interpreter with a stack of words.
#[derive(Clone, Copy)]
pub enum Instruction {
    /// Pushes a word.
    Constant(u32),
    /// Pushes the word of a variable of the function.
    Local(usize),
    /// Pushes a word of the objects at file scope.
    Global(usize),
    /// Replaces an index with the array's element; goes wrong if the array has no such element.
    Element(Extent),
    /// Sets a variable to 0.
    Clear(usize),
    /// Pops a word and stores it in a variable of the function.
    SetLocal(usize),
    /// Pops a word and stores it in a word of the objects at file scope.
    SetGlobal(usize),
    /// Pops a word and the index below it, and stores the word in the array's element.
    SetElement(Extent),
    /// Pops a word (and, for an element, the index below it), and replaces the slot's old value with the operation's value for
    /// the old value and the word.
    Update(BinaryOperation, Slot),
    Unary(UnaryOperation),
    /// Replaces two words, the left one below the right one, with the operation's value.
    Binary(BinaryOperation),
    /// Removes a word.
    Drop,
    /// Replaces a word other than 0 with 1, and keeps 0.
    Truth,
    /// If the newest word is 0, keeps it and skips this many instructions; otherwise pops it.
    AndThen(usize),
    /// If the newest word is not 0, replaces it with 1 and skips this many instructions; otherwise pops it.
    OrElse(usize),
    /// Skips this many instructions.
    Jump(usize),
    /// Pops a word, and skips this many instructions if it is 0.
    JumpIfZero(usize),
    /// Pops a word, and if it is not 0, goes back over this many instructions and the current one.
    Repeat(usize),
    /// Spends a step; stops if none is left.
    Step,
    /// Calls the function with this number; functions are numbered in the order of their definitions.
    Call(usize),
    /// Pushes the next word of the input, or 0 if none is left.
    Read,
    /// Appends a word to the output, and replaces it with 0.
    Write,
    /// Returns from the function with a word.
    Return,
}

/// The index of a function's first instruction, how many parameters the function has, and how many other variables.
#[derive(Clone, Copy)]
pub struct Entry {
    pub start: usize,
    pub parameters: usize,
    pub variables: usize,
}

/// The resolved form of a unit: the instructions of all functions one after another, the functions in the order of their
/// definitions, the number of `main`, and the initial words of all objects one object after another.
#[derive(Drop)]
pub struct Form {
    pub code: Vec<Instruction>,
    pub functions: Vec<Entry>,
    pub main: usize,
    pub words: Vec<u32>,
}
