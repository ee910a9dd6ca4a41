// The instructions into which a tree is translated for a second run; they work on a stack of words. Those that can go wrong
// contain their places in the text.

use cc_layout::Extent;
use cc_resolve::UnaryOperation;
use cc_syntax::{BinaryOperator, Identifier};
use cc_tokens::Scalar;

/// An array whose element is read or written, with the name in the text, the type of the index, and its value if it is constant.
#[derive(Clone, Copy)]
pub struct Element<'a> {
    pub array: &'a Identifier,
    pub extent: Extent,
    pub index: Scalar,
    pub constant: Option<u32>,
}

/// A binary operator, the offset of its token if it can go wrong, the type in which it works, and the type of its right operand, with
/// the operand's value if it is constant.
#[derive(Clone, Copy)]
pub struct TypedOperator {
    pub operator: BinaryOperator,
    pub at: usize,
    pub working: Scalar,
    pub right: Scalar,
    pub constant: Option<u32>,
}

/// One step of the replay. A jump goes to the instruction with the given number.
#[derive(Clone, Copy)]
pub enum Instruction<'a> {
    /// Pushes a word.
    Constant(u32),
    /// Pushes the word of a variable of the function.
    Local(usize),
    /// Pushes a word of the objects at file scope.
    Global(usize),
    /// Replaces an index with the array's element.
    Element(Element<'a>),
    /// Inserts the array's element between the newest word and the word below it, which is the element's index.
    ElementBelow(Element<'a>),
    /// Swaps the two newest words.
    Swap,
    /// Pops a word and stores it in a variable of the function.
    SetLocal(usize),
    /// Pops a word and stores it in a word of the objects at file scope.
    SetGlobal(usize),
    /// Pops a word and the index below it, and stores the word in the array's element.
    SetElement(Element<'a>),
    Unary(UnaryOperation),
    /// Replaces two words, the left one below the right one, with the operator's value.
    Binary(TypedOperator),
    /// Removes a word.
    Drop,
    /// Replaces a word other than 0 with 1, and keeps 0.
    Truth,
    /// If the word is 0, keeps it and jumps; otherwise removes it.
    AndThen(usize),
    /// If the word is not 0, replaces it with 1 and jumps; otherwise removes it.
    OrElse(usize),
    Jump(usize),
    /// Pops a word, and jumps if it is 0.
    JumpIfZero(usize),
    /// Spends a step.
    Step,
    /// Calls the function with this number, by the given name.
    Call(usize, &'a Identifier),
    /// Pushes the next word of the input, or 0 if none is left.
    Read,
    /// Writes a word to the output, and replaces it with 0.
    Write,
    /// Pops a word, and returns it from the function.
    Return,
}

/// A function: its name and, once it is defined, the number of its first instruction, and how many parameters and other
/// variables it has.
#[derive(Clone, Copy)]
pub struct Function<'a> {
    pub name: &'a Identifier,
    pub start: usize,
    pub parameters: usize,
    pub variables: usize,
}

/// The translation of a unit: the instructions of its functions, one function after another, and its functions in the order of
/// their first declarations.
#[derive(Drop)]
pub struct Bytecode<'a> {
    pub instructions: Vec<Instruction<'a>>,
    pub functions: Vec<Function<'a>>,
}

impl<'a> Bytecode<'a> {
    /// The number of the function with this name.
    pub fn function(&self, name: &[u8]) -> Option<usize> {
        self.functions
            .iter()
            .position(|function| function.name.bytes.as_slice() == name)
    }
}
