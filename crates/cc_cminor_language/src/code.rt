// The syntax of Cminor: numbered word variables, expressions without side effects, and structured statements.
//
// The tree of a definition's code is at most about 3,000 nodes deep, so dropping it, or walking it by recursion, needs less than
// a megabyte of stack. Each of the source's 64 levels of statements adds at most eight levels of Cminor, and each of the 512
// tokens of a full expression at most four; consecutive statements are in one list.

use cc_words::{Binary, Unary, Width};

/// An expression. It has no side effects. Its value is a word. It has no value if an operator in it has none, an index is outside
/// its object, or the object's elements have another width.
#[derive(Drop)]
pub enum Expression {
    /// A word.
    Constant(u32),
    /// The word of the variable with this number.
    Local(usize),
    Unary(Unary, Box<Expression>),
    Binary(Binary, Box<Expression>, Box<Expression>),
    /// An element of this width, of the object with this number, at the given index.
    Load(Width, usize, Box<Expression>),
}

/// A statement.
#[derive(Drop)]
pub enum Statement {
    Skip,
    /// Puts a value into a variable.
    Set(usize, Box<Expression>),
    /// Puts a value into an element of an object: the element's width, the object's number, the index, the value.
    Store(Width, usize, Box<Expression>, Box<Expression>),
    /// Calls a function: the variable for the result, if the result is used; the function's number; the arguments.
    Call(Option<usize>, usize, Vec<Expression>),
    /// Reads the next word of the input, or 0 if none is left, into the variable, if there is one.
    Read(Option<usize>),
    /// Appends a word to the output.
    Write(Box<Expression>),
    /// Runs the statements one after another.
    Sequence(Vec<Statement>),
    /// Runs the first statement if the value is not 0, else the second.
    If(Box<Expression>, Box<Statement>, Box<Statement>),
    /// Runs the statement again and again, for ever.
    Loop(Box<Statement>),
    /// A statement that an `Exit` within it may leave.
    Block(Box<Statement>),
    /// Leaves this many blocks and one more.
    Exit(usize),
    /// Ends the function with a value.
    Return(Box<Expression>),
}
