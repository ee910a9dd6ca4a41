// The syntax tree. It contains the offset of each token that a fault may name, and has a node for each pair of parentheses, so
// that a list of tokens spells at most one tree.

use cc_tokens::Scalar;

/// A unary operator: `+`, `-`, `~`, `!` (C99 6.5.3.3).
#[derive(Clone, Copy)]
pub enum UnaryOperator {
    Plus,
    Minus,
    Complement,
    Not,
}

// ORDER BinaryOperator
/// A binary operator (C99 6.5.5 to 6.5.14). `And`, `Xor` and `Or` work bit by bit. `LogicalAnd` and `LogicalOr` are `&&` and
/// `||`, which evaluate their right operand only if they need it.
#[derive(Clone, Copy)]
pub enum BinaryOperator {
    Multiply,
    Divide,
    Remainder,
    Add,
    Subtract,
    ShiftLeft,
    ShiftRight,
    Less,
    Greater,
    LessOrEqual,
    GreaterOrEqual,
    Equal,
    NotEqual,
    And,
    Xor,
    Or,
    LogicalAnd,
    LogicalOr,
}

/// An assignment operator (C99 6.5.16): `=`, or one that applies a binary operator to the old value first.
#[derive(Clone, Copy)]
pub enum AssignmentOperator {
    Plain,
    Multiply,
    Divide,
    Remainder,
    Add,
    Subtract,
    ShiftLeft,
    ShiftRight,
    And,
    Xor,
    Or,
}

/// `++` or `--`, before or after its operand (C99 6.5.2.4, 6.5.3.1).
#[derive(Clone, Copy)]
pub enum StepOperator {
    Increment,
    Decrement,
}

/// An identifier: its bytes, and the offset of its first byte in the text.
#[derive(Drop)]
pub struct Identifier {
    pub bytes: Vec<u8>,
    pub at: usize,
}

/// An expression (C99 6.5).
#[derive(Drop)]
pub enum Expression {
    /// A constant: its type and its value.
    Number(Scalar, u32),
    Name(Identifier),
    /// An element: the array's name, and the index.
    Element(Identifier, Box<Expression>),
    /// A call: the function's name, and the arguments.
    Call(Identifier, Vec<Expression>),
    Parenthesised(Box<Expression>),
    Unary(UnaryOperator, Box<Expression>),
    Cast(Scalar, Box<Expression>),
    Binary(BinaryOperator, Box<Expression>, Box<Expression>),
    /// `test ? then : otherwise`.
    Conditional(Box<Expression>, Box<Expression>, Box<Expression>),
}

/// What an assignment writes to: a variable, or an element of an array with its index.
#[derive(Drop)]
pub enum Target {
    Variable(Identifier),
    Element(Identifier, Box<Expression>),
}

/// What an expression statement or a part of a `for` header does: it assigns, increments or decrements, or evaluates an
/// expression whose value is not used (C99 6.8.3).
#[derive(Drop)]
pub enum Action {
    Assign(AssignmentOperator, Target, Box<Expression>),
    Step(StepOperator, Target),
    Evaluate(Box<Expression>),
}

/// One name in a declaration of locals, with its initialiser if it has one (C99 6.7).
#[derive(Drop)]
pub struct Declarator {
    pub name: Identifier,
    pub initial: Option<Box<Expression>>,
}

/// The first part of a `for` header: a declaration of locals, or an action that may be absent (C99 6.8.5.3).
#[derive(Drop)]
pub enum Beginning {
    Declaration(Scalar, Vec<Declarator>),
    Action(Option<Action>),
}

/// A statement, or a declaration of locals (C99 6.8).
#[derive(Drop)]
pub enum Statement {
    Block(Vec<Statement>),
    Local(Scalar, Vec<Declarator>),
    /// An expression statement; `None` if there is only a semicolon.
    Perform(Option<Action>),
    /// `return`: the offset of the keyword, and the value if there is one.
    Return(usize, Option<Box<Expression>>),
    /// `break`: the offset of the keyword.
    Break(usize),
    /// `continue`: the offset of the keyword.
    Continue(usize),
    If(Box<Expression>, Box<Statement>),
    IfElse(Box<Expression>, Box<Statement>, Box<Statement>),
    While(Box<Expression>, Box<Statement>),
    DoWhile(Box<Statement>, Box<Expression>),
    /// `for`: the first part, the condition if there is one, the action after each turn if there is one, and the body.
    For(Box<Beginning>, Option<Box<Expression>>, Option<Action>, Box<Statement>),
}

/// A constant expression (C99 6.6), and the offset of its first token in the text.
#[derive(Drop)]
pub struct ConstantExpression {
    pub at: usize,
    pub expression: Box<Expression>,
}

/// A parameter of a function. Only a declaration may omit the parameter's name (C99 6.7.5.3).
#[derive(Drop)]
pub struct Parameter {
    pub scalar: Scalar,
    pub name: Option<Identifier>,
}

/// The head of a function's declaration or definition: its result type (`None` for `void`), its name, and its parameters.
#[derive(Drop)]
pub struct Signature {
    pub result: Option<Scalar>,
    pub name: Identifier,
    pub parameters: Vec<Parameter>,
}

/// One name in a declaration of objects at file scope (C99 6.7, 6.9.2).
#[derive(Drop)]
pub enum Object {
    /// A single object, and its initialiser if it has one.
    Single(Identifier, Option<ConstantExpression>),
    /// An array: its length if given, and the values of its initialiser list (none if there is no list).
    Array(Identifier, Option<ConstantExpression>, Vec<ConstantExpression>),
    /// An array of `unsigned char`: its length and its values, as for `Array`.
    Bytes(Identifier, Option<ConstantExpression>, Vec<ConstantExpression>),
}

/// An external declaration (C99 6.9).
#[derive(Drop)]
pub enum External {
    /// The declaration of a function.
    Declaration(Signature),
    /// The definition of a function, and the statements of its body.
    Definition(Signature, Vec<Statement>),
    /// A declaration of objects of one type: `Unsigned` for arrays of `unsigned char`.
    Objects(Scalar, Vec<Object>),
}
