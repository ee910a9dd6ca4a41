// What the parser has read so far, and what may come next.

ghost use Rattle.std.specs.Prelude.{◌≡◌, [], Some};
ghost use Rattle.cc_ast.specs.Erase.{external_trees};
ghost use Rattle.cc_syntax.specs.internal.Parser.{AtFile, InBody, InFull, Operand, full_of, goes_on, begins_full, start};
ghost use Rattle.cc_syntax.specs.internal.ParserView.{parser_view, outer_of, body_view, stage_of, context_of, full_view, waiting_views, phase_view, Gives};

use crate::parser::count::Count;
use crate::parser::stop::Stop;
use cc_ast::{
    Action, AssignmentOperator, Beginning, BinaryOperator, ConstantExpression, Declarator,
    Expression, External, Identifier, Object, Signature, Statement, StepOperator, Target,
    UnaryOperator,
};
use cc_tokens::Scalar;
use std::alloc::Global;

/// A pending part of an expression: it awaits an operand on its right, or a closing token.
#[derive(Drop)]
pub enum Waiting {
    Parenthesis,
    Index(Identifier),
    /// A call, and the arguments so far.
    Arguments(Identifier, Vec<Expression>),
    Prefix(UnaryOperator),
    Cast(Scalar),
    Infix(BinaryOperator, Box<Expression>),
    /// A condition and its question mark.
    Then(Box<Expression>),
    /// A condition, the operand after its question mark, and the colon.
    Otherwise(Box<Expression>, Box<Expression>),
}

/// A statement that has begun and is not complete: a block awaits its end, and any other open statement awaits a statement.
#[derive(Drop)]
pub enum Open {
    Block(Vec<Statement>),
    Then(Box<Expression>),
    Else(Box<Expression>, Box<Statement>),
    While(Box<Expression>),
    Do,
    For(Box<Beginning>, Option<Box<Expression>>, Option<Action>),
}

/// What an action is: a statement, or the first or the last part of a `for` header.
#[derive(Drop)]
pub enum Spot {
    Statement,
    Start,
    Last(Box<Beginning>, Option<Box<Expression>>),
}

/// What a condition in parentheses belongs to.
#[derive(Drop)]
pub enum Test {
    If,
    While,
    /// `do`, with its body.
    Do(Box<Statement>),
}

/// What a declaration of locals belongs to: a block directly, or a `for` header.
#[derive(Clone, Copy)]
pub enum Position {
    Local,
    Header,
}

/// A declaration of locals so far: the complete locals, and a name. The same field holds the name after `++` or `--`.
#[derive(Drop)]
pub struct Locals {
    pub position: Position,
    pub scalar: Scalar,
    pub declarators: Vec<Declarator>,
    pub name: Identifier,
}

/// What a full expression in a function's body is a part of.
#[derive(Drop)]
pub enum Purpose {
    /// An action that begins with the expression, or consists of it.
    Perform,
    Assign(AssignmentOperator, Target),
    /// The index of an element that is incremented or decremented.
    Step(StepOperator),
    Return(usize),
    Test(Test),
    /// The condition of a `for`.
    Continue(Box<Beginning>),
    Initialise,
}

/// What a declaration of objects declares: objects of a type, or arrays of `unsigned char`.
#[derive(Clone, Copy)]
pub enum ObjectKind {
    Words(Scalar),
    Bytes,
}

/// A declaration of objects so far: their type, the complete objects, and a name.
#[derive(Drop)]
pub struct Naming {
    pub kind: ObjectKind,
    pub objects: Vec<Object>,
    pub name: Identifier,
}

/// The named array so far: its length if given, and the values of its initialiser list.
#[derive(Drop)]
pub struct Values {
    pub size: Option<ConstantExpression>,
    pub values: Vec<ConstantExpression>,
}

/// What a constant expression is used for in the named object, and the offset of the expression's first token.
#[derive(Clone, Copy)]
pub enum Part {
    Size(usize),
    Single(usize),
    /// A value in an initialiser list.
    Value(usize),
}

/// What a full expression is a part of.
#[derive(Drop)]
pub enum Context {
    Body(Purpose),
    Object(Part),
}

/// What comes next in a full expression.
#[derive(Drop)]
pub enum Phase {
    Operand,
    /// An operator or the end comes, after an operand.
    Operator(Box<Expression>),
    /// `int` or a closing parenthesis comes, after `signed` or `unsigned` in a cast.
    CastSign(Scalar),
    /// A closing parenthesis comes, after the type of a cast.
    CastType(Scalar),
}

/// A full expression so far: what it is a part of, its pending parts with the latest last, how many tokens it has, and what comes
/// next.
#[derive(Drop)]
pub struct Full {
    pub context: Context,
    pub waiting: Vec<Waiting>,
    pub count: Count,
    pub phase: Phase,
}

/// What comes next in a function's body, outside full expressions.
#[derive(Drop)]
pub enum Stage {
    /// A statement, a declaration, or the end of the block.
    Item,
    /// `else`, or anything that may come at an `Item`, after the first part of an `if`.
    AfterThen(Box<Expression>, Box<Statement>),
    /// `while`, after the body of a `do`.
    AfterDo(Box<Statement>),
    /// `(`, before a condition.
    Testing(Test),
    /// A semicolon.
    Ending(Box<Statement>),
    /// A semicolon or an operand, after `return`.
    Returning(usize),
    /// `(`, after `for`.
    ForOpening,
    ForStarting,
    /// The condition of a `for`, or a semicolon.
    ForTesting(Box<Beginning>),
    /// The last part of a `for` header, or its closing parenthesis.
    ForStepping(Box<Beginning>, Option<Box<Expression>>),
    /// `int` or a name, after `signed` or `unsigned`.
    LocalSign,
    /// A name to declare.
    Declaring,
    /// `=`, a comma or a semicolon, after a declared name.
    Declared,
    /// A name, after `++` or `--`.
    Stepping(StepOperator),
    /// `[` or the end of the action, after the name that `++` or `--` changes.
    StepNamed(StepOperator),
    /// The end of the action, after an increment or decrement whose tokens have been counted.
    Stepped(StepOperator, Target),
}

/// A function's body so far: its finished statements, the open statements with the innermost last, what comes next, the place of
/// the action being read, and the declaration being read.
#[derive(Drop)]
pub struct Body {
    pub finished: Vec<Statement>,
    pub open: Vec<Open>,
    pub stage: Stage,
    pub spot: Spot,
    pub locals: Locals,
}

/// What comes next at file scope.
#[derive(Clone, Copy)]
pub enum Outer {
    /// An external declaration, or the end of the text.
    Between,
    /// `int` or a name, after `signed` or `unsigned`.
    ResultSign(Scalar),
    /// A name, after a type or `void`.
    Typed(Option<Scalar>),
    /// What follows the first name.
    Named(Option<Scalar>),
    /// `void`, a parameter or `)`, after `(`.
    Parameters,
    /// `)`, after `void`.
    OnlyVoid,
    /// A parameter, after a comma.
    ParameterNext,
    /// `int`, a name, a comma or `)`, after `signed` or `unsigned`.
    ParameterSign(Scalar),
    /// A name, a comma or `)`, after a parameter's type.
    ParameterTyped(Scalar),
    /// A comma or `)`, after a parameter.
    ParameterNamed,
    /// A semicolon or a body.
    Headed,
    /// A name, after a comma or after `unsigned char`.
    ObjectNext,
    /// `[`, `=`, a comma or a semicolon, after an object's name.
    ObjectNamed,
    /// A length or `]`.
    Sizing,
    /// `=`, a comma or a semicolon, after `]`.
    Sized,
    /// The value of a single object.
    Initialising,
    /// `{`.
    Listing,
    /// A value, or `}` after a comma.
    Valuing,
    /// A comma or a semicolon, after a complete object.
    Listed,
}

/// What is being read: something at file scope, a function's body, or a full expression in one of these.
#[derive(Clone, Copy)]
pub enum At {
    File,
    Body,
    Full,
}

/// What has been read of a text: the complete external declarations, what is being read, and what comes next in each part. All
/// parts stay in place and are changed there; a part that is not being read keeps its last value.
#[derive(Drop)]
pub struct Parser {
    pub alloc: Global,
    pub externals: Vec<External>,
    pub at: At,
    pub outer: Outer,
    /// The head of the function that is being read.
    pub signature: Signature,
    /// The objects that are being declared.
    pub naming: Naming,
    /// The array that is being declared.
    pub list: Values,
    pub body: Body,
    pub full: Full,
}

/// Replaces a value.
pub fn put<T: Drop>(place: &mut T, value: T)
    ensures { place.new ≡ value }
{
    *place = value;
}

/// An identifier without bytes, to replace one that was moved out.
pub fn no_name(alloc: Global) -> Identifier {
    Identifier {
        bytes: Vec::new(alloc),
        at: 0,
    }
}

/// An empty head of a function, to replace one that was moved out.
pub fn no_signature(alloc: Global) -> Signature {
    Signature {
        result: None,
        name: no_name(alloc),
        parameters: Vec::new(alloc),
    }
}

/// No objects.
pub fn no_objects(alloc: Global) -> Naming {
    Naming {
        kind: ObjectKind::Bytes,
        objects: Vec::new(alloc),
        name: no_name(alloc),
    }
}

/// No locals.
fn no_locals(alloc: Global) -> Locals {
    Locals {
        position: Position::Local,
        scalar: Scalar::Int,
        declarators: Vec::new(alloc),
        name: no_name(alloc),
    }
}

/// A body without statements.
pub fn no_body(alloc: Global) -> Body {
    Body {
        finished: Vec::new(alloc),
        open: Vec::new(alloc),
        stage: Stage::Item,
        spot: Spot::Statement,
        locals: no_locals(alloc),
    }
}

/// A full expression without tokens.
pub fn no_full(alloc: Global) -> Full {
    Full {
        context: Context::Body(Purpose::Perform),
        waiting: Vec::new(alloc),
        count: Count { tokens: 0 },
        phase: Phase::Operand,
    }
}

impl Parser {
    /// Resets the parser to its state before the first token.
    pub fn restart(&mut self)
        ensures { parser_view self.new ≡ start }
    {
        self.externals.clear();
        self.outer = Outer::Between;
        self.at = At::File;
    }

    /// Continues at file scope with `next`.
    pub fn to_file(&mut self, next: Outer) -> Result<(), Stop>
        ensures { Gives (Some (AtFile (external_trees self.old.externals.items) (outer_of self.old next))) result self.new }
    {
        self.outer = next;
        self.at = At::File;
        Ok(())
    }

    /// Continues in a function's body with `stage`.
    pub fn to_body(&mut self, stage: Stage) -> Result<(), Stop>
        ensures { Gives (Some (InBody (body_view self.old) (stage_of self.old stage))) result self.new }
    {
        put(&mut self.body.stage, stage);
        self.at = At::Body;
        Ok(())
    }

    /// Continues in a full expression with `phase`, after one more of its tokens.
    pub fn to_full(&mut self, phase: Phase) -> Result<(), Stop>
        ensures { Gives (goes_on (full_view self.old) (waiting_views self.old.full.waiting.items) (phase_view phase)) result self.new }
    {
        put(&mut self.full.phase, phase);
        self.at = At::Full;
        match self.full.count.next() {
            Some(count) => {
                self.full.count = count;
                Ok(())
            }
            None => Err(Stop::TooDeep),
        }
    }

    /// Begins a full expression after its first `count` tokens.
    pub fn open_full(&mut self, context: Context, count: Count)
        ensures full { full_view self.new ≡ full_of (context_of self.old context) [] count.tokens }
        ensures state { parser_view self.new ≡ InFull (full_of (context_of self.old context) [] count.tokens) Operand }
    {
        put(&mut self.full.context, context);
        put(&mut self.full.phase, Phase::Operand);
        self.full.waiting.clear();
        self.full.count = count;
        self.at = At::Full;
    }

    /// Begins a full expression after its first `count` tokens, with an operand next.
    pub fn begin_full(&mut self, context: Context, count: Count) -> Result<(), Stop>
        ensures { Gives (begins_full (context_of self.old context) count.tokens) result self.new }
    {
        self.open_full(context, count);
        Ok(())
    }
}
