// The statements and declarations of a function's body, without the full expressions in them.

ghost use Rattle.std.specs.Prelude.{◌≡◌, [], ◌∷◌, ◌++◌, IfOk, Some, None};
ghost use Rattle.cc_ast.specs.Erase.{name_tree, expression_tree, statement_tree, beginning_tree, optional_tree, declarator_trees};
ghost use Rattle.cc_syntax.specs.internal.Parser.{action_step, item_step, do_step, resting_step, else_step, testing_step, ending_step, returning_step, for_opening_step, for_starting_step, for_testing_step, for_stepping_step, declaring_step, local_sign_step, declared_step, stepping_step, step_named_step, body_step, declared, InBody, Ending};
ghost use Rattle.cc_syntax.specs.internal.ParserView.{name_at, body_view, stage_of, spot_view, test_view, position_view, Gives};

use crate::parser::count::Count;
use crate::parser::cursor::Cursor;
use crate::parser::role::Role;
use crate::parser::state::{
    Context, Locals, Open, Parser, Position, Purpose, Spot, Stage, Test, no_name, put,
};
use crate::parser::stop::Stop;
use cc_ast::{
    Action, AssignmentOperator, Beginning, Declarator, Expression, Statement, StepOperator, Target,
};
use cc_tokens::Scalar;
use std::alloc::{AllocError, Global};
use std::mem::replace;

/// Completes the last name in a declaration of locals.
pub fn add_declarator(
    alloc: Global,
    locals: &mut Locals,
    initial: Option<Box<Expression>>,
) -> Result<(), AllocError>
    ensures declarators { IfOk result (λ _. declarator_trees locals.new.declarators.items ≡ declarator_trees locals.old.declarators.items ++ declared (name_tree locals.old.name) (optional_tree initial) ∷ []) }
    ensures position { locals.new.position ≡ locals.old.position }
    ensures scalar { locals.new.scalar ≡ locals.old.scalar }
{
    let name = replace(&mut locals.name, no_name(alloc));
    locals.declarators.push(Declarator { name, initial })?;
    Ok(())
}

impl Locals {
    /// Begins a declaration of locals.
    fn begin(&mut self, position: Position, scalar: Scalar)
        ensures position { self.new.position ≡ position }
        ensures scalar { self.new.scalar ≡ scalar }
        ensures declarators { self.new.declarators.items ≡ [] }
    {
        self.position = position;
        self.scalar = scalar;
        self.declarators.clear();
    }
}

impl Parser {
    /// Reads a token of a function's body, outside full expressions.
    #[inline(never)]
    pub fn step_body(&mut self, role: Role, cursor: &Cursor<'_>) -> Result<(), Stop>
        ensures { Gives (body_step (body_view self.old) (stage_of self.old self.old.body.stage) role (name_at cursor.now)) result self.new }
    {
        match replace(&mut self.body.stage, Stage::Item) {
            Stage::Item => self.step_item(role, cursor),
            Stage::AfterThen(test, then) => self.step_else(test, then, role, cursor),
            Stage::AfterDo(statement) => self.step_do(statement, role),
            Stage::Testing(test) => self.step_testing(test, role),
            Stage::Ending(statement) => self.step_ending(statement, role),
            Stage::Returning(at) => self.step_returning(at, role, cursor),
            Stage::ForOpening => self.step_for_opening(role),
            Stage::ForStarting => self.step_for_starting(role, cursor),
            Stage::ForTesting(start) => self.step_for_testing(start, role, cursor),
            Stage::ForStepping(start, test) => self.step_for_stepping(start, test, role, cursor),
            Stage::LocalSign => self.step_local_sign(role, cursor),
            Stage::Declaring => self.step_declaring(role, cursor),
            Stage::Declared => self.step_declared(role),
            Stage::Stepping(operator) => self.step_stepping(operator, role, cursor),
            Stage::StepNamed(operator) => self.step_step_named(operator, role),
            Stage::Stepped(operator, target) => {
                self.end_action(Action::Step(operator, target), role)
            }
        }
    }

    /// Reads the first token of an action.
    fn step_action(&mut self, spot: Spot, role: Role, cursor: &Cursor<'_>) -> Result<(), Stop>
        ensures { Gives (action_step (body_view self.old) (spot_view spot) role (name_at cursor.now)) result self.new }
    {
        put(&mut self.body.spot, spot);
        match role {
            Role::Step(operator) => self.to_body(Stage::Stepping(operator)),
            _ => self.step_first(Context::Body(Purpose::Perform), role, cursor),
        }
    }

    /// Records a statement that lacks only its semicolon.
    fn ending(&mut self, statement: Statement) -> Result<(), Stop>
        ensures { Gives (Some (InBody (body_view self.old) (Ending (statement_tree statement)))) result self.new }
    {
        let statement = Box::new(self.alloc, statement)?;
        self.to_body(Stage::Ending(statement))
    }

    /// Reads the first token of a statement or declaration, or the end of a block.
    fn step_item(&mut self, role: Role, cursor: &Cursor<'_>) -> Result<(), Stop>
        ensures { Gives (item_step (body_view self.old) role (name_at cursor.now)) result self.new }
    {
        let at = cursor.at();
        match role {
            Role::OpenBrace => self.begin(Open::Block(Vec::new(self.alloc))),
            Role::CloseBrace => self.end_block(),
            Role::Semicolon => self.settle(Statement::Perform(None)),
            Role::Return => self.to_body(Stage::Returning(at)),
            Role::Break => self.ending(Statement::Break(at)),
            Role::Continue => self.ending(Statement::Continue(at)),
            Role::If => self.to_body(Stage::Testing(Test::If)),
            Role::While => self.to_body(Stage::Testing(Test::While)),
            Role::Do => self.begin(Open::Do),
            Role::For => self.to_body(Stage::ForOpening),
            Role::Int => {
                self.body.locals.begin(Position::Local, Scalar::Int);
                self.begin_declaration(Stage::Declaring)
            }
            Role::SignWord(scalar) => {
                self.body.locals.begin(Position::Local, scalar);
                self.begin_declaration(Stage::LocalSign)
            }
            _ => self.step_action(Spot::Statement, role, cursor),
        }
    }

    /// Reads the keyword after the body of a `do`.
    fn step_do(&mut self, statement: Box<Statement>, role: Role) -> Result<(), Stop>
        ensures { Gives (do_step (body_view self.old) (statement_tree statement.value) role) result self.new }
    {
        match role {
            Role::While => self.to_body(Stage::Testing(Test::Do(statement))),
            _ => Err(Stop::Unexpected),
        }
    }

    /// Reads a token after a statement that no `else` follows.
    fn step_resting(&mut self, role: Role, cursor: &Cursor<'_>) -> Result<(), Stop>
        ensures { Gives (resting_step (body_view self.old, stage_of self.old self.old.body.stage) role (name_at cursor.now)) result self.new }
    {
        match replace(&mut self.body.stage, Stage::Item) {
            Stage::Item => self.step_item(role, cursor),
            Stage::AfterDo(statement) => self.step_do(statement, role),
            _ => Err(Stop::Unexpected),
        }
    }

    /// Reads the token after the first part of an `if`, which may be `else`.
    fn step_else(
        &mut self,
        test: Box<Expression>,
        then: Box<Statement>,
        role: Role,
        cursor: &Cursor<'_>,
    ) -> Result<(), Stop>
        ensures { Gives (else_step (body_view self.old) (expression_tree test.value) (statement_tree then.value) role (name_at cursor.now)) result self.new }
    {
        match role {
            Role::Else => self.begin(Open::Else(test, then)),
            _ => {
                let statement = Box::new(self.alloc, Statement::If(test, then))?;
                self.settle_body(false, statement)?;
                self.step_resting(role, cursor)
            }
        }
    }

    /// Reads the parenthesis before a condition.
    fn step_testing(&mut self, test: Test, role: Role) -> Result<(), Stop>
        ensures { Gives (testing_step (body_view self.old) (test_view test) role) result self.new }
    {
        match role {
            Role::OpenParenthesis => {
                let context = Context::Body(Purpose::Test(test));
                self.begin_full(context, Count { tokens: 0 })
            }
            _ => Err(Stop::Unexpected),
        }
    }

    /// Reads the semicolon of a statement.
    fn step_ending(&mut self, statement: Box<Statement>, role: Role) -> Result<(), Stop>
        ensures { Gives (ending_step (body_view self.old) (statement_tree statement.value) role) result self.new }
    {
        match role {
            Role::Semicolon => self.settle_boxed(statement),
            _ => Err(Stop::Unexpected),
        }
    }

    /// Reads a token after `return`.
    fn step_returning(&mut self, at: usize, role: Role, cursor: &Cursor<'_>) -> Result<(), Stop>
        ensures { Gives (returning_step (body_view self.old) at role (name_at cursor.now)) result self.new }
    {
        match role {
            Role::Semicolon => self.settle(Statement::Return(at, None)),
            _ => self.step_first(Context::Body(Purpose::Return(at)), role, cursor),
        }
    }

    /// Reads the parenthesis after `for`.
    fn step_for_opening(&mut self, role: Role) -> Result<(), Stop>
        ensures { Gives (for_opening_step (body_view self.old) role) result self.new }
    {
        match role {
            Role::OpenParenthesis => self.to_body(Stage::ForStarting),
            _ => Err(Stop::Unexpected),
        }
    }

    /// Reads the first token of a `for` header.
    fn step_for_starting(&mut self, role: Role, cursor: &Cursor<'_>) -> Result<(), Stop>
        ensures { Gives (for_starting_step (body_view self.old) role (name_at cursor.now)) result self.new }
    {
        match role {
            Role::Semicolon => {
                let start = Box::new(self.alloc, Beginning::Action(None))?;
                self.to_body(Stage::ForTesting(start))
            }
            Role::Int => {
                self.body.locals.begin(Position::Header, Scalar::Int);
                self.to_body(Stage::Declaring)
            }
            Role::SignWord(scalar) => {
                self.body.locals.begin(Position::Header, scalar);
                self.to_body(Stage::LocalSign)
            }
            _ => self.step_action(Spot::Start, role, cursor),
        }
    }

    /// Reads the first token of a `for`'s condition.
    fn step_for_testing(
        &mut self,
        start: Box<Beginning>,
        role: Role,
        cursor: &Cursor<'_>,
    ) -> Result<(), Stop>
        ensures { Gives (for_testing_step (body_view self.old) (beginning_tree start.value) role (name_at cursor.now)) result self.new }
    {
        match role {
            Role::Semicolon => self.to_body(Stage::ForStepping(start, None)),
            _ => self.step_first(Context::Body(Purpose::Continue(start)), role, cursor),
        }
    }

    /// Reads the first token of the last part of a `for` header.
    fn step_for_stepping(
        &mut self,
        start: Box<Beginning>,
        test: Option<Box<Expression>>,
        role: Role,
        cursor: &Cursor<'_>,
    ) -> Result<(), Stop>
        ensures { Gives (for_stepping_step (body_view self.old) (beginning_tree start.value) (optional_tree test) role (name_at cursor.now)) result self.new }
    {
        match role {
            Role::CloseParenthesis => self.begin(Open::For(start, test, None)),
            _ => self.step_action(Spot::Last(start, test), role, cursor),
        }
    }

    /// Reads a token in a place where a name is declared.
    fn step_declaring(&mut self, role: Role, cursor: &Cursor<'_>) -> Result<(), Stop>
        ensures { Gives (declaring_step (body_view self.old) (position_view self.old.body.locals.position) self.old.body.locals.scalar (declarator_trees self.old.body.locals.declarators.items) role (name_at cursor.now)) result self.new }
    {
        match role {
            Role::Identifier => {
                self.body.locals.name = cursor.name(self.alloc)?;
                self.to_body(Stage::Declared)
            }
            _ => Err(Stop::Unexpected),
        }
    }

    /// Reads a token after `signed` or `unsigned` in a declaration.
    fn step_local_sign(&mut self, role: Role, cursor: &Cursor<'_>) -> Result<(), Stop>
        ensures { Gives (local_sign_step (body_view self.old) (position_view self.old.body.locals.position) self.old.body.locals.scalar role (name_at cursor.now)) result self.new }
    {
        self.body.locals.declarators.clear();
        match role {
            Role::Int => self.to_body(Stage::Declaring),
            _ => self.step_declaring(role, cursor),
        }
    }

    /// Reads a token after a declared name.
    fn step_declared(&mut self, role: Role) -> Result<(), Stop>
        ensures { Gives (declared_step (body_view self.old) (position_view self.old.body.locals.position) self.old.body.locals.scalar (declarator_trees self.old.body.locals.declarators.items) (name_tree self.old.body.locals.name) role) result self.new }
    {
        match role {
            Role::Assignment(AssignmentOperator::Plain) => {
                let context = Context::Body(Purpose::Initialise);
                self.begin_full(context, Count { tokens: 0 })
            }
            Role::Comma => {
                add_declarator(self.alloc, &mut self.body.locals, None)?;
                self.to_body(Stage::Declaring)
            }
            Role::Semicolon => {
                add_declarator(self.alloc, &mut self.body.locals, None)?;
                self.end_declaration()
            }
            _ => Err(Stop::Unexpected),
        }
    }

    /// Reads a token after `++` or `--`.
    fn step_stepping(
        &mut self,
        operator: StepOperator,
        role: Role,
        cursor: &Cursor<'_>,
    ) -> Result<(), Stop>
        ensures { Gives (stepping_step (body_view self.old) operator (spot_view self.old.body.spot) role (name_at cursor.now)) result self.new }
    {
        match role {
            Role::Identifier => {
                self.body.locals.name = cursor.name(self.alloc)?;
                self.to_body(Stage::StepNamed(operator))
            }
            _ => Err(Stop::Unexpected),
        }
    }

    /// Reads a token after the name that `++` or `--` changes.
    fn step_step_named(&mut self, operator: StepOperator, role: Role) -> Result<(), Stop>
        ensures { Gives (step_named_step (body_view self.old) operator (name_tree self.old.body.locals.name) (spot_view self.old.body.spot) role) result self.new }
    {
        match role {
            Role::OpenBracket => {
                let context = Context::Body(Purpose::Step(operator));
                self.begin_full(context, Count { tokens: 3 })
            }
            _ => {
                let name = replace(&mut self.body.locals.name, no_name(self.alloc));
                self.end_action(Action::Step(operator, Target::Variable(name)), role)
            }
        }
    }
}
