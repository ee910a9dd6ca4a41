// How statements begin, and what becomes of a complete statement.

ghost use Rattle.std.specs.Prelude.{◌≡◌, IfOk, Some, None, true};
ghost use Rattle.cc_ast.specs.Erase.{statement_tree, statements_of, expression_tree, declarator_trees, action_tree};
ghost use Rattle.cc_ast.specs.Tree.{Block};
ghost use Rattle.cc_syntax.specs.internal.Parser.{with_last, settled, settle, opens, declares, acted, tested, close_block, declare};
ghost use Rattle.cc_syntax.specs.internal.ParserView.{open_view, open_views, body_view, stage_of, spot_view, test_view, position_view, Gives};

use crate::parser::role::Role;
use crate::parser::state::{
    At, Open, Outer, Parser, Position, Spot, Stage, Test, no_signature, put,
};
use crate::parser::stop::Stop;
use cc_ast::{Action, Beginning, Expression, External, Statement};
use std::alloc::{AllocError, Global};
use std::mem::replace;

/// A list of at most this many statements has room for exactly as many as it contains.
const SHORT: usize = 4;

/// Makes a block of statements.
fn block(statements: Vec<Statement>) -> Statement
    ensures { statement_tree result ≡ Block (statements_of statements.items) }
{
    Statement::Block(statements)
}

/// Puts a statement into a box.
fn boxed(alloc: Global, statement: Statement) -> Result<Box<Statement>, AllocError>
    ensures { IfOk result (λ b. b.value ≡ statement) }
{
    Ok(Box::new(alloc, statement)?)
}

/// Most lists of statements are short. So room for the first few statements is made one at a time, and a block with one statement
/// uses room for only one.
fn make_room(statements: &mut Vec<Statement>) -> Result<(), AllocError>
    ensures { statements.new.items ≡ statements.old.items }
{
    if statements.len() < SHORT {
        statements.reserve_exact(1)?;
    }
    Ok(())
}

/// Adds a statement at the end.
fn add_statement(
    statements: &mut Vec<Statement>,
    statement: Box<Statement>,
) -> Result<(), AllocError>
    ensures { IfOk result (λ _. statements_of statements.new.items ≡ with_last (statements_of statements.old.items) (statement_tree statement.value)) }
{
    make_room(statements)?;
    statements.push(Box::into_inner(statement))?;
    Ok(())
}

impl Parser {
    /// Adds a complete statement to the body, with the loops that it completes, and sets what comes next. If an `else` may follow
    /// and `waits` is set, the next token decides whether the `if` is complete.
    pub fn settle_body(&mut self, waits: bool, statement: Box<Statement>) -> Result<(), AllocError>
        ensures { IfOk result (λ _. settled waits (body_view self.old) (open_views self.old.body.open.items) (statement_tree statement.value) ≡ (body_view self.new, stage_of self.new self.new.body.stage)) }
    {
        let mut statement = statement;
        while let Some(last) = self.body.open.pop() {
            match last {
                Open::Block(inner) => {
                    let mut statements = inner;
                    add_statement(&mut statements, statement)?;
                    self.body.open.push(Open::Block(statements))?;
                    put(&mut self.body.stage, Stage::Item);
                    return Ok(());
                }
                Open::Then(test) => {
                    if waits {
                        put(&mut self.body.stage, Stage::AfterThen(test, statement));
                        return Ok(());
                    }
                    statement = boxed(self.alloc, Statement::If(test, statement))?;
                }
                Open::Else(test, then) => {
                    statement = boxed(self.alloc, Statement::IfElse(test, then, statement))?;
                }
                Open::While(test) => {
                    statement = boxed(self.alloc, Statement::While(test, statement))?;
                }
                Open::Do => {
                    put(&mut self.body.stage, Stage::AfterDo(statement));
                    return Ok(());
                }
                Open::For(start, test, last) => {
                    statement = boxed(self.alloc, Statement::For(start, test, last, statement))?;
                }
            }
        }
        add_statement(&mut self.body.finished, statement)?;
        put(&mut self.body.stage, Stage::Item);
        Ok(())
    }

    /// Adds a complete statement to the body.
    pub fn settle_boxed(&mut self, statement: Box<Statement>) -> Result<(), Stop>
        ensures { Gives (settle (body_view self.old) (statement_tree statement.value)) result self.new }
    {
        self.settle_body(true, statement)?;
        self.at = At::Body;
        Ok(())
    }

    /// Adds a complete statement that is not in a box yet to the body.
    pub fn settle(&mut self, statement: Statement) -> Result<(), Stop>
        ensures { Gives (settle (body_view self.old) (statement_tree statement)) result self.new }
    {
        let statement = boxed(self.alloc, statement)?;
        self.settle_boxed(statement)
    }

    /// Notes that a statement has begun.
    pub fn begin(&mut self, one: Open) -> Result<(), Stop>
        ensures { Gives (opens (body_view self.old) (open_view one)) result self.new }
    {
        self.body.open.push(one)?;
        self.to_body(Stage::Item)
    }

    /// Ends a declaration of locals.
    pub fn end_declaration(&mut self) -> Result<(), Stop>
        ensures { Gives (declares (body_view self.old) (position_view self.old.body.locals.position) self.old.body.locals.scalar (declarator_trees self.old.body.locals.declarators.items)) result self.new }
    {
        let scalar = self.body.locals.scalar;
        let declarators = replace(&mut self.body.locals.declarators, Vec::new(self.alloc));
        match self.body.locals.position {
            Position::Local => self.settle(Statement::Local(scalar, declarators)),
            Position::Header => {
                let start = Beginning::Declaration(scalar, declarators);
                let start = Box::new(self.alloc, start)?;
                self.to_body(Stage::ForTesting(start))
            }
        }
    }

    /// Reads the token after an action. `spot` says what the action is a part of.
    pub fn end_action(&mut self, action: Action, role: Role) -> Result<(), Stop>
        ensures { Gives (acted (body_view self.old) (spot_view self.old.body.spot) (action_tree action) role) result self.new }
    {
        match replace(&mut self.body.spot, Spot::Statement) {
            Spot::Statement => match role {
                Role::Semicolon => self.settle(Statement::Perform(Some(action))),
                _ => Err(Stop::Unexpected),
            },
            Spot::Start => match role {
                Role::Semicolon => {
                    let start = Box::new(self.alloc, Beginning::Action(Some(action)))?;
                    self.to_body(Stage::ForTesting(start))
                }
                _ => Err(Stop::Unexpected),
            },
            Spot::Last(start, test) => match role {
                Role::CloseParenthesis => self.begin(Open::For(start, test, Some(action))),
                _ => Err(Stop::Unexpected),
            },
        }
    }

    /// Reads the closing parenthesis of a condition.
    pub fn end_test(&mut self, test: Test, condition: Box<Expression>) -> Result<(), Stop>
        ensures { Gives (tested (body_view self.old) (test_view test) (expression_tree condition.value)) result self.new }
    {
        match test {
            Test::If => self.begin(Open::Then(condition)),
            Test::While => self.begin(Open::While(condition)),
            Test::Do(statement) => {
                let statement = boxed(self.alloc, Statement::DoWhile(statement, condition))?;
                self.to_body(Stage::Ending(statement))
            }
        }
    }

    /// Ends the innermost block, or the function's body.
    pub fn end_block(&mut self) -> Result<(), Stop>
        ensures { Gives (close_block (body_view self.old) (open_views self.old.body.open.items)) result self.new }
    {
        match self.body.open.pop() {
            None => {
                let signature = replace(&mut self.signature, no_signature(self.alloc));
                let finished = replace(&mut self.body.finished, Vec::new(self.alloc));
                self.externals
                    .push(External::Definition(signature, finished))?;
                self.to_file(Outer::Between)
            }
            Some(Open::Block(statements)) => self.settle(block(statements)),
            Some(_) => Err(Stop::Unexpected),
        }
    }

    /// Begins a declaration, which is allowed only directly in a block.
    pub fn begin_declaration(&mut self, stage: Stage) -> Result<(), Stop>
        ensures { Gives (declare (body_view self.old) (stage_of self.old stage) (open_views self.old.body.open.items)) result self.new }
    {
        match self.body.open.last() {
            None | Some(Open::Block(_)) => self.to_body(stage),
            Some(_) => Err(Stop::Unexpected),
        }
    }
}
