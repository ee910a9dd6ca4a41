// The tokens of a full expression after an operand.

ghost use Rattle.std.specs.Prelude.{◌≡◌, ◌∷◌};
ghost use Rattle.std.specs.Option.{option_map};
ghost use Rattle.cc_ast.specs.Grammar.{precedence};
ghost use Rattle.cc_ast.specs.Erase.{name_tree, expression_tree, target_tree};
ghost use Rattle.cc_ast.specs.internal.Arguments.{expressions_of};
ghost use Rattle.cc_syntax.specs.internal.Parser.{reduced, goes_on, close, operate, ask, open_name, target_of, assign, step_target, operator_step, Operator, Arguments};
ghost use Rattle.cc_syntax.specs.internal.ParserView.{waiting_view, waiting_views, full_view, Gives};

use crate::parser::expression::{add_argument, boxed, call_of, precedence_of, reduce};
use crate::parser::role::Role;
use crate::parser::state::{Context, Parser, Phase, Purpose, Waiting};
use crate::parser::stop::Stop;
use cc_ast::{AssignmentOperator, BinaryOperator, Expression, Identifier, StepOperator, Target};

/// Returns the expression as an assignment target, or `None` if it cannot be one.
fn target(expression: Box<Expression>) -> Option<Target>
    ensures { option_map target_tree result ≡ target_of (expression_tree expression.value) }
{
    match Box::into_inner(expression) {
        Expression::Name(name) => Some(Target::Variable(name)),
        Expression::Element(name, index) => Some(Target::Element(name, index)),
        _ => None,
    }
}

impl Parser {
    /// Reads a token after an operand.
    pub fn step_operator(&mut self, operand: Box<Expression>, role: Role) -> Result<(), Stop>
        ensures { Gives (operator_step (full_view self.old) (expression_tree operand.value) role) result self.new }
    {
        match role {
            Role::Plus => self.step_binary(operand, BinaryOperator::Add),
            Role::Minus => self.step_binary(operand, BinaryOperator::Subtract),
            Role::Infix(operator) => self.step_binary(operand, operator),
            Role::Question => self.step_question(operand),
            Role::OpenParenthesis | Role::OpenBracket => self.step_name(operand, role),
            Role::Assignment(operator) => self.step_assignment(operand, operator),
            Role::Step(operator) => self.step_step(operand, operator),
            _ => self.step_close(operand, role),
        }
    }

    /// Reads a binary operator after an operand.
    fn step_binary(
        &mut self,
        operand: Box<Expression>,
        operator: BinaryOperator,
    ) -> Result<(), Stop>
        ensures { Gives (operate (full_view self.old) operator (reduced (precedence operator) (waiting_views self.old.full.waiting.items) (expression_tree operand.value))) result self.new }
    {
        let level = precedence_of(operator);
        let left = reduce(self.alloc, level, &mut self.full.waiting, operand)?;
        self.to_waiting(Waiting::Infix(operator, left))
    }

    /// Reads a question mark after an operand.
    fn step_question(&mut self, operand: Box<Expression>) -> Result<(), Stop>
        ensures { Gives (ask (full_view self.old) (reduced 2 (waiting_views self.old.full.waiting.items) (expression_tree operand.value))) result self.new }
    {
        let test = reduce(self.alloc, 2, &mut self.full.waiting, operand)?;
        self.to_waiting(Waiting::Then(test))
    }

    /// Reads a parenthesis or bracket after an operand, which must be a name.
    fn step_name(&mut self, operand: Box<Expression>, role: Role) -> Result<(), Stop>
        ensures { Gives (open_name (full_view self.old) (expression_tree operand.value) role) result self.new }
    {
        match Box::into_inner(operand) {
            Expression::Name(name) => match role {
                Role::OpenParenthesis => {
                    let arguments = Vec::new(self.alloc);
                    self.to_waiting(Waiting::Arguments(name, arguments))
                }
                Role::OpenBracket => self.to_waiting(Waiting::Index(name)),
                _ => Err(Stop::Unexpected),
            },
            _ => Err(Stop::Unexpected),
        }
    }

    /// Reads an assignment operator after an operand, which must be the target that begins an action.
    fn step_assignment(
        &mut self,
        operand: Box<Expression>,
        operator: AssignmentOperator,
    ) -> Result<(), Stop>
        ensures { Gives (assign (full_view self.old) (expression_tree operand.value) operator (waiting_views self.old.full.waiting.items)) result self.new }
    {
        if !self.full.waiting.is_empty() {
            return Err(Stop::Unexpected);
        }
        match self.full.context {
            Context::Body(Purpose::Perform) => match target(operand) {
                Some(target) => match self.full.count.next() {
                    Some(count) => {
                        let context = Context::Body(Purpose::Assign(operator, target));
                        self.begin_full(context, count)
                    }
                    None => Err(Stop::TooDeep),
                },
                None => Err(Stop::Unexpected),
            },
            _ => Err(Stop::Unexpected),
        }
    }

    /// Reads `++` or `--` after an operand, which must be the target that begins an action.
    fn step_step(&mut self, operand: Box<Expression>, operator: StepOperator) -> Result<(), Stop>
        ensures { Gives (step_target (full_view self.old) (expression_tree operand.value) operator (waiting_views self.old.full.waiting.items)) result self.new }
    {
        if !self.full.waiting.is_empty() {
            return Err(Stop::Unexpected);
        }
        match self.full.context {
            Context::Body(Purpose::Perform) => match target(operand) {
                Some(target) => self.end_step(operator, target),
                None => Err(Stop::Unexpected),
            },
            _ => Err(Stop::Unexpected),
        }
    }

    /// Reads a closing token after an operand.
    fn step_close(&mut self, operand: Box<Expression>, role: Role) -> Result<(), Stop>
        ensures { Gives (close (full_view self.old) role (reduced 1 (waiting_views self.old.full.waiting.items) (expression_tree operand.value))) result self.new }
    {
        let inner = reduce(self.alloc, 1, &mut self.full.waiting, operand)?;
        match self.full.waiting.pop() {
            None => self.end_full(inner, role),
            Some(opening) => self.close_waiting(opening, inner, role),
        }
    }

    /// Reads a closing token after an expression, if a pending part awaits that token.
    fn close_waiting(
        &mut self,
        opening: Waiting,
        expression: Box<Expression>,
        role: Role,
    ) -> Result<(), Stop>
        ensures { Gives (close (full_view self.old) role (expression_tree expression.value, waiting_view opening ∷ waiting_views self.old.full.waiting.items)) result self.new }
    {
        match opening {
            Waiting::Parenthesis => match role {
                Role::CloseParenthesis => self.close_whole(Expression::Parenthesised(expression)),
                _ => Err(Stop::Unexpected),
            },
            Waiting::Index(name) => match role {
                Role::CloseBracket => self.close_whole(Expression::Element(name, expression)),
                _ => Err(Stop::Unexpected),
            },
            Waiting::Arguments(name, arguments) => {
                self.close_argument(name, arguments, expression, role)
            }
            Waiting::Then(test) => match role {
                Role::Colon => self.to_waiting(Waiting::Otherwise(test, expression)),
                _ => Err(Stop::Unexpected),
            },
            _ => Err(Stop::Unexpected),
        }
    }

    /// Reads a closing token after an argument of a call.
    fn close_argument(
        &mut self,
        name: Identifier,
        mut arguments: Vec<Expression>,
        argument: Box<Expression>,
        role: Role,
    ) -> Result<(), Stop>
        ensures { Gives (close (full_view self.old) role (expression_tree argument.value, Arguments (name_tree name) (expressions_of arguments.items) ∷ waiting_views self.old.full.waiting.items)) result self.new }
    {
        add_argument(&mut arguments, argument)?;
        match role {
            Role::CloseParenthesis => self.close_whole(call_of(name, arguments)),
            Role::Comma => self.to_waiting(Waiting::Arguments(name, arguments)),
            _ => Err(Stop::Unexpected),
        }
    }

    /// Notes that a closing token has completed an operand.
    fn close_whole(&mut self, whole: Expression) -> Result<(), Stop>
        ensures { Gives (goes_on (full_view self.old) (waiting_views self.old.full.waiting.items) (Operator (expression_tree whole))) result self.new }
    {
        let whole = boxed(self.alloc, whole)?;
        self.to_full(Phase::Operator(whole))
    }
}
