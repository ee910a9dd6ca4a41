// The token after a full expression: reading continues with what the expression is a part of.

ghost use Rattle.std.specs.Prelude.{suc, Some};
ghost use Rattle.cc_ast.specs.Erase.{name_tree, expression_tree, declarator_trees, target_tree, external_trees, constant_tree, constant_trees, optional_constant};
ghost use Rattle.cc_syntax.specs.internal.Parser.{end_full, end_in_body, end_in_object, end_list_value, ToInitialise, InBody, Stepped};
ghost use Rattle.cc_syntax.specs.internal.ParserView.{body_view, context_of, purpose_view, position_view, spot_view, naming_view, part_view, Gives};

use crate::parser::body::add_declarator;
use crate::parser::objects::{add_array, add_object};
use crate::parser::role::Role;
use crate::parser::state::{Context, Outer, Parser, Part, Purpose, Stage, no_name};
use crate::parser::stop::Stop;
use cc_ast::{Action, ConstantExpression, Expression, Object, Statement, StepOperator, Target};
use std::mem::replace;

impl Parser {
    /// Reads the token after a full expression.
    pub fn end_full(&mut self, expression: Box<Expression>, role: Role) -> Result<(), Stop>
        ensures { Gives (end_full (context_of self.old self.old.full.context) self.old.full.count.tokens (expression_tree expression.value) role) result self.new }
    {
        match replace(&mut self.full.context, Context::Body(Purpose::Perform)) {
            Context::Body(purpose) => self.end_in_body(purpose, expression, role),
            Context::Object(part) => self.end_in_object(part, expression, role),
        }
    }

    /// Reads the token after a full expression in a function's body.
    fn end_in_body(
        &mut self,
        purpose: Purpose,
        expression: Box<Expression>,
        role: Role,
    ) -> Result<(), Stop>
        ensures { Gives (end_in_body (body_view self.old) (purpose_view self.old.body.spot self.old.body.locals purpose) self.old.full.count.tokens (expression_tree expression.value) role) result self.new }
    {
        match purpose {
            Purpose::Perform => self.end_action(Action::Evaluate(expression), role),
            Purpose::Assign(operator, target) => {
                self.end_action(Action::Assign(operator, target, expression), role)
            }
            Purpose::Step(operator) => match role {
                Role::CloseBracket => {
                    let name = replace(&mut self.body.locals.name, no_name(self.alloc));
                    self.end_step(operator, Target::Element(name, expression))
                }
                _ => Err(Stop::Unexpected),
            },
            Purpose::Return(at) => match role {
                Role::Semicolon => self.settle(Statement::Return(at, Some(expression))),
                _ => Err(Stop::Unexpected),
            },
            Purpose::Test(test) => match role {
                Role::CloseParenthesis => self.end_test(test, expression),
                _ => Err(Stop::Unexpected),
            },
            Purpose::Continue(start) => match role {
                Role::Semicolon => self.to_body(Stage::ForStepping(start, Some(expression))),
                _ => Err(Stop::Unexpected),
            },
            Purpose::Initialise => self.end_initialiser(expression, role),
        }
    }

    /// Notes the target of an increment or decrement, and counts one more token.
    pub fn end_step(&mut self, operator: StepOperator, target: Target) -> Result<(), Stop>
        ensures { Gives (Some (InBody (body_view self.old) (Stepped operator (target_tree target) (spot_view self.old.body.spot) (suc self.old.full.count.tokens)))) result self.new }
    {
        match self.full.count.next() {
            Some(count) => {
                self.full.count = count;
                self.to_body(Stage::Stepped(operator, target))
            }
            None => Err(Stop::TooDeep),
        }
    }

    /// Reads the token after the initialiser of a local. How many tokens the initialiser has does not matter.
    fn end_initialiser(&mut self, initial: Box<Expression>, role: Role) -> Result<(), Stop>
        ensures { Gives (end_in_body (body_view self.old) (ToInitialise (position_view self.old.body.locals.position) self.old.body.locals.scalar (declarator_trees self.old.body.locals.declarators.items) (name_tree self.old.body.locals.name)) 0 (expression_tree initial.value) role) result self.new }
    {
        add_declarator(self.alloc, &mut self.body.locals, Some(initial))?;
        match role {
            Role::Comma => self.to_body(Stage::Declaring),
            Role::Semicolon => self.end_declaration(),
            _ => Err(Stop::Unexpected),
        }
    }

    /// Reads the token after a constant expression.
    fn end_in_object(
        &mut self,
        part: Part,
        expression: Box<Expression>,
        role: Role,
    ) -> Result<(), Stop>
        ensures { Gives (end_in_object (external_trees self.old.externals.items) (naming_view self.old.naming) (part_view self.old.list part) (expression_tree expression.value) role) result self.new }
    {
        match part {
            Part::Size(at) => match role {
                Role::CloseBracket => {
                    self.list.size = Some(ConstantExpression { at, expression });
                    self.to_file(Outer::Sized)
                }
                _ => Err(Stop::Unexpected),
            },
            Part::Single(at) => {
                let name = replace(&mut self.naming.name, no_name(self.alloc));
                let value = Some(ConstantExpression { at, expression });
                add_object(&mut self.naming.objects, Object::Single(name, value))?;
                self.end_object(role)
            }
            Part::Value(at) => self.end_value(ConstantExpression { at, expression }, role),
        }
    }

    /// Reads the token after a value of an initialiser list.
    fn end_value(&mut self, value: ConstantExpression, role: Role) -> Result<(), Stop>
        ensures { Gives (end_list_value (external_trees self.old.externals.items) (naming_view self.old.naming) (optional_constant self.old.list.size) (constant_trees self.old.list.values.items) (constant_tree value) role) result self.new }
    {
        self.list.values.push(value)?;
        match role {
            Role::Comma => self.to_file(Outer::Valuing),
            Role::CloseBrace => {
                add_array(self.alloc, &mut self.naming, &mut self.list)?;
                self.to_file(Outer::Listed)
            }
            _ => Err(Stop::Unexpected),
        }
    }
}
