// The tokens of a full expression in places where an operand is due, and those of a cast.

ghost use Rattle.std.specs.Prelude.{◌∷◌};
ghost use Rattle.cc_syntax.specs.internal.Parser.{goes_on, cast, call_of_none, operand_step, cast_step, cast_sign_step, full_step, first_step, Operand};
ghost use Rattle.cc_syntax.specs.internal.ParserView.{name_at, waiting_view, waiting_views, context_of, full_view, phase_view, Gives};

use crate::parser::count::Count;
use crate::parser::cursor::Cursor;
use crate::parser::expression::{boxed, call_of};
use crate::parser::role::Role;
use crate::parser::state::{Context, Parser, Phase, Waiting};
use crate::parser::stop::Stop;
use cc_ast::{Expression, UnaryOperator};
use cc_tokens::Scalar;
use std::mem::replace;

impl Parser {
    /// Reads a token of a full expression.
    pub fn step_full(&mut self, role: Role, cursor: &Cursor<'_>) -> Result<(), Stop>
        ensures { Gives (full_step (full_view self.old) (phase_view self.old.full.phase) role (name_at cursor.now)) result self.new }
    {
        match replace(&mut self.full.phase, Phase::Operand) {
            Phase::Operand => self.step_operand(role, cursor),
            Phase::Operator(operand) => self.step_operator(operand, role),
            Phase::CastSign(scalar) => self.step_cast_sign(scalar, role),
            Phase::CastType(scalar) => self.step_cast(scalar, role),
        }
    }

    /// Reads the first token of a full expression.
    pub fn step_first(
        &mut self,
        context: Context,
        role: Role,
        cursor: &Cursor<'_>,
    ) -> Result<(), Stop>
        ensures { Gives (first_step (context_of self.old context) role (name_at cursor.now)) result self.new }
    {
        self.open_full(context, Count { tokens: 0 });
        self.step_operand(role, cursor)
    }

    /// Reads a token in a place where an operand is due.
    fn step_operand(&mut self, role: Role, cursor: &Cursor<'_>) -> Result<(), Stop>
        ensures { Gives (operand_step (full_view self.old) role (name_at cursor.now)) result self.new }
    {
        match role {
            Role::Number(scalar, word) => {
                let number = boxed(self.alloc, Expression::Number(scalar, word))?;
                self.to_full(Phase::Operator(number))
            }
            Role::Identifier => {
                let name = Expression::Name(cursor.name(self.alloc)?);
                let name = boxed(self.alloc, name)?;
                self.to_full(Phase::Operator(name))
            }
            Role::OpenParenthesis => self.to_waiting(Waiting::Parenthesis),
            Role::CloseParenthesis => self.end_call(),
            Role::Plus => self.to_waiting(Waiting::Prefix(UnaryOperator::Plus)),
            Role::Minus => self.to_waiting(Waiting::Prefix(UnaryOperator::Minus)),
            Role::Prefix(operator) => self.to_waiting(Waiting::Prefix(operator)),
            Role::Int => self.begin_cast(Phase::CastType(Scalar::Int)),
            Role::SignWord(scalar) => self.begin_cast(Phase::CastSign(scalar)),
            _ => Err(Stop::Unexpected),
        }
    }

    /// Counts one more token, and adds a pending part.
    pub fn to_waiting(&mut self, one: Waiting) -> Result<(), Stop>
        ensures { Gives (goes_on (full_view self.old) (waiting_view one ∷ waiting_views self.old.full.waiting.items) Operand) result self.new }
    {
        self.full.waiting.push(one)?;
        self.to_full(Phase::Operand)
    }

    /// Reads the closing parenthesis of a call without arguments.
    fn end_call(&mut self) -> Result<(), Stop>
        ensures { Gives (call_of_none (full_view self.old) (waiting_views self.old.full.waiting.items)) result self.new }
    {
        match self.full.waiting.pop() {
            Some(Waiting::Arguments(name, arguments)) => {
                if !arguments.is_empty() {
                    return Err(Stop::Unexpected);
                }
                let call = boxed(self.alloc, call_of(name, arguments))?;
                self.to_full(Phase::Operator(call))
            }
            _ => Err(Stop::Unexpected),
        }
    }

    /// Reads a keyword of a type, directly after an opening parenthesis.
    fn begin_cast(&mut self, phase: Phase) -> Result<(), Stop>
        ensures { Gives (cast (full_view self.old) (phase_view phase) (waiting_views self.old.full.waiting.items)) result self.new }
    {
        match self.full.waiting.pop() {
            Some(Waiting::Parenthesis) => self.to_full(phase),
            _ => Err(Stop::Unexpected),
        }
    }

    /// Reads a token after the type of a cast.
    fn step_cast(&mut self, scalar: Scalar, role: Role) -> Result<(), Stop>
        ensures { Gives (cast_step (full_view self.old) scalar role) result self.new }
    {
        match role {
            Role::CloseParenthesis => self.to_waiting(Waiting::Cast(scalar)),
            _ => Err(Stop::Unexpected),
        }
    }

    /// Reads a token after `signed` or `unsigned` in a cast.
    fn step_cast_sign(&mut self, scalar: Scalar, role: Role) -> Result<(), Stop>
        ensures { Gives (cast_sign_step (full_view self.old) scalar role) result self.new }
    {
        match role {
            Role::Int => self.to_full(Phase::CastType(scalar)),
            _ => self.step_cast(scalar, role),
        }
    }
}
