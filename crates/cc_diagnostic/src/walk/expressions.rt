// The walk over expressions and actions.

use super::{Use, Walk};
use crate::code::{Element, Instruction, TypedOperator};
use crate::names::{Lead, Standing};
use cc_layout::Extent;
use cc_resolve::unary_operation;
use cc_scope::Entity;
use cc_syntax::{
    Action, AssignmentOperator, BinaryOperator, Expression, Identifier, StepOperator, Target,
};
use cc_tokens::Scalar;
use cc_types::{
    applied_operator, binary_type, common_type, step_operator, unary_type, working_type,
};
use cc_words::Width;

/// What is written to: a variable of the function, a word of the objects, an array's element whose index has been pushed, or
/// nothing.
#[derive(Clone, Copy)]
enum Slot<'a> {
    Local(usize),
    Global(usize),
    Element(Element<'a>),
    Nothing,
}

/// What is written to, and the type of its value.
#[derive(Clone, Copy)]
struct Goal<'a> {
    slot: Slot<'a>,
    scalar: Scalar,
}

/// An operator that an assignment applies, and the operator's offset.
#[derive(Clone, Copy)]
struct Applied {
    operator: BinaryOperator,
    at: usize,
}

// The type of the value that a name denotes; `int` if the name denotes nothing or a `void` function.
fn scalar_of(standing: Option<Standing<'_>>) -> Scalar {
    match standing {
        None => Scalar::Int,
        Some(standing) => match standing.entity {
            Entity::Variable(scalar) | Entity::Elements(scalar) => scalar,
            Entity::Function(signature) => signature.result.unwrap_or(Scalar::Int),
            Entity::WriteWord | Entity::ReadWord => Scalar::Int,
        },
    }
}

// The extent of the words that a name refers to; empty if it refers to none.
fn extent_of(standing: Option<Standing<'_>>) -> Extent {
    let nowhere = Extent {
        offset: 0,
        length: 0,
        width: Width::Word,
    };
    match standing {
        None => nowhere,
        Some(standing) => match standing.lead {
            Lead::Words(extent) => extent,
            Lead::Local(_) | Lead::Function(_) | Lead::Builtin => nowhere,
        },
    }
}

// What is written to when a name is assigned to.
fn slot_of<'a>(standing: Option<Standing<'_>>) -> Slot<'a> {
    match standing {
        None => Slot::Nothing,
        Some(standing) => match standing.lead {
            Lead::Local(number) => Slot::Local(number),
            Lead::Words(extent) => Slot::Global(extent.offset),
            Lead::Function(_) | Lead::Builtin => Slot::Nothing,
        },
    }
}

// The instruction that pushes the value that a name denotes.
fn load(standing: Option<Standing<'_>>) -> Instruction<'_> {
    match slot_of(standing) {
        Slot::Local(number) => Instruction::Local(number),
        Slot::Global(offset) => Instruction::Global(offset),
        Slot::Element(_) | Slot::Nothing => Instruction::Constant(0),
    }
}

// The instruction that calls a name, once its arguments have been pushed.
fn call_of<'a>(standing: Option<Standing<'_>>, name: &'a Identifier) -> Instruction<'a> {
    match standing {
        None => Instruction::Constant(0),
        Some(standing) => match standing.entity {
            Entity::ReadWord => Instruction::Read,
            Entity::WriteWord => Instruction::Write,
            Entity::Variable(_) | Entity::Elements(_) => Instruction::Constant(0),
            Entity::Function(_) => match standing.lead {
                Lead::Function(number) => Instruction::Call(number, name),
                Lead::Local(_) | Lead::Words(_) | Lead::Builtin => Instruction::Constant(0),
            },
        },
    }
}

impl<'a> Walk<'a> {
    // The offset of an operator whose token comes next; 0 if the operator cannot go wrong.
    fn place_of(&mut self, operator: BinaryOperator) -> usize {
        match operator {
            BinaryOperator::Divide
            | BinaryOperator::Remainder
            | BinaryOperator::ShiftLeft
            | BinaryOperator::ShiftRight => self.next_operator(),
            _ => 0,
        }
    }

    /// Writes the instructions that push the value of an expression, and returns its type.
    #[cycle(expressions)]
    pub fn expression(&mut self, tree: &'a Expression) -> Scalar {
        match tree {
            Expression::Number(scalar, word) => {
                self.emit(Instruction::Constant(*word));
                *scalar
            }
            Expression::Name(name) => {
                let standing = self.look_up(name, Use::Read);
                self.emit(load(standing));
                scalar_of(standing)
            }
            Expression::Element(name, index) => {
                let (element, scalar) = self.element(name, index);
                self.emit(Instruction::Element(element));
                scalar
            }
            Expression::Call(name, all) => {
                let all = all.as_slice();
                let standing = self.look_up(name, Use::Called(all.len()));
                self.arguments(all);
                self.emit(call_of(standing, name));
                scalar_of(standing)
            }
            Expression::Parenthesised(inner) => self.expression(inner),
            Expression::Unary(operator, operand) => {
                let scalar = self.expression(operand);
                if let Some(operation) = unary_operation(*operator) {
                    self.emit(Instruction::Unary(operation));
                }
                unary_type(*operator, scalar)
            }
            Expression::Cast(scalar, operand) => {
                self.expression(operand);
                *scalar
            }
            Expression::Binary(operator, left, right) => {
                let first = self.expression(left);
                let middle = self.begin_binary(*operator);
                let start = self.code.len();
                let second = self.expression(right);
                self.end_binary(*operator, middle, start, first, second)
            }
            Expression::Conditional(test, held, other) => {
                self.expression(test);
                let jump = self.open_jump();
                let first = self.expression(held);
                let skip = self.open_jump();
                let goal = self.code.len();
                self.replace(jump, Instruction::JumpIfZero(goal));
                let second = self.expression(other);
                let goal = self.code.len();
                self.replace(skip, Instruction::Jump(goal));
                common_type(first, second)
            }
        }
    }

    // Writes the instructions that push the index of an element, and returns the element and its type.
    #[cycle(expressions)]
    fn element(&mut self, name: &'a Identifier, index: &'a Expression) -> (Element<'a>, Scalar) {
        let standing = self.look_up(name, Use::Indexed);
        let start = self.code.len();
        let index = self.expression(index);
        let element = Element {
            array: name,
            extent: extent_of(standing),
            index,
            constant: self.constant_since(start),
        };
        self.warn_of_index(element);
        (element, scalar_of(standing))
    }

    #[cycle(expressions)]
    fn arguments(&mut self, trees: &'a [Expression]) {
        for tree in trees {
            self.expression(tree);
        }
    }

    // Writes what belongs between the operands of a binary operator. Returns the jump of `&&` or `||`, or the offset of the
    // operator.
    fn begin_binary(&mut self, operator: BinaryOperator) -> usize {
        match operator {
            BinaryOperator::LogicalAnd | BinaryOperator::LogicalOr => self.open_jump(),
            _ => self.place_of(operator),
        }
    }

    // Writes what belongs after the operands of a binary operator, which have these types. The instructions from number `start` on
    // push the right one. Returns the type of the operator's value.
    fn end_binary(
        &mut self,
        operator: BinaryOperator,
        middle: usize,
        start: usize,
        first: Scalar,
        second: Scalar,
    ) -> Scalar {
        match operator {
            BinaryOperator::LogicalAnd | BinaryOperator::LogicalOr => {
                self.emit(Instruction::Truth);
                let end = self.code.len();
                let jump = match operator {
                    BinaryOperator::LogicalAnd => Instruction::AndThen(end),
                    _ => Instruction::OrElse(end),
                };
                self.replace(middle, jump);
            }
            _ => self.emit(Instruction::Binary(TypedOperator {
                operator,
                at: middle,
                working: working_type(operator, first, second),
                right: second,
                constant: self.constant_since(start),
            })),
        }
        binary_type(operator, first, second)
    }

    /// Writes the instructions of an action.
    pub fn action(&mut self, tree: &'a Action) {
        match tree {
            Action::Assign(operator, target, right) => self.assignment(*operator, target, right),
            Action::Step(operator, target) => self.step(*operator, target),
            Action::Evaluate(tree) => {
                let start = self.code.len();
                self.first = None;
                self.expression(tree);
                self.warn_of_effect(start);
                self.emit(Instruction::Drop)
            }
        }
    }

    fn assignment(
        &mut self,
        operator: AssignmentOperator,
        target: &'a Target,
        right: &'a Expression,
    ) {
        let goal = self.goal(target);
        let applied = match applied_operator(operator) {
            Some(operator) => Some(Applied {
                operator,
                at: self.place_of(operator),
            }),
            None => None,
        };
        let start = self.code.len();
        let scalar = self.expression(right);
        self.store(goal, applied, start, scalar)
    }

    // Writes an increment or a decrement.
    fn step(&mut self, operator: StepOperator, target: &'a Target) {
        let goal = self.goal(target);
        let start = self.code.len();
        self.emit(Instruction::Constant(1));
        let applied = match applied_operator(step_operator(operator)) {
            Some(operator) => Some(Applied { operator, at: 0 }),
            None => None,
        };
        self.store(goal, applied, start, Scalar::Int)
    }

    // The goal for a target. If the target is an element, writes the instructions that push its index.
    fn goal(&mut self, target: &'a Target) -> Goal<'a> {
        match target {
            Target::Variable(name) => {
                let standing = self.look_up(name, Use::Written);
                Goal {
                    slot: slot_of(standing),
                    scalar: scalar_of(standing),
                }
            }
            Target::Element(name, index) => {
                let (element, scalar) = self.element(name, index);
                Goal {
                    slot: Slot::Element(element),
                    scalar,
                }
            }
        }
    }

    // Stores the newest word, whose type is `right`, in the goal; the instructions from number `start` on push it. If an operator
    // is applied, its operands are the goal's old value and that word, and its value is stored instead.
    fn store(&mut self, goal: Goal<'a>, applied: Option<Applied>, start: usize, right: Scalar) {
        if let Some(Applied { operator, at }) = applied {
            let constant = self.constant_since(start);
            self.old_value(goal.slot);
            self.emit(Instruction::Binary(TypedOperator {
                operator,
                at,
                working: working_type(operator, goal.scalar, right),
                right,
                constant,
            }));
        }
        self.emit(match goal.slot {
            Slot::Local(number) => Instruction::SetLocal(number),
            Slot::Global(offset) => Instruction::SetGlobal(offset),
            Slot::Element(element) => Instruction::SetElement(element),
            Slot::Nothing => Instruction::Drop,
        })
    }

    // Puts the old value of a slot below the newest word.
    fn old_value(&mut self, slot: Slot<'a>) {
        match slot {
            Slot::Local(number) => self.emit(Instruction::Local(number)),
            Slot::Global(offset) => self.emit(Instruction::Global(offset)),
            Slot::Element(element) => return self.emit(Instruction::ElementBelow(element)),
            Slot::Nothing => self.emit(Instruction::Constant(0)),
        }
        self.emit(Instruction::Swap)
    }
}
