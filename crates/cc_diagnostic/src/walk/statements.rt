// The walk over statements.

use super::{Use, Walk};
use crate::code::Instruction;
use crate::names::{Lead, Standing};
use cc_scope::Entity;
use cc_syntax::{Action, Beginning, Declarator, Expression, Statement};
use cc_tokens::Scalar;

/// How many jumps out of loops were waiting for their targets before a loop began.
#[derive(Clone, Copy)]
struct Mark {
    breaks: usize,
    continues: usize,
}

impl<'a> Walk<'a> {
    fn mark(&self) -> Mark {
        Mark {
            breaks: self.breaks.len(),
            continues: self.continues.len(),
        }
    }

    // Ends a loop: its own jumps get their targets.
    fn end_loop(&mut self, mark: Mark, breaks: usize, continues: usize) {
        for i in mark.breaks..self.breaks.len() {
            if let Some(number) = self.breaks.get(i).copied() {
                self.replace(number, Instruction::Jump(breaks));
            }
        }
        for i in mark.continues..self.continues.len() {
            if let Some(number) = self.continues.get(i).copied() {
                self.replace(number, Instruction::Jump(continues));
            }
        }
        self.breaks.truncate(mark.breaks);
        self.continues.truncate(mark.continues);
    }

    // Declares a variable of the function.
    pub fn variable(&mut self, name: &'a cc_syntax::Identifier, scalar: Scalar) -> usize {
        let standing = self.names.find_inner(name.bytes.as_slice());
        self.note(name.at, Use::Declared, standing);
        let number = self.variables;
        self.variables = number.saturating_add(1);
        let standing = Standing {
            entity: Entity::Variable(scalar),
            at: Some(name.at),
            lead: Lead::Local(number),
        };
        self.declare(name, standing);
        number
    }

    fn locals(&mut self, scalar: Scalar, trees: &'a [Declarator]) {
        for tree in trees {
            let number = self.variable(&tree.name, scalar);
            self.emit(Instruction::Constant(0));
            self.emit(Instruction::SetLocal(number));
            if let Some(initial) = &tree.initial {
                self.expression(initial);
                self.emit(Instruction::SetLocal(number));
            }
        }
    }

    fn optional_action(&mut self, tree: &'a Option<Action>) {
        match tree {
            Some(tree) => self.action(tree),
            None => {}
        }
    }

    // Writes the instructions that push a condition, or 1 if it is absent.
    fn condition(&mut self, tree: &'a Option<Box<Expression>>) {
        match tree {
            Some(tree) => {
                self.expression(tree);
            }
            None => self.emit(Instruction::Constant(1)),
        }
    }

    // Writes the instructions that push a condition and jump if it does not hold. Returns the number of the jump.
    fn condition_of(&mut self, test: &'a Expression) -> usize {
        self.expression(test);
        self.open_jump()
    }

    fn leave(&mut self, at: usize, given: &'a Option<Box<Expression>>) {
        self.note(at, Use::Returned(given.is_some()), None);
        match given {
            Some(tree) => {
                self.expression(tree);
            }
            None => self.emit(Instruction::Constant(0)),
        }
        self.emit(Instruction::Return)
    }

    fn jump_out(&mut self, is_break: bool) {
        let number = self.code.len();
        if is_break {
            self.failed |= self.breaks.push(number).is_err();
        } else {
            self.failed |= self.continues.push(number).is_err();
        }
        self.emit(Instruction::Jump(0));
    }

    #[cycle(statements)]
    fn statement(&mut self, tree: &'a Statement) {
        match tree {
            Statement::Block(all) => self.block(all),
            Statement::Local(scalar, declared) => self.locals(*scalar, declared.as_slice()),
            Statement::Perform(action) => self.optional_action(action),
            Statement::Return(at, given) => self.leave(*at, given),
            Statement::Break(_) => self.jump_out(true),
            Statement::Continue(_) => self.jump_out(false),
            Statement::If(test, held) => {
                let jump = self.condition_of(test);
                self.inner_statement(held);
                let goal = self.code.len();
                self.replace(jump, Instruction::JumpIfZero(goal));
            }
            Statement::IfElse(test, held, other) => {
                let jump = self.condition_of(test);
                self.inner_statement(held);
                let skip = self.open_jump();
                let goal = self.code.len();
                self.replace(jump, Instruction::JumpIfZero(goal));
                self.inner_statement(other);
                let goal = self.code.len();
                self.replace(skip, Instruction::Jump(goal));
            }
            Statement::While(test, body) => self.while_loop(body, test),
            Statement::DoWhile(body, test) => self.do_loop(body, test),
            Statement::For(first, test, following, body) => {
                self.for_loop(first, test, following, body)
            }
        }
    }

    // Writes a statement that is a scope of its own.
    #[cycle(statements)]
    fn inner_statement(&mut self, tree: &'a Statement) {
        let around = self.names.open();
        self.statement(tree);
        self.names.close(around);
    }

    #[cycle(statements)]
    fn while_loop(&mut self, body: &'a Statement, test: &'a Expression) {
        let mark = self.mark();
        let begin = self.code.len();
        self.expression(test);
        let exit = self.open_jump();
        self.emit(Instruction::Step);
        self.inner_statement(body);
        self.emit(Instruction::Jump(begin));
        let end = self.code.len();
        self.replace(exit, Instruction::JumpIfZero(end));
        self.end_loop(mark, end, begin);
    }

    #[cycle(statements)]
    fn do_loop(&mut self, body: &'a Statement, test: &'a Expression) {
        let mark = self.mark();
        let begin = self.code.len();
        self.emit(Instruction::Step);
        self.inner_statement(body);
        let check = self.code.len();
        self.expression(test);
        let end = self.code.len().saturating_add(2);
        self.emit(Instruction::JumpIfZero(end));
        self.emit(Instruction::Jump(begin));
        self.end_loop(mark, end, check);
    }

    // Writes a `for`, whose header is a scope around its body. The last part of the header precedes the body, as in the text.
    #[cycle(statements)]
    fn for_loop(
        &mut self,
        first: &'a Beginning,
        test: &'a Option<Box<Expression>>,
        following: &'a Option<Action>,
        body: &'a Statement,
    ) {
        let mark = self.mark();
        let around = self.names.open();
        match first {
            Beginning::Declaration(scalar, declared) => {
                self.locals(*scalar, declared.as_slice());
            }
            Beginning::Action(action) => self.optional_action(action),
        }
        let begin = self.code.len();
        self.condition(test);
        let exit = self.open_jump();
        self.emit(Instruction::Drop);
        let next = self.code.len();
        self.optional_action(following);
        self.emit(Instruction::Jump(begin));
        let start = self.code.len();
        self.replace(exit.saturating_add(1), Instruction::Jump(start));
        self.emit(Instruction::Step);
        self.inner_statement(body);
        self.emit(Instruction::Jump(next));
        let end = self.code.len();
        self.replace(exit, Instruction::JumpIfZero(end));
        self.end_loop(mark, end, next);
        self.names.close(around);
    }

    #[cycle(statements)]
    fn block(&mut self, trees: &'a [Statement]) {
        let around = self.names.open();
        self.statements(trees);
        self.names.close(around);
    }

    /// Writes the statements of a list, in its scope.
    #[cycle(statements)]
    pub fn statements(&mut self, trees: &'a [Statement]) {
        for tree in trees {
            self.statement(tree);
        }
    }
}
