// The place in the text from which each instruction of a tree comes.
//
// `cc_diagnostic` writes the instructions of a tree in the order of its text, and keeps no places. This walk visits the tree in
// the same order and writes a mark whenever `cc_diagnostic` writes an instruction, so there are as many marks as instructions, in
// the same order. Users of the marks compare the two numbers.

use cc_resolve::unary_operation;
use cc_syntax::{
    Action, Beginning, BinaryOperator, Declarator, Expression, External, Identifier, Signature,
    Statement, StepOperator, Target, Unit,
};
use cc_tokens::{Keyword, Token, TokenKind, tokens};
use cc_types::{applied_operator, step_operator};
use std::alloc::{AllocError, Global};

/// The place of an instruction that comes from no place in the text.
pub const NOWHERE: usize = usize::MAX;

/// The origin of an instruction: an offset in the text, and the name to which the instruction gives a value, if the text has one
/// there.
#[derive(Clone, Copy)]
pub struct Mark<'a> {
    pub at: usize,
    pub name: Option<&'a Identifier>,
}

// A walk: the marks so far, the offsets of the words that begin statements and how many of them were taken, and the newest place.
#[derive(Drop)]
struct Marker<'a> {
    marks: Vec<Mark<'a>>,
    words: Vec<usize>,
    taken: usize,
    here: usize,
    has_failed: bool,
}

// Whether a token begins a statement whose place the tree does not keep; the `while` of a `do` counts too.
fn begins(token: Token) -> bool {
    match token.kind {
        TokenKind::Keyword(keyword) => matches!(
            keyword,
            Keyword::While | Keyword::Do | Keyword::For | Keyword::If
        ),
        TokenKind::Identifier | TokenKind::Punctuator(_) | TokenKind::Number(_, _) => false,
    }
}

// The offsets of the tokens that begin a statement whose place the tree does not keep.
fn words_of(alloc: Global, text: &[u8]) -> Result<Vec<usize>, AllocError> {
    match tokens(alloc, text) {
        Ok(tokens) => {
            let offsets = tokens
                .iter()
                .filter(|token| begins(**token))
                .map(|token| token.from)
                .collect(alloc);
            drop(tokens);
            offsets
        }
        Err(fault) => {
            drop(fault);
            Ok(Vec::new(alloc))
        }
    }
}

impl<'a> Marker<'a> {
    fn mark(&mut self, at: usize, name: Option<&'a Identifier>) {
        self.has_failed |= self.marks.push(Mark { at, name }).is_err();
    }

    // Marks one instruction with the newest place.
    fn one(&mut self) {
        self.mark(self.here, None);
    }

    // The place of the next word that begins a statement; it becomes the newest place.
    fn word(&mut self) -> usize {
        let at = self.words.get(self.taken).copied().unwrap_or(NOWHERE);
        self.taken = self.taken.saturating_add(1);
        self.here = at;
        at
    }

    #[cycle(expressions)]
    fn expression(&mut self, tree: &'a Expression) {
        match tree {
            Expression::Number(_, _) => self.one(),
            Expression::Name(name) => {
                self.here = name.at;
                self.one();
            }
            Expression::Element(name, index) => {
                self.here = name.at;
                self.expression(index);
                self.mark(name.at, None);
            }
            Expression::Call(name, all) => {
                self.here = name.at;
                self.arguments(all.as_slice());
                self.mark(name.at, None);
            }
            Expression::Parenthesised(inner) => self.expression(inner),
            Expression::Unary(operator, operand) => {
                self.expression(operand);
                if unary_operation(*operator).is_some() {
                    self.one();
                }
            }
            Expression::Cast(_, operand) => self.expression(operand),
            Expression::Binary(operator, left, right) => {
                self.expression(left);
                if is_logical(*operator) {
                    self.one();
                }
                self.expression(right);
                self.one();
            }
            Expression::Conditional(test, held, other) => {
                self.expression(test);
                self.one();
                self.expression(held);
                self.one();
                self.expression(other);
            }
        }
    }

    #[cycle(expressions)]
    fn arguments(&mut self, trees: &'a [Expression]) {
        for tree in trees {
            self.expression(tree);
        }
    }

    fn action(&mut self, tree: &'a Action) {
        match tree {
            Action::Assign(operator, target, right) => {
                self.goal(target);
                self.expression(right);
                self.store(target, applied_operator(*operator).is_some());
            }
            Action::Step(operator, target) => self.step(*operator, target),
            Action::Evaluate(tree) => {
                self.expression(tree);
                self.one();
            }
        }
    }

    fn step(&mut self, operator: StepOperator, target: &'a Target) {
        self.goal(target);
        self.one();
        self.store(target, applied_operator(step_operator(operator)).is_some());
    }

    // Marks the instructions that push the index, if the target of an assignment is an element.
    fn goal(&mut self, target: &'a Target) {
        match target {
            Target::Variable(name) => self.here = name.at,
            Target::Element(name, index) => {
                self.here = name.at;
                self.expression(index);
            }
        }
    }

    // Marks the instructions that store a word in the target, with or without an operator.
    fn store(&mut self, target: &'a Target, is_applied: bool) {
        let name = match target {
            Target::Variable(name) => {
                if is_applied {
                    self.mark(name.at, None);
                    self.mark(name.at, None);
                    self.mark(name.at, None);
                }
                name
            }
            Target::Element(name, _) => {
                if is_applied {
                    self.mark(name.at, None);
                    self.mark(name.at, None);
                }
                name
            }
        };
        self.mark(name.at, Some(name));
    }

    fn locals(&mut self, trees: &'a [Declarator]) {
        for tree in trees {
            self.here = tree.name.at;
            self.one();
            self.one();
            if let Some(initial) = &tree.initial {
                self.expression(initial);
                self.mark(tree.name.at, Some(&tree.name));
            }
        }
    }

    fn optional_action(&mut self, tree: &'a Option<Action>) {
        match tree {
            Some(tree) => self.action(tree),
            None => {}
        }
    }

    fn condition(&mut self, tree: &'a Option<Box<Expression>>) {
        match tree {
            Some(tree) => self.expression(tree),
            None => self.one(),
        }
    }

    // Marks the instructions of a `return` with its value, of a `break` or of a `continue`.
    fn leave(&mut self, at: usize, given: &'a Option<Box<Expression>>) {
        self.here = at;
        self.condition(given);
        self.mark(at, None);
    }

    #[cycle(statements)]
    fn statement(&mut self, tree: &'a Statement) {
        match tree {
            Statement::Block(all) => self.statements(all),
            Statement::Local(_, declared) => self.locals(declared.as_slice()),
            Statement::Perform(action) => self.optional_action(action),
            Statement::Return(at, given) => self.leave(*at, given),
            Statement::Break(at) | Statement::Continue(at) => self.mark(*at, None),
            Statement::If(test, held) => {
                self.test(test);
                self.statement(held);
            }
            Statement::IfElse(test, held, other) => {
                self.test(test);
                self.statement(held);
                self.one();
                self.statement(other);
            }
            Statement::While(test, body) => self.while_loop(body, test),
            Statement::DoWhile(body, test) => self.do_loop(body, test),
            Statement::For(first, test, following, body) => {
                self.for_loop(first, test, following, body)
            }
        }
    }

    // Marks the instructions of the test of an `if`, and the jump after them.
    fn test(&mut self, test: &'a Expression) {
        let at = self.word();
        self.expression(test);
        self.mark(at, None);
    }

    #[cycle(statements)]
    fn while_loop(&mut self, body: &'a Statement, test: &'a Expression) {
        let at = self.word();
        self.expression(test);
        self.mark(at, None);
        self.mark(at, None);
        self.statement(body);
        self.mark(at, None);
    }

    #[cycle(statements)]
    fn do_loop(&mut self, body: &'a Statement, test: &'a Expression) {
        let at = self.word();
        self.mark(at, None);
        self.statement(body);
        let end = self.word();
        self.expression(test);
        self.mark(end, None);
        self.mark(end, None);
    }

    #[cycle(statements)]
    fn for_loop(
        &mut self,
        first: &'a Beginning,
        test: &'a Option<Box<Expression>>,
        following: &'a Option<Action>,
        body: &'a Statement,
    ) {
        let at = self.word();
        match first {
            Beginning::Declaration(_, declared) => self.locals(declared.as_slice()),
            Beginning::Action(action) => self.optional_action(action),
        }
        self.here = at;
        self.condition(test);
        self.mark(at, None);
        self.mark(at, None);
        self.optional_action(following);
        self.mark(at, None);
        self.mark(at, None);
        self.statement(body);
        self.mark(at, None);
    }

    #[cycle(statements)]
    fn statements(&mut self, trees: &'a [Statement]) {
        for tree in trees {
            self.statement(tree);
        }
    }

    // Marks the instructions of a function, and those of its end, which come from no place.
    fn definition(&mut self, signature: &'a Signature, statements: &'a [Statement]) {
        self.here = signature.name.at;
        self.statements(statements);
        self.mark(NOWHERE, None);
        self.mark(NOWHERE, None);
    }

    fn external(&mut self, tree: &'a External) {
        match tree {
            External::Definition(signature, body) => self.definition(signature, body.as_slice()),
            External::Declaration(_) | External::Objects(_, _) => {}
        }
    }
}

fn is_logical(operator: BinaryOperator) -> bool {
    matches!(
        operator,
        BinaryOperator::LogicalAnd | BinaryOperator::LogicalOr
    )
}

/// The marks of the instructions that `code_of` of `cc_diagnostic` writes for a unit.
///
/// `AllocError` if memory for them runs out.
pub fn marks_of(alloc: Global, unit: &Unit) -> Result<Vec<Mark<'_>>, AllocError> {
    let mut marker = Marker {
        marks: Vec::new(alloc),
        words: words_of(alloc, unit.text())?,
        taken: 0,
        here: 0,
        has_failed: false,
    };
    for tree in unit.externals() {
        marker.external(tree);
    }
    let Marker {
        marks,
        words,
        taken: _,
        here: _,
        has_failed,
    } = marker;
    drop(words);
    if has_failed {
        drop(marks);
        return Err(AllocError);
    }
    Ok(marks)
}
