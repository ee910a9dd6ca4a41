// The labels of a switch.

use cc_ast::{Action, AssignmentOperator, Expression, Statement, Target};

/// A label, as the marked text has it, and the offset of its mark there.
#[derive(Clone, Copy)]
pub enum Mark {
    Case(usize),
    Default(usize),
}

impl Mark {
    pub fn at(self) -> usize {
        match self {
            Mark::Case(at) | Mark::Default(at) => at,
        }
    }
}

/// A label of a switch: the word of its constant, or that it is a `default`; and the number of its section, from 1.
#[derive(Clone, Copy)]
pub struct Label {
    pub word: Option<u32>,
    pub section: usize,
}

/// How many cases are tried one after another, and how many sections: more are halved.
pub const FEW_CASES: usize = 4;

pub const FEW_SECTIONS: usize = 8;

/// The words from one on, and below another if there is that.
#[derive(Clone, Copy)]
pub struct Range {
    low: u32,
    high: Option<u32>,
}

impl Range {
    /// All words.
    pub const ALL: Range = Range { low: 0, high: None };

    pub fn has(self, word: u32) -> bool {
        match self.high {
            Some(high) => self.low <= word && word < high,
            None => self.low <= word,
        }
    }

    pub fn below(self, word: u32) -> Range {
        Range {
            low: self.low,
            high: Some(word),
        }
    }

    pub fn from(self, word: u32) -> Range {
        Range {
            low: word,
            high: self.high,
        }
    }
}

/// How many cases are in a range.
pub fn count_in(range: Range, labels: &[Label]) -> usize {
    let mut count: usize = 0;
    for label in labels {
        if let Some(word) = label.word {
            if range.has(word) {
                count = count.saturating_add(1);
            }
        }
    }
    count
}

/// The first word of a case in a range that has so many cases of the range below it, or 0.
pub fn middle(range: Range, below: usize, labels: &[Label]) -> u32 {
    for label in labels {
        if let Some(word) = label.word {
            if range.has(word) && count_in(range.below(word), labels) == below {
                return word;
            }
        }
    }
    0
}

/// Whether the test of a `while` is the mark of a `switch`.
pub fn is_switch(test: &Expression) -> bool {
    match test {
        Expression::Name(name) => name.bytes.as_slice() == b"__switch".as_slice(),
        _ => false,
    }
}

fn default_of(value: &Expression) -> Option<Mark> {
    match value {
        Expression::Name(name) if name.bytes.as_slice() == b"__default".as_slice() => {
            Some(Mark::Default(name.at))
        }
        _ => None,
    }
}

/// The label that a statement is, if it is one.
pub fn mark_of(tree: &Statement) -> Option<Mark> {
    match tree {
        Statement::Perform(
            Some(Action::Assign(AssignmentOperator::Plain, Target::Variable(name), _)),
        ) if name.bytes.as_slice() == b"__case".as_slice() => Some(Mark::Case(name.at)),
        Statement::Perform(Some(Action::Evaluate(value))) => default_of(value),
        _ => None,
    }
}

/// Whether a statement is a declaration.
pub fn is_declaration(tree: &Statement) -> bool {
    match tree {
        Statement::Local(_, _) => true,
        _ => false,
    }
}

/// How many sections the statements of a switch's block are: a section begins with each label that follows no label.
pub fn section_count(all: &[Statement]) -> usize {
    let mut count: usize = 0;
    let mut after_label = false;
    for tree in all {
        let is_label = mark_of(tree).is_some();
        if is_label && !after_label {
            count = count.saturating_add(1);
        }
        after_label = is_label;
    }
    count
}

/// The section of `default`, or one more than the last one.
pub fn default_section(labels: &[Label], sections: usize) -> usize {
    for label in labels {
        if label.word.is_none() {
            return label.section;
        }
    }
    sections.saturating_add(1)
}

/// Whether one of the labels has this word, or is a `default` as this one.
pub fn has_word(labels: &[Label], word: Option<u32>) -> bool {
    for label in labels {
        if label.word == word {
            return true;
        }
    }
    false
}

/// How many switches are inside one another.
#[cycle(nesting)]
pub fn nesting(tree: &Statement) -> usize {
    match tree {
        Statement::Block(all) => nesting_of_all(all.as_slice()),
        Statement::If(_, held) => nesting(held),
        Statement::IfElse(_, held, other) => nesting(held).max(nesting(other)),
        Statement::While(test, body) => {
            let inner = nesting(body);
            if is_switch(test) {
                inner.saturating_add(1)
            } else {
                inner
            }
        }
        Statement::DoWhile(body, _) | Statement::For(_, _, _, body) => nesting(body),
        Statement::Local(_, _)
        | Statement::Perform(_)
        | Statement::Return(_, _)
        | Statement::Break(_)
        | Statement::Continue(_) => 0,
    }
}

/// How many switches are inside one another in statements.
#[cycle(nesting)]
pub fn nesting_of_all(all: &[Statement]) -> usize {
    let mut most: usize = 0;
    for tree in all {
        most = most.max(nesting(tree));
    }
    most
}
