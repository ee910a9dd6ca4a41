// One walk over a tree, in the order of its text, with the names in scope.
//
// The walk notes what is at one offset of the text, and writes the instructions of each function. The tree does not keep the
// places of the operators that can go wrong. But these operators are in the tree in the order of their tokens, so the walk
// takes the places of those tokens one after another. A tree that breaks rules is visited like any other: a part without
// meaning becomes a constant, or no instruction at all.
//
// If memory is refused, the walk notes this and continues; `externals` reports it at the end. So no step of the walk returns an
// error.

mod expressions;
mod statements;
mod units;

use super::code::{Bytecode, Element, Function, Instruction};
use super::folding::folded;
use super::names::{Names, Standing};
use super::operators::operators;
use super::warning::Warning;
use cc_syntax::{Identifier, Signature, Unit};
use std::alloc::{AllocError, Global};
use std::mem::replace;

/// No near name is looked for after more comparisons of names than this. So a text with fewer than 400 names in scope gets one for
/// each of 20 errors, and the longest text with the most names gets one for at least the first.
const MOST_COMPARED: usize = 8_192;

/// What is done at an offset.
#[derive(Clone, Copy)]
pub enum Use {
    /// A name is declared.
    Declared,
    /// A name is read as a value.
    Read,
    /// A name is indexed.
    Indexed,
    /// A name is written to.
    Written,
    /// A name is called, with this many arguments.
    Called(usize),
    /// A function returns, with a value or without.
    Returned(bool),
    /// A constant expression begins.
    Constant,
}

/// What is at an offset: what is done there, what the name denoted before, the function around it, and, for a name that denotes
/// nothing, the nearest name in scope.
#[derive(Clone, Copy)]
pub struct Note<'a> {
    pub done: Use,
    pub standing: Option<Standing<'a>>,
    pub inside: Option<&'a Signature>,
    pub near: Option<&'a [u8]>,
}

/// The first use of a name that denotes nothing there: the offset, the name, and what is noted.
#[derive(Clone, Copy)]
pub struct Stray<'a> {
    pub at: usize,
    pub word: &'a [u8],
    pub note: Note<'a>,
}

/// A walk: the names in scope, how many variables the function has so far, and the function; the places of operators that can
/// go wrong, and how many of them were taken; the offset for which a note is wanted, and the note; and what has been written.
/// It also keeps the instruction numbers of the jumps out of loops that have no target yet, and as many strays as it has room for.
#[derive(Drop)]
pub struct Walk<'a> {
    names: Names<'a>,
    variables: usize,
    inside: Option<&'a Signature>,
    operators: Vec<usize>,
    taken: usize,
    wanted: Option<usize>,
    breaks: Vec<usize>,
    continues: Vec<usize>,
    pub note: Option<Note<'a>>,
    pub code: Vec<Instruction<'a>>,
    pub functions: Vec<Function<'a>>,
    pub warnings: Vec<Warning<'a>>,
    pub strays: Vec<Stray<'a>>,
    /// At most this many strays are kept: the first ones, in the order of the text.
    pub room: usize,
    // The offset of the first name that was used in the current statement.
    first: Option<usize>,
    // How many names were compared to find the nearest ones.
    compared: usize,
    // How many words the objects so far have.
    words: usize,
    // Whether memory was refused for something that was to be written.
    failed: bool,
}

impl<'a> Walk<'a> {
    /// Returns a walk that has not visited any external declaration yet, over a text with operators at these offsets. It will
    /// note what is at the wanted offset, and has room for no strays.
    pub fn new(
        alloc: Global,
        operators: Vec<usize>,
        wanted: Option<usize>,
    ) -> Result<Walk<'a>, AllocError> {
        let mut names = Names::new(alloc);
        names.add_builtins()?;
        Ok(Walk {
            names,
            variables: 0,
            inside: None,
            operators,
            taken: 0,
            wanted,
            breaks: Vec::new(alloc),
            continues: Vec::new(alloc),
            note: None,
            code: Vec::new(alloc),
            functions: Vec::new(alloc),
            warnings: Vec::new(alloc),
            strays: Vec::new(alloc),
            room: 0,
            first: None,
            compared: 0,
            words: 0,
            failed: false,
        })
    }

    // Notes what is at an offset, if it is the wanted one. A later note does not replace an earlier one.
    fn note(&mut self, at: usize, done: Use, standing: Option<Standing<'a>>) {
        if self.wanted == Some(at) && self.note.is_none() {
            self.note = Some(Note {
                done,
                standing,
                inside: self.inside,
                near: None,
            });
        }
    }

    // The name in scope that is nearest to this one, if any is near and not too many were compared before.
    fn near(&mut self, word: &[u8]) -> Option<&'a [u8]> {
        if self.compared > MOST_COMPARED {
            return None;
        }
        self.compared = self.compared.saturating_add(self.names.len());
        self.names.near(word)
    }

    // Whether a stray with this name is kept.
    fn has_stray(&self, word: &[u8]) -> bool {
        self.strays.iter().any(|stray| stray.word == word)
    }

    // Keeps the use of a name that denotes nothing, if it is the first one and there is room for it.
    fn keep_stray(&mut self, name: &'a Identifier, done: Use) {
        let (at, word) = (name.at, name.bytes.as_slice());
        if self.strays.len() >= self.room || self.has_stray(word) {
            return;
        }
        let near = self.near(word);
        let note = Note {
            done,
            standing: None,
            inside: self.inside,
            near,
        };
        self.failed |= self.strays.push(Stray { at, word, note }).is_err();
    }

    // What a name that is used here denotes.
    fn look_up(&mut self, name: &'a Identifier, done: Use) -> Option<Standing<'a>> {
        let standing = self.names.find(name.bytes.as_slice());
        self.note(name.at, done, standing);
        self.first = self.first.or(Some(name.at));
        if standing.is_some() {
            return standing;
        }
        self.keep_stray(name, done);
        if self.wanted == Some(name.at) {
            let near = self.near(name.bytes.as_slice());
            if let Some(note) = &mut self.note {
                note.near = near;
            }
        }
        None
    }

    fn warn(&mut self, warning: Warning<'a>) {
        self.failed |= self.warnings.push(warning).is_err();
    }

    // The constant that the instructions from number `start` on compute, if they do nothing else.
    fn constant_since(&self, start: usize) -> Option<u32> {
        folded(self.code.as_slice().get(start..)?)
    }

    // Warns about an index if it is a constant outside its array.
    fn warn_of_index(&mut self, element: Element<'a>) {
        if let Some(word) = element.constant
            && word as usize >= element.extent.length
        {
            self.warn(Warning::Index(element, word));
        }
    }

    // Whether the instructions from number `start` on call anything.
    fn calls_since(&self, start: usize) -> bool {
        for i in start..self.code.len() {
            if let Some(Instruction::Call(_, _) | Instruction::Read | Instruction::Write) = self
                .code
                .get(i)
            {
                return true;
            }
        }
        false
    }

    // Warns about an expression whose value is not used, if the instructions from number `start` on call nothing.
    fn warn_of_effect(&mut self, start: usize) {
        if let Some(at) = self.first
            && !self.calls_since(start)
        {
            self.warn(Warning::NoEffect(at));
        }
    }

    fn emit(&mut self, instruction: Instruction<'a>) {
        if self.code.push(instruction).is_err() {
            self.failed = true;
        }
    }

    // Declares a name in the innermost scope.
    fn declare(&mut self, name: &'a Identifier, standing: Standing<'a>) {
        if self.names.declare(name.bytes.as_slice(), standing).is_err() {
            self.failed = true;
        }
    }

    // Writes an instruction that will be replaced with a jump, and returns its number.
    fn open_jump(&mut self) -> usize {
        let number = self.code.len();
        self.emit(Instruction::Drop);
        number
    }

    // Replaces an instruction.
    fn replace(&mut self, number: usize, instruction: Instruction<'a>) {
        if let Some(place) = self.code.get_mut(number) {
            *place = instruction;
        }
    }

    // The offset of the next operator that can go wrong.
    fn next_operator(&mut self) -> usize {
        let at = self.operators.get(self.taken).copied().unwrap_or(0);
        self.taken = self.taken.saturating_add(1);
        at
    }
}

// What a walk over a unit writes, given the offsets of its operators that can go wrong.
fn written<'a>(
    alloc: Global,
    unit: &'a Unit,
    operators: Vec<usize>,
) -> Result<Bytecode<'a>, AllocError> {
    let mut walk = Walk::new(alloc, operators, None)?;
    let walked = walk.externals(unit.externals());
    let code = Bytecode {
        instructions: replace(&mut walk.code, Vec::new(alloc)),
        functions: replace(&mut walk.functions, Vec::new(alloc)),
    };
    drop(walk);
    match walked {
        Ok(()) => Ok(code),
        Err(error) => {
            drop(code);
            Err(error)
        }
    }
}

/// Returns the instructions into which a unit's tree is translated for a second run. `None` for a text that cannot be split
/// into tokens, which no unit has.
///
/// Fails with `AllocError` if memory runs out.
pub fn code_of(alloc: Global, unit: &Unit) -> Result<Option<Bytecode<'_>>, AllocError> {
    match operators(alloc, unit.text())? {
        Some(operators) => Ok(Some(written(alloc, unit, operators)?)),
        None => Ok(None),
    }
}
