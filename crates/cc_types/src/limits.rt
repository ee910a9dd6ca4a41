// The limits, and how names and the words of objects are counted. The check and the passes both use these.

ghost use Rattle.std.specs.Prelude.{◌≡◌, [], ◌∷◌, None, length, IfOk};
ghost use Rattle.cc_ast.specs.Erase.{name_tree, optional_constant, constant_trees, declarator_trees, beginning_tree, statement_tree, statements_of, object_tree};
ghost use Rattle.cc_types.specs.Counts.{count_after};
ghost use Rattle.cc_types.specs.Limits.{declared_names, beginning_names, locals_of, locals};
ghost use Rattle.cc_types.specs.Types.{array_elements, object_elements, object_words};

use super::constants::array_length;
use cc_ast::{Beginning, ConstantExpression, Declarator, Identifier, Object, Statement};
use cc_words::Width;
use std::alloc::AllocError;

/// A function has at most this many parameters.
pub const MOST_PARAMETERS: usize = 8;

/// A function has at most this many locals, not counting its parameters.
pub const MOST_LOCALS: usize = 256;

/// A unit defines at most this many functions.
pub const MOST_FUNCTIONS: usize = 64;

/// All objects at file scope together have at most this many words.
pub const MOST_WORDS: usize = 65536;

/// How many names are allowed (`most`), how many have been counted, up to `most`, and the offset of the first name past that
/// number.
#[derive(Clone, Copy)]
pub struct Count {
    pub most: usize,
    pub names: usize,
    pub past: Option<usize>,
}

impl Count {
    /// Returns a count of no names.
    pub fn new(most: usize) -> Count
        ensures { result ≡ record { most = most; names = 0; past = None } }
    {
        Count {
            most,
            names: 0,
            past: None,
        }
    }

    /// Counts one more name.
    pub fn add(&mut self, name: &Identifier)
        ensures { self.new ≡ count_after self.old (name_tree name.now ∷ []) }
    {
        if self.names < self.most {
            self.names += 1;
        } else if self.past.is_none() {
            self.past = Some(name.at);
        }
    }
}

// ---- locals

fn count_declared(count: &mut Count, names: &[Declarator])
    ensures { count.new ≡ count_after count.old (declared_names (declarator_trees names.now)) }
{
    for declarator in names {
        count.add(&declarator.name);
    }
}

fn count_beginning(count: &mut Count, beginning: &Beginning)
    ensures { count.new ≡ count_after count.old (beginning_names (beginning_tree beginning.now)) }
{
    match beginning {
        Beginning::Declaration(_, names) => count_declared(count, names.as_slice()),
        Beginning::Action(_) => {}
    }
}

#[cycle(locals)]
fn count_locals_of(count: &mut Count, statement: &Statement)
    ensures { count.new ≡ count_after count.old (locals_of (statement_tree statement.now)) }
{
    match statement {
        Statement::Block(all) => count_locals(count, all.as_slice()),
        Statement::Local(_, names) => count_declared(count, names.as_slice()),
        Statement::If(_, held) => count_locals_of(count, held),
        Statement::IfElse(_, held, other) => {
            count_locals_of(count, held);
            count_locals_of(count, other);
        }
        Statement::While(_, body) => count_locals_of(count, body),
        Statement::DoWhile(body, _) => count_locals_of(count, body),
        Statement::For(beginning, _, _, body) => {
            count_beginning(count, beginning);
            count_locals_of(count, body);
        }
        Statement::Perform(_)
        | Statement::Return(_, _)
        | Statement::Break(_)
        | Statement::Continue(_) => {}
    }
}

/// Counts the locals that statements declare, those in inner blocks included.
#[cycle(locals)]
pub fn count_locals(count: &mut Count, all: &[Statement])
    ensures { count.new ≡ count_after count.old (locals (statements_of all.now)) }
{
    for statement in all {
        count_locals_of(count, statement);
    }
}

/// How many locals a function's body declares, in all its blocks together. `AllocError` if the number does not fit in a `usize`;
/// such a body would not fit in memory.
pub fn local_count(body: &[Statement]) -> Result<usize, AllocError>
    ensures { IfOk result (λ n. n ≡ length (locals (statements_of body.now))) }
{
    let mut count = Count::new(usize::MAX);
    count_locals(&mut count, body);
    match count.past {
        None => Ok(count.names),
        Some(_) => Err(AllocError),
    }
}

// ---- words

/// How many elements an object has: 1 for a single object, 0 for an array whose length is not known.
pub fn object_elements(object: &Object) -> usize
    ensures { result ≡ object_elements (object_tree object.now) }
{
    match object {
        Object::Single(_, _) => 1,
        Object::Array(_, length, values) | Object::Bytes(_, length, values) => {
            array_elements(length, values.as_slice())
        }
    }
}

/// How many words an object occupies: 0 if its length is not known.
pub fn object_words(object: &Object) -> usize
    ensures { result ≡ object_words (object_tree object.now) }
{
    match object {
        Object::Single(_, _) => 1,
        Object::Array(_, length, values) => array_elements(length, values.as_slice()),
        Object::Bytes(_, length, values) => {
            Width::Byte.words_of(array_elements(length, values.as_slice()))
        }
    }
}

// How many elements an array has: 0 if the number is not known.
fn array_elements(length: &Option<ConstantExpression>, values: &[ConstantExpression]) -> usize
    ensures { result ≡ array_elements (optional_constant length.now) (constant_trees values.now) }
{
    match array_length(length, values) {
        None => 0,
        Some(count) => count,
    }
}
