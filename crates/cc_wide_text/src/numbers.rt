// The numbers of enumerators.

ghost use Rattle.std.specs.Prelude.{◌≡◌, ◌++◌, [], map, length, OnOk, IfOk};
ghost use Rattle.std.specs.List.{flat_map};
ghost use Rattle.cc_ast.specs.Erase.{constant_tree, expression_tree};
ghost use Rattle.cc_ast.specs.Source.{source};
ghost use Rattle.cc_tokens.specs.Token.{lexemes};
ghost use Rattle.cc_tokens.specs.Tokens.{AreInOrder};
ghost use Rattle.cc_types.specs.Types.{value_type};
ghost use Rattle.cc_wide_text.specs.Numbers.{number_bytes, numbered, is_number, word_of_constant, word_of_unit, IsConstantAnswer};
ghost use Rattle.cc_wide_text.specs.internal.Answers.{HasNoNumber, IsNumberAnswer, AreNumbersAnswer};
ghost use Rattle.cc_wide_text.specs.internal.Views.{lexeme_of, number, enumerator};

use crate::word::{Word, is_identifier, push_spaced, word_at};
use cc_ast::{ConstantExpression, Expression, External, Object, Scalar, Unit};
use cc_syntax::{parse, trees_are_determined};
use cc_tokens::{SyntaxFault, Token, tokens, tokens_are_determined};
use cc_types::{binary_type, common_type, constant_word, unary_type};
use std::alloc::{AllocError, Global};

/// An enumerator, and the bytes of its value.
#[derive(Drop)]
pub struct Constant {
    pub name: Vec<u8>,
    pub value: Vec<u8>,
    /// The number of the token that defines it.
    pub token: usize,
}

/// An enumerator, and the word of its number.
#[derive(Drop)]
pub struct Numbered {
    pub name: Vec<u8>,
    pub word: u32,
}

/// What the values of enumerators lead to.
#[derive(Drop)]
pub enum Counted {
    All(Vec<Numbered>),
    /// The value of this enumerator is no number: the number of the token that defines it.
    Wrong(usize),
}

// ---- how numbers are written

// Writes the number of type int with this word.
fn push_number(alloc: Global, written: &mut Vec<u8>, word: u32) -> Result<(), AllocError>
    ensures { OnOk result (written.new.items ≡ written.old.items ++ number_bytes word) }
{
    if word < 0x8000_0000 {
        let digits = format!(in alloc; "{word}")?;
        written.extend_from_slice(digits.as_bytes())?;
        return written.extend_from_slice(b" ");
    }
    let below = 0xffff_ffff - word + 1;
    let digits = format!(in alloc; "{below}")?;
    written.extend_from_slice(b"( - ")?;
    written.extend_from_slice(digits.as_bytes())?;
    written.extend_from_slice(b" ) ")
}

impl Numbered {
    ghost use Rattle.cc_wide_text.specs.Numbers.{word_of, numbered};

    // The word of the number that a name has, if it is an enumerator.
    fn find(all: &[Numbered], name: &[u8]) -> Option<u32>
        ensures { result ≡ word_of (map number all.now) name.now }
    {
        for one in all {
            if one.name.as_slice() == name {
                return Some(one.word);
            }
        }
        None
    }

    /// Writes a token, or the number that it has.
    pub fn push(
        alloc: Global,
        written: &mut Vec<u8>,
        all: &[Numbered],
        x: &Word<'_>,
    ) -> Result<(), AllocError>
        ensures { OnOk result (written.new.items ≡ written.old.items ++ numbered (map number all.now) (lexeme_of x.now)) }
    {
        if is_identifier(x.kind) {
            match Numbered::find(all, x.bytes) {
                Some(word) => push_number(alloc, written, word),
                None => push_spaced(written, x.bytes),
            }
        } else {
            push_spaced(written, x.bytes)
        }
    }
}

// ---- values

// The type of an expression without names.
fn constant_type(tree: &Expression) -> Scalar
    ensures { result ≡ value_type [] (expression_tree tree.now) }
{
    match tree {
        Expression::Number(scalar, _) | Expression::Cast(scalar, _) => *scalar,
        Expression::Name(_) | Expression::Element(_, _) | Expression::Call(_, _) => Scalar::Int,
        Expression::Parenthesised(inner) => constant_type(inner),
        Expression::Unary(operator, operand) => unary_type(*operator, constant_type(operand)),
        Expression::Binary(operator, left, right) => {
            binary_type(*operator, constant_type(left), constant_type(right))
        }
        Expression::Conditional(_, held, other) => {
            common_type(constant_type(held), constant_type(other))
        }
    }
}

fn is_number(scalar: Scalar, word: u32) -> bool
    ensures { result ≡ is_number scalar word }
{
    match scalar {
        Scalar::Int => word != 0x8000_0000,
        Scalar::Unsigned => word < 0x8000_0000,
    }
}

// The word of a constant, if it is that of a number.
fn word_of_constant(constant: &ConstantExpression) -> Option<u32>
    ensures { result ≡ word_of_constant (constant_tree constant.now) }
{
    let word = constant_word(constant)?;
    if is_number(constant_type(&constant.expression), word) {
        Some(word)
    } else {
        None
    }
}

// The word of the only object's initialiser, if it is that of a number.
fn word_of_unit(unit: &Unit) -> Option<u32>
    ensures { result ≡ word_of_unit (source unit.now).externals }
{
    match unit.externals() {
        [External::Objects(Scalar::Int, objects)] => match objects.as_slice() {
            [Object::Single(_, Some(constant))] => word_of_constant(constant),
            _ => None,
        },
        _ => None,
    }
}

// What is refused has no number, unless memory ran out.
fn no_number(fault: SyntaxFault) -> Result<Option<u32>, AllocError>
    ensures { IfOk result (λ word. HasNoNumber fault word) }
{
    match fault {
        SyntaxFault::OutOfMemory => Err(AllocError),
        SyntaxFault::BadByte(_)
        | SyntaxFault::UnclosedComment(_)
        | SyntaxFault::BadConstant(_)
        | SyntaxFault::ConstantTooLarge(_)
        | SyntaxFault::Unexpected(_)
        | SyntaxFault::TooDeep(_)
        | SyntaxFault::SourceTooLarge => Ok(None),
    }
}

/// The word of a constant expression, if its bytes are one and the word is that of a number from -2147483647 to 2147483647.
pub fn constant_of(alloc: Global, value: &[u8]) -> Result<Option<u32>, AllocError>
    ensures { IfOk result (λ word. IsConstantAnswer value.now word) }
{
    let mut text = Vec::from_slice(alloc, b"int __enum = ")?;
    text.extend_from_slice(value)?;
    text.extend_from_slice(b"; ")?;
    match parse(alloc, text.as_slice()) {
        Ok(unit) => Ok(word_of_unit(&unit)),
        Err(fault) => no_number(fault),
    }
}

// The bytes of tokens, with enumerators replaced by their numbers.
fn all_numbered(
    alloc: Global,
    numbers: &[Numbered],
    text: &[u8],
    tokens: &[Token],
) -> Result<Vec<u8>, AllocError>
    requires { AreInOrder 0 tokens.now (length text.now) }
    ensures { IfOk result (λ v. v.items ≡ flat_map (numbered (map number numbers.now)) (lexemes text.now tokens.now)) }
{
    let mut written = Vec::new(alloc);
    for i in 0..tokens.len() {
        Numbered::push(alloc, &mut written, numbers, &word_at(text, tokens, i))?;
    }
    Ok(written)
}

// The word of an enumerator's number, given the numbers of those before it, if it has one.
fn number_of(alloc: Global, numbers: &[Numbered], one: &Constant) -> Result<Option<u32>, AllocError>
    ensures { IfOk result (λ word. IsNumberAnswer (map number numbers.now) (enumerator one.now) word) }
{
    tokens_are_determined();
    let value = one.value.as_slice();
    match tokens(alloc, value) {
        Ok(found) => {
            let bytes = all_numbered(alloc, numbers, value, found.as_slice())?;
            constant_of(alloc, bytes.as_slice())
        }
        Err(fault) => no_number(fault),
    }
}

/// The numbers of enumerators.
pub fn numbers_of(alloc: Global, enumerators: &[Constant]) -> Result<Counted, AllocError>
    ensures { IfOk result (λ counted. AreNumbersAnswer (map enumerator enumerators.now) counted) }
{
    tokens_are_determined();
    trees_are_determined();
    let mut numbers = Vec::new(alloc);
    for one in enumerators {
        match number_of(alloc, numbers.as_slice(), one)? {
            Some(word) => {
                let name = Vec::from_slice(alloc, one.name.as_slice())?;
                numbers.push(Numbered { name, word })?;
            }
            None => return Ok(Counted::Wrong(one.token)),
        }
    }
    Ok(Counted::All(numbers))
}
