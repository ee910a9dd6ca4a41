// How names become numbers (of locals, objects and functions), and how operators become operations.

use super::calls::typed_unit;
use cc_layout::Callee;
use cc_resolve::{
    BinaryOperation, Environment, UnaryOperation, declare_statement, function_environment, lay_out,
    leave_function, operation, unary_operation,
};
use cc_syntax::{BinaryOperator, Scalar, Statement, UnaryOperator};
use cc_types::{Definition, TypedUnit};
use std::alloc::{AllocError, Global};
use std::test::Fail;
use tests_texts::verdict::passes;

fn declare_all<'a>(
    names: &mut Environment<'a>,
    statements: &'a [Statement],
) -> Result<(), AllocError> {
    for statement in statements {
        declare_statement(names, statement)?;
    }
    Ok(())
}

/// Whether the names of the text below have the right numbers, in the body of `f`.
fn are_numbered(names: &Environment<'_>) -> bool {
    let numbers = [names.local(b"n"), names.local(b"i"), names.local(b"g")];
    let locals = numbers == [Some(0), Some(1), None] && names.len() == 2;
    let (array, object) = (names.object(b"a"), names.object_number(b"u"));
    let objects = array.offset == 1 && array.length == 2 && object == Some(2);
    let main = matches!(names.callee(b"main"), Callee::Defined(0));
    let functions = main && matches!(names.callee(b"f"), Callee::Defined(1));
    let builtins = matches!(names.callee(b"read_word"), Callee::ReadWord);
    let unsigned = matches!(names.variable_type(b"i"), Scalar::Unsigned);
    locals && objects && functions && builtins && unsigned
}

/// Whether the names have the right numbers within the definition of `f`, and no local remains after it.
fn is_right_in<'a>(names: &mut Environment<'a>, f: Definition<'a>) -> Result<bool, AllocError> {
    declare_all(names, f.body)?;
    let inside = are_numbered(names);
    leave_function(names);
    Ok(inside && names.len() == 0 && names.local(b"n").is_none())
}

fn are_resolved(alloc: Global, typed: &TypedUnit) -> Result<bool, AllocError> {
    if typed.functions() != 2 {
        return Ok(false);
    }
    let f = typed.definition(1);
    let mut words = Vec::new(alloc);
    drop(lay_out(alloc, &mut words, typed.externals())?);
    let has_words = words.as_slice() == [3u32, 1, 2, 0].as_slice();
    drop(words);
    let mut names = function_environment(alloc, typed, 1)?;
    let is_right = is_right_in(&mut names, f);
    drop(names);
    Ok(is_right? && has_words)
}

#[test]
fn numbers_of_names(rt: HostRuntime) -> Result<(), Fail> {
    let text = b"int g=3,a[2]={1,2};unsigned u;int main(void){}void f(int n){unsigned i;}";
    let typed = typed_unit(rt.alloc(), text.as_slice())?;
    let is_right = are_resolved(rt.alloc(), &typed);
    drop(typed);
    passes(Ok(is_right?))
}

#[test]
fn operations_of_operators(rt: HostRuntime) {
    let quotient = operation(BinaryOperator::Divide, Scalar::Unsigned);
    let below = operation(BinaryOperator::Less, Scalar::Int);
    let minus = unary_operation(UnaryOperator::Minus);
    let plus = unary_operation(UnaryOperator::Plus);
    assert!(rt;
        matches!(quotient, BinaryOperation::DivideUnsigned)
            && matches!(below, BinaryOperation::LessSigned)
            && matches!(minus, Some(UnaryOperation::Negate))
            && plus.is_none()
    );
}
