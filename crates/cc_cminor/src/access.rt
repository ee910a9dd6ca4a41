// Variables, which are locals or objects of one word, and elements.

ghost use Rattle.std.specs.Prelude.{◌≡◌, IfOk};
ghost use Rattle.cc_types.specs.Scope.{found};
ghost use Rattle.cc_types.specs.Types.{variable_type, element_type};
ghost use Rattle.cc_layout.specs.Environment.{types_in};
ghost use Rattle.cc_cminor_language.specs.Cminor as cminor;
ghost use Rattle.cc_cminor_language.specs.Code.{expression_of, statement_of};
ghost use Rattle.cc_cminor.specs.internal.Lowering.{object_of, width_of, variable_of, variable_set};
ghost use Rattle.cc_cminor.specs.internal.Taken.{code_before, taken_of, at_once, kept};

use super::taken::{Taken, at_once, kept};
use cc_cminor_language::{Expression, Statement, boxed_expression, boxed_statement, constant};
use cc_resolve::Environment;
use cc_words::Width;
use std::alloc::{AllocError, Global};

/// The number of the object with this name; 0 if no object has it.
pub fn object(names: &Environment<'_>, name: &[u8]) -> usize
    ensures { result ≡ object_of names.now.layout name.now }
{
    names.object_number(name).unwrap_or(0)
}

/// How wide the elements of the object with this name are.
pub fn width(names: &Environment<'_>, name: &[u8]) -> Width
    ensures { result ≡ width_of names.now.layout name.now }
{
    names.object(name).width
}

/// The expression that reads a variable.
pub fn read_variable(
    alloc: Global,
    names: &Environment<'_>,
    name: &[u8],
) -> Result<Box<Expression>, AllocError>
    ensures { IfOk result (λ e. expression_of e.value ≡ variable_of names.now.layout names.now name.now) }
{
    let expression = match names.local(name) {
        Some(number) => Expression::Local(number),
        None => {
            let zero = constant(alloc, 0)?;
            Expression::Load(Width::Word, object(names, name), zero)
        }
    };
    boxed_expression(alloc, expression)
}

/// The statement that puts a value into a variable.
pub fn set_variable(
    alloc: Global,
    names: &Environment<'_>,
    name: &[u8],
    value: Box<Expression>,
) -> Result<Box<Statement>, AllocError>
    ensures { IfOk result (λ s. statement_of s.value ≡ variable_set names.now.layout names.now name.now (expression_of value.value)) }
{
    let statement = match names.local(name) {
        Some(number) => Statement::Set(number, value),
        None => {
            let zero = constant(alloc, 0)?;
            Statement::Store(Width::Word, object(names, name), zero, value)
        }
    };
    boxed_statement(alloc, statement)
}

/// The value of a variable.
pub fn variable(alloc: Global, names: &Environment<'_>, name: &[u8]) -> Result<Taken, AllocError>
    ensures scalar { IfOk result (λ u. u.scalar ≡ variable_type (found (types_in names.now) name.now)) }
    ensures value { IfOk result (λ u. taken_of u.before u.expression ≡ at_once (variable_of names.now.layout names.now name.now)) }
{
    let expression = read_variable(alloc, names, name)?;
    Ok(at_once(names.variable_type(name), expression))
}

/// The value of an element. It waits in variable `k` if there is code before its index.
pub fn element(
    alloc: Global,
    names: &Environment<'_>,
    k: usize,
    name: &[u8],
    index: Taken,
) -> Result<Taken, AllocError>
    ensures scalar { IfOk result (λ u. u.scalar ≡ element_type (found (types_in names.now) name.now)) }
    ensures value { IfOk result (λ u. taken_of u.before u.expression ≡ kept k (code_before index.before) (cminor.Load (width_of names.now.layout name.now) (object_of names.now.layout name.now) (expression_of index.expression.value))) }
{
    let Taken {
        scalar: _,
        before,
        expression,
    } = index;
    let load = Expression::Load(width(names, name), object(names, name), expression);
    let load = boxed_expression(alloc, load)?;
    kept(alloc, k, names.element_type(name), before, load)
}
