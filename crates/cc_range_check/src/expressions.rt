// The range of an expression's value, and the operations in it that are not covered.
//
// The recursion is as deep as the expression, which has at most 512 tokens of the source.

ghost use Rattle.std.specs.Prelude.{◌≡◌, IfOk, OnOk};
ghost use Rattle.cc_cminor_language.specs.Code.{expression_of, expressions_of};
ghost use Rattle.cc_range_table.specs.Inductive.{range_of, are_arguments};
ghost use Rattle.cc_range_check.specs.Sizes.{sizes_of};
ghost use Rattle.cc_range_check.specs.Values.{facts_of};
ghost use Rattle.cc_range_check.specs.internal.Walked.{FindsIn, FindsInAll, FindsIndex};

use crate::places::{Found, Need, counted, see};
use crate::ranges::range_at;
use crate::sizes::{ObjectSize, elements_in};
use crate::table::Facts;
use cc_cminor_language::Expression;
use cc_range::{Range, is_covered, of_binary, of_unary};
use cc_words::Width;
use std::alloc::AllocError;

/// The range of an expression's value.
pub fn range_of(facts: &Facts, e: &Expression) -> Range
    ensures { result ≡ range_of (facts_of facts.now) (expression_of e.now) }
{
    match e {
        Expression::Constant(word) => Range::only(*word),
        Expression::Local(variable) => range_at(facts.variables.as_slice(), *variable),
        Expression::Unary(operator, a) => of_unary(*operator, range_of(facts, a)),
        Expression::Binary(operator, a, b) => {
            of_binary(*operator, range_of(facts, a), range_of(facts, b))
        }
        Expression::Load(_, object, _) => range_at(facts.objects.as_slice(), *object),
    }
}

/// Sees an index, which has this range, into an object.
pub(crate) fn see_index(
    found: &mut Found,
    sizes: &[ObjectSize],
    width: Width,
    object: usize,
    range: Range,
) -> Result<(), AllocError>
    ensures { OnOk result (FindsIndex (sizes_of sizes.now) width object range found.old found.new) }
{
    let elements = elements_in(sizes, width, object);
    let is_inside = range.is_index(elements as usize);
    see(found, 1, is_inside, Need::Index(elements, range))
}

/// Sees the operations of an expression, and returns the range of its value.
pub(crate) fn see_expression(
    found: &mut Found,
    sizes: &[ObjectSize],
    facts: &Facts,
    e: &Expression,
) -> Result<Range, AllocError>
    ensures range { IfOk result (λ r. r ≡ range_of (facts_of facts.now) (expression_of e.now)) }
    ensures found { OnOk result (FindsIn (sizes_of sizes.now) (facts_of facts.now) (expression_of e.now) found.old found.new) }
{
    match e {
        Expression::Constant(word) => Ok(Range::only(*word)),
        Expression::Local(variable) => Ok(range_at(facts.variables.as_slice(), *variable)),
        Expression::Unary(operator, a) => {
            let a = see_expression(found, sizes, facts, a)?;
            Ok(of_unary(*operator, a))
        }
        Expression::Binary(operator, a, b) => {
            let a = see_expression(found, sizes, facts, a)?;
            let b = see_expression(found, sizes, facts, b)?;
            let is_covered = is_covered(*operator, a, b);
            see(
                found,
                counted(*operator),
                is_covered,
                Need::Operands(*operator, a, b),
            )?;
            Ok(of_binary(*operator, a, b))
        }
        Expression::Load(width, object, i) => {
            let i = see_expression(found, sizes, facts, i)?;
            see_index(found, sizes, *width, *object, i)?;
            Ok(range_at(facts.objects.as_slice(), *object))
        }
    }
}

/// Sees the operations of a call's arguments.
pub(crate) fn see_expressions(
    found: &mut Found,
    sizes: &[ObjectSize],
    facts: &Facts,
    es: &[Expression],
) -> Result<(), AllocError>
    ensures { OnOk result (FindsInAll (sizes_of sizes.now) (facts_of facts.now) (expressions_of es.now) found.old found.new) }
{
    for e in es {
        see_expression(found, sizes, facts, e)?;
    }
    Ok(())
}

/// Whether each argument is in its parameter's range, and there are as many.
pub(crate) fn are_arguments(facts: &Facts, es: &[Expression], parameters: &[Range]) -> bool
    ensures { result ≡ are_arguments (facts_of facts.now) (expressions_of es.now) parameters.now }
{
    if es.len() != parameters.len() {
        return false;
    }
    let mut are = true;
    for (i, e) in es.iter().enumerate() {
        if i < parameters.len() {
            are = are && range_of(facts, e).is_within(parameters[i]);
        }
    }
    are
}
