// What a condition shows of the facts.

ghost use Rattle.std.specs.Prelude.{◌≡◌};
ghost use Rattle.cc_cminor_language.specs.Code.{expression_of};
ghost use Rattle.cc_range_table.specs.Inductive.{narrowed, way_range, learned_within, set_variable, set_object};
ghost use Rattle.cc_range_check.specs.Sizes.{sizes_of};
ghost use Rattle.cc_range_check.specs.Values.{facts_of};

use crate::expressions::range_of;
use crate::ranges::{range_at, set_range};
use crate::sizes::{ObjectSize, is_scalar};
use crate::table::Facts;
use cc_cminor_language::Expression;
use cc_range::{Range, learned_from, of_binary};
use cc_words::{Binary, Unary};

/// Puts a range in place of what is known of a variable.
pub fn set_variable(facts: &mut Facts, variable: usize, range: Range)
    ensures { facts_of facts.new ≡ set_variable (facts_of facts.old) variable range }
{
    set_range(&mut facts.variables, variable, range);
}

/// Puts a range in place of what is known of an object.
pub(crate) fn set_object(facts: &mut Facts, object: usize, range: Range)
    ensures { facts_of facts.new ≡ set_object (facts_of facts.old) object range }
{
    set_range(&mut facts.objects, object, range);
}

/// Narrows the facts, if an expression's value is also in this range.
fn narrow(sizes: &[ObjectSize], facts: &mut Facts, e: &Expression, range: Range)
    ensures { facts_of facts.new ≡ narrowed (sizes_of sizes.now) (facts_of facts.old) (expression_of e.now) range }
{
    match e {
        Expression::Constant(_) | Expression::Unary(_, _) => {}
        Expression::Local(variable) => {
            let before = range_at(facts.variables.as_slice(), *variable);
            set_variable(facts, *variable, before.met(range));
        }
        Expression::Binary(Binary::Add, a, b) => {
            let left = range_of(facts, a);
            let right = range_of(facts, b);
            let sum = range.met(of_binary(Binary::Add, left, right));
            narrow(sizes, facts, a, of_binary(Binary::Sub, sum, right));
            narrow(sizes, facts, b, of_binary(Binary::Sub, sum, left));
        }
        Expression::Binary(Binary::Sub, a, b) => {
            let left = range_of(facts, a);
            let right = range_of(facts, b);
            let difference = range.met(of_binary(Binary::Sub, left, right));
            narrow(sizes, facts, a, of_binary(Binary::Add, difference, right));
            narrow(sizes, facts, b, of_binary(Binary::Sub, left, difference));
        }
        Expression::Binary(_, _, _) => {}
        Expression::Load(_, object, _) => {
            if is_scalar(sizes, *object) {
                let before = range_at(facts.objects.as_slice(), *object);
                set_object(facts, *object, before.met(range));
            }
        }
    }
}

// The range of a condition that is not 0, or is 0.
fn way_range(way: bool) -> Range
    ensures { result ≡ way_range way }
{
    if way {
        Range::nonzero()
    } else {
        Range::only(0)
    }
}

/// Narrows the facts, if a condition is not 0 (`way` is true) or is 0 (false).
pub fn learn(sizes: &[ObjectSize], way: bool, facts: &mut Facts, e: &Expression)
    ensures { facts_of facts.new ≡ learned_within (sizes_of sizes.now) way (facts_of facts.old) (expression_of e.now) }
{
    match e {
        Expression::Constant(_) => {}
        Expression::Local(_) | Expression::Load(_, _, _) => {
            narrow(sizes, facts, e, way_range(way));
        }
        Expression::Unary(operator, a) => match operator {
            Unary::IsZero => learn(sizes, !way, facts, a),
            Unary::Neg | Unary::Complement => {}
        },
        Expression::Binary(operator, a, b) => {
            let both = learned_from(way, *operator, range_of(facts, a), range_of(facts, b));
            narrow(sizes, facts, a, both.left);
            narrow(sizes, facts, b, both.right);
        }
    }
}
