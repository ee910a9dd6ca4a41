// The bounds on an expression's value that its form and the known bounds of variables show.

ghost use Rattle.std.specs.Prelude.{◌≡◌};
ghost use Rattle.cc_cminor_language.specs.Code.{expression_of};
ghost use Rattle.cc_guard.specs.Guard.{least, most_sum, most_product, less_one, told_of, told_less, told_most, if_small, told, below_divisor, most_in, most, is_below, is_divisor, is_signed_divisor, always};

use cc_cminor_language::Expression;
use cc_words::Binary;

/// A variable holds at most the word `most`.
#[derive(Clone, Copy)]
pub struct Limit {
    pub variable: usize,
    pub most: u32,
}

// The lesser of two bounds, or the only one.
fn least(a: Option<u32>, b: Option<u32>) -> Option<u32>
    ensures { result ≡ least a b }
{
    match a {
        None => b,
        Some(first) => match b {
            None => Some(first),
            Some(second) => Some(first.min(second)),
        },
    }
}

// The sum of two bounds, if it fits in a word.
fn most_sum(a: Option<u32>, b: Option<u32>) -> Option<u32>
    ensures { result ≡ most_sum a b }
{
    match a {
        None => None,
        Some(first) => match b {
            None => None,
            Some(second) => first.checked_add(second),
        },
    }
}

// The product of two bounds, if it fits in a word.
fn most_product(a: Option<u32>, b: Option<u32>) -> Option<u32>
    ensures { result ≡ most_product a b }
{
    match a {
        None => None,
        Some(first) => match b {
            None => None,
            Some(second) => first.checked_mul(second),
        },
    }
}

/// The last bound in the list for a variable.
pub fn most_in(known: &[Limit], variable: usize) -> Option<u32>
    ensures { result ≡ most_in known.now variable }
{
    let mut found = None;
    for limit in known {
        if limit.variable == variable {
            found = Some(limit.most);
        }
    }
    found
}

// The bound on a remainder, if its divisor is a constant other than 0.
fn below_divisor(divisor: &Expression) -> Option<u32>
    ensures { result ≡ below_divisor (expression_of divisor.now) }
{
    match divisor {
        Expression::Constant(word) => word.checked_sub(1),
        _ => None,
    }
}

/// The greatest word that an expression can have, if its form shows one.
pub fn most(known: &[Limit], e: &Expression) -> Option<u32>
    ensures { result ≡ most known.now (expression_of e.now) }
{
    match e {
        Expression::Constant(word) => Some(*word),
        Expression::Local(variable) => most_in(known, *variable),
        Expression::Unary(_, _) | Expression::Load(_, _, _) => None,
        Expression::Binary(operator, a, b) => match operator {
            Binary::And => least(most(known, a), most(known, b)),
            Binary::Add => most_sum(most(known, a), most(known, b)),
            Binary::Mul => most_product(most(known, a), most(known, b)),
            Binary::DivU | Binary::ShrU => most(known, a),
            Binary::RemU => least(below_divisor(b), most(known, a)),
            Binary::Eq | Binary::Ne | Binary::LtS | Binary::LtU | Binary::LeS | Binary::LeU => Some(
                1,
            ),
            _ => None,
        },
    }
}

/// Whether a bound is known and is below a number.
pub fn is_below(most: Option<u32>, number: u32) -> bool
    ensures { result ≡ is_below most number }
{
    match most {
        None => false,
        Some(most) => most < number,
    }
}

// Whether the expression is a constant other than 0.
fn is_divisor(e: &Expression) -> bool
    ensures { result ≡ is_divisor (expression_of e.now) }
{
    match e {
        Expression::Constant(word) => *word != 0,
        _ => false,
    }
}

// Whether the expression is a constant other than 0 and -1.
fn is_signed_divisor(e: &Expression) -> bool
    ensures { result ≡ is_signed_divisor (expression_of e.now) }
{
    match e {
        Expression::Constant(word) => *word != 0 && *word != 4294967295,
        _ => false,
    }
}

/// Whether an operation with this right operand evidently has a value, whatever its left operand is.
pub fn always(known: &[Limit], operator: Binary, right: &Expression) -> bool
    ensures { result ≡ always known.now operator (expression_of right.now) }
{
    match operator {
        Binary::DivS | Binary::RemS => is_signed_divisor(right),
        Binary::DivU | Binary::RemU => is_divisor(right),
        Binary::Shl | Binary::ShrS | Binary::ShrU => is_below(most(known, right), 32),
        _ => true,
    }
}

// The word before this one, if there is one.
fn less_one(most: Option<u32>) -> Option<u32>
    ensures { result ≡ less_one most }
{
    match most {
        None => None,
        Some(word) => word.checked_sub(1),
    }
}

fn told_of(e: &Expression, most: Option<u32>) -> Option<Limit>
    ensures { result ≡ told_of (expression_of e.now) most }
{
    match e {
        Expression::Local(variable) => match most {
            None => None,
            Some(most) => Some(Limit {
                variable: *variable,
                most,
            }),
        },
        _ => None,
    }
}

// The bound that becomes known if the first of two values is below the second (`way` is true) or is not
// (false).
fn told_less(
    way: bool,
    a: &Expression,
    b: &Expression,
    most_a: Option<u32>,
    most_b: Option<u32>,
) -> Option<Limit>
    ensures { result ≡ told_less way (expression_of a.now) (expression_of b.now) most_a most_b }
{
    if way {
        told_of(a, less_one(most_b))
    } else {
        told_of(b, most_a)
    }
}

// The bound that becomes known if the first of two values is at most the second (`way` is true) or is not
// (false).
fn told_most(
    way: bool,
    a: &Expression,
    b: &Expression,
    most_a: Option<u32>,
    most_b: Option<u32>,
) -> Option<Limit>
    ensures { result ≡ told_most way (expression_of a.now) (expression_of b.now) most_a most_b }
{
    if way {
        told_of(a, most_b)
    } else {
        told_of(b, less_one(most_a))
    }
}

// The given bound, if both values are below 2^31: signed words then compare as unsigned ones do.
fn if_small(most_a: Option<u32>, most_b: Option<u32>, told: Option<Limit>) -> Option<Limit>
    ensures { result ≡ if_small most_a most_b told }
{
    if is_below(most_a, 2147483648) && is_below(most_b, 2147483648) {
        told
    } else {
        None
    }
}

/// The bound that a condition shows for a variable when the condition is not 0 (`way` is true) or is 0
/// (false).
pub fn told(known: &[Limit], way: bool, e: &Expression) -> Option<Limit>
    ensures { result ≡ told known.now way (expression_of e.now) }
{
    match e {
        Expression::Binary(operator, a, b) => {
            let most_a = most(known, a);
            let most_b = most(known, b);
            match operator {
                Binary::LtS => if_small(most_a, most_b, told_less(way, a, b, most_a, most_b)),
                Binary::LtU => told_less(way, a, b, most_a, most_b),
                Binary::LeS => if_small(most_a, most_b, told_most(way, a, b, most_a, most_b)),
                Binary::LeU => told_most(way, a, b, most_a, most_b),
                _ => None,
            }
        }
        _ => None,
    }
}
