// What the outcome of a comparison shows of its operands.

ghost use Rattle.std.specs.Prelude.{◌≡◌, true, false};
ghost use Rattle.cc_range.specs.Range.{below, above, at_most, at_least, without, natural, learned_less, learned_at_most, learned_equal, learned_different, nothing, learned_less_u, learned_at_most_u, exchanged, learned_from};

use crate::range::{GREATEST, LEAST, Range, between, maximum};
use cc_words::Binary;

/// The ranges of two operands.
#[derive(Clone, Copy)]
pub struct Learned {
    pub left: Range,
    pub right: Range,
}

// The numbers below the greatest of a range.
fn below(r: Range) -> Range
    ensures { result ≡ below r }
{
    between(LEAST, if r.high == LEAST { LEAST } else { r.high - 1 })
}

// The numbers above the least of a range.
fn above(r: Range) -> Range
    ensures { result ≡ above r }
{
    between(
        if r.low == GREATEST {
            GREATEST
        } else {
            r.low + 1
        },
        GREATEST,
    )
}

// The numbers up to the greatest of a range.
fn at_most(r: Range) -> Range
    ensures { result ≡ at_most r }
{
    between(LEAST, r.high)
}

// The numbers from the least of a range on.
fn at_least(r: Range) -> Range
    ensures { result ≡ at_least r }
{
    between(r.low, GREATEST)
}

// What is left of a range if a word differs from the only word of another.
fn without(a: Range, b: Range) -> Range
    ensures { result ≡ without a b }
{
    if b.low != b.high {
        Range::all()
    } else if b.low == 0 {
        Range::nonzero()
    } else if a.low == b.low {
        above(a)
    } else if a.high == b.low {
        below(a)
    } else {
        Range::all()
    }
}

// The natural numbers of a range.
fn natural(r: Range) -> Range
    ensures { result ≡ natural r }
{
    Range {
        low: maximum(0, r.low),
        high: r.high,
        is_nonzero: r.is_nonzero,
    }
}

fn learned_less(a: Range, b: Range) -> Learned
    ensures { result ≡ learned_less a b }
{
    Learned {
        left: below(b),
        right: above(a),
    }
}

fn learned_at_most(a: Range, b: Range) -> Learned
    ensures { result ≡ learned_at_most a b }
{
    Learned {
        left: at_most(b),
        right: at_least(a),
    }
}

fn learned_equal(a: Range, b: Range) -> Learned
    ensures { result ≡ learned_equal a b }
{
    Learned { left: b, right: a }
}

fn learned_different(a: Range, b: Range) -> Learned
    ensures { result ≡ learned_different a b }
{
    Learned {
        left: without(a, b),
        right: without(b, a),
    }
}

fn nothing() -> Learned
    ensures { result ≡ nothing }
{
    Learned {
        left: Range::all(),
        right: Range::all(),
    }
}

fn learned_less_u(a: Range, b: Range) -> Learned
    ensures { result ≡ learned_less_u a b }
{
    if b.low >= 0 {
        Learned {
            left: natural(below(b)),
            right: above(natural(a)),
        }
    } else {
        nothing()
    }
}

fn learned_at_most_u(a: Range, b: Range) -> Learned
    ensures { result ≡ learned_at_most_u a b }
{
    if b.low >= 0 {
        Learned {
            left: natural(at_most(b)),
            right: at_least(natural(a)),
        }
    } else {
        nothing()
    }
}

fn exchanged(l: Learned) -> Learned
    ensures { result ≡ exchanged l }
{
    Learned {
        left: l.right,
        right: l.left,
    }
}

/// What is known of the operands of an operator, whose ranges are these, if its value is not 0 (`way` is true) or is 0 (false).
pub fn learned_from(way: bool, operator: Binary, a: Range, b: Range) -> Learned
    ensures { result ≡ learned_from way operator a b }
{
    match (operator, way) {
        (Binary::Eq, true) | (Binary::Ne, false) | (Binary::Xor, false) => learned_equal(a, b),
        (Binary::Eq, false) | (Binary::Ne, true) | (Binary::Xor, true) => learned_different(a, b),
        (Binary::LtS, true) => learned_less(a, b),
        (Binary::LtS, false) => exchanged(learned_at_most(b, a)),
        (Binary::LeS, true) => learned_at_most(a, b),
        (Binary::LeS, false) => exchanged(learned_less(b, a)),
        (Binary::LtU, true) => learned_less_u(a, b),
        (Binary::LtU, false) => exchanged(learned_at_most_u(b, a)),
        (Binary::LeU, true) => learned_at_most_u(a, b),
        (Binary::LeU, false) => exchanged(learned_less_u(b, a)),
        _ => nothing(),
    }
}
