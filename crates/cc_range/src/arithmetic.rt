// The ranges of sums, differences, products, quotients and remainders.

ghost use Rattle.std.specs.Prelude.{◌≡◌, ◌+ℤ◌, ◌-ℤ◌, ◌*ℤ◌, pos};
ghost use Rattle.cc_range.specs.Range.{sum, difference, minimum, maximum, product, greatest_quotient, quotient_s, quotient_u, toward_zero, nearer, remainder_s, remainder_u};

use crate::range::{Range, between, fitting, maximum, minimum};

// A signed number of 32 bits as one of 64.
fn wide(x: i32) -> i64
    ensures { result ≡ x }
{
    i64::from(x)
}

// A sum, a difference and a product of two signed numbers of 32 bits.
fn plus(x: i32, y: i32) -> i64
    ensures { result ≡ x +ℤ y }
{
    i64::from(x) + i64::from(y)
}

fn minus(x: i32, y: i32) -> i64
    ensures { result ≡ x -ℤ y }
{
    i64::from(x) - i64::from(y)
}

fn times(x: i32, y: i32) -> i64
    ensures { result ≡ x *ℤ y }
{
    i64::from(x) * i64::from(y)
}

/// The range of a sum.
pub(crate) fn sum(a: Range, b: Range) -> Range
    ensures { result ≡ sum a b }
{
    fitting(plus(a.low, b.low), plus(a.high, b.high))
}

/// The range of a difference.
pub(crate) fn difference(a: Range, b: Range) -> Range
    ensures { result ≡ difference a b }
{
    fitting(minus(a.low, b.high), minus(a.high, b.low))
}

// The lesser number of 64 bits.
fn lesser(x: i64, y: i64) -> i64
    ensures { result ≡ minimum x y }
{
    if x <= y { x } else { y }
}

// The greater number of 64 bits.
fn greater(x: i64, y: i64) -> i64
    ensures { result ≡ maximum x y }
{
    if x <= y { y } else { x }
}

/// The range of a product of natural numbers.
pub(crate) fn product(a: Range, b: Range) -> Range
    ensures { result ≡ product a b }
{
    if a.low >= 0 && b.low >= 0 {
        fitting(times(a.low, b.low), times(a.high, b.high))
    } else {
        Range::all()
    }
}

// The greatest quotient of a natural number.
fn greatest_quotient(a: Range, b: Range) -> i32
    ensures { result ≡ greatest_quotient a b }
{
    if b.low > 0 { a.high / b.low } else { a.high }
}

/// The range of a signed quotient.
pub(crate) fn quotient_s(a: Range, b: Range) -> Range
    ensures { result ≡ quotient_s a b }
{
    if a.low >= 0 && b.low >= 0 {
        between(0, greatest_quotient(a, b))
    } else {
        Range::all()
    }
}

/// The range of an unsigned quotient.
pub(crate) fn quotient_u(a: Range, b: Range) -> Range
    ensures { result ≡ quotient_u a b }
{
    if a.low >= 0 {
        between(
            0,
            if b.low >= 0 {
                greatest_quotient(a, b)
            } else {
                a.high
            },
        )
    } else {
        Range::all()
    }
}

// The numbers between 0 and a number of a range.
fn toward_zero(a: Range) -> Range
    ensures { result ≡ toward_zero a }
{
    between(minimum(a.low, 0), maximum(a.high, 0))
}

// The limits that a divisor leaves, if it is at most the greatest of its range.
fn low_limit(t: Range, b: Range) -> i64
    ensures { result ≡ maximum t.low (pos 1 -ℤ b.high) }
{
    greater(wide(t.low), minus(1, b.high))
}

fn high_limit(t: Range, b: Range) -> i64
    ensures { result ≡ minimum t.high (b.high -ℤ pos 1) }
{
    lesser(wide(t.high), minus(b.high, 1))
}

// The numbers that are nearer to 0 than the greatest divisor.
fn nearer(t: Range, b: Range) -> Range
    ensures { result ≡ nearer t b }
{
    fitting(low_limit(t, b), high_limit(t, b))
}

/// The range of a signed remainder.
pub(crate) fn remainder_s(a: Range, b: Range) -> Range
    ensures { result ≡ remainder_s a b }
{
    if b.low > 0 {
        nearer(toward_zero(a), b)
    } else {
        toward_zero(a)
    }
}

/// The range of an unsigned remainder.
pub(crate) fn remainder_u(a: Range, b: Range) -> Range
    ensures { result ≡ remainder_u a b }
{
    if b.low > 0 {
        if a.low >= 0 {
            fitting(0, high_limit(a, b))
        } else {
            fitting(0, minus(b.high, 1))
        }
    } else if a.low >= 0 {
        between(0, a.high)
    } else {
        Range::all()
    }
}
