// The ranges of shifted words and of words whose bits are combined.

ghost use Rattle.std.specs.Prelude.{◌≡◌, ◌<◌, ◌-◌, ◌/◌, ◌^◌, pos};
ghost use Rattle.std.specs.Int.{int_shr};
ghost use Rattle.cc_range.specs.Range.{count, shifted_by, shifted_s, high_bits, shifted_u, conjunction, below_power, combination};

use crate::range::{GREATEST, Range, between, maximum, minimum};

// The count of a shift if the range has one number that is a count, else 32.
fn count(r: Range) -> u32
    ensures { result ≡ count r }
{
    if r.low == r.high && r.low >= 0 && r.low < 32 {
        r.low as u32
    } else {
        32
    }
}

// A signed number, shifted to the right.
fn shr(x: i32, k: u32) -> i32
    requires { k < 32 }
    ensures { result ≡ int_shr x k }
{
    x >> k
}

// The range of a signed number that is shifted by this count, or by any if it is 32.
fn shifted_by(a: Range, k: u32) -> Range
    ensures { result ≡ shifted_by a k }
{
    if k < 32 {
        between(shr(a.low, k), shr(a.high, k))
    } else if a.low >= 0 {
        between(0, a.high)
    } else {
        Range::all()
    }
}

/// The range of a signed number that is shifted to the right.
pub(crate) fn shifted_s(a: Range, b: Range) -> Range
    ensures { result ≡ shifted_s a b }
{
    shifted_by(a, count(b))
}

// The greatest word, shifted to the right.
fn highest(k: u32) -> i32
    requires some { 0 < k }
    requires few { k < 32 }
    ensures { result ≡ pos ((2 ^ 32 - 1) / 2 ^ k) }
{
    (4294967295u32 >> k) as i32
}

// What is left of any word after a shift by 1 to 31.
fn high_bits(k: u32) -> Range
    ensures { result ≡ high_bits k }
{
    if 0 < k && k < 32 {
        between(0, highest(k))
    } else {
        Range::all()
    }
}

/// The range of a word that is shifted to the right.
pub(crate) fn shifted_u(a: Range, b: Range) -> Range
    ensures { result ≡ shifted_u a b }
{
    if a.low >= 0 {
        return shifted_s(a, b);
    }
    high_bits(count(b))
}

/// The range of `&`: a natural number limits what it gives.
pub(crate) fn conjunction(a: Range, b: Range) -> Range
    ensures { result ≡ conjunction a b }
{
    if a.low >= 0 {
        between(
            0,
            if b.low >= 0 {
                minimum(a.high, b.high)
            } else {
                a.high
            },
        )
    } else if b.low >= 0 {
        between(0, b.high)
    } else {
        Range::all()
    }
}

// The words whose bits are among those of natural numbers up to this one: 8, 16 or 31 bits.
fn below_power(high: i32) -> Range
    ensures { result ≡ below_power high }
{
    if high < 256 {
        between(0, 255)
    } else if high < 65536 {
        between(0, 65535)
    } else {
        between(0, GREATEST)
    }
}

/// The range of `|` and `^`.
pub(crate) fn combination(a: Range, b: Range) -> Range
    ensures { result ≡ combination a b }
{
    if a.low >= 0 && b.low >= 0 {
        below_power(maximum(a.high, b.high))
    } else {
        Range::all()
    }
}
