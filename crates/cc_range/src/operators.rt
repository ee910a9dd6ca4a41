// The range of an operator's value, and whether it has one for all operands of the ranges.

ghost use Rattle.std.specs.Prelude.{◌≡◌};
ghost use Rattle.cc_range.specs.Range.{of_unary, of_binary, of_kept, divides, is_count, is_covered};

use crate::arithmetic::{
    difference, product, quotient_s, quotient_u, remainder_s, remainder_u, sum,
};
use crate::bits::{combination, conjunction, shifted_s, shifted_u};
use crate::range::{LEAST, Range};
use cc_words::{Binary, Unary, Width};

/// The range of an operator's value for a word of this range.
pub fn of_unary(operator: Unary, a: Range) -> Range
    ensures { result ≡ of_unary operator a }
{
    match operator {
        Unary::Neg => difference(Range::only(0), a),
        Unary::Complement => Range::all(),
        Unary::IsZero => Range::truth(),
    }
}

// ORDER Binary
/// The range of an operator's value for words of these ranges. It is right if there is a value.
pub fn of_binary(operator: Binary, a: Range, b: Range) -> Range
    ensures { result ≡ of_binary operator a b }
{
    match operator {
        Binary::Add => sum(a, b),
        Binary::Sub => difference(a, b),
        Binary::Mul => product(a, b),
        Binary::DivS => quotient_s(a, b),
        Binary::DivU => quotient_u(a, b),
        Binary::RemS => remainder_s(a, b),
        Binary::RemU => remainder_u(a, b),
        Binary::Shl => Range::all(),
        Binary::ShrS => shifted_s(a, b),
        Binary::ShrU => shifted_u(a, b),
        Binary::And => conjunction(a, b),
        Binary::Or | Binary::Xor => combination(a, b),
        Binary::Eq | Binary::Ne | Binary::LtS | Binary::LtU | Binary::LeS | Binary::LeU => {
            Range::truth()
        }
    }
}

/// The range of what an element of this width keeps of a word of this range.
pub fn of_kept(width: Width, r: Range) -> Range
    ensures { result ≡ of_kept width r }
{
    match width {
        Width::Byte => {
            if r.is_within(Range::byte()) {
                r
            } else {
                Range::byte()
            }
        }
        Width::Word => r,
    }
}

// Whether each signed division of words of these ranges has a value.
fn divides(a: Range, b: Range) -> bool
    ensures { result ≡ divides a b }
{
    b.excludes_zero() && (a.low > LEAST || b.high < -1 || b.low > -1)
}

// Whether each word of the range is the count of a shift.
fn is_count(b: Range) -> bool
    ensures { result ≡ is_count b }
{
    b.low >= 0 && b.high < 32
}

// ORDER Binary
/// Whether the operator has a value for all words of these ranges.
pub fn is_covered(operator: Binary, a: Range, b: Range) -> bool
    ensures { result ≡ is_covered operator a b }
{
    match operator {
        Binary::DivS | Binary::RemS => divides(a, b),
        Binary::DivU | Binary::RemU => b.excludes_zero(),
        Binary::Shl | Binary::ShrS | Binary::ShrU => is_count(b),
        Binary::Add
        | Binary::Sub
        | Binary::Mul
        | Binary::And
        | Binary::Or
        | Binary::Xor
        | Binary::Eq
        | Binary::Ne
        | Binary::LtS
        | Binary::LtU
        | Binary::LeS
        | Binary::LeU => true,
    }
}
