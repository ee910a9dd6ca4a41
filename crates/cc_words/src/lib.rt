//! The operations on a 32-bit machine word that C99 and RV32IM have: sums, comparisons, divisions, shifts.
//!
//! They are free functions on `u32`. A signed operation reads its words in two's complement. Each function returns the value
//! of its formula over whole numbers in `specs/Words.antt`, or `None` if the operation has no value. No call takes memory or
//! fails in any other way.
//!
//! `operators` contains the operators of the intermediate languages as values, and the width of an object's elements.
//!
//! The crate exports the functions, the operators, their definitions (`specs/`) and the laws that hold for them (`proofs/`).
#![tactic(auto)]

mod operators;

ghost use Rattle.std.specs.Prelude.{◌≡◌};
ghost use Rattle.cc_words.specs.Words as words;

pub use operators::{Binary, Unary, Width};

/// `left + right` modulo 2^32, signed or not (C99 6.5.6).
pub fn add(left: u32, right: u32) -> u32
    ensures { result ≡ words.add left right }
{
    left.wrapping_add(right)
}

/// `left - right` modulo 2^32, signed or not (C99 6.5.6).
pub fn sub(left: u32, right: u32) -> u32
    ensures { result ≡ words.sub left right }
{
    left.wrapping_sub(right)
}

/// `left * right` modulo 2^32, signed or not (C99 6.5.5).
pub fn mul(left: u32, right: u32) -> u32
    ensures { result ≡ words.mul left right }
{
    left.wrapping_mul(right)
}

/// 1 if the words are equal, else 0 (C99 6.5.9).
pub fn eq(left: u32, right: u32) -> u32
    ensures { result ≡ words.eq left right }
{
    u32::from(left == right)
}

/// 1 if the words differ, else 0 (C99 6.5.9).
pub fn ne(left: u32, right: u32) -> u32
    ensures { result ≡ words.ne left right }
{
    u32::from(left != right)
}

/// 1 if `left < right` as signed numbers, else 0 (C99 6.5.8).
pub fn lt_s(left: u32, right: u32) -> u32
    ensures { result ≡ words.lt_s left right }
{
    u32::from(left.cast_signed() < right.cast_signed())
}

/// 1 if `left < right` as unsigned numbers, else 0 (C99 6.5.8).
pub fn lt_u(left: u32, right: u32) -> u32
    ensures { result ≡ words.lt_u left right }
{
    u32::from(left < right)
}

/// 1 if `left <= right` as signed numbers, else 0 (C99 6.5.8).
pub fn le_s(left: u32, right: u32) -> u32
    ensures { result ≡ words.le_s left right }
{
    u32::from(left.cast_signed() <= right.cast_signed())
}

/// 1 if `left <= right` as unsigned numbers, else 0 (C99 6.5.8).
pub fn le_u(left: u32, right: u32) -> u32
    ensures { result ≡ words.le_u left right }
{
    u32::from(left <= right)
}

/// The quotient of the signed numbers, truncated toward zero (C99 6.5.5).
///
/// `None` exactly if `divisor` is 0, or -2147483648 is divided by -1.
pub fn div_s(dividend: u32, divisor: u32) -> Option<u32>
    ensures { result ≡ words.div_s dividend divisor }
{
    let quotient = dividend.cast_signed().checked_div(divisor.cast_signed())?;
    Some(quotient.cast_unsigned())
}

/// The quotient of the unsigned numbers, rounded down (C99 6.5.5).
///
/// `None` exactly if `divisor` is 0.
pub fn div_u(dividend: u32, divisor: u32) -> Option<u32>
    ensures { result ≡ words.div_u dividend divisor }
{
    dividend.checked_div(divisor)
}

/// The remainder of the signed numbers, with the sign of `dividend` (C99 6.5.5).
///
/// `None` exactly if `divisor` is 0, or -2147483648 is divided by -1.
pub fn rem_s(dividend: u32, divisor: u32) -> Option<u32>
    ensures { result ≡ words.rem_s dividend divisor }
{
    let remainder = dividend.cast_signed().checked_rem(divisor.cast_signed())?;
    Some(remainder.cast_unsigned())
}

/// The remainder of the unsigned numbers (C99 6.5.5).
///
/// `None` exactly if `divisor` is 0.
pub fn rem_u(dividend: u32, divisor: u32) -> Option<u32>
    ensures { result ≡ words.rem_u dividend divisor }
{
    dividend.checked_rem(divisor)
}

/// `value` times 2^`count`, modulo 2^32, signed or not (C99 6.5.7).
///
/// `None` exactly if `count` is 32 or more.
pub fn shl(value: u32, count: u32) -> Option<u32>
    ensures { result ≡ words.shl value count }
{
    value.checked_shl(count)
}

/// The signed number divided by 2^`count`, rounded down: copies of its sign bit are shifted in (C99 6.5.7).
///
/// `None` exactly if `count` is 32 or more.
pub fn shr_s(value: u32, count: u32) -> Option<u32>
    ensures { result ≡ words.shr_s value count }
{
    let shifted = value.cast_signed().checked_shr(count)?;
    Some(shifted.cast_unsigned())
}

/// The unsigned number divided by 2^`count`, rounded down: zeros are shifted in (C99 6.5.7).
///
/// `None` exactly if `count` is 32 or more.
pub fn shr_u(value: u32, count: u32) -> Option<u32>
    ensures { result ≡ words.shr_u value count }
{
    value.checked_shr(count)
}
