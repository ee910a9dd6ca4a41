// Tests of `cc_words` against values from outside: what the same C expression yields at `unsigned` and at `int`, compiled
// with `gcc -fwrapv` on x86-64. A negative number is written as its word in two's complement. Each public function is called
// here, and those that return `None` also at the ends of their ranges.

use cc_words::{
    Binary, Unary, add, div_s, div_u, eq, le_s, le_u, lt_s, lt_u, mul, ne, rem_s, rem_u, shl,
    shr_s, shr_u, sub,
};
use std::alloc::Global;
use std::test::Fail;
use tests_texts::verdict::{each_passes, passes};

const LEAST: u32 = 0x8000_0000;

const MINUS_ONE: u32 = 0xffff_ffff;

// left, right, and their sum, difference and product
type Sum = (u32, u32, [u32; 3]);

static SUMS: [Sum; 16] = [
    (0, 0, [0, 0, 0]),
    (1, 2, [3, 0xffff_ffff, 2]),
    (7, 9, [16, 0xffff_fffe, 63]),
    (0x7fff_ffff, 1, [0x8000_0000, 0x7fff_fffe, 0x7fff_ffff]),
    (0x8000_0000, 1, [0x8000_0001, 0x7fff_ffff, 0x8000_0000]),
    (0xffff_ffff, 1, [0, 0xffff_fffe, 0xffff_ffff]),
    (0, 1, [1, 0xffff_ffff, 0]),
    (0xffff_fff9, 2, [0xffff_fffb, 0xffff_fff7, 0xffff_fff2]),
    (7, 0xffff_fffe, [5, 9, 0xffff_fff2]),
    (65536, 65536, [131072, 0, 0]),
    (65537, 65537, [131074, 0, 131073]),
    (0x8000_0000, 0x8000_0000, [0, 0, 0]),
    (
        0x8000_0000,
        0xffff_ffff,
        [0x7fff_ffff, 0x8000_0001, 0x8000_0000],
    ),
    (0xffff_ffff, 0xffff_ffff, [0xffff_fffe, 0, 1]),
    (
        0xdead_beef,
        0x1234_5678,
        [0xf0e2_1567, 0xcc79_6877, 0x5621_ca08],
    ),
    (0x7fff_ffff, 0x7fff_ffff, [0xffff_fffe, 0, 1]),
];

fn is_sum(_alloc: Global, row: &Sum) -> Result<bool, Fail> {
    Ok([add(row.0, row.1), sub(row.0, row.1), mul(row.0, row.1)] == row.2)
}

#[test]
fn sums_differences_products(rt: HostRuntime) -> Result<(), Fail> {
    each_passes(rt.alloc(), SUMS.as_slice(), is_sum)
}

// left, right, and `==`, `!=`, then `<` at `int` and at `unsigned`, and `<=` at both
type Comparison = (u32, u32, [[u32; 2]; 3]);

static COMPARISONS: [Comparison; 14] = [
    (0, 0, [[1, 0], [0, 0], [1, 1]]),
    (0, 1, [[0, 1], [1, 1], [1, 1]]),
    (1, 0, [[0, 1], [0, 0], [0, 0]]),
    (7, 7, [[1, 0], [0, 0], [1, 1]]),
    (0xffff_ffff, 1, [[0, 1], [1, 0], [1, 0]]),
    (1, 0xffff_ffff, [[0, 1], [0, 1], [0, 1]]),
    (0xffff_ffff, 0xffff_ffff, [[1, 0], [0, 0], [1, 1]]),
    (0x8000_0000, 0x7fff_ffff, [[0, 1], [1, 0], [1, 0]]),
    (0x7fff_ffff, 0x8000_0000, [[0, 1], [0, 1], [0, 1]]),
    (0x8000_0000, 0xffff_ffff, [[0, 1], [1, 1], [1, 1]]),
    (0xffff_ffff, 0x8000_0000, [[0, 1], [0, 0], [0, 0]]),
    (0x8000_0000, 0, [[0, 1], [1, 0], [1, 0]]),
    (0x7fff_ffff, 0x7fff_fffe, [[0, 1], [0, 0], [0, 0]]),
    (0xffff_fff9, 0xffff_fff8, [[0, 1], [0, 0], [0, 0]]),
];

fn is_comparison(_alloc: Global, row: &Comparison) -> Result<bool, Fail> {
    let (left, right, expected) = *row;
    let equality = [eq(left, right), ne(left, right)];
    let below = [lt_s(left, right), lt_u(left, right)];
    let at_most = [le_s(left, right), le_u(left, right)];
    Ok([equality, below, at_most] == expected)
}

#[test]
fn comparisons(rt: HostRuntime) -> Result<(), Fail> {
    each_passes(rt.alloc(), COMPARISONS.as_slice(), is_comparison)
}

// dividend, divisor, and the quotient at `int` and at `unsigned`, and the remainder at both
type Quotient = (u32, u32, [u32; 4]);

static QUOTIENTS: [Quotient; 19] = [
    (7, 2, [3, 3, 1, 1]),
    (0xffff_fff9, 2, [0xffff_fffd, 0x7fff_fffc, 0xffff_ffff, 1]),
    (7, 0xffff_fffe, [0xffff_fffd, 0, 1, 7]),
    (0xffff_fff9, 0xffff_fffe, [3, 0, 0xffff_ffff, 0xffff_fff9]),
    (1, 3, [0, 0, 1, 1]),
    (0xffff_ffff, 3, [0, 0x5555_5555, 0xffff_ffff, 0]),
    (0xffff_ffff, 2, [0, 0x7fff_ffff, 0xffff_ffff, 1]),
    (100, 10, [10, 10, 0, 0]),
    (0, 5, [0, 0, 0, 0]),
    (0, 0xffff_ffff, [0, 0, 0, 0]),
    (0x8000_0000, 1, [0x8000_0000, 0x8000_0000, 0, 0]),
    (0x8000_0000, 2, [0xc000_0000, 0x4000_0000, 0, 0]),
    (0x8000_0000, 0xffff_fffe, [0x4000_0000, 0, 0, 0x8000_0000]),
    (0x8000_0001, 0xffff_ffff, [0x7fff_ffff, 0, 0, 0x8000_0001]),
    (0x7fff_ffff, 0xffff_ffff, [0x8000_0001, 0, 0, 0x7fff_ffff]),
    (5, 0x8000_0000, [0, 0, 5, 5]),
    (0x8000_0000, 0x8000_0000, [1, 1, 0, 0]),
    (
        0xdead_beef,
        1000,
        [0xfff7_7842, 0x0039_0178, 0xffff_fd1f, 559],
    ),
    (0xffff_ffff, 0xffff_ffff, [1, 1, 0, 0]),
];

fn is_quotient(_alloc: Global, row: &Quotient) -> Result<bool, Fail> {
    let (left, right, expected) = *row;
    let found = [
        div_s(left, right),
        div_u(left, right),
        rem_s(left, right),
        rem_u(left, right),
    ];
    Ok(found == expected.map(Some))
}

#[test]
fn quotients_and_remainders(rt: HostRuntime) -> Result<(), Fail> {
    each_passes(rt.alloc(), QUOTIENTS.as_slice(), is_quotient)
}

// A division by zero has no answer; nor has the only quotient of two ints that is not an int (in the test below).
fn has_none_by_0(_alloc: Global, dividend: &u32) -> Result<bool, Fail> {
    let quotients = [div_s(*dividend, 0), div_u(*dividend, 0)];
    let remainders = [rem_s(*dividend, 0), rem_u(*dividend, 0)];
    Ok(quotients == [None, None] && remainders == [None, None])
}

#[test]
fn divisions_without_an_answer(rt: HostRuntime) -> Result<(), Fail> {
    each_passes(rt.alloc(), &[0, 1, 7, MINUS_ONE, LEAST], has_none_by_0)?;
    let least = [div_s(LEAST, MINUS_ONE), rem_s(LEAST, MINUS_ONE)];
    passes(Ok(least == [None, None]))
}

// value, count, and `<<`, then `>>` at `int` and at `unsigned`
type Shift = (u32, u32, [u32; 3]);

static SHIFTS: [Shift; 13] = [
    (1, 0, [1, 1, 1]),
    (1, 31, [0x8000_0000, 0, 0]),
    (3, 31, [0x8000_0000, 0, 0]),
    (0xffff_fff8, 1, [0xffff_fff0, 0xffff_fffc, 0x7fff_fffc]),
    (0xffff_ffff, 31, [0x8000_0000, 0xffff_ffff, 1]),
    (0xffff_ffff, 1, [0xffff_fffe, 0xffff_ffff, 0x7fff_ffff]),
    (0xffff_fff9, 1, [0xffff_fff2, 0xffff_fffc, 0x7fff_fffc]),
    (0x8000_0000, 31, [0, 0xffff_ffff, 1]),
    (0x8000_0000, 0, [0x8000_0000, 0x8000_0000, 0x8000_0000]),
    (0x7fff_ffff, 30, [0xc000_0000, 1, 1]),
    (0x1234_5678, 4, [0x2345_6780, 0x0123_4567, 0x0123_4567]),
    (0xdead_beef, 16, [0xbeef_0000, 0xffff_dead, 57005]),
    (0, 5, [0, 0, 0]),
];

fn is_shift(_alloc: Global, row: &Shift) -> Result<bool, Fail> {
    let (value, count, expected) = *row;
    let found = [shl(value, count), shr_s(value, count), shr_u(value, count)];
    Ok(found == expected.map(Some))
}

#[test]
fn shifts(rt: HostRuntime) -> Result<(), Fail> {
    each_passes(rt.alloc(), SHIFTS.as_slice(), is_shift)
}

// a count that C leaves undefined
fn has_no_shift(_alloc: Global, count: &u32) -> Result<bool, Fail> {
    Ok([shl(1, *count), shr_s(1, *count), shr_u(1, *count)] == [None, None, None])
}

#[test]
fn shifts_without_an_answer(rt: HostRuntime) -> Result<(), Fail> {
    each_passes(rt.alloc(), &[32, 33, 64, LEAST, MINUS_ONE], has_no_shift)
}

// An operator, and its result for -7 and 2.
type TwoWords = (Binary, u32);

static TWO_WORDS: [TwoWords; 19] = [
    (Binary::Add, 0xffff_fffb),
    (Binary::Sub, 0xffff_fff7),
    (Binary::Mul, 0xffff_fff2),
    (Binary::DivS, 0xffff_fffd),
    (Binary::DivU, 0x7fff_fffc),
    (Binary::RemS, 0xffff_ffff),
    (Binary::RemU, 1),
    (Binary::Shl, 0xffff_ffe4),
    (Binary::ShrS, 0xffff_fffe),
    (Binary::ShrU, 0x3fff_fffe),
    (Binary::And, 0),
    (Binary::Or, 0xffff_fffb),
    (Binary::Xor, 0xffff_fffb),
    (Binary::Eq, 0),
    (Binary::Ne, 1),
    (Binary::LtS, 1),
    (Binary::LtU, 0),
    (Binary::LeS, 1),
    (Binary::LeU, 0),
];

fn is_of_two_words(_alloc: Global, row: &TwoWords) -> Result<bool, Fail> {
    Ok(row.0.apply(0xffff_fff9, 2) == Some(row.1))
}

#[test]
fn operators_on_two_words(rt: HostRuntime) -> Result<(), Fail> {
    each_passes(rt.alloc(), TWO_WORDS.as_slice(), is_of_two_words)?;
    passes(Ok(Binary::DivU.apply(7, 0).is_none()))
}

type OneWord = (Unary, u32, u32);

static ONE_WORD: [OneWord; 4] = [
    (Unary::Neg, 0xffff_fff9, 7),
    (Unary::Complement, 0xffff_fff9, 6),
    (Unary::IsZero, 0xffff_fff9, 0),
    (Unary::IsZero, 0, 1),
];

fn is_of_one_word(_alloc: Global, row: &OneWord) -> Result<bool, Fail> {
    Ok(row.0.apply(row.1) == row.2)
}

#[test]
fn operators_on_one_word(rt: HostRuntime) -> Result<(), Fail> {
    each_passes(rt.alloc(), ONE_WORD.as_slice(), is_of_one_word)
}
