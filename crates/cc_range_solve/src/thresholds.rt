// The numbers at which a growing limit may stop, and how ranges grow.

use cc_cminor_language::{CminorPair, Expression, Statement};
use cc_range::Range;
use cc_range_check::ObjectSize;
use cc_words::Binary;
use std::alloc::{AllocError, Global};

/// At most this many numbers are kept.
const MOST: usize = 256;

// Adds a number, unless it is there.
fn add(numbers: &mut Vec<i32>, number: i32) -> Result<(), AllocError> {
    if numbers.len() < MOST && !numbers.as_slice().contains(&number) {
        numbers.push(number)?;
    }
    Ok(())
}

// A number that is compared with, and its neighbours.
fn add_compared(numbers: &mut Vec<i32>, number: i32) -> Result<(), AllocError> {
    add(numbers, number.saturating_sub(1))?;
    add(numbers, number)?;
    add(numbers, number.saturating_add(1))
}

fn is_comparison(operator: Binary) -> bool {
    matches!(
        operator,
        Binary::Xor
            | Binary::Eq
            | Binary::Ne
            | Binary::LtS
            | Binary::LtU
            | Binary::LeS
            | Binary::LeU
    )
}

fn add_constant(numbers: &mut Vec<i32>, e: &Expression) -> Result<(), AllocError> {
    match e {
        Expression::Constant(word) => add_compared(numbers, word.cast_signed()),
        _ => Ok(()),
    }
}

fn add_expression(numbers: &mut Vec<i32>, e: &Expression) -> Result<(), AllocError> {
    match e {
        Expression::Constant(_) | Expression::Local(_) => Ok(()),
        Expression::Unary(_, a) | Expression::Load(_, _, a) => add_expression(numbers, a),
        Expression::Binary(operator, a, b) => {
            if is_comparison(*operator) {
                add_constant(numbers, a)?;
                add_constant(numbers, b)?;
            }
            add_expression(numbers, a)?;
            add_expression(numbers, b)
        }
    }
}

// The numbers of an expression whose value is kept: if it is a constant, what it is kept in may be compared with.
fn add_value(numbers: &mut Vec<i32>, e: &Expression) -> Result<(), AllocError> {
    add_constant(numbers, e)?;
    add_expression(numbers, e)
}

fn add_values(numbers: &mut Vec<i32>, es: &[Expression]) -> Result<(), AllocError> {
    for e in es {
        add_value(numbers, e)?;
    }
    Ok(())
}

#[cycle(thresholds)]
fn add_statement(numbers: &mut Vec<i32>, s: &Statement) -> Result<(), AllocError> {
    match s {
        Statement::Skip | Statement::Read(_) | Statement::Exit(_) => Ok(()),
        Statement::Set(_, e) | Statement::Return(e) => add_value(numbers, e),
        Statement::Write(e) => add_expression(numbers, e),
        Statement::Store(_, _, i, e) => {
            add_expression(numbers, i)?;
            add_value(numbers, e)
        }
        Statement::Call(_, _, es) => add_values(numbers, es.as_slice()),
        Statement::Sequence(all) => add_statements(numbers, all.as_slice()),
        Statement::If(e, nonzero, otherwise) => {
            add_expression(numbers, e)?;
            add_statement(numbers, nonzero)?;
            add_statement(numbers, otherwise)
        }
        Statement::Loop(body) | Statement::Block(body) => add_statement(numbers, body),
    }
}

#[cycle(thresholds)]
fn add_statements(numbers: &mut Vec<i32>, all: &[Statement]) -> Result<(), AllocError> {
    for s in all {
        add_statement(numbers, s)?;
    }
    Ok(())
}

/// The numbers at which the limits of ranges may stop: those that the unit compares with or keeps, with their neighbours, the limits of
/// its objects before the run, and the objects' lengths.
pub(crate) fn thresholds(
    alloc: Global,
    sizes: &[ObjectSize],
    objects: &[Range],
    pairs: &[CminorPair],
) -> Result<Vec<i32>, AllocError> {
    let mut numbers = Vec::new(alloc);
    for number in [-1, 0, 1, 255, 65535] {
        add(&mut numbers, number)?;
    }
    for size in sizes {
        if let Ok(elements) = i32::try_from(size.elements) {
            add(&mut numbers, elements.saturating_sub(1))?;
            add(&mut numbers, elements)?;
        }
    }
    for range in objects {
        add(&mut numbers, range.low)?;
        add_compared(&mut numbers, range.high)?;
    }
    for pair in pairs {
        add_statement(&mut numbers, pair.code())?;
    }
    Ok(numbers)
}

/// The range that has no word.
pub(crate) fn nothing() -> Range {
    Range {
        low: i32::MAX,
        high: i32::MIN,
        is_nonzero: true,
    }
}

/// Whether the range has no word.
pub(crate) fn is_nothing(range: Range) -> bool {
    range.low > range.high
}

// The greatest of the numbers that is at most this one.
fn below(numbers: &[i32], limit: i32) -> i32 {
    let mut found = i32::MIN;
    for number in numbers {
        if *number <= limit && *number > found {
            found = *number;
        }
    }
    found
}

// The least of the numbers that is at least this one.
fn above(numbers: &[i32], limit: i32) -> i32 {
    let mut found = i32::MAX;
    for number in numbers {
        if *number >= limit && *number < found {
            found = *number;
        }
    }
    found
}

/// A range with the words of both, whose limits, if they grew, are among the numbers.
pub(crate) fn widened(numbers: &[i32], old: Range, new: Range) -> Range {
    if is_nothing(old) {
        return new;
    }
    let both = old.joined(new);
    Range {
        low: if both.low < old.low {
            below(numbers, both.low)
        } else {
            both.low
        },
        high: if both.high > old.high {
            above(numbers, both.high)
        } else {
            both.high
        },
        is_nonzero: both.is_nonzero,
    }
}

/// Lets ranges grow by others, position by position, and returns whether one did.
pub(crate) fn grow(numbers: &[i32], ranges: &mut [Range], others: &[Range]) -> bool {
    let mut has_grown = false;
    for i in 0..ranges.len() {
        let other = others.get(i).copied().unwrap_or(Range::all());
        if !other.is_within(ranges[i]) {
            ranges[i] = widened(numbers, ranges[i], other);
            has_grown = true;
        }
    }
    has_grown
}

/// The same without thresholds.
pub(crate) fn join(ranges: &mut [Range], others: &[Range]) {
    for i in 0..ranges.len() {
        let other = others.get(i).copied().unwrap_or(Range::all());
        ranges[i] = ranges[i].joined(other);
    }
}
