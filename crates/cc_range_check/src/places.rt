// The operations that are not covered.

ghost use Rattle.std.specs.Prelude.{◌≡◌, ◌+◌, ◌++◌, OnOk};
ghost use Rattle.cc_range_check.specs.Places.{is_partial, counted, unless};

use cc_cminor_language::above;
use cc_range::Range;
use cc_words::Binary;
use std::alloc::AllocError;

/// What an operation would need.
#[derive(Clone, Copy)]
pub enum Need {
    /// A value of this operator for all operands of the two ranges.
    Operands(Binary, Range, Range),
    /// An index into this many elements, for each word of the range.
    Index(u32, Range),
}

/// An operation that may lack a value: its number among the function's operations that can, in the order of its Cminor, and what it
/// would need.
#[derive(Clone, Copy)]
pub struct Place {
    pub operation: usize,
    pub need: Need,
}

/// What a walk has found: how many operations that can lack a value it has seen, and those that are not covered.
#[derive(Drop)]
pub(crate) struct Found {
    pub(crate) operation: usize,
    pub(crate) uncovered: Vec<Place>,
}

/// Whether there are operands for which the operator has no value.
pub(crate) fn is_partial(operator: Binary) -> bool
    ensures { result ≡ is_partial operator }
{
    matches!(
        operator,
        Binary::DivS
            | Binary::DivU
            | Binary::RemS
            | Binary::RemU
            | Binary::Shl
            | Binary::ShrS
            | Binary::ShrU
    )
}

/// How many operations that can lack a value an operator is: one or none.
pub(crate) fn counted(operator: Binary) -> usize
    ensures { result ≡ counted operator }
{
    if is_partial(operator) { 1 } else { 0 }
}

/// Sees an operation, which counts as `count`.
pub(crate) fn see(
    found: &mut Found,
    count: usize,
    is_covered: bool,
    need: Need,
) -> Result<(), AllocError>
    ensures operation { OnOk result (found.new.operation ≡ found.old.operation + count) }
    ensures uncovered { OnOk result (found.new.uncovered.items ≡ found.old.uncovered.items ++ unless is_covered found.old.operation need) }
{
    let operation = found.operation;
    found.operation = above(operation, count)?;
    if !is_covered {
        found.uncovered.push(Place { operation, need })?;
    }
    Ok(())
}
