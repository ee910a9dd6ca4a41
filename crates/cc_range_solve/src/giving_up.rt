// The table that knows nothing.

use crate::statements::places;
use cc_ast::External;
use cc_cminor_language::CminorPair;
use cc_range::Range;
use cc_range_check::{Facts, Row, Table};
use cc_types::TypedUnit;
use std::alloc::{AllocError, Global};

// The row of a function that may be passed anything, may change everything and may give anything.
fn row(alloc: Global, parameters: usize, pair: &CminorPair) -> Result<Row, AllocError> {
    let mut all = Vec::new(alloc);
    for _ in 0..parameters {
        all.push(Range::all())?;
    }
    let mut notes = Vec::new(alloc);
    for _ in 0..places(pair.code()) {
        notes.push(Some(Facts {
            variables: Vec::new(alloc),
            objects: Vec::new(alloc),
        }))?;
    }
    Ok(Row {
        parameters: all,
        locals: 0,
        is_called: true,
        result: Range::all(),
        writes: Vec::new(alloc),
        notes,
    })
}

/// How many parameters the function with this number has.
pub(crate) fn parameters(unit: &TypedUnit, function: usize) -> usize {
    if function < unit.functions() {
        unit.definition(function).signature.parameters.len()
    } else {
        0
    }
}

/// The table in which nothing is known. It is inductive in every unit, and covers what is evident. Fails with `AllocError` if memory
/// runs out.
pub fn unknown(alloc: Global, unit: &TypedUnit, pairs: &[CminorPair]) -> Result<Table, AllocError> {
    let mut rows = Vec::new(alloc);
    for (f, pair) in pairs.iter().enumerate() {
        rows.push(row(alloc, parameters(unit, f), pair)?)?;
    }
    Ok(Table {
        rows,
        objects: Vec::new(alloc),
    })
}
