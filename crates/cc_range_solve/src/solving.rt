// The walks, until nothing changes.

use crate::drafts::{Draft, give_back};
use crate::giving_up::{parameters, unknown};
use crate::statements::{Walk, places, statement};
use crate::thresholds::{is_nothing, nothing, thresholds};
use crate::words::first_objects;
use cc_cminor_language::{CminorPair, variables_above};
use cc_range::Range;
use cc_range_check::{Facts, ObjectSize, Row, Table, first_facts, object_sizes};
use cc_types::TypedUnit;
use std::alloc::{AllocError, Global};

/// The number of walks, and the number of those in which limits stop at numbers of the unit; in the others a limit that grows is given
/// up.
const MOST_WALKS: usize = 120;

const CAREFUL_WALKS: usize = 90;

/// At most this many ranges are noted for one function.
const MOST_NOTED: usize = 1000000;

const MAIN: &[u8] = b"main";

// The row of a function that nothing has called yet.
fn first_row(
    alloc: Global,
    objects: usize,
    parameters: usize,
    pair: &CminorPair,
) -> Result<Row, AllocError> {
    let code = pair.code();
    let mut ranges = Vec::new(alloc);
    for _ in 0..parameters {
        ranges.push(nothing())?;
    }
    let mut writes = Vec::new(alloc);
    for _ in 0..objects {
        writes.push(false)?;
    }
    let mut notes = Vec::new(alloc);
    for _ in 0..places(code) {
        notes.push(None)?;
    }
    let variables = variables_above(0, code) as usize;
    Ok(Row {
        parameters: ranges,
        locals: variables.saturating_sub(parameters),
        is_called: false,
        result: nothing(),
        writes,
        notes,
    })
}

// Whether the notes of a row would be too many.
fn is_large(row: &Row, objects: usize) -> bool {
    let facts = row
        .parameters
        .len()
        .saturating_add(row.locals)
        .saturating_add(objects);
    facts.saturating_mul(row.notes.len()) > MOST_NOTED
}

// The table before the first walk; `None` if it would grow too large.
fn first_table(
    alloc: Global,
    unit: &TypedUnit,
    pairs: &[CminorPair],
) -> Result<Option<Table>, AllocError> {
    let objects = first_objects(alloc, unit.externals())?;
    let mut rows = Vec::new(alloc);
    for (f, pair) in pairs.iter().enumerate() {
        let row = first_row(alloc, objects.len(), parameters(unit, f), pair)?;
        if is_large(&row, objects.len()) {
            return Ok(None);
        }
        rows.push(row)?;
    }
    Ok(Some(Table { rows, objects }))
}

// Whether the function with this number is main.
fn is_main(unit: &TypedUnit, function: usize) -> bool {
    function < unit.functions() && unit.function_name(function) == MAIN
}

// Whether a function may be reached: it is main, or another calls it, or nothing is said of its callers.
fn is_reached(unit: &TypedUnit, draft: &Draft, function: usize, all: bool) -> bool {
    match draft.table.rows.get(function) {
        Some(row) => row.is_called || all || is_main(unit, function),
        None => false,
    }
}

// What is known at the start of the function with this number.
fn start(alloc: Global, table: &Table, function: usize) -> Result<Option<Facts>, AllocError> {
    if function < table.rows.len() {
        Ok(Some(first_facts(alloc, table, &table.rows[function])?))
    } else {
        Ok(None)
    }
}

// One walk over a function.
fn walk_function(
    alloc: Global,
    sizes: &[ObjectSize],
    numbers: &[i32],
    draft: &mut Draft,
    function: usize,
    pair: &CminorPair,
) -> Result<(), AllocError> {
    let Some(facts) = start(alloc, &draft.table, function)? else {
        return Ok(());
    };
    let mut walk = Walk {
        function,
        place: 0,
        exits: Vec::new(alloc),
    };
    let left = statement(alloc, sizes, numbers, draft, &mut walk, facts, pair.code())?;
    if let Some(facts) = &left {
        give_back(numbers, draft, function, facts, Range::only(0));
    }
    Ok(())
}

// Walks over all functions that are reached until nothing changes, or too often. Returns how many walks remain.
fn walk_all(
    alloc: Global,
    unit: &TypedUnit,
    pairs: &[CminorPair],
    sizes: &[ObjectSize],
    numbers: &[i32],
    draft: &mut Draft,
    all: bool,
    walks: usize,
) -> Result<usize, AllocError> {
    let mut left = walks;
    for _ in 0..walks {
        draft.has_grown = false;
        for (f, pair) in pairs.iter().enumerate() {
            if is_reached(unit, draft, f, all) {
                walk_function(alloc, sizes, numbers, draft, f, pair)?;
            }
        }
        left = left.saturating_sub(1);
        if !draft.has_grown {
            return Ok(left);
        }
    }
    Ok(left)
}

// Gives up what a function that is never called is passed, and what one gives that never returns.
fn give_up(draft: &mut Draft) {
    for row in draft.table.rows.iter_mut() {
        if is_nothing(row.result) {
            row.result = Range::all();
        }
        for parameter in row.parameters.iter_mut() {
            if is_nothing(*parameter) {
                *parameter = Range::all();
            }
        }
    }
    draft.has_grown = true;
}

/// Makes a table of ranges for a unit, given the Cminor of all its functions in the order of their definitions. Fails with
/// `AllocError` if memory runs out.
pub fn solve(alloc: Global, unit: &TypedUnit, pairs: &[CminorPair]) -> Result<Table, AllocError> {
    let sizes = object_sizes(alloc, unit.externals())?;
    let objects = first_objects(alloc, unit.externals())?;
    let numbers = thresholds(alloc, sizes.as_slice(), objects.as_slice(), pairs)?;
    drop(objects);
    let Some(table) = first_table(alloc, unit, pairs)? else {
        return unknown(alloc, unit, pairs);
    };
    let mut draft = Draft {
        table,
        has_grown: true,
    };
    let left = walk_all(
        alloc,
        unit,
        pairs,
        sizes.as_slice(),
        numbers.as_slice(),
        &mut draft,
        false,
        CAREFUL_WALKS,
    )?;
    give_up(&mut draft);
    walk_all(
        alloc,
        unit,
        pairs,
        sizes.as_slice(),
        numbers.as_slice(),
        &mut draft,
        true,
        left,
    )?;
    if draft.has_grown {
        walk_all(
            alloc,
            unit,
            pairs,
            sizes.as_slice(),
            &[],
            &mut draft,
            true,
            MOST_WALKS - CAREFUL_WALKS,
        )?;
    }
    if draft.has_grown {
        return unknown(alloc, unit, pairs);
    }
    Ok(draft.table)
}
