// A table that is still growing.

use crate::thresholds::{grow, is_nothing, join, widened};
use cc_cminor_language::Expression;
use cc_range::Range;
use cc_range_check::{Facts, Table, range_of};
use std::alloc::{AllocError, Global};

/// A table, and whether it has grown since the walk began.
#[derive(Drop)]
pub(crate) struct Draft {
    pub(crate) table: Table,
    pub(crate) has_grown: bool,
}

/// Facts arrive at a loop's head.
pub(crate) fn arrive_at_loop(
    alloc: Global,
    numbers: &[i32],
    draft: &mut Draft,
    function: usize,
    place: usize,
    facts: &Facts,
) -> Result<(), AllocError> {
    let Some(row) = draft.table.rows.get_mut(function) else {
        return Ok(());
    };
    let Some(note) = row.notes.get_mut(place) else {
        return Ok(());
    };
    match note {
        Some(known) => {
            let variables = grow(
                numbers,
                known.variables.as_mut_slice(),
                facts.variables.as_slice(),
            );
            let objects = grow(
                numbers,
                known.objects.as_mut_slice(),
                facts.objects.as_slice(),
            );
            if variables || objects {
                draft.has_grown = true;
            }
        }
        None => {
            *note = Some(facts.copy(alloc)?);
            draft.has_grown = true;
        }
    }
    Ok(())
}

/// Facts arrive at a block's end.
pub(crate) fn arrive_at_end(
    alloc: Global,
    draft: &mut Draft,
    function: usize,
    place: usize,
    facts: &Facts,
) -> Result<(), AllocError> {
    let Some(row) = draft.table.rows.get_mut(function) else {
        return Ok(());
    };
    let Some(note) = row.notes.get_mut(place) else {
        return Ok(());
    };
    match note {
        Some(known) => {
            join(known.variables.as_mut_slice(), facts.variables.as_slice());
            join(known.objects.as_mut_slice(), facts.objects.as_slice());
        }
        None => {
            *note = Some(facts.copy(alloc)?);
        }
    }
    Ok(())
}

/// Forgets what was known at a block's end.
pub(crate) fn forget_end(draft: &mut Draft, function: usize, place: usize) {
    if let Some(row) = draft.table.rows.get_mut(function) {
        if let Some(note) = row.notes.get_mut(place) {
            *note = None;
        }
    }
}

/// What is noted at a place.
pub(crate) fn noted(
    alloc: Global,
    draft: &Draft,
    function: usize,
    place: usize,
) -> Result<Option<Facts>, AllocError> {
    let Some(row) = draft.table.rows.get(function) else {
        return Ok(None);
    };
    match row.notes.get(place) {
        Some(Some(facts)) => Ok(Some(facts.copy(alloc)?)),
        _ => Ok(None),
    }
}

/// The objects arrive at a call, or at a return of a function that others call.
pub(crate) fn arrive_at_boundary(numbers: &[i32], draft: &mut Draft, facts: &Facts) {
    if grow(
        numbers,
        draft.table.objects.as_mut_slice(),
        facts.objects.as_slice(),
    ) {
        draft.has_grown = true;
    }
}

/// A function may change an object.
pub(crate) fn write(draft: &mut Draft, function: usize, object: usize) {
    if let Some(row) = draft.table.rows.get_mut(function) {
        if let Some(written) = row.writes.get_mut(object) {
            if !*written {
                *written = true;
                draft.has_grown = true;
            }
        }
    }
}

// Whether a function may change an object.
fn is_written(draft: &Draft, function: usize, object: usize) -> bool {
    match draft.table.rows.get(function) {
        Some(row) => row.writes.get(object).copied().unwrap_or(true),
        None => true,
    }
}

// A function changes what one that it calls changes.
fn write_all(draft: &mut Draft, function: usize, called: usize) {
    for object in 0..draft.table.objects.len() {
        if is_written(draft, called, object) {
            write(draft, function, object);
        }
    }
}

// The arguments of a call arrive.
fn pass(numbers: &[i32], draft: &mut Draft, called: usize, facts: &Facts, es: &[Expression]) {
    let Some(row) = draft.table.rows.get_mut(called) else {
        return;
    };
    if !row.is_called {
        row.is_called = true;
        draft.has_grown = true;
    }
    for (i, e) in es.iter().enumerate() {
        if let Some(parameter) = row.parameters.get_mut(i) {
            let argument = range_of(facts, e);
            if !argument.is_within(*parameter) {
                *parameter = widened(numbers, *parameter, argument);
                draft.has_grown = true;
            }
        }
    }
}

/// A function calls another.
pub(crate) fn call(
    numbers: &[i32],
    draft: &mut Draft,
    function: usize,
    called: usize,
    facts: &Facts,
    es: &[Expression],
) {
    pass(numbers, draft, called, facts, es);
    arrive_at_boundary(numbers, draft, facts);
    write_all(draft, function, called);
}

/// Whether a function has not returned in any walk.
pub(crate) fn never_returns(draft: &Draft, function: usize) -> bool {
    match draft.table.rows.get(function) {
        Some(row) => is_nothing(row.result),
        None => false,
    }
}

/// A function gives back a value of this range.
pub(crate) fn give_back(
    numbers: &[i32],
    draft: &mut Draft,
    function: usize,
    facts: &Facts,
    range: Range,
) {
    let Some(row) = draft.table.rows.get_mut(function) else {
        return;
    };
    if !row.is_called {
        return;
    }
    if !range.is_within(row.result) {
        row.result = widened(numbers, row.result, range);
        draft.has_grown = true;
    }
    arrive_at_boundary(numbers, draft, facts);
}
