// Lists of ranges, position by position.

ghost use Rattle.std.specs.Prelude.{◌≡◌, ◌≤◌, ◌⊎◌, ◌||◌, not, set, if◌then◌else◌, IfOk};
ghost use Rattle.cc_range.specs.Range.{is_within, joined};
ghost use Rattle.cc_range_table.specs.Table.{at, is_written};
ghost use Rattle.cc_range_table.specs.Inductive.{are_within, joined_all, after_changes, changes_within};

use cc_range::Range;
use std::alloc::{AllocError, Global};

/// The range at a position; all words after the list's end.
pub(crate) fn range_at(ranges: &[Range], position: usize) -> Range
    ensures { result ≡ at ranges.now position }
{
    if position < ranges.len() {
        ranges[position]
    } else {
        Range::all()
    }
}

/// Puts a range at a position, if the list has it.
pub(crate) fn set_range(ranges: &mut Vec<Range>, position: usize, range: Range)
    ensures { ranges.new.items ≡ set ranges.old.items position range }
{
    if position < ranges.len() {
        ranges[position] = range;
    }
}

// The lesser of two lengths.
fn shorter(first: usize, second: usize) -> usize
    ensures first { result ≤ first }
    ensures second { result ≤ second }
    ensures one { (result ≡ first) ⊎ (result ≡ second) }
{
    if first <= second { first } else { second }
}

// Whether a range of the first list is within the one of the second at the same position.
fn is_within_at(first: &[Range], second: &[Range], position: usize) -> bool
    ensures { result ≡ is_within (at first.now position) (at second.now position) }
{
    range_at(first, position).is_within(range_at(second, position))
}

/// Whether each range of the first list is within the one of the second.
pub(crate) fn are_within(first: &[Range], second: &[Range]) -> bool
    ensures { result ≡ are_within first.now second.now }
{
    let mut within = true;
    for i in 0..second.len() {
        within = within && is_within_at(first, second, i);
    }
    within
}

// The join of two ranges at one position.
fn joined_at(first: &[Range], second: &[Range], position: usize) -> Range
    ensures { result ≡ joined (at first.now position) (at second.now position) }
{
    range_at(first, position).joined(range_at(second, position))
}

/// The joins of the ranges of two lists, as long as the shorter one.
pub(crate) fn joined_all(
    alloc: Global,
    first: &[Range],
    second: &[Range],
) -> Result<Vec<Range>, AllocError>
    ensures { IfOk result (λ all. all.items ≡ joined_all first.now second.now) }
{
    let mut all = Vec::new(alloc);
    for i in 0..shorter(first.len(), second.len()) {
        all.push(joined_at(first, second, i))?;
    }
    Ok(all)
}

/// Whether a function with this list may change an object.
pub(crate) fn is_written(writes: &[bool], object: usize) -> bool
    ensures { result ≡ is_written writes.now object }
{
    if object < writes.len() {
        writes[object]
    } else {
        true
    }
}

// Whether the second function may change an object, if the first may.
fn changes_within_at(first: &[bool], second: &[bool], object: usize) -> bool
    ensures { result ≡ (not (is_written first.now object) || is_written second.now object) }
{
    !is_written(first, object) || is_written(second, object)
}

/// Whether what the first function may change, the second may change.
pub(crate) fn changes_within(first: &[bool], second: &[bool]) -> bool
    ensures { result ≡ changes_within first.now second.now }
{
    let mut within = true;
    for i in 0..second.len() {
        within = within && changes_within_at(first, second, i);
    }
    within
}

// The range of one object after a call.
fn after_change(writes: &[bool], before: &[Range], table: &[Range], object: usize) -> Range
    ensures { result ≡ (if is_written writes.now object then at table.now object else at before.now object) }
{
    if is_written(writes, object) {
        range_at(table, object)
    } else {
        range_at(before, object)
    }
}

/// The ranges of objects after a call: what it may change is in the table's range, and the rest is as it was.
pub(crate) fn after_changes(
    alloc: Global,
    writes: &[bool],
    before: &[Range],
    table: &[Range],
) -> Result<Vec<Range>, AllocError>
    ensures { IfOk result (λ all. all.items ≡ after_changes writes.now before.now table.now) }
{
    let mut all = Vec::new(alloc);
    for i in 0..shorter(shorter(writes.len(), before.len()), table.len()) {
        all.push(after_change(writes, before, table, i))?;
    }
    Ok(all)
}
