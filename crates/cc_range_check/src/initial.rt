// The words of objects before the run are in the table's ranges, and so is the call of main.

ghost use Rattle.std.specs.Prelude.{◌≡◌, ◌+◌, ◌%◌, ◌^◌, ◌&&◌, ◌++◌, Some, map, replicate, Bool, List, IfOk};
ghost use Rattle.cc_ast.specs.Erase.{constant_tree, constant_trees, optional_constant, object_tree, object_trees, external_trees};
ghost use Rattle.cc_ast.specs.Source.{source};
ghost use Rattle.cc_ast.specs.Tree as tree;
ghost use Rattle.cc_types.specs.Limits.{objects};
ghost use Rattle.cc_types.specs.Types.{initial_word, initial_words, zeros_behind};
ghost use Rattle.cc_c_semantics.specs.Calls.{main_of};
ghost use Rattle.cc_range_table.specs.Table.{row_of};
ghost use Rattle.cc_range_check.specs.Checking as checking;
ghost use Rattle.cc_range_check.specs.Checking.{each_in, start_within, starts_in_table};
ghost use Rattle.cc_range_check.specs.Values.{table_of};

use crate::ranges::range_at;
use crate::sizes::objects_of;
use crate::table::Table;
use cc_ast::{ConstantExpression, External, Object};
use cc_cminor_language::above;
use cc_range::Range;
use cc_resolve::lay_out;
use cc_types::{TypedUnit, array_length, constant_word};
use std::alloc::{AllocError, Global};

const MAIN: &[u8] = b"main";

fn is_in(range: Range, word: u32) -> bool
    ensures { result ≡ checking.is_in range word }
{
    Range::only(word).is_within(range)
}

fn word_of(tree: &ConstantExpression) -> u32
    ensures { result ≡ initial_word (Some (constant_tree tree.now)) }
{
    match constant_word(tree) {
        Some(word) => word,
        None => 0,
    }
}

fn initial_word(tree: &Option<ConstantExpression>) -> u32
    ensures { result ≡ initial_word (optional_constant tree.now) }
{
    match tree {
        Some(tree) => word_of(tree),
        None => 0,
    }
}

// Whether the words of an initialiser list are in a range.
fn values_in(range: Range, trees: &[ConstantExpression]) -> bool
    ensures { result ≡ each_in range (map (λ (c : tree.ConstantExpr). initial_word (Some c)) (constant_trees trees.now)) }
{
    let mut within = true;
    for tree in trees {
        within = within && is_in(range, word_of(tree));
    }
    within
}

// The same of bytes.
fn bytes_in(range: Range, trees: &[ConstantExpression]) -> bool
    ensures { result ≡ each_in range (map (λ (c : tree.ConstantExpr). initial_word (Some c) % 2 ^ 8) (constant_trees trees.now)) }
{
    let mut within = true;
    for tree in trees {
        within = within && is_in(range, word_of(tree) % 256);
    }
    within
}

// Whether this many zeros are in a range.
fn zeros_in(range: Range, count: usize) -> bool
    ensures { result ≡ each_in range (replicate count 0) }
{
    let mut within = true;
    for _ in 0..count {
        within = within && is_in(range, 0);
    }
    within
}

// Whether the zeros of the elements that an initialiser list does not reach are in a range.
fn zeros_after(
    range: Range,
    length: &Option<ConstantExpression>,
    values: &[ConstantExpression],
) -> bool
    ensures { result ≡ each_in range (zeros_behind (optional_constant length.now) (constant_trees values.now)) }
{
    let count = array_length(length, values).unwrap_or(0);
    zeros_in(range, count.saturating_sub(values.len()))
}

// Whether the words of an array are in a range.
fn array_in(
    range: Range,
    length: &Option<ConstantExpression>,
    values: &[ConstantExpression],
) -> bool
    ensures { result ≡ (each_in range (map (λ (c : tree.ConstantExpr). initial_word (Some c)) (constant_trees values.now))
        && each_in range (zeros_behind (optional_constant length.now) (constant_trees values.now))) }
{
    values_in(range, values) && zeros_after(range, length, values)
}

// The same of an array of bytes.
fn byte_array_in(
    range: Range,
    length: &Option<ConstantExpression>,
    values: &[ConstantExpression],
) -> bool
    ensures { result ≡ (each_in range (map (λ (c : tree.ConstantExpr). initial_word (Some c) % 2 ^ 8) (constant_trees values.now))
        && each_in range (zeros_behind (optional_constant length.now) (constant_trees values.now))) }
{
    bytes_in(range, values) && zeros_after(range, length, values)
}

// Whether the words of an object are in a range.
fn object_in(range: Range, tree: &Object) -> bool
    ensures { result ≡ each_in range (initial_words (object_tree tree.now)) }
{
    match tree {
        Object::Single(_, initial) => is_in(range, initial_word(initial)),
        Object::Array(_, length, values) => array_in(range, length, values.as_slice()),
        Object::Bytes(_, length, values) => byte_array_in(range, length, values.as_slice()),
    }
}

// The number of the next object, and whether all before it start in their ranges.
#[derive(Clone, Copy)]
struct Start {
    object: usize,
    within: bool,
}

// Tests the objects of one declaration.
fn objects_start(ranges: &[Range], first: Start, trees: &[Object]) -> Result<Start, AllocError>
    ensures { IfOk result (λ next. (rest : List tree.Object) → (next.within && start_within next.object ranges.now rest) ≡ (first.within && start_within first.object ranges.now (object_trees trees.now ++ rest))) }
{
    let mut next = first;
    for tree in trees {
        next = Start {
            object: above(next.object, 1)?,
            within: next.within && object_in(range_at(ranges, next.object), tree),
        };
    }
    Ok(next)
}

// Whether the words of all objects are in their ranges.
fn all_start(ranges: &[Range], trees: &[External]) -> Result<bool, AllocError>
    ensures { IfOk result (λ within. within ≡ start_within 0 ranges.now (objects (external_trees trees.now))) }
{
    let mut next = Start {
        object: 0,
        within: true,
    };
    for tree in trees {
        next = objects_start(ranges, next, objects_of(tree))?;
    }
    Ok(next.within)
}

// Whether a list is empty.
#[tactic(auto, using(crate::proofs::Lists::empty_is))]
fn is_empty(ranges: &[Range]) -> bool
    ensures { result ≡ checking.is_empty ranges.now }
{
    ranges.len() == 0
}

// Whether the row of a function has no parameters.
fn has_no_parameters(table: &Table, function: usize) -> bool
    ensures { result ≡ checking.is_empty (row_of (table_of table.now) function).parameters }
{
    if function < table.rows.len() {
        is_empty(table.rows[function].parameters.as_slice())
    } else {
        true
    }
}

// Whether the row of main has no parameters.
fn main_fits(alloc: Global, trees: &[External], table: &Table) -> Result<bool, AllocError>
    ensures { IfOk result (λ fits. fits ≡ checking.is_empty (row_of (table_of table.now) (main_of (external_trees trees.now))).parameters) }
{
    let mut words = Vec::new(alloc);
    let layout = lay_out(alloc, &mut words, trees)?;
    let main = layout.function(MAIN);
    Ok(has_no_parameters(table, main))
}

/// Whether the call of main before the run is in the table: its row has no parameters, and each word of each object is in the
/// object's range. Fails with `AllocError` if memory runs out.
pub fn starts_in_table(alloc: Global, unit: &TypedUnit, table: &Table) -> Result<bool, AllocError>
    ensures { IfOk result (λ starts. starts ≡ starts_in_table (table_of table.now) (source unit.now).externals) }
{
    let trees = unit.externals();
    let fits = main_fits(alloc, trees, table)?;
    let start = all_start(table.objects.as_slice(), trees)?;
    Ok(fits && start)
}
