// What a store, a call and a return do to the facts, and what the table says of them.

ghost use Rattle.std.specs.Prelude.{◌≡◌, ◌&&◌, ◌+◌, ◌++◌, IfOk, OnOk};
ghost use Rattle.cc_cminor_language.specs.Code.{expression_of, expressions_of};
ghost use Rattle.cc_range_table.specs.Table.{row_of};
ghost use Rattle.cc_range_table.specs.Inductive as inductive;
ghost use Rattle.cc_range_table.specs.Inductive.{range_of, after_store, after_call, set_result, is_boundary, ends_well, are_arguments, changes_within, after_changes};
ghost use Rattle.cc_range_check.specs.Places.{operations_of, uncovered, unless_inside};
ghost use Rattle.cc_range_check.specs.Sizes.{sizes_of};
ghost use Rattle.cc_range_check.specs.Values.{facts_of, row_of_value, table_of};
ghost use Rattle.cc_range_check.specs.internal.Walked.{Finds};

use crate::expressions::{are_arguments, see_expression, see_index};
use crate::learning::{set_object, set_variable};
use crate::places::Found;
use crate::ranges::{after_changes, are_within, changes_within, range_at};
use crate::sizes::{ObjectSize, is_scalar};
use crate::table::{Facts, Row, Table};
use cc_cminor_language::Expression;
use cc_range::{Range, of_kept};
use cc_words::Width;
use std::alloc::{AllocError, Global};

/// After a store: a scalar has only the stored value, any other object may also have what it had.
pub fn after_store(
    sizes: &[ObjectSize],
    facts: &mut Facts,
    width: Width,
    object: usize,
    range: Range,
)
    ensures { facts_of facts.new ≡ after_store (sizes_of sizes.now) (facts_of facts.old) width object range }
{
    let kept = of_kept(width, range);
    if is_scalar(sizes, object) {
        set_object(facts, object, kept);
    } else {
        let before = range_at(facts.objects.as_slice(), object);
        set_object(facts, object, before.joined(kept));
    }
}

/// Sees the operations of a store, and changes the facts as the store does.
pub(crate) fn store(
    found: &mut Found,
    sizes: &[ObjectSize],
    facts: &mut Facts,
    width: Width,
    object: usize,
    i: &Expression,
    e: &Expression,
) -> Result<(), AllocError>
    ensures facts { OnOk result (facts_of facts.new ≡ after_store (sizes_of sizes.now) (facts_of facts.old) width object (range_of (facts_of facts.old) (expression_of e.now))) }
    ensures found { OnOk result (Finds (operations_of (expression_of i.now) + 1 + operations_of (expression_of e.now))
        (uncovered (sizes_of sizes.now) found.old.operation (facts_of facts.old) (expression_of i.now)
        ++ unless_inside (sizes_of sizes.now) (found.old.operation + operations_of (expression_of i.now)) width object (range_of (facts_of facts.old) (expression_of i.now))
        ++ uncovered (sizes_of sizes.now) (found.old.operation + operations_of (expression_of i.now) + 1) (facts_of facts.old) (expression_of e.now)) found.old found.new) }
{
    let index = see_expression(found, sizes, facts, i)?;
    see_index(found, sizes, width, object, index)?;
    let range = see_expression(found, sizes, facts, e)?;
    after_store(sizes, facts, width, object, range);
    Ok(())
}

/// Puts the range of a result into its variable, if there is one.
pub fn set_result(facts: &mut Facts, to: Option<usize>, range: Range)
    ensures { facts_of facts.new ≡ set_result (facts_of facts.old) to range }
{
    if let Some(variable) = to {
        set_variable(facts, variable, range);
    }
}

// The range of a function's result.
fn result_of(table: &Table, function: usize) -> Range
    ensures { result ≡ (row_of (table_of table.now) function).result }
{
    if function < table.rows.len() {
        table.rows[function].result
    } else {
        Range::all()
    }
}

// The ranges of objects after a call of a function.
fn objects_after(
    alloc: Global,
    table: &Table,
    function: usize,
    objects: &[Range],
) -> Result<Vec<Range>, AllocError>
    ensures { IfOk result (λ all. all.items ≡ after_changes (row_of (table_of table.now) function).writes objects.now (table_of table.now).objects) }
{
    if function < table.rows.len() {
        after_changes(
            alloc,
            table.rows[function].writes.as_slice(),
            objects,
            table.objects.as_slice(),
        )
    } else {
        Ok(Vec::new(alloc))
    }
}

/// What is known after a call.
pub fn after_call(
    alloc: Global,
    table: &Table,
    facts: Facts,
    to: Option<usize>,
    function: usize,
) -> Result<Facts, AllocError>
    ensures { IfOk result (λ after. facts_of after ≡ after_call (table_of table.now) (facts_of facts) to (row_of (table_of table.now) function)) }
{
    let Facts { variables, objects } = facts;
    let objects = objects_after(alloc, table, function, objects.as_slice())?;
    let mut after = Facts { variables, objects };
    set_result(&mut after, to, result_of(table, function));
    Ok(after)
}

// Whether each object is in the table's range.
fn is_boundary(table: &Table, facts: &Facts) -> bool
    ensures { result ≡ is_boundary (table_of table.now) (facts_of facts.now) }
{
    are_within(facts.objects.as_slice(), table.objects.as_slice())
}

/// Whether a call passes what the called function's row says, and changes nothing that this row does not say.
pub(crate) fn is_called_well(
    table: &Table,
    row: &Row,
    facts: &Facts,
    function: usize,
    es: &[Expression],
) -> bool
    ensures { result ≡ ((row_of (table_of table.now) function).is_called && inductive.are_arguments (facts_of facts.now) (expressions_of es.now) (row_of (table_of table.now) function).parameters
        && inductive.is_boundary (table_of table.now) (facts_of facts.now) && inductive.changes_within (row_of (table_of table.now) function).writes (row_of_value row.now).writes) }
{
    if function >= table.rows.len() {
        return false;
    }
    let called = &table.rows[function];
    called.is_called
        && are_arguments(facts, es, called.parameters.as_slice())
        && is_boundary(table, facts)
        && changes_within(called.writes.as_slice(), row.writes.as_slice())
}

/// Whether a function that ends with a value in this range gives what its row says.
pub(crate) fn ends_well(table: &Table, row: &Row, facts: &Facts, range: Range) -> bool
    ensures { result ≡ ends_well (table_of table.now) (row_of_value row.now) (facts_of facts.now) range }
{
    !row.is_called || (range.is_within(row.result) && is_boundary(table, facts))
}
