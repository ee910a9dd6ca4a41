// The check of a function's code against a table.

ghost use Rattle.std.specs.Prelude.{◌≡◌, [], true, IfOk};
ghost use Rattle.cc_c_semantics.specs.Numbered.{objects_in};
ghost use Rattle.cc_cminor_language.specs.Code.{statement_of};
ghost use Rattle.cc_cminor_language.specs.Pair.{tree_of, code_of, FailsAlike, GoesWrong};
ghost use Rattle.cc_range.specs.Range.{only};
ghost use Rattle.cc_range_table.specs.Table.{no_row, row_of};
ghost use Rattle.cc_range_table.specs.Inductive as inductive;
ghost use Rattle.cc_range_table.specs.Inductive.{for_facts, first_facts, is_inductive};
ghost use Rattle.cc_range_table.specs.Laws.{IsInductiveIn, IsCoveredIn};
ghost use Rattle.cc_range_check.specs.Checking.{inductive_in, uncovered_in};
ghost use Rattle.cc_range_check.specs.Places.{uncovered_code};
ghost use Rattle.cc_range_check.specs.Sizes.{sizes_of};
ghost use Rattle.cc_range_check.specs.Values.{facts_of, state_of, row_of_value, table_of};

use crate::constants::constants_fit;
use crate::places::{Found, Place};
use crate::sizes::{ObjectSize, object_sizes};
use crate::statements::statement;
use crate::steps::ends_well;
use crate::table::{Facts, Row, Table};
use crate::walk::{Walk, hold};
use cc_cminor_language::{CminorPair, Statement};
use cc_range::Range;
use cc_types::TypedUnit;
use std::alloc::{AllocError, Global};

/// What a check has found of a function's code.
#[derive(Drop)]
pub struct Checked {
    /// Whether the table is inductive in the code.
    pub is_inductive: bool,
    /// The operations that the table does not cover, in the order of the code.
    pub uncovered: Vec<Place>,
}

/// What is known at the start of a function: the parameters are in their ranges, other variables are 0, the objects are in the
/// table's ranges. Fails with `AllocError` if memory runs out.
pub fn first_facts(alloc: Global, table: &Table, row: &Row) -> Result<Facts, AllocError>
    ensures { IfOk result (λ facts. facts_of facts ≡ first_facts (table_of table.now) (row_of_value row.now)) }
{
    let mut variables = Vec::from_slice(alloc, row.parameters.as_slice())?;
    for _ in 0..row.locals {
        variables.push(Range::only(0))?;
    }
    let objects = Vec::from_slice(alloc, table.objects.as_slice())?;
    Ok(Facts { variables, objects })
}

// Whether what is known at the end of a function, if it is reached, gives what the row says: a function's end returns 0.
fn returns_well(table: &Table, row: &Row, state: &Option<Facts>) -> bool
    ensures { result ≡ for_facts (state_of state.now) (λ F. inductive.ends_well (table_of table.now) (row_of_value row.now) F (only 0)) }
{
    match state {
        Some(facts) => ends_well(table, row, facts, Range::only(0)),
        None => true,
    }
}

// The row of a function that has none.
fn no_row(alloc: Global) -> Row
    ensures { row_of_value result ≡ no_row }
{
    Row {
        parameters: Vec::new(alloc),
        locals: 0,
        is_called: false,
        result: Range::all(),
        writes: Vec::new(alloc),
        notes: Vec::new(alloc),
    }
}

fn check_code(
    alloc: Global,
    sizes: &[ObjectSize],
    table: &Table,
    row: &Row,
    code: &Statement,
) -> Result<Checked, AllocError>
    ensures inductive { IfOk result (λ found. found.is_inductive ≡ is_inductive (sizes_of sizes.now) (table_of table.now) (row_of_value row.now) (statement_of code.now)) }
    ensures uncovered { IfOk result (λ found. found.uncovered.items ≡ uncovered_code (sizes_of sizes.now) (table_of table.now) (row_of_value row.now) (statement_of code.now)) }
{
    let mut walk = Walk {
        place: 0,
        exits: Vec::new(alloc),
        is_inductive: true,
    };
    let mut found = Found {
        operation: 0,
        uncovered: Vec::new(alloc),
    };
    let facts = first_facts(alloc, table, row)?;
    let after = statement(alloc, sizes, table, row, &mut walk, &mut found, facts, code)?;
    hold(&mut walk, returns_well(table, row, &after));
    Ok(Checked {
        is_inductive: walk.is_inductive,
        uncovered: found.uncovered,
    })
}

// The check of the code of the function with this number.
fn check_numbered(
    alloc: Global,
    sizes: &[ObjectSize],
    table: &Table,
    function: usize,
    code: &Statement,
) -> Result<Checked, AllocError>
    ensures inductive { IfOk result (λ found. found.is_inductive ≡ is_inductive (sizes_of sizes.now) (table_of table.now) (row_of (table_of table.now) function) (statement_of code.now)) }
    ensures uncovered { IfOk result (λ found. found.uncovered.items ≡ uncovered_code (sizes_of sizes.now) (table_of table.now) (row_of (table_of table.now) function) (statement_of code.now)) }
{
    if function < table.rows.len() {
        return check_code(alloc, sizes, table, &table.rows[function], code);
    }
    let row = no_row(alloc);
    check_code(alloc, sizes, table, &row, code)
}

// The check of a pair, and what its type guarantees of the code.
fn check_pair(alloc: Global, pair: &CminorPair, table: &Table) -> Result<Checked, AllocError>
    ensures inductive { IfOk result (λ found. found.is_inductive ≡ inductive_in (table_of table.now) pair.now) }
    ensures uncovered { IfOk result (λ found. found.uncovered.items ≡ uncovered_in (table_of table.now) pair.now) }
    ensures shows { IfOk result (λ found. found.is_inductive ≡ true → FailsAlike (tree_of pair.now) pair.now.function (code_of pair.now)
        → IsInductiveIn (tree_of pair.now) (table_of table.now) pair.now.function (code_of pair.now)) }
{
    let unit: &TypedUnit = pair.unit();
    let sizes = object_sizes(alloc, unit.externals())?;
    let function = pair.function();
    let code = pair.code();
    constants_fit(code);
    check_numbered(alloc, sizes.as_slice(), table, function, code)
}

/// Checks a table against the Cminor of a function: whether the table is inductive in the code (`inductive`), and which operations it
/// does not cover (`uncovered`): exactly these, in the order of the code. If the table is inductive and the code fails as the function
/// does, it is what `calls_stay_in_table` asks of the function (`shows`). If also no operation is listed and the code goes wrong if the
/// function does, it is what `only_depth_is_left_by_table` asks (`covers`).
///
/// Fails with `AllocError` if memory runs out.
pub fn check_function(
    alloc: Global,
    pair: &CminorPair,
    table: &Table,
) -> Result<Checked, AllocError>
    ensures inductive { IfOk result (λ found. found.is_inductive ≡ inductive_in (table_of table.now) pair.now) }
    ensures uncovered { IfOk result (λ found. found.uncovered.items ≡ uncovered_in (table_of table.now) pair.now) }
    ensures shows { IfOk result (λ found. found.is_inductive ≡ true → FailsAlike (tree_of pair.now) pair.now.function (code_of pair.now)
        → IsInductiveIn (tree_of pair.now) (table_of table.now) pair.now.function (code_of pair.now)) }
    ensures covers { IfOk result (λ found. found.is_inductive ≡ true → found.uncovered.items ≡ [] → FailsAlike (tree_of pair.now) pair.now.function (code_of pair.now) → GoesWrong (tree_of pair.now) pair.now.function (code_of pair.now)
        → IsCoveredIn (tree_of pair.now) (table_of table.now) pair.now.function (code_of pair.now)) }
{
    check_pair(alloc, pair, table)
}
