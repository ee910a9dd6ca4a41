// Whether the calls of a unit have no cycle.
//
// All ranks are 0 at first. In each round, the rank of each function that calls one of the same or a higher rank rises by one;
// there is one more round than a unit can have functions. If there is no cycle, the ranks then fall from call to call. No proof
// depends on how they were found: the answer comes from checking the ranks at the end.

ghost use Rattle.std.specs.Prelude.{◌≡◌, ◌<◌, true, IfOk};
ghost use Rattle.std.specs.List.{AllByRecursion};
ghost use Rattle.cc_ast.specs.Erase.{external_trees};
ghost use Rattle.cc_ast.specs.Source.{source};
ghost use Rattle.cc_c_semantics.specs.Meaning.{functions};
ghost use Rattle.cc_depth.specs.Cycles.{CallsLower, HasNoCycle};
ghost use Rattle.cc_safe.specs.internal.Ranks.{rank_by, FallsIn};

use crate::calls::{in_statements, rank_of};
use cc_ast::External;
use cc_resolve::{Layout, lay_out};
use cc_types::TypedUnit;
use std::alloc::{AllocError, Global};

const MAIN: &[u8] = b"main";

/// At most this many calls may be open at once.
const MOST_OPEN: u32 = 1024;

/// A unit has at most this many functions.
const MOST_FUNCTIONS: usize = 64;

// Whether the function that an external declaration defines, if any, calls only functions of lower ranks.
fn falls_in(layout: &Layout<'_>, table: &[u32], external: &External) -> bool
    ensures { result ≡ true → FallsIn (rank_by layout.now table.now) external.now }
{
    match external {
        External::Definition(signature, body) => {
            let limit = rank_of(layout, table, signature.name.bytes.as_slice());
            in_statements(layout, table, limit, body.as_slice())
        }
        External::Declaration(_) | External::Objects(_, _) => true,
    }
}

// Whether each function of a unit calls only functions of lower ranks.
fn all_fall(layout: &Layout<'_>, table: &[u32], externals: &[External]) -> bool
    ensures { result ≡ true → AllByRecursion (CallsLower (rank_by layout.now table.now)) (functions (external_trees externals.now)) }
{
    for external in externals {
        if !falls_in(layout, table, external) {
            return false;
        }
    }
    true
}

// Raises the rank of each function that calls one of the same or a higher rank.
fn raise(layout: &Layout<'_>, table: &mut Vec<u32>, externals: &[External]) {
    for external in externals {
        if !falls_in(layout, table.as_slice(), external) {
            if let External::Definition(signature, _) = external {
                let function = layout.function(signature.name.bytes.as_slice());
                if let Some(rank) = table.get_mut(function) {
                    *rank = rank.saturating_add(1);
                }
            }
        }
    }
}

// Ranks that fall from call to call, if there are any.
fn ranks(
    alloc: Global,
    layout: &Layout<'_>,
    functions: usize,
    externals: &[External],
) -> Result<Vec<u32>, AllocError> {
    let mut table = Vec::new(alloc);
    table.resize(functions, 0)?;
    for _round in 0..MOST_FUNCTIONS + 1 {
        raise(layout, &mut table, externals);
    }
    Ok(table)
}

/// Whether the calls of a unit have no cycle.
pub(crate) fn is_acyclic(alloc: Global, unit: &TypedUnit) -> Result<bool, AllocError>
    ensures { IfOk result (λ none. none ≡ true → HasNoCycle (source unit.now).externals) }
{
    let externals = unit.externals();
    let mut elements = Vec::new(alloc);
    let layout = lay_out(alloc, &mut elements, externals)?;
    let table = ranks(alloc, &layout, unit.functions(), externals)?;
    let rows = table.as_slice();
    let main = rank_of(&layout, rows, MAIN);
    if main >= MOST_OPEN {
        return Ok(false);
    }
    Ok(all_fall(&layout, rows, externals))
}
