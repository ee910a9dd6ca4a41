// The functions of a text, as Linear. Their LTL is the allocation in which each register has a slot of its own.

use crate::tests::pairs::{pair_of, unit_of};
use cc_colour::spill_all;
use cc_linear::linearise;
use cc_linear_language::LinearPair;
use cc_types::TypedUnit;
use cc_validate::validate;
use std::alloc::Global;
use std::sync::Arc;
use std::test::Fail;

/// The Linear of the function with this number.
pub fn linear_of(
    alloc: Global,
    unit: &Arc<TypedUnit>,
    function: usize,
) -> Result<LinearPair, Fail> {
    let rtl = pair_of(alloc, unit, function)?;
    let ltl = spill_all(alloc, rtl.code())?;
    match validate(alloc, rtl, ltl) {
        Ok(pair) => Ok(linearise(alloc, pair)?),
        Err(refused) => {
            drop(refused);
            Err(Fail::from("refused"))
        }
    }
}

// Whether a function goes through, and names itself and its unit.
fn goes_through(alloc: Global, unit: &Arc<TypedUnit>, function: usize) -> Result<bool, Fail> {
    let pair = linear_of(alloc, unit, function)?;
    let is_itself = pair.function() == function && pair.unit().text() == unit.text();
    let right = is_itself && pair.slots() > 0 && !pair.code().is_empty();
    drop(pair);
    Ok(right)
}

/// Whether a text has `functions` functions, and each goes through.
pub fn all_go_through(alloc: Global, text: &[u8], functions: usize) -> Result<bool, Fail> {
    let unit = unit_of(alloc, text)?;
    let mut right = unit.functions() == functions;
    for function in 0..functions {
        right = right && goes_through(alloc, &unit, function)?;
    }
    drop(unit);
    Ok(right)
}

/// The text of the Linear of one function.
pub fn text_of_function(alloc: Global, text: &[u8], function: usize) -> Result<String, Fail> {
    let unit = unit_of(alloc, text)?;
    let made = linear_of(alloc, &unit, function);
    drop(unit);
    let pair = made?;
    let shown = pair.to_string(alloc);
    drop(pair);
    Ok(shown?)
}
