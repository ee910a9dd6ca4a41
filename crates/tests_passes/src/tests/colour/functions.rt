// From a text to a function's RTL, without the operations whose results nobody needs, and to what the validator says about the
// function's allocation.

use crate::tests::pairs;
use crate::tests::pairs::{unit_of, verdict};
use cc_colour::colour;
use cc_live::{drop_faint, liveness};
use cc_ltl::Ltl;
use cc_rtl::RtlPair;
use cc_types::TypedUnit;
use std::alloc::Global;
use std::sync::Arc;
use std::test::Fail;

/// The RTL of one function, without the operations whose results nobody needs.
pub fn pair_of(alloc: Global, unit: &Arc<TypedUnit>, function: usize) -> Result<RtlPair, Fail> {
    let mut pair = pairs::pair_of(alloc, unit, function)?;
    drop_faint(alloc, &mut pair)?;
    Ok(pair)
}

// The function's LTL, as the allocator makes it.
fn coloured(alloc: Global, pair: &RtlPair) -> Result<Ltl, Fail> {
    let live = liveness(alloc, pair.code())?;
    let ltl = colour(alloc, pair.code(), &live)?;
    drop(live);
    Ok(ltl)
}

// Whether the validator accepts the allocation of one function of a unit.
fn is_accepted(alloc: Global, unit: &Arc<TypedUnit>, function: usize) -> Result<bool, Fail> {
    let pair = pair_of(alloc, unit, function)?;
    let ltl = coloured(alloc, &pair)?;
    Ok(verdict(alloc, pair, ltl) == 0)
}

/// Whether the validator accepts the allocations of all functions of a text.
pub fn all_are_accepted(alloc: Global, text: &[u8]) -> Result<bool, Fail> {
    let unit = unit_of(alloc, text)?;
    let mut right = true;
    for function in 0..unit.functions() {
        right = right && is_accepted(alloc, &unit, function)?;
    }
    drop(unit);
    Ok(right)
}
