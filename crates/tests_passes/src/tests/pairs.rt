// From a text to the RTL of its functions, and what the validator says about an allocation.

use cc_cminor::to_cminor;
use cc_cminor_language::CminorPair;
use cc_ltl::Ltl;
use cc_rtl::{RtlPair, to_rtl};
use cc_syntax::parse;
use cc_types::TypedUnit;
use cc_typing::check;
use cc_validate::{Refused, validate};
use std::alloc::Global;
use std::sync::Arc;
use std::test::Fail;

/// A text's typed unit.
pub fn unit_of(alloc: Global, text: &[u8]) -> Result<Arc<TypedUnit>, Fail> {
    let parsed = parse(alloc, text)?;
    let unit = check(alloc, parsed)?;
    Ok(Arc::new(alloc, unit)?)
}

// The Cminor of one function.
fn cminor_of(alloc: Global, unit: &Arc<TypedUnit>, function: usize) -> Result<CminorPair, Fail> {
    if function >= unit.functions() {
        return Err(Fail::from("no such function"));
    }
    Ok(to_cminor(alloc, unit, function)?)
}

/// The RTL of one function.
pub fn pair_of(alloc: Global, unit: &Arc<TypedUnit>, function: usize) -> Result<RtlPair, Fail> {
    let cminor = cminor_of(alloc, unit, function)?;
    Ok(to_rtl(alloc, cminor)?)
}

/// The RTL of one function of a text.
pub fn rtl_of(alloc: Global, text: &[u8], function: usize) -> Result<RtlPair, Fail> {
    let unit = unit_of(alloc, text)?;
    let pair = pair_of(alloc, &unit, function);
    drop(unit);
    pair
}

/// The number with which the validator refuses an allocation, or 0.
pub fn verdict(alloc: Global, pair: RtlPair, ltl: Ltl) -> u32 {
    match validate(alloc, pair, ltl) {
        Ok(pair) => {
            drop(pair);
            0
        }
        Err(Refused { pair, fault }) => {
            drop(pair);
            fault.number()
        }
    }
}

/// The RTL of all functions.
pub fn program_of(alloc: Global, unit: &Arc<TypedUnit>) -> Result<Vec<RtlPair>, Fail> {
    let mut program = Vec::new(alloc);
    for function in 0..unit.functions() {
        program.push(pair_of(alloc, unit, function)?)?;
    }
    Ok(program)
}
