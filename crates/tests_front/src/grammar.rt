// How `parse` judges texts.

use super::texts::SPELLED;
use cc_syntax::{Place, parse};
use std::alloc::Global;
use std::test::Fail;
use tests_texts::verdict::each_passes;

/// The number, line and column of a text's fault, or zeros for a unit.
fn answer(alloc: Global, text: &[u8]) -> (u32, usize, usize) {
    match parse(alloc, text) {
        Ok(_) => (0, 0, 0),
        Err(fault) => match fault.place() {
            Some(Place { line, column }) => (fault.number(), line, column),
            None => (fault.number(), 0, 0),
        },
    }
}

fn is_unit(alloc: Global, text: &&'static [u8]) -> Result<bool, Fail> {
    Ok(answer(alloc, text) == (0, 0, 0))
}

#[test]
fn texts_that_are_units(rt: HostRuntime) -> Result<(), Fail> {
    each_passes(rt.alloc(), SPELLED.as_slice(), is_unit)
}
