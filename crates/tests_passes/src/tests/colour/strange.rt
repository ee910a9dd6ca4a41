// If the allocator is given the live sets of another function, it still answers, and the answer is accepted or refused with 24.

use super::functions::pair_of;
use crate::tests::pairs::{unit_of, verdict};
use cc_colour::colour;
use cc_live::{Liveness, liveness};
use cc_ltl::{Ltl, read_ltl, write_ltl};
use cc_rtl::RtlPair;
use std::alloc::Global;
use std::test::Fail;
use tests_texts::verdict::row_passes;
use tests_texts::worked::PROGRAMS;

// The RTL of the first function of a text.
fn first_of(alloc: Global, text: &str) -> Result<RtlPair, Fail> {
    let unit = unit_of(alloc, text.as_bytes())?;
    let pair = pair_of(alloc, &unit, 0);
    drop(unit);
    pair
}

fn live_of(alloc: Global, text: &str) -> Result<Liveness, Fail> {
    let pair = first_of(alloc, text)?;
    let live = liveness(alloc, pair.code());
    drop(pair);
    Ok(live?)
}

// Whether the bytes of an allocation are read as one that has the same bytes.
fn is_read_back(alloc: Global, ltl: &Ltl) -> Result<bool, Fail> {
    let bytes = write_ltl(alloc, ltl)?;
    let again = read_ltl(alloc, bytes.as_slice())?;
    let written = write_ltl(alloc, &again);
    drop(again);
    Ok(written?.as_slice() == bytes.as_slice())
}

// Whether the answer for the first function of a text can be written as bytes and read back, and is accepted or refused with
// 24.
fn is_answered(alloc: Global, text: &str, live: &Liveness) -> Result<bool, Fail> {
    let pair = first_of(alloc, text)?;
    let ltl = colour(alloc, pair.code(), live)?;
    let same = is_read_back(alloc, &ltl)?;
    let number = verdict(alloc, pair, ltl);
    Ok(same && (number == 0 || number == 24))
}

// Whether the first function of each worked program is answered with the live sets of this text's.
fn are_answered(alloc: Global, other: &str) -> Result<bool, Fail> {
    let live = live_of(alloc, other)?;
    let mut right = true;
    for (text, _) in PROGRAMS.iter() {
        right = right && is_answered(alloc, text, &live)?;
    }
    drop(live);
    Ok(right)
}

#[test]
fn any_live_sets_have_an_answer(rt: HostRuntime) -> Result<(), Fail> {
    for number in 0..PROGRAMS.len() {
        row_passes(number, are_answered(rt.alloc(), PROGRAMS[number].0))?;
    }
    Ok(())
}
