// Allocations that are wrong, or are only spelled differently: one with two operands exchanged, one with each of its bytes
// changed, and each prefix of its bytes.

use super::changes::with_operation;
use super::texts::{DIFFERENCE, EMPTY};
use crate::tests::pairs::{pair_of, rtl_of, unit_of, verdict};
use cc_colour::spill_all;
use cc_ltl::{Ltl, Operation, read_ltl, write_ltl};
use cc_rtl::RtlPair;
use cc_types::TypedUnit;
use cc_validate::{Refused, validate};
use std::alloc::Global;
use std::sync::Arc;
use std::test::Fail;
use tests_texts::verdict::passes;
use tests_texts::worked::LONG;

// The place of the first operation with two operands, and that operation with its operands exchanged; `None` if there is no
// such operation.
fn exchanged(ltl: &Ltl) -> Option<(usize, Operation)> {
    for (place, block) in ltl.blocks().iter().enumerate() {
        if let Operation::Binary {
            operator,
            to,
            left,
            right,
            next,
        } = block.operation
        {
            let other = Operation::Binary {
                operator,
                to,
                left: right,
                right: left,
                next,
            };
            return Some((place, other));
        }
    }
    None
}

// The function with the operands of its first operation with two operands exchanged.
fn exchanging(alloc: Global, ltl: &Ltl) -> Result<Ltl, Fail> {
    let Some((place, other)) = exchanged(ltl) else {
        return Err(Fail::from("no operation with two operands"));
    };
    match with_operation(alloc, ltl, place, other)? {
        Some(ltl) => Ok(ltl),
        None => Err(Fail::from("no function")),
    }
}

// Whether the first function is refused with 24, and the pair that comes back is accepted with the second.
fn is_right_alone(alloc: Global, pair: RtlPair, wrong: Ltl, right: Ltl) -> bool {
    match validate(alloc, pair, wrong) {
        Ok(pair) => {
            drop(pair);
            drop(right);
            false
        }
        Err(Refused { pair, fault }) => verdict(alloc, pair, right) == 0 && fault.number() == 24,
    }
}

fn difference_is_guarded(alloc: Global) -> Result<bool, Fail> {
    let pair = rtl_of(alloc, DIFFERENCE.as_bytes(), 0)?;
    let ltl = spill_all(alloc, pair.code())?;
    let wrong = exchanging(alloc, &ltl)?;
    Ok(is_right_alone(alloc, pair, wrong, ltl))
}

#[test]
fn exchanged_operands_are_refused(rt: HostRuntime) -> Result<(), Fail> {
    passes(difference_is_guarded(rt.alloc()))
}

/// A function whose allocation is tried in other bytes, and its RTL, if no try has used it up.
#[derive(Drop)]
struct Tried {
    unit: Arc<TypedUnit>,
    function: usize,
    pair: Option<RtlPair>,
}

impl Tried {
    // The RTL for the next try.
    fn taken(&mut self, alloc: Global) -> Result<RtlPair, Fail> {
        match self.pair.take() {
            Some(pair) => Ok(pair),
            None => pair_of(alloc, &self.unit, self.function),
        }
    }

    // Whether a function is accepted, or refused with 24.
    fn is_judged(&mut self, alloc: Global, ltl: Ltl) -> Result<bool, Fail> {
        let pair = self.taken(alloc)?;
        match validate(alloc, pair, ltl) {
            Ok(pair) => {
                drop(pair);
                Ok(true)
            }
            Err(Refused { pair, fault }) => {
                self.pair = Some(pair);
                Ok(fault.number() == 24)
            }
        }
    }

    // Whether bytes spell no function, or one that is accepted, or refused with 24.
    fn is_answered(&mut self, alloc: Global, bytes: &[u8]) -> Result<bool, Fail> {
        match read_ltl(alloc, bytes) {
            Ok(ltl) => self.is_judged(alloc, ltl),
            Err(fault) => Ok(fault.number() == 37),
        }
    }

    // Whether each value of the byte at a place is answered.
    fn is_place_answered(
        &mut self,
        alloc: Global,
        bytes: &mut [u8],
        place: usize,
    ) -> Result<bool, Fail> {
        let Some(usual) = bytes.get(place).copied() else {
            return Ok(false);
        };
        let mut right = true;
        for value in 0..=255u8 {
            put(bytes, place, value);
            right = right && self.is_answered(alloc, bytes)?;
        }
        put(bytes, place, usual);
        Ok(right)
    }

    // Whether each value of one byte in every `one_in` bytes is answered, beginning with the byte `first`; of each byte if `one_in`
    // is 0.
    fn are_answered(
        &mut self,
        alloc: Global,
        bytes: &mut [u8],
        first: usize,
        one_in: usize,
    ) -> Result<bool, Fail> {
        let mut right = true;
        for place in 0..bytes.len() {
            if one_in == 0 || place % one_in == first {
                right = right && self.is_place_answered(alloc, bytes, place)?;
            }
        }
        Ok(right)
    }
}

fn put(bytes: &mut [u8], place: usize, value: u8) {
    if let Some(byte) = bytes.get_mut(place) {
        *byte = value;
    }
}

// The bytes of a function's allocation.
fn bytes_of(alloc: Global, text: &str, function: usize) -> Result<Vec<u8>, Fail> {
    let pair = rtl_of(alloc, text.as_bytes(), function)?;
    let spilled = spill_all(alloc, pair.code());
    drop(pair);
    Ok(write_ltl(alloc, &spilled?)?)
}

// Tries every value of one byte in every `one_in` bytes of a function's allocation, beginning with the byte `first`; of each byte
// if `one_in` is 0.
fn are_answered(
    alloc: Global,
    text: &str,
    function: usize,
    first: usize,
    one_in: usize,
) -> Result<bool, Fail> {
    let mut bytes = bytes_of(alloc, text, function)?;
    let mut tried = Tried {
        unit: unit_of(alloc, text.as_bytes())?,
        function,
        pair: None,
    };
    let right = tried.are_answered(alloc, bytes.as_mut_slice(), first, one_in);
    drop(tried);
    right
}

// Whether bytes are refused with 37.
fn is_no_function(alloc: Global, bytes: &[u8]) -> bool {
    match read_ltl(alloc, bytes) {
        Ok(ltl) => {
            drop(ltl);
            false
        }
        Err(fault) => fault.number() == 37,
    }
}

// Whether each proper prefix of the bytes of a function's allocation is refused with 37.
fn are_prefixes_refused(alloc: Global, text: &str, function: usize) -> Result<bool, Fail> {
    let bytes = bytes_of(alloc, text, function)?;
    let mut right = true;
    for end in 0..bytes.len() {
        right = right && is_no_function(alloc, &bytes.as_slice()[..end]);
    }
    Ok(right)
}

#[test]
fn prefixes_are_no_functions(rt: HostRuntime) -> Result<(), Fail> {
    passes(are_prefixes_refused(rt.alloc(), EMPTY, 0))?;
    passes(are_prefixes_refused(rt.alloc(), LONG, 0))?;
    passes(are_prefixes_refused(rt.alloc(), LONG, 1))
}

#[test]
fn bytes_of_small_functions_with_one_changed_are_answered(rt: HostRuntime) -> Result<(), Fail> {
    passes(are_answered(rt.alloc(), EMPTY, 0, 0, 1))?;
    passes(are_answered(rt.alloc(), LONG, 0, 0, 1))
}

#[test]
fn each_first_byte_of_four_of_a_long_function_is_answered(rt: HostRuntime) -> Result<(), Fail> {
    passes(are_answered(rt.alloc(), LONG, 1, 0, 4))
}

#[test]
fn each_second_byte_of_four_of_a_long_function_is_answered(rt: HostRuntime) -> Result<(), Fail> {
    passes(are_answered(rt.alloc(), LONG, 1, 1, 4))
}

#[test]
fn each_third_byte_of_four_of_a_long_function_is_answered(rt: HostRuntime) -> Result<(), Fail> {
    passes(are_answered(rt.alloc(), LONG, 1, 2, 4))
}

#[test]
fn each_fourth_byte_of_four_of_a_long_function_is_answered(rt: HostRuntime) -> Result<(), Fail> {
    passes(are_answered(rt.alloc(), LONG, 1, 3, 4))
}
