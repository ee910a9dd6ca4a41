// Each single change of an allocation is refused or harmless.

use super::changes::{
    changed_moves, changed_operation, in_its_place, operation_changes, with_moves, with_operation,
};
use super::graph::run_graph;
use super::located::run_located;
use super::texts::{FUNCTIONS, Function};
use super::world::{Stop, World};
use crate::tests::pairs::{pair_of, program_of, unit_of};
use cc_colour::spill_all;
use cc_ltl::{Block, Ltl, Move, Operation};
use cc_rtl::RtlPair;
use cc_types::TypedUnit;
use cc_validate::validate;
use std::alloc::{AllocError, Global};
use std::sync::Arc;
use std::test::Fail;
use tests_texts::verdict::row_passes;

// Whether two runs on the same input, of RTL and of LTL with these unknown words, stop in the same way and leave the same
// world. If the RTL goes wrong, the LTL may do anything.
fn runs_alike(
    alloc: Global,
    program: &[RtlPair],
    function: u32,
    ltl: &Ltl,
    words: u32,
    input: u32,
    seed: u32,
) -> Result<bool, AllocError> {
    let arguments = [input.wrapping_mul(input), input.wrapping_sub(4)];
    let Some(pair) = program.get(function as usize) else {
        return Ok(false);
    };
    let count = (pair.code().parameters() as usize).min(2);
    let arguments = &arguments.as_slice()[..count];
    let mut here = World::new(alloc, words, input)?;
    let stop = run_graph(alloc, program, function, arguments, &mut here, 20)?;
    if stop == Stop::Wrong {
        return Ok(true);
    }
    let mut there = World::new(alloc, words, input)?;
    let other = run_located(alloc, program, ltl, arguments, seed, &mut there, 20);
    let same = here.is_same(&there);
    drop(there);
    Ok(other? == stop && same)
}

// Whether `runs_alike` holds on ten inputs, each with three lists of unknown words.
fn is_harmless(
    alloc: Global,
    program: &[RtlPair],
    function: u32,
    ltl: &Ltl,
    words: u32,
) -> Result<bool, AllocError> {
    for input in 0..10u32 {
        for seed in 0..3u32 {
            if !runs_alike(alloc, program, function, ltl, words, input, seed)? {
                return Ok(false);
            }
        }
    }
    Ok(true)
}

/// How many changes were refused, and how many were accepted and found harmless.
#[derive(Clone, Copy)]
struct Counts {
    refused: u32,
    harmless: u32,
}

// The function that is changed, its unit, and the RTL of all the unit's functions.
#[derive(Drop)]
struct Subject {
    unit: Arc<TypedUnit>,
    program: Vec<RtlPair>,
    function: u32,
    words: u32,
    counts: Counts,
}

impl Subject {
    // Whether a changed function is refused or harmless.
    fn is_right(&mut self, alloc: Global, changed: Option<Ltl>) -> Result<bool, Fail> {
        let Some(ltl) = changed else {
            return Ok(true);
        };
        let pair = pair_of(alloc, &self.unit, self.function as usize)?;
        match validate(alloc, pair, ltl) {
            Ok(valid) => {
                self.counts.harmless = self.counts.harmless.wrapping_add(1);
                let program = self.program.as_slice();
                Ok(is_harmless(alloc, program, self.function, valid.code(), self.words)?)
            }
            Err(refused) => {
                self.counts.refused = self.counts.refused.wrapping_add(1);
                Ok(refused.fault.number() == 24)
            }
        }
    }

    // Tries each change of the operation of a block.
    fn operation_is_guarded(
        &mut self,
        alloc: Global,
        ltl: &Ltl,
        place: usize,
        operation: &Operation,
    ) -> Result<bool, Fail> {
        let blocks = ltl.blocks().len().min(4096) as u32;
        for number in 0..operation_changes(operation) {
            let other = changed_operation(operation, blocks, number);
            let made = with_operation(alloc, ltl, place, other)?;
            if !self.is_right(alloc, made)? {
                return Ok(false);
            }
        }
        Ok(true)
    }

    // Tries each change of one move of a block, before its operation or after it.
    fn move_is_guarded(
        &mut self,
        alloc: Global,
        ltl: &Ltl,
        place: usize,
        moves: &[Move],
        at: usize,
        behind: bool,
    ) -> Result<bool, Fail> {
        let Some(each) = moves.get(at) else {
            return Ok(false);
        };
        for number in 0..6u32 {
            if let Some((copies, other)) = in_its_place(each, ltl.slots(), number) {
                let other = changed_moves(alloc, moves, at, copies, &other)?;
                let made = with_moves(alloc, ltl, place, other.as_slice(), behind);
                drop(other);
                if !self.is_right(alloc, made?)? {
                    return Ok(false);
                }
            }
        }
        Ok(true)
    }

    fn block_is_guarded(
        &mut self,
        alloc: Global,
        ltl: &Ltl,
        place: usize,
        block: &Block,
    ) -> Result<bool, Fail> {
        let before = block.before.moves();
        for at in 0..before.len() {
            if !self.move_is_guarded(alloc, ltl, place, before, at, false)? {
                return Ok(false);
            }
        }
        let after = block.after.moves();
        for at in 0..after.len() {
            if !self.move_is_guarded(alloc, ltl, place, after, at, true)? {
                return Ok(false);
            }
        }
        self.operation_is_guarded(alloc, ltl, place, &block.operation)
    }

    // Tries each change of each block; for a long function only of every sixteenth block, since a test has sixty seconds.
    fn is_guarded(&mut self, alloc: Global, ltl: &Ltl) -> Result<bool, Fail> {
        let every = if ltl.blocks().len() > 60 { 16 } else { 1 };
        for (place, block) in ltl.blocks().iter().enumerate() {
            if place % every == 0 && !self.block_is_guarded(alloc, ltl, place, block)? {
                return Ok(false);
            }
        }
        Ok(true)
    }
}

fn subject_of(alloc: Global, text: &str, function: u32, words: u32) -> Result<Subject, Fail> {
    let unit = unit_of(alloc, text.as_bytes())?;
    let program = program_of(alloc, &unit)?;
    Ok(Subject {
        unit,
        program,
        function,
        words,
        counts: Counts {
            refused: 0,
            harmless: 0,
        },
    })
}

// The allocation that spills all.
fn spilled_of(alloc: Global, subject: &Subject) -> Result<Ltl, Fail> {
    let pair = pair_of(alloc, &subject.unit, subject.function as usize)?;
    let spilled = spill_all(alloc, pair.code());
    drop(pair);
    Ok(spilled?)
}

// Whether the unchanged allocation is accepted.
fn is_right_at_first(alloc: Global, row: &Function) -> Result<bool, Fail> {
    let mut held = subject_of(alloc, row.0, row.1, row.2)?;
    let ltl = spilled_of(alloc, &held)?;
    let right = held.is_right(alloc, Some(ltl))?;
    Ok(right && held.counts.refused == 0)
}

#[test]
fn allocations_that_spill_all_are_right(rt: HostRuntime) -> Result<(), Fail> {
    for number in 0..FUNCTIONS.len() {
        row_passes(number, is_right_at_first(rt.alloc(), &FUNCTIONS[number]))?;
    }
    Ok(())
}

// Whether each change of a function is refused or harmless, and at least one is refused.
fn is_guarded(alloc: Global, row: &Function) -> Result<bool, Fail> {
    let mut held = subject_of(alloc, row.0, row.1, row.2)?;
    let ltl = spilled_of(alloc, &held)?;
    let right = held.is_guarded(alloc, &ltl)?;
    Ok(right && held.counts.refused > 0)
}

#[test]
fn every_change_is_refused_or_harmless(rt: HostRuntime) -> Result<(), Fail> {
    for number in 0..FUNCTIONS.len() {
        row_passes(number, is_guarded(rt.alloc(), &FUNCTIONS[number]))?;
    }
    Ok(())
}
