// The live sets of a text's first function, and what remains of it without dead or faint nodes.

use crate::tests::pairs::rtl_of;
use cc_live::{RegisterSet, drop_dead, drop_faint, liveness};
use cc_rtl::{Node, RtlPair};
use std::alloc::{AllocError, Global};
use std::test::Fail;

// Whether these are the registers of a set that are below 256.
fn is_set(set: &RegisterSet, wanted: &[u32]) -> bool {
    let mut right = true;
    for register in 0..256u32 {
        right = right && set.contains(register) == wanted.contains(&register);
    }
    right
}

fn are_sets(live: &[RegisterSet], wanted: &[&[u32]]) -> bool {
    let mut right = live.len() == wanted.len();
    for (set, registers) in live.iter().zip(wanted) {
        right = right && is_set(set, registers);
    }
    right
}

/// Whether the live sets of the first function of a text have these registers.
pub fn has_sets(alloc: Global, text: &[u8], wanted: &[&[u32]]) -> Result<bool, Fail> {
    let pair = rtl_of(alloc, text, 0)?;
    let live = liveness(alloc, pair.code());
    drop(pair);
    Ok(are_sets(live?.as_slice(), wanted))
}

fn drop_all_dead(alloc: Global, pair: &mut RtlPair) -> Result<(), AllocError> {
    let live = liveness(alloc, pair.code())?;
    let done = drop_dead(alloc, pair, &live);
    drop(live);
    done
}

fn shown_without_dead(alloc: Global, pair: &mut RtlPair) -> Result<String, AllocError> {
    drop_all_dead(alloc, pair)?;
    pair.code().to_string(alloc)
}

/// The text of the first function of a text without dead nodes.
pub fn without_dead(alloc: Global, text: &[u8]) -> Result<String, Fail> {
    let mut pair = rtl_of(alloc, text, 0)?;
    let shown = shown_without_dead(alloc, &mut pair);
    drop(pair);
    Ok(shown?)
}

fn nodes_left(pair: &RtlPair) -> usize {
    let code = pair.code();
    let mut left: usize = 0;
    for label in 0..code.len() {
        if !matches!(code.node(label), Node::Nop { .. }) {
            left = left.saturating_add(1);
        }
    }
    left
}

fn count_left(alloc: Global, pair: &mut RtlPair) -> Result<[usize; 3], AllocError> {
    let all = nodes_left(pair);
    drop_all_dead(alloc, pair)?;
    let live = nodes_left(pair);
    drop_faint(alloc, pair)?;
    Ok([all, live, nodes_left(pair)])
}

/// How many nodes of the first function of a text are not nops: in all, without dead nodes, and without faint nodes.
pub fn left_of(alloc: Global, text: &[u8]) -> Result<[usize; 3], Fail> {
    let mut pair = rtl_of(alloc, text, 0)?;
    let left = count_left(alloc, &mut pair);
    drop(pair);
    Ok(left?)
}
