// Which calls of a program are part of a cycle of calls; `safe` names their functions. No promise rests on it.
//
// Sets of functions are words, a bit for each: a unit has at most 64.

use std::alloc::{AllocError, Global};

/// A call by which a function calls itself, directly or through others: the numbers of the calling function and of the called
/// one.
#[derive(Clone, Copy)]
pub(crate) struct Recursion {
    pub(crate) caller: usize,
    pub(crate) called: usize,
}

pub(crate) fn bit(function: usize) -> u64 {
    if function < 64 { 1 << function } else { 0 }
}

fn row(rows: &[u64], function: usize) -> u64 {
    rows.get(function).copied().unwrap_or(0)
}

// For each function, the functions that its calls lead to.
fn all_reached(alloc: Global, calls: &[u64]) -> Result<Vec<u64>, AllocError> {
    let mut reached = Vec::from_slice(alloc, calls)?;
    for middle in 0..calls.len() {
        let further = row(reached.as_slice(), middle);
        for function in 0..calls.len() {
            if let Some(found) = reached.get_mut(function) {
                if *found & bit(middle) != 0 {
                    *found |= further;
                }
            }
        }
    }
    Ok(reached)
}

/// The calls that are part of a cycle, ordered by the function that calls and then by the one that is called, given the
/// functions that each function calls.
pub(crate) fn cyclic(alloc: Global, calls: &[u64]) -> Result<Vec<Recursion>, AllocError> {
    let reached = all_reached(alloc, calls)?;
    let mut found = Vec::new(alloc);
    for caller in 0..calls.len() {
        let own = row(calls, caller);
        for called in 0..calls.len() {
            let back = row(reached.as_slice(), called);
            if own & bit(called) != 0 && (called == caller || back & bit(caller) != 0) {
                found.push(Recursion { caller, called })?;
            }
        }
    }
    Ok(found)
}
