// The bounds that hold on both of two ways, and the bounds known at a loop's head that are still known after a turn of the
// loop.

ghost use Rattle.std.specs.Prelude.{◌≡◌, ◌++◌, IfOk};
ghost use Rattle.cc_cminor_language.specs.Code.{statement_of};
ghost use Rattle.cc_guard.specs.Guard.{joined, kept, unset, at_most, all_again, still, widened};

use crate::changed::kept_set;
use crate::known::{Limit, most_in};
use cc_cminor_language::Statement;
use std::alloc::{AllocError, Global};

/// The bounds `known`, then the bounds `more`.
pub fn together(alloc: Global, known: &[Limit], more: &[Limit]) -> Result<Vec<Limit>, AllocError>
    ensures { IfOk result (λ limits. limits.items ≡ known.now ++ more.now) }
{
    let mut limits = Vec::from_slice(alloc, known)?;
    limits.extend_from_slice(more)?;
    Ok(limits)
}

/// The bounds that hold on both of two ways: for each variable with a bound on both, the greater of the two.
pub fn joined(alloc: Global, one: &[Limit], other: &[Limit]) -> Result<Vec<Limit>, AllocError>
    ensures { IfOk result (λ limits. limits.items ≡ joined one.now other.now) }
{
    let mut limits = Vec::new(alloc);
    for limit in one {
        if let Some(most) = most_in(other, limit.variable) {
            limits.push(Limit {
                variable: limit.variable,
                most: limit.most.max(most),
            })?;
        }
    }
    Ok(limits)
}

/// The bounds known after an `If` if control can reach the ends of both its ways.
pub fn met_both(
    alloc: Global,
    first: usize,
    s: &Statement,
    before: &[Limit],
    one: &[Limit],
    other: &[Limit],
) -> Result<Vec<Limit>, AllocError>
    ensures { IfOk result (λ limits. limits.items ≡ before.now ++ joined (kept first (unset (statement_of s.now)) one.now) other.now) }
{
    let changed = kept_set(alloc, first, s, one)?;
    let both = joined(alloc, changed.as_slice(), other)?;
    together(alloc, before, both.as_slice())
}

// Whether a bound is known and is at most this word.
fn at_most(most: Option<u32>, word: u32) -> bool
    ensures { result ≡ at_most most word }
{
    match most {
        None => false,
        Some(most) => most <= word,
    }
}

/// Whether all the bounds known at the head are known again after a turn.
pub fn all_again(after: &[Limit], head: &[Limit]) -> bool
    ensures { result ≡ all_again after.now head.now }
{
    let mut again = true;
    for limit in head {
        again = again && at_most(most_in(after, limit.variable), limit.most);
    }
    again
}

/// The bounds known at the head that are known again after a turn.
pub fn still(alloc: Global, after: &[Limit], head: &[Limit]) -> Result<Vec<Limit>, AllocError>
    ensures { IfOk result (λ limits. limits.items ≡ still after.now head.now) }
{
    let mut limits = Vec::new(alloc);
    for limit in head {
        if at_most(most_in(after, limit.variable), limit.most) {
            limits.push(*limit)?;
        }
    }
    Ok(limits)
}

/// The bounds to try at a loop's head, given those after a turn that started with the bounds known before the loop. In place of
/// a bound that grew, a far greater one is tried.
pub fn widened(alloc: Global, after: &[Limit], before: &[Limit]) -> Result<Vec<Limit>, AllocError>
    ensures { IfOk result (λ limits. limits.items ≡ widened after.now before.now) }
{
    let mut limits = Vec::new(alloc);
    for limit in before {
        let again = at_most(most_in(after, limit.variable), limit.most);
        let most = if again {
            limit.most
        } else {
            limit.most.max(1073741824)
        };
        limits.push(Limit {
            variable: limit.variable,
            most,
        })?;
    }
    Ok(limits)
}
