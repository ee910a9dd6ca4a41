// What comes back from jobs, collected in either order; and that the first refused function is reported.

use super::helpers::{ONE, TWO, are_of, unit};
use super::trial::{Own, Trial, succeeds};
use crate::tests::refusals::TWO_LARGE;
use cc_link::PieceFault;
use cc_pool::{NoGate, Pool, PoolFault};
use std::alloc::Global;
use std::sync::Wait;
use std::test::Fail;
use tests_texts::lists::{alone, both};
use tests_texts::parts::text_of;

#[test]
fn two_tickets_in_either_order(rt: HostRuntime) -> Result<(), Fail> {
    succeeds(&rt, rt.alloc(), NoGate, Trial::EitherOrder)
}

/// Whether the pieces of two jobs are right if the later one is collected first, and the jobs' numbers are 0 and 1.
pub fn either_order<N: Own, R: Wait>(rt: &R, alloc: Global, pool: Pool<N>) -> Result<bool, Fail> {
    let mut pass = pool.pass(rt);
    let mut other = pool.pass(rt);
    let first = pool.submit(rt, alloc, &mut pass, unit(alloc, ONE)?)?;
    let second = pool.submit(rt, alloc, &mut other, unit(alloc, TWO)?)?;
    let (earlier, later) = (first.number(), second.number());
    let two_pieces = pool.collect(rt, alloc, second)?;
    let one_piece = pool.collect(rt, alloc, first)?;
    let right = are_of(one_piece.as_slice(), ONE, 1) && are_of(two_pieces.as_slice(), TWO, 2);
    drop(pool.finish(rt, both(alloc, pass, other)?)?);
    Ok(right && earlier == 0 && later == 1)
}

#[test]
fn the_least_that_is_refused(rt: HostRuntime) -> Result<(), Fail> {
    succeeds(&rt, rt.alloc(), NoGate, Trial::LeastRefused)
}

/// Two of three functions have too many nodes: whether the first of the two is reported, with the place and the length of its
/// name.
pub fn least_refused<N: Own, R: Wait>(rt: &R, alloc: Global, pool: Pool<N>) -> Result<bool, Fail> {
    let text = text_of(alloc, TWO_LARGE)?;
    let mut pass = pool.pass(rt);
    let ticket = pool.submit(rt, alloc, &mut pass, unit(alloc, text.as_slice())?)?;
    let told = match pool.collect(rt, alloc, ticket) {
        Err(
            PoolFault::Piece {
                function,
                fault: PieceFault::FunctionTooLarge { at, length },
            },
        ) => (function, at, length),
        other => {
            drop(other);
            (0, 0, 0)
        }
    };
    drop(pool.finish(rt, alone(alloc, pass)?)?);
    Ok(told == (1, 33, 5))
}
