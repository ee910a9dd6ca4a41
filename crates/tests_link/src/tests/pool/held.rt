// Two workers at once: a piece that is held while another one of its job is made, and a job that is held while another one is collected.

use super::helpers::{Hold, ONE, Signs, TWO, are_of, unit};
use super::trial::{Own, Trial, succeeds};
use cc_pool::Pool;
use std::alloc::Global;
use std::sync::Wait;
use std::sync::atomic::Ordering;
use std::test::Fail;
use tests_texts::lists::alone;
use tests_texts::worked::LONG;

#[test]
fn two_pieces_at_once(rt: HostRuntime) -> Result<(), Fail> {
    let (hold, signs) = Hold::new(rt.alloc(), 1)?;
    succeeds(&rt, rt.alloc(), hold, Trial::AtOnce)?;
    assert_eq!(rt; signs.met.load(Ordering::SeqCst), 1);
    Ok(())
}

/// Whether the pieces of a job of two are right if the one that comes first is held until the other one comes.
pub fn at_once<N: Own, R: Wait>(rt: &R, alloc: Global, pool: Pool<N>) -> Result<bool, Fail> {
    let mut pass = pool.pass(rt);
    let ticket = pool.submit(rt, alloc, &mut pass, unit(alloc, LONG.as_bytes())?)?;
    let pieces = pool.collect(rt, alloc, ticket)?;
    let right = are_of(pieces.as_slice(), LONG.as_bytes(), 2);
    drop(pool.finish(rt, alone(alloc, pass)?)?);
    Ok(right)
}

#[test]
fn a_held_job_holds_no_other(rt: HostRuntime) -> Result<(), Fail> {
    let (hold, signs) = Hold::new(rt.alloc(), 3)?;
    succeeds(&rt, rt.alloc(), hold, Trial::HeldJob { signs: &signs })
}

/// Job 0 is held until both pieces of job 1 have passed and have been collected: whether the pieces are right, two others had passed by
/// then, and one hold ended before its limit.
pub fn held_job<N: Own, R: Wait>(
    rt: &R,
    alloc: Global,
    pool: Pool<N>,
    signs: &Signs,
) -> Result<bool, Fail> {
    let mut pass = pool.pass(rt);
    let first = pool.submit(rt, alloc, &mut pass, unit(alloc, ONE)?)?;
    let second = pool.submit(rt, alloc, &mut pass, unit(alloc, TWO)?)?;
    let two_pieces = pool.collect(rt, alloc, second)?;
    let came = signs.others.fetch_add(1, Ordering::SeqCst);
    let one_piece = pool.collect(rt, alloc, first)?;
    let right = are_of(one_piece.as_slice(), ONE, 1) && are_of(two_pieces.as_slice(), TWO, 2);
    drop(pool.finish(rt, alone(alloc, pass)?)?);
    Ok(right && came == 2 && signs.met.load(Ordering::SeqCst) == 1)
}
