// A text has the same image whether one thread or the pool compiles it.

ghost use Rattle.std.specs.Prelude.{◌≡◌};

use super::helpers::unit;
use cc_link::{compile, link};
use cc_pool::{FreshQueue, NoGate, Pass, Pool, Queued};
use std::alloc::Global;
use std::marker::Brand;
use std::sync::{Arc, Wait};
use std::test::Fail;
use std::thread::Threads;
use tests_texts::lists::alone;
use tests_texts::{programs, worked};

#[test]
fn images_of_programs(rt: HostRuntime) -> Result<(), Fail> {
    let fresh = FreshQueue::new(rt.alloc())?;
    let texts = programs::ALL.as_slice();
    let told = compared::<Brand, HostRuntime>(&rt, rt.alloc(), fresh, texts)?;
    assert_eq!(rt; told, texts.len());
    Ok(())
}

#[test]
fn images_of_worked_texts(rt: HostRuntime) -> Result<(), Fail> {
    let fresh = FreshQueue::new(rt.alloc())?;
    let mut texts = Vec::new(rt.alloc());
    for (text, _) in worked::PROGRAMS.iter() {
        texts.push(*text)?;
    }
    let told = compared::<Brand, HostRuntime>(&rt, rt.alloc(), fresh, texts.as_slice())?;
    assert_eq!(rt; told, texts.len());
    Ok(())
}

// How many texts, from the first on, have the same image from the pool as from one thread.
fn compared<N, R>(rt: &R, alloc: Global, fresh: FreshQueue, texts: &[&str]) -> Result<usize, Fail>
where
    N: Queued + Send + Sync + 'static,
    R: Threads + Wait + Copy + Send + 'static,
    requires { fresh ≡ N.queue }
{
    let pool = Pool::<N>::start(rt, alloc, fresh, 3, NoGate)?;
    let mut pass = pool.pass(rt);
    let mut same = 0;
    for (at, text) in texts.iter().enumerate() {
        if same == at && is_same(rt, alloc, &pool, &mut pass, text.as_bytes())? {
            same = at + 1;
        }
    }
    drop(pool.finish(rt, alone(alloc, pass)?)?);
    Ok(same)
}

fn is_same<N, R>(
    rt: &R,
    alloc: Global,
    pool: &Pool<N>,
    pass: &mut Pass<N>,
    text: &[u8],
) -> Result<bool, Fail>
where
    N: Queued + Send + Sync + 'static,
    R: Wait,
{
    let unit = unit(alloc, text)?;
    let ticket = pool.submit(rt, alloc, pass, Arc::try_clone(&unit)?)?;
    let pieces = pool.collect(rt, alloc, ticket)?;
    let made = link(alloc, &unit, pieces)?;
    let alone = compile(alloc, text)?;
    Ok(made.stored().is_same(alone.stored()))
}
