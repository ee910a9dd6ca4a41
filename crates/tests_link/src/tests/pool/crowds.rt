// Many threads share a pool of two workers, one of which is held: two threads with one text of two functions, and sixteen with so many
// pieces that the queue of 64 places is full.

ghost use Rattle.std.specs.Prelude.{◌≡◌};

use super::helpers::{Hold, are_of, unit};
use cc_pool::{FreshQueue, Pass, Pool, Queued};
use cc_types::TypedUnit;
use std::alloc::{AllocError, Global};
use std::marker::Brand;
use std::sync::atomic::Ordering;
use std::sync::{Arc, Wait};
use std::test::Fail;
use std::thread;
use std::thread::Threads;
use tests_texts::parts::append;
use tests_texts::worked::LONG;

#[test]
fn two_passes_at_once(rt: HostRuntime) -> Result<(), Fail> {
    let fresh = FreshQueue::new(rt.alloc())?;
    let told = crowd::<Brand, HostRuntime>(&rt, rt.alloc(), fresh, 2, LONG.as_bytes())?;
    assert_eq!(rt; told, (2, 1));
    Ok(())
}

#[test]
fn sixteen_fill_the_queue(rt: HostRuntime) -> Result<(), Fail> {
    let text = functions(rt.alloc(), 64)?;
    let fresh = FreshQueue::new(rt.alloc())?;
    let told = crowd::<Brand, HostRuntime>(&rt, rt.alloc(), fresh, 16, text.as_slice())?;
    assert_eq!(rt; told, (16, 1));
    Ok(())
}

// A text with this many functions, the last of which is `main`.
fn functions(alloc: Global, count: usize) -> Result<Vec<u8>, AllocError> {
    let mut text = Vec::new(alloc);
    for number in 1..count {
        append(&mut text, "int ", 1)?;
        append(&mut text, "f", number)?;
        append(&mut text, "(int x){return x;}", 1)?;
    }
    append(&mut text, "int main(void){return 0;}", 1)?;
    Ok(text)
}

// Submits a unit and collects its pieces: answers whether they are right, and gives the pass back.
fn round<N, R>(
    rt: &R,
    alloc: Global,
    pool: &Pool<N>,
    mut pass: Pass<N>,
    unit: Arc<TypedUnit>,
) -> (Pass<N>, bool)
where
    N: Queued + Send + Sync + 'static,
    R: Wait,
{
    let Ok(same) = Arc::try_clone(&unit) else {
        return (pass, false);
    };
    let right = match pool.submit(rt, alloc, &mut pass, unit) {
        Ok(ticket) => match pool.collect(rt, alloc, ticket) {
            Ok(pieces) => are_of(pieces.as_slice(), same.text(), same.functions()),
            Err(_) => false,
        },
        Err(_) => false,
    };
    (pass, right)
}

// Starts `threads` threads, and answers how many of them got the right pieces of a text's unit, and how many holds of job 0 ended
// before their limit. One piece of job 0 waits for all other pieces of all jobs. Then the pool ends, with all passes.
fn crowd<N, R>(
    rt: &R,
    alloc: Global,
    fresh: FreshQueue,
    threads: u64,
    text: &[u8],
) -> Result<(u64, u64), Fail>
where
    N: Queued + Send + Sync + 'static,
    R: Threads + Wait + Copy + Send + 'static,
    requires { fresh ≡ N.queue }
{
    let unit = unit(alloc, text)?;
    let pieces = threads.saturating_mul(unit.functions() as u64);
    let (hold, signs) = Hold::new(alloc, pieces.saturating_sub(1))?;
    let pool = Arc::new(alloc, Pool::<N>::start(rt, alloc, fresh, 2, hold)?)?;
    let mut started = Vec::new(alloc);
    for _ in 0..threads {
        let theirs = Arc::try_clone(&pool)?;
        let pass = pool.pass(rt);
        let unit = Arc::try_clone(&unit)?;
        let handle = *rt;
        let thread = thread::spawn(rt, move || round(&handle, alloc, &theirs, pass, unit))?;
        started.push(thread)?;
    }
    let mut passes = Vec::new(alloc);
    let mut right = 0u64;
    for thread in started {
        let (pass, is_right) = thread.join(rt);
        passes.push(pass)?;
        if is_right && right < threads {
            right += 1;
        }
    }
    match Arc::try_unwrap(pool) {
        Ok(pool) => drop(pool.finish(rt, passes)?),
        Err(_) => return Err(Fail::from("the pool is still shared")),
    }
    Ok((right, signs.met.load(Ordering::SeqCst)))
}
