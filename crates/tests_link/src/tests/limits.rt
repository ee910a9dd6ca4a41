// What is at a limit, and what exceeds it.

use super::helpers::{Run, WORDS, ends_well, image_runs};
use super::padded::{blocks, padded};
use cc_link::{CompiledUnit, LinkFault, typed_unit};
use cc_types::TypedUnit;
use std::alloc::Global;
use std::sync::Arc;
use std::test::Fail;
use tests_texts::verdict::passes;
use tests_texts::worked::LONG;

// How many words of code the linked image has, and whether it has this run, or `None` if the image is too large.
fn words_of(
    alloc: Global,
    linked: Result<CompiledUnit, LinkFault>,
    run: Run<'_>,
) -> Result<Option<(usize, bool)>, Fail> {
    match linked {
        Ok(unit) => {
            let words = unit.stored().image.code.words().len();
            let right = image_runs(alloc, &unit, run);
            drop(unit);
            Ok(Some((words, right?)))
        }
        Err(LinkFault::ImageTooLarge) => Ok(None),
        Err(fault) => Err(Fail::from(fault)),
    }
}

// The number of words in the image, and whether it runs right, with `third` moves before the third block of `main` and 60,000
// before each of the first two.
fn long_main(
    alloc: Global,
    unit: &Arc<TypedUnit>,
    third: usize,
) -> Result<Option<(usize, bool)>, Fail> {
    let run = ends_well(WORDS, 1_000_000, &[0, 300]);
    let linked = padded(alloc, unit, &[(0, 60_000), (1, 60_000), (2, third)])?;
    words_of(alloc, linked, run)
}

// An image of exactly 131,072 words links and runs; with one word more it is too large.
fn most_words(alloc: Global, unit: &Arc<TypedUnit>) -> Result<bool, Fail> {
    let Some((words, true)) = long_main(alloc, unit, 0)? else {
        return Ok(false);
    };
    let rest = 131_072usize.saturating_sub(words);
    Ok(
        words > 120_000
            && long_main(alloc, unit, rest)? == Some((131_072, true))
            && long_main(alloc, unit, rest.saturating_add(1))?.is_none()
            && long_main(alloc, unit, 60_000)?.is_none(),
    )
}

#[test]
fn most_words_of_code(rt: HostRuntime) -> Result<(), Fail> {
    let unit = typed_unit(rt.alloc(), LONG.as_bytes())?;
    let right = most_words(rt.alloc(), &unit);
    drop(unit);
    passes(right)
}

// A loop with three turns, in which the inner part runs once, with a branch over each part and a jump back.
const LOOP: &str =
    "int x;int main(void){int i;for(i=0;i<3;i++)if(i==1){x=x+5;}else x=x+1000;write_word(x);}";

// Whether the image runs right with this many moves before this block.
fn runs_padded(
    alloc: Global,
    unit: &Arc<TypedUnit>,
    block: usize,
    moves: usize,
) -> Result<bool, Fail> {
    let run = ends_well(&[], 100_000, &[2_005]);
    let linked = padded(alloc, unit, &[(block, moves)])?;
    Ok(matches!(words_of(alloc, linked, run)?, Some((_, true))))
}

// Whether the image runs right with each number of moves close to the one at which branches over the block no longer reach far
// enough: a branch reaches 1,023 words forward and 1,024 back.
fn runs_near_and_far(alloc: Global, unit: &Arc<TypedUnit>, block: usize) -> Result<bool, Fail> {
    for moves in 980..1_028 {
        if !runs_padded(alloc, unit, block, moves)? {
            return Ok(false);
        }
    }
    Ok(true)
}

// Whether `runs_near_and_far` is true of three blocks, within the inner part and around it.
fn all_run(alloc: Global, unit: &Arc<TypedUnit>) -> Result<bool, Fail> {
    let count = blocks(alloc, unit, 0)?;
    Ok(
        runs_near_and_far(alloc, unit, count / 4)?
            && runs_near_and_far(alloc, unit, count / 2)?
            && runs_near_and_far(alloc, unit, (count / 4).saturating_mul(3))?,
    )
}

#[test]
fn branches_near_and_far(rt: HostRuntime) -> Result<(), Fail> {
    let unit = typed_unit(rt.alloc(), LOOP.as_bytes())?;
    let right = all_run(rt.alloc(), &unit);
    drop(unit);
    passes(right)
}
