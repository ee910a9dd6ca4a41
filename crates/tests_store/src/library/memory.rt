// Lack of memory. If there is enough memory, each change below meets a device that fails; `rt try --test --fail-alloc N` refuses
// allocation number N, and then no device call is made.

use crate::library::helpers::{Step, does, holds, with_a};
use cc_disk::{Disk, FuseMode};
use std::alloc::Global;
use std::test::Fail;
use tests_texts::verdict::row_passes;

// Whether a step is refused, and changes nothing: one call failed, or none was made. Every device call after those of opening
// fails.
fn changes_nothing(alloc: Global, step: Step) -> Result<bool, Fail> {
    let mut library = with_a(alloc, 3, FuseMode::Before)?;
    let number = does(alloc, &mut library, step)?;
    let right = holds(alloc, &library, (Some(1), None))?;
    let failures = library.into_disk().failures();
    Ok(right && (number == 35 && failures == 1 || number == 40 && failures == 0))
}

static STEPS: [Step; 4] = [
    Step::Add(b'b', 2),
    Step::Replace(b'a', 2),
    Step::Withdraw(b'a'),
    Step::Compact,
];

#[test]
fn every_growth_comes_before_the_device(rt: HostRuntime) -> Result<(), Fail> {
    for number in 0..STEPS.len() {
        row_passes(number, changes_nothing(rt.alloc(), STEPS[number]))?;
    }
    Ok(())
}
