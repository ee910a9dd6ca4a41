// What a watcher sees of a function. The compiler goes no further once the watcher refuses.

use cc_link::{Allocation, Mode, Seen, Watch, compile_watched_in, typed_unit};
use cc_types::TypedUnit;
use std::alloc::{AllocError, Global};
use std::sync::Arc;
use std::test::Fail;
use tests_texts::verdict::each_passes;

/// A function that has guards.
const QUOTIENT: &str = "int main(void){write_word(7/read_word());}";

// Sees this many stages, and refuses the next one.
#[derive(Drop)]
struct Few {
    left: u32,
    // The last stage that was seen, as a letter.
    last: u8,
}

impl Watch for Few {
    fn see(&mut self, seen: Seen<'_>) -> Result<(), AllocError> {
        self.last = match seen {
            Seen::Cminor(_) => b'c',
            Seen::Guarded(_) => b'g',
            Seen::Rtl(_) => b'r',
            Seen::Pruned(_) => b'p',
            Seen::Allocated(_, _) => b'a',
            Seen::Refused(_) => b'x',
            Seen::Validated(_) => b'v',
            Seen::Linear(_) => b'l',
            Seen::Selected(_) => b's',
        };
        match self.left.checked_sub(1) {
            Some(left) => {
                self.left = left;
                Ok(())
            }
            None => Err(AllocError),
        }
    }
}

// Compiles the first function with a watcher that accepts `count` stages. Returns the last stage that the watcher saw, and the
// number with which the function is refused, or 0.
fn seen_last(alloc: Global, mode: Mode, unit: &Arc<TypedUnit>, count: u32) -> (u8, u32) {
    let mut few = Few {
        left: count,
        last: 0,
    };
    if unit.functions() == 0 {
        return (0, 0);
    }
    let number = match compile_watched_in(alloc, mode, unit, 0, Allocation::Chosen, &mut few) {
        Ok(piece) => {
            drop(piece);
            0
        }
        Err(fault) => fault.number(),
    };
    (few.last, number)
}

// Whether the function is refused with 40 at each of these stages, and has a piece after all of them.
fn goes_as_far(alloc: Global, row: &(Mode, &'static str)) -> Result<bool, Fail> {
    let (mode, stages) = *row;
    let unit = typed_unit(alloc, QUOTIENT.as_bytes())?;
    let mut right = true;
    let mut count = 0u32;
    let mut last = 0u8;
    for stage in stages.bytes() {
        right = right && seen_last(alloc, mode, &unit, count) == (stage, 40);
        count = count.saturating_add(1);
        last = stage;
    }
    right = right && seen_last(alloc, mode, &unit, count) == (last, 0);
    drop(unit);
    Ok(right)
}

#[test]
fn a_watcher_that_refuses(rt: HostRuntime) -> Result<(), Fail> {
    let rows = [(Mode::Plain, "crpavls"), (Mode::Checked, "cgrpavls")];
    each_passes(rt.alloc(), &rows, goes_as_far)
}
