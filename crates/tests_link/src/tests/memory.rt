// Compilations while an allocation is refused. `tests/outside/memory.sh compile` refuses each allocation of this test in turn,
// so a single test covers them all.

use cc_link::{CompiledUnit, compile};
use std::alloc::Global;
use std::test::Fail;
use tests_texts::programs::REGS;
use tests_texts::verdict::passes;

#[test]
fn every_growth_of_compile(rt: HostRuntime) -> Result<(), Fail> {
    let first = compiled(rt.alloc());
    let second = compiled(rt.alloc());
    let third = compiled(rt.alloc());
    let right = match (number(&first), number(&second), number(&third)) {
        (0, 0, 0) => are_same(&first, &second) && are_same(&second, &third),
        (40, 0, 0) => are_same(&second, &third),
        (0, 40, 0) => are_same(&first, &third),
        (0, 0, 40) => are_same(&first, &second),
        _ => false,
    };
    passes(Ok(right))
}

// The program's unit, or the number with which the program is refused.
fn compiled(alloc: Global) -> Result<CompiledUnit, u32> {
    match compile(alloc, REGS.as_bytes()) {
        Ok(unit) => Ok(unit),
        Err(fault) => {
            let number = fault.number();
            drop(fault);
            Err(number)
        }
    }
}

fn number(made: &Result<CompiledUnit, u32>) -> u32 {
    match made {
        Ok(_) => 0,
        Err(number) => *number,
    }
}

fn are_same(one: &Result<CompiledUnit, u32>, other: &Result<CompiledUnit, u32>) -> bool {
    match (one, other) {
        (Ok(one), Ok(other)) => one.stored().is_same(other.stored()),
        _ => false,
    }
}
