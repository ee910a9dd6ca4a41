// The validator refuses none of the allocator's answers.

use super::functions::all_are_accepted;
use std::test::Fail;
use tests_texts::programs;
use tests_texts::verdict::passes_for;

#[test]
fn programs_of_calls_and_loops_are_accepted(rt: HostRuntime) -> Result<(), Fail> {
    for text in programs::ALL.iter() {
        passes_for(all_are_accepted(rt.alloc(), text.as_bytes()), text)?;
    }
    Ok(())
}
