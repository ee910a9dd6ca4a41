// The functions of the worked programs all go through.

use super::helpers::all_go_through;
use std::test::Fail;
use tests_texts::verdict::row_passes;
use tests_texts::worked::PROGRAMS;

#[test]
fn each_function_goes_through(rt: HostRuntime) -> Result<(), Fail> {
    for number in 0..PROGRAMS.len() {
        let (text, functions) = PROGRAMS[number];
        row_passes(
            number,
            all_go_through(rt.alloc(), text.as_bytes(), functions),
        )?;
    }
    Ok(())
}
