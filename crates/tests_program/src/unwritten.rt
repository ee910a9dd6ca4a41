// Answers that can't be written: those of a unit that is run once for each line.

use cc_call::{LinesEnd, call_lines};
use cc_rv32::image::{Code, Globals, Image};
use std::test::Fail;
use tests_texts::streams::Refuses;

// Code that traps at once.
static TRAP: [u32; 1] = [0];

#[test]
fn an_answer_that_cannot_be_written(rt: HostRuntime) -> Result<(), Fail> {
    let alloc = rt.alloc();
    let Ok(code) = Code::new(Vec::from_slice(alloc, &TRAP)?) else {
        return Err(Fail::from("a word is code"));
    };
    let Ok(globals) = Globals::new(Vec::new(alloc)) else {
        return Err(Fail::from("no words are globals"));
    };
    let image = Image { code, globals };
    let mut lines: &[u8] = b"1 2\n3 4\n";
    let mut told = Vec::new(alloc);
    let end = call_lines(
        alloc,
        &image,
        100,
        None,
        false,
        &mut lines,
        &mut Refuses,
        &mut told,
    );
    assert!(rt; end == LinesEnd::Unwritten);
    Ok(())
}
