// Words that are not in the table, operands at the ends of their ranges, and the lengths of images.

use cc_rv32::decode::decode;
use cc_rv32::encode::encode;
use cc_rv32::image::{Code, Globals, MOST_CODE, MOST_GLOBALS};
use cc_rv32::instr::Instr;
use cc_rv32::operand::{BranchOffset, Immediate, JumpOffset, Register, UpperImmediate};
use std::alloc::Global;
use std::test::Fail;
use tests_texts::verdict::{passes, row_passes};

// Words that are not in the table: fence, ebreak, an access to a control register, a compressed instruction, and gaps in funct3
// and funct7.
static NONE: [u32; 17] = [
    0, 0xffffffff, 0x0000000f, 0x00100073, 0x30002073, 0x00000001, 0x40001033, 0x02005013,
    0x40001013, 0x00003003, 0x00006003, 0x00003023, 0x00002063, 0x00003063, 0x00001067, 0x000000f3,
    0x04000033,
];

#[test]
fn refuses_words_outside_the_table() -> Result<(), Fail> {
    for number in 0..NONE.len() {
        row_passes(number, Ok(decode(NONE[number]).is_none()))?;
    }
    Ok(())
}

// Whether the words are those that GNU as gives for these instructions.
fn are_encoded() -> bool {
    let rd = Register::new(1);
    let offset = JumpOffset::new(0xfff00000);
    let jumps = encode(Instr::Jal { rd, offset }) == 0x800000ef;
    let rd = Register::new(7);
    let immediate = UpperImmediate::new(0xfffff);
    jumps && encode(Instr::Lui { rd, immediate }) == 0xfffff3b7
}

// Whether the least operands fit, and those past the greatest do not, nor odd offsets.
fn are_ends() -> bool {
    Immediate::fits(0xfffff800)
        && !Immediate::fits(0x800)
        && BranchOffset::fits(0xfffff000)
        && !BranchOffset::fits(0x1000)
        && !BranchOffset::fits(3)
        && JumpOffset::fits(0xfff00000)
        && !JumpOffset::fits(0x100000)
        && !JumpOffset::fits(5)
}

#[test]
fn ends_of_operands() -> Result<(), Fail> {
    passes(Ok(are_encoded()))?;
    passes(Ok(are_ends()))
}

// Whether this many words are accepted as code, and returned.
fn are_code(alloc: Global, count: usize) -> Result<bool, Fail> {
    match Code::new(vec![in alloc; 0u32; count]?) {
        Ok(code) => Ok(code.into_words().len() == count),
        Err(_) => Ok(false),
    }
}

// Whether this many words are accepted as globals, and returned.
fn are_globals(alloc: Global, count: usize) -> Result<bool, Fail> {
    match Globals::new(vec![in alloc; 0u32; count]?) {
        Ok(globals) => Ok(globals.into_words().len() == count),
        Err(_) => Ok(false),
    }
}

// How many words are tried as code and as globals, and whether they are accepted.
type Lengths = (usize, usize, bool, bool);

static LENGTHS: [Lengths; 3] = [
    (MOST_CODE, MOST_GLOBALS, true, true),
    (0, 0, false, true),
    (MOST_CODE + 1, MOST_GLOBALS + 1, false, false),
];

fn are_accepted(alloc: Global, row: &Lengths) -> Result<bool, Fail> {
    let (code, globals, is_code, is_globals) = *row;
    Ok(are_code(alloc, code)? == is_code && are_globals(alloc, globals)? == is_globals)
}

#[test]
fn keeps_within_the_lengths(rt: HostRuntime) -> Result<(), Fail> {
    for number in 0..LENGTHS.len() {
        row_passes(number, are_accepted(rt.alloc(), &LENGTHS[number]))?;
    }
    Ok(())
}
