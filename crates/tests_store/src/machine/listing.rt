// Lists words from outside and compares their lines, and decodes and encodes them again.

use cc_rv32::decode::decode;
use cc_rv32::encode::encode;
use cc_rv32::image::{Code, Globals, Image, MOST_CODE};
use cc_rv32::listing::list;
use std::alloc::Global;
use std::test::Fail;
use tests_texts::verdict::{passes, row_passes};

// Words and their text: one word for each kind of operand, one that is not an instruction, and each instruction at least once,
// with its operands at the ends of their ranges. The words and their text are those of GNU as and LLVM's assembler.
type Line = (u32, &'static str);

static LINES: [Line; 68] = [
    // one of each kind
    (0xfff00093, "addi x1, x0, -1"),
    (0x0000006f, "jal x0, 0"),
    (0x002081b3, "add x3, x1, x2"),
    (0x022081b3, "mul x3, x1, x2"),
    (0x00812283, "lw x5, 8(x2)"),
    (0x00000000, ".word"),
    (0x00512423, "sw x5, 8(x2)"),
    (0xfe208ee3, "beq x1, x2, -4"),
    (0x123452b7, "lui x5, 74565"),
    (0x00c000ef, "jal x1, 12"),
    (0x05d00893, "addi x17, x0, 93"),
    (0x00000073, "ecall"),
    // the ends of operands
    (0x41ff5f93, "srai x31, x30, 31"),
    (0x8020f063, "bgeu x1, x2, -4096"),
    (0x7e20cfe3, "blt x1, x2, 4094"),
    (0x800000ef, "jal x1, -1048576"),
    (0x7ffff06f, "jal x0, 1048574"),
    (0x800280e7, "jalr x1, -2048(x5)"),
    (0xfffff3b7, "lui x7, 1048575"),
    (0x00001397, "auipc x7, 1"),
    (0x7ff44483, "lbu x9, 2047(x8)"),
    (0xfe941fa3, "sh x9, -1(x8)"),
    (0x025221b3, "mulhsu x3, x4, x5"),
    // each instruction
    (0x41df0fb3, "sub x31, x30, x29"),
    (0x00629233, "sll x4, x5, x6"),
    (0x009423b3, "slt x7, x8, x9"),
    (0x00c5b533, "sltu x10, x11, x12"),
    (0x00f746b3, "xor x13, x14, x15"),
    (0x0128d833, "srl x16, x17, x18"),
    (0x415a59b3, "sra x19, x20, x21"),
    (0x018beb33, "or x22, x23, x24"),
    (0x01bd7cb3, "and x25, x26, x27"),
    (0x03ee9e33, "mulh x28, x29, x30"),
    (0x02102fb3, "mulhsu x31, x0, x1"),
    (0x0241b133, "mulhu x2, x3, x4"),
    (0x027342b3, "div x5, x6, x7"),
    (0x02a4d433, "divu x8, x9, x10"),
    (0x02d665b3, "rem x11, x12, x13"),
    (0x0307f733, "remu x14, x15, x16"),
    (0x7ff1a113, "slti x2, x3, 2047"),
    (0x8002b213, "sltiu x4, x5, -2048"),
    (0x0643c313, "xori x6, x7, 100"),
    (0x0014e413, "ori x8, x9, 1"),
    (0x0ff5f513, "andi x10, x11, 255"),
    (0x00069613, "slli x12, x13, 0"),
    (0x01f7d713, "srli x14, x15, 31"),
    (0x4078d813, "srai x16, x17, 7"),
    (0xfff98903, "lb x18, -1(x19)"),
    (0x002a9a03, "lh x20, 2(x21)"),
    (0x800bab03, "lw x22, -2048(x23)"),
    (0x7ffccc03, "lbu x24, 2047(x25)"),
    (0x000ddd03, "lhu x26, 0(x27)"),
    (0xffce8fa3, "sb x28, -1(x29)"),
    (0x01ef9523, "sh x30, 10(x31)"),
    (0x80112023, "sw x1, -2048(x2)"),
    (0x7e419fe3, "bne x3, x4, 4094"),
    (0x8062c063, "blt x5, x6, -4096"),
    (0x0083d163, "bge x7, x8, 2"),
    (0xfea4efe3, "bltu x9, x10, -2"),
    (0x3ec5f463, "bgeu x11, x12, 1000"),
    (0xfffff337, "lui x6, 1048575"),
    (0x00000397, "auipc x7, 0"),
    (0x80000417, "auipc x8, 524288"),
    (0x80000fef, "jal x31, -1048576"),
    (0x7fffff6f, "jal x30, 1048574"),
    (0x00008067, "jalr x0, 0(x1)"),
    (0x800100e7, "jalr x1, -2048(x2)"),
    (0x7ff201e7, "jalr x3, 2047(x4)"),
];

/// The image of these words. Fails if they can't be code and globals.
pub fn image_of(code: Vec<u32>, globals: Vec<u32>) -> Result<Image, Fail> {
    let Ok(globals) = Globals::new(globals) else {
        return Err(Fail::from("the words are no globals"));
    };
    let Ok(code) = Code::new(code) else {
        return Err(Fail::from("the words are no code"));
    };
    Ok(Image { code, globals })
}

// The listing of these words of code and one word of globals, which it does not show.
fn listing(alloc: Global, code: Vec<u32>) -> Result<Vec<u8>, Fail> {
    let image = image_of(code, vec![in alloc; 0x00000073u32]?)?;
    let listed = list(alloc, &image);
    drop(image);
    Ok(listed?)
}

// Whether the listing of these words of code is this text.
fn lists(alloc: Global, code: &[u32], text: &[u8]) -> Result<bool, Fail> {
    Ok(listing(alloc, Vec::from_slice(alloc, code)?)?.as_slice() == text)
}

// Whether an instruction is encoded as the same word again, and only `.word` is no instruction.
fn is_encoded_again(word: u32, text: &str) -> bool {
    match decode(word) {
        Some(instr) => encode(instr) == word && text != ".word",
        None => text == ".word",
    }
}

// Whether the word's line has this text, and an instruction is encoded as the same word again.
fn is_line(alloc: Global, line: &Line) -> Result<bool, Fail> {
    let (word, text) = *line;
    let line = format!(in alloc; "00010000 {word:08x} {text}\n")?;
    Ok(is_encoded_again(word, text) && lists(alloc, &[word], line.as_bytes())?)
}

#[test]
fn lists_each_word(rt: HostRuntime) -> Result<(), Fail> {
    for number in 0..LINES.len() {
        row_passes(number, is_line(rt.alloc(), &LINES[number]))?;
    }
    Ok(())
}

// The last word of the longest code is at 0x0008fffc.
fn lists_the_last(alloc: Global) -> Result<bool, Fail> {
    let text = listing(alloc, vec![in alloc; 0x00000073u32; MOST_CODE]?)?;
    let last = "0008fffc 00000073 ecall\n";
    Ok(text.len() == MOST_CODE * last.len() && text.as_slice().ends_with(last.as_bytes()))
}

#[test]
fn lists_words_in_order_and_the_longest_code(rt: HostRuntime) -> Result<(), Fail> {
    let lines = "00010000 fff00093 addi x1, x0, -1\n00010004 00000000 .word\n";
    passes(lists(rt.alloc(), &[0xfff00093, 0], lines.as_bytes()))?;
    passes(lists_the_last(rt.alloc()))
}
