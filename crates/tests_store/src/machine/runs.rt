// The outcomes of a machine: each operation on two words, loads and stores, branches, services and traps, and runs in two parts.

use crate::machine::listing::image_of;
use cc_rv32::encode::encode;
use cc_rv32::fault::MachineFault;
use cc_rv32::instr::{
    BranchOperation, ImmediateOperation, Instr, LoadOperation, RegisterOperation, ShiftOperation,
    StoreOperation,
};
use cc_rv32::machine::Machine;
use cc_rv32::operand::{BranchOffset, Immediate, Register, ShiftCount};
use cc_rv32::outcome::MachineOutcome;
use std::alloc::Global;
use std::test::Fail;
use tests_texts::verdict::{passes_for, row_passes};

const ECALL: u32 = 0x0000_0073;

// addi x17, x0, 93
const EXIT: u32 = 0x05d0_0893;

// addi x17, x0, 1
const WRITE: u32 = 0x0010_0893;

// addi x17, x0, 2
const READ: u32 = 0x0020_0893;

// What each operation gives on two words (rv32ui and rv32um).
type Operation = (RegisterOperation, u32, u32, u32);

static OPERATIONS: [Operation; 92] = [
    (RegisterOperation::Add, 0x0, 0x0, 0x0),
    (RegisterOperation::Add, 0x1, 0x1, 0x2),
    (RegisterOperation::Add, 0x7fffffff, 0x1, 0x80000000),
    (RegisterOperation::Add, 0xffffffff, 0xffffffff, 0xfffffffe),
    (RegisterOperation::Add, 0xffff8000, 0x80000000, 0x7fff8000),
    (RegisterOperation::Sub, 0x1, 0x1, 0x0),
    (RegisterOperation::Sub, 0x3, 0x7, 0xfffffffc),
    (RegisterOperation::Sub, 0x0, 0xffff8000, 0x8000),
    (RegisterOperation::Sub, 0x80000000, 0x1, 0x7fffffff),
    (RegisterOperation::Sll, 0x1, 0x0, 0x1),
    (RegisterOperation::Sll, 0x1, 0x1f, 0x80000000),
    (RegisterOperation::Sll, 0x21212121, 0x7, 0x90909080),
    (RegisterOperation::Sll, 0x21212121, 0xffffffc0, 0x21212121),
    (RegisterOperation::Sll, 0x1, 0x20, 0x1),
    (RegisterOperation::Slt, 0x3, 0x7, 0x1),
    (RegisterOperation::Slt, 0x7, 0x3, 0x0),
    (RegisterOperation::Slt, 0x80000000, 0x0, 0x1),
    (RegisterOperation::Slt, 0x0, 0xffff8000, 0x0),
    (RegisterOperation::Slt, 0xffffffff, 0x1, 0x1),
    (RegisterOperation::Sltu, 0x3, 0x7, 0x1),
    (RegisterOperation::Sltu, 0x7, 0x3, 0x0),
    (RegisterOperation::Sltu, 0x0, 0xffff8000, 0x1),
    (RegisterOperation::Sltu, 0x80000000, 0x0, 0x0),
    (RegisterOperation::Sltu, 0xffffffff, 0x1, 0x0),
    (RegisterOperation::Xor, 0xff00ff00, 0xf0f0f0f, 0xf00ff00f),
    (RegisterOperation::Srl, 0x80000000, 0x0, 0x80000000),
    (RegisterOperation::Srl, 0x80000000, 0x1f, 0x1),
    (RegisterOperation::Srl, 0x21212121, 0x7, 0x424242),
    (RegisterOperation::Srl, 0x21212121, 0xffffffc7, 0x424242),
    (RegisterOperation::Sra, 0x80000000, 0x0, 0x80000000),
    (RegisterOperation::Sra, 0x80000000, 0x1f, 0xffffffff),
    (RegisterOperation::Sra, 0x81818181, 0x7, 0xff030303),
    (RegisterOperation::Sra, 0x7fffffff, 0x1f, 0x0),
    (RegisterOperation::Sra, 0x81818181, 0xffffffc0, 0x81818181),
    (RegisterOperation::Or, 0xff00ff00, 0xf0f0f0f, 0xff0fff0f),
    (RegisterOperation::And, 0xff00ff00, 0xf0f0f0f, 0xf000f00),
    (RegisterOperation::Mul, 0x7e00, 0xb6db6db7, 0x1200),
    (RegisterOperation::Mul, 0x80000000, 0xffff8000, 0x0),
    (RegisterOperation::Mul, 0xff000000, 0xff000000, 0x0),
    (RegisterOperation::Mul, 0xffffffff, 0x1, 0xffffffff),
    (RegisterOperation::Mulh, 0xaaaaaaab, 0x2fe7d, 0xffff0081),
    (RegisterOperation::Mulh, 0x2fe7d, 0xaaaaaaab, 0xffff0081),
    (RegisterOperation::Mulh, 0xff000000, 0xff000000, 0x10000),
    (RegisterOperation::Mulh, 0xffffffff, 0xffffffff, 0x0),
    (RegisterOperation::Mulh, 0xffffffff, 0x1, 0xffffffff),
    (RegisterOperation::Mulh, 0x80000000, 0x80000000, 0x40000000),
    (RegisterOperation::Mulhsu, 0xaaaaaaab, 0x2fe7d, 0xffff0081),
    (RegisterOperation::Mulhsu, 0x2fe7d, 0xaaaaaaab, 0x1fefe),
    (
        RegisterOperation::Mulhsu,
        0xff000000,
        0xff000000,
        0xff010000,
    ),
    (
        RegisterOperation::Mulhsu,
        0xffffffff,
        0xffffffff,
        0xffffffff,
    ),
    (RegisterOperation::Mulhsu, 0xffffffff, 0x1, 0xffffffff),
    (RegisterOperation::Mulhsu, 0x1, 0xffffffff, 0x0),
    (
        RegisterOperation::Mulhsu,
        0x80000000,
        0xffffffff,
        0x80000000,
    ),
    (RegisterOperation::Mulhu, 0xaaaaaaab, 0x2fe7d, 0x1fefe),
    (RegisterOperation::Mulhu, 0x2fe7d, 0xaaaaaaab, 0x1fefe),
    (RegisterOperation::Mulhu, 0xff000000, 0xff000000, 0xfe010000),
    (RegisterOperation::Mulhu, 0xffffffff, 0xffffffff, 0xfffffffe),
    (RegisterOperation::Mulhu, 0xffffffff, 0x1, 0x0),
    (RegisterOperation::Div, 0x14, 0x6, 0x3),
    (RegisterOperation::Div, 0xffffffec, 0x6, 0xfffffffd),
    (RegisterOperation::Div, 0x14, 0xfffffffa, 0xfffffffd),
    (RegisterOperation::Div, 0xffffffec, 0xfffffffa, 0x3),
    (RegisterOperation::Div, 0x80000000, 0x1, 0x80000000),
    (RegisterOperation::Div, 0x80000000, 0xffffffff, 0x80000000),
    (RegisterOperation::Div, 0x80000000, 0x0, 0xffffffff),
    (RegisterOperation::Div, 0x1, 0x0, 0xffffffff),
    (RegisterOperation::Div, 0x0, 0x0, 0xffffffff),
    (RegisterOperation::Divu, 0x14, 0x6, 0x3),
    (RegisterOperation::Divu, 0xffffffec, 0x6, 0x2aaaaaa7),
    (RegisterOperation::Divu, 0x14, 0xfffffffa, 0x0),
    (RegisterOperation::Divu, 0xffffffec, 0xfffffffa, 0x0),
    (RegisterOperation::Divu, 0x80000000, 0x1, 0x80000000),
    (RegisterOperation::Divu, 0x80000000, 0xffffffff, 0x0),
    (RegisterOperation::Divu, 0x80000000, 0x0, 0xffffffff),
    (RegisterOperation::Divu, 0x0, 0x0, 0xffffffff),
    (RegisterOperation::Rem, 0x14, 0x6, 0x2),
    (RegisterOperation::Rem, 0xffffffec, 0x6, 0xfffffffe),
    (RegisterOperation::Rem, 0x14, 0xfffffffa, 0x2),
    (RegisterOperation::Rem, 0xffffffec, 0xfffffffa, 0xfffffffe),
    (RegisterOperation::Rem, 0x80000000, 0x1, 0x0),
    (RegisterOperation::Rem, 0x80000000, 0xffffffff, 0x0),
    (RegisterOperation::Rem, 0x80000000, 0x0, 0x80000000),
    (RegisterOperation::Rem, 0x1, 0x0, 0x1),
    (RegisterOperation::Rem, 0x0, 0x0, 0x0),
    (RegisterOperation::Remu, 0x14, 0x6, 0x2),
    (RegisterOperation::Remu, 0xffffffec, 0x6, 0x2),
    (RegisterOperation::Remu, 0x14, 0xfffffffa, 0x14),
    (RegisterOperation::Remu, 0xffffffec, 0xfffffffa, 0xffffffec),
    (RegisterOperation::Remu, 0x80000000, 0x1, 0x0),
    (RegisterOperation::Remu, 0x80000000, 0xffffffff, 0x80000000),
    (RegisterOperation::Remu, 0x80000000, 0x0, 0x80000000),
    (RegisterOperation::Remu, 0x0, 0x0, 0x0),
];

// What each operation gives on a word and an immediate, which is given as the word that it denotes.
type OnImmediate = (ImmediateOperation, u32, u32, u32);

static IMMEDIATES: [OnImmediate; 9] = [
    (ImmediateOperation::Addi, 0x7fffffff, 0x7ff, 0x800007fe),
    (ImmediateOperation::Addi, 0x80000000, 0xfffff800, 0x7ffff800),
    (ImmediateOperation::Slti, 0xffffffff, 1, 1),
    (ImmediateOperation::Slti, 0, 0xfffff800, 0),
    (ImmediateOperation::Sltiu, 0xffffffff, 1, 0),
    (ImmediateOperation::Sltiu, 0, 0xfffff800, 1),
    (ImmediateOperation::Xori, 0x00ff0f00, 0xffffff0f, 0xff00f00f),
    (ImmediateOperation::Ori, 0xff00ff00, 0xffffff0f, 0xffffff0f),
    (ImmediateOperation::Andi, 0xff00ff00, 0xffffff0f, 0xff00ff00),
];

// What each shift gives on a word and a count.
type Shift = (ShiftOperation, u32, u8, u32);

static SHIFTS: [Shift; 7] = [
    (ShiftOperation::Slli, 0x21212121, 0, 0x21212121),
    (ShiftOperation::Slli, 1, 31, 0x80000000),
    (ShiftOperation::Srli, 0x80000000, 31, 1),
    (ShiftOperation::Srli, 0x80000000, 0, 0x80000000),
    (ShiftOperation::Srai, 0x80000000, 31, 0xffffffff),
    (ShiftOperation::Srai, 0x81818181, 0, 0x81818181),
    (ShiftOperation::Srai, 0x81818181, 7, 0xff030303),
];

// What each load gives at an offset into the globals, which hold the words 0ff000ff and f00f0ff0; `None` is a trap.
type Load = (LoadOperation, u32, Option<u32>);

static LOADS: [Load; 16] = [
    (LoadOperation::Lb, 0, Some(0xffffffff)),
    (LoadOperation::Lb, 1, Some(0)),
    (LoadOperation::Lb, 2, Some(0xfffffff0)),
    (LoadOperation::Lb, 3, Some(0x0f)),
    (LoadOperation::Lbu, 0, Some(0xff)),
    (LoadOperation::Lbu, 2, Some(0xf0)),
    (LoadOperation::Lh, 0, Some(0xff)),
    (LoadOperation::Lh, 6, Some(0xfffff00f)),
    (LoadOperation::Lhu, 6, Some(0xf00f)),
    (LoadOperation::Lhu, 4, Some(0x0ff0)),
    (LoadOperation::Lw, 4, Some(0xf00f0ff0)),
    (LoadOperation::Lw, 8, Some(0)),
    (LoadOperation::Lh, 1, None),
    (LoadOperation::Lhu, 3, None),
    (LoadOperation::Lw, 2, None),
    (LoadOperation::Lw, 0xfffffffc, None),
];

// What the first global, 0ff000ff at first, holds once 12345678 has been stored at an offset; `None` is a trap.
type Store = (StoreOperation, u32, Option<u32>);

static STORES: [Store; 8] = [
    (StoreOperation::Sb, 0, Some(0x0ff00078)),
    (StoreOperation::Sb, 3, Some(0x78f000ff)),
    (StoreOperation::Sh, 0, Some(0x0ff05678)),
    (StoreOperation::Sh, 2, Some(0x567800ff)),
    (StoreOperation::Sw, 0, Some(0x12345678)),
    (StoreOperation::Sh, 1, None),
    (StoreOperation::Sw, 2, None),
    (StoreOperation::Sb, 0xffffffff, None),
];

// Whether each branch is taken.
type Branch = (BranchOperation, u32, u32, bool);

static BRANCHES: [Branch; 15] = [
    (BranchOperation::Beq, 0xffffffff, 0xffffffff, true),
    (BranchOperation::Beq, 0, 1, false),
    (BranchOperation::Bne, 0, 0xffffffff, true),
    (BranchOperation::Bne, 7, 7, false),
    (BranchOperation::Blt, 0xffffffff, 1, true),
    (BranchOperation::Blt, 1, 0xffffffff, false),
    (BranchOperation::Blt, 1, 1, false),
    (BranchOperation::Bge, 1, 0xffffffff, true),
    (BranchOperation::Bge, 0xfffffffe, 0xffffffff, false),
    (BranchOperation::Bge, 5, 5, true),
    (BranchOperation::Bltu, 1, 0xffffffff, true),
    (BranchOperation::Bltu, 0xffffffff, 1, false),
    (BranchOperation::Bgeu, 0xffffffff, 1, true),
    (BranchOperation::Bgeu, 1, 0xffffffff, false),
    (BranchOperation::Bgeu, 0, 0, true),
];

// What a program shows; its words and its input; the first word that it writes, and its outcome.
type Program = (
    &'static str,
    &'static [u32],
    &'static [u32],
    Option<u32>,
    MachineOutcome,
);

static PROGRAMS: [Program; 18] = [
    (
        "the stack's last word: sw x2, -4(x2); lw x10, -4(x2)",
        &[0xfe212e23, 0xffc12503, WRITE, ECALL, EXIT, ECALL],
        &[],
        Some(0x0080_0000),
        MachineOutcome::Exited(0x0080_0000),
    ),
    (
        "past the stack: sw x2, 0(x2)",
        &[0x00212023, WRITE, ECALL],
        &[],
        None,
        MachineOutcome::Trapped,
    ),
    (
        "the stack's first word: lui x8, 0x600; sw x8, 0(x8); lw x10, 0(x8)",
        &[
            0x00600437, 0x00842023, 0x00042503, WRITE, ECALL, EXIT, ECALL,
        ],
        &[],
        Some(0x0060_0000),
        MachineOutcome::Exited(0x0060_0000),
    ),
    (
        "before the stack: sw x8, -4(x8)",
        &[0x00600437, 0xfe842e23, WRITE, ECALL],
        &[],
        None,
        MachineOutcome::Trapped,
    ),
    (
        "the last global: lui x8, 0x240; sw x8, -4(x8); lw x10, -4(x8)",
        &[
            0x00240437, 0xfe842e23, 0xffc42503, WRITE, ECALL, EXIT, ECALL,
        ],
        &[],
        Some(0x0024_0000),
        MachineOutcome::Exited(0x0024_0000),
    ),
    (
        "past the globals: sw x8, 0(x8)",
        &[0x00240437, 0x00842023, WRITE, ECALL],
        &[],
        None,
        MachineOutcome::Trapped,
    ),
    (
        "jal x10, 8 skips a word that is no instruction, and x10 is the address after the jump",
        &[0x0080056f, 0, WRITE, ECALL, EXIT, ECALL],
        &[],
        Some(0x0001_0004),
        MachineOutcome::Exited(0x0001_0004),
    ),
    (
        "auipc x5, 0; jalr x10, 13(x5): bit 0 of the target is cleared",
        &[0x00000297, 0x00d28567, 0, WRITE, ECALL, EXIT, ECALL],
        &[],
        Some(0x0001_0008),
        MachineOutcome::Exited(0x0001_0008),
    ),
    (
        "jalr x0, 14(x5): no multiple of 4",
        &[0x00000297, 0x00e28067, 0, WRITE, ECALL],
        &[],
        None,
        MachineOutcome::Trapped,
    ),
    (
        "beq x0, x0, 6: taken, to no multiple of 4",
        &[0x00000363, WRITE, ECALL],
        &[],
        None,
        MachineOutcome::Trapped,
    ),
    (
        "bne x0, x0, 6: not taken",
        &[0x00001363, WRITE, ECALL, EXIT, ECALL],
        &[],
        Some(0),
        MachineOutcome::Exited(0),
    ),
    (
        "jal x0, 6",
        &[0x0060006f, WRITE, ECALL],
        &[],
        None,
        MachineOutcome::Trapped,
    ),
    (
        "x0 stays 0: addi x0, x0, 5; jal x0, 4; lui x0, 1; addi x10, x0, 0",
        &[
            0x00500013, 0x0040006f, 0x00001037, 0x00000513, WRITE, ECALL, EXIT, ECALL,
        ],
        &[],
        Some(0),
        MachineOutcome::Exited(0),
    ),
    (
        "an unknown service",
        &[ECALL],
        &[],
        None,
        MachineOutcome::Trapped,
    ),
    (
        "a word of the input",
        &[READ, ECALL, WRITE, ECALL, EXIT, ECALL],
        &[9],
        Some(9),
        MachineOutcome::Exited(9),
    ),
    (
        "a word past the input, after one of it",
        &[READ, ECALL, ECALL, WRITE, ECALL, EXIT, ECALL],
        &[9],
        Some(0),
        MachineOutcome::Exited(0),
    ),
    (
        "no input at all: addi x10, x0, 7 first",
        &[0x00700513, READ, ECALL, WRITE, ECALL, EXIT, ECALL],
        &[],
        Some(0),
        MachineOutcome::Exited(0),
    ),
    (
        "what was written before a trap stays: addi x10, x0, 7; a write; sw x10, -2(x2)",
        &[0x00700513, WRITE, ECALL, 0xfea12f23, ECALL],
        &[],
        Some(7),
        MachineOutcome::Trapped,
    ),
];

// addi x10, x0, 5, then an exit.
const EXITS: &[u32] = &[0x00500513, EXIT, ECALL];

// The high word of -1 times -1, unsigned: it is written, and it is the exit value.
const PRODUCT: &[u32] = &[
    0xfff00093, 0x0210b133, 0x00010513, 0x00100893, ECALL, EXIT, ECALL,
];

// A program, a first and a second number of instructions, the machine's outcome after both, and the first word that it has
// written by then. The last two programs are a word that is not an instruction, and lw x1, 0(x0).
type Part = (&'static [u32], u64, u64, MachineOutcome, Option<u32>);

static PARTS: [Part; 11] = [
    (EXITS, 0, 2, MachineOutcome::Going, None),
    (EXITS, 2, 1, MachineOutcome::Exited(5), None),
    (EXITS, 3, 1, MachineOutcome::Exited(5), None),
    (EXITS, 0, 9, MachineOutcome::Exited(5), None),
    (PRODUCT, 0, 6, MachineOutcome::Going, Some(4294967294)),
    (
        PRODUCT,
        6,
        1,
        MachineOutcome::Exited(4294967294),
        Some(4294967294),
    ),
    (
        PRODUCT,
        0,
        7,
        MachineOutcome::Exited(4294967294),
        Some(4294967294),
    ),
    (&[0], 0, 0, MachineOutcome::Going, None),
    (&[0], 0, 1, MachineOutcome::Trapped, None),
    (&[0], 1, 1, MachineOutcome::Trapped, None),
    (&[0x00002083], 0, 1, MachineOutcome::Trapped, None),
];

static GLOBALS: [u32; 2] = [0x0ff000ff, 0xf00f0ff0];

// A machine with a program loaded.
fn machine(alloc: Global, code: &[u32], globals: &[u32], input: &[u32]) -> Result<Machine, Fail> {
    let code = Vec::from_slice(alloc, code)?;
    let image = image_of(code, Vec::from_slice(alloc, globals)?)?;
    let made = Machine::new(alloc, &image, input);
    drop(image);
    Ok(made?)
}

// The machine's outcome, and the first word that it has written.
type Shown = (MachineOutcome, Option<u32>);

// What the machine shows after two runs, of `before` and of `steps` instructions.
fn shown(machine: &mut Machine, before: u64, steps: u64) -> Result<Shown, MachineFault> {
    machine.run(before)?;
    let outcome = machine.run(steps)?;
    Ok((outcome, machine.output().first().copied()))
}

// What a machine with this program shows after two runs of as many instructions as `parts` says.
fn shown_after(
    alloc: Global,
    code: &[u32],
    globals: &[u32],
    input: &[u32],
    parts: (u64, u64),
) -> Result<Shown, Fail> {
    let mut machine = machine(alloc, code, globals, input)?;
    let found = shown(&mut machine, parts.0, parts.1);
    drop(machine);
    Ok(found?)
}

fn is_run_in_parts(alloc: Global, row: &Part) -> Result<bool, Fail> {
    let (code, before, steps, outcome, word) = *row;
    Ok(shown_after(alloc, code, &[], &[], (before, steps))? == (outcome, word))
}

#[test]
fn runs_a_part_at_a_time(rt: HostRuntime) -> Result<(), Fail> {
    for number in 0..PARTS.len() {
        row_passes(number, is_run_in_parts(rt.alloc(), &PARTS[number]))?;
    }
    Ok(())
}

// Fails with what the program shows if it is not run as the row says.
fn is_run(alloc: Global, row: &Program) -> Result<(), Fail> {
    let (shows, code, input, word, outcome) = *row;
    let found = shown_after(alloc, code, &[], input, (0, 1000))?;
    passes_for(Ok(found == (outcome, word)), shows)
}

#[test]
fn runs_programs(rt: HostRuntime) -> Result<(), Fail> {
    for number in 0..PROGRAMS.len() {
        is_run(rt.alloc(), &PROGRAMS[number])?;
    }
    Ok(())
}

// Whether this is the first word that a program writes within a thousand instructions. The program must trap if the word is
// `None`, and only then.
fn writes(alloc: Global, code: &[u32], input: &[u32], word: Option<u32>) -> Result<bool, Fail> {
    let (outcome, written) = shown_after(alloc, code, &GLOBALS, input, (0, 1000))?;
    Ok(written == word && (outcome == MachineOutcome::Trapped) == word.is_none())
}

// addi x5, x10, 0 and addi x6, x10, 0
const TO_X5: u32 = 0x0005_0293;

const TO_X6: u32 = 0x0005_0313;

// Whether the operation on two input words writes this word.
fn computes(alloc: Global, row: &Operation) -> Result<bool, Fail> {
    let (operation, left, right, word) = *row;
    let tried = encode(Instr::Op {
        operation,
        rd: Register::new(10),
        rs1: Register::new(5),
        rs2: Register::new(6),
    });
    let code = [
        READ, ECALL, TO_X5, ECALL, TO_X6, tried, WRITE, ECALL, EXIT, ECALL,
    ];
    writes(alloc, &code, &[left, right], Some(word))
}

#[test]
fn computes_on_two_registers(rt: HostRuntime) -> Result<(), Fail> {
    for number in 0..OPERATIONS.len() {
        row_passes(number, computes(rt.alloc(), &OPERATIONS[number]))?;
    }
    Ok(())
}

// Whether this word is written after the instruction changes x10, which holds the input word.
fn changes(alloc: Global, instr: Instr, left: u32, word: u32) -> Result<bool, Fail> {
    let code = [READ, ECALL, encode(instr), WRITE, ECALL, EXIT, ECALL];
    writes(alloc, &code, &[left], Some(word))
}

fn computes_on(alloc: Global, row: &OnImmediate) -> Result<bool, Fail> {
    let (operation, left, immediate, word) = *row;
    if !Immediate::fits(immediate) {
        return Ok(false);
    }
    let instr = Instr::OpImm {
        operation,
        rd: Register::new(10),
        rs1: Register::new(10),
        immediate: Immediate::new(immediate),
    };
    changes(alloc, instr, left, word)
}

#[test]
fn computes_on_immediates(rt: HostRuntime) -> Result<(), Fail> {
    for number in 0..IMMEDIATES.len() {
        row_passes(number, computes_on(rt.alloc(), &IMMEDIATES[number]))?;
    }
    Ok(())
}

fn shifts(alloc: Global, row: &Shift) -> Result<bool, Fail> {
    let (operation, left, count, word) = *row;
    if count >= 32 {
        return Ok(false);
    }
    let instr = Instr::Shift {
        operation,
        rd: Register::new(10),
        rs1: Register::new(10),
        count: ShiftCount::new(count),
    };
    changes(alloc, instr, left, word)
}

#[test]
fn shifts_by_a_count(rt: HostRuntime) -> Result<(), Fail> {
    for number in 0..SHIFTS.len() {
        row_passes(number, shifts(rt.alloc(), &SHIFTS[number]))?;
    }
    Ok(())
}

// lui x8, 0x200 comes first: it loads the address of the globals.
fn loads_at(alloc: Global, row: &Load) -> Result<bool, Fail> {
    let (operation, offset, word) = *row;
    if !Immediate::fits(offset) {
        return Ok(false);
    }
    let tried = encode(Instr::Load {
        operation,
        rd: Register::new(10),
        rs1: Register::new(8),
        offset: Immediate::new(offset),
    });
    let code = [0x00200437, tried, WRITE, ECALL, EXIT, ECALL];
    writes(alloc, &code, &[], word)
}

#[test]
fn loads(rt: HostRuntime) -> Result<(), Fail> {
    for number in 0..LOADS.len() {
        row_passes(number, loads_at(rt.alloc(), &LOADS[number]))?;
    }
    Ok(())
}

// lw x10, 0(x8) comes after the store.
fn stores_at(alloc: Global, row: &Store) -> Result<bool, Fail> {
    let (operation, offset, word) = *row;
    if !Immediate::fits(offset) {
        return Ok(false);
    }
    let tried = encode(Instr::Store {
        operation,
        rs1: Register::new(8),
        rs2: Register::new(10),
        offset: Immediate::new(offset),
    });
    let code = [
        0x00200437, READ, ECALL, tried, 0x00042503, WRITE, ECALL, EXIT, ECALL,
    ];
    writes(alloc, &code, &[0x12345678], word)
}

#[test]
fn stores(rt: HostRuntime) -> Result<(), Fail> {
    for number in 0..STORES.len() {
        row_passes(number, stores_at(rt.alloc(), &STORES[number]))?;
    }
    Ok(())
}

// A taken branch skips a write of 0: addi x17, x0, 1; ecall; then addi x10, x0, 1.
fn branches_on(alloc: Global, row: &Branch) -> Result<bool, Fail> {
    let (operation, left, right, taken) = *row;
    let tried = encode(Instr::Branch {
        operation,
        rs1: Register::new(5),
        rs2: Register::new(6),
        offset: BranchOffset::new(12),
    });
    let code = [
        READ, ECALL, TO_X5, ECALL, TO_X6, 0x00000513, tried, WRITE, ECALL, 0x00100513, WRITE,
        ECALL, EXIT, ECALL,
    ];
    writes(alloc, &code, &[left, right], Some(u32::from(taken)))
}

#[test]
fn branches(rt: HostRuntime) -> Result<(), Fail> {
    for number in 0..BRANCHES.len() {
        row_passes(number, branches_on(rt.alloc(), &BRANCHES[number]))?;
    }
    Ok(())
}

// The outcomes of a machine after this many more instructions, a single one by a step, and after one more step.
fn outcomes(
    machine: &mut Machine,
    steps: u64,
) -> Result<(MachineOutcome, MachineOutcome), MachineFault> {
    let first = if steps == 1 {
        machine.step()?
    } else {
        machine.run(steps)?
    };
    Ok((first, machine.step()?))
}

// The words of a program, how many instructions come first, and the outcome one step later.
type Last = (&'static [u32], u64, MachineOutcome);

static LASTS: [Last; 5] = [
    // A step that leaves the code, past the last word or by jal x0, 8 or jalr x0, 0(x0), succeeds, and the fetch after it traps.
    (&[0x0000_0013], 1, MachineOutcome::Trapped),
    (&[0x0080_006f], 1, MachineOutcome::Trapped),
    (&[0x0000_0067], 1, MachineOutcome::Trapped),
    // A jump to itself, jal x0, 0 or jal x1, 0, runs for ever; running it takes no time.
    (&[0x0000_0013, 0x0000_006f], u64::MAX, MachineOutcome::Going),
    (&[0x0000_0013, 0x0000_00ef], u64::MAX, MachineOutcome::Going),
];

fn ends_as(alloc: Global, row: &Last) -> Result<bool, Fail> {
    let (code, steps, last) = *row;
    let mut machine = machine(alloc, code, &[], &[])?;
    let found = outcomes(&mut machine, steps);
    drop(machine);
    Ok(found? == (MachineOutcome::Going, last))
}

#[test]
fn traps_outside_the_code_and_jumps_to_themselves(rt: HostRuntime) -> Result<(), Fail> {
    for number in 0..LASTS.len() {
        row_passes(number, ends_as(rt.alloc(), &LASTS[number]))?;
    }
    Ok(())
}
