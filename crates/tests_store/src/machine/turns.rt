// A machine that is used again: it restarts with another image, it is fed while its program waits for words, and it has stopped in place.
// The words of the programs are those of clang's assembler.

use crate::machine::listing::image_of;
use cc_rv32::machine::Machine;
use cc_rv32::outcome::MachineOutcome;
use std::alloc::Global;
use std::test::Fail;
use tests_texts::verdict::passes_for;

// lui x8,0x200; addi x5,x0,7; sw x5,0(x8); sw x5,-4(x2); addi x10,x0,0; addi x17,x0,93; ecall
static STORES: [u32; 7] = [
    0x00200437, 0x00700293, 0x00542023, 0xfe512e23, 0x00000513, 0x05d00893, 0x00000073,
];

// addi x17,x0,1; lui x8,0x200; lw x10,0(x8); ecall; lw x10,-4(x2); ecall; lw x10,4(x8); ecall; addi x10,x0,0; addi x17,x0,93; ecall
static LOADS: [u32; 11] = [
    0x00100893, 0x00200437, 0x00042503, 0x00000073, 0xffc12503, 0x00000073, 0x00442503, 0x00000073,
    0x00000513, 0x05d00893, 0x00000073,
];

// addi x17,x0,2; ecall; addi x17,x0,1; ecall; jal x0,-16
static ECHO: [u32; 5] = [0x00200893, 0x00000073, 0x00100893, 0x00000073, 0xff1ff06f];

// addi x0,x0,0; jal x0,0
static LOOP: [u32; 2] = [0x00000013, 0x0000006f];

// A machine with this program loaded, and no input.
fn machine(alloc: Global, code: &[u32]) -> Result<Machine, Fail> {
    let image = image_of(Vec::from_slice(alloc, code)?, Vec::new(alloc))?;
    let made = Machine::new(alloc, &image, &[]);
    drop(image);
    Ok(made?)
}

// Whether a machine that restarts with this program and these globals ends with 0 and has written these words.
fn ends_with(
    alloc: Global,
    machine: &mut Machine,
    program: (&[u32], &[u32]),
    words: &[u32],
) -> Result<bool, Fail> {
    let globals = Vec::from_slice(alloc, program.1)?;
    let image = image_of(Vec::from_slice(alloc, program.0)?, globals)?;
    let restarted = machine.restart(&image, &[]);
    drop(image);
    restarted?;
    let outcome = machine.run(1000)?;
    Ok(outcome == MachineOutcome::Exited(0) && machine.output() == words)
}

// Whether nothing is left of what a program stored: neither on the stack nor in the globals, which are those of the next image.
fn forgets(alloc: Global, machine: &mut Machine) -> Result<bool, Fail> {
    Ok(
        ends_with(alloc, machine, (&STORES, &[]), &[])?
            && ends_with(alloc, machine, (&LOADS, &[3, 9]), &[3, 0, 9])?
            && ends_with(alloc, machine, (&STORES, &[]), &[])?
            && ends_with(alloc, machine, (&LOADS, &[]), &[0, 0, 0])?,
    )
}

#[test]
fn restarts_as_new(rt: HostRuntime) -> Result<(), Fail> {
    let mut machine = machine(rt.alloc(), &STORES)?;
    let found = forgets(rt.alloc(), &mut machine);
    drop(machine);
    passes_for(found, "a machine that restarts")
}

// Whether a machine that is fed these words writes exactly them and then waits.
fn echoes(machine: &mut Machine, words: &[u32]) -> Result<bool, Fail> {
    machine.feed(words)?;
    let waits = machine.run_to_wait(1000)?.is_some();
    let passes = waits && machine.output() == words;
    machine.clear_output();
    Ok(passes)
}

fn echoes_in_turns(machine: &mut Machine) -> Result<bool, Fail> {
    Ok(
        machine.run_to_wait(1000)? == Some(999)
            && echoes(machine, &[5, 6])?
            && echoes(machine, &[])?
            && echoes(machine, &[7])?,
    )
}

#[test]
fn goes_on_when_fed(rt: HostRuntime) -> Result<(), Fail> {
    let mut machine = machine(rt.alloc(), &ECHO)?;
    let found = echoes_in_turns(&mut machine);
    drop(machine);
    passes_for(found, "a machine that is fed")
}

// Whether a machine is in place from the jump to itself on, and not before.
fn ends_in_place(machine: &mut Machine) -> Result<bool, Fail> {
    let begins = machine.is_in_place();
    machine.run(1)?;
    let at_jump = machine.is_in_place();
    machine.run(1000)?;
    Ok(!begins && at_jump && machine.is_in_place())
}

#[test]
fn says_that_it_is_in_place(rt: HostRuntime) -> Result<(), Fail> {
    let mut machine = machine(rt.alloc(), &LOOP)?;
    let found = ends_in_place(&mut machine);
    drop(machine);
    passes_for(found, "a machine that jumps in place")
}
