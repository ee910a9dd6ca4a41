// A small interpreter of LTL. The words that a call, a read or a write leaves in what it destroys, and the words that are
// anywhere at the entry, come from a list that the caller chooses with a seed.

use super::graph::run_graph;
use super::world::{Next, Stop, World};
use cc_ltl::{Block, Ltl, Move, Operation, Register, Slot};
use cc_rtl::RtlPair;
use std::alloc::{AllocError, Global};

/// The words of registers and slots, and the list of words for what is unknown.
#[derive(Drop)]
struct Places {
    registers: [u32; 32],
    slots: Vec<u32>,
    seed: u32,
    unknown: u32,
}

impl Places {
    fn new(alloc: Global, slots: u16, seed: u32, arguments: &[u32]) -> Result<Places, AllocError> {
        let mut places = Places {
            registers: [0; 32],
            slots: vec![in alloc; 0; slots as usize]?,
            seed,
            unknown: 0,
        };
        places.fill();
        for (number, word) in arguments.iter().enumerate() {
            places.put_number(number.saturating_add(10), *word);
        }
        Ok(places)
    }

    // Puts the next words of the list everywhere.
    fn fill(&mut self) {
        for register in 0..32usize {
            let word = self.next_unknown();
            self.put_number(register, word);
        }
        for slot in 0..self.slots.len() {
            let word = self.next_unknown();
            if let Some(place) = self.slots.as_mut_slice().get_mut(slot) {
                *place = word;
            }
        }
    }

    // The next word of the list: zeros only, ones only, or other words.
    fn next_unknown(&mut self) -> u32 {
        self.unknown = self.unknown.wrapping_add(1);
        match self.seed {
            0 => 0,
            1 => 0xffff_ffff,
            seed => self.unknown.wrapping_mul(2_654_435_761).wrapping_add(seed),
        }
    }

    fn number(&self, register: usize) -> u32 {
        match self.registers.get(register) {
            Some(word) => *word,
            None => 0,
        }
    }

    fn put_number(&mut self, register: usize, word: u32) {
        if let Some(place) = self.registers.get_mut(register) {
            *place = word;
        }
    }

    fn get(&self, register: Register) -> u32 {
        self.number(register.number() as usize)
    }

    fn put(&mut self, register: Register, word: u32) {
        self.put_number(register.number() as usize, word);
    }

    fn slot(&self, slot: Slot) -> u32 {
        match self.slots.as_slice().get(slot.number() as usize) {
            Some(word) => *word,
            None => 0,
        }
    }

    fn put_slot(&mut self, slot: Slot, word: u32) {
        if let Some(place) = self.slots.as_mut_slice().get_mut(slot.number() as usize) {
            *place = word;
        }
    }

    fn make(&mut self, moves: &[Move]) {
        for each in moves {
            match each {
                Move::Between { to, from } => {
                    let word = self.get(*from);
                    self.put(*to, word);
                }
                Move::Reload { to, slot } => {
                    let word = self.slot(*slot);
                    self.put(*to, word);
                }
                Move::Spill { slot, from } => {
                    let word = self.get(*from);
                    self.put_slot(*slot, word);
                }
            }
        }
    }

    // A call keeps x8, x9 and x18 to x27.
    fn destroy_for_call(&mut self) {
        for register in 0..32usize {
            let word = self.next_unknown();
            let kept = register == 8 || register == 9 || (18 <= register && register <= 27);
            if !kept {
                self.put_number(register, word);
            }
        }
    }

    fn destroy_for_word(&mut self) {
        let word = self.next_unknown();
        self.put_number(17, word);
    }
}

fn block_at(ltl: &Ltl, label: u32) -> Option<&Block> {
    let block = ltl.blocks().get(label as usize)?;
    if block.label == label {
        Some(block)
    } else {
        None
    }
}

/// Runs LTL for at most 600 blocks; a function that it calls runs as RTL.
pub fn run_located(
    alloc: Global,
    program: &[RtlPair],
    ltl: &Ltl,
    arguments: &[u32],
    seed: u32,
    world: &mut World,
    open: u32,
) -> Result<Stop, AllocError> {
    let mut places = Places::new(alloc, ltl.slots(), seed, arguments)?;
    let mut label = ltl.entry();
    for _ in 0..600u32 {
        let Some(block) = block_at(ltl, label) else {
            return Ok(Stop::Wrong);
        };
        places.make(block.before.moves());
        let next = step(alloc, program, &block.operation, &mut places, world, open)?;
        places.make(block.after.moves());
        match next {
            Next::To(next) => label = next,
            Next::Stops(stop) => return Ok(stop),
        }
    }
    Ok(Stop::Going)
}

// Executes one operation.
fn step(
    alloc: Global,
    program: &[RtlPair],
    operation: &Operation,
    places: &mut Places,
    world: &mut World,
    open: u32,
) -> Result<Next, AllocError> {
    match operation {
        Operation::Nop { next } => Ok(Next::To(*next)),
        Operation::Const { to, word, next } => Ok(put(places, *to, Some(*word), *next)),
        Operation::Unary {
            operator,
            to,
            from,
            next,
        } => {
            let word = operator.apply(places.get(*from));
            Ok(put(places, *to, Some(word), *next))
        }
        Operation::Binary {
            operator,
            to,
            left,
            right,
            next,
        } => {
            let word = operator.apply(places.get(*left), places.get(*right));
            Ok(put(places, *to, word, *next))
        }
        Operation::Load {
            width,
            object,
            to,
            index,
            next,
        } => {
            let word = world.element(*width, *object, places.get(*index));
            Ok(put(places, *to, word, *next))
        }
        Operation::Store {
            width,
            object,
            index,
            from,
            next,
        } => {
            let (at, word) = (places.get(*index), places.get(*from));
            Ok(world.store(*width, *object, at, word, *next))
        }
        Operation::Call { function, next } => {
            call(alloc, program, *function, places, world, open, *next)
        }
        Operation::Read { next } => {
            let word = world.read();
            places.destroy_for_word();
            places.put_number(10, word);
            Ok(Next::To(*next))
        }
        Operation::Write { next } => {
            world.write(places.number(10))?;
            places.destroy_for_word();
            Ok(Next::To(*next))
        }
        Operation::Branch {
            from,
            if_nonzero,
            if_zero,
        } => Ok(Next::branch(places.get(*from), *if_nonzero, *if_zero)),
        Operation::Return => Ok(Next::Stops(Stop::Ended(places.number(10)))),
    }
}

// Writes a word to a register, if there is a word.
fn put(places: &mut Places, to: Register, word: Option<u32>, next: u32) -> Next {
    match word {
        Some(word) => {
            places.put(to, word);
            Next::To(next)
        }
        None => Next::Stops(Stop::Wrong),
    }
}

fn call(
    alloc: Global,
    program: &[RtlPair],
    function: u32,
    places: &mut Places,
    world: &mut World,
    open: u32,
    next: u32,
) -> Result<Next, AllocError> {
    let Some(callee) = program.get(function as usize) else {
        return Ok(Next::Stops(Stop::Wrong));
    };
    if open == 0 {
        return Ok(Next::Stops(Stop::Wrong));
    }
    let mut words = Vec::new(alloc);
    for number in 0..callee.code().parameters() {
        words.push(places.number((number as usize).saturating_add(10)))?;
    }
    match run_graph(alloc, program, function, words.as_slice(), world, open - 1)? {
        Stop::Ended(word) => {
            places.destroy_for_call();
            places.put_number(10, word);
            Ok(Next::To(next))
        }
        stop => Ok(Next::Stops(stop)),
    }
}
