// A small interpreter of RTL.

use super::world::{Next, Stop, World};
use cc_rtl::{Node, RtlPair};
use std::alloc::{AllocError, Global};

/// The words of registers: 0 for each register that was never written.
#[derive(Drop)]
struct Registers {
    words: Vec<u32>,
}

impl Registers {
    fn get(&self, register: u32) -> u32 {
        match self.words.as_slice().get(register as usize) {
            Some(word) => *word,
            None => 0,
        }
    }

    fn put(&mut self, register: u32, word: u32) -> Result<(), AllocError> {
        for _ in self.words.len()..(register as usize).saturating_add(1) {
            self.words.push(0)?;
        }
        if let Some(place) = self.words.as_mut_slice().get_mut(register as usize) {
            *place = word;
        }
        Ok(())
    }
}

/// Runs a function for at most 600 nodes, with at most `open` open calls.
#[cycle(graphs)]
pub fn run_graph(
    alloc: Global,
    program: &[RtlPair],
    function: u32,
    arguments: &[u32],
    world: &mut World,
    open: u32,
) -> Result<Stop, AllocError> {
    let Some(pair) = program.get(function as usize) else {
        return Ok(Stop::Wrong);
    };
    let rtl = pair.code();
    let mut registers = Registers {
        words: Vec::from_slice(alloc, arguments)?,
    };
    let mut label = rtl.entry();
    for _ in 0..600u32 {
        let Some(node) = rtl.at(label as usize) else {
            return Ok(Stop::Wrong);
        };
        match step(alloc, program, node, &mut registers, world, open)? {
            Next::To(next) => label = next,
            Next::Stops(stop) => return Ok(stop),
        }
    }
    Ok(Stop::Going)
}

// Executes one node.
#[cycle(graphs)]
fn step(
    alloc: Global,
    program: &[RtlPair],
    node: &Node,
    registers: &mut Registers,
    world: &mut World,
    open: u32,
) -> Result<Next, AllocError> {
    match node {
        Node::Nop { next } => Ok(Next::To(*next)),
        Node::Const { to, word, next } => put(registers, *to, Some(*word), *next),
        Node::Move { to, from, next } => {
            let word = registers.get(*from);
            put(registers, *to, Some(word), *next)
        }
        Node::Unary {
            operator,
            to,
            from,
            next,
        } => {
            let word = operator.apply(registers.get(*from));
            put(registers, *to, Some(word), *next)
        }
        Node::Binary {
            operator,
            to,
            left,
            right,
            next,
        } => {
            let word = operator.apply(registers.get(*left), registers.get(*right));
            put(registers, *to, word, *next)
        }
        Node::Load {
            width,
            object,
            to,
            index,
            next,
        } => {
            let word = world.element(*width, *object, registers.get(*index));
            put(registers, *to, word, *next)
        }
        Node::Store {
            width,
            object,
            index,
            from,
            next,
        } => {
            let (at, word) = (registers.get(*index), registers.get(*from));
            Ok(world.store(*width, *object, at, word, *next))
        }
        Node::Call {
            function,
            arguments,
            to,
            next,
        } => {
            if open == 0 {
                return Ok(Next::Stops(Stop::Wrong));
            }
            let mut words = Vec::new(alloc);
            for argument in arguments.as_slice() {
                words.push(registers.get(*argument))?;
            }
            match run_graph(alloc, program, *function, words.as_slice(), world, open - 1)? {
                Stop::Ended(word) => match to {
                    Some(to) => put(registers, *to, Some(word), *next),
                    None => Ok(Next::To(*next)),
                },
                stop => Ok(Next::Stops(stop)),
            }
        }
        Node::Read { to, next } => {
            let word = world.read();
            put(registers, *to, Some(word), *next)
        }
        Node::Write { from, next } => {
            world.write(registers.get(*from))?;
            Ok(Next::To(*next))
        }
        Node::Branch {
            from,
            if_nonzero,
            if_zero,
        } => Ok(Next::branch(registers.get(*from), *if_nonzero, *if_zero)),
        Node::Return { from } => Ok(Next::Stops(Stop::Ended(registers.get(*from)))),
    }
}

// Writes a word to a register, if there is a word.
fn put(
    registers: &mut Registers,
    to: u32,
    word: Option<u32>,
    next: u32,
) -> Result<Next, AllocError> {
    match word {
        Some(word) => {
            registers.put(to, word)?;
            Ok(Next::To(next))
        }
        None => Ok(Next::Stops(Stop::Wrong)),
    }
}
