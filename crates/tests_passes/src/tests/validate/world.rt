// What an interpreter shares with the functions that it calls: one object of words, the input, and the output.

use cc_words::Width;
use std::alloc::{AllocError, Global};

/// How a run ends.
#[derive(Clone, Copy, PartialEq, Eq)]
pub enum Stop {
    Ended(u32),
    Wrong,
    Going,
}

/// The node or block that a run goes to, or how the run ends.
#[derive(Clone, Copy)]
pub enum Next {
    To(u32),
    Stops(Stop),
}

impl Next {
    /// Where a branch on this word leads.
    pub fn branch(word: u32, if_nonzero: u32, if_zero: u32) -> Next {
        Next::To(if word == 0 { if_zero } else { if_nonzero })
    }
}

#[derive(Drop)]
pub struct World {
    object: Vec<u32>,
    seed: u32,
    taken: u32,
    output: Vec<u32>,
}

// Some word, chosen by a seed and a number.
fn word(seed: u32, number: u32) -> u32 {
    if seed == 0 {
        number
    } else {
        seed.wrapping_mul(number.wrapping_add(1)) % 7
    }
}

impl World {
    /// A world whose object has `words` words; the seed chooses them, and the words of the input.
    pub fn new(alloc: Global, words: u32, seed: u32) -> Result<World, AllocError> {
        let mut object = Vec::new(alloc);
        for number in 0..words {
            object.push(word(seed, number))?;
        }
        Ok(World {
            object,
            seed,
            taken: 0,
            output: Vec::new(alloc),
        })
    }

    /// An element; `None` if there is no such element, or if the access has another width.
    pub fn element(&self, width: Width, object: u32, index: u32) -> Option<u32> {
        match width {
            Width::Word if object == 0 => self.object.as_slice().get(index as usize).copied(),
            _ => None,
        }
    }

    /// Sets an element and goes on to `next`. Wrong if there is no such element, or if the access has another width.
    pub fn store(&mut self, width: Width, object: u32, index: u32, word: u32, next: u32) -> Next {
        if object != 0 || matches!(width, Width::Byte) {
            return Next::Stops(Stop::Wrong);
        }
        match self.object.as_mut_slice().get_mut(index as usize) {
            Some(element) => {
                *element = word;
                Next::To(next)
            }
            None => Next::Stops(Stop::Wrong),
        }
    }

    pub fn read(&mut self) -> u32 {
        self.taken = self.taken.wrapping_add(1);
        word(self.seed, self.taken)
    }

    pub fn write(&mut self, word: u32) -> Result<(), AllocError> {
        self.output.push(word)?;
        Ok(())
    }

    /// Whether two worlds have the same object and output, and have taken the same number of input words.
    pub fn is_same(&self, other: &World) -> bool {
        self.taken == other.taken
            && self.object.as_slice() == other.object.as_slice()
            && self.output.as_slice() == other.output.as_slice()
    }
}
