// What is watched in a run.

use cc_syntax::Identifier;
use std::alloc::{AllocError, Global};

/// A call has at most this many arguments: no function has more parameters.
const MOST_ARGUMENTS: usize = 8;

/// The arguments of a call.
#[derive(Clone, Copy)]
pub struct Arguments {
    words: [u32; 8],
    count: usize,
}

impl Arguments {
    /// Keeps these words, at most the first eight of them.
    pub fn of(given: &[u32]) -> Arguments {
        let mut words = [0u32; 8];
        for (place, word) in words.iter_mut().zip(given) {
            *place = *word;
        }
        Arguments {
            words,
            count: given.len().min(MOST_ARGUMENTS),
        }
    }

    pub fn words(&self) -> &[u32] {
        self.words.get(..self.count).unwrap_or(&[])
    }
}

/// Something that a run does, with the offset in the text at which it does so; for a name, the offset of the name.
#[derive(Clone, Copy)]
pub enum Event<'a> {
    /// A function is called.
    Call(usize, &'a Identifier, Arguments),
    /// A turn of a loop begins.
    Turn(usize),
    /// A variable gets a word.
    Set(&'a Identifier, u32),
    /// The element at an index gets a word.
    SetElement(&'a Identifier, u32, u32),
    /// A word of the input is read.
    Read(usize, u32),
    /// A word is written.
    Write(usize, u32),
}

/// How often each instruction ran, and how often each function was entered.
#[derive(Drop)]
pub struct Counts {
    pub instructions: Vec<u64>,
    pub functions: Vec<u64>,
}

impl Counts {
    /// The counts of this many instructions and functions, before any run.
    pub fn new(alloc: Global, instructions: usize, functions: usize) -> Result<Counts, AllocError> {
        Ok(Counts {
            instructions: zeros(alloc, instructions)?,
            functions: zeros(alloc, functions)?,
        })
    }

    /// The counts of no instruction and no function.
    pub fn nothing(alloc: Global) -> Counts {
        Counts {
            instructions: Vec::new(alloc),
            functions: Vec::new(alloc),
        }
    }
}

fn zeros(alloc: Global, count: usize) -> Result<Vec<u64>, AllocError> {
    let mut counts = Vec::with_capacity(alloc, count)?;
    for _ in 0..count {
        counts.push(0u64)?;
    }
    Ok(counts)
}

/// What is kept of a run: the newest events, up to a number, and how often each instruction ran. Memory for these is allocated before the
/// run.
#[derive(Drop)]
pub struct Watch<'a> {
    events: Vec<Event<'a>>,
    most: usize,
    seen: u64,
    counts: Counts,
}

impl<'a> Watch<'a> {
    /// A watch that keeps nothing.
    pub fn nothing(alloc: Global) -> Watch<'a> {
        Watch {
            events: Vec::new(alloc),
            most: 0,
            seen: 0,
            counts: Counts::nothing(alloc),
        }
    }

    /// A watch that keeps the newest events, up to this many.
    pub fn newest(alloc: Global, most: usize) -> Result<Watch<'a>, AllocError> {
        Ok(Watch {
            events: Vec::with_capacity(alloc, most)?,
            most,
            seen: 0,
            counts: Counts::nothing(alloc),
        })
    }

    /// A watch that goes on with these counts, and keeps no events.
    pub fn counting(alloc: Global, counts: Counts) -> Watch<'a> {
        Watch {
            events: Vec::new(alloc),
            most: 0,
            seen: 0,
            counts,
        }
    }

    /// Notes an event; the oldest event is dropped if there are too many.
    pub(crate) fn note(&mut self, event: Event<'a>) {
        if self.most == 0 {
            return;
        }
        let place = (self.seen % self.most as u64) as usize;
        self.seen = self.seen.saturating_add(1);
        match self.events.get_mut(place) {
            Some(old) => *old = event,
            // The events do not fill the allocated memory yet.
            None => drop(self.events.push(event)),
        }
    }

    /// Counts an instruction.
    pub(crate) fn count(&mut self, number: usize) {
        if let Some(count) = self.counts.instructions.get_mut(number) {
            *count = count.saturating_add(1);
        }
    }

    /// Counts that a function is entered.
    pub(crate) fn enter(&mut self, number: usize) {
        if let Some(count) = self.counts.functions.get_mut(number) {
            *count = count.saturating_add(1);
        }
    }

    /// How many events came before the ones that are kept.
    pub fn forgotten(&self) -> u64 {
        self.seen.saturating_sub(self.events.len() as u64)
    }

    /// How many events are kept.
    pub fn kept(&self) -> usize {
        self.events.len()
    }

    /// The event with this number, from 0 for the oldest that is kept.
    pub fn event(&self, number: usize) -> Option<Event<'a>> {
        if self.most == 0 {
            return None;
        }
        let oldest = (self.forgotten() % self.most as u64) as usize;
        let place = oldest.checked_add(number)? % self.most;
        self.events.get(place).copied()
    }

    /// What was counted.
    pub fn into_counts(self) -> Counts {
        let Watch {
            events,
            most: _,
            seen: _,
            counts,
        } = self;
        drop(events);
        counts
    }
}
