// The outcome of a run.

ghost use Rattle.std.specs.Prelude.{◌≡◌};

use cc_c_semantics::Cause;
use std::marker::Model;

/// How a run stops.
#[derive(Clone, Copy, PartialEq, Eq, Debug)]
pub enum Stop {
    /// No step was left.
    Going,
    /// `main` ended with this word.
    Ended(u32),
    /// The program went wrong.
    Wrong(Cause),
}

/// A list of words.
pub struct Words {
    words: Vec<u32>,
}

// Written by hand, so that the crates above use this proof instead of showing again how each part is dropped.
impl Drop for Words {
    fn drop(self) {
        let Words { words } = self;
    }
}

impl Model for Words {
    ghost use Rattle.std.specs.Prelude.{List, ℕ};

    ghost Value = { List ℕ };

    ghost view = { λ w. w.words.items };
}

impl Words {
    /// Makes a list from a vector's words. Takes no memory.
    pub fn from_vec(items: Vec<u32>) -> Words
        ensures { result ≡ items.items }
    {
        Words { words: items }
    }

    /// The words.
    pub fn as_slice(&self) -> &[u32]
        ensures { result.now ≡ self.now }
    {
        self.words.as_slice()
    }

    /// Returns the vector that contains the words. Takes no memory.
    pub fn into_vec(self) -> Vec<u32>
        ensures { result.items ≡ self }
    {
        let Words { words } = self;
        words
    }
}

/// What a run does that can be seen from outside.
#[derive(Clone, Copy, PartialEq, Eq, Debug)]
pub enum Event {
    /// It reads the next word of its input, or 0 past the input's end.
    Read,
    /// It writes this word.
    Wrote(u32),
}

/// A list of events.
pub struct Events {
    events: Vec<Event>,
}

// Written by hand, for the same reason.
impl Drop for Events {
    fn drop(self) {
        let Events { events } = self;
    }
}

impl Model for Events {
    ghost use Rattle.std.specs.Prelude.{List};
    ghost use Rattle.cc_meaning.specs.declared.outcome.Event.{Event};

    ghost Value = { List Event };

    ghost view = { λ e. e.events.items };
}

impl Events {
    /// Makes a list from a vector's events. Takes no memory.
    pub fn from_vec(items: Vec<Event>) -> Events
        ensures { result ≡ items.items }
    {
        Events { events: items }
    }

    /// The events, in the order in which they came.
    pub fn as_slice(&self) -> &[Event]
        ensures { result.now ≡ self.now }
    {
        self.events.as_slice()
    }
}

/// How a run stops, and what it read and wrote until then, in order.
#[derive(Drop)]
pub struct Observed {
    pub stop: Stop,
    pub events: Events,
}

/// How a run stops, and the words that it wrote until then.
#[derive(Drop)]
pub struct Outcome {
    pub stop: Stop,
    pub output: Words,
}

/// What a run did that may write only so many words, and whether it was stopped before it wrote more.
#[derive(Drop)]
pub struct BoundedOutcome {
    pub outcome: Outcome,
    pub is_cut: bool,
}
