// An image: the words of a program and of its data.

ghost use Rattle.std.specs.Prelude.{◌≡◌, ◌≤◌, ◌<◌, ◌↔◌, length, IsOk, MatchResult};

use std::marker::Model;

/// An image has at most this many words of code.
pub const MOST_CODE: usize = 131_072;

/// An image has at most this many words of globals.
pub const MOST_GLOBALS: usize = 65_536;

/// The code of an image: 1 to 131,072 words. A clause sees their list.
pub struct Code {
    words: Vec<u32>,
}

// This is written by hand, so that the crates above use this proof and need not show again how each part is dropped.
impl Drop for Code {
    fn drop(self) {
        let Code { words } = self;
    }
}

impl Model for Code {
    ghost use Rattle.std.specs.Prelude.{ℕ, List, length, ◌≤◌};

    ghost Value = { List ℕ };

    ghost view = { λ c. c.words.items };

    ghost invariant = { λ c. (1 ≤ length c.words.items) × (length c.words.items ≤ 131072) };
}

impl Code {
    /// Makes code of these words. Returns the words in an `Err` if there is no word or there are more than 131,072. Takes no
    /// memory.
    pub fn new(words: Vec<u32>) -> Result<Self, Vec<u32>>
        ensures fits { IsOk result ↔ ((1 ≤ length words.items) × (length words.items ≤ 131072)) }
        ensures hands_back { MatchResult result (λ code. code ≡ words.items) (λ back. back ≡ words) }
    {
        if words.is_empty() || words.len() > MOST_CODE {
            return Err(words);
        }
        Ok(Code { words })
    }

    /// The words, in order of address.
    pub fn words(&self) -> &[u32]
        ensures words { result.now ≡ self.now }
        ensures some { 1 ≤ length self.now }
        ensures few { length self.now ≤ 131072 }
    {
        self.words.as_slice()
    }

    /// Consumes the code and returns its words.
    pub fn into_words(self) -> Vec<u32>
        ensures { result.items ≡ self }
    {
        let Code { words } = self;
        words
    }
}

/// The globals of an image: at most 65,536 words. A clause sees their list.
pub struct Globals {
    words: Vec<u32>,
}

// This is written by hand, so that the crates above use this proof and need not show again how each part is dropped.
impl Drop for Globals {
    fn drop(self) {
        let Globals { words } = self;
    }
}

impl Model for Globals {
    ghost use Rattle.std.specs.Prelude.{ℕ, List, length, ◌≤◌};

    ghost Value = { List ℕ };

    ghost view = { λ g. g.words.items };

    ghost invariant = { λ g. length g.words.items ≤ 65536 };
}

impl Globals {
    /// Makes globals of these words. Returns the words in an `Err` if there are more than 65,536. Takes no memory.
    pub fn new(words: Vec<u32>) -> Result<Self, Vec<u32>>
        ensures fits { IsOk result ↔ (length words.items ≤ 65536) }
        ensures hands_back { MatchResult result (λ globals. globals ≡ words.items) (λ back. back ≡ words) }
    {
        if words.len() > MOST_GLOBALS {
            return Err(words);
        }
        Ok(Globals { words })
    }

    /// The words, in order of address.
    pub fn words(&self) -> &[u32]
        ensures words { result.now ≡ self.now }
        ensures few { length self.now ≤ 65536 }
    {
        self.words.as_slice()
    }

    /// Consumes the globals and returns their words.
    pub fn into_words(self) -> Vec<u32>
        ensures { result.items ≡ self }
    {
        let Globals { words } = self;
        words
    }
}

/// A program for the machine: its code, from 0x00010000 on, and the initial words of its globals, from 0x00200000 on. The globals
/// after these begin as 0.
#[derive(Drop)]
pub struct Image {
    pub code: Code,
    pub globals: Globals,
}
