// Live sets as rows of bits.

use cc_live::{Liveness, RegisterSet};

/// The pseudo-registers that are live before each node. What lies past a row's end, or past the last row, is not live.
#[derive(Clone, Copy)]
pub struct Live<'a> {
    words: usize,
    sets: &'a [RegisterSet],
}

impl<'a> Live<'a> {
    /// The live sets of a function's nodes, in the order of the nodes.
    pub fn of(live: &'a Liveness) -> Live<'a> {
        let sets = live.as_slice();
        let mut words = 0;
        for set in sets {
            words = words.max(set.words().len());
        }
        Live { words, sets }
    }

    /// The number of words in the longest row.
    pub fn words(self) -> usize {
        self.words
    }

    /// One word of a node's row.
    pub fn word(self, node: usize, word: usize) -> u64 {
        match self.sets.get(node) {
            Some(set) => set.words().get(word).copied().unwrap_or(0),
            None => 0,
        }
    }
}
