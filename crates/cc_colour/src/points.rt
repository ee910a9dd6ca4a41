// Points. A point is a pseudo-register before a node at which it is live; its number is the number of set bits before its own in
// the rows.

use crate::live::Live;
use std::alloc::{AllocError, Global};

/// The points of a function: for each node the number of its first point, and at the end the number of all points.
#[derive(Drop)]
pub struct Points {
    firsts: Vec<usize>,
}

impl Points {
    /// The points of this many nodes. `Err` if memory runs out.
    pub fn of(alloc: Global, nodes: usize, live: Live<'_>) -> Result<Points, AllocError> {
        let mut firsts = Vec::with_capacity(alloc, nodes.saturating_add(1))?;
        let mut count = 0usize;
        for node in 0..nodes {
            firsts.push(count)?;
            for word in 0..live.words() {
                count = count.saturating_add(ones(live.word(node, word)));
            }
        }
        firsts.push(count)?;
        Ok(Points { firsts })
    }

    /// The number of points.
    pub fn count(&self) -> usize {
        self.firsts.last().copied().unwrap_or(0)
    }

    /// The first point of a node; after the last node, the number of all points.
    pub fn first(&self, node: usize) -> usize {
        self.firsts.get(node).copied().unwrap_or(usize::MAX)
    }

    /// The point of a register that is live before a node.
    pub fn point(&self, live: Live<'_>, node: usize, register: u32) -> Option<usize> {
        let place = register as usize / 64;
        let bits = live.word(node, place);
        let bit = 1u64 << (register % 64);
        if bits & bit == 0 {
            return None;
        }
        let mut point = self.first(node);
        for word in 0..place.min(live.words()) {
            point = point.saturating_add(ones(live.word(node, word)));
        }
        Some(point.saturating_add(ones(bits & bit.wrapping_sub(1))))
    }

    /// Fills a list with pairs of points: those of each register that is live before both nodes, except one register. `Err` if
    /// memory runs out.
    pub fn common(
        &self,
        live: Live<'_>,
        node: usize,
        behind: usize,
        but: Option<u32>,
        into: &mut Vec<(usize, usize)>,
    ) -> Result<(), AllocError> {
        into.clear();
        let mut row = Row {
            first: self.first(node),
            bits: 0,
        };
        let mut other = Row {
            first: self.first(behind),
            bits: 0,
        };
        for word in 0..live.words() {
            row.bits = live.word(node, word);
            other.bits = live.word(behind, word);
            add_common(&mut row, &mut other, !bit_in(but, word), into)?;
        }
        Ok(())
    }
}

// One word of a row, and the point of its first bit.
#[derive(Clone, Copy)]
struct Row {
    first: usize,
    bits: u64,
}

impl Row {
    // The first point past a bit of the word: the next point if the bit is set, else the same one.
    fn past(self, bit: u64) -> usize {
        if self.bits & bit == 0 {
            self.first
        } else {
            self.first.saturating_add(1)
        }
    }
}

fn ones(word: u64) -> usize {
    word.count_ones() as usize
}

// The bit of a register in one word of a row.
fn bit_in(register: Option<u32>, word: usize) -> u64 {
    match register {
        Some(register) if register as usize / 64 == word => 1 << (register % 64),
        _ => 0,
    }
}

// Adds the points of the bits that two words have in common, and advances past all points of both.
fn add_common(
    row: &mut Row,
    other: &mut Row,
    mask: u64,
    into: &mut Vec<(usize, usize)>,
) -> Result<(), AllocError> {
    let common = row.bits & other.bits & mask;
    let mut rest = row.bits | other.bits;
    for _ in 0..64 {
        if rest == 0 {
            break;
        }
        let bit = rest & rest.wrapping_neg();
        if common & bit != 0 {
            into.push((row.first, other.first))?;
        }
        row.first = row.past(bit);
        other.first = other.past(bit);
        rest &= rest.wrapping_sub(1);
    }
    Ok(())
}
