// Rows of bits, 64 to a word. A bit past a row's end is clear, and setting it does nothing.

use std::alloc::{AllocError, Global};

/// Whether a bit of a row is set.
pub fn has_bit(row: &[u64], bit: u32) -> bool {
    match row.get(bit as usize / 64) {
        Some(word) => word >> (bit % 64) & 1 == 1,
        None => false,
    }
}

/// Sets a bit of a row.
pub fn set_bit(row: &mut [u64], bit: u32) {
    if let Some(word) = row.get_mut(bit as usize / 64) {
        *word |= 1 << (bit % 64);
    }
}

/// The lowest clear bit below a limit.
pub fn first_clear(row: &[u64], limit: u16) -> Option<u16> {
    for bit in 0..limit {
        if !has_bit(row, u32::from(bit)) {
            return Some(bit);
        }
    }
    None
}

/// A symmetric matrix of bits: one row for each number, and bit b of row a is always bit a of row b.
#[derive(Drop)]
pub struct Matrix {
    words: usize,
    rows: Vec<u64>,
}

impl Matrix {
    /// A matrix with all bits clear. `count` should be at most 65,536; if it is more, no bit can be set.
    pub fn new(alloc: Global, count: u32) -> Result<Matrix, AllocError> {
        let words = if count <= 65_536 {
            (count as usize).div_ceil(64)
        } else {
            0
        };
        let rows = vec![in alloc; 0; words.saturating_mul(count as usize)]?;
        Ok(Matrix { words, rows })
    }

    /// The row of a number.
    pub fn row(&self, at: u32) -> &[u64] {
        let first = self.words.saturating_mul(at as usize);
        let end = first.saturating_add(self.words);
        self.rows.get(first..end).unwrap_or(&[])
    }

    /// Sets the bits of two numbers, each in the other's row.
    pub fn put(&mut self, a: u32, b: u32) {
        self.put_one(a, b);
        self.put_one(b, a);
    }

    fn put_one(&mut self, a: u32, b: u32) {
        let word = b as usize / 64;
        let at = self.words.saturating_mul(a as usize).saturating_add(word);
        if word < self.words
            && let Some(word) = self.rows.get_mut(at)
        {
            *word |= 1 << (b % 64);
        }
    }
}
