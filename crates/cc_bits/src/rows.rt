// Rows of bits, all of one width, one after the other: a set of pairs.

ghost use Rattle.std.specs.Prelude.{◌≡◌, ℕ, ◌+◌, ◌*◌, ◌/◌, ◌<◌, ◌≤◌, ◌==◌, ◌||◌, ◌&&◌, not, false, if◌then◌else◌, IsTrue, IsFalse, IfOk, IfErr};
ghost use Rattle.cc_bits.specs.Rows.{has, most_width, most_rows, column_moved, row_moved};

use crate::row::BitRow;
use std::alloc::{AllocError, Global};
use std::marker::Model;

// A copy has room for this many further rows.
const ROOM: usize = 4;

/// A set of pairs of a row and a column. Contracts see the number of words in a row, and all words.
#[derive(Drop)]
pub struct BitRows {
    alloc: Global,
    // The number of words in a row.
    width: usize,
    // From this row on there are no words.
    rows: usize,
    bits: BitRow,
}

impl Model for BitRows {
    ghost use Rattle.cc_bits.specs.Rows.{Table, AreRows};

    ghost Value = { Table };

    ghost view = { λ t. record { width = t.width; words = t.bits } };

    ghost invariant = { λ t. AreRows t.width t.rows t.bits };
}

impl BitRows {
    /// The empty set. It takes no memory.
    pub fn new(alloc: Global) -> BitRows
        ensures { (r c : ℕ) → has result r c ≡ false }
    {
        BitRows {
            alloc,
            width: 0,
            rows: 0,
            bits: BitRow::new(alloc),
        }
    }

    /// The number of rows for which there may be words: no bit is set in the row with this number, nor in any later row.
    pub fn rows(&self) -> usize
        ensures few { result ≤ most_rows }
        ensures past { (r c : ℕ) → result ≤ r → has self.now r c ≡ false }
    {
        self.rows
    }

    /// The number of columns for which the rows have room.
    pub fn columns(&self) -> usize
        ensures few { result ≤ 64 * most_width }
        ensures past { (r c : ℕ) → result ≤ c → has self.now r c ≡ false }
    {
        64 * self.width
    }

    /// Whether the bit in row `r` and column `c` is set.
    pub fn contains(&self, r: usize, c: usize) -> bool
        requires { r < most_rows }
        ensures { result ≡ has self.now r c }
    {
        c < 64 * self.width && self.bits.contains(64 * (self.width * r) + c)
    }

    /// Sets the bit in row `r` and column `c`. If memory runs out, the bits stay as they were.
    pub fn insert(&mut self, r: usize, c: usize) -> Result<(), AllocError>
        requires row { r < most_rows }
        requires column { c < 64 * most_width }
        ensures added { IfOk result (λ _. (i j : ℕ) → has self.new i j ≡ ((r == i && c == j) || has self.old i j)) }
        ensures leaves { IfErr result (λ _. (i j : ℕ) → has self.new i j ≡ has self.old i j) }
    {
        if c >= 64 * self.width {
            let wide = self.widened(c / 64 + 1)?;
            *self = wide;
        }
        self.put(r, c)
    }

    /// Sets the bit in row `r` and column `c`, for which the rows have room. If memory runs out, the bits stay as they were.
    fn put(&mut self, r: usize, c: usize) -> Result<(), AllocError>
        requires row { r < most_rows }
        requires column { c < 64 * self.old.width }
        ensures added { IfOk result (λ _. (i j : ℕ) → has self.new i j ≡ ((r == i && c == j) || has self.old i j)) }
        ensures width { self.new.width ≡ self.old.width }
        ensures leaves { IfErr result (λ _. self.new ≡ self.old) }
    {
        self.bits.insert(64 * (self.width * r) + c)?;
        self.rows = greater(self.rows, r + 1);
        Ok(())
    }

    /// Clears the bit in row `r` and column `c`.
    pub fn remove(&mut self, r: usize, c: usize)
        requires { r < most_rows }
        ensures { (i j : ℕ) → has self.new i j ≡ (has self.old i j && not (r == i && c == j)) }
    {
        if c < 64 * self.width {
            self.bits.remove(64 * (self.width * r) + c);
        }
    }

    /// A copy with rows of at least `width` words, and with memory for some further rows if they need not be widened. Fails if
    /// memory ran out.
    pub fn copy(&self, width: usize) -> Result<BitRows, AllocError>
        requires { width ≤ most_width }
        ensures { IfOk result (λ made. (r c : ℕ) → has made r c ≡ has self.now r c) }
    {
        if self.width < width {
            return self.widened(width);
        }
        Ok(BitRows {
            alloc: self.alloc,
            width: self.width,
            rows: self.rows,
            bits: self.bits.copy_with_room(self.alloc, ROOM * self.width)?,
        })
    }

    /// A copy with wider rows.
    fn widened(&self, width: usize) -> Result<BitRows, AllocError>
        requires wider { self.now.width ≤ width }
        requires most { width ≤ most_width }
        ensures same { IfOk result (λ made. (r c : ℕ) → has made r c ≡ has self.now r c) }
        ensures width { IfOk result (λ made. made.width ≡ width) }
    {
        let mut made = BitRows {
            alloc: self.alloc,
            width,
            rows: 0,
            bits: BitRow::with_room(self.alloc, width * self.rows())?,
        };
        for r in 0..self.rows() {
            self.put_row(r, &mut made)?;
        }
        Ok(made)
    }

    /// Sets the bits of one row in another table, whose rows are at least as wide.
    fn put_row(&self, r: usize, into: &mut BitRows) -> Result<(), AllocError>
        requires row { r < most_rows }
        requires wider { self.now.width ≤ into.old.width }
        ensures put { IfOk result (λ _. (i j : ℕ) → has into.new i j ≡ (has into.old i j || (r == i && has self.now r j))) }
        ensures width { into.new.width ≡ into.old.width }
    {
        for c in 0..64 * self.width {
            if self.contains(r, c) {
                into.put(r, c)?;
            }
        }
        Ok(())
    }

    /// In each row, moves the bit of column `from` to column `to`. If memory runs out, some bits may have moved, and one may
    /// be missing.
    pub fn move_column(&mut self, from: usize, to: usize) -> Result<(), AllocError>
        requires { to < 64 * most_width }
        ensures { IfOk result (λ _. (r c : ℕ) → has self.new r c ≡ column_moved from to (has self.old) r c) }
    {
        if to >= 64 * self.width {
            let wide = self.widened(to / 64 + 1)?;
            *self = wide;
        }
        self.move_within(from, to)
    }

    /// In each row, moves the bit of column `from` to column `to`, for which the rows have room.
    fn move_within(&mut self, from: usize, to: usize) -> Result<(), AllocError>
        requires { to < 64 * self.old.width }
        ensures { IfOk result (λ _. (r c : ℕ) → has self.new r c ≡ column_moved from to (has self.old) r c) }
    {
        if from >= 64 * self.width {
            return Ok(());
        }
        self.bits.move_column(self.width, from, to)?;
        Ok(())
    }

    /// Moves the bits of row `from` to row `to`. If memory runs out, some bits may have moved, and some may be missing.
    pub fn move_row(&mut self, from: usize, to: usize) -> Result<(), AllocError>
        requires from { from < most_rows }
        requires to { to < most_rows }
        ensures { IfOk result (λ _. (r c : ℕ) → has self.new r c ≡ row_moved from to (has self.old) r c) }
    {
        for k in 0..self.width {
            self.move_word(from, to, k)?;
        }
        Ok(())
    }

    /// Moves the bits of word `k` of row `from` to row `to`. If memory runs out, they may be missing.
    fn move_word(&mut self, from: usize, to: usize, k: usize) -> Result<(), AllocError>
        requires from { from < most_rows }
        requires to { to < most_rows }
        requires word { k < self.old.width }
        ensures moved { IfOk result (λ _. (r c : ℕ) → has self.new r c ≡ (if k == c / 64 then row_moved from to (has self.old) r c else has self.old r c)) }
        ensures width { self.new.width ≡ self.old.width }
    {
        let word = self.bits.word(self.width * from + k);
        if word == 0 {
            return Ok(());
        }
        self.bits.clear_word(self.width * from + k);
        self.bits.put_word(self.width * to + k, word)?;
        self.rows = greater(self.rows, to + 1);
        Ok(())
    }

    /// Whether no bit is set in a row.
    pub fn is_row_empty(&self, r: usize) -> bool
        requires { r < most_rows }
        ensures empty { IsTrue result → (c : ℕ) → has self.now r c ≡ false }
        ensures held { IsFalse result → (c : ℕ) × IsTrue (has self.now r c) }
    {
        for k in 0..self.width {
            if self.bits.word(self.width * r + k) != 0 {
                return false;
            }
        }
        true
    }

    /// Whether no bit is set in a column.
    pub fn is_column_empty(&self, c: usize) -> bool
        ensures empty { IsTrue result → (r : ℕ) → has self.now r c ≡ false }
        ensures held { IsFalse result → (r : ℕ) × IsTrue (has self.now r c) }
    {
        for r in 0..self.rows() {
            if self.contains(r, c) {
                return false;
            }
        }
        true
    }

    /// Sets all bits that are set in another table, and returns whether any of them was missing. If memory runs out, the bits
    /// stay as they were.
    pub fn join(&mut self, other: &BitRows) -> Result<bool, AllocError>
        ensures both { IfOk result (λ _. (r c : ℕ) → has self.new r c ≡ (has self.old r c || has other.now r c)) }
        ensures unchanged { IfOk result (λ rose. IsFalse rose → (r c : ℕ) → has self.new r c ≡ has self.old r c) }
        ensures rises { IfOk result (λ rose. IsTrue rose → (r c : ℕ) × IsTrue (has other.now r c) × IsFalse (has self.old r c)) }
        ensures leaves { IfErr result (λ _. (r c : ℕ) → has self.new r c ≡ has self.old r c) }
    {
        self.take_width(other.width);
        if self.width == other.width {
            return self.join_same(other);
        }
        self.join_wider(other)
    }

    /// Changes the width, if there are no words yet.
    fn take_width(&mut self, width: usize)
        requires { width ≤ most_width }
        ensures { (r c : ℕ) → has self.new r c ≡ has self.old r c }
    {
        if self.bits.words().is_empty() {
            self.width = width;
        }
    }

    /// Joins another table whose rows have the same width.
    fn join_same(&mut self, other: &BitRows) -> Result<bool, AllocError>
        requires { self.old.width ≡ other.now.width }
        ensures both { IfOk result (λ _. (r c : ℕ) → has self.new r c ≡ (has self.old r c || has other.now r c)) }
        ensures unchanged { IfOk result (λ rose. IsFalse rose → self.new ≡ self.old) }
        ensures rises { IfOk result (λ rose. IsTrue rose → (r c : ℕ) × IsTrue (has other.now r c) × IsFalse (has self.old r c)) }
        ensures leaves { IfErr result (λ _. self.new ≡ self.old) }
    {
        let _width = other.width;
        let rose = self.bits.join(&other.bits)?;
        self.rows = greater(self.rows, other.rows);
        Ok(rose)
    }

    /// Joins another table whose rows have another width.
    fn join_wider(&mut self, other: &BitRows) -> Result<bool, AllocError>
        ensures both { IfOk result (λ _. (r c : ℕ) → has self.new r c ≡ (has self.old r c || has other.now r c)) }
        ensures unchanged { IfOk result (λ rose. IsFalse rose → (r c : ℕ) → has self.new r c ≡ has self.old r c) }
        ensures rises { IfOk result (λ rose. IsTrue rose → (r c : ℕ) × IsTrue (has other.now r c) × IsFalse (has self.old r c)) }
        ensures leaves { IfErr result (λ _. (r c : ℕ) → has self.new r c ≡ has self.old r c) }
    {
        let width = if self.width < other.width {
            other.width
        } else {
            self.width
        };
        let mut mine = self.widened(width)?;
        let theirs = other.widened(width)?;
        let rose = mine.join_same(&theirs)?;
        *self = mine;
        Ok(rose)
    }
}

/// The greater of two numbers.
fn greater(one: usize, other: usize) -> usize
    ensures one { one ≤ result }
    ensures other { other ≤ result }
    ensures least { (most : ℕ) → one ≤ most → other ≤ most → result ≤ most }
{
    if one < other { other } else { one }
}
