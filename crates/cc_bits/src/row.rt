// One row of bits: a set of numbers.

ghost use Rattle.std.specs.Prelude.{◌≡◌, ℕ, ◌+◌, ◌*◌, ◌/◌, ◌%◌, ◌<◌, ◌≤◌, ◌==◌, ◌||◌, ◌&&◌, not, [], get_or, length, slice_index, IsTrue, IsFalse, IfOk, IfErr};
ghost use Rattle.std.specs.Int.{bit_at};
ghost use Rattle.cc_bits.specs.Rows.{holds, AreRows, moved as moved_of, column_moved, most_words};
ghost use Rattle.cc_bits.specs.internal.Holding.{bit as bit_of};

use smallvec::SmallVec;
use std::alloc::{AllocError, Global};
use std::marker::Model;

// The words of a row. One word is kept in the struct itself, so a set of numbers below 64 takes no memory of its own.
type Words = SmallVec<u64, 1>;

/// A set of numbers. Contracts see its words.
#[derive(Drop)]
pub struct BitRow {
    words: Words,
}

impl Model for BitRow {
    ghost use Rattle.std.specs.Prelude.{List, ℕ, ◌≤◌, length};
    ghost use Rattle.cc_bits.specs.Rows.{most_words};

    ghost Value = { List ℕ };

    ghost view = { λ s. s.words.items };

    ghost invariant = { λ s. length s.words.items ≤ most_words };
}

impl BitRow {
    /// The empty set. It takes no memory.
    pub fn new(alloc: Global) -> BitRow
        ensures { result ≡ [] }
    {
        BitRow {
            words: SmallVec::new(alloc),
        }
    }

    /// The empty set, with memory for exactly this many words. Fails if memory ran out.
    pub(crate) fn with_room(alloc: Global, room: usize) -> Result<BitRow, AllocError>
        ensures { IfOk result (λ made. made ≡ []) }
    {
        Ok(BitRow {
            words: SmallVec::with_capacity(alloc, room)?,
        })
    }

    /// The words of the set: number k is bit k % 64 of word k / 64. Numbers past the last word are not in the set.
    pub fn words(&self) -> &[u64]
        ensures words { result.now ≡ self.now }
        ensures few { length self.now ≤ most_words }
    {
        self.words.as_slice()
    }

    /// The word at an index; 0 past the end.
    pub fn word(&self, at: usize) -> u64
        ensures { result ≡ get_or self.now at 0 }
    {
        word_at(self.words.as_slice(), at)
    }

    /// Whether a number is in the set.
    pub fn contains(&self, k: usize) -> bool
        ensures { result ≡ holds self.now k }
    {
        is_set(word_at(self.words.as_slice(), k / 64), k)
    }

    /// A copy of the set. Fails if memory ran out.
    pub fn copy(&self, alloc: Global) -> Result<BitRow, AllocError>
        ensures { IfOk result (λ made. made ≡ self.now) }
    {
        Ok(BitRow {
            words: SmallVec::from_slice(alloc, self.words.as_slice())?,
        })
    }

    /// A copy of the set, with memory for this many words after its end. Fails if memory ran out.
    pub(crate) fn copy_with_room(&self, alloc: Global, room: usize) -> Result<BitRow, AllocError>
        requires { room ≤ most_words }
        ensures { IfOk result (λ made. made ≡ self.now) }
    {
        let own = self.words.as_slice();
        let mut words = SmallVec::with_capacity(alloc, own.len() + room)?;
        words.extend_from_slice(own)?;
        Ok(BitRow { words })
    }

    /// Adds a number. If memory runs out, the set stays as it was.
    pub fn insert(&mut self, k: usize) -> Result<(), AllocError>
        requires { k / 64 < most_words }
        ensures added { IfOk result (λ _. (i : ℕ) → holds self.new i ≡ (k == i || holds self.old i)) }
        ensures few { (most : ℕ) → length self.old ≤ most → k / 64 < most → length self.new ≤ most }
        ensures leaves { IfErr result (λ _. self.new ≡ self.old) }
    {
        let at = k / 64;
        grow(&mut self.words, at + 1)?;
        self.words[at] |= 1 << (k % 64);
        Ok(())
    }

    /// Removes a number, if it is in the set.
    pub fn remove(&mut self, k: usize)
        ensures removed { (i : ℕ) → holds self.new i ≡ (holds self.old i && not (k == i)) }
        ensures long { length self.new ≡ length self.old }
    {
        let at = k / 64;
        if at < self.words.len() {
            self.words[at] &= !(1 << (k % 64));
        }
    }

    /// In each row of `width` words, moves the bit of column `from` to column `to`. If memory runs out, some rows may have
    /// changed.
    pub(crate) fn move_column(
        &mut self,
        width: usize,
        from: usize,
        to: usize,
    ) -> Result<(), AllocError>
        requires rows { (rows : ℕ) × AreRows width rows self.old }
        requires from { from < 64 * width }
        requires to { to < 64 * width }
        ensures moved { IfOk result (λ _. (r c : ℕ) → bit_of width self.new r c ≡ column_moved from to (bit_of width self.old) r c) }
        ensures few { (rows : ℕ) → length self.old ≤ width * rows → length self.new ≤ width * rows }
    {
        let mut at = from / 64;
        let mut target = to;
        while at < self.words.len() {
            self.move_bit(at, from % 64, target)?;
            at += width;
            target += 64 * width;
        }
        Ok(())
    }

    /// If the number of bit `bit` in word `at` is in the set, replaces it with the number `to`. If memory runs out, the number
    /// may be missing.
    fn move_bit(&mut self, at: usize, bit: usize, to: usize) -> Result<(), AllocError>
        requires at { at < length self.old }
        requires bit { bit < 64 }
        requires to { to / 64 < most_words }
        ensures moved { IfOk result (λ _. (k : ℕ) → holds self.new k ≡ moved_of (64 * at + bit) to (holds self.old) k) }
        ensures few { (most : ℕ) → length self.old ≤ most → to / 64 < most → length self.new ≤ most }
    {
        let word = self.words[at];
        if is_set(word, bit) {
            self.words[at] = word & !(1 << bit);
            self.insert(to)?;
        }
        Ok(())
    }

    /// Removes all numbers that the bits of one word stand for.
    pub(crate) fn clear_word(&mut self, at: usize)
        ensures cleared { (i : ℕ) → holds self.new i ≡ (holds self.old i && not (at == i / 64)) }
        ensures long { length self.new ≡ length self.old }
    {
        if at < self.words.len() {
            self.words[at] = 0;
        }
    }

    /// Adds the numbers that the set bits of `word` stand for, as the word at the index `at`. If memory runs out, the set stays
    /// as it was.
    pub(crate) fn put_word(&mut self, at: usize, word: u64) -> Result<(), AllocError>
        requires { at < most_words }
        ensures put { IfOk result (λ _. (i : ℕ) → holds self.new i ≡ (holds self.old i || (at == i / 64 && bit_at word (i % 64) == 1))) }
        ensures few { (most : ℕ) → length self.old ≤ most → at < most → length self.new ≤ most }
        ensures leaves { IfErr result (λ _. self.new ≡ self.old) }
    {
        grow(&mut self.words, at + 1)?;
        self.words[at] |= word;
        Ok(())
    }

    /// Adds all numbers of another set, and returns whether any of them was missing. If memory runs out, the set stays as it
    /// was.
    pub fn join(&mut self, other: &BitRow) -> Result<bool, AllocError>
        ensures both { IfOk result (λ _. (k : ℕ) → holds self.new k ≡ (holds self.old k || holds other.now k)) }
        ensures unchanged { IfOk result (λ rose. IsFalse rose → self.new ≡ self.old) }
        ensures rises { IfOk result (λ rose. IsTrue rose → (k : ℕ) × IsTrue (holds other.now k) × IsFalse (holds self.old k)) }
        ensures few { (most : ℕ) → length self.old ≤ most → length other.now ≤ most → length self.new ≤ most }
        ensures leaves { IfErr result (λ _. self.new ≡ self.old) }
    {
        if lies_within(other.words.as_slice(), self.words.as_slice()) {
            return Ok(false);
        }
        put_words(&mut self.words, other.words.as_slice())?;
        Ok(true)
    }
}

/// Whether the bit of a number is set in its word.
fn is_set(word: u64, k: usize) -> bool
    ensures { result ≡ (bit_at word (k % 64) == 1) }
{
    (word >> (k % 64)) & 1 == 1
}

/// The word of a row at an index; 0 past its end.
fn word_at(words: &[u64], at: usize) -> u64
    ensures { result ≡ slice_index words.now at }
{
    match words.get(at) {
        Some(word) => *word,
        None => 0,
    }
}

/// Makes a row at least `least` words long. If memory runs out, the row stays as it was.
fn grow(words: &mut Words, least: usize) -> Result<(), AllocError>
    ensures same { (k : ℕ) → slice_index words.new.items k ≡ slice_index words.old.items k }
    ensures long { IfOk result (λ _. least ≤ length words.new.items) }
    ensures few { (most : ℕ) → length words.old.items ≤ most → least ≤ most → length words.new.items ≤ most }
    ensures leaves { IfErr result (λ _. words.new.items ≡ words.old.items) }
{
    if words.len() < least {
        words.resize(least, 0)?;
    }
    Ok(())
}

/// Reserves memory for exactly `least` words, if the row is shorter. The words of the row do not change, even if memory runs
/// out.
fn make_room(words: &mut Words, least: usize) -> Result<(), AllocError>
    ensures { words.new.items ≡ words.old.items }
{
    if words.len() < least {
        words.reserve_exact(least - words.len())?;
    }
    Ok(())
}

/// Whether every number of the row `some` is also in the row `all`.
fn lies_within(some: &[u64], all: &[u64]) -> bool
    ensures within { IsTrue result → (k : ℕ) → IsTrue (holds some.now k) → IsTrue (holds all.now k) }
    ensures not_within { IsFalse result → (k : ℕ) × IsTrue (holds some.now k) × IsFalse (holds all.now k) }
{
    for (at, word) in some.iter().enumerate() {
        let other = word_at(all, at);
        let word = *word;
        if word & !other != 0 {
            return false;
        }
    }
    true
}

/// Adds the numbers of `from` to `into`. If memory runs out, `into` stays as it was.
fn put_words(into: &mut Words, from: &[u64]) -> Result<(), AllocError>
    ensures both { IfOk result (λ _. (k : ℕ) → holds into.new.items k ≡ (holds into.old.items k || holds from.now k)) }
    ensures few { (most : ℕ) → length into.old.items ≤ most → length from.now ≤ most → length into.new.items ≤ most }
    ensures leaves { IfErr result (λ _. into.new.items ≡ into.old.items) }
{
    make_room(into, from.len())?;
    if into.is_empty() {
        into.extend_from_slice(from)?;
        return Ok(());
    }
    grow(into, from.len())?;
    put_all(into, from);
    Ok(())
}

/// Adds the numbers of `from` to `into`, which is at least as long.
fn put_all(into: &mut Words, from: &[u64])
    requires { length from.now ≤ length into.old.items }
    ensures long { length into.new.items ≡ length into.old.items }
    ensures both { (k : ℕ) → holds into.new.items k ≡ (holds into.old.items k || holds from.now k) }
{
    for (at, word) in from.iter().enumerate() {
        into[at] |= *word;
    }
}
