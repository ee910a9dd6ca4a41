// The type, and what holds for one or two ranges.

ghost use Rattle.std.specs.Prelude.{◌≡◌, ◌||◌, true};
ghost use Rattle.cc_range.specs.Range.{least, greatest, minimum, maximum, is_natural, is_positive, is_negative, is_int, between, fitting, all_words, nonzero_words, truth_words, byte_words, only, excludes_zero, is_within, joined, met, trimmed, overlap, above_zero, below_zero, is_index};

/// The least and the greatest signed number of 32 bits.
pub(crate) const LEAST: i32 = -2147483648;

pub(crate) const GREATEST: i32 = 2147483647;

/// The words that represent the signed numbers from `low` to `high`; without 0 if `is_nonzero` is set. If `low` is above `high`,
/// there is no such word.
#[derive(Clone, Copy)]
pub struct Range {
    pub low: i32,
    pub high: i32,
    pub is_nonzero: bool,
}

/// The numbers between two limits. It is known that none is 0 if both limits are on one side of 0.
pub(crate) fn between(low: i32, high: i32) -> Range
    ensures { result ≡ between low high }
{
    Range {
        low,
        high,
        is_nonzero: low > 0 || high < 0,
    }
}

/// Whether the number is a signed number of 32 bits.
fn is_int(x: i64) -> bool
    ensures { result ≡ is_int x }
{
    x >= -2147483648 && x <= 2147483647
}

// The same number in 32 bits.
fn int_of(x: i64) -> i32
    requires { is_int x ≡ true }
    ensures { result ≡ x }
{
    x as i32
}

/// The numbers between two limits if each is a signed number of 32 bits, else all words.
pub(crate) fn fitting(low: i64, high: i64) -> Range
    ensures { result ≡ fitting low high }
{
    if is_int(low) && is_int(high) {
        between(int_of(low), int_of(high))
    } else {
        Range::all()
    }
}

impl Range {
    /// All words.
    pub fn all() -> Range
        ensures { result ≡ all_words }
    {
        Range {
            low: LEAST,
            high: GREATEST,
            is_nonzero: false,
        }
    }

    /// All words but 0.
    pub fn nonzero() -> Range
        ensures { result ≡ nonzero_words }
    {
        Range {
            low: LEAST,
            high: GREATEST,
            is_nonzero: true,
        }
    }

    /// The words of comparisons, 0 and 1.
    pub fn truth() -> Range
        ensures { result ≡ truth_words }
    {
        Range {
            low: 0,
            high: 1,
            is_nonzero: false,
        }
    }

    /// The words of a byte, 0 to 255.
    pub fn byte() -> Range
        ensures { result ≡ byte_words }
    {
        Range {
            low: 0,
            high: 255,
            is_nonzero: false,
        }
    }

    /// One word.
    pub fn only(word: u32) -> Range
        ensures { result ≡ only word }
    {
        between(word.cast_signed(), word.cast_signed())
    }

    /// Whether 0 is not in the range.
    pub fn excludes_zero(self) -> bool
        ensures { result ≡ excludes_zero self }
    {
        self.is_nonzero || self.low > 0 || self.high < 0
    }

    /// Whether each word of this range is in the other.
    pub fn is_within(self, other: Range) -> bool
        ensures { result ≡ is_within self other }
    {
        other.low <= self.low
            && self.high <= other.high
            && (!other.is_nonzero || self.excludes_zero())
    }

    /// The least range with the words of both.
    pub fn joined(self, other: Range) -> Range
        ensures { result ≡ joined self other }
    {
        Range {
            low: minimum(self.low, other.low),
            high: maximum(self.high, other.high),
            is_nonzero: self.excludes_zero() && other.excludes_zero(),
        }
    }

    /// A range with the words that both have. A limit of 0 moves by one if 0 is excluded.
    pub fn met(self, other: Range) -> Range
        ensures { result ≡ met self other }
    {
        trimmed(overlap(self, other))
    }

    /// Whether each word of the range is an index of an object with this many elements.
    pub fn is_index(self, elements: usize) -> bool
        ensures { result ≡ is_index self elements }
    {
        self.low >= 0 && (self.high < 0 || (self.high as usize) < elements)
    }
}

// The limits of a range move away from 0 if it has no 0.
fn above_zero(is_nonzero: bool, x: i32) -> i32
    ensures { result ≡ above_zero is_nonzero x }
{
    if is_nonzero && x == 0 { 1 } else { x }
}

fn below_zero(is_nonzero: bool, x: i32) -> i32
    ensures { result ≡ below_zero is_nonzero x }
{
    if is_nonzero && x == 0 { -1 } else { x }
}

// The range whose limits are moved away from 0 if it has no 0.
fn trimmed(r: Range) -> Range
    ensures { result ≡ trimmed r }
{
    Range {
        low: above_zero(r.is_nonzero, r.low),
        high: below_zero(r.is_nonzero, r.high),
        is_nonzero: r.is_nonzero,
    }
}

// What two ranges have in common, before its limits are moved.
fn overlap(a: Range, b: Range) -> Range
    ensures { result ≡ overlap a b }
{
    Range {
        low: maximum(a.low, b.low),
        high: minimum(a.high, b.high),
        is_nonzero: either(a.is_nonzero, b.is_nonzero),
    }
}

fn either(first: bool, second: bool) -> bool
    ensures { result ≡ (first || second) }
{
    first || second
}

/// The lesser number.
pub(crate) fn minimum(x: i32, y: i32) -> i32
    ensures { result ≡ minimum x y }
{
    if x <= y { x } else { y }
}

/// The greater number.
pub(crate) fn maximum(x: i32, y: i32) -> i32
    ensures { result ≡ maximum x y }
{
    if x <= y { y } else { x }
}
