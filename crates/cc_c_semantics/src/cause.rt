// Why a program goes wrong.

/// Why a program goes wrong.
#[derive(Clone, Copy, PartialEq, Eq, Debug)]
pub enum Cause {
    /// A division or remainder by zero, or of -2147483648 by -1 (C99 6.5.5).
    Division,
    /// A shift by a count below 0 or above 31 (C99 6.5.7).
    Shift,
    /// An index outside its array (C99 6.5.6).
    Index,
    /// A call with which 1,025 calls would be open.
    Depth,
}
