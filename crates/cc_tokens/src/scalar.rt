// The types of numbers.

/// The type of a number, a variable or a value: `int` or `unsigned int` (C99 6.2.5).
#[derive(Clone, Copy, PartialEq, Eq, Debug)]
pub enum Scalar {
    Int,
    Unsigned,
}
