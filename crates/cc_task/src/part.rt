// A part of a unit.

/// A part of a unit of a library.
#[derive(Clone, Copy, Debug, Drop, PartialEq, Eq)]
pub enum Part {
    /// Its image, as Intel HEX.
    Image,
    /// Its source, byte for byte.
    Source,
}
