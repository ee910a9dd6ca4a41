// How much of its area a library takes.

/// How much of an area the records of a library take, in bytes, and how many units it has.
#[derive(Clone, Copy, Drop)]
pub struct SpaceUse {
    /// The size of an area.
    pub area: usize,
    /// The bytes that the records take. The closed gate after the last record takes one more.
    pub used: usize,
    /// The bytes that the records would take after a compaction.
    pub compacted: usize,
    /// How many names have a unit.
    pub units: usize,
}
