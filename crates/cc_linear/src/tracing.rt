// Where chains of empty blocks end, and the order of blocks, both by places in the list of blocks.

pub mod arrange;
pub mod chains;
pub mod ends;
pub mod order;
pub mod reached;
pub mod ways;
