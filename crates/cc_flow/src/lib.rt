//! The least facts at the nodes of a graph, carried backward: the framework for every backward dataflow analysis.
//!
//! A pass supplies three things. A type with `Facts` says what can be known at a node, ordered by how much it says, with a least
//! value and a join. A type with `Transfer` says what a node computes from the facts after it. A `Graph` says which nodes lead
//! where. `solve_backward` then returns the solution that is below every other. A solution has, at each node, at least what the
//! node computes from the join of its successors' facts. The least solution is the one to test: if any solution has a property
//! that everything below it has too, the least one has it.
//!
//! The solver starts with the least value everywhere and raises one node at a time, always the last of those that wait. A node
//! waits again when facts that it reads rise. Facts only rise, and each value says how often it can still rise, so the loop ends.
//! Facts never exceed a solution that they were below, so the result is below every solution. If code is numbered along its flow,
//! it is visited from its end to its start, and a node without a loop after it only once.
//!
//! Cost: a visit needs one application of the transfer, the joins of the successors' facts and one more join. A rise wakes only
//! the nodes that lead to the node that rose, each in time logarithmic in the number of nodes that wait.
#![tactic(auto)]

mod facts;
mod graph;
mod solve;
mod worklist;

pub use facts::{Facts, Transfer};
pub use graph::Graph;
pub use solve::{Solution, solve_backward};
