//! Programs that never have too many open calls: those whose calls have no cycle.
#![tactic(auto)]

mod laws;

pub use laws::acyclic_programs_are_never_deep;
