//! From the Cminor of a function to its Cminor in a mode, in which a checked function has guards.
#![tactic(auto)]

mod guarding;

pub use guarding::guarded_in;
