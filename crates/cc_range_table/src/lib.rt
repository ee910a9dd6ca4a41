//! The table of ranges of a unit: what it says, when it is inductive, and what follows.
//!
//! A table has ranges for the parameters and results of functions and for objects, and what is known at the loops and blocks of
//! their code. `specs/Table.antt` says when facts hold, `specs/Inductive.antt` when a table is inductive and which operations it
//! covers: one walk over the Cminor of each function. `laws` says what follows: calls stay in the table, and a unit whose
//! operations are all covered goes wrong only because calls are nested too deep.
#![tactic(auto)]

mod laws;

pub use laws::{calls_stay_in_table, only_depth_is_left_by_table};
