//! Selection turns a function of Linear into the steps from which machine code is made, one step at a time.
//!
//! `step` has the steps, and `pair` the type that keeps the fact that a function's steps do what the function does.
//! `specs/Selected.antt` defines what one step does, and `specs/Selection.antt` the steps of a function's items. Tests go before
//! labels and into jumps. Constants that are known within straight-line code go into the operations that read them, and sums of a
//! register and a word go into the accesses that use them as element numbers. Then constants and sums that no step reads are left
//! out, and a comparison and the branch on its truth value become one.
//!
//! `selection` is the whole pass. `immediate` says which operators have a form with a word, `known` which words are known, and
//! `threading` walks over the items and chooses the steps. `near` puts sums into accesses. `registers` has sets of registers,
//! `live` the registers that are live before a step, `table` those at labels, and `constants` and `fuse` are the two passes that
//! need them.
#![tactic(auto)]

mod constants;
mod fuse;
mod immediate;
mod known;
mod live;
mod near;
mod pair;
mod registers;
mod selection;
mod step;
mod table;
mod threading;

pub use pair::SelectedPair;
pub use selection::select;
pub use step::{Step, WordOperator};
