//! Running and measuring a unit that a library keeps.
//!
//! `calling` takes the unit out of a library and runs its image on input words. `lines` runs it on the words of one line after
//! another, on a machine that `kept` keeps; `live` runs it while its input comes. `answering` has what the command `call` writes for
//! these, and its status. `measuring` says how much memory its image takes. The crate exports these calls, their types, and the
//! definitions that their contracts cite (`specs/`).
#![tactic(auto)]

mod answering;
mod calling;
mod kept;
mod lines;
mod live;
mod measuring;

pub use answering::{
    Called, answer_lines, answer_live, call_image, call_lines_on, call_live_on, call_on,
};
pub use calling::{call, runs_without_bound, unit_in, unit_on};
pub use kept::KeptMachine;
pub use lines::{LineEnd, LinesEnd, answer_line, call_lines};
pub use live::call_live;
pub use measuring::{StoredSize, size_on};
