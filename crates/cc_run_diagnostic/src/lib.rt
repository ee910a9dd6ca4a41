//! What to report about a run that went wrong: where it went wrong, with which values and in which function.
//!
//! `wrong` reports it, for a text and the cause that `interpret` answered: it repeats the run of the text's program with
//! `cc_trace`, which keeps places and values. `calls` shows the calls that were open.
//!
//! The answer itself is that of `cc_meaning`: the report depends only on the text, the input and the answer, and no promise
//! depends on it. The call is safe and ends, and fails only for lack of memory.
#![tactic(auto)]

mod calls;
mod wrong;

pub use wrong::{WrongRun, of_wrong, of_wrong_run};
