//! Inputs that never end. A run is known on lists of words; what it shows on one without having read past it, it shows on every input that
//! begins with this list. So what agrees on every list agrees on every input without end.
//!
//! - `laws`: the functions do nothing; the contract of each is a law of the definitions in `specs/`.
#![tactic(auto)]

mod laws;

pub use laws::{
    agreement_is_endless, images_read_at_most, images_stay_within, lists_are_not_enough,
    outcomes_are_one, programs_read_at_most, programs_stay_within,
};
