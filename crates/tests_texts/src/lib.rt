//! Texts that the tests of several crates share: `programs` has eight programs of `bench/programs`; `worked` has the worked
//! programs, with the number of functions of each; `parts` makes texts from parts; `streams` has readers and writers that fail;
//! `lists` makes lists of one and of two; and `verdict` has the results of tests.
#![tactic(auto)]

pub mod lists;
pub mod parts;
pub mod programs;
pub mod streams;
pub mod verdict;
pub mod worked;
