//! Tests of the store, and of the machine whose programs it keeps, from outside: worked rows, every point of failure, disks that lie,
//! and values of other assemblers and suites.
//!
//! `journal` has the tests of disks and of the journal, `library` those of the library on the same disks, and `protocol` those of the
//! protocol core over the library. `machine` tests instructions, images and runs.
#![tactic(auto)]

#[cfg(test)]
mod journal;
#[cfg(test)]
mod library;
#[cfg(test)]
mod machine;
#[cfg(test)]
mod protocol;
