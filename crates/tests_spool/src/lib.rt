//! Tests of the spool that gives a server its scripts, from outside: the spool in a folder, over real folders in the place where the test runs,
//! and the frame of a source in an answer. Expected answers come from docs/FORMATS.md.
//!
//! `files` has the folder of a test and what is done to its files, `helpers` what a server and its clients do, `steps` the steps that
//! most tests are made of. `folders` and `logged` have the tests over folders, `frames` those of frames.
#![tactic(auto)]

#[cfg(test)]
mod files;
#[cfg(test)]
mod folders;
#[cfg(test)]
mod frames;
#[cfg(test)]
mod helpers;
#[cfg(test)]
mod logged;
#[cfg(test)]
mod steps;
