//! Tests of the program's work that no case of tests/rows can be: readers, writers and disks that fail, what a terminal shows, which descriptors
//! are taken, what a command line asks for and no answer shows, and each prefix of a text. All readers, writers and disks are in memory.
#![tactic(auto)]

#[cfg(test)]
mod descriptors;
#[cfg(test)]
mod faulty;
#[cfg(test)]
mod images;
#[cfg(test)]
mod prefixes;
#[cfg(test)]
mod screens;
#[cfg(test)]
mod unwritten;
#[cfg(test)]
mod watches;
#[cfg(test)]
mod words;
