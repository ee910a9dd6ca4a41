//! Tests of the front end's libraries: texts and their tokens, texts that are units and texts that are not, and each public
//! function called once without a fault. Expected values are worked out by hand from the standard and the rules of the language.
//!
//! `words` tests the operations on words, and `diagnostic` what no command shows of the messages about a text. The texts that are
//! refused, and the messages, are in `tests/rows`; the tests of the program itself are in `tests_program`.
#![tactic(auto)]

#[cfg(test)]
mod calls;
#[cfg(test)]
mod diagnostic;
#[cfg(test)]
mod grammar;
#[cfg(test)]
mod names;
#[cfg(test)]
mod texts;
#[cfg(test)]
mod tokens;
#[cfg(test)]
mod vectors;
#[cfg(test)]
mod words;
