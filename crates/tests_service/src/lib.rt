//! Tests of a service, from outside.
//!
//! `helpers` has disks, names and texts, `model` what a call is to answer, `running` a service with its workers, `book` the value of its
//! lock: its answers against the model, a device that fails, and crashes.
#![tactic(auto)]

#[cfg(test)]
mod book;
#[cfg(test)]
mod helpers;
#[cfg(test)]
mod model;
#[cfg(test)]
mod running;
