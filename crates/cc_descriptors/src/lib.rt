//! The descriptors 0 to 2: standard input, output and error.
//!
//! The system gives a file that is opened the lowest free descriptor. So if a process is started with one of these three closed,
//! the next file gets that descriptor: for example, a library's file, and then what the process prints goes into it. To prevent
//! this, a program takes the free ones before it opens anything: a stand-in that cannot be read for standard input, and one that
//! cannot be written for each of the other two.
//!
//! - `descriptors`: what is needed from a system.
//! - `taking`: takes the free descriptors.
//! - `system`: the real system.
//! - `known`: a system whose descriptors contracts can see.
#![tactic(auto)]

mod descriptors;
mod known;
mod system;
mod taking;

pub use descriptors::{Access, Descriptors, Standard, Use, Uses};
pub use known::KnownDescriptors;
pub use system::System;
pub use taking::{StandIns, take_free};
