//! Disks that may lose power: the rules that a disk keeps, and three kinds of disk for a store to run on.
//!
//! - `disk`: the trait `Disk` and its fault.
//! - `memory`: the disk in memory; `cells`: its bytes.
//! - `calls`: the trait `FileCalls`, the calls of a file.
//! - `over`: the disk on a file, over these calls.
//! - `file`: the system's files, and the disk on one.
//! - `memory_file`: the file in memory.
//! - `fuse`: the disk that fails on purpose.
//! - `history` and `count`: what is kept for contracts.
//!
//! The crate exports `Disk`, `DiskFault`, `MemoryDisk`, `FileDisk`, `FuseDisk`, `FuseMode` and `History`; of files `FileCalls`,
//! `DiskOver`, `SystemFile`, `OpenFault`, `MemoryFile` and `Trouble`.
#![tactic(auto)]

mod calls;
mod cells;
mod count;
mod disk;
mod file;
mod fuse;
mod history;
mod memory;
mod memory_file;
mod over;

pub use calls::FileCalls;
pub use disk::{Disk, DiskFault};
pub use file::{FileDisk, OpenFault, SystemFile};
pub use fuse::{FuseDisk, FuseMode};
pub use history::History;
pub use memory::MemoryDisk;
pub use memory_file::{MemoryFile, Trouble};
pub use over::DiskOver;
