//! The library in a file: what the program does with a library without a service.
//!
//! `filing` opens the file or makes it, or explains why it can't; `waiting` tries this again while another process has it; `device` says whether a block device in the file's place may be
//! overwritten; `taking` prints a part of a unit in the file; `folder` takes a server's folder together with the library, and reports on
//! them; `printing` has buffers for what a command prints. The crate knows nothing about sessions, so it is proved in parallel with
//! `cc_session`. It exports `disk_of_session`, `disk_to_change`, `disk_to_read`, `library_disk`, `no_disk`, `no_library`, `NoDisk`, `take_out_of_file` and `buffers`, and what takes a server's
//! folder, tidies it and reports on it.
#![tactic(auto)]

mod device;
mod filing;
mod folder;
mod printing;
mod taking;
mod waiting;

pub use device::NoDisk;
pub use filing::{
    disk_of_session, disk_to_change, disk_to_read, library_disk, name_disk, no_disk, no_library,
    tell_wide_disk,
};
pub use folder::{
    AnswerCounts, Keeper, NoFolder, Taken, count_all, no_folder, spools_of, take_to_serve,
    tell_generation, tell_kept,
};
pub use printing::buffers;
pub use taking::{explain_part, take_out_of_file, write_found};
