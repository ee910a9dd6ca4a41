//! Units as files: they are packed, read back, confirmed and added to a library, and named by their hash.
//!
//! `modes` says in which modes an audit confirms a unit, `packing` writes and reads a unit's file, `hashes` writes the lines that
//! name units by their hash, `adding` adds a unit to the library on a disk, `unpacking` that of a file if an audit confirms it.
//! `cc_pack` has the form of a file, `cc_library` the record that its body is. The crate exports `modes_of`, `audit_as`,
//! `audit_unit`, `audit_file`, `pack`, `body_of_unit`, `read_unit`, `unpack`, `hash_line`, `hash_lines`, `hashes_on`, `add_on`, their types, and the
//! definitions that their contracts name (`specs/`).
#![tactic(auto)]

mod adding;
mod hashes;
mod modes;
mod packing;
mod unpacking;

pub use adding::add_on;
pub use hashes::{hash_line, hash_lines, hashes_on};
pub use modes::{audit_as, audit_unit, modes_of};
pub use packing::{UnitFile, body_of_unit, pack, read_unit};
pub use unpacking::{AuditedFile, UnpackFault, audit_file, unpack};
