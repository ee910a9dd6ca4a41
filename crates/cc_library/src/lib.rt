//! The library: a map from names to stored units that survives any crash, over any disk.
//!
//! `name` has names, `unit` and `units` have what is kept, `command` has what changes it, `body` and `reading` write and read a
//! command as the body of a record, `replaying` has what records represent, `library` has the library and its calls, and `space`
//! has how much of its area a library takes. The crate exports `Library`, `Name`, `UnitMap`, `Change`, `LibraryCommand`, `Edit`,
//! `Kind`, `SharedUnit`, `SpaceUse`, `command_body`, `body_length`, `body_of_command`, `read_command`, `replay` and the faults.
#![tactic(auto)]

mod body;
mod command;
mod fault;
mod library;
mod name;
mod reading;
mod replaying;
mod space;
mod unit;
mod units;

pub use body::{body_length, body_of_command, command_body};
pub use command::{Change, Edit, Kind, LibraryCommand};
pub use fault::{LibraryFault, NameFault};
pub use library::Library;
pub use name::{NAME_BYTES, Name};
pub use reading::{ReadFault, read_command};
pub use replaying::replay;
pub use space::SpaceUse;
pub use unit::SharedUnit;
pub use units::UnitMap;
