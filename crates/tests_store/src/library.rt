// Tests of the library, from outside: its parts, worked rows, every point of failure, and disks that lie.
//
// `helpers` makes units, names and disks. `parts` tests names and the bytes of commands, and `certificates` tests both versions
// of bodies on a disk. `rows` has the worked rows, and `sweep` fails the device at each call in turn. `hostile` opens disks
// that `format` did not make, and `random` opens disks with random records and bytes. `memory` refuses allocations, and `room`
// tests what a `compact` makes room for. `files` has a library on a file in memory.

mod certificates;
mod files;
pub mod helpers;
mod hostile;
mod memory;
mod parts;
mod random;
mod room;
mod rows;
mod sweep;
