// Tests of the disk and the journal, from outside: worked rows, every point of failure, and disks that lie.
//
// `helpers` makes disks and reads them back, and `sparse` is a disk of any size that is not honest. `disks` tests the disks of
// `cc_disk`, and `files` the disk on a file. `rows` has the worked rows of the journal, `logs` has those of a log, and `largest`
// tests the largest area. `sweep` fails the device at each call of appends in turn, and `moves` at each call of a rewrite.
// `hostile` opens disks that `format` did not make, as a journal and as a library, `random` opens disks of random bytes, and `ahead`
// tests records that reading ahead cuts in two.

mod ahead;
mod disks;
mod files;
pub mod helpers;
mod hostile;
mod largest;
mod logs;
mod moves;
mod random;
mod rows;
mod sparse;
mod sweep;
