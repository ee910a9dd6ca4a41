//! Tests of sessions and of servers that no case of tests/rows can be: streams and disks that fail, many clients at once, and generations.
//!
//! `helpers` runs a script on a formatted disk, `failing` has readers, writers and disks that fail, `spools` scripts of several clients, `serving`
//! many clients at once, `generations` one service after the other, `stopping` scripts that end while others wait, `names` the names of faults.
#![tactic(auto)]

#[cfg(test)]
mod tests;
