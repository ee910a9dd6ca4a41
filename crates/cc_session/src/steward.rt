// How a server reports what it does.

use crate::end::SessionEnd;
use std::io::Write;

/// Why the clients of a generation took no further script.
#[derive(Clone, Copy, Drop, PartialEq, Eq)]
pub enum GenerationEnd {
    /// Each spool is over.
    Over,
    /// The history holds as many bytes as the bounds allow.
    Bytes,
    /// As many scripts were taken as the bounds allow.
    Scripts,
}

/// What a generation did, from the opening of its service to the end.
#[derive(Clone, Copy, Drop, PartialEq, Eq)]
pub struct Generation {
    /// The number of scripts that were taken. Each was done, and its answer handed over.
    pub scripts: u64,
    /// The number of calls in the history: those of the clients' receipts.
    pub entries: u64,
    /// The number of bytes that the history is counted to hold.
    pub bytes: u64,
    /// Why the clients took no further script.
    pub why: GenerationEnd,
    /// How the service ended.
    pub end: SessionEnd,
}

/// Called when a generation begins and when it ends; an implementation may then write a line or clean a folder, for instance.
/// Both calls come from the thread that serves, between generations, so no script is being done and none is taken before they
/// return. Explanations for a person go to `told`.
pub trait Steward {
    /// The library is open, and scripts are taken from now on.
    fn opened<E: Write>(&mut self, told: &mut E);

    /// The service was ended, and the disk is at rest. This is called once for each `opened`.
    fn ended<E: Write>(&mut self, generation: Generation, told: &mut E);
}

/// Does nothing.
#[derive(Drop)]
pub struct NoSteward;

impl Steward for NoSteward {
    fn opened<E: Write>(&mut self, _told: &mut E) {}

    fn ended<E: Write>(&mut self, _generation: Generation, _told: &mut E) {}
}
