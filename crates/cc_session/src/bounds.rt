// How much the clients of one service do before it ends, so that what its history holds in memory stays bounded.
//
// A service keeps its history, with every unit that a change handed in, until its end. So a server that works for months ends the
// service now and then and opens the next one on the same disk: each is a generation. The clients share a meter. Each client asks
// the meter before it takes a script, reports when it has taken one, and adds what its new receipts hold when the answer is
// handed over. Bytes are added before the script counts as done, so a client that sees no script being done sees the bytes of all
// scripts. Once a client has found the meter full, it stays full for all.

ghost use Rattle.std.specs.Prelude.{◌↔◌, IsTrue};
ghost use Rattle.cc_session.specs.internal.Enough.{IsEnough};

use crate::end::SessionEnd;
use crate::steward::{Generation, GenerationEnd};
use std::sync::atomic::{AtomicBool, AtomicU64, Ordering};

/// The bounds at which a generation ends: on the bytes that its history is counted to hold (`held_since` of `cc_service::Client`:
/// 256 for each call; for a change also the source, code, globals and certificate of its unit; for a list also 48 for each name),
/// or on the number of scripts that were taken.
///
/// At least one script is done in each generation, whatever these numbers are.
#[derive(Clone, Copy, Drop)]
pub struct Bounds {
    /// If the history holds this many bytes, the generation ends at the first moment at which no script is being done.
    pub ends: u64,
    /// If the history holds this many bytes, no client takes a further script.
    pub most: u64,
    /// Once this many scripts were taken, no client takes a further one.
    pub scripts: u64,
}

/// The bounds of the program's server: 64 MiB, 256 MiB, 4,096 scripts.
pub const BOUNDS: Bounds = Bounds {
    ends: 67_108_864,
    most: 268_435_456,
    scripts: 4_096,
};

// What the clients of a generation had done at a moment: the bytes of their receipts, the scripts that were taken, and how many
// of these were being done.
#[derive(Clone, Copy, Drop)]
pub(crate) struct Counts {
    pub(crate) bytes: u64,
    pub(crate) scripts: u64,
    pub(crate) doing: u64,
}

// Whether no further script is to be taken.
fn is_enough(bounds: Bounds, counts: Counts) -> bool
    ensures { IsTrue result ↔ IsEnough bounds counts }
{
    1 <= counts.scripts
        && ((bounds.ends <= counts.bytes && counts.doing == 0)
            || bounds.most <= counts.bytes
            || bounds.scripts <= counts.scripts)
}

/// What the clients of a generation have done so far. All of them share it: each asks it before it takes a script, and reports
/// what it did.
#[derive(Drop)]
pub struct Meter {
    bounds: Bounds,
    bytes: AtomicU64,
    entries: AtomicU64,
    scripts: AtomicU64,
    doing: AtomicU64,
    full: AtomicBool,
}

// Adds to a count, which saturates at its largest value.
fn add(count: &AtomicU64, more: u64) {
    let _ = count.fetch_update(Ordering::SeqCst, Ordering::SeqCst, |n| {
        Some(n.saturating_add(more))
    });
}

impl Meter {
    /// The meter of a generation in which nothing has been done yet.
    pub fn new(bounds: Bounds) -> Meter {
        Meter {
            bounds,
            bytes: AtomicU64::new(0),
            entries: AtomicU64::new(0),
            scripts: AtomicU64::new(0),
            doing: AtomicU64::new(0),
            full: AtomicBool::new(false),
        }
    }

    // The bytes are read first: they only grow, so if no script is being done after that, the bytes of all scripts were added.
    fn counts(&self) -> Counts {
        let bytes = self.bytes.load(Ordering::SeqCst);
        let scripts = self.scripts.load(Ordering::SeqCst);
        let doing = self.doing.load(Ordering::SeqCst);
        Counts {
            bytes,
            scripts,
            doing,
        }
    }

    /// Whether no client is to take a further script. Once true, this stays true. Clients that were waiting for a script at that
    /// moment may take one more each.
    pub fn is_full(&self) -> bool {
        if self.full.load(Ordering::SeqCst) {
            return true;
        }
        let is_full = is_enough(self.bounds, self.counts());
        if is_full {
            self.full.store(true, Ordering::SeqCst);
        }
        is_full
    }

    /// A script was taken, and is being done.
    pub fn begin_script(&self) {
        add(&self.doing, 1);
        add(&self.scripts, 1);
    }

    /// A script's answer was handed over. It brought this many calls, which are counted to hold these bytes.
    pub fn end_script(&self, entries: u64, bytes: u64) {
        add(&self.entries, entries);
        add(&self.bytes, bytes);
        let _ = self
            .doing
            .fetch_update(Ordering::SeqCst, Ordering::SeqCst, |n| {
                Some(n.saturating_sub(1))
            });
    }

    // What a generation did, if its service ended like this.
    pub(crate) fn generation(&self, end: SessionEnd) -> Generation {
        let counts = self.counts();
        let why = if !self.full.load(Ordering::SeqCst) {
            GenerationEnd::Over
        } else if self.bounds.ends <= counts.bytes || self.bounds.most <= counts.bytes {
            GenerationEnd::Bytes
        } else {
            GenerationEnd::Scripts
        };
        Generation {
            scripts: counts.scripts,
            entries: self.entries.load(Ordering::SeqCst),
            bytes: counts.bytes,
            why,
            end,
        }
    }
}
