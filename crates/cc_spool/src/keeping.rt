// What a server keeps in `done`, and for how long.
//
// Answers that nobody removed are removed after some days. If all of them together take more room than allowed, the oldest are
// removed earlier, but none that is younger than ten minutes, since its client may be about to read it. While the younger answers by
// themselves take more room than allowed, no script is claimed. So nobody can fill the disk with scripts that have large answers.
//
// How much room they take is counted as answers are handed over, and determined again by each look through `done`. A file counts as
// a whole number of blocks.

use crate::entries::Entry;
use crate::layout::FolderLayout;
use crate::names::{is_plain, since_1970};
use crate::place::Place;
use crate::refusal::Refusal;
use std::time::Instant;

/// The size of a block in bytes.
const BLOCK: u64 = 4096;

/// How old an answer has to be before it is removed to make room, in seconds.
const LEAST_AGE: i64 = 600;

/// The time between two clearings of answers, in seconds. `EACH_IF_FULL` is this time while the answers that may not be removed yet
/// take more room than allowed.
const EACH: u64 = 3600;

const EACH_IF_FULL: u64 = 10;

const DAY: i64 = 86_400;

/// How many answers a server keeps, and how long it runs one script.
#[derive(Clone, Copy, Drop)]
pub struct Limits {
    /// How many days it keeps an answer.
    pub days: u32,
    /// How many bytes of answers it keeps.
    pub bytes: u64,
    /// Whether nothing is reported on standard error.
    pub is_quiet: bool,
    /// How many seconds a script may run while others wait.
    pub patience: u32,
    /// How many clients the server has.
    pub clients: usize,
}

// An answer in `done`.
#[derive(Drop)]
struct Kept {
    name: String,
    // When it was written, in seconds since 1970.
    seconds: i64,
    bytes: u64,
}

/// What is known about the answers that a server keeps.
#[derive(Drop)]
pub(crate) struct Keeping {
    limits: Limits,
    // When they were cleared last.
    cleared: Option<Instant>,
    /// Whether the answers that may not be removed yet take more room than allowed.
    pub(crate) is_full: bool,
    // Whether that was reported.
    is_told: bool,
}

/// How many bytes the blocks of a file of this many bytes take: at least one block.
pub(crate) fn taken_by(bytes: u64) -> u64 {
    bytes.div_ceil(BLOCK).max(1).saturating_mul(BLOCK)
}

impl Keeping {
    pub(crate) fn new(limits: Limits) -> Keeping {
        Keeping {
            limits,
            cleared: None,
            is_full: false,
            is_told: false,
        }
    }

    /// Clears answers if it is time, or if `taken`, the bytes that they take, is more than allowed. The result is how many bytes
    /// they take afterwards; none if nothing was looked at.
    pub(crate) fn clear_if_due(
        &mut self,
        layout: &FolderLayout,
        taken: u64,
    ) -> Result<Option<u64>, Refusal> {
        let now = Instant::now(&layout.rt)?;
        // Once the count says that the answers take too much room, they are looked at immediately. After that, while those that may
        // not be removed yet take too much, they are looked at only from time to time.
        let each = if taken <= self.limits.bytes {
            EACH
        } else if self.is_full {
            EACH_IF_FULL
        } else {
            0
        };
        // If the answers were never counted, they are counted now.
        if let Some(cleared) = self.cleared
            && now.duration_since(cleared).as_secs() < each
        {
            return Ok(None);
        }
        self.cleared = Some(now);
        let left = self.clear(layout)?;
        self.is_full = self.limits.bytes < left;
        self.is_told &= self.is_full;
        Ok(Some(left))
    }

    /// Whether it is to be reported now that no script is claimed.
    pub(crate) fn is_to_be_told(&mut self) -> bool {
        let is_new = self.is_full && !self.is_told;
        self.is_told |= is_new;
        is_new && !self.limits.is_quiet
    }

    // Removes the answers that are too old and, while the others take too much room, the oldest of those that may be removed. The
    // result is how many bytes the remaining answers take.
    fn clear(&self, layout: &FolderLayout) -> Result<u64, Refusal> {
        layout.must_be_held()?;
        let now = i64::try_from(since_1970(&layout.rt)?.as_secs()).unwrap_or(0);
        let mut kept = answers(layout)?;
        kept.sort_unstable_by(|a, b| a.seconds.cmp(&b.seconds));
        let mut left = 0u64;
        for it in kept.iter() {
            left = left.saturating_add(it.bytes);
        }
        // If some have to be removed for their size, an eighth of the room is freed, so that not every further answer requires a
        // look.
        let most = if self.limits.bytes < left {
            self.limits.bytes - self.limits.bytes / 8
        } else {
            self.limits.bytes
        };
        let oldest = now.saturating_sub(i64::from(self.limits.days).saturating_mul(DAY));
        let young = now.saturating_sub(LEAST_AGE);
        for it in kept.iter() {
            let goes = it.seconds < oldest || (most < left && it.seconds < young);
            if goes && layout.remove(Place::Done, it.name.as_str()).is_ok() {
                left = left.saturating_sub(it.bytes);
            }
        }
        Ok(left)
    }
}

// The answer with this name, if there is one.
fn answer_at(layout: &FolderLayout, name: String) -> Option<Kept> {
    match layout.look(Place::Done, name.as_str()) {
        Ok(Some(found)) if found.is_file() => Some(Kept {
            name,
            seconds: found.seconds,
            bytes: taken_by(found.bytes),
        }),
        _ => None,
    }
}

// The answers in `done`.
fn answers(layout: &FolderLayout) -> Result<Vec<Kept>, Refusal> {
    let mut kept = Vec::new(layout.alloc);
    let mut entries = layout.entries("done")?;
    for _ in 0..u64::MAX {
        match entries.next() {
            Entry::Named(name) if is_plain(name.as_str()) => {
                if let Some(it) = answer_at(layout, name)
                    && kept.push(it).is_err()
                {
                    return Err(Refusal::NoMemory);
                }
            }
            Entry::Named(_) | Entry::Odd | Entry::Refused(_) => {}
            Entry::End => break,
        }
    }
    Ok(kept)
}
