// What waits in `new`, as all clients of one server know it.
//
// One client at a time looks through `new`. All clients take the names that this look found, the least first, each name once. The
// cost of a look grows with the number of entries of `new`, and anybody may put entries there that can't be claimed. So no look
// is made while `new` is unchanged, and a name that could not be claimed is passed over for a time that doubles with each
// failure. Then it is tried again without a look, after the names that were never tried; at most a fixed number of names a second
// is tried again. So the processor time that is used does not grow with the number of names that can't be claimed, and while a
// script waits, only a few of them are tried. If there are more names than are kept, and none of those kept could be claimed, the
// next look is for the names after them. So names that can't be claimed never hide a script.

use crate::claims::may_be_claimed;
use crate::entries::Entry;
use crate::layout::FolderLayout;
use crate::names::{is_plain, since_1970};
use crate::refusal::Refusal;
use std::alloc::Global;
use std::cmp::Ordering;
use std::mem;
use std::time::{Duration, Instant};

/// At most this many entries of `new` are looked at in one go, whatever they are.
pub const MOST_ENTRIES: usize = 1_048_576;

/// At most this many names of a look are kept, the least ones, and at most this many names are passed over.
const MOST_NAMES: usize = 131_072;

/// How long a name that could not be claimed is passed over, in seconds: at first, and at most.
const LEAST_PASS: u64 = 1;

const MOST_PASS: u64 = 30;

/// A look is made after this many seconds even if `new` is unchanged.
const LOOK_AGAIN: u64 = 10;

/// At most this many names that were passed over are tried again in one go. `AGAIN` is the pause between two goes, in seconds. So
/// all names that are kept are tried again in less time than the longest pass.
const MOST_AGAIN: usize = 5_000;

const AGAIN: u64 = 1;

/// At most this many names are looked at to find whether a script waits.
const MOST_LOOKED: usize = 64;

/// A look is sure to see everything only if it begins more than this many seconds after the last change of `new`: two changes
/// within the clock's grain have the same time.
const GRAIN: u64 = 1;

/// While `new` is unchanged, a look that may have missed something is repeated only after this many times the time that it took.
const REST: u32 = 16;

/// A name that may be a script's.
#[derive(Drop)]
pub(crate) struct Candidate {
    pub(crate) name: String,
    // How long it was passed over the last time, in seconds: 0 if it never was.
    passed: u64,
}

// A name that could not be claimed.
#[derive(Drop)]
struct Passed {
    // The key by which it is found: each name that a look sees is searched for among all names passed over, and numbers are
    // faster to compare than names.
    key: u64,
    name: String,
    // How long it is passed over, in seconds, and until when.
    pass: u64,
    until: Instant,
    // Whether the look that is being made has seen it.
    is_seen: bool,
}

// A look that was made.
#[derive(Clone, Copy, Drop)]
struct Look {
    began: Instant,
    // When `new` had last been changed: the seconds since 1970, and the nanoseconds after these.
    changed: (i64, i64),
    // Whether it kept all that it saw.
    is_all: bool,
    // Whether it began long enough after the last change of `new` to have seen everything; if not, when to look again.
    is_settled: bool,
    again: Instant,
}

/// The names that wait, and those that are passed over.
#[derive(Drop)]
pub(crate) struct Board {
    // The names that are to be tried, the least last.
    waiting: Vec<Candidate>,
    // Names that were passed over for long enough, and are to be tried again now.
    again: Vec<Candidate>,
    // The names that are passed over, ordered by key, and by name among equal keys.
    passed: Vec<Passed>,
    // The names newly passed over since the last look.
    fresh: Vec<Passed>,
    // When the first of the names passed over is to be tried again, and when some were last tried again.
    next_try: Option<Instant>,
    tried: Option<Instant>,
    // The name after which to look, if there were more names than are kept, and none of those kept could be claimed.
    from: Option<String>,
    last: Option<Look>,
}

// The key of a name. Names that have the same key are still distinguished.
fn key_of(name: &str) -> u64 {
    let mut key = 0xcbf2_9ce4_8422_2325u64;
    for byte in name.as_bytes() {
        key = (key ^ u64::from(*byte)).wrapping_mul(0x0100_0000_01b3);
    }
    key
}

impl Passed {
    // How this name compares with `name`, whose key is `key`.
    fn order(&self, key: u64, name: &str) -> Ordering {
        match self.key.cmp(&key) {
            Ordering::Equal => self.name.as_str().cmp(name),
            other => other,
        }
    }
}

// The earlier of two moments; the first may be missing.
fn earlier(first: Option<Instant>, other: Instant) -> Option<Instant> {
    match first {
        Some(first) if first <= other => Some(first),
        _ => Some(other),
    }
}

// The first moment at which one of these is to be tried again.
fn first_try(passed: &[Passed]) -> Option<Instant> {
    let mut first = None;
    for it in passed {
        first = earlier(first, it.until);
    }
    first
}

// Moves names that are to be tried again now from `passed` to `again`, until `again` has `MOST_AGAIN` names.
fn bring_back(passed: &mut Vec<Passed>, again: &mut Vec<Candidate>, alloc: Global, now: Instant) {
    for it in passed.iter_mut() {
        if again.len() < MOST_AGAIN && it.until <= now {
            let name = mem::replace(&mut it.name, String::new(alloc));
            // If there is no memory for the name, the next look finds it.
            let _ = again.push(Candidate {
                name,
                passed: it.pass,
            });
        }
    }
    passed.retain(|it| !it.name.is_empty());
}

impl Board {
    pub(crate) fn new(alloc: Global) -> Board {
        Board {
            waiting: Vec::new(alloc),
            again: Vec::new(alloc),
            passed: Vec::new(alloc),
            fresh: Vec::new(alloc),
            next_try: None,
            tried: None,
            from: None,
            last: None,
        }
    }

    /// The next name that is to be tried, after a look if one is due; none if nothing is known to wait.
    pub(crate) fn take(
        &mut self,
        layout: &FolderLayout,
        now: Instant,
    ) -> Result<Option<Candidate>, Refusal> {
        if self.waiting.is_empty() && self.again.is_empty() {
            self.look_if_due(layout, now)?;
            self.bring_back_if_due(layout.alloc, now);
        }
        match self.waiting.pop() {
            Some(candidate) => Ok(Some(candidate)),
            None => Ok(self.again.pop()),
        }
    }

    /// Whether there is a waiting script that can be claimed. Only a limited number of names is looked at, and the next call goes
    /// on after them.
    pub(crate) fn has_claimable(&mut self, layout: &FolderLayout) -> Result<bool, Refusal> {
        let now = Instant::now(&layout.rt)?;
        for _ in 0..MOST_LOOKED {
            let Some(candidate) = self.take(layout, now)? else {
                return Ok(false);
            };
            match may_be_claimed(layout, candidate.name.as_str()) {
                Some(true) => {
                    // There is room, unless the candidate was taken from `again`. If there is then no memory for it, a later look
                    // finds it.
                    let _ = self.waiting.push(candidate);
                    return Ok(true);
                }
                Some(false) => self.pass_over(candidate, now),
                None => {}
            }
        }
        Ok(false)
    }

    /// Passes over a name that could not be claimed.
    pub(crate) fn pass_over(&mut self, candidate: Candidate, now: Instant) {
        let Candidate { name, passed } = candidate;
        if MOST_NAMES <= self.passed.len().saturating_add(self.fresh.len()) {
            drop(name);
            return;
        }
        let pass = if passed == 0 {
            LEAST_PASS
        } else {
            passed.saturating_mul(2).min(MOST_PASS)
        };
        let until = now.checked_add(Duration::from_secs(pass)).unwrap_or(now);
        self.next_try = earlier(self.next_try, until);
        // If there is no memory for the name, it is tried at the next look.
        let _ = self.fresh.push(Passed {
            key: key_of(name.as_str()),
            name,
            pass,
            until,
            is_seen: false,
        });
    }

    // Whether it is time to retry names that were passed over.
    fn is_time_again(&self, now: Instant) -> bool {
        let has_rested = match self.tried {
            Some(tried) => AGAIN <= now.duration_since(tried).as_secs(),
            None => true,
        };
        match self.next_try {
            Some(next) => has_rested && next <= now,
            None => false,
        }
    }

    // Brings back the names that were passed over for long enough.
    fn bring_back_if_due(&mut self, alloc: Global, now: Instant) {
        if !self.is_time_again(now) {
            return;
        }
        self.tried = Some(now);
        bring_back(&mut self.passed, &mut self.again, alloc, now);
        bring_back(&mut self.fresh, &mut self.again, alloc, now);
        self.next_try = self.first_try();
    }

    fn first_try(&self) -> Option<Instant> {
        let first = first_try(self.passed.as_slice());
        match first_try(self.fresh.as_slice()) {
            Some(fresh) => earlier(first, fresh),
            None => first,
        }
    }

    // Whether a look might find something that the last one did not.
    fn is_due(&self, changed: (i64, i64), now: Instant) -> bool {
        let Some(last) = self.last else {
            return true;
        };
        let has_rested = !last.is_settled && last.again <= now;
        let is_old = LOOK_AGAIN <= now.duration_since(last.began).as_secs();
        last.changed != changed || !last.is_all || has_rested || is_old
    }

    // Looks through `new` if that might find something.
    fn look_if_due(&mut self, layout: &FolderLayout, began: Instant) -> Result<(), Refusal> {
        let Some(found) = layout.look_at("new")? else {
            return Err(Refusal::NoFolder);
        };
        let changed = (found.seconds, found.nanoseconds);
        if !self.is_due(changed, began) {
            return Ok(());
        }
        let now = since_1970(&layout.rt)?.as_secs();
        let is_settled = match u64::try_from(changed.0) {
            Ok(seconds) => seconds.saturating_add(GRAIN) < now,
            Err(_) => true,
        };
        // A look that is refused is repeated.
        self.last = None;
        self.look(layout)?;
        let ended = Instant::now(&layout.rt)?;
        let rest = ended.duration_since(began).saturating_mul(REST);
        self.last = Some(Look {
            began,
            changed,
            is_all: self.from.is_none(),
            is_settled,
            again: ended.checked_add(rest).unwrap_or(ended),
        });
        Ok(())
    }

    // Looks through `new`.
    fn look(&mut self, layout: &FolderLayout) -> Result<(), Refusal> {
        self.merge()?;
        let is_all = self.from.is_none();
        let read = self.read(layout);
        if read.is_err() {
            self.waiting.clear();
        }
        let is_read_whole = read?;
        self.keep_least();
        if is_all && is_read_whole {
            self.forget();
        }
        self.from = self.last_name(layout.alloc)?;
        self.waiting.reverse();
        Ok(())
    }

    // Merges the names newly passed over into the others.
    fn merge(&mut self) -> Result<(), Refusal> {
        if !self.fresh.is_empty() {
            self.passed.append(&mut self.fresh)?;
            self.passed
                .sort_unstable_by(|a, b| a.order(b.key, b.name.as_str()));
        }
        for it in self.passed.iter_mut() {
            it.is_seen = false;
        }
        Ok(())
    }

    // Reads the entries of `new`. The result is whether all of them were read.
    fn read(&mut self, layout: &FolderLayout) -> Result<bool, Refusal> {
        let mut entries = layout.entries("new")?;
        for _ in 0..MOST_ENTRIES {
            match entries.next() {
                Entry::Named(name) => self.note(name)?,
                // A name that is not UTF-8 is not taken.
                Entry::Odd => {}
                Entry::Refused(refusal) => return Err(refusal),
                Entry::End => return Ok(true),
            }
        }
        Ok(false)
    }

    // Whether a name is one of those that are looked for now.
    fn is_next(&self, name: &str) -> bool {
        let is_behind = match &self.from {
            Some(from) => from.as_str() < name,
            None => true,
        };
        is_behind && is_plain(name)
    }

    // Whether a name that was seen is passed over.
    fn is_passed(&mut self, name: &str) -> bool {
        let key = key_of(name);
        let Ok(place) = self.passed.binary_search_by(|it| it.order(key, name)) else {
            return false;
        };
        match self.passed.get_mut(place) {
            Some(it) => {
                it.is_seen = true;
                true
            }
            None => false,
        }
    }

    // Notes a name that was seen.
    fn note(&mut self, name: String) -> Result<(), Refusal> {
        if !self.is_next(name.as_str()) || self.is_passed(name.as_str()) {
            return Ok(());
        }
        if self.waiting.push(Candidate { name, passed: 0 }).is_err() {
            return Err(Refusal::NoMemory);
        }
        if self.waiting.len() >= 2 * MOST_NAMES {
            self.keep_least();
        }
        Ok(())
    }

    // Keeps only the `MOST_NAMES` least names.
    fn keep_least(&mut self) {
        self.waiting
            .sort_unstable_by(|a, b| a.name.as_str().cmp(b.name.as_str()));
        self.waiting.truncate(MOST_NAMES);
    }

    // Once all names have been read, forgets the names passed over that are gone from `new`.
    fn forget(&mut self) {
        self.passed.retain(|it| it.is_seen);
        self.next_try = self.first_try();
    }

    // The name after which to look if none of the waiting names can be claimed; none if fewer names wait than are kept.
    fn last_name(&self, alloc: Global) -> Result<Option<String>, Refusal> {
        match self.waiting.last() {
            Some(last) if self.waiting.len() == MOST_NAMES => {
                Ok(Some(String::from_str(alloc, last.name.as_str())?))
            }
            _ => Ok(None),
        }
    }
}
