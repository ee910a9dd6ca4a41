// Opening the file of a library that another process may have open: this is tried again for some seconds.
//
// Several processes may read the file at a time, so one that wants to change it could wait for ever, since there would always be
// one that reads. So a process that waits in order to change the file sets the file's modification time a second ahead of the
// clock, and again while it waits. A process that only reads, and sees such a time, lets the other one go first. This takes no
// other file, and what a process that was killed leaves of it is over after a second. It decides nothing: the lock alone says who
// has the file.

use cc_disk::{FileDisk, OpenFault};
use std::fs::{self, File, OpenOptions};
use std::thread;
use std::time::{Duration, Instant, SystemTime};

/// How many milliseconds pass between two tries at first. Each time the pause grows by half, up to `MOST_PAUSE`.
const LEAST_PAUSE: u64 = 1;

const MOST_PAUSE: u64 = 16;

/// How many milliseconds ahead of the clock a process that waits sets the time of the file.
const AHEAD: u64 = 1_000;

/// After how many milliseconds it does so again.
const AGAIN: u64 = 250;

/// For how many milliseconds, at most, a process that reads lets others go first.
const POLITE: u64 = 2_000;

/// How many seconds a command waits for a file if the command line says nothing else.
pub const USUAL_WAIT: u64 = 3;

// The time that a process still waits.
#[derive(Clone, Copy, Drop)]
struct Patience {
    rt: HostRuntime,
    begun: Option<Instant>,
    // How many milliseconds it waits in all.
    most: u64,
    // How many milliseconds of pauses there were, in case the clock fails.
    paused: u64,
    pause: u64,
}

impl Patience {
    fn new(rt: HostRuntime, seconds: u64) -> Patience {
        Patience {
            rt,
            begun: Instant::now(&rt).ok(),
            most: seconds.saturating_mul(1_000),
            paused: 0,
            pause: LEAST_PAUSE,
        }
    }

    // How many milliseconds it has waited.
    fn waited(&self) -> u64 {
        let Some(begun) = self.begun else {
            return self.paused;
        };
        match Instant::now(&self.rt) {
            Ok(now) => {
                let since = now.duration_since(begun);
                let seconds = since.as_secs().saturating_mul(1_000);
                seconds.saturating_add(u64::from(since.subsec_millis()))
            }
            Err(_) => self.paused,
        }
    }

    // Waits a moment if it has waited less than `most` milliseconds, and less than it waits in all. The result is whether it did.
    fn rest_within(&mut self, most: u64) -> bool {
        if self.waited() >= self.most.min(most) {
            return false;
        }
        thread::sleep(&self.rt, Duration::from_millis(self.pause));
        self.paused = self.paused.saturating_add(self.pause);
        self.pause = MOST_PAUSE.min(self.pause.saturating_add(self.pause / 2 + 1));
        true
    }

    // Waits a moment, if it still waits. The result is whether it did.
    fn rest(&mut self) -> bool {
        self.rest_within(u64::MAX)
    }
}

// Whether a process waits to change the file: whether the time of the file is ahead of the clock, but no more than a mark is.
fn is_marked(files: &HostRuntime, path: &str) -> bool {
    let Ok(found) = fs::metadata(files, path) else {
        return false;
    };
    let (Ok(modified), Ok(now)) = (found.modified(), SystemTime::now(files)) else {
        return false;
    };
    match modified.duration_since(now) {
        Ok(ahead) => !ahead.is_zero() && ahead <= Duration::from_millis(AHEAD),
        Err(_) => false,
    }
}

// The mark of a process that waits to change a file. If this process may not set the time of the file, it has no effect.
#[derive(Drop)]
struct Mark {
    rt: HostRuntime,
    file: Option<File>,
    // How many milliseconds its process had waited when it was set.
    set_at: u64,
}

impl Mark {
    // A mark on the file, which is set at once.
    fn new(rt: HostRuntime, path: &str) -> Mark {
        let mut how = OpenOptions::new();
        how.write(true);
        let mark = Mark {
            rt,
            file: how.open(&rt, path).ok(),
            set_at: 0,
        };
        mark.set(AHEAD);
        mark
    }

    // Sets the time of the file this many milliseconds ahead of the clock.
    fn set(&self, ahead: u64) {
        let Some(file) = &self.file else {
            return;
        };
        let Ok(now) = SystemTime::now(&self.rt) else {
            return;
        };
        if let Some(time) = now.checked_add(Duration::from_millis(ahead)) {
            let _ = file.set_modified(time);
        }
    }

    // Sets the mark again, if it is time for that.
    fn keep(&mut self, waited: u64) {
        if waited >= self.set_at.saturating_add(AGAIN) {
            self.set_at = waited;
            self.set(AHEAD);
        }
    }

    // Takes the mark away.
    fn clear(self) {
        self.set(0);
        drop(self);
    }
}

/// Opens the file for reading alone, beside others that read. As long as another process has it open in order to change it, this
/// is tried again, for this many seconds. A process that waits to change the file goes first, for up to two seconds of these.
///
/// InUse if another process has the file even then; DeviceFailed, at once, if the system refuses.
pub fn open_to_read(files: &HostRuntime, path: &str, wait: u64) -> Result<FileDisk, OpenFault> {
    let mut patience = Patience::new(*files, wait);
    for _ in 0..u64::MAX {
        if is_marked(files, path) && patience.rest_within(POLITE) {
            continue;
        }
        match FileDisk::open_to_read(files, path) {
            Err(OpenFault::InUse) => if !patience.rest() {
                return Err(OpenFault::InUse);
            },
            answer => return answer,
        }
    }
    Err(OpenFault::InUse)
}

/// Opens the file for reads and writes, alone. As long as another process has it open this is tried again, for this many seconds.
///
/// InUse if another process has the file even then; DeviceFailed, at once, if the system refuses.
pub fn open_to_change(files: &HostRuntime, path: &str, wait: u64) -> Result<FileDisk, OpenFault> {
    match FileDisk::open_to_change(files, path) {
        Err(OpenFault::InUse) if wait > 0 => {}
        answer => return answer,
    }
    let mut patience = Patience::new(*files, wait);
    let mut mark = Mark::new(*files, path);
    for _ in 0..u64::MAX {
        let answer = FileDisk::open_to_change(files, path);
        match answer {
            Err(OpenFault::InUse) if patience.rest() => mark.keep(patience.waited()),
            answer => {
                mark.clear();
                return answer;
            }
        }
    }
    mark.clear();
    Err(OpenFault::InUse)
}
