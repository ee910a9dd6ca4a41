// A disk that fails on purpose after a number of calls, once or for good.

ghost use Rattle.std.specs.Prelude.{◌≡◌, ◌+◌, true, false, Some};
ghost use Rattle.cc_disk.specs.Fuse.{course_of, after_call, ReachesAndFails};

use crate::count::FailureCount;
use crate::disk::{Disk, DiskFault};

/// What a fuse does when it blows.
#[derive(Clone, Copy, Debug)]
pub enum FuseMode {
    /// Only the next call fails, and does not reach the disk.
    Once,
    /// The next call and all later ones fail, and do not reach the disk.
    Before,
    /// As `Before`, but if the next call is a write, its bytes reach the disk, unsettled, and the call then fails.
    Within,
}

// What happens to one call.
#[derive(Clone, Copy)]
enum Course {
    // The call is passed on to the disk.
    Passes,
    // The call fails, and does not reach the disk.
    Fails,
    // The call is a write that reaches the disk and then fails.
    WritesAndFails,
}

/// A disk that fails on purpose. It passes a number of calls of `read_at`, `write_at` and `sync` on to the disk that it was made
/// from, and then does what its mode says. It is honest if that disk is.
pub struct FuseDisk<D: Disk> {
    disk: D,
    // How many calls still pass before the fuse blows; `None` once it has blown.
    ahead: Option<u64>,
    mode: FuseMode,
    // The failures that the fuse caused, apart from those of the disk.
    failed: FailureCount,
}

// Written by hand, so that crates that use this one rely on this proof and need not prove again how each part is dropped.
impl<D: Disk + Drop> Drop for FuseDisk<D> {
    fn drop(self) {
        let FuseDisk {
            disk,
            ahead,
            mode,
            failed,
        } = self;
    }
}

impl<D: Disk> FuseDisk<D> {
    /// Makes a disk that passes this many calls before the fuse blows.
    pub fn new(disk: D, passes: u64, mode: FuseMode) -> FuseDisk<D>
        ensures disk { result.disk ≡ disk }
        ensures ahead { result.ahead ≡ Some passes }
        ensures mode { result.mode ≡ mode }
        ensures failed { result.failed ≡ 0 }
    {
        FuseDisk {
            disk,
            ahead: Some(passes),
            mode,
            failed: FailureCount::new(),
        }
    }

    /// Returns the disk that the fuse disk was made from, as the calls that reached it have left it.
    pub fn into_disk(self) -> D
        ensures { result ≡ self.disk }
    {
        let FuseDisk {
            disk,
            ahead: _,
            mode: _,
            failed: _,
        } = self;
        disk
    }
}

// What happens to the next call.
fn next_course(mode: FuseMode, ahead: Option<u64>, write: bool) -> Course
    ensures { result ≡ course_of mode ahead write }
{
    match ahead {
        Some(0) => match mode {
            FuseMode::Within if write => Course::WritesAndFails,
            _ => Course::Fails,
        },
        Some(_) => Course::Passes,
        None => match mode {
            FuseMode::Once => Course::Passes,
            FuseMode::Before | FuseMode::Within => Course::Fails,
        },
    }
}

// How many calls still pass before the fuse blows, after one more call.
pub fn one_less(ahead: Option<u64>) -> Option<u64>
    ensures { result ≡ after_call ahead }
{
    match ahead {
        Some(0) | None => None,
        Some(calls) => Some(calls - 1),
    }
}

impl<D: Disk> Disk for FuseDisk<D> {
    ghost use Rattle.cc_disk.specs.declared.fuse.Course.{Course};

    ghost size = { λ fuse. D.size fuse.disk };

    ghost failures = { λ fuse. fuse.failed + D.failures fuse.disk };

    ghost honest = { D.honest };

    ghost seen = { λ fuse. D.seen fuse.disk };

    ghost may_leave = { λ fuse image. D.may_leave fuse.disk image };

    ghost moment = { λ fuse. D.moment fuse.disk };

    ghost left_since = { λ fuse t image. D.left_since fuse.disk t image };

    // The mode and the number of calls that still pass decide whether the call is passed on to the disk, or fails and does not
    // reach the disk.
    ghost reads = { λ old offset buffer ok after new. (new.ahead ≡ after_call old.ahead) × (new.mode ≡ old.mode)
        × (course_of old.mode old.ahead false ≡ Course.Passes
        → (new.failed ≡ old.failed) × D.reads old.disk offset buffer ok after new.disk)
        × (course_of old.mode old.ahead false ≡ Course.Fails → (ok ≡ false) × (new.disk ≡ old.disk) × (after ≡ buffer)) };

    // In the mode `Within` a write may also reach the disk and then fail.
    ghost writes = { λ old offset bytes ok new. (new.ahead ≡ after_call old.ahead) × (new.mode ≡ old.mode)
        × (course_of old.mode old.ahead true ≡ Course.Passes
        → (new.failed ≡ old.failed) × D.writes old.disk offset bytes ok new.disk)
        × (course_of old.mode old.ahead true ≡ Course.Fails → (ok ≡ false) × (new.disk ≡ old.disk))
        × (course_of old.mode old.ahead true ≡ Course.WritesAndFails → (ok ≡ false)
        × ReachesAndFails (D.writes old.disk offset bytes) (D.failures old.disk) (D.failures new.disk) new.disk) };

    ghost syncs = { λ old ok new. (new.ahead ≡ after_call old.ahead) × (new.mode ≡ old.mode)
        × (course_of old.mode old.ahead false ≡ Course.Passes
        → (new.failed ≡ old.failed) × D.syncs old.disk ok new.disk)
        × (course_of old.mode old.ahead false ≡ Course.Fails → (ok ≡ false) × (new.disk ≡ old.disk)) };

    fn size(&self) -> usize {
        self.disk.size()
    }

    fn read_at(&mut self, offset: usize, buffer: &mut [u8]) -> Result<(), DiskFault> {
        let course = next_course(self.mode, self.ahead, false);
        self.ahead = one_less(self.ahead);
        match course {
            Course::Passes => self.disk.read_at(offset, buffer),
            Course::Fails | Course::WritesAndFails => {
                self.failed.add_one();
                Err(DiskFault::DeviceFailed)
            }
        }
    }

    fn write_at(&mut self, offset: usize, bytes: &[u8]) -> Result<(), DiskFault> {
        let course = next_course(self.mode, self.ahead, true);
        self.ahead = one_less(self.ahead);
        match course {
            Course::Passes => self.disk.write_at(offset, bytes),
            Course::Fails => {
                self.failed.add_one();
                Err(DiskFault::DeviceFailed)
            }
            Course::WritesAndFails => {
                // If the disk itself fails, the disk has counted the failure.
                self.disk.write_at(offset, bytes)?;
                self.failed.add_one();
                Err(DiskFault::DeviceFailed)
            }
        }
    }

    fn sync(&mut self) -> Result<(), DiskFault> {
        let course = next_course(self.mode, self.ahead, false);
        self.ahead = one_less(self.ahead);
        match course {
            Course::Passes => self.disk.sync(),
            Course::Fails | Course::WritesAndFails => {
                self.failed.add_one();
                Err(DiskFault::DeviceFailed)
            }
        }
    }

    fn failures(&self) -> u64 {
        self.failed.shown().saturating_add(self.disk.failures())
    }

    ghost has_size = { λ fuse h. D.has_size fuse.disk h };

    ghost seen_is_image = { λ fuse h. D.seen_is_image fuse.disk h };

    ghost counts_now = { λ fuse t image h le now. D.counts_now fuse.disk t image h le now };

    ghost only_now = { λ fuse image h left. D.only_now fuse.disk image h left };
}
