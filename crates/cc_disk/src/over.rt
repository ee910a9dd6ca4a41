// The disk on a file, over the calls of the file.

ghost use Rattle.std.specs.Prelude.{true, false, ◌≡◌, ◌+◌, ◌-◌, ◌≤◌, ◌↔◌, ◌++◌, [], Some, replicate, length, take, drop, IfOk, OnOk, IsTrue, is_ok, if◌then◌else◌};
ghost use Rattle.cc_disk.specs.Images.{IsWritten, LeavesAlone};
ghost use Rattle.cc_disk.specs.File.{count_of};
ghost use Rattle.cc_disk.specs.Over.{SucceedsIfWhole};

use crate::calls::FileCalls;
use crate::count::FailureCount;
use crate::disk::{Disk, DiskFault};

/// The offset of the name by which a journal on a disk is recognised.
const NAME: usize = 1;

/// How many bytes a journal has up to and including the one that says whether it has a record.
const BEGINNING: usize = 17;

/// A disk on a file, whose length is the disk's size. It is honest if the file is.
///
/// Each call of the disk makes at most one call of the file, and returns 35 (DeviceFailed) if that call fails or moves fewer bytes
/// than were asked for. After a failed sync every later call returns 35 and does not reach the file: the system may have dropped
/// the pages that it could not write, and a later sync would not report the loss.
pub struct DiskOver<F: FileCalls> {
    file: F,
    size: usize,
    failed: FailureCount,
    // Whether a sync has failed.
    lost: bool,
    ghost whole: { IsTrue F.honest → (length (F.content file) ≡ size) × IsTrue (F.settled_length file) },
}

// Written by hand, so that crates that use this one rely on this proof and need not prove again how each part is dropped.
impl<F: FileCalls + Drop> Drop for DiskOver<F> {
    fn drop(self) {
        let DiskOver {
            file,
            size,
            failed,
            lost,
        } = self;
    }
}

impl<F: FileCalls + Drop> DiskOver<F> {
    /// Makes a disk of `size` zeros on this file, in place of what it has. Its space is allocated, and it is synced. An old journal
    /// there is made unrecognisable, and this is synced, before the old bytes are cut off, so a crash leaves either the whole old
    /// journal or nothing that is recognised as a journal.
    ///
    /// Fails with 35 (DeviceFailed) if a call of the file fails or is short.
    pub fn create_on(file: F, size: usize) -> Result<DiskOver<F>, DiskFault>
        ensures zeros { IfOk result (λ disk. IsTrue F.honest → F.content disk.file ≡ replicate size 0) }
        ensures settled { IfOk result (λ disk. IsTrue F.honest → LeavesAlone (replicate size 0) (F.may_leave disk.file)) }
        ensures size { IfOk result (λ disk. disk.size ≡ size) }
        ensures failed { IfOk result (λ disk. disk.failed ≡ 0) }
        ensures sound { IfOk result (λ disk. disk.lost ≡ false) }
    {
        let mut file = file;
        spoil(&mut file)?;
        file.set_len(0)?;
        put_zeros(&mut file, size)?;
        // The zeros are on the medium now, so no later write needs space.
        file.sync_all()?;
        Ok(DiskOver::on(file, size))
    }

    /// Makes a disk of the bytes that this file has. They are synced first.
    ///
    /// Fails with 35 (DeviceFailed) if a call of the file fails.
    pub fn open_on(file: F) -> Result<DiskOver<F>, DiskFault>
        ensures bytes { IfOk result (λ disk. IsTrue F.honest → F.content disk.file ≡ F.content file) }
        ensures settled { IfOk result (λ disk. IsTrue F.honest → LeavesAlone (F.content file) (F.may_leave disk.file)) }
        ensures failed { IfOk result (λ disk. disk.failed ≡ 0) }
        ensures sound { IfOk result (λ disk. disk.lost ≡ false) }
    {
        let mut file = file;
        file.sync_all()?;
        let size = file.len()? as usize;
        Ok(DiskOver::on(file, size))
    }
}

impl<F: FileCalls> DiskOver<F> {
    /// Makes a disk of this size on a file that has this length, settled.
    pub fn on(file: F, size: usize) -> DiskOver<F>
        requires { IsTrue F.honest → (length (F.content file) ≡ size) × IsTrue (F.settled_length file) }
        ensures file { result.file ≡ file }
        ensures size { result.size ≡ size }
        ensures failed { result.failed ≡ 0 }
        ensures sound { result.lost ≡ false }
    {
        DiskOver {
            file,
            size,
            failed: FailureCount::new(),
            lost: false,
        }
    }

    /// Returns the file, as the calls that reached it have left it.
    pub fn into_file(self) -> F
        ensures { result ≡ self.file }
    {
        let DiskOver {
            file,
            size: _,
            failed: _,
            lost: _,
        } = self;
        file
    }

    // The result of a call, given whether it was done; a failure is counted.
    fn told(&mut self, done: bool) -> Result<(), DiskFault>
        ensures answer { is_ok result ≡ done }
        ensures failed { self.new.failed ≡ (if done then self.old.failed else self.old.failed + 1) }
        ensures size { self.new.size ≡ self.old.size }
        ensures lost { self.new.lost ≡ self.old.lost }
        ensures file { self.new.file ≡ self.old.file }
    {
        if done {
            Ok(())
        } else {
            self.failed.add_one();
            Err(DiskFault::DeviceFailed)
        }
    }
}

// Whether a call of the file moved as many bytes as were asked for. Fewer bytes count as a failure.
fn is_whole(answer: Result<usize, DiskFault>, wanted: usize) -> bool
    ensures { IsTrue result ↔ (count_of answer ≡ Some wanted) }
{
    match answer {
        Ok(count) => count == wanted,
        Err(_) => false,
    }
}

// Writes these bytes at `offset` with one call. Fails with 35 if that call fails or writes fewer.
fn write_whole<F: FileCalls>(file: &mut F, offset: usize, bytes: &[u8]) -> Result<(), DiskFault>
    ensures { OnOk result (IsTrue F.honest → offset ≤ length (F.content file.old)
        → IsWritten (F.content file.old) offset bytes.now (F.content file.new)) }
{
    let answer = file.write_some(offset as u64, bytes);
    if is_whole(answer, bytes.len()) {
        Ok(())
    } else {
        Err(DiskFault::DeviceFailed)
    }
}

/// Makes a journal on the file unrecognisable, then clears its beginning; each write is on the medium before the next call.
/// Otherwise a file system that fills a truncated file with zeros in place could keep a journal's beginning, with zeros at
/// arbitrary places after it. A single byte is written first: whether torn or not, this write leaves the old journal whole or
/// unrecognisable. The file's length does not matter, since it may not have reached the medium either.
///
/// If all this succeeds, the file's first 17 bytes are zeros, and settled, as are all others. Fails with 35 if a call of the file
/// fails or is short.
pub fn spoil<F: FileCalls>(file: &mut F) -> Result<(), DiskFault>
    ensures spoiled { OnOk result (IsTrue F.honest → 17 ≤ length (F.content file.old)
        → F.content file.new ≡ replicate 17 0 ++ drop 17 (F.content file.old)) }
    ensures settled { OnOk result (IsTrue F.honest → LeavesAlone (F.content file.new) (F.may_leave file.new)) }
{
    let zeros = [0u8; BEGINNING];
    write_whole(file, NAME, &zeros[..1])?;
    file.sync_all()?;
    write_whole(file, 0, &zeros)?;
    file.sync_all()
}

// Adds this many zeros to a file of `done` zeros.
fn add_zeros<F: FileCalls>(file: &mut F, done: usize, count: usize) -> Result<(), DiskFault>
    requires { count ≤ 4096 }
    ensures { OnOk result (IsTrue F.honest → F.content file.old ≡ replicate done 0
        → F.content file.new ≡ replicate (done + count) 0) }
{
    let zeros = [0u8; 4096];
    write_whole(file, done, &zeros[..count])?;
    Ok(())
}

// Writes this many zeros into an empty file.
fn put_zeros<F: FileCalls>(file: &mut F, size: usize) -> Result<(), DiskFault>
    ensures { OnOk result (IsTrue F.honest → F.content file.old ≡ [] → F.content file.new ≡ replicate size 0) }
{
    let mut done = 0;
    while done < size {
        let count = (size - done).min(4096);
        add_zeros(file, done, count)?;
        done += count;
    }
    Ok(())
}

impl<F: FileCalls> Disk for DiskOver<F> {
    ghost size = { λ disk. disk.size };

    ghost failures = { λ disk. disk.failed };

    ghost honest = { F.honest };

    ghost seen = { λ disk. F.content disk.file };

    ghost may_leave = { λ disk image. F.may_leave disk.file image };

    ghost moment = { λ disk. F.moment disk.file };

    ghost left_since = { λ disk t image. F.left_since disk.file t image };

    // After a failed sync every call fails and does not reach the file; else the file's answer decides.
    ghost reads = { λ old offset buffer ok after new. (new.lost ≡ old.lost)
        × (old.lost ≡ true → (ok ≡ false) × (new.file ≡ old.file) × (after ≡ buffer))
        × (old.lost ≡ false → SucceedsIfWhole (λ answer. F.reads old.file offset buffer answer after new.file) (length buffer) ok) };

    ghost writes = { λ old offset bytes ok new. (new.lost ≡ old.lost)
        × (old.lost ≡ true → (ok ≡ false) × (new.file ≡ old.file))
        × (old.lost ≡ false → SucceedsIfWhole (λ answer. F.writes old.file offset bytes answer new.file) (length bytes) ok) };

    ghost syncs = { λ old ok new. (new.lost ≡ (if ok then old.lost else true))
        × (old.lost ≡ true → (ok ≡ false) × (new.file ≡ old.file))
        × (old.lost ≡ false → F.syncs old.file ok new.file) };

    fn size(&self) -> usize {
        self.size
    }

    fn read_at(&mut self, offset: usize, buffer: &mut [u8]) -> Result<(), DiskFault> {
        if self.lost {
            return self.told(false);
        }
        let answer = self.file.read_some(offset as u64, buffer);
        let done = is_whole(answer, buffer.len());
        self.told(done)
    }

    fn write_at(&mut self, offset: usize, bytes: &[u8]) -> Result<(), DiskFault> {
        if self.lost {
            return self.told(false);
        }
        let answer = self.file.write_some(offset as u64, bytes);
        let done = is_whole(answer, bytes.len());
        self.told(done)
    }

    fn sync(&mut self) -> Result<(), DiskFault> {
        if self.lost {
            return self.told(false);
        }
        let done = self.file.sync_bytes().is_ok();
        self.lost = !done;
        self.told(done)
    }

    fn failures(&self) -> u64 {
        self.failed.shown()
    }

    ghost has_size = { λ disk h. (disk.whole h).0 };

    ghost seen_is_image = { λ disk h. F.bytes_are_image disk.file h };

    ghost counts_now = { λ disk t image h le now. F.counts_now disk.file t image h le now };

    ghost only_now = { λ disk image h left. F.only_now disk.file image h left };
}
