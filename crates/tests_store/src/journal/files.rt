// The disk on a file.

use crate::journal::helpers::{has_bytes, holds, opened};
use cc_disk::{Disk, FileDisk};
use cc_journal::format;
use std::alloc::Global;
use std::fs::{self, OpenOptions};
use std::test::Fail;
use tests_texts::verdict::passes;

// Whether nobody else can open the file as a disk or make a disk of it.
fn is_held(rt: &HostRuntime, path: &str) -> bool {
    FileDisk::open(rt, path).is_err() && FileDisk::create(rt, path, 9).is_err()
}

// Makes a journal with one record in a new file. The result is whether nobody else can use the file while the journal is open.
fn is_written(rt: &HostRuntime, alloc: Global, path: &str) -> Result<bool, Fail> {
    let mut disk = FileDisk::create(rt, path, 144)?;
    let has_size = disk.size() == 144;
    format(&mut disk, 64)?;
    let mut journal = opened(alloc, disk)?;
    journal.append(alloc, &[1, 3, 1, 0x61])?;
    let right = has_size && is_held(rt, path);
    drop(journal);
    Ok(right)
}

// Whether the file has the journal that `is_written` made.
fn is_found(rt: &HostRuntime, alloc: Global, path: &str) -> bool {
    match FileDisk::open(rt, path) {
        Ok(disk) => disk.size() == 144 && holds(alloc, disk, &[&[1, 3, 1, 0x61]]),
        Err(_) => false,
    }
}

// The file is removed again at the end of each test.
#[test]
fn a_journal_in_a_file(rt: HostRuntime) -> Result<(), Fail> {
    let path = "a_journal_in_a_file.disk";
    let right = is_written(&rt, rt.alloc(), path)? && is_found(&rt, rt.alloc(), path);
    passes(Ok(right && fs::remove_file(&rt, path).is_ok()))
}

// Whether reading twenty bytes at this offset succeeds or fails as `wanted` says, on a disk of 100 bytes, and exactly one read
// has failed so far.
fn is_read(disk: &mut FileDisk, offset: usize, wanted: bool) -> bool {
    let mut buffer = [0u8; 20];
    offset <= 80
        && disk.size() == 100
        && disk.read_at(offset, &mut buffer).is_ok() == wanted
        && disk.failures() == 1
}

// Whether a disk of zeros reads no further than its file goes, once somebody has truncated the file: a read past the file's end
// returns fewer bytes.
fn is_cut(rt: &HostRuntime, alloc: Global, path: &str) -> Result<bool, Fail> {
    let mut disk = FileDisk::create(rt, path, 100)?;
    let are_zeros = has_bytes(alloc, &mut disk, &[0; 100])?;
    let file = OpenOptions::new().write(true).open(rt, path)?;
    file.set_len(50)?;
    Ok(are_zeros && is_read(&mut disk, 40, false) && is_read(&mut disk, 30, true))
}

#[test]
fn a_read_that_is_short_fails(rt: HostRuntime) -> Result<(), Fail> {
    let path = "a_read_that_is_short_fails.disk";
    let right = is_cut(&rt, rt.alloc(), path)?;
    passes(Ok(right && fs::remove_file(&rt, path).is_ok()))
}

#[test]
fn a_file_that_the_system_refuses(rt: HostRuntime) {
    let opened = FileDisk::open(&rt, "there_is_no_such.disk").is_ok();
    let made = FileDisk::create(&rt, "there_is_no_such_folder/a.disk", 1).is_ok();
    // A device has no length to be set.
    assert!(rt; !opened && !made && FileDisk::create(&rt, "/dev/full", 1).is_err());
}
