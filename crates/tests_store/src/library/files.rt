// The library on a file in memory: a call of the file that goes wrong, a crash, and the library opened again.

use crate::library::helpers::{Step, does, holds, opened};
use cc_disk::{DiskOver, FileCalls, MemoryFile, Trouble};
use cc_journal::format;
use cc_library::Library;
use std::alloc::Global;
use std::test::Fail;
use tests_texts::verdict::{passes, row_passes};

// The file of a library that holds `a`, with areas of 64 bytes, in place of older bytes.
fn with_a(alloc: Global) -> Result<MemoryFile, Fail> {
    let file = MemoryFile::new(alloc, b"what was there before")?;
    let mut disk = DiskOver::create_on(file, 144)?;
    format(&mut disk, 64)?;
    let mut library = opened(alloc, disk)?;
    if does(alloc, &mut library, Step::Add(b'a', 1))? != 0 {
        return Err(Fail::from("not added"));
    }
    Ok(library.into_disk().into_file())
}

// Adds `b` while the file's call after this many goes wrong, crashes, and opens again. The result is whether `a` is there then, and
// `b` too if it was answered so. If the call that goes wrong is one of opening, there is nothing to add.
fn is_kept(alloc: Global, passed: u64, trouble: Trouble, choice: u8) -> Result<bool, Fail> {
    let Ok(disk) = DiskOver::open_on(with_a(alloc)?.failing(passed, trouble)) else {
        return Ok(true);
    };
    let Ok(mut library) = Library::open(alloc, disk) else {
        return Ok(true);
    };
    let added = does(alloc, &mut library, Step::Add(b'b', 2))? == 0;
    let file = library.into_disk().into_file();
    let library = opened(alloc, DiskOver::open_on(file.crash(&[choice; 144])?)?)?;
    let has_both = holds(alloc, &library, (Some(1), Some(2)))?;
    Ok(has_both || (!added && holds(alloc, &library, (Some(1), None))?))
}

// Whether a library is kept whatever byte a crash leaves, of those tried.
fn are_kept(alloc: Global, passed: u64, trouble: Trouble) -> Result<bool, Fail> {
    for choice in [0, 0xa5, 255] {
        if !is_kept(alloc, passed, trouble, choice)? {
            return Ok(false);
        }
    }
    Ok(true)
}

#[test]
fn every_call_of_a_file_and_a_crash(rt: HostRuntime) -> Result<(), Fail> {
    let alloc = rt.alloc();
    for passed in 0..24u64 {
        row_passes(passed as usize, are_kept(alloc, passed, Trouble::Refused))?;
        row_passes(passed as usize, are_kept(alloc, passed, Trouble::Short))?;
    }
    Ok(())
}

// A length that is not settled is lost: the file is the choice then.
fn is_lost(alloc: Global) -> Result<bool, Fail> {
    let mut file = MemoryFile::new(alloc, &[7; 4])?;
    file.set_len(2)?;
    let loose = file.crash(&[9, 9, 9])?.len()? == 3;
    file.sync_all()?;
    Ok(loose && file.crash(&[9, 9, 9])?.len()? == 2)
}

#[test]
fn a_length_that_is_not_settled(rt: HostRuntime) -> Result<(), Fail> {
    passes(is_lost(rt.alloc()))
}
