// Who did what, and when: a file in the folder to which only the server writes.
//
// Each server begins a new file before its first text, and whenever a file reaches 16 MiB; 16 old files are kept. Nothing waits
// for the log, and nothing depends on it. Text that can't be written leaves no part of a line in the file; whoever has the text
// tries again later.

use crate::calls::{set_file_rights, set_length, write_at};
use crate::layout::FolderLayout;
use crate::refusal::Refusal;
use std::alloc::AllocError;
use std::fs::File;

/// The name of the file. An old file has a number after this name; the newest has 1.
const LOG: &str = "log";

/// The name of a new file until the old ones have their names.
const BEGUN: &str = "log.new";

/// How many bytes a file may have, and how many old ones are kept.
const LOG_FILE_BYTES: u64 = 16_777_216;

const MOST_OLD: u32 = 16;

/// The rights of the file.
const RIGHTS: u32 = 0o640;

/// What all clients of a server write to.
#[derive(Drop)]
pub(crate) struct Log {
    // The file that this server began, and how many bytes it has.
    file: Option<File>,
    bytes: u64,
    // Whether the last write was refused. That was reported, and the file may have more bytes than those counted.
    is_refused: bool,
}

// The name of the file, for 0, or of an old one.
fn name_of(layout: &FolderLayout, number: u32) -> Result<String, AllocError> {
    if number == 0 {
        String::from_str(layout.alloc, LOG)
    } else {
        format!(in layout.alloc; "{LOG}.{number}")
    }
}

// The first number that no file has, of 0 to 15; 16 if each of these has a file.
fn first_free(layout: &FolderLayout) -> Result<u32, Refusal> {
    for number in 0..MOST_OLD {
        let name = name_of(layout, number)?;
        if !layout.has(name.as_str())? {
            return Ok(number);
        }
    }
    Ok(MOST_OLD)
}

// Gives each file the next number, up to the first number that is free; if none is, the oldest file is dropped. So a call that
// follows one that was refused halfway drops no further file.
fn make_way(layout: &FolderLayout) -> Result<(), Refusal> {
    let free = first_free(layout)?;
    for number in (0..free).rev() {
        let (from, to) = (name_of(layout, number)?, name_of(layout, number + 1)?);
        layout.rename_part(from.as_str(), to.as_str())?;
    }
    Ok(())
}

// Gives a new file its rights and its name.
fn enter(layout: &FolderLayout, file: &File) -> Result<(), Refusal> {
    set_file_rights(file, RIGHTS)?;
    make_way(layout)?;
    layout.rename_part(BEGUN, LOG)
}

// Begins a new file. The old ones change their names only once it is there.
fn begin_anew(layout: &FolderLayout) -> Result<File, Refusal> {
    // A server that was killed may have left one.
    let _ = layout.remove_part(BEGUN);
    let file = layout.make_part_file(BEGUN)?;
    match enter(layout, &file) {
        Ok(()) => Ok(file),
        Err(refusal) => {
            drop(file);
            let _ = layout.remove_part(BEGUN);
            Err(refusal)
        }
    }
}

impl Log {
    pub(crate) fn new() -> Log {
        Log {
            file: None,
            bytes: 0,
            is_refused: false,
        }
    }

    // Begins a new file if no file is open, or it lacks room for these bytes.
    fn turn_over(&mut self, layout: &FolderLayout, text: &[u8]) -> Result<(), Refusal> {
        let after = self.bytes.saturating_add(text.len() as u64);
        if self.file.is_none() || LOG_FILE_BYTES < after {
            self.file = None;
            self.file = Some(begin_anew(layout)?);
            self.bytes = 0;
        }
        Ok(())
    }

    // Cuts off what a refused write left after the bytes that count.
    fn cut(&self) -> Result<(), Refusal> {
        match &self.file {
            Some(file) if self.is_refused => set_length(file, self.bytes),
            _ => Ok(()),
        }
    }

    // Appends bytes to the file.
    fn append(&mut self, layout: &FolderLayout, text: &[u8]) -> Result<(), Refusal> {
        self.turn_over(layout, text)?;
        self.cut()?;
        if let Some(file) = &self.file {
            write_at(file, text, self.bytes)?;
            self.bytes = self.bytes.saturating_add(text.len() as u64);
        }
        Ok(())
    }

    // Notes that a write was refused, and reports the first refusal since the last write that was not.
    fn refuse(&mut self, layout: &FolderLayout) {
        if !self.is_refused {
            let _ = eprintln!(layout.rt;
                "cclib: {}/{LOG} can't be written: the server tries again until it can",
                layout.path
            );
        }
        self.is_refused = true;
        let _ = self.cut();
    }

    /// Writes these whole lines. The result is whether they were written; if not, the file has no part of them, unless it can't
    /// be cut either. The server reports the first of several refusals in a row.
    pub(crate) fn write(&mut self, layout: &FolderLayout, text: &[u8]) -> bool {
        let is_written = self.append(layout, text).is_ok();
        if is_written {
            self.is_refused = false;
        } else {
            self.refuse(layout);
        }
        is_written
    }
}
