// The file that a script is read from, and the lines that were read, without the sources and input words that come after a
// line. The lines are those that a session reads: otherwise the log would have the answer to one line beside another.

use cc_script::{Dialect, LINE_BYTES, ScriptCommand, command_of};
use std::alloc::Global;
use std::fs::File;
use std::io::{self, Read};

/// At most this many lines are kept: no server runs more lines of a script.
const MOST_LINES: usize = 65_536;

// What the next byte of a script belongs to.
#[derive(Clone, Copy, Drop)]
enum Part {
    // A line.
    Line,
    // This many bytes after a line, at least one; then this many more, if two such parts come after the line.
    Bytes(u64, Option<u64>),
    // The byte after a part that comes after a line: a newline, or the first byte of the rest of a line that is not a command.
    End(Option<u64>),
    // The rest of a line that is not a command.
    Rest,
}

/// A script that is read from a file, and its lines so far. Lines for which there is no memory are missing from the log.
pub struct ScriptFile {
    file: File,
    part: Part,
    // The line that is being read, and whether it has more bytes than a command may have: then its first ones are kept.
    line: Vec<u8>,
    is_long: bool,
    // The lines read to their end, each with a newline, and how many there are.
    lines: Vec<u8>,
    count: usize,
    // Whether all lines so far were kept.
    is_whole: bool,
}

// Written by hand, so that crates that use this one rely on this proof and need not prove again how each part is dropped.
impl Drop for ScriptFile {
    fn drop(self) {
        let ScriptFile {
            file,
            part,
            line,
            is_long,
            lines,
            count,
            is_whole,
        } = self;
    }
}

// A part of `count` bytes, and then one of `then` bytes, if that is given.
fn part_of(count: u64, then: Option<u64>) -> Part {
    if count == 0 {
        Part::End(then)
    } else {
        Part::Bytes(count, then)
    }
}

// What comes after a line: the sources or input words of its command, as a session reads them, if it has some.
fn part_after(line: &[u8]) -> Part {
    match command_of(Dialect::Served, line) {
        Some(ScriptCommand::Add { length, .. }) => part_of(length as u64, None),
        Some(ScriptCommand::Replace { length, .. }) => part_of(length as u64, None),
        Some(ScriptCommand::Call { length, .. }) => part_of(length as u64, None),
        Some(
            ScriptCommand::Update {
                expected,
                length,
                ..
            },
        ) => part_of(expected as u64, Some(length as u64)),
        _ => Part::Line,
    }
}

impl ScriptFile {
    /// The state before any of the script is read.
    pub(crate) fn new(alloc: Global, file: File) -> ScriptFile {
        ScriptFile {
            file,
            part: Part::Line,
            line: Vec::new(alloc),
            is_long: false,
            lines: Vec::new(alloc),
            count: 0,
            is_whole: true,
        }
    }

    /// The file.
    pub(crate) fn file(&self) -> &File {
        &self.file
    }

    /// The lines that were read, each with a newline.
    pub(crate) fn lines(&self) -> &[u8] {
        self.lines.as_slice()
    }

    // Keeps the line that ended.
    fn keep(&mut self) {
        if !self.is_whole || MOST_LINES <= self.count {
            return;
        }
        let is_kept = self.lines.extend_from_slice(self.line.as_slice()).is_ok();
        self.is_whole = is_kept && self.lines.push(b'\n').is_ok();
        self.count = self.count.saturating_add(1);
    }

    // A line has ended.
    fn end_line(&mut self) {
        self.keep();
        self.part = if self.is_long {
            Part::Line
        } else {
            part_after(self.line.as_slice())
        };
        self.line.clear();
        self.is_long = false;
    }

    // Reads a byte of a line.
    fn take_of_line(&mut self, byte: u8) {
        if byte == b'\n' {
            self.end_line();
        } else if LINE_BYTES <= self.line.len() {
            self.is_long = true;
        } else if self.line.push(byte).is_err() {
            self.is_whole = false;
        }
    }

    // The script has ended: so has its last line, if no newline ended that.
    fn end(&mut self) {
        if let Part::Line = self.part
            && !self.line.is_empty()
        {
            self.end_line();
        }
    }

    // Reads a byte of the script.
    fn take(&mut self, byte: u8) {
        match self.part {
            Part::Line => self.take_of_line(byte),
            Part::Bytes(count, then) => self.part = part_of(count.saturating_sub(1), then),
            Part::End(Some(count)) if byte == b'\n' => self.part = part_of(count, None),
            Part::End(None) if byte == b'\n' => self.part = Part::Line,
            Part::End(_) => self.part = Part::Rest,
            Part::Rest if byte == b'\n' => self.part = Part::Line,
            Part::Rest => {}
        }
    }
}

impl Read for ScriptFile {
    fn read(&mut self, room: &mut [u8]) -> io::Result<usize> {
        let count = self.file.read(room)?;
        for i in 0..count {
            self.take(room[i]);
        }
        if count == 0 && !room.is_empty() {
            self.end();
        }
        Ok(count)
    }
}
