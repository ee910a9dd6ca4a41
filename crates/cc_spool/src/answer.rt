// The file that an answer is written to.

ghost use Rattle.std.specs.Prelude.{◌≡◌, ◌+◌, true, false, IfOk, IfErr, OnOk};
ghost use Rattle.std.specs.Io.{WritesAtMost};

use crate::answer_words::{AnswerWords, Word};
use std::alloc::Global;
use std::fs::File;
use std::io::{self, BufWriter, Write};

/// An answer has at most this many bytes.
const ANSWER_BYTES: u64 = 16_777_216;

/// An answer that is being written, of at most 16,777,216 bytes. After a write or a flush has been refused, all later ones are
/// refused too, since the file then lacks bytes.
pub struct AnswerFile {
    writer: BufWriter<File>,
    left: u64,
    is_refused: bool,
    // How the lines of its script were answered.
    words: AnswerWords,
}

// Written by hand, so that crates that use this one rely on this proof and need not prove again how each part is dropped.
impl Drop for AnswerFile {
    fn drop(self) {
        let AnswerFile {
            writer,
            left,
            is_refused,
            words,
        } = self;
    }
}

impl AnswerFile {
    /// A new answer, to be written to this file.
    pub(crate) fn new(alloc: Global, file: File) -> io::Result<AnswerFile>
        ensures room { IfOk result (λ answer. answer.left ≡ 16777216) }
        ensures fresh { IfOk result (λ answer. answer.is_refused ≡ false) }
    {
        Ok(AnswerFile {
            writer: BufWriter::new(alloc, file)?,
            left: ANSWER_BYTES,
            is_refused: false,
            words: AnswerWords::new(alloc),
        })
    }

    /// Writes what is left to write, and syncs the file. An `Err` if part of the answer was refused.
    pub(crate) fn settle(&mut self) -> io::Result<()>
        ensures whole { OnOk result (self.old.is_refused ≡ false) }
    {
        self.pass_on()?;
        self.writer.get_ref().sync_all()
    }

    /// How the lines of its script were answered, in order.
    pub(crate) fn words(&self) -> &[Word] {
        self.words.words()
    }

    /// Refuses all later writes. The log has 54 for the line that was being answered.
    pub(crate) fn refuse(&mut self)
        ensures whole { self.new.is_refused ≡ true }
    {
        if !self.is_refused {
            self.words.refuse();
        }
        self.is_refused = true;
    }

    // Takes some of these bytes. An interrupted write may be tried again; after any other refusal all later writes are refused.
    fn take(&mut self, bytes: &[u8]) -> io::Result<usize>
        ensures bound { WritesAtMost result bytes.now }
        ensures room { IfOk result (λ count. count + self.new.left ≡ self.old.left) }
        ensures whole { OnOk result (self.old.is_refused ≡ false) }
        ensures kept { self.old.is_refused ≡ true → self.new.is_refused ≡ true }
    {
        if self.is_refused || self.left < bytes.len() as u64 {
            self.refuse();
            return Err(io::Error::from(io::ErrorKind::FileTooLarge));
        }
        match self.writer.write(bytes) {
            Ok(count) => {
                self.left -= count as u64;
                self.words.take(&bytes[..count]);
                Ok(count)
            }
            Err(error) => {
                if error.kind() != io::ErrorKind::Interrupted {
                    self.refuse();
                }
                Err(error)
            }
        }
    }

    // Writes the bytes taken so far to the file.
    fn pass_on(&mut self) -> io::Result<()>
        ensures whole { OnOk result (self.old.is_refused ≡ false) }
        ensures kept { self.old.is_refused ≡ true → self.new.is_refused ≡ true }
        ensures refused { IfErr result (λ _. self.new.is_refused ≡ true) }
    {
        if self.is_refused {
            return Err(io::Error::from(io::ErrorKind::FileTooLarge));
        }
        match self.writer.flush() {
            Ok(()) => Ok(()),
            Err(error) => {
                self.is_refused = true;
                Err(error)
            }
        }
    }
}

impl Write for AnswerFile {
    fn write(&mut self, bytes: &[u8]) -> io::Result<usize> {
        self.take(bytes)
    }

    fn flush(&mut self) -> io::Result<()> {
        self.pass_on()
    }
}
