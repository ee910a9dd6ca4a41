// The answer of a command that has ended, with what the command explained.

ghost use Rattle.std.specs.Prelude.{◌≤◌, IfOk};

use super::line::{LineObject, Said, object_of_line};
use super::object::{Object, write_object};
use super::performing::status_of;
use super::place::{final_in, told_object, words_in};
use super::telling::add_words;
use std::alloc::{AllocError, Global};
use std::io::{self, Write};

/// What a command wrote that has ended.
#[derive(Clone, Copy)]
pub struct Ended<'a> {
    /// Its answer.
    pub answers: &'a [u8],
    /// What it explained to a person.
    pub told: &'a [u8],
    /// The files that it compared, if it explains which of them has a fault.
    pub files: [&'a str; 2],
    /// Its status: 0 or 1.
    pub status: u8,
}

// The file that an explanation begins with, if it is one of these, and what is explained about it.
fn named<'a, 'b>(words: &'a str, files: &[&'b str; 2]) -> Option<(&'b str, &'a str)> {
    for file in files {
        if !file.is_empty()
            && let Some(rest) = words.strip_prefix(*file)
            && let Some(rest) = rest.strip_prefix(": ")
        {
            return Some((*file, rest));
        }
    }
    None
}

// Adds the explanation of the fault with this number.
fn add_reason(
    alloc: Global,
    object: &mut Object,
    number: u64,
    words: &[u8],
    files: &[&str; 2],
) -> Result<(), AllocError> {
    let words = String::from_utf8_lossy(alloc, words)?;
    let words = words.as_str();
    if let Some((file, rest)) = named(words, files) {
        object.words("file", file)?;
        return object.words("message", rest);
    }
    add_words(object, number, words)
}

// The numbers of the answers whose runs have stopped in place, in the order in which they are explained.
fn finals_in(alloc: Global, told: &[u8]) -> Result<Vec<u64>, AllocError> {
    let mut finals = Vec::new(alloc);
    for line in told.split(|byte| *byte == b'\n') {
        if let Some(number) = final_in(line) {
            finals.push(number)?;
        }
    }
    Ok(finals)
}

// Where the answers are of which it is known whether their runs have stopped in place: the number of the one that is written, and how
// many of the explained ones come before it.
#[derive(Clone, Copy)]
struct Reached {
    number: u64,
    passed: usize,
}

impl Reached {
    // After an empty line comes the next answer.
    fn after_line(self, line: &[u8]) -> Reached {
        Reached {
            number: if line.is_empty() {
                self.number.saturating_add(1)
            } else {
                self.number
            },
            passed: self.passed,
        }
    }

    // Whether the run of this answer has stopped in place.
    fn is_final(self, finals: &[u64]) -> bool {
        match finals.get(self.passed) {
            Some(number) => *number == 0 || *number == self.number,
            None => false,
        }
    }
}

// Writes the lines of the answer, each as an object. The first fault gets the words, if there are any. The result is whether it
// got them.
fn write_answers<W: Write>(
    alloc: Global,
    ended: &Ended<'_>,
    words: Option<&[u8]>,
    writer: &mut W,
) -> io::Result<bool> {
    let mut words = words;
    let mut is_told = false;
    let Some(lines) = ended.answers.strip_suffix(b"\n") else {
        return Ok(false);
    };
    let finals = finals_in(alloc, ended.told)?;
    let mut reached = Reached {
        number: 1,
        passed: 0,
    };
    for line in lines.split(|byte| *byte == b'\n') {
        let LineObject { mut object, said } = object_of_line(alloc, line)?;
        if let Said::End = said
            && reached.is_final(finals.as_slice())
        {
            object.truth("final")?;
            reached.passed = reached.passed.saturating_add(1);
        }
        reached = reached.after_line(line);
        if let Said::Fault(number) = said
            && let Some(words) = words.take()
        {
            add_reason(alloc, &mut object, number, words, &ended.files)?;
            is_told = true;
        }
        write_object(alloc, object, writer)?;
    }
    Ok(is_told)
}

// Writes the answer and what was explained. The result is the status.
fn write_all<W: Write>(alloc: Global, ended: &Ended<'_>, writer: &mut W) -> io::Result<u8>
    requires { ended.now.status ≤ 1 }
    ensures { IfOk result (λ status. status ≤ 1) }
{
    let told = ended.told.strip_suffix(b"\n").unwrap_or(ended.told);
    let mut lines = told.split(|byte| *byte == b'\n');
    let first = lines.next().unwrap_or(b"");
    if !write_answers(alloc, ended, words_in(first), writer)?
        && let Some(object) = told_object(alloc, first)?
    {
        write_object(alloc, object, writer)?;
    }
    for line in lines {
        if let Some(object) = told_object(alloc, line)? {
            write_object(alloc, object, writer)?;
        }
    }
    Ok(ended.status)
}

/// Writes what a command answered as an object of JSON for each line. What it explained becomes a part of the object of its
/// fault; without a fault, each line of it becomes an object of its own. The result is the status, which is 1 if writing failed or
/// there was no memory for an object.
pub fn write_ended<W: Write>(alloc: Global, ended: &Ended<'_>, writer: &mut W) -> u8
    requires { ended.now.status ≤ 1 }
    ensures { result ≤ 1 }
{
    let written = write_all(alloc, ended, writer);
    status_of(written, writer)
}
