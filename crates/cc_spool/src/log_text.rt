// What the log says about a script.
//
// A line has the time in seconds since 1970, the user who owns the script's file, a line of the script, and how that was answered.
// Each line that changed the library, or may have, is there. Anybody may send any number of other lines at no cost, which would
// push those out: so only the first few of a script's other commands are there, and then a line that says how many lines were left
// out. In that line a number has the place of a command, as in no other line: lines that are no command are always left out.

use crate::answer_words::{Word, first_words};
use crate::layout::FolderLayout;
use crate::names::since_1970;
use crate::refusal::Refusal;
use std::alloc::AllocError;
use std::fmt::Write;

/// At most this many of a script's commands that changed nothing are there.
const MOST_OTHER: usize = 4;

/// The faults after which a change may have been made: the device failed in it (35), or its answer could not be written (54).
const DISK_FAULT: u32 = 35;

const WRITE_FAULT: u32 = 54;

/// The fault of a line that is no command.
const BAD_LINE: u32 = 50;

// Whether a command that is answered `ok` changes nothing.
fn is_question(line: &[u8]) -> bool {
    let (verb, _) = first_words(line);
    verb == b"list".as_slice() || verb == b"audit".as_slice() || verb == b"space".as_slice()
}

// Whether a line that was answered like this changed the library, or may have.
fn is_change(line: &[u8], word: Word) -> bool {
    match word {
        Word::Ok => !is_question(line),
        Word::Fault(number) => number == DISK_FAULT || number == WRITE_FAULT,
        Word::Going | Word::Exited | Word::Trapped | Word::Source | Word::Image => false,
    }
}

// Writes a line of a script as a log shows it, with `?` for control bytes and bytes outside ASCII.
fn show(line: &[u8], text: &mut String) -> Result<(), AllocError> {
    for byte in line {
        let is_plain = b' ' <= *byte && *byte <= b'~';
        text.push(char::from(if is_plain { *byte } else { b'?' }))?;
    }
    Ok(())
}

// Writes how a line was answered.
fn say(word: Word, text: &mut String) -> Result<(), AllocError> {
    match word {
        Word::Ok => text.push_str("ok"),
        Word::Fault(number) => {
            write!(text, "fault {number}")?;
            Ok(())
        }
        Word::Going => text.push_str("going"),
        Word::Exited => text.push_str("exited"),
        Word::Trapped => text.push_str("trapped"),
        Word::Source => text.push_str("source"),
        Word::Image => text.push_str("image"),
    }
}

// What a log says about one script, as far as it is written.
#[derive(Drop)]
struct Account {
    text: String,
    seconds: u64,
    user: u32,
    // How many more commands that changed nothing may be there, and how many lines were left out.
    room: usize,
    left_out: u64,
}

impl Account {
    // Whether a line that was answered like this is to be there.
    fn admits(&mut self, line: &[u8], word: Word) -> bool {
        if is_change(line, word) {
            return true;
        }
        let is_admitted = !matches!(word, Word::Fault(BAD_LINE)) && 0 < self.room;
        if is_admitted {
            self.room = self.room.saturating_sub(1);
        }
        is_admitted
    }

    // Writes what the log says about a line.
    fn write_line(&mut self, line: &[u8], word: Word) -> Result<(), AllocError> {
        write!(self.text, "{} {} ", self.seconds, self.user)?;
        show(line, &mut self.text)?;
        self.text.push(' ')?;
        say(word, &mut self.text)?;
        self.text.push('\n')
    }

    // Writes how many lines were left out, if some were.
    fn end(mut self) -> Result<String, AllocError> {
        if 0 < self.left_out {
            writeln!(
                self.text,
                "{} {} {} lines left out",
                self.seconds, self.user, self.left_out
            )?;
        }
        Ok(self.text)
    }
}

/// What a log says about the lines of a script, each with how it was answered. If there are more lines than answers, or the
/// reverse, it says nothing about the rest.
pub(crate) fn text_of(
    layout: &FolderLayout,
    user: u32,
    lines: &[u8],
    words: &[Word],
) -> Result<String, Refusal> {
    let mut account = Account {
        text: String::new(layout.alloc),
        seconds: since_1970(&layout.rt)?.as_secs(),
        user,
        room: MOST_OTHER,
        left_out: 0,
    };
    let mut each = lines.split(|byte| *byte == b'\n');
    for word in words {
        let Some(line) = each.next() else {
            break;
        };
        if account.admits(line, *word) {
            account.write_line(line, *word)?;
        } else {
            account.left_out = account.left_out.saturating_add(1);
        }
    }
    Ok(account.end()?)
}

/// The line that says how many lines could not be kept until they could be written. Their users are not known: `-` is in the place
/// of the user.
pub(crate) fn missing_line(layout: &FolderLayout, missing: u64) -> Result<String, Refusal> {
    let seconds = since_1970(&layout.rt)?.as_secs();
    Ok(format!(in layout.alloc; "{seconds} - {missing} lines missing\n")?)
}
