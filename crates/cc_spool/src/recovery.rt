// What is done about files that a killed server left, and those that clients left long ago.

use crate::calls::{read_at, set_length, settle, write_at};
use crate::claims::{INTERRUPTED, UNWRITTEN, hand_over};
use crate::entries::Entry;
use crate::found::Found;
use crate::layout::FolderLayout;
use crate::lines::Lines;
use crate::names::{ANSWER, TRIED, is_plain, since_1970};
use crate::place::Place;
use crate::refusal::Refusal;
use std::alloc::{AllocError, Global};
use std::fs::File;
use std::io;

const DAY: i64 = 86_400;

// The plain names found in `cur`: those of scripts, and those of answers.
#[derive(Drop)]
struct Left {
    claims: Vec<String>,
    answers: Vec<String>,
}

// Notes a name.
fn note(names: &mut Vec<String>, alloc: Global, name: &str) -> Result<(), AllocError> {
    names.push(String::from_str(alloc, name)?)?;
    Ok(())
}

impl Left {
    fn note(&mut self, alloc: Global, name: &str) -> Result<(), AllocError> {
        match name.strip_suffix(ANSWER) {
            Some(script) if is_plain(script) => note(&mut self.answers, alloc, script),
            None if is_plain(name) => note(&mut self.claims, alloc, name),
            _ => Ok(()),
        }
    }

    // Looks through `cur`.
    fn look(&mut self, layout: &FolderLayout) -> Result<(), Refusal> {
        let mut entries = layout.entries("cur")?;
        for _ in 0..u64::MAX {
            match entries.next() {
                Entry::Named(name) => self.note(layout.alloc, name.as_str())?,
                Entry::Odd => {}
                Entry::Refused(refusal) => return Err(refusal),
                Entry::End => break,
            }
        }
        Ok(())
    }
}

// The length of the longest beginning of a file that consists of whole lines, and of whole sources with the lines that say their
// lengths.
fn whole_lines(file: &File) -> Result<u64, Refusal> {
    let end = Found::of_file(file)?.bytes;
    let mut piece = [0u8; 4096];
    let mut lines = Lines::new();
    let mut read = 0u64;
    let mut whole = 0u64;
    for _ in 0..u64::MAX {
        if read >= end {
            break;
        }
        let count = (end - read).min(4096);
        let part = &mut piece[..count as usize];
        read_at(file, part, read)?;
        for byte in part.iter() {
            lines.read(*byte);
            read = read.saturating_add(1);
            if lines.is_between() {
                whole = read;
            }
        }
    }
    Ok(whole)
}

// Whether the first `end` bytes of a file end with this line.
fn ends_with(file: &File, end: u64, line: &[u8]) -> Result<bool, Refusal> {
    let mut last = [0u8; 21];
    let count = line.len();
    if count > 21 || end < count as u64 {
        return Ok(false);
    }
    read_at(file, &mut last[..count], end - count as u64)?;
    Ok(&last[..count] == line)
}

// Completes the answer to a script that was begun: what was written up to the last whole line is kept, and a line after it says,
// once, that the script was interrupted. An answer that begins with the line for 54 is cut off after that line: a server was killed
// while it wrote the line over the answer.
//
// An answer that ends within a source is cut off before the line that says how long the source is. Otherwise the line for 55 could
// be taken for the rest of the source, and nobody could tell the two apart.
fn complete(file: &File) -> Result<(), Refusal> {
    let end = whole_lines(file)?;
    let unwritten = UNWRITTEN.len() as u64;
    if unwritten <= end && ends_with(file, unwritten, UNWRITTEN)? {
        set_length(file, unwritten)?;
    } else {
        set_length(file, end)?;
        if !ends_with(file, end, INTERRUPTED)? {
            write_at(file, INTERRUPTED, end)?;
        }
    }
    settle(file)
}

// Takes a claimed script out of `new`: on a system that does not order renames, a power cut may leave it under both names.
fn take_out(layout: &FolderLayout, name: &str) -> Result<(), Refusal> {
    match (
        layout.look(Place::Claimed, name)?,
        layout.look(Place::Waiting, name)?,
    ) {
        (Some(here), Some(there)) if here.is_same(&there) => layout.remove(Place::Waiting, name),
        _ => Ok(()),
    }
}

// The state in which a start finds an answer.
#[derive(Clone, Copy, Drop)]
enum LeftAnswer {
    Gone,
    // Its script was not claimed.
    Unclaimed,
    // A script with its name was answered: a client made this file, for a new claim, before the old claim was removed.
    Answered,
    Begun,
}

fn left_answer(layout: &FolderLayout, name: &str) -> Result<LeftAnswer, Refusal> {
    let Some(found) = layout.look(Place::Answer, name)? else {
        return Ok(LeftAnswer::Gone);
    };
    if !found.is_file() {
        Err(Refusal::NotOwn)
    } else if 0 < found.bytes {
        Ok(LeftAnswer::Begun)
    } else if layout.look(Place::Claimed, name)?.is_none() {
        Ok(LeftAnswer::Unclaimed)
    } else if has_answer(layout, name)? {
        Ok(LeftAnswer::Answered)
    } else {
        Ok(LeftAnswer::Begun)
    }
}

// Whether `done` has an answer from the server under this name.
fn has_answer(layout: &FolderLayout, name: &str) -> Result<bool, Refusal> {
    match layout.look(Place::Done, name)? {
        Some(found) => layout.is_servers(&found),
        None => Ok(false),
    }
}

fn complete_left(layout: &FolderLayout, name: &str) -> Result<(), Refusal> {
    take_out(layout, name)?;
    let file = layout.open_to_write(Place::Answer, name)?;
    complete(&file)
}

/// Completes an answer that was left, so that it can be handed over. The result is whether its script was begun. An answer whose
/// script was not begun is removed. An `Err` leaves the answer and its script for the next start.
pub(crate) fn complete_answer(layout: &FolderLayout, name: &str) -> Result<bool, Refusal> {
    match left_answer(layout, name)? {
        LeftAnswer::Gone => Ok(false),
        LeftAnswer::Unclaimed => {
            layout.remove(Place::Answer, name)?;
            Ok(false)
        }
        LeftAnswer::Answered => {
            layout.remove(Place::Answer, name)?;
            remove_answered(layout, name)?;
            Ok(false)
        }
        LeftAnswer::Begun => {
            complete_left(layout, name)?;
            Ok(true)
        }
    }
}

// Removes a script whose answer is no longer in `cur`, since it was handed over. An `Err` leaves it for the next start.
fn remove_answered(layout: &FolderLayout, name: &str) -> Result<(), Refusal> {
    if layout.look(Place::Answer, name)?.is_some() || layout.is_free(Place::Claimed, name) {
        return Ok(());
    }
    take_out(layout, name)?;
    layout.remove_claim(name)
}

/// What a start did about the scripts that an earlier server had left.
#[derive(Drop)]
pub struct Recovered {
    /// How many scripts had been begun, and are answered now.
    pub begun: u64,
    /// The names of scripts that could not be answered yet, for the spool that tries them again (`FolderSpool::keep`).
    pub kept: Vec<String>,
    /// How many claims of scripts that were answered could not be removed: in the script's place there is a directory that somebody
    /// put there, and it is not empty.
    pub stuck: u64,
}

impl Recovered {
    // Answers one script.
    fn answer(&mut self, layout: &FolderLayout, name: &str) -> Result<(), Refusal> {
        match complete_answer(layout, name) {
            Ok(true) if hand_over(layout, name).is_ok() => {
                self.begun = self.begun.saturating_add(1);
                Ok(())
            }
            Ok(false) => Ok(()),
            _ => Ok(note(&mut self.kept, layout.alloc, name)?),
        }
    }

    // Answers the scripts that a server had begun, and removes those that were answered.
    fn recover(&mut self, layout: &FolderLayout, left: &Left) -> Result<(), Refusal> {
        for name in left.answers.as_slice() {
            self.answer(layout, name.as_str())?;
        }
        for name in left.claims.as_slice() {
            if remove_answered(layout, name.as_str()).is_err() {
                self.stuck = self.stuck.saturating_add(1);
            }
        }
        Ok(())
    }
}

/// Answers the scripts that a killed server had begun, with 55 after the whole lines of each answer. Then it removes what that
/// server left of claims that were not completed, or whose scripts were answered.
///
/// What can't be handed over, or can't be looked at, stays in `cur`, and does not keep the server from working. An `Err` if `cur`
/// can't be read, or there is no memory for the names in it.
pub fn recover(layout: &FolderLayout) -> io::Result<Recovered> {
    let mut left = Left {
        claims: Vec::new(layout.alloc),
        answers: Vec::new(layout.alloc),
    };
    let mut recovered = Recovered {
        begun: 0,
        kept: Vec::new(layout.alloc),
        stuck: 0,
    };
    left.look(layout)?;
    recovered.recover(layout, &left)?;
    Ok(recovered)
}

// Whether a file with this name in a part may be cleared: a script or an answer that clients left, or a file with which a start
// tested the folder.
fn may_be_cleared(place: Place, name: &str) -> bool {
    let is_clients = match place {
        Place::Written | Place::Done => true,
        Place::Waiting | Place::Claimed | Place::Answer | Place::Top => false,
    };
    name.starts_with(TRIED) || is_clients && is_plain(name)
}

// Removes a file if it may be cleared and was last written before `moment`, in seconds since 1970. The result is how many files
// were removed.
fn clear(layout: &FolderLayout, place: Place, name: &str, moment: i64) -> u64 {
    if !may_be_cleared(place, name) {
        return 0;
    }
    match layout.look(place, name) {
        Ok(Some(found)) if found.is_file() && found.seconds < moment => {
            u64::from(layout.remove(place, name).is_ok())
        }
        _ => 0,
    }
}

// Removes from a part the files that may be cleared and were last written before `moment`. The result is how many files were
// removed. What can't be looked at stays there.
fn clear_part(layout: &FolderLayout, place: Place, moment: i64) -> Result<u64, Refusal> {
    let mut entries = layout.entries(place.part())?;
    let mut cleared = 0u64;
    for _ in 0..u64::MAX {
        match entries.next() {
            Entry::Named(name) => {
                cleared = cleared.saturating_add(clear(layout, place, name.as_str(), moment));
            }
            Entry::Odd | Entry::Refused(_) => {}
            Entry::End => break,
        }
    }
    Ok(cleared)
}

// Removes from all parts the files that may be cleared and were last written more than this many days ago.
fn clear_parts(layout: &FolderLayout, days: u32) -> Result<u64, Refusal> {
    layout.must_be_held()?;
    let now = i64::try_from(since_1970(&layout.rt)?.as_secs()).unwrap_or(0);
    let moment = now.saturating_sub(i64::from(days) * DAY);
    let mut cleared = 0u64;
    for place in [
        Place::Done,
        Place::Written,
        Place::Waiting,
        Place::Claimed,
        Place::Top,
    ] {
        cleared = cleared.saturating_add(clear_part(layout, place, moment)?);
    }
    Ok(cleared)
}

/// Removes files that were last written more than this many days ago: scripts and answers from `done` and `tmp`, and from all parts
/// the files that the start of a killed server left there. The result is how many files were removed. What can't be removed stays
/// there; so does anything that is not a regular file, or has a name that no script may have. An `Err` if the folder is no longer
/// the one that is held; then nothing was removed.
pub fn clear_old(layout: &FolderLayout, days: u32) -> io::Result<u64> {
    Ok(clear_parts(layout, days)?)
}
