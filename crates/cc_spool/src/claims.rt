// How a script is claimed, and how its answer is handed over.
//
// What a kill or a power cut leaves follows from the order of the calls. A claim: `cur/ID.answer` is made, which only one client
// can do; the script is moved from `new` to `cur`; `cur` is synced, so that no power cut puts back a script that was partly run.
// The end: the answer is synced and moved to `done`; then the script is removed from `cur`.
//
// An answer that can't be handed over is kept by the client that ran its script, which tries again later.
//
//     cur/ID  cur/ID.answer     what was left
//       no    yes, empty        a claim that was not made
//       no    yes, not empty    a script that was begun; its removal reached the disk first
//       yes   yes               a script that was begun
//       yes   no                an answer that was handed over
//
// A name is claimed only if `cur` has nothing of an earlier script with that name, and `done` has no answer to it. Otherwise its
// client would find the answer to another script.

use crate::answer::AnswerFile;
use crate::calls::{set_length, settle, write_at};
use crate::layout::FolderLayout;
use crate::place::Place;
use crate::refusal::Refusal;
use crate::script_file::ScriptFile;
use std::fs::File;

/// The lines for the faults that the spool itself reports.
pub(crate) const INTERRUPTED: &[u8] = b"fault 55 Interrupted\n";

pub(crate) const UNWRITTEN: &[u8] = b"fault 54 WriteFault\n";

const UNREAD: &[u8] = b"fault 53 ReadFault\n";

/// A fault that the spool itself reports, in a single line.
#[derive(Clone, Copy, Drop)]
pub(crate) enum Told {
    /// 53: the script can't be read.
    Unread,
    /// 54: its answer can't be written to its end.
    Unwritten,
    /// 55: its claim can't be settled.
    Interrupted,
}

/// A script that was claimed.
#[derive(Drop)]
pub(crate) struct Claimed {
    pub(crate) script: ScriptFile,
    pub(crate) answer: AnswerFile,
}

/// How an answer that is to be handed over ends.
#[derive(Clone, Copy, Drop)]
pub(crate) enum Ending {
    /// As it was written.
    Whole,
    /// As nothing but the line for a fault.
    Line(Told),
    /// As a start finds it: either it is not known whether its script was claimed, or an earlier server had begun the script.
    Left,
}

/// The result of trying to claim a script.
#[derive(Drop)]
pub(crate) enum ClaimResult {
    /// The script is to be run.
    Begun(Claimed),
    /// It can't be run, and was answered with the line for a fault.
    Answered,
    /// Its answer could not be handed over.
    Kept(Ending),
    /// It is gone: another client has it, or whoever left it took it back.
    Gone,
    /// It is not a regular file, an earlier script with its name has not ended, or it can't be answered.
    Left,
}

impl Told {
    fn line(self) -> &'static [u8] {
        match self {
            Told::Unread => UNREAD,
            Told::Unwritten => UNWRITTEN,
            Told::Interrupted => INTERRUPTED,
        }
    }
}

// Whether an earlier script with that name has ended: nothing of it is left in `cur`, and `done` has no answer to it from the
// server.
fn is_unused(layout: &FolderLayout, name: &str) -> bool {
    if !layout.is_free(Place::Claimed, name) {
        return false;
    }
    match layout.look(Place::Done, name) {
        Ok(Some(found)) => !layout.is_servers(&found).unwrap_or(true),
        Ok(None) => true,
        Err(_) => false,
    }
}

// The result of trying to move a script from `new` to `cur`.
#[derive(Clone, Copy, Drop)]
enum Move {
    Made,
    NotMade,
    // It is not known whether the move was made.
    Open,
}

// Moves a script from `new` to `cur`, if an earlier script with its name has ended.
fn move_claimed(layout: &FolderLayout, name: &str) -> Move {
    if !is_unused(layout, name) {
        return Move::NotMade;
    }
    if layout.rename(name, Place::Waiting, Place::Claimed).is_ok() {
        return Move::Made;
    }
    // Over a network, a call may succeed although its reply is lost.
    match layout.look(Place::Claimed, name) {
        Ok(Some(_)) => Move::Made,
        Ok(None) => Move::NotMade,
        Err(_) => Move::Open,
    }
}

// Syncs a claim, and opens its script if it is a regular file. Nobody else writes to `cur`, so it stays a regular file.
fn open_claimed(layout: &FolderLayout, name: &str) -> Result<File, Told> {
    if layout.sync_claims().is_err() && layout.sync_claims().is_err() {
        return Err(Told::Interrupted);
    }
    if !layout.is_file(Place::Claimed, name) {
        return Err(Told::Unread);
    }
    match layout.open(Place::Claimed, name) {
        Ok(script) => Ok(script),
        Err(_) => Err(Told::Unread),
    }
}

// Writes the line for a fault over the beginning of an answer, and cuts off the rest. This needs no more room, and a kill leaves
// an answer that begins with that line.
fn write_line(file: &File, told: Told) -> Result<(), Refusal> {
    let line = told.line();
    write_at(file, line, 0)?;
    set_length(file, line.len() as u64)?;
    settle(file)
}

// Answers a script with only the line for a fault. The answer's file stays open, since it may be impossible to get another one.
fn refuse(layout: &FolderLayout, name: &str, file: File, told: Told) -> ClaimResult {
    let written = write_line(&file, told);
    drop(file);
    if written.is_err() {
        ClaimResult::Kept(Ending::Line(told))
    } else if hand_over(layout, name).is_err() {
        ClaimResult::Kept(Ending::Whole)
    } else {
        ClaimResult::Answered
    }
}

// Begins a script that was claimed. From here on it is answered whatever happens.
fn begin(layout: &FolderLayout, name: &str, file: File) -> ClaimResult {
    let script = match open_claimed(layout, name) {
        Ok(script) => script,
        Err(told) => return refuse(layout, name, file, told),
    };
    match AnswerFile::new(layout.alloc, file) {
        Ok(answer) => {
            let script = ScriptFile::new(layout.alloc, script);
            ClaimResult::Begun(Claimed { script, answer })
        }
        Err(_) => {
            drop(script);
            ClaimResult::Kept(Ending::Line(Told::Interrupted))
        }
    }
}

/// Whether the script with that name can be claimed; none if it is gone. No file is opened to find out.
pub(crate) fn may_be_claimed(layout: &FolderLayout, name: &str) -> Option<bool> {
    match layout.look(Place::Waiting, name) {
        Ok(Some(found)) => Some(found.is_file() && is_unused(layout, name)),
        Ok(None) => None,
        Err(_) => Some(false),
    }
}

/// Claims the script with that name, if that can be done.
pub(crate) fn claim(layout: &FolderLayout, name: &str) -> ClaimResult {
    match may_be_claimed(layout, name) {
        Some(true) => {}
        Some(false) => return ClaimResult::Left,
        None => return ClaimResult::Gone,
    }
    // Only one client can make this file.
    let Ok(file) = layout.make(Place::Answer, name) else {
        return ClaimResult::Left;
    };
    // Before this file was made, another client may have handed an answer over.
    match move_claimed(layout, name) {
        Move::Made => begin(layout, name, file),
        Move::NotMade => {
            drop(file);
            let _ = layout.remove(Place::Answer, name);
            ClaimResult::Left
        }
        Move::Open => {
            drop(file);
            ClaimResult::Kept(Ending::Left)
        }
    }
}

// Whether an answer that could not be moved is gone from `cur` all the same. Over a network, a call may succeed although its
// reply is lost, and nobody else takes files out of `cur`.
fn is_gone(layout: &FolderLayout, name: &str) -> bool {
    layout.is_free(Place::Answer, name) && layout.must_be_held().is_ok()
}

/// Moves a complete answer to `done`, then removes the claim.
pub(crate) fn hand_over(layout: &FolderLayout, name: &str) -> Result<(), Refusal> {
    if let Err(refusal) = layout.rename(name, Place::Answer, Place::Done)
        && !is_gone(layout, name)
    {
        return Err(refusal);
    }
    // A claim without an answer is removed at the next start.
    let _ = layout.remove_claim(name);
    Ok(())
}

/// Replaces the contents of an answer with only the line for a fault.
pub(crate) fn write_fault(layout: &FolderLayout, name: &str, told: Told) -> Result<(), Refusal> {
    let file = layout.open_to_write(Place::Answer, name)?;
    write_line(&file, told)
}
