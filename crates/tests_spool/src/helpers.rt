// What a server and its clients do with a folder.
//
// If a call of the system is refused, the function answers with a `bool` or a number. A test that passed errors on, or asserted in
// many places, would take minutes to prove, since each of its exits drops all that it has.

use crate::files::{Deed, Folder};
use cc_spool::{
    AnswerFile, FolderLayout, FolderSpool, Held, Limits, ScriptFile, Spool, Submission, clear_old,
    count_entries, submit, take_folder,
};
use std::io::{self, Read, Write};
use std::process::Abort;
use std::thread;
use std::time::Duration;

/// Ends the test unless this holds.
pub fn must(rt: &impl Abort, holds: bool, what: &str) {
    assert!(rt; holds, "{what}");
}

/// Puts a script into `new`.
pub fn put_plain(folder: Folder) -> bool {
    folder.at("new", "plain", Deed::Put("list\n"))
}

impl Folder {
    /// A new folder with its parts, and its lock; `None` if it is refused.
    pub fn take(self) -> Option<(FolderLayout, Held)> {
        held(FolderLayout::new(self.rt, self.rt.alloc(), self.path).ok()?)
    }

    /// As `take`, for a server with this many clients. Each client may do a script for this many seconds while others wait.
    pub fn take_to_serve(self, clients: usize, patience: u32) -> Option<(FolderLayout, Held)> {
        let limits = Limits {
            days: 7,
            bytes: u64::MAX,
            is_quiet: true,
            patience,
            clients,
        };
        held(FolderLayout::for_server(self.rt, self.rt.alloc(), self.path, limits).ok()?)
    }

    /// Whether a server refuses the folder.
    pub fn is_refused(self) -> bool {
        self.take().is_none()
    }
}

// A folder with its lock; `None` if it is refused.
fn held(mut layout: FolderLayout) -> Option<(FolderLayout, Held)> {
    match take_folder(&mut layout, 1) {
        Ok(Some(held)) => Some((layout, held)),
        _ => None,
    }
}

/// The next script, for which this waits: a change is seen when the client looks a moment later.
pub fn begun(spool: &mut FolderSpool) -> Option<(ScriptFile, AnswerFile)> {
    for _ in 0..1000 {
        let next = spool.next();
        if next.is_some() {
            return next;
        }
    }
    None
}

/// Whether others wait for a script soon.
pub fn is_soon_awaited(folder: Folder, spool: &FolderSpool) -> bool {
    for _ in 0..200 {
        if spool.is_awaited() {
            return true;
        }
        thread::sleep(&folder.rt, Duration::from_millis(10));
    }
    false
}

/// Whether this many entries are counted.
pub fn counts(layout: &FolderLayout, most: usize, wanted: usize) -> bool {
    match count_entries(layout, most) {
        Ok(count) => count == wanted,
        Err(_) => false,
    }
}

/// Whether this many old files are removed.
pub fn clears(layout: &FolderLayout, days: u32, wanted: u64) -> bool {
    match clear_old(layout, days) {
        Ok(count) => count == wanted,
        Err(_) => false,
    }
}

/// The spool that a further client sees.
pub fn second(layout: &FolderLayout, most: u64) -> Option<FolderSpool> {
    match layout.again() {
        Ok(again) => Some(FolderSpool::new(again, most)),
        Err(_) => None,
    }
}

/// What is done to a script between its claim and the end of its answer.
#[derive(Clone, Copy, Drop)]
pub enum Meanwhile {
    Nothing,
    /// The script's place in `new` is given to another one, and two seconds go by.
    Replaced,
    /// The answer of `plain` is moved to `done`, as if a call over a network had succeeded, its reply had been lost, and the call
    /// had been made again.
    Moved,
    /// As much is written as an answer may have, and then more.
    Filled,
}

fn fill(answer: &mut AnswerFile) -> bool {
    let piece = [b'1'; 4096];
    for _ in 0..4096 {
        if answer.write_all(&piece).is_err() {
            return false;
        }
    }
    // What was refused stays refused, and a later line is not written after the gap.
    answer.write(b"1").is_err() && answer.write(b"").is_err() && answer.flush().is_err()
}

fn is_written(answer: &mut AnswerFile, text: &str) -> bool {
    answer.write_all(text.as_bytes()).is_ok()
}

fn replace(folder: Folder) -> bool {
    let name = folder.script_in("cur");
    let is_replaced = folder.at("new", name.as_str(), Deed::Put("list\n"));
    drop(name);
    thread::sleep(&folder.rt, Duration::from_millis(2000));
    is_replaced
}

/// Takes the next script, and answers it with this text. The result is whether all of that succeeds; `None` if no script waits.
pub fn answer(
    folder: Folder,
    spool: &mut FolderSpool,
    text: &str,
    meanwhile: Meanwhile,
) -> Option<bool> {
    let (script, mut answer) = spool.next()?;
    let is_written = is_written(&mut answer, text);
    let is_done = match meanwhile {
        Meanwhile::Nothing => true,
        Meanwhile::Replaced => replace(folder),
        Meanwhile::Moved => folder.rename("cur", "plain.answer", "done", "plain"),
        Meanwhile::Filled => fill(&mut answer),
    };
    spool.deliver(script, answer, None);
    Some(is_written && is_done)
}

// Reads a script to its end.
fn is_read(folder: Folder, script: &mut ScriptFile) -> bool {
    let mut bytes = Vec::new(folder.rt.alloc());
    script.read_to_end(&mut bytes).is_ok()
}

/// Reads the whole of the next script, once it comes, and answers it with this text. If the answer `is_filled`, as much is written
/// then as an answer may have, and more, which has to be refused. The result is whether all of that succeeds.
pub fn answer_read(folder: Folder, spool: &mut FolderSpool, text: &str, is_filled: bool) -> bool {
    let Some((mut script, mut answer)) = begun(spool) else {
        return false;
    };
    let is_read = is_read(folder, &mut script);
    let is_written = is_written(&mut answer, text) && (!is_filled || !fill(&mut answer));
    spool.deliver(script, answer, None);
    is_read && is_written
}

/// Answers the scripts that wait. The result is how many they were, up to 20.
pub fn done(folder: Folder, spool: &mut FolderSpool) -> usize {
    for count in 0..20 {
        match answer(folder, spool, "ok\n", Meanwhile::Nothing) {
            Some(true) => {}
            Some(false) => return usize::MAX,
            None => return count,
        }
    }
    20
}

/// Answers one script for which something is done meanwhile, once it comes. The result is whether that succeeds.
pub fn answer_one(
    folder: Folder,
    spool: &mut FolderSpool,
    text: &str,
    meanwhile: Meanwhile,
) -> bool {
    for _ in 0..1000 {
        if let Some(is_done) = answer(folder, spool, text, meanwhile) {
            return is_done;
        }
    }
    false
}

fn renumber(folder: Folder, name: &str) -> bool {
    let Some(seen) = folder.see("new", name) else {
        return false;
    };
    folder.at("tmp", "copy", Deed::Put("list\n"))
        && folder.at("tmp", "copy", Deed::SetAsSeen(seen))
        && folder.rename("tmp", "copy", "new", name)
}

/// Replaces the script that comes with another file that has the same text and time, as if a file's number belonged to its path.
pub fn renumber_one(folder: Folder) -> bool {
    for _ in 0..1000 {
        thread::sleep(&folder.rt, Duration::from_millis(1));
        if folder.at("new", "", Deed::Has(1)) {
            let name = folder.script_in("new");
            return renumber(folder, name.as_str());
        }
    }
    false
}

/// How a script that was left ends.
#[derive(Clone, Copy, Drop)]
pub enum End {
    /// It was answered; this is the number of the fault that its answer reports last, if it reports one.
    Answered(Option<u32>),
    NotTaken,
}

// Whether a script that was left ended like this.
fn is_end(submission: &io::Result<Submission>, end: End) -> bool {
    match submission {
        Ok(Submission::Answered(found)) => match end {
            End::Answered(number) => *found == number,
            End::NotTaken => false,
        },
        Ok(Submission::NotTaken) => matches!(end, End::NotTaken),
        _ => false,
    }
}

/// Puts a script into `new` under the name that the one in `tmp` has. The result is whether that succeeds.
pub fn put_as_written(folder: Folder) -> bool {
    let name = folder.script_in("tmp");
    folder.at("new", name.as_str(), Deed::Put("list\n"))
}

/// Leaves a script from this reader. The result is whether it is answered without a fault, and this text is passed on.
pub fn is_answered<S: Read, E: Write>(
    folder: Folder,
    layout: &FolderLayout,
    script: &mut S,
    explanations: &mut E,
    text: &str,
) -> bool {
    ends_as(
        folder,
        layout,
        script,
        explanations,
        None,
        End::Answered(None),
        text,
    )
}

/// Leaves a script. The result is whether it ends like this, and this text is passed on.
pub fn ends_so<E: Write>(
    folder: Folder,
    layout: &FolderLayout,
    explanations: &mut E,
    seconds: Option<u32>,
    end: End,
    text: &str,
) -> bool {
    let mut script = b"list\n".as_slice();
    ends_as(
        folder,
        layout,
        &mut script,
        explanations,
        seconds,
        end,
        text,
    )
}

fn ends_as<S: Read, E: Write>(
    folder: Folder,
    layout: &FolderLayout,
    script: &mut S,
    explanations: &mut E,
    seconds: Option<u32>,
    end: End,
    text: &str,
) -> bool {
    let mut written = Vec::new(folder.rt.alloc());
    let submission = submit(layout, 1, b"", script, &mut written, explanations, seconds);
    let is_so = is_end(&submission, end) && written.as_slice() == text.as_bytes();
    drop(submission);
    drop(written);
    is_so
}
