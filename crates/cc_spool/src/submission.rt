// How a client leaves a script in a folder, and waits for its answer.
//
// The script is written to `tmp`, synced, and linked into `new`, so that it is there as a whole or not at all, and never in the
// place of another script. While it is in `new` none of it is run, and taking it back is one call, which finds either the script or
// a claim. The client goes on waiting for a script that was claimed: its server answers it, or the next server does. If another file
// has its place in `new`, the script was claimed.
//
// The answer has the script's name in `new`, and whoever knows that name first may put a script of their own there. Everybody sees
// the name in `tmp` while the script is written, so the name in `new` is a different one: it is drawn once the script is complete,
// and nobody has seen it before the script is linked to it.

ghost use Rattle.std.specs.Prelude.{◌≡◌, ◌<◌, ◌≤◌, IfOk, OnOk, length};
ghost use Rattle.std.specs.Io.KnownBytes.{Appends, Keeps, ReadConsumes};
ghost use Rattle.cc_spool.specs.Submitted.{HasWritten, HasWrittenIfOk};
ghost use Rattle.cc_spool.specs.internal.Copied.{Copies, PassesOn};

use crate::calls::settle;
use crate::entries::Entry;
use crate::found::Found;
use crate::layout::FolderLayout;
use crate::lines::Lines;
use crate::names::{fresh_name, is_plain};
use crate::place::Place;
use crate::refusal::Refusal;
use std::fs::File;
use std::io::{self, Read, Write};
use std::thread;
use std::time::{Duration, Instant};

/// After this many bytes of a script no more are sent: one more than a script may have, so that the server sees that it is too
/// long.
const SENT_SCRIPT_BYTES: u64 = 16_777_217;

/// The shortest and the longest pause between two looks for an answer, in microseconds. Each pause is a quarter longer than the one
/// before.
const LEAST_PAUSE: u64 = 200;

const MOST_PAUSE: u64 = 64_000;

/// How long a client goes on when there is no server, or the folder can't be used, before it gives up, in milliseconds.
const NO_SERVER: u64 = 3_000;

/// One look adds at most this much to the time without a server, in milliseconds: a single call that hangs is not a reason to give
/// up.
const MOST_STEP: u64 = 100;

/// After this many milliseconds a note for a person says that the script waits.
const TELL: u64 = 1_000;

/// What became of a script.
#[derive(Drop)]
pub enum Submission {
    /// It was answered, and the answer was written out. The number is that of the fault that the answer reports last, if it
    /// reports one.
    Answered(Option<u32>),
    /// No server took it in time. It was taken back: none of it is run.
    NotTaken,
    /// It could not be read to its end, and was not left in the folder.
    Unread,
    /// It was answered, but the answer could not be written out. It stays in `done` under this name.
    Unwritten(String),
    /// It was answered, but the answer could not be read to its end, after what was written out. It stays in `done` under this
    /// name.
    CutShort(String, io::Error),
    /// It was left under this name, and then the folder could not be used for three seconds, or the clock could not be read, or the
    /// script was taken back and that could not be synced: it is not known whether the script is or will be run.
    Lost(String, io::Error),
}

// Which side ended a copy early: the reader or the writer.
#[derive(Clone, Copy, Drop)]
enum Side {
    Reader(Refusal),
    Writer(Refusal),
}

// Reads the next bytes. An interrupted call is repeated.
fn read_some<S: Read>(reader: &mut S, room: &mut [u8]) -> Result<usize, Refusal>
    ensures few { IfOk result (λ count. count ≤ length room.new) }
    ensures room { length room.new ≡ length room.old }
    ensures bytes { ReadConsumes (S.remaining reader.old) (S.remaining reader.new) result room.new }
{
    for _ in 0..u64::MAX {
        match reader.read(room) {
            Ok(count) => return Ok(count),
            Err(error) if error.kind() == io::ErrorKind::Interrupted => {}
            Err(error) => return Err(Refusal::from(error)),
        }
    }
    Err(Refusal::CutShort)
}

fn write_some<W: Write>(writer: &mut W, bytes: &[u8]) -> Result<(), Refusal>
    ensures { OnOk result (Appends (W.contents writer.old) (W.contents writer.new) bytes.now) }
{
    writer.write_all(bytes)?;
    Ok(())
}

fn flush<W: Write>(writer: &mut W) -> Result<(), Refusal>
    ensures { Keeps (W.contents writer.old) (W.contents writer.new) }
{
    writer.flush()?;
    Ok(())
}

// Copies the next bytes, and reads their lines. The result is how many bytes were copied: 0 at the reader's end.
fn pass_on<S: Read, W: Write>(
    reader: &mut S,
    writer: &mut W,
    piece: &mut [u8],
    lines: &mut Lines,
) -> Result<usize, Side>
    requires { 0 < length piece.old }
    ensures room { length piece.new ≡ length piece.old }
    ensures passes { PassesOn (S.remaining reader.old) (S.remaining reader.new) (W.contents writer.old) (W.contents writer.new) lines.old lines.new result }
{
    let count = match read_some(reader, piece) {
        Ok(count) => count,
        Err(refusal) => return Err(Side::Reader(refusal)),
    };
    lines.read_all(&piece[..count]);
    match write_some(writer, &piece[..count]) {
        Ok(()) => Ok(count),
        Err(refusal) => Err(Side::Writer(refusal)),
    }
}

// Copies pieces of at most 4,096 bytes until this many bytes are copied, or all if there are fewer: the last piece may exceed
// `most`. Reads their lines, in which the last fault of an answer is found.
fn copy<S: Read, W: Write>(reader: &mut S, writer: &mut W, most: u64) -> Result<Lines, Side>
    ensures { Copies most (S.remaining reader.old) (S.remaining reader.new) (W.contents writer.old) (W.contents writer.new) result }
{
    let mut piece = [0u8; 4096];
    let mut lines = Lines::new();
    let mut left = most;
    for _ in 0..u64::MAX {
        if left == 0 {
            break;
        }
        match pass_on(reader, writer, &mut piece, &mut lines) {
            Ok(0) => break,
            Ok(count) => left = left.saturating_sub(count as u64),
            Err(side) => return Err(side),
        }
    }
    match flush(writer) {
        Ok(()) => Ok(lines),
        Err(refusal) => Err(Side::Writer(refusal)),
    }
}

// Writes a script to a new file. The result identifies that file, if the script was read to its end.
fn write_script<S: Read>(
    file: &mut File,
    begin: &[u8],
    script: &mut S,
) -> Result<Option<Found>, Refusal> {
    write_some(file, begin)?;
    match copy(script, file, SENT_SCRIPT_BYTES) {
        Ok(_) => {}
        Err(Side::Reader(_)) => return Ok(None),
        Err(Side::Writer(refusal)) => return Err(refusal),
    }
    settle(file)?;
    Ok(Some(Found::of_file(file)?))
}

// A script that is in `new`: the name that it has there, and which file it is.
#[derive(Drop)]
struct Published {
    name: String,
    made: Found,
}

// Gives a complete script a name in `new`, which is drawn only now. If the link is refused, the script has only its name in `tmp`.
fn publish(layout: &FolderLayout, process: u32, written: &str) -> Result<String, Refusal> {
    let name = fresh_name(&layout.rt, layout.alloc, process)?;
    match layout.publish(written, name.as_str()) {
        Ok(()) => Ok(name),
        Err(refusal) => {
            drop(name);
            Err(refusal)
        }
    }
}

// Puts a script into `new`; none if it can't be read to its end. If it is not put there, nothing is left of it.
fn put<S: Read>(
    layout: &FolderLayout,
    process: u32,
    begin: &[u8],
    script: &mut S,
) -> Result<Option<Published>, Refusal> {
    let written = fresh_name(&layout.rt, layout.alloc, process)?;
    let mut file = layout.make(Place::Written, written.as_str())?;
    let made = write_script(&mut file, begin, script);
    drop(file);
    let put = match made {
        Ok(Some(made)) => match publish(layout, process, written.as_str()) {
            Ok(name) => return Ok(Some(Published { name, made })),
            Err(refusal) => Err(refusal),
        },
        Ok(None) => Ok(None),
        Err(refusal) => Err(refusal),
    };
    let _ = layout.remove(Place::Written, written.as_str());
    put
}

// The answer to a script, if it is there: a regular file of the user who owns `cur`. Its name shows that it answers this script:
// nobody else saw that name before the script had it.
fn answer_of(layout: &FolderLayout, name: &str) -> Result<Option<File>, Refusal> {
    let Some(found) = layout.look(Place::Done, name)? else {
        return Ok(None);
    };
    if !layout.is_servers(&found)? {
        return Ok(None);
    }
    match layout.open(Place::Done, name) {
        Ok(file) => Ok(Some(file)),
        Err(refusal) if refusal.is_absent() => Ok(None),
        Err(refusal) => Err(refusal),
    }
}

// Takes a script back. Without the sync a power cut could undo the removal, and the script would be run after all.
fn take_back(layout: &FolderLayout, name: &str) -> Result<Seen, Refusal> {
    match layout.remove(Place::Waiting, name) {
        Ok(()) => Ok(match layout.sync_part("new") {
            Ok(()) => Seen::Back,
            Err(refusal) => Seen::Unsettled(refusal),
        }),
        Err(refusal) if refusal.is_absent() => Ok(Seen::Claimed),
        Err(refusal) => Err(refusal),
    }
}

// How many scripts wait before the one with this name.
fn count_before(layout: &FolderLayout, name: &str) -> Result<u64, Refusal> {
    let mut count = 0u64;
    let mut entries = layout.entries(Place::Waiting.part())?;
    for _ in 0..u64::MAX {
        match entries.next() {
            Entry::Named(other) => {
                let is_before = is_plain(other.as_str()) && other.as_str() < name;
                count = count.saturating_add(u64::from(is_before));
            }
            Entry::Odd | Entry::Refused(_) => {}
            Entry::End => break,
        }
    }
    Ok(count)
}

// What a look at a script found.
#[derive(Drop)]
enum Seen {
    Answer(File),
    // It is in `new`.
    Waiting,
    // It was taken back.
    Back,
    // It was taken back, but a power cut could still undo that.
    Unsettled(Refusal),
    // It was claimed.
    Claimed,
}

// A script that was left in a folder.
#[derive(Drop)]
struct Waiting {
    name: String,
    // Which file it is.
    made: Found,
    // How long it may wait, in milliseconds; if this is not given, it may wait as long as there is a server.
    most: Option<u64>,
    // How long it has waited without being claimed, in milliseconds; if `most` is not given, only the time since there last was a
    // server counts.
    unclaimed: u64,
}

impl Waiting {
    // Whether the script is in `new`.
    fn is_there(&self, layout: &FolderLayout) -> Result<bool, Refusal> {
        match layout.look(Place::Waiting, self.name.as_str())? {
            Some(found) => Ok(found.is_alike(&self.made)),
            None => Ok(false),
        }
    }

    // Looks at the script, this many milliseconds after the last look, and takes it back if it waited for too long.
    fn look(&mut self, layout: &FolderLayout, since: u64) -> Result<Seen, Refusal> {
        if let Some(file) = answer_of(layout, self.name.as_str())? {
            return Ok(Seen::Answer(file));
        }
        if self.is_there(layout)? {
            self.count(layout, since);
            return self.look_waiting(layout);
        }
        // If the whole folder is gone, there is no answer to wait for.
        let _server = layout.server()?;
        self.unclaimed = 0;
        Ok(Seen::Claimed)
    }

    // Adds the milliseconds since the last look to the time without a claim, if they count.
    fn count(&mut self, layout: &FolderLayout, since: u64) {
        self.unclaimed = match self.most {
            Some(_) => self.unclaimed.saturating_add(since),
            // If the lock can't be tried, a server is taken to be there.
            None if layout.is_held().unwrap_or(true) => 0,
            None => self.unclaimed.saturating_add(since.min(MOST_STEP)),
        };
    }

    // Takes the script back if it waited for too long.
    fn look_waiting(&self, layout: &FolderLayout) -> Result<Seen, Refusal> {
        if self.unclaimed < self.most.unwrap_or(NO_SERVER) {
            Ok(Seen::Waiting)
        } else {
            take_back(layout, self.name.as_str())
        }
    }

    // Writes a note for a person that the script waits. A note that can't be written is not a reason to end.
    fn tell<E: Write>(&self, layout: &FolderLayout, is_claimed: bool, explanations: &mut E) {
        let _ = if is_claimed {
            writeln!(explanations, "cclib: the script is being done")
        } else {
            match count_before(layout, self.name.as_str()) {
                Ok(0) => writeln!(explanations, "cclib: the script waits, and is the next"),
                Ok(before) => writeln!(
                    explanations,
                    "cclib: the script waits, and {before} before it"
                ),
                Err(_) => Ok(()),
            }
        };
        let _ = explanations.flush();
    }

    // Writes an answer out, and removes it.
    fn take_answer<W: Write>(
        self,
        layout: &FolderLayout,
        mut file: File,
        writer: &mut W,
    ) -> Submission
        ensures { HasWritten (W.contents writer.old) (W.contents writer.new) result }
    {
        let copied = copy(&mut file, writer, u64::MAX);
        drop(file);
        match copied {
            Ok(lines) => {
                // If only the server may write to `done`, this fails, and the server removes the answer after some days.
                let _ = layout.remove(Place::Done, self.name.as_str());
                Submission::Answered(lines.last())
            }
            Err(Side::Reader(refusal)) => {
                Submission::CutShort(self.name, io::Error::from(refusal))
            }
            Err(Side::Writer(_)) => Submission::Unwritten(self.name),
        }
    }
}

// How long a script has waited, and whether a note for a person has said so.
#[derive(Clone, Copy, Drop)]
struct Patience {
    // The moment up to which the milliseconds are counted.
    moment: Instant,
    // How long the script has waited, in milliseconds.
    waited: u64,
    // How long looks have failed in a row, in milliseconds.
    failing: u64,
    is_told: bool,
    // The next pause, in microseconds.
    pause: u64,
}

impl Patience {
    fn new(rt: &HostRuntime) -> Result<Patience, Refusal> {
        Ok(Patience {
            moment: Instant::now(rt)?,
            waited: 0,
            failing: 0,
            is_told: false,
            pause: LEAST_PAUSE,
        })
    }

    // The whole milliseconds since the last look; the remaining fraction counts at the next look.
    fn pass(&mut self, rt: &HostRuntime) -> Result<u64, Refusal> {
        let now = Instant::now(rt)?;
        let since = now.duration_since(self.moment);
        let passed = since
            .as_secs()
            .saturating_mul(1000)
            .saturating_add(u64::from(since.subsec_millis()));
        let counted = self.moment.checked_add(Duration::from_millis(passed));
        self.moment = counted.unwrap_or(now);
        self.waited = self.waited.saturating_add(passed);
        Ok(passed)
    }

    // Notes that a look succeeded. The result is whether to write now, for a person, that the script waits.
    fn look(&mut self) -> bool {
        self.failing = 0;
        let is_due = !self.is_told && TELL <= self.waited;
        self.is_told |= is_due;
        is_due
    }

    // Notes that a look failed. The result is whether looks have failed for too long.
    fn fail(&mut self, since: u64) -> bool {
        self.failing = self.failing.saturating_add(since.min(MOST_STEP));
        self.failing >= NO_SERVER
    }

    // Waits a moment.
    fn rest(&mut self, rt: &HostRuntime) {
        thread::sleep(rt, Duration::from_micros(self.pause));
        self.pause = MOST_PAUSE.min(self.pause.saturating_add(self.pause / 4));
    }
}

// Waits until a script has its answer, or was taken back. In the second case the result has no answer. Calls that fail are repeated
// for three seconds.
fn wait_for_answer<E: Write>(
    layout: &FolderLayout,
    waiting: &mut Waiting,
    explanations: &mut E,
) -> Result<Option<File>, Refusal> {
    let mut patience = Patience::new(&layout.rt)?;
    for _ in 0..u64::MAX {
        let since = patience.pass(&layout.rt)?;
        match waiting.look(layout, since) {
            Ok(Seen::Answer(file)) => return Ok(Some(file)),
            Ok(Seen::Back) => return Ok(None),
            Ok(Seen::Unsettled(refusal)) => return Err(refusal),
            Ok(seen) => {
                if patience.look() {
                    let is_claimed = matches!(seen, Seen::Claimed);
                    waiting.tell(layout, is_claimed, explanations);
                }
            }
            Err(refusal) => {
                if patience.fail(since) {
                    return Err(refusal);
                }
            }
        }
        patience.rest(&layout.rt);
    }
    Ok(None)
}

// Waits for the answer to a script that was left in a folder, and writes it out.
fn wait<W: Write, E: Write>(
    layout: &FolderLayout,
    mut waiting: Waiting,
    writer: &mut W,
    explanations: &mut E,
) -> Submission
    ensures { HasWritten (W.contents writer.old) (W.contents writer.new) result }
{
    match wait_for_answer(layout, &mut waiting, explanations) {
        Ok(Some(file)) => waiting.take_answer(layout, file, writer),
        Ok(None) => Submission::NotTaken,
        Err(refusal) => Submission::Lost(waiting.name, io::Error::from(refusal)),
    }
}

// Leaves a script in the folder; none if it can't be read to its end.
fn leave<S: Read>(
    layout: &FolderLayout,
    process: u32,
    begin: &[u8],
    script: &mut S,
    seconds: Option<u32>,
) -> Result<Option<Waiting>, Refusal> {
    let Some(Published { name, made }) = put(layout, process, begin, script)? else {
        return Ok(None);
    };
    let most = match seconds {
        Some(seconds) => Some(u64::from(seconds) * 1000),
        None => None,
    };
    Ok(Some(Waiting {
        name,
        made,
        most,
        unclaimed: 0,
    }))
}

/// Leaves a script in the folder: the bytes given, then those of the reader. Then it waits for the answer, copies the answer to the
/// writer, and removes it if that is allowed.
///
/// `process` is the number of this process. If `seconds` is given, a script that was not claimed for that long is taken back; if
/// not, it is taken back once no server has held the folder for three seconds in a row. A script that was claimed is never taken
/// back: its server answers it, or the next server does, with 55. A note that the script waits goes to `explanations` after a
/// second.
///
/// An `Err` if the script could not be left in the folder (56): none of it is run.
///
/// If the script was answered, the writer got exactly the answer's bytes, and a fault is reported exactly if a line that is not
/// within a source begins with `fault `, or the answer ends within one.
pub fn submit<S: Read, W: Write, E: Write>(
    layout: &FolderLayout,
    process: u32,
    begin: &[u8],
    script: &mut S,
    writer: &mut W,
    explanations: &mut E,
    seconds: Option<u32>,
) -> io::Result<Submission>
    ensures written { HasWrittenIfOk (W.contents writer.old) (W.contents writer.new) result }
{
    match leave(layout, process, begin, script, seconds)? {
        Some(waiting) => Ok(wait(layout, waiting, writer, explanations)),
        None => Ok(Submission::Unread),
    }
}
