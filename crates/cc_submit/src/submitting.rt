// Leaves a script for a server, and prints what became of it.

ghost use Rattle.std.specs.Prelude.{◌≡◌, ◌++◌, ◌∷◌, [], false, IfOk, OnErr, codes, string_bytes};
ghost use Rattle.std.specs.Option.{option_map};
ghost use Rattle.cc_script.specs.Line.{asked_of};
ghost use Rattle.cc_spool.specs.Submitted.{HasWrittenIfOk};
ghost use Rattle.cc_script.specs.declared.command.Dialect.TheVariants.{Served};
ghost use Rattle.cc_submit.specs.Printed.{Prints, PrintsWell, Says, SaysRefused, Submits, asks_source, fetches, has_bytes, has_two_sources, is_command, is_whole};
ghost use Rattle.cc_submit.specs.internal.Finished.{Ends, Finishes, FinishesFault, FinishesSource, FinishesWell, came_of, status_of};
ghost use Rattle.cc_submit.specs.internal.Sent.{is_fetch};

use crate::sent::{script_with, update_script};
use cc_answers::{Persons, Telling, explain_bad_line, explain_no_command, explain_words, words_of};
use cc_command_line::Submitter;
use cc_screen::Screen;
use cc_script::{Dialect, ScriptCommand, ScriptFault, command_of};
use cc_sources::{MOST_READ, Origin, join};
use cc_spool::{FolderLayout, SpoolFault, Submission, fault_lines, source_in, submit};
use cc_task::Task;
use cc_tasks::{perform_and_explain, perform_texts_and_explain, read_or_refuse};
use std::alloc::{AllocError, Global};
use std::io::{self, BufWriter, Input, Read, Write};

const NO_MEMORY: &[u8] = b"fault 40 OutOfMemory\n";

const READ_FAULT: &[u8] = b"fault 53 ReadFault\n";

const FOLDER_FAULT: &[u8] = b"fault 56 FolderFault\n";

const NOT_TAKEN: &[u8] = b"fault 58 NotTaken\n";

/// How a command ended.
#[derive(Drop)]
pub struct Ended {
    /// What became of the script; none if it could not be left in the folder, or the line is not a command. An answer that was to be a
    /// source and was cut short counts as lost.
    pub came: Option<Submission>,
    /// The status.
    pub status: u8,
    /// Whether everything that was to be printed was printed.
    pub is_written: bool,
}

// What is sent to the server.
#[derive(Drop)]
enum Sent<'a> {
    // The script on standard input.
    Script,
    // A line that takes no source.
    Line(Vec<u8>),
    // A line that takes no source, and whose answer is a source.
    Fetch(Vec<u8>),
    // A script that consists of a line and its source, the offset of the source in the script, and the origin of the source.
    Source(Vec<u8>, usize, Origin<'a>),
}

// Whether a line takes a source, or input words: it does if it becomes a command once a length is added.
fn takes_bytes(alloc: Global, line: &str) -> Result<bool, AllocError>
    ensures { IfOk result (λ takes. takes ≡ has_bytes (asked_of Served (line.now ++ 32 ∷ 48 ∷ []))) }
{
    let mut with_length = Vec::new(alloc);
    with_length.extend_from_slice(line.as_bytes())?;
    with_length.extend_from_slice(b" 0")?;
    Ok(match command_of(Dialect::Served, with_length.as_slice()) {
        Some(ScriptCommand::Add { name: _, length: _ })
        | Some(ScriptCommand::Replace { name: _, length: _ })
        | Some(ScriptCommand::Call { .. }) => true,
        _ => false,
    })
}

// Whether a line takes two sources: it does if it becomes a command once two lengths are added.
fn takes_two_sources(alloc: Global, line: &str) -> Result<bool, AllocError>
    ensures { IfOk result (λ takes. takes ≡ has_two_sources (asked_of Served (line.now ++ 32 ∷ 48 ∷ 32 ∷ 48 ∷ []))) }
{
    let mut with_lengths = Vec::new(alloc);
    with_lengths.extend_from_slice(line.as_bytes())?;
    with_lengths.extend_from_slice(b" 0 0")?;
    Ok(match command_of(Dialect::Served, with_lengths.as_slice()) {
        Some(ScriptCommand::Update { .. }) => true,
        _ => false,
    })
}

// Whether a line is a command as it is.
fn is_whole(line: &str) -> bool
    ensures { result ≡ is_whole (asked_of Served line.now) }
{
    match command_of(Dialect::Served, line.as_bytes()) {
        Some(ScriptCommand::Add { name: _, length: _ })
        | Some(ScriptCommand::Replace { name: _, length: _ })
        | Some(ScriptCommand::Update { .. })
        | Some(ScriptCommand::Call { .. })
        | None => false,
        Some(_) => true,
    }
}

// Whether this is a command: a script from standard input, or a line that is a command once the lengths of the sources or input words
// that it takes are added.
fn is_command(alloc: Global, line: Option<&str>) -> Result<bool, AllocError>
    ensures { IfOk result (λ is. is ≡ is_command (option_map (λ l. l.now) line.entry)) }
{
    let Some(line) = line else {
        return Ok(true);
    };
    if is_whole(line) {
        return Ok(true);
    }
    if takes_bytes(alloc, line)? {
        return Ok(true);
    }
    takes_two_sources(alloc, line)
}

// Whether the answer to a line is a source.
fn asks_source(line: &str) -> bool
    ensures { result ≡ asks_source (asked_of Served line.now) }
{
    matches!(
        command_of(Dialect::Served, line.as_bytes()),
        Some(ScriptCommand::Source { name: _ })
    )
}

// The source that is given; if it is too long, one byte more than it may have.
fn source<R: Input>(rt: &R, alloc: Global, origin: Origin<'_>) -> io::Result<Vec<u8>> {
    match origin {
        Origin::Input => source_on_input(rt, alloc),
        Origin::Texts(texts) => {
            let mut source = join(alloc, texts)?;
            // One byte more than a source may have, so that the server sees that it is too long.
            source.truncate(MOST_READ);
            Ok(source)
        }
    }
}

// The source on standard input; if it is too long, one byte more than it may have.
fn source_on_input<R: Input>(rt: &R, alloc: Global) -> io::Result<Vec<u8>> {
    let mut reader = rt.reader();
    let mut source = Vec::new(alloc);
    let mut piece = [0u8; 4096];
    for _ in 0..u64::MAX {
        let count = match reader.read(&mut piece) {
            Ok(count) => count,
            Err(error) if error.kind() == io::ErrorKind::Interrupted => continue,
            Err(error) => return Err(error),
        };
        if count == 0 || source.len() >= MOST_READ {
            break;
        }
        source.extend_from_slice(&piece[..count])?;
    }
    source.truncate(MOST_READ);
    Ok(source)
}

// The offset of the source in a script that ends with it and a newline.
fn begin_of(script: &[u8], source: &[u8]) -> usize {
    script.len().saturating_sub(source.len()).saturating_sub(1)
}

// What is sent for a line with input words.
fn words_after<'a>(alloc: Global, line: &str, words: &str) -> io::Result<Sent<'a>>
    ensures { IfOk result (λ sent. is_fetch sent ≡ false) }
{
    Ok(Sent::Line(script_with(alloc, line, words.as_bytes())?))
}

// What is sent for a line with a source.
fn source_after<'a, R: Input>(
    rt: &R,
    alloc: Global,
    line: &str,
    origin: Origin<'a>,
) -> io::Result<Sent<'a>>
    ensures { IfOk result (λ sent. is_fetch sent ≡ false) }
{
    let source = source(rt, alloc, origin)?;
    let script = script_with(alloc, line, source.as_slice())?;
    let begin = begin_of(script.as_slice(), source.as_slice());
    Ok(Sent::Source(script, begin, origin))
}

// What is sent for a line with the expected source and the new one; an error if no expected source is given.
fn sources_after<'a, R: Input>(
    rt: &R,
    alloc: Global,
    line: &str,
    expected: Option<&[u8]>,
    origin: Origin<'a>,
) -> io::Result<Sent<'a>>
    ensures { IfOk result (λ sent. is_fetch sent ≡ false) }
{
    let Some(expected) = expected else {
        return Err(io::Error::from(io::ErrorKind::InvalidInput));
    };
    let source = source(rt, alloc, origin)?;
    let script = update_script(alloc, line, expected, source.as_slice())?;
    let begin = begin_of(script.as_slice(), source.as_slice());
    Ok(Sent::Source(script, begin, origin))
}

// What is sent for a line that is a command, with its input words or the source that it expects, if it has either.
fn sent_of<'a, R: Input>(
    rt: &R,
    alloc: Global,
    line: Option<&str>,
    words: Option<&str>,
    expected: Option<&[u8]>,
    origin: Origin<'a>,
) -> io::Result<Sent<'a>>
    ensures fetch { IfOk result (λ sent. is_fetch sent ≡ fetches (option_map (λ l. l.now) line.entry)) }
{
    let Some(line) = line else {
        return Ok(Sent::Script);
    };
    let mut bytes = Vec::new(alloc);
    if asks_source(line) {
        bytes.extend_from_slice(line.as_bytes())?;
        bytes.push(b'\n')?;
        return Ok(Sent::Fetch(bytes));
    }
    if takes_two_sources(alloc, line)? {
        return sources_after(rt, alloc, line, expected, origin);
    }
    if takes_bytes(alloc, line)? {
        return match words {
            Some(words) => words_after(alloc, line, words),
            None => source_after(rt, alloc, line, origin),
        };
    }
    bytes.extend_from_slice(line.as_bytes())?;
    bytes.push(b'\n')?;
    Ok(Sent::Line(bytes))
}

// Leaves what is sent in the folder, and writes the answer.
fn send<R: Input, W: Write, E: Write>(
    rt: &R,
    layout: &FolderLayout,
    process: u32,
    wait: Option<u32>,
    sent: &Sent<'_>,
    writer: &mut W,
    watched: &mut E,
) -> io::Result<Submission>
    ensures { HasWrittenIfOk (W.contents writer.old) (W.contents writer.new) result }
{
    match sent {
        Sent::Script => submit(
            layout,
            process,
            b"",
            &mut rt.reader(),
            writer,
            watched,
            wait,
        ),
        Sent::Line(bytes) | Sent::Fetch(bytes) | Sent::Source(bytes, _, _) => submit(
            layout,
            process,
            bytes.as_slice(),
            &mut io::empty(),
            writer,
            watched,
            wait,
        ),
    }
}

// Writes bytes. The result is whether they were written.
fn put<W: Write>(text: &[u8], writer: &mut W) -> bool
    ensures { Says result (W.contents writer.old) (W.contents writer.new) text.now }
{
    match writer.write_all(text) {
        Ok(()) => writer.flush().is_ok(),
        Err(_) => {
            let _ = writer.flush();
            false
        }
    }
}

// Explains to a person the fault that an answer reported last; if the fault has a place in the source, the explanation is what `check`
// reports about the source.
fn explain<R: AllocGlobal, E: Write>(
    rt: &R,
    number: u32,
    sent: &Sent<'_>,
    told: &mut E,
) -> io::Result<()> {
    if number == SpoolFault::Interrupted.number() {
        writeln!(
            told,
            "cclib: the server ended while it did the script; `list` shows whether the last command was done"
        )?;
        return told.flush();
    }
    if number == ScriptFault::BadLine.number() {
        return explain_bad_line(Dialect::Served, told);
    }
    if words_of(number).is_some() {
        return explain_words(number, told);
    }
    if let Sent::Source(bytes, begin, origin) = sent
        && let Some(source) = bytes.as_slice().get(*begin..bytes.len().saturating_sub(1))
    {
        explain_source(rt, source, *origin, told);
    }
    Ok(())
}

// Explains to a person what `check` reports about a source.
fn explain_source<R: AllocGlobal, E: Write>(
    rt: &R,
    source: &[u8],
    origin: Origin<'_>,
    told: &mut E,
) {
    let mut source = source;
    let writer = &mut io::sink();
    let _status = match origin {
        Origin::Input => perform_and_explain(rt, Task::Check, &mut source, writer, told),
        Origin::Texts(texts) => perform_texts_and_explain(rt, Task::Check, texts, writer, told),
    };
}

// Writes the line for a system call in the folder that was refused: 40 if memory ran out, else 56. The result is whether the line was
// written.
fn refused<W: Write>(why: &io::Error, writer: &mut W) -> bool
    ensures { SaysRefused result (W.contents writer.old) (W.contents writer.new) [] }
{
    if why.kind() == io::ErrorKind::OutOfMemory {
        put(NO_MEMORY, writer)
    } else {
        put(FOLDER_FAULT, writer)
    }
}

// Writes the line for a fault of the folder, and explains to a person why it came and what is known about the script. The result is
// whether the line was written.
fn folder_fault<W: Write, E: Write>(
    folder: &str,
    why: &io::Error,
    name: Option<&str>,
    writer: &mut W,
    told: &mut E,
) -> bool
    ensures { SaysRefused result (W.contents writer.old) (W.contents writer.new) [] }
{
    let is_written = refused(why, writer);
    let _ = writeln!(told, "cclib: the folder {folder} can't be used: {why}");
    let _ = match name {
        None => writeln!(told, "cclib: nothing of the script is done"),
        Some(name) => writeln!(
            told,
            "cclib: the script was left as {folder}/new/{name}; its answer comes to {folder}/done/{name}"
        ),
    };
    let _ = told.flush();
    is_written
}

// Writes and explains the fault for an answer that was not read to its end: what was written of the answer may end within a line.
fn cut_short<W: Write, E: Write>(
    folder: &str,
    why: &io::Error,
    name: &str,
    writer: &mut W,
    told: &mut E,
) -> bool
    ensures { SaysRefused result (W.contents writer.old) (W.contents writer.new) (10 ∷ []) }
{
    let is_ended = put(b"\n", writer);
    let is_written = folder_fault(folder, why, Some(name), writer, told);
    is_ended && is_written
}

// Writes that no server took a script, and explains this to a person. The result is whether the line was written.
fn not_taken<W: Write, E: Write>(asked: &Submitter, writer: &mut W, told: &mut E) -> bool
    ensures { Says result (W.contents writer.old) (W.contents writer.new) (codes "fault 58 NotTaken\n") }
{
    let is_written = put(NOT_TAKEN, writer);
    let folder = asked.folder.as_str();
    let _ = match asked.wait {
        None => writeln!(
            told,
            "cclib: no server works in {folder}; nothing of the script is done"
        ),
        Some(_) => writeln!(
            told,
            "cclib: no server took the script; nothing of it is done"
        ),
    };
    let _ = told.flush();
    is_written
}

// The status for what became of a script.
fn status_of(done: &io::Result<Submission>) -> u8
    ensures { result ≡ status_of (came_of done.now) }
{
    match done {
        Ok(Submission::Answered(None)) => 0,
        _ => 1,
    }
}

// After its answer, writes what became of a script, and explains it to a person. The result is whether this was written.
fn tell<R: AllocGlobal, W: Write, E: Write>(
    rt: &R,
    done: &io::Result<Submission>,
    asked: &Submitter,
    sent: &Sent<'_>,
    writer: &mut W,
    told: &mut E,
) -> bool
    ensures { Ends (came_of done.now) (W.contents writer.old) (W.contents writer.new) result }
{
    let folder = asked.folder.as_str();
    match done {
        Ok(Submission::Answered(None)) => true,
        Ok(Submission::Answered(Some(number))) => {
            let _ = explain(rt, *number, sent, told);
            true
        }
        Ok(Submission::NotTaken) => not_taken(asked, writer, told),
        Ok(Submission::Unread) => put(READ_FAULT, writer),
        Ok(Submission::Unwritten(name)) => {
            let _ = writeln!(
                told,
                "cclib: the answer could not be written; it stays as {folder}/done/{name}"
            );
            let _ = told.flush();
            false
        }
        Ok(Submission::CutShort(name, why)) => cut_short(folder, why, name.as_str(), writer, told),
        Ok(Submission::Lost(name, why)) => folder_fault(
            folder,
            why,
            Some(name.as_str()),
            writer,
            told,
        ),
        Err(why) => folder_fault(folder, why, None, writer, told),
    }
}

// After its answer, writes what became of a script, and explains it to a person. Hands back how the command ended.
fn finish<R: AllocGlobal, W: Write, E: Write>(
    rt: &R,
    done: io::Result<Submission>,
    asked: &Submitter,
    sent: &Sent<'_>,
    writer: &mut W,
    told: &mut E,
) -> Ended
    ensures { Finishes (came_of done) (W.contents writer.old) (W.contents writer.new) result }
{
    let is_written = tell(rt, &done, asked, sent, writer, told);
    let status = status_of(&done);
    let came = match done {
        Ok(submission) => Some(submission),
        Err(_) => None,
    };
    Ended {
        came,
        status,
        is_written,
    }
}

// Writes the source in an answer that reports no fault, and nothing else.
fn finish_well<W: Write, E: Write>(
    alloc: Global,
    answer: &[u8],
    writer: &mut W,
    told: &mut E,
) -> Ended
    ensures { FinishesWell answer.now (W.contents writer.old) (W.contents writer.new) result }
{
    let (status, is_written) = match source_in(alloc, answer) {
        Ok(Some(source)) => {
            let is_written = put(source, writer);
            if !is_written {
                let _ = told.write_all(b"cclib: the source could not be written\n");
            }
            (if is_written { 0 } else { 1 }, is_written)
        }
        Ok(None) => {
            let _ = told.write_all(b"cclib: the answer is no source\n");
            (1, true)
        }
        Err(AllocError) => {
            let _ = told.write_all(b"cclib: the source could not be written\n");
            (1, false)
        }
    };
    let _ = told.flush();
    Ended {
        came: Some(Submission::Answered(None)),
        status,
        is_written,
    }
}

// Writes the lines that report faults in an answer that was to be a source, and explains the last one to a person.
fn finish_fault<R: AllocGlobal, W: Write, E: Write>(
    rt: &R,
    number: u32,
    answer: &[u8],
    sent: &Sent<'_>,
    writer: &mut W,
    told: &mut E,
) -> Ended
    ensures { FinishesFault number result }
{
    let is_written = match fault_lines(rt.alloc(), answer) {
        Ok(lines) => put(lines.as_slice(), writer),
        Err(AllocError) => false,
    };
    if is_written {
        let _ = explain(rt, number, sent, told);
    } else {
        let _ = told.write_all(b"cclib: the source could not be written\n");
        let _ = told.flush();
    }
    Ended {
        came: Some(Submission::Answered(Some(number))),
        status: 1,
        is_written,
    }
}

// Writes what became of a line whose answer is a source, and explains it to a person.
fn finish_source<R: AllocGlobal, W: Write, E: Write>(
    rt: &R,
    done: io::Result<Submission>,
    answer: &[u8],
    asked: &Submitter,
    sent: &Sent<'_>,
    writer: &mut W,
    told: &mut E,
) -> Ended
    ensures { FinishesSource answer.now (came_of done) (W.contents writer.old) (W.contents writer.new) result }
{
    match done {
        Ok(Submission::Answered(None)) => finish_well(rt.alloc(), answer, writer, told),
        Ok(Submission::Answered(Some(number))) => {
            finish_fault(rt, number, answer, sent, writer, told)
        }
        // Nothing of the answer was printed.
        Ok(Submission::CutShort(name, why)) => {
            let lost = Ok(Submission::Lost(name, why));
            finish(rt, lost, asked, sent, writer, told)
        }
        other => finish(rt, other, asked, sent, writer, told),
    }
}

// Leaves what is sent in the folder, writes the answer, and explains it to a person.
fn leave<R: AllocGlobal + Input, W: Write, E: Write + Drop>(
    rt: &R,
    layout: &FolderLayout,
    process: u32,
    asked: &Submitter,
    sent: &Sent<'_>,
    persons: Persons,
    writer: &mut W,
    told: &mut Telling<E>,
) -> Ended
    ensures { Prints (is_fetch sent.now) result.came (W.contents writer.old) (W.contents writer.new) result.is_written result.status }
{
    let wait = asked.wait;
    // The note that the command is waiting is for a person who watches, so it does not go to a file.
    told.is_quiet = persons.is_quiet || !persons.is_watched;
    if let Sent::Fetch(_) = sent {
        let mut answer = Vec::new(rt.alloc());
        let done = send(rt, layout, process, wait, sent, &mut answer, told);
        told.is_quiet = persons.is_quiet;
        return finish_source(rt, done, answer.as_slice(), asked, sent, writer, told);
    }
    let done = send(rt, layout, process, wait, sent, writer, told);
    told.is_quiet = persons.is_quiet;
    finish(rt, done, asked, sent, writer, told)
}

/// Leaves a script for the server of a folder, and writes its answer. The result is what became of the script, and the status: 0 if an
/// answer came, was written out and reports no fault; 2 if the line is not a command; else 1. If the answer is a source, only its
/// bytes are written. The source of a line that takes one is in the texts, or on standard input. The source that an update expects is
/// `expected`; if this is not given, the answer is the one for a source that can't be read. The only error is that memory ran out
/// before the command began.
pub fn submit_to<R: AllocGlobal + Input, W: Write, E: Write + Drop>(
    rt: &R,
    layout: &FolderLayout,
    process: u32,
    asked: &Submitter,
    expected: Option<&[u8]>,
    origin: Origin<'_>,
    persons: Persons,
    writer: &mut W,
    told: &mut Telling<E>,
) -> Result<Ended, AllocError>
    ensures submits { IfOk result (λ ended. Submits (option_map string_bytes asked.now.line) (W.contents writer.old) (W.contents writer.new) ended) }
    ensures unwritten { OnErr result (W.contents writer.new ≡ W.contents writer.old) }
{
    let line = match &asked.line {
        Some(line) => Some(line.as_str()),
        None => None,
    };
    if !is_command(rt.alloc(), line)? {
        let _ = explain_no_command(&mut told.errors);
        return Ok(Ended {
            came: None,
            status: 2,
            is_written: true,
        });
    }
    let words = match &asked.input {
        Some(words) => Some(words.as_str()),
        None => None,
    };
    let sent = match sent_of(rt, rt.alloc(), line, words, expected, origin) {
        Ok(sent) => sent,
        Err(why) if why.kind() == io::ErrorKind::OutOfMemory => return Err(AllocError),
        Err(_) => {
            let is_written = put(READ_FAULT, writer);
            return Ok(Ended {
                came: Some(Submission::Unread),
                status: 1,
                is_written,
            });
        }
    };
    let ended = leave(rt, layout, process, asked, &sent, persons, writer, told);
    drop(sent);
    Ok(ended)
}

/// Leaves a script for the server of a folder, and prints its answer, as `submit_to` does. The result is the status. The source of a
/// line that takes one is in the files with these names, or on standard input if there are none. If a person sees the answer, its
/// control bytes are shown as `?`. The only error is that memory ran out before the command began.
pub fn submit_script<R: AllocGlobal + Input, A: Write + Drop, E: Write + Drop>(
    rt: &R,
    files: &HostRuntime,
    process: u32,
    asked: &Submitter,
    names: &[String],
    persons: Persons,
    is_seen: bool,
    answers: A,
    errors: E,
) -> Result<u8, AllocError> {
    let alloc = rt.alloc();
    let (Ok(buffered), Ok(errors)) = (
        BufWriter::new(alloc, answers),
        BufWriter::new(alloc, errors),
    ) else {
        return Err(AllocError);
    };
    let mut writer = Screen::new(buffered, is_seen);
    let mut told = Telling {
        errors,
        is_quiet: persons.is_quiet,
    };
    let Some(texts) = read_or_refuse(rt, files, names, &mut writer, &mut told)? else {
        return Ok(1);
    };
    let origin = if names.is_empty() {
        Origin::Input
    } else {
        Origin::Texts(texts.as_slice())
    };
    let mut before = Vec::new(alloc);
    if let Some(name) = &asked.was {
        before.push(name.clone()?)?;
    }
    let before = before.as_slice();
    let Some(found) = read_or_refuse(rt, files, before, &mut writer, &mut told)? else {
        return Ok(1);
    };
    let mut was = join(alloc, found.as_slice())?;
    was.truncate(MOST_READ);
    let expected = if found.is_empty() {
        None
    } else {
        Some(was.as_slice())
    };
    let layout = FolderLayout::new(*files, alloc, asked.folder.as_str())?;
    let ended = submit_to(
        rt,
        &layout,
        process,
        asked,
        expected,
        origin,
        persons,
        &mut writer,
        &mut told,
    )?;
    let status = ended.status;
    drop(ended);
    Ok(status)
}
