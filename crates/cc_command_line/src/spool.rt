// The commands `serve` and `submit`.

ghost use Rattle.std.specs.Prelude.{◌≤◌, IfOk, IfSome};
ghost use Rattle.cc_command_line.specs.Work.{IsAllowed};

use crate::command_line::Work;
use crate::files::FILE;
use crate::given::{
    ALL_CHECKED, Allowed, DISK, FORMAT, WAIT, WORKERS, area_if_given, kind_of, number_if_given,
    number_of, path_of, wait_of, workers_of,
};
use crate::refused::Refused;
use crate::row::{Form, Reader, Row, Word};
use cc_task::Kind;
use clap::ArgMatches;
use std::alloc::{AllocError, Global};

/// How many clients a server has: scripts that are run at a time.
const CLIENTS: Allowed = Allowed(1, 64, "N is a decimal number from 1 to 64");

/// For how many days a server keeps answers.
const DAYS: Allowed = Allowed(1, 3650, "DAYS is a decimal number from 1 to 3650");

/// Up to how many bytes a server keeps answers before it removes old ones: from 1 MiB to 1 TiB.
const DONE_BYTES: Allowed = Allowed(
    1_048_576,
    1_099_511_627_776,
    "BYTES is a decimal number from 1048576 to 1099511627776",
);

/// How many seconds a script may be at work while others wait, and how many a script waits for a server.
const SECONDS: Allowed = Allowed(1, 86_400, "SECONDS is a decimal number from 1 to 86400");

const WAS_RULE: &str =
    "`update NAME` takes --was OLDFILE, a file with the source that is to be replaced, and no other line does";

const WORD_RULE: &str = "a word of COMMAND has no space and no newline";

// What a person reads below the options of `serve`.
const SERVE_HELP: &str = "\
A script is what `cclib library` reads; it may have the lines `image NAME`, `source NAME`, `audit NAME`, `update` and `call`
too. `cclib submit FOLDER` leaves one in the folder and prints its answer. What is not there of the folder is made: everybody
may be a client, or, where FOLDER has the set-group-id bit, the members of its group.

  touch FOLDER/stop    ends the server when the scripts that were begun are done

What is answered `ok` is kept, whatever happens to the computer. A script that a server was killed in is answered by the next
server: `fault 55 Interrupted` behind the lines that it had.

Example:
  cclib serve units.disk spool --format 1048576";

// ORDER ScriptCommand
// What a person reads below the options of `submit`.
pub(crate) const SUBMIT_HELP: &str = "\
Without a COMMAND the script comes on standard input. A COMMAND is one line of a script:
  add NAME           the source comes on standard input
  replace NAME       the same
  withdraw NAME
  list
  run NAME STEPS
  compact
  audit
  image NAME         its image as Intel HEX
  source NAME        its source, to the byte
  audit NAME         what an audit says of it
  update NAME        as replace, if the source that is there is that of --was OLDFILE
  call NAME STEPS    run its image on the WORDs that follow
  space              how much of an area is used, and would be after `compact`

A script that waits is taken back after three seconds in which no server is there, and nothing of it is done. One that a server
has begun is waited for.

Exit status: 0 for an answer, 1 where a line of it is a fault, 2 for a command line that is refused.

Example:
  cclib submit spool add quotient < examples/quotient.c";

pub(crate) static SERVE: Row = Row {
    name: "serve",
    reader: Reader::Serve,
    whole: "cclib serve",
    about: "Serve the scripts that others leave in a folder, many at a time, over a library in a file",
    words: &[
        DISK,
        Word(
            "FOLDER",
            Form::Required,
            "The folder in which scripts are left",
        ),
        Word(
            FORMAT,
            Form::Value("AREA"),
            "Make the file if it is not there, with room for AREA bytes of records: 64 to 1073741824",
        ),
        WORKERS,
        Word(
            "clients",
            Form::Default("N", "4"),
            "How many scripts are done at a time: 1 to 64",
        ),
        Word(
            "keep",
            Form::Default("DAYS", "7"),
            "For how many days answers that nobody took away are kept: 1 to 3650",
        ),
        Word(
            "done",
            Form::Default("BYTES", "1073741824"),
            "How many bytes of answers are kept before the oldest go: 1048576 to 1099511627776",
        ),
        Word(
            "patience",
            Form::Default("SECONDS", "600"),
            "For how long a script may be at work while others wait: 1 to 86400",
        ),
        ALL_CHECKED,
        WAIT,
    ],
    help: SERVE_HELP,
};

pub(crate) static SUBMIT: Row = Row {
    name: "submit",
    reader: Reader::Submit,
    whole: "cclib submit",
    about: "Leave a script for a server, wait for its answer and print it",
    words: &[
        Word(
            "FOLDER",
            Form::Required,
            "The folder in which a server looks for scripts",
        ),
        Word(
            "wait",
            Form::Value("SECONDS"),
            "Take the script back if no server begins it in so many seconds: 1 to 86400",
        ),
        Word(
            "was",
            Form::Value("OLDFILE"),
            "The file with the source that `update` is to replace",
        ),
        Word("COMMAND", Form::Several, "A line of a script"),
        FILE,
    ],
    help: SUBMIT_HELP,
};

/// A server: it runs the scripts that are left in a folder over the library in a file.
#[derive(Drop)]
pub struct Server {
    /// The path of the file.
    pub disk: String,
    /// The path of the folder.
    pub folder: String,
    /// How many bytes each of two areas has, if the file is to be made because it is not there: 64 to 1,073,741,824.
    pub area: Option<u32>,
    /// How many threads compile: 1 to 8.
    pub workers: usize,
    /// How the images of the server are compiled.
    pub kind: Kind,
    /// How many scripts are run at a time: 1 to 64.
    pub clients: usize,
    /// How many days answers that nobody took away are kept: 1 to 3,650.
    pub keep: u32,
    /// How many bytes of answers are kept before the oldest go: 1 MiB to 1 TiB.
    pub done: u64,
    /// How many seconds a script may be at work while other scripts wait for a client, or while the end of a generation or of
    /// the server waits for it: 1 to 86,400.
    pub patience: u32,
    /// How many seconds to try while another process has the library open: 0 to 86,400.
    pub wait: u64,
}

/// A script for a server.
#[derive(Drop)]
pub struct Submitter {
    /// The path of the folder.
    pub folder: String,
    /// The line of a script, whose source is on standard input if it takes one. If it is not given, the script is on standard
    /// input.
    pub line: Option<String>,
    /// The words after the three of a line `call`, with a space between two: its input. It is given exactly if the line's first
    /// word is `call`.
    pub input: Option<String>,
    /// The path of the file with the source that a line `update` is to replace. It is given exactly if the line's first word is
    /// `update`.
    pub was: Option<String>,
    /// How many seconds it waits, whether or not a server is there: 1 to 86,400, if given.
    pub wait: Option<u32>,
}

// The limits of a server. Each has a default.
struct Limits {
    clients: usize,
    keep: u32,
    done: u64,
    patience: u32,
}

fn limits_of(given: &ArgMatches<'_>) -> Result<Limits, Refused>
    ensures { IfOk result (λ limits. (1 ≤ limits.clients) × (limits.clients ≤ 64) × (1 ≤ limits.keep) × (limits.keep ≤ 3650)
        × (1048576 ≤ limits.done) × (limits.done ≤ 1099511627776) × (1 ≤ limits.patience) × (limits.patience ≤ 86400)) }
{
    let clients = number_of(given, "clients", CLIENTS)?;
    let keep = number_of(given, "keep", DAYS)?;
    let done = number_of(given, "done", DONE_BYTES)?;
    let patience = number_of(given, "patience", SECONDS)?;
    Ok(Limits {
        clients: clients as usize,
        keep: keep as u32,
        done,
        patience: patience as u32,
    })
}

/// What `serve` asks for.
pub(crate) fn serve_of(alloc: Global, given: &ArgMatches<'_>) -> Result<Work, Refused>
    ensures { IfOk result IsAllowed }
{
    let area = area_if_given(given)?;
    let workers = workers_of(given)?;
    let Limits {
        clients,
        keep,
        done,
        patience,
    } = limits_of(given)?;
    let wait = wait_of(given)?;
    let disk = path_of(alloc, given, "DISK")?;
    let folder = path_of(alloc, given, "FOLDER")?;
    Ok(Work::Serve(Server {
        disk,
        folder,
        area,
        workers,
        kind: kind_of(given),
        clients,
        keep,
        done,
        patience,
        wait,
    }))
}

// How many seconds a script waits, if that is given.
fn patience_of(given: &ArgMatches<'_>) -> Result<Option<u32>, Refused>
    ensures { IfOk result (λ wait. IfSome wait (λ seconds. (1 ≤ seconds) × (seconds ≤ 86400))) }
{
    match number_if_given(given, "wait", SECONDS) {
        Ok(Some(seconds)) => Ok(Some(seconds as u32)),
        Ok(None) => Ok(None),
        Err(refused) => Err(refused),
    }
}

// Whether a word may be a word of a line.
fn is_word(word: &str) -> bool {
    word.bytes().all(|byte| byte != b' ' && byte != b'\n')
}

// Whether each of these words may be a word of a line.
fn are_words(words: &[&str]) -> bool {
    for word in words {
        if !is_word(word) {
            return false;
        }
    }
    true
}

// These words as one line, separated by single spaces.
fn line_of(alloc: Global, words: &[&str]) -> Result<String, AllocError> {
    let mut line = String::new(alloc);
    for word in words {
        if !line.is_empty() {
            line.push(' ')?;
        }
        line.push_str(word)?;
    }
    Ok(line)
}

// Whether `first` is the first of these words.
fn begins_with(words: &[&str], first: &str) -> bool {
    match words.first() {
        Some(word) => *word == first,
        None => false,
    }
}

// The path of the file with the source that a line `update` is to replace. Such a line needs it, and no other line takes it.
fn was_of(
    alloc: Global,
    given: &ArgMatches<'_>,
    words: &[&str],
) -> Result<Option<String>, Refused> {
    match (given.get_str("was"), begins_with(words, "update")) {
        (None, false) => Ok(None),
        (Some(path), true) if !path.is_empty() && path != "-" => {
            Ok(Some(String::from_str(alloc, path)?))
        }
        _ => Err(Refused::ByCommand(WAS_RULE)),
    }
}

// What is sent: the line, and the input of a call.
struct Sent {
    line: Option<String>,
    input: Option<String>,
}

// What is sent for these words.
fn sent_by(alloc: Global, words: &[&str]) -> Result<Sent, AllocError> {
    if words.is_empty() {
        return Ok(Sent {
            line: None,
            input: None,
        });
    }
    if !begins_with(words, "call") {
        return Ok(Sent {
            line: Some(line_of(alloc, words)?),
            input: None,
        });
    }
    let (own, input) = words.split_at(words.len().min(3));
    let line = line_of(alloc, own)?;
    let input = line_of(alloc, input)?;
    Ok(Sent {
        line: Some(line),
        input: Some(input),
    })
}

/// What `submit` asks for.
pub(crate) fn submit_of(alloc: Global, given: &ArgMatches<'_>) -> Result<Work, Refused>
    ensures { IfOk result IsAllowed }
{
    let wait = patience_of(given)?;
    let words = given.get_strs("COMMAND").unwrap_or(&[]);
    let folder = path_of(alloc, given, "FOLDER")?;
    let was = was_of(alloc, given, words)?;
    if !are_words(words) {
        return Err(Refused::ByCommand(WORD_RULE));
    }
    let Sent { line, input } = sent_by(alloc, words)?;
    Ok(Work::Submit(Submitter {
        folder,
        line,
        input,
        was,
        wait,
    }))
}
