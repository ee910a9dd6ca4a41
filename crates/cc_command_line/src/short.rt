// The commands that are scripts of one line over the library in a file: `add`, `replace`, `withdraw`, `list`, `audit` and
// `compact`.

ghost use Rattle.std.specs.Prelude.{◌≤◌, IfOk};
ghost use Rattle.cc_command_line.specs.Work.{IsAllowed};

use crate::command_line::Work;
use crate::files::FILE;
use crate::given::{
    ALL_CHECKED, DISK, NAME, WAIT, WORKERS, kind_of, path_of, text_of, wait_of, workers_of,
};
use crate::refused::Refused;
use crate::row::{Form, Reader, Row, Word};
use cc_task::Kind;
use clap::ArgMatches;
use std::alloc::Global;

const AUDIT_RULE: &str = "an audit is of DISK, or of its unit NAME, or of --unit FILE alone";

// What a person reads below the words of `add`.
const ADD_HELP: &str = "\
The program comes on standard input, or in files. The answer is that of the line `add NAME LEN` of a script: `ok` and the number
of changes, or a fault, and then the status is 1. What is answered `ok` is kept, whatever happens to the computer.

Example:
  cclib add units.disk quotient < examples/quotient.c";

// What a person reads below the words of `replace`.
const REPLACE_HELP: &str = "\
The program comes on standard input, or in files. The answer is that of the line `replace NAME LEN` of a script.

Example:
  cclib replace units.disk quotient < examples/quotient.c";

// What a person reads below the words of `withdraw`.
const WITHDRAW_HELP: &str = "\
Example:
  cclib withdraw units.disk quotient";

// What a person reads below the words of `list`.
const LIST_HELP: &str = "\
Example:
  cclib list units.disk";

// What a person reads below the words of `audit`.
const AUDIT_HELP: &str = "\
Each unit is compiled anew along its certificate. The answer is that of the line `audit` of a script, or of `audit NAME`.

Example:
  cclib audit units.disk quotient
  cclib audit --unit quotient.unit";

// What a person reads below the words of `compact`.
const COMPACT_HELP: &str = "\
Example:
  cclib compact units.disk";

pub(crate) static ADD: Row = Row {
    name: "add",
    reader: Reader::Add,
    whole: "cclib add",
    about: "Compile the program and keep it in a library as a unit with a new name",
    words: &[DISK, NAME, FILE, ALL_CHECKED, WORKERS, WAIT],
    help: ADD_HELP,
};

pub(crate) static REPLACE: Row = Row {
    name: "replace",
    reader: Reader::Replace,
    whole: "cclib replace",
    about: "Compile the program and keep it in place of a unit of a library",
    words: &[DISK, NAME, FILE, ALL_CHECKED, WORKERS, WAIT],
    help: REPLACE_HELP,
};

pub(crate) static WITHDRAW: Row = Row {
    name: "withdraw",
    reader: Reader::Withdraw,
    whole: "cclib withdraw",
    about: "Take a unit out of a library for good",
    words: &[DISK, NAME, ALL_CHECKED, WORKERS, WAIT],
    help: WITHDRAW_HELP,
};

pub(crate) static LIST: Row = Row {
    name: "list",
    reader: Reader::List,
    whole: "cclib list",
    about: "Print the names of all units of a library",
    words: &[DISK, ALL_CHECKED, WORKERS, WAIT],
    help: LIST_HELP,
};

pub(crate) static AUDIT: Row = Row {
    name: "audit",
    reader: Reader::Audit,
    whole: "cclib audit",
    about: "Say of each unit of a library, or of one, whether compiling it anew gives the same",
    words: &[
        Word("DISK", Form::Optional, "The file that has the library"),
        Word(
            "NAME",
            Form::Optional,
            "The name of the unit: all, if none is given",
        ),
        Word(
            "unit",
            Form::Value("FILE"),
            "The file of a unit that `pack` wrote, in place of DISK and NAME",
        ),
        ALL_CHECKED,
        WORKERS,
        WAIT,
    ],
    help: AUDIT_HELP,
};

pub(crate) static COMPACT: Row = Row {
    name: "compact",
    reader: Reader::Compact,
    whole: "cclib compact",
    about: "Write the file of a library anew, without what was replaced and withdrawn",
    words: &[DISK, ALL_CHECKED, WORKERS, WAIT],
    help: COMPACT_HELP,
};

/// A script's one line. A name is as it was given.
#[derive(Drop)]
pub enum ShortVerb {
    /// Keep the program under a new name.
    Add(String),
    /// Keep the program in place of the unit with this name.
    Replace(String),
    /// Take out the unit with this name.
    Withdraw(String),
    /// List the names.
    List,
    /// Audit the unit with this name, or each unit.
    Audit(Option<String>),
    /// Audit the unit that the file itself is.
    AuditFile,
    /// Write the file anew.
    Compact,
}

/// A script of one line for the library in a file.
#[derive(Drop)]
pub struct Short {
    /// The path of the library's file; for `AuditFile`, that of the unit's.
    pub disk: String,
    /// The line.
    pub verb: ShortVerb,
    /// How an image is compiled, and which images an audit confirms.
    pub kind: Kind,
    /// How many threads compile: 1 to 8.
    pub workers: usize,
    /// How many seconds to try while another process has the library open: 0 to 86,400.
    pub wait: u64,
}

// The work with this line, for the library in the file whose path the word or option `disk` gives.
fn short_of(
    alloc: Global,
    given: &ArgMatches<'_>,
    disk: &str,
    verb: ShortVerb,
) -> Result<Work, Refused>
    ensures { IfOk result IsAllowed }
{
    let workers = workers_of(given)?;
    let wait = wait_of(given)?;
    let disk = path_of(alloc, given, disk)?;
    Ok(Work::Short(Short {
        disk,
        verb,
        kind: kind_of(given),
        workers,
        wait,
    }))
}

/// What `add` asks for.
pub(crate) fn add_of(alloc: Global, given: &ArgMatches<'_>) -> Result<Work, Refused>
    ensures { IfOk result IsAllowed }
{
    let name = text_of(alloc, given, "NAME")?;
    short_of(alloc, given, "DISK", ShortVerb::Add(name))
}

/// What `replace` asks for.
pub(crate) fn replace_of(alloc: Global, given: &ArgMatches<'_>) -> Result<Work, Refused>
    ensures { IfOk result IsAllowed }
{
    let name = text_of(alloc, given, "NAME")?;
    short_of(alloc, given, "DISK", ShortVerb::Replace(name))
}

/// What `withdraw` asks for.
pub(crate) fn withdraw_of(alloc: Global, given: &ArgMatches<'_>) -> Result<Work, Refused>
    ensures { IfOk result IsAllowed }
{
    let name = text_of(alloc, given, "NAME")?;
    short_of(alloc, given, "DISK", ShortVerb::Withdraw(name))
}

/// What `list` asks for.
pub(crate) fn list_of(alloc: Global, given: &ArgMatches<'_>) -> Result<Work, Refused>
    ensures { IfOk result IsAllowed }
{
    short_of(alloc, given, "DISK", ShortVerb::List)
}

/// What `audit` asks for.
pub(crate) fn audit_of(alloc: Global, given: &ArgMatches<'_>) -> Result<Work, Refused>
    ensures { IfOk result IsAllowed }
{
    let has_disk = given.get_str("DISK").is_some();
    let has_name = given.get_str("NAME").is_some();
    if has_disk == given.get_str("unit").is_some() {
        Err(Refused::ByCommand(AUDIT_RULE))
    } else if !has_disk {
        short_of(alloc, given, "unit", ShortVerb::AuditFile)
    } else if has_name {
        let name = text_of(alloc, given, "NAME")?;
        short_of(alloc, given, "DISK", ShortVerb::Audit(Some(name)))
    } else {
        short_of(alloc, given, "DISK", ShortVerb::Audit(None))
    }
}

/// What `compact` asks for.
pub(crate) fn compact_of(alloc: Global, given: &ArgMatches<'_>) -> Result<Work, Refused>
    ensures { IfOk result IsAllowed }
{
    short_of(alloc, given, "DISK", ShortVerb::Compact)
}
