// The commands that look into libraries in files, put back a unit of a library, or copy a library: `call`,
// `diff`, `log`, `restore` and `copy`; and what they and `size` ask for.

ghost use Rattle.std.specs.Prelude.{◌≤◌, IfOk};
ghost use Rattle.cc_command_line.specs.Work.{IsAllowed};

use crate::command_line::Work;
use crate::given::{
    COUNT, DISK, FORMAT, INPUT, INPUT_BOTH_RULE, INPUT_FILE, NAME, Unit, WAIT, WORDS, area_of,
    input_file_of, input_in, input_of, most_of, number_of, path_of, steps_at, text_if_given,
    texts_of, unit_of, wait_of,
};
use crate::live::{LIVE, LIVE_RULE, ZEROS, goes_not_with_live};
use crate::refused::Refused;
use crate::row::{Form, Reader, Row, Word};
use crate::unit::COMMANDS;
use cc_task::Kind;
use clap::ArgMatches;
use std::alloc::{AllocError, Global};

const LINES_RULE: &str = "with `--lines` the words come on standard input";

// What a person reads below the words of `call`.
const CALL_HELP: &str = "\
What runs is the image that was stored: nothing is compiled.

Example:
  cclib call units.disk checksum 10000 2 104 105

With `--lines` each line of standard input is the words of one run, and its answer ends with an empty line.

With `--live` each line is fed to the one run. STEPS bounds each turn, from a line to the next wait.

A unit that `pack` wrote runs without the library:
  cclib call --unit checksum.unit 10000 2 104 105";

// What a person reads below the words of `diff`.
const DIFF_HELP: &str = "\
A line for each difference, in the order of the names: `left NAME` or `right NAME` if one library alone has the unit,
else `source NAME`, `image NAME` and `certificate NAME`. Nothing is printed if both hold the same: status 0, else 1.";

// What a person reads below the words of `log`.
const LOG_HELP: &str = "\
A line for each command since the last compaction: `K add NAME 801 120` with the bytes of the source and the words of
the code, `K replace NAME 812 123` or `K withdraw NAME`. What command K stored: cclib source DISK NAME --at K";

// What a person reads below the words of `restore`.
const RESTORE_HELP: &str = "\
What is put back is the unit that command K of `cclib log DISK` stored under the name, to the byte: as an add where the
name has no unit, else as a replace. A compaction, and `copy`, leave one add a unit, and so nothing to go back to.";

// What a person reads below the words of `copy`.
const COPY_HELP: &str = "\
The units are copied to the byte: source, image and certificate. Nothing may have the name NEW; it is given when all is written.
A larger AREA makes a library grow, a smaller one is refused with the least that would do.

Example:
  cclib copy units.disk larger.disk --format 1048576";

pub(crate) static CALL: Row = Row {
    name: "call",
    reader: Reader::Call,
    whole: "cclib call",
    about: "Run a unit of a library on input words",
    words: &[
        Word(
            "DISK",
            Form::RequiredUnless("unit"),
            "The file that has the library",
        ),
        Word("NAME", Form::RequiredUnless("unit"), "The name of the unit"),
        Word(
            "STEPS",
            Form::NumberUnless("unit"),
            "The most instructions that a run may take: 0 to 1000000000",
        ),
        INPUT,
        Word(
            "lines",
            Form::Flag,
            "Run it for each line of standard input, on the words of the line",
        ),
        COUNT,
        INPUT_FILE,
        WORDS,
        LIVE,
        ZEROS,
        Word(
            "unit",
            Form::Value("FILE"),
            "The file of a unit that `pack` wrote, in place of DISK and NAME",
        ),
        WAIT,
    ],
    help: CALL_HELP,
};

pub(crate) static DIFF: Row = Row {
    name: "diff",
    reader: Reader::Diff,
    whole: "cclib diff",
    about: "Show how two libraries differ",
    words: &[
        Word("LEFT", Form::Required, "The file that has the one library"),
        Word("RIGHT", Form::Required, "The file that has the other"),
        WAIT,
    ],
    help: DIFF_HELP,
};

pub(crate) static LOG: Row = Row {
    name: "log",
    reader: Reader::Log,
    whole: "cclib log",
    about: "Print what was added, replaced and withdrawn since the last compaction",
    words: &[
        DISK,
        Word(
            "NAME",
            Form::Optional,
            "Only what was done to the unit of this name",
        ),
        Word(
            "hash",
            Form::Flag,
            "Print the SHA-256 of each source after its lengths",
        ),
        WAIT,
    ],
    help: LOG_HELP,
};

pub(crate) static RESTORE: Row = Row {
    name: "restore",
    reader: Reader::Restore,
    whole: "cclib restore",
    about: "Put back what a unit of a library was",
    words: &[
        DISK,
        NAME,
        Word(
            "K",
            Form::Required,
            "The number of the command that stored it",
        ),
        WAIT,
    ],
    help: RESTORE_HELP,
};

pub(crate) static COPY: Row = Row {
    name: "copy",
    reader: Reader::Copy,
    whole: "cclib copy",
    about: "Copy the units of a library into a new one, or some of them",
    words: &[
        Word("OLD", Form::Required, "The file that has the library"),
        Word("NEW", Form::Required, "The new file"),
        Word(
            "NAME",
            Form::Several,
            "The names of the units: all, if none is given",
        ),
        Word(
            FORMAT,
            Form::RequiredValue("AREA"),
            "The room of the new library, in bytes of records: 64 to 1073741824",
        ),
        Word(
            "confirmed",
            Form::Flag,
            "Leave out what an audit does not confirm",
        ),
        WAIT,
    ],
    help: COPY_HELP,
};

/// What `call` is to run: a unit of the library in a file, or one that is a file itself.
#[derive(Drop)]
pub struct Calling {
    /// The path of the library's file, or of the unit's.
    pub disk: String,
    /// The name that the unit should have, as it was given; empty for a unit that is a file.
    pub name: String,
    /// Whether `disk` is the file of a unit.
    pub is_file: bool,
    /// How many instructions a run may take at most; with `is_live` a turn.
    pub steps: u64,
    /// The input words of the one run.
    pub words: Vec<u32>,
    /// The path of a file that has the input words of the one run, in place of `words`.
    pub input: Option<String>,
    /// Before more than so many words a run ends: 0 to 4,294,967,295, if given.
    pub most: Option<u64>,
    /// Whether standard input has the words of a run in each line, in place of `words`.
    pub is_lines: bool,
    /// Whether standard input has the words of the one run, line by line, and what it writes is printed as it waits for the next.
    pub is_live: bool,
    /// Whether such a run reads zeros at the end of standard input.
    pub reads_zeros: bool,
    /// Whether the instructions are counted.
    pub is_counted: bool,
    /// How many seconds to try while another process has the library open: 0 to 86,400.
    pub wait: u64,
}

/// Two libraries in files, to be compared.
#[derive(Drop)]
pub struct Comparing {
    /// The path of the one file.
    pub left: String,
    /// The path of the other.
    pub right: String,
    /// How many seconds to try while another process has one of them open: 0 to 86,400.
    pub wait: u64,
}

/// The library in a file whose commands are to be listed.
#[derive(Drop)]
pub struct Logging {
    /// The path of the file.
    pub disk: String,
    /// The name of the unit whose commands alone are listed, as it was given, if one is.
    pub name: Option<String>,
    /// Whether the SHA-256 of each source is listed too.
    pub is_hashed: bool,
    /// How many seconds to try while another process has the library open: 0 to 86,400.
    pub wait: u64,
}

/// What is to be put back: the unit that a command stored in the library in a file.
#[derive(Drop)]
pub struct Restoring {
    /// The path of the file.
    pub disk: String,
    /// The name under which the unit was stored, as it was given.
    pub name: String,
    /// The number of the command.
    pub number: u64,
    /// How many seconds to try while another process has the library open: 0 to 86,400.
    pub wait: u64,
}

/// A unit of the library in a file, and how its image is to be measured.
#[derive(Drop)]
pub struct Measuring {
    /// The path of the file.
    pub disk: String,
    /// The name that the unit should have, as it was given.
    pub name: String,
    /// How its image should be compiled.
    pub kind: Kind,
    /// How many seconds to try while another process has the library open: 0 to 86,400.
    pub wait: u64,
}

/// A library that is to be copied into a new one.
#[derive(Drop)]
pub struct Copying {
    /// The path of the library's file.
    pub old: String,
    /// The path of the new library's file.
    pub new: String,
    /// How many bytes each of the new library's areas has: 64 to 1,073,741,824.
    pub area: u32,
    /// Whether what an audit does not confirm is left out.
    pub is_confirmed: bool,
    /// The names of the units that are copied, as they were given; all units if no name was given.
    pub names: Vec<String>,
    /// How many seconds to try while another process has the library open: 0 to 86,400.
    pub wait: u64,
}

/// What `call`, `size`, `diff`, `log`, `restore` or `copy` is to do.
#[derive(Drop)]
pub enum Keeping {
    /// Run a unit.
    Call(Calling),
    /// Say how much memory the image of a unit takes.
    Size(Measuring),
    /// Show the differences between the libraries in two files.
    Diff(Comparing),
    /// Say which commands a library has had since its last compaction, or only those about one name.
    Log(Logging),
    /// Put back what a command stored.
    Restore(Restoring),
    /// Copy units into a new library.
    Copy(Copying),
}

// The texts of the input words for a unit that is a file. DISK and NAME are not given then, so that NAME and STEPS have the first two.
fn texts_for_file<'a>(alloc: Global, given: &ArgMatches<'a>) -> Result<Vec<&'a str>, AllocError> {
    let mut texts = Vec::new(alloc);
    if let Some(text) = given.get_str("NAME") {
        texts.push(text)?;
    }
    if let Some(text) = given.get_str("STEPS") {
        texts.push(text)?;
    }
    for text in given.get_strs("WORD").unwrap_or(&[]) {
        texts.push(*text)?;
    }
    Ok(texts)
}

// The input of the one run of `call`.
fn call_input_of(
    alloc: Global,
    given: &ArgMatches<'_>,
    is_file: bool,
) -> Result<Vec<u32>, Refused> {
    if is_file {
        let texts = texts_for_file(alloc, given)?;
        input_in(alloc, texts.as_slice())
    } else {
        input_of(alloc, given)
    }
}

// The rule that the options of `call` break, if they break one, given whether it has input words.
fn broken_by_call(given: &ArgMatches<'_>, has_words: bool) -> Option<&'static str> {
    let has_file = given.get_str("input").is_some();
    if given.get_flag("live") && (has_words || goes_not_with_live(given)) {
        Some(LIVE_RULE)
    } else if given.get_flag("lines") && (has_words || has_file) {
        Some(LINES_RULE)
    } else if has_words && has_file {
        Some(INPUT_BOTH_RULE)
    } else {
        None
    }
}

// The unit that `call` names: of a library, or a file.
fn called_of(alloc: Global, given: &ArgMatches<'_>, is_file: bool) -> Result<Unit, Refused> {
    if !is_file {
        return unit_of(alloc, given);
    }
    let disk = path_of(alloc, given, "unit")?;
    Ok(Unit {
        disk,
        name: String::new(alloc),
    })
}

/// What `call` asks for.
pub(crate) fn call_of(alloc: Global, given: &ArgMatches<'_>) -> Result<Work, Refused>
    ensures { IfOk result IsAllowed }
{
    let is_file = given.get_str("unit").is_some();
    let steps = steps_at(given, if is_file { "DISK" } else { "STEPS" })?;
    let most = most_of(given)?;
    let wait = wait_of(given)?;
    let words = call_input_of(alloc, given, is_file)?;
    if let Some(rule) = broken_by_call(given, !words.is_empty()) {
        return Err(Refused::ByCommand(rule));
    }
    let input = input_file_of(alloc, given)?;
    let Unit { disk, name } = called_of(alloc, given, is_file)?;
    Ok(Work::Keep(Keeping::Call(Calling {
        disk,
        name,
        is_file,
        steps,
        words,
        input,
        most,
        is_lines: given.get_flag("lines"),
        is_live: given.get_flag("live"),
        reads_zeros: given.get_flag("zeros"),
        is_counted: given.get_flag("count"),
        wait,
    })))
}

/// What `diff` asks for.
pub(crate) fn diff_of(alloc: Global, given: &ArgMatches<'_>) -> Result<Work, Refused>
    ensures { IfOk result IsAllowed }
{
    let wait = wait_of(given)?;
    let left = path_of(alloc, given, "LEFT")?;
    let right = path_of(alloc, given, "RIGHT")?;
    Ok(Work::Keep(Keeping::Diff(Comparing { left, right, wait })))
}

/// What `log` asks for.
pub(crate) fn log_of(alloc: Global, given: &ArgMatches<'_>) -> Result<Work, Refused>
    ensures { IfOk result IsAllowed }
{
    let wait = wait_of(given)?;
    let disk = path_of(alloc, given, "DISK")?;
    let name = text_if_given(alloc, given, "NAME")?;
    Ok(Work::Keep(Keeping::Log(Logging {
        disk,
        name,
        is_hashed: given.get_flag("hash"),
        wait,
    })))
}

/// What `restore` asks for.
pub(crate) fn restore_of(alloc: Global, given: &ArgMatches<'_>) -> Result<Work, Refused>
    ensures { IfOk result IsAllowed }
{
    let number = number_of(given, "K", COMMANDS)?;
    let wait = wait_of(given)?;
    let Unit { disk, name } = unit_of(alloc, given)?;
    Ok(Work::Keep(Keeping::Restore(Restoring {
        disk,
        name,
        number,
        wait,
    })))
}

/// What `copy` asks for.
pub(crate) fn copy_of(alloc: Global, given: &ArgMatches<'_>) -> Result<Work, Refused>
    ensures { IfOk result IsAllowed }
{
    let area = area_of(given)?;
    let wait = wait_of(given)?;
    let is_confirmed = given.get_flag("confirmed");
    let old = path_of(alloc, given, "OLD")?;
    let new = path_of(alloc, given, "NEW")?;
    let names = texts_of(alloc, given.get_strs("NAME").unwrap_or(&[]))?;
    Ok(Work::Keep(Keeping::Copy(Copying {
        old,
        new,
        area,
        is_confirmed,
        names,
        wait,
    })))
}
