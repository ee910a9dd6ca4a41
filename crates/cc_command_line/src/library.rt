// The command `library`.

ghost use Rattle.std.specs.Prelude.{◌≤◌, IfOk, IfSome};
ghost use Rattle.cc_command_line.specs.Work.{IsAllowed};

use crate::command_line::Work;
use crate::given::{
    ALL_CHECKED, DISK, FORMAT, WAIT, WORKERS, area_if_given, kind_of, path_of, wait_of, workers_of,
};
use crate::refused::Refused;
use crate::row::{Form, Reader, Row, Word};
use cc_task::Kind;
use clap::ArgMatches;
use std::alloc::Global;

// ORDER ScriptCommand
// What a person reads below the options of the command.
const LIBRARY_HELP: &str = "\
The script comes on standard input, one command a line:
  add NAME LEN       compile the LEN bytes that follow the line, and keep them as the unit NAME
  replace NAME LEN   the same in place of the unit that NAME has
  withdraw NAME      take the unit of NAME out
  list               print the names of all units
  run NAME STEPS     run the image of NAME for at most so many instructions
  compact            write the file anew, without what was replaced and withdrawn
  audit              compile each unit anew along its certificate, and say whether the same comes of it

A newline follows the LEN bytes. What is answered `ok` is kept, whatever happens to the computer.

Example, which makes the file the first time:
  cclib library units.disk --format 65536 --if-new < examples/units.script";

pub(crate) static LIBRARY: Row = Row {
    name: "library",
    reader: Reader::Library,
    whole: "cclib library",
    about: "Keep compiled programs in a file that survives a power cut, by the commands of a script",
    words: &[
        DISK,
        Word(
            FORMAT,
            Form::Value("AREA"),
            "Make the file anew, with room for AREA bytes of records: 64 to 1073741824. What it had is lost",
        ),
        Word(
            "if-new",
            Form::FlagWith(FORMAT),
            "With --format: if the file is there, open it as it is",
        ),
        WORKERS,
        Word(
            "strict",
            Form::Flag,
            "End with the status 1 if an answer is a fault",
        ),
        ALL_CHECKED,
        WAIT,
    ],
    help: LIBRARY_HELP,
};

/// A session of the library in a file.
#[derive(Drop)]
pub struct Session {
    /// The path of the file.
    pub disk: String,
    /// How many bytes each of two areas has, if the file is to be made anew: 64 to 1,073,741,824.
    pub area: Option<u32>,
    /// Whether a file that is there is opened as it is, although an area is given.
    pub is_if_new: bool,
    /// How many threads compile: 1 to 8.
    pub workers: usize,
    /// Whether a fault among the answers makes the status 1.
    pub is_strict: bool,
    /// How the images of the session are compiled.
    pub kind: Kind,
    /// How many seconds to try while another process has the library open: 0 to 86,400.
    pub wait: u64,
}

/// What `library` asks for.
pub(crate) fn library_of(alloc: Global, given: &ArgMatches<'_>) -> Result<Work, Refused>
    ensures { IfOk result IsAllowed }
{
    let area = area_if_given(given)?;
    let workers = workers_of(given)?;
    let wait = wait_of(given)?;
    let disk = path_of(alloc, given, "DISK")?;
    Ok(Work::Library(Session {
        disk,
        area,
        is_if_new: given.get_flag("if-new"),
        workers,
        is_strict: given.get_flag("strict"),
        kind: kind_of(given),
        wait,
    }))
}
