// The commands `image` and `source`, which take something out of a library, and `size`. Without a library `image` and `size` are tasks for a
// program.

ghost use Rattle.std.specs.Prelude.{◌≤◌, IfOk, IfSome};
ghost use Rattle.cc_command_line.specs.Work.{IsAllowed};

use crate::command_line::Work;
use crate::files::FILE;
use crate::given::{
    Allowed, CHECKED, DISK, NAME, Unit, WAIT, kind_of, number_if_given, unit_of, wait_of,
};
use crate::keeping::{Keeping, Measuring};
use crate::refused::Refused;
use crate::row::{Form, Reader, Row, Word};
use cc_task::{Kind, Part, Task};
use clap::ArgMatches;
use std::alloc::Global;

/// DISK and NAME of the commands that do without a library too.
const ANY_DISK: Word = Word("DISK", Form::Optional, "The file that has the library");

const ANY_NAME: Word = Word("NAME", Form::Optional, "The name of the unit");

/// The number of a command of a library, which has at most so many records.
pub(crate) const COMMANDS: Allowed = Allowed(
    1,
    1_073_741_824,
    "K is the number of a line of `cclib log DISK`, from 1 on",
);

const BOTH_RULE: &str =
    "DISK and NAME go together; without both, the program comes on standard input: cclib image < FILE";

const SIZE_BOTH_RULE: &str =
    "DISK and NAME go together; without both, the program comes on standard input: cclib size < FILE";

const SIZE_RULE: &str =
    "--size is for a program on standard input or in files; `cclib size DISK NAME` measures a unit";

const CHECKED_RULE: &str =
    "--checked is for a program on standard input; the image of a unit is printed as it was stored";

// What a person reads below the words of `image`.
const IMAGE_HELP: &str = "\
Without further words the program comes on standard input:
  cclib image < examples/quotient.c

With --size the lines of `cclib size` follow; objcopy and the loader of qemu ignore them:
  cclib image --size < examples/quotient.c

With DISK and NAME the image is that of a unit of a library, as it was stored:
  cclib image units.disk quotient

Its code lies from 0x00010000 on, the first values of its globals from 0x00200000 on.";

// What a person reads below the words of `source`.
const SOURCE_HELP: &str = "\
What is printed is the source that was stored, to the byte.

Example:
  cclib source units.disk quotient > quotient.c";

// What a person reads below the words of `size`.
const SIZE_HELP: &str = "\
Without further words the program comes on standard input, or in files:
  cclib size -f main.c -f table.c

With DISK and NAME it is a unit of a library, made again along its certificate; of one that is not confirmed so the line of
`audit` is printed.";

pub(crate) static SIZE: Row = Row {
    name: "size",
    reader: Reader::Size,
    whole: "cclib size",
    about: "Show how much memory an image takes: its code, its globals, and a stack that is enough",
    words: &[CHECKED, ANY_DISK, ANY_NAME, FILE, WAIT],
    help: SIZE_HELP,
};

pub(crate) static IMAGE: Row = Row {
    name: "image",
    reader: Reader::Image,
    whole: "cclib image",
    about: "Compile the program and print its image as Intel HEX, or print that of a unit of a library",
    words: &[
        CHECKED,
        Word(
            "size",
            Form::Flag,
            "After the image, print how much memory this very image takes, as `size` does",
        ),
        ANY_DISK,
        ANY_NAME,
        Word(
            "at",
            Form::Value("K"),
            "Print what command K of `cclib log DISK` stored, in place of what the library has now",
        ),
        FILE,
        WAIT,
    ],
    help: IMAGE_HELP,
};

pub(crate) static SOURCE: Row = Row {
    name: "source",
    reader: Reader::Source,
    whole: "cclib source",
    about: "Print the source of a unit of a library",
    words: &[
        DISK,
        NAME,
        Word(
            "at",
            Form::Value("K"),
            "Print what command K of `cclib log DISK` stored, in place of what the library has now",
        ),
        WAIT,
    ],
    help: SOURCE_HELP,
};

/// The unit, and the part of it, that is wanted from the library in a file.
#[derive(Drop)]
pub struct Wanted {
    /// The path of the file.
    pub disk: String,
    /// The name that the unit should have, as it was given.
    pub name: String,
    /// Which part is wanted.
    pub part: Part,
    /// The number of the command that stored the wanted unit; `None` for the unit that the library has now.
    pub at: Option<u64>,
    /// How many seconds to try while another process has the library open: 0 to 86,400.
    pub wait: u64,
}

// The number of the command that is asked for, if one is.
fn at_of(given: &ArgMatches<'_>) -> Result<Option<u64>, Refused> {
    number_if_given(given, "at", COMMANDS)
}

// A part of the unit that the words name.
fn wanted_of(
    alloc: Global,
    given: &ArgMatches<'_>,
    part: Part,
    at: Option<u64>,
) -> Result<Work, Refused>
    ensures { IfOk result IsAllowed }
{
    let wait = wait_of(given)?;
    let Unit { disk, name } = unit_of(alloc, given)?;
    Ok(Work::TakeOut(Wanted {
        disk,
        name,
        part,
        at,
        wait,
    }))
}

// Refuses the words of `image` if they break a rule.
fn keep_rules(given: &ArgMatches<'_>, is_earlier: bool) -> Result<(), Refused> {
    let has_disk = given.get_str("DISK").is_some();
    let has_name = given.get_str("NAME").is_some();
    if has_disk && has_name && given.get_flag("size") {
        Err(Refused::ByCommand(SIZE_RULE))
    } else if has_disk && has_name && kind_of(given) == Kind::Checked {
        Err(Refused::ByCommand(CHECKED_RULE))
    } else if has_disk && !has_name || is_earlier && !has_disk {
        Err(Refused::ByWord(BOTH_RULE, "DISK"))
    } else {
        Ok(())
    }
}

/// What `image` asks for: the image of a unit if DISK is given, else a task for a program.
pub(crate) fn image_of(alloc: Global, given: &ArgMatches<'_>) -> Result<Work, Refused>
    ensures { IfOk result IsAllowed }
{
    let at = at_of(given)?;
    keep_rules(given, at.is_some())?;
    if given.get_str("DISK").is_none() {
        let kind = kind_of(given);
        return Ok(Work::One(if given.get_flag("size") {
            Task::SizedImage(kind)
        } else {
            Task::Image(kind)
        }));
    }
    wanted_of(alloc, given, Part::Image, at)
}

/// What `source` asks for.
pub(crate) fn source_of(alloc: Global, given: &ArgMatches<'_>) -> Result<Work, Refused>
    ensures { IfOk result IsAllowed }
{
    let at = at_of(given)?;
    wanted_of(alloc, given, Part::Source, at)
}

/// What `size` asks for: how much memory the image of a unit takes if DISK is given, else a task for a
/// program.
pub(crate) fn size_of(alloc: Global, given: &ArgMatches<'_>) -> Result<Work, Refused>
    ensures { IfOk result IsAllowed }
{
    let kind = kind_of(given);
    if given.get_str("DISK").is_none() {
        return Ok(Work::One(Task::Size(kind)));
    }
    if given.get_str("NAME").is_none() {
        return Err(Refused::ByWord(SIZE_BOTH_RULE, "DISK"));
    }
    let wait = wait_of(given)?;
    let Unit { disk, name } = unit_of(alloc, given)?;
    Ok(Work::Keep(Keeping::Size(Measuring {
        disk,
        name,
        kind,
        wait,
    })))
}
