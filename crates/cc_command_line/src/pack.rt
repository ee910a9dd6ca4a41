// The commands `pack`, `unpack` and `hash`: a unit as a file.

ghost use Rattle.std.specs.Prelude.{◌≤◌, IfOk};
ghost use Rattle.cc_command_line.specs.Work.{IsAllowed};

use crate::command_line::Work;
use crate::given::{DISK, NAME, WAIT, path_if_given, path_of, text_if_given, text_of, wait_of};
use crate::refused::Refused;
use crate::row::{Form, Reader, Row, Word};
use clap::ArgMatches;
use std::alloc::Global;

// What a person reads below the words of `pack`.
const PACK_HELP: &str = "\
The file begins with a line `cclib-unit 1 MODE SHA-256`: whether an audit confirms the unit in both modes, `plain` or `checked`
alone, or in `none`, and the hash of all that follows: source, image and certificate.

Example:
  cclib pack units.disk sum > sum.unit";

// What a person reads below the words of `unpack`.
const UNPACK_HELP: &str = "\
The unit is kept only if the hash is right and an audit confirms it.

Example:
  cclib unpack units.disk sum < sum.unit";

// What a person reads below the words of `hash`.
const HASH_HELP: &str = "\
A line for each unit, in the order of the names: the first line of the file that `pack` writes, and the name.

Example:
  cclib hash units.disk sum";

pub(crate) static PACK: Row = Row {
    name: "pack",
    reader: Reader::Pack,
    whole: "cclib pack",
    about: "Print a unit of a library as a file, with its hash",
    words: &[DISK, NAME, WAIT],
    help: PACK_HELP,
};

pub(crate) static UNPACK: Row = Row {
    name: "unpack",
    reader: Reader::Unpack,
    whole: "cclib unpack",
    about: "Add a unit to a library from its file, if an audit confirms it",
    words: &[
        DISK,
        NAME,
        Word(
            "unit",
            Form::Value("FILE"),
            "The file of the unit, in place of standard input",
        ),
        WAIT,
    ],
    help: UNPACK_HELP,
};

pub(crate) static HASH: Row = Row {
    name: "hash",
    reader: Reader::Hash,
    whole: "cclib hash",
    about: "Print the hash of each unit of a library, or of one",
    words: &[
        DISK,
        Word(
            "NAME",
            Form::Optional,
            "The name of the unit: all, if none is given",
        ),
        WAIT,
    ],
    help: HASH_HELP,
};

/// What is done with the files of units.
#[derive(Drop)]
pub enum PackVerb {
    /// Print the file of the unit with this name, as it was given.
    Pack(String),
    /// Keep a unit under this name, as it was given. Its file has this path; `None` for standard input.
    Unpack(String, Option<String>),
    /// Print the hash of the unit with this name, as it was given, or of each unit.
    Hash(Option<String>),
}

/// What `pack`, `unpack` or `hash` is to do with the library in a file.
#[derive(Drop)]
pub struct Packing {
    /// The path of the library's file.
    pub disk: String,
    /// What is done.
    pub verb: PackVerb,
    /// How many seconds to try while another process has the library open: 0 to 86,400.
    pub wait: u64,
}

/// What `pack` asks for.
pub(crate) fn pack_of(alloc: Global, given: &ArgMatches<'_>) -> Result<Work, Refused>
    ensures { IfOk result IsAllowed }
{
    let wait = wait_of(given)?;
    let disk = path_of(alloc, given, "DISK")?;
    let verb = PackVerb::Pack(text_of(alloc, given, "NAME")?);
    Ok(Work::Pack(Packing { disk, verb, wait }))
}

/// What `unpack` asks for.
pub(crate) fn unpack_of(alloc: Global, given: &ArgMatches<'_>) -> Result<Work, Refused>
    ensures { IfOk result IsAllowed }
{
    let wait = wait_of(given)?;
    let disk = path_of(alloc, given, "DISK")?;
    let file = path_if_given(alloc, given, "unit")?;
    let verb = PackVerb::Unpack(text_of(alloc, given, "NAME")?, file);
    Ok(Work::Pack(Packing { disk, verb, wait }))
}

/// What `hash` asks for.
pub(crate) fn hash_of(alloc: Global, given: &ArgMatches<'_>) -> Result<Work, Refused>
    ensures { IfOk result IsAllowed }
{
    let wait = wait_of(given)?;
    let disk = path_of(alloc, given, "DISK")?;
    let verb = PackVerb::Hash(text_if_given(alloc, given, "NAME")?);
    Ok(Work::Pack(Packing { disk, verb, wait }))
}
