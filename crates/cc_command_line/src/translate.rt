// The command `translate`.

ghost use Rattle.std.specs.Prelude.{IfOk};
ghost use Rattle.cc_command_line.specs.Work.{IsAllowed};

use crate::command_line::Work;
use crate::files::FILE;
use crate::given::{UNEXPECTED, expect_no_more};
use crate::refused::Refused;
use crate::row::{Form, Reader, Row, Word};
use clap::ArgMatches;

const BARE_RULE: &str = "--check prints no text, and so does not go with --bare";

// What a person reads below the options of the command.
const TRANSLATE_HELP: &str = "\
The text comes on standard input, or in files. What is printed is a program for any other command:
  cclib translate -f wide.c | cclib run 10000

Each line of the text is carried in a comment of the program, so that it can be had back; with --bare nothing is carried.";

pub(crate) static TRANSLATE: Row = Row {
    name: "translate",
    reader: Reader::Translate,
    whole: "cclib translate",
    about: "Print the program that a text of wide C means, which every other command takes",
    words: &[
        UNEXPECTED,
        FILE,
        Word(
            "check",
            Form::Flag,
            "Say `ok`, or the first fault of the text, and print no program",
        ),
        Word("bare", Form::Flag, "Print the program without the text"),
    ],
    help: TRANSLATE_HELP,
};

/// A text of wide C that is to be translated.
#[derive(Clone, Copy, Debug, Drop, PartialEq, Eq)]
pub struct Translating {
    /// Whether only the verdict is printed.
    pub is_check: bool,
    /// Whether the text is left out of the program.
    pub is_bare: bool,
}

/// What `translate` asks for.
pub(crate) fn translate_of(given: &ArgMatches<'_>) -> Result<Work, Refused>
    ensures { IfOk result IsAllowed }
{
    expect_no_more(given)?;
    let is_check = given.get_flag("check");
    let is_bare = given.get_flag("bare");
    if is_check && is_bare {
        return Err(Refused::ByCommand(BARE_RULE));
    }
    Ok(Work::Translate(Translating { is_check, is_bare }))
}
