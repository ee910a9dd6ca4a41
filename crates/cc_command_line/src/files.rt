// The files of a program.

use crate::command_line::Work;
use crate::given::texts_of;
use crate::refused::Refused;
use crate::row::{Form, Word};
use crate::short::ShortVerb;
use clap::ArgMatches;
use std::alloc::Global;

/// The option for the files of a program.
pub(crate) const FILE: Word = Word(
    "file",
    Form::Values("FILE", 'f'),
    "A file that has the program in place of standard input, which is `-`; several are put together in their order",
);

/// The same files, given as words.
pub(crate) const FILES: Word = Word("FILE", Form::Several, "The same, without --file");

const BOTH_RULE: &str = "files are given as words or by --file, and not by both";

pub(crate) const EMPTY_RULE: &str = "an empty path names no file";

pub(crate) const NO_FILE_RULE: &str =
    "--file goes with what reads a program: not with DISK and NAME, nor with a line of a script but `add`, `replace` and `update`";

// The paths that words give. An empty one is refused: it may come from a variable that was not set.
fn paths_of(alloc: Global, words: &[&str]) -> Result<Vec<String>, Refused> {
    if words.iter().any(|word| word.is_empty()) {
        return Err(Refused::ByAll(EMPTY_RULE));
    }
    Ok(texts_of(alloc, words)?)
}

/// The files that the words of a command name; none if the program comes on standard input.
pub(crate) fn files_of(alloc: Global, given: &ArgMatches<'_>) -> Result<Vec<String>, Refused> {
    match (given.get_strs("file"), given.get_strs("FILE")) {
        (Some(_), Some(_)) => Err(Refused::ByAll(BOTH_RULE)),
        (Some(words), None) | (None, Some(words)) => paths_of(alloc, words),
        (None, None) => Ok(Vec::new(alloc)),
    }
}

// Whether a line of a script is followed by a source.
fn takes_source(line: &str) -> bool {
    line.starts_with("add ") || line.starts_with("replace ") || line.starts_with("update ")
}

/// Whether this work reads a program, which may then come in files.
pub(crate) fn reads_program(work: &Work) -> bool {
    match work {
        Work::One(_) | Work::Stages(_, _) | Work::Live(_) | Work::Trace(_) | Work::Cover(_) => true,
        Work::Translate(_) => true,
        Work::Short(asked) => matches!(asked.verb, ShortVerb::Add(_) | ShortVerb::Replace(_)),
        Work::Submit(asked) => match &asked.line {
            Some(line) => takes_source(line.as_str()),
            None => false,
        },
        Work::TakeOut(_) | Work::Keep(_) | Work::Library(_) | Work::Pack(_) | Work::Serve(_) =>
            false,
    }
}
