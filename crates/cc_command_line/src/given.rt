// The words that several commands have, and how words are read.

ghost use Rattle.std.specs.Prelude.{◌≤◌, IfOk, IfSome};

use crate::numbers::{number_in, word_in};
use crate::refused::Refused;
use crate::row::{Form, Word};
use cc_task::{Kind, MOST_STEPS, MOST_WORDS};
use clap::ArgMatches;
use std::alloc::{AllocError, Global};

pub(crate) const STEPS: Word = Word(
    "STEPS",
    Form::Number,
    "The most steps that a run may take: 0 to 1000000000",
);

pub(crate) const INSTRUCTIONS: Word = Word(
    "STEPS",
    Form::Number,
    "The most instructions that a run may take: 0 to 1000000000",
);

pub(crate) const INPUT: Word = Word(
    "WORD",
    Form::Numbers,
    "The input words: 0 to 4294967295 each",
);

/// What a command that reads a program takes no more of.
pub(crate) const UNEXPECTED: Word = Word("UNEXPECTED", Form::Unexpected, "");

pub(crate) const COUNT: Word = Word(
    "count",
    Form::Flag,
    "Print the least number of instructions, or of steps, with that end",
);

pub(crate) const READS: Word = Word(
    "reads",
    Form::Flag,
    "Print each word that is read or written as a line of its own: `read V` or `write V`",
);

/// The option for the most words that a run writes.
pub(crate) const WORDS: Word = Word(
    "words",
    Form::Value("N"),
    "End before more than N words are written, as `going`: 0 to 4294967295",
);

/// The option for a file with the input.
pub(crate) const INPUT_FILE: Word = Word(
    "input",
    Form::Value("FILE"),
    "A file with the WORDs: those of all its lines, with single spaces between them",
);

/// The option for the longest that a command tries to open a library.
pub(crate) const WAIT: Word = Word(
    "wait",
    Form::Default("SECONDS", "3"),
    "For how long to try while another process has the library open: 0 to 86400",
);

pub(crate) const CHECKED: Word = Word(
    "checked",
    Form::Flag,
    "The image stops in place if the program goes wrong by an index, a division or a shift",
);

pub(crate) const ALL_CHECKED: Word = Word(
    "checked",
    Form::Flag,
    "Compile checked images, which stop in place if the program goes wrong, and let `audit` confirm no others",
);

pub(crate) const DISK: Word = Word("DISK", Form::Required, "The file that has the library");

pub(crate) const NAME: Word = Word("NAME", Form::Required, "The name of the unit");

pub(crate) const WORKERS: Word = Word(
    "workers",
    Form::Default("N", "2"),
    "How many threads compile: 1 to 8",
);

/// The option for the room of a library. Its help differs from command to command.
pub(crate) const FORMAT: &str = "format";

/// The least and the most number that a word or an option may give, and the rule that any other breaks.
#[derive(Clone, Copy)]
pub(crate) struct Allowed(pub(crate) u64, pub(crate) u64, pub(crate) &'static str);

const STEP_COUNTS: Allowed = Allowed(
    0,
    MOST_STEPS,
    "STEPS is a decimal number from 0 to 1000000000",
);

const AREAS: Allowed = Allowed(
    64,
    1_073_741_824,
    "AREA is a decimal number of bytes from 64 to 1073741824",
);

const WORKER_COUNTS: Allowed = Allowed(1, 8, "N is a decimal number from 1 to 8");

const WORD_COUNTS: Allowed = Allowed(0, MOST_WORDS, "N is a decimal number from 0 to 4294967295");

const WAITS: Allowed = Allowed(0, 86_400, "SECONDS is a decimal number from 0 to 86400");

pub(crate) const INPUT_BOTH_RULE: &str = "the input comes as WORDs or by --input, and not by both";

const INPUT_RULE: &str =
    "WORD is a decimal number from 0 to 4294967295; a negative number is written as its value modulo 4294967296, \
    for example 4294967295 for -1";

const PATH_RULE: &str = "an empty path names no file and no folder";

/// The number that a word or an option gives, if it is allowed. Anything else breaks the rule, which is then shown.
pub(crate) fn number_of(
    given: &ArgMatches<'_>,
    name: &'static str,
    allowed: Allowed,
) -> Result<u64, Refused>
    ensures { IfOk result (λ n. (allowed.0 ≤ n) × (n ≤ allowed.1)) }
{
    let Allowed(least, most, rule) = allowed;
    match number_in(given.get_str(name).unwrap_or(""), least, most) {
        Some(number) => Ok(number),
        None => Err(Refused::ByWord(rule, name)),
    }
}

/// As `number_of`, if the word or the option is given.
pub(crate) fn number_if_given(
    given: &ArgMatches<'_>,
    name: &'static str,
    allowed: Allowed,
) -> Result<Option<u64>, Refused>
    ensures { IfOk result (λ number. IfSome number (λ n. (allowed.0 ≤ n) × (n ≤ allowed.1))) }
{
    if given.get_str(name).is_none() {
        return Ok(None);
    }
    match number_of(given, name, allowed) {
        Ok(number) => Ok(Some(number)),
        Err(refused) => Err(refused),
    }
}

/// How many steps or instructions a run may take at most, which the word of this name gives.
pub(crate) fn steps_at(given: &ArgMatches<'_>, name: &'static str) -> Result<u64, Refused>
    ensures { IfOk result (λ steps. steps ≤ MOST_STEPS) }
{
    number_of(given, name, STEP_COUNTS)
}

/// How many steps or instructions a run may take at most.
pub(crate) fn steps_of(given: &ArgMatches<'_>) -> Result<u64, Refused>
    ensures { IfOk result (λ steps. steps ≤ MOST_STEPS) }
{
    steps_at(given, "STEPS")
}

// The words that these texts write; `None` if one of them is not a word.
fn words_in(alloc: Global, texts: &[&str]) -> Result<Option<Vec<u32>>, AllocError> {
    let mut words = Vec::new(alloc);
    for text in texts {
        match word_in(text) {
            Some(word) => words.push(word)?,
            None => return Ok(None),
        }
    }
    Ok(Some(words))
}

/// The input of a run, which these texts write.
pub(crate) fn input_in(alloc: Global, texts: &[&str]) -> Result<Vec<u32>, Refused> {
    match words_in(alloc, texts)? {
        Some(words) => Ok(words),
        None => Err(Refused::ByWord(INPUT_RULE, INPUT.0)),
    }
}

/// The input of a run.
pub(crate) fn input_of(alloc: Global, given: &ArgMatches<'_>) -> Result<Vec<u32>, Refused> {
    input_in(alloc, given.get_strs("WORD").unwrap_or(&[]))
}

/// The path of the file that has the input, if one is named. Then no WORD may be given.
pub(crate) fn input_file_of(
    alloc: Global,
    given: &ArgMatches<'_>,
) -> Result<Option<String>, Refused> {
    if given.get_str("input").is_some() && given.get_strs("WORD").is_some() {
        return Err(Refused::ByCommand(INPUT_BOTH_RULE));
    }
    path_if_given(alloc, given, "input")
}

/// The most words that a run may write, if that is given.
pub(crate) fn most_of(given: &ArgMatches<'_>) -> Result<Option<u64>, Refused>
    ensures { IfOk result (λ most. IfSome most (λ n. n ≤ MOST_WORDS)) }
{
    number_if_given(given, "words", WORD_COUNTS)
}

/// How many seconds a command tries to open a library that another process has open.
pub(crate) fn wait_of(given: &ArgMatches<'_>) -> Result<u64, Refused>
    ensures { IfOk result (λ wait. wait ≤ 86400) }
{
    number_of(given, "wait", WAITS)
}

/// Refuses the words that a command does not take, if any is given.
pub(crate) fn expect_no_more(given: &ArgMatches<'_>) -> Result<(), Refused> {
    if given.get_strs(UNEXPECTED.0).is_some() {
        return Err(Refused::Unexpected);
    }
    Ok(())
}

/// How an image is compiled.
pub(crate) fn kind_of(given: &ArgMatches<'_>) -> Kind {
    if given.get_flag("checked") {
        Kind::Checked
    } else {
        Kind::Plain
    }
}

/// How many threads compile.
pub(crate) fn workers_of(given: &ArgMatches<'_>) -> Result<usize, Refused>
    ensures { IfOk result (λ workers. (1 ≤ workers) × (workers ≤ 8)) }
{
    match number_of(given, "workers", WORKER_COUNTS) {
        Ok(workers) => Ok(workers as usize),
        Err(refused) => Err(refused),
    }
}

/// How many bytes each area has.
pub(crate) fn area_of(given: &ArgMatches<'_>) -> Result<u32, Refused>
    ensures { IfOk result (λ area. (64 ≤ area) × (area ≤ 1073741824)) }
{
    match number_of(given, FORMAT, AREAS) {
        Ok(area) => Ok(area as u32),
        Err(refused) => Err(refused),
    }
}

/// As `area_of`, if the option is given.
pub(crate) fn area_if_given(given: &ArgMatches<'_>) -> Result<Option<u32>, Refused>
    ensures { IfOk result (λ area. IfSome area (λ a. (64 ≤ a) × (a ≤ 1073741824))) }
{
    if given.get_str(FORMAT).is_none() {
        return Ok(None);
    }
    match area_of(given) {
        Ok(area) => Ok(Some(area)),
        Err(refused) => Err(refused),
    }
}

/// The text of a word; `None` if the word is not given.
pub(crate) fn text_if_given(
    alloc: Global,
    given: &ArgMatches<'_>,
    name: &str,
) -> Result<Option<String>, AllocError> {
    match given.get_str(name) {
        Some(text) => Ok(Some(String::from_str(alloc, text)?)),
        None => Ok(None),
    }
}

/// The text of a word that has to be given.
pub(crate) fn text_of(
    alloc: Global,
    given: &ArgMatches<'_>,
    name: &str,
) -> Result<String, AllocError> {
    String::from_str(alloc, given.get_str(name).unwrap_or(""))
}

/// The texts of these words.
pub(crate) fn texts_of(alloc: Global, words: &[&str]) -> Result<Vec<String>, AllocError> {
    let mut texts = Vec::new(alloc);
    for word in words {
        texts.push(String::from_str(alloc, word)?)?;
    }
    Ok(texts)
}

/// The path that a word gives. An empty one is refused: it may come from a variable that was not set.
pub(crate) fn path_of(
    alloc: Global,
    given: &ArgMatches<'_>,
    name: &str,
) -> Result<String, Refused> {
    match given.get_str(name) {
        Some(path) if !path.is_empty() => Ok(String::from_str(alloc, path)?),
        _ => Err(Refused::ByCommand(PATH_RULE)),
    }
}

/// As `path_of`, if the word is given.
pub(crate) fn path_if_given(
    alloc: Global,
    given: &ArgMatches<'_>,
    name: &str,
) -> Result<Option<String>, Refused> {
    if given.get_str(name).is_none() {
        return Ok(None);
    }
    Ok(Some(path_of(alloc, given, name)?))
}

/// A unit of the library in a file: the path of the file, and the name as it was given.
pub(crate) struct Unit {
    pub(crate) disk: String,
    pub(crate) name: String,
}

/// The unit that the words name.
pub(crate) fn unit_of(alloc: Global, given: &ArgMatches<'_>) -> Result<Unit, Refused> {
    let disk = path_of(alloc, given, "DISK")?;
    let name = text_of(alloc, given, "NAME")?;
    Ok(Unit { disk, name })
}
