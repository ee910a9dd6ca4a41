// The command line: what work it asks for.

ghost use Rattle.std.specs.Prelude.{IfOk};
ghost use Rattle.cc_command_line.specs.Work.{IsAllowed};

use crate::commands::{command_of_all, row_of};
use crate::files::{NO_FILE_RULE, files_of, reads_program};
use crate::given::input_file_of;
use crate::json::{JSON_RULE, is_told_in_json};
use crate::keeping::{Keeping, call_of, copy_of, diff_of, log_of, restore_of};
use crate::library::{Session, library_of};
use crate::live::Living;
use crate::pack::{Packing, hash_of, pack_of, unpack_of};
use crate::program::{asm_of, interpret_of, run_of, safe_of, stages_of};
use crate::refused::{Refused, error_of, error_of_all};
use crate::row::{Reader, Row};
use crate::short::{Short, add_of, audit_of, compact_of, list_of, replace_of, withdraw_of};
use crate::spool::{Server, Submitter, serve_of, submit_of};
use crate::tips::no_command_text;
use crate::translate::{Translating, translate_of};
use crate::unit::{Wanted, image_of, size_of, source_of};
use crate::watch::{Covered, Traced, cover_of, trace_of};
use cc_task::{Kind, Task};
use clap::error::ErrorKind;
use clap::{ArgMatches, Error};
use std::alloc::{AllocError, Global};
use std::convert::AsStr;

/// What the program is asked to do.
#[derive(Drop)]
pub enum Work {
    /// Perform a task for the text.
    One(Task),
    /// Show each function of the text, or only the function with that name, at each stage of the compiler, for an image of this
    /// kind.
    Stages(Kind, Option<String>),
    /// Run the text on words that come while it runs.
    Live(Living),
    /// Print the newest things that a run of the text does.
    Trace(Traced),
    /// Print how often each line of the text is reached by runs.
    Cover(Covered),
    /// Print a part of a unit of a library.
    TakeOut(Wanted),
    /// Look into libraries in files.
    Keep(Keeping),
    /// Run the script on standard input over a library.
    Library(Session),
    /// Run a script of one line over a library.
    Short(Short),
    /// Print a unit of a library as a file, or its hash, or keep what a file has.
    Pack(Packing),
    /// Run the scripts that are left in a folder over a library.
    Serve(Server),
    /// Leave a script in a folder, and wait for its answer.
    Submit(Submitter),
    /// Print the program that a text of wide C means.
    Translate(Translating),
}

/// What a command line asks for: the work, whether its faults are left unexplained, whether everything is printed as JSON, the files that
/// have its program, and the file that has the input words of its task; no files if they come on standard input and the command line.
#[derive(Drop)]
pub struct Invocation {
    pub work: Work,
    pub is_quiet: bool,
    pub is_json: bool,
    pub files: Vec<String>,
    pub input: Option<String>,
}

const NO_COMMAND_RULE: &str = "a command is required: cclib --help lists them";

// What the words that are given to a command ask for, by its reader.
fn work_of(alloc: Global, reader: Reader, given: &ArgMatches<'_>) -> Result<Work, Refused>
    ensures { IfOk result IsAllowed }
{
    match reader {
        Reader::Check => Ok(Work::One(Task::Check)),
        Reader::Interpret => interpret_of(alloc, given),
        Reader::Run => run_of(alloc, given),
        Reader::Trace => trace_of(alloc, given),
        Reader::Cover => cover_of(alloc, given),
        Reader::Asm => asm_of(given),
        Reader::Stages => stages_of(alloc, given),
        Reader::Size => size_of(alloc, given),
        Reader::Safe => safe_of(given),
        Reader::Image => image_of(alloc, given),
        Reader::Source => source_of(alloc, given),
        Reader::Call => call_of(alloc, given),
        Reader::Diff => diff_of(alloc, given),
        Reader::Log => log_of(alloc, given),
        Reader::Restore => restore_of(alloc, given),
        Reader::Copy => copy_of(alloc, given),
        Reader::Library => library_of(alloc, given),
        Reader::Add => add_of(alloc, given),
        Reader::Replace => replace_of(alloc, given),
        Reader::Withdraw => withdraw_of(alloc, given),
        Reader::List => list_of(alloc, given),
        Reader::Audit => audit_of(alloc, given),
        Reader::Compact => compact_of(alloc, given),
        Reader::Pack => pack_of(alloc, given),
        Reader::Unpack => unpack_of(alloc, given),
        Reader::Hash => hash_of(alloc, given),
        Reader::Serve => serve_of(alloc, given),
        Reader::Submit => submit_of(alloc, given),
        Reader::Translate => translate_of(given),
    }
}

// The rule that a work breaks, if it breaks one, given how many files its program is in and whether it is to be printed as JSON.
fn broken_rule(work: &Work, files: usize, is_json: bool) -> Option<&'static str> {
    if files > 0 && !reads_program(work) {
        return Some(NO_FILE_RULE);
    }
    if is_json && !is_told_in_json(work) {
        return Some(JSON_RULE);
    }
    None
}

// The files that the words of a command name.
struct Named {
    files: Vec<String>,
    input: Option<String>,
}

// The files that these words name for this work: those of its program, and that of the words of its task.
fn named_of(alloc: Global, given: &ArgMatches<'_>, work: &Work) -> Result<Named, Refused> {
    let input = match work {
        Work::One(_) => input_file_of(alloc, given)?,
        _ => None,
    };
    let files = files_of(alloc, given)?;
    Ok(Named { files, input })
}

// What the words of this command ask for, with its files and these options, if they break no rule.
fn invoked(
    alloc: Global,
    reader: Reader,
    given: &ArgMatches<'_>,
    is_quiet: bool,
    is_json: bool,
) -> Result<Invocation, Refused>
    ensures { IfOk result (λ request. IsAllowed request.work) }
{
    let work = work_of(alloc, reader, given)?;
    let Named { files, input } = match named_of(alloc, given, &work) {
        Ok(named) => named,
        Err(refused) => {
            drop(work);
            return Err(refused);
        }
    };
    match broken_rule(&work, files.len(), is_json) {
        None => Ok(Invocation {
            work,
            is_quiet,
            is_json,
            files,
            input,
        }),
        Some(rule) => {
            drop(work);
            drop(files);
            drop(input);
            Err(Refused::ByAll(rule))
        }
    }
}

// The row of the command that was given, and the words that were given to it.
fn given_in<'a, 'b>(matches: &'b ArgMatches<'a>) -> Option<(&'static Row, &'b ArgMatches<'a>)> {
    let (name, given) = matches.subcommand()?;
    Some((row_of(name)?, given))
}

// The parser's error, or one that says more, if the first word is no command.
fn better(alloc: Global, error: Error, text: Option<String>) -> Result<Error, AllocError> {
    match text {
        Some(text) => {
            drop(error);
            error_of_all(alloc, text.as_str())
        }
        None => Ok(error),
    }
}

/// Reads the command line, whose first word is the program's name.
///
/// The error is clap's: its text goes to standard error and its status is 2, except for a text of help.
pub fn read_invocation<'a, S: AsStr>(alloc: Global, words: &'a [S]) -> Result<Invocation, Error>
    ensures { IfOk result (λ request. IsAllowed request.work) }
{
    let matches = match command_of_all(alloc)?.try_get_matches_from(words) {
        Ok(matches) => matches,
        Err(error) if error.kind() == ErrorKind::InvalidSubcommand => {
            let text = no_command_text(alloc, words)?;
            return Err(better(alloc, error, text)?);
        }
        Err(error) => return Err(error),
    };
    let is_quiet = matches.get_flag("quiet");
    let is_json = matches.get_flag("json");
    let Some((row, given)) = given_in(&matches) else {
        drop(matches);
        return Err(error_of_all(alloc, NO_COMMAND_RULE)?);
    };
    match invoked(alloc, row.reader, given, is_quiet, is_json) {
        Ok(invocation) => Ok(invocation),
        Err(refused) => Err(error_of(alloc, row, given, refused)?),
    }
}

/// Clap's error for a command line with a word that is not UTF-8. Its status is 2. `AllocError` if memory ran out.
pub fn refused_bytes(alloc: Global) -> Result<Error, AllocError> {
    error_of_all(alloc, "a word of the command line is not UTF-8")
}

/// The work that a command line asks for, as `read_invocation` reads it.
pub fn line<'a, S: AsStr>(alloc: Global, words: &'a [S]) -> Result<Work, Error>
    ensures { IfOk result IsAllowed }
{
    match read_invocation(alloc, words) {
        Ok(
            Invocation {
                work,
                is_quiet: _,
                is_json: _,
                files,
                input,
            },
        ) => {
            drop(files);
            drop(input);
            Ok(work)
        }
        Err(error) => Err(error),
    }
}
