// The commands `trace` and `cover`.

ghost use Rattle.std.specs.Prelude.{◌≤◌, IfOk};
ghost use Rattle.cc_command_line.specs.Work.{IsAllowed};

use crate::command_line::Work;
use crate::files::{EMPTY_RULE, FILE};
use crate::given::{Allowed, INPUT, STEPS, input_of, number_of, steps_of, text_if_given};
use crate::refused::Refused;
use crate::row::{Form, Reader, Row, Word};
use clap::ArgMatches;
use std::alloc::Global;

/// How many things a trace keeps.
const LAST: Allowed = Allowed(1, 1_000_000, "N is a decimal number from 1 to 1000000");

const BOTH_RULE: &str = "the input comes as WORDs or by --lines, and not by both";

pub(crate) static TRACE: Row = Row {
    name: "trace",
    reader: Reader::Trace,
    whole: "cclib trace",
    about: "Run the program as `interpret` does, and print the newest things that it did",
    words: &[
        STEPS,
        INPUT,
        FILE,
        Word(
            "last",
            Form::Default("N", "40"),
            "How many calls, turns, values and words are printed: 1 to 1000000",
        ),
    ],
    help: "The program comes on standard input: cclib trace 1000 --last 20 < examples/quotient.c",
};

pub(crate) static COVER: Row = Row {
    name: "cover",
    reader: Reader::Cover,
    whole: "cclib cover",
    about: "Run the program as `interpret` does, and print how often each line was reached",
    words: &[
        STEPS,
        INPUT,
        FILE,
        Word(
            "lines",
            Form::Value("FILE"),
            "A file with the WORDs of one run in each line",
        ),
    ],
    help: "The program comes on standard input: cclib cover 1000 < examples/quotient.c",
};

/// A run to be traced: the newest things that it does are printed.
#[derive(Drop)]
pub struct Traced {
    /// How many steps the run takes at most.
    pub steps: u64,
    /// The input of the run.
    pub words: Vec<u32>,
    /// How many things are kept: 1 to 1,000,000.
    pub last: u32,
}

/// Runs that count how often each line is reached.
#[derive(Drop)]
pub struct Covered {
    /// How many steps each run takes at most.
    pub steps: u64,
    /// The input of the one run, if there is only one.
    pub words: Vec<u32>,
    /// The path of the file that has the input of a run in each line, if one is named.
    pub lines: Option<String>,
}

// How many things are kept.
fn last_of(given: &ArgMatches<'_>) -> Result<u32, Refused>
    ensures { IfOk result (λ last. (1 ≤ last) × (last ≤ 1000000)) }
{
    match number_of(given, "last", LAST) {
        Ok(last) => Ok(last as u32),
        Err(refused) => Err(refused),
    }
}

/// What `trace` asks for.
pub(crate) fn trace_of(alloc: Global, given: &ArgMatches<'_>) -> Result<Work, Refused>
    ensures { IfOk result IsAllowed }
{
    let steps = steps_of(given)?;
    let last = last_of(given)?;
    let words = input_of(alloc, given)?;
    Ok(Work::Trace(Traced { steps, words, last }))
}

// The rule that `--lines` breaks, if it breaks one.
fn broken_by_lines(given: &ArgMatches<'_>) -> Option<&'static str> {
    match given.get_str("lines") {
        Some("") => Some(EMPTY_RULE),
        Some(_) if given.get_strs("WORD").is_some() => Some(BOTH_RULE),
        _ => None,
    }
}

/// What `cover` asks for.
pub(crate) fn cover_of(alloc: Global, given: &ArgMatches<'_>) -> Result<Work, Refused>
    ensures { IfOk result IsAllowed }
{
    let steps = steps_of(given)?;
    if let Some(rule) = broken_by_lines(given) {
        return Err(Refused::ByCommand(rule));
    }
    let words = input_of(alloc, given)?;
    let lines = text_if_given(alloc, given, "lines")?;
    Ok(Work::Cover(Covered {
        steps,
        words,
        lines,
    }))
}
