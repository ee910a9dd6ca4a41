// Runs that take their words while they run: `run --live`, and what `call --live` shares with it.

ghost use Rattle.std.specs.Prelude.{◌≤◌, IfOk};
ghost use Rattle.cc_command_line.specs.Work.{IsAllowed};

use crate::command_line::Work;
use crate::given::steps_of;
use crate::refused::Refused;
use crate::row::{Form, Word};
use cc_task::Kind;
use clap::ArgMatches;

/// The option for a run that takes its words while it runs.
pub(crate) const LIVE: Word = Word(
    "live",
    Form::Flag,
    "Feed the run each line of standard input; print at once what it writes before it waits for the next, and an empty line",
);

/// The option for what such a run reads at the end of standard input.
pub(crate) const ZEROS: Word = Word(
    "zeros",
    Form::FlagWith("live"),
    "With --live: at the end of standard input go on, and read zeros, in place of ending as `going`",
);

/// The rule for what goes with `--live`.
pub(crate) const LIVE_RULE: &str =
    "with --live the words come on standard input, line by line: no WORD goes with it, and not --input, --words, --count, --reads or --lines";

const LIVE_FILE_RULE: &str =
    "with --live the words come on standard input, and so the program comes in files: --file FILE";

/// A run whose words come on standard input, line by line. What it writes is printed as it waits for the next line.
#[derive(Clone, Copy, Debug, Drop, PartialEq, Eq)]
pub struct Living {
    /// How the image is compiled.
    pub kind: Kind,
    /// How many instructions a turn takes at most: what comes between two lines.
    pub steps: u64,
    /// Whether the program reads zeros at the end of standard input. Otherwise the run ends there.
    pub reads_zeros: bool,
}

/// Whether an option is given that does not go with `--live`.
pub(crate) fn goes_not_with_live(given: &ArgMatches<'_>) -> bool {
    given.get_str("input").is_some()
        || given.get_str("words").is_some()
        || given.get_flag("count")
        || given.get_flag("reads")
        || given.get_flag("lines")
}

// Whether the program comes in files, and not on standard input.
fn comes_in_files(given: &ArgMatches<'_>) -> bool {
    match given.get_strs("file") {
        Some(names) => !names.iter().any(|name| *name == "-"),
        None => false,
    }
}

/// What `run --live` asks for, of an image that is compiled like this.
pub(crate) fn live_of(given: &ArgMatches<'_>, kind: Kind) -> Result<Work, Refused>
    ensures { IfOk result IsAllowed }
{
    let steps = steps_of(given)?;
    if given.get_strs("WORD").is_some() || goes_not_with_live(given) {
        Err(Refused::ByCommand(LIVE_RULE))
    } else if !comes_in_files(given) {
        Err(Refused::ByCommand(LIVE_FILE_RULE))
    } else {
        Ok(Work::Live(Living {
            kind,
            steps,
            reads_zeros: given.get_flag("zeros"),
        }))
    }
}
