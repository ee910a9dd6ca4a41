// The commands that work on a program and on no library: `check`, `interpret`, `run`, `asm`, `stages` and `safe`.

ghost use Rattle.std.specs.Prelude.{IfOk};
ghost use Rattle.cc_command_line.specs.Work.{IsAllowed};

use crate::command_line::Work;
use crate::files::{FILE, FILES};
use crate::given::{
    CHECKED, COUNT, INPUT, INPUT_FILE, INSTRUCTIONS, READS, STEPS, UNEXPECTED, WORDS,
    expect_no_more, input_of, kind_of, most_of, steps_of, text_if_given,
};
use crate::live::{LIVE, ZEROS, live_of};
use crate::refused::Refused;
use crate::row::{Form, Reader, Row, Word};
use cc_task::Task;
use clap::ArgMatches;
use std::alloc::Global;

pub(crate) static CHECK: Row = Row {
    name: "check",
    reader: Reader::Check,
    whole: "cclib check",
    about: "Say `ok`, or the first fault of the program",
    words: &[FILE, FILES],
    help: "The program comes on standard input, or in files: cclib check main.c table.c",
};

// What a person reads below the words of `interpret`.
const INTERPRET_HELP: &str = "\
The program comes on standard input: cclib interpret 1000 < examples/quotient.c";

// What a person reads below the words of `run`.
const RUN_HELP: &str = "\
The program comes on standard input: cclib run 1000 < examples/quotient.c

With --live it comes in files. STEPS bounds each turn, from a line of standard input to the next wait:
  cclib run 10000 --live -f examples/checksum.c";

pub(crate) static INTERPRET: Row = Row {
    name: "interpret",
    reader: Reader::Interpret,
    whole: "cclib interpret",
    about: "Print the words that the program writes, and how it ends, by the definition of C",
    words: &[STEPS, INPUT, FILE, COUNT, READS, INPUT_FILE, WORDS],
    help: INTERPRET_HELP,
};

pub(crate) static RUN: Row = Row {
    name: "run",
    reader: Reader::Run,
    whole: "cclib run",
    about: "Compile the program and run its image: print the words that it writes, and how it ends",
    words: &[
        INSTRUCTIONS,
        INPUT,
        FILE,
        CHECKED,
        COUNT,
        READS,
        INPUT_FILE,
        WORDS,
        LIVE,
        ZEROS,
    ],
    help: RUN_HELP,
};

pub(crate) static ASM: Row = Row {
    name: "asm",
    reader: Reader::Asm,
    whole: "cclib asm",
    about: "Compile the program and list its image",
    words: &[UNEXPECTED, FILE, CHECKED],
    help: "The program comes on standard input, or in files: cclib asm -f main.c -f table.c",
};

pub(crate) static STAGES: Row = Row {
    name: "stages",
    reader: Reader::Stages,
    whole: "cclib stages",
    about: "Show what the compiler makes of each function, stage by stage",
    words: &[
        Word(
            "FUNCTION",
            Form::Optional,
            "The function that is shown: all, if none is given",
        ),
        UNEXPECTED,
        CHECKED,
        FILE,
    ],
    help: "The program comes on standard input: cclib stages main < examples/quotient.c",
};

pub(crate) static SAFE: Row = Row {
    name: "safe",
    reader: Reader::Safe,
    whole: "cclib safe",
    about: "Say `safe` if the program can't go wrong, whatever it reads; else where it may",
    words: &[UNEXPECTED, FILE],
    help: "The program comes on standard input, or in files: cclib safe -f main.c -f table.c",
};

const TELLING_RULE: &str = "--count and --reads do not go together";

const WORDS_RULE: &str = "--words does not go with --count or --reads";

// What a run says beside its answer.
#[derive(Clone, Copy)]
enum Telling {
    Nothing,
    Count,
    Reads,
}

// What `--count` and `--reads` ask for, given whether the words that the run writes are bounded.
fn telling_of(given: &ArgMatches<'_>, is_bounded: bool) -> Result<Telling, Refused> {
    match (given.get_flag("count"), given.get_flag("reads")) {
        (false, false) => Ok(Telling::Nothing),
        (true, true) => Err(Refused::ByCommand(TELLING_RULE)),
        (_, _) if is_bounded => Err(Refused::ByCommand(WORDS_RULE)),
        (true, false) => Ok(Telling::Count),
        (false, true) => Ok(Telling::Reads),
    }
}

/// What `interpret` asks for.
pub(crate) fn interpret_of(alloc: Global, given: &ArgMatches<'_>) -> Result<Work, Refused>
    ensures { IfOk result IsAllowed }
{
    let steps = steps_of(given)?;
    let most = most_of(given)?;
    let telling = telling_of(given, most.is_some())?;
    let words = input_of(alloc, given)?;
    Ok(Work::One(match (telling, most) {
        (Telling::Nothing, None) => Task::Interpret(steps, words),
        (Telling::Nothing, Some(most)) => Task::InterpretWithin(steps, most, words),
        (Telling::Count, _) => Task::InterpretCounted(steps, words),
        (Telling::Reads, _) => Task::InterpretObserved(steps, words),
    }))
}

/// What `run` asks for.
pub(crate) fn run_of(alloc: Global, given: &ArgMatches<'_>) -> Result<Work, Refused>
    ensures { IfOk result IsAllowed }
{
    let kind = kind_of(given);
    if given.get_flag("live") {
        return live_of(given, kind);
    }
    let steps = steps_of(given)?;
    let most = most_of(given)?;
    let telling = telling_of(given, most.is_some())?;
    let words = input_of(alloc, given)?;
    Ok(Work::One(match (telling, most) {
        (Telling::Nothing, None) => Task::Run(kind, steps, words),
        (Telling::Nothing, Some(most)) => Task::RunWithin(kind, steps, most, words),
        (Telling::Count, _) => Task::RunCounted(kind, steps, words),
        (Telling::Reads, _) => Task::RunObserved(kind, steps, words),
    }))
}

/// What `asm` asks for.
pub(crate) fn asm_of(given: &ArgMatches<'_>) -> Result<Work, Refused>
    ensures { IfOk result IsAllowed }
{
    expect_no_more(given)?;
    Ok(Work::One(Task::Asm(kind_of(given))))
}

/// What `safe` asks for.
pub(crate) fn safe_of(given: &ArgMatches<'_>) -> Result<Work, Refused>
    ensures { IfOk result IsAllowed }
{
    expect_no_more(given)?;
    Ok(Work::One(Task::Safe))
}

/// What `stages` asks for.
pub(crate) fn stages_of(alloc: Global, given: &ArgMatches<'_>) -> Result<Work, Refused>
    ensures { IfOk result IsAllowed }
{
    expect_no_more(given)?;
    let function = text_if_given(alloc, given, "FUNCTION")?;
    Ok(Work::Stages(kind_of(given), function))
}
