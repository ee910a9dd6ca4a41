// What a person reads besides the answer: about a fault, and about a run that went wrong.

use super::fault::Fault;
use cc_answers::{of_fault, words_of_task};
use cc_diagnostic::{Diagnostic, further_of_typing, warnings};
use cc_link::{TextFault, typed_unit};
use cc_meaning::{Cause, Stop, interpret};
use cc_run_diagnostic::{WrongRun, of_wrong_run};
use cc_runs::explain_final;
use cc_sources::{Origin, write_diagnostic};
use cc_task::{Kind, Task};
use std::alloc::{AllocError, Global};
use std::io::{self, Write};

/// What is to be explained to a person after an answer.
#[derive(Clone, Copy)]
pub(crate) enum Matter {
    /// The warnings of the text.
    Text,
    /// Why the program went wrong.
    Wrong(Cause),
    /// Whether an image whose run goes on, and has written this many words, stops in place since its program goes wrong; and whether its run
    /// has stopped in place.
    Going(usize, bool),
    /// Nothing; the program may go wrong.
    Unsure,
}

/// How a checked image stops whose run goes on, if its program goes wrong.
#[derive(Clone, Copy, Debug, Drop, PartialEq, Eq)]
pub enum Halt {
    /// It has written all that it ever writes: a larger STEPS has the same answer.
    Reached,
    /// With a larger STEPS it writes this many more words, and then stops in place.
    Ahead(usize),
}

/// The explanation of the answer to a text.
#[derive(Drop)]
pub struct Explanation {
    /// Whether the run of an image has stopped in place: nothing more comes.
    pub is_final: bool,
    /// Words that belong to no place in the text.
    pub words: Option<&'static str>,
    /// The explanation of the fault, or of what went wrong in a run.
    pub first: Option<Diagnostic>,
    /// If `first` says why a checked image stops in place: whether it has stopped.
    pub halt: Option<Halt>,
    /// The calls that were open as a run went wrong, the innermost first.
    pub calls: Vec<Diagnostic>,
    /// Errors that would be reported if the fault were mended; with the fault, at most twenty.
    pub further: Vec<Diagnostic>,
    /// The warnings of a program.
    pub warnings: Vec<Diagnostic>,
}

impl Explanation {
    // An explanation that consists only of these words.
    fn words(alloc: Global, words: Option<&'static str>) -> Explanation {
        Explanation {
            is_final: false,
            words,
            first: None,
            halt: None,
            calls: Vec::new(alloc),
            further: Vec::new(alloc),
            warnings: Vec::new(alloc),
        }
    }

    // An explanation that consists only of this diagnostic.
    fn first(alloc: Global, told: Result<Option<Diagnostic>, AllocError>) -> Explanation {
        let mut explanation = Explanation::words(alloc, None);
        if let Ok(first) = told {
            explanation.first = first;
        }
        explanation
    }

    // The explanation of a run that went wrong.
    fn wrong(alloc: Global, told: Result<Option<WrongRun>, AllocError>) -> Explanation {
        let mut explanation = Explanation::words(alloc, None);
        if let Ok(Some(run)) = told {
            let WrongRun { first, calls } = run;
            explanation.first = Some(first);
            explanation.calls = calls;
        }
        explanation
    }
}

// The explanations of the further errors, if the fault is one of scope or type.
fn further_of(alloc: Global, text: &[u8], fault: &Fault) -> Vec<Diagnostic> {
    let Fault::Text(TextFault::Typing(first)) = fault else {
        return Vec::new(alloc);
    };
    match further_of_typing(alloc, text, first) {
        Ok(list) => list,
        Err(_) => Vec::new(alloc),
    }
}

/// The explanation of a fault of a text: its place, what was found there and what was expected. After a fault of scope or type
/// come the further errors; with the first, at most twenty. Diagnostics for which memory runs out are left out.
pub fn explanation_of_fault(alloc: Global, text: &[u8], fault: &Fault) -> Explanation {
    let words = words_of_task(fault.number());
    if words.is_some() {
        return Explanation::words(alloc, words);
    }
    let mut explanation = Explanation::first(alloc, of_fault(alloc, text, fault.stands()));
    explanation.further = further_of(alloc, text, fault);
    explanation
}

/// The warnings of a text that is a program. Empty if memory runs out.
pub fn explanation_of_program(alloc: Global, text: &[u8]) -> Explanation {
    let mut explanation = Explanation::words(alloc, None);
    if let Ok(list) = warnings(alloc, text) {
        explanation.warnings = list;
    }
    explanation
}

/// Explains why the program of a text goes wrong for this cause, if the task is to interpret it: the place, the function, the
/// values, and which calls are open. The run is repeated to find them. The explanation is empty for other tasks, and if memory
/// runs out.
pub fn explanation_of_wrong(alloc: Global, task: &Task, text: &[u8], cause: Cause) -> Explanation {
    match task {
        Task::Interpret(steps, words)
        | Task::InterpretCounted(steps, words)
        | Task::InterpretObserved(steps, words)
        | Task::InterpretWithin(steps, _, words) => {
            let told = of_wrong_run(alloc, text, words.as_slice(), *steps, cause);
            Explanation::wrong(alloc, told)
        }
        Task::Check
        | Task::Run(_, _, _)
        | Task::RunCounted(_, _, _)
        | Task::RunObserved(_, _, _)
        | Task::RunWithin(_, _, _, _)
        | Task::Asm(_)
        | Task::Image(_)
        | Task::Size(_)
        | Task::SizedImage(_)
        | Task::Safe => Explanation::words(alloc, None),
    }
}

/// At most this many steps of the program are interpreted to find where its image has stopped.
const MOST_EXPLAINED: u64 = 100_000_000;

// Why a checked image stops in place, and whether it has.
#[derive(Clone, Copy)]
struct Stopping {
    cause: Cause,
    halt: Halt,
}

// Why a program goes wrong on the input words within the steps, and whether its image, which has written `written` words, has
// stopped. It has if the program writes no more words: a step is several instructions, so the image may still have far
// to go. `None` if the program does not go wrong, or if the cause is too many open calls: no image stops for that.
fn stopping_of(
    alloc: Global,
    text: &[u8],
    words: &[u32],
    steps: u64,
    written: usize,
) -> Option<Stopping> {
    let unit = typed_unit(alloc, text).ok()?;
    let outcome = interpret(alloc, &unit, words, steps.min(MOST_EXPLAINED)).ok()?;
    let cause = match outcome.stop {
        Stop::Wrong(cause) if cause != Cause::Depth => cause,
        _ => return None,
    };
    let halt = match outcome.output.as_slice().len().checked_sub(written)? {
        0 => Halt::Reached,
        more => Halt::Ahead(more),
    };
    Some(Stopping { cause, halt })
}

// The steps and the words of a task whose run ends as `going`, if the image is checked, and it was not stopped because of the words that it
// wrote.
fn checked_run(task: &Task, is_final: bool) -> Option<(u64, &[u32])> {
    match task {
        Task::Run(Kind::Checked, steps, words)
        | Task::RunCounted(Kind::Checked, steps, words)
        | Task::RunObserved(Kind::Checked, steps, words) => Some((*steps, words.as_slice())),
        Task::RunWithin(Kind::Checked, steps, _, words) if is_final => {
            Some((*steps, words.as_slice()))
        }
        _ => None,
    }
}

// The explanation for an image's run that ends as `going` and has written `written` words. If the image is checked, and the
// program goes wrong within the same number of steps (at most 100,000,000), it is the place at which the image stops, and
// whether it has stopped; otherwise it is the warnings of the text. The program is interpreted to find that out.
fn explanation_of_halt(
    alloc: Global,
    task: &Task,
    text: &[u8],
    written: usize,
    is_final: bool,
) -> Explanation {
    let Some((steps, words)) = checked_run(task, is_final) else {
        return explanation_of_program(alloc, text);
    };
    let Some(Stopping { cause, halt }) = stopping_of(alloc, text, words, steps, written) else {
        return explanation_of_program(alloc, text);
    };
    let told = of_wrong_run(alloc, text, words, steps, cause);
    let mut explanation = Explanation::wrong(alloc, told);
    if explanation.first.is_some() {
        explanation.halt = Some(halt);
    }
    explanation
}

// The same, and whether the run has stopped in place.
fn explanation_of_going(
    alloc: Global,
    task: &Task,
    text: &[u8],
    written: usize,
    is_final: bool,
) -> Explanation {
    let mut explanation = explanation_of_halt(alloc, task, text, written, is_final);
    explanation.is_final = is_final;
    explanation
}

/// The explanation of what is to be explained after an answer to a task for a text.
pub(crate) fn explanation_of_matter(
    alloc: Global,
    task: &Task,
    text: &[u8],
    matter: Matter,
) -> Explanation {
    match matter {
        Matter::Text | Matter::Unsure => explanation_of_program(alloc, text),
        Matter::Wrong(cause) => explanation_of_wrong(alloc, task, text, cause),
        Matter::Going(written, is_final) => {
            explanation_of_going(alloc, task, text, written, is_final)
        }
    }
}

// Writes each of these diagnostics.
fn write_each<W: Write>(
    alloc: Global,
    text: &[u8],
    origin: Origin<'_>,
    list: &[Diagnostic],
    writer: &mut W,
) -> io::Result<()> {
    for diagnostic in list {
        write_diagnostic(alloc, text, origin, diagnostic, writer)?;
    }
    Ok(())
}

// Writes how a checked image stops; the place follows.
fn write_halt<W: Write>(halt: Halt, writer: &mut W) -> io::Result<()> {
    match halt {
        Halt::Reached => writeln!(
            writer,
            "cclib: the image stops in place, since the program goes wrong:"
        ),
        Halt::Ahead(1) => writeln!(
            writer,
            "cclib: with a larger STEPS the image writes one more word and then stops in place, since the program goes wrong:"
        ),
        Halt::Ahead(more) => writeln!(
            writer,
            "cclib: with a larger STEPS the image writes {more} more words and then stops in place, since the program goes wrong:"
        ),
    }
}

/// Writes the explanation of a text that comes from `origin`.
pub fn write_explanation<W: Write>(
    alloc: Global,
    text: &[u8],
    origin: Origin<'_>,
    explanation: &Explanation,
    writer: &mut W,
) -> io::Result<()> {
    if explanation.is_final {
        explain_final(writer)?;
    }
    if let Some(words) = explanation.words {
        writeln!(writer, "cclib: {words}")?;
    }
    if let Some(halt) = explanation.halt {
        write_halt(halt, writer)?;
    }
    if let Some(first) = &explanation.first {
        write_diagnostic(alloc, text, origin, first, writer)?;
    }
    write_each(alloc, text, origin, explanation.calls.as_slice(), writer)?;
    write_each(alloc, text, origin, explanation.further.as_slice(), writer)?;
    write_each(alloc, text, origin, explanation.warnings.as_slice(), writer)
}
