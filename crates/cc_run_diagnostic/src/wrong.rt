// Reports about a run that went wrong.

use super::calls::of_calls;
use cc_diagnostic::{Diagnostic, Element, MessagePart, TypedOperator, message};
use cc_meaning::{Cause, MOST_OPEN};
use cc_syntax::{BinaryOperator, Identifier, SyntaxFault, Unit, parse};
use cc_trace::{Replay, Traced, Trouble, Watch, Wrong, traced_unit, words_of};
use std::alloc::{AllocError, Global};

fn of_index<'a>(
    alloc: Global,
    element: Element<'a>,
    index: u32,
    function: MessagePart<'a>,
) -> Result<String, AllocError> {
    let index = MessagePart::Word(element.index, index);
    let array = MessagePart::Name(element.array.bytes.as_slice());
    let length = MessagePart::Count(element.extent.length);
    message(
        alloc,
        &[
            MessagePart::Words("index "),
            index,
            MessagePart::Words(" is outside "),
            array,
            MessagePart::Words("["),
            length,
            MessagePart::Words("], in "),
            function,
        ],
    )
}

fn of_operation(
    alloc: Global,
    operation: TypedOperator,
    left: u32,
    right: u32,
    function: MessagePart<'_>,
) -> Result<String, AllocError> {
    let first = MessagePart::Word(operation.working, left);
    let second = MessagePart::Word(operation.right, right);
    let behind = MessagePart::Words(", in ");
    match operation.operator {
        BinaryOperator::ShiftLeft | BinaryOperator::ShiftRight => {
            let outside = MessagePart::Words(" is outside 0 to 31");
            let parts = [
                MessagePart::Words("shift count "),
                second,
                outside,
                behind,
                function,
            ];
            message(alloc, &parts)
        }
        _ => {
            let what = match operation.operator {
                _ if right != 0 => "division past int of ",
                BinaryOperator::Remainder => "remainder of ",
                _ => "division of ",
            };
            let by = MessagePart::Words(" by ");
            let parts = [
                MessagePart::Words(what),
                first,
                by,
                second,
                behind,
                function,
            ];
            message(alloc, &parts)
        }
    }
}

fn of_depth<'a>(
    alloc: Global,
    name: &'a Identifier,
    function: MessagePart<'a>,
) -> Result<String, AllocError> {
    let name = MessagePart::Token(name.bytes.as_slice());
    let past = MOST_OPEN + 1;
    format!(in alloc; "this call of {name} would be the {past}th open call, in {function}")
}

// The message for what goes wrong in a function.
fn message_of<'a>(
    alloc: Global,
    wrong: Wrong<'a>,
    function: MessagePart<'a>,
) -> Result<String, AllocError> {
    match wrong {
        Wrong::Index(element, index) => of_index(alloc, element, index, function),
        Wrong::Operation(operation, left, right) => {
            of_operation(alloc, operation, left, right, function)
        }
        Wrong::Depth(name) => of_depth(alloc, name, function),
    }
}

fn told(alloc: Global, trouble: Trouble<'_>) -> Result<Diagnostic, AllocError> {
    let function = match trouble.function {
        Some(name) => MessagePart::Name(name.bytes.as_slice()),
        None => MessagePart::Words("main"),
    };
    let message = message_of(alloc, trouble.wrong, function)?;
    Ok(Diagnostic {
        at: Some(trouble.wrong.at()),
        message,
        related: None,
    })
}

// A run: its input, how many steps it has, and why it goes wrong, as reported.
#[derive(Clone, Copy)]
struct Run<'a> {
    input: &'a [u32],
    steps: u64,
    cause: Cause,
}

/// The report about a run that went wrong: what went wrong, and the calls that were open, the innermost first.
#[derive(Drop)]
pub struct WrongRun {
    pub first: Diagnostic,
    pub calls: Vec<Diagnostic>,
}

// Runs `main` in a replay. The result is the report, if the run goes wrong for this cause.
fn of_replay(
    alloc: Global,
    replay: Replay<'_>,
    main: usize,
    cause: Cause,
) -> Result<Option<WrongRun>, AllocError> {
    let mut replay = replay;
    replay.run(main)?;
    match replay.trouble() {
        Some(trouble) if trouble.wrong.cause() == cause => Ok(Some(WrongRun {
            first: told(alloc, trouble)?,
            calls: of_calls(alloc, &replay)?,
        })),
        _ => Ok(None),
    }
}

// The report about a run of a unit whose code is `traced`.
fn of_code(
    alloc: Global,
    unit: &Unit,
    traced: &Traced<'_>,
    run: Run<'_>,
) -> Result<Option<WrongRun>, AllocError> {
    let words = words_of(alloc, unit)?;
    let Some(main) = traced.main() else {
        return Ok(None);
    };
    let watch = Watch::nothing(alloc);
    let replay = Replay::new(
        alloc,
        traced.program(),
        run.input,
        None,
        words,
        run.steps,
        watch,
    );
    of_replay(alloc, replay, main, run.cause)
}

// What goes wrong in a run of a unit.
fn of_unit(alloc: Global, unit: &Unit, run: Run<'_>) -> Result<Option<WrongRun>, AllocError> {
    let Some(traced) = traced_unit(alloc, unit)? else {
        return Ok(None);
    };
    let told = of_code(alloc, unit, &traced, run);
    drop(traced);
    told
}

/// The report about a text's run on the words of an input, within `steps` steps, if `interpret` answers that it goes wrong for a
/// cause: the place, the values and the function, for example `index 3 is outside a[3], in main`. The run is repeated to see
/// them. There is no report if the run does not go wrong for that cause.
///
/// `AllocError` if memory for it runs out.
pub fn of_wrong(
    alloc: Global,
    text: &[u8],
    input: &[u32],
    steps: u64,
    cause: Cause,
) -> Result<Option<Diagnostic>, AllocError> {
    match of_wrong_run(alloc, text, input, steps, cause)? {
        Some(WrongRun { first, calls }) => {
            drop(calls);
            Ok(Some(first))
        }
        None => Ok(None),
    }
}

/// The report of `of_wrong`, together with the calls that were open.
pub fn of_wrong_run(
    alloc: Global,
    text: &[u8],
    input: &[u32],
    steps: u64,
    cause: Cause,
) -> Result<Option<WrongRun>, AllocError> {
    match parse(alloc, text) {
        Ok(unit) => {
            let run = Run {
                input,
                steps,
                cause,
            };
            let told = of_unit(alloc, &unit, run);
            drop(unit);
            told
        }
        Err(SyntaxFault::OutOfMemory) => Err(AllocError),
        Err(fault) => {
            drop(fault);
            Ok(None)
        }
    }
}
