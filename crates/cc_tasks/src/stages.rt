// Shows a text's functions at each stage of the compiler, over any reader and writer.

ghost use Rattle.std.specs.Prelude.{◌≡◌, ◌≤◌, IsErrOf, IfErr, MatchOption};
ghost use Rattle.cc_tasks.specs.internal.Shown.{IsUnknown, IsTextRefused};
ghost use Rattle.cc_tasks.specs.internal.Stages.{fault_of_stages};
ghost use Rattle.cc_tasks.specs.declared.fault.Fault.TheVariants.{UnknownFunction};

use super::answer::mode_of;
use super::explain::{Matter, explanation_of_fault, explanation_of_program, write_explanation};
use super::fault::Fault;
use super::unknown::explain_unknown;
use super::work::{Performed, read_text, refused, status};
use cc_link::typed_unit;
use cc_sources::Origin;
use cc_stages::{StagesFault, stages};
use cc_task::Kind;
use cc_types::TypedUnit;
use std::alloc::{AllocError, Global};
use std::io::{self, Read, Write};

// The program's fault for a fault of the stages.
fn fault_of(fault: StagesFault) -> Fault
    ensures { result ≡ fault_of_stages fault }
{
    match fault {
        StagesFault::UnknownFunction => Fault::UnknownFunction,
        StagesFault::Piece(fault) => Fault::Piece(fault),
        StagesFault::Link(fault) => Fault::Link(fault),
        StagesFault::OutOfMemory => Fault::OutOfMemory,
        StagesFault::Write => Fault::Write,
    }
}

// Writes the stages of the functions of a text, or of the one function with the given name. What was written before a fault stays
// written.
fn show<W: Write>(
    alloc: Global,
    kind: Kind,
    text: &[u8],
    function: Option<&[u8]>,
    writer: &mut W,
) -> Result<(), Fault>
    ensures refused { IfErr result (λ fault. IsTextRefused text.now fault) }
    ensures unknown { IsErrOf result UnknownFunction → MatchOption function.entry ⊥ (λ name. IsUnknown text.now name.now) }
{
    let unit = match typed_unit(alloc, text) {
        Ok(unit) => unit,
        Err(fault) => return Err(Fault::Text(fault)),
    };
    match stages(alloc, mode_of(kind), &unit, function, writer) {
        Ok(()) => Ok(()),
        Err(fault) => Err(fault_of(fault)),
    }
}

// Writes the stages. If there is a fault, its line follows the stages that were written before it.
fn tell<W: Write>(
    alloc: Global,
    kind: Kind,
    text: &[u8],
    function: Option<&[u8]>,
    writer: &mut W,
) -> Result<(), Fault> {
    match show(alloc, kind, text, function, writer) {
        Ok(()) => match writer.flush() {
            Ok(()) => Ok(()),
            Err(_) => Err(Fault::Write),
        },
        Err(Fault::Write) => Err(Fault::Write),
        Err(fault) => Err(refused(fault, text, writer)),
    }
}

/// Shows the functions of a reader's text at each stage of the compiler.
pub(crate) fn try_stages<R: Read, W: Write>(
    alloc: Global,
    kind: Kind,
    function: Option<&[u8]>,
    reader: &mut R,
    writer: &mut W,
) -> Performed {
    match read_text(alloc, reader, writer) {
        Ok(text) => {
            let told = match tell(alloc, kind, text.as_slice(), function, writer) {
                Ok(()) => Ok(Matter::Text),
                Err(fault) => Err(fault),
            };
            Performed { text, told }
        }
        Err(fault) => Performed {
            text: Vec::new(alloc),
            told: Err(fault),
        },
    }
}

// The names of a unit's functions.
fn names_of(alloc: Global, unit: &TypedUnit) -> Result<Vec<&[u8]>, AllocError> {
    let mut names = Vec::new(alloc);
    for function in 0..unit.functions() {
        names.push(unit.function_name(function))?;
    }
    Ok(names)
}

// Writes that a text defines no function with this name, and which name is near it. Writes nothing if memory runs out.
fn explain_name<W: Write>(
    alloc: Global,
    text: &[u8],
    name: &[u8],
    writer: &mut W,
) -> io::Result<()> {
    let Ok(unit) = typed_unit(alloc, text) else {
        return Ok(());
    };
    match names_of(alloc, &unit) {
        Ok(names) => explain_unknown("function", name, names.as_slice(), writer),
        Err(_) => Ok(()),
    }
}

/// Explains what was written for a text that comes from `origin`.
pub(crate) fn explain_stages<W: Write>(
    alloc: Global,
    function: Option<&[u8]>,
    performed: &Performed,
    origin: Origin<'_>,
    writer: &mut W,
) {
    let text = performed.text.as_slice();
    let explanation = match &performed.told {
        Ok(_) => explanation_of_program(alloc, text),
        Err(fault) => explanation_of_fault(alloc, text, fault),
    };
    let _ = match &performed.told {
        Err(Fault::UnknownFunction) => {
            explain_name(alloc, text, function.unwrap_or(b""), writer)
        }
        _ => write_explanation(alloc, text, origin, &explanation, writer),
    };
    let _ = writer.flush();
}

/// Shows the functions of the text that `reader` has, or the one with the given name, at each stage of the compiler: writes the
/// stages to `writer`, and after them the fault's line if there is a fault.
///
/// The status is 0 if all is shown, and 1 for a fault. The faults are those of `asm`, and 59 if the text is a program that
/// defines no function with that name. If a function is refused (22, 24), its stages are shown up to the one that refuses it. If
/// a write fails (54), no line is written for the fault.
pub fn perform_stages<H: AllocGlobal, R: Read, W: Write>(
    rt: &H,
    kind: Kind,
    function: Option<&[u8]>,
    reader: &mut R,
    writer: &mut W,
) -> u8
    ensures { result ≤ 1 }
{
    let performed = try_stages(rt.alloc(), kind, function, reader, writer);
    status(performed)
}

/// Shows the functions as `perform_stages` does, and writes to `explanations` what helps a person with a fault, as
/// `perform_and_explain` does; if no function has the name, it writes which name is near it.
pub fn perform_and_explain_stages<H: AllocGlobal, R: Read, W: Write, E: Write>(
    rt: &H,
    kind: Kind,
    function: Option<&[u8]>,
    reader: &mut R,
    writer: &mut W,
    explanations: &mut E,
) -> u8
    ensures { result ≤ 1 }
{
    let performed = try_stages(rt.alloc(), kind, function, reader, writer);
    explain_stages(
        rt.alloc(),
        function,
        &performed,
        Origin::Input,
        explanations,
    );
    status(performed)
}
