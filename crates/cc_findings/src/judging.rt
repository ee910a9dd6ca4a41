// Whether a program can go wrong, and at which places.
//
// If it cannot, that is proved. The lines about what may go wrong come from a walk over the instructions on which explanations
// rest: in functions that need a guard, the operations whose right operand or index is not a constant with which they are right.

ghost use Rattle.std.specs.Prelude.{◌≡◌, [], true, IfOk, OnOk};
ghost use Rattle.std.specs.Arc.{arc_value};
ghost use Rattle.std.specs.Io.KnownBytes.{Appends};
ghost use Rattle.std.specs.List.{flat_map};
ghost use Rattle.cc_ast.specs.Source.{source};
ghost use Rattle.cc_safe.specs.Safe.{IsSafe};
ghost use Rattle.cc_findings.specs.Written.{cause_name, in_function_text, judged_text, unsure_text, where_unsure_text};

use crate::recursion::{bit, cyclic};
use cc_diagnostic::{Bytecode, Element, Function, Instruction, TypedOperator, code_of};
use cc_meaning::Cause;
use cc_safe::{Safety, examine};
use cc_syntax::{BinaryOperator, Place, Scalar, parse, place_at};
use cc_types::TypedUnit;
use std::alloc::{AllocError, Global};
use std::io::{self, Write};
use std::sync::Arc;

/// What may go wrong: why, and the place in the text; if that is not known, the function.
#[derive(Drop)]
pub struct Unsure {
    pub cause: Cause,
    pub place: Option<Place>,
    pub function: Vec<u8>,
}

// Whether the right operand of an operator is a constant with which it never goes wrong. The quotient of the least `int` and -1 is no
// `int`.
fn is_right(operation: TypedOperator) -> bool {
    let Some(word) = operation.constant else {
        return false;
    };
    match operation.operator {
        BinaryOperator::ShiftLeft | BinaryOperator::ShiftRight => word < 32,
        _ => word != 0 && (word != u32::MAX || operation.working != Scalar::Int),
    }
}

// Whether an index is a constant within its array.
fn is_fixed(element: Element<'_>) -> bool {
    element
        .constant
        .is_some_and(|index| (index as usize) < element.extent.length)
}

fn cause_of(operator: BinaryOperator) -> Option<Cause> {
    match operator {
        BinaryOperator::Divide | BinaryOperator::Remainder => Some(Cause::Division),
        BinaryOperator::ShiftLeft | BinaryOperator::ShiftRight => Some(Cause::Shift),
        _ => None,
    }
}

// What may go wrong at an instruction, and at which offset of the text.
fn risk_of(instruction: Instruction<'_>) -> Option<(Cause, usize)> {
    match instruction {
        Instruction::Element(element)
        | Instruction::ElementBelow(element)
        | Instruction::SetElement(element) => {
            if is_fixed(element) {
                None
            } else {
                Some((Cause::Index, element.array.at))
            }
        }
        Instruction::Binary(operation) => {
            let cause = cause_of(operation.operator)?;
            if is_right(operation) {
                None
            } else {
                Some((cause, operation.at))
            }
        }
        _ => None,
    }
}

// The function that contains an instruction: of the functions that begin at or before it, the last one.
fn owner_of<'a>(functions: &'a [Function<'a>], at: usize) -> Option<&'a Function<'a>> {
    let mut owner: Option<&Function<'_>> = None;
    for function in functions {
        let is_later = match owner {
            Some(found) => found.start <= function.start,
            None => true,
        };
        if function.start <= at && is_later {
            owner = Some(function);
        }
    }
    owner
}

// Whether the function with this name has one of these numbers.
fn is_among(unit: &TypedUnit, numbers: &[usize], name: &[u8]) -> bool {
    for number in numbers {
        if *number < unit.functions() && unit.function_name(*number) == name {
            return true;
        }
    }
    false
}

// Adds what may go wrong in the functions that need a guard, after the lines that are there already.
fn add_places(
    alloc: Global,
    lines: &mut Vec<Unsure>,
    text: &[u8],
    unit: &TypedUnit,
    code: &Bytecode<'_>,
    guarded: &[usize],
) -> Result<(), AllocError> {
    let mut last = None;
    for (at, instruction) in code.instructions.as_slice().iter().enumerate() {
        let Some((cause, offset)) = risk_of(*instruction) else {
            continue;
        };
        let Some(owner) = owner_of(code.functions.as_slice(), at) else {
            continue;
        };
        if last == Some(offset) || !is_among(unit, guarded, owner.name.bytes.as_slice()) {
            continue;
        }
        last = Some(offset);
        lines.push(Unsure {
            cause,
            place: Some(place_at(text, offset.min(text.len()))),
            function: Vec::from_slice(alloc, owner.name.bytes.as_slice())?,
        })?;
    }
    Ok(())
}

// Whether a line names a place in the function with this name.
fn has_line(lines: &[Unsure], name: &[u8]) -> bool {
    for line in lines {
        if line.place.is_some() && line.function.as_slice() == name {
            return true;
        }
    }
    false
}

// A line for each function that needs a guard and has no line yet.
fn add_others(
    alloc: Global,
    lines: &mut Vec<Unsure>,
    unit: &TypedUnit,
    guarded: &[usize],
) -> Result<(), AllocError> {
    for number in guarded {
        if *number < unit.functions() {
            let name = unit.function_name(*number);
            if !has_line(lines.as_slice(), name) {
                lines.push(Unsure {
                    cause: Cause::Index,
                    place: None,
                    function: Vec::from_slice(alloc, name)?,
                })?;
            }
        }
    }
    Ok(())
}

// The functions that each function's instructions call, one bit for each called function.
fn calls_of(alloc: Global, code: &Bytecode<'_>) -> Result<Vec<u64>, AllocError> {
    let mut calls = Vec::new(alloc);
    calls.resize(code.functions.len(), 0)?;
    for (at, instruction) in code.instructions.as_slice().iter().enumerate() {
        let Instruction::Call(called, _) = instruction else {
            continue;
        };
        let Some(owner) = owner_of(code.functions.as_slice(), at) else {
            continue;
        };
        let Some(caller) = code.function(owner.name.bytes.as_slice()) else {
            continue;
        };
        if let Some(row) = calls.get_mut(caller) {
            *row |= bit(*called);
        }
    }
    Ok(calls)
}

// A line for each function that calls itself, directly or through others.
fn add_cycles(
    alloc: Global,
    lines: &mut Vec<Unsure>,
    code: &Bytecode<'_>,
) -> Result<(), AllocError> {
    let calls = calls_of(alloc, code)?;
    let mut last = None;
    for recursion in cyclic(alloc, calls.as_slice())?.as_slice() {
        if last == Some(recursion.caller) {
            continue;
        }
        last = Some(recursion.caller);
        if let Some(function) = code.functions.get(recursion.caller) {
            lines.push(Unsure {
                cause: Cause::Depth,
                place: None,
                function: Vec::from_slice(alloc, function.name.bytes.as_slice())?,
            })?;
        }
    }
    Ok(())
}

// What may go wrong in a program that has instructions.
fn add_lines(
    alloc: Global,
    lines: &mut Vec<Unsure>,
    text: &[u8],
    unit: &TypedUnit,
    code: &Bytecode<'_>,
    found: &Safety,
) -> Result<(), AllocError> {
    add_places(alloc, lines, text, unit, code, found.guarded.as_slice())?;
    if !found.acyclic {
        add_cycles(alloc, lines, code)?;
    }
    Ok(())
}

// What may go wrong in a program, with at least one line for each function that needs a guard.
fn lines_of(
    alloc: Global,
    text: &[u8],
    unit: &TypedUnit,
    found: &Safety,
) -> Result<Vec<Unsure>, AllocError> {
    let mut lines = Vec::new(alloc);
    if let Ok(parsed) = parse(alloc, text) {
        if let Some(code) = code_of(alloc, &parsed)? {
            add_lines(alloc, &mut lines, text, unit, &code, found)?;
        }
    }
    add_others(alloc, &mut lines, unit, found.guarded.as_slice())?;
    Ok(lines)
}

/// What may go wrong in a program: an empty list only if the program goes wrong on no input and at no bound.
pub fn judge(alloc: Global, text: &[u8], unit: &Arc<TypedUnit>) -> Result<Vec<Unsure>, AllocError>
    ensures { IfOk result (λ lines. lines.items ≡ [] → IsSafe (source (arc_value unit.now))) }
{
    let found = examine(alloc, unit)?;
    if found.acyclic && found.guarded.is_empty() {
        return Ok(Vec::new(alloc));
    }
    let mut lines = lines_of(alloc, text, unit, &found)?;
    if lines.is_empty() {
        lines.push(Unsure {
            cause: Cause::Depth,
            place: None,
            function: Vec::from_slice(alloc, b"main".as_slice())?,
        })?;
    }
    Ok(lines)
}

/// The name of a cause.
pub fn cause_name(cause: Cause) -> &'static str
    ensures { result.now ≡ cause_name cause }
{
    match cause {
        Cause::Division => "Division",
        Cause::Shift => "Shift",
        Cause::Index => "Index",
        Cause::Depth => "Depth",
    }
}

// Writes a place, or the name of a function.
fn write_where<W: Write>(unsure: &Unsure, writer: &mut W) -> io::Result<()>
    ensures { OnOk result (Appends (W.contents writer.old) (W.contents writer.new) (where_unsure_text unsure.now)) }
{
    match unsure.place {
        Some(Place { line, column }) => writeln!(writer, " at {line}:{column}"),
        None => write_in(unsure.function.as_slice(), writer),
    }
}

#[tactic(auto, using(cc_answers::proofs::Writing::written_third))]
fn write_in<W: Write>(name: &[u8], writer: &mut W) -> io::Result<()>
    ensures { OnOk result (Appends (W.contents writer.old) (W.contents writer.new) (in_function_text name.now)) }
{
    writer.write_all(b" in ")?;
    writer.write_all(name)?;
    writer.write_all(b"\n")
}

#[tactic(auto, using(cc_answers::proofs::Writing::written_third))]
fn write_unsure<W: Write>(unsure: &Unsure, writer: &mut W) -> io::Result<()>
    ensures { OnOk result (Appends (W.contents writer.old) (W.contents writer.new) (unsure_text unsure.now)) }
{
    writer.write_all(b"unsure ")?;
    writer.write_all(cause_name(unsure.cause).as_bytes())?;
    write_where(unsure, writer)
}

#[tactic(auto, using(cc_answers::proofs::Writing::one_more))]
fn write_all_unsure<W: Write>(lines: &[Unsure], writer: &mut W) -> io::Result<()>
    ensures { OnOk result (Appends (W.contents writer.old) (W.contents writer.new) (flat_map unsure_text lines.now)) }
{
    for unsure in lines {
        write_unsure(unsure, writer)?;
    }
    Ok(())
}

/// Writes that a program is safe, or what may go wrong, with one line for each reason.
pub fn write_judged<W: Write>(lines: &[Unsure], writer: &mut W) -> io::Result<()>
    ensures { OnOk result (Appends (W.contents writer.old) (W.contents writer.new) (judged_text lines.now)) }
{
    if lines.is_empty() {
        writer.write_all(b"safe\n")
    } else {
        write_all_unsure(lines, writer)
    }
}
