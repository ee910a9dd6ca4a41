// What is written as an answer to a script, and the explanations of the script's faults. Each answer goes to `answers`, which
// is flushed after it. Explanations for a person go to `explanations`; one that cannot be written is left out.

ghost use Rattle.std.specs.Prelude.{◌≡◌, [], OnOk, codes};
ghost use Rattle.std.specs.Io.KnownBytes.{Appends};
ghost use Rattle.cc_answers.specs.Text.{fault_line, line, position_text, run_text};
ghost use Rattle.cc_answers.specs.Telling.{Tells, audit_text, names_text, number_text, said_text, script_fault_text, space_line, space_text, unit_text, units_text};
ghost use Rattle.cc_answers.specs.internal.Flushing.{Flushes};

use crate::line::write_fault_line;
use crate::run::{ImageRun, write_run};
use crate::stands::{Stands, of_fault, write_told};
use crate::words::{explain_words, words_of};
use cc_library::{Name, SpaceUse};
use cc_link::Audit;
use cc_script::ScriptFault;
use std::alloc::Global;
use std::io::{self, Write};

/// A refusal as it is written: its number, and its position in the source that was sent.
#[derive(Clone, Copy, Drop)]
pub struct Refusal<'a> {
    pub number: u32,
    pub stands: Stands<'a>,
}

// Flushes a writer after a write. Fails with 54 if the write or the flush failed.
fn flushed<W: Write>(write: io::Result<()>, writer: &mut W) -> Result<(), ScriptFault>
    ensures { Flushes write (W.contents writer.old) (W.contents writer.new) result }
{
    match write {
        Ok(()) => match writer.flush() {
            Ok(()) => Ok(()),
            Err(_) => Err(ScriptFault::WriteFault),
        },
        Err(_) => Err(ScriptFault::WriteFault),
    }
}

fn write_number<W: Write>(number: u64, writer: &mut W) -> io::Result<()>
    ensures { OnOk result (Appends (W.contents writer.old) (W.contents writer.new) (number_text number)) }
{
    writeln!(writer, "ok {number}")
}

// Writes the name of a unit.
#[tactic(auto, using(crate::proofs::Writing::written_third))]
fn write_unit<W: Write>(name: &Name, writer: &mut W) -> io::Result<()>
    ensures { OnOk result (Appends (W.contents writer.old) (W.contents writer.new) (unit_text name.now)) }
{
    writer.write_all(b"unit ")?;
    writer.write_all(name.bytes())?;
    writer.write_all(b"\n")
}

// Writes the names of units.
fn write_units<W: Write>(names: &[Name], writer: &mut W) -> io::Result<()>
    ensures { OnOk result (Appends (W.contents writer.old) (W.contents writer.new) (units_text names.now)) }
{
    for name in names {
        write_unit(name, writer)?;
    }
    Ok(())
}

// Writes the names of a library's units, and the number of the receipt that has them.
#[tactic(auto, using(crate::proofs::Writing::written_on))]
fn write_names<W: Write>(names: &[Name], number: u64, writer: &mut W) -> io::Result<()>
    ensures { OnOk result (Appends (W.contents writer.old) (W.contents writer.new) (names_text names.now number)) }
{
    write_units(names, writer)?;
    write_number(number, writer)
}

fn said_of(audit: Audit) -> &'static [u8]
    ensures { result.now ≡ said_text audit }
{
    match audit {
        Audit::Confirmed => b" confirmed\n",
        Audit::NoCertificate => b" none\n",
        Audit::Unconfirmed => b" unconfirmed\n",
    }
}

// Writes the result of an audit of the unit under this name.
#[tactic(auto, using(crate::proofs::Writing::written_third))]
fn write_audit<W: Write>(name: &[u8], audit: Audit, writer: &mut W) -> io::Result<()>
    ensures { OnOk result (Appends (W.contents writer.old) (W.contents writer.new) (audit_text name.now audit)) }
{
    writer.write_all(b"audit ")?;
    writer.write_all(name)?;
    writer.write_all(said_of(audit))
}

// Writes how much of its area a library uses.
fn write_space_line<W: Write>(space: SpaceUse, writer: &mut W) -> io::Result<()>
    ensures { OnOk result (Appends (W.contents writer.old) (W.contents writer.new) (space_line space)) }
{
    let SpaceUse {
        area,
        used,
        compacted,
        units,
    } = space;
    writeln!(writer, "space {area} {used} {compacted} {units}")
}

// Writes how much of its area a library uses, and then `ok`.
#[tactic(auto, using(crate::proofs::Writing::written_on))]
fn write_space<W: Write>(space: SpaceUse, writer: &mut W) -> io::Result<()>
    ensures { OnOk result (Appends (W.contents writer.old) (W.contents writer.new) (space_text space)) }
{
    write_space_line(space, writer)?;
    writer.write_all(b"ok\n")
}

// Writes the explanation of a refusal: words, or the place in the source that was sent.
fn explain_refusal<W: Write>(
    alloc: Global,
    refusal: Refusal<'_>,
    source: &[u8],
    writer: &mut W,
) -> io::Result<()> {
    if words_of(refusal.number).is_some() {
        return explain_words(refusal.number, writer);
    }
    write_told(of_fault(alloc, source, refusal.stands), source, writer)?;
    writer.flush()
}

/// Writes the names of a library's units, and the number of the receipt that has them. Fails with 54 `WriteFault` if the writer
/// failed.
#[tactic(auto, using(crate::proofs::Writing::told))]
pub fn tell_names<W: Write>(names: &[Name], number: u64, answers: &mut W) -> Result<(), ScriptFault>
    ensures { Tells (W.contents answers.old) (W.contents answers.new) (names_text names.now number) result }
{
    let write = write_names(names, number, answers);
    flushed(write, answers)
}

/// Writes what a unit's image did. Fails with 54 `WriteFault` if the writer failed.
#[tactic(auto, using(crate::proofs::Writing::told))]
pub fn tell_run<W: Write>(run: &ImageRun, answers: &mut W) -> Result<(), ScriptFault>
    ensures { Tells (W.contents answers.old) (W.contents answers.new) (run_text run.now) result }
{
    let write = write_run(run, answers);
    flushed(write, answers)
}

/// Writes the result of an audit of the unit under this name. Fails with 54 `WriteFault` if the writer failed.
#[tactic(auto, using(crate::proofs::Writing::told))]
pub fn tell_audit<W: Write>(name: &[u8], audit: Audit, answers: &mut W) -> Result<(), ScriptFault>
    ensures { Tells (W.contents answers.old) (W.contents answers.new) (audit_text name.now audit) result }
{
    let write = write_audit(name, audit, answers);
    flushed(write, answers)
}

/// Writes how much of its area a library uses. Fails with 54 `WriteFault` if the writer failed.
#[tactic(auto, using(crate::proofs::Writing::told))]
pub fn tell_space<W: Write>(space: SpaceUse, answers: &mut W) -> Result<(), ScriptFault>
    ensures { Tells (W.contents answers.old) (W.contents answers.new) (space_text space) result }
{
    let write = write_space(space, answers);
    flushed(write, answers)
}

/// Writes whole lines that were made before. Fails with 54 `WriteFault` if the writer failed.
#[tactic(auto, using(crate::proofs::Writing::told))]
pub fn tell_text<W: Write>(text: &[u8], answers: &mut W) -> Result<(), ScriptFault>
    ensures { Tells (W.contents answers.old) (W.contents answers.new) text.now result }
{
    let write = answers.write_all(text);
    flushed(write, answers)
}

/// Writes that a change was made, and the number of its receipt. Fails with 54 `WriteFault` if the writer failed.
#[tactic(auto, using(crate::proofs::Writing::told))]
pub fn tell_number<W: Write>(number: u64, answers: &mut W) -> Result<(), ScriptFault>
    ensures { Tells (W.contents answers.old) (W.contents answers.new) (number_text number) result }
{
    let write = write_number(number, answers);
    flushed(write, answers)
}

/// Writes that the command was carried out. Fails with 54 `WriteFault` if the writer failed.
pub fn tell_ok<W: Write>(answers: &mut W) -> Result<(), ScriptFault>
    ensures { Tells (W.contents answers.old) (W.contents answers.new) (line (codes "ok")) result }
{
    tell_text(b"ok\n", answers)
}

// Writes the line of the fault with this number.
#[tactic(auto, using(crate::proofs::Writing::told))]
fn tell_line<W: Write>(
    number: u32,
    stands: Stands<'_>,
    source: &[u8],
    answers: &mut W,
) -> Result<(), ScriptFault>
    ensures { Tells (W.contents answers.old) (W.contents answers.new) (fault_line number (position_text source.now stands.entry)) result }
{
    let write = write_fault_line(number, stands, source, answers);
    flushed(write, answers)
}

// Writes the line of a script's fault, if it has one.
fn tell_script_fault<W: Write>(fault: ScriptFault, answers: &mut W) -> Result<(), ScriptFault>
    ensures { Tells (W.contents answers.old) (W.contents answers.new) (script_fault_text fault) result }
{
    let number = fault.number();
    if number == 54 {
        return Ok(());
    }
    tell_line(number, Stands::Nowhere, &[], answers)
}

/// Writes the line of a script's fault, and explains the fault. 54, a fault in writing the answers themselves, has no line. Fails
/// with 54 `WriteFault` if the writer failed.
pub fn tell_fault<W: Write, E: Write>(
    fault: ScriptFault,
    answers: &mut W,
    explanations: &mut E,
) -> Result<(), ScriptFault>
    ensures { Tells (W.contents answers.old) (W.contents answers.new) (script_fault_text fault) result }
{
    let answer = tell_script_fault(fault, answers);
    let _ = explain_words(fault.number(), explanations);
    answer
}

/// Writes that memory ran out, 40, and explains it. Fails with 54 `WriteFault` if the writer failed.
pub fn tell_no_memory<W: Write, E: Write>(
    answers: &mut W,
    explanations: &mut E,
) -> Result<(), ScriptFault>
    ensures { Tells (W.contents answers.old) (W.contents answers.new) (fault_line 40 []) result }
{
    let answer = tell_line(40, Stands::Nowhere, &[], answers);
    let _ = explain_words(40, explanations);
    answer
}

/// Writes the line of a refusal for the source that was sent, and explains the refusal: in words, or by its place in the
/// source. Fails with 54 `WriteFault` if the writer failed.
pub fn tell_refusal<W: Write, E: Write>(
    alloc: Global,
    refusal: Refusal<'_>,
    source: &[u8],
    answers: &mut W,
    explanations: &mut E,
) -> Result<(), ScriptFault>
    ensures { Tells (W.contents answers.old) (W.contents answers.new) (fault_line refusal.entry.number (position_text source.now refusal.entry.stands)) result }
{
    let answer = tell_line(refusal.number, refusal.stands, source, answers);
    let _ = explain_refusal(alloc, refusal, source, explanations);
    answer
}
