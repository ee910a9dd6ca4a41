// The line of a fault.

ghost use Rattle.std.specs.Prelude.{◌≡◌, OnOk};
ghost use Rattle.std.specs.Io.KnownBytes.{Appends};
ghost use Rattle.cc_answers.specs.Text.{fault_head, fault_line, fault_name, function_text, in_text, name_at, place_text, position_text};

use crate::stands::Stands;
use cc_link::PieceFault;
use cc_tokens::Place;
use std::io::{self, Write};

/// The name of the fault with this number; empty if no fault has it.
pub fn name_of(number: u32) -> &'static str
    ensures { result.now ≡ fault_name number }
{
    match number {
        1 => "BadByte",
        2 => "UnclosedComment",
        3 => "BadConstant",
        4 => "ConstantTooLarge",
        5 => "Unexpected",
        6 => "TooDeep",
        7 => "SourceTooLarge",
        11 => "Unknown",
        12 => "Redeclared",
        13 => "WrongKind",
        14 => "WrongCount",
        15 => "VoidValue",
        16 => "BadReturn",
        17 => "BadAssign",
        18 => "BadBreak",
        19 => "NoMain",
        20 => "Undefined",
        21 => "TooMany",
        22 => "FunctionTooLarge",
        24 => "Unvalidated",
        25 => "ImageTooLarge",
        26 => "Missing",
        27 => "Doubled",
        28 => "Stranger",
        30 => "TooManyClients",
        31 => "Exists",
        32 => "Absent",
        33 => "BadName",
        34 => "Full",
        35 => "DiskFault",
        36 => "Closed",
        37 => "Damaged",
        38 => "NotALibrary",
        39 => "Estranged",
        40 => "OutOfMemory",
        41 => "WorkersGone",
        50 => "BadLine",
        51 => "EndOfScript",
        52 => "ScriptTooLong",
        53 => "ReadFault",
        54 => "WriteFault",
        55 => "Interrupted",
        56 => "FolderFault",
        57 => "FolderInUse",
        58 => "NotTaken",
        59 => "UnknownFunction",
        60 => "Changed",
        61 => "Stopped",
        _ => "",
    }
}

/// Writes the line of a fault, given the text: the fault's number and name; its place, if it has one, for example `fault 5
/// Unexpected at 1:25`; or, if it is about a function, that function's name, for example `fault 22 FunctionTooLarge in main`.
#[tactic(auto, using(crate::proofs::Writing::written_third))]
pub fn write_fault_line<W: Write>(
    number: u32,
    stands: Stands<'_>,
    text: &[u8],
    writer: &mut W,
) -> io::Result<()>
    ensures { OnOk result (Appends (W.contents writer.old) (W.contents writer.new) (fault_line number (position_text text.now stands.entry))) }
{
    write_head(number, writer)?;
    write_position(stands, text, writer)?;
    writer.write_all(b"\n")
}

// Writes the number of a fault, and its name.
fn write_head<W: Write>(number: u32, writer: &mut W) -> io::Result<()>
    ensures { OnOk result (Appends (W.contents writer.old) (W.contents writer.new) (fault_head number)) }
{
    let name = name_of(number);
    write!(writer, "fault {number} {name}")
}

// Writes the place or the function of a fault, if it has one.
fn write_position<W: Write>(stands: Stands<'_>, text: &[u8], writer: &mut W) -> io::Result<()>
    ensures { OnOk result (Appends (W.contents writer.old) (W.contents writer.new) (position_text text.now stands.entry)) }
{
    match stands {
        Stands::Text(fault) => write_place(fault.place(), writer),
        Stands::Function(fault) => write_function(fault, text, writer),
        Stands::Nowhere => Ok(()),
    }
}

fn write_place<W: Write>(place: Option<Place>, writer: &mut W) -> io::Result<()>
    ensures { OnOk result (Appends (W.contents writer.old) (W.contents writer.new) (place_text place)) }
{
    match place {
        Some(Place { line, column }) => write!(writer, " at {line}:{column}"),
        None => Ok(()),
    }
}

// Writes the function that a fault is in, and the label at which the proof failed, if there is one.
#[tactic(auto, using(crate::proofs::Writing::written_on))]
fn write_function<W: Write>(fault: PieceFault, text: &[u8], writer: &mut W) -> io::Result<()>
    ensures { OnOk result (Appends (W.contents writer.old) (W.contents writer.new) (function_text text.now fault)) }
{
    match fault {
        PieceFault::FunctionTooLarge { at, length } => write_name(text, at, length, writer),
        PieceFault::Unvalidated { at, length, label } => {
            write_name(text, at, length, writer)?;
            write!(writer, " at label {label}")
        }
        PieceFault::OutOfMemory => Ok(()),
    }
}

// Writes the name that begins at the offset `at` of the text and has `length` bytes.
#[tactic(auto, using(crate::proofs::Writing::written_on))]
fn write_name<W: Write>(text: &[u8], at: usize, length: usize, writer: &mut W) -> io::Result<()>
    ensures { OnOk result (Appends (W.contents writer.old) (W.contents writer.new) (in_text text.now at length)) }
{
    writer.write_all(b" in ")?;
    writer.write_all(name_in(text, at, length))
}

// The `length` bytes of a text from the offset `at` on, or as many of them as there are.
fn name_in(text: &[u8], at: usize, length: usize) -> &[u8]
    ensures { result.now ≡ name_at text.now at length }
{
    let (_, rest) = text.split_at(at.min(text.len()));
    let (name, _) = rest.split_at(length.min(rest.len()));
    name
}
