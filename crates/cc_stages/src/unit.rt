// The stages of a unit's functions, one function after the other.
//
// Each function goes through the passes once. The pieces are linked, and what is shown of a function was seen in the run that
// made its piece; so the texts are held back until there is an image.

ghost use Rattle.std.specs.Prelude.{◌≡◌, ◌<◌, ℕ, Some, IsNone, IfSome, IfErr, IsErrOf, MatchOption, length, slice_get};
ghost use Rattle.std.specs.Arc.{arc_value};
ghost use Rattle.cc_ast.specs.Source.{source};
ghost use Rattle.cc_types.specs.Typed.{defined_names};
ghost use Rattle.cc_stages.specs.Named.{IsDefined};
ghost use Rattle.cc_stages.specs.declared.fault.StagesFault.TheVariants.{UnknownFunction};

use crate::code::{Listing, list_unit};
use crate::fault::StagesFault;
use crate::function::{Passed, pass_function};
use cc_emit::Piece;
use cc_link::{Mode, PieceFault, compile_function_in};
use cc_types::TypedUnit;
use std::alloc::{AllocError, Global};
use std::io::{self, Write};
use std::sync::Arc;

// The number of the function with that name.
fn number_of(unit: &TypedUnit, name: &[u8]) -> Option<usize>
    ensures found { IfSome result (λ f. slice_get (defined_names (source unit.now)) f ≡ Some name.now) }
    ensures none { IsNone result → ¬ IsDefined (source unit.now) name.now }
{
    for function in 0..unit.functions() {
        if unit.function_name(function) == name {
            return Some(function);
        }
    }
    None
}

// The stages of a function that is wanted. The last one is its code, whose lines come after the text, if it has a piece.
#[derive(Drop)]
struct Shown {
    function: usize,
    text: Vec<u8>,
    has_piece: bool,
}

// What became of a unit's functions.
#[derive(Drop)]
struct Run {
    shown: Vec<Shown>,
    // Their pieces, in order; those of the whole unit if no function is refused.
    pieces: Vec<Piece>,
    // Why there is no image: the first refusal, or the refusal of the last function shown.
    refused: Option<PieceFault>,
}

impl Run {
    fn new(alloc: Global) -> Run {
        Run {
            shown: Vec::new(alloc),
            pieces: Vec::new(alloc),
            refused: None,
        }
    }

    // Shows a function that is wanted. The result is whether the run goes on.
    fn show(&mut self, function: usize, passed: Passed) -> Result<bool, AllocError> {
        let Passed { text, piece } = passed;
        let has_piece = piece.is_ok();
        match piece {
            Ok(piece) => self.pieces.push(piece)?,
            Err(fault) => self.refused = Some(fault),
        }
        self.shown.push(Shown {
            function,
            text,
            has_piece,
        })?;
        Ok(has_piece)
    }

    // Adds a function that is not wanted.
    fn add(&mut self, piece: Result<Piece, PieceFault>) -> Result<(), AllocError> {
        match piece {
            Ok(piece) => {
                self.pieces.push(piece)?;
                Ok(())
            }
            Err(fault) => {
                self.refused = Some(fault);
                Ok(())
            }
        }
    }
}

// Takes a unit's functions through the passes, and shows each, or the one that is wanted.
fn pass_functions(
    alloc: Global,
    mode: Mode,
    unit: &Arc<TypedUnit>,
    wanted: Option<usize>,
) -> Result<Run, AllocError> {
    let mut run = Run::new(alloc);
    for function in 0..unit.functions() {
        if wanted.is_none_or(|wanted| wanted == function) {
            let passed = pass_function(alloc, mode, unit, function);
            if !run.show(function, passed)? {
                return Ok(run);
            }
        } else if run.refused.is_none() {
            run.add(compile_function_in(alloc, mode, unit, function))?;
        }
    }
    Ok(run)
}

// Writes the lines of a function's code; if there are none, writes whether memory ran out or the unit has no image.
fn write_code<W: Write>(
    function: usize,
    code: &Result<Listing, StagesFault>,
    writer: &mut W,
) -> io::Result<()> {
    match code {
        Ok(listing) => writer.write_all(listing.of_function(function)),
        Err(fault) if fault.number() == 40 => writeln!(writer, "none: memory ran out"),
        Err(_) => writeln!(writer, "none: the program has no image"),
    }
}

// Writes the stages.
fn write_all<W: Write>(
    shown: &[Shown],
    code: &Result<Listing, StagesFault>,
    writer: &mut W,
) -> io::Result<()> {
    for it in shown {
        writer.write_all(it.text.as_slice())?;
        if it.has_piece {
            write_code(it.function, code, writer)?;
        }
    }
    Ok(())
}

// The listing of the image of a unit's pieces, if each function has a piece.
fn listing(
    alloc: Global,
    mode: Mode,
    unit: &Arc<TypedUnit>,
    pieces: Vec<Piece>,
    refused: Option<PieceFault>,
) -> Result<Listing, StagesFault>
    ensures { IfErr result (λ fault. ¬ (fault ≡ UnknownFunction)) }
{
    match refused {
        Some(fault) => Err(StagesFault::Piece(fault)),
        None => list_unit(alloc, mode, unit, pieces),
    }
}

// Writes the stages of each function, or of the one that is wanted.
fn write_stages<W: Write>(
    alloc: Global,
    mode: Mode,
    unit: &Arc<TypedUnit>,
    wanted: Option<usize>,
    writer: &mut W,
) -> Result<(), StagesFault>
    ensures { IfErr result (λ fault. ¬ (fault ≡ UnknownFunction)) }
{
    let Run {
        shown,
        pieces,
        refused,
    } = pass_functions(alloc, mode, unit, wanted)?;
    let code = listing(alloc, mode, unit, pieces, refused);
    if write_all(shown.as_slice(), &code, writer).is_err() {
        drop(code);
        return Err(StagesFault::Write);
    }
    match code {
        Ok(_) => Ok(()),
        Err(fault) => Err(fault),
    }
}

/// Writes the stages of each function of a unit in a mode, in the order of definitions, or only those of the function with that
/// name. Each stage begins with a line `== f: RTL`; then come its lines, as docs/INTERMEDIATE.md describes them. The last stage
/// has the function's lines from the image's listing. All stages of a function come from one run of the passes. The writer is
/// not flushed.
///
/// Refusals: 59 if no function has that name, with nothing written. If a function has no piece (22, 24), its stages end with
/// the one that says so, and nothing comes after it. If the unit has no image, because a function that is not wanted has no
/// piece (22, 24) or because the image would be too large (25), the wanted functions have all other stages, and the last one
/// says that there is no image. 40 if memory ran out, 54 if the text could not be written: it may end anywhere then.
pub fn stages<W: Write>(
    alloc: Global,
    mode: Mode,
    unit: &Arc<TypedUnit>,
    function: Option<&[u8]>,
    writer: &mut W,
) -> Result<(), StagesFault>
    ensures unknown { MatchOption function.entry (Unit {0}) (λ name. ¬ IsDefined (source (arc_value unit.now)) name.now → IsErrOf result UnknownFunction) }
    ensures unknown_only { IsErrOf result UnknownFunction → MatchOption function.entry ⊥ (λ name. ¬ IsDefined (source (arc_value unit.now)) name.now) }
{
    let wanted = match function {
        Some(name) => match number_of(unit, name) {
            Some(function) => Some(function),
            None => return Err(StagesFault::UnknownFunction),
        },
        None => None,
    };
    write_stages(alloc, mode, unit, wanted, writer)
}
