// Takes one function through the passes, and writes its stages as they are seen. A stage that refuses the function is its last.

ghost use Rattle.std.specs.Prelude.{◌<◌, length};
ghost use Rattle.std.specs.Arc.{arc_value};
ghost use Rattle.cc_ast.specs.Source.{source};
ghost use Rattle.cc_types.specs.Typed.{defined_names};

use crate::stage::Stage;
use crate::steps::write_steps;
use cc_emit::Piece;
use cc_link::{Allocation, Allocator, Mode, PieceFault, Seen, Watch, compile_watched_in};
use cc_types::TypedUnit;
use std::alloc::{AllocError, Global};
use std::io::{self, Write};
use std::sync::Arc;

// The word that names the allocator that made the LTL.
fn word(allocator: Allocator) -> &'static str {
    match allocator {
        Allocator::Colour => "coloured",
        Allocator::Spill => "spilled",
        Allocator::Given => "given",
    }
}

// Writes down what it sees of the function with this name.
#[derive(Drop)]
struct Writing<'a> {
    name: &'a [u8],
    text: Vec<u8>,
    // Whether the guards come next, or refused the function.
    awaits_guards: bool,
}

impl<'a> Writing<'a> {
    fn new(alloc: Global, mode: Mode, name: &'a [u8]) -> Writing<'a> {
        Writing {
            name,
            text: Vec::new(alloc),
            awaits_guards: match mode {
                Mode::Plain => false,
                Mode::Checked => true,
            },
        }
    }

    // Writes what was seen: a stage; for LTL, first which allocator made it, and then how it was judged.
    fn write(&mut self, seen: Seen<'_>) -> io::Result<()> {
        match seen {
            Seen::Cminor(pair) => Stage::Cminor.write(self.name, pair, &mut self.text),
            Seen::Guarded(pair) => {
                self.awaits_guards = false;
                Stage::Guarded.write(self.name, pair, &mut self.text)
            }
            Seen::Rtl(rtl) => Stage::Rtl.write(self.name, rtl, &mut self.text),
            Seen::Pruned(rtl) => {
                Stage::Pruned.write(self.name, rtl, &mut self.text)?;
                Stage::Ltl.begin(self.name, &mut self.text)
            }
            Seen::Allocated(allocator, _) => self.text.write_all(word(allocator).as_bytes()),
            Seen::Refused(label) => writeln!(self.text, ": refused at label {label}"),
            Seen::Validated(ltl) => write!(self.text, "\n{ltl}"),
            Seen::Linear(pair) => Stage::Linear.write(self.name, pair, &mut self.text),
            Seen::Selected(pair) => {
                Stage::Selected.begin(self.name, &mut self.text)?;
                write_steps(pair, &mut self.text)
            }
        }
    }

    // Writes why the function is too large: guards set too many variables, or its RTL has too many nodes.
    fn write_too_large(&mut self) -> io::Result<()> {
        let (stage, why) = if self.awaits_guards {
            (Stage::Guarded, "refused: more than 2048 variables\n")
        } else {
            (Stage::Rtl, "refused: more than 4096 nodes\n")
        };
        stage.write(self.name, &why, &mut self.text)
    }

    // Writes the end: the line that begins the function's code, or why it has no code, if no stage has said why yet.
    fn write_end(&mut self, piece: &Result<Piece, PieceFault>) -> io::Result<()> {
        match piece {
            Ok(_) => Stage::Code.begin(self.name, &mut self.text),
            Err(PieceFault::FunctionTooLarge { .. }) => self.write_too_large(),
            Err(_) => Ok(()),
        }
    }
}

impl<'a> Watch for Writing<'a> {
    fn see(&mut self, seen: Seen<'_>) -> Result<(), AllocError> {
        match self.write(seen) {
            Ok(()) => Ok(()),
            Err(_) => Err(AllocError),
        }
    }
}

/// A function that went through the passes: its stages up to the line that begins its code, or to the one that refuses it, and its piece.
#[derive(Drop)]
pub(crate) struct Passed {
    pub(crate) text: Vec<u8>,
    pub(crate) piece: Result<Piece, PieceFault>,
}

/// Takes the function with a number through the passes.
pub(crate) fn pass_function(
    alloc: Global,
    mode: Mode,
    unit: &Arc<TypedUnit>,
    function: usize,
) -> Passed
    requires { function < length (defined_names (source (arc_value unit.now))) }
{
    let mut writing = Writing::new(alloc, mode, unit.function_name(function));
    let piece = compile_watched_in(
        alloc,
        mode,
        unit,
        function,
        Allocation::Chosen,
        &mut writing,
    );
    let piece = match writing.write_end(&piece) {
        Ok(()) => piece,
        Err(_) => {
            drop(piece);
            Err(PieceFault::OutOfMemory)
        }
    };
    let Writing { text, .. } = writing;
    Passed { text, piece }
}
