// The position of a fault in a text, and its explanation there.

use cc_diagnostic::{Diagnostic, of_name, of_syntax, of_typing};
use cc_link::{PieceFault, TextFault};
use std::alloc::{AllocError, Global};
use std::io::{self, Write};

/// The position of a fault in a text.
#[derive(Clone, Copy, Drop)]
pub enum Stands<'a> {
    /// At the place, if it has one, of the fault for which the text is not a program.
    Text(&'a TextFault),
    /// In a function.
    Function(PieceFault),
    /// Not in the text.
    Nowhere,
}

// The explanation for a function that was not compiled; `None` if memory ran out.
fn of_piece(
    alloc: Global,
    text: &[u8],
    fault: PieceFault,
) -> Result<Option<Diagnostic>, AllocError> {
    match fault {
        PieceFault::FunctionTooLarge { at, length } => {
            let words = "is too large to be compiled: it would have more than 4096 nodes of RTL";
            Ok(Some(of_name(alloc, text, at, length, words)?))
        }
        PieceFault::Unvalidated { at, length, .. } => {
            let words =
                "is not compiled: it is not shown that its allocated code does what it does";
            Ok(Some(of_name(alloc, text, at, length, words)?))
        }
        PieceFault::OutOfMemory => Ok(None),
    }
}

/// The explanation of a fault in the text: what was found there and what was expected, or which function it is. `None` for a
/// fault that is not in the text, and if memory ran out.
pub fn of_fault(
    alloc: Global,
    text: &[u8],
    stands: Stands<'_>,
) -> Result<Option<Diagnostic>, AllocError> {
    match stands {
        Stands::Text(TextFault::Syntax(fault)) => Ok(Some(of_syntax(alloc, text, fault)?)),
        Stands::Text(TextFault::Typing(fault)) => of_typing(alloc, text, fault),
        Stands::Function(fault) => of_piece(alloc, text, fault),
        Stands::Nowhere => Ok(None),
    }
}

/// Writes an explanation, if there is one and there was memory for it.
pub fn write_told<W: Write>(
    told: Result<Option<Diagnostic>, AllocError>,
    text: &[u8],
    writer: &mut W,
) -> io::Result<()> {
    match told {
        Ok(Some(diagnostic)) => diagnostic.write(text, writer),
        Ok(None) | Err(_) => Ok(()),
    }
}
