// Writes the line for a fault, and explains the fault to a person.

ghost use Rattle.std.specs.Prelude.{◌≡◌, false, true, IsOk};
ghost use Rattle.std.specs.Io.KnownBytes.{Keeps};

use cc_answers::{Stands, explain_words, write_fault_line};
use cc_filing::explain_part;
use cc_tasks::{Done, PartFault};
use std::io::{self, Write};

/// Explains that an answer could not be written. The result is the status.
pub(crate) fn unwritten<E: Write>(told: &mut E) -> u8
    ensures { result ≡ 1 }
{
    let _ = explain_words(54, told);
    1
}

/// Flushes the writer after an answer. The result is the given status if the answer was written; else it is 1, and this is
/// explained to a person.
pub(crate) fn settled<W: Write, E: Write>(
    write: io::Result<()>,
    status: u8,
    writer: &mut W,
    told: &mut E,
) -> Done
    ensures written { result.is_written ≡ true → IsOk write × Keeps (W.contents writer.old) (W.contents writer.new) × (result.status ≡ status) }
    ensures unwritten { result.is_written ≡ false → result.status ≡ 1 }
{
    match write {
        Ok(()) => match writer.flush() {
            Ok(()) => return Done {
                status,
                is_written: true,
            },
            Err(_) => {}
        },
        Err(_) => {}
    }
    Done {
        status: unwritten(told),
        is_written: false,
    }
}

/// Writes the line for a fault. The result is the status.
pub(crate) fn refuse_quietly<W: Write, E: Write>(number: u32, writer: &mut W, told: &mut E) -> u8 {
    let line = write_fault_line(number, Stands::Nowhere, b"", writer);
    if line.is_err() || writer.flush().is_err() {
        return unwritten(told);
    }
    1
}

/// Writes the line for a fault, and explains it. The result is the status.
pub(crate) fn refuse<W: Write, E: Write>(fault: PartFault, writer: &mut W, told: &mut E) -> u8 {
    let status = refuse_quietly(fault.number(), writer, told);
    let _ = explain_part(fault, told);
    status
}
