// Reading the text.

ghost use Rattle.std.specs.Prelude.{◌≡◌, ◌⊎◌, ◌≤◌, IfOk, IfErr, vec_len};
ghost use Rattle.cc_sources.specs.Reading.{IsTextOf};
ghost use Rattle.cc_tasks.specs.declared.fault.Fault.TheVariants.{OutOfMemory, Read as Unread};

use super::fault::Fault;
use cc_sources::{MOST_READ, NoText, read_text};
use std::alloc::Global;
use std::io::Read;

/// The bytes of a reader up to its end, or the first `MOST_READ` of them.
///
/// `Read` if a read fails, `OutOfMemory` if there is no room for the bytes.
pub fn read_source<R: Read>(alloc: Global, reader: &mut R) -> Result<Vec<u8>, Fault>
    ensures few { IfOk result (λ text. vec_len text ≤ MOST_READ) }
    ensures text { IfOk result (λ text. IsTextOf (R.remaining reader.old) text.items) }
    ensures refused { IfErr result (λ fault. (fault ≡ Unread) ⊎ (fault ≡ OutOfMemory)) }
{
    match read_text(alloc, reader) {
        Ok(text) => Ok(text),
        Err(NoText::Unread(_)) => Err(Fault::Read),
        Err(NoText::OutOfMemory) => Err(Fault::OutOfMemory),
    }
}
