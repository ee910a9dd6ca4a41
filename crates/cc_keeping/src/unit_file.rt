// Reads the file of a unit, or explains why it has no unit.

ghost use Rattle.std.specs.Prelude.{⊤};

use crate::telling::refuse_quietly;
use cc_answers::explain_words;
use cc_pack::PackFault;
use cc_packing::{UnitFile, read_unit};
use cc_sources::{INPUT, tell_unread};
use cc_unit::StoredUnit;
use std::alloc::{AllocError, Global};
use std::fs::File;
use std::io::{self, Read, Write};
use std::sync::Arc;

/// No unit's file is as long: an area of a library has at most 1,073,741,824 bytes, and each record fits in one.
const MOST_BYTES: u64 = 1_073_741_825;

/// What a person reads if bytes are the file of no unit.
const NO_UNIT: &str =
    "cclib: this is no unit's file: it has another form, its hash is not that of what follows, or what follows is no unit\n";

/// Why there is no unit from a file.
#[derive(Drop)]
pub enum NoUnit {
    /// 53: the file could not be opened or read.
    Unread(io::Error),
    /// 37 or 40: it has no unit, or memory ran out.
    Fault(PackFault),
}

impl From<AllocError> for NoUnit {
    ghost from_gives = { λ _ _. ⊤ };

    fn from(_: AllocError) -> NoUnit {
        NoUnit::Fault(PackFault::OutOfMemory)
    }
}

impl From<PackFault> for NoUnit {
    ghost from_gives = { λ _ _. ⊤ };

    fn from(fault: PackFault) -> NoUnit {
        NoUnit::Fault(fault)
    }
}

/// All bytes of a reader; if there are more than any unit's file has, one byte more than that.
pub(crate) fn read_bytes<R: Read + Drop>(alloc: Global, reader: R) -> Result<Vec<u8>, NoUnit> {
    let mut bytes = Vec::new(alloc);
    let mut limited = reader.take(MOST_BYTES);
    match limited.read_to_end(&mut bytes) {
        Ok(_) => Ok(bytes),
        Err(why) if why.kind() == io::ErrorKind::OutOfMemory => {
            Err(NoUnit::Fault(PackFault::OutOfMemory))
        }
        Err(why) => Err(NoUnit::Unread(why)),
    }
}

/// The bytes of the file with this path.
pub(crate) fn file_bytes(
    alloc: Global,
    files: &HostRuntime,
    path: &str,
) -> Result<Vec<u8>, NoUnit> {
    match File::open(files, path) {
        Ok(file) => read_bytes(alloc, file),
        Err(why) => Err(NoUnit::Unread(why)),
    }
}

/// The unit in the file with this path. It is not audited.
///
/// 53 if the file can't be read, 37 if it is the file of no unit, 40 if memory ran out.
pub fn unit_from_file(
    alloc: Global,
    files: &HostRuntime,
    path: &str,
) -> Result<Arc<StoredUnit>, NoUnit> {
    let bytes = file_bytes(alloc, files, path)?;
    let UnitFile { unit, .. } = read_unit(alloc, bytes.as_slice())?;
    Ok(Arc::try_clone(unit.stored())?)
}

// Explains to a person why there is no unit from the file with this name.
fn explain<E: Write>(reason: &NoUnit, name: &str, told: &mut E) -> io::Result<()> {
    match reason {
        NoUnit::Unread(why) => tell_unread(name, why, told),
        NoUnit::Fault(PackFault::Damaged) => {
            told.write_all(NO_UNIT.as_bytes())?;
            told.flush()
        }
        NoUnit::Fault(fault) => explain_words(fault.number(), told),
    }
}

/// Writes the line of the fault for a unit's file, and explains it. No path is that of standard input. The result is the status.
pub fn refuse_unit<W: Write, E: Write>(
    reason: &NoUnit,
    path: Option<&str>,
    writer: &mut W,
    told: &mut E,
) -> u8 {
    let number = match reason {
        NoUnit::Unread(_) => 53,
        NoUnit::Fault(fault) => fault.number(),
    };
    let status = refuse_quietly(number, writer, told);
    let _ = explain(reason, path.unwrap_or(INPUT), told);
    status
}
