// The commands `image` and `source` with a library: they print a part of a unit that the library in a file has. The file is
// opened for reading alone.

ghost use Rattle.std.specs.Prelude.{◌≡◌, false, true, MatchResult};
ghost use Rattle.std.specs.Io.KnownBytes.{Appends};
ghost use Rattle.cc_tasks.specs.Written.{found_text};

use crate::filing::{disk_to_read, no_library};
use crate::printing::buffers;
use cc_answers::explain_words;
use cc_command_line::Wanted;
use cc_disk::Disk;
use cc_library::LibraryFault;
use cc_screen::Screen;
use cc_tasks::{Done, PartFault, take_out, write_part};
use std::alloc::{AllocError, Global};
use std::io::{self, IsTerminal, Print, Write};

/// What a person reads if there is no disk on the file, because of 35.
const NO_FILE: &str =
    "cclib: the file could not be opened, or failed, or another process has it open\n";

/// What a person reads if the file is not a library, because of 38.
const NO_LIBRARY: &str = "cclib: the file is no library\n";

// The bytes of the part that is wanted, of a unit on this disk.
fn bytes_of<D: Disk + Drop, E: Write>(
    alloc: Global,
    disk: D,
    wanted: &Wanted,
    errors: &mut E,
) -> Result<Vec<u8>, PartFault> {
    let name = wanted.name.as_bytes();
    let (found, disk) = take_out(alloc, disk, name, wanted.part, errors);
    drop(disk);
    found
}

/// Explains a fault to a person. The fault for a name that no unit has was explained before.
pub fn explain_part<E: Write>(fault: PartFault, errors: &mut E) -> io::Result<()> {
    match fault {
        PartFault::Library(LibraryFault::DiskFault) => errors.write_all(NO_FILE.as_bytes())?,
        PartFault::Library(LibraryFault::NotALibrary) => errors.write_all(NO_LIBRARY.as_bytes())?,
        PartFault::Absent => {}
        PartFault::BadName | PartFault::OutOfMemory | PartFault::Library(_) => {
            explain_words(fault.number(), errors)?
        }
    }
    errors.flush()
}

// Explains the fault to a person, if there is one. Returns the status.
fn told<E: Write>(found: &Result<Vec<u8>, PartFault>, errors: &mut E) -> u8
    ensures { MatchResult found.now (λ _. result ≡ 0) (λ _. result ≡ 1) }
{
    match found {
        Ok(_) => 0,
        Err(fault) => {
            let _ = explain_part(*fault, errors);
            1
        }
    }
}

/// Writes the bytes, or the fault's line. Either exactly this text was appended to what the writer held, or it could not be
/// written.
pub fn write_found<W: Write, E: Write>(
    found: Result<Vec<u8>, PartFault>,
    writer: &mut W,
    errors: &mut E,
) -> Done
    ensures written { result.is_written ≡ true → Appends (W.contents writer.old) (W.contents writer.new) (found_text found) }
    ensures status { result.is_written ≡ true → MatchResult found (λ _. result.status ≡ 0) (λ _. result.status ≡ 1) }
    ensures unwritten { result.is_written ≡ false → result.status ≡ 1 }
{
    match write_part(&found, writer) {
        Ok(()) => Done {
            status: told(&found, errors),
            is_written: true,
        },
        Err(unwritten) => {
            let _ = explain_words(unwritten.number(), errors);
            drop(unwritten);
            Done {
                status: 1,
                is_written: false,
            }
        }
    }
}

/// Writes to standard output a part of a unit that the library in a file has: the unit's image as Intel HEX, or its source,
/// byte for byte. Returns the status. On a terminal, control bytes of the source are shown as `?`. Fails only if memory was
/// refused before anything began.
pub fn take_out_of_file<R: AllocGlobal + Print, E: Write + Drop>(
    rt: &R,
    files: &HostRuntime,
    wanted: &Wanted,
    is_quiet: bool,
    errors: E,
) -> Result<u8, AllocError> {
    let (buffered, mut told) = buffers(rt.alloc(), io::writer(rt), errors, is_quiet)?;
    let mut writer = Screen::new(buffered, files.stdout().is_terminal());
    let path = wanted.disk.as_str();
    let disk = match disk_to_read(files, path, wanted.wait) {
        Ok(disk) => disk,
        Err(reason) => return Ok(no_library(reason, path, &mut writer, &mut told)),
    };
    let found = bytes_of(rt.alloc(), disk, wanted, &mut told);
    let done = write_found(found, &mut writer, &mut told);
    Ok(done.status)
}
