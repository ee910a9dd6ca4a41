// The command `log`: it shows what was added, replaced and withdrawn in the library in a file. Nothing is written to it.

ghost use Rattle.std.specs.Prelude.{◌≡◌, false, true, option_map};
ghost use Rattle.std.specs.Io.KnownBytes.{Appends};
ghost use Rattle.cc_log.specs.Written.{log_text};

use crate::telling::{refuse, settled};
use cc_command_line::Logging;
use cc_disk::Disk;
use cc_filing::{buffers, disk_to_read, no_library};
use cc_library::{LibraryCommand, Name};
use cc_log::{commands_on, write_log};
use cc_tasks::{Done, PartFault};
use std::alloc::{AllocError, Global};
use std::io::Write;

// The commands of the library on this disk.
fn commands_of<D: Disk + Drop>(alloc: Global, disk: D) -> Result<Vec<LibraryCommand>, PartFault> {
    let (commands, disk) = commands_on(alloc, disk);
    drop(disk);
    match commands {
        Ok(commands) => Ok(commands),
        Err(fault) => Err(PartFault::Library(fault)),
    }
}

// The name that is asked for, if any.
fn name_of(name: Option<&str>) -> Result<Option<Name>, PartFault> {
    let Some(name) = name else {
        return Ok(None);
    };
    match Name::new(name.as_bytes()) {
        Ok(name) => Ok(Some(name)),
        Err(_) => Err(PartFault::BadName),
    }
}

// Writes the lines of the commands that are asked for: all, or those about a name.
#[tactic(auto, using(crate::proofs::Settled::settled_text))]
fn answer<W: Write, E: Write>(
    alloc: Global,
    is_hashed: bool,
    commands: &[LibraryCommand],
    name: Option<&Name>,
    writer: &mut W,
    told: &mut E,
) -> Done
    ensures written { result.is_written ≡ true → Appends (W.contents writer.old) (W.contents writer.new)
        (log_text is_hashed (option_map (λ n. n.now) name.entry) commands.now) × (result.status ≡ 0) }
    ensures unwritten { result.is_written ≡ false → result.status ≡ 1 }
{
    let write = write_log(alloc, is_hashed, commands, name, writer);
    settled(write, 0, writer, told)
}

// Writes the lines that are asked for, or the line for a fault. The result is the status.
fn tell<W: Write, E: Write>(
    alloc: Global,
    asked: &Logging,
    commands: &[LibraryCommand],
    writer: &mut W,
    told: &mut E,
) -> u8 {
    let name = match &asked.name {
        Some(name) => Some(name.as_str()),
        None => None,
    };
    match name_of(name) {
        Ok(name) => {
            answer(
                alloc,
                asked.is_hashed,
                commands,
                name.as_ref(),
                writer,
                told,
            )
            .status
        }
        Err(fault) => refuse(fault, writer, told),
    }
}

/// Writes the commands of the library in a file since its last compaction, or those about one name. The result is the status. The
/// only error is that memory ran out before the command began.
pub fn log_of_file<R: AllocGlobal, A: Write + Drop, E: Write + Drop>(
    rt: &R,
    files: &HostRuntime,
    asked: &Logging,
    is_quiet: bool,
    answers: A,
    errors: E,
) -> Result<u8, AllocError> {
    let (mut writer, mut told) = buffers(rt.alloc(), answers, errors, is_quiet)?;
    let path = asked.disk.as_str();
    let disk = match disk_to_read(files, path, asked.wait) {
        Ok(disk) => disk,
        Err(reason) => return Ok(no_library(reason, path, &mut writer, &mut told)),
    };
    Ok(match commands_of(rt.alloc(), disk) {
        Ok(commands) => tell(
            rt.alloc(),
            asked,
            commands.as_slice(),
            &mut writer,
            &mut told,
        ),
        Err(fault) => refuse(fault, &mut writer, &mut told),
    })
}
