// Writes the lines for commands.

ghost use Rattle.std.specs.Prelude.{◌≡◌, IfOk, OnOk, option_map};
ghost use Rattle.std.specs.Io.KnownBytes.{Appends};
ghost use Rattle.std.specs.String.{string_bytes};
ghost use Rattle.hex.specs.Hex.{encode_lower};
ghost use Rattle.sha2.specs.Sha256.{sha256};
ghost use Rattle.cc_log.specs.Written.{command_text, hash_text, is_asked, lengths_text, line_text, log_text, name_of, unit_text};

use cc_library::{LibraryCommand, Name, SharedUnit};
use cc_unit::StoredUnit;
use sha2::{Digest, Sha256};
use std::alloc::{AllocError, Global};
use std::io::{self, Write};

// The name that a command is about.
fn name_of(command: &LibraryCommand) -> &Name
    ensures { result.now ≡ name_of command.now }
{
    match command {
        LibraryCommand::Add(name, _)
        | LibraryCommand::Replace(name, _)
        | LibraryCommand::Withdraw(name) => name,
    }
}

// Whether the line for a command was asked for: every line, or those for commands about one name.
fn is_asked(name: Option<&Name>, command: &LibraryCommand) -> bool
    ensures { result ≡ is_asked (option_map (λ n. n.now) name.entry) command.now }
{
    match name {
        Some(name) => name_of(command).bytes() == name.bytes(),
        None => true,
    }
}

// The SHA-256 of a source as text.
fn digest_text(alloc: Global, source: &[u8]) -> Result<String, AllocError>
    ensures { IfOk result (λ text. string_bytes text ≡ encode_lower (sha256 source.now)) }
{
    let digest = Sha256::digest(source);
    hex::encode(alloc, digest.as_slice())
}

// Writes the hash of a source, if hashes are asked for.
#[tactic(auto, using(cc_answers::proofs::Writing::written_on))]
fn write_hash<W: Write>(
    alloc: Global,
    is_hashed: bool,
    source: &[u8],
    writer: &mut W,
) -> io::Result<()>
    ensures { OnOk result (Appends (W.contents writer.old) (W.contents writer.new) (hash_text is_hashed source.now)) }
{
    if !is_hashed {
        return Ok(());
    }
    let digest = digest_text(alloc, source)?;
    writer.write_all(b" ")?;
    writer.write_all(digest.as_bytes())
}

// Writes the name of a unit, the number of bytes of its source, and the number of words of its code.
#[tactic(auto, using(cc_answers::proofs::Writing::written_on))]
fn write_lengths<W: Write>(name: &Name, unit: &StoredUnit, writer: &mut W) -> io::Result<()>
    ensures { OnOk result (Appends (W.contents writer.old) (W.contents writer.new) (lengths_text name.now unit.now)) }
{
    let source = unit.source.bytes().len();
    let code = unit.image.code.words().len();
    writer.write_all(name.bytes())?;
    write!(writer, " {source} {code}")
}

// Writes the name of a unit, the number of bytes of its source, the number of words of its code, and perhaps the hash of the source.
#[tactic(auto, using(cc_answers::proofs::Writing::written_third))]
fn write_unit<W: Write>(
    alloc: Global,
    is_hashed: bool,
    name: &Name,
    unit: &SharedUnit,
    writer: &mut W,
) -> io::Result<()>
    ensures { OnOk result (Appends (W.contents writer.old) (W.contents writer.new) (unit_text is_hashed name.now unit.now)) }
{
    let unit = unit.stored();
    write_lengths(name, unit, writer)?;
    write_hash(alloc, is_hashed, unit.source.bytes(), writer)?;
    writer.write_all(b"\n")
}

// Writes what a command does.
#[tactic(auto, using(cc_answers::proofs::Writing::written_on, cc_answers::proofs::Writing::written_third))]
fn write_command<W: Write>(
    alloc: Global,
    is_hashed: bool,
    command: &LibraryCommand,
    writer: &mut W,
) -> io::Result<()>
    ensures { OnOk result (Appends (W.contents writer.old) (W.contents writer.new) (command_text is_hashed command.now)) }
{
    match command {
        LibraryCommand::Add(name, unit) => {
            writer.write_all(b" add ")?;
            write_unit(alloc, is_hashed, name, unit, writer)
        }
        LibraryCommand::Replace(name, unit) => {
            writer.write_all(b" replace ")?;
            write_unit(alloc, is_hashed, name, unit, writer)
        }
        LibraryCommand::Withdraw(name) => {
            writer.write_all(b" withdraw ")?;
            writer.write_all(name.bytes())?;
            writer.write_all(b"\n")
        }
    }
}

// Writes the line for a command, if that command was asked for.
#[tactic(auto, using(cc_answers::proofs::Writing::written_on))]
fn write_line<W: Write>(
    alloc: Global,
    is_hashed: bool,
    number: usize,
    name: Option<&Name>,
    command: &LibraryCommand,
    writer: &mut W,
) -> io::Result<()>
    ensures { OnOk result (Appends (W.contents writer.old) (W.contents writer.new) (line_text is_hashed (option_map (λ n. n.now) name.entry) number command.now)) }
{
    if !is_asked(name, command) {
        return Ok(());
    }
    write!(writer, "{number}")?;
    write_command(alloc, is_hashed, command, writer)
}

/// Writes a line for each command, or, if a name is given, for each command about that name. A line has the command's number,
/// counted from 1; what the command does; and, if it stores a unit, the number of bytes of the unit's source and the number of
/// words of its code, and, if hashes are asked for, the SHA-256 of the source in 64 digits. Fails if the writer failed, or memory ran
/// out for a hash.
pub fn write_log<W: Write>(
    alloc: Global,
    is_hashed: bool,
    commands: &[LibraryCommand],
    name: Option<&Name>,
    writer: &mut W,
) -> io::Result<()>
    ensures { OnOk result (Appends (W.contents writer.old) (W.contents writer.new) (log_text is_hashed (option_map (λ n. n.now) name.entry) commands.now)) }
{
    for i in 0..commands.len() {
        write_line(alloc, is_hashed, i + 1, name, &commands[i], writer)?;
    }
    Ok(())
}
