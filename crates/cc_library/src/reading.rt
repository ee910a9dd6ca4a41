// Reading a command from the body of a record.

ghost use Rattle.std.specs.Prelude.{◌≡◌, ◌≤◌, ◌*◌, length, drop, IfOk};
ghost use Rattle.cc_library.specs.Change.{LibraryCommand};
ghost use Rattle.cc_library.specs.Body.{Spells};
ghost use Rattle.cc_library.specs.internal.Reading.{byte_in, taken, number_in, words_in, words_field_in, source_in, name_in, certificate_in, unit_in, kind_in, command_in};
ghost use Rattle.cc_library.specs.Answers.{Gives};

use crate::command::LibraryCommand;
use crate::name::Name;
use crate::unit::SharedUnit;
use cc_rv32::image::{Code, Globals, Image};
use cc_unit::{Certificate, Source, StoredUnit};
use std::alloc::{AllocError, AllocFailed, Global};
use std::sync::Arc;

/// Why no command was read.
#[derive(Clone, Copy, Debug)]
pub enum ReadFault {
    /// The bytes are not a command.
    NoCommand,
    /// Memory ran out.
    OutOfMemory,
}

impl From<AllocError> for ReadFault {
    ghost use Rattle.cc_library.specs.declared.reading.ReadFault.TheVariants as fault;

    ghost from_gives = { λ _ e. e ≡ fault.OutOfMemory };

    fn from(_: AllocError) -> ReadFault {
        ReadFault::OutOfMemory
    }
}

impl<T: Drop> From<AllocFailed<T>> for ReadFault {
    ghost use Rattle.cc_library.specs.declared.reading.ReadFault.TheVariants as fault;

    ghost from_gives = { λ _ e. e ≡ fault.OutOfMemory };

    fn from(_: AllocFailed<T>) -> ReadFault {
        ReadFault::OutOfMemory
    }
}

/// The command that these bytes spell as a whole. Err: they spell no command, or memory ran out.
pub fn read_command(alloc: Global, bytes: &[u8]) -> Result<LibraryCommand, ReadFault>
    // The bytes spell the command that is read.
    ensures answer { IfOk result (λ command. Spells bytes.now command) }
    // Bytes that spell a command are read as this command, and are not refused as `NoCommand`.
    ensures only { (command : LibraryCommand) → Spells bytes.now command → Gives (λ c. c) result (Some command) }
{
    command_at(alloc, bytes)
}

#[tactic(auto, unfolding(crate::specs::internal::Reading::command_in))]
fn command_at(alloc: Global, bytes: &[u8]) -> Result<LibraryCommand, ReadFault>
    ensures { Gives (λ command. command) result (command_in bytes.now) }
{
    let (version, rest) = byte_at(bytes)?;
    let (kind, rest) = byte_at(rest)?;
    let (name, rest) = name_at(rest)?;
    let (command, rest) = kind_at(alloc, version, kind, name, rest)?;
    if (version == 1 || version == 2) && rest.is_empty() {
        Ok(command)
    } else {
        drop(command);
        Err(ReadFault::NoCommand)
    }
}

#[tactic(auto, unfolding(crate::specs::internal::Reading::kind_in))]
fn kind_at(
    alloc: Global,
    version: u8,
    kind: u8,
    name: Name,
    bytes: &[u8],
) -> Result<(LibraryCommand, &[u8]), ReadFault>
    ensures { Gives (λ x. (x.0, x.1.now)) result (kind_in version kind name bytes.now) }
{
    match kind {
        1 => {
            let (unit, rest) = unit_at(alloc, version, bytes)?;
            Ok((LibraryCommand::Add(name, unit), rest))
        }
        2 => {
            let (unit, rest) = unit_at(alloc, version, bytes)?;
            Ok((LibraryCommand::Replace(name, unit), rest))
        }
        3 => Ok((LibraryCommand::Withdraw(name), bytes)),
        _ => Err(ReadFault::NoCommand),
    }
}

#[tactic(auto, unfolding(crate::specs::internal::Reading::unit_in))]
fn unit_at(alloc: Global, version: u8, bytes: &[u8]) -> Result<(SharedUnit, &[u8]), ReadFault>
    ensures { Gives (λ x. (x.0, x.1.now)) result (unit_in version bytes.now) }
{
    let (source, rest) = source_at(alloc, bytes)?;
    let (code, rest) = code_at(alloc, rest)?;
    let (globals, rest) = globals_at(alloc, rest)?;
    let (certificate, rest) = certificate_at(alloc, version, rest)?;
    let unit = StoredUnit {
        source,
        image: Image { code, globals },
        certificate,
    };
    Ok((SharedUnit::new(Arc::new(alloc, unit)?), rest))
}

// The certificate of a unit, which only version 2 has. Its bytes are not looked at.
#[tactic(auto, unfolding(crate::specs::internal::Reading::certificate_in))]
fn certificate_at(
    alloc: Global,
    version: u8,
    bytes: &[u8],
) -> Result<(Option<Certificate>, &[u8]), ReadFault>
    ensures { Gives (λ x. (x.0, x.1.now)) result (certificate_in version bytes.now) }
{
    if version != 2 {
        return Ok((None, bytes));
    }
    let (count, rest) = number_at(bytes)?;
    let (prefix, rest) = bytes_at(count as usize, rest)?;
    let bytes = Vec::from_slice(alloc, prefix)?;
    Ok((Some(Certificate::new(bytes)), rest))
}

#[tactic(auto, unfolding(crate::specs::internal::Reading::source_in))]
fn source_at(alloc: Global, bytes: &[u8]) -> Result<(Source, &[u8]), ReadFault>
    ensures { Gives (λ x. (x.0, x.1.now)) result (source_in bytes.now) }
{
    let (count, rest) = number_at(bytes)?;
    if count > 65_536 {
        return Err(ReadFault::NoCommand);
    }
    let (prefix, rest) = bytes_at(count as usize, rest)?;
    match Source::new(Vec::from_slice(alloc, prefix)?) {
        Ok(source) => Ok((source, rest)),
        Err(_) => Err(ReadFault::NoCommand),
    }
}

fn code_at(alloc: Global, bytes: &[u8]) -> Result<(Code, &[u8]), ReadFault>
    ensures { Gives (λ x. (x.0, x.1.now)) result (words_field_in 1 131072 bytes.now) }
{
    let (words, rest) = words_field_at(alloc, 1, 131_072, bytes)?;
    match Code::new(words) {
        Ok(code) => Ok((code, rest)),
        Err(_) => Err(ReadFault::NoCommand),
    }
}

fn globals_at(alloc: Global, bytes: &[u8]) -> Result<(Globals, &[u8]), ReadFault>
    ensures { Gives (λ x. (x.0, x.1.now)) result (words_field_in 0 65536 bytes.now) }
{
    let (words, rest) = words_field_at(alloc, 0, 65_536, bytes)?;
    match Globals::new(words) {
        Ok(globals) => Ok((globals, rest)),
        Err(_) => Err(ReadFault::NoCommand),
    }
}

#[tactic(auto, unfolding(crate::specs::internal::Reading::name_in))]
fn name_at(bytes: &[u8]) -> Result<(Name, &[u8]), ReadFault>
    ensures { Gives (λ x. (x.0, x.1.now)) result (name_in bytes.now) }
{
    let (count, rest) = byte_at(bytes)?;
    let (prefix, rest) = bytes_at(count as usize, rest)?;
    match Name::new(prefix) {
        Ok(name) => Ok((name, rest)),
        Err(_) => Err(ReadFault::NoCommand),
    }
}

// A count of words, from `least` to `most`, and that many words.
#[tactic(auto, unfolding(crate::specs::internal::Reading::words_field_in))]
fn words_field_at(
    alloc: Global,
    least: u32,
    most: u32,
    bytes: &[u8],
) -> Result<(Vec<u32>, &[u8]), ReadFault>
    ensures given { Gives (λ x. (x.0.items, x.1.now)) result (words_field_in least most bytes.now) }
    ensures least { IfOk result (λ x. least ≤ length x.0.items) }
    ensures most { IfOk result (λ x. length x.0.items ≤ most) }
{
    let (count, rest) = number_at(bytes)?;
    if count < least || most < count {
        return Err(ReadFault::NoCommand);
    }
    words_at(alloc, count, rest)
}

fn words_at(alloc: Global, count: u32, bytes: &[u8]) -> Result<(Vec<u32>, &[u8]), ReadFault>
    ensures given { Gives (λ x. (x.0.items, x.1.now)) result (words_in count bytes.now) }
    ensures counted { IfOk result (λ x. length x.0.items ≡ count) }
{
    let count = count as usize;
    let (_, rest) = bytes_at(4 * count, bytes)?;
    // The words are read in place: one call of `Vec` per word would take longer than reading the word's bytes.
    let mut words = Vec::with_capacity(alloc, count)?;
    words.resize(count, 0)?;
    fill_from(&mut words, bytes);
    Ok((words, rest))
}

// Reads the words at the start of these bytes, as many as `words` has room for, each from four bytes, the lowest first.
fn fill_from(words: &mut [u32], bytes: &[u8])
    requires { 4 * length words.old ≤ length bytes.now }
    ensures read { words_in (length words.old) bytes.now ≡ Some (words.new, drop (4 * length words.old) bytes.now) }
    ensures counted { length words.new ≡ length words.old }
{
    for i in 0..words.len() {
        words[i] = u32::from_le_bytes([
            bytes[4 * i],
            bytes[4 * i + 1],
            bytes[4 * i + 2],
            bytes[4 * i + 3],
        ]);
    }
}

fn number_at(bytes: &[u8]) -> Result<(u32, &[u8]), ReadFault>
    ensures { Gives (λ x. (x.0, x.1.now)) result (number_in bytes.now) }
{
    let (prefix, rest) = bytes_at(4, bytes)?;
    let number = u32::from_le_bytes([prefix[0], prefix[1], prefix[2], prefix[3]]);
    Ok((number, rest))
}

fn bytes_at(count: usize, bytes: &[u8]) -> Result<(&[u8], &[u8]), ReadFault>
    ensures given { Gives (λ x. (x.0.now, x.1.now)) result (taken count bytes.now) }
    ensures counted { IfOk result (λ x. length x.0.now ≡ count) }
{
    if bytes.len() < count {
        return Err(ReadFault::NoCommand);
    }
    Ok(bytes.split_at(count))
}

fn byte_at(bytes: &[u8]) -> Result<(u8, &[u8]), ReadFault>
    ensures { Gives (λ x. (x.0, x.1.now)) result (byte_in bytes.now) }
{
    match bytes {
        [] => Err(ReadFault::NoCommand),
        [byte, rest @ ..] => Ok((*byte, rest)),
    }
}
