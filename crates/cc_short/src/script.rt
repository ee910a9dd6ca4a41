// The script of a short command.

ghost use Rattle.std.specs.Prelude.{◌≡◌, ◌≢◌, ◌≤◌, ◌↔◌, ◌++◌, ◌∷◌, IsTrue, IfOk, IfErr, codes, length};
ghost use Rattle.std.specs.Fmt.{decimal};
ghost use Rattle.cc_short.specs.Short.{HasName, IsName, IsRefused, IsScriptOf, name_of, source_of};
ghost use Rattle.cc_short.specs.internal.Text.{line_text};

use crate::fault::ShortFault;
use std::alloc::{AllocError, Global};

/// A source has at most this many bytes.
pub const MOST_SOURCE: usize = 65_536;

/// A name has at most this many bytes.
const MOST_NAME: usize = 32;

/// What a short command asks of a session.
#[derive(Clone, Copy, Drop)]
pub enum ShortCommand<'a> {
    /// Add a unit under the name, compiled from the source.
    Add { name: &'a [u8], source: &'a [u8] },
    /// Replace the unit under the name by one that is compiled from the source.
    Replace { name: &'a [u8], source: &'a [u8] },
    /// Withdraw the unit under the name.
    Withdraw { name: &'a [u8] },
    /// List the names of all units.
    List,
    /// Write the library again, with one record for each unit.
    Compact,
    /// Audit each unit by its certificate.
    Audit,
}

// Whether a byte is no space and no newline.
fn is_plain(byte: u8) -> bool
    ensures { IsTrue result ↔ ((byte ≢ 32) × (byte ≢ 10)) }
{
    byte != b' ' && byte != b'\n'
}

// Whether a line can have these bytes as a name.
fn is_name(name: &[u8]) -> bool
    ensures { IsTrue result ↔ IsName name.now }
{
    if name.is_empty() || name.len() > MOST_NAME {
        return false;
    }
    for i in 0..name.len() {
        if !is_plain(name[i]) {
            return false;
        }
    }
    true
}

// Whether a line can have the name of this command, if it has one.
fn has_name(command: ShortCommand<'_>) -> bool
    ensures { IsTrue result ↔ HasName (name_of command.entry) }
{
    match command {
        ShortCommand::Add { name, .. }
        | ShortCommand::Replace { name, .. }
        | ShortCommand::Withdraw { name } => is_name(name),
        ShortCommand::List | ShortCommand::Compact | ShortCommand::Audit => true,
    }
}

// The source that comes after the line of this command; no bytes for most.
fn source_in<'a>(command: ShortCommand<'a>) -> &'a [u8]
    ensures { result.now ≡ source_of command.entry }
{
    match command {
        ShortCommand::Add { source, .. } | ShortCommand::Replace { source, .. } => source,
        ShortCommand::Withdraw { .. }
        | ShortCommand::List
        | ShortCommand::Compact
        | ShortCommand::Audit => b"",
    }
}

// A line of a verb and a name.
fn named_line(alloc: Global, verb: &[u8], name: &[u8]) -> Result<Vec<u8>, AllocError>
    ensures { IfOk result (λ line. line.items ≡ verb.now ++ 32 ∷ name.now) }
{
    let mut line = Vec::from_slice(alloc, verb)?;
    line.push(b' ')?;
    line.extend_from_slice(name)?;
    Ok(line)
}

// A line of a verb, a name and a number.
fn counted_line(
    alloc: Global,
    verb: &[u8],
    name: &[u8],
    count: usize,
) -> Result<Vec<u8>, AllocError>
    ensures { IfOk result (λ line. line.items ≡ verb.now ++ 32 ∷ name.now ++ 32 ∷ decimal count) }
{
    let mut line = named_line(alloc, verb, name)?;
    let digits = format!(in alloc; "{count}")?;
    line.push(b' ')?;
    line.extend_from_slice(digits.as_bytes())?;
    Ok(line)
}

// The line of this command.
fn line_of(alloc: Global, command: ShortCommand<'_>) -> Result<Vec<u8>, AllocError>
    ensures { IfOk result (λ line. line.items ≡ line_text command.entry) }
{
    match command {
        ShortCommand::Add { name, source } => counted_line(alloc, b"add", name, source.len()),
        ShortCommand::Replace { name, source } => {
            counted_line(alloc, b"replace", name, source.len())
        }
        ShortCommand::Withdraw { name } => named_line(alloc, b"withdraw", name),
        ShortCommand::List => Vec::from_slice(alloc, b"list"),
        ShortCommand::Compact => Vec::from_slice(alloc, b"compact"),
        ShortCommand::Audit => Vec::from_slice(alloc, b"audit"),
    }
}

// The line of this command, a newline, and the source.
fn whole_script(
    alloc: Global,
    command: ShortCommand<'_>,
    source: &[u8],
) -> Result<Vec<u8>, AllocError>
    ensures { IfOk result (λ script. script.items ≡ line_text command.entry ++ 10 ∷ source.now) }
{
    let mut script = line_of(alloc, command)?;
    script.push(b'\n')?;
    script.extend_from_slice(source)?;
    Ok(script)
}

/// The script that has this command alone: one line, which a session reads as this command, and the source, if the command has one.
///
/// 33 if the name is empty, has more than 32 bytes, or has a space or a newline: then no line of a script can have it, or no unit can;
/// which other bytes are no name, the session says. 7 if the source has more than 65,536 bytes. 40 if memory ran out.
#[tactic(auto, using(crate::proofs::Lines::is_script))]
pub fn script_of(alloc: Global, command: ShortCommand<'_>) -> Result<Vec<u8>, ShortFault>
    ensures script { IfOk result (λ script. IsScriptOf command.entry script.items) }
    ensures refused { IfErr result (λ fault. IsRefused command.entry fault) }
{
    if !has_name(command) {
        return Err(ShortFault::BadName);
    }
    let source = source_in(command);
    if source.len() > MOST_SOURCE {
        return Err(ShortFault::SourceTooLarge);
    }
    Ok(whole_script(alloc, command, source)?)
}
