// Writing a command as the body of a record.

ghost use Rattle.std.specs.Prelude.{◌≡◌, ◌+◌, ◌*◌, ◌++◌, ◌<◌, ◌≤◌, ◌^◌, length, IfOk, IsTrue, OnOk};
ghost use Rattle.std.specs.Int.{w32, to_le_bytes};
ghost use Rattle.std.specs.List.{flat_map};
ghost use Rattle.std.specs.Option.{option_map};
ghost use Rattle.cc_library.specs.Name.{is_name};
ghost use Rattle.cc_library.specs.Body.{AreBelow, HasShort, HasUnit, HoldsUnit, IsCertificate, IsCommand, IsShort, IsUnit, body_bytes, body_of, certificate_part, part_version, unit_fields, unit_part, words_field};

use crate::command::{Kind, LibraryCommand};
use crate::name::Name;
use cc_journal::{Body, CLOSED};
use cc_unit::{Certificate, StoredUnit};
use std::alloc::{AllocError, Global};

/// The body of a record for a command of this kind: the version, which is 1 for a unit without a certificate and otherwise 2; the kind's
/// byte; the name's length as one byte, and the name; for Add and Replace the source's length, the source, the number of code words, the
/// code words, the number of global words, and the global words; and, for a unit with a certificate, the certificate's length and the
/// certificate. Each number and word is four bytes, the lowest first. A certificate has at most 4,294,967,295 bytes. Err: memory ran out.
pub fn command_body(
    alloc: Global,
    kind: Kind,
    name: &Name,
    unit: Option<&StoredUnit>,
) -> Result<Vec<u8>, AllocError>
    requires unit { HasUnit kind (option_map (λ u. u.now) unit) }
    requires short { HasShort (option_map (λ u. u.now) unit) }
    ensures spelled { IfOk result (λ body. body.items ≡ body_bytes kind name.now (option_map (λ u. u.now) unit.entry)) }
    // If a body is made, the name and the unit keep their limits.
    ensures name { OnOk result (IsTrue (is_name name.now)) }
    ensures unit { OnOk result (HoldsUnit (option_map (λ u. u.now) unit.entry)) }
{
    let mut body = Vec::with_capacity(alloc, length_with(name.bytes(), unit))?;
    put_command(&mut body, kind, name, unit)?;
    Ok(body)
}

/// The number of bytes that the body of a command's record takes. The call takes no memory.
pub fn body_length(command: &LibraryCommand) -> usize
    ensures length { result ≡ length (body_of command.now) }
    // Only a certificate can be too long for a body.
    ensures command { result < 2 ^ 32 → IsCommand command.now }
{
    match command {
        LibraryCommand::Add(name, unit) | LibraryCommand::Replace(name, unit) => {
            length_with(name.bytes(), Some(unit.stored()))
        }
        LibraryCommand::Withdraw(name) => length_with(name.bytes(), None),
    }
}

/// The body of a command's record. The body's length must fit in four bytes. Err: memory ran out.
pub fn body_of_command(alloc: Global, command: &LibraryCommand) -> Result<Vec<u8>, AllocError>
    requires { length (body_of command.now) < 2 ^ 32 }
    ensures written { IfOk result (λ body. body.items ≡ body_of command.now) }
    ensures command { OnOk result (IsCommand command.now) }
{
    Ok(framed_body_of_command(alloc, command)?.into_vec())
}

// Like `body_of_command`, but with the bytes around the body in its record, so that the body is written and kept without a copy.
pub(crate) fn framed_body_of_command(
    alloc: Global,
    command: &LibraryCommand,
) -> Result<Body, AllocError>
    requires { length (body_of command.now) < 2 ^ 32 }
    ensures written { IfOk result (λ body. body ≡ body_of command.now) }
    ensures command { OnOk result (IsCommand command.now) }
{
    match command {
        LibraryCommand::Add(name, unit) => framed_body(alloc, Kind::Add, name, Some(unit.stored())),
        LibraryCommand::Replace(name, unit) => framed_body(
            alloc,
            Kind::Replace,
            name,
            Some(unit.stored()),
        ),
        LibraryCommand::Withdraw(name) => framed_body(alloc, Kind::Withdraw, name, None),
    }
}

// Like `command_body`, but with the bytes around the body in its record.
pub(crate) fn framed_body(
    alloc: Global,
    kind: Kind,
    name: &Name,
    unit: Option<&StoredUnit>,
) -> Result<Body, AllocError>
    requires unit { HasUnit kind (option_map (λ u. u.now) unit) }
    requires short { length (body_bytes kind name.now (option_map (λ u. u.now) unit)) < 2 ^ 32 }
    ensures spelled { IfOk result (λ body. body ≡ body_bytes kind name.now (option_map (λ u. u.now) unit.entry)) }
    ensures name { OnOk result (IsTrue (is_name name.now)) }
    ensures unit { OnOk result (HoldsUnit (option_map (λ u. u.now) unit.entry)) }
{
    let length = length_with(name.bytes(), unit);
    // Memory is taken once, for the body, the length before it and the gate after it.
    let mut bytes = Vec::with_capacity(alloc, length + 5)?;
    bytes.extend_from_slice(&(length as u32).to_le_bytes())?;
    put_command(&mut bytes, kind, name, unit)?;
    bytes.push(CLOSED)?;
    Ok(Body::from_framed(bytes))
}

// Adds the body of a command.
fn put_command(
    body: &mut Vec<u8>,
    kind: Kind,
    name: &Name,
    unit: Option<&StoredUnit>,
) -> Result<(), AllocError>
    requires unit { HasUnit kind (option_map (λ u. u.now) unit) }
    requires short { HasShort (option_map (λ u. u.now) unit) }
    ensures put { OnOk result (body.new.items ≡ body.old.items ++ body_bytes kind name.now (option_map (λ u. u.now) unit.entry)) }
    ensures name { OnOk result (IsTrue (is_name name.now)) }
    ensures unit { OnOk result (HoldsUnit (option_map (λ u. u.now) unit.entry)) }
{
    let bytes = name.bytes();
    body.extend_from_slice(&[version_with(unit), kind.number(), bytes.len() as u8])?;
    body.extend_from_slice(bytes)?;
    if let Some(unit) = unit {
        put_unit(body, unit)?;
    }
    Ok(())
}

// The version in which a command with this unit, or without a unit, is written.
fn version_with(unit: Option<&StoredUnit>) -> u8
    ensures { result ≡ part_version (option_map (λ u. u.now) unit.entry) }
{
    match unit {
        Some(unit) => match &unit.certificate {
            Some(_) => 2,
            None => 1,
        },
        None => 2,
    }
}

// The number of bytes that the body of a command with this name and unit takes.
pub(crate) fn length_with(name: &[u8], unit: Option<&StoredUnit>) -> usize
    requires { length name.now < 256 }
    ensures length { result ≡ 3 + length name.now + length (unit_part (option_map (λ u. u.now) unit.entry)) }
    ensures small { result < 2 ^ 63 + 2 ^ 21 }
    ensures unit { result < 2 ^ 32 → HoldsUnit (option_map (λ u. u.now) unit.entry) }
{
    match unit {
        Some(unit) => 3 + name.len() + unit_length(unit),
        None => 3 + name.len(),
    }
}

// The number of bytes that the fields of a unit take.
#[tactic(auto, using(crate::proofs::Sizes::unit_parts))]
fn unit_length(unit: &StoredUnit) -> usize
    ensures length { result ≡ length (unit_fields unit.now) }
    ensures small { result < 2 ^ 63 + 2 ^ 20 }
    ensures unit { result < 2 ^ 32 → IsUnit unit.now }
{
    let source = unit.source.bytes();
    let code = unit.image.code.words();
    let globals = unit.image.globals.words();
    let of_source = field_length(source);
    let of_code = words_length(code);
    let of_globals = words_length(globals);
    let of_certificate = certificate_length(&unit.certificate);
    of_source + of_code + of_globals + of_certificate
}

// The number of bytes that a certificate takes, or 0 without a certificate.
fn certificate_length(certificate: &Option<Certificate>) -> usize
    ensures length { result ≡ length (certificate_part certificate.now) }
    ensures small { result < 2 ^ 63 + 4 }
    ensures certificate { result < 2 ^ 32 → IsCertificate certificate.now }
{
    match certificate {
        Some(certificate) => field_length(certificate.bytes()),
        None => 0,
    }
}

// The number of bytes that a list of bytes takes together with its length.
fn field_length(bytes: &[u8]) -> usize
    ensures length { result ≡ 4 + length bytes.now }
    ensures small { result < 2 ^ 63 + 4 }
    ensures bytes { AreBelow (2 ^ 8) bytes.now }
{
    4 + bytes.len()
}

// The number of bytes that a list of words takes together with its count.
fn words_length(words: &[u32]) -> usize
    requires { length words.now ≤ 131072 }
    ensures length { result ≡ 4 + 4 * length words.now }
    ensures words { AreBelow (2 ^ 32) words.now }
{
    4 + 4 * words.len()
}

// Adds the fields of a unit.
fn put_unit(body: &mut Vec<u8>, unit: &StoredUnit) -> Result<(), AllocError>
    requires { IsShort unit.now.certificate }
    ensures put { OnOk result (body.new.items ≡ body.old.items ++ unit_fields unit.now) }
    ensures unit { OnOk result (IsUnit unit.now) }
{
    let source = unit.source.bytes();
    body.extend_from_slice(&(source.len() as u32).to_le_bytes())?;
    body.extend_from_slice(source)?;
    let code = unit.image.code.words();
    put_words(body, code)?;
    let globals = unit.image.globals.words();
    put_words(body, globals)?;
    put_certificate(body, &unit.certificate)
}

// Adds the length of a certificate and the certificate, or nothing if the unit has no certificate.
fn put_certificate(body: &mut Vec<u8>, certificate: &Option<Certificate>) -> Result<(), AllocError>
    requires { IsShort certificate.now }
    ensures put { OnOk result (body.new.items ≡ body.old.items ++ certificate_part certificate.now) }
    ensures certificate { OnOk result (IsCertificate certificate.now) }
{
    if let Some(certificate) = certificate {
        let bytes = certificate.bytes();
        body.extend_from_slice(&(bytes.len() as u32).to_le_bytes())?;
        body.extend_from_slice(bytes)?;
    }
    Ok(())
}

// Adds the number of words, and the words.
fn put_words(body: &mut Vec<u8>, words: &[u32]) -> Result<(), AllocError>
    requires { length words.now < 2 ^ 32 }
    ensures { OnOk result (body.new.items ≡ body.old.items ++ words_field words.now) }
{
    body.extend_from_slice(&(words.len() as u32).to_le_bytes())?;
    let start = body.len();
    // The words are written in place: one call of `Vec` per word would take longer than writing the word's bytes.
    body.resize(start + 4 * words.len(), 0)?;
    fill_words(&mut body[start..], words);
    Ok(())
}

// Writes the words one after the other, each as four bytes, the lowest first.
fn fill_words(bytes: &mut [u8], words: &[u32])
    requires { length bytes.old ≡ 4 * length words.now }
    ensures { bytes.new ≡ flat_map (to_le_bytes w32) words.now }
{
    for (i, word) in words.iter().enumerate() {
        let [a, b, c, d] = word.to_le_bytes();
        bytes[4 * i] = a;
        bytes[4 * i + 1] = b;
        bytes[4 * i + 2] = c;
        bytes[4 * i + 3] = d;
    }
}
