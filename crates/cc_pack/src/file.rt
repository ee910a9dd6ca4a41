// A unit's file is written and read.

ghost use Rattle.std.specs.Prelude.{◌≡◌, ◌↔◌, IsTrue, IfOk, IfErr, MatchOption};
ghost use Rattle.std.specs.String.{string_bytes};
ghost use Rattle.hex.specs.Hex.{encode_lower};
ghost use Rattle.sha2.specs.Sha256.{sha256};
ghost use Rattle.cc_pack.specs.File.{IsUnread, file_text, line_text, mode_word};
ghost use Rattle.cc_pack.specs.internal.Head.{IsNoFileIn, head_text};

use crate::fault::PackFault;
use sha2::{Digest, Sha256};
use std::alloc::{AllocError, Global};

/// How the line begins: the form's name and its version.
const BEGIN: &[u8] = b"cclib-unit 1 ";

/// How many bytes come between the modes and the body: a space, two digits for each byte of the digest, and a newline.
const AFTER: usize = 66;

/// In which modes an audit confirms a unit.
#[derive(Clone, Copy, Debug, Drop, PartialEq, Eq)]
pub enum ConfirmedIn {
    /// As a plain one, and not as a checked one.
    Plain,
    /// As a checked one, and not as a plain one.
    Checked,
    /// As a plain and as a checked one: it needs no test.
    Both,
    /// In no mode.
    Neither,
}

/// What a unit's file has.
#[derive(Clone, Copy, Drop)]
pub struct Packed<'a> {
    /// The modes in which, as it says, an audit confirms the unit.
    pub confirmed: ConfirmedIn,
    /// The bytes after the line.
    pub body: &'a [u8],
}

// The word for the modes.
fn word_of(confirmed: ConfirmedIn) -> &'static [u8]
    ensures { result.now ≡ mode_word confirmed }
{
    match confirmed {
        ConfirmedIn::Plain => b"plain",
        ConfirmedIn::Checked => b"checked",
        ConfirmedIn::Both => b"both",
        ConfirmedIn::Neither => b"none",
    }
}

// The digest of some bytes, as text.
fn digest_text(alloc: Global, body: &[u8]) -> Result<String, AllocError>
    ensures { IfOk result (λ text. string_bytes text ≡ encode_lower (sha256 body.now)) }
{
    let digest = Sha256::digest(body);
    hex::encode(alloc, digest.as_slice())
}

/// The line of a unit's file, without its newline.
pub fn line_of(alloc: Global, confirmed: ConfirmedIn, body: &[u8]) -> Result<Vec<u8>, AllocError>
    ensures { IfOk result (λ line. line.items ≡ line_text confirmed body.now) }
{
    let digest = digest_text(alloc, body)?;
    let mut line = Vec::from_slice(alloc, BEGIN)?;
    line.extend_from_slice(word_of(confirmed))?;
    line.extend_from_slice(b" ")?;
    line.extend_from_slice(digest.as_bytes())?;
    Ok(line)
}

// The line of a unit's file, and its newline.
fn head_of(alloc: Global, confirmed: ConfirmedIn, body: &[u8]) -> Result<Vec<u8>, AllocError>
    ensures { IfOk result (λ head. head.items ≡ head_text confirmed body.now) }
{
    let mut head = line_of(alloc, confirmed, body)?;
    head.extend_from_slice(b"\n")?;
    Ok(head)
}

/// The file of a unit: the line, a newline, and the body.
pub fn write_file(alloc: Global, confirmed: ConfirmedIn, body: &[u8]) -> Result<Vec<u8>, AllocError>
    ensures { IfOk result (λ file. file.items ≡ file_text confirmed body.now) }
{
    let mut file = head_of(alloc, confirmed, body)?;
    file.extend_from_slice(body)?;
    Ok(file)
}

// Whether two pieces have the same bytes.
fn are_same(one: &[u8], other: &[u8]) -> bool
    ensures { IsTrue result ↔ (one.now ≡ other.now) }
{
    one == other
}

// The body of a file, if the file says these modes.
fn body_in(alloc: Global, confirmed: ConfirmedIn, file: &[u8]) -> Result<Option<&[u8]>, AllocError>
    ensures { IfOk result (λ found. MatchOption found (IsNoFileIn confirmed file.now) (λ body. file.now ≡ file_text confirmed body.now)) }
{
    let length = BEGIN.len() + word_of(confirmed).len() + AFTER;
    if file.len() < length {
        return Ok(None);
    }
    let (head, body) = file.split_at(length);
    let wanted = head_of(alloc, confirmed, body)?;
    if are_same(head, wanted.as_slice()) {
        Ok(Some(body))
    } else {
        Ok(None)
    }
}

/// What a unit's file has.
///
/// 37 exactly if the bytes are those of no file: another form or version, another word, a digest that is not that of the rest. 40 if
/// memory ran out.
pub fn read_file(alloc: Global, file: &[u8]) -> Result<Packed<'_>, PackFault>
    ensures read { IfOk result (λ it. file.now ≡ file_text it.confirmed it.body.now) }
    ensures refused { IfErr result (IsUnread file.now) }
{
    let plain = body_in(alloc, ConfirmedIn::Plain, file)?;
    match plain {
        Some(body) => {
            let confirmed = ConfirmedIn::Plain;
            return Ok(Packed { confirmed, body });
        }
        None => {}
    }
    let checked = body_in(alloc, ConfirmedIn::Checked, file)?;
    match checked {
        Some(body) => {
            let confirmed = ConfirmedIn::Checked;
            return Ok(Packed { confirmed, body });
        }
        None => {}
    }
    let both = body_in(alloc, ConfirmedIn::Both, file)?;
    match both {
        Some(body) => {
            let confirmed = ConfirmedIn::Both;
            return Ok(Packed { confirmed, body });
        }
        None => {}
    }
    let neither = body_in(alloc, ConfirmedIn::Neither, file)?;
    match neither {
        Some(body) => {
            let confirmed = ConfirmedIn::Neither;
            return Ok(Packed { confirmed, body });
        }
        None => {}
    }
    Err(PackFault::Damaged)
}
